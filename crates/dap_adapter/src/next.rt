//! A piece of the stream, message by message.
ghost use Rattle.std.specs.Prelude.{◌≡◌, [], IfOk, IfErr, OnOk, OnErr, None, Ok, Some};
ghost use Rattle.dap_adapter.specs.Calls.{KeepsDebuggee, KeepsDebuggeeUnlessAsked, NextIs, PieceNotTakenUp, Shortens, WhereIdle};
ghost use Rattle.dap_frame.specs.Closed.{StaysClosed};

use crate::adapter::Adapter;
use crate::taken::Came;
use dap_debuggee::Debuggee;
use dap_envelope::Message;
use dap_plan::AdapterFault;
use std::alloc::Global;

impl<D: Debuggee + Drop> Adapter<D> {
    /// Takes bytes of a piece up to its next message, and gives that: a request before it is handled, with all that the client
    /// said in its arguments. `piece` is what is left; `None` where all is used. What is to be written at once is appended to
    /// `out`. A program calls it until it answers `None`, for each piece that comes, and [`Adapter::turn`] where it is to be
    /// handled.
    ///
    /// # Errors
    /// Those of [`Adapter::take`]. `out` and `piece` are then as they were.
    pub fn next(
        &mut self,
        alloc: Global,
        piece: &mut &[u8],
        out: &mut Vec<u8>,
    ) -> Result<Option<Message>, AdapterFault>
        ensures gives { IfOk result (NextIs D.follows self.old piece.old out.old self.new piece.new out.new) }
        ensures progress { OnOk result (Shortens piece.old.now piece.new.now) }
        ensures none { WhereIdle self.old piece.old.now (result ≡ Ok None) }
        ensures idle { WhereIdle self.old piece.old.now (self.new ≡ self.old) }
        ensures idle_piece { WhereIdle self.old piece.old.now (piece.new ≡ piece.old) }
        ensures idle_out { WhereIdle self.old piece.old.now (out.new ≡ out.old) }
        ensures all { IfOk result (λ message. message ≡ None → piece.new.now ≡ []) }
        ensures open { OnOk result (self.new.fault ≡ None) }
        ensures limits { self.new.session.limits ≡ self.old.session.limits }

        // Why it is refused; then nothing is appended, the tables are as they were, and nothing is held.
        ensures refused { IfErr result (PieceNotTakenUp self.old piece.old.now self.new) }
        ensures piece { OnErr result (piece.new.now ≡ piece.old.now) }
        ensures out { OnErr result (out.new.items ≡ out.old.items) }
        ensures tables { OnErr result (self.new.session ≡ self.old.session) }
        ensures debuggee { IfErr result (KeepsDebuggee self.old self.new) }
        ensures unasked { KeepsDebuggeeUnlessAsked self.old self.new result }
        ensures held { OnErr result (self.new.intake.held ≡ []) }
        ensures latches { IfErr result (λ fault. self.new.fault ≡ Some fault) }
        ensures latched { StaysClosed self.old.fault result self.old self.new }
    {
        if let Some(fault) = self.fault() {
            return Err(fault);
        }
        if piece.is_empty() {
            return Ok(None);
        }
        let Came { used, delivered } = match self.take_into(alloc, piece, out) {
            Ok(came) => came,
            Err(fault) => return Err(fault),
        };
        let (_, rest) = piece.split_at(used);
        *piece = rest;
        Ok(delivered)
    }
}
