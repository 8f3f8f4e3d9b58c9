//! An adapter in a program with a loop of its own, as each debugger and each editor has: a piece at a time.
ghost use Rattle.std.specs.Prelude.{◌≡◌, [], ◌++◌, true, false, IfOk, IfErr, OnOk, OnErr, Some, None, Ok, Err};
ghost use Rattle.dap_adapter.specs.Parts.{AnswersAll, AnswersPiece, StaysEnded, StaysShut, StopsAfter, StopsIfOpen, TellsIfThere, TellsNothing, PartsJoin, CallsInTurnAddUp};
ghost use Rattle.dap_adapter.specs.Polled.{TellPollsFirst};
ghost use Rattle.dap_adapter.specs.PrivateServing.{adapter_fault_of};
ghost use Rattle.dap_adapter.specs.Run.{to_take, to_poll};
ghost use Rattle.dap_plan.specs.Polling.{has_debuggee};

use crate::adapter::Adapter;
use crate::outlet::Gathered;
use crate::served::ServeFault;
use crate::serving::{is_ended, polls, serve_piece};
use dap_debuggee::Debuggee;
use dap_plan::AdapterFault;
use dap_session::Phase;
use std::alloc::Global;
use std::mem;

/// The fault of an adapter that has no channel.
fn adapter_fault(fault: ServeFault) -> AdapterFault
    ensures { result ≡ adapter_fault_of fault }
{
    match fault {
        ServeFault::Adapter(fault) => fault,
        _ => AdapterFault::OutOfMemory,
    }
}

/// Whether there is a debuggee to ask what happened.
fn is_in_a_run(phase: Phase) -> bool
    ensures { result ≡ has_debuggee phase }
{
    matches!(phase, Phase::Running | Phase::Stopped)
}

impl<D: Debuggee + Drop> Adapter<D> {
    /// Uses all of a piece of the client's bytes, of any length, and does for it what `serve` does. Each message in turn is
    /// taken; after it all requests are handled, and the debuggee is asked what happened, at most 65536 times, until it gives
    /// no bytes or is stopped. What is to be written is appended to `out`, which has no limit. A piece that makes no message
    /// whole asks the debuggee nothing.
    ///
    /// It answers whether the session has ended, with the response to `disconnect`: then nothing after that message is used,
    /// and a later call uses nothing and appends nothing.
    ///
    /// # Errors
    /// Those of `take`, `turn` and `poll`, as they come; `OutOfMemory` too where memory is refused for `out`. At each, what was
    /// made before the refused step is in `out`, and the adapter is closed: each later call answers the same fault.
    pub fn answer(
        &mut self,
        alloc: Global,
        piece: &[u8],
        out: &mut Vec<u8>,
    ) -> Result<bool, AdapterFault>
        ensures answers { IfOk result
            (AnswersAll D.shown D.follows self.old piece.now out.old self.new out.new) }
        ensures over { StaysEnded self.old self.new out.old out.new result }
        ensures open { OnOk result (self.new.fault ≡ None) }
        ensures limits { self.new.session.limits ≡ self.old.session.limits }

        // Why it stops; then what was made before is appended, and nothing is held.
        ensures stops { IfErr result
            (StopsIfOpen D.shown D.follows self.old to_take piece.now out.old self.new out.new) }
        ensures held { OnErr result (self.new.intake.held ≡ []) }
        ensures latches { IfErr result (λ fault. self.new.fault ≡ Some fault) }
        ensures latched { StaysShut self.old self.new out.old out.new result }
    {
        if let Some(fault) = self.fault() {
            return Err(fault);
        }
        if is_ended(self.phase()) {
            return Ok(true);
        }
        let mut gathered = Gathered::behind(mem::replace(out, Vec::new(alloc)));
        let served = serve_piece(alloc, self, &mut (), &mut gathered, piece);
        *out = gathered.into_buffer();
        match served {
            Ok(ended) => Ok(ended),
            Err(fault) => {
                let fault = adapter_fault(fault);
                self.close(fault);
                Err(fault)
            }
        }
    }

    /// Uses a piece that comes in two.
    pub(crate) fn answer_in_two(
        &mut self,
        alloc: Global,
        front: &[u8],
        back: &[u8],
        out: &mut Vec<u8>,
    ) -> Result<bool, AdapterFault>
        requires { self.old.fault ≡ None }
        ensures answers { IfOk result (λ ended. AnswersPiece D.shown D.follows self.old (front.now ++ back.now) out.old.items self.new out.new.items ended) }
        ensures open { OnOk result (self.new.fault ≡ None) }
        ensures limits { self.new.session.limits ≡ self.old.session.limits }
        ensures stops { IfErr result (λ fault. StopsAfter D.shown D.follows self.old to_take (front.now ++ back.now) out.old.items fault self.new out.new.items) }
        ensures held { OnErr result (self.new.intake.held ≡ []) }
        ensures latches { IfErr result (λ fault. self.new.fault ≡ Some fault) }
    {
        match self.answer(alloc, front, out) {
            Ok(false) => self.answer(alloc, back, out),
            Ok(true) => Ok(true),
            Err(fault) => Err(fault),
        }
    }

    /// Tells what happened to the debuggee, and appends it to `out`. A debuggee that is stopped is asked once; one that runs
    /// is asked until it gives no bytes, is stopped, or was asked 65536 times. Where `out` has grown, more may be due. A
    /// program calls it when its debugger may have news: by a timer, or while it waits for input.
    ///
    /// # Errors
    /// Those of `poll`; `OutOfMemory` too where memory is refused for `out`. At each, what was made before is in `out`, and the
    /// adapter is closed: each later call answers the same fault.
    pub fn tell(&mut self, alloc: Global, out: &mut Vec<u8>) -> Result<(), AdapterFault>
        ensures tells { TellsIfThere D.shown D.follows self.old self.new out.old out.new result }
        ensures apart { TellsNothing self.old self.new out.old out.new result }
        ensures intake { OnOk result (self.new.intake ≡ self.old.intake) }
        ensures open { OnOk result (self.new.fault ≡ None) }
        ensures limits { self.new.session.limits ≡ self.old.session.limits }

        // Why it stops; then what was made before is appended, and nothing is held.
        ensures stops { IfErr result
            (StopsIfOpen D.shown D.follows self.old (to_poll 0) [] out.old self.new out.new) }
        ensures held { OnErr result (self.new.intake.held ≡ []) }
        ensures latches { IfErr result (λ fault. self.new.fault ≡ Some fault) }
        ensures latched { StaysShut self.old self.new out.old out.new result }
    {
        if let Some(fault) = self.fault() {
            return Err(fault);
        }
        if !is_in_a_run(self.phase()) {
            return Ok(());
        }
        let mut gathered = Gathered::behind(mem::replace(out, Vec::new(alloc)));
        let told = polls(alloc, self, &mut (), &mut gathered);
        *out = gathered.into_buffer();
        match told {
            Ok(()) => Ok(()),
            Err(fault) => {
                let fault = adapter_fault(fault);
                self.close(fault);
                Err(fault)
            }
        }
    }
}

/// A law: parts of runs join to a part, so calls of `answer` one after the other are a part of one run.
pub fn parts_of_a_run_join<D: Debuggee>()
    ensures { PartsJoin D.shown D.follows }
{}

/// A law: whatever calls of `answer` and `tell` a program makes, and in whatever order, what they append is the messages that
/// the adapter's history lists from then on, all of them and nothing else, and each is read again by a client with the same
/// limit on bodies. So each response among them answers one request that was unanswered.
pub fn calls_in_turn_add_up<D: Debuggee>()
    ensures { CallsInTurnAddUp D.shown D.follows }
{}

/// A law: `tell` polls the debuggee, and again only where the poll before told something. What it appends is what the first
/// poll told, and then what the others did.
pub fn tell_polls_first<D: Debuggee>()
    ensures { TellPollsFirst D.shown D.follows }
{}
