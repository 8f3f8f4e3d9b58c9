//! A session without the bytes that come: what was sent, what waits, and what is known.
ghost use Rattle.std.specs.Prelude.{◌≡◌, ◌+◌, ◌≤◌, ◌<◌, [], ◌∷◌, ◌++◌, length, IfOk, false};
ghost use Rattle.std.specs.Option.{option_copied};
ghost use Rattle.dap_json.specs.Field.{max_seq};
ghost use Rattle.dap_tables.specs.Outstanding.{contains_seq, entry_with, kept_unparked, without, IsOrderlyRequests};
ghost use Rattle.dap_client.specs.Seen.{after_change};
ghost use Rattle.dap_client.specs.Session.{fresh_session, oldest_of};
ghost use Rattle.dap_call.specs.Terminal.{run_in_terminal};

use crate::change::Change;
use crate::phase::Phase;
use dap_command::Capabilities;
use dap_frame::Limits;
use dap_tables::{Entry, Known, Outstanding, PutFault, Seq};
use std::alloc::{AllocError, Global};
use std::marker::Model;

/// A session without the bytes that come.
#[derive(Drop)]
pub(crate) struct Session {
    pub(crate) limits: Limits,
    pub(crate) phase: Phase,
    pub(crate) ready: bool,
    pub(crate) capabilities: Capabilities,
    pub(crate) resumer: u64,
    pub(crate) known: Known,
    pub(crate) announced: bool,
    pub(crate) outstanding: Outstanding,
    pub(crate) incoming: Outstanding,
    pub(crate) numbers: Seq,
}

impl Model for Session {
    ghost use Rattle.std.specs.Coded.{codes};
    ghost use Rattle.dap_json.specs.Stored.{coded_data};
    ghost use Rattle.dap_client.specs.Session.{Session};
    ghost use Rattle.dap_client.specs.Keeping.{IsSession};

    ghost Value = { Session };

    ghost coded = { Prim.hlevel (codes, coded_data) };

    ghost view = { λ s. record {
      limits = s.limits;
      seen = record { phase = s.phase; ready = s.ready; capabilities = s.capabilities; resumer = s.resumer; known = s.known.pairs; announced = s.announced };
      outstanding = s.outstanding.kept;
      incoming = s.incoming.kept;
      used = s.numbers.used;
    } };

    ghost invariant = { λ s. IsSession s.limits s.known s.outstanding s.incoming s.numbers };
}

impl Session {
    /// A fresh session.
    pub(crate) fn open(alloc: Global, limits: Limits) -> Result<Session, AllocError>
        ensures { IfOk result (λ session. session ≡ fresh_session limits) }
    {
        let known = Known::open(alloc, limits.references())?;
        let outstanding = Outstanding::open(alloc, limits.requests())?;
        let incoming = Outstanding::open(alloc, limits.requests())?;
        let numbers = Seq::open(limits.seq());
        Ok(Session {
            limits,
            phase: Phase::Fresh,
            ready: false,
            capabilities: Capabilities::read(None),
            resumer: 0,
            known,
            announced: false,
            outstanding,
            incoming,
            numbers,
        })
    }

    /// How many requests wait.
    pub(crate) fn outstanding(&self) -> usize
        ensures count { result ≡ length self.now.outstanding }
        ensures bound { result ≤ self.now.limits.requests }
    {
        let _ = &self.limits;
        self.outstanding.len()
    }

    /// How many requests of the adapter are kept.
    pub(crate) fn incoming(&self) -> usize
        ensures count { result ≡ length self.now.incoming }
        ensures bound { result ≤ self.now.limits.requests }
    {
        let _ = &self.limits;
        self.incoming.len()
    }

    /// The number of the oldest one.
    pub(crate) fn oldest_incoming(&self) -> Option<u64>
        ensures { result ≡ oldest_of self.now.incoming }
    {
        self.incoming.oldest_unparked()
    }

    /// How many references are known.
    pub(crate) fn references(&self) -> usize
        ensures count { result ≡ length self.now.seen.known }
        ensures bound { result ≤ self.now.limits.references }
    {
        let _ = &self.limits;
        self.known.len()
    }

    /// The request of a number that waits.
    pub(crate) fn waiting(&self, seq: u64) -> Option<&Entry>
        ensures { option_copied result ≡ entry_with seq self.now.outstanding }
    {
        self.outstanding.get(seq)
    }

    pub(crate) fn phase(&self) -> Phase
        ensures { result ≡ self.now.seen.phase }
    {
        self.phase
    }

    pub(crate) fn ready(&self) -> bool
        ensures { result ≡ self.now.seen.ready }
    {
        self.ready
    }

    pub(crate) fn capabilities(&self) -> Capabilities
        ensures { result ≡ self.now.seen.capabilities }
    {
        self.capabilities
    }

    /// The number after the last one used, also where it is past the greatest.
    pub(crate) fn next_seq(&self) -> u64
        ensures number { result ≡ self.now.used + 1 }
        ensures used { self.now.used ≤ self.now.limits.seq }
        ensures greatest { self.now.limits.seq ≤ max_seq }
    {
        self.limits.seq() - self.numbers.left() + 1
    }

    /// Makes a change of the phase, if there is one.
    pub(crate) fn change(&mut self, change: Option<Change>)
        ensures { self.new ≡ record self.old { seen = after_change change self.old.seen } }
    {
        if let Some(change) = change {
            self.phase = change.to;
            if change.clears {
                self.known.clear();
            }
        }
    }

    /// Keeps a request that has the next number.
    pub(crate) fn keep(&mut self, entry: Entry)
        requires number { entry.seq ≡ self.old.used + 1 }
        requires left { self.old.used < self.old.limits.seq }
        requires room { length self.old.outstanding < self.old.limits.requests }
        ensures { self.new ≡ record self.old { outstanding = self.old.outstanding ++ kept_unparked entry ∷ []; used = self.old.used + 1 } }
    {
        put_in(&mut self.outstanding, entry);
        let _ = self.numbers.next();
    }

    /// Keeps a request of the adapter, which asks for a terminal.
    pub(crate) fn keep_incoming(&mut self, request: Entry)
        requires new { contains_seq request.seq self.old.incoming ≡ false }
        requires room { length self.old.incoming < self.old.limits.requests }
        requires terminal { request.command ≡ run_in_terminal }
        requires range { request.seq ≤ max_seq }
        ensures { self.new ≡ record self.old { incoming = self.old.incoming ++ kept_unparked request ∷ [] } }
    {
        put_in(&mut self.incoming, request);
    }

    /// Ends the waiting of the request with a number.
    pub(crate) fn settle(&mut self, request_seq: u64)
        ensures { self.new ≡ record self.old { outstanding = without request_seq self.old.outstanding } }
    {
        let _ = self.outstanding.take(request_seq);
    }
}

/// Keeps a request in a table that has room for it.
fn put_in(outstanding: &mut Outstanding, request: Entry)
    requires new { contains_seq request.seq outstanding.old.kept ≡ false }
    requires room { length outstanding.old.kept < outstanding.old.room }
    ensures kept { outstanding.new ≡ record outstanding.old { kept = outstanding.old.kept ++ kept_unparked request ∷ [] } }
    ensures orderly { IsOrderlyRequests outstanding.new }
{
    match outstanding.put(request) {
        Ok(()) => {}
        Err(PutFault::Repeated(_)) => unreachable!(),
        Err(PutFault::Full(_)) => unreachable!(),
    }
}
