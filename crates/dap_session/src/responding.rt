//! A lent request that whoever holds the session answers.
ghost use Rattle.std.specs.Prelude.{◌≡◌, ◌+◌, ◌≤◌, ◌<◌, IfOk, IfErr, OnOk, OnErr, IsTrue, None, Some, true};
ghost use Rattle.dap_message.specs.MessageParts.{is_plain_outcome};
ghost use Rattle.dap_message.specs.declared.outcome.Outcome.TheVariants.{Success};
ghost use Rattle.dap_outbox.specs.Outbox.{IsReady};
ghost use Rattle.dap_outbox.specs.Waiting.{is_lent_as};
ghost use Rattle.dap_plan.specs.Responding.{IsWhyNotResponded, early_respond_faults, first_respond_fault, respond_faults, response_fits};
ghost use Rattle.dap_plan.specs.Session.{numbers_of};
ghost use Rattle.dap_plan.specs.SessionState.{AppendsSome};
ghost use Rattle.dap_session.specs.PrivateResponding.{HoldsResponse, IsLate, MakesResponse};
ghost use Rattle.dap_session.specs.SessionCalls.{HasResponded};
ghost use Rattle.dap_tables.specs.Outstanding.{HasDistinctSeqs, contains_seq, entry_with};

use crate::session::{Session, give_back};
use dap_debuggee::Debuggee;
use dap_message::Outcome;
use dap_outbox::{Outbox, is_lent};
use dap_plan::RespondFault;
use std::alloc::{AllocError, Global};

impl<D: Debuggee + Drop> Session<D> {
    /// Why a request is not answered, of what takes no memory.
    fn early_respond_fault(&self, closed: bool, seq: u64) -> Option<RespondFault>
        ensures fault { result ≡ first_respond_fault early_respond_faults seq (Success None) closed self.now.session }
        ensures kept { result ≡ None → IsTrue (contains_seq seq self.now.session.kept) }
        ensures lent { result ≡ None → is_lent_as seq self.now.session.kept ≡ true }
        ensures distinct { HasDistinctSeqs self.now.session.kept }
    {
        // For the proof: no number comes twice.
        let _ = self.kept.len();
        if closed {
            return Some(RespondFault::Closed);
        }
        if !is_lent(&self.kept, seq) {
            return Some(RespondFault::NotLent);
        }
        None
    }

    /// Writes the response to a lent request, unless it is too large: whether it was written.
    fn lent_response(
        &self,
        alloc: Global,
        out: &mut Outbox,
        seq: u64,
        outcome: &Outcome,
    ) -> Result<bool, AllocError>
        requires ready { IsReady out.old (numbers_of self.now.session) }
        requires room { self.now.session.used + 1 ≤ self.now.session.limits.seq }
        requires plain { IsTrue (is_plain_outcome outcome.now) }
        requires kept { IsTrue (contains_seq seq self.now.session.kept) }
        ensures fits { IfOk result (λ ok. ok ≡ response_fits self.now.session outcome.now (entry_with seq self.now.session.kept)) }
        ensures last { OnOk result (out.new.numbers.last ≡ self.now.session.limits.seq) }
        ensures holds { IfOk result (λ ok. IsTrue ok → HoldsResponse out.new self.now.session seq outcome.now) }
        ensures before { out.new.before ≡ out.old.before }
    {
        self.begin(out);
        match self.kept.get(seq) {
            Some(request) => out.respond(alloc, request, outcome, self.limits().body()),
            None => unreachable!(),
        }
    }

    /// Whether it would fit, where no own number is left.
    fn response_would_fit(
        &self,
        alloc: Global,
        out: &mut Outbox,
        seq: u64,
        outcome: &Outcome,
    ) -> Result<bool, AllocError>
        requires ready { IsReady out.old (numbers_of self.now.session) }
        requires full { self.now.session.limits.seq < self.now.session.used + 1 }
        requires plain { IsTrue (is_plain_outcome outcome.now) }
        requires kept { IsTrue (contains_seq seq self.now.session.kept) }
        ensures fits { IfOk result (λ ok. ok ≡ response_fits self.now.session outcome.now (entry_with seq self.now.session.kept)) }
        ensures before { out.new.before ≡ out.old.before }
    {
        // For the proof: no more numbers were used than there are.
        let _ = self.numbers();
        let limits = self.limits();
        match self.kept.get(seq) {
            Some(request) => {
                out.can_respond(alloc, request, outcome, limits.seq() + 1, limits.body())
            }
            None => unreachable!(),
        }
    }

    /// Answers the request where nothing but the size of the response and the own numbers may stand against it.
    fn respond_late(
        &mut self,
        alloc: Global,
        out: &mut Outbox,
        seq: u64,
        outcome: &Outcome,
    ) -> Result<(), RespondFault>
        requires ready { IsReady out.old (numbers_of self.old.session) }
        requires plain { IsTrue (is_plain_outcome outcome.now) }
        requires kept { IsTrue (contains_seq seq self.old.session.kept) }
        ensures made { OnOk result (MakesResponse seq outcome.now self.old.session self.new.session out.new.bytes) }
        ensures fits { OnOk result (response_fits self.old.session outcome.now (entry_with seq self.old.session.kept) ≡ true) }
        ensures room { OnOk result (self.old.session.used + 1 ≤ self.old.session.limits.seq) }
        ensures refused { IfErr result (λ fault. IsLate fault seq outcome.now self.old.session) }
        ensures err { OnErr result (self.new ≡ self.old) }
        ensures within { OnOk result (self.new.session.used ≤ self.old.session.limits.seq) }
        ensures limits { self.new.session.limits ≡ self.old.session.limits }
        ensures debuggee { self.new.debuggee ≡ self.old.debuggee }
        ensures before { out.new.before ≡ out.old.before }
    {
        if self.room(1).is_err() {
            return match self.response_would_fit(alloc, out, seq, outcome) {
                Ok(true) => Err(RespondFault::SeqExhausted),
                Ok(false) => Err(RespondFault::TooLarge),
                Err(_) => Err(RespondFault::OutOfMemory),
            };
        }
        match self.lent_response(alloc, out, seq, outcome) {
            Ok(true) => {
                // For the proof: no more numbers were used than there are.
                let _ = out.numbers();
                self.commit(seq, out);
                Ok(())
            }
            Ok(false) => Err(RespondFault::TooLarge),
            Err(_) => Err(RespondFault::OutOfMemory),
        }
    }

    /// Answers a lent request, and appends the response to `out`. Where it is not answered, nothing has changed. `closed` says
    /// whether a fault closed the adapter.
    pub fn respond(
        &mut self,
        alloc: Global,
        closed: bool,
        seq: u64,
        outcome: &Outcome,
        out: &mut Vec<u8>,
    ) -> Result<(), RespondFault>
        requires plain { IsTrue (is_plain_outcome outcome.now) }
        ensures free { OnOk result (first_respond_fault respond_faults seq outcome.now closed self.old.session ≡ None) }
        ensures responds { OnOk result (AppendsSome (λ bytes. HasResponded D.follows seq outcome.now self.old self.new bytes) out.old.items out.new.items) }
        ensures within { OnOk result (self.new.session.used ≤ self.old.session.limits.seq) }
        ensures limits { self.new.session.limits ≡ self.old.session.limits }
        ensures refused { IfErr result (λ fault. IsWhyNotResponded fault seq outcome.now closed self.old.session) }
        ensures err { OnErr result ((self.new ≡ self.old) × (out.new.items ≡ out.old.items)) }
    {
        if let Some(fault) = self.early_respond_fault(closed, seq) {
            return Err(fault);
        }
        let mut outbox = self.outbox_behind(alloc, out);
        let result = self.respond_late(alloc, &mut outbox, seq, outcome);
        give_back(outbox, result.is_ok(), out);
        result
    }
}
