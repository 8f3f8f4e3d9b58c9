//! An event that whoever holds the session tells by its name.
ghost use Rattle.std.specs.Prelude.{◌≡◌, ◌+◌, ◌≤◌, ◌<◌, [], ◌∷◌, IfOk, IfErr, OnOk, OnErr, IsTrue, None, true, false};
ghost use Rattle.dap_json.specs.Writable.{is_plain_tree};
ghost use Rattle.dap_message.specs.Lengths.{event_fits};
ghost use Rattle.dap_message.specs.MessageParts.{named};
ghost use Rattle.dap_outbox.specs.Draft.{emit};
ghost use Rattle.dap_outbox.specs.Outbox.{Holds, IsReady};
ghost use Rattle.dap_plan.specs.Emitting.{IsWhyNotEmitted, after_emitting, early_emit_faults, emit_faults, emits, first_emit_fault, is_reserved, tells_events};
ghost use Rattle.dap_plan.specs.Session.{numbers_of};
ghost use Rattle.dap_plan.specs.SessionState.{AppendsSome, Carries, MadeBy};
ghost use Rattle.dap_session.specs.PrivateEmitting.{IsLate};

use crate::session::{Session, give_back};
use dap_debuggee::Debuggee;
use dap_decision::Phase;
use dap_json::Tree;
use dap_outbox::Outbox;
use dap_plan::EmitFault;
use std::alloc::{AllocError, Global};

/// Whether events are told, and requests asked, by their names in a phase.
pub(crate) fn tells_events(phase: Phase) -> bool
    ensures { result ≡ tells_events phase }
{
    !matches!(phase, Phase::Fresh | Phase::Ended)
}

/// Whether an event says what a client may do next.
fn is_reserved(event: &str) -> bool
    ensures { result ≡ is_reserved event.now }
{
    event == "initialized"
        || event == "stopped"
        || event == "continued"
        || event == "exited"
        || event == "terminated"
        || event == "capabilities"
}

impl<D: Debuggee + Drop> Session<D> {
    /// Why an event is not told, of what takes no memory.
    fn early_emit_fault(&self, closed: bool, event: &str) -> Option<EmitFault>
        ensures { result ≡ first_emit_fault early_emit_faults event.now None closed self.now.session }
    {
        if closed {
            return Some(EmitFault::Closed);
        }
        if !tells_events(self.phase()) {
            return Some(EmitFault::WrongPhase);
        }
        if is_reserved(event) {
            return Some(EmitFault::Reserved);
        }
        None
    }

    /// Writes the event, unless it is too large: whether it was written.
    fn named_event(
        &self,
        alloc: Global,
        out: &mut Outbox,
        event: &str,
        body: &Option<Tree>,
    ) -> Result<bool, AllocError>
        requires ready { IsReady out.old (numbers_of self.now.session) }
        requires room { self.now.session.used + 1 ≤ self.now.session.limits.seq }
        requires plain { IsTrue (is_plain_tree body.now) }
        ensures fits { IfOk result (λ ok. ok ≡ event_fits self.now.session.limits.body (self.now.session.used + 1) (named event.now body.now)) }
        ensures last { OnOk result (out.new.numbers.last ≡ self.now.session.limits.seq) }
        ensures holds { IfOk result (λ ok. IsTrue ok → Holds out.new self.now.session.limits.body self.now.session.used (emit (named event.now body.now) ∷ [])) }
        ensures before { out.new.before ≡ out.old.before }
    {
        self.begin(out);
        out.emit_named(alloc, event, body, self.limits().body())
    }

    /// Whether it would fit, where no own number is left.
    fn would_fit(
        &self,
        alloc: Global,
        out: &mut Outbox,
        event: &str,
        body: &Option<Tree>,
    ) -> Result<bool, AllocError>
        requires ready { IsReady out.old (numbers_of self.now.session) }
        requires full { self.now.session.limits.seq < self.now.session.used + 1 }
        requires plain { IsTrue (is_plain_tree body.now) }
        ensures fits { IfOk result (λ ok. ok ≡ event_fits self.now.session.limits.body (self.now.session.used + 1) (named event.now body.now)) }
        ensures before { out.new.before ≡ out.old.before }
    {
        // For the proof: no more numbers were used than there are.
        let _ = self.numbers();
        let limits = self.limits();
        out.can_emit_named(alloc, event, body, limits.seq() + 1, limits.body())
    }

    /// Tells the event where nothing but its size and the own numbers may stand against it.
    fn emit_late(
        &mut self,
        alloc: Global,
        out: &mut Outbox,
        event: &str,
        body: &Option<Tree>,
    ) -> Result<(), EmitFault>
        requires ready { IsReady out.old (numbers_of self.old.session) }
        requires plain { IsTrue (is_plain_tree body.now) }
        ensures made { OnOk result (MadeBy (after_emitting event.now body.now self.old.session) self.old.session self.new.session out.new.bytes) }
        ensures fits { OnOk result (event_fits self.old.session.limits.body (self.old.session.used + 1) (named event.now body.now) ≡ true) }
        ensures room { OnOk result (self.old.session.used + 1 ≤ self.old.session.limits.seq) }
        ensures refused { IfErr result (λ fault. IsLate fault event.now body.now self.old.session) }
        ensures err { OnErr result (self.new ≡ self.old) }
        ensures debuggee { self.new.debuggee ≡ self.old.debuggee }
        ensures before { out.new.before ≡ out.old.before }
    {
        if self.room(1).is_err() {
            return match self.would_fit(alloc, out, event, body) {
                Ok(true) => Err(EmitFault::SeqExhausted),
                Ok(false) => Err(EmitFault::TooLarge),
                Err(_) => Err(EmitFault::OutOfMemory),
            };
        }
        match self.named_event(alloc, out, event, body) {
            Ok(true) => {
                self.spend(out);
                Ok(())
            }
            Ok(false) => Err(EmitFault::TooLarge),
            Err(_) => Err(EmitFault::OutOfMemory),
        }
    }

    /// Tells an event by its name, and appends it to `out`. Where it is not told, nothing has changed. `closed` says whether a
    /// fault closed the adapter.
    pub fn emit(
        &mut self,
        alloc: Global,
        closed: bool,
        event: &str,
        body: &Option<Tree>,
        out: &mut Vec<u8>,
    ) -> Result<(), EmitFault>
        requires plain { IsTrue (is_plain_tree body.now) }
        ensures free { OnOk result (first_emit_fault emit_faults event.now body.now closed self.old.session ≡ None) }
        ensures carries { OnOk result (AppendsSome (λ bytes. Carries D.follows (emits event.now body.now self.old.session) self.old self.new bytes) out.old.items out.new.items) }
        ensures within { OnOk result (self.new.session.used ≤ self.old.session.limits.seq) }
        ensures limits { self.new.session.limits ≡ self.old.session.limits }
        ensures refused { IfErr result (λ fault. IsWhyNotEmitted fault event.now body.now closed self.old.session) }
        ensures err { OnErr result ((self.new ≡ self.old) × (out.new.items ≡ out.old.items)) }
    {
        if let Some(fault) = self.early_emit_fault(closed, event) {
            return Err(fault);
        }
        let mut outbox = self.outbox_behind(alloc, out);
        let result = self.emit_late(alloc, &mut outbox, event, body);
        give_back(outbox, result.is_ok(), out);
        result
    }
}
