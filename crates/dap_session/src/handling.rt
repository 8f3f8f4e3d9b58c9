//! How a request is handled.
ghost use Rattle.dap_session.specs.SessionCalls.{AddsTurn, HasLessToHandle, LeavesSession, TurnsIdly};
ghost use Rattle.std.specs.Prelude.{◌≡◌, ◌+◌, ◌≤◌, ◌<◌, IfOk, IfErr, OnOk, OnErr, IsTrue, IfSome, None, option_map, false};
ghost use Rattle.dap_outbox.specs.Outbox.{IsReady};
ghost use Rattle.dap_tables.specs.Outstanding.{contains_seq, is_parked};
ghost use Rattle.dap_plan.specs.SessionState.{Carries, IsRefusedFor, plan_of_decision, IsIdle, HasTurned, NotTurned};
ghost use Rattle.dap_plan.specs.Session.{oldest, numbers_of};
ghost use Rattle.dap_plan.specs.Handling.{plan, plan_for, plan_of_turn};
ghost use Rattle.dap_plan.specs.Plan.{messages_due};
ghost use Rattle.dap_plan.specs.Changing.{IsSuitable, Suits};

use crate::session::{Session, give_back};
use dap_body::Failure;
use dap_call::Call;
use dap_debuggee::Debuggee;
use dap_decision::{Decision, Effect, decide, thread_of};
use dap_outbox::{Answer, Outbox};
use dap_plan::AdapterFault;
use dap_tables::Entry;
use std::alloc::{AllocError, Global};

fn copied(request: &Entry) -> Result<Entry, AllocError>
    ensures { IfOk result (λ r. r ≡ request.now) }
{
    request.clone()
}

impl<D: Debuggee + Drop> Session<D> {
    ghost use Rattle.dap_plan.specs.declared.fault.AdapterFault.{AdapterFault};
    ghost use Rattle.dap_decision.specs.declared.decision.Decision.{Decision};

    /// Whether there are own numbers for so many messages.
    pub(crate) fn room(&self, messages: u64) -> Result<(), AdapterFault>
        ensures ok { OnOk result (self.now.session.used + messages ≤ self.now.session.limits.seq) }
        ensures err { IfErr result (λ fault. (fault ≡ AdapterFault.SeqExhausted) × (self.now.session.limits.seq < self.now.session.used + messages)) }
    {
        let numbers = self.numbers();
        if numbers.left() < messages {
            return Err(AdapterFault::SeqExhausted);
        }
        Ok(())
    }

    /// What is to be done with a request.
    fn decide(&self, alloc: Global, request: &Entry) -> Result<Decision, AllocError>
        ensures suits { IfOk result (λ d. IsSuitable d) }
        ensures plan { IfOk result (λ d. plan (D.shown self.now.debuggee) self.now.session request.now ≡ plan_of_decision d (D.shown self.now.debuggee) self.now.session request.now) }
    {
        match decide(alloc, self.phase, &self.queries, &self.debuggee, request) {
            Err(fault) => Err(fault),
            Ok(Decision::Refuses(failure)) => Ok(Decision::Refuses(failure)),
            Ok(Decision::Serves(effect, call)) => {
                Ok(Decision::Serves(self.effect_of(request, effect), call))
            }
        }
    }

    /// Does what the table says.
    #[tactic(auto, using(crate::proofs::TakingRequests::at_once_carries), unfolding(dap_plan::specs::Handling::plan_for))]
    fn serve(
        &mut self,
        alloc: Global,
        out: &mut Outbox,
        request: &Entry,
        effect: Effect,
        call: &Call,
    ) -> Result<(), AdapterFault>
        requires ready { IsReady out.old (numbers_of self.old.session) }
        requires kept { IsTrue (contains_seq request.now.seq self.old.session.kept) }
        requires unparked { is_parked request.now.seq self.old.session.kept ≡ false }
        requires suits { Suits effect call.now }
        ensures carries { OnOk result (Carries D.follows (plan_for effect (D.shown self.old.debuggee) self.old.session request.now call.now) self.old self.new out.new.bytes) }
        ensures within { OnOk result (self.old.session.used + messages_due (plan_for effect (D.shown self.old.debuggee) self.old.session request.now call.now) ≤ self.old.session.limits.seq) }
        ensures refused { IfErr result (λ fault. IsRefusedFor fault (plan_for effect (D.shown self.old.debuggee) self.old.session request.now call.now) self.old self.new) }
        ensures err { OnErr result (self.new.session ≡ self.old.session) }
        ensures before { out.new.before ≡ out.old.before }
    {
        match effect {
            Effect::Initialize => {
                self.room(2)?;
                Ok(self.initialize(alloc, out, request, call)?)
            }
            Effect::Park => {
                self.room(0)?;
                self.park_request(request);
                Ok(())
            }
            Effect::Start => {
                self.room(1)?;
                Ok(self.start(alloc, out, request)?)
            }
            Effect::ConfigurationDone => {
                self.room(1)?;
                Ok(self.configuration_done(alloc, out, request)?)
            }
            Effect::Ask => {
                self.room(1)?;
                Ok(self.ask_terminal(alloc, out, request)?)
            }
            Effect::AskParked => {
                self.room(2)?;
                Ok(self.ask_terminal_parked(alloc, out, request)?)
            }
            Effect::Terminate => {
                self.room(2)?;
                Ok(self.terminate(alloc, out, request)?)
            }
            Effect::Resume(how) => {
                self.room(1)?;
                Ok(self.resume(alloc, out, request, how, thread_of(call))?)
            }
            Effect::Pause => {
                self.room(1)?;
                Ok(self.pause(alloc, out, request)?)
            }
            Effect::Query => {
                self.room(1)?;
                Ok(self.query(alloc, out, request, call)?)
            }
            Effect::StartParked => self.start_parked(alloc, out, request),
            Effect::Disconnect => self.disconnect(alloc, out, request),
            Effect::EndAndDisconnect => self.end_and_disconnect(alloc, out, request),
            Effect::Change => self.change(alloc, out, request, call),
        }
    }

    /// Handles a request that is kept.
    fn handle(
        &mut self,
        alloc: Global,
        out: &mut Outbox,
        request: &Entry,
    ) -> Result<(), AdapterFault>
        requires ready { IsReady out.old (numbers_of self.old.session) }
        requires kept { IsTrue (contains_seq request.now.seq self.old.session.kept) }
        requires unparked { is_parked request.now.seq self.old.session.kept ≡ false }
        ensures carries { OnOk result (Carries D.follows (plan (D.shown self.old.debuggee) self.old.session request.now) self.old self.new out.new.bytes) }
        ensures within { OnOk result (self.old.session.used + messages_due (plan (D.shown self.old.debuggee) self.old.session request.now) ≤ self.old.session.limits.seq) }
        ensures refused { IfErr result (λ fault. IsRefusedFor fault (plan (D.shown self.old.debuggee) self.old.session request.now) self.old self.new) }
        ensures err { OnErr result (self.new.session ≡ self.old.session) }
        ensures before { out.new.before ≡ out.old.before }
    {
        match self.decide(alloc, request)? {
            Decision::Refuses(failure) => self.refuse(alloc, out, request, failure),
            Decision::Serves(effect, call) => self.serve(alloc, out, request, effect, &call),
        }
    }

    /// Handles a request that is kept, or lends it where its command is opened.
    fn handle_any(
        &mut self,
        alloc: Global,
        out: &mut Outbox,
        request: Entry,
    ) -> Result<(), AdapterFault>
        requires ready { IsReady out.old (numbers_of self.old.session) }
        requires kept { IsTrue (contains_seq request.seq self.old.session.kept) }
        requires unparked { is_parked request.seq self.old.session.kept ≡ false }
        ensures carries { OnOk result (Carries D.follows (plan_of_turn (D.shown self.old.debuggee) self.old.session request) self.old self.new out.new.bytes) }
        ensures within { OnOk result (self.old.session.used + messages_due (plan_of_turn (D.shown self.old.debuggee) self.old.session request) ≤ self.old.session.limits.seq) }
        ensures refused { IfErr result (λ fault. IsRefusedFor fault (plan_of_turn (D.shown self.old.debuggee) self.old.session request) self.old self.new) }
        ensures err { OnErr result (self.new.session ≡ self.old.session) }
        ensures before { out.new.before ≡ out.old.before }
    {
        match self.opened_in(&request) {
            None => self.handle(alloc, out, &request),
            Some(in_stops) => self.lend(alloc, out, &request, in_stops),
        }
    }

    /// Answers a request with a failure.
    pub(crate) fn refuse(
        &mut self,
        alloc: Global,
        out: &mut Outbox,
        request: &Entry,
        failure: Failure,
    ) -> Result<(), AdapterFault>
        requires ready { IsReady out.old (numbers_of self.old.session) }
        ensures carries { OnOk result (Carries D.follows (plan_of_decision (Decision.Refuses failure) (D.shown self.old.debuggee) self.old.session request.now) self.old self.new out.new.bytes) }
        ensures within { OnOk result (self.old.session.used + 1 ≤ self.old.session.limits.seq) }
        ensures refused { IfErr result (λ fault. IsRefusedFor fault (plan_of_decision (Decision.Refuses failure) (D.shown self.old.debuggee) self.old.session request.now) self.old self.new) }
        ensures err { OnErr result (self.new.session ≡ self.old.session) }
        ensures before { out.new.before ≡ out.old.before }
    {
        self.room(1)?;
        Ok(self.answer(alloc, out, request, Answer::Failure(failure))?)
    }

    /// A copy of the request that is to be handled next.
    fn next_request(&self) -> Result<Option<Entry>, AllocError>
        ensures oldest { IfOk result (λ o. o ≡ option_map (λ k. k.entry) (oldest self.now.session.kept)) }
        ensures kept { IfOk result (λ o. IfSome o (λ r. IsTrue (contains_seq r.seq self.now.session.kept))) }
        ensures unparked { IfOk result (λ o. IfSome o (λ r. is_parked r.seq self.now.session.kept ≡ false)) }
        ensures none { OnErr result (oldest self.now.session.kept ≡ None → ⊥) }
    {
        let Some(seq) = self.kept.oldest_unparked() else {
            return Ok(None);
        };
        match self.kept.get(seq) {
            Some(request) => Ok(Some(copied(request)?)),
            None => unreachable!(),
        }
    }

    /// Handles the request that came first of those that are not parked: whether there is one.
    fn turn_with(&mut self, alloc: Global, out: &mut Outbox) -> Result<bool, AdapterFault>
        requires ready { IsReady out.old (numbers_of self.old.session) }
        ensures idle { IfOk result (λ done. done ≡ false → IsIdle (D.shown self.old.debuggee) self.old self.new × (out.new ≡ out.old)) }
        ensures done { IfOk result (λ done. IsTrue done → HasTurned D.shown D.follows self.old self.new out.new.bytes) }
        ensures refused { IfErr result (λ fault. NotTurned D.shown fault self.old self.new) }
        ensures waiting { OnErr result (oldest self.old.session.kept ≡ None → ⊥) }
        ensures err { OnErr result (self.new.session ≡ self.old.session) }
        ensures fewer { IfOk result (HasLessToHandle self.old self.new) }
        ensures limits { self.new.session.limits ≡ self.old.session.limits }
        ensures before { out.new.before ≡ out.old.before }
    {
        let _ = &self.queries;
        match self.next_request() {
            Err(_) => Err(AdapterFault::OutOfMemory),
            Ok(None) => Ok(false),
            Ok(Some(request)) => match self.handle_any(alloc, out, request) {
                Err(fault) => Err(fault),
                Ok(()) => Ok(true),
            },
        }
    }

    /// Handles the request that came first of those that are not parked: whether there is one. What is written is appended to
    /// `out`; where it fails, `out` is as it was.
    pub fn turn(&mut self, alloc: Global, out: &mut Vec<u8>) -> Result<bool, AdapterFault>
        ensures idle { IfOk result (TurnsIdly D.shown self.old self.new out.old out.new) }
        ensures done { IfOk result (AddsTurn D.shown D.follows self.old self.new out.old out.new) }
        ensures refused { IfErr result (λ fault. NotTurned D.shown fault self.old self.new) }
        ensures waiting { OnErr result (oldest self.old.session.kept ≡ None → ⊥) }
        ensures err { OnErr result (LeavesSession self.old self.new out.old out.new) }

        // Then fewer requests wait to be handled.
        ensures fewer { IfOk result (HasLessToHandle self.old self.new) }
        ensures limits { self.new.session.limits ≡ self.old.session.limits }
    {
        let mut outbox = self.outbox_behind(alloc, out);
        let result = self.turn_with(alloc, &mut outbox);
        give_back(outbox, result.is_ok(), out);
        result
    }
}
