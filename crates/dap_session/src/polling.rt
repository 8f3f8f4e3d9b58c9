//! What happened to the debuggee, told to the client.
ghost use Rattle.dap_session.specs.SessionCalls.{AddsPoll, LeavesSession, PollsNobody, RefusesPoll};
ghost use Rattle.std.specs.Prelude.{◌≡◌, ◌+◌, ◌≤◌, ◌<◌, [], ◌∷◌, length, IfErr, OnOk, OnErr, IsTrue, false};
ghost use Rattle.dap_plan.specs.Session.{numbers_of};
ghost use Rattle.dap_message.specs.Lengths.{IsWithin, event_within};
ghost use Rattle.dap_debuggee.specs.Laws.{is_short};
ghost use Rattle.dap_plan.specs.SessionState.{MadeBy, Carries, LacksRoom, IsRefusedPoll, AppendsSome};
ghost use Rattle.dap_outbox.specs.Draft.{emit};
ghost use Rattle.dap_plan.specs.Polling.{after_happening, after_poll_reply, has_debuggee, told_by};
ghost use Rattle.dap_debuggee.specs.Shown.{to_poll};
ghost use Rattle.dap_plan.specs.Plan.{asking};
ghost use Rattle.dap_outbox.specs.Outbox.{Holds, event_of, IsReady};

use crate::session::{Session, give_back};
use dap_debuggee::{Debuggee, Happening};
use dap_decision::Phase;
use dap_outbox::{Event, Outbox};
use dap_plan::AdapterFault;
use std::alloc::{AllocError, Global};

/// Whether there is a debuggee to ask.
pub(crate) fn has_debuggee(phase: Phase) -> bool
    ensures { result ≡ has_debuggee phase }
{
    match phase {
        Phase::Running => true,
        Phase::Stopped => true,
        Phase::Fresh => false,
        Phase::Ready => false,
        Phase::Configured => false,
        Phase::Parked => false,
        Phase::Asked => false,
        Phase::Exited => false,
        Phase::Ended => false,
    }
}

impl<D: Debuggee + Drop> Session<D> {
    /// Writes one event.
    fn event(&self, alloc: Global, out: &mut Outbox, event: Event) -> Result<(), AllocError>
        requires ready { IsReady out.old (numbers_of self.now.session) }
        requires room { self.now.session.used + 1 ≤ self.now.session.limits.seq }
        requires short { IsWithin (event_of event) }
        ensures last { OnOk result (out.new.numbers.last ≡ self.now.session.limits.seq) }
        ensures holds { OnOk result (Holds out.new self.now.session.limits.body self.now.session.used (emit (told_by self.now.session (event_of event)) ∷ [])) }
        ensures before { out.new.before ≡ out.old.before }
    {
        self.begin(out);
        out.emit(alloc, event, self.limits().body())
    }

    /// Writes two events.
    fn events(
        &self,
        alloc: Global,
        out: &mut Outbox,
        first: Event,
        second: Event,
    ) -> Result<(), AllocError>
        requires ready { IsReady out.old (numbers_of self.now.session) }
        requires room { self.now.session.used + 2 ≤ self.now.session.limits.seq }
        requires first_short { IsWithin (event_of first) }
        requires second_short { IsWithin (event_of second) }
        ensures last { OnOk result (out.new.numbers.last ≡ self.now.session.limits.seq) }
        ensures holds { OnOk result (Holds out.new self.now.session.limits.body self.now.session.used (emit (told_by self.now.session (event_of first)) ∷ emit (event_within self.now.session.limits.body (self.now.session.used + 2) (event_of second)) ∷ [])) }
        ensures before { out.new.before ≡ out.old.before }
    {
        self.event(alloc, out, first)?;
        out.emit(alloc, second, self.limits().body())
    }

    /// Tells what happened.
    #[tactic(auto, unfolding(dap_plan::specs::Polling::after_happening))]
    fn see(
        &mut self,
        alloc: Global,
        out: &mut Outbox,
        happening: Happening,
    ) -> Result<(), AdapterFault>
        requires ready { IsReady out.old (numbers_of self.old.session) }
        requires room { IsTrue (is_short happening) }
        ensures made { OnOk result (MadeBy (after_happening happening self.old.session) self.old.session self.new.session out.new.bytes) }
        ensures within { OnOk result (self.new.session.used ≤ self.old.session.limits.seq) }
        ensures refused { IfErr result (λ fault. LacksRoom fault self.old.session (length (after_happening happening self.old.session).drafts)) }
        ensures err { OnErr result (self.new.session ≡ self.old.session) }
        ensures debuggee { self.new.debuggee ≡ self.old.debuggee }
        ensures limits { self.new.session.limits ≡ self.old.session.limits }
        ensures before { out.new.before ≡ out.old.before }
    {
        let _ = &self.queries;
        match happening {
            Happening::Nothing => Ok(()),
            Happening::Output {
                category,
                text,
                more,
            } => {
                self.room(1)?;
                let event = Event::Output {
                    category,
                    text,
                    more,
                };
                self.event(alloc, out, event)?;
                self.spend(out);
                Ok(())
            }
            Happening::Stopped {
                reason,
                thread,
                more,
            } => {
                self.room(1)?;
                let event = Event::Stopped {
                    reason,
                    thread,
                    more,
                };
                self.event(alloc, out, event)?;
                self.spend(out);
                self.set_phase(Phase::Stopped);
                Ok(())
            }
            Happening::Continued { thread } => {
                self.room(1)?;
                self.event(alloc, out, Event::Continued { thread })?;
                self.spend(out);
                self.clear_references();
                self.set_phase(Phase::Running);
                Ok(())
            }
            Happening::Exited { code } => {
                self.room(2)?;
                self.events(alloc, out, Event::Exited { code }, Event::Terminated)?;
                self.spend(out);
                self.clear_references();
                self.set_phase(Phase::Exited);
                Ok(())
            }
        }
    }

    /// Asks the debuggee what happened, where there is one, and appends what is told of it to `out`. Where it fails, `out` is as
    /// it was.
    pub fn poll(&mut self, alloc: Global, out: &mut Vec<u8>) -> Result<(), AdapterFault>
        ensures carries { OnOk result (AddsPoll D.follows self.old self.new out.old out.new) }
        ensures within { OnOk result (self.new.session.used ≤ self.old.session.limits.seq) }
        ensures refused { IfErr result (RefusesPoll D.follows self.old self.new) }
        ensures err { OnErr result (LeavesSession self.old self.new out.old out.new) }
        ensures limits { self.new.session.limits ≡ self.old.session.limits }
        ensures apart { PollsNobody self.old self.new out.old out.new result }
    {
        let _ = self.numbers();
        if has_debuggee(self.phase()) {
            return self.poll_into(alloc, out);
        }
        Ok(())
    }

    /// The same where there is a debuggee.
    fn poll_into(&mut self, alloc: Global, out: &mut Vec<u8>) -> Result<(), AdapterFault>
        ensures carries { OnOk result (AppendsSome (λ bytes. Carries D.follows (asking to_poll (after_poll_reply self.old.session)) self.old self.new bytes) out.old.items out.new.items) }
        ensures within { OnOk result (self.new.session.used ≤ self.old.session.limits.seq) }
        ensures refused { IfErr result (λ fault. IsRefusedPoll D.follows fault (asking to_poll (after_poll_reply self.old.session)) self.old self.new) }
        ensures err { OnErr result (LeavesSession self.old self.new out.old out.new) }
        ensures limits { self.new.session.limits ≡ self.old.session.limits }
    {
        let mut outbox = self.outbox_behind(alloc, out);
        let result = self.poll_debuggee(alloc, &mut outbox);
        give_back(outbox, result.is_ok(), out);
        result
    }

    fn poll_debuggee(&mut self, alloc: Global, out: &mut Outbox) -> Result<(), AdapterFault>
        requires ready { IsReady out.old (numbers_of self.old.session) }
        ensures carries { OnOk result (Carries D.follows (asking to_poll (after_poll_reply self.old.session)) self.old self.new out.new.bytes) }
        ensures within { OnOk result (self.new.session.used ≤ self.old.session.limits.seq) }
        ensures refused { IfErr result (λ fault. IsRefusedPoll D.follows fault (asking to_poll (after_poll_reply self.old.session)) self.old self.new) }
        ensures err { OnErr result (self.new.session ≡ self.old.session) }
        ensures limits { self.new.session.limits ≡ self.old.session.limits }
        ensures before { out.new.before ≡ out.old.before }
    {
        let happening = self.ask_poll(alloc)?;
        self.see(alloc, out, happening)
    }
}
