//! The end of a session: every request that waits is answered.
ghost use Rattle.std.specs.Prelude.{◌≡◌, ◌+◌, ◌≤◌, length, [], IfOk, IfErr, OnOk, OnErr, IsTrue};
ghost use Rattle.dap_plan.specs.Session.{numbers_of};
ghost use Rattle.dap_tables.specs.Outstanding.{contains_seq};
ghost use Rattle.dap_debuggee.specs.Shown.{to_end};
ghost use Rattle.dap_decision.specs.declared.phase.Phase.{Phase};
ghost use Rattle.dap_plan.specs.Handling.{after_disconnect};
ghost use Rattle.dap_plan.specs.Plan.{at_once, asking, messages_due};
ghost use Rattle.dap_tables.specs.References.{without_references};
ghost use Rattle.dap_plan.specs.SessionState.{Carries, IsRefusedFor};
ghost use Rattle.dap_outbox.specs.Outbox.{Holds, IsReady};

use crate::session::Session;
use dap_body::Failure;
use dap_debuggee::Debuggee;
use dap_decision::Phase;
use dap_outbox::{Answer, Chosen, Outbox, answer_chosen};
use dap_plan::AdapterFault;
use dap_tables::Entry;
use std::alloc::{AllocError, Global};

impl<D: Debuggee + Drop> Session<D> {
    /// Every other request is cancelled, then this one answered.
    fn final_responses(
        &self,
        alloc: Global,
        out: &mut Outbox,
        request: &Entry,
    ) -> Result<(), AllocError>
        requires ready { IsReady out.old (numbers_of self.now.session) }
        requires kept { IsTrue (contains_seq request.now.seq self.now.session.kept) }
        requires room { self.now.session.used + length self.now.session.kept ≤ self.now.session.limits.seq }
        ensures last { OnOk result (out.new.numbers.last ≡ self.now.session.limits.seq) }
        ensures holds { OnOk result (Holds out.new self.now.session.limits.body self.now.session.used (after_disconnect self.now.session request.now).drafts) }
        ensures before { out.new.before ≡ out.old.before }
    {
        self.begin(out);
        let others = Chosen::AllBut(request.seq);
        answer_chosen(alloc, out, &self.kept, others, Some(Failure::Cancelled))?;
        out.reply(alloc, request, Answer::Success(None))
    }

    /// Ends with all requests.
    fn go(&mut self, out: &Outbox)
        requires last { out.now.numbers.last ≡ self.old.session.limits.seq }
        ensures session { self.new ≡ record self.old { session = record self.old.session { phase = Phase.Ended; kept = []; references = without_references self.old.session.references; used = out.now.numbers.used } } }
    {
        self.commit_all(out);
        self.clear_references();
        self.set_phase(Phase::Ended);
    }

    /// Answers every request that is kept, where there is no debuggee to end.
    pub(crate) fn disconnect(
        &mut self,
        alloc: Global,
        out: &mut Outbox,
        request: &Entry,
    ) -> Result<(), AdapterFault>
        requires ready { IsReady out.old (numbers_of self.old.session) }
        requires kept { IsTrue (contains_seq request.now.seq self.old.session.kept) }
        ensures carries { OnOk result (Carries D.follows (at_once (after_disconnect self.old.session request.now)) self.old self.new out.new.bytes) }
        ensures within { OnOk result (self.old.session.used + messages_due (at_once (after_disconnect self.old.session request.now)) ≤ self.old.session.limits.seq) }
        ensures refused { IfErr result (λ fault. IsRefusedFor fault (at_once (after_disconnect self.old.session request.now)) self.old self.new) }
        ensures err { OnErr result (self.new.session ≡ self.old.session) }
        ensures before { out.new.before ≡ out.old.before }
    {
        self.room(self.kept.len() as u64)?;
        self.final_responses(alloc, out, request)?;
        self.go(out);
        Ok(())
    }

    /// The same, once the debuggee is ended.
    pub(crate) fn end_and_disconnect(
        &mut self,
        alloc: Global,
        out: &mut Outbox,
        request: &Entry,
    ) -> Result<(), AdapterFault>
        requires ready { IsReady out.old (numbers_of self.old.session) }
        requires kept { IsTrue (contains_seq request.now.seq self.old.session.kept) }
        ensures carries { OnOk result (Carries D.follows (asking to_end (λ last. after_disconnect self.old.session request.now)) self.old self.new out.new.bytes) }
        ensures within { OnOk result (self.old.session.used + messages_due (asking to_end (λ last. after_disconnect self.old.session request.now)) ≤ self.old.session.limits.seq) }
        ensures refused { IfErr result (λ fault. IsRefusedFor fault (asking to_end (λ last. after_disconnect self.old.session request.now)) self.old self.new) }
        ensures err { OnErr result (self.new.session ≡ self.old.session) }
        ensures before { out.new.before ≡ out.old.before }
    {
        self.room(self.kept.len() as u64)?;
        self.final_responses(alloc, out, request)?;
        self.end();
        self.go(out);
        Ok(())
    }
}
