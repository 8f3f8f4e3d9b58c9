//! The start of a debuggee for requests that wait for `configurationDone`, and the answers to what waits for that.
ghost use Rattle.std.specs.Prelude.{◌≡◌, ◌+◌, ◌≤◌, length, IfOk, IfErr, OnOk, OnErr, IsTrue, Some, false};
ghost use Rattle.dap_plan.specs.Session.{numbers_of};
ghost use Rattle.dap_tables.specs.Outstanding.{is_parked};
ghost use Rattle.dap_outbox.specs.Waiting.{starting_ones};
ghost use Rattle.dap_debuggee.specs.Shown.{to_start, refused};
ghost use Rattle.dap_plan.specs.Handling.{after_parked_launch, answer_each, answer_parked, fits_explained_each};
ghost use Rattle.dap_plan.specs.Plan.{asking, messages_due};
ghost use Rattle.dap_plan.specs.SessionState.{Carries, IsRefusedFor};
ghost use Rattle.dap_outbox.specs.Draft.{explained};
ghost use Rattle.dap_outbox.specs.Several.{answer_by, WritesWithin};
ghost use Rattle.dap_outbox.specs.Outbox.{Holds, IsReady};
ghost use Rattle.dap_session.specs.PrivateReplies.{reply_of};

use crate::effects::start_phase;
use crate::reply::ActReply;
use crate::session::Session;
use dap_body::Failure;
use dap_debuggee::{Debuggee, Explanation};
use dap_outbox::{Answer, Chosen, Outbox, answer_chosen, explain_chosen, starting_count};
use dap_plan::AdapterFault;
use dap_tables::Entry;
use std::alloc::{AllocError, Global};

impl<D: Debuggee + Drop> Session<D> {
    // ---- what waits for the debuggee to start

    /// Answers what waits for the debuggee to start, with a success or with a failure.
    fn answer_alike(
        &self,
        alloc: Global,
        out: &mut Outbox,
        failure: Option<Failure>,
    ) -> Result<(), AllocError>
        requires room { out.old.numbers.used + length (starting_ones self.now.session.kept) ≤ out.old.numbers.last }
        ensures writes { OnOk result (WritesWithin self.now.session.limits.body out.old out.new (answer_each (answer_by failure) (starting_ones self.now.session.kept))) }
        ensures before { out.new.before ≡ out.old.before }
    {
        answer_chosen(alloc, out, &self.kept, Chosen::Starting, failure)
    }

    /// Answers what waits for the debuggee to start with why the debuggee refused, if that fits in each answer: whether it did.
    fn explain_parked(
        &self,
        alloc: Global,
        out: &mut Outbox,
        told: &Explanation,
    ) -> Result<bool, AllocError>
        requires room { out.old.numbers.used + length (starting_ones self.now.session.kept) ≤ out.old.numbers.last }
        requires last { out.old.numbers.last ≡ self.now.session.limits.seq }
        ensures fits { IfOk result (λ ok. ok ≡ fits_explained_each self.now.session (starting_ones self.now.session.kept) told.now) }
        ensures writes { IfOk result (λ ok. IsTrue ok → WritesWithin self.now.session.limits.body out.old out.new (answer_each (explained told.now) (starting_ones self.now.session.kept))) }
        ensures too_long { IfOk result (λ ok. ok ≡ false → out.new ≡ out.old) }
        ensures before { out.new.before ≡ out.old.before }
    {
        let limits = self.limits();
        let (seq, most) = (limits.seq(), limits.body());
        explain_chosen(alloc, out, &self.kept, Chosen::Starting, told, seq, most)
    }

    /// Answers what waits for the debuggee to start, which the debuggee refused, with why where that fits.
    fn fail_parked(
        &self,
        alloc: Global,
        out: &mut Outbox,
        told: &Explanation,
    ) -> Result<(), AllocError>
        requires room { out.old.numbers.used + length (starting_ones self.now.session.kept) ≤ out.old.numbers.last }
        requires last { out.old.numbers.last ≡ self.now.session.limits.seq }
        ensures writes { OnOk result (WritesWithin self.now.session.limits.body out.old out.new (answer_parked self.now.session (starting_ones self.now.session.kept) (refused (Some told.now)))) }
        ensures before { out.new.before ≡ out.old.before }
    {
        if self.explain_parked(alloc, out, told)? {
            return Ok(());
        }
        self.answer_alike(alloc, out, Some(Failure::Debuggee))
    }

    /// Answers what waits for the debuggee to start as the debuggee replied.
    pub(crate) fn answer_parked(
        &self,
        alloc: Global,
        out: &mut Outbox,
        reply: &ActReply,
    ) -> Result<(), AllocError>
        requires room { out.old.numbers.used + length (starting_ones self.now.session.kept) ≤ out.old.numbers.last }
        requires last { out.old.numbers.last ≡ self.now.session.limits.seq }
        ensures writes { OnOk result (WritesWithin self.now.session.limits.body out.old out.new (answer_parked self.now.session (starting_ones self.now.session.kept) (reply_of reply.now))) }
        ensures before { out.new.before ≡ out.old.before }
    {
        match reply {
            ActReply::Done => self.answer_alike(alloc, out, None),
            ActReply::Refused(None) => self.answer_alike(alloc, out, Some(Failure::Debuggee)),
            ActReply::Refused(Some(told)) => self.fail_parked(alloc, out, told),
        }
    }

    // ---- the start

    /// The request is answered, then those that wait for the start.
    fn start_responses(
        &self,
        alloc: Global,
        out: &mut Outbox,
        request: &Entry,
        reply: &ActReply,
    ) -> Result<(), AllocError>
        requires ready { IsReady out.old (numbers_of self.now.session) }
        requires unparked { is_parked request.now.seq self.now.session.kept ≡ false }
        requires room { self.now.session.used + (1 + length (starting_ones self.now.session.kept)) ≤ self.now.session.limits.seq }
        ensures last { OnOk result (out.new.numbers.last ≡ self.now.session.limits.seq) }
        ensures holds { OnOk result (Holds out.new self.now.session.limits.body self.now.session.used (after_parked_launch self.now.session request.now (reply_of reply.now)).drafts) }
        ensures before { out.new.before ≡ out.old.before }
    {
        self.one(alloc, out, request, Answer::Success(None))?;
        self.answer_parked(alloc, out, reply)
    }

    /// Answers the request, starts the debuggee, and answers what waited for that.
    pub(crate) fn start_parked(
        &mut self,
        alloc: Global,
        out: &mut Outbox,
        request: &Entry,
    ) -> Result<(), AdapterFault>
        requires ready { IsReady out.old (numbers_of self.old.session) }
        requires unparked { is_parked request.now.seq self.old.session.kept ≡ false }
        ensures carries { OnOk result (Carries D.follows (asking to_start (after_parked_launch self.old.session request.now)) self.old self.new out.new.bytes) }
        ensures within { OnOk result (self.old.session.used + messages_due (asking to_start (after_parked_launch self.old.session request.now)) ≤ self.old.session.limits.seq) }
        ensures refused { IfErr result (λ fault. IsRefusedFor fault (asking to_start (after_parked_launch self.old.session request.now)) self.old self.new) }
        ensures err { OnErr result (self.new.session ≡ self.old.session) }
        ensures before { out.new.before ≡ out.old.before }
    {
        // For the proof: this limit is in its range.
        let _ = self.limits().requests();
        self.room(1 + starting_count(&self.kept) as u64)?;
        let reply = self.ask_start(alloc)?;
        self.start_responses(alloc, out, request, &reply)?;
        self.commit_parked(request.seq, out);
        self.set_phase(start_phase(&reply));
        Ok(())
    }
}
