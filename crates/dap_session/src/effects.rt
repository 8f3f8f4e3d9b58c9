//! What requests do in the phases that serve them, an effect of the table each.
ghost use Rattle.std.specs.Prelude.{◌≡◌, ◌+◌, ◌≤◌, ◌<◌, [], ◌∷◌, IfOk, OnErr, IsTrue, None, Some, true, OnOk};
ghost use Rattle.dap_plan.specs.Session.{numbers_of};
ghost use Rattle.dap_body.specs.Body.{data_in};
ghost use Rattle.dap_message.specs.Lengths.{IsWithin, event_within};
ghost use Rattle.dap_call.specs.declared.call.Call.{Call};
ghost use Rattle.dap_tables.specs.Outstanding.{contains_seq};
ghost use Rattle.dap_debuggee.specs.Shown.{to_start, to_resume, to_pause, to_end, done};
ghost use Rattle.dap_plan.specs.SessionState.{MadeBy, Carries};
ghost use Rattle.dap_session.specs.PrivateReplies.{reply_of};
ghost use Rattle.dap_plan.specs.Handling.{after_initialize, after_park, after_launch, after_configuration_done, after_terminate, after_resume, by_reply, options_of, start_phase, resume_body as resume_body_word};
ghost use Rattle.dap_plan.specs.Plan.{after_answering, asking};
ghost use Rattle.dap_outbox.specs.Draft.{reply, emit, success};
ghost use Rattle.dap_body.specs.ResponseBody.{offer_body};
ghost use Rattle.dap_message.specs.MessageParts.{initialized};
ghost use Rattle.dap_outbox.specs.Outbox.{Holds, answer_of, event_of, shape_of, IsReady};

use crate::reply::ActReply;
use crate::session::Session;
use dap_call::Call;
use dap_debuggee::{Debuggee, How};
use dap_decision::Phase;
use dap_message::body_of_offer;
use dap_message::laws::what_is_around_is_short;
use dap_outbox::{Answer, Event, Fixed, Outbox};
use dap_query::Options;
use dap_tables::Entry;
use std::alloc::{AllocError, Global};

/// What counts of the arguments of `initialize`.
pub(crate) fn options_of(call: &Call) -> Options
    ensures { result ≡ options_of call.now }
{
    match call {
        Call::Initialize(asked) => Options {
            lines_start_at_1: asked.lines_start_at_1,
            columns_start_at_1: asked.columns_start_at_1,
            supports_variable_paging: asked.supports_variable_paging,
            supports_run_in_terminal_request: asked.supports_run_in_terminal_request,
        },
        _ => Options {
            lines_start_at_1: true,
            columns_start_at_1: true,
            supports_variable_paging: false,
            supports_run_in_terminal_request: false,
        },
    }
}

pub(crate) fn start_phase(reply: &ActReply) -> Phase
    ensures { result ≡ start_phase (reply_of reply.now) }
{
    match reply {
        ActReply::Done => Phase::Running,
        ActReply::Refused(_) => Phase::Configured,
    }
}

fn resume_body(how: How) -> Option<Fixed>
    ensures { data_in (shape_of result) ≡ resume_body_word how }
{
    match how {
        How::Continue => Some(Fixed::Continue),
        _ => None,
    }
}

impl<D: Debuggee + Drop> Session<D> {
    /// An outbox without a message holds none.
    pub(crate) fn begin(&self, out: &Outbox)
        requires ready { IsReady out.now (numbers_of self.now.session) }
        ensures last { out.now.numbers.last ≡ self.now.session.limits.seq }
        ensures holds { Holds out.now self.now.session.limits.body self.now.session.used [] }
    {
        // For the proof: these limits are in their ranges.
        let limits = self.limits();
        let _ = limits.body();
        let _ = limits.seq();
        let _ = out.numbers();
    }

    /// Writes one response.
    pub(crate) fn one(
        &self,
        alloc: Global,
        out: &mut Outbox,
        request: &Entry,
        answer: Answer,
    ) -> Result<(), AllocError>
        requires ready { IsReady out.old (numbers_of self.now.session) }
        requires room { self.now.session.used + 1 ≤ self.now.session.limits.seq }
        ensures last { OnOk result (out.new.numbers.last ≡ self.now.session.limits.seq) }
        ensures holds { OnOk result (Holds out.new self.now.session.limits.body self.now.session.used (reply request.now (answer_of answer) ∷ [])) }
        ensures before { out.new.before ≡ out.old.before }
        ensures kept { OnErr result (out.new ≡ out.old) }
    {
        self.begin(out);
        out.reply(alloc, request, answer)
    }

    /// Writes one response and an event.
    fn two(
        &self,
        alloc: Global,
        out: &mut Outbox,
        request: &Entry,
        answer: Answer,
        event: Event,
    ) -> Result<(), AllocError>
        requires ready { IsReady out.old (numbers_of self.now.session) }
        requires room { self.now.session.used + 2 ≤ self.now.session.limits.seq }
        requires short { IsWithin (event_of event) }
        ensures last { OnOk result (out.new.numbers.last ≡ self.now.session.limits.seq) }
        ensures holds { OnOk result (Holds out.new self.now.session.limits.body self.now.session.used (reply request.now (answer_of answer) ∷ emit (event_within self.now.session.limits.body (self.now.session.used + 2) (event_of event)) ∷ [])) }
        ensures before { out.new.before ≡ out.old.before }
    {
        self.one(alloc, out, request, answer)?;
        out.emit(alloc, event, self.limits().body())
    }

    /// Answers one request.
    pub(crate) fn answer(
        &mut self,
        alloc: Global,
        out: &mut Outbox,
        request: &Entry,
        answer: Answer,
    ) -> Result<(), AllocError>
        requires ready { IsReady out.old (numbers_of self.old.session) }
        requires room { self.old.session.used + 1 ≤ self.old.session.limits.seq }
        ensures made { OnOk result (MadeBy (after_answering request.now (answer_of answer) self.old.session) self.old.session self.new.session out.new.bytes) }
        ensures debuggee { self.new.debuggee ≡ self.old.debuggee }
        ensures err { OnErr result (self.new.session ≡ self.old.session) }
        ensures before { out.new.before ≡ out.old.before }
    {
        self.one(alloc, out, request, answer)?;
        self.commit(request.seq, out);
        Ok(())
    }

    /// Writes the response that tells what is offered.
    fn one_offer(&self, alloc: Global, out: &mut Outbox, request: &Entry) -> Result<(), AllocError>
        requires ready { IsReady out.old (numbers_of self.now.session) }
        requires room { self.now.session.used + 1 ≤ self.now.session.limits.seq }
        ensures last { OnOk result (out.new.numbers.last ≡ self.now.session.limits.seq) }
        ensures holds { OnOk result (Holds out.new self.now.session.limits.body self.now.session.used (reply request.now (success (Some (offer_body self.now.session.offers)) []) ∷ [])) }
        ensures before { out.new.before ≡ out.old.before }
    {
        // For the proof: what is offered leaves room for what is around it.
        what_is_around_is_short();
        self.begin(out);
        let offers = self.offers();
        let body = body_of_offer(offers)?;
        out.reply_with(alloc, request, Some(body))
    }

    /// The same, and that the session is initialized.
    fn offer(&self, alloc: Global, out: &mut Outbox, request: &Entry) -> Result<(), AllocError>
        requires ready { IsReady out.old (numbers_of self.now.session) }
        requires room { self.now.session.used + 2 ≤ self.now.session.limits.seq }
        ensures last { OnOk result (out.new.numbers.last ≡ self.now.session.limits.seq) }
        ensures holds { OnOk result (Holds out.new self.now.session.limits.body self.now.session.used (reply request.now (success (Some (offer_body self.now.session.offers)) []) ∷ emit initialized ∷ [])) }
        ensures before { out.new.before ≡ out.old.before }
    {
        self.one_offer(alloc, out, request)?;
        out.emit(alloc, Event::Initialized, self.limits().body())
    }

    /// Tells what is offered, and that the session is initialized.
    pub(crate) fn initialize(
        &mut self,
        alloc: Global,
        out: &mut Outbox,
        request: &Entry,
        call: &Call,
    ) -> Result<(), AllocError>
        requires ready { IsReady out.old (numbers_of self.old.session) }
        requires room { self.old.session.used + 2 ≤ self.old.session.limits.seq }
        ensures made { OnOk result (MadeBy (after_initialize self.old.session request.now call.now) self.old.session self.new.session out.new.bytes) }
        ensures debuggee { self.new.debuggee ≡ self.old.debuggee }
        ensures err { OnErr result (self.new.session ≡ self.old.session) }
        ensures before { out.new.before ≡ out.old.before }
    {
        self.offer(alloc, out, request)?;
        self.commit(request.seq, out);
        self.set_options(options_of(call));
        self.set_phase(Phase::Ready);
        Ok(())
    }

    /// Ends the configuration.
    pub(crate) fn configuration_done(
        &mut self,
        alloc: Global,
        out: &mut Outbox,
        request: &Entry,
    ) -> Result<(), AllocError>
        requires ready { IsReady out.old (numbers_of self.old.session) }
        requires room { self.old.session.used + 1 ≤ self.old.session.limits.seq }
        ensures made { OnOk result (MadeBy (after_configuration_done self.old.session request.now) self.old.session self.new.session out.new.bytes) }
        ensures debuggee { self.new.debuggee ≡ self.old.debuggee }
        ensures err { OnErr result (self.new.session ≡ self.old.session) }
        ensures before { out.new.before ≡ out.old.before }
    {
        self.answer(alloc, out, request, Answer::Success(None))?;
        self.set_phase(Phase::Configured);
        Ok(())
    }

    /// Parks the request.
    pub(crate) fn park_request(&mut self, request: &Entry)
        requires { IsTrue (contains_seq request.now.seq self.old.session.kept) }
        ensures made { MadeBy (after_park self.old.session request.now) self.old.session self.new.session [] }
        ensures debuggee { self.new.debuggee ≡ self.old.debuggee }
    {
        self.park(request.seq);
        self.set_phase(Phase::Parked);
    }

    /// Answers a request as the debuggee replied.
    fn answer_by_reply(
        &mut self,
        alloc: Global,
        out: &mut Outbox,
        request: &Entry,
        reply: &ActReply,
    ) -> Result<(), AllocError>
        requires ready { IsReady out.old (numbers_of self.old.session) }
        requires room { self.old.session.used + 1 ≤ self.old.session.limits.seq }
        ensures made { OnOk result (MadeBy (after_answering request.now (by_reply self.old.session request.now (reply_of reply.now)) self.old.session) self.old.session self.new.session out.new.bytes) }
        ensures debuggee { self.new.debuggee ≡ self.old.debuggee }
        ensures err { OnErr result (self.new.session ≡ self.old.session) }
        ensures before { out.new.before ≡ out.old.before }
    {
        match reply {
            ActReply::Done => self.answer(alloc, out, request, Answer::Success(None)),
            ActReply::Refused(why) => self.fail_with(alloc, out, request, why),
        }
    }

    /// Starts the debuggee.
    pub(crate) fn start(
        &mut self,
        alloc: Global,
        out: &mut Outbox,
        request: &Entry,
    ) -> Result<(), AllocError>
        requires ready { IsReady out.old (numbers_of self.old.session) }
        requires room { self.old.session.used + 1 ≤ self.old.session.limits.seq }
        ensures carries { OnOk result (Carries D.follows (asking to_start (after_launch self.old.session request.now)) self.old self.new out.new.bytes) }
        ensures err { OnErr result (self.new.session ≡ self.old.session) }
        ensures before { out.new.before ≡ out.old.before }
    {
        let reply = self.ask_start(alloc)?;
        self.answer_by_reply(alloc, out, request, &reply)?;
        self.set_phase(start_phase(&reply));
        Ok(())
    }

    /// Ends the debuggee.
    pub(crate) fn terminate(
        &mut self,
        alloc: Global,
        out: &mut Outbox,
        request: &Entry,
    ) -> Result<(), AllocError>
        requires ready { IsReady out.old (numbers_of self.old.session) }
        requires room { self.old.session.used + 2 ≤ self.old.session.limits.seq }
        ensures carries { OnOk result (Carries D.follows (asking to_end (λ last. after_terminate self.old.session request.now)) self.old self.new out.new.bytes) }
        ensures err { OnErr result (self.new ≡ self.old) }
        ensures before { out.new.before ≡ out.old.before }
    {
        let event = Event::Terminated;
        self.two(alloc, out, request, Answer::Success(None), event)?;
        self.end();
        self.commit(request.seq, out);
        self.clear_references();
        self.set_phase(Phase::Exited);
        Ok(())
    }

    /// Answers a request, and goes on.
    fn go_on(
        &mut self,
        alloc: Global,
        out: &mut Outbox,
        request: &Entry,
        how: How,
    ) -> Result<(), AllocError>
        requires ready { IsReady out.old (numbers_of self.old.session) }
        requires room { self.old.session.used + 1 ≤ self.old.session.limits.seq }
        ensures made { OnOk result (MadeBy (after_resume how self.old.session request.now done) self.old.session self.new.session out.new.bytes) }
        ensures debuggee { self.new.debuggee ≡ self.old.debuggee }
        ensures err { OnErr result (self.new.session ≡ self.old.session) }
        ensures before { out.new.before ≡ out.old.before }
    {
        self.answer(alloc, out, request, Answer::Success(resume_body(how)))?;
        self.clear_references();
        self.set_phase(Phase::Running);
        Ok(())
    }

    /// Lets the debuggee go on.
    pub(crate) fn resume(
        &mut self,
        alloc: Global,
        out: &mut Outbox,
        request: &Entry,
        how: How,
        thread: i64,
    ) -> Result<(), AllocError>
        requires ready { IsReady out.old (numbers_of self.old.session) }
        requires room { self.old.session.used + 1 ≤ self.old.session.limits.seq }
        ensures carries { OnOk result (Carries D.follows (asking (to_resume how thread) (after_resume how self.old.session request.now)) self.old self.new out.new.bytes) }
        ensures err { OnErr result (self.new.session ≡ self.old.session) }
        ensures before { out.new.before ≡ out.old.before }
    {
        match self.ask_resume(alloc, how, thread)? {
            ActReply::Done => self.go_on(alloc, out, request, how),
            ActReply::Refused(why) => self.fail_with(alloc, out, request, &why),
        }
    }

    /// Asks the debuggee to stop.
    pub(crate) fn pause(
        &mut self,
        alloc: Global,
        out: &mut Outbox,
        request: &Entry,
    ) -> Result<(), AllocError>
        requires ready { IsReady out.old (numbers_of self.old.session) }
        requires room { self.old.session.used + 1 ≤ self.old.session.limits.seq }
        ensures carries { OnOk result (Carries D.follows (asking to_pause (λ last. after_answering request.now (by_reply self.old.session request.now last) self.old.session)) self.old self.new out.new.bytes) }
        ensures err { OnErr result (self.new.session ≡ self.old.session) }
        ensures before { out.new.before ≡ out.old.before }
    {
        let reply = self.ask_pause(alloc)?;
        self.answer_by_reply(alloc, out, request, &reply)
    }
}
