//! A query: what the debuggee shows is written to the client. The numbers of its objects are given while the answer is made,
//! and taken back where it fails.
ghost use Rattle.std.specs.Prelude.{◌≡◌, ◌+◌, ◌≤◌, [], ◌∷◌, length, IfOk, IfErr, IfSome, IfNone, OnErr, true, false, IsTrue, OnOk, ◌≢◌};
ghost use Rattle.dap_query.specs.declared.no_answer.NoAnswer.{NoAnswer};
ghost use Rattle.dap_body.specs.Body.{data_in};
ghost use Rattle.dap_call.specs.declared.call.Call.{Call};
ghost use Rattle.dap_query.specs.Bodies.{query_result};
ghost use Rattle.dap_query.specs.QueryResults.{IsQueryResult};
ghost use Rattle.dap_tables.specs.References.{back_to};
ghost use Rattle.dap_plan.specs.SessionState.{MadeBy};
ghost use Rattle.dap_plan.specs.Handling.{after_query, fits, query_reason};
ghost use Rattle.dap_plan.specs.Session.{query_of, numbers_of};
ghost use Rattle.dap_outbox.specs.Draft.{reply, success};
ghost use Rattle.dap_outbox.specs.Outbox.{Holds, IsReady};
ghost use Rattle.dap_session.specs.PrivateQuerying.{IsOutboxOf, MakesFailure, OnlyGives};

use crate::session::Session;
use dap_body::{Body, Failure};
use dap_call::Call;
use dap_debuggee::Debuggee;
use dap_outbox::Outbox;
use dap_query::NoAnswer;
use dap_tables::{Entry, Mark};
use std::alloc::{AllocError, Global};

impl<D: Debuggee + Drop> Session<D> {
    /// The body that answers a call. Where there is none, some numbers may be given.
    fn query_body(&mut self, alloc: Global, call: &Call) -> Result<Option<Body>, NoAnswer>
        ensures body { IsQueryResult result (query_result (D.shown self.old.debuggee) (query_of self.old.session) call.now) self.new.session.references }
        ensures only { OnlyGives self.old self.new }
    {
        self.queries.answer(alloc, &self.debuggee, call)
    }

    /// Writes a success, unless it is too large: whether it was written.
    pub(crate) fn measured(
        &self,
        alloc: Global,
        out: &mut Outbox,
        request: &Entry,
        body: Option<Body>,
    ) -> Result<bool, AllocError>
        requires ready { IsReady out.old (numbers_of self.now.session) }
        requires room { self.now.session.used + 1 ≤ self.now.session.limits.seq }
        ensures fits { IfOk result (λ ok. ok ≡ fits self.now.session request.now (data_in body)) }
        ensures last { OnOk result (out.new.numbers.last ≡ self.now.session.limits.seq) }
        ensures holds { IfOk result (λ ok. IsTrue ok → Holds out.new self.now.session.limits.body self.now.session.used (reply request.now (success (data_in body) []) ∷ [])) }
        ensures before { out.new.before ≡ out.old.before }
        ensures too_large { IfOk result (λ ok. ok ≡ false → out.new ≡ out.old) }
    {
        self.begin(out);
        out.reply_within(alloc, request, body, self.limits().body())
    }

    /// Takes back the numbers that were given since a mark.
    fn back_to(&mut self, mark: Mark)
        requires { mark ≤ length self.old.session.references.live }
        ensures { self.new ≡ record self.old { session = record self.old.session { references = back_to mark self.old.session.references } } }
    {
        self.queries.back_to(mark);
    }

    /// Writes what a call is answered. Where it fails, some numbers may be given, and nothing is written.
    fn try_query(
        &mut self,
        alloc: Global,
        out: &mut Outbox,
        request: &Entry,
        call: &Call,
    ) -> Result<(), NoAnswer>
        requires ready { IsReady out.old (numbers_of self.old.session) }
        requires room { self.old.session.used + 1 ≤ self.old.session.limits.seq }
        ensures made { OnOk result (IsOutboxOf out.new self.old.session request.now self.new.session.references (after_query self.old.session request.now (query_reason (D.shown self.old.debuggee) self.old.session call.now) (query_result (D.shown self.old.debuggee) (query_of self.old.session) call.now))) }
        ensures fails { IfErr result (λ untold. MakesFailure untold request.now self.old.session (query_reason (D.shown self.old.debuggee) self.old.session call.now) (after_query self.old.session request.now (query_reason (D.shown self.old.debuggee) self.old.session call.now) (query_result (D.shown self.old.debuggee) (query_of self.old.session) call.now))) }
        ensures only { OnlyGives self.old self.new }
        ensures before { out.new.before ≡ out.old.before }
        ensures unwritten { IfErr result (λ untold. untold ≢ NoAnswer.OutOfMemory → out.new ≡ out.old) }
    {
        let body = self.query_body(alloc, call)?;
        if self.measured(alloc, out, request, body)? {
            return Ok(());
        }
        Err(NoAnswer::Fails(Failure::TooLarge))
    }

    /// Answers what a call asks, where that is not too large. Where it fails, no number is given.
    pub(crate) fn query(
        &mut self,
        alloc: Global,
        out: &mut Outbox,
        request: &Entry,
        call: &Call,
    ) -> Result<(), AllocError>
        requires ready { IsReady out.old (numbers_of self.old.session) }
        requires room { self.old.session.used + 1 ≤ self.old.session.limits.seq }
        ensures made { OnOk result (MadeBy (after_query self.old.session request.now (query_reason (D.shown self.old.debuggee) self.old.session call.now) (query_result (D.shown self.old.debuggee) (query_of self.old.session) call.now)) self.old.session self.new.session out.new.bytes) }
        ensures debuggee { self.new.debuggee ≡ self.old.debuggee }
        ensures err { OnErr result (self.new.session ≡ self.old.session) }
        ensures before { out.new.before ≡ out.old.before }
    {
        let mark = self.queries.mark();
        match self.try_query(alloc, out, request, call) {
            Ok(()) => {
                self.commit(request.seq, out);
                Ok(())
            }
            Err(untold) => {
                self.back_to(mark);
                match untold {
                    NoAnswer::Fails(failure) => {
                        let query = self.query_asked(call);
                        self.fail(alloc, out, request, failure, query)
                    }
                    NoAnswer::OutOfMemory => Err(AllocError),
                }
            }
        }
    }
}
