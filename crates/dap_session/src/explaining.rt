//! A request that fails: where the debuggee refused an act it may have said why, where it refused a query it is asked, and the
//! failure says so where that fits.
ghost use Rattle.std.specs.Prelude.{◌≡◌, ◌+◌, ◌≤◌, [], ◌∷◌, IfOk, OnOk, OnErr, IsTrue, Option, option_and_then, option_map, false};
ghost use Rattle.dap_call.specs.declared.call.Call.{Call};
ghost use Rattle.dap_debuggee.specs.Shown.{for_children, for_scopes, query_lent};
ghost use Rattle.dap_outbox.specs.Draft.{explained, reply};
ghost use Rattle.dap_outbox.specs.Outbox.{Holds, IsReady};
ghost use Rattle.dap_plan.specs.Changing.{lines_given};
ghost use Rattle.dap_plan.specs.Handling.{failing, fits_explained, lines_asked, query_asked, query_before};
ghost use Rattle.dap_plan.specs.Plan.{after_answering};
ghost use Rattle.dap_plan.specs.Session.{numbers_of};
ghost use Rattle.dap_plan.specs.SessionState.{MadeBy};
ghost use Rattle.dap_query.specs.Queries.{object_of};

use crate::session::Session;
use dap_body::Failure;
use dap_call::{Call, Evaluate, SetVariable};
use dap_debuggee::{Debuggee, Explanation, RefusedQuery};
use dap_outbox::{Answer, Outbox};
use dap_tables::Entry;
use std::alloc::{AllocError, Global};

impl<D: Debuggee + Drop> Session<D> {
    // ---- what was queried

    fn scopes_asked(&self, number: u32) -> Option<RefusedQuery<'static>>
        ensures { option_map query_lent result ≡ option_map for_scopes (object_of self.now.session.references number) }
    {
        match self.object(number) {
            None => None,
            Some(frame) => Some(RefusedQuery::Scopes { frame }),
        }
    }

    fn children_asked(&self, number: u32) -> Option<RefusedQuery<'static>>
        ensures { option_map query_lent result ≡ option_map for_children (object_of self.now.session.references number) }
    {
        match self.object(number) {
            None => None,
            Some(holder) => Some(RefusedQuery::Children { holder }),
        }
    }

    fn value_asked<'c>(&self, asked: &'c Evaluate) -> Option<RefusedQuery<'c>>
        ensures { option_map query_lent result ≡ query_asked self.now.session (Call.Evaluate asked.now) }
    {
        let frame = match asked.frame_id {
            None => None,
            Some(number) => self.object(number),
        };
        let text = asked.expression.as_str();
        Some(RefusedQuery::Evaluate { frame, text })
    }

    /// What a call queries.
    pub(crate) fn query_asked<'c>(&self, call: &'c Call) -> Option<RefusedQuery<'c>>
        ensures { option_map query_lent result ≡ query_asked self.now.session call.now }
    {
        match call {
            Call::StackTrace(asked) => Some(RefusedQuery::Frames {
                thread: asked.thread_id,
            }),
            Call::Scopes { frame_id } => self.scopes_asked(*frame_id),
            Call::Variables(asked) => self.children_asked(asked.variables_reference),
            Call::Evaluate(asked) => self.value_asked(asked),
            Call::Source { source_reference } => Some(RefusedQuery::Content {
                index: source_reference.saturating_sub(1),
            }),
            _ => None,
        }
    }

    fn assigned_asked<'c>(&self, wanted: &'c SetVariable) -> Option<RefusedQuery<'c>>
        ensures { option_map query_lent result ≡ query_before self.now.session (Call.SetVariable wanted.now) }
    {
        match self.object(wanted.variables_reference) {
            None => None,
            Some(holder) => {
                let (name, text) = (wanted.name.as_str(), wanted.value.as_str());
                Some(RefusedQuery::Assigned { holder, name, text })
            }
        }
    }

    /// What is queried before a change. `asked` are the lines as the debuggee counts them.
    pub(crate) fn query_before<'c>(
        &self,
        call: &'c Call,
        asked: &'c [u32],
    ) -> Option<RefusedQuery<'c>>
        requires { asked.now ≡ lines_asked self.now.session.options (lines_given call.now) }
        ensures { option_map query_lent result ≡ query_before self.now.session call.now }
    {
        match call {
            Call::SetBreakpoints { source, .. } => Some(RefusedQuery::Verify {
                source,
                lines: asked,
            }),
            Call::SetVariable(wanted) => self.assigned_asked(wanted),
            _ => None,
        }
    }

    // ---- the failure

    /// Why the debuggee refused a query.
    fn ask_why(
        &self,
        alloc: Global,
        query: Option<RefusedQuery<'_>>,
    ) -> Result<Option<Explanation>, AllocError>
        ensures { IfOk result (λ told. told ≡ option_and_then (D.shown self.now.debuggee).why (option_map query_lent query.entry)) }
    {
        match query {
            None => Ok(None),
            Some(query) => self.debuggee.why(alloc, query),
        }
    }

    /// Writes the failure with why, unless it is too large: whether it was written.
    fn explained(
        &self,
        alloc: Global,
        out: &mut Outbox,
        request: &Entry,
        told: &Explanation,
    ) -> Result<bool, AllocError>
        requires ready { IsReady out.old (numbers_of self.now.session) }
        requires room { self.now.session.used + 1 ≤ self.now.session.limits.seq }
        ensures fits { IfOk result (λ ok. ok ≡ fits_explained self.now.session request.now told.now) }
        ensures last { OnOk result (out.new.numbers.last ≡ self.now.session.limits.seq) }
        ensures holds { IfOk result (λ ok. IsTrue ok → Holds out.new self.now.session.limits.body self.now.session.used (reply request.now (explained told.now) ∷ [])) }
        ensures before { out.new.before ≡ out.old.before }
        ensures too_large { IfOk result (λ ok. ok ≡ false → out.new ≡ out.old) }
    {
        self.begin(out);
        out.explain_within(alloc, request, told, self.limits().body())
    }

    /// Answers a request that the debuggee refused, with why where that is said and fits.
    pub(crate) fn fail_with(
        &mut self,
        alloc: Global,
        out: &mut Outbox,
        request: &Entry,
        why: &Option<Explanation>,
    ) -> Result<(), AllocError>
        requires ready { IsReady out.old (numbers_of self.old.session) }
        requires room { self.old.session.used + 1 ≤ self.old.session.limits.seq }
        ensures made { OnOk result (MadeBy (after_answering request.now (failing self.old.session request.now Failure.Debuggee why.now) self.old.session) self.old.session self.new.session out.new.bytes) }
        ensures debuggee { self.new.debuggee ≡ self.old.debuggee }
        ensures err { OnErr result (self.new.session ≡ self.old.session) }
        ensures before { out.new.before ≡ out.old.before }
    {
        let Some(told) = why else {
            return self.answer(alloc, out, request, Answer::Failure(Failure::Debuggee));
        };
        if self.explained(alloc, out, request, told)? {
            self.commit(request.seq, out);
            return Ok(());
        }
        self.answer(alloc, out, request, Answer::Failure(Failure::Debuggee))
    }

    /// Answers a request whose query the debuggee refused.
    fn fail_refused(
        &mut self,
        alloc: Global,
        out: &mut Outbox,
        request: &Entry,
        query: Option<RefusedQuery<'_>>,
    ) -> Result<(), AllocError>
        requires ready { IsReady out.old (numbers_of self.old.session) }
        requires room { self.old.session.used + 1 ≤ self.old.session.limits.seq }
        ensures made { OnOk result (MadeBy (after_answering request.now (failing self.old.session request.now Failure.Debuggee (option_and_then (D.shown self.old.debuggee).why (option_map query_lent query.entry))) self.old.session) self.old.session self.new.session out.new.bytes) }
        ensures debuggee { self.new.debuggee ≡ self.old.debuggee }
        ensures err { OnErr result (self.new.session ≡ self.old.session) }
        ensures before { out.new.before ≡ out.old.before }
    {
        let why = self.ask_why(alloc, query)?;
        self.fail_with(alloc, out, request, &why)
    }

    /// Answers a request that fails, of which this was queried.
    pub(crate) fn fail(
        &mut self,
        alloc: Global,
        out: &mut Outbox,
        request: &Entry,
        failure: Failure,
        query: Option<RefusedQuery<'_>>,
    ) -> Result<(), AllocError>
        requires ready { IsReady out.old (numbers_of self.old.session) }
        requires room { self.old.session.used + 1 ≤ self.old.session.limits.seq }
        ensures made { OnOk result (MadeBy (after_answering request.now (failing self.old.session request.now failure (option_and_then (D.shown self.old.debuggee).why (option_map query_lent query.entry))) self.old.session) self.old.session self.new.session out.new.bytes) }
        ensures debuggee { self.new.debuggee ≡ self.old.debuggee }
        ensures err { OnErr result (self.new.session ≡ self.old.session) }
        ensures before { out.new.before ≡ out.old.before }
    {
        match failure {
            Failure::Debuggee => self.fail_refused(alloc, out, request, query),
            _ => self.answer(alloc, out, request, Answer::Failure(failure)),
        }
    }
}
