//! What a request changes: the lines of a source, or the value of a variable.
//!
//! The debuggee is queried and the answer measured; then the debuggee is asked, and the answer given.
ghost use Rattle.std.specs.Prelude.{◌≡◌, ◌+◌, ◌≤◌, map, length, Ok, Some, IfOk, IfErr, IfSome, IfNone, OnOk, OnErr, IsTrue, false, ◌≢◌};
ghost use Rattle.dap_query.specs.declared.no_answer.NoAnswer.{NoAnswer};
ghost use Rattle.dap_plan.specs.Session.{numbers_of};
ghost use Rattle.dap_outbox.specs.Outbox.{IsReady};
ghost use Rattle.dap_call.specs.declared.call.Call.{Call};
ghost use Rattle.dap_tables.specs.Breakpoints.{max_id, breakpoints_with};
ghost use Rattle.dap_debuggee.specs.Shown.{to_set_breakpoints, to_assign, done};
ghost use Rattle.dap_query.specs.Queries.{object_of};
ghost use Rattle.dap_plan.specs.Breakpoints.{are_too_many};
ghost use Rattle.dap_plan.specs.Handling.{after_change, answers_to, protocol_breakpoint, change_reason, change_result, lines_asked, lines_result, value_result};
ghost use Rattle.dap_plan.specs.Plan.{messages_due};
ghost use Rattle.dap_plan.specs.SessionState.{Carries, IsRefusedFor, IsUnasked};
ghost use Rattle.dap_plan.specs.Changing.{AreLines, CanChange, IsChange, IsChangeBody, IsMeasured, IsToFail, Changes, lines_given};

use crate::session::Session;
use dap_body::{Body, Breakpoint, Failure};
use dap_call::{Call, SetVariable};
use dap_command::SourceKey;
use dap_debuggee::{Assigned, Debuggee, Placement};
use dap_outbox::Outbox;
use dap_plan::AdapterFault;
use dap_query::{NoAnswer, Options};
use dap_tables::{BpFault, Entry};
use std::alloc::{AllocError, Global};

/// The lines that a call gives.
fn lines_given(call: &Call) -> &[u32]
    ensures { result.now ≡ lines_given call.now }
{
    match call {
        Call::SetBreakpoints { lines, .. } => lines.as_slice(),
        _ => &[],
    }
}

/// Lines as the debuggee counts them, where the client counts from 0.
fn raised(alloc: Global, lines: &[u32]) -> Result<Vec<u32>, AllocError>
    requires { AreLines lines.now }
    ensures { IfOk result (λ asked. asked.items ≡ map (λ n. n + 1) lines.now) }
{
    lines.iter().map(|line| *line + 1).collect(alloc)
}

/// A breakpoint as it is answered, at the line where it is.
fn protocol_breakpoint(options: Options, id: u64, placed: Placement) -> Breakpoint
    ensures { result ≡ protocol_breakpoint options id placed }
{
    let Placement {
        verified,
        line,
        message,
        more,
    } = placed;
    Breakpoint {
        id,
        line: options.line_shown(line),
        verified,
        message,
        more,
    }
}

/// An answer to each line that was asked for, with ids from the first on.
fn answers_to(
    alloc: Global,
    options: Options,
    first: u64,
    lines: &[u32],
    placed: Vec<Placement>,
) -> Result<Vec<Breakpoint>, AllocError>
    requires { first + length lines.now ≤ max_id + 1 }
    ensures { IfOk result (λ told. told.items ≡ answers_to options first lines.now placed.items) }
{
    let past = first + lines.len() as u64;
    (first..past)
        .zip(placed)
        .map(|(id, placed)| protocol_breakpoint(options, id, placed))
        .collect(alloc)
}

impl<D: Debuggee + Drop> Session<D> {
    /// Whether too many breakpoints would stand, or too many ids be given.
    fn are_too_many(&self, source: &SourceKey, lines: &[u32]) -> bool
        ensures { result ≡ are_too_many self.now.session.limits source.now lines.now self.now.session.breakpoints }
    {
        self.breakpoints.check(source, lines).is_err()
    }

    // ---- what is answered

    /// Where lines are set. `asked` are the lines as the debuggee counts them.
    fn lines_body(
        &self,
        alloc: Global,
        source: &SourceKey,
        lines: &[u32],
        asked: &[u32],
    ) -> Result<Body, NoAnswer>
        requires { asked.now ≡ lines_asked self.now.session.options lines.now }
        ensures { IsChangeBody result (lines_result self.now.session source.now lines.now ((D.shown self.now.debuggee).verify source.now asked.now)) }
    {
        let placed = self.debuggee.verify(alloc, source, asked)?;
        if self.are_too_many(source, lines) {
            return Err(NoAnswer::Fails(Failure::TooManyBreakpoints));
        }
        let (options, first) = (self.options(), self.breakpoints.next_id());
        let breakpoints = answers_to(alloc, options, first, lines, placed)?;
        Ok(Body::SetBreakpoints { breakpoints })
    }

    /// Where a value is set.
    fn value_body(&self, alloc: Global, wanted: &SetVariable) -> Result<Body, NoAnswer>
        ensures { IsChangeBody result (value_result (D.shown self.now.debuggee) self.now.session wanted.now (object_of self.now.session.references wanted.now.variables_reference)) }
    {
        let Some(holder) = self.object(wanted.variables_reference) else {
            return Err(NoAnswer::Fails(Failure::Debuggee));
        };
        let (name, text) = (wanted.name.as_str(), wanted.value.as_str());
        let assigned = self.debuggee.assigned(alloc, holder, name, text)?;
        let Assigned { value, more } = assigned;
        Ok(Body::SetVariable { value, more })
    }

    fn change_body(&self, alloc: Global, call: &Call, asked: &[u32]) -> Result<Body, NoAnswer>
        requires { asked.now ≡ lines_asked self.now.session.options (lines_given call.now) }
        ensures { IsChangeBody result (change_result (D.shown self.now.debuggee) self.now.session call.now) }
    {
        match call {
            Call::SetBreakpoints { source, lines } => {
                self.lines_body(alloc, source, lines.as_slice(), asked)
            }
            Call::SetVariable(wanted) => self.value_body(alloc, wanted),
            _ => Err(NoAnswer::Fails(Failure::Debuggee)),
        }
    }

    /// Writes what is due where the change is made, or answers why it is not made; then nothing is written.
    fn weigh(
        &self,
        alloc: Global,
        out: &mut Outbox,
        request: &Entry,
        call: &Call,
        asked: &[u32],
    ) -> Result<(), NoAnswer>
        requires ready { IsReady out.old (numbers_of self.now.session) }
        requires room { self.now.session.used + 1 ≤ self.now.session.limits.seq }
        requires asked { asked.now ≡ lines_asked self.now.session.options (lines_given call.now) }
        ensures measured { OnOk result (IsMeasured (change_result (D.shown self.now.debuggee) self.now.session call.now) self.now.session request.now out.new) }
        ensures fails { IfErr result (λ untold. IsToFail untold (after_change self.now.session request.now (change_reason (D.shown self.now.debuggee) self.now.session call.now) (change_result (D.shown self.now.debuggee) self.now.session call.now)) self.now.session request.now (change_reason (D.shown self.now.debuggee) self.now.session call.now)) }
        ensures before { out.new.before ≡ out.old.before }
        ensures unwritten { IfErr result (λ untold. untold ≢ NoAnswer.OutOfMemory → out.new ≡ out.old) }
    {
        let body = self.change_body(alloc, call, asked)?;
        if self.measured(alloc, out, request, Some(body))? {
            return Ok(());
        }
        Err(NoAnswer::Fails(Failure::TooLarge))
    }

    // ---- what is asked

    /// Asks the debuggee to set lines.
    fn ask_lines(
        &mut self,
        alloc: Global,
        source: &SourceKey,
        lines: &[u32],
    ) -> Result<(), AllocError>
        ensures follows { OnOk result (D.follows self.old.debuggee (to_set_breakpoints source.now lines.now) done self.new.debuggee) }
        ensures session { self.new.session ≡ self.old.session }
    {
        self.debuggee.set_breakpoints(alloc, source, lines)
    }

    /// Sets lines in the table.
    fn replace(&mut self, source: SourceKey, lines: &[u32]) -> Result<(), AllocError>
        requires { are_too_many self.old.session.limits source lines.now self.old.session.breakpoints ≡ false }
        ensures ok { OnOk result (self.new ≡ record self.old { session = record self.old.session { breakpoints = breakpoints_with source lines.now self.old.session.breakpoints } }) }
        ensures err { OnErr result (self.new ≡ self.old) }
    {
        match self.breakpoints.replace(source, lines) {
            Ok(_) => Ok(()),
            Err(BpFault::OutOfMemory) => Err(AllocError),
            Err(BpFault::Full) => unreachable!(),
            Err(BpFault::Exhausted) => unreachable!(),
        }
    }

    /// Sets lines at the debuggee and in the table.
    fn set_lines(
        &mut self,
        alloc: Global,
        source: &SourceKey,
        asked: &[u32],
    ) -> Result<(), AllocError>
        requires { are_too_many self.old.session.limits source.now asked.now self.old.session.breakpoints ≡ false }
        ensures follows { OnOk result (D.follows self.old.debuggee (to_set_breakpoints source.now asked.now) done self.new.debuggee) }
        ensures session { OnOk result (self.new.session ≡ record self.old.session { breakpoints = breakpoints_with source.now asked.now self.old.session.breakpoints }) }
        ensures err { OnErr result (self.new.session ≡ self.old.session) }
    {
        let name = source.clone()?;
        self.ask_lines(alloc, source, asked)?;
        self.replace(name, asked)
    }

    /// Asks the debuggee to set a value.
    fn set_value(&mut self, alloc: Global, wanted: &SetVariable) -> Result<(), AllocError>
        requires { CanChange (value_result (D.shown self.old.debuggee) self.old.session wanted.now (object_of self.old.session.references wanted.now.variables_reference)) }
        ensures follows { OnOk result (IfSome (object_of self.old.session.references wanted.now.variables_reference) (λ holder. D.follows self.old.debuggee (to_assign holder wanted.now.name wanted.now.value) done self.new.debuggee)) }
        ensures session { self.new.session ≡ self.old.session }
    {
        match self.object(wanted.variables_reference) {
            None => unreachable!(),
            Some(holder) => {
                let (name, text) = (wanted.name.as_str(), wanted.value.as_str());
                self.debuggee.assign(alloc, holder, name, text)
            }
        }
    }

    /// Asks the debuggee for a change, and keeps it.
    fn make_change(&mut self, alloc: Global, call: &Call, asked: &[u32]) -> Result<(), AllocError>
        requires asked { asked.now ≡ lines_asked self.old.session.options (lines_given call.now) }
        requires due { CanChange (change_result (D.shown self.old.debuggee) self.old.session call.now) }
        ensures changes { OnOk result (Changes D.follows (change_result (D.shown self.old.debuggee) self.old.session call.now) self.old self.new) }
        ensures err { OnErr result (self.new.session ≡ self.old.session) }
    {
        match call {
            Call::SetBreakpoints { source, .. } => self.set_lines(alloc, source, asked),
            Call::SetVariable(wanted) => self.set_value(alloc, wanted),
            _ => unreachable!(),
        }
    }

    // ---- a change

    /// Changes what a call asks for, or answers why not. `asked` are the lines as the debuggee counts them.
    fn change_or_fail(
        &mut self,
        alloc: Global,
        out: &mut Outbox,
        request: &Entry,
        call: &Call,
        asked: &[u32],
    ) -> Result<(), AllocError>
        requires ready { IsReady out.old (numbers_of self.old.session) }
        requires room { self.old.session.used + 1 ≤ self.old.session.limits.seq }
        requires asked { asked.now ≡ lines_asked self.old.session.options (lines_given call.now) }
        ensures carries { OnOk result (Carries D.follows (after_change self.old.session request.now (change_reason (D.shown self.old.debuggee) self.old.session call.now) (change_result (D.shown self.old.debuggee) self.old.session call.now)) self.old self.new out.new.bytes) }
        ensures unasked { OnErr result (IsUnasked (Ok (Some (after_change self.old.session request.now (change_reason (D.shown self.old.debuggee) self.old.session call.now) (change_result (D.shown self.old.debuggee) self.old.session call.now)))) self.old.debuggee self.new.debuggee) }
        ensures err { OnErr result (self.new.session ≡ self.old.session) }
        ensures before { out.new.before ≡ out.old.before }
    {
        match self.weigh(alloc, out, request, call, asked) {
            Ok(()) => {
                self.make_change(alloc, call, asked)?;
                self.commit(request.seq, out);
                Ok(())
            }
            Err(NoAnswer::Fails(failure)) => {
                let query = self.query_before(call, asked);
                self.fail(alloc, out, request, failure, query)
            }
            Err(NoAnswer::OutOfMemory) => Err(AllocError),
        }
    }

    fn change_counted(
        &mut self,
        alloc: Global,
        out: &mut Outbox,
        request: &Entry,
        call: &Call,
    ) -> Result<(), AllocError>
        requires ready { IsReady out.old (numbers_of self.old.session) }
        requires room { self.old.session.used + 1 ≤ self.old.session.limits.seq }
        requires change { IsChange call.now }
        ensures carries { OnOk result (Carries D.follows (after_change self.old.session request.now (change_reason (D.shown self.old.debuggee) self.old.session call.now) (change_result (D.shown self.old.debuggee) self.old.session call.now)) self.old self.new out.new.bytes) }
        ensures unasked { OnErr result (IsUnasked (Ok (Some (after_change self.old.session request.now (change_reason (D.shown self.old.debuggee) self.old.session call.now) (change_result (D.shown self.old.debuggee) self.old.session call.now)))) self.old.debuggee self.new.debuggee) }
        ensures err { OnErr result (self.new.session ≡ self.old.session) }
        ensures before { out.new.before ≡ out.old.before }
    {
        let lines = lines_given(call);
        if self.options().lines_start_at_1 {
            return self.change_or_fail(alloc, out, request, call, lines);
        }
        let asked = raised(alloc, lines)?;
        self.change_or_fail(alloc, out, request, call, &asked)
    }

    /// Changes what a call asks for, or answers why not.
    pub(crate) fn change(
        &mut self,
        alloc: Global,
        out: &mut Outbox,
        request: &Entry,
        call: &Call,
    ) -> Result<(), AdapterFault>
        requires ready { IsReady out.old (numbers_of self.old.session) }
        requires change { IsChange call.now }
        ensures carries { OnOk result (Carries D.follows (after_change self.old.session request.now (change_reason (D.shown self.old.debuggee) self.old.session call.now) (change_result (D.shown self.old.debuggee) self.old.session call.now)) self.old self.new out.new.bytes) }
        ensures within { OnOk result (self.old.session.used + messages_due (after_change self.old.session request.now (change_reason (D.shown self.old.debuggee) self.old.session call.now) (change_result (D.shown self.old.debuggee) self.old.session call.now)) ≤ self.old.session.limits.seq) }
        ensures refused { IfErr result (λ fault. IsRefusedFor fault (after_change self.old.session request.now (change_reason (D.shown self.old.debuggee) self.old.session call.now) (change_result (D.shown self.old.debuggee) self.old.session call.now)) self.old self.new) }
        ensures err { OnErr result (self.new.session ≡ self.old.session) }
        ensures before { out.new.before ≡ out.old.before }
    {
        self.room(1)?;
        Ok(self.change_counted(alloc, out, request, call)?)
    }
}
