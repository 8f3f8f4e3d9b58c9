//! What the bodies of responses are made of, and these bodies as trees: Specification, the types whose names
//! end in "Response", and "Types".
//!
//! Lines and columns are written as they stand: whether they count from 0 or 1 is the caller's part.
ghost use Rattle.std.specs.Prelude.{◌≡◌, [], IfOk};
ghost use Rattle.serde_json.specs.View.{view};
ghost use Rattle.dap_body.specs.ResponseBody.{set_breakpoints_body, threads_body, continue_body, stack_trace_body, scopes_body, variables_body, set_variable_body, evaluate_body, source_body, loaded_sources_body, run_in_terminal_body};

use crate::beside::{fit_members, put_before, put_left};
use crate::body::Body;
use crate::row::{
    Fields, put_flag, put_number, put_object_if_any, put_short, put_short_if_any, put_signed,
    put_text, put_text_if_any,
};
use dap_json::{More, Text};
use json::Writer;
use serde_json::Value;
use std::alloc::{AllocError, Global};

/// A breakpoint as it is answered.
#[derive(Debug, Drop)]
pub struct Breakpoint {
    pub id: u64,
    /// Where it is: the line that was asked for, or another one.
    pub line: u32,
    /// Whether it can stop there.
    pub verified: bool,
    /// Why it can't, or what else is to be known.
    pub message: Option<Text>,
    /// What stands beside these.
    pub more: More,
}

impl Fields for Breakpoint {
    ghost use Rattle.dap_body.specs.ResponseBody.{breakpoint};

    ghost written = { breakpoint };

    fn write(&self, out: &mut Writer) -> Result<(), AllocError> {
        let left = put_before(out, "id", fit_members(&self.more))?;
        put_number(out, "id", self.id)?;
        let left = put_before(out, "line", left)?;
        put_short(out, "line", self.line)?;
        let left = put_before(out, "message", left)?;
        put_text_if_any(out, "message", &self.message)?;
        let left = put_before(out, "verified", left)?;
        put_flag(out, "verified", self.verified)?;
        put_left(out, left)
    }
}

/// A thread of the debuggee.
#[derive(Debug, Drop)]
pub struct Thread {
    pub id: i64,
    pub name: Text,
    /// What stands beside these.
    pub more: More,
}

impl Fields for Thread {
    ghost use Rattle.dap_body.specs.ResponseBody.{thread};

    ghost written = { thread };

    fn write(&self, out: &mut Writer) -> Result<(), AllocError> {
        let left = put_before(out, "id", fit_members(&self.more))?;
        put_signed(out, "id", self.id)?;
        let left = put_before(out, "name", left)?;
        put_text(out, "name", &self.name)?;
        put_left(out, left)
    }
}

/// A source of the debuggee.
#[derive(Debug, Drop)]
pub struct Source {
    pub name: Text,
    pub path: Option<Text>,
    /// The number by which a client asks for its text, above 0; none where the client reads the file at `path` itself:
    /// Specification, "Source".
    pub source_reference: Option<u32>,
    /// What stands beside these.
    pub more: More,
}

impl Fields for Source {
    ghost use Rattle.dap_body.specs.ResponseBody.{source};

    ghost written = { source };

    fn write(&self, out: &mut Writer) -> Result<(), AllocError> {
        let left = put_before(out, "name", fit_members(&self.more))?;
        put_text(out, "name", &self.name)?;
        let left = put_before(out, "path", left)?;
        put_text_if_any(out, "path", &self.path)?;
        let left = put_before(out, "sourceReference", left)?;
        put_short_if_any(out, "sourceReference", self.source_reference)?;
        put_left(out, left)
    }
}

/// A frame of a thread's stack.
#[derive(Debug, Drop)]
pub struct StackFrame {
    /// The number by which a client asks for its scopes.
    pub id: u32,
    pub name: Text,
    /// `None` where it has none; then a client ignores the line and the column.
    pub source: Option<Source>,
    pub line: u32,
    pub column: u32,
    /// What stands beside these.
    pub more: More,
}

impl Fields for StackFrame {
    ghost use Rattle.dap_body.specs.ResponseBody.{stack_frame};

    ghost written = { stack_frame };

    fn write(&self, out: &mut Writer) -> Result<(), AllocError> {
        let left = put_before(out, "column", fit_members(&self.more))?;
        put_short(out, "column", self.column)?;
        let left = put_before(out, "id", left)?;
        put_short(out, "id", self.id)?;
        let left = put_before(out, "line", left)?;
        put_short(out, "line", self.line)?;
        let left = put_before(out, "name", left)?;
        put_text(out, "name", &self.name)?;
        let left = put_before(out, "source", left)?;
        put_object_if_any(out, "source", &self.source)?;
        put_left(out, left)
    }
}

/// A scope of a frame, as `Locals`. It is never said to be expensive.
#[derive(Debug, Drop)]
pub struct Scope {
    pub name: Text,
    /// The number by which a client asks for its variables.
    pub variables_reference: u32,
    /// What stands beside these.
    pub more: More,
}

impl Fields for Scope {
    ghost use Rattle.dap_body.specs.ResponseBody.{scope};

    ghost written = { scope };

    fn write(&self, out: &mut Writer) -> Result<(), AllocError> {
        let left = put_before(out, "expensive", fit_members(&self.more))?;
        put_flag(out, "expensive", false)?;
        let left = put_before(out, "name", left)?;
        put_text(out, "name", &self.name)?;
        let left = put_before(out, "variablesReference", left)?;
        put_short(out, "variablesReference", self.variables_reference)?;
        put_left(out, left)
    }
}

/// A variable, with its value as text.
#[derive(Debug, Drop)]
pub struct Variable {
    pub name: Text,
    pub value: Text,
    /// The number by which a client asks for its parts, 0 where it has none.
    pub variables_reference: u32,
    /// What stands beside these.
    pub more: More,
}

impl Fields for Variable {
    ghost use Rattle.dap_body.specs.ResponseBody.{variable};

    ghost written = { variable };

    fn write(&self, out: &mut Writer) -> Result<(), AllocError> {
        let left = put_before(out, "name", fit_members(&self.more))?;
        put_text(out, "name", &self.name)?;
        let left = put_before(out, "value", left)?;
        put_text(out, "value", &self.value)?;
        let left = put_before(out, "variablesReference", left)?;
        put_short(out, "variablesReference", self.variables_reference)?;
        put_left(out, left)
    }
}

/// The body of the response to `setBreakpoints`: an answer to each line that was asked for, in order.
pub fn body_set_breakpoints(
    alloc: Global,
    breakpoints: Vec<Breakpoint>,
) -> Result<Value, AllocError>
    ensures { IfOk result (λ v. view v ≡ set_breakpoints_body breakpoints.items) }
{
    Body::SetBreakpoints { breakpoints }.value(alloc)
}

/// The body of the response to `threads`.
pub fn body_threads(alloc: Global, threads: Vec<Thread>) -> Result<Value, AllocError>
    ensures { IfOk result (λ v. view v ≡ threads_body threads.items) }
{
    Body::Threads { threads }.value(alloc)
}

/// The body of the response to `continue`.
pub fn body_continue(alloc: Global) -> Result<Value, AllocError>
    ensures { IfOk result (λ v. view v ≡ continue_body) }
{
    Body::Continue.value(alloc)
}

/// The body of the response to `stackTrace`: the frames asked for, and how many the thread has in all.
pub fn body_stack_trace(
    alloc: Global,
    stack_frames: Vec<StackFrame>,
    total_frames: u64,
) -> Result<Value, AllocError>
    ensures { IfOk result (λ v. view v ≡ stack_trace_body stack_frames.items total_frames) }
{
    Body::StackTrace {
        stack_frames,
        total_frames,
    }
    .value(alloc)
}

/// The body of the response to `scopes`.
pub fn body_scopes(alloc: Global, scopes: Vec<Scope>) -> Result<Value, AllocError>
    ensures { IfOk result (λ v. view v ≡ scopes_body scopes.items) }
{
    Body::Scopes { scopes }.value(alloc)
}

/// The body of the response to `variables`.
pub fn body_variables(alloc: Global, variables: Vec<Variable>) -> Result<Value, AllocError>
    ensures { IfOk result (λ v. view v ≡ variables_body variables.items) }
{
    Body::Variables { variables }.value(alloc)
}

/// The body of the response to `setVariable`: the value that was set, as text.
pub fn body_set_variable(alloc: Global, value: Text) -> Result<Value, AllocError>
    ensures { IfOk result (λ v. view v ≡ set_variable_body value []) }
{
    Body::SetVariable {
        value,
        more: More::none(),
    }
    .value(alloc)
}

/// The body of the response to `evaluate`: the result as text, and the number by which a client asks for its parts, 0
/// where it has none.
pub fn body_evaluate(
    alloc: Global,
    text: Text,
    variables_reference: u32,
) -> Result<Value, AllocError>
    ensures { IfOk result (λ v. view v ≡ evaluate_body text variables_reference []) }
{
    Body::Evaluate {
        result: text,
        variables_reference,
        more: More::none(),
    }
    .value(alloc)
}

/// The body of the response to `source`: its text.
pub fn body_source(alloc: Global, content: Text) -> Result<Value, AllocError>
    ensures { IfOk result (λ v. view v ≡ source_body content) }
{
    Body::Source { content }.value(alloc)
}

/// The body of the response to `loadedSources`.
pub fn body_loaded_sources(alloc: Global, sources: Vec<Source>) -> Result<Value, AllocError>
    ensures { IfOk result (λ v. view v ≡ loaded_sources_body sources.items) }
{
    Body::LoadedSources { sources }.value(alloc)
}

/// The body of a client's response to `runInTerminal`: the process that runs in the terminal and its shell, each 0 to
/// 2147483647, where it is known.
pub fn body_terminal(
    alloc: Global,
    process_id: Option<u32>,
    shell_process_id: Option<u32>,
) -> Result<Value, AllocError>
    ensures { IfOk result (λ v. view v ≡ run_in_terminal_body process_id shell_process_id) }
{
    Body::RunInTerminal {
        process_id,
        shell_process_id,
    }
    .value(alloc)
}
