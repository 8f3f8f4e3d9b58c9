//! From a call to its arguments: a function for each row of keys.
ghost use Rattle.std.specs.Prelude.{◌≡◌, IsTrue, IfOk, OnOk, OnErr, is_some, option_map};
ghost use Rattle.serde_json.specs.Data.{no_members};
ghost use Rattle.serde_json.specs.View.{view, members_view, items_view};
ghost use Rattle.dap_json.specs.Writable.{is_plain_tree};
ghost use Rattle.dap_call.specs.Call.{call_of};
ghost use Rattle.dap_call.specs.CallTree.{if_any, source_tree, breakpoint_tree, breakpoint_items, function_tree, function_items, text_items, initialize_members, cancel_members, set_breakpoints_members, set_function_breakpoints_members, set_exception_breakpoints_members, thread_members, stack_trace_members, scopes_members, variables_members, evaluate_members, source_members, set_variable_members, modules_members, breakpoint_locations_members, completions_members, call_tree, command_of};
ghost use Rattle.dap_call.specs.PlainCall.{is_plain_call};

use crate::call::{
    BreakpointLocations, Call, Completions, Evaluate, Initialize, Modules, SetVariable, StackTrace,
    Variables,
};
use crate::members::{add, add_if_false, add_if_true, add_number, add_optional, add_text};
use dap_command::{Key, SourceKey};
use dap_json::members::Members;
use dap_json::{Text, Tree};
use serde_json::{Map, Value};
use std::alloc::{AllocError, Global};

fn source(alloc: Global, source: &SourceKey) -> Result<Value, AllocError>
    ensures { IfOk result (λ v. view v ≡ source_tree source.now) }
{
    let mut members = Map::new(alloc);
    match source {
        SourceKey::Path(path) => {
            add_text(alloc, &mut members, Key::Path, path)?;
            Ok(Value::Object(members))
        }
        SourceKey::Reference(reference) => {
            add(
                alloc,
                &mut members,
                Key::SourceReference,
                Value::from(*reference),
            )?;
            Ok(Value::Object(members))
        }
    }
}

fn breakpoint(alloc: Global, line: u32) -> Result<Value, AllocError>
    ensures { IfOk result (λ v. view v ≡ breakpoint_tree line) }
{
    let mut members = Map::new(alloc);
    add(alloc, &mut members, Key::Line, Value::from(line))?;
    Ok(Value::Object(members))
}

fn breakpoints(alloc: Global, lines: &[u32]) -> Result<Vec<Value>, AllocError>
    ensures { IfOk result (λ v. items_view v.items ≡ breakpoint_items lines.now) }
{
    let mut breakpoints = Vec::new(alloc);
    for line in lines {
        breakpoints.push(breakpoint(alloc, *line)?)?;
    }
    Ok(breakpoints)
}

fn function(alloc: Global, name: &Text) -> Result<Value, AllocError>
    ensures { IfOk result (λ v. view v ≡ function_tree name.now) }
{
    let mut members = Map::new(alloc);
    add_text(alloc, &mut members, Key::Name, name)?;
    Ok(Value::Object(members))
}

fn functions(alloc: Global, names: &[Text]) -> Result<Vec<Value>, AllocError>
    ensures { IfOk result (λ v. items_view v.items ≡ function_items names.now) }
{
    let mut functions = Vec::new(alloc);
    for name in names {
        functions.push(function(alloc, name)?)?;
    }
    Ok(functions)
}

pub(crate) fn texts(alloc: Global, texts: &[Text]) -> Result<Vec<Value>, AllocError>
    ensures { IfOk result (λ v. items_view v.items ≡ text_items texts.now) }
{
    let mut values = Vec::new(alloc);
    for text in texts {
        values.push(Value::try_from_str(alloc, text.as_str())?)?;
    }
    Ok(values)
}

#[tactic(auto, unfolding(crate::specs::CallTree::initialize_members))]
fn add_initialize(alloc: Global, members: &mut Members, call: &Initialize) -> Result<(), AllocError>
    requires { members_view members.old.entries ≡ no_members }
    ensures { OnOk result (members_view members.new.entries ≡ initialize_members call.now) }
{
    add_text(alloc, members, Key::AdapterId, &call.adapter_id)?;
    add_if_false(alloc, members, Key::LinesStartAt1, call.lines_start_at_1)?;
    add_if_false(
        alloc,
        members,
        Key::ColumnsStartAt1,
        call.columns_start_at_1,
    )?;
    add_if_true(
        alloc,
        members,
        Key::SupportsVariablePaging,
        call.supports_variable_paging,
    )?;
    add_if_true(
        alloc,
        members,
        Key::SupportsRunInTerminalRequest,
        call.supports_run_in_terminal_request,
    )
}

fn initialize(alloc: Global, call: &Initialize) -> Result<Members, AllocError>
    ensures { IfOk result (λ m. members_view m.entries ≡ initialize_members call.now) }
{
    let mut members = Map::new(alloc);
    match add_initialize(alloc, &mut members, call) {
        Ok(()) => Ok(members),
        Err(fault) => Err(fault),
    }
}

fn cancel(alloc: Global, request_id: Option<u64>) -> Result<Members, AllocError>
    ensures members { IfOk result (λ m. members_view m.entries ≡ cancel_members request_id) }
    ensures memory { OnErr result (IsTrue (is_some (if_any (cancel_members request_id)))) }
{
    let mut members = Map::new(alloc);
    if let Some(request_id) = request_id {
        add(alloc, &mut members, Key::RequestId, Value::from(request_id))?;
        return Ok(members);
    }
    Ok(members)
}

#[tactic(auto, unfolding(crate::specs::CallTree::set_breakpoints_members))]
fn set_breakpoints(alloc: Global, key: &SourceKey, lines: &[u32]) -> Result<Members, AllocError>
    ensures { IfOk result (λ m. members_view m.entries
        ≡ set_breakpoints_members key.now lines.now) }
{
    let mut members = Map::new(alloc);
    add(alloc, &mut members, Key::Source, source(alloc, key)?)?;
    let breakpoints = Value::Array(breakpoints(alloc, lines)?);
    add(alloc, &mut members, Key::Breakpoints, breakpoints)?;
    Ok(members)
}

fn set_function_breakpoints(alloc: Global, names: &[Text]) -> Result<Members, AllocError>
    ensures { IfOk result (λ m. members_view m.entries
        ≡ set_function_breakpoints_members names.now) }
{
    let mut members = Map::new(alloc);
    let functions = Value::Array(functions(alloc, names)?);
    add(alloc, &mut members, Key::Breakpoints, functions)?;
    Ok(members)
}

fn set_exception_breakpoints(alloc: Global, filters: &[Text]) -> Result<Members, AllocError>
    ensures { IfOk result (λ m. members_view m.entries
        ≡ set_exception_breakpoints_members filters.now) }
{
    let mut members = Map::new(alloc);
    let filters = Value::Array(texts(alloc, filters)?);
    add(alloc, &mut members, Key::Filters, filters)?;
    Ok(members)
}

fn thread(alloc: Global, thread_id: i64) -> Result<Members, AllocError>
    ensures { IfOk result (λ m. members_view m.entries ≡ thread_members thread_id) }
{
    let mut members = Map::new(alloc);
    add(alloc, &mut members, Key::ThreadId, Value::from(thread_id))?;
    Ok(members)
}

#[tactic(auto, unfolding(crate::specs::CallTree::stack_trace_members))]
fn stack_trace(alloc: Global, call: &StackTrace) -> Result<Members, AllocError>
    ensures { IfOk result (λ m. members_view m.entries ≡ stack_trace_members call.now) }
{
    let mut members = thread(alloc, call.thread_id)?;
    add_number(alloc, &mut members, Key::StartFrame, call.start_frame)?;
    add_number(alloc, &mut members, Key::Levels, call.levels)?;
    Ok(members)
}

fn scopes(alloc: Global, frame_id: u32) -> Result<Members, AllocError>
    ensures { IfOk result (λ m. members_view m.entries ≡ scopes_members frame_id) }
{
    let mut members = Map::new(alloc);
    add(alloc, &mut members, Key::FrameId, Value::from(frame_id))?;
    Ok(members)
}

#[tactic(auto, unfolding(crate::specs::CallTree::variables_members))]
fn variables(alloc: Global, call: &Variables) -> Result<Members, AllocError>
    ensures { IfOk result (λ m. members_view m.entries ≡ variables_members call.now) }
{
    let mut members = Map::new(alloc);
    let reference = Value::from(call.variables_reference);
    add(alloc, &mut members, Key::VariablesReference, reference)?;
    add_number(alloc, &mut members, Key::Start, call.start)?;
    add_number(alloc, &mut members, Key::Count, call.count)?;
    Ok(members)
}

#[tactic(auto, unfolding(crate::specs::CallTree::evaluate_members))]
fn evaluate(alloc: Global, call: &Evaluate) -> Result<Members, AllocError>
    ensures { IfOk result (λ m. members_view m.entries ≡ evaluate_members call.now) }
{
    let mut members = Map::new(alloc);
    add_text(alloc, &mut members, Key::Expression, &call.expression)?;
    add_optional(alloc, &mut members, Key::FrameId, call.frame_id)?;
    Ok(members)
}

fn source_reference(alloc: Global, reference: u32) -> Result<Members, AllocError>
    ensures { IfOk result (λ m. members_view m.entries ≡ source_members reference) }
{
    let mut members = Map::new(alloc);
    add(
        alloc,
        &mut members,
        Key::SourceReference,
        Value::from(reference),
    )?;
    Ok(members)
}

#[tactic(auto, unfolding(crate::specs::CallTree::set_variable_members))]
fn set_variable(alloc: Global, call: &SetVariable) -> Result<Members, AllocError>
    ensures { IfOk result (λ m. members_view m.entries ≡ set_variable_members call.now) }
{
    let mut members = Map::new(alloc);
    let reference = Value::from(call.variables_reference);
    add(alloc, &mut members, Key::VariablesReference, reference)?;
    add_text(alloc, &mut members, Key::Name, &call.name)?;
    add_text(alloc, &mut members, Key::Value, &call.value)?;
    Ok(members)
}

#[tactic(auto, unfolding(crate::specs::CallTree::modules_members), using(crate::proofs::Written::modules_start, crate::proofs::Written::modules_count))]
fn modules(alloc: Global, call: &Modules) -> Result<Members, AllocError>
    ensures members { IfOk result (λ m. members_view m.entries ≡ modules_members call.now) }
    ensures memory { OnErr result (IsTrue (is_some (if_any (modules_members call.now)))) }
{
    let mut members = Map::new(alloc);
    add_number(alloc, &mut members, Key::StartModule, call.start_module)?;
    add_number(alloc, &mut members, Key::ModuleCount, call.module_count)?;
    Ok(members)
}

#[tactic(auto, unfolding(crate::specs::CallTree::breakpoint_locations_members))]
fn breakpoint_locations(alloc: Global, call: &BreakpointLocations) -> Result<Members, AllocError>
    ensures { IfOk result (λ m. members_view m.entries
        ≡ breakpoint_locations_members call.now) }
{
    let mut members = Map::new(alloc);
    add(
        alloc,
        &mut members,
        Key::Source,
        source(alloc, &call.source)?,
    )?;
    add(alloc, &mut members, Key::Line, Value::from(call.line))?;
    add_optional(alloc, &mut members, Key::EndLine, call.end_line)?;
    Ok(members)
}

#[tactic(auto, unfolding(crate::specs::CallTree::completions_members))]
fn completions(alloc: Global, call: &Completions) -> Result<Members, AllocError>
    ensures { IfOk result (λ m. members_view m.entries ≡ completions_members call.now) }
{
    let mut members = Map::new(alloc);
    add_text(alloc, &mut members, Key::Text, &call.text)?;
    add(alloc, &mut members, Key::Column, Value::from(call.column))?;
    add_optional(alloc, &mut members, Key::FrameId, call.frame_id)?;
    add_optional(alloc, &mut members, Key::Line, call.line)?;
    Ok(members)
}

/// Nothing where no key is written.
fn object(members: Members) -> Option<Value>
    ensures { option_map view result ≡ if_any (members_view members.entries) }
{
    if members.is_empty() {
        None
    } else {
        Some(Value::Object(members))
    }
}

fn copy(tree: &Option<Tree>) -> Result<Option<Value>, AllocError>
    ensures tree { IfOk result (λ o. option_map view o ≡ tree.now) }
    ensures memory { OnErr result (IsTrue (is_some tree.now)) }
{
    match tree {
        None => Ok(None),
        Some(tree) => Ok(Some(tree.value().clone()?)),
    }
}

#[tactic(auto, using(crate::proofs::Written::initialize_any, crate::proofs::Written::set_breakpoints_any, crate::proofs::Written::stack_trace_any, crate::proofs::Written::variables_any, crate::proofs::Written::evaluate_any, crate::proofs::Written::set_variable_any, crate::proofs::Written::locations_any, crate::proofs::Written::completions_any))]
fn arguments(alloc: Global, call: &Call) -> Result<Option<Value>, AllocError>
    ensures memory { OnErr result (IsTrue (is_some (call_tree call.now))) }
    ensures tree { IfOk result (λ o. option_map view o ≡ call_tree call.now) }
{
    match call {
        Call::Initialize(call) => Ok(object(initialize(alloc, call)?)),
        Call::Launch(tree) | Call::Attach(tree) => copy(tree),
        Call::ConfigurationDone
        | Call::Disconnect
        | Call::Threads
        | Call::Terminate
        | Call::LoadedSources
        | Call::Restart => Ok(None),
        Call::Cancel { request_id } => Ok(object(cancel(alloc, *request_id)?)),
        Call::SetBreakpoints { source, lines } => {
            Ok(object(set_breakpoints(alloc, source, lines.as_slice())?))
        }
        Call::SetFunctionBreakpoints { names } => {
            Ok(object(set_function_breakpoints(alloc, names.as_slice())?))
        }
        Call::SetExceptionBreakpoints { filters } => {
            Ok(object(set_exception_breakpoints(alloc, filters.as_slice())?))
        }
        Call::Continue { thread_id }
        | Call::Next { thread_id }
        | Call::StepIn { thread_id }
        | Call::StepOut { thread_id }
        | Call::Pause { thread_id }
        | Call::StepBack { thread_id }
        | Call::ReverseContinue { thread_id }
        | Call::ExceptionInfo { thread_id } => Ok(object(thread(alloc, *thread_id)?)),
        Call::StackTrace(call) => Ok(object(stack_trace(alloc, call)?)),
        Call::Scopes { frame_id } => Ok(object(scopes(alloc, *frame_id)?)),
        Call::Variables(call) => Ok(object(variables(alloc, call)?)),
        Call::Evaluate(call) => Ok(object(evaluate(alloc, call)?)),
        Call::Source {
            source_reference: reference,
        } => { Ok(object(source_reference(alloc, *reference)?)) }
        Call::SetVariable(call) => Ok(object(set_variable(alloc, call)?)),
        Call::Modules(call) => Ok(object(modules(alloc, call)?)),
        Call::BreakpointLocations(call) => Ok(object(breakpoint_locations(alloc, call)?)),
        Call::Completions(call) => Ok(object(completions(alloc, call)?)),
    }
}

/// The arguments that a call is written as: an object of its keys, in byte order, where those with their default value
/// are left out; `None` where no key is written. `launch` and `attach` are written as a copy of their tree. What it asks
/// is told by [`Call::plain`].
///
/// It is an error where memory for the object is refused. Where no key is written, none is asked for.
pub fn write_call(alloc: Global, call: &Call) -> Result<Option<Value>, AllocError>
    requires { IsTrue (is_plain_call call.now) }
    ensures tree { IfOk result (λ o. option_map view o ≡ call_tree call.now) }
    ensures reads_back { IfOk result
        (λ o. call_of (command_of call.now) (option_map view o) ≡ Ok call.now) }
    ensures plain { IfOk result (λ o. IsTrue (is_plain_tree (option_map view o))) }
    ensures memory { OnErr result (IsTrue (is_some (call_tree call.now))) }
{
    let arguments = arguments(alloc, call)?;
    Ok(arguments)
}
