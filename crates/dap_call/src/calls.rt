//! From a command and its arguments to a call: a function for each row of keys.
ghost use Rattle.std.specs.Prelude.{◌≡◌, IfOk, IsErrOf, OnErr, Some, true, is_some, option_map, option_and_then};
ghost use Rattle.serde_json.specs.View.{view};
ghost use Rattle.dap_json.specs.Lent.{lent_data};
ghost use Rattle.dap_call.specs.Argument.{Gives, read_map, must_be_there};
ghost use Rattle.dap_call.specs.Call.{lines_of, line_in, breakpoint_lines_of, name_in, names_of, texts_of, source_key_of, source_reference_of, source_parts as source_parts_of, initialize_of, cancel_of, given_lines, set_breakpoints_of, set_function_breakpoints_of, set_exception_breakpoints_of, stack_trace_of, scopes_of, variables_of, evaluate_of, source_of, set_variable_of, modules_of, breakpoint_locations_of, completions_of, thread_of, tree_of, call_of, takes_memory};
ghost use Rattle.dap_call.specs.declared.call.CallFault.TheVariants.{OutOfMemory};

use crate::argument::Arguments;
use crate::call::{
    BreakpointLocations, Call, CallFault, Completions, Evaluate, Initialize, Modules, SetVariable,
    StackTrace, Variables,
};
use dap_command::{Command, Key, SourceKey};
use dap_json::{List, Text, Tree, field, numbers};
use serde_json::Value;
use std::alloc::{AllocError, Global};

/// A source's path and its reference.
#[tactic(auto, unfolding(crate::specs::Call::source_parts))]
fn source_parts(source: &Value) -> Result<(Option<&str>, u32), Key>
    ensures { read_map (λ p. (option_map (λ text. text.now) p.0, p.1)) result
        ≡ source_parts_of (view source.now) }
{
    let source = Arguments::required(Some(source))?;
    let path = source.at(Key::Path).optional_text()?;
    let reference = source.at(Key::SourceReference).number_or(0)?;
    Ok((path, reference))
}

/// How a source is named, if it is.
fn source_key(alloc: Global, source: &Value) -> Result<Option<SourceKey>, AllocError>
    ensures memory { OnErr result (is_some (source_key_of (view source.now)) ≡ true) }
    ensures key { IfOk result (λ o. o ≡ source_key_of (view source.now)) }
{
    Ok(match source_parts(source) {
        Ok((Some(path), _)) => Some(SourceKey::Path(Text::copied(alloc, path)?)),
        Ok((None, 0)) | Err(_) => None,
        Ok((None, reference)) => Some(SourceKey::Reference(reference)),
    })
}

/// The reference of a source, which may have a path too.
fn source_reference(source: &Value) -> Option<u32>
    ensures { result ≡ source_reference_of (view source.now) }
{
    let (_, reference) = source_parts(source).ok()?;
    Some(reference)
}

fn lines(alloc: Global, lines: &Value) -> Result<Option<List<u32>>, AllocError>
    ensures { IfOk result (λ o. o ≡ lines_of (view lines.now)) }
{
    let Some(items) = lines.as_array() else {
        return Ok(None);
    };
    let mut found = Vec::new(alloc);
    for item in items {
        let Some(line) = numbers::number(item) else {
            return Ok(None);
        };
        found.push(line)?;
    }
    Ok(Some(List::new(found)))
}

/// Whether a value is an array of lines, which are not kept.
fn are_lines(lines: &Value) -> bool
    ensures { result ≡ is_some (lines_of (view lines.now)) }
{
    let Some(items) = lines.as_array() else {
        return false;
    };
    for item in items {
        if numbers::number(item).is_none() {
            return false;
        }
    }
    true
}

fn line(breakpoint: &Value) -> Option<u32>
    ensures { result ≡ line_in (view breakpoint.now) }
{
    breakpoint.get(Key::Line.name()).and_then(numbers::number)
}

fn breakpoint_lines(alloc: Global, breakpoints: &Value) -> Result<Option<List<u32>>, AllocError>
    ensures { IfOk result (λ o. o ≡ breakpoint_lines_of (view breakpoints.now)) }
{
    let Some(items) = breakpoints.as_array() else {
        return Ok(None);
    };
    let mut found = Vec::new(alloc);
    for item in items {
        let Some(line) = line(item) else {
            return Ok(None);
        };
        found.push(line)?;
    }
    Ok(Some(List::new(found)))
}

/// The name of a function breakpoint.
fn name(breakpoint: &Value) -> Option<&str>
    ensures { option_map (λ s. s.now) result ≡ name_in (view breakpoint.now) }
{
    field::text(breakpoint, Key::Name.name())
}

fn names(alloc: Global, breakpoints: &Value) -> Result<Option<List<Text>>, AllocError>
    ensures { IfOk result (λ o. o ≡ names_of (view breakpoints.now)) }
{
    let Some(items) = breakpoints.as_array() else {
        return Ok(None);
    };
    let mut found = Vec::new(alloc);
    for item in items {
        let Some(name) = name(item) else {
            return Ok(None);
        };
        found.push(Text::copied(alloc, name)?)?;
    }
    Ok(Some(List::new(found)))
}

fn text_list(alloc: Global, texts: &Value) -> Result<Option<List<Text>>, AllocError>
    ensures { IfOk result (λ o. o ≡ texts_of (view texts.now)) }
{
    let Some(items) = texts.as_array() else {
        return Ok(None);
    };
    let mut found = Vec::new(alloc);
    for item in items {
        let Some(text) = item.as_str() else {
            return Ok(None);
        };
        found.push(Text::copied(alloc, text)?)?;
    }
    Ok(Some(List::new(found)))
}

#[tactic(auto, unfolding(crate::specs::Call::initialize_of))]
fn initialize(alloc: Global, given: Option<&Value>) -> Result<Call, CallFault>
    ensures { Gives result (initialize_of (lent_data given.entry)) }
{
    let arguments = Arguments::optional(given)?;
    let adapter_id = arguments.text_or_empty(alloc, Key::AdapterId)?;
    let lines_start_at_1 = arguments.at(Key::LinesStartAt1).flag_or(true)?;
    let columns_start_at_1 = arguments.at(Key::ColumnsStartAt1).flag_or(true)?;
    let supports_variable_paging = arguments.at(Key::SupportsVariablePaging).flag_or(false)?;
    let supports_run_in_terminal_request = arguments
        .at(Key::SupportsRunInTerminalRequest)
        .flag_or(false)?;
    Ok(Call::Initialize(Initialize {
        adapter_id,
        lines_start_at_1,
        columns_start_at_1,
        supports_variable_paging,
        supports_run_in_terminal_request,
    }))
}

#[tactic(auto, unfolding(crate::specs::Call::cancel_of))]
fn cancel(given: Option<&Value>) -> Result<Call, Key>
    ensures { result ≡ cancel_of (lent_data given.entry) }
{
    let arguments = Arguments::optional(given)?;
    let request_id = arguments.at(Key::RequestId).optional_whole()?;
    Ok(Call::Cancel { request_id })
}

#[tactic(auto, unfolding(crate::specs::Call::set_breakpoints_of))]
fn set_breakpoints(alloc: Global, given: Option<&Value>) -> Result<Call, CallFault>
    ensures { Gives result (set_breakpoints_of (lent_data given.entry)) }
{
    let arguments = Arguments::required(given)?;
    let source = arguments.required_source(alloc, Key::Source)?;
    let lines = arguments.lines(alloc)?;
    Ok(Call::SetBreakpoints { source, lines })
}

#[tactic(auto, unfolding(crate::specs::Call::set_function_breakpoints_of))]
fn set_function_breakpoints(alloc: Global, given: Option<&Value>) -> Result<Call, CallFault>
    ensures { Gives result (set_function_breakpoints_of (lent_data given.entry)) }
{
    let arguments = Arguments::required(given)?;
    let names = arguments.required_names(alloc, Key::Breakpoints)?;
    Ok(Call::SetFunctionBreakpoints { names })
}

#[tactic(auto, unfolding(crate::specs::Call::set_exception_breakpoints_of))]
fn set_exception_breakpoints(alloc: Global, given: Option<&Value>) -> Result<Call, CallFault>
    ensures { Gives result (set_exception_breakpoints_of (lent_data given.entry)) }
{
    let arguments = Arguments::required(given)?;
    let filters = arguments.required_texts(alloc, Key::Filters)?;
    Ok(Call::SetExceptionBreakpoints { filters })
}

impl Arguments<'_> {
    ghost use Rattle.dap_call.specs.Argument.{required_at, optional_at, value_at};

    fn required_source(&self, alloc: Global, key: Key) -> Result<SourceKey, CallFault>
        ensures key { Gives result (required_at source_key_of key self.now) }
        ensures memory { IsErrOf result OutOfMemory → is_some (option_and_then source_key_of (value_at key self.now)) ≡ true }
    {
        let source = self.value(key).ok_or(key)?;
        Ok(source_key(alloc, source)?.ok_or(key)?)
    }

    fn optional_source_reference(&self, key: Key) -> Result<Option<u32>, Key>
        ensures { result ≡ optional_at source_reference_of key self.now }
    {
        match self.value(key) {
            None => Ok(None),
            Some(source) => Ok(Some(source_reference(source).ok_or(key)?)),
        }
    }

    fn required_names(&self, alloc: Global, key: Key) -> Result<List<Text>, CallFault>
        ensures { Gives result (required_at names_of key self.now) }
    {
        let value = self.value(key).ok_or(key)?;
        Ok(names(alloc, value)?.ok_or(key)?)
    }

    pub(crate) fn required_texts(&self, alloc: Global, key: Key) -> Result<List<Text>, CallFault>
        ensures { Gives result (required_at texts_of key self.now) }
    {
        let value = self.value(key).ok_or(key)?;
        Ok(text_list(alloc, value)?.ok_or(key)?)
    }

    fn optional_lines(&self, alloc: Global, key: Key) -> Result<Option<List<u32>>, CallFault>
        ensures { Gives result (optional_at lines_of key self.now) }
    {
        match self.value(key) {
            None => Ok(None),
            Some(value) => Ok(Some(lines(alloc, value)?.ok_or(key)?)),
        }
    }

    /// Refuses a key whose value is there, but is no array of lines.
    fn test_lines(&self, key: Key) -> Result<(), Key>
        ensures { result ≡ read_map (λ _. tt) (optional_at lines_of key self.now) }
    {
        match self.value(key) {
            Some(value) if !are_lines(value) => Err(key),
            _ => Ok(()),
        }
    }

    fn optional_breakpoint_lines(
        &self,
        alloc: Global,
        key: Key,
    ) -> Result<Option<List<u32>>, CallFault>
        ensures { Gives result (optional_at breakpoint_lines_of key self.now) }
    {
        match self.value(key) {
            None => Ok(None),
            Some(value) => Ok(Some(breakpoint_lines(alloc, value)?.ok_or(key)?)),
        }
    }

    /// The lines of `breakpoints`, else those of `lines`, which are tested in either case.
    #[tactic(auto, unfolding(crate::specs::Call::given_lines))]
    fn lines(&self, alloc: Global) -> Result<List<u32>, CallFault>
        ensures { Gives result (given_lines self.now) }
    {
        match self.optional_breakpoint_lines(alloc, Key::Breakpoints)? {
            Some(lines) => {
                self.test_lines(Key::Lines)?;
                Ok(lines)
            }
            None => Ok(
                self.optional_lines(alloc, Key::Lines)?
                    .unwrap_or(List::new(Vec::new(alloc))),
            ),
        }
    }
}

#[tactic(auto, unfolding(crate::specs::Call::stack_trace_of))]
fn stack_trace(given: Option<&Value>) -> Result<Call, Key>
    ensures { result ≡ stack_trace_of (lent_data given.entry) }
{
    let arguments = Arguments::required(given)?;
    let thread_id = arguments.at(Key::ThreadId).required_int()?;
    let start_frame = arguments.at(Key::StartFrame).number_or(0)?;
    let levels = arguments.at(Key::Levels).number_or(0)?;
    Ok(Call::StackTrace(StackTrace {
        thread_id,
        start_frame,
        levels,
    }))
}

#[tactic(auto, unfolding(crate::specs::Call::evaluate_of))]
fn evaluate(alloc: Global, given: Option<&Value>) -> Result<Call, CallFault>
    ensures { Gives result (evaluate_of (lent_data given.entry)) }
{
    let arguments = Arguments::required(given)?;
    let expression = arguments.required_text(alloc, Key::Expression)?;
    let frame_id = arguments.at(Key::FrameId).optional_number()?;
    Ok(Call::Evaluate(Evaluate {
        expression,
        frame_id,
    }))
}

#[tactic(auto, unfolding(crate::specs::Call::scopes_of))]
fn scopes(given: Option<&Value>) -> Result<Call, Key>
    ensures { result ≡ scopes_of (lent_data given.entry) }
{
    let arguments = Arguments::required(given)?;
    let frame_id = arguments.at(Key::FrameId).required_number()?;
    Ok(Call::Scopes { frame_id })
}

#[tactic(auto, unfolding(crate::specs::Call::variables_of))]
fn variables(given: Option<&Value>) -> Result<Call, Key>
    ensures { result ≡ variables_of (lent_data given.entry) }
{
    let arguments = Arguments::required(given)?;
    let variables_reference = arguments.at(Key::VariablesReference).required_number()?;
    let start = arguments.at(Key::Start).number_or(0)?;
    let count = arguments.at(Key::Count).number_or(0)?;
    Ok(Call::Variables(Variables {
        variables_reference,
        start,
        count,
    }))
}

/// A reference above 0 in the source counts before the one beside it; both are tested.
#[tactic(auto, unfolding(crate::specs::Call::source_of))]
fn source(given: Option<&Value>) -> Result<Call, Key>
    ensures { result ≡ source_of (lent_data given.entry) }
{
    let arguments = Arguments::optional(given)?;
    let inner = arguments
        .optional_source_reference(Key::Source)?
        .unwrap_or(0);
    let outer = arguments.at(Key::SourceReference).number_or(0)?;
    let source_reference = if inner == 0 { outer } else { inner };
    Ok(Call::Source { source_reference })
}

#[tactic(auto, unfolding(crate::specs::Call::set_variable_of))]
fn set_variable(alloc: Global, given: Option<&Value>) -> Result<Call, CallFault>
    ensures { Gives result (set_variable_of (lent_data given.entry)) }
{
    let arguments = Arguments::required(given)?;
    let variables_reference = arguments.at(Key::VariablesReference).required_number()?;
    let name = arguments.required_text(alloc, Key::Name)?;
    let value = arguments.required_text(alloc, Key::Value)?;
    Ok(Call::SetVariable(SetVariable {
        variables_reference,
        name,
        value,
    }))
}

#[tactic(auto, unfolding(crate::specs::Call::modules_of))]
fn modules(given: Option<&Value>) -> Result<Call, Key>
    ensures { result ≡ modules_of (lent_data given.entry) }
{
    let arguments = Arguments::optional(given)?;
    let start_module = arguments.at(Key::StartModule).number_or(0)?;
    let module_count = arguments.at(Key::ModuleCount).number_or(0)?;
    Ok(Call::Modules(Modules {
        start_module,
        module_count,
    }))
}

#[tactic(auto, unfolding(crate::specs::Call::breakpoint_locations_of))]
fn breakpoint_locations(alloc: Global, given: Option<&Value>) -> Result<Call, CallFault>
    ensures { Gives result (breakpoint_locations_of (lent_data given.entry)) }
{
    let arguments = Arguments::required(given)?;
    let source = arguments.required_source(alloc, Key::Source)?;
    let line = arguments.at(Key::Line).required_number()?;
    let end_line = arguments.at(Key::EndLine).optional_number()?;
    Ok(Call::BreakpointLocations(BreakpointLocations {
        source,
        line,
        end_line,
    }))
}

#[tactic(auto, unfolding(crate::specs::Call::completions_of))]
fn completions(alloc: Global, given: Option<&Value>) -> Result<Call, CallFault>
    ensures { Gives result (completions_of (lent_data given.entry)) }
{
    let arguments = Arguments::required(given)?;
    let text = arguments.required_text(alloc, Key::Text)?;
    let column = arguments.at(Key::Column).required_number()?;
    let frame_id = arguments.at(Key::FrameId).optional_number()?;
    let line = arguments.at(Key::Line).optional_number()?;
    Ok(Call::Completions(Completions {
        text,
        column,
        frame_id,
        line,
    }))
}

#[tactic(auto, unfolding(crate::specs::Call::thread_of))]
fn thread(given: Option<&Value>) -> Result<i64, Key>
    ensures { result ≡ thread_of (lent_data given.entry) }
{
    Arguments::required(given)?.at(Key::ThreadId).required_int()
}

/// A copy of a value that is an object.
fn object(value: &Value) -> Result<Option<Tree>, CallFault>
    ensures { Gives result (must_be_there (Some (view value.now))) }
{
    if !value.is_object() {
        return Err(Key::Arguments.into());
    }
    Ok(Some(Tree::new(value.clone()?)))
}

fn tree(given: Option<&Value>) -> Result<Option<Tree>, CallFault>
    ensures { Gives result (tree_of (lent_data given.entry)) }
{
    match given {
        None => Ok(None),
        Some(Value::Null) => Ok(None),
        Some(value) => object(value),
    }
}

/// The call that a command and its arguments are, or the first bad key in the order of the command's row. `null` counts
/// as absent, and keys that the row does not list are ignored. A key is tested also where another one counts in its
/// place. Where a command has no keys its arguments are ignored.
///
/// `OutOfMemory` comes where memory for a text, a list or a tree of the call is refused.
pub fn read_call(
    alloc: Global,
    command: Command,
    arguments: Option<&Value>,
) -> Result<Call, CallFault>
    ensures call { Gives result (call_of command (lent_data arguments.entry)) }
    ensures memory { IsErrOf result OutOfMemory → takes_memory command ≡ true }
{
    match command {
        Command::Initialize => initialize(alloc, arguments),
        Command::Launch => Ok(Call::Launch(tree(arguments)?)),
        Command::Attach => Ok(Call::Attach(tree(arguments)?)),
        Command::ConfigurationDone => Ok(Call::ConfigurationDone),
        Command::Disconnect => Ok(Call::Disconnect),
        Command::Threads => Ok(Call::Threads),
        Command::Terminate => Ok(Call::Terminate),
        Command::Cancel => Ok(cancel(arguments)?),
        Command::SetBreakpoints => set_breakpoints(alloc, arguments),
        Command::SetFunctionBreakpoints => set_function_breakpoints(alloc, arguments),
        Command::SetExceptionBreakpoints => set_exception_breakpoints(alloc, arguments),
        Command::Continue => Ok(Call::Continue {
            thread_id: thread(arguments)?,
        }),
        Command::Next => Ok(Call::Next {
            thread_id: thread(arguments)?,
        }),
        Command::StepIn => Ok(Call::StepIn {
            thread_id: thread(arguments)?,
        }),
        Command::StepOut => Ok(Call::StepOut {
            thread_id: thread(arguments)?,
        }),
        Command::Pause => Ok(Call::Pause {
            thread_id: thread(arguments)?,
        }),
        Command::StepBack => Ok(Call::StepBack {
            thread_id: thread(arguments)?,
        }),
        Command::ReverseContinue => Ok(Call::ReverseContinue {
            thread_id: thread(arguments)?,
        }),
        Command::StackTrace => Ok(stack_trace(arguments)?),
        Command::Scopes => Ok(scopes(arguments)?),
        Command::Variables => Ok(variables(arguments)?),
        Command::Evaluate => evaluate(alloc, arguments),
        Command::Source => Ok(source(arguments)?),
        Command::LoadedSources => Ok(Call::LoadedSources),
        Command::SetVariable => set_variable(alloc, arguments),
        Command::Restart => Ok(Call::Restart),
        Command::Modules => Ok(modules(arguments)?),
        Command::ExceptionInfo => Ok(Call::ExceptionInfo {
            thread_id: thread(arguments)?,
        }),
        Command::BreakpointLocations => breakpoint_locations(alloc, arguments),
        Command::Completions => completions(alloc, arguments),
    }
}
