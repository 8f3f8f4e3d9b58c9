//! Which calls can be written, and the command of each.
//!
//! The ranges of numbers and the nesting of trees are this profile's.
ghost use Rattle.std.specs.Prelude.{◌≡◌, nat_le};
ghost use Rattle.std.specs.List.{list_all};
ghost use Rattle.dap_json.specs.Field.{max_seq};
ghost use Rattle.dap_call.specs.CallTree.{command_of};
ghost use Rattle.dap_call.specs.PlainCall.{is_plain_call, is_plain_source, are_plain_arguments};
ghost use Rattle.dap_command.specs.Numbers.{is_number as is_number_in_range, is_none_or};

use crate::call::Call;
use dap_command::{Command, SourceKey};
use dap_json::field::MAX_SEQ;
use dap_json::numbers::{MAX_NUMBER, is_int};
use dap_json::{Tree, plain};

/// How deep the tree of `launch` or `attach` may nest. A scalar nests 0 deep, an array or an object one more than its
/// deepest element.
pub const MAX_ARGUMENTS: usize = 100;

fn is_number(n: u32) -> bool
    ensures { result ≡ is_number_in_range n }
{
    n <= MAX_NUMBER
}

fn is_optional_number(n: Option<u32>) -> bool
    ensures { result ≡ is_none_or is_number_in_range n }
{
    match n {
        None => true,
        Some(n) => is_number(n),
    }
}

fn is_optional_seq(n: Option<u64>) -> bool
    ensures { result ≡ is_none_or (λ n. nat_le n max_seq) n }
{
    match n {
        None => true,
        Some(n) => n <= MAX_SEQ,
    }
}

fn are_numbers(lines: &[u32]) -> bool
    ensures { result ≡ list_all is_number_in_range lines.now }
{
    lines.iter().all(|n| *n <= MAX_NUMBER)
}

fn are_arguments(tree: &Option<Tree>) -> bool
    ensures { result ≡ are_plain_arguments tree.now }
{
    match tree {
        None => true,
        Some(tree) => tree.value().is_object() && plain::is_plain(tree.value(), MAX_ARGUMENTS),
    }
}

fn is_source(source: &SourceKey) -> bool
    ensures { result ≡ is_plain_source source.now }
{
    match source {
        SourceKey::Path(_) => true,
        SourceKey::Reference(reference) => *reference > 0 && is_number(*reference),
    }
}

impl Call {
    /// Its command.
    pub fn command(&self) -> Command
        ensures { result ≡ command_of self.now }
    {
        match self {
            Call::Initialize(_) => Command::Initialize,
            Call::Launch(_) => Command::Launch,
            Call::Attach(_) => Command::Attach,
            Call::ConfigurationDone => Command::ConfigurationDone,
            Call::Disconnect => Command::Disconnect,
            Call::Threads => Command::Threads,
            Call::Terminate => Command::Terminate,
            Call::Cancel { .. } => Command::Cancel,
            Call::SetBreakpoints { .. } => Command::SetBreakpoints,
            Call::SetFunctionBreakpoints { .. } => Command::SetFunctionBreakpoints,
            Call::SetExceptionBreakpoints { .. } => Command::SetExceptionBreakpoints,
            Call::Continue { .. } => Command::Continue,
            Call::Next { .. } => Command::Next,
            Call::StepIn { .. } => Command::StepIn,
            Call::StepOut { .. } => Command::StepOut,
            Call::Pause { .. } => Command::Pause,
            Call::StepBack { .. } => Command::StepBack,
            Call::ReverseContinue { .. } => Command::ReverseContinue,
            Call::StackTrace(_) => Command::StackTrace,
            Call::Scopes { .. } => Command::Scopes,
            Call::Variables(_) => Command::Variables,
            Call::Evaluate(_) => Command::Evaluate,
            Call::Source { .. } => Command::Source,
            Call::LoadedSources => Command::LoadedSources,
            Call::SetVariable(_) => Command::SetVariable,
            Call::Restart => Command::Restart,
            Call::Modules(_) => Command::Modules,
            Call::ExceptionInfo { .. } => Command::ExceptionInfo,
            Call::BreakpointLocations(_) => Command::BreakpointLocations,
            Call::Completions(_) => Command::Completions,
        }
    }

    /// Whether the call can be written, and is then read again as itself: its numbers are in their ranges, its source has
    /// a path or a reference above 0, and the tree of `launch` or `attach` is an object without floats, nested at most
    /// 100 deep.
    pub fn plain(&self) -> bool
        ensures { result ≡ is_plain_call self.now }
    {
        match self {
            Call::Initialize(_)
            | Call::ConfigurationDone
            | Call::Disconnect
            | Call::Threads
            | Call::Terminate
            | Call::LoadedSources
            | Call::Restart
            | Call::SetFunctionBreakpoints { .. }
            | Call::SetExceptionBreakpoints { .. } => true,
            Call::Launch(tree) | Call::Attach(tree) => are_arguments(tree),
            Call::Cancel { request_id } => is_optional_seq(*request_id),
            Call::SetBreakpoints { source, lines } => {
                is_source(source) && are_numbers(lines.as_slice())
            }
            Call::Continue { thread_id }
            | Call::Next { thread_id }
            | Call::StepIn { thread_id }
            | Call::StepOut { thread_id }
            | Call::Pause { thread_id }
            | Call::StepBack { thread_id }
            | Call::ReverseContinue { thread_id }
            | Call::ExceptionInfo { thread_id } => is_int(*thread_id),
            Call::StackTrace(call) => {
                is_int(call.thread_id) && is_number(call.start_frame) && is_number(call.levels)
            }
            Call::Scopes { frame_id } => is_number(*frame_id),
            Call::Variables(call) => {
                is_number(call.variables_reference)
                    && is_number(call.start)
                    && is_number(call.count)
            }
            Call::Evaluate(call) => is_optional_number(call.frame_id),
            Call::Source { source_reference } => is_number(*source_reference),
            Call::SetVariable(call) => is_number(call.variables_reference),
            Call::Modules(call) => is_number(call.start_module) && is_number(call.module_count),
            Call::BreakpointLocations(call) => {
                is_source(&call.source) && is_number(call.line) && is_optional_number(call.end_line)
            }
            Call::Completions(call) => {
                is_number(call.column)
                    && is_optional_number(call.frame_id)
                    && is_optional_number(call.line)
            }
        }
    }
}
