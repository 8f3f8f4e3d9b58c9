//! The bodies of responses as their parts, and their texts, written with no tree: Specification, the types
//! whose names end in "Response", and "Types".
ghost use Rattle.std.specs.Prelude.{◌≡◌, ◌++◌, IfOk, OnOk, OnErr};
ghost use Rattle.serde_json.specs.Written.{compact_text};
ghost use Rattle.serde_json.specs.View.{view};
ghost use Rattle.dap_json.specs.Sound.{IsSound};
ghost use Rattle.dap_body.specs.Body.{data_of};
ghost use Rattle.dap_body.specs.PrivateText.{wrote_row, IsSoundRow};
ghost use Rattle.dap_body.specs.ResponseBody.{evaluate_row, set_variable_row};

use crate::beside::{fit_members, put_before, put_left, put_none};
use crate::offers::write_offers;
use crate::response::{Breakpoint, Scope, Source, StackFrame, Thread, Variable};
use crate::row::{
    Fields, append_object, put_flag, put_list, put_number, put_short, put_short_if_any, put_text,
};
use dap_command::Capabilities;
use dap_json::laws::text_is_read_again;
use dap_json::{More, ParseFault, Text, parse};
use json::Writer;
use serde_json::Value;
use std::alloc::{AllocError, Global};

/// The body of a response that succeeded. Its text has the keys in byte order.
#[derive(Debug, Drop)]
pub enum Body {
    /// What the adapter offers.
    Initialize {
        capabilities: Capabilities,
        more: More,
    },
    /// An answer to each line that was asked for, in order.
    SetBreakpoints {
        breakpoints: Vec<Breakpoint>,
    },
    Threads {
        threads: Vec<Thread>,
    },
    /// All threads go on.
    Continue,
    /// The frames asked for, and how many the thread has in all.
    StackTrace {
        stack_frames: Vec<StackFrame>,
        total_frames: u64,
    },
    Scopes {
        scopes: Vec<Scope>,
    },
    Variables {
        variables: Vec<Variable>,
    },
    /// The value that was set, as text.
    SetVariable {
        value: Text,
        more: More,
    },
    /// The result as text, and the number by which a client asks for its parts, 0 where it has none.
    Evaluate {
        result: Text,
        variables_reference: u32,
        more: More,
    },
    /// The text of a source.
    Source {
        content: Text,
    },
    LoadedSources {
        sources: Vec<Source>,
    },
    /// What a client has started in a terminal, each 0 to 2147483647, where it is known.
    RunInTerminal {
        process_id: Option<u32>,
        shell_process_id: Option<u32>,
    },
}

fn write_value_set(out: &mut Writer, value: &Text, more: &More) -> Result<(), AllocError>
    ensures adds { OnOk result (out.new.tokens ≡ wrote_row (set_variable_row value.now more.now) out.old.tokens) }
    ensures before { out.new.before ≡ out.old.before }
    ensures sound { OnOk result (IsSoundRow (set_variable_row value.now more.now)) }
{
    let left = put_none(out, "scopes", fit_members(more))?;
    let left = put_none(out, "stackFrames", left)?;
    let left = put_before(out, "value", left)?;
    put_text(out, "value", value)?;
    let left = put_none(out, "variables", left)?;
    let left = put_none(out, "variablesReference", left)?;
    put_left(out, left)
}

fn write_evaluation(
    out: &mut Writer,
    text: &Text,
    variables_reference: u32,
    more: &More,
) -> Result<(), AllocError>
    ensures adds { OnOk result (out.new.tokens ≡ wrote_row (evaluate_row text.now variables_reference more.now) out.old.tokens) }
    ensures before { out.new.before ≡ out.old.before }
    ensures sound { OnOk result (IsSoundRow (evaluate_row text.now variables_reference more.now)) }
{
    let left = put_before(out, "result", fit_members(more))?;
    put_text(out, "result", text)?;
    let left = put_none(out, "scopes", left)?;
    let left = put_none(out, "stackFrames", left)?;
    let left = put_none(out, "variables", left)?;
    let left = put_before(out, "variablesReference", left)?;
    put_short(out, "variablesReference", variables_reference)?;
    put_left(out, left)
}

impl Fields for Body {
    ghost use Rattle.dap_body.specs.Body.{row_of};

    ghost written = { row_of };

    fn write(&self, out: &mut Writer) -> Result<(), AllocError> {
        match self {
            Body::Initialize { capabilities, more } => write_offers(out, capabilities, more),
            Body::SetBreakpoints { breakpoints } => {
                put_list(out, "breakpoints", breakpoints.as_slice())
            }
            Body::Threads { threads } => put_list(out, "threads", threads.as_slice()),
            Body::Continue => put_flag(out, "allThreadsContinued", true),
            Body::StackTrace {
                stack_frames,
                total_frames,
            } => {
                put_list(out, "stackFrames", stack_frames.as_slice())?;
                put_number(out, "totalFrames", *total_frames)
            }
            Body::Scopes { scopes } => put_list(out, "scopes", scopes.as_slice()),
            Body::Variables { variables } => put_list(out, "variables", variables.as_slice()),
            Body::SetVariable { value, more } => write_value_set(out, value, more),
            Body::Evaluate {
                result,
                variables_reference,
                more,
            } => write_evaluation(out, result, *variables_reference, more),
            Body::Source { content } => put_text(out, "content", content),
            Body::LoadedSources { sources } => put_list(out, "sources", sources.as_slice()),
            Body::RunInTerminal {
                process_id,
                shell_process_id,
            } => {
                put_short_if_any(out, "processId", *process_id)?;
                put_short_if_any(out, "shellProcessId", *shell_process_id)
            }
        }
    }
}

/// Appends the text of a body, or changes nothing.
pub fn append_body(alloc: Global, out: &mut Vec<u8>, body: &Body) -> Result<(), AllocError>
    ensures ok { OnOk result (out.new.items ≡ out.old.items ++ compact_text (data_of body.now)) }
    ensures sound { OnOk result (IsSound (data_of body.now)) }
    ensures err { OnErr result (out.new.items ≡ out.old.items) }
{
    append_object(alloc, out, body)
}

impl Body {
    /// The body as a tree. Its text is written, and read again.
    pub fn value(&self, alloc: Global) -> Result<Value, AllocError>
        ensures { IfOk result (λ v. view v ≡ data_of self.now) }
    {
        // A law for the proof: what is written is read again.
        text_is_read_again();
        let mut text = Vec::new(alloc);
        append_body(alloc, &mut text, self)?;
        match parse(alloc, &text) {
            Ok(value) => Ok(value),
            Err(ParseFault::OutOfMemory) => Err(AllocError),
            Err(ParseFault::NotJson) => unreachable!(),
        }
    }
}
