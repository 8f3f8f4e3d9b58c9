//! What an adapter asks a client's terminal to run, read and written.
//!
//! Specification, "RunInTerminalRequestArguments".
ghost use Rattle.std.specs.Prelude.{◌≡◌, IsTrue, IfOk, OnOk, Some, Ok};
ghost use Rattle.serde_json.specs.Data.{no_members};
ghost use Rattle.serde_json.specs.View.{view, members_view};
ghost use Rattle.dap_json.specs.Writable.{is_plain_tree};
ghost use Rattle.dap_call.specs.Argument.{Gives};
ghost use Rattle.dap_json.specs.Lent.{lent_data};
ghost use Rattle.dap_call.specs.Terminal.{terminal_of, terminal_members, terminal_tree};

use crate::argument::Arguments;
use crate::call::CallFault;
use crate::members::{add, add_optional_text, add_text};
use crate::writing::texts;
use dap_command::Key;
use dap_json::members::Members;
use dap_json::{List, Text};
use serde_json::{Map, Value};
use std::alloc::{AllocError, Global};

/// The name of the request.
pub const RUN_IN_TERMINAL: &str = "runInTerminal";

/// The arguments of `runInTerminal`. `None` was absent.
#[derive(Drop)]
pub struct TerminalCall {
    /// The Specification has `integrated` and `external`; any text is read.
    pub kind: Option<Text>,
    /// What the terminal is called.
    pub title: Option<Text>,
    /// The folder in which to run; the Specification wants it to be there.
    pub cwd: Text,
    /// The command and its arguments.
    pub args: List<Text>,
}

/// The call that the arguments of `runInTerminal` are, or the first bad key in the order `kind`, `title`, `cwd`, `args`,
/// `env`. `null` counts as absent, and other keys are ignored. `env` has to be an object where it is there, and is not
/// kept.
///
/// `OutOfMemory` comes where memory for a text or the list of the call is refused.
#[tactic(auto, unfolding(crate::specs::Terminal::terminal_of))]
pub fn read_terminal(alloc: Global, arguments: Option<&Value>) -> Result<TerminalCall, CallFault>
    ensures { Gives result (terminal_of (lent_data arguments.entry)) }
{
    let arguments = Arguments::required(arguments)?;
    let kind = arguments.optional_text(alloc, Key::Kind)?;
    let title = arguments.optional_text(alloc, Key::Title)?;
    let cwd = arguments.required_text(alloc, Key::Cwd)?;
    let args = arguments.required_texts(alloc, Key::Args)?;
    arguments.at(Key::Env).test_object()?;
    Ok(TerminalCall {
        kind,
        title,
        cwd,
        args,
    })
}

#[tactic(auto, unfolding(crate::specs::Terminal::terminal_members))]
fn add_terminal(alloc: Global, members: &mut Members, call: &TerminalCall) -> Result<(), AllocError>
    requires { members_view members.old.entries ≡ no_members }
    ensures { OnOk result (members_view members.new.entries ≡ terminal_members call.now) }
{
    add_text(alloc, members, Key::Cwd, &call.cwd)?;
    let args = Value::Array(texts(alloc, call.args.as_slice())?);
    add(alloc, members, Key::Args, args)?;
    add_optional_text(alloc, members, Key::Kind, &call.kind)?;
    add_optional_text(alloc, members, Key::Title, &call.title)
}

fn terminal(alloc: Global, call: &TerminalCall) -> Result<Value, AllocError>
    ensures { IfOk result (λ v. view v ≡ terminal_tree call.now) }
{
    let mut members = Map::new(alloc);
    add_terminal(alloc, &mut members, call)?;
    Ok(Value::Object(members))
}

/// The arguments that the call is written as: an object of its keys, in byte order. Absent ones are left out.
pub fn write_terminal(alloc: Global, call: &TerminalCall) -> Result<Value, AllocError>
    ensures tree { IfOk result (λ v. view v ≡ terminal_tree call.now) }
    ensures reads_back { IfOk result (λ v. terminal_of (Some (view v)) ≡ Ok call.now) }
    ensures plain { IfOk result (λ v. IsTrue (is_plain_tree (Some (view v)))) }
{
    let arguments = terminal(alloc, call)?;
    Ok(arguments)
}
