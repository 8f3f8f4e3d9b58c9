//! The arguments of a call, with members beside them.
//!
//! Specification, the types whose names end in "Arguments". Which members may stand there is this profile's choice.
ghost use Rattle.std.specs.Prelude.{◌≡◌, IfOk, OnOk, IsTrue, Ok, Some, option_map};
ghost use Rattle.serde_json.specs.View.{view, members_view};
ghost use Rattle.dap_json.specs.Writable.{is_plain_tree};
ghost use Rattle.dap_call.specs.Call.{call_of};
ghost use Rattle.dap_call.specs.CallTree.{command_of};
ghost use Rattle.dap_call.specs.PlainCall.{is_plain_call};
ghost use Rattle.dap_request.specs.Beside.{arguments_with, call_with, is_among, keys_of, may_stand, may_stand_beside, members_in, put_each, whole_in};

use crate::laws::{arguments_are_plain, what_is_read_is_the_call};
use dap_call::{Call, write_call};
use dap_command::{Command, Key};
use dap_json::members::Members;
use dap_json::{Member, More, Tree};
use serde_json::{Map, Value, put};
use std::alloc::{AllocError, Global};

/// The keys that the row of a command reads.
fn keys_of(command: Command) -> &'static [Key]
    ensures { result.now ≡ keys_of command }
{
    match command {
        Command::Initialize => &[
            Key::AdapterId,
            Key::LinesStartAt1,
            Key::ColumnsStartAt1,
            Key::SupportsVariablePaging,
            Key::SupportsRunInTerminalRequest,
        ],
        Command::Cancel => &[Key::RequestId],
        Command::SetBreakpoints => &[Key::Source, Key::Breakpoints, Key::Lines],
        Command::SetFunctionBreakpoints => &[Key::Breakpoints],
        Command::SetExceptionBreakpoints => &[Key::Filters],
        Command::Continue
        | Command::Next
        | Command::StepIn
        | Command::StepOut
        | Command::Pause
        | Command::StepBack
        | Command::ReverseContinue
        | Command::ExceptionInfo => &[Key::ThreadId],
        Command::StackTrace => &[Key::ThreadId, Key::StartFrame, Key::Levels],
        Command::Scopes => &[Key::FrameId],
        Command::Variables => &[Key::VariablesReference, Key::Start, Key::Count],
        Command::Evaluate => &[Key::Expression, Key::FrameId],
        Command::Source => &[Key::Source, Key::SourceReference],
        Command::SetVariable => &[Key::VariablesReference, Key::Name, Key::Value],
        Command::Modules => &[Key::StartModule, Key::ModuleCount],
        Command::BreakpointLocations => &[Key::Source, Key::Line, Key::EndLine],
        Command::Completions => &[Key::Text, Key::Column, Key::FrameId, Key::Line],
        _ => &[],
    }
}

fn is_among(name: &str, keys: &[Key]) -> bool
    ensures { result ≡ is_among name.now keys.now }
{
    keys.iter().any(|key| name == key.name())
}

/// The arguments that a call keeps whole, if it does.
fn whole_in(call: &Call) -> Option<&Value>
    ensures { option_map (λ v. view v.now) result ≡ whole_in call.now }
{
    match call {
        Call::Launch(Some(tree)) => Some(tree.value()),
        Call::Attach(Some(tree)) => Some(tree.value()),
        _ => None,
    }
}

fn may_stand(call: &Call, name: &str) -> bool
    ensures { result ≡ may_stand call.now name.now }
{
    if is_among(name, keys_of(call.command())) {
        return false;
    }
    match whole_in(call) {
        None => true,
        Some(value) => value.get(name).is_none(),
    }
}

/// Whether members may stand beside the arguments of a call: none of them has a key that its command's row reads, also not one
/// that is left out, nor one that the arguments of a `launch` or `attach` have.
pub fn may_stand_beside(call: &Call, more: &More) -> bool
    ensures { result ≡ may_stand_beside call.now more.now }
{
    more.as_slice()
        .iter()
        .all(|member| may_stand(call, member.key.as_str()))
}

/// The members of an object; none of another value.
fn members_of(alloc: Global, value: Value) -> Members
    ensures { members_view result.entries ≡ members_in (Some (view value)) }
{
    match value {
        Value::Object(members) => members,
        _ => Map::new(alloc),
    }
}

/// The members of arguments; none where there are none.
fn members_in(alloc: Global, arguments: Option<Value>) -> Members
    ensures { members_view result.entries ≡ members_in (option_map view arguments) }
{
    match arguments {
        None => Map::new(alloc),
        Some(value) => members_of(alloc, value),
    }
}

fn put_each(alloc: Global, members: &mut Members, more: &[Member]) -> Result<(), AllocError>
    ensures { OnOk result (members_view members.new.entries ≡ put_each more.now (members_view members.old.entries)) }
{
    for member in more {
        put(
            members,
            alloc,
            member.key.as_str(),
            member.value.value().clone()?,
        )?;
    }
    Ok(())
}

/// The arguments of a call as they are written, with these members beside them; those of the call alone where there are none,
/// which may be none. What it asks is told by [`Call::plain`] and [`may_stand_beside`].
///
/// It is an error where memory for the object is refused.
pub fn arguments_with(alloc: Global, call: &Call, more: &More) -> Result<Option<Tree>, AllocError>
    requires plain { IsTrue (is_plain_call call.now) }
    requires beside { IsTrue (may_stand_beside call.now more.now) }
    ensures arguments { IfOk result (λ given. given ≡ arguments_with call.now more.now) }
    ensures reads_back { IfOk result (λ given. call_of (command_of call.now) given ≡ Ok (call_with call.now more.now)) }
    ensures plain { IfOk result (λ given. IsTrue (is_plain_tree given)) }
{
    // Laws for the proof: what is written can be written, and is read as the call.
    arguments_are_plain();
    what_is_read_is_the_call();
    more.more_is_fit();
    let arguments = write_call(alloc, call)?;
    let beside = more.as_slice();
    if beside.is_empty() {
        return Ok(arguments.map(Tree::new));
    }
    let mut members = members_in(alloc, arguments);
    put_each(alloc, &mut members, beside)?;
    Ok(Some(Tree::new(Value::Object(members))))
}
