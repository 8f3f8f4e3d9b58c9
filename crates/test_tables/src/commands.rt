//! Commands with their gates and what they name and give, capabilities, and the references that a body gives.

use crate::checks::check;
use dap_call::{CallObject, read_call};
use dap_command::{
    Capabilities, Command, Gate, GivenObjects, NamedObject, frames_given, holders_given,
};
use serde_json::Value;
use std::alloc::{AllocError, Global};

static ROWS: [(&str, Command, Option<Gate>); 30] = [
    ("initialize", Command::Initialize, None),
    ("launch", Command::Launch, None),
    ("attach", Command::Attach, None),
    (
        "configurationDone",
        Command::ConfigurationDone,
        Some(Gate::ConfigurationDone),
    ),
    ("disconnect", Command::Disconnect, None),
    ("threads", Command::Threads, None),
    ("terminate", Command::Terminate, Some(Gate::Terminate)),
    ("cancel", Command::Cancel, Some(Gate::Cancel)),
    ("setBreakpoints", Command::SetBreakpoints, None),
    (
        "setFunctionBreakpoints",
        Command::SetFunctionBreakpoints,
        Some(Gate::FunctionBreakpoints),
    ),
    (
        "setExceptionBreakpoints",
        Command::SetExceptionBreakpoints,
        None,
    ),
    ("continue", Command::Continue, None),
    ("next", Command::Next, None),
    ("stepIn", Command::StepIn, None),
    ("stepOut", Command::StepOut, None),
    ("pause", Command::Pause, None),
    ("stepBack", Command::StepBack, Some(Gate::StepBack)),
    (
        "reverseContinue",
        Command::ReverseContinue,
        Some(Gate::StepBack),
    ),
    ("stackTrace", Command::StackTrace, None),
    ("scopes", Command::Scopes, None),
    ("variables", Command::Variables, None),
    ("evaluate", Command::Evaluate, None),
    ("source", Command::Source, None),
    (
        "loadedSources",
        Command::LoadedSources,
        Some(Gate::LoadedSources),
    ),
    ("setVariable", Command::SetVariable, Some(Gate::SetVariable)),
    ("restart", Command::Restart, Some(Gate::Restart)),
    ("modules", Command::Modules, Some(Gate::Modules)),
    (
        "exceptionInfo",
        Command::ExceptionInfo,
        Some(Gate::ExceptionInfo),
    ),
    (
        "breakpointLocations",
        Command::BreakpointLocations,
        Some(Gate::BreakpointLocations),
    ),
    ("completions", Command::Completions, Some(Gate::Completions)),
];

// Whether a name is that of a command with this gate.
fn is_named(name: &str, command: Command, gate: Option<Gate>) -> bool {
    let found = Command::of_name(name) == Some(command);
    found && command.name() == name && command.gate() == gate
}

/// Each command by its name and back, with its gate.
#[test]
fn commands(rt: HostRuntime) {
    for (name, command, gate) in &ROWS {
        check(&rt, is_named(name, *command, *gate), *name);
    }
    for name in ["", "Threads", "threads ", "readMemory", "goto"] {
        check(&rt, Command::of_name(name).is_none(), name);
    }
}

static OBJECTS: [(Command, NamedObject, GivenObjects); 8] = [
    (Command::Next, NamedObject::Thread, GivenObjects::Nothing),
    (
        Command::StackTrace,
        NamedObject::Thread,
        GivenObjects::Frames,
    ),
    (Command::Source, NamedObject::Source, GivenObjects::Nothing),
    (Command::Scopes, NamedObject::Frame, GivenObjects::Scopes),
    (
        Command::Variables,
        NamedObject::Holder,
        GivenObjects::Variables,
    ),
    (Command::Evaluate, NamedObject::Frame, GivenObjects::Value),
    (
        Command::SetVariable,
        NamedObject::Holder,
        GivenObjects::Value,
    ),
    (Command::Pause, NamedObject::Nothing, GivenObjects::Nothing),
];

/// What commands name, and what the bodies of their successes give.
#[test]
fn objects(rt: HostRuntime) {
    for (command, named, given) in &OBJECTS {
        let is_so = command.named_object() == *named && command.given_objects() == *given;
        check(&rt, is_so, command.name());
    }
}

static CALLS: [(Command, &str, CallObject); 6] = [
    (
        Command::StepIn,
        r#"{"threadId":-2}"#,
        CallObject::Thread(-2),
    ),
    (
        Command::Source,
        r#"{"source":{"sourceReference":4},"sourceReference":7}"#,
        CallObject::Source(4),
    ),
    (
        Command::Evaluate,
        r#"{"expression":"x"}"#,
        CallObject::Frame(None),
    ),
    (
        Command::Completions,
        r#"{"text":"x","column":1,"frameId":0}"#,
        CallObject::Frame(Some(0)),
    ),
    (
        Command::SetVariable,
        r#"{"variablesReference":3,"name":"x","value":"1"}"#,
        CallObject::Holder(3),
    ),
    (Command::Pause, r#"{"threadId":1}"#, CallObject::Nothing),
];

// Whether a call with these arguments names this.
fn names(alloc: Global, command: Command, arguments: &Value, object: CallObject) -> bool {
    match read_call(alloc, command, Some(arguments)) {
        Ok(call) => {
            let found = call.object() == object;
            drop(call);
            found
        }
        Err(_) => false,
    }
}

fn text_names(alloc: Global, command: Command, arguments: &str, object: CallObject) -> bool {
    match Value::from_str(alloc, arguments) {
        Ok(arguments) => {
            let found = names(alloc, command, &arguments, object);
            drop(arguments);
            found
        }
        Err(_) => false,
    }
}

/// What calls name.
#[test]
fn calls(rt: HostRuntime) {
    for (command, arguments, object) in &CALLS {
        let is_so = text_names(rt.alloc(), *command, arguments, *object);
        check(&rt, is_so, command.name());
    }
}

// What an adapter with this body offers.
fn offered(alloc: Global, body: &str) -> Option<Capabilities> {
    match Value::from_str(alloc, body) {
        Ok(body) => {
            let offered = Capabilities::read(Some(&body));
            drop(body);
            Some(offered)
        }
        Err(_) => None,
    }
}

// What is offered after an event.
fn updated(alloc: Global, before: Capabilities, object: &str) -> Option<Capabilities> {
    match Value::from_str(alloc, object) {
        Ok(object) => {
            let mut offered = before;
            offered.update(&object);
            drop(object);
            Some(offered)
        }
        Err(_) => None,
    }
}

fn written(alloc: Global, offered: Capabilities) -> Result<String, AllocError> {
    offered.write(alloc)?.to_string(alloc)
}

// Whether capabilities are written so.
fn is_written(alloc: Global, offered: Capabilities, wanted: &str) -> bool {
    match written(alloc, offered) {
        Ok(text) => text.as_str() == wanted,
        Err(_) => false,
    }
}

/// Events, and whether steps back are offered after each. After all of them `cancel` is offered.
static EVENTS: [(&str, bool); 6] = [
    (
        r#"{"supportsStepBack":true,"supportsCancelRequest":true}"#,
        true,
    ),
    (r#"{"supportsStepBack":null}"#, false),
    (r#"{"supportsStepBack":true}"#, true),
    ("[]", true),
    (r#"{"supportsStepBack":1}"#, false),
    (r#"{"supportsStepBack":"true"}"#, false),
];

// The first event after which something else is offered, or nothing.
fn first_difference(alloc: Global, before: Capabilities) -> &'static str {
    let mut now = before;
    for (event, step_back) in &EVENTS {
        now = match updated(alloc, now, event) {
            Some(now) => now,
            None => return event,
        };
        if now.has(Gate::StepBack) != *step_back || !now.allows(Command::Cancel) {
            return event;
        }
    }
    ""
}

const STEPS_BACK: &str = r#"{"supportsStepBack":true,"exceptionBreakpointFilters":[{}]}"#;

// What is told otherwise of an adapter that steps back and has exception filters, or nothing.
fn told_otherwise(alloc: Global, before: Capabilities) -> &'static str {
    for command in [
        Command::StepBack,
        Command::ReverseContinue,
        Command::SetExceptionBreakpoints,
        Command::Threads,
    ] {
        if !before.allows(command) {
            return command.name();
        }
    }
    if before.allows(Command::Terminate) || !before.has(Gate::StepBack) {
        return "gates";
    }
    if !is_written(alloc, before, r#"{"supportsStepBack":true}"#) {
        return "what is written";
    }
    ""
}

// Whether nothing that has a gate is offered, and no steps back.
fn is_none(offered: Capabilities) -> bool {
    !offered.allows(Command::StepBack) && offered == Capabilities::read(None)
}

/// An adapter that steps back and has exception filters; then an event that takes stepping back away, and others.
#[test]
fn capabilities(rt: HostRuntime) {
    let none = Capabilities::read(None);
    let before = offered(rt.alloc(), STEPS_BACK).unwrap_or(none);
    let otherwise = told_otherwise(rt.alloc(), before);
    check(&rt, otherwise.is_empty(), otherwise);
    match updated(rt.alloc(), before, r#"{"supportsStepBack":false}"#) {
        Some(after) => {
            check(&rt, is_none(after), "taken away");
            let event = first_difference(rt.alloc(), after);
            check(&rt, event.is_empty(), event);
        }
        None => check(&rt, false, "event"),
    }
    check(&rt, offered(rt.alloc(), "[true]") == Some(none), "array");
}

fn frames_of(alloc: Global, body: &Value) -> Result<Vec<u32>, AllocError> {
    frames_given(body).collect(alloc)
}

// Whether a body gives these frames.
fn gives_frames(alloc: Global, body: &str, wanted: &[u32]) -> bool {
    match Value::from_str(alloc, body) {
        Ok(body) => {
            let frames = frames_of(alloc, &body);
            drop(body);
            is_list(frames, wanted)
        }
        Err(_) => false,
    }
}

fn holders_of(alloc: Global, command: Command, body: &Value) -> Result<Vec<u32>, AllocError> {
    holders_given(command, body).collect(alloc)
}

// Whether the body of a command's response gives these holders.
fn gives_holders(alloc: Global, command: Command, body: &str, wanted: &[u32]) -> bool {
    match Value::from_str(alloc, body) {
        Ok(body) => {
            let holders = holders_of(alloc, command, &body);
            drop(body);
            is_list(holders, wanted)
        }
        Err(_) => false,
    }
}

fn is_list(found: Result<Vec<u32>, AllocError>, wanted: &[u32]) -> bool {
    match found {
        Ok(found) => found.as_slice() == wanted,
        Err(_) => false,
    }
}

const SCOPES: &str =
    r#"{"scopes":[{"name":"Locals","variablesReference":2},{"name":"None","variablesReference":0},{"variablesReference":5}]}"#;

const VARIABLES: &str =
    r#"{"variables":[{"name":"x","variablesReference":0},{"name":"p","variablesReference":3}]}"#;

const RESULT: &str = r#"{"result":"P","variablesReference":3}"#;

static HOLDERS: [(Command, &str, &[u32]); 6] = [
    (Command::Scopes, SCOPES, &[2, 5]),
    (Command::Variables, VARIABLES, &[3]),
    (Command::Evaluate, RESULT, &[3]),
    (Command::SetVariable, RESULT, &[3]),
    (Command::Threads, RESULT, &[]),
    (Command::Variables, SCOPES, &[]),
];

/// The references in bodies as adapters write them, in order.
#[test]
fn references(rt: HostRuntime) {
    let frames =
        r#"{"stackFrames":[{"id":7,"name":"f"},{"name":"g"},{"id":0},{"id":-1},{"id":2147483648},{"id":2147483647}],"totalFrames":9}"#;
    check(
        &rt,
        gives_frames(rt.alloc(), frames, &[7, 0, 2147483647]),
        frames,
    );
    for (command, body, wanted) in &HOLDERS {
        let is_so = gives_holders(rt.alloc(), *command, body, wanted);
        check(&rt, is_so, *body);
    }
}
