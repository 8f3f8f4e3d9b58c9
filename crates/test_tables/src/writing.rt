//! For every command what its arguments are written as again, and which calls are not plain.

use crate::checks::check;
use dap_call::{
    BreakpointLocations, Call, CallFault, Completions, Evaluate, Modules, SetVariable, StackTrace,
    Variables, read_call, write_call,
};
use dap_command::{Command, SourceKey};
use dap_json::{List, Text, Tree};
use serde_json::Value;
use std::alloc::{AllocError, Global};

/// What a call of a command is written as.
fn written_call(alloc: Global, command: Command, call: &Call) -> Result<String, AllocError> {
    if !call.plain() || call.command() != command {
        return String::from_str(alloc, "not plain");
    }
    match write_call(alloc, call)? {
        None => Ok(String::new(alloc)),
        Some(value) => value.to_string(alloc),
    }
}

/// What a command's arguments are written as once they were read, or the bad key.
fn written(alloc: Global, command: Command, arguments: &Value) -> Result<String, AllocError> {
    match read_call(alloc, command, Some(arguments)) {
        Ok(call) => {
            let written = written_call(alloc, command, &call);
            drop(call);
            written
        }
        Err(CallFault::BadArguments { key }) => String::from_str(alloc, key.name()),
        Err(CallFault::OutOfMemory) => Err(AllocError),
    }
}

fn is_text(found: Result<String, AllocError>, wanted: &str) -> bool {
    match found {
        Ok(found) => found.as_str() == wanted,
        Err(_) => false,
    }
}

/// Whether a command's arguments, of which none are given as no text, are written so once they were read.
fn is_written(alloc: Global, command: Command, arguments: &str, wanted: &str) -> bool {
    if arguments.is_empty() {
        return is_text(written(alloc, command, &Value::Null), wanted);
    }
    match Value::from_str(alloc, arguments) {
        Ok(arguments) => {
            let written = written(alloc, command, &arguments);
            drop(arguments);
            is_text(written, wanted)
        }
        Err(_) => false,
    }
}

static WRITTEN: [(Command, &str, &str); 42] = [
    (
        Command::Initialize,
        r#"{"adapterID":"rec","clientID":"x","linesStartAt1":true,"supportsVariablePaging":false}"#,
        r#"{"adapterID":"rec"}"#,
    ),
    (Command::Initialize, "", r#"{"adapterID":""}"#),
    (
        Command::Initialize,
        r#"{"supportsRunInTerminalRequest":true,"linesStartAt1":false,"columnsStartAt1":false,"supportsVariablePaging":true}"#,
        r#"{"adapterID":"","columnsStartAt1":false,"linesStartAt1":false,"supportsRunInTerminalRequest":true,"supportsVariablePaging":true}"#,
    ),
    (Command::Launch, "", ""),
    (
        Command::Launch,
        r#"{"program":"/a","args":[1,{"b":null}]}"#,
        r#"{"args":[1,{"b":null}],"program":"/a"}"#,
    ),
    (Command::Attach, "{}", "{}"),
    (Command::ConfigurationDone, r#"{"a":1}"#, ""),
    (Command::Disconnect, r#"{"restart":true}"#, ""),
    (Command::Threads, "", ""),
    (Command::Terminate, "{}", ""),
    (Command::LoadedSources, "", ""),
    (Command::Restart, "", ""),
    (Command::Cancel, "", ""),
    (Command::Cancel, r#"{"requestId":0}"#, r#"{"requestId":0}"#),
    (
        Command::Cancel,
        r#"{"requestId":9007199254740991}"#,
        r#"{"requestId":9007199254740991}"#,
    ),
    (
        Command::SetBreakpoints,
        r#"{"source":{"path":"/a.c"},"lines":[2]}"#,
        r#"{"breakpoints":[{"line":2}],"source":{"path":"/a.c"}}"#,
    ),
    (
        Command::SetBreakpoints,
        r#"{"source":{"name":"a","sourceReference":3}}"#,
        r#"{"breakpoints":[],"source":{"sourceReference":3}}"#,
    ),
    (
        Command::SetBreakpoints,
        r#"{"source":{"path":"","sourceReference":3},"breakpoints":[{"line":1,"condition":"x"},{"line":0}]}"#,
        r#"{"breakpoints":[{"line":1},{"line":0}],"source":{"path":""}}"#,
    ),
    (
        Command::SetFunctionBreakpoints,
        r#"{"breakpoints":[{"name":"f"},{"name":""}]}"#,
        r#"{"breakpoints":[{"name":"f"},{"name":""}]}"#,
    ),
    (
        Command::SetExceptionBreakpoints,
        r#"{"filters":["all","none"]}"#,
        r#"{"filters":["all","none"]}"#,
    ),
    (
        Command::Continue,
        r#"{"threadId":1,"singleThread":true}"#,
        r#"{"threadId":1}"#,
    ),
    (
        Command::Next,
        r#"{"threadId":-9007199254740991}"#,
        r#"{"threadId":-9007199254740991}"#,
    ),
    (Command::StepIn, r#"{"threadId":2}"#, r#"{"threadId":2}"#),
    (Command::StepOut, r#"{"threadId":3}"#, r#"{"threadId":3}"#),
    (Command::Pause, r#"{"threadId":0}"#, r#"{"threadId":0}"#),
    (Command::StepBack, r#"{"threadId":4}"#, r#"{"threadId":4}"#),
    (
        Command::ReverseContinue,
        r#"{"threadId":5}"#,
        r#"{"threadId":5}"#,
    ),
    (
        Command::ExceptionInfo,
        r#"{"threadId":6}"#,
        r#"{"threadId":6}"#,
    ),
    (
        Command::StackTrace,
        r#"{"threadId":1,"startFrame":null}"#,
        r#"{"threadId":1}"#,
    ),
    (
        Command::StackTrace,
        r#"{"threadId":1,"startFrame":2,"levels":3}"#,
        r#"{"levels":3,"startFrame":2,"threadId":1}"#,
    ),
    (Command::Scopes, r#"{"frameId":0}"#, r#"{"frameId":0}"#),
    (
        Command::Variables,
        r#"{"variablesReference":7,"start":0,"count":1}"#,
        r#"{"count":1,"variablesReference":7}"#,
    ),
    (
        Command::Evaluate,
        r#"{"expression":"p","frameId":1,"context":"hover"}"#,
        r#"{"expression":"p","frameId":1}"#,
    ),
    (
        Command::Evaluate,
        r#"{"expression":""}"#,
        r#"{"expression":""}"#,
    ),
    (Command::Source, "", r#"{"sourceReference":0}"#),
    (
        Command::Source,
        r#"{"source":{"sourceReference":2},"sourceReference":3}"#,
        r#"{"sourceReference":2}"#,
    ),
    (
        Command::SetVariable,
        r#"{"variablesReference":2,"name":"x","value":"7"}"#,
        r#"{"name":"x","value":"7","variablesReference":2}"#,
    ),
    (Command::Modules, r#"{"startModule":0}"#, ""),
    (
        Command::Modules,
        r#"{"startModule":1,"moduleCount":5}"#,
        r#"{"moduleCount":5,"startModule":1}"#,
    ),
    (
        Command::BreakpointLocations,
        r#"{"source":{"path":"/a.c"},"line":0,"endLine":0}"#,
        r#"{"endLine":0,"line":0,"source":{"path":"/a.c"}}"#,
    ),
    (
        Command::Completions,
        r#"{"text":"pr","column":0,"frameId":0,"line":0}"#,
        r#"{"column":0,"frameId":0,"line":0,"text":"pr"}"#,
    ),
    (
        Command::Completions,
        r#"{"text":"pr","column":3}"#,
        r#"{"column":3,"text":"pr"}"#,
    ),
];

#[test]
fn written_again(rt: HostRuntime) {
    for (command, arguments, wanted) in &WRITTEN {
        let is_so = is_written(rt.alloc(), *command, arguments, wanted);
        check(&rt, is_so, *arguments);
    }
}

/// An object with arrays, one in another, that nests so deep.
fn nested(alloc: Global, deep: usize) -> Result<String, AllocError> {
    let open = "[".repeat(alloc, deep.saturating_sub(1))?;
    let close = "]".repeat(alloc, deep.saturating_sub(1))?;
    format!(in alloc; r#"{{"a":{open}1{close}}}"#)
}

/// The arguments of a call that starts a run.
#[derive(Clone, Copy)]
enum Kept<'a> {
    Nothing,
    /// A tree of arrays that nests so deep.
    Nested(usize),
    Written(&'a str),
}

/// Whether a launch or an attach with these arguments is plain.
fn is_plain(command: Command, arguments: Option<Tree>) -> bool {
    let call = match command {
        Command::Attach => Call::Attach(arguments),
        _ => Call::Launch(arguments),
    };
    let plain = call.plain();
    drop(call);
    plain
}

/// The same, of arguments that are written so; `None` where they are no JSON.
fn is_plain_text(alloc: Global, command: Command, text: &str) -> Option<bool> {
    match Value::from_str(alloc, text) {
        Ok(value) => Some(is_plain(command, Some(Tree::new(value)))),
        Err(_) => None,
    }
}

/// The same, of arguments that are kept.
fn is_plain_kept(alloc: Global, command: Command, kept: Kept<'_>) -> Option<bool> {
    match kept {
        Kept::Nothing => Some(is_plain(command, None)),
        Kept::Nested(deep) => match nested(alloc, deep) {
            Ok(text) => is_plain_text(alloc, command, text.as_str()),
            Err(_) => None,
        },
        Kept::Written(text) => is_plain_text(alloc, command, text),
    }
}

/// A launch or an attach with these arguments, and whether it is plain.
static TREES: [(Command, Kept<'static>, bool); 8] = [
    (Command::Launch, Kept::Nothing, true),
    (Command::Launch, Kept::Nested(100), true),
    (Command::Launch, Kept::Nested(101), false),
    (Command::Attach, Kept::Nested(100), true),
    (Command::Attach, Kept::Nested(101), false),
    (Command::Launch, Kept::Written(r#"{"a":1.5}"#), false),
    (Command::Launch, Kept::Written("null"), false),
    (Command::Attach, Kept::Written("[]"), false),
];

#[test]
fn trees_that_are_kept(rt: HostRuntime) {
    for (place, (command, kept, plain)) in TREES.iter().enumerate() {
        let found = is_plain_kept(rt.alloc(), *command, *kept);
        check(&rt, found == Some(*plain), place);
    }
}

fn set_breakpoints(alloc: Global, reference: u32, lines: &[u32]) -> Result<Call, AllocError> {
    Ok(Call::SetBreakpoints {
        source: SourceKey::Reference(reference),
        lines: List::new(Vec::from_slice(alloc, lines)?),
    })
}

fn evaluate(alloc: Global) -> Result<Call, AllocError> {
    Ok(Call::Evaluate(Evaluate {
        expression: Text::copied(alloc, "p")?,
        frame_id: Some(2147483648),
    }))
}

fn set_variable(alloc: Global) -> Result<Call, AllocError> {
    let name = Text::copied(alloc, "x")?;
    Ok(Call::SetVariable(SetVariable {
        variables_reference: 4294967295,
        name,
        value: Text::copied(alloc, "1")?,
    }))
}

fn locations(alloc: Global) -> Result<Call, AllocError> {
    Ok(Call::BreakpointLocations(BreakpointLocations {
        source: SourceKey::Path(Text::copied(alloc, "")?),
        line: 1,
        end_line: Some(2147483648),
    }))
}

fn completions(alloc: Global) -> Result<Call, AllocError> {
    Ok(Call::Completions(Completions {
        text: Text::copied(alloc, "")?,
        column: 2147483648,
        frame_id: None,
        line: None,
    }))
}

/// How many calls have a number that is out of its range.
const FAR: usize = 16;

/// The one with this place.
fn far(alloc: Global, place: usize) -> Result<Call, AllocError> {
    match place {
        0 => Ok(Call::Cancel {
            request_id: Some(9007199254740992),
        }),
        1 => set_breakpoints(alloc, 0, &[]),
        2 => set_breakpoints(alloc, 1, &[1, 2147483648]),
        3 => Ok(Call::Next {
            thread_id: 9007199254740992,
        }),
        4 => Ok(Call::Pause {
            thread_id: -9007199254740992,
        }),
        5 => Ok(Call::StackTrace(StackTrace {
            thread_id: 1,
            start_frame: 2147483648,
            levels: 0,
        })),
        6 => Ok(Call::StackTrace(StackTrace {
            thread_id: 1,
            start_frame: 0,
            levels: 2147483648,
        })),
        7 => Ok(Call::Scopes {
            frame_id: 2147483648,
        }),
        8 => Ok(Call::Variables(Variables {
            variables_reference: 2147483648,
            start: 0,
            count: 0,
        })),
        9 => evaluate(alloc),
        10 => Ok(Call::Source {
            source_reference: 2147483648,
        }),
        11 => set_variable(alloc),
        12 => Ok(Call::Modules(Modules {
            start_module: 0,
            module_count: 2147483648,
        })),
        13 => Ok(Call::BreakpointLocations(BreakpointLocations {
            source: SourceKey::Reference(2147483648),
            line: 1,
            end_line: None,
        })),
        14 => locations(alloc),
        _ => completions(alloc),
    }
}

/// Whether it is not plain.
fn is_far(alloc: Global, place: usize) -> bool {
    match far(alloc, place) {
        Ok(call) => {
            let plain = call.plain();
            drop(call);
            !plain
        }
        Err(_) => false,
    }
}

#[test]
fn numbers_out_of_range(rt: HostRuntime) {
    for place in 0..FAR {
        check(&rt, is_far(rt.alloc(), place), place);
    }
}
