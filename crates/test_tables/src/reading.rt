//! For every command good and bad arguments, with what they are read as.

use crate::checks::check;
use crate::telling::told_read;
use dap_command::Command;
use serde_json::Value;
use std::alloc::{AllocError, Global};

/// Reads arguments, or none where the text is empty, and tells the call or the bad key.
fn read(alloc: Global, command: Command, text: &str) -> Result<String, AllocError> {
    if text.is_empty() {
        return told_read(alloc, command, None);
    }
    match Value::from_str(alloc, text) {
        Ok(arguments) => {
            let told = told_read(alloc, command, Some(&arguments));
            drop(arguments);
            told
        }
        Err(_) => String::from_str(alloc, "no JSON"),
    }
}

/// Whether arguments are told as a word and what follows it.
fn is_told(alloc: Global, command: Command, text: &str, word: &str, rest: &str) -> bool {
    match read(alloc, command, text) {
        Ok(told) => told.as_str().strip_prefix(word) == Some(rest),
        Err(_) => false,
    }
}

static STARTING: [(Command, &str, &str); 21] = [
    (Command::Initialize, "", " true true false false"),
    (
        Command::Initialize,
        r#"{"adapterID":"rec","linesStartAt1":false,"supportsVariablePaging":true,"locale":"en"}"#,
        "rec false true true false",
    ),
    (
        Command::Initialize,
        r#"{"columnsStartAt1":1,"linesStartAt1":""}"#,
        "bad linesStartAt1",
    ),
    (
        Command::Initialize,
        r#"{"adapterID":null}"#,
        " true true false false",
    ),
    (Command::Initialize, "[]", "bad arguments"),
    (Command::Launch, "", "none"),
    (Command::Launch, "null", "none"),
    (Command::Launch, r#"{"program":"a"}"#, r#"{"program":"a"}"#),
    (Command::Launch, "1", "bad arguments"),
    (Command::Attach, r#"{"pid":1.5}"#, r#"{"pid":1.5}"#),
    (Command::Attach, r#""x""#, "bad arguments"),
    (Command::ConfigurationDone, "[1]", "configured"),
    (Command::Disconnect, r#"{"restart":1}"#, "disconnect"),
    (Command::Terminate, "", "terminate"),
    (Command::Threads, "7", "threads"),
    (Command::Restart, "{}", "restart"),
    (Command::LoadedSources, "null", "sources"),
    (Command::Cancel, "", "none"),
    (Command::Cancel, r#"{"requestId":2}"#, "2"),
    (Command::Cancel, r#"{"requestId":"x"}"#, "bad requestId"),
    (
        Command::Cancel,
        r#"{"requestId":9007199254740992}"#,
        "bad requestId",
    ),
];

#[test]
fn starting_and_ending(rt: HostRuntime) {
    for (command, arguments, wanted) in &STARTING {
        let is_so = is_told(rt.alloc(), *command, arguments, "", wanted);
        check(&rt, is_so, *arguments);
    }
}

static BREAKPOINTS: [(Command, &str, &str); 19] = [
    (
        Command::SetBreakpoints,
        r#"{"source":{"path":"/a.c"},"lines":[2]}"#,
        "path /a.c 2",
    ),
    (Command::SetBreakpoints, r#"{"source":{}}"#, "bad source"),
    (
        Command::SetBreakpoints,
        r#"{"source":{"path":"","sourceReference":3}}"#,
        "path ",
    ),
    (
        Command::SetBreakpoints,
        r#"{"source":{"path":null,"sourceReference":3},"breakpoints":[{"line":1},{"line":9,"column":"x"}],"lines":[5]}"#,
        "reference 3 1 9",
    ),
    (
        Command::SetBreakpoints,
        r#"{"source":{"sourceReference":3},"breakpoints":[],"lines":[5]}"#,
        "reference 3",
    ),
    (
        Command::SetBreakpoints,
        r#"{"source":{"sourceReference":3},"breakpoints":null,"lines":[5]}"#,
        "reference 3 5",
    ),
    // what does not count is tested all the same
    (
        Command::SetBreakpoints,
        r#"{"source":{"path":"a"},"breakpoints":[],"lines":[-1]}"#,
        "bad lines",
    ),
    (
        Command::SetBreakpoints,
        r#"{"source":{"path":"a"},"breakpoints":[{}],"lines":[-1]}"#,
        "bad breakpoints",
    ),
    (
        Command::SetBreakpoints,
        r#"{"source":{"path":"a"},"lines":[2147483648]}"#,
        "bad lines",
    ),
    (Command::SetBreakpoints, "", "bad arguments"),
    (
        Command::SetFunctionBreakpoints,
        r#"{"breakpoints":[{"name":"f"},{"name":"g","condition":1}]}"#,
        "texts f g",
    ),
    (
        Command::SetFunctionBreakpoints,
        r#"{"breakpoints":[{"name":1}]}"#,
        "bad breakpoints",
    ),
    (Command::SetFunctionBreakpoints, "{}", "bad breakpoints"),
    (
        Command::SetExceptionBreakpoints,
        r#"{"filters":["raised","uncaught"]}"#,
        "texts raised uncaught",
    ),
    (
        Command::SetExceptionBreakpoints,
        r#"{"filters":[null]}"#,
        "bad filters",
    ),
    (
        Command::BreakpointLocations,
        r#"{"source":{"path":"a"},"line":3}"#,
        "path a 3 0",
    ),
    (
        Command::BreakpointLocations,
        r#"{"source":{"path":"a"},"line":3,"endLine":5}"#,
        "path a 3 5",
    ),
    (
        Command::BreakpointLocations,
        r#"{"source":{"sourceReference":0},"line":-3}"#,
        "bad source",
    ),
    (
        Command::BreakpointLocations,
        r#"{"source":{"path":"a"},"endLine":""}"#,
        "bad line",
    ),
];

#[test]
fn breakpoints(rt: HostRuntime) {
    for (command, arguments, wanted) in &BREAKPOINTS {
        let is_so = is_told(rt.alloc(), *command, arguments, "", wanted);
        check(&rt, is_so, *arguments);
    }
}

/// Arguments with the number of a thread.
static THREADS: [(&str, &str); 3] = [
    (r#"{"threadId":1}"#, " 1"),
    (r#"{"threadId":-9007199254740991}"#, " -9007199254740991"),
    (r#"{"threadId":9007199254740991}"#, " 9007199254740991"),
];

/// Arguments without one, and what they are told as.
static NO_THREADS: [(&str, &str); 7] = [
    ("", "bad arguments"),
    ("null", "bad arguments"),
    ("{}", "bad threadId"),
    (r#"{"threadId":null}"#, "bad threadId"),
    (r#"{"threadId":1.0}"#, "bad threadId"),
    (r#"{"threadId":9007199254740992}"#, "bad threadId"),
    (r#"{"threadId":-9007199254740992}"#, "bad threadId"),
];

/// Commands that move a thread, and what each is told as.
static MOVES: [(Command, &str); 8] = [
    (Command::Continue, "continue"),
    (Command::Next, "next"),
    (Command::StepIn, "in"),
    (Command::StepOut, "out"),
    (Command::Pause, "pause"),
    (Command::StepBack, "back"),
    (Command::ReverseContinue, "reverse"),
    (Command::ExceptionInfo, "exception"),
];

/// The first arguments of a command of this word that are told otherwise.
fn first_other(alloc: Global, command: Command, word: &str) -> Option<&'static str> {
    for (arguments, thread) in &THREADS {
        if !is_told(alloc, command, arguments, word, thread) {
            return Some(arguments);
        }
    }
    for (arguments, wanted) in &NO_THREADS {
        if !is_told(alloc, command, arguments, "", wanted) {
            return Some(arguments);
        }
    }
    None
}

#[test]
fn threads_that_move(rt: HostRuntime) {
    for (command, word) in &MOVES {
        let other = first_other(rt.alloc(), *command, word);
        check(&rt, other.is_none(), format_args!("{word}: {other:?}"));
    }
}

static LOOKING: [(Command, &str, &str); 24] = [
    (Command::StackTrace, r#"{"levels":1}"#, "bad threadId"),
    (
        Command::StackTrace,
        r#"{"threadId":1,"startFrame":null}"#,
        "1 0 0",
    ),
    (
        Command::StackTrace,
        r#"{"threadId":1,"startFrame":2,"levels":2147483647}"#,
        "1 2 2147483647",
    ),
    (
        Command::StackTrace,
        r#"{"threadId":1,"startFrame":-1,"levels":true}"#,
        "bad startFrame",
    ),
    (Command::Scopes, r#"{"frameId":0}"#, "frame 0"),
    (Command::Scopes, r#"{"frameId":2147483648}"#, "bad frameId"),
    (
        Command::Variables,
        r#"{"variablesReference":2,"filter":7,"count":3}"#,
        "2 0 3",
    ),
    (
        Command::Variables,
        r#"{"variablesReference":2,"start":"","count":-3}"#,
        "bad start",
    ),
    (
        Command::Evaluate,
        r#"{"expression":"p","frameId":1,"context":"hover"}"#,
        "p 1",
    ),
    (Command::Evaluate, r#"{"expression":"q"}"#, "q none"),
    (Command::Evaluate, r#"{"frameId":-1}"#, "bad expression"),
    (Command::Source, "", "source 0"),
    (
        Command::Source,
        r#"{"source":{"path":"a","sourceReference":2},"sourceReference":3}"#,
        "source 2",
    ),
    (
        Command::Source,
        r#"{"source":{"sourceReference":0},"sourceReference":3}"#,
        "source 3",
    ),
    (
        Command::Source,
        r#"{"source":{"sourceReference":2},"sourceReference":-3}"#,
        "bad sourceReference",
    ),
    (
        Command::Source,
        r#"{"source":{"path":1},"sourceReference":-3}"#,
        "bad source",
    ),
    (
        Command::SetVariable,
        r#"{"variablesReference":2,"name":"x","value":"7"}"#,
        "2 x 7",
    ),
    (
        Command::SetVariable,
        r#"{"variablesReference":2,"value":7}"#,
        "bad name",
    ),
    (Command::Modules, "", "0 0"),
    (Command::Modules, r#"{"moduleCount":5}"#, "0 5"),
    (Command::Modules, r#"{"startModule":[]}"#, "bad startModule"),
    (
        Command::Completions,
        r#"{"text":"pr","column":3,"line":4}"#,
        "pr 3 0 4",
    ),
    (
        Command::Completions,
        r#"{"text":"pr","column":3,"frameId":"1"}"#,
        "bad frameId",
    ),
    (Command::Completions, r#"{"text":"pr"}"#, "bad column"),
];

#[test]
fn looking(rt: HostRuntime) {
    for (command, arguments, wanted) in &LOOKING {
        let is_so = is_told(rt.alloc(), *command, arguments, "", wanted);
        check(&rt, is_so, *arguments);
    }
}
