//! Each builder with ample memory, and the text of what it builds; every failure, row by row.

use crate::checks::check;
use crate::lists::{FrameRow, SourceRow, breakpoints, frames, scopes, sources, threads, variables};
use dap_body::{
    Failure, body_continue, body_continued, body_evaluate, body_exited, body_failure,
    body_loaded_sources, body_output, body_scopes, body_set_breakpoints, body_set_variable,
    body_source, body_stack_trace, body_stopped, body_terminal, body_threads, body_variables,
};
use dap_command::Key;
use dap_json::{More, Text};
use serde_json::Value;
use std::alloc::{AllocError, Global};

/// Whether a body, if there is memory for it, is written so.
fn is_written(alloc: Global, body: Result<Value, AllocError>, wanted: &str) -> bool {
    match body {
        Ok(body) => {
            let is_so = is_text(alloc, &body, wanted);
            drop(body);
            is_so
        }
        Err(_) => false,
    }
}

fn is_text(alloc: Global, body: &Value, wanted: &str) -> bool {
    match body.to_string(alloc) {
        Ok(text) => text.as_str() == wanted,
        Err(_) => false,
    }
}

static FAILURES: [(Failure, u32, &str, &str); 19] = [
    (
        Failure::NotInitialized,
        1001,
        "notInitialized",
        r#"{"error":{"format":"The session is not initialized.","id":1001}}"#,
    ),
    (
        Failure::AlreadyInitialized,
        1002,
        "alreadyInitialized",
        r#"{"error":{"format":"The session is already initialized.","id":1002}}"#,
    ),
    (
        Failure::UnknownCommand,
        1003,
        "unknownCommand",
        r#"{"error":{"format":"The command is not known.","id":1003}}"#,
    ),
    (
        Failure::Unsupported,
        1004,
        "unsupported",
        r#"{"error":{"format":"The command is not supported.","id":1004}}"#,
    ),
    (
        Failure::BadArguments {
            key: Key::RequestId,
        },
        1005,
        "badArguments",
        r#"{"error":{"format":"The argument requestId is missing or malformed.","id":1005}}"#,
    ),
    (
        Failure::BadArguments {
            key: Key::Arguments,
        },
        1005,
        "badArguments",
        r#"{"error":{"format":"The argument arguments is missing or malformed.","id":1005}}"#,
    ),
    (
        Failure::WrongPhase,
        1007,
        "wrongPhase",
        r#"{"error":{"format":"The request does not fit the state of the session.","id":1007}}"#,
    ),
    (
        Failure::NotStopped,
        1006,
        "notStopped",
        r#"{"error":{"format":"The debuggee is not stopped.","id":1006}}"#,
    ),
    (
        Failure::UnknownThread,
        1008,
        "unknownThread",
        r#"{"error":{"format":"The thread does not exist.","id":1008}}"#,
    ),
    (
        Failure::StaleReference,
        1009,
        "staleReference",
        r#"{"error":{"format":"The reference is not valid in this stop.","id":1009}}"#,
    ),
    (
        Failure::UnknownSource,
        1014,
        "unknownSource",
        r#"{"error":{"format":"The source does not exist.","id":1014}}"#,
    ),
    (
        Failure::Debuggee,
        1013,
        "debuggee",
        r#"{"error":{"format":"The debuggee refused.","id":1013}}"#,
    ),
    (
        Failure::TooManyBreakpoints,
        1015,
        "tooManyBreakpoints",
        r#"{"error":{"format":"Too many breakpoints are set.","id":1015}}"#,
    ),
    (
        Failure::TooManyReferences,
        1010,
        "tooManyReferences",
        r#"{"error":{"format":"Too many references are in use.","id":1010}}"#,
    ),
    (
        Failure::ReferencesExhausted,
        1017,
        "referencesExhausted",
        r#"{"error":{"format":"No reference numbers are left.","id":1017}}"#,
    ),
    (
        Failure::TooLarge,
        1016,
        "tooLarge",
        r#"{"error":{"format":"The response would be too large.","id":1016}}"#,
    ),
    (
        Failure::Busy,
        1011,
        "busy",
        r#"{"error":{"format":"Too many requests are waiting.","id":1011}}"#,
    ),
    (
        Failure::Cancelled,
        1012,
        "cancelled",
        r#"{"error":{"format":"The request was cancelled.","id":1012}}"#,
    ),
    (
        Failure::TerminalRefused,
        1018,
        "terminalRefused",
        r#"{"error":{"format":"The terminal refused.","id":1018}}"#,
    ),
];

/// Each failure's number, short name and body.
#[test]
fn failures(rt: HostRuntime) {
    for (failure, id, name, wanted) in &FAILURES {
        check(&rt, failure.id() == *id && failure.name() == *name, *name);
        let body = body_failure(rt.alloc(), *failure);
        check(&rt, is_written(rt.alloc(), body, wanted), *wanted);
    }
}

/// What the body of a response is built of.
#[derive(Clone, Copy)]
enum Response {
    Breakpoints(&'static [(u64, u32, bool)]),
    Threads(&'static [(i64, &'static str)]),
    Continue,
    Sources(&'static [SourceRow]),
    Content(&'static str),
    /// Frames, and how many there are in all.
    Frames(&'static [FrameRow], u64),
    Scopes(&'static [(&'static str, u32)]),
    Variables(&'static [(&'static str, &'static str, u32)]),
    /// The value that was set.
    SetVariable(&'static str),
    Evaluate(&'static str, u32),
    /// The process in a terminal, and its shell.
    Terminal(Option<u32>, Option<u32>),
}

fn built_response(alloc: Global, of: Response) -> Result<Value, AllocError> {
    match of {
        Response::Breakpoints(rows) => body_set_breakpoints(alloc, breakpoints(alloc, rows)?),
        Response::Threads(rows) => body_threads(alloc, threads(alloc, rows)?),
        Response::Continue => body_continue(alloc),
        Response::Sources(rows) => body_loaded_sources(alloc, sources(alloc, rows)?),
        Response::Content(content) => body_source(alloc, Text::copied(alloc, content)?),
        Response::Frames(rows, total) => body_stack_trace(alloc, frames(alloc, rows)?, total),
        Response::Scopes(rows) => body_scopes(alloc, scopes(alloc, rows)?),
        Response::Variables(rows) => body_variables(alloc, variables(alloc, rows)?),
        Response::SetVariable(value) => body_set_variable(alloc, Text::copied(alloc, value)?),
        Response::Evaluate(result, reference) => {
            body_evaluate(alloc, Text::copied(alloc, result)?, reference)
        }
        Response::Terminal(process, shell) => body_terminal(alloc, process, shell),
    }
}

static RESPONSES: [(Response, &str); 16] = [
    (
        Response::Breakpoints(&[(1, 1, true), (2, 3, true), (3, 9, false)]),
        r#"{"breakpoints":[{"id":1,"line":1,"verified":true},{"id":2,"line":3,"verified":true},{"id":3,"line":9,"verified":false}]}"#,
    ),
    (
        Response::Threads(&[(1, "main"), (-7, "")]),
        r#"{"threads":[{"id":1,"name":"main"},{"id":-7,"name":""}]}"#,
    ),
    (Response::Continue, r#"{"allThreadsContinued":true}"#),
    (
        Response::Sources(&[("a.c", Some("/a.c"), 1)]),
        r#"{"sources":[{"name":"a.c","path":"/a.c","sourceReference":1}]}"#,
    ),
    (
        Response::Content("one\ntwo\nthree\n"),
        r#"{"content":"one\ntwo\nthree\n"}"#,
    ),
    (
        Response::Frames(
            &[
                (1, "main", Some(("a.c", Some("/a.c"), 1)), 3, 1),
                (2, "start", Some(("b.c", None, 2)), 0, 0),
                (3, "lib", None, 0, 0),
            ],
            5,
        ),
        r#"{"stackFrames":[{"column":1,"id":1,"line":3,"name":"main","source":{"name":"a.c","path":"/a.c","sourceReference":1}},{"column":0,"id":2,"line":0,"name":"start","source":{"name":"b.c","sourceReference":2}},{"column":0,"id":3,"line":0,"name":"lib"}],"totalFrames":5}"#,
    ),
    (
        Response::Scopes(&[("Locals", 2)]),
        r#"{"scopes":[{"expensive":false,"name":"Locals","variablesReference":2}]}"#,
    ),
    (
        Response::Variables(&[("x", "1", 0), ("p", "P", 3)]),
        r#"{"variables":[{"name":"x","value":"1","variablesReference":0},{"name":"p","value":"P","variablesReference":3}]}"#,
    ),
    (Response::SetVariable("9"), r#"{"value":"9"}"#),
    (Response::SetVariable(""), r#"{"value":""}"#),
    (Response::SetVariable("a\"b\n"), r#"{"value":"a\"b\n"}"#),
    (
        Response::Evaluate("P", 3),
        r#"{"result":"P","variablesReference":3}"#,
    ),
    (Response::Terminal(None, None), "{}"),
    (Response::Terminal(Some(7), None), r#"{"processId":7}"#),
    (Response::Terminal(None, Some(0)), r#"{"shellProcessId":0}"#),
    (
        Response::Terminal(Some(2147483647), Some(8)),
        r#"{"processId":2147483647,"shellProcessId":8}"#,
    ),
];

/// The bodies of responses.
#[test]
fn responses(rt: HostRuntime) {
    for (of, wanted) in &RESPONSES {
        let body = built_response(rt.alloc(), *of);
        check(&rt, is_written(rt.alloc(), body, wanted), *wanted);
    }
}

/// The body of each response that has a list, with nothing in it.
static EMPTY: [(Response, &str); 6] = [
    (Response::Breakpoints(&[]), r#"{"breakpoints":[]}"#),
    (Response::Threads(&[]), r#"{"threads":[]}"#),
    (
        Response::Frames(&[], 2),
        r#"{"stackFrames":[],"totalFrames":2}"#,
    ),
    (Response::Scopes(&[]), r#"{"scopes":[]}"#),
    (Response::Variables(&[]), r#"{"variables":[]}"#),
    (Response::Sources(&[]), r#"{"sources":[]}"#),
];

/// A file that the client reads by its path has no number.
static ON_DISK: [(Response, &str); 1] = [(
    Response::Sources(&[("a.c", Some("/a.c"), 0), ("b.c", None, 2)]),
    r#"{"sources":[{"name":"a.c","path":"/a.c"},{"name":"b.c","sourceReference":2}]}"#,
)];

#[test]
fn sources_on_disk(rt: HostRuntime) {
    for (of, wanted) in &ON_DISK {
        let body = built_response(rt.alloc(), *of);
        check(&rt, is_written(rt.alloc(), body, wanted), *wanted);
    }
}

#[test]
fn empty_lists(rt: HostRuntime) {
    for (of, wanted) in &EMPTY {
        let body = built_response(rt.alloc(), *of);
        check(&rt, is_written(rt.alloc(), body, wanted), *wanted);
    }
}

/// What the body of an event is built of.
#[derive(Clone, Copy)]
enum Event {
    Output(&'static str, &'static str),
    Stopped(&'static str, i64),
    Continued(i64),
    Exited(i32),
}

fn output(alloc: Global, category: &str, output: &str) -> Result<Value, AllocError> {
    let category = Text::copied(alloc, category)?;
    body_output(alloc, category, Text::copied(alloc, output)?, More::none())
}

fn built_event(alloc: Global, of: Event) -> Result<Value, AllocError> {
    match of {
        Event::Output(category, text) => output(alloc, category, text),
        Event::Stopped(reason, thread) => {
            body_stopped(alloc, Text::copied(alloc, reason)?, thread, More::none())
        }
        Event::Continued(thread) => body_continued(alloc, thread),
        Event::Exited(code) => body_exited(alloc, code),
    }
}

static EVENTS: [(Event, &str); 4] = [
    (
        Event::Output("stdout", "go\n"),
        r#"{"category":"stdout","output":"go\n"}"#,
    ),
    (
        Event::Stopped("pause", 1),
        r#"{"allThreadsStopped":true,"reason":"pause","threadId":1}"#,
    ),
    (
        Event::Continued(-9007199254740991),
        r#"{"allThreadsContinued":true,"threadId":-9007199254740991}"#,
    ),
    (Event::Exited(-2147483648), r#"{"exitCode":-2147483648}"#),
];

/// The bodies of events.
#[test]
fn events(rt: HostRuntime) {
    for (of, wanted) in &EVENTS {
        let body = built_event(rt.alloc(), *of);
        check(&rt, is_written(rt.alloc(), body, wanted), *wanted);
    }
}
