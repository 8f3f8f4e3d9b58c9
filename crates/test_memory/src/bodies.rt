//! Messages and bodies that are written, or want of memory.

use crate::calls::is_written;
use crate::outcomes::{both, judge, refused};
use dap_body::{
    Body, Breakpoint, Failure, Scope, Source, StackFrame, Thread, Variable, body_continue,
    body_evaluate, body_failure, body_loaded_sources, body_output, body_scopes,
    body_set_breakpoints, body_set_variable, body_source, body_stack_trace, body_stopped,
    body_terminal, body_threads, body_variables,
};
use dap_command::{Capabilities, Key};
use dap_envelope::{BodyFault, Message, read_message, write_message};
use dap_json::{More, Text};
use dap_message::append_answer;
use serde_json::Value;
use std::alloc::{AllocError, Global};
use std::test::Fail;

static MESSAGES: [&[u8]; 3] = [
    br#"{"arguments":{"a":[1,"b"]},"command":"threads","seq":1,"type":"request"}"#,
    br#"{"body":{},"command":"x","message":"m","request_seq":1,"seq":2,"success":false,"type":"response"}"#,
    br#"{"body":[true],"event":"e","seq":3,"type":"event"}"#,
];

/// Whether a message is plain, and written as this body.
fn writes_message(alloc: Global, message: &Message, body: &[u8]) -> Option<bool> {
    if !message.plain() {
        return Some(false);
    }
    match write_message(alloc, message) {
        Ok(written) => Some(written.as_slice() == body),
        Err(_) => None,
    }
}

fn reads_message(alloc: Global, body: &[u8]) -> Option<bool> {
    match read_message(alloc, body) {
        Ok(message) => {
            let outcome = writes_message(alloc, &message, body);
            drop(message);
            outcome
        }
        Err(fault) => refused(fault == BodyFault::OutOfMemory),
    }
}

fn reads_messages(alloc: Global) -> Option<bool> {
    let mut outcome = Some(true);
    for body in &MESSAGES {
        outcome = both(outcome, reads_message(alloc, *body));
    }
    outcome
}

/// Messages of each type are read, and written again as they stood.
#[test]
fn messages(rt: HostRuntime) -> Result<(), Fail> {
    judge(&rt, reads_messages(rt.alloc()))
}

fn one<T>(alloc: Global, item: T) -> Result<Vec<T>, AllocError>
where
    T: Drop,
{
    let mut items = Vec::new(alloc);
    items.push(item)?;
    Ok(items)
}

/// Two texts.
fn two(alloc: Global, first: &str, second: &str) -> Result<(Text, Text), AllocError> {
    let first = Text::copied(alloc, first)?;
    match Text::copied(alloc, second) {
        Ok(second) => Ok((first, second)),
        Err(fault) => Err(fault),
    }
}

fn source(alloc: Global) -> Result<Source, AllocError> {
    match two(alloc, "a.c", "/a.c") {
        Ok((name, path)) => Ok(Source {
            name,
            path: Some(path),
            source_reference: Some(1),
            more: More::none(),
        }),
        Err(fault) => Err(fault),
    }
}

fn breakpoints_body(alloc: Global) -> Result<Value, AllocError> {
    let breakpoint = Breakpoint {
        id: 1,
        line: 2,
        verified: true,
        message: None,
        more: More::none(),
    };
    body_set_breakpoints(alloc, one(alloc, breakpoint)?)
}

fn threads_body(alloc: Global) -> Result<Value, AllocError> {
    let name = Text::copied(alloc, "main")?;
    body_threads(
        alloc,
        one(
            alloc,
            Thread {
                id: 1,
                name,
                more: More::none(),
            },
        )?,
    )
}

fn frame(alloc: Global, name: Text) -> Result<StackFrame, AllocError> {
    match source(alloc) {
        Ok(source) => Ok(StackFrame {
            id: 1,
            name,
            source: Some(source),
            line: 3,
            column: 1,
            more: More::none(),
        }),
        Err(fault) => Err(fault),
    }
}

fn frames_body(alloc: Global) -> Result<Value, AllocError> {
    let frame = frame(alloc, Text::copied(alloc, "f")?)?;
    body_stack_trace(alloc, one(alloc, frame)?, 5)
}

fn scopes_body(alloc: Global) -> Result<Value, AllocError> {
    let scope = Scope {
        name: Text::copied(alloc, "Locals")?,
        variables_reference: 2,
        more: More::none(),
    };
    body_scopes(alloc, one(alloc, scope)?)
}

fn variables_body(alloc: Global) -> Result<Value, AllocError> {
    let (name, value) = two(alloc, "x", "1")?;
    let variable = Variable {
        name,
        value,
        variables_reference: 0,
        more: More::text(alloc, "type", "int")?,
    };
    body_variables(alloc, one(alloc, variable)?)
}

fn sources_body(alloc: Global) -> Result<Value, AllocError> {
    let source = source(alloc)?;
    body_loaded_sources(alloc, one(alloc, source)?)
}

fn output_body(alloc: Global) -> Result<Value, AllocError> {
    let (category, output) = two(alloc, "stdout", "go\n")?;
    body_output(alloc, category, output, More::none())
}

/// What an adapter offers that serves each command.
const ALL: Capabilities = Capabilities {
    breakpoint_locations: true,
    cancel: true,
    completions: true,
    configuration_done: true,
    exception_info: true,
    function_breakpoints: true,
    loaded_sources: true,
    modules: true,
    restart: true,
    set_variable: true,
    step_back: true,
    terminate: true,
};

/// A body with one element or text, by its place among the texts below.
fn body(alloc: Global, place: usize) -> Result<Value, AllocError> {
    match place {
        0 => breakpoints_body(alloc),
        1 => threads_body(alloc),
        2 => frames_body(alloc),
        3 => scopes_body(alloc),
        4 => variables_body(alloc),
        5 => body_evaluate(alloc, Text::copied(alloc, "P")?, 3),
        6 => body_source(alloc, Text::copied(alloc, "one\n")?),
        7 => sources_body(alloc),
        8 => output_body(alloc),
        9 => body_stopped(alloc, Text::copied(alloc, "step")?, 1, More::none()),
        10 => body_set_variable(alloc, Text::copied(alloc, "9")?),
        11 => body_continue(alloc),
        12 => Body::Initialize {
            capabilities: ALL,
            more: More::none(),
        }
        .value(alloc),
        13 => body_terminal(alloc, Some(7), Some(8)),
        _ => body_failure(alloc, Failure::BadArguments { key: Key::ThreadId }),
    }
}

static BODIES: [&[u8]; 15] = [
    br#"{"breakpoints":[{"id":1,"line":2,"verified":true}]}"#,
    br#"{"threads":[{"id":1,"name":"main"}]}"#,
    br#"{"stackFrames":[{"column":1,"id":1,"line":3,"name":"f","source":{"name":"a.c","path":"/a.c","sourceReference":1}}],"totalFrames":5}"#,
    br#"{"scopes":[{"expensive":false,"name":"Locals","variablesReference":2}]}"#,
    br#"{"variables":[{"name":"x","type":"int","value":"1","variablesReference":0}]}"#,
    br#"{"result":"P","variablesReference":3}"#,
    br#"{"content":"one\n"}"#,
    br#"{"sources":[{"name":"a.c","path":"/a.c","sourceReference":1}]}"#,
    br#"{"category":"stdout","output":"go\n"}"#,
    br#"{"allThreadsStopped":true,"reason":"step","threadId":1}"#,
    br#"{"value":"9"}"#,
    br#"{"allThreadsContinued":true}"#,
    br#"{"supportsBreakpointLocationsRequest":true,"supportsCancelRequest":true,"supportsCompletionsRequest":true,"supportsConfigurationDoneRequest":true,"supportsExceptionInfoRequest":true,"supportsFunctionBreakpoints":true,"supportsLoadedSourcesRequest":true,"supportsModulesRequest":true,"supportsRestartRequest":true,"supportsSetVariable":true,"supportsStepBack":true,"supportsTerminateRequest":true}"#,
    br#"{"processId":7,"shellProcessId":8}"#,
    br#"{"error":{"format":"The argument threadId is missing or malformed.","id":1005}}"#,
];

fn builds(alloc: Global, place: usize, text: &[u8]) -> Option<bool> {
    match body(alloc, place) {
        Ok(body) => is_written(alloc, body, text),
        Err(_) => None,
    }
}

fn builds_all(alloc: Global) -> Option<bool> {
    let mut outcome = Some(true);
    for (place, text) in BODIES.iter().enumerate() {
        outcome = both(outcome, builds(alloc, place, *text));
    }
    outcome
}

/// A body is built whole, or not at all.
#[test]
fn building_bodies(rt: HostRuntime) -> Result<(), Fail> {
    judge(&rt, builds_all(rt.alloc()))
}

/// What is answered to a request, by its place among the texts below.
fn answer(alloc: Global, place: usize) -> Result<Option<Body>, AllocError> {
    match place {
        0 => Ok(Some(Body::SetVariable {
            value: Text::copied(alloc, "9")?,
            more: More::none(),
        })),
        1 => Ok(Some(Body::Continue)),
        2 => Ok(Some(Body::Initialize {
            capabilities: ALL,
            more: More::none(),
        })),
        3 => Ok(Some(Body::Initialize {
            capabilities: Capabilities::read(None),
            more: More::none(),
        })),
        _ => Ok(None),
    }
}

static ANSWERS: [&[u8]; 5] = [
    br#"{"body":{"value":"9"},"command":"c","request_seq":4,"seq":7,"success":true,"type":"response"}"#,
    br#"{"body":{"allThreadsContinued":true},"command":"c","request_seq":4,"seq":7,"success":true,"type":"response"}"#,
    br#"{"body":{"supportsBreakpointLocationsRequest":true,"supportsCancelRequest":true,"supportsCompletionsRequest":true,"supportsConfigurationDoneRequest":true,"supportsExceptionInfoRequest":true,"supportsFunctionBreakpoints":true,"supportsLoadedSourcesRequest":true,"supportsModulesRequest":true,"supportsRestartRequest":true,"supportsSetVariable":true,"supportsStepBack":true,"supportsTerminateRequest":true},"command":"c","request_seq":4,"seq":7,"success":true,"type":"response"}"#,
    br#"{"body":{},"command":"c","request_seq":4,"seq":7,"success":true,"type":"response"}"#,
    br#"{"command":"c","request_seq":4,"seq":7,"success":true,"type":"response"}"#,
];

fn is_answer(alloc: Global, body: &Option<Body>, text: &[u8]) -> Option<bool> {
    let mut written = Vec::new(alloc);
    match append_answer(alloc, &mut written, 7, 4, "c", body) {
        Ok(()) => Some(written.as_slice() == text),
        Err(_) => None,
    }
}

fn answers(alloc: Global, place: usize, text: &[u8]) -> Option<bool> {
    match answer(alloc, place) {
        Ok(body) => {
            let outcome = is_answer(alloc, &body, text);
            drop(body);
            outcome
        }
        Err(_) => None,
    }
}

fn answers_all(alloc: Global) -> Option<bool> {
    let mut outcome = Some(true);
    for (place, text) in ANSWERS.iter().enumerate() {
        outcome = both(outcome, answers(alloc, place, *text));
    }
    outcome
}

/// A response with a body by its parts, or none, is written whole, or not at all.
#[test]
fn writing_answers(rt: HostRuntime) -> Result<(), Fail> {
    judge(&rt, answers_all(rt.alloc()))
}
