//! What a client reads of bodies: those that recorded adapters wrote, and what is at fault in others.

use crate::checks::check;
use dap_body::view::{
    breakpoints, evaluate, loaded_sources, scopes, set_variable, source, stack_trace, threads,
    variables,
};
use dap_json::parse;
use serde_json::Value;
use std::alloc::{AllocError, Global};

/// Of which response a body is.
#[derive(Clone, Copy)]
enum Of {
    Threads,
    StackTrace,
    Scopes,
    Variables,
    SetBreakpoints,
    Evaluate,
    SetVariable,
    Source,
    LoadedSources,
}

/// A row: of which response the body is, the body, and what is read of it.
static BODIES: [(Of, &str, &str); 17] = [
    // Delve 1.20.2.
    (
        Of::Threads,
        r#"{"threads":[{"id":1,"name":"* [Go 1] main.add (Thread 4918)"},{"id":17,"name":"[Go 17] runtime.runfinq"}]}"#,
        r#"Ok([Thread { id: 1, name: "* [Go 1] main.add (Thread 4918)" }, Thread { id: 17, name: "[Go 17] runtime.runfinq" }])"#,
    ),
    (
        Of::StackTrace,
        r#"{"stackFrames":[{"id":1002,"name":"runtime.main","source":{"name":"proc.go","path":"/usr/lib/go-1.19/src/runtime/proc.go"},"line":250,"column":0,"instructionPointerReference":"0x43a138","presentationHint":"subtle"}],"totalFrames":4}"#,
        r#"Ok(StackTrace { stack_frames: [StackFrame { id: 1002, name: "runtime.main", line: 250, column: 0, source: Some(Source { name: Some("proc.go"), path: Some("/usr/lib/go-1.19/src/runtime/proc.go"), source_reference: 0 }) }], total_frames: Some(4) })"#,
    ),
    (
        Of::SetBreakpoints,
        r#"{"breakpoints":[{"id":1,"verified":true,"source":{"name":"prog.go","path":"/home/user/debuggees/prog.go"},"line":11}]}"#,
        r#"Ok([Breakpoint { id: Some(1), verified: true, line: Some(11), message: None }])"#,
    ),
    // lldb-vscode 14.
    (
        Of::StackTrace,
        r#"{"stackFrames":[{"column":0,"id":524293,"line":12,"name":"_start","source":{"name":"_start","sourceReference":1}}]}"#,
        r#"Ok(StackTrace { stack_frames: [StackFrame { id: 524293, name: "_start", line: 12, column: 0, source: Some(Source { name: Some("_start"), path: None, source_reference: 1 }) }], total_frames: None })"#,
    ),
    (
        Of::Variables,
        r#"{"variables":[{"evaluateName":"a","id":-1,"name":"a","type":"int","value":"0","variablesReference":0},{"name":"s","value":"é","variablesReference":3}]}"#,
        r#"Ok([Variable { name: "a", value: "0", variables_reference: 0 }, Variable { name: "s", value: "é", variables_reference: 3 }])"#,
    ),
    (
        Of::Evaluate,
        r#"{"result":"0","type":"int","variablesReference":0}"#,
        r#"Ok(Evaluation { result: "0", variables_reference: 0 })"#,
    ),
    // debugpy 1.6.6.
    (
        Of::Scopes,
        r#"{"scopes":[{"name":"Locals","variablesReference":5,"expensive":false,"presentationHint":"locals","source":{}},{"name":"Globals","variablesReference":6,"expensive":false,"source":{}}]}"#,
        r#"Ok([Scope { name: "Locals", variables_reference: 5, expensive: false }, Scope { name: "Globals", variables_reference: 6, expensive: false }])"#,
    ),
    (Of::Threads, r#"{"threads":[]}"#, "Ok([])"),
    // Ruby's debug 1.4.0.
    (
        Of::SetBreakpoints,
        r#"{"breakpoints":[{"verified":true},{"verified":false,"message":"no code"}]}"#,
        r#"Ok([Breakpoint { id: None, verified: true, line: None, message: None }, Breakpoint { id: None, verified: false, line: None, message: Some("no code") }])"#,
    ),
    (
        Of::StackTrace,
        r#"{"stackFrames":[{"name":"<main>","line":5,"column":1,"source":{"name":"prog.rb","path":"/prog.rb","sourceReference":null},"id":2}]}"#,
        r#"Ok(StackTrace { stack_frames: [StackFrame { id: 2, name: "<main>", line: 5, column: 1, source: Some(Source { name: Some("prog.rb"), path: Some("/prog.rb"), source_reference: 0 }) }], total_frames: None })"#,
    ),
    // The Specification.
    (
        Of::SetVariable,
        r#"{"value":"7","variablesReference":0}"#,
        r#"Ok("7")"#,
    ),
    (
        Of::Source,
        r#"{"content":"ret\n","mimeType":"text/x-asm"}"#,
        r#"Ok("ret\n")"#,
    ),
    (
        Of::LoadedSources,
        r#"{"sources":[{"name":"a.c","path":"/a.c","origin":"x"},{}]}"#,
        r#"Ok([Source { name: Some("a.c"), path: Some("/a.c"), source_reference: 0 }, Source { name: None, path: None, source_reference: 0 }])"#,
    ),
    // What is at fault.
    (
        Of::LoadedSources,
        r#"{"sources":[{"name":"a.c"},"b.c"]}"#,
        "Err(Element { index: 1, key: Source })",
    ),
    (
        Of::Scopes,
        r#"{"scopes":[{"name":"Locals","variablesReference":5,"expensive":true},{"name":"Globals","variablesReference":6}]}"#,
        "Err(Element { index: 1, key: Expensive })",
    ),
    (
        Of::Evaluate,
        r#"{"result":"0","variablesReference":2147483648}"#,
        "Err(Body { key: VariablesReference })",
    ),
    (
        Of::Variables,
        r#"{"variables":null}"#,
        "Err(Body { key: Variables })",
    ),
];

/// What is read of a body, as text.
fn shown(alloc: Global, of: Of, body: &Value) -> Result<String, AllocError> {
    match of {
        Of::Threads => format!(in alloc; "{:?}", threads(alloc, body)),
        Of::StackTrace => format!(in alloc; "{:?}", stack_trace(alloc, body)),
        Of::Scopes => format!(in alloc; "{:?}", scopes(alloc, body)),
        Of::Variables => format!(in alloc; "{:?}", variables(alloc, body)),
        Of::SetBreakpoints => format!(in alloc; "{:?}", breakpoints(alloc, body)),
        Of::Evaluate => format!(in alloc; "{:?}", evaluate(body)),
        Of::SetVariable => format!(in alloc; "{:?}", set_variable(body)),
        Of::Source => format!(in alloc; "{:?}", source(body)),
        Of::LoadedSources => format!(in alloc; "{:?}", loaded_sources(alloc, body)),
    }
}

/// Whether that is read of a body.
fn is_read(alloc: Global, of: Of, body: &str, wanted: &str) -> bool {
    match parse(alloc, body.as_bytes()) {
        Ok(body) => {
            let is_so = match shown(alloc, of, &body) {
                Ok(text) => text.as_str() == wanted,
                Err(_) => false,
            };
            drop(body);
            is_so
        }
        Err(_) => false,
    }
}

#[test]
fn reads_bodies(rt: HostRuntime) {
    for (of, body, wanted) in &BODIES {
        check(&rt, is_read(rt.alloc(), *of, body, wanted), *body);
    }
}
