//! The lists in bodies, as a client reads them, or want of memory.

use crate::outcomes::{both, judge, refused};
use dap_body::view::{
    Breakpoint, Scope, Source, StackFrame, Thread, Variable, ViewFault, breakpoints,
    loaded_sources, scopes, stack_trace, threads, variables,
};
use dap_json::{ParseFault, parse};
use serde_json::Value;
use std::alloc::Global;
use std::test::Fail;

/// One body with all lists.
const BODY: &str =
    r#"{"threads":[{"id":1,"name":"a"},{"id":2,"name":"b"},{"id":3,"name":"c"},{"id":4,"name":"d"},{"id":5,"name":"e"}],
"stackFrames":[{"id":1,"name":"f","line":3,"column":1,"source":{"path":"/a.c"}}],"scopes":[{"name":"Locals","variablesReference":2,"expensive":false}],
"variables":[{"name":"x","value":"7","variablesReference":0}],"breakpoints":[{"verified":true}],"sources":[{"name":"a.c"}]}"#;

/// Whether a list has so many elements, of which this is the last; nothing where memory for it is refused.
fn ends_with<T: PartialEq + Drop>(
    list: Result<Vec<T>, ViewFault>,
    count: usize,
    last: T,
) -> Option<bool> {
    match list {
        Ok(found) => Some(found.len() == count && found.last() == Some(&last)),
        Err(fault) => refused(fault == ViewFault::OutOfMemory),
    }
}

fn reads_frames(alloc: Global, body: &Value) -> Option<bool> {
    let frame = StackFrame {
        id: 1,
        name: "f",
        line: 3,
        column: 1,
        source: Some(Source {
            name: None,
            path: Some("/a.c"),
            source_reference: 0,
        }),
    };
    match stack_trace(alloc, body) {
        Ok(trace) => ends_with(Ok(trace.stack_frames), 1, frame),
        Err(fault) => refused(fault == ViewFault::OutOfMemory),
    }
}

fn reads_lists(alloc: Global, body: &Value) -> Option<bool> {
    let thread = Thread { id: 5, name: "e" };
    let mut outcome = ends_with(threads(alloc, body), 5, thread);
    outcome = both(outcome, reads_frames(alloc, body));
    let scope = Scope {
        name: "Locals",
        variables_reference: 2,
        expensive: false,
    };
    outcome = both(outcome, ends_with(scopes(alloc, body), 1, scope));
    let variable = Variable {
        name: "x",
        value: "7",
        variables_reference: 0,
    };
    outcome = both(outcome, ends_with(variables(alloc, body), 1, variable));
    let breakpoint = Breakpoint {
        id: None,
        verified: true,
        line: None,
        message: None,
    };
    outcome = both(outcome, ends_with(breakpoints(alloc, body), 1, breakpoint));
    let source = Source {
        name: Some("a.c"),
        path: None,
        source_reference: 0,
    };
    both(outcome, ends_with(loaded_sources(alloc, body), 1, source))
}

fn reads_body(alloc: Global) -> Option<bool> {
    match parse(alloc, BODY.as_bytes()) {
        Ok(body) => {
            let outcome = reads_lists(alloc, &body);
            drop(body);
            outcome
        }
        Err(fault) => refused(fault == ParseFault::OutOfMemory),
    }
}

/// Each list of a body is read.
#[test]
fn lists_of_bodies(rt: HostRuntime) -> Result<(), Fail> {
    judge(&rt, reads_body(rt.alloc()))
}
