//! Responses by the parts of their bodies, and requests, with ample memory: each text is written, and is the one that is due.

use crate::checks::check;
use crate::lists::{breakpoints, frames, scopes, threads, variables};
use dap_body::Body;
use dap_command::Capabilities;
use dap_json::{More, Text};
use dap_message::{append_answer, append_request};
use std::alloc::{AllocError, Global};

/// What an adapter offers that serves every command.
const ALL: Capabilities = Capabilities {
    breakpoint_locations: true,
    cancel: true,
    completions: true,
    configuration_done: true,
    exception_info: true,
    function_breakpoints: true,
    loaded_sources: true,
    modules: true,
    restart: true,
    set_variable: true,
    step_back: true,
    terminate: true,
};

/// The body with this place in `ANSWERS`.
fn body(alloc: Global, place: usize) -> Result<Option<Body>, AllocError> {
    Ok(Some(match place {
        0 => Body::Threads {
            threads: threads(alloc, &[(-1, r#"t""#), (2, r#"t""#)])?,
        },
        1 => Body::SetBreakpoints {
            breakpoints: breakpoints(alloc, &[(1, 2, false)])?,
        },
        2 => Body::Scopes {
            scopes: scopes(alloc, &[("s", 3)])?,
        },
        3 => Body::Variables {
            variables: variables(alloc, &[("v", "1", 0)])?,
        },
        4 => Body::StackTrace {
            stack_frames: frames(alloc, &[(1, "f", Some(("a", Some("/a"), 2)), 3, 4)])?,
            total_frames: 5,
        },
        5 => Body::LoadedSources {
            sources: Vec::new(alloc),
        },
        6 => Body::Source {
            content: Text::copied(alloc, "x\n")?,
        },
        7 => Body::Evaluate {
            result: Text::copied(alloc, "1")?,
            variables_reference: 6,
            more: More::none(),
        },
        8 => Body::Continue,
        9 => Body::SetVariable {
            value: Text::copied(alloc, "9")?,
            more: More::none(),
        },
        10 => Body::Initialize {
            capabilities: ALL,
            more: More::none(),
        },
        11 => Body::Initialize {
            capabilities: Capabilities::read(None),
            more: More::text(alloc, "supportsRestartRequest", "no flag")?,
        },
        12 => Body::RunInTerminal {
            process_id: Some(7),
            shell_process_id: Some(8),
        },
        _ => return Ok(None),
    }))
}

static ANSWERS: [&[u8]; 14] = [
    br#"{"body":{"threads":[{"id":-1,"name":"t\""},{"id":2,"name":"t\""}]},"command":"c","request_seq":4,"seq":7,"success":true,"type":"response"}"#,
    br#"{"body":{"breakpoints":[{"id":1,"line":2,"verified":false}]},"command":"c","request_seq":4,"seq":7,"success":true,"type":"response"}"#,
    br#"{"body":{"scopes":[{"expensive":false,"name":"s","variablesReference":3}]},"command":"c","request_seq":4,"seq":7,"success":true,"type":"response"}"#,
    br#"{"body":{"variables":[{"name":"v","value":"1","variablesReference":0}]},"command":"c","request_seq":4,"seq":7,"success":true,"type":"response"}"#,
    br#"{"body":{"stackFrames":[{"column":4,"id":1,"line":3,"name":"f","source":{"name":"a","path":"/a","sourceReference":2}}],"totalFrames":5},"command":"c","request_seq":4,"seq":7,"success":true,"type":"response"}"#,
    br#"{"body":{"sources":[]},"command":"c","request_seq":4,"seq":7,"success":true,"type":"response"}"#,
    br#"{"body":{"content":"x\n"},"command":"c","request_seq":4,"seq":7,"success":true,"type":"response"}"#,
    br#"{"body":{"result":"1","variablesReference":6},"command":"c","request_seq":4,"seq":7,"success":true,"type":"response"}"#,
    br#"{"body":{"allThreadsContinued":true},"command":"c","request_seq":4,"seq":7,"success":true,"type":"response"}"#,
    br#"{"body":{"value":"9"},"command":"c","request_seq":4,"seq":7,"success":true,"type":"response"}"#,
    br#"{"body":{"supportsBreakpointLocationsRequest":true,"supportsCancelRequest":true,"supportsCompletionsRequest":true,"supportsConfigurationDoneRequest":true,"supportsExceptionInfoRequest":true,"supportsFunctionBreakpoints":true,"supportsLoadedSourcesRequest":true,"supportsModulesRequest":true,"supportsRestartRequest":true,"supportsSetVariable":true,"supportsStepBack":true,"supportsTerminateRequest":true},"command":"c","request_seq":4,"seq":7,"success":true,"type":"response"}"#,
    br#"{"body":{},"command":"c","request_seq":4,"seq":7,"success":true,"type":"response"}"#,
    br#"{"body":{"processId":7,"shellProcessId":8},"command":"c","request_seq":4,"seq":7,"success":true,"type":"response"}"#,
    br#"{"command":"c","request_seq":4,"seq":7,"success":true,"type":"response"}"#,
];

/// Whether the response with the number 7 to the request `c`, which has the number 4, is written so with this body.
fn is_answer(alloc: Global, body: &Option<Body>, wanted: &[u8]) -> bool {
    let mut told = Vec::new(alloc);
    append_answer(alloc, &mut told, 7, 4, "c", body).is_ok() && told.as_slice() == wanted
}

/// Whether the response with this place is written so.
fn is_written(alloc: Global, place: usize, wanted: &[u8]) -> bool {
    match body(alloc, place) {
        Ok(body) => {
            let is_so = is_answer(alloc, &body, wanted);
            drop(body);
            is_so
        }
        Err(_) => false,
    }
}

/// Each body by its parts, and none.
#[test]
fn bodies_by_their_parts(rt: HostRuntime) {
    for (place, wanted) in ANSWERS.iter().enumerate() {
        check(&rt, is_written(rt.alloc(), place, wanted), place);
    }
}

/// Whether the request with a number and a command is written so.
fn is_request(alloc: Global, seq: u64, command: &str, wanted: &[u8]) -> bool {
    let mut told = Vec::new(alloc);
    append_request(alloc, &mut told, seq, command, &None).is_ok() && told.as_slice() == wanted
}

/// Numbers, commands, and the requests with them. The second number is one past the greatest.
static REQUESTS: [(u64, &str, &[u8]); 2] = [
    (
        1,
        "threads",
        br#"{"command":"threads","seq":1,"type":"request"}"#,
    ),
    (
        9007199254740992,
        "c",
        br#"{"command":"c","seq":9007199254740992,"type":"request"}"#,
    ),
];

#[test]
fn requests(rt: HostRuntime) {
    for (seq, command, wanted) in &REQUESTS {
        check(&rt, is_request(rt.alloc(), *seq, command, wanted), *command);
    }
}
