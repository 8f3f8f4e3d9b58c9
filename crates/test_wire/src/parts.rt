//! What a message lends as the response to a request, and as an event.

use crate::checks::check;
use dap_envelope::{BodyFault, Event, Message, Response, read_message};
use serde_json::Value;
use std::alloc::Global;

/// A row: a message, the number of a request, and what is lent as its response: success, command, reason and the text of
/// the body.
type ResponseRow = (
    &'static str,
    u64,
    Option<
        (
            bool,
            &'static str,
            Option<&'static str>,
            Option<&'static str>,
        ),
    >,
);

static RESPONSES: [ResponseRow; 5] = [
    (
        r#"{"seq":9,"type":"response","request_seq":3,"success":true,"command":"threads","body":{"threads":[]}}"#,
        3,
        Some((true, "threads", None, Some(r#"{"threads":[]}"#))),
    ),
    (
        r#"{"seq":9,"type":"response","request_seq":3,"success":true,"command":"threads","body":{"threads":[]}}"#,
        9,
        None,
    ),
    (
        r#"{"seq":9,"type":"response","request_seq":3,"success":false,"command":"next","message":"notStopped","body":null}"#,
        3,
        Some((false, "next", Some("notStopped"), None)),
    ),
    (r#"{"seq":3,"type":"request","command":"threads"}"#, 3, None),
    (
        r#"{"seq":3,"type":"event","event":"stopped","request_seq":3}"#,
        3,
        None,
    ),
];

/// A row: a message, and what is lent as an event: its name and the text of its body.
type EventRow = (&'static str, Option<(&'static str, Option<&'static str>)>);

static EVENTS: [EventRow; 3] = [
    (
        r#"{"seq":4,"type":"event","event":"exited","body":{"exitCode":7}}"#,
        Some(("exited", Some(r#"{"exitCode":7}"#))),
    ),
    (
        r#"{"seq":4,"type":"event","event":"initialized"}"#,
        Some(("initialized", None)),
    ),
    (
        r#"{"seq":4,"type":"request","command":"next","event":"exited"}"#,
        None,
    ),
];

fn is_body(alloc: Global, body: Option<&Value>, wanted: Option<&str>) -> bool {
    match (body, wanted) {
        (None, None) => true,
        (Some(body), Some(wanted)) => match body.to_string(alloc) {
            Ok(text) => text.as_str() == wanted,
            Err(_) => false,
        },
        _ => false,
    }
}

fn lends_response(alloc: Global, message: &Message, row: &ResponseRow) -> bool {
    match (message.response_to(row.1), row.2) {
        (None, None) => true,
        (Some(response), Some((success, command, reason, body))) => {
            let Response {
                success: is_success,
                command: name,
                message: why,
                body: value,
            } = response;
            is_success == success && name == command && why == reason && is_body(alloc, value, body)
        }
        _ => false,
    }
}

fn lends_event(alloc: Global, message: &Message, row: &EventRow) -> bool {
    match (message.event(), row.1) {
        (None, None) => true,
        (Some(event), Some((name, body))) => {
            let Event {
                name: found,
                body: value,
            } = event;
            found == name && is_body(alloc, value, body)
        }
        _ => false,
    }
}

fn is_response(alloc: Global, row: &ResponseRow) -> Result<bool, BodyFault> {
    let message = read_message(alloc, row.0.as_bytes())?;
    let is_so = lends_response(alloc, &message, row);
    drop(message);
    Ok(is_so)
}

fn is_event(alloc: Global, row: &EventRow) -> Result<bool, BodyFault> {
    let message = read_message(alloc, row.0.as_bytes())?;
    let is_so = lends_event(alloc, &message, row);
    drop(message);
    Ok(is_so)
}

#[test]
fn lends_responses(rt: HostRuntime) {
    for row in &RESPONSES {
        check(&rt, is_response(rt.alloc(), row) == Ok(true), row.0);
    }
}

#[test]
fn lends_events(rt: HostRuntime) {
    for row in &EVENTS {
        check(&rt, is_event(rt.alloc(), row) == Ok(true), row.0);
    }
}
