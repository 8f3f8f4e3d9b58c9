//! Bodies that rows write in short.
//!
//! | a row writes | it stands for |
//! |---|---|
//! | `capabilities seq 1 to 1` | the success of `initialize` with what the adapter offers |
//! | `terminal seq 4` | the request of the adapter for a terminal, with the number 4 |
//! | `busy seq 3 to 4 threads` | the failure `busy`, with the number 3, of the request 4, a `threads` |
//! | `badArguments threadId seq 6 to 5 next` | likewise; this failure names a key |
//!
//! Any other text stands for itself.

use dap_frame::write_frame;
use std::alloc::{AllocError, Global};

/// What the adapter offers.
const OFFERED: &str =
    r#"{"supportsCancelRequest":true,"supportsConfigurationDoneRequest":true,"supportsLoadedSourcesRequest":true,"supportsSetVariable":true,"supportsStepBack":true,"supportsTerminateRequest":true}"#;

/// Each failure: its name, its number, and its sentence, in two parts where the key of an argument stands between them.
static FAILURES: [(&str, &str, &str, &str); 18] = [
    (
        "notInitialized",
        "1001",
        "The session is not initialized.",
        "",
    ),
    (
        "alreadyInitialized",
        "1002",
        "The session is already initialized.",
        "",
    ),
    ("unknownCommand", "1003", "The command is not known.", ""),
    ("unsupported", "1004", "The command is not supported.", ""),
    (
        "badArguments",
        "1005",
        "The argument ",
        " is missing or malformed.",
    ),
    ("notStopped", "1006", "The debuggee is not stopped.", ""),
    (
        "wrongPhase",
        "1007",
        "The request does not fit the state of the session.",
        "",
    ),
    ("unknownThread", "1008", "The thread does not exist.", ""),
    (
        "staleReference",
        "1009",
        "The reference is not valid in this stop.",
        "",
    ),
    (
        "tooManyReferences",
        "1010",
        "Too many references are in use.",
        "",
    ),
    ("busy", "1011", "Too many requests are waiting.", ""),
    ("cancelled", "1012", "The request was cancelled.", ""),
    ("debuggee", "1013", "The debuggee refused.", ""),
    ("unknownSource", "1014", "The source does not exist.", ""),
    (
        "tooManyBreakpoints",
        "1015",
        "Too many breakpoints are set.",
        "",
    ),
    ("tooLarge", "1016", "The response would be too large.", ""),
    (
        "referencesExhausted",
        "1017",
        "No reference numbers are left.",
        "",
    ),
    ("terminalRefused", "1018", "The terminal refused.", ""),
];

/// The word in a place, counted from 0; no text where there are fewer.
pub fn word_at(text: &str, place: usize) -> &str {
    text.split(' ').nth(place).unwrap_or("")
}

fn add_all(body: &mut String, parts: &[&str]) -> Result<(), AllocError> {
    for part in parts {
        body.push_str(part)?;
    }
    Ok(())
}

/// Appends the success of `initialize`.
fn add_capabilities(body: &mut String, text: &str) -> Result<(), AllocError> {
    let (seq, request_seq) = (word_at(text, 2), word_at(text, 4));
    add_all(
        body,
        &[
            r#"{"body":"#,
            OFFERED,
            r#","command":"initialize","request_seq":"#,
            request_seq,
            r#","seq":"#,
            seq,
            r#","success":true,"type":"response"}"#,
        ],
    )
}

/// Appends a failure; the words after its name, and after the key if it names one, begin in a place.
fn add_failure(
    body: &mut String,
    text: &str,
    failure: &(&str, &str, &str, &str),
    from: usize,
) -> Result<(), AllocError> {
    let (name, number, front, back) = *failure;
    let key = if from > 1 { word_at(text, 1) } else { "" };
    add_all(body, &[r#"{"body":{"error":{"format":""#, front, key, back])?;
    add_all(body, &[r#"","id":"#, number, r#"}},"command":""#])?;
    add_all(
        body,
        &[word_at(text, from.saturating_add(4)), r#"","message":""#],
    )?;
    add_all(body, &[name, r#"","request_seq":"#])?;
    add_all(body, &[word_at(text, from.saturating_add(3)), r#","seq":"#])?;
    add_all(body, &[word_at(text, from.saturating_add(1))])?;
    add_all(body, &[r#","success":false,"type":"response"}"#])
}

/// Appends the request for a terminal.
fn add_terminal(body: &mut String, text: &str) -> Result<(), AllocError> {
    add_all(
        body,
        &[
            r#"{"arguments":{"args":["recorded"],"cwd":"/","kind":"integrated","title":"recorded"},"#,
            r#""command":"runInTerminal","seq":"#,
            word_at(text, 2),
            r#","type":"request"}"#,
        ],
    )
}

/// The failure with a name.
fn failure_named(
    name: &str,
) -> Option<&'static (&'static str, &'static str, &'static str, &'static str)> {
    FAILURES.iter().find(|failure| failure.0 == name)
}

/// Appends the body that a text stands for.
fn add_body(body: &mut String, text: &str) -> Result<(), AllocError> {
    let name = word_at(text, 0);
    if name == "capabilities" {
        return add_capabilities(body, text);
    }
    if name == "terminal" {
        return add_terminal(body, text);
    }
    match failure_named(name) {
        Some(failure) if failure.3.is_empty() => add_failure(body, text, failure, 1),
        Some(failure) => add_failure(body, text, failure, 2),
        None => body.push_str(text),
    }
}

/// The body that a text stands for.
pub fn body_of(alloc: Global, text: &str) -> Result<String, AllocError> {
    let mut body = String::new(alloc);
    match add_body(&mut body, text) {
        Ok(()) => Ok(body),
        Err(fault) => Err(fault),
    }
}

/// The frame of a body.
pub fn frame_of(alloc: Global, body: &str) -> Result<Vec<u8>, AllocError> {
    let mut frame = Vec::new(alloc);
    match write_frame(&mut frame, body.as_bytes()) {
        Ok(()) => Ok(frame),
        Err(fault) => Err(fault),
    }
}

/// The frame of a body and its length. Where pieces have any size, the first byte of another frame stands behind it.
pub fn frame_with_next(
    alloc: Global,
    body: &str,
    size: usize,
) -> Result<(Vec<u8>, usize), AllocError> {
    let mut frame = frame_of(alloc, body)?;
    let count = frame.len();
    if size == usize::MAX {
        frame.push(b'C')?;
    }
    Ok((frame, count))
}

/// Whether a body is a request, as rows write one.
pub fn is_request(body: &str) -> bool {
    body.contains(r#""type":"request""#)
}

/// Whether a body is a response.
pub fn is_response(body: &str) -> bool {
    body.contains(r#""type":"response""#)
}
