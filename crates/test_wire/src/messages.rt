//! Messages that are read and written: rows from outside, and that each call answers where memory is ample.

use crate::checks::check;
use dap_envelope::{BodyFault, BodyRefusal, Kind, Message, read_message, write_message};
use std::alloc::{AllocError, Global};

/// Why a body is not read.
fn fault_of(alloc: Global, body: &[u8]) -> Option<BodyFault> {
    match read_message(alloc, body) {
        Ok(message) => {
            drop(message);
            None
        }
        Err(fault) => Some(fault),
    }
}

static REFUSED: [(&str, BodyRefusal); 27] = [
    ("", BodyRefusal::NotJson),
    (r#"{"seq":1"#, BodyRefusal::NotJson),
    (r#"{"seq":1,}"#, BodyRefusal::NotJson),
    (r#""\ud800""#, BodyRefusal::NotJson),
    // No float is as great as this number, also where nothing asks for it.
    (r#"{"x":1e999}"#, BodyRefusal::NotJson),
    ("[]", BodyRefusal::NotObject),
    ("null", BodyRefusal::NotObject),
    ("{}", BodyRefusal::BadSeq),
    (r#"{"seq":-1}"#, BodyRefusal::BadSeq),
    (r#"{"seq":-0}"#, BodyRefusal::BadSeq),
    (r#"{"seq":1.0}"#, BodyRefusal::BadSeq),
    (r#"{"seq":1e0}"#, BodyRefusal::BadSeq),
    (r#"{"seq":"1"}"#, BodyRefusal::BadSeq),
    (r#"{"seq":9007199254740992}"#, BodyRefusal::BadSeq),
    (r#"{"seq":18446744073709551616}"#, BodyRefusal::BadSeq),
    (r#"{"seq":1}"#, BodyRefusal::BadType),
    (r#"{"seq":1,"type":1}"#, BodyRefusal::BadType),
    (r#"{"seq":1,"type":null}"#, BodyRefusal::BadType),
    (r#"{"seq":1,"type":"request"}"#, BodyRefusal::BadCommand),
    (
        r#"{"seq":1,"type":"request","command":1}"#,
        BodyRefusal::BadCommand,
    ),
    (r#"{"seq":1,"type":"response"}"#, BodyRefusal::BadCommand),
    (
        r#"{"seq":1,"type":"response","command":"a"}"#,
        BodyRefusal::BadRequestSeq,
    ),
    (
        r#"{"seq":1,"type":"response","command":"a","request_seq":1.5,"success":1}"#,
        BodyRefusal::BadRequestSeq,
    ),
    (
        r#"{"seq":1,"type":"response","command":"a","request_seq":1,"success":1}"#,
        BodyRefusal::BadSuccess,
    ),
    (
        r#"{"seq":1,"type":"response","command":"a","request_seq":1,"success":true,"message":{}}"#,
        BodyRefusal::BadMessage,
    ),
    (r#"{"seq":1,"type":"event"}"#, BodyRefusal::BadEvent),
    (
        r#"{"seq":1,"type":"event","event":null}"#,
        BodyRefusal::BadEvent,
    ),
];

#[test]
fn tells_the_first_refusal(rt: HostRuntime) {
    for (body, refusal) in &REFUSED {
        let fault = fault_of(rt.alloc(), body.as_bytes());
        check(&rt, fault == Some(BodyFault::Refused(*refusal)), *body);
    }
}

#[test]
fn refuses_what_is_no_text(rt: HostRuntime) {
    let body = b"{\"seq\":1,\"type\":\"event\",\"event\":\"\xff\"}";
    let fault = fault_of(rt.alloc(), body);
    check(
        &rt,
        fault == Some(BodyFault::Refused(BodyRefusal::NotJson)),
        "no text",
    );
}

static WRITTEN: [(&str, &str); 8] = [
    (
        r#"{"seq":1,"type":"request","command":"threads"}"#,
        r#"{"command":"threads","seq":1,"type":"request"}"#,
    ),
    // `seq` last, unknown keys, and white space.
    (
        " {\"type\":\"request\", \"x\":[1.5,{}], \"command\":\"next\", \"arguments\":{\"threadId\":1}, \"seq\":0}\r\n",
        r#"{"arguments":{"threadId":1},"command":"next","seq":0,"type":"request"}"#,
    ),
    // `null` counts as absent.
    (
        r#"{"seq":2,"type":"request","command":"","arguments":null}"#,
        r#"{"command":"","seq":2,"type":"request"}"#,
    ),
    (
        r#"{"seq":9007199254740991,"type":"response","request_seq":1,"success":false,"command":"threads","message":null,"body":null}"#,
        r#"{"command":"threads","request_seq":1,"seq":9007199254740991,"success":false,"type":"response"}"#,
    ),
    (
        r#"{"seq":3,"type":"response","request_seq":2,"success":false,"command":"next","message":"notStopped","body":{"error":{"id":1,"format":"\u00e9\n"}}}"#,
        r#"{"body":{"error":{"format":"é\n","id":1}},"command":"next","message":"notStopped","request_seq":2,"seq":3,"success":false,"type":"response"}"#,
    ),
    (
        r#"{"seq":2,"type":"event","event":"a\u0007","body":-9223372036854775808}"#,
        r#"{"body":-9223372036854775808,"event":"a\u0007","seq":2,"type":"event"}"#,
    ),
    // A response's keys do not count in a message of another type.
    (
        r#"{"seq":3,"type":"x","success":1}"#,
        r#"{"seq":3,"type":"x"}"#,
    ),
    // Of two members with one key the last counts.
    (
        r#"{"seq":1,"seq":3,"type":"Request"}"#,
        r#"{"seq":3,"type":"Request"}"#,
    ),
];

/// Whether a message is plain and is written so; `None` where memory is wanting.
pub(crate) fn is_written(alloc: Global, message: &Message, text: &str) -> Option<bool> {
    if !message.plain() {
        return Some(false);
    }
    match write_message(alloc, message) {
        Ok(written) => Some(written.as_slice() == text.as_bytes()),
        Err(_) => None,
    }
}

/// Whether a body is read as a plain message that is written so; `None` where memory is wanting.
fn is_read(alloc: Global, body: &[u8], text: &str) -> Option<bool> {
    match read_message(alloc, body) {
        Ok(message) => {
            let is_so = is_written(alloc, &message, text);
            drop(message);
            is_so
        }
        Err(BodyFault::OutOfMemory) => None,
        Err(_) => Some(false),
    }
}

/// Each row is a body, and the text that the message is written as.
#[test]
fn reads_and_writes(rt: HostRuntime) {
    for (body, text) in &WRITTEN {
        let is_so = is_read(rt.alloc(), body.as_bytes(), text);
        check(&rt, is_so == Some(true), *body);
    }
}

/// Whether a body is read as a plain event or not, or why it is refused.
fn is_event(alloc: Global, body: &[u8], answer: Result<bool, BodyFault>) -> bool {
    match read_message(alloc, body) {
        Ok(message) => {
            let is_event = matches!(&message.kind, Kind::Event { .. });
            let plain = message.plain();
            drop(message);
            is_event && answer == Ok(plain)
        }
        Err(fault) => answer == Err(fault),
    }
}

/// A request whose command is so many characters of two bytes each, and the rest.
fn request(alloc: Global, times: usize, rest: &str) -> Result<String, AllocError> {
    let long = "é".repeat(alloc, times)?;
    format!(in alloc; r#"{{"seq":1,"type":"request","command":"{long}{rest}"}}"#)
}

/// Whether it is read, or refused so.
fn is_counted(alloc: Global, times: usize, rest: &str, fault: Option<BodyFault>) -> bool {
    match request(alloc, times, rest) {
        Ok(body) => fault_of(alloc, body.as_bytes()) == fault,
        Err(_) => false,
    }
}

static COMMANDS: [(usize, &str, Option<BodyFault>); 3] = [
    (32, "", None),
    (31, "ab", None),
    (32, "a", Some(BodyFault::Refused(BodyRefusal::BadCommand))),
];

#[test]
fn counts_a_command_in_bytes(rt: HostRuntime) {
    for (times, rest, fault) in &COMMANDS {
        let is_so = is_counted(rt.alloc(), *times, rest, *fault);
        check(&rt, is_so, format_args!("{times} {rest}"));
    }
}

/// The front of an object, so many arrays, one in another, with `middle` in the last, and the end of the object.
pub(crate) fn nested(
    alloc: Global,
    front: &str,
    times: usize,
    middle: &str,
) -> Result<String, AllocError> {
    let open = "[".repeat(alloc, times)?;
    let close = "]".repeat(alloc, times)?;
    format!(in alloc; "{front}{open}{middle}{close}}}")
}

/// Whether an event with such a body is read as a plain one or not, or refused so.
fn is_nested(alloc: Global, times: usize, middle: &str, answer: Result<bool, BodyFault>) -> bool {
    let front = r#"{"seq":1,"type":"event","event":"e","body":"#;
    match nested(alloc, front, times, middle) {
        Ok(body) => is_event(alloc, body.as_bytes(), answer),
        Err(_) => false,
    }
}

/// The object and so many arrays: 127 levels are read, and 128 are no JSON. A tree of 120 is
/// plain, and one of 121 is not; nor is one with a float.
static NESTED: [(usize, &str, Result<bool, BodyFault>); 6] = [
    (120, "", Ok(true)),
    (119, "[]", Ok(true)),
    (121, "", Ok(false)),
    (126, "", Ok(false)),
    (1, "1.5", Ok(false)),
    (127, "", Err(BodyFault::Refused(BodyRefusal::NotJson))),
];

#[test]
fn counts_how_deep_a_body_nests(rt: HostRuntime) {
    for (times, middle, answer) in &NESTED {
        let is_so = is_nested(rt.alloc(), *times, middle, *answer);
        check(&rt, is_so, *times);
    }
}

/// For `rt try --test --fail-alloc N`: the example's answer, or want of memory.
#[test]
fn answers_or_runs_out_of_memory(rt: HostRuntime) {
    let body =
        br#"{"seq":3,"type":"response","request_seq":2,"success":false,"command":"next","message":"m","body":{"a":["b"]}}"#;
    let text =
        r#"{"body":{"a":["b"]},"command":"next","message":"m","request_seq":2,"seq":3,"success":false,"type":"response"}"#;
    let is_so = is_read(rt.alloc(), body, text);
    check(&rt, is_so != Some(false), "answer");
}
