//! Events that whoever holds an adapter tells by their names: when they are told, and why not.

use dap_adapter::{Adapter, EmitFault, first_body};
use dap_envelope::is_plain_tree;
use dap_frame::{LimitFault, Limits};
use dap_json::{Tree, parse};
use dap_replay::Recorded;
use std::alloc::{AllocError, Global};
use std::test::Fail;
use test_kit::samples::RECORDING;

const INITIALIZE: &str = r#"{"seq":1,"type":"request","command":"initialize"}"#;

const DISCONNECT: &str = r#"{"seq":2,"type":"request","command":"disconnect"}"#;

/// What comes before, an event with its body, and the message that comes of it, or why none does.
static ROWS: [(&[&str], &str, &str, &str); 12] = [
    (&[], "module", "", "WrongPhase"),
    (
        &[INITIALIZE],
        "module",
        r#"{"reason":"new","module":{"id":1,"name":"libc"}}"#,
        r#"{"body":{"module":{"id":1,"name":"libc"},"reason":"new"},"event":"module","seq":3,"type":"event"}"#,
    ),
    (
        &[INITIALIZE],
        "progressEnd",
        "",
        r#"{"event":"progressEnd","seq":3,"type":"event"}"#,
    ),
    (
        &[INITIALIZE],
        "",
        "7",
        r#"{"body":7,"event":"","seq":3,"type":"event"}"#,
    ),
    (
        &[INITIALIZE],
        "output",
        r#"{"output":"Hello"}"#,
        r#"{"body":{"output":"Hello"},"event":"output","seq":3,"type":"event"}"#,
    ),
    (&[INITIALIZE], "initialized", "", "Reserved"),
    (
        &[INITIALIZE],
        "stopped",
        r#"{"reason":"step","threadId":1}"#,
        "Reserved",
    ),
    (&[INITIALIZE], "continued", "", "Reserved"),
    (&[INITIALIZE], "exited", "", "Reserved"),
    (&[INITIALIZE], "terminated", "", "Reserved"),
    (&[INITIALIZE], "capabilities", "", "Reserved"),
    (&[INITIALIZE, DISCONNECT], "module", "", "WrongPhase"),
];

fn name_of(fault: EmitFault) -> &'static str {
    match fault {
        EmitFault::Closed => "Closed",
        EmitFault::WrongPhase => "WrongPhase",
        EmitFault::Reserved => "Reserved",
        EmitFault::TooLarge => "TooLarge",
        EmitFault::SeqExhausted => "SeqExhausted",
        EmitFault::OutOfMemory => "OutOfMemory",
    }
}

/// An adapter to which these messages came.
fn adapter_after(alloc: Global, limits: Limits, messages: &[&str]) -> Option<Adapter<Recorded>> {
    let debuggee = Recorded::read(alloc, RECORDING).ok()?;
    let mut adapter = Adapter::open(alloc, limits, debuggee).ok()?;
    for message in messages {
        let mut out = Vec::new(alloc);
        adapter
            .answer_body(alloc, (*message).as_bytes(), &mut out)
            .ok()?;
    }
    Some(adapter)
}

/// What is appended of an event with this text as its body, or with none where that is no JSON; or why it is not told.
fn told(
    alloc: Global,
    adapter: &mut Adapter<Recorded>,
    event: &str,
    body: &str,
) -> Result<Vec<u8>, &'static str> {
    let body = match parse(alloc, body.as_bytes()) {
        Ok(value) => Some(Tree::new(value)),
        Err(_) => None,
    };
    if !is_plain_tree(&body) {
        return Err("not plain");
    }
    let mut out = Vec::new(alloc);
    match adapter.emit(alloc, event, &body, &mut out) {
        Ok(()) => Ok(out),
        Err(fault) => Err(name_of(fault)),
    }
}

/// Whether that is just one message, of this text, or it is not told for the reason of this name.
fn is(told: Result<Vec<u8>, &'static str>, wanted: &str) -> bool {
    match told {
        Ok(out) => match first_body(&out) {
            Some((body, rest)) => body == wanted.as_bytes() && rest.is_empty(),
            None => false,
        },
        Err(why) => why == wanted,
    }
}

#[test]
fn events_are_told_by_their_names(rt: HostRuntime) -> Result<(), Fail> {
    for row in &ROWS {
        let (before, event, body, wanted) = *row;
        let Some(mut adapter) = adapter_after(rt.alloc(), Limits::usual(), before) else {
            return Err(Fail::from("no adapter"));
        };
        assert!(rt; is(told(rt.alloc(), &mut adapter, event, body), wanted));
    }
    Ok(())
}

/// A body that is a text of so many bytes.
pub(crate) fn text_of(alloc: Global, bytes: usize) -> Result<String, AllocError> {
    let mut text = String::new(alloc);
    text.push('"')?;
    for _ in 0..bytes {
        text.push('x')?;
    }
    text.push('"')?;
    Ok(text)
}

/// Whether an event with such a body is told in 1024 bytes, or is not for the reason of this name.
fn is_told_in(alloc: Global, adapter: &mut Adapter<Recorded>, bytes: usize, wanted: &str) -> bool {
    let Ok(body) = text_of(alloc, bytes) else {
        return false;
    };
    match told(alloc, adapter, "m", body.as_str()) {
        Ok(out) => match first_body(&out) {
            Some((body, _rest)) => wanted == "told" && body.len() == 1024,
            None => false,
        },
        Err(why) => why == wanted,
    }
}

/// At an adapter whose bodies have at most 1024 bytes, and which has three own numbers. Around the text of the event's body,
/// `{"body":"","event":"m","seq":3,"type":"event"}`, are 46 bytes.
#[test]
fn events_keep_to_the_limits(rt: HostRuntime) -> Result<(), Fail> {
    let Ok(limits) = Limits::usual().with(LimitFault::Body, 1024) else {
        return Err(Fail::from("limits that are refused"));
    };
    let Ok(limits) = limits.with(LimitFault::Seq, 3) else {
        return Err(Fail::from("limits that are refused"));
    };
    let Some(mut adapter) = adapter_after(rt.alloc(), limits, &[INITIALIZE]) else {
        return Err(Fail::from("no adapter"));
    };
    assert!(rt; is_told_in(rt.alloc(), &mut adapter, 979, "TooLarge"));
    assert!(rt; is_told_in(rt.alloc(), &mut adapter, 978, "told"));
    assert!(rt; is_told_in(rt.alloc(), &mut adapter, 978, "SeqExhausted"));
    assert!(rt; is_told_in(rt.alloc(), &mut adapter, 979, "TooLarge"));
    Ok(())
}

#[test]
fn a_closed_adapter_tells_no_event(rt: HostRuntime) -> Result<(), Fail> {
    let Some(mut adapter) = adapter_after(rt.alloc(), Limits::usual(), &[INITIALIZE]) else {
        return Err(Fail::from("no adapter"));
    };
    assert!(rt; adapter.take(rt.alloc(), b"no header\r\n\r\n").is_err());
    assert!(rt; is(told(rt.alloc(), &mut adapter, "module", ""), "Closed"));
    Ok(())
}
