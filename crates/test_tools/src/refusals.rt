//! What `serve` refuses: frames, bodies and messages behind `initialize`, each after its answer.

use crate::serving::{
    Terms, frames_of, is_served, is_served_in, leaves, pieces, with_bytes_between,
};
use crate::told::{expect_none, is_told};
use dap_adapter::{AdapterFault, ServeFault};
use dap_envelope::BodyRefusal;
use dap_frame::{FrameFault, Limits, Refusal, write_frame};
use dap_tool::ToolFault;
use std::alloc::Global;
use std::test::Fail;
use test_kit::samples::{INITIALIZE, answer_to_initialize, limits};

/// Whether a stream that begins with `initialize` is refused after its answer, in pieces of some sizes, with this line.
fn is_refused(
    alloc: Global,
    limits: Limits,
    input: &[u8],
    fault: AdapterFault,
    line: &[u8],
) -> bool {
    let told = ToolFault::Serve(ServeFault::Adapter(fault));
    is_served_in(alloc, limits, input, [1, 100, 4096], fault) && is_told(alloc, &told, 3, line)
}

static BAD_FRAMES: [(&[u8], Refusal, &[u8]); 6] = [
    (
        b"aaaaaaaaaaaaaaaaaaaaaaaaaaaaaaaaaaaaaaaaaaaaaaaaaaaaaaaaaaaaaaaa",
        Refusal::HeaderTooLong,
        b"dap: HeaderTooLong at 103\n",
    ),
    (b"\r\n\r\n", Refusal::BadHeader, b"dap: BadHeader at 103\n"),
    (
        b"A: b\r\n\r\n",
        Refusal::NoLength,
        b"dap: NoLength at 103\n",
    ),
    (
        b"Content-Length: 2\r\nContent-Length: 2\r\n\r\n",
        Refusal::TwoLengths,
        b"dap: TwoLengths at 103\n",
    ),
    (
        b"Content-Length: 2x\r\n\r\n",
        Refusal::BadLength,
        b"dap: BadLength at 103\n",
    ),
    (
        b"Content-Length: 1025\r\n\r\n",
        Refusal::BodyTooLong,
        b"dap: BodyTooLong at 103\n",
    ),
];

fn is_bad_frame(alloc: Global, limits: Limits, bad: &[u8], cause: Refusal, line: &[u8]) -> bool {
    let fault = AdapterFault::Frame(FrameFault { cause, offset: 103 });
    match with_bytes_between(alloc, INITIALIZE, bad) {
        Some(input) => is_refused(alloc, limits, &input, fault, line),
        None => false,
    }
}

fn other_frame(alloc: Global, limits: Limits) -> Option<usize> {
    for (place, (bad, refusal, line)) in BAD_FRAMES.iter().enumerate() {
        if !is_bad_frame(alloc, limits, bad, *refusal, line) {
            return Some(place);
        }
    }
    None
}

/// Each refusal of framing comes after the answers to what stood before, with its offset, its line and status 3.
#[test]
fn refused_frames(rt: HostRuntime) -> Result<(), Fail> {
    let limits = limits(64, 1024, 64, 1, 1, 10, 1)?;
    expect_none(&rt, other_frame(rt.alloc(), limits))
}

static BAD_BODIES: [(&[u8], BodyRefusal, &[u8]); 12] = [
    (b"", BodyRefusal::NotJson, b"dap: NotJson at 103\n"),
    (b"[]", BodyRefusal::NotObject, b"dap: NotObject at 103\n"),
    (
        br#"{"seq":-1}"#,
        BodyRefusal::BadSeq,
        b"dap: BadSeq at 103\n",
    ),
    (
        br#"{"seq":1.0}"#,
        BodyRefusal::BadSeq,
        b"dap: BadSeq at 103\n",
    ),
    (
        br#"{"seq":9007199254740992}"#,
        BodyRefusal::BadSeq,
        b"dap: BadSeq at 103\n",
    ),
    (
        br#"{"seq":1}"#,
        BodyRefusal::BadType,
        b"dap: BadType at 103\n",
    ),
    (
        br#"{"seq":1,"type":"request"}"#,
        BodyRefusal::BadCommand,
        b"dap: BadCommand at 103\n",
    ),
    (
        br#"{"seq":1,"type":"response","command":"x"}"#,
        BodyRefusal::BadRequestSeq,
        b"dap: BadRequestSeq at 103\n",
    ),
    (
        br#"{"seq":1,"type":"response","command":"x","request_seq":1}"#,
        BodyRefusal::BadSuccess,
        b"dap: BadSuccess at 103\n",
    ),
    (
        br#"{"seq":1,"type":"event"}"#,
        BodyRefusal::BadEvent,
        b"dap: BadEvent at 103\n",
    ),
    (
        br#"{"seq":1,"type":"response","command":"x","request_seq":1,"success":true,"message":1}"#,
        BodyRefusal::BadMessage,
        b"dap: BadMessage at 103\n",
    ),
    (b"\xff", BodyRefusal::NotJson, b"dap: NotJson at 103\n"),
];

fn is_bad_body(alloc: Global, body: &[u8], cause: BodyRefusal, line: &[u8]) -> bool {
    let fault = AdapterFault::Body { cause, offset: 103 };
    match frames_of(alloc, &[INITIALIZE, body, INITIALIZE]) {
        Some(input) => is_refused(alloc, Limits::usual(), &input, fault, line),
        None => false,
    }
}

fn other_body(alloc: Global) -> Option<usize> {
    for (place, (body, cause, line)) in BAD_BODIES.iter().enumerate() {
        if !is_bad_body(alloc, body, *cause, line) {
            return Some(place);
        }
    }
    None
}

/// Each refusal of a body, likewise.
#[test]
fn refused_bodies(rt: HostRuntime) -> Result<(), Fail> {
    expect_none(&rt, other_body(rt.alloc()))
}

static SECOND: [(&[u8], AdapterFault); 2] = [
    (
        br#"{"seq":2,"type":"response","request_seq":1,"success":true,"command":"threads"}"#,
        AdapterFault::Unmatched { request_seq: 1 },
    ),
    (
        br#"{"seq":2,"type":"request","command":"initialize"}"#,
        AdapterFault::SeqExhausted,
    ),
];

fn is_second(alloc: Global, limits: Limits, second: &[u8], fault: AdapterFault) -> bool {
    match frames_of(alloc, &[INITIALIZE, second]) {
        Some(input) => is_served_in(alloc, limits, &input, [1, 60, 4096], fault),
        None => false,
    }
}

fn other_second(alloc: Global, limits: Limits) -> Option<usize> {
    for (place, (second, fault)) in SECOND.iter().enumerate() {
        if !is_second(alloc, limits, second, *fault) {
            return Some(place);
        }
    }
    None
}

/// A response that answers nothing, and the answer for which no seq is left: what came before is written.
#[test]
fn faults_within_a_session(rt: HostRuntime) -> Result<(), Fail> {
    let limits = limits(8192, 1024, 2, 1, 1, 2, 1)?;
    expect_none(&rt, other_second(rt.alloc(), limits))
}

/// Bytes one by one.
fn one_by_one() -> Terms {
    Terms {
        calls_left: 1000,
        max_reads: 1000,
        ..pieces(1)
    }
}

/// Whether a frame behind `initialize` is refused, and what comes after it is left.
fn is_left(alloc: Global, input: &[u8]) -> bool {
    let stream = (input, one_by_one());
    is_served_first(alloc, stream) && leaves(alloc, stream, input.len().saturating_sub(111))
}

/// Whether the frame is refused once `initialize` is answered.
fn is_served_first(alloc: Global, stream: (&[u8], Terms)) -> bool {
    let end = Err(ServeFault::Adapter(AdapterFault::Frame(FrameFault {
        cause: Refusal::NoLength,
        offset: 103,
    })));
    match answer_to_initialize(alloc) {
        Some(answer) => is_served(alloc, Limits::usual(), stream, end, &answer),
        None => false,
    }
}

fn reads_no_more(alloc: Global) -> bool {
    let mut input = Vec::new(alloc);
    write_frame(&mut input, INITIALIZE).is_ok()
        && input
            .extend_from_slice(b"A: b\r\n\r\nContent-Length: 2\r\n\r\n{}")
            .is_ok()
        && is_left(alloc, &input)
}

/// After a refusal nothing more is read: not a byte, where the bytes come one by one.
#[test]
fn reads_no_more_after_a_refusal(rt: HostRuntime) {
    assert!(rt; reads_no_more(rt.alloc()));
}
