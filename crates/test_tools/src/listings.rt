//! `show`: what is listed of a stream, and how its end or its refusal is told.

use crate::serving::{frames_of, with_bytes_between};
use crate::told::{expect_none, is_told};
use dap_envelope::{BodyRefusal, read_heading, read_message};
use dap_frame::{End, FrameFault, Limits, Refusal};
use dap_json::object_reader::Scratch;
use dap_tool::{ShowFault, ToolFault, show};
use std::alloc::Global;
use std::test::Fail;
use test_kit::samples::{THREADS, limits};

/// A request, a failed response, an event whose name has a control character, and a message of another type.
pub(crate) static FOUR: [&[u8]; 4] = [
    br#"{"seq":1,"type":"request","command":"threads"}"#,
    br#"{"seq":1,"type":"response","request_seq":1,"success":false,"command":"threads"}"#,
    br#"{"seq":2,"type":"event","event":"a\u0007"}"#,
    br#"{"seq":3,"type":"x"}"#,
];

/// Where each of their frames ends, and the lines of those up to there.
static LISTED: [(usize, &[u8]); 5] = [
    (0, b""),
    (68, b"0 1 request threads\n"),
    (
        169,
        b"0 1 request threads\n68 1 response threads 1 failed\n",
    ),
    (
        233,
        b"0 1 request threads\n68 1 response threads 1 failed\n169 2 event a?\n",
    ),
    (
        275,
        b"0 1 request threads\n68 1 response threads 1 failed\n169 2 event a?\n233 3 other x\n",
    ),
];

/// The last of these ends that so many bytes reach, with its lines.
fn reached(count: usize) -> (usize, &'static [u8]) {
    let mut last: (usize, &[u8]) = (0, b"");
    for row in &LISTED {
        if row.0 <= count {
            last = *row;
        }
    }
    last
}

/// Whether a listing ends so, and has these lines.
fn is_listed(
    alloc: Global,
    limits: Limits,
    input: &[u8],
    end: Result<End, ShowFault>,
    lines: &[u8],
) -> bool {
    let mut listing = Vec::new(alloc);
    let told = show(alloc, input, limits, &mut listing);
    told == end && listing.as_slice() == lines
}

/// Whether the first so many bytes are listed up to their last whole frame.
fn is_front_listed(alloc: Global, input: &[u8], count: usize) -> bool {
    let (front, _) = input.split_at(count.min(input.len()));
    let (last, lines) = reached(count);
    let end = if last == count {
        End::Clean
    } else {
        End::Truncated
    };
    is_listed(alloc, Limits::usual(), front, Ok(end), lines)
}

/// How many bytes are listed otherwise; another length where that is the frames'.
fn other_front(alloc: Global, input: &[u8]) -> Option<usize> {
    if input.len() != 275 {
        return Some(input.len());
    }
    for count in 0..276 {
        if !is_front_listed(alloc, input, count) {
            return Some(count);
        }
    }
    None
}

fn other_of_four(alloc: Global) -> Option<usize> {
    match frames_of(alloc, &FOUR) {
        Some(input) => other_front(alloc, &input),
        None => Some(0),
    }
}

/// Each kind of message has its line, and the end is clean after each frame and truncated within one.
#[test]
fn each_kind_has_its_line(rt: HostRuntime) -> Result<(), Fail> {
    expect_none(&rt, other_of_four(rt.alloc()))
}

/// Whether a heading is read without a tree, and the tree says the same.
fn needs_no_tree(alloc: Global, body: &[u8]) -> bool {
    let mut scratch = Scratch::new(alloc);
    match read_message(alloc, body) {
        Ok(message) => read_heading(&mut scratch, body) == Some(message.heading()),
        Err(_) => false,
    }
}

static CATCHES: [(&[u8], &[u8]); 12] = [
    // of equal keys the last counts
    (
        br#"{"seq":1,"type":"event","event":"a","event":"b","seq":2}"#,
        b"0 2 event b\n",
    ),
    // keys within a value are not those of the message
    (
        br#"{"body":{"seq":9,"type":"x","event":[{"event":"c"}]},"seq":1,"type":"event","event":"a"}"#,
        b"0 1 event a\n",
    ),
    // an escaped key is that key
    (
        br#"{"s\u0065q":1,"type":"\u0065vent","event":"\t\u007f"}"#,
        b"0 1 event ??\n",
    ),
    // white space, and numbers of every kind where none counts
    (
        b" { \"a\" : [ -1 , 1.5e3, -0.0, 18446744073709551616, [], {} , null ] ,\n\"seq\" : 7 , \"type\" : \"y\" } ",
        b"0 7 other y\n",
    ),
    // a reason that is null or a text, which is not listed
    (
        br#"{"seq":1,"type":"response","request_seq":5,"success":true,"command":"","message":null}"#,
        b"0 1 response  5 ok\n",
    ),
    (
        br#"{"message":"m","seq":1,"type":"response","request_seq":5,"success":true,"command":"c"}"#,
        b"0 1 response c 5 ok\n",
    ),
    (
        br#"{"message":"m\nn","seq":1,"type":"response","request_seq":5,"success":false,"command":"c"}"#,
        b"0 1 response c 5 failed\n",
    ),
    (
        br#"{"seq":1,"type":"response","request_seq":5,"success":false,"command":"c","message":null}"#,
        b"0 1 response c 5 failed\n",
    ),
    // a command of 64 bytes
    (
        br#"{"seq":1,"type":"request","command":"aaaaaaaaaaaaaaaaaaaaaaaaaaaaaaaaaaaaaaaaaaaaaaaaaaaaaaaaaaaaaaaa"}"#,
        b"0 1 request aaaaaaaaaaaaaaaaaaaaaaaaaaaaaaaaaaaaaaaaaaaaaaaaaaaaaaaaaaaaaaaa\n",
    ),
    // the greatest seq
    (
        br#"{"seq":9007199254740991,"type":"request","command":"c","arguments":null}"#,
        b"0 9007199254740991 request c\n",
    ),
    // a name that is more than ASCII
    (
        b"{\"seq\":0,\"type\":\"event\",\"event\":\"\\u00e9\xc3\xa9\"}",
        b"0 0 event \xc3\xa9\xc3\xa9\n",
    ),
    // a wide name
    (
        br#"{"seq":0,"type":"event","event":"\ud83d\ude00"}"#,
        b"0 0 event \xf0\x9f\x98\x80\n",
    ),
];

/// Whether a body is listed with this line.
fn is_caught(alloc: Global, body: &[u8], wanted: &[u8]) -> bool {
    match frames_of(alloc, &[body]) {
        Some(input) => is_listed(alloc, Limits::usual(), &input, Ok(End::Clean), wanted),
        None => false,
    }
}

fn other_catch(alloc: Global) -> Option<usize> {
    for (place, (body, wanted)) in CATCHES.iter().enumerate() {
        if !needs_no_tree(alloc, body) || !is_caught(alloc, body, wanted) {
            return Some(place);
        }
    }
    None
}

/// Bodies that a quick reader could take for others, with what they are.
#[test]
fn bodies_with_a_catch(rt: HostRuntime) -> Result<(), Fail> {
    expect_none(&rt, other_catch(rt.alloc()))
}

/// Whether what comes after a request is refused, and that has status 3 and this line.
fn is_refused(alloc: Global, limits: Limits, input: &[u8], fault: ShowFault, line: &[u8]) -> bool {
    is_listed(alloc, limits, input, Err(fault), b"0 1 request threads\n")
        && is_told(alloc, &ToolFault::Show(fault), 3, line)
}

static BAD_FRAMES: [(&[u8], Refusal, &[u8]); 6] = [
    (
        b"aaaaaaaaaaaaaaaaaaaaaaaaaaaaaaaaaaaaaaaaaaaaaaaaaaaaaaaaaaaaaaaa",
        Refusal::HeaderTooLong,
        b"dap: HeaderTooLong at 68\n",
    ),
    (b"\r\n\r\n", Refusal::BadHeader, b"dap: BadHeader at 68\n"),
    (b"A: b\r\n\r\n", Refusal::NoLength, b"dap: NoLength at 68\n"),
    (
        b"Content-Length: 2\r\nContent-Length: 2\r\n\r\n",
        Refusal::TwoLengths,
        b"dap: TwoLengths at 68\n",
    ),
    (
        b"Content-Length: 2x\r\n\r\n",
        Refusal::BadLength,
        b"dap: BadLength at 68\n",
    ),
    (
        b"Content-Length: 1025\r\n\r\n",
        Refusal::BodyTooLong,
        b"dap: BodyTooLong at 68\n",
    ),
];

fn is_bad_frame(alloc: Global, limits: Limits, bad: &[u8], cause: Refusal, line: &[u8]) -> bool {
    let fault = ShowFault::Frame(FrameFault { cause, offset: 68 });
    match with_bytes_between(alloc, THREADS, bad) {
        Some(input) => is_refused(alloc, limits, &input, fault, line),
        None => false,
    }
}

fn other_frame(alloc: Global, limits: Limits) -> Option<usize> {
    for (place, (bad, refusal, line)) in BAD_FRAMES.iter().enumerate() {
        if !is_bad_frame(alloc, limits, bad, *refusal, line) {
            return Some(place);
        }
    }
    None
}

/// Each refusal of framing: what stands before it is listed; its line has the offset of the frame; the status is 3.
#[test]
fn listing_to_a_refused_frame(rt: HostRuntime) -> Result<(), Fail> {
    let limits = limits(64, 1024, 2, 1, 1, 1, 1)?;
    expect_none(&rt, other_frame(rt.alloc(), limits))
}

static BAD_BODIES: [(&[u8], BodyRefusal, &[u8]); 16] = [
    (b"", BodyRefusal::NotJson, b"dap: NotJson at 68\n"),
    (b"\xff", BodyRefusal::NotJson, b"dap: NotJson at 68\n"),
    (
        br#"{"seq":1,"type":"x"} {}"#,
        BodyRefusal::NotJson,
        b"dap: NotJson at 68\n",
    ),
    (
        br#"{"seq":1,"type":"x","a":[1e999]}"#,
        BodyRefusal::NotJson,
        b"dap: NotJson at 68\n",
    ),
    (
        br#"{"seq":1,"type":"x","a":[1,]}"#,
        BodyRefusal::NotJson,
        b"dap: NotJson at 68\n",
    ),
    (b"[]", BodyRefusal::NotObject, b"dap: NotObject at 68\n"),
    (
        br#"{"seq":-1}"#,
        BodyRefusal::BadSeq,
        b"dap: BadSeq at 68\n",
    ),
    (
        br#"{"seq":1.0}"#,
        BodyRefusal::BadSeq,
        b"dap: BadSeq at 68\n",
    ),
    (
        br#"{"seq":9007199254740992}"#,
        BodyRefusal::BadSeq,
        b"dap: BadSeq at 68\n",
    ),
    (
        br#"{"seq":1}"#,
        BodyRefusal::BadType,
        b"dap: BadType at 68\n",
    ),
    (
        br#"{"seq":1,"type":"request"}"#,
        BodyRefusal::BadCommand,
        b"dap: BadCommand at 68\n",
    ),
    (
        br#"{"seq":1,"type":"request","command":"aaaaaaaaaaaaaaaaaaaaaaaaaaaaaaaaaaaaaaaaaaaaaaaaaaaaaaaaaaaaaaaaa"}"#,
        BodyRefusal::BadCommand,
        b"dap: BadCommand at 68\n",
    ),
    (
        br#"{"seq":1,"type":"response","command":"x"}"#,
        BodyRefusal::BadRequestSeq,
        b"dap: BadRequestSeq at 68\n",
    ),
    (
        br#"{"seq":1,"type":"response","command":"x","request_seq":1,"success":0}"#,
        BodyRefusal::BadSuccess,
        b"dap: BadSuccess at 68\n",
    ),
    (
        br#"{"seq":1,"type":"event"}"#,
        BodyRefusal::BadEvent,
        b"dap: BadEvent at 68\n",
    ),
    (
        br#"{"seq":1,"type":"response","command":"x","request_seq":1,"success":true,"message":1}"#,
        BodyRefusal::BadMessage,
        b"dap: BadMessage at 68\n",
    ),
];

fn is_bad_body(alloc: Global, body: &[u8], cause: BodyRefusal, line: &[u8]) -> bool {
    let Some(input) = frames_of(alloc, &[THREADS, body, THREADS]) else {
        return false;
    };
    // Before the body and the last frame, of 68 bytes.
    let body_offset = input.len().saturating_sub(68).saturating_sub(body.len());
    let fault = ShowFault::Body {
        cause,
        offset: 68,
        body_offset: body_offset as u64,
        body_length: body.len() as u64,
    };
    is_refused(alloc, Limits::usual(), &input, fault, line)
}

fn other_body(alloc: Global) -> Option<usize> {
    for (place, (body, cause, line)) in BAD_BODIES.iter().enumerate() {
        if !is_bad_body(alloc, body, *cause, line) {
            return Some(place);
        }
    }
    None
}

/// Each refusal of a body, likewise.
#[test]
fn listing_to_a_refused_body(rt: HostRuntime) -> Result<(), Fail> {
    expect_none(&rt, other_body(rt.alloc()))
}

/// Whether the line of `THREADS` is appended to what stands in a listing.
fn is_appended(alloc: Global, input: &[u8]) -> bool {
    let mut listing = Vec::new(alloc);
    listing.extend_from_slice(b"before\n").is_ok()
        && show(alloc, input, Limits::usual(), &mut listing) == Ok(End::Clean)
        && listing.as_slice() == b"before\n0 1 request threads\n".as_slice()
}

fn is_threads_appended(alloc: Global) -> bool {
    match frames_of(alloc, &[THREADS]) {
        Some(input) => is_appended(alloc, &input),
        None => false,
    }
}

/// What a tool appends to stays in front.
#[test]
fn a_listing_is_appended(rt: HostRuntime) {
    assert!(rt; is_threads_appended(rt.alloc()));
}
