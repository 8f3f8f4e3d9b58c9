//! What streams give that are cut once, with values worked out by hand.

use crate::checks::check;
use dap_frame::{End, FrameFault, Frames, Limits, Refusal, write_frame};
use std::alloc::{AllocError, Global};
use std::process::Abort;

/// How many bodies came that are as they should be, and how many others.
#[derive(Clone, Copy, PartialEq, Eq)]
pub(crate) struct Bodies {
    pub(crate) wanted: usize,
    pub(crate) others: usize,
}

/// None of either.
pub(crate) const NONE: Bodies = Bodies {
    wanted: 0,
    others: 0,
};

/// Counts the body that is ready, and releases it.
fn count(frames: &mut Frames, body: &[u8], bodies: &mut Bodies) {
    if matches!(frames.body(), Some(found) if found == body) {
        bodies.wanted = bodies.wanted.saturating_add(1);
    } else {
        bodies.others = bodies.others.saturating_add(1);
    }
    frames.release();
}

/// Feeds a piece up to a fault, and counts the bodies that it completes.
pub(crate) fn feed_all(
    frames: &mut Frames,
    piece: &[u8],
    body: &[u8],
    bodies: &mut Bodies,
) -> Option<FrameFault> {
    let mut rest = piece;
    for _ in 0..piece.len() {
        if rest.is_empty() {
            break;
        }
        let fed = match frames.feed(rest) {
            Ok(fed) => fed,
            Err(fault) => return Some(fault),
        };
        if fed.ready {
            count(frames, body, bodies);
        }
        rest = rest.split_at(fed.used).1;
    }
    None
}

/// A reader with these limits, if they are in their ranges and there is memory.
pub(crate) fn opened(alloc: Global, limits: &Option<Limits>) -> Option<Frames> {
    match limits {
        Some(limits) => Frames::open(alloc, limits).ok(),
        None => None,
    }
}

pub(crate) fn limits(h: u64, b: u64) -> Option<Limits> {
    match Limits::new(h, b, 64, 65536, 4096, 9007199254740991, 2147483647) {
        Ok(limits) => Some(limits),
        Err(_) => None,
    }
}

/// What is seen of a reader after a stream.
#[derive(Clone, Copy, PartialEq, Eq)]
pub(crate) struct Seen {
    pub(crate) fault: Option<FrameFault>,
    used: u64,
    held: usize,
    pub(crate) end: End,
    pub(crate) bodies: Bodies,
}

/// A refusal at this offset, after so many bytes and bodies.
fn refused(cause: Refusal, offset: u64, used: u64, wanted: usize) -> Seen {
    Seen {
        fault: Some(FrameFault { cause, offset }),
        used,
        held: 0,
        end: End::Refused,
        bodies: Bodies { wanted, others: 0 },
    }
}

/// What is seen after a stream that is cut once, after so many bytes, and each of whose bodies should be this one.
pub(crate) fn seen_of(frames: &mut Frames, stream: &[u8], cut: usize, body: &[u8]) -> Seen {
    let (front, back) = stream.split_at(cut.min(stream.len()));
    let mut bodies = NONE;
    let mut fault = feed_all(frames, front, body, &mut bodies);
    if fault.is_none() {
        fault = feed_all(frames, back, body, &mut bodies);
    }
    Seen {
        fault,
        used: frames.used(),
        held: frames.held(),
        end: frames.finish(),
        bodies,
    }
}

/// Whether this is seen of a stream that is cut once, and each of its bodies is this.
fn is_seen(
    alloc: Global,
    limits: &Option<Limits>,
    stream: &[u8],
    cut: usize,
    wanted: (Seen, &[u8]),
) -> bool {
    match opened(alloc, limits) {
        Some(mut frames) => {
            let seen = seen_of(&mut frames, stream, cut, wanted.1);
            drop(frames);
            seen == wanted.0
        }
        None => false,
    }
}

/// Fails the test where something else is seen for one of the places at which the stream may be cut.
fn expect(
    rt: &impl Abort,
    alloc: Global,
    limits: &Option<Limits>,
    stream: &[u8],
    wanted: (Seen, &[u8]),
) {
    for cut in 0..stream.len() {
        let is_so = is_seen(alloc, limits, stream, cut, wanted);
        check(rt, is_so, format_args!("cut at {cut}"));
    }
}

/// The limits of a header block and of a body, a header block with what follows, why it is refused, and after how many bytes.
static REFUSALS: [(u64, u64, &[u8], Refusal, u64); 7] = [
    (
        8192,
        4194304,
        b"Content-Length: 2\r\nContent-Length: 2\r\n\r\n{}x",
        Refusal::TwoLengths,
        40,
    ),
    (8192, 4194304, b"\r\n\r\n{}x", Refusal::BadHeader, 4),
    (8192, 4194304, b"A: b\r\n\r\n{}x", Refusal::NoLength, 8),
    (
        8192,
        4194304,
        b"Content-Length: 2x\r\n\r\n{}x",
        Refusal::BadLength,
        22,
    ),
    (
        128,
        4194304,
        b"Content-Length: 99999999999999999999\r\n\r\n{}x",
        Refusal::BodyTooLong,
        40,
    ),
    (
        128,
        4194304,
        b"Content-Length: 999999999999999999999999999999999999999999999999999999999999\r\n\r\n{}x",
        Refusal::BodyTooLong,
        80,
    ),
    (
        32,
        1024,
        b"Content-Length: 0000000000002\r\n\r\n{}x",
        Refusal::HeaderTooLong,
        32,
    ),
];

/// A refused header block, cut at each place: the cause, the offset and the bytes used.
#[test]
fn refusals(rt: HostRuntime) {
    for (h, b, stream, cause, used) in &REFUSALS {
        let wanted = (refused(*cause, 0, *used, 0), b"".as_slice());
        expect(&rt, rt.alloc(), &limits(*h, *b), stream, wanted);
    }
}

/// The limit of a header block, a header block with a body, the body, and the bytes of both.
static ACCEPTED: [(u64, &[u8], &[u8], u64); 4] = [
    (
        8192,
        b"X-Note: hi\r\ncontent-length:0046\r\n\r\n{\"seq\":1,\"type\":\"request\",\"command\":\"threads\"}",
        br#"{"seq":1,"type":"request","command":"threads"}"#,
        81,
    ),
    (
        8192,
        b"Content-Length: 46\r\n\r\n{\"seq\":1,\"type\":\"request\",\"command\":\"threads\"}",
        br#"{"seq":1,"type":"request","command":"threads"}"#,
        68,
    ),
    (32, b"Content-Length: 000000000002\r\n\r\n{}", b"{}", 34),
    (8192, b"Content-Length: 0\r\n\r\n", b"", 21),
];

/// Frames that are accepted, cut at each place: the bytes used and the body.
#[test]
fn accepted(rt: HostRuntime) {
    for (h, stream, body, used) in &ACCEPTED {
        let seen = Seen {
            fault: None,
            used: *used,
            held: 0,
            end: End::Clean,
            bodies: Bodies {
                wanted: 1,
                others: 0,
            },
        };
        expect(&rt, rt.alloc(), &limits(*h, 4194304), stream, (seen, body));
    }
}

/// A header block that is too long after a frame: its offset is where it starts, and what came before is delivered.
#[test]
fn header_too_long_after_a_frame(rt: HostRuntime) {
    let stream = b"Content-Length: 000000000002\r\n\r\n{}Content-Length: 0000000000002\r\n\r\n";
    let seen = refused(Refusal::HeaderTooLong, 34, 66, 1);
    expect(&rt, rt.alloc(), &limits(32, 1024), stream, (seen, b"{}"));
}

/// So many frames of a body, and what follows.
pub(crate) fn framed(
    alloc: Global,
    body: &[u8],
    times: usize,
    rest: &[u8],
) -> Result<Vec<u8>, AllocError> {
    let mut stream = Vec::new(alloc);
    for _frame in 0..times {
        write_frame(&mut stream, body)?;
    }
    stream.extend_from_slice(rest)?;
    Ok(stream)
}

/// Whether a body that is too long after a frame of 1048 bytes is refused, cut at this place.
fn is_refused_after_a_frame(alloc: Global, cut: usize) -> bool {
    let body = [b'a'; 1024];
    let seen = refused(Refusal::BodyTooLong, 1048, 1072, 1);
    match framed(alloc, &body, 1, b"Content-Length: 1025\r\n\r\n") {
        Ok(stream) => {
            stream.len() == 1072 && is_seen(alloc, &limits(8192, 1024), &stream, cut, (seen, &body))
        }
        Err(_) => false,
    }
}

/// A body that is too long after a frame, likewise.
#[test]
fn body_too_long_after_a_frame(rt: HostRuntime) {
    for cut in 0..1072 {
        check(&rt, is_refused_after_a_frame(rt.alloc(), cut), cut);
    }
}

pub(crate) static FRAME: &[u8; 68] =
    b"Content-Length: 46\r\n\r\n{\"seq\":1,\"type\":\"request\",\"command\":\"threads\"}";

/// How many bytes of `FRAME` come, how many are held then, and whether the end is clean.
static FRONTS: [(usize, usize, End); 5] = [
    (0, 0, End::Clean),
    (1, 1, End::Truncated),
    (20, 20, End::Truncated),
    (22, 0, End::Truncated),
    (67, 45, End::Truncated),
];

/// No bytes end clean; a frame that is cut short, in its block or in its body, does not.
#[test]
fn ends(rt: HostRuntime) {
    for (count, held, end) in &FRONTS {
        let (front, _) = FRAME.split_at((*count).min(68));
        let seen = Seen {
            fault: None,
            used: *count as u64,
            held: *held,
            end: *end,
            bodies: NONE,
        };
        for cut in 0..=front.len() {
            let usual = Some(Limits::usual());
            let is_so = is_seen(rt.alloc(), &usual, front, cut, (seen, b""));
            check(&rt, is_so, format_args!("{count} bytes, cut at {cut}"));
        }
    }
}
