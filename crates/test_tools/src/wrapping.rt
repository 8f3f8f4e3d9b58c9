//! `wrap`: the frames of a file with a body a line, and the first line that is refused.

use crate::serving::frames_of;
use crate::told::expect_none;
use dap_envelope::BodyRefusal;
use dap_frame::Limits;
use dap_tool::{WrapFault, wrap};
use std::alloc::Global;
use std::test::Fail;
use test_kit::samples::limits;

/// The 68 bytes of the frame of `THREADS`.
const THREADS_FRAME: &[u8; 68] =
    b"Content-Length: 46\r\n\r\n{\"seq\":1,\"type\":\"request\",\"command\":\"threads\"}";

/// Files with a body a line, and their frames.
static WRAPPED: [(&[u8], &[u8]); 9] = [
    (b"", b""),
    (b"\n\r\n\n", b""),
    (
        b"{\"seq\":1,\"type\":\"request\",\"command\":\"threads\"}\n",
        THREADS_FRAME,
    ),
    (
        br#"{"seq":1,"type":"request","command":"threads"}"#,
        THREADS_FRAME,
    ),
    (
        b"\r\n{\"seq\":1,\"type\":\"request\",\"command\":\"threads\"}\r\n\n",
        THREADS_FRAME,
    ),
    // A carriage return that no line feed follows is white space of JSON, and stays in the body.
    (
        b"{\"seq\":3,\"type\":\"x\"}\r",
        b"Content-Length: 21\r\n\r\n{\"seq\":3,\"type\":\"x\"}\r",
    ),
    // So does one before the one that is dropped.
    (
        b"{\"seq\":3,\"type\":\"x\"}\r\r\n",
        b"Content-Length: 21\r\n\r\n{\"seq\":3,\"type\":\"x\"}\r",
    ),
    // Nothing is written anew.
    (
        b" {\"type\":\"x\",\"x\":\"\\u0041\",\"seq\":3}\n",
        b"Content-Length: 34\r\n\r\n {\"type\":\"x\",\"x\":\"\\u0041\",\"seq\":3}",
    ),
    (
        b"{\"seq\":3,\"type\":\"x\"}\n{\"seq\":4,\"type\":\"x\"}",
        b"Content-Length: 20\r\n\r\n{\"seq\":3,\"type\":\"x\"}Content-Length: 20\r\n\r\n{\"seq\":4,\"type\":\"x\"}",
    ),
];

/// Whether a file is framed so.
fn is_wrapped(alloc: Global, limits: Limits, file: &[u8], frames: &[u8]) -> bool {
    match wrap(alloc, file, limits) {
        Ok(wrapped) => wrapped.as_slice() == frames,
        Err(_) => false,
    }
}

fn other_file(alloc: Global) -> Option<usize> {
    for (place, (file, frames)) in WRAPPED.iter().enumerate() {
        if !is_wrapped(alloc, Limits::usual(), file, frames) {
            return Some(place);
        }
    }
    None
}

/// A file with a body a line is framed line by line; empty lines are skipped, and the last line may lack its end.
#[test]
fn wrapped_files(rt: HostRuntime) -> Result<(), Fail> {
    expect_none(&rt, other_file(rt.alloc()))
}

/// What a file begins with.
#[derive(Clone, Copy)]
enum Front {
    Nothing,
    /// A message of as many bytes as a body may have.
    Longest,
    /// One byte more than that, and no message.
    LongText,
}

/// Limits with which a body has at most 1024 bytes.
fn short_bodies() -> Result<Limits, Fail> {
    limits(32, 1024, 2, 1, 1, 1, 1)
}

fn add_front(file: &mut Vec<u8>, front: Front) -> bool {
    match front {
        Front::Nothing => true,
        Front::Longest => {
            file.extend_from_slice(br#"{"seq":3,"type":"x"}"#).is_ok()
                && file.resize(1024, b' ').is_ok()
        }
        Front::LongText => file.resize(1025, b'a').is_ok(),
    }
}

/// A file with this front, and what comes behind it.
fn file(alloc: Global, begins: Front, rest: &[u8]) -> Option<Vec<u8>> {
    let mut file = Vec::new(alloc);
    if add_front(&mut file, begins) && file.extend_from_slice(rest).is_ok() {
        Some(file)
    } else {
        None
    }
}

/// The fault of a file.
fn fault_of(alloc: Global, limits: Limits, file: &[u8]) -> Option<WrapFault> {
    match wrap(alloc, file, limits) {
        Ok(frames) => {
            drop(frames);
            None
        }
        Err(fault) => Some(fault),
    }
}

/// Whether a person reads this of a fault.
fn is_in_words(alloc: Global, fault: WrapFault, text: &str) -> bool {
    match format!(in alloc; "{fault}") {
        Ok(words) => words.as_str() == text,
        Err(_) => false,
    }
}

/// A file by its front and the rest, its fault, and what a person reads of it.
type Refused<'a> = (Front, &'a [u8], WrapFault, &'a str);

static REFUSED: [Refused<'static>; 8] = [
    (
        Front::Nothing,
        b"{}",
        WrapFault::Body {
            cause: BodyRefusal::BadSeq,
            line: 1,
        },
        "line 1 is no message",
    ),
    (
        Front::Nothing,
        b"\n\r\n{}\n",
        WrapFault::Body {
            cause: BodyRefusal::BadSeq,
            line: 3,
        },
        "line 3 is no message",
    ),
    (
        Front::Nothing,
        b" \n",
        WrapFault::Body {
            cause: BodyRefusal::NotJson,
            line: 1,
        },
        "line 1 is no message",
    ),
    (
        Front::Nothing,
        b"\n\r",
        WrapFault::Body {
            cause: BodyRefusal::NotJson,
            line: 2,
        },
        "line 2 is no message",
    ),
    (
        Front::Longest,
        b"\r\n\n{\"seq\":1}\n[]\n",
        WrapFault::Body {
            cause: BodyRefusal::BadType,
            line: 3,
        },
        "line 3 is no message",
    ),
    (
        Front::Longest,
        b" ",
        WrapFault::BodyTooLong { line: 1 },
        "line 1 is longer than a body may be",
    ),
    (
        Front::Longest,
        b" \n[]\n",
        WrapFault::BodyTooLong { line: 1 },
        "line 1 is longer than a body may be",
    ),
    (
        Front::LongText,
        b"",
        WrapFault::Body {
            cause: BodyRefusal::NotJson,
            line: 1,
        },
        "line 1 is no message",
    ),
];

/// Whether the file of a row has its fault.
fn is_refused(alloc: Global, limits: Limits, row: &Refused<'_>) -> bool {
    let (begins, rest, wanted, text) = *row;
    match file(alloc, begins, rest) {
        Some(file) => {
            fault_of(alloc, limits, &file) == Some(wanted) && is_in_words(alloc, wanted, text)
        }
        None => false,
    }
}

fn other_refused(alloc: Global, limits: Limits) -> Option<usize> {
    for (place, row) in REFUSED.iter().enumerate() {
        if !is_refused(alloc, limits, row) {
            return Some(place);
        }
    }
    None
}

/// The first line that is refused is told, with its number; a line that is no message before one that is too long.
#[test]
fn refused_lines(rt: HostRuntime) -> Result<(), Fail> {
    let limits = short_bodies()?;
    expect_none(&rt, other_refused(rt.alloc(), limits))
}

/// Whether the line of a message is framed.
fn is_line_framed(alloc: Global, limits: Limits, message: &[u8], file: &[u8]) -> bool {
    match frames_of(alloc, &[message]) {
        Some(frames) => is_wrapped(alloc, limits, file, &frames),
        None => false,
    }
}

/// Whether a line of the longest message is framed.
fn is_framed(alloc: Global, limits: Limits) -> bool {
    match (
        file(alloc, Front::Longest, b""),
        file(alloc, Front::Longest, b"\r\n"),
    ) {
        (Some(message), Some(file)) => is_line_framed(alloc, limits, &message, &file),
        _ => false,
    }
}

/// A message of as many bytes as a body may have is framed.
#[test]
fn longest_line(rt: HostRuntime) -> Result<(), Fail> {
    let limits = short_bodies()?;
    assert!(rt; is_framed(rt.alloc(), limits));
    Ok(())
}
