//! The messages that a stream gives, cut anywhere.

use crate::checks::check;
use crate::frames::limits;
use dap_envelope::BodyRefusal;
use dap_frame::{End, FrameFault, Refusal};
use dap_reader::{MessageReader, ReadFault};
use std::alloc::Global;

/// Three messages, which have 1, 2 and 3 as their `seq`, in frames of 53 bytes.
const THREE: &[u8] =
    b"Content-Length: 31\r\n\r\n{\"seq\":1,\"type\":\"a\",\"rest\":[]}\nContent-Length: 31\r\n\r\n{\"seq\":2,\"type\":\"a\",\"rest\":[]}\nContent-Length: 31\r\n\r\n{\"seq\":3,\"type\":\"a\",\"rest\":[]}\n";

/// What came of a stream: whether each message had the number that is due, how many there were, how many bytes were used,
/// the refusal, and the end.
#[derive(Clone, Copy, PartialEq, Eq)]
struct Seen {
    in_order: bool,
    messages: u64,
    used: usize,
    fault: Option<ReadFault>,
    held: usize,
    end: End,
}

/// Reads a piece up to a refusal.
fn read_piece(alloc: Global, reader: &mut MessageReader, piece: &[u8], seen: &mut Seen) {
    let mut rest = piece;
    for _ in 0..=piece.len() {
        match reader.next_in(alloc, &mut rest) {
            Ok(Some(message)) => {
                seen.messages = seen.messages.saturating_add(1);
                seen.in_order = seen.in_order && message.seq == seen.messages;
            }
            Ok(None) => break,
            Err(fault) => {
                seen.fault = Some(fault);
                break;
            }
        }
    }
    seen.used = seen
        .used
        .saturating_add(piece.len().saturating_sub(rest.len()));
}

/// Reads a stream in pieces of a size; none where memory is refused.
fn read(alloc: Global, stream: &[u8], size: usize) -> Option<Seen> {
    let limits = limits(64, 1024)?;
    let mut reader = MessageReader::open(alloc, &limits).ok()?;
    let mut seen = Seen {
        in_order: true,
        messages: 0,
        used: 0,
        fault: None,
        held: 0,
        end: End::Clean,
    };
    for piece in stream.chunks(size.max(1)) {
        read_piece(alloc, &mut reader, piece, &mut seen);
    }
    seen.held = reader.held();
    seen.end = reader.finish();
    Some(seen)
}

/// What is seen of so many of the three messages, where nothing is refused and nothing is left.
fn whole(messages: u64, used: usize) -> Seen {
    Seen {
        in_order: true,
        messages,
        used,
        fault: None,
        held: 0,
        end: End::Clean,
    }
}

#[test]
fn messages_come_in_order_in_pieces_of_any_size(rt: HostRuntime) {
    for size in 1..160 {
        let seen = read(rt.alloc(), THREE, size);
        check(
            &rt,
            seen == Some(whole(3, 159)),
            format_args!("pieces of {size}"),
        );
    }
}

#[test]
fn a_stream_that_is_cut_gives_its_whole_frames(rt: HostRuntime) {
    for cut in 0..159 {
        let seen = read(rt.alloc(), THREE.split_at(cut).0, 7);
        let is_so = match seen {
            Some(seen) => {
                let end = if cut % 53 == 0 {
                    End::Clean
                } else {
                    End::Truncated
                };
                seen.in_order
                    && seen.messages == cut as u64 / 53
                    && seen.used == cut
                    && seen.end == end
                    && seen.fault.is_none()
            }
            None => false,
        };
        check(&rt, is_so, format_args!("cut at {cut}"));
    }
}

/// The first message, and then a frame that is refused.
const BODY: &[u8] =
    b"Content-Length: 31\r\n\r\n{\"seq\":1,\"type\":\"a\",\"rest\":[]}\nContent-Length: 8\r\n\r\n{\"seq\":}";

const HEADER: &[u8] =
    b"Content-Length: 31\r\n\r\n{\"seq\":1,\"type\":\"a\",\"rest\":[]}\nContent-Length: x\r\n\r\n";

/// Whether one message came, and then this refusal, after which nothing is held.
fn is_refused(seen: Option<Seen>, fault: ReadFault) -> bool {
    match seen {
        Some(seen) => {
            seen.in_order
                && seen.messages == 1
                && seen.fault == Some(fault)
                && seen.held == 0
                && seen.end == End::Refused
        }
        None => false,
    }
}

#[test]
fn a_refusal_names_the_offset_of_its_frame(rt: HostRuntime) {
    let body = ReadFault::Body {
        cause: BodyRefusal::NotJson,
        offset: 53,
    };
    let frame = ReadFault::Frame(FrameFault {
        cause: Refusal::BadLength,
        offset: 53,
    });
    for size in 1..90 {
        let is_so = is_refused(read(rt.alloc(), BODY, size), body);
        check(&rt, is_so, format_args!("body, pieces of {size}"));
        let is_so = is_refused(read(rt.alloc(), HEADER, size), frame);
        check(&rt, is_so, format_args!("header, pieces of {size}"));
    }
}

/// What a reader answers that is closed within a frame, and one that has refused a frame before it is closed.
fn closed(alloc: Global, stream: &[u8]) -> Option<ReadFault> {
    let limits = limits(64, 1024)?;
    let mut reader = MessageReader::open(alloc, &limits).ok()?;
    let _ = reader.next(alloc, stream);
    reader.close();
    reader.next(alloc, THREE).err()
}

#[test]
fn a_closed_reader_answers_why(rt: HostRuntime) {
    let part = closed(rt.alloc(), THREE.split_at(7).0);
    check(&rt, part == Some(ReadFault::Closed), "within a frame");
    let refused = closed(rt.alloc(), b"A: b\r\n\r\n");
    let frame = ReadFault::Frame(FrameFault {
        cause: Refusal::NoLength,
        offset: 0,
    });
    check(&rt, refused == Some(frame), "after a refusal");
}
