//! What a reader gives over many calls, with values worked out by hand.

use crate::checks::check;
use crate::frames::{Bodies, FRAME, framed, limits, opened, seen_of};
use dap_frame::{End, Fed, FrameFault, Frames, Limits, Refusal};
use std::alloc::Global;

/// Whether a reader gives just this body for its frame, cut after so many bytes, and is then at a clean end.
fn passes(frames: &mut Frames, frame: &[u8], cut: usize, body: &[u8]) -> bool {
    let seen = seen_of(frames, frame, cut, body);
    let one = Bodies {
        wanted: 1,
        others: 0,
    };
    seen.fault.is_none() && seen.bodies == one && seen.end == End::Clean
}

/// Whether a reader passes the frame with this number.
fn passes_number(alloc: Global, frames: &mut Frames, number: usize) -> bool {
    let all = [b'b'; 1024];
    let (body, _) = all.split_at(number.wrapping_mul(37) % 1025);
    match framed(alloc, body, 1, b"") {
        Ok(frame) => passes(frames, &frame, number % 1048, body),
        Err(_) => false,
    }
}

/// Ten thousand bodies of many sizes through one reader, each frame cut at another place of its header or of its body.
#[test]
fn ten_thousand_frames(rt: HostRuntime) {
    match opened(rt.alloc(), &limits(32, 1024)) {
        Some(mut frames) => {
            for number in 0..10000usize {
                check(&rt, passes_number(rt.alloc(), &mut frames, number), number);
            }
        }
        None => check(&rt, false, "reader"),
    }
}

/// Whether a reader is closed after part of a frame, and then takes nothing more.
fn is_closed(frames: &mut Frames) -> bool {
    let stream = b"Content-Length: 2\r\n\r\n{}";
    let before = frames.feed(&stream[..9]);
    frames.close();
    let after = frames.feed(stream);
    let nothing = Ok(Fed {
        used: 0,
        ready: false,
    });
    let seen = (frames.held(), frames.used(), frames.finish());
    before.is_ok() && after == nothing && seen == (0, 9, End::Refused)
}

/// A reader that was closed takes nothing more, and tells no refusal.
#[test]
fn closed(rt: HostRuntime) {
    match opened(rt.alloc(), &Some(Limits::usual())) {
        Some(mut frames) => check(&rt, is_closed(&mut frames), "closed"),
        None => check(&rt, false, "reader"),
    }
}

/// Two frames, and a header block without a length.
static THREE: &[u8; 53] = b"Content-Length: 2\r\n\r\n{}Content-Length: 1\r\n\r\n1A: b\r\n\r\n";

/// A call of `feed` on a part of `THREE`, and what is seen then.
struct Feed {
    /// Whether the body is released before, twice.
    releases: bool,
    /// Where the piece begins.
    from: usize,
    answer: Result<Fed, FrameFault>,
    held: usize,
    /// Where the frame begins.
    offset: u64,
    body: &'static [u8],
}

static FEEDS: [Feed; 5] = [
    Feed {
        releases: false,
        from: 0,
        answer: Ok(Fed {
            used: 23,
            ready: true,
        }),
        held: 2,
        offset: 0,
        body: b"{}",
    },
    Feed {
        releases: false,
        from: 0,
        answer: Ok(Fed {
            used: 0,
            ready: true,
        }),
        held: 2,
        offset: 0,
        body: b"{}",
    },
    Feed {
        releases: true,
        from: 23,
        answer: Ok(Fed {
            used: 22,
            ready: true,
        }),
        held: 1,
        offset: 23,
        body: b"1",
    },
    Feed {
        releases: true,
        from: 45,
        answer: Err(FrameFault {
            cause: Refusal::NoLength,
            offset: 45,
        }),
        held: 0,
        offset: 45,
        body: b"",
    },
    Feed {
        releases: false,
        from: 0,
        answer: Err(FrameFault {
            cause: Refusal::NoLength,
            offset: 45,
        }),
        held: 0,
        offset: 45,
        body: b"",
    },
];

/// Whether a body is gone once it was released.
fn releases(frames: &mut Frames) -> bool {
    frames.release();
    frames.release();
    frames.body().is_none() && frames.held() == 0
}

/// Whether this body is lent, or none where it is empty.
fn is_lent(frames: &mut Frames, wanted: &[u8]) -> bool {
    match frames.body() {
        Some(body) => body == wanted,
        None => wanted.is_empty(),
    }
}

/// Whether a call is answered so.
fn is_answered(frames: &mut Frames, feed: &Feed) -> bool {
    if feed.releases && !releases(frames) {
        return false;
    }
    let (_, piece) = THREE.split_at(feed.from.min(53));
    let answer = frames.feed(piece);
    is_lent(frames, feed.body)
        && answer == feed.answer
        && frames.held() == feed.held
        && frames.offset() == feed.offset
}

/// A body waits until it is released, and a fault is answered ever after.
#[test]
fn waits_and_latches(rt: HostRuntime) {
    match opened(rt.alloc(), &Some(Limits::usual())) {
        Some(mut frames) => {
            for (place, feed) in FEEDS.iter().enumerate() {
                check(&rt, is_answered(&mut frames, feed), place);
            }
            let last = (frames.used(), frames.finish());
            check(&rt, last == (53, End::Refused), "end");
        }
        None => check(&rt, false, "reader"),
    }
}

/// Whether a reader gives a body for a frame, at this offset, and holds nothing once it is released.
fn gives_one(frames: &mut Frames, frame: &[u8], offset: u64) -> bool {
    let fed = frames.feed(frame);
    let found = frames.offset();
    frames.release();
    let wanted = Ok(Fed {
        used: 68,
        ready: true,
    });
    fed == wanted && found == offset && frames.held() == 0
}

/// Ten thousand frames through one reader: nothing is kept of them.
#[test]
fn many_frames(rt: HostRuntime) {
    match opened(rt.alloc(), &limits(32, 1024)) {
        Some(mut frames) => {
            for k in 0..10000u64 {
                check(&rt, gives_one(&mut frames, FRAME, 68 * k), k);
            }
            check(&rt, frames.used() == 680000, "used");
        }
        None => check(&rt, false, "reader"),
    }
}
