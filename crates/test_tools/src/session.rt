//! A whole session over streams in memory: in pieces, cut short, and with readers and writers that fail.

use crate::serving::{Terms, clean, end_of, is_served, other_size, pieces};
use crate::told::expect_none;
use dap_adapter::{Phase, ServeFault, Served};
use dap_channel::Pipe;
use dap_frame::{End, Limits};
use std::alloc::Global;
use std::test::Fail;
use test_kit::served::{Stream, stream_of};
use test_kit::streams::{Flushed, Pieces, Stuck};

/// A whole session, a run with a pause and an exit, and two in which a terminal is asked for. What their lines say stands in `test_kit`, `served.rt`.
static SESSIONS: [&str; 4] = [
    r#"
row a whole session
> {"seq":1,"type":"request","command":"initialize","arguments":{"adapterID":"rec"}}
< capabilities seq 1 to 1
< {"event":"initialized","seq":2,"type":"event"}
phase Ready
> {"seq":2,"type":"request","command":"launch"}
phase Parked
> {"seq":3,"type":"request","command":"configurationDone"}
< {"command":"configurationDone","request_seq":3,"seq":3,"success":true,"type":"response"}
< {"command":"launch","request_seq":2,"seq":4,"success":true,"type":"response"}
< {"body":{"category":"stdout","output":"go\n"},"event":"output","seq":5,"type":"event"}
< {"body":{"allThreadsStopped":true,"reason":"entry","threadId":1},"event":"stopped","seq":6,"type":"event"}
phase Stopped
> {"seq":4,"type":"request","command":"threads"}
< {"body":{"threads":[{"id":1,"name":"main"}]},"command":"threads","request_seq":4,"seq":7,"success":true,"type":"response"}
phase Stopped
> {"seq":5,"type":"request","command":"next","arguments":{"threadId":1}}
< {"command":"next","request_seq":5,"seq":8,"success":true,"type":"response"}
< {"body":{"allThreadsStopped":true,"reason":"step","threadId":1},"event":"stopped","seq":9,"type":"event"}
phase Stopped
> {"seq":6,"type":"request","command":"stepBack","arguments":{"threadId":1}}
< {"command":"stepBack","request_seq":6,"seq":10,"success":true,"type":"response"}
< {"body":{"allThreadsStopped":true,"reason":"step","threadId":1},"event":"stopped","seq":11,"type":"event"}
phase Stopped
> {"seq":7,"type":"request","command":"continue","arguments":{"threadId":1}}
< {"body":{"allThreadsContinued":true},"command":"continue","request_seq":7,"seq":12,"success":true,"type":"response"}
phase Running
> {"seq":8,"type":"request","command":"pause","arguments":{"threadId":1}}
< {"command":"pause","request_seq":8,"seq":13,"success":true,"type":"response"}
< {"body":{"allThreadsStopped":true,"reason":"pause","threadId":1},"event":"stopped","seq":14,"type":"event"}
phase Stopped
> {"seq":9,"type":"request","command":"continue","arguments":{"threadId":1}}
< {"body":{"allThreadsContinued":true},"command":"continue","request_seq":9,"seq":15,"success":true,"type":"response"}
< {"body":{"exitCode":0},"event":"exited","seq":16,"type":"event"}
< {"event":"terminated","seq":17,"type":"event"}
phase Exited
> {"seq":10,"type":"request","command":"disconnect"}
< {"command":"disconnect","request_seq":10,"seq":18,"success":true,"type":"response"}
phase Ended
"#,
    r#"
row a run with a pause and an exit
> {"seq":1,"type":"request","command":"initialize","arguments":{"adapterID":"rec"}}
< capabilities seq 1 to 1
< {"event":"initialized","seq":2,"type":"event"}
phase Ready
> {"seq":2,"type":"request","command":"launch"}
phase Parked
> {"seq":3,"type":"request","command":"configurationDone"}
< {"command":"configurationDone","request_seq":3,"seq":3,"success":true,"type":"response"}
< {"command":"launch","request_seq":2,"seq":4,"success":true,"type":"response"}
< {"body":{"category":"stdout","output":"go\n"},"event":"output","seq":5,"type":"event"}
< {"body":{"allThreadsStopped":true,"reason":"entry","threadId":1},"event":"stopped","seq":6,"type":"event"}
phase Stopped
> {"seq":4,"type":"request","command":"continue","arguments":{"threadId":1}}
< {"body":{"allThreadsContinued":true},"command":"continue","request_seq":4,"seq":7,"success":true,"type":"response"}
phase Running
> {"seq":5,"type":"request","command":"stackTrace","arguments":{"threadId":1}}
< notStopped seq 8 to 5 stackTrace
phase Running
> {"seq":6,"type":"request","command":"pause","arguments":{"threadId":1}}
< {"command":"pause","request_seq":6,"seq":9,"success":true,"type":"response"}
< {"body":{"allThreadsStopped":true,"reason":"pause","threadId":1},"event":"stopped","seq":10,"type":"event"}
phase Stopped
> {"seq":7,"type":"request","command":"continue","arguments":{"threadId":1}}
< {"body":{"allThreadsContinued":true},"command":"continue","request_seq":7,"seq":11,"success":true,"type":"response"}
< {"body":{"exitCode":0},"event":"exited","seq":12,"type":"event"}
< {"event":"terminated","seq":13,"type":"event"}
phase Exited
"#,
    r#"
row a session in a terminal
> {"seq":1,"type":"request","command":"initialize","arguments":{"adapterID":"rec","supportsRunInTerminalRequest":true}}
< capabilities seq 1 to 1
< {"event":"initialized","seq":2,"type":"event"}
phase Ready
> {"seq":2,"type":"request","command":"launch","arguments":{"console":"terminal"}}
phase Parked
> {"seq":3,"type":"request","command":"configurationDone"}
< {"command":"configurationDone","request_seq":3,"seq":3,"success":true,"type":"response"}
< {"arguments":{"args":["recorded"],"cwd":"/","kind":"integrated","title":"recorded"},"command":"runInTerminal","seq":4,"type":"request"}
phase Asked
> {"body":{},"command":"runInTerminal","request_seq":4,"seq":4,"success":true,"type":"response"}
< {"command":"launch","request_seq":2,"seq":5,"success":true,"type":"response"}
< {"body":{"category":"stdout","output":"go\n"},"event":"output","seq":6,"type":"event"}
< {"body":{"allThreadsStopped":true,"reason":"entry","threadId":1},"event":"stopped","seq":7,"type":"event"}
phase Stopped
"#,
    r#"
row a terminal that is refused, and one that is waited for
> {"seq":1,"type":"request","command":"initialize","arguments":{"adapterID":"rec","supportsRunInTerminalRequest":true}}
< capabilities seq 1 to 1
< {"event":"initialized","seq":2,"type":"event"}
phase Ready
> {"seq":2,"type":"request","command":"configurationDone"}
< {"command":"configurationDone","request_seq":2,"seq":3,"success":true,"type":"response"}
phase Configured
> {"seq":3,"type":"request","command":"launch","arguments":{"console":"terminal"}}
< terminal seq 4
phase Asked
> {"seq":4,"type":"response","request_seq":4,"success":false,"command":"runInTerminal","message":"no"}
< debuggee seq 5 to 3 launch
phase Configured
> {"seq":5,"type":"request","command":"launch","arguments":{"console":"terminal"}}
< terminal seq 6
phase Asked
> {"seq":6,"type":"request","command":"threads"}
< {"body":{"threads":[]},"command":"threads","request_seq":6,"seq":7,"success":true,"type":"response"}
phase Asked
> {"seq":7,"type":"request","command":"disconnect"}
< cancelled seq 8 to 5 launch
< {"command":"disconnect","request_seq":7,"seq":9,"success":true,"type":"response"}
phase Ended
"#,
];

/// The last of the ends that a front of the input holds.
fn reached(ends: &[(usize, usize, Phase)], count: usize) -> (usize, usize, Phase) {
    let mut last = (0, 0, Phase::Fresh);
    for end in ends {
        if end.0 <= count {
            last = *end;
        }
    }
    last
}

/// How far the session is at its end.
fn last_phase(whole: &Stream) -> Phase {
    let (_, _, phase) = reached(&whole.ends, whole.input.len());
    phase
}

/// Whether bytes behind `disconnect` change nothing.
fn is_over(alloc: Global, whole: &Stream, later: &[u8]) -> bool {
    let mut input = Vec::new(alloc);
    input.extend_from_slice(&whole.input).is_ok()
        && input.extend_from_slice(later).is_ok()
        && is_served(
            alloc,
            Limits::usual(),
            (&input, pieces(4096)),
            clean(Phase::Ended),
            &whole.answers,
        )
}

/// Whether bytes behind a session of this length change nothing.
fn is_over_behind(alloc: Global, whole: &Stream) -> bool {
    (whole.input.len(), whole.answers.len()) == (861, 2182)
        && is_over(alloc, whole, b"Content-Length: 46")
        && is_over(alloc, whole, b"\r\n\r\n")
        && is_over(alloc, whole, b"Content-Length: 0\r\n\r\n")
}

/// The size of pieces in which the session is served otherwise.
fn other_piece(alloc: Global, whole: &Stream) -> Option<usize> {
    other_size(alloc, &whole.input, &whole.answers, last_phase(whole), 200)
}

/// The first so many bytes, where there are as many.
fn front(bytes: &[u8], count: usize) -> &[u8] {
    let (front, _) = bytes.split_at(count.min(bytes.len()));
    front
}

/// Whether a front of the session is served up to its last whole frame.
fn is_cut(alloc: Global, whole: &Stream, count: usize) -> bool {
    let (last, length, phase) = reached(&whole.ends, count);
    let end = if last == count {
        End::Clean
    } else {
        End::Truncated
    };
    let stream = (front(&whole.input, count), pieces(100));
    let answers = front(&whole.answers, length);
    is_served(
        alloc,
        Limits::usual(),
        stream,
        Ok(Served { end, phase }),
        answers,
    )
}

fn other_cut(alloc: Global, whole: &Stream) -> Option<usize> {
    for count in 0..whole.input.len() {
        if !is_cut(alloc, whole, count) {
            return Some(count);
        }
    }
    None
}

/// Whether the session ends so on terms, with so many bytes of its answers.
fn is_failed(
    alloc: Global,
    whole: &Stream,
    terms: Terms,
    fault: ServeFault,
    length: usize,
) -> bool {
    let answers = front(&whole.answers, length);
    is_served(
        alloc,
        Limits::usual(),
        (&whole.input, terms),
        Err(fault),
        answers,
    )
}

fn other_room(alloc: Global, whole: &Stream) -> Option<usize> {
    for room in 0..whole.answers.len() {
        let terms = Terms { room, ..pieces(50) };
        let fault = ServeFault::Write {
            written: room as u64,
        };
        if !is_failed(alloc, whole, terms, fault, room) {
            return Some(room);
        }
    }
    None
}

/// Whether a reader that fails after so many calls, and reads that are used up then, end the session.
fn is_unread(alloc: Global, whole: &Stream, size: usize, calls: usize) -> bool {
    let (_, length, _) = reached(&whole.ends, calls.saturating_mul(size));
    let failing = Terms {
        calls_left: calls,
        ..pieces(size)
    };
    let few = Terms {
        max_reads: calls as u64,
        ..pieces(size)
    };
    is_failed(alloc, whole, failing, ServeFault::Read, length)
        && is_failed(alloc, whole, few, ServeFault::TooManyReads, length)
}

/// How many reads are made in pieces of a size. Past its last byte a session is read on, unless it has ended.
fn reads_of(whole: &Stream, size: usize) -> usize {
    let pieces = whole.input.len().div_ceil(size.max(1));
    pieces.saturating_add(usize::from(last_phase(whole) != Phase::Ended))
}

fn other_read(alloc: Global, whole: &Stream) -> Option<usize> {
    for calls in 0..reads_of(whole, 60) {
        if !is_unread(alloc, whole, 60, calls) {
            return Some(calls);
        }
    }
    None
}

/// The same with bytes one by one.
fn other_byte(alloc: Global, whole: &Stream) -> Option<usize> {
    for calls in 0..reads_of(whole, 1) {
        if !is_unread(alloc, whole, 1, calls) {
            return Some(calls);
        }
    }
    None
}

/// What is done with a whole session.
#[derive(Clone, Copy)]
enum Trial {
    Pieces,
    Cuts,
    Writers,
    Readers,
    Bytes,
    Later,
    Flushes,
    Stuck,
}

/// The first piece, cut, room or read with which it goes otherwise.
fn other_of(alloc: Global, whole: &Stream, trial: Trial) -> Option<usize> {
    match trial {
        Trial::Pieces => other_piece(alloc, whole),
        Trial::Cuts => other_cut(alloc, whole),
        Trial::Writers => other_room(alloc, whole),
        Trial::Readers => other_read(alloc, whole),
        Trial::Bytes => other_byte(alloc, whole),
        Trial::Later if !is_over_behind(alloc, whole) => Some(0),
        Trial::Flushes if !are_flushed(alloc, whole) => Some(0),
        Trial::Stuck if !is_stuck(alloc, whole) => Some(0),
        _ => None,
    }
}

/// Tries a fresh session.
fn expect(rt: &HostRuntime, session: &str, trial: Trial) -> Result<(), Fail> {
    match stream_of(rt.alloc(), session) {
        Ok(whole) => {
            let other = other_of(rt.alloc(), &whole, trial);
            // The proof of a call is shorter than that of a value that goes out of scope.
            drop(whole);
            expect_none(rt, other)
        }
        Err(_) => Err(Fail::from("no session")),
    }
}

/// Tries each session.
fn expect_each(rt: &HostRuntime, trial: Trial) -> Result<(), Fail> {
    for session in &SESSIONS {
        expect(rt, session, trial)?;
    }
    Ok(())
}

/// Tries the one that ends with `disconnect`.
fn expect_first(rt: &HostRuntime, trial: Trial) -> Result<(), Fail> {
    expect(rt, SESSIONS[0], trial)
}

/// Whole sessions, in pieces of each size.
#[test]
fn whole_sessions(rt: HostRuntime) -> Result<(), Fail> {
    expect_each(&rt, Trial::Pieces)
}

/// What comes after `disconnect` changes nothing.
#[test]
fn bytes_behind_a_session(rt: HostRuntime) -> Result<(), Fail> {
    expect_first(&rt, Trial::Later)
}

/// Every front of a session is served up to its last whole frame.
#[test]
fn cut_short(rt: HostRuntime) -> Result<(), Fail> {
    expect_each(&rt, Trial::Cuts)
}

/// A writer that takes so many bytes and then fails: that count is told, and those bytes went out.
#[test]
fn failing_writer(rt: HostRuntime) -> Result<(), Fail> {
    expect_each(&rt, Trial::Writers)
}

/// A reader that fails at each read in turn, and reads that are used up: what came before is answered.
#[test]
fn failing_reader(rt: HostRuntime) -> Result<(), Fail> {
    expect_each(&rt, Trial::Readers)
}

/// The same with bytes one by one.
#[test]
fn failing_reader_of_bytes(rt: HostRuntime) -> Result<(), Fail> {
    expect_each(&rt, Trial::Bytes)
}

/// How serving ends where so many flushes succeed, how many there were, and how many bytes went out; nothing where those are
/// not a front of the answers.
fn flushed(
    alloc: Global,
    whole: &Stream,
    flushes_left: usize,
) -> Option<(Result<Served, ServeFault>, usize, usize)> {
    let mut pipe = Pipe::new(
        Pieces {
            rest: &whole.input,
            size: 4096,
            calls_left: 100,
        },
        Flushed {
            held: Vec::new(alloc),
            flushes: 0,
            flushes_left,
        },
    );
    let end = end_of(alloc, &mut pipe, Limits::usual(), 100)?;
    if !whole.answers.starts_with(&pipe.writer.held) {
        return None;
    }
    Some((end, pipe.writer.flushes, pipe.writer.held.len()))
}

fn are_all_flushed(alloc: Global, whole: &Stream) -> bool {
    match flushed(alloc, whole, 1000) {
        Some((end, flushes, _)) => end == clean(last_phase(whole)) && flushes > 0,
        None => false,
    }
}

fn is_none_flushed(alloc: Global, whole: &Stream) -> bool {
    match flushed(alloc, whole, 0) {
        Some((end, _, written)) => {
            let fault = ServeFault::Write {
                written: written as u64,
            };
            end == Err(fault) && written > 0
        }
        None => false,
    }
}

fn are_flushed(alloc: Global, whole: &Stream) -> bool {
    are_all_flushed(alloc, whole) && is_none_flushed(alloc, whole)
}

/// What is written is flushed; a flush that fails is told with all that went out.
#[test]
fn flushes(rt: HostRuntime) -> Result<(), Fail> {
    expect_each(&rt, Trial::Flushes)
}

fn is_stuck(alloc: Global, whole: &Stream) -> bool {
    let mut pipe = Pipe::new(
        Pieces {
            rest: &whole.input,
            size: 4096,
            calls_left: 100,
        },
        Stuck,
    );
    let end = end_of(alloc, &mut pipe, Limits::usual(), 100);
    end == Some(Err(ServeFault::Write { written: 0 }))
}

/// A writer that takes nothing has failed.
#[test]
fn a_writer_that_takes_nothing(rt: HostRuntime) -> Result<(), Fail> {
    expect_each(&rt, Trial::Stuck)
}
