//! `serve` over streams in memory, with the bytes that they have to write.

ghost use Rattle.std.specs.Prelude.{◌≡◌, IfSome};
ghost use Rattle.dap_debuggee.specs.declared.answers.State.{State};

use crate::told::expect_none;
use dap_adapter::{AdapterFault, Phase, ServeFault, Served, serve};
use dap_channel::Pipe;
use dap_frame::{End, Limits, write_frame};
use dap_replay::Recorded;
use std::alloc::Global;
use std::io::Write;
use std::test::Fail;
use test_kit::samples::{INITIALIZE, NOT_INITIALIZED, RECORDING, THREADS, answer_to_initialize};
use test_kit::streams::{Pieces, Short};

/// What serving a stream gave: how it ended, how many bytes were not read, and what was written.
#[derive(Drop)]
struct Outcome {
    end: Result<Served, ServeFault>,
    left: usize,
    written: Vec<u8>,
}

/// How a stream comes and how far its answers go.
#[derive(Clone, Copy)]
pub(crate) struct Terms {
    /// Bytes given at each read.
    pub(crate) size: usize,
    /// Reads before one fails.
    pub(crate) calls_left: usize,
    /// Bytes that the writer takes.
    pub(crate) room: usize,
    pub(crate) max_reads: u64,
}

pub(crate) fn pieces(size: usize) -> Terms {
    Terms {
        size,
        calls_left: usize::MAX,
        room: usize::MAX,
        max_reads: 1000000,
    }
}

/// The debuggee of `RECORDING`.
fn debuggee(alloc: Global) -> Option<Recorded>
    ensures { IfSome result (λ recorded. recorded.state ≡ State.NotStarted) }
{
    match Recorded::read(alloc, RECORDING) {
        Ok(recorded) => Some(recorded),
        Err(_) => None,
    }
}

/// How serving the recorded run ends.
pub(crate) fn end_of<W: Write>(
    alloc: Global,
    pipe: &mut Pipe<Pieces<'_>, W>,
    limits: Limits,
    max_reads: u64,
) -> Option<Result<Served, ServeFault>> {
    match debuggee(alloc) {
        Some(debuggee) => Some(serve(alloc, pipe, debuggee, limits, max_reads)),
        None => None,
    }
}

/// Serves a stream to the recorded run, on terms.
fn served(alloc: Global, limits: Limits, input: &[u8], terms: Terms) -> Option<Outcome> {
    let mut pipe = Pipe::new(
        Pieces {
            rest: input,
            size: terms.size.max(1),
            calls_left: terms.calls_left,
        },
        Short {
            room: terms.room,
            held: Vec::new(alloc),
        },
    );
    let end = end_of(alloc, &mut pipe, limits, terms.max_reads)?;
    let Pipe { reader, writer } = pipe;
    let Short { room: _, held } = writer;
    Some(Outcome {
        end,
        left: reader.rest.len(),
        written: held,
    })
}

/// The end of a stream of whole frames.
pub(crate) fn clean(phase: Phase) -> Result<Served, ServeFault> {
    Ok(Served {
        end: End::Clean,
        phase,
    })
}

/// Whether serving a stream on terms ends so, and writes these bytes.
pub(crate) fn is_served(
    alloc: Global,
    limits: Limits,
    stream: (&[u8], Terms),
    end: Result<Served, ServeFault>,
    written: &[u8],
) -> bool {
    match served(alloc, limits, stream.0, stream.1) {
        Some(outcome) => outcome.end == end && outcome.written.as_slice() == written,
        None => false,
    }
}

/// Whether that many bytes are left then.
pub(crate) fn leaves(alloc: Global, stream: (&[u8], Terms), left: usize) -> bool {
    match served(alloc, Limits::usual(), stream.0, stream.1) {
        Some(outcome) => outcome.left == left,
        None => false,
    }
}

/// Appends the frames of some bodies, one after the other.
fn add_frames(frames: &mut Vec<u8>, bodies: &[&[u8]]) -> bool {
    for body in bodies {
        if write_frame(frames, body).is_err() {
            return false;
        }
    }
    true
}

/// The frames of some bodies.
pub(crate) fn frames_of(alloc: Global, bodies: &[&[u8]]) -> Option<Vec<u8>> {
    let mut frames = Vec::new(alloc);
    if add_frames(&mut frames, bodies) {
        Some(frames)
    } else {
        None
    }
}

/// The first size below the most in which a stream of whole frames is served otherwise.
pub(crate) fn other_size(
    alloc: Global,
    input: &[u8],
    answers: &[u8],
    phase: Phase,
    most: usize,
) -> Option<usize> {
    for size in 1..most {
        let stream = (input, pieces(size));
        if !is_served(alloc, Limits::usual(), stream, clean(phase), answers) {
            return Some(size);
        }
    }
    None
}

/// Whether a stream is served so in pieces of some sizes.
pub(crate) fn is_served_in(
    alloc: Global,
    limits: Limits,
    input: &[u8],
    sizes: [usize; 3],
    fault: AdapterFault,
) -> bool {
    let Some(answer) = answer_to_initialize(alloc) else {
        return false;
    };
    for size in sizes {
        let end = Err(ServeFault::Adapter(fault));
        if !is_served(alloc, limits, (input, pieces(size)), end, &answer) {
            return false;
        }
    }
    true
}

/// The size of pieces in which `initialize` is served otherwise; 0 where its frame has another length.
fn other_initialize(alloc: Global, input: &[u8], answer: &[u8]) -> Option<usize> {
    if input.len() != 103 {
        return Some(0);
    }
    other_size(alloc, input, answer, Phase::Ready, 104)
}

fn initializes(alloc: Global) -> Option<usize> {
    match (frames_of(alloc, &[INITIALIZE]), answer_to_initialize(alloc)) {
        (Some(input), Some(answer)) => other_initialize(alloc, &input, &answer),
        _ => Some(0),
    }
}

/// `initialize`, cut at each place, is answered with the capabilities; no bytes are answered with none.
#[test]
fn initialize_is_answered(rt: HostRuntime) -> Result<(), Fail> {
    let end = clean(Phase::Fresh);
    assert!(rt; is_served(rt.alloc(), Limits::usual(), (b"", pieces(1)), end, b""));
    expect_none(&rt, initializes(rt.alloc()))
}

/// The place of the terms on which a request before `initialize` is served otherwise.
fn other_terms(alloc: Global, input: &[u8], answer: &[u8]) -> Option<usize> {
    let ten = Terms {
        room: 10,
        ..pieces(4096)
    };
    let none = Terms {
        max_reads: 0,
        ..pieces(4096)
    };
    let cases: [(Terms, Result<Served, ServeFault>, &[u8]); 3] = [
        (pieces(10), clean(Phase::Fresh), answer),
        (ten, Err(ServeFault::Write { written: 10 }), b"Content-Le"),
        (none, Err(ServeFault::TooManyReads), b""),
    ];
    for (place, (terms, end, written)) in cases.iter().enumerate() {
        if !is_served(alloc, Limits::usual(), (input, *terms), *end, written) {
            return Some(place);
        }
    }
    None
}

fn refuses_before(alloc: Global) -> Option<usize> {
    match (
        frames_of(alloc, &[THREADS]),
        frames_of(alloc, &[NOT_INITIALIZED]),
    ) {
        (Some(input), Some(answer)) => other_terms(alloc, &input, &answer),
        _ => Some(0),
    }
}

/// A request before `initialize`; the writer takes ten bytes and fails, or no read may be made.
#[test]
fn not_initialized(rt: HostRuntime) -> Result<(), Fail> {
    expect_none(&rt, refuses_before(rt.alloc()))
}

/// The frame of a body before and after some bytes.
pub(crate) fn with_bytes_between(alloc: Global, body: &[u8], bytes: &[u8]) -> Option<Vec<u8>> {
    let mut input = Vec::new(alloc);
    let is_whole = write_frame(&mut input, body).is_ok()
        && input.extend_from_slice(bytes).is_ok()
        && write_frame(&mut input, body).is_ok();
    if is_whole { Some(input) } else { None }
}
