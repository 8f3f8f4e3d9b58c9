//! The program `bench_frames`: counts the frames of a file, and the bytes of their bodies. It is there to be measured
//! beside other programs, since it does nothing but the framing.
#![tactic(auto)]

ghost use Rattle.std.specs.Prelude.{OnOk};
ghost use Rattle.dap_frame.specs.Intake.{IsUnderWay};

use dap_frame::{End, FrameFault, Frames, Limits};
use std::alloc::AllocError;
use std::fs::File;
use std::io;
use std::io::{Read, Write};
use std::process::ExitCode;

/// What was counted so far.
#[derive(Drop)]
struct Tally {
    frames: u64,
    bytes: u64,
}

/// Why nothing is printed.
#[derive(Debug, Drop)]
enum Failure {
    Usage,
    Stream,
    Memory,
    Frame,
}

impl From<AllocError> for Failure {
    fn from(_refused: AllocError) -> Failure {
        Failure::Memory
    }
}

impl From<io::Error> for Failure {
    fn from(_failed: io::Error) -> Failure {
        Failure::Stream
    }
}

impl From<FrameFault> for Failure {
    fn from(_refused: FrameFault) -> Failure {
        Failure::Frame
    }
}

/// Counts the frames that a piece completes.
fn count_piece(frames: &mut Frames, piece: &[u8], tally: &mut Tally) -> Result<(), FrameFault>
    requires { IsUnderWay frames.old }
    ensures { OnOk result (IsUnderWay frames.new) }
{
    let mut at = 0;
    while at < piece.len() {
        let (_, rest) = piece.split_at(at);
        let fed = frames.feed(rest)?;
        at += fed.used;
        if fed.ready {
            tally.frames = tally.frames.saturating_add(1);
            tally.bytes = tally.bytes.saturating_add(frames.held() as u64);
            frames.release();
        }
    }
    Ok(())
}

/// Counts the frames of a file.
fn count(rt: &HostRuntime, path: &str) -> Result<Tally, Failure> {
    let mut file = File::open(rt, path)?;
    let mut frames = Frames::open(rt.alloc(), &Limits::usual())?;
    let mut tally = Tally {
        frames: 0,
        bytes: 0,
    };
    let mut buffer = [0; 65536];
    for _read in 0..u64::MAX {
        let n = file.read(&mut buffer)?;
        if n == 0 {
            break;
        }
        let (piece, _) = buffer.split_at(n);
        count_piece(&mut frames, piece, &mut tally)?;
    }
    match frames.finish() {
        End::Clean => Ok(tally),
        _ => Err(Failure::Frame),
    }
}

fn run(rt: &HostRuntime) -> Result<(), Failure> {
    let alloc = rt.alloc();
    let words: Vec<String> = std::env::args(rt)?.collect(alloc)?;
    let [_, path] = words.as_slice() else {
        return Err(Failure::Usage);
    };
    let Tally { frames, bytes } = count(rt, path.as_str())?;
    let line = format!(in alloc; "{frames} {bytes}\n")?;
    Ok(rt.stdout().write_all(line.as_bytes())?)
}

fn main(rt: HostRuntime) -> ExitCode {
    let (line, code) = match run(&rt) {
        Ok(()) => return ExitCode::SUCCESS,
        Err(Failure::Usage) => ("usage: bench_frames FILE\n", 2),
        Err(Failure::Frame) => ("bench_frames: the frames of the file are refused\n", 3),
        Err(Failure::Stream) => ("bench_frames: a read or a write failed\n", 5),
        Err(Failure::Memory) => ("bench_frames: memory is exhausted\n", 6),
    };
    let _ = rt.stderr().write_all(line.as_bytes());
    ExitCode::from(code)
}
