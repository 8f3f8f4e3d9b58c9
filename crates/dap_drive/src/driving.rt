//! A script, line by line, and the transcript of what both ends wrote.
ghost use Rattle.std.specs.Prelude.{◌≡◌, ◌∷◌, ◌++◌, ℕ, List, [], false, IfOk, IfErr, OnOk};
ghost use Rattle.std.specs.Str.Lines.{lines};
ghost use Rattle.dap_debuggee.specs.Laws.{StopsLast};
ghost use Rattle.dap_debuggee.specs.declared.answers.State.{State};
ghost use Rattle.dap_frame.specs.Intake.{IsUnderWay};
ghost use Rattle.dap_frame.specs.Settings.{Settings};
ghost use Rattle.dap_drive.specs.Driven.{SaysOf, StopsOver, DrivesTo, StopsTo, LacksOnlyNumbers, DrivesOver};
ghost use Rattle.dap_drive.specs.Script.{is_skipped};
ghost use Rattle.dap_drive.specs.PrivateHeld.{driven_by, both_of, IsQuiet, HasDone, DoesLine, HasRun};
ghost use Rattle.dap_drive.specs.Transcript.{IsLegalTranscript};
ghost use Rattle.dap_world.specs.World.{World};

use crate::ends::Drive;
use crate::fault::DriveFault;
use crate::script::{LineFault, Order, read_order};
use dap_check::split_line;
use dap_debuggee::Debuggee;
use dap_envelope::laws::canonical_text_is_one_line;
use dap_frame::Limits;
use dap_recording::RecordingFault;
use dap_replay::{Recorded, recorded_stops_last};
use dap_world::laws::{each_schedule_agrees, references_agree_while_stops_last};
use std::alloc::Global;

/// Does what the line of this number asks for, which is not skipped.
fn do_order<D: Debuggee + Drop>(
    alloc: Global,
    drive: &mut Drive<D>,
    text: &[u8],
    number: u64,
) -> Result<(), DriveFault>
    requires reading { IsUnderWay drive.old.reader }
    ensures reading { OnOk result (IsUnderWay drive.new.reader) }
    ensures done { OnOk result ((limits : Settings) (debuggee : D) (start : World D)
        → IsQuiet (driven_by D.shown D.follows limits debuggee) (both_of drive.old) start
        → HasDone (driven_by D.shown D.follows limits debuggee) (DoesLine D.shown D.follows text.now) start (both_of drive.new)) }
    ensures stops { IfErr result (λ fault. (limits : Settings) (debuggee : D) (start : World D)
        → IsQuiet (driven_by D.shown D.follows limits debuggee) (both_of drive.old) start
        → SaysOf D.shown D.follows fault drive.new.adapter.debuggee number text.now start) }
{
    match read_order(alloc, text) {
        Ok(Order::Send(call)) => match drive.send(alloc, &call, number) {
            Ok(()) => Ok(()),
            Err(fault) => Err(fault),
        },
        Ok(Order::Answer(terminal)) => match drive.answer(alloc, terminal, number) {
            Ok(()) => Ok(()),
            Err(fault) => Err(fault),
        },
        Ok(Order::Turn) => match drive.turn(alloc) {
            Ok(_) => Ok(()),
            Err(fault) => Err(fault),
        },
        Ok(Order::Poll) => match drive.poll(alloc) {
            Ok(_) => Ok(()),
            Err(fault) => Err(fault),
        },
        Ok(Order::Run) => match drive.run(alloc) {
            Ok(()) => Ok(()),
            Err(fault) => Err(fault),
        },
        Err(LineFault::Script) => Err(DriveFault::Script { line: number }),
        Err(LineFault::Call) => Err(DriveFault::Call { line: number }),
        Err(LineFault::OutOfMemory) => Err(DriveFault::OutOfMemory),
    }
}

/// Whether a line is skipped: it has no bytes.
fn is_skipped(text: &[u8]) -> bool
    ensures { result ≡ is_skipped text.now }
{
    text.is_empty()
}

/// Does what the line of this number asks for, unless it is skipped.
fn do_line<D: Debuggee + Drop>(
    alloc: Global,
    drive: &mut Drive<D>,
    text: &[u8],
    number: u64,
) -> Result<(), DriveFault>
    requires reading { IsUnderWay drive.old.reader }
    ensures reading { OnOk result (IsUnderWay drive.new.reader) }
    ensures ran { OnOk result ((limits : Settings) (debuggee : D) (texts : List (List ℕ))
        → HasRun (driven_by D.shown D.follows limits debuggee) texts (both_of drive.old)
        → HasRun (driven_by D.shown D.follows limits debuggee) (texts ++ text.now ∷ []) (both_of drive.new)) }
    ensures not_skipped { IfErr result (λ fault. is_skipped text.now ≡ false) }
    ensures stops { IfErr result (λ fault. (limits : Settings) (debuggee : D) (start : World D)
        → IsQuiet (driven_by D.shown D.follows limits debuggee) (both_of drive.old) start
        → SaysOf D.shown D.follows fault drive.new.adapter.debuggee number text.now start) }
{
    if is_skipped(text) {
        return Ok(());
    }
    match do_order(alloc, drive, text, number) {
        Ok(()) => Ok(()),
        Err(fault) => Err(fault),
    }
}

/// What came of a script over a debuggee.
#[derive(Drop)]
pub struct Driven<D> {
    /// The transcript, or why the script was not run to its end: then there is none.
    pub transcript: Result<Vec<u8>, DriveFault>,
    /// The debuggee, as the last act left it; none only where memory was refused before the first line.
    pub debuggee: Option<D>,
}

/// Runs a script over a debuggee that is not started, and gives the transcript: a line for each message that either end
/// wrote, in order, with the mark of its side; and the debuggee, as it is then.
///
/// A line of the script is `send COMMAND`, `send COMMAND JSON`, `terminal ok`, `terminal no`, `turn`, `poll` or `run`; a line
/// without bytes is skipped, and counted. There are no comments. Each message is delivered once it is written. `terminal`
/// answers the oldest request of the adapter that the client keeps, which wants a terminal: it runs, without numbers of
/// processes, or is refused. `run` lets the adapter handle all requests, then tells what happens until nothing does, the debuggee
/// stops, or it was asked 65536 times.
///
/// # Errors
/// Those of [`drive`] but `Recording`; and `Client` where the next message would give the client more references than it may
/// know, which comes only of a debuggee that may go on or end by itself while it is stopped. There is no transcript then.
pub fn drive_debuggee<D: Debuggee + Drop>(
    alloc: Global,
    debuggee: D,
    script: &[u8],
    limits: Limits,
) -> Driven<D>
    requires { (D.shown debuggee).state ≡ State.NotStarted }
    ensures drives { DrivesTo D.shown D.follows limits debuggee script.now result }
    ensures stops { StopsTo D.shown D.follows limits debuggee script.now result }

    // Of a debuggee whose stops last the transcript is legal, and the client never has too many references.
    ensures legal { StopsLast D.shown D.follows → IfOk result.transcript IsLegalTranscript }
    ensures numbers { LacksOnlyNumbers D.shown D.follows limits debuggee script.now result }
{
    // Laws for the proof: both ends agree, and a message is one line of the transcript.
    each_schedule_agrees::<D>();
    references_agree_while_stops_last::<D>();
    canonical_text_is_one_line();
    let Ok(mut drive) = Drive::open(alloc, limits, debuggee) else {
        return Driven {
            transcript: Err(DriveFault::OutOfMemory),
            debuggee: None,
        };
    };
    let mut rest = script;
    let mut number = 0;
    while !rest.is_empty() {
        let (text, later) = split_line(rest);
        number += 1;
        match do_line(alloc, &mut drive, text, number) {
            Ok(()) => {}
            Err(fault) => {
                let debuggee = drive.into_debuggee();
                return Driven {
                    transcript: Err(fault),
                    debuggee: Some(debuggee),
                };
            }
        }
        rest = later;
    }
    let (transcript, debuggee) = drive.into_parts();
    Driven {
        transcript: Ok(transcript),
        debuggee: Some(debuggee),
    }
}

/// Runs a script over a recording, as [`drive_debuggee`] does. What it gives is legal: [`dap_check::check`] finds no broken rule
/// in it.
///
/// # Errors
/// `Recording` where the recording is none; then, of the first line that is not done, counted from 1: `Script` where it is no
/// order, `Call` where its arguments are refused or cannot be written, or the client keeps no request that it could answer,
/// `Send` with the client's refusal; `Adapter` where the adapter has too few own numbers left for what it does next, `Client`
/// where the client has no own number left for its answer; `OutOfMemory` where memory is refused. There is no transcript then.
pub fn drive(
    alloc: Global,
    recording: &[u8],
    script: &[u8],
    limits: Limits,
) -> Result<Vec<u8>, DriveFault>
    ensures drives { IfOk result (DrivesOver limits recording.now (lines script.now)) }
    ensures legal { IfOk result IsLegalTranscript }
    ensures stops { IfErr result (StopsOver limits recording.now (lines script.now)) }
{
    // A law for the proof: a stop of a recording lasts.
    recorded_stops_last();
    let recorded = match Recorded::read(alloc, recording) {
        Ok(recorded) => recorded,
        Err(RecordingFault::OutOfMemory) => return Err(DriveFault::OutOfMemory),
        Err(_) => return Err(DriveFault::Recording),
    };
    let Driven { transcript, .. } = drive_debuggee(alloc, recorded, script, limits);
    match transcript {
        Ok(transcript) => Ok(transcript),
        Err(fault) => Err(fault),
    }
}
