//! A script, and what the checker says of its transcript.
ghost use Rattle.std.specs.Prelude.{◌≡◌, IfOk, IfErr};
ghost use Rattle.std.specs.Str.Lines.{lines};
ghost use Rattle.dap_debuggee.specs.Laws.{StopsLast};
ghost use Rattle.dap_debuggee.specs.declared.answers.State.{State};
ghost use Rattle.dap_drive.specs.Driven.{StopsOver, ChecksOver, ChecksSomehow, StopsScript};
ghost use Rattle.dap_drive.specs.Transcript.{IsLegalText, IsVerdictOn};
ghost use Rattle.dap_drive.specs.declared.fault.DriveFault.{DriveFault};
ghost use Rattle.dap_check.specs.declared.rule.Checked.TheVariants.{Legal};

use crate::driving::{Driven, drive, drive_debuggee};
use crate::fault::DriveFault;
use dap_check::{Checked, check};
use dap_debuggee::Debuggee;
use dap_frame::Limits;
use std::alloc::Global;

/// A transcript, and what [`check`] says of it.
#[derive(Drop)]
pub struct CheckedTranscript {
    pub transcript: Vec<u8>,
    /// All numbers are tested.
    pub checked: Checked,
}

/// Checks a transcript.
fn with_verdict(alloc: Global, transcript: Vec<u8>) -> Result<CheckedTranscript, DriveFault>
    ensures transcript { IfOk result (λ found. found.transcript ≡ transcript) }
    ensures checked { IfOk result (λ found. IsVerdictOn found.transcript.items found.checked) }
    ensures legal { IsLegalText transcript.items → IfOk result (λ found. found.checked ≡ Legal) }
    ensures memory { IfErr result (λ fault. fault ≡ DriveFault.OutOfMemory) }
{
    match check(alloc, &transcript, false) {
        Ok(checked) => Ok(CheckedTranscript {
            transcript,
            checked,
        }),
        // Each line is a message of a side, so memory was refused.
        Err(_) => Err(DriveFault::OutOfMemory),
    }
}

/// Runs a script over a recording, as [`drive`](crate::drive) does, and checks the transcript: it is always legal.
///
/// # Errors
/// Those of [`drive`](crate::drive).
pub fn drive_and_check(
    alloc: Global,
    recording: &[u8],
    script: &[u8],
    limits: Limits,
) -> Result<CheckedTranscript, DriveFault>
    ensures drives { IfOk result (ChecksOver limits recording.now (lines script.now)) }
    ensures checked { IfOk result (λ found. IsVerdictOn found.transcript.items found.checked) }
    ensures legal { IfOk result (λ found. found.checked ≡ Legal) }
    ensures stops { IfErr result (StopsOver limits recording.now (lines script.now)) }
{
    match drive(alloc, recording, script, limits) {
        Ok(transcript) => with_verdict(alloc, transcript),
        Err(fault) => Err(fault),
    }
}

/// Runs a script over a debuggee that is not started, as [`drive_debuggee`](crate::drive_debuggee) does, and checks the
/// transcript: it is legal where a stop of the debuggee lasts until it is told to go on.
///
/// # Errors
/// Those of [`drive_debuggee`](crate::drive_debuggee).
pub fn drive_debuggee_and_check<D: Debuggee + Drop>(
    alloc: Global,
    debuggee: D,
    script: &[u8],
    limits: Limits,
) -> Result<CheckedTranscript, DriveFault>
    requires { (D.shown debuggee).state ≡ State.NotStarted }
    ensures drives { IfOk result (ChecksSomehow D.shown D.follows limits debuggee script.now) }
    ensures checked { IfOk result (λ found. IsVerdictOn found.transcript.items found.checked) }
    ensures legal { StopsLast D.shown D.follows → IfOk result (λ found. found.checked ≡ Legal) }
    ensures stops { IfErr result (StopsScript D.shown D.follows limits debuggee script.now) }
{
    let Driven { transcript, .. } = drive_debuggee(alloc, debuggee, script, limits);
    match transcript {
        Ok(transcript) => with_verdict(alloc, transcript),
        Err(fault) => Err(fault),
    }
}
