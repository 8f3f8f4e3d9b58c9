//! Bodies, one a line, to frames.

ghost use Rattle.std.specs.Prelude.{◌≡◌, ◌++◌, OnOk, IfOk, IfErr, IsOkUnless};
ghost use Rattle.std.specs.Str.Lines.{lines};
ghost use Rattle.dap_frame.specs.Written.{frame_of};
ghost use Rattle.dap_stream.specs.declared.wrapping.WrapFault.{WrapFault};
ghost use Rattle.dap_stream.specs.Wrapping.{IsBody, AreBodies, frames_of_bodies, Refuses, FirstRefused, TellsRefusal};

use crate::bodies::test_message;
use dap_check::split_line;
use dap_envelope::laws::each_body_is_one;
use dap_envelope::{BodyFault, BodyRefusal};
use dap_frame::{Limits, write_frame};
use dap_json::object_reader::Scratch;
use std::alloc::{AllocError, Global};
use thiserror::Error;

/// Why `wrap` refuses a file.
#[derive(Clone, Copy, Debug, PartialEq, Eq, Error)]
pub enum WrapFault {
    /// A line is no message; lines are counted from 1.
    #[error("line {line} is no message")]
    Body { cause: BodyRefusal, line: u64 },
    /// A line is longer than a body may be.
    #[error("line {line} is longer than a body may be")]
    BodyTooLong { line: u64 },
    /// Memory was refused.
    #[error("memory is exhausted")]
    OutOfMemory,
}

impl From<AllocError> for WrapFault {
    ghost use Rattle.dap_stream.specs.declared.wrapping.WrapFault.TheVariants.{OutOfMemory};

    ghost from_gives = { λ _ fault. fault ≡ OutOfMemory };

    fn from(_refused: AllocError) -> WrapFault {
        WrapFault::OutOfMemory
    }
}

/// Appends the frame of the line of this number, which has bytes.
fn wrap_line(
    alloc: Global,
    scratch: &mut Scratch,
    out: &mut Vec<u8>,
    text: &[u8],
    number: u64,
    limits: &Limits,
) -> Result<(), WrapFault>
    ensures body { OnOk result (IsBody limits.now text.now) }
    ensures frame { OnOk result (out.new.items ≡ out.old.items ++ frame_of text.now) }
    ensures refused { IfErr result (Refuses limits.now text.now number) }
{
    match test_message(alloc, scratch, text) {
        Ok(()) => {}
        Err(BodyFault::Refused(cause)) => {
            return Err(WrapFault::Body {
                cause,
                line: number,
            });
        }
        Err(BodyFault::OutOfMemory) => return Err(WrapFault::OutOfMemory),
    }
    if text.len() > limits.body() {
        return Err(WrapFault::BodyTooLong { line: number });
    }
    write_frame(out, text)?;
    Ok(())
}

/// The frames of the bodies that a file has, one a line, as they stand. A line ends with a line feed, which the last
/// may lack; a carriage return right before it is no part of the line. A line without bytes is skipped, and counted.
/// The first line that is no message, or is longer than a body may be, is told. At a fault there are no frames.
pub fn wrap(alloc: Global, bytes: &[u8], limits: Limits) -> Result<Vec<u8>, WrapFault>
    ensures accepted { OnOk result (AreBodies limits (lines bytes.now)) }
    ensures frames { IfOk result (λ out. out.items ≡ frames_of_bodies (lines bytes.now)) }
    ensures refused { IfErr result (FirstRefused limits (lines bytes.now)) }

    // And the other way, unless memory runs out.
    ensures wraps { AreBodies limits (lines bytes.now) → IsOkUnless result WrapFault.OutOfMemory }
    ensures refuses { TellsRefusal limits (lines bytes.now) result }
{
    // A law for the proof: no line is both a message and refused.
    each_body_is_one();
    let mut scratch = Scratch::new(alloc);
    let mut out = Vec::new(alloc);
    let mut rest = bytes;
    let mut number = 0;
    while !rest.is_empty() {
        let (text, later) = split_line(rest);
        number += 1;
        if !text.is_empty() {
            wrap_line(alloc, &mut scratch, &mut out, text, number, &limits)?;
        }
        rest = later;
    }
    Ok(out)
}
