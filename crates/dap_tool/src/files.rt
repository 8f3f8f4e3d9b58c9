//! Files, read whole.

ghost use Rattle.std.specs.Prelude.{◌≤◌, length, IfOk, IfErr, Result, Vec};
ghost use Rattle.std.specs.Io.KnownBytes.{IsAtEnd};
ghost use Rattle.dap_tool.specs.Files.{max_file, ReadsWhole, InputGoes, IsReadOff, LeavesInput, ReadingIsOfTheLog};
ghost use Rattle.dap_tool.specs.declared.files.FileFault.{FileFault};

use dap_channel::{Channel, Input, calls_are_the_log, inputs_tell_their_bytes};
use std::alloc::{AllocError, Global};
use std::io::Read;
use thiserror::Error;

/// The greatest length of a file, in bytes: 64 MiB.
pub const MAX_FILE: usize = 67108864;

/// Why a file is not read whole.
#[derive(Clone, Copy, Debug, PartialEq, Eq, Error)]
pub enum FileFault {
    /// A read failed.
    #[error("the file cannot be read")]
    Read,
    /// It has more than 67108864 bytes.
    #[error("the file is too long")]
    FileTooLong,
    /// Memory was refused.
    #[error("memory is exhausted")]
    OutOfMemory,
}

/// Why a file is not opened.
#[derive(Clone, Copy, Debug, PartialEq, Eq, Error)]
pub enum OpenFault {
    /// No file has the name.
    #[error("there is no such file")]
    NotFound,
    /// It is a directory.
    #[error("the file is a directory")]
    IsDirectory,
    /// It may not be read.
    #[error("the file may not be read")]
    PermissionDenied,
    /// It cannot be opened, for another reason.
    #[error("the file cannot be opened")]
    NotOpened,
}

impl From<AllocError> for FileFault {
    ghost use Rattle.std.specs.Prelude.{◌≡◌};
    ghost use Rattle.dap_tool.specs.declared.files.FileFault.TheVariants.{OutOfMemory};

    ghost from_gives = { λ _ fault. fault ≡ OutOfMemory };

    fn from(_refused: AllocError) -> FileFault {
        FileFault::OutOfMemory
    }
}

/// Reads a channel to the end of its input, of which at most [`MAX_FILE`] bytes are taken, in pieces of at most 65536
/// bytes. Room for `expected` bytes is made at once, where the length is known before, and more is made where more comes.
/// Nothing is written. No read comes after one that failed, that found the end, or that gave more than a file may have.
///
/// # Errors
/// `Read` where a read failed, also by an interruption; `FileTooLong` where the input has more than 67108864 bytes, of
/// which at most 65536 more were read; `OutOfMemory` where memory for the bytes is refused.
pub fn read_channel<C: Channel>(
    alloc: Global,
    channel: &mut C,
    expected: u64,
) -> Result<Vec<u8>, FileFault>
    ensures { ReadsWhole C.goes channel.old channel.new result }
{
    let mut bytes = Vec::new(alloc);
    bytes.reserve_exact(expected.min(MAX_FILE as u64) as usize)?;
    let mut buffer = [0; 65536];
    while bytes.len() <= MAX_FILE {
        let Ok(n) = channel.read(&mut buffer) else {
            return Err(FileFault::Read);
        };
        if n == 0 {
            return Ok(bytes);
        }
        let (piece, _) = buffer.split_at(n);
        if bytes.extend_from_slice(piece).is_err() {
            return Err(FileFault::OutOfMemory);
        }
    }
    Err(FileFault::FileTooLong)
}

/// Reads a reader to its end, as `read_channel`, whose clause says when it is read. The others say what that does to the
/// bytes that it knows.
///
/// # Errors
/// Those of `read_channel`.
pub fn read_whole<R: Read>(
    alloc: Global,
    input: &mut Input<R>,
    expected: u64,
) -> Result<Vec<u8>, FileFault>
    ensures read { IfOk result (IsReadOff R.remaining input.old input.new) }
    ensures end { IfOk result (λ bytes. IsAtEnd (R.remaining input.new.reader)) }
    ensures short { IfOk result (λ bytes. length bytes.items ≤ max_file) }
    ensures fault { IfErr result (LeavesInput R.remaining input.old input.new) }
    ensures calls { ReadsWhole (InputGoes R.remaining) input.old input.new result }
{
    inputs_tell_their_bytes::<R>();
    read_channel(alloc, input, expected)
}

/// A law: of a channel that is the log of its calls, what `read_channel` says is said of that very log.
pub fn reading_is_of_the_log()
    ensures { ReadingIsOfTheLog }
{
    calls_are_the_log();
}
