//! Why a script is not run to its end.

use dap_client::SendFault;
use std::alloc::AllocError;
use thiserror::Error;

/// Why a script is not run to its end. Lines are counted from 1, those without bytes too.
#[derive(Clone, Copy, Debug, PartialEq, Eq, Error)]
pub enum DriveFault {
    /// The recording is none.
    #[error("the recording is refused")]
    Recording,
    /// A line is no order: its first word or its command is not known, or what follows that is no JSON.
    #[error("line {line} is no order")]
    Script { line: u64 },
    /// The arguments of a line are not those of its command, or cannot be written; or the client keeps no request of the
    /// adapter that it could answer.
    #[error("line {line} has arguments that are refused, or nothing to answer")]
    Call { line: u64 },
    /// The client refuses to send the request of a line.
    #[error("line {line} is not sent")]
    Send { line: u64, cause: SendFault },
    /// The adapter has too few own numbers left for what it does next (its fault `SeqExhausted`).
    #[error("the adapter is closed")]
    Adapter,
    /// The client has no own number left for the answer of a line (its refusal `SeqExhausted`); or, over a debuggee that may go
    /// on or end by itself while it is stopped, the next message would give the client more references than it may know (its
    /// fault `ReferenceLimit`).
    #[error("the client is closed, or has no number left")]
    Client,
    /// Memory was refused.
    #[error("memory is exhausted")]
    OutOfMemory,
}

impl From<AllocError> for DriveFault {
    ghost use Rattle.std.specs.Prelude.{◌≡◌};
    ghost use Rattle.dap_drive.specs.declared.fault.DriveFault.TheVariants.{OutOfMemory};

    ghost from_gives = { λ _ fault. fault ≡ OutOfMemory };

    fn from(_refused: AllocError) -> DriveFault {
        DriveFault::OutOfMemory
    }
}
