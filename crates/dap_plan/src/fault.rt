//! Why an adapter is closed, why an event is not told, why a lent request is not answered, and why a request is not asked.

use dap_envelope::BodyRefusal;
use dap_frame::FrameFault;
use std::alloc::AllocError;

/// Why an adapter is closed. It is answered by every later call, and nothing more is written.
#[derive(Clone, Copy, Debug, PartialEq, Eq)]
pub enum AdapterFault {
    /// The stream is no frame at this offset, in bytes.
    Frame(FrameFault),
    /// The body of the frame at this offset, in bytes, is no message.
    Body { cause: BodyRefusal, offset: u64 },
    /// A request with this seq is not answered yet.
    RepeatedSeq { seq: u64 },
    /// No request of this end with this seq waits for a response.
    Unmatched { request_seq: u64 },
    /// The request of this end with this seq has another command than the response.
    CommandMismatch { request_seq: u64 },
    /// A request came after `disconnect` was answered.
    Ended,
    /// More messages were due than own sequence numbers are left.
    SeqExhausted,
    /// Memory was refused.
    OutOfMemory,
}

impl From<AllocError> for AdapterFault {
    ghost use Rattle.std.specs.Prelude.{◌≡◌};
    ghost use Rattle.dap_plan.specs.declared.fault.AdapterFault.{AdapterFault};

    ghost from_gives = { λ _ fault. fault ≡ AdapterFault.OutOfMemory };

    fn from(_: AllocError) -> Self {
        AdapterFault::OutOfMemory
    }
}

/// Why an event is not told by its name: the first that holds, in this order, or memory. Nothing changes then.
#[derive(Clone, Copy, Debug, PartialEq, Eq)]
pub enum EmitFault {
    /// The adapter is closed by a fault.
    Closed,
    /// `initialize` is not answered yet, or `disconnect` is.
    WrongPhase,
    /// It says what a client may do next. The adapter tells `initialized`, `stopped`, `continued`, `exited` and `terminated` by
    /// itself, where they are true, and `capabilities` never.
    Reserved,
    /// The body would be longer than the limit.
    TooLarge,
    /// No own sequence number is left.
    SeqExhausted,
    /// Memory was refused.
    OutOfMemory,
}

impl From<AllocError> for EmitFault {
    ghost use Rattle.std.specs.Prelude.{◌≡◌};
    ghost use Rattle.dap_plan.specs.declared.fault.EmitFault.{EmitFault};

    ghost from_gives = { λ _ fault. fault ≡ EmitFault.OutOfMemory };

    fn from(_: AllocError) -> Self {
        EmitFault::OutOfMemory
    }
}

/// Why a lent request is not answered: the first that holds, in this order, or memory. Nothing changes then.
#[derive(Clone, Copy, Debug, PartialEq, Eq)]
pub enum RespondFault {
    /// The adapter is closed by a fault.
    Closed,
    /// No request with this number is lent: it never came, had no turn yet, waits for the debuggee to start, or is answered.
    NotLent,
    /// The body would be longer than the limit.
    TooLarge,
    /// No own sequence number is left.
    SeqExhausted,
    /// Memory was refused.
    OutOfMemory,
}

impl From<AllocError> for RespondFault {
    ghost use Rattle.std.specs.Prelude.{◌≡◌};
    ghost use Rattle.dap_plan.specs.declared.fault.RespondFault.{RespondFault};

    ghost from_gives = { λ _ fault. fault ≡ RespondFault.OutOfMemory };

    fn from(_: AllocError) -> Self {
        RespondFault::OutOfMemory
    }
}

/// Why a request is not asked by its name: the first that holds, in this order, or memory. Nothing changes then.
#[derive(Clone, Copy, Debug, PartialEq, Eq)]
pub enum AskFault {
    /// The adapter is closed by a fault.
    Closed,
    /// `initialize` is not answered yet, or `disconnect` is.
    WrongPhase,
    /// The command has more than 64 bytes: no client would read it.
    BadName,
    /// As many wait for their response as there is room for, less one place for the request for a terminal.
    Full,
    /// The body would be longer than the limit.
    TooLarge,
    /// No own sequence number is left.
    SeqExhausted,
    /// Memory was refused.
    OutOfMemory,
}

impl From<AllocError> for AskFault {
    ghost use Rattle.std.specs.Prelude.{◌≡◌};
    ghost use Rattle.dap_plan.specs.declared.fault.AskFault.{AskFault};

    ghost from_gives = { λ _ fault. fault ≡ AskFault.OutOfMemory };

    fn from(_: AllocError) -> Self {
        AskFault::OutOfMemory
    }
}
