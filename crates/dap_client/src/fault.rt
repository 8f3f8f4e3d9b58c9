//! Why a client sends nothing, and why it is closed.

use dap_envelope::BodyRefusal;
use dap_frame::FrameFault;
use std::alloc::AllocError;

/// Why a request is not sent: the first of these that holds, in this order. Nothing changes then.
#[derive(Clone, Copy, Debug, PartialEq, Eq)]
pub enum SendFault {
    /// `disconnect` was sent, or the client is closed by a fault.
    Ended,
    /// The phase does not let the command be sent, and it does not merely wait for a stop.
    WrongPhase,
    /// The adapter does not offer the command.
    NotSupported,
    /// The command is sent while the debuggee is stopped, and it is not.
    NotStopped,
    /// A reference among the arguments is not known.
    UnknownReference,
    /// The body would be longer than the limit.
    TooLarge,
    /// As many requests are outstanding as there may be.
    Full,
    /// No own sequence number is left.
    SeqExhausted,
    /// Memory was refused.
    OutOfMemory,
}

impl From<AllocError> for SendFault {
    ghost use Rattle.std.specs.Prelude.{◌≡◌};
    ghost use Rattle.dap_client.specs.declared.fault.SendFault.{SendFault};

    ghost from_gives = { λ _ fault. fault ≡ SendFault.OutOfMemory };

    fn from(_: AllocError) -> Self {
        SendFault::OutOfMemory
    }
}

/// Why a request of the adapter is not answered: the first of these that holds, in this order. Nothing changes then.
#[derive(Clone, Copy, Debug, PartialEq, Eq)]
pub enum AnswerFault {
    /// The client is closed by a fault.
    Ended,
    /// No request of the adapter with this seq is kept.
    NotKept,
    /// No own sequence number is left.
    SeqExhausted,
    /// Memory was refused.
    OutOfMemory,
}

impl From<AllocError> for AnswerFault {
    ghost use Rattle.std.specs.Prelude.{◌≡◌};
    ghost use Rattle.dap_client.specs.declared.fault.AnswerFault.{AnswerFault};

    ghost from_gives = { λ _ fault. fault ≡ AnswerFault.OutOfMemory };

    fn from(_: AllocError) -> Self {
        AnswerFault::OutOfMemory
    }
}

/// Why a client is closed. Every later `take` answers it again, every `send` and `answer` answers `Ended`, and nothing more is written.
#[derive(Clone, Copy, Debug, PartialEq, Eq)]
pub enum ClientFault {
    /// The stream is no frame at this offset, in bytes.
    Frame(FrameFault),
    /// The body of the frame at this offset, in bytes, is no message.
    Body { cause: BodyRefusal, offset: u64 },
    /// No request with this seq is outstanding.
    Unmatched { request_seq: u64 },
    /// The request with this seq has another command.
    CommandMismatch { request_seq: u64 },
    /// A request of the adapter with this seq is kept, and not answered yet.
    RepeatedSeq { seq: u64 },
    /// More references would be known than there may be.
    ReferenceLimit,
    /// A request of the adapter was to be answered, and no own sequence number is left.
    SeqExhausted,
    /// Memory was refused.
    OutOfMemory,
}

impl From<AllocError> for ClientFault {
    ghost use Rattle.std.specs.Prelude.{◌≡◌};
    ghost use Rattle.dap_client.specs.declared.fault.ClientFault.{ClientFault};

    ghost from_gives = { λ _ fault. fault ≡ ClientFault.OutOfMemory };

    fn from(_: AllocError) -> Self {
        ClientFault::OutOfMemory
    }
}
