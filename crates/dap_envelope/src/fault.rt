//! Why a body was not read as a message.
ghost use Rattle.std.specs.Prelude.{◌≡◌};
ghost use Rattle.dap_envelope.specs.declared.fault.BodyFault.TheVariants.{OutOfMemory};

use std::alloc::{AllocError, AllocFailed};

/// What is wrong with a body: the first of these that holds, in this order. Which keys a message
/// has is told by the Specification, "ProtocolMessage" to "Response"; the order is this profile's.
#[derive(Clone, Copy, Debug, PartialEq, Eq)]
pub enum BodyRefusal {
    /// Not UTF-8, no JSON value, nested deeper than 127, or with a number too great for a float.
    NotJson,
    NotObject,
    /// `seq` is absent, or no whole number of 0 to 9007199254740991. `1.0` is none.
    BadSeq,
    /// `type` is absent or no text.
    BadType,
    /// Request or response: `command` is absent, no text, or longer than 64 bytes.
    BadCommand,
    /// Response: `request_seq` is absent or no such number as `seq`.
    BadRequestSeq,
    /// Response: `success` is absent or no truth value.
    BadSuccess,
    /// Event: `event` is absent or no text.
    BadEvent,
    /// Response: `message` is there, not `null`, and no text.
    BadMessage,
}

/// Why a body was not read.
#[derive(Clone, Copy, Debug, PartialEq, Eq)]
pub enum BodyFault {
    Refused(BodyRefusal),
    /// The allocator refused memory for the JSON value or for a text of the message. Nothing is kept
    /// of the body, and nothing is said of it: it can be read again.
    OutOfMemory,
}

impl From<AllocError> for BodyFault {
    ghost from_gives = { λ _ e. e ≡ OutOfMemory };

    fn from(_e: AllocError) -> BodyFault {
        BodyFault::OutOfMemory
    }
}
