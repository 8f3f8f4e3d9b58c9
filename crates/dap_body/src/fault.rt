//! Why a body can't be read.

ghost use Rattle.std.specs.Prelude.{◌≡◌};

use crate::key::BodyKey;
use std::alloc::AllocError;

/// Why a body can't be read. A key is at fault where it is required and absent, or where its value is of another type or
/// out of its range.
#[derive(Clone, Copy, Debug, PartialEq, Eq)]
pub enum ViewFault {
    /// The allocator refused memory for the list.
    OutOfMemory,
    /// A key of the body itself.
    Body {
        key: BodyKey,
    },
    /// A key of an element of the body's list.
    Element {
        /// The place of the element, from 0.
        index: usize,
        key: BodyKey,
    },
}

impl From<AllocError> for ViewFault {
    ghost use Rattle.dap_body.specs.declared.fault.ViewFault.TheVariants.{OutOfMemory};

    ghost from_gives = { λ _ e. e ≡ OutOfMemory };

    fn from(_e: AllocError) -> ViewFault {
        ViewFault::OutOfMemory
    }
}

impl From<BodyKey> for ViewFault {
    ghost use Rattle.dap_body.specs.declared.fault.ViewFault.TheVariants.{Body};

    ghost from_gives = { λ key e. e ≡ Body key };

    fn from(key: BodyKey) -> ViewFault {
        ViewFault::Body { key }
    }
}
