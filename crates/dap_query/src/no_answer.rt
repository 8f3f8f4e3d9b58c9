//! Why a query has no body for its answer.

use dap_body::Failure;
use dap_debuggee::DebuggeeFault;
use std::alloc::AllocError;

/// Why there is no body for an answer.
#[derive(Clone, Copy, Debug, PartialEq, Eq)]
pub enum NoAnswer {
    /// The request fails.
    Fails(Failure),
    /// Memory was refused.
    OutOfMemory,
}

impl From<AllocError> for NoAnswer {
    ghost use Rattle.std.specs.Prelude.{◌≡◌};
    ghost use Rattle.dap_query.specs.declared.no_answer.NoAnswer.{NoAnswer};

    ghost from_gives = { λ _ untold. untold ≡ NoAnswer.OutOfMemory };

    fn from(_: AllocError) -> Self {
        NoAnswer::OutOfMemory
    }
}

impl From<DebuggeeFault> for NoAnswer {
    ghost use Rattle.std.specs.Prelude.{◌≡◌};
    ghost use Rattle.dap_query.specs.QueryResults.{no_answer_of};

    ghost from_gives = { λ fault untold. untold ≡ no_answer_of fault };

    fn from(fault: DebuggeeFault) -> Self {
        match fault {
            DebuggeeFault::Refused => NoAnswer::Fails(Failure::Debuggee),
            DebuggeeFault::OutOfMemory => NoAnswer::OutOfMemory,
        }
    }
}
