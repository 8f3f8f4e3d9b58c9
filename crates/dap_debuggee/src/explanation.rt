//! Why a debuggee refused: a query with what was asked, or an act, and what it says of it.
//!
//! Specification, "ErrorResponse" and "Message". That a debuggee need not say why, and may say it in words of its own, is
//! this profile's choice.
use dap_command::SourceKey;
use dap_json::Text;
use std::alloc::AllocError;

/// A query that was refused, with what was asked, lent.
#[derive(Clone, Copy, Drop)]
pub enum RefusedQuery<'q> {
    /// The frames of a thread, by its id.
    Frames {
        thread: i64,
    },
    /// The scopes of a frame, by its object number.
    Scopes {
        frame: u64,
    },
    /// The variables of a holder, by its object number.
    Children {
        holder: u64,
    },
    /// The value of a text, in a frame by its object number or in none.
    Evaluate {
        frame: Option<u64>,
        text: &'q str,
    },
    /// The value that a text gives a variable, by its holder's object number and its name.
    Assigned {
        holder: u64,
        name: &'q str,
        text: &'q str,
    },
    /// The text of a source, by its index from 0.
    Content {
        index: u32,
    },
    /// Whether a breakpoint can stand at these lines of a source, counted from 1.
    Verify {
        source: &'q SourceKey,
        lines: &'q [u32],
    },
}

/// Why a query or an act was refused.
#[derive(Debug, Drop)]
pub struct Explanation {
    /// In words. It is left out where the response would be larger than a body may be.
    pub text: Text,
    /// Whether the client's user should see it: Specification, "Message", `showUser`.
    pub show_user: bool,
}

impl Clone for Explanation {
    ghost use Rattle.std.specs.Prelude.{◌≡◌};

    ghost is_clone = { λ a b. b ≡ a };

    fn clone(&self) -> Result<Explanation, AllocError> {
        Ok(Explanation {
            text: self.text.clone()?,
            show_user: self.show_user,
        })
    }
}

/// Why a debuggee did not do what it was asked.
#[derive(Debug, Drop)]
pub enum ActFault {
    /// It does not do it, or not in its state; with why, which the client is told with the failure.
    Refused(Option<Explanation>),
    /// Memory was refused.
    OutOfMemory,
}

impl From<AllocError> for ActFault {
    ghost use Rattle.std.specs.Prelude.{◌≡◌};
    ghost use Rattle.dap_debuggee.specs.declared.explanation.ActFault.TheVariants.{OutOfMemory};

    ghost from_gives = { λ _ e. e ≡ OutOfMemory };

    fn from(_e: AllocError) -> ActFault {
        ActFault::OutOfMemory
    }
}
