//! How a request came out, as whoever holds an adapter says it.
//!
//! Specification, "Response" and "ErrorResponse".
ghost use Rattle.std.specs.Prelude.{◌≡◌};
ghost use Rattle.dap_message.specs.MessageParts.{is_plain_outcome};

use dap_envelope::is_plain_tree;
use dap_json::{Text, Tree};

/// How a request came out.
#[derive(Debug, Drop)]
pub enum Outcome {
    /// It succeeded, with this body or none.
    Success(Option<Tree>),
    /// It failed: a short text that tells a program why, such as `notStopped`, and a body or none. The protocol reads a text for
    /// people at `error` in the body.
    Failure { message: Text, body: Option<Tree> },
}

/// Whether its body can be written: none, or a tree that has no float, and at most 120 deep, and is not `null`.
pub fn is_plain_outcome(outcome: &Outcome) -> bool
    ensures { result ≡ is_plain_outcome outcome.now }
{
    match outcome {
        Outcome::Success(body) => is_plain_tree(body),
        Outcome::Failure { body, .. } => is_plain_tree(body),
    }
}
