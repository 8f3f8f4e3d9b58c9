//! What is found of a line, with the reason at hand.

use crate::reason::Reason;
use dap_check::LineFound;

/// What is found of a line, and why it breaks its rule.
#[derive(Debug, Drop)]
pub struct LineTold {
    pub found: LineFound,
    /// Where reasons are asked for: why the line breaks the one of rules 1 to 7 that was found. Why it breaks rule 8 is in
    /// what was found.
    pub reason: Option<Reason>,
}
