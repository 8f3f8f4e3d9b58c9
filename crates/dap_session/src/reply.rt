//! What the debuggee replies to an act that it may refuse.
use dap_debuggee::Explanation;

/// Whether an act was done.
#[derive(Drop)]
pub(crate) enum ActReply {
    Done,
    /// It was refused, with why where that is said.
    Refused(Option<Explanation>),
}
