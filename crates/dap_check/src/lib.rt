//! Whether a recorded conversation keeps the rules of the protocol.
//!
//! A transcript is a text with a message a line, each of the client or of the adapter. What this crate knows: lines, sides,
//! and which earlier lines a message may follow. What it must not know: header bytes, and how JSON is read. It relies on the
//! public contracts of `dap_message` and `dap_shape`, and on those by which `dap_json` reads what stands at a key.
#![tactic(auto)]

mod checker;
mod checking;
mod counts;
mod cutting;
mod first;
mod found;
mod judging;
pub mod laws;
mod line;
mod offer;
mod pending;
mod phases;
mod reading;
mod references;
mod rule;
mod seen;
mod unanswered;
mod waiting;
pub mod words;

pub use checker::Checker;
pub use checking::{CheckFault, check, check_all, check_by_side};
pub use cutting::split_line;
pub use found::{Broken, CheckMode, LineFound};
pub use line::{Line, Side};
pub use reading::read_line;
pub use rule::{AnySeq, Checked, Finding, OpenRequest, Report, Rule};
