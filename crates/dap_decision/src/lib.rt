//! What is to be done with a request that an adapter keeps, before anything is asked of the debuggee: it fails, or is served.
//!
//! Overview, "Initialization" to "Debug session end"; Specification, "ErrorResponse". `specs/Table.antt` is the one table of
//! commands and phases, `Failures.antt` the tests in their one order. What this crate knows: phases, commands, and what a call
//! names. What it must not know: how a request is handled, and what is written.
#![tactic(auto)]

mod deciding;
mod decision;
mod effect;
pub mod laws;
mod phase;
mod table;

pub use deciding::{call_in, decide, thread_of};
pub use decision::Decision;
pub use effect::Effect;
pub use phase::Phase;
