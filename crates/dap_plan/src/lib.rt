//! What each step of a session at the adapter comes to, as data, and the laws of that; there is no code of a session here.
//!
//! Overview and Specification. `specs/Handling.antt`, `Taking.antt`, `Polling.antt`, `Emitting.antt`, `Lending.antt`,
//! `Responding.antt` and `Asking.antt` say what a step comes to: a plan, made at once or of the debuggee's reply, by the table and the order of
//! failures of `dap_decision`. The laws hold of whatever makes such steps. This crate must not know how a session keeps what it
//! has.
#![tactic(auto)]

mod fault;
pub mod laws;

pub use fault::{AdapterFault, AskFault, EmitFault, RespondFault};
