//! The arguments of a request as a client writes them: those of a call, and members beside them.
//!
//! Specification, "Request" and the types whose names end in "Arguments".
#![tactic(auto)]

mod arguments;
pub mod laws;

pub use arguments::{arguments_with, may_stand_beside};
