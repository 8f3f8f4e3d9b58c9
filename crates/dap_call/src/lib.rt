//! What a client asks: each of the thirty commands of this profile with its arguments, read and written; and the one request
//! of an adapter, `runInTerminal`.
//!
//! Specification, "Requests". This crate knows which arguments a command has; it must not know the envelope of a message, nor
//! header fields. The names of `dap_command` are handed on here.
#![tactic(auto)]

mod argument;
mod call;
mod calls;
pub mod laws;
mod members;
mod objects;
mod plain;
mod terminal;
mod writing;

pub use call::{
    BreakpointLocations, Call, CallFault, Completions, Evaluate, Initialize, Modules, SetVariable,
    StackTrace, Variables,
};
pub use calls::read_call;
pub use dap_command::{
    Capabilities, Command, Gate, GatheredReferences, GivenObjects, Key, NamedObject, NumbersGiven,
    SourceKey, frames_given, holders_given,
};
pub use objects::CallObject;
pub use plain::MAX_ARGUMENTS;
pub use terminal::{RUN_IN_TERMINAL, TerminalCall, read_terminal, write_terminal};
pub use writing::write_call;
