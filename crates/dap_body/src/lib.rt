//! Bodies of messages: those of responses, of an adapter's events and of failures as they are written, and in [`view`] those
//! of responses as a client reads them.
//!
//! Specification, "Responses" under "Requests", "Events", "ErrorResponse" and "Types". This crate must not know the
//! envelope of a message, nor header fields.
#![tactic(auto)]

mod beside;
mod body;
mod elements;
mod event;
mod failure;
mod fault;
mod key;
pub mod laws;
mod offers;
mod response;
mod row;
pub mod view;

pub use body::{Body, append_body};
pub use event::{
    EventBody, append_event_body, body_continued, body_exited, body_output, body_stopped,
};
pub use failure::{Failure, append_explained_body, append_failure_body, body_failure};
pub use response::{
    Breakpoint, Scope, Source, StackFrame, Thread, Variable, body_continue, body_evaluate,
    body_loaded_sources, body_scopes, body_set_breakpoints, body_set_variable, body_source,
    body_stack_trace, body_terminal, body_threads, body_variables,
};
