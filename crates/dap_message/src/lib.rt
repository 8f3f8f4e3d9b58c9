//! The texts of requests, responses and events, written with no tree of the message; and all names that a caller needs to read
//! and write messages.
//!
//! Specification, "Request", "Response", "ErrorResponse" and "Event". What a message is, and how it is read, is told by
//! `dap_envelope`, what commands ask and an adapter answers by `dap_call` and `dap_body`, whose names are handed on here, so
//! that a caller needs this crate alone. The crates beside this one name those that they stand on. Header fields are a lower
//! layer's.
#![tactic(auto)]

mod answering;
pub mod laws;
mod offers;
mod outcome;

pub use answering::{
    append_answer, append_event, append_explained, append_failure, append_named_event,
    append_outcome, append_request,
};
pub use dap_body::{
    Body, Breakpoint, EventBody, Failure, Scope, Source, StackFrame, Thread, Variable,
    body_continue, body_continued, body_evaluate, body_exited, body_failure, body_loaded_sources,
    body_output, body_scopes, body_set_breakpoints, body_set_variable, body_source,
    body_stack_trace, body_stopped, body_terminal, body_threads, body_variables,
};
pub use dap_call::{
    BreakpointLocations, Call, CallFault, Capabilities, Command, Completions, Evaluate, Gate,
    GatheredReferences, GivenObjects, Initialize, Key, MAX_ARGUMENTS, Modules, NumbersGiven,
    RUN_IN_TERMINAL, SetVariable, SourceKey, StackTrace, TerminalCall, Variables, frames_given,
    holders_given, read_call, read_terminal, write_call, write_terminal,
};
pub use dap_envelope::{
    BodyFault, BodyRefusal, Event, Heading, HeadingKind, Kind, MAX_COMMAND, Message, Noted,
    Response, heading_of, is_plain_tree, none_noted, note_member, read_heading,
    read_heading_and_references, read_message, read_message_with, write_message,
};
pub use dap_json::object_reader::Scratch;
pub use dap_json::{List, Text, Tree};
pub use offers::{body_of_offer, offer_fits};
pub use outcome::{Outcome, is_plain_outcome};
