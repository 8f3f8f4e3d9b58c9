//! What an adapter answers to queries: what the debuggee shows, in the bodies of the protocol, with a number for each object
//! that the client may ask for later.
//!
//! Overview, "Lifetime of Objects References"; Specification, from "ThreadsRequest" on. What this crate knows: the debuggee,
//! what the client said of itself, and the references. What it must not know: the phases of a session, its requests, and how
//! an answer is written.
#![tactic(auto)]

mod answering;
mod bodies;
pub mod laws;
mod no_answer;
mod numbering;
mod options;
mod queries;

pub use no_answer::NoAnswer;
pub use options::Options;
pub use queries::Queries;
