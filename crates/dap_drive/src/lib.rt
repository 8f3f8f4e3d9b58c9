//! Both ends of a session, driven against each other by a script, with the transcript of what they write.
//!
//! A script is a text with an order a line: a client sends a request, or answers one, or an adapter handles one, or it tells
//! what happened to its debuggee. What this crate knows: scripts, which call of which end an order is, and that each message
//! is delivered once it is written. What it must not know: what a request comes to at either end, header bytes, and the
//! rules of a transcript. It relies on the public contracts of both ends, on the laws of `dap_world`, and on `dap_frame` to
//! tell where a message ends.
#![tactic(auto)]

mod checked;
mod driving;
mod ends;
mod fault;
pub mod laws;
mod script;
mod writing;

pub use checked::{CheckedTranscript, drive_and_check, drive_debuggee_and_check};
pub use driving::{Driven, drive, drive_debuggee};
pub use fault::DriveFault;
