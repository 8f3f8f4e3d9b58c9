//! A debuggee that plays a recorded run.
//!
//! [`Recorded`] reads a recording and plays it, as a `Debuggee` of `dap_debuggee`. This crate knows the moments of a run,
//! where a move goes and when output is told; it must not know the format of recordings, messages, references nor phases of a
//! session.
#![tactic(auto)]

mod acts;
mod laws;
mod moves;
mod polls;
mod queries;
mod read;
mod recorded;
mod run;
mod set_lines;

pub use dap_json::List;
pub use laws::{
    held_gives_nothing, plays_without_stops, polls_tell_the_pieces, recorded_frames_are_constant,
    recorded_sources_are_constant, recorded_stops_last,
};
pub use recorded::Recorded;
