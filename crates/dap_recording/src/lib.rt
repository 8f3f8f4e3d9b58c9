//! Recordings of a run: what one is, what sources and a moment show, and how bytes are read.
//!
//! [`Recording::read`] gives the sources and the moments that a recording holds, or the first key of the format that is bad;
//! [`refusal_of`] says where that is, and what is wrong there.
//! [`Sources::read`] and [`Snapshot::read`] read sources alone, and a moment alone over a number of them, by the same functions;
//! `variables` has what debuggees do with the variables of a moment, and [`piece_length`] says how output is cut. This crate knows the format of recordings, and what sources
//! and a moment show; it must not know how a recording is played, nor who tells a moment.
#![tactic(auto)]

mod alone;
mod causes;
pub mod laws;
pub mod numbers;
mod one_pass;
mod paths;
mod pieces;
mod place;
mod read;
mod read_threads;
mod reading;
mod recording;
mod refusal;
mod rows;
pub mod shown;
mod snapshot;
mod sources;
mod stop;
mod texts;
pub mod variables;

pub use dap_json::List;
pub use pieces::piece_length;
pub use place::{BadCause, BadPlace, Element, JsonKind, RecordingRefusal};
pub use reading::{RecordingFault, RecordingKey};
pub use recording::{Moment, OwnStop, RecordedSource, RecordedThread, Recording, Span};
pub use refusal::refusal_of;
pub use snapshot::Snapshot;
pub use sources::Sources;
pub use texts::Texts;
