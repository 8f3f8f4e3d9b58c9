//! What is refused of an input, and where, in words.
//!
//! What this crate knows: how bytes, offsets, lines and the keys of a recording are shown to a person. What it must not know:
//! names of files, statuses, and sessions. It relies on the public contracts of the crates below alone.
#![tactic(auto)]

mod excerpt;
mod recordings;
mod streams;

pub use excerpt::{Part, push, push_at, push_at_line};
pub use recordings::{NO_MEMORY, push_recording, push_why};
pub use streams::{body_refusal_words, push_check, push_show, push_wrap, refusal_words};
