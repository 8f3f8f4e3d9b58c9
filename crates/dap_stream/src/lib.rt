//! Streams of frames, as they are listed and made.
//!
//! What this crate knows: the lines of a listing, and files that have a body a line. What it must not know: header bytes,
//! statuses, the lines of faults, and sessions. It relies on the public contracts of the crates below alone.
#![tactic(auto)]

mod bodies;
mod following;
pub mod laws;
mod lines;
mod listing;
mod wrapping;

pub use following::{FollowFault, Followed, follow, following_is_of_the_log};
pub use lines::{Form, Style, body_refusal_name, push_number, push_shown};
pub use listing::{ShowFault, Shown, list, show, unwrap};
pub use wrapping::{WrapFault, wrap};
