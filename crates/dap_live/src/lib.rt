//! A debuggee that a host feeds: a debugger in another process, or in another language.
//!
//! What it shows is what the host told last, whatever that is. What it is asked to do is left for the host to fetch. So a
//! host that tells what is wrong shows wrong values, and breaks no law of `dap_debuggee`: what does not happen in the state
//! that the debuggee is in, or is out of its range, is dropped, and the host can ask why. This crate knows the trait, sources
//! and moments; it must not know how a recording is played, messages, lines of a host nor how JSON is read.
#![tactic(auto)]

mod dropping;
mod held;
mod here;
mod live;
mod mail;
mod placing;

pub use dropping::{each_drop_has_its_reason, why_dropped};
pub use held::Live;
pub use mail::{Ahead, Coming, Dropped, HostAct, Mail, Placed};
