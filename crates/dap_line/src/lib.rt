//! The lines between a host and its adapter: what a host tells, as it is read, and what it is answered, as it is written.
//!
//! `docs/HOST.md` has the lines. This crate knows the lines, how a moment is read over sources, and why a line is refused;
//! it must not know an adapter, nor when a line may come.
#![tactic(auto)]

mod acts;
mod lent;
mod messages;
mod moments;
mod places;
mod reading;
mod refusal;
mod targets;
mod told;

pub use acts::push_acts;
pub use lent::push_lent;
pub use messages::push_message;
pub use moments::coming_of;
pub use reading::body_refusal;
pub use refusal::{HostKey, Refusal, push_refusal};
pub use targets::push_target;
pub use told::{Note, Said, Told, Unread, category_named, happening_in, read_said};
