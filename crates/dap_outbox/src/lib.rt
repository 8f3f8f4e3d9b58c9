//! The messages that an adapter is about to write: their drafts, their numbers, and the buffer that takes them.
//!
//! Overview, "Base Protocol"; Specification, "Response", "Event" and "RunInTerminal Request". What this crate knows: what each
//! message says, the own numbers, and that a message is appended whole or not at all. What it must not know: phases, what a
//! request asks, and when something is written.
#![tactic(auto)]

mod answer;
mod outbox;
mod several;
mod texts;
mod waiting;

pub use answer::{Answer, Event, Fixed};
pub use outbox::Outbox;
pub use several::{Chosen, answer_chosen, explain_chosen};
pub use waiting::{
    Lent, clear_starting, is_lent, is_starting_in, lent_count, lent_in_order, starting_count,
};
