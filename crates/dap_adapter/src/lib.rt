//! The adapter's end of a Debug Adapter Protocol session, over a debuggee.
//!
//! Overview and Specification. Bytes of the client go in by `take`, in any pieces, requests are answered by `turn`, one a
//! call, and what happens to the debuggee is told by `poll`, any other event by `emit`; a request whose command was opened is
//! found by `lent` and answered by `respond`, and the client is asked by `ask`. Each call hands out the bytes that it writes, and none of them reads, writes or
//! waits. `next` goes through a piece message by message. `answer` makes these calls
//! for a piece of bytes, and `tell` polls, for a program with a loop of its own; `answer_body` takes a message without its frame,
//! and `first_body` lends those that go out, for a transport with frames of its own. `serve` makes these calls for the bytes
//! that a reader gives, and writes what they hand out.
#![tactic(auto)]

mod adapter;
mod answering;
mod bodies;
mod next;
mod outlet;
mod served;
mod serving;
mod taken;

pub use adapter::Adapter;
pub use answering::{calls_in_turn_add_up, parts_of_a_run_join, tell_polls_first};
pub use bodies::{bodies_come_one_by_one, first_body};
pub use dap_command::{Offer, OfferFault, Opened, Opening, OpeningFault};
pub use dap_message::{Outcome, is_plain_outcome};
pub use dap_plan::{AdapterFault, AskFault, EmitFault, RespondFault};
pub use dap_session::{Lent, Options, Phase, offers_fit};
pub use dap_tables::{Entry, ReferenceKind, Target};
pub use served::{ServeFault, Served};
pub use serving::{serve, serve_channel, serving_is_of_the_log};
pub use taken::{Taken, Turned};
