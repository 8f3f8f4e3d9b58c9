//! A session at the adapter: each of its calls does what the plan says, over a debuggee, without the bytes that come in.
//!
//! Overview and Specification. What a step comes to is told by `dap_plan`, which failure a request has by `dap_decision`. This
//! crate knows how a session keeps what it has, and how the debuggee is asked; bytes of a client and frames stand above, in the
//! adapter.
#![tactic(auto)]

mod asking;
mod changing;
mod disconnecting;
mod effects;
mod emitting;
mod explaining;
mod handling;
mod lending;
mod offers;
mod own;
mod polling;
mod querying;
mod reply;
mod responding;
mod session;
mod starting;
mod taking;
mod terminal;

pub use dap_decision::Phase;
pub use dap_outbox::Lent;
pub use dap_plan::{AdapterFault, AskFault, EmitFault, RespondFault, laws};
pub use dap_query::Options;
pub use offers::{offers_fit, usual_offers};
pub use session::Session;
