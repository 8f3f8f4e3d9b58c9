//! Messages out of a stream of the Debug Adapter Protocol that comes in pieces, for whoever wants them and no session.
//!
//! Overview, "Base Protocol". What comes in: bytes, in any pieces. What comes out: messages, or one named refusal with the
//! offset of its frame. Both ends of a session read by this. What it must not know: which message may come when.
#![tactic(auto)]

mod fault;
mod reader;

pub use fault::ReadFault;
pub use reader::{MessageReader, Next};
