//! What an end reads from and writes to, call by call.
//!
//! Overview, "Base Protocol": the bytes of both directions. The clauses of `std`'s `Read` and `Write` relate bytes, and never
//! say that a call was made. Those of a `Channel` do: a clause over all channels can say which calls an end made, and in
//! which order. Nothing here knows a frame or a message.
#![tactic(auto)]

mod channel;
mod laws;
mod sending;

pub use channel::{Channel, Input, Pipe, calls_are_the_log};
pub use laws::{calls_add_up, inputs_tell_their_bytes, pipes_tell_their_bytes};
pub use sending::send;
