//! A client over a channel, for tests and tools: a call goes out whole, and messages come in one after the other.
//!
//! Overview and Specification. It reads and waits, which no end does: whoever has a loop of their own calls `Client::next`.
#![tactic(auto)]

mod connection;
mod fault;

pub use connection::Connection;
pub use fault::ConnectionFault;
