//! The adapter as a coprocess, for a debugger that is written in any language: lines in, lines out.
//!
//! A host is the program that runs a debugger. It hands each message of the client to [`Host::line`] as a line, and tells what
//! its debugger did as another; the lines that come back are messages for the client, acts for the debugger, and refusals.
//! `docs/HOST.md` has the lines, `dap_line` reads and writes them. This crate knows when a line may come, and how an adapter over
//! a `Live` is called; it must not know what a request comes to, nor header bytes.
#![tactic(auto)]

mod fed;
mod fetching;
mod host;
mod hosting;
mod laws;
mod lending;
mod limits;
mod messages;
mod offers;

pub use dap_line::{HostKey, Refusal};
pub use host::{FileFault, Host, LONGEST_LINE};
pub use hosting::host_channel;
pub use laws::output_is_told_whole;
pub use offers::{OffersFault, read_offers};
