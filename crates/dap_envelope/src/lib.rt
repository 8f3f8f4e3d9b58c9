//! Messages of the Debug Adapter Protocol: from bytes and back.
//!
//! Overview, "Base Protocol", of the content part; Specification, "ProtocolMessage", "Request", "Response", "Event". This crate
//! knows the envelope: the number, the kind and the names of a message, and where its arguments or its body stand. It must not
//! know what they hold, but for the references of a response's body, nor header fields.
#![tactic(auto)]

mod fault;
mod heading;
pub mod laws;
mod message;
mod one_pass;
mod parts;
mod reading;
mod response_references;
mod writing;

pub use fault::{BodyFault, BodyRefusal};
pub use heading::{Heading, HeadingKind, Noted, heading_of, none_noted, note_member, read_heading};
pub use message::{Kind, MAX_COMMAND, Message, is_plain_tree};
pub use parts::{Event, Response};
pub use reading::{read_message, read_message_with};
pub use response_references::read_heading_and_references;
pub use writing::write_message;
