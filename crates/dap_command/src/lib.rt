//! What commands there are and what an adapter offers: the thirty commands of this profile, the capabilities that gate some of
//! them, the keys of arguments, what of the debuggee arguments name, how a source is named, and the references that the body
//! of a response gives.
//!
//! Specification, "Requests" and "Capabilities"; Overview, "Lifetime of Objects References". This crate knows names of commands,
//! flags and keys, and of arguments what they name; it must not know what else a command has, the envelope of a message, nor
//! header fields.
#![tactic(auto)]

mod capabilities;
mod command;
mod gathering;
mod given_references;
mod key;
mod objects;
mod offer;
mod opening;
mod opening_list;
mod source_key;

pub use capabilities::Capabilities;
pub use command::{Command, Gate};
pub use gathering::GatheredReferences;
pub use given_references::{NumbersGiven, frames_given, holders_given};
pub use key::Key;
pub use objects::{GivenObjects, NamedObject};
pub use offer::{Offer, OfferFault};
pub use opening::{Opened, Opening, OpeningFault, is_openable};
pub use source_key::SourceKey;
