//! Whether what a message holds is as the Specification has it: required keys, and values of their types.
//!
//! This crate knows the types of the Specification as rows of one table, and reads a message as a tree, or in one pass over
//! its bytes without one. It must not know in which order messages come, nor which end writes one. It relies on the public
//! contracts of the crates below, and on those of their lemmas that `docs/ARCHITECTURE.md` lists.
#![tactic(auto)]

mod body;
mod entries;
mod fault;
pub mod laws;
mod message;
mod reading;
mod rows;
mod sentences;
mod shape;
mod sound;
mod walking;

pub use entries::values;
pub use fault::{Cause, Inward, ShapeFault};
pub use message::message_fault;
pub use reading::read_heading_and_shape;
pub use rows::fields;
pub use sentences::sentence;
pub use shape::{Choice, Field, Kind, Scalar, Shape, TypeName};
