//! Tables of an end of a Debug Adapter Protocol session: the requests that it has still to answer,
//! the sequence numbers that it gives its own messages, the references that a client may ask for, those
//! that an adapter gave, and the breakpoints that are set.
//!
//! Each table is seen by contracts as plain data: the requests as a list by arrival, the sequence
//! numbers as how many were given of how many there are, the references as a base and a list, those that
//! are known as a set, the breakpoints as a map from sources to lists.
#![tactic(auto)]

mod arrivals;
mod bp_fault;
mod breakpoints;
mod entry;
mod in_order;
mod known;
pub mod laws;
mod live_targets;
mod mark;
mod outstanding;
mod put_fault;
mod ref_fault;
mod reference_kind;
mod references;
mod seq;
mod seq_index;
mod seq_tree;
mod slot;
mod source_map;
mod target;

pub use bp_fault::BpFault;
pub use breakpoints::Breakpoints;
pub use entry::Entry;
pub use in_order::InOrder;
pub use known::{Known, KnownFault};
pub use mark::Mark;
pub use outstanding::Outstanding;
pub use put_fault::PutFault;
pub use ref_fault::RefFault;
pub use reference_kind::ReferenceKind;
pub use references::References;
pub use seq::Seq;
pub use source_map::SourceMap;
pub use target::Target;
