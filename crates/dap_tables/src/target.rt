//! An object of the debuggee that a reference names.
use crate::reference_kind::ReferenceKind;

/// An object of the debuggee that a reference names: a frame, or what holds variables, by the debuggee's own number.
#[derive(Clone, Copy, Debug, PartialEq, Eq)]
pub struct Target {
    pub kind: ReferenceKind,
    pub object: u64,
}
