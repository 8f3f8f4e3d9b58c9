//! Why a target gets no number.

/// Why a target gets no number. The table is then as it was.
#[derive(Clone, Copy, Debug, PartialEq, Eq)]
pub enum RefFault {
    /// As many references are live as there is room for, and the target is none of them.
    Full,
    /// No number is left: those that are live and those that died reach the greatest.
    Exhausted,
    /// The allocator refused memory.
    OutOfMemory,
}
