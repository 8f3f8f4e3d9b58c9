//! Why breakpoints are not set.

/// Why breakpoints are not set. The table is then as it was.
#[derive(Clone, Copy, Debug, PartialEq, Eq)]
pub enum BpFault {
    /// More breakpoints would stand than there is room for.
    Full,
    /// An id would be greater than 9007199254740991.
    Exhausted,
    /// The allocator refused memory.
    OutOfMemory,
}
