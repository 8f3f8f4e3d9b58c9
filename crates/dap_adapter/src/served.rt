//! What serving comes to.

use dap_frame::End;
use dap_plan::AdapterFault;
use dap_session::Phase;

/// How serving ended.
#[derive(Clone, Copy, Debug, PartialEq, Eq)]
pub struct Served {
    /// Whether the bytes that were used end with a whole frame.
    pub end: End,
    /// The phase of the session.
    pub phase: Phase,
}

/// Why serving stopped.
#[derive(Clone, Copy, Debug, PartialEq, Eq)]
pub enum ServeFault {
    /// The reader failed.
    Read,
    /// The writer failed or took nothing. So many bytes went out in all.
    Write { written: u64 },
    /// The adapter was closed, not for memory.
    Adapter(AdapterFault),
    /// As many reads were made as may be, and another one is due.
    TooManyReads,
    /// Memory was refused.
    OutOfMemory,
}
