//! Why no more messages are read.

use dap_envelope::BodyRefusal;
use dap_frame::FrameFault;

/// Why no more messages are read. Offsets count bytes from the start of the stream.
#[derive(Clone, Copy, Debug, PartialEq, Eq)]
pub enum ReadFault {
    /// The framing is refused.
    Frame(FrameFault),
    /// A body is no message; the frame's first byte has this offset.
    Body { cause: BodyRefusal, offset: u64 },
    /// Memory was refused.
    OutOfMemory,
    /// The reader was closed.
    Closed,
}
