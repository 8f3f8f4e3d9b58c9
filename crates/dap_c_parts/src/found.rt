//! What a piece of a stream did, as both ends report it.
ghost use Rattle.std.specs.Prelude.{◌≡◌};
ghost use Rattle.dap_c_parts.specs.Finds.{FindsNothing};

/// What a piece of a stream did.
#[repr(C)]
#[derive(Drop)]
pub struct YtFound {
    /// How many bytes of the piece were used.
    pub used: usize,
    /// How many bytes are to be written.
    pub bytes: usize,
    /// How long the frame is that became whole; 0 where none did.
    pub frame: usize,
    /// Where the stream is refused: the offset of the frame, or the number of the message, that the code speaks of.
    pub at: u64,
    /// Why a frame or a body is refused, in the order of their refusals, from 1; else 0.
    pub cause: u32,
}

/// Nothing is found.
pub fn nothing_found() -> YtFound
    ensures nothing { FindsNothing result }
{
    YtFound {
        used: 0,
        bytes: 0,
        frame: 0,
        at: 0,
        cause: 0,
    }
}

/// A fault at a place of the stream.
pub fn fault_at(at: u64, cause: u32) -> YtFound
    ensures at { result.at ≡ at }
    ensures cause { result.cause ≡ cause }
    ensures nothing { FindsNothing result }
{
    YtFound {
        used: 0,
        bytes: 0,
        frame: 0,
        at,
        cause,
    }
}
