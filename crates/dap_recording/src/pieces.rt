//! The first piece of a text that is told in several events.
ghost use Rattle.std.specs.Prelude.{◌≡◌, ◌≤◌};
ghost use Rattle.std.specs.Str.{IsCharBoundary};
ghost use Rattle.dap_recording.specs.Pieces.{piece_length as length_of_first};

/// The most bytes of output that an event has.
const MAX_PIECE: usize = 128;

/// How many bytes the first piece of a text has: at most 128, whole characters.
pub fn piece_length(text: &str) -> usize
    ensures length { result ≡ length_of_first text.now }
    ensures boundary { IsCharBoundary text.now result }
    ensures short { result ≤ 128 }
{
    text.floor_char_boundary(MAX_PIECE)
}
