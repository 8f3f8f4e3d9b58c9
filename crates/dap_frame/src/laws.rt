//! Laws of streams and frames. Each function is empty: its contract is the law.

ghost use Rattle.dap_frame.specs.Laws.{EachStreamHasOneSplit, WrittenIsReadAgain, FrameHasNoFrameWithin};

/// Each stream has exactly one split into frames and a rest without a frame at its front.
pub fn each_stream_has_one_split()
    ensures { EachStreamHasOneSplit }
{}

/// What is written of bodies within the limit is frames of them, and is split into them again.
pub fn written_is_read_again()
    ensures { WrittenIsReadAgain }
{}

/// A frame holds no shorter frame at its front, and no refusal.
pub fn frame_has_no_frame_within()
    ensures { FrameHasNoFrameWithin }
{}
