//! What a ring holds, lent in one piece.

ghost use Rattle.std.specs.Prelude.{◌≡◌};
ghost use Rattle.std.specs.Borrow.{sem};
ghost use Rattle.dap_frame.specs.PrivateRingLends.{StaysItems};

use circular_buffer::HeapCircularBuffer;
use std::alloc::Allocator;

/// All that a ring holds, in one piece: its items are moved only where they lie in two. The ring holds the same after the
/// loan. The proof is written by hand, statement by statement of this body: keep it as it is.
pub(crate) fn lend_all<A: Allocator>(ring: &mut HeapCircularBuffer<u8, A>) -> &[u8]
    ensures* stays { sem 𝓛 (StaysItems A.row A.Allocator ring.entry) }
    ensures value { result.now ≡ ring.old.items }
{
    ring.make_contiguous()
}
