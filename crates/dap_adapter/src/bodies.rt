//! Bodies for a transport that has frames of its own: what a header is made of, where a body comes without one, and the bodies of
//! the frames that an adapter handed out, which are lent. It knows the header that `dap_frame::write_frame` writes.
ghost use Rattle.std.specs.Prelude.{◌≡◌, ℕ, ◌<◌, ◌^◌, List, [], ◌∷◌, ◌++◌, length, codes, decimal, true, IfOk, IfErr, OnOk, OnErr, IfSome, Some, None, Ok, Err, MatchOption};
ghost use Rattle.dap_adapter.specs.Bodies.{BodiesComeOneByOne, LendsFirstBody};
ghost use Rattle.dap_adapter.specs.Parts.{AnswersAll, StaysEnded, StaysShut, StopsIfOpen};
ghost use Rattle.dap_adapter.specs.Run.{to_take};
ghost use Rattle.dap_frame.specs.Written.{frame_of};

use crate::adapter::Adapter;
use crate::serving::is_ended;
use dap_debuggee::Debuggee;
use dap_frame::{each_stream_has_one_split, frame_has_no_frame_within, written_is_read_again};
use dap_plan::AdapterFault;
use itoa::Buffer;
use memchr::memchr;
use std::alloc::Global;

impl<D: Debuggee + Drop> Adapter<D> {
    /// Takes a message of the client by its body alone, where a transport has frames of its own, and does for it what `answer`
    /// does for its frame, also where bytes of another frame are held. No frame is made of it. What is to be written is appended
    /// to `out` as `answer` does it; `first_body` lends the bodies of that.
    ///
    /// # Errors
    /// Those of `answer`: a body longer than the limit is a `Frame` that is `BodyTooLong`, and one that is no message a `Body`.
    pub fn answer_body(
        &mut self,
        alloc: Global,
        body: &[u8],
        out: &mut Vec<u8>,
    ) -> Result<bool, AdapterFault>
        ensures answers { IfOk result
            (AnswersAll D.shown D.follows self.old (frame_of body.now) out.old self.new out.new) }
        ensures over { StaysEnded self.old self.new out.old out.new result }
        ensures open { OnOk result (self.new.fault ≡ None) }
        ensures limits { self.new.session.limits ≡ self.old.session.limits }

        // Why it stops; then what was made before is appended, and nothing is held.
        ensures stops { IfErr result
            (StopsIfOpen D.shown D.follows self.old to_take (frame_of body.now) out.old self.new out.new) }
        ensures held { OnErr result (self.new.intake.held ≡ []) }
        ensures latches { IfErr result (λ fault. self.new.fault ≡ Some fault) }
        ensures latched { StaysShut self.old self.new out.old out.new result }
    {
        if let Some(fault) = self.fault() {
            return Err(fault);
        }
        if is_ended(self.phase()) {
            return Ok(true);
        }
        let mut digits = Buffer::new();
        let text = digits.format(body.len()).as_bytes();
        match self.answer_in_two(alloc, b"Content-Length: ", text, out) {
            Ok(false) => self.answer_in_two(alloc, b"\r\n\r\n", body, out),
            Ok(true) => Ok(true),
            Err(fault) => Err(fault),
        }
    }
}

/// A law: an adapter between two messages takes a body within the limit as the one message that comes, and is between two
/// messages again.
pub fn bodies_come_one_by_one<D: Debuggee>()
    ensures { BodiesComeOneByOne D.shown D.follows }
{
    written_is_read_again();
    each_stream_has_one_split();
    frame_has_no_frame_within();
}

/// The number that digits write.
fn number(digits: &[u8]) -> Option<usize>
    ensures { (n : ℕ) → n < 2 ^ 64 → digits.now ≡ decimal n → result ≡ Some n }
{
    let Ok(text) = str::from_utf8(digits) else {
        return None;
    };
    text.parse().ok()
}

/// The digits of a length, and what is behind them.
fn split_digits(bytes: &[u8]) -> Option<(&[u8], &[u8])>
    ensures split { (n : ℕ) (rest : List ℕ) → n < 2 ^ 64 → bytes.now ≡ codes "Content-Length: " ++ (decimal n ++ 13 ∷ rest) → MatchOption result ⊥ (λ r. (r.0.now ≡ decimal n) × (r.1.now ≡ 13 ∷ rest)) }
    ensures shorter { IfSome result (λ r. length r.1.now < length bytes.now) }
{
    let value = bytes.strip_prefix(b"Content-Length: ")?;
    let end = memchr(b'\r', value)?;
    value.split_at_checked(end)
}

/// The body of the first frame of those that an adapter handed out, lent, and what is behind it; `None` where nothing is left. Of
/// other bytes nothing is promised: this is no reader of a peer's frames. So all bodies are told by `while let Some((body, later)) = first_body(rest)`, and none is copied.
pub fn first_body(frames: &[u8]) -> Option<(&[u8], &[u8])>
    ensures first { LendsFirstBody frames.now result }
    ensures shorter { IfSome result (λ r. length r.1.now < length frames.now) }
{
    // For the proof: a length fits into 64 bits.
    let _ = frames.len();
    let (digits, behind) = split_digits(frames)?;
    let len = number(digits)?;
    let (_blank_line, rest) = behind.split_at_checked(4)?;
    rest.split_at_checked(len)
}
