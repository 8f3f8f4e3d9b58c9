//! The numbers that digits alone write, as most numbers of messages are.
ghost use Rattle.std.specs.Prelude.{◌≡◌, IfSome, Some};
ghost use Rattle.serde_json.specs.Data.{unsigned};
ghost use Rattle.serde_json.specs.Read.{number_of};

/// 10^18: a number below it has room for one digit more.
const FULL: u64 = 1_000_000_000_000_000_000;

/// The number that a text of digits alone writes. Of more than 19 digits, and of any other text, nothing is told.
#[inline(always)]
pub(crate) fn whole(text: &[u8]) -> Option<u64>
    ensures { IfSome result (λ n. number_of text.now ≡ Some (unsigned n)) }
{
    let mut n: u64 = 0;
    for byte in text {
        if *byte < b'0' || *byte > b'9' || n >= FULL {
            return None;
        }
        n = n * 10 + (*byte - b'0') as u64;
    }
    if text.is_empty() {
        return None;
    }
    Some(n)
}
