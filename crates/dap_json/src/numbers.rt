//! The whole numbers of messages and recordings: which JSON values are one, and how great it may be. A float is none, also
//! one with no fraction.
ghost use Rattle.std.specs.Prelude.{◌≡◌};
ghost use Rattle.serde_json.specs.View.{view};
ghost use Rattle.dap_json.specs.Numbers.{is_int as is_int_number, int_of, number_of, seq_of};

use crate::field::MAX_SEQ;
use serde_json::Value;

/// The greatest count, reference, line and place.
pub const MAX_NUMBER: u32 = 2147483647;

/// The greatest whole number of either sign: every JSON reader keeps those up to it.
pub const MAX_INT: i64 = 9007199254740991;

/// Whether a whole number is `-MAX_INT` to [`MAX_INT`].
pub fn is_int(n: i64) -> bool
    ensures { result ≡ is_int_number n }
{
    -MAX_INT <= n && n <= MAX_INT
}

/// A whole number of `-MAX_INT` to [`MAX_INT`].
pub fn int(value: &Value) -> Option<i64>
    ensures { result ≡ int_of (view value.now) }
{
    value.as_i64().filter(|n| is_int(*n))
}

/// A whole number of 0 to [`MAX_NUMBER`].
pub fn number(value: &Value) -> Option<u32>
    ensures { result ≡ number_of (view value.now) }
{
    match value.as_u64() {
        Some(n) if n <= MAX_NUMBER as u64 => Some(n as u32),
        _ => None,
    }
}

/// A whole number of 0 to [`MAX_SEQ`].
pub fn whole(value: &Value) -> Option<u64>
    ensures { result ≡ seq_of (view value.now) }
{
    value.as_u64().filter(|n| *n <= MAX_SEQ)
}
