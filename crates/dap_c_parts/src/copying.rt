//! Bytes into a buffer of the caller: bytes come in, and a code goes out. Only the buffer is touched.
ghost use Rattle.std.specs.Prelude.{◌≡◌, ◌<◌, ◌≤◌, ◌++◌, length, drop};

use crate::codes::{YT_OK, YT_SMALL};

/// Puts bytes into a buffer, or nothing where there is no room for all of them.
pub fn put(from: &[u8], out: &mut [u8]) -> u32
    ensures put { result ≡ YT_OK → out.new ≡ from.now ++ drop (length from.now) out.old }
    ensures room { result ≡ YT_OK → length from.now ≤ length out.old }
    ensures small { result ≡ YT_SMALL → (length out.old < length from.now) × (out.new ≡ out.old) }
    ensures codes { (result ≡ YT_SMALL → ⊥) → result ≡ YT_OK }
{
    let count = from.len();
    if out.len() < count {
        return YT_SMALL;
    }
    let (into, _) = out.split_at_mut(count);
    into.copy_from_slice(from);
    YT_OK
}

/// Puts numbers into a buffer, or nothing where there is no room for all of them.
pub fn put_numbers(from: &[u32], out: &mut [u32]) -> u32
    ensures put { result ≡ YT_OK → out.new ≡ from.now ++ drop (length from.now) out.old }
    ensures room { result ≡ YT_OK → length from.now ≤ length out.old }
    ensures small { result ≡ YT_SMALL → (length out.old < length from.now) × (out.new ≡ out.old) }
    ensures codes { (result ≡ YT_SMALL → ⊥) → result ≡ YT_OK }
{
    let size = from.len();
    if out.len() < size {
        return YT_SMALL;
    }
    let (into, _) = out.split_at_mut(size);
    into.copy_from_slice(from);
    YT_OK
}
