//! From bytes to JSON, and back.
ghost use Rattle.std.specs.Prelude.{◌≡◌, ◌≤◌, Some, IfOk, false};
ghost use Rattle.json.specs.Lex.{tokens};
ghost use Rattle.json.specs.Print.{print};
ghost use Rattle.serde_json.specs.Data.{depth};
ghost use Rattle.serde_json.specs.Read.{max_depth};
ghost use Rattle.serde_json.specs.View.{view};
ghost use Rattle.serde_json.specs.Written.{has_float, compact_text, IsInOrder};
ghost use Rattle.dap_json.specs.Read.{json_of};

use serde_json::Value;
use std::alloc::{AllocError, Global};

/// Why bytes were not parsed.
#[derive(Clone, Copy, Debug, PartialEq, Eq)]
pub enum ParseFault {
    /// They are not UTF-8 or no JSON value, nest deeper than 127, or have a number too great for a
    /// float.
    NotJson,
    /// The allocator refused memory for the value. Nothing is kept of it.
    OutOfMemory,
}

/// The JSON value that bytes are. Of two members with one key the last stays.
///
/// `OutOfMemory` comes where the allocator refuses memory for the value; nothing is kept of it.
pub fn parse(alloc: Global, bytes: &[u8]) -> Result<Value, ParseFault>
    ensures ok { IfOk result (λ v. json_of bytes.now ≡ Some (view v)) }
    ensures refused { result ≡ Err ParseFault.NotJson → json_of bytes.now ≡ None }
{
    match Value::from_slice(alloc, bytes) {
        Ok(value) => Ok(value),
        Err(e) if e.is_memory() => Err(ParseFault::OutOfMemory),
        Err(_) => Err(ParseFault::NotJson),
    }
}

/// The value as JSON with no white space: its items and members in order, which for members is the
/// byte order of their keys, and its integers in decimal. A float is written in digits that are read
/// again as that float, and which digits these are is not told.
pub fn write(alloc: Global, value: &Value) -> Result<Vec<u8>, AllocError>
    ensures text { IfOk result (λ b. has_float (view value.now) ≡ false
        → b.items ≡ compact_text (view value.now)) }
    ensures compact { IfOk result (λ b. b.items ≡ print (tokens b.items)) }
    ensures order { IfOk result (λ b. IsInOrder b.items (view value.now)) }
    ensures reads_back { IfOk result (λ b. depth (view value.now) ≤ max_depth
        → json_of b.items ≡ Some (view value.now)) }
{
    value.to_vec(alloc)
}
