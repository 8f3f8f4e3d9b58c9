//! The numbers of a recording: which JSON values are one, and how great it may be.
ghost use Rattle.std.specs.Prelude.{◌≡◌};
ghost use Rattle.serde_json.specs.View.{view};
ghost use Rattle.dap_recording.specs.Reading.{exit_of};
ghost use Rattle.dap_recording.specs.Recording.{line_count as line_count_of};

pub use dap_json::numbers::{int, number};
use serde_json::Value;

/// The greatest line, and the greatest place of a source.
pub const MAX_NUMBER: u64 = dap_json::numbers::MAX_NUMBER as u64;

/// The greatest id of a thread.
pub const MAX_ID: i64 = dap_json::numbers::MAX_INT;

/// The most bytes of the reason of a moment's own stop.
pub const MAX_REASON: usize = 64;

/// The most bytes of the description of such a stop, and of its text.
pub const MAX_WORDS: usize = 128;

/// The most sources.
pub const MAX_SOURCES: usize = 65536;

/// The exit code of a run, from -2147483648 to 2147483647.
pub fn status(value: &Value) -> Option<i32>
    ensures { result ≡ exit_of (view value.now) }
{
    match value.as_i64() {
        Some(n) if i32::MIN as i64 <= n && n <= i32::MAX as i64 => Some(n as i32),
        _ => None,
    }
}

/// How many lines a text has: pieces ended by LF, and a last one that is not empty.
pub fn line_count(text: &str) -> u64
    ensures { result ≡ line_count_of text.now }
{
    let mut lines = 0;
    let mut open = false;
    for byte in text.as_bytes() {
        if *byte == b'\n' {
            lines += 1;
        }
        open = *byte != b'\n';
    }
    if open { lines + 1 } else { lines }
}
