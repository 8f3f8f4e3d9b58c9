//! What is wrong with a value that is not as it is due.
ghost use Rattle.std.specs.Prelude.{◌≡◌};
ghost use Rattle.serde_json.specs.Find.{as_str};
ghost use Rattle.serde_json.specs.View.{view};
ghost use Rattle.dap_json.specs.Numbers.{int_of, number_of};
ghost use Rattle.dap_recording.specs.Places.{kind_of as kind_of_data, other_than, no_number as no_number_of, no_exit as no_exit_of, no_id as no_id_of, text_cause, source_cause, line_cause, id_cause, thread_cause, more_cause};

use crate::numbers;
use crate::place::{BadCause, JsonKind};
use serde_json::Value;

/// The greatest line, and the greatest place of a source.
const MAX_NUMBER: i64 = numbers::MAX_NUMBER as i64;

pub(crate) fn kind_of(value: &Value) -> JsonKind
    ensures { result ≡ kind_of_data (view value.now) }
{
    match value {
        Value::Null => JsonKind::Null,
        Value::Bool(_) => JsonKind::Boolean,
        Value::Number(_) => JsonKind::Number,
        Value::String(_) => JsonKind::Text,
        Value::Array(_) => JsonKind::Array,
        Value::Object(_) => JsonKind::Object,
    }
}

pub(crate) fn other(value: &Value, due: JsonKind) -> BadCause
    ensures { result ≡ other_than due (view value.now) }
{
    BadCause::OtherKind {
        found: kind_of(value),
        due,
    }
}

/// It is no whole number from the least to the greatest.
fn no_number(value: &Value, least: i64, greatest: i64) -> BadCause
    ensures { result ≡ no_number_of least greatest (view value.now) }
{
    if value.is_number() {
        return BadCause::OutOfRange {
            number: value.as_i64(),
            least,
            greatest,
        };
    }
    other(value, JsonKind::Number)
}

pub(crate) fn no_exit(value: &Value) -> BadCause
    ensures { result ≡ no_exit_of (view value.now) }
{
    no_number(value, i32::MIN as i64, i32::MAX as i64)
}

fn no_id(value: &Value) -> BadCause
    ensures { result ≡ no_id_of (view value.now) }
{
    no_number(value, -numbers::MAX_ID, numbers::MAX_ID)
}

/// It is no text of at most so many bytes.
pub(crate) fn no_short_text(value: &Value, most: usize) -> BadCause
    ensures { result ≡ text_cause most (view value.now) (as_str (view value.now)) }
{
    match value.as_str() {
        Some(text) => BadCause::TooLong {
            bytes: text.len() as u64,
            most: most as u64,
        },
        None => other(value, JsonKind::Text),
    }
}

/// Its members cannot stand beside others.
pub(crate) fn no_more(value: &Value) -> BadCause
    ensures { result ≡ more_cause (view value.now) }
{
    if value.is_object() {
        BadCause::NotPlain
    } else {
        other(value, JsonKind::Object)
    }
}

/// It is the place of none of so many sources.
pub(crate) fn no_source(value: &Value, count: u64) -> BadCause
    ensures { result ≡ source_cause count (view value.now) (number_of (view value.now)) }
{
    match numbers::number(value) {
        Some(source) => BadCause::NoSource { source, count },
        None => no_number(value, 0, MAX_NUMBER),
    }
}

/// It is no line of a text that has so many.
pub(crate) fn no_line(value: &Value, lines: u64) -> BadCause
    ensures { result ≡ line_cause lines (view value.now) (number_of (view value.now)) }
{
    match numbers::number(value) {
        Some(line) if 1 <= line => BadCause::PastLines { line, lines },
        _ => no_number(value, 1, MAX_NUMBER),
    }
}

/// It is no id, or an earlier thread has it.
pub(crate) fn no_new_id(value: &Value) -> BadCause
    ensures { result ≡ id_cause (view value.now) (int_of (view value.now)) }
{
    match numbers::int(value) {
        Some(id) => BadCause::DuplicateId { id },
        None => no_id(value),
    }
}

/// It is no id, or no thread has it.
pub(crate) fn no_thread(value: &Value) -> BadCause
    ensures { result ≡ thread_cause (view value.now) (int_of (view value.now)) }
{
    match numbers::int(value) {
        Some(id) => BadCause::NoThread { id },
        None => no_id(value),
    }
}
