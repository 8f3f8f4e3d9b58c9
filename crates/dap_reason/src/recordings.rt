//! Why a recording is refused, in words.

ghost use Rattle.std.specs.Prelude.{◌≡◌, ◌++◌, ◌∷◌, [], codes, flat_map, OnOk};
ghost use Rattle.std.specs.Fmt.{signed_decimal};
ghost use Rattle.dap_explain.specs.Sentences.{joined_text};
ghost use Rattle.dap_reason.specs.Recordings.{words_of_kind, words_of_lines, words_of_number, words_of_cause, text_of_element, text_of_index, text_of_place, words_of_refusal_found, words_of_bytes, words_of_recording};

use crate::excerpt::{Part, push};
use dap_recording::{
    BadCause, BadPlace, Element, JsonKind, RecordingFault, RecordingRefusal, refusal_of,
};
use std::alloc::{AllocError, Global};

/// What is said where memory was refused.
pub const NO_MEMORY: &str = "memory was refused";

fn kind_words(kind: JsonKind) -> &'static str
    ensures { result.now ≡ words_of_kind kind }
{
    match kind {
        JsonKind::Null => "null",
        JsonKind::Boolean => "a boolean",
        JsonKind::Number => "a number",
        JsonKind::Text => "a string",
        JsonKind::Array => "an array",
        JsonKind::Object => "an object",
    }
}

fn push_number(out: &mut Vec<u8>, number: Option<i64>) -> Result<(), AllocError>
    ensures { OnOk result (out.new.items ≡ out.old.items ++ words_of_number number) }
{
    match number {
        None => push(out, &[Part::Words("a number, not a whole one")]),
        Some(number) => push(out, &[Part::Integer(number), Part::Words(", not")]),
    }
}

fn push_out_of_range(
    out: &mut Vec<u8>,
    number: Option<i64>,
    least: i64,
    greatest: i64,
) -> Result<(), AllocError>
    ensures { OnOk result (out.new.items ≡ out.old.items ++ words_of_cause (BadCause.OutOfRange number least greatest)) }
{
    push_number(out, number)?;
    push(
        out,
        &[
            Part::Words(" from "),
            Part::Integer(least),
            Part::Words(" to "),
            Part::Integer(greatest),
        ],
    )
}

fn push_cause(out: &mut Vec<u8>, cause: &BadCause) -> Result<(), AllocError>
    ensures { OnOk result (out.new.items ≡ out.old.items ++ words_of_cause cause.now) }
{
    match cause {
        BadCause::Absent => push(out, &[Part::Words("absent")]),
        BadCause::OtherKind { found, due } => push_other_kind(out, *found, *due),
        BadCause::DuplicateId { id } => push_duplicate_id(out, *id),
        BadCause::NoThread { id } => push_no_thread(out, *id),
        BadCause::NoElements => push(out, &[Part::Words("an empty array")]),
        BadCause::TooMany { count } => push_too_many(out, *count),
        BadCause::TooLong { bytes, most } => push_too_long(out, *bytes, *most),
        BadCause::OutOfRange {
            number,
            least,
            greatest,
        } => push_out_of_range(out, *number, *least, *greatest),
        BadCause::NotPlain => push(
            out,
            &[Part::Words("an object with a float, or nested more than 100 deep")],
        ),
        BadCause::NoSource { source, count } => push_no_source(out, *source, *count),
        BadCause::PastLines { line, lines } => push_past_lines(out, *line, *lines),
    }
}

fn push_other_kind(out: &mut Vec<u8>, found: JsonKind, due: JsonKind) -> Result<(), AllocError>
    ensures { OnOk result (out.new.items ≡ out.old.items ++ words_of_cause (BadCause.OtherKind found due)) }
{
    push(
        out,
        &[
            Part::Words(kind_words(found)),
            Part::Words(", not "),
            Part::Words(kind_words(due)),
        ],
    )
}

fn push_too_many(out: &mut Vec<u8>, count: u64) -> Result<(), AllocError>
    ensures { OnOk result (out.new.items ≡ out.old.items ++ words_of_cause (BadCause.TooMany count)) }
{
    push(
        out,
        &[
            Part::Number(count),
            Part::Words(" elements, more than 65536"),
        ],
    )
}

fn push_too_long(out: &mut Vec<u8>, bytes: u64, most: u64) -> Result<(), AllocError>
    ensures { OnOk result (out.new.items ≡ out.old.items ++ words_of_cause (BadCause.TooLong bytes most)) }
{
    push(
        out,
        &[
            Part::Words("a text of "),
            Part::Number(bytes),
            Part::Words(" bytes, not at most "),
            Part::Number(most),
        ],
    )
}

fn push_no_source(out: &mut Vec<u8>, source: u32, count: u64) -> Result<(), AllocError>
    ensures { OnOk result (out.new.items ≡ out.old.items ++ words_of_cause (BadCause.NoSource source count)) }
{
    push(
        out,
        &[
            Part::Number(u64::from(source)),
            Part::Words(" is not below "),
            Part::Number(count),
            Part::Words(", the number of sources"),
        ],
    )
}

/// Appends a count of lines.
fn push_lines(out: &mut Vec<u8>, lines: u64) -> Result<(), AllocError>
    ensures { OnOk result (out.new.items ≡ out.old.items ++ words_of_lines lines) }
{
    if lines == 1 {
        return push(out, &[Part::Words("1 line")]);
    }
    push(out, &[Part::Number(lines), Part::Words(" lines")])
}

fn push_past_lines(out: &mut Vec<u8>, line: u32, lines: u64) -> Result<(), AllocError>
    ensures { OnOk result (out.new.items ≡ out.old.items ++ words_of_cause (BadCause.PastLines line lines)) }
{
    push(
        out,
        &[
            Part::Number(u64::from(line)),
            Part::Words(" is past the text's "),
        ],
    )?;
    push_lines(out, lines)
}

/// Appends an id, and what is wrong with it.
fn push_id(out: &mut Vec<u8>, id: i64, words: &str) -> Result<(), AllocError>
    ensures { OnOk result (out.new.items ≡ out.old.items ++ joined_text (signed_decimal id ∷ words.now ∷ [])) }
{
    push(out, &[Part::Integer(id), Part::Words(words)])
}

fn push_duplicate_id(out: &mut Vec<u8>, id: i64) -> Result<(), AllocError>
    ensures { OnOk result (out.new.items ≡ out.old.items ++ words_of_cause (BadCause.DuplicateId id)) }
{
    push_id(out, id, " is the id of an earlier thread")
}

fn push_no_thread(out: &mut Vec<u8>, id: i64) -> Result<(), AllocError>
    ensures { OnOk result (out.new.items ≡ out.old.items ++ words_of_cause (BadCause.NoThread id)) }
{
    push_id(out, id, " is no thread of the moment")
}

fn push_element(out: &mut Vec<u8>, element: &Element) -> Result<(), AllocError>
    ensures { OnOk result (out.new.items ≡ out.old.items ++ text_of_element element.now) }
{
    push(
        out,
        &[
            Part::Words(element.array.name()),
            Part::Words("["),
            Part::Number(element.index),
            Part::Words("]."),
        ],
    )
}

fn push_elements(out: &mut Vec<u8>, elements: &[Element]) -> Result<(), AllocError>
    ensures { OnOk result (out.new.items ≡ out.old.items ++ flat_map text_of_element elements.now) }
{
    for element in elements {
        push_element(out, element)?;
    }
    Ok(())
}

fn push_index(out: &mut Vec<u8>, index: Option<u64>) -> Result<(), AllocError>
    ensures { OnOk result (out.new.items ≡ out.old.items ++ text_of_index index) }
{
    match index {
        None => Ok(()),
        Some(index) => push(
            out,
            &[Part::Words("["), Part::Number(index), Part::Words("]")],
        ),
    }
}

fn push_place(out: &mut Vec<u8>, place: &BadPlace) -> Result<(), AllocError>
    ensures { OnOk result (out.new.items ≡ out.old.items ++ text_of_place place.now) }
{
    push_elements(out, place.within.as_slice())?;
    push(out, &[Part::Words(place.key.name())])?;
    push_index(out, place.element)
}

fn push_bad_key(out: &mut Vec<u8>, place: &BadPlace) -> Result<(), AllocError>
    ensures { OnOk result (out.new.items ≡ out.old.items ++ (text_of_place place.now ++ codes ": " ++ words_of_cause place.now.cause)) }
{
    push_place(out, place)?;
    push(out, &[Part::Words(": ")])?;
    push_cause(out, &place.cause)
}

fn push_refusal(out: &mut Vec<u8>, refusal: &Option<RecordingRefusal>) -> Result<(), AllocError>
    ensures { OnOk result (out.new.items ≡ out.old.items ++ words_of_refusal_found refusal.now) }
{
    match refusal {
        None => push(out, &[Part::Words("a recording")]),
        Some(RecordingRefusal::NotJson) => push(out, &[Part::Words("no JSON")]),
        Some(RecordingRefusal::NotObject { found }) => push(
            out,
            &[
                Part::Words(kind_words(*found)),
                Part::Words(", not an object"),
            ],
        ),
        Some(RecordingRefusal::BadKey(place)) => push_bad_key(out, place),
    }
}

/// Appends why bytes are no recording: the place of the first bad key, and what is wrong there. They are read once more.
///
/// # Errors
/// Where memory for that or for the words is refused.
pub fn push_why(alloc: Global, out: &mut Vec<u8>, bytes: &[u8]) -> Result<(), AllocError>
    ensures { OnOk result (out.new.items ≡ out.old.items ++ words_of_bytes bytes.now) }
{
    let refusal = refusal_of(alloc, bytes)?;
    push_refusal(out, &refusal)
}

/// Appends why a recording was refused with this fault.
///
/// # Errors
/// Those of [`push_why`].
pub fn push_recording(
    alloc: Global,
    out: &mut Vec<u8>,
    bytes: &[u8],
    fault: &RecordingFault,
) -> Result<(), AllocError>
    ensures { OnOk result (out.new.items ≡ out.old.items ++ words_of_recording bytes.now fault.now) }
{
    match fault {
        RecordingFault::OutOfMemory => push(out, &[Part::Words(NO_MEMORY)]),
        _ => push_why(alloc, out, bytes),
    }
}
