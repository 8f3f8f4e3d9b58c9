//! A fault of a message in one sentence.
ghost use Rattle.std.specs.Prelude.{◌≡◌, ◌++◌, map, codes, decimal, flat_map, OnOk, IfOk, string_bytes};
ghost use Rattle.dap_shape.specs.Sentences.{subject_of, step_text, first_step_text, path_text, scalar_text, shape_text, wrong_text, fault_sentence};
ghost use Rattle.dap_shape.specs.Seen.{step_seen, wrong_seen};

use crate::entries::values;
use crate::fault::{Cause, Inward, ShapeFault};
use crate::shape::{Choice, Kind as ValueKind, Scalar, Shape};
use dap_envelope::Kind;
use itoa::Buffer;
use std::alloc::{AllocError, Global};

fn push_both(text: &mut String, words: &str, name: &str) -> Result<(), AllocError>
    ensures { OnOk result (string_bytes text.new ≡ string_bytes text.old ++ (words.now ++ name.now)) }
{
    text.push_str(words)?;
    text.push_str(name)
}

fn push_subject(text: &mut String, kind: &Kind) -> Result<(), AllocError>
    ensures { OnOk result (string_bytes text.new ≡ string_bytes text.old ++ subject_of kind.now) }
{
    match kind {
        Kind::Request { command, .. } => push_both(text, "request ", command.as_str()),
        Kind::Response { command, .. } => push_both(text, "response to ", command.as_str()),
        Kind::Event { event, .. } => push_both(text, "event ", event.as_str()),
        Kind::Other { tag } => push_both(text, "message ", tag.as_str()),
    }
}

// ---- where it is

fn push_place(text: &mut String, place: u64) -> Result<(), AllocError>
    ensures { OnOk result (string_bytes text.new ≡ string_bytes text.old ++ (codes "[" ++ decimal place ++ codes "]")) }
{
    let mut buffer = Buffer::new();
    text.push_str("[")?;
    text.push_str(buffer.format(place))?;
    text.push_str("]")
}

fn push_step(text: &mut String, step: Inward) -> Result<(), AllocError>
    ensures { OnOk result (string_bytes text.new ≡ string_bytes text.old ++ step_text (step_seen step)) }
{
    match step {
        Inward::Key(key) => push_both(text, ".", key),
        Inward::Place(place) => push_place(text, place),
    }
}

fn push_steps(text: &mut String, steps: &[Inward]) -> Result<(), AllocError>
    ensures { OnOk result (string_bytes text.new ≡ string_bytes text.old ++ flat_map (λ step. step_text (step_seen step)) steps.now) }
{
    for step in steps {
        push_step(text, *step)?;
    }
    Ok(())
}

fn push_first_step(text: &mut String, step: Inward) -> Result<(), AllocError>
    ensures { OnOk result (string_bytes text.new ≡ string_bytes text.old ++ first_step_text (step_seen step)) }
{
    match step {
        Inward::Key(key) => text.push_str(key),
        Inward::Place(place) => push_place(text, place),
    }
}

fn push_path(text: &mut String, path: &[Inward]) -> Result<(), AllocError>
    ensures { OnOk result (string_bytes text.new ≡ string_bytes text.old ++ path_text (map step_seen path.now)) }
{
    let [first, others @ ..] = path else {
        return Ok(());
    };
    text.push_str(": ")?;
    push_first_step(text, *first)?;
    push_steps(text, others)
}

// ---- what is wrong there

fn push_each(text: &mut String, texts: &'static [&'static str]) -> Result<(), AllocError>
    ensures { OnOk result (string_bytes text.new ≡ string_bytes text.old ++ flat_map (λ one. codes " " ++ one.now) texts.now) }
{
    for one in texts {
        push_both(text, " ", one)?;
    }
    Ok(())
}

fn push_choice(text: &mut String, choice: Choice) -> Result<(), AllocError>
    ensures { OnOk result (string_bytes text.new ≡ string_bytes text.old ++ scalar_text (Scalar.OneOf choice)) }
{
    text.push_str(" is none of")?;
    push_each(text, values(choice))
}

fn push_scalar(text: &mut String, scalar: Scalar) -> Result<(), AllocError>
    ensures { OnOk result (string_bytes text.new ≡ string_bytes text.old ++ scalar_text scalar) }
{
    match scalar {
        Scalar::Any => text.push_str(" is no value"),
        Scalar::Text => text.push_str(" is no text"),
        Scalar::Boolean => text.push_str(" is no boolean"),
        Scalar::Whole => text.push_str(" is no whole number"),
        Scalar::Number => text.push_str(" is no number"),
        Scalar::WholeOrText => text.push_str(" is no whole number and no text"),
        Scalar::OneOf(choice) => push_choice(text, choice),
    }
}

fn push_shape(text: &mut String, shape: Shape) -> Result<(), AllocError>
    ensures { OnOk result (string_bytes text.new ≡ string_bytes text.old ++ shape_text shape) }
{
    match shape {
        Shape::One(ValueKind::Plain(scalar)) => push_scalar(text, scalar),
        Shape::One(ValueKind::Object(_)) => text.push_str(" is no object"),
        Shape::Each(_) => text.push_str(" is no list"),
    }
}

fn push_cause(text: &mut String, cause: Cause) -> Result<(), AllocError>
    ensures { OnOk result (string_bytes text.new ≡ string_bytes text.old ++ wrong_text (wrong_seen cause)) }
{
    match cause {
        Cause::Absent(key) => push_both(text, " has no ", key),
        Cause::OtherThan(shape) => push_shape(text, shape),
    }
}

/// A fault of a message in one sentence, with no line feed: which message it is, the way to the value, and what is wrong
/// with it, as in `response to stackTrace: body.stackFrames[0] has no line`.
pub fn sentence(alloc: Global, kind: &Kind, fault: &ShapeFault) -> Result<String, AllocError>
    ensures { IfOk result (λ text. string_bytes text ≡ fault_sentence kind.now fault.now) }
{
    let mut text = String::new(alloc);
    push_subject(&mut text, kind)?;
    push_path(&mut text, &fault.path)?;
    push_cause(&mut text, fault.cause)?;
    Ok(text)
}
