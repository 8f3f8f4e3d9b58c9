//! A reason in one sentence.
ghost use Rattle.std.specs.Prelude.{◌≡◌, ◌∷◌, ◌++◌, [], decimal, flat_map, OnOk, IfOk, string_bytes};
ghost use Rattle.dap_explain.specs.Sentences.{joined_text, other_words, sentence_of, part_text};

use crate::reason::{Reason, ReferenceKind};
use dap_command::Gate;
use itoa::Buffer;
use std::alloc::{AllocError, Global};

/// What a sentence is made of.
#[derive(Clone, Copy)]
enum Part<'a> {
    Words(&'a str),
    Number(u64),
}

fn push_part(text: &mut String, part: &Part<'_>) -> Result<(), AllocError>
    ensures { OnOk result (string_bytes text.new ≡ string_bytes text.old ++ part_text part.now) }
{
    match part {
        Part::Words(words) => text.push_str(words),
        Part::Number(number) => {
            let mut buffer = Buffer::new();
            text.push_str(buffer.format(*number))
        }
    }
}

fn push(text: &mut String, parts: &[Part<'_>]) -> Result<(), AllocError>
    ensures { OnOk result (string_bytes text.new ≡ string_bytes text.old ++ flat_map part_text parts.now) }
{
    for part in parts {
        push_part(text, part)?;
    }
    Ok(())
}

fn words_of_other(kind: ReferenceKind) -> &'static str
    ensures { result.now ≡ other_words kind }
{
    match kind {
        ReferenceKind::Frame => " gave as a variablesReference",
        ReferenceKind::Variables => " gave as the id of a stack frame",
    }
}

fn push_first_number(text: &mut String, due: u64) -> Result<(), AllocError>
    ensures { OnOk result (string_bytes text.new ≡ string_bytes text.old ++ sentence_of (Reason.Numbered due None)) }
{
    push(
        text,
        &[
            Part::Words("seq "),
            Part::Number(due),
            Part::Words(" was due, in the first message of its side"),
        ],
    )
}

fn push_number(text: &mut String, due: u64, last: u64) -> Result<(), AllocError>
    ensures { OnOk result (string_bytes text.new ≡ string_bytes text.old ++ sentence_of (Reason.Numbered due (Some last))) }
{
    push(
        text,
        &[
            Part::Words("seq "),
            Part::Number(due),
            Part::Words(" was due, after the message of line "),
            Part::Number(last),
        ],
    )
}

fn push_not_asked(text: &mut String, request: u64) -> Result<(), AllocError>
    ensures { OnOk result (string_bytes text.new ≡ string_bytes text.old ++ sentence_of (Reason.NotAsked request)) }
{
    push(
        text,
        &[
            Part::Words("response to request "),
            Part::Number(request),
            Part::Words(", which the other side has not made"),
        ],
    )
}

fn push_answered(
    text: &mut String,
    request: u64,
    asked: u64,
    answered: u64,
) -> Result<(), AllocError>
    ensures { OnOk result (string_bytes text.new ≡ string_bytes text.old ++ sentence_of (Reason.Answered request asked answered)) }
{
    push(
        text,
        &[
            Part::Words("response to request "),
            Part::Number(request),
            Part::Words(" of line "),
            Part::Number(asked),
            Part::Words(", which line "),
            Part::Number(answered),
            Part::Words(" answered already"),
        ],
    )
}

fn push_other_command(text: &mut String, request: u64, asked: u64) -> Result<(), AllocError>
    ensures { OnOk result (string_bytes text.new ≡ string_bytes text.old ++ sentence_of (Reason.OtherCommand request asked)) }
{
    push(
        text,
        &[
            Part::Words("response to request "),
            Part::Number(request),
            Part::Words(", which line "),
            Part::Number(asked),
            Part::Words(" made for another command"),
        ],
    )
}

fn push_waits(text: &mut String, request: u64, asked: u64) -> Result<(), AllocError>
    ensures { OnOk result (string_bytes text.new ≡ string_bytes text.old ++ sentence_of (Reason.Waits request asked)) }
{
    push(
        text,
        &[
            Part::Words("request "),
            Part::Number(request),
            Part::Words(" again, while request "),
            Part::Number(request),
            Part::Words(" of line "),
            Part::Number(asked),
            Part::Words(" has no response"),
        ],
    )
}

fn push_not_initialized(text: &mut String, gate: Gate) -> Result<(), AllocError>
    ensures { OnOk result (string_bytes text.new ≡ string_bytes text.old ++ sentence_of (Reason.NotInitialized gate)) }
{
    push(
        text,
        &[
            Part::Words("the request needs "),
            Part::Words(gate.flag()),
            Part::Words(", before any successful response to initialize"),
        ],
    )
}

fn push_not_offered(text: &mut String, gate: Gate, decided: u64) -> Result<(), AllocError>
    ensures { OnOk result (string_bytes text.new ≡ string_bytes text.old ++ sentence_of (Reason.NotOffered gate decided)) }
{
    push(
        text,
        &[
            Part::Words("the request needs "),
            Part::Words(gate.flag()),
            Part::Words(", which line "),
            Part::Number(decided),
            Part::Words(" does not set to true"),
        ],
    )
}

fn push_negative(text: &mut String, kind: ReferenceKind) -> Result<(), AllocError>
    ensures { OnOk result (string_bytes text.new ≡ string_bytes text.old ++ sentence_of (Reason.Negative kind)) }
{
    push(
        text,
        &[
            Part::Words("the number at "),
            Part::Words(kind.key()),
            Part::Words(" is below 0, and no reference"),
        ],
    )
}

fn push_never_given(text: &mut String, kind: ReferenceKind, number: u64) -> Result<(), AllocError>
    ensures { OnOk result (string_bytes text.new ≡ string_bytes text.old ++ sentence_of (Reason.NeverGiven kind number)) }
{
    push(
        text,
        &[
            Part::Words(kind.key()),
            Part::Words(" "),
            Part::Number(number),
            Part::Words(", which no response has given"),
        ],
    )
}

fn push_other_kind(
    text: &mut String,
    kind: ReferenceKind,
    number: u64,
    given: u64,
) -> Result<(), AllocError>
    ensures { OnOk result (string_bytes text.new ≡ string_bytes text.old ++ sentence_of (Reason.OtherKind kind number given)) }
{
    push(
        text,
        &[
            Part::Words(kind.key()),
            Part::Words(" "),
            Part::Number(number),
            Part::Words(", which line "),
            Part::Number(given),
            Part::Words(words_of_other(kind)),
        ],
    )
}

fn push_gone(
    text: &mut String,
    kind: ReferenceKind,
    number: u64,
    given: u64,
    resumed: u64,
) -> Result<(), AllocError>
    ensures { OnOk result (string_bytes text.new ≡ string_bytes text.old ++ sentence_of (Reason.Gone kind number given resumed)) }
{
    push(
        text,
        &[
            Part::Words(kind.key()),
            Part::Words(" "),
            Part::Number(number),
            Part::Words(", which line "),
            Part::Number(given),
            Part::Words(" gave, until the debuggee went on or ended in line "),
            Part::Number(resumed),
        ],
    )
}

fn push_line(text: &mut String, words: &str, line: u64) -> Result<(), AllocError>
    ensures { OnOk result (string_bytes text.new ≡ string_bytes text.old ++ joined_text (words.now ∷ decimal line ∷ [])) }
{
    push(text, &[Part::Words(words), Part::Number(line)])
}

fn push_reason(text: &mut String, reason: Reason) -> Result<(), AllocError>
    ensures { OnOk result (string_bytes text.new ≡ string_bytes text.old ++ sentence_of reason) }
{
    match reason {
        Reason::Numbered { due, after: None } => push_first_number(text, due),
        Reason::Numbered {
            due,
            after: Some(last),
        } => push_number(text, due, last),
        Reason::NotAsked { request } => push_not_asked(text, request),
        Reason::Answered {
            request,
            asked,
            answered,
        } => push_answered(text, request, asked, answered),
        Reason::OtherCommand { request, asked } => push_other_command(text, request, asked),
        Reason::Waits { request, asked } => push_waits(text, request, asked),
        Reason::NotInitialize => {
            text.push_str("the first request of the client is not initialize")
        }
        Reason::FirstWaits { asked } => push_line(
            text,
            "the second request of the client, before a response to the first, of line ",
            asked,
        ),
        Reason::NeverAsked => { text.push_str("event initialized, before any initialize request") }
        Reason::InitializeWaits { asked } => push_line(
            text,
            "event initialized, before the response to the initialize request of line ",
            asked,
        ),
        Reason::InitializeFailed { answered } => push_line(
            text,
            "event initialized, after initialize failed in line ",
            answered,
        ),
        Reason::NotInitialized { gate } => push_not_initialized(text, gate),
        Reason::NotOffered { gate, decided } => push_not_offered(text, gate, decided),
        Reason::Negative { kind } => push_negative(text, kind),
        Reason::NeverGiven { kind, number } => push_never_given(text, kind, number),
        Reason::OtherKind {
            kind,
            number,
            given,
        } => push_other_kind(text, kind, number, given),
        Reason::Gone {
            kind,
            number,
            given,
            resumed,
        } => push_gone(text, kind, number, given, resumed),
        Reason::Ended { ended } => push_line(
            text,
            "after the successful response to disconnect in line ",
            ended,
        ),
    }
}

/// A reason in one sentence, with no line feed: what is wrong with the line, and against which earlier line it stands.
/// Lines are told by their numbers, and nothing of what a peer wrote stands in it.
pub fn sentence(alloc: Global, reason: Reason) -> Result<String, AllocError>
    ensures { IfOk result (λ text. string_bytes text ≡ sentence_of reason) }
{
    let mut text = String::new(alloc);
    push_reason(&mut text, reason)?;
    Ok(text)
}
