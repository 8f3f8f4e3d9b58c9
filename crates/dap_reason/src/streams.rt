//! Why a stream, a file of messages or a transcript is refused, in words.

ghost use Rattle.std.specs.Prelude.{◌≡◌, ◌++◌, OnOk};
ghost use Rattle.dap_reason.specs.Streams.{words_of_refusal, words_of_body_refusal, words_of_show, words_of_wrap, words_of_bad_line, words_of_check};

use crate::excerpt::{Part, bytes_at, header_at, line_of_number, push, push_at, push_at_line};
use crate::recordings::NO_MEMORY;
use dap_check::CheckFault;
use dap_envelope::BodyRefusal;
use dap_frame::Refusal;
use dap_stream::{ShowFault, WrapFault};
use std::alloc::AllocError;

/// Why a frame is refused, in words.
pub fn refusal_words(refusal: Refusal) -> &'static str
    ensures { result.now ≡ words_of_refusal refusal }
{
    match refusal {
        Refusal::HeaderTooLong => "the header block does not end within its limit",
        Refusal::BadHeader => "a line of the header block is no header field",
        Refusal::NoLength => "no header field is named Content-Length",
        Refusal::TwoLengths => "more than one header field is named Content-Length",
        Refusal::BadLength => "the value of Content-Length is no number",
        Refusal::BodyTooLong => "the body is longer than its limit",
    }
}

/// Why a body is no message, in words.
pub fn body_refusal_words(refusal: BodyRefusal) -> &'static str
    ensures { result.now ≡ words_of_body_refusal refusal }
{
    match refusal {
        BodyRefusal::NotJson => "the body is no JSON",
        BodyRefusal::NotObject => "the body is no object",
        BodyRefusal::BadSeq => "seq is absent or no number of 0 to 9007199254740991",
        BodyRefusal::BadType => "type is absent or no string",
        BodyRefusal::BadCommand => "command is absent, no string, or longer than 64 bytes",
        BodyRefusal::BadRequestSeq => "request_seq is absent or no number of 0 to 9007199254740991",
        BodyRefusal::BadSuccess => "success is absent or no boolean",
        BodyRefusal::BadEvent => "event is absent or no string",
        BodyRefusal::BadMessage => "message is no string",
    }
}

/// Appends where a stream, of which these are the bytes, is refused, and what is there: the lines of the header block, or the
/// body.
pub fn push_show(out: &mut Vec<u8>, bytes: &[u8], fault: &ShowFault) -> Result<(), AllocError>
    ensures { OnOk result (out.new.items ≡ out.old.items ++ words_of_show bytes.now fault.now) }
{
    match fault {
        ShowFault::Frame(fault) => {
            let header = header_at(bytes, fault.offset);
            push_at(out, fault.offset, Part::Excerpt(header))
        }
        ShowFault::Body {
            offset,
            body_offset,
            body_length,
            ..
        } => {
            let body = bytes_at(bytes, *body_offset, *body_length);
            push_at(out, *offset, Part::Excerpt(body))
        }
        ShowFault::OutOfMemory => push(out, &[Part::Words(NO_MEMORY)]),
    }
}

/// Appends which line of a file of messages is refused.
pub fn push_wrap(out: &mut Vec<u8>, bytes: &[u8], fault: &WrapFault) -> Result<(), AllocError>
    ensures { OnOk result (out.new.items ≡ out.old.items ++ words_of_wrap bytes.now fault.now) }
{
    match fault {
        WrapFault::Body { line, .. } => push_at_line(out, bytes, *line),
        WrapFault::BodyTooLong { line } => push_at_line(out, bytes, *line),
        WrapFault::OutOfMemory => push(out, &[Part::Words(NO_MEMORY)]),
    }
}

/// What a file of frames is for, where a transcript is wanted.
const STREAM: &str =
    " begins a frame: dap show lists a stream of them, and scripts/transcripts streams UP DOWN makes a transcript of both directions";

/// Appends which line is of neither side, and what to do with a stream of frames.
fn push_bad_line(out: &mut Vec<u8>, bytes: &[u8], line: u64) -> Result<(), AllocError>
    ensures { OnOk result (out.new.items ≡ out.old.items ++ words_of_bad_line bytes.now line) }
{
    push_at_line(out, bytes, line)?;
    if line_of_number(bytes, line).starts_with(b"Content-Length:") {
        return push(out, &[Part::Words(STREAM)]);
    }
    Ok(())
}

/// Appends which line of a transcript is refused.
pub fn push_check(out: &mut Vec<u8>, bytes: &[u8], fault: &CheckFault) -> Result<(), AllocError>
    ensures { OnOk result (out.new.items ≡ out.old.items ++ words_of_check bytes.now fault.now) }
{
    match fault {
        CheckFault::BadLine { line } => push_bad_line(out, bytes, *line),
        CheckFault::Body { line, .. } => push_at_line(out, bytes, *line),
        CheckFault::OutOfMemory => push(out, &[Part::Words(NO_MEMORY)]),
    }
}
