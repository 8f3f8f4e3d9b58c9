//! The line of a message, in each form, and of a body that is none.

ghost use Rattle.std.specs.Prelude.{◌≡◌, ◌++◌, OnOk, IfOk, IfErr, decimal, option_map};
ghost use Rattle.dap_envelope.specs.Heading.{IsHeadingOf};
ghost use Rattle.dap_envelope.specs.Meaning.{Msg};
ghost use Rattle.dap_envelope.specs.declared.message.Message.{Message};
ghost use Rattle.dap_stream.specs.Lines.{shown_text, shown_byte, outcome_text, words_of_message, line_of_message, reason_of, reason_text, line_with_reason, line_of_object, line_of_body, line_in, name_of_body_refusal, line_of_refused, object_of_refused, refused_in};
ghost use Rattle.dap_stream.specs.Listing.{IsLineOf};
ghost use Rattle.dap_stream.specs.PrivateShowSteps.{kind_words, is_failure, IsUnread, IsStopped};

use crate::bodies::{push_unbroken, test_message};
use dap_envelope::{
    BodyFault, BodyRefusal, Heading, HeadingKind, Kind, Message, read_heading, read_message,
};
use dap_json::object_reader::Scratch;
use itoa::Buffer;
use std::alloc::{AllocError, Global};

/// What the line of a message is.
#[derive(Clone, Copy, Debug, PartialEq, Eq)]
pub enum Form {
    /// For the eye: the offset of the frame, the message's number, its kind and its names.
    Line,
    /// The same, with why a request failed: behind `failed` is the `message` of the response, where it has one.
    Reasons,
    /// For programs: a JSON object with the frame's `offset`, the length of the body in `bytes`, and the `message`, which is the
    /// body without its line feeds and carriage returns.
    Object,
    /// The body, without its line feeds and carriage returns.
    Body,
}

/// How a stream is listed.
#[derive(Clone, Copy, Debug, PartialEq, Eq)]
pub struct Style {
    pub form: Form,
    /// A body that is no message has a line too, and does not end the listing.
    pub keeps_going: bool,
}

fn shown_as(byte: u8) -> u8
    ensures { result ≡ shown_byte byte }
{
    if byte < 32 || byte == 127 { b'?' } else { byte }
}

/// Appends a text as a line shows it: with `?` for each control character.
pub fn push_shown(line: &mut Vec<u8>, text: &[u8]) -> Result<(), AllocError>
    ensures { OnOk result (line.new.items ≡ line.old.items ++ shown_text text.now) }
{
    for byte in text {
        line.push(shown_as(*byte))?;
    }
    Ok(())
}

/// Appends a number in decimal digits.
pub fn push_number(line: &mut Vec<u8>, number: u64) -> Result<(), AllocError>
    ensures { OnOk result (line.new.items ≡ line.old.items ++ decimal number) }
{
    let mut buffer = Buffer::new();
    line.extend_from_slice(buffer.format(number).as_bytes())
}

fn push_outcome(line: &mut Vec<u8>, success: bool) -> Result<(), AllocError>
    ensures { OnOk result (line.new.items ≡ line.old.items ++ outcome_text success) }
{
    if success {
        line.extend_from_slice(b" ok")
    } else {
        line.extend_from_slice(b" failed")
    }
}

fn push_kind(line: &mut Vec<u8>, kind: &HeadingKind<'_>) -> Result<(), AllocError>
    ensures { OnOk result (line.new.items ≡ line.old.items ++ kind_words kind.now) }
{
    match kind {
        HeadingKind::Request { command } => {
            line.extend_from_slice(b" request ")?;
            push_shown(line, command.as_bytes())
        }
        HeadingKind::Response {
            request_seq,
            success,
            command,
        } => {
            line.extend_from_slice(b" response ")?;
            push_shown(line, command.as_bytes())?;
            line.extend_from_slice(b" ")?;
            push_number(line, *request_seq)?;
            push_outcome(line, *success)
        }
        HeadingKind::Event { event } => {
            line.extend_from_slice(b" event ")?;
            push_shown(line, event.as_bytes())
        }
        HeadingKind::Other { tag } => {
            line.extend_from_slice(b" other ")?;
            push_shown(line, tag.as_bytes())
        }
    }
}

/// Makes the front of the line of the message with this heading, whose frame starts at an offset.
fn make_words(line: &mut Vec<u8>, offset: u64, heading: &Heading<'_>) -> Result<(), AllocError>
    ensures { OnOk result ((m : Message) → IsHeadingOf heading.now m → line.new.items ≡ words_of_message offset m) }
{
    line.clear();
    push_number(line, offset)?;
    line.extend_from_slice(b" ")?;
    push_number(line, heading.seq)?;
    push_kind(line, &heading.kind)
}

/// Makes the line of the message with this heading, whose frame starts at an offset.
fn make_line(line: &mut Vec<u8>, offset: u64, heading: &Heading<'_>) -> Result<(), AllocError>
    ensures { OnOk result ((m : Message) → IsHeadingOf heading.now m → line.new.items ≡ line_of_message offset m) }
{
    make_words(line, offset, heading)?;
    line.extend_from_slice(b"\n")
}

/// Makes the line of the message that a body is. A body is read whole only where its heading cannot be read, so that the fault
/// is.
fn make_line_of(
    alloc: Global,
    scratch: &mut Scratch,
    line: &mut Vec<u8>,
    offset: u64,
    body: &[u8],
) -> Result<(), BodyFault>
    ensures made { OnOk result ((m : Message) × Msg body.now m × (line.new.items ≡ line_of_message offset m)) }
    ensures fault { IfErr result (IsUnread body.now) }
{
    if let Some(heading) = read_heading(scratch, body) {
        make_line(line, offset, &heading)?;
        return Ok(());
    }
    let message = read_message(alloc, body)?;
    make_line(line, offset, &message.heading())?;
    Ok(())
}

fn push_reason(line: &mut Vec<u8>, reason: Option<&str>) -> Result<(), AllocError>
    ensures { OnOk result (line.new.items ≡ line.old.items ++ reason_text (option_map (λ text. text.now) reason.entry)) }
{
    match reason {
        None => Ok(()),
        Some(text) => {
            line.extend_from_slice(b" ")?;
            push_shown(line, text.as_bytes())
        }
    }
}

/// The same, with why the request failed.
fn make_line_with_reason(
    line: &mut Vec<u8>,
    offset: u64,
    heading: &Heading<'_>,
    reason: Option<&str>,
) -> Result<(), AllocError>
    ensures { OnOk result ((m : Message) → IsHeadingOf heading.now m → option_map (λ text. text.now) reason.entry ≡ reason_of m.kind → line.new.items ≡ line_with_reason offset m) }
{
    make_words(line, offset, heading)?;
    push_reason(line, reason)?;
    line.extend_from_slice(b"\n")
}

/// Whether a request failed, so that the response may say why.
fn failed(kind: &HeadingKind<'_>) -> bool
    ensures { result ≡ is_failure kind.now }
{
    match kind {
        HeadingKind::Response { success, .. } => !*success,
        _ => false,
    }
}

/// Why the request failed, where the message is a response that says so.
fn reason_in(message: &Message) -> Option<&str>
    ensures { option_map (λ text. text.now) result ≡ reason_of message.now.kind }
{
    match &message.kind {
        Kind::Response {
            success: false,
            message: Some(text),
            ..
        } => Some(text.as_str()),
        _ => None,
    }
}

/// Makes the line, with why a request failed, of the message that a body is, read whole.
fn make_line_of_whole(
    alloc: Global,
    line: &mut Vec<u8>,
    offset: u64,
    body: &[u8],
) -> Result<(), BodyFault>
    ensures made { OnOk result ((m : Message) × Msg body.now m × (line.new.items ≡ line_with_reason offset m)) }
    ensures fault { IfErr result (IsUnread body.now) }
{
    let message = read_message(alloc, body)?;
    make_line_with_reason(line, offset, &message.heading(), reason_in(&message))?;
    Ok(())
}

/// Makes the line, with why a request failed, of the message that a body is. A body is read whole only where a request failed,
/// so that its reason is there, and where its heading cannot be read, so that the fault is.
fn make_line_with_reason_of(
    alloc: Global,
    scratch: &mut Scratch,
    line: &mut Vec<u8>,
    offset: u64,
    body: &[u8],
) -> Result<(), BodyFault>
    ensures made { OnOk result ((m : Message) × Msg body.now m × (line.new.items ≡ line_with_reason offset m)) }
    ensures fault { IfErr result (IsUnread body.now) }
{
    if let Some(heading) = read_heading(scratch, body) {
        if !failed(&heading.kind) {
            make_line_with_reason(line, offset, &heading, None)?;
            return Ok(());
        }
    }
    make_line_of_whole(alloc, line, offset, body)
}

/// Makes the line that the body is, where it is a message.
fn make_body_line(
    alloc: Global,
    scratch: &mut Scratch,
    line: &mut Vec<u8>,
    body: &[u8],
) -> Result<(), BodyFault>
    ensures made { OnOk result ((m : Message) × Msg body.now m × (line.new.items ≡ line_of_body body.now)) }
    ensures fault { IfErr result (IsUnread body.now) }
{
    test_message(alloc, scratch, body)?;
    line.clear();
    push_unbroken(line, body)?;
    line.extend_from_slice(b"\n")?;
    Ok(())
}

/// Makes the object of the message that a body is.
fn make_object(
    alloc: Global,
    scratch: &mut Scratch,
    line: &mut Vec<u8>,
    offset: u64,
    body: &[u8],
) -> Result<(), BodyFault>
    ensures made { OnOk result ((m : Message) × Msg body.now m × (line.new.items ≡ line_of_object offset body.now)) }
    ensures fault { IfErr result (IsUnread body.now) }
{
    test_message(alloc, scratch, body)?;
    line.clear();
    line.extend_from_slice(b"{\"offset\":")?;
    push_number(line, offset)?;
    line.extend_from_slice(b",\"bytes\":")?;
    push_number(line, body.len() as u64)?;
    line.extend_from_slice(b",\"message\":")?;
    push_unbroken(line, body)?;
    line.extend_from_slice(b"}\n")?;
    Ok(())
}

/// Makes the line of a message in a form.
fn make_message_line(
    alloc: Global,
    scratch: &mut Scratch,
    line: &mut Vec<u8>,
    form: Form,
    offset: u64,
    body: &[u8],
) -> Result<(), BodyFault>
    ensures made { OnOk result ((m : Message) × Msg body.now m × (line.new.items ≡ line_in form offset body.now m)) }
    ensures fault { IfErr result (IsUnread body.now) }
{
    match form {
        Form::Line => make_line_of(alloc, scratch, line, offset, body),
        Form::Reasons => make_line_with_reason_of(alloc, scratch, line, offset, body),
        Form::Object => make_object(alloc, scratch, line, offset, body),
        Form::Body => make_body_line(alloc, scratch, line, body),
    }
}

/// The name of a refusal of a body, as a program writes it.
pub fn body_refusal_name(refusal: BodyRefusal) -> &'static str
    ensures { result.now ≡ name_of_body_refusal refusal }
{
    match refusal {
        BodyRefusal::NotJson => "NotJson",
        BodyRefusal::NotObject => "NotObject",
        BodyRefusal::BadSeq => "BadSeq",
        BodyRefusal::BadType => "BadType",
        BodyRefusal::BadCommand => "BadCommand",
        BodyRefusal::BadRequestSeq => "BadRequestSeq",
        BodyRefusal::BadSuccess => "BadSuccess",
        BodyRefusal::BadEvent => "BadEvent",
        BodyRefusal::BadMessage => "BadMessage",
    }
}

fn make_refused_line(line: &mut Vec<u8>, offset: u64, cause: BodyRefusal) -> Result<(), AllocError>
    ensures { OnOk result (line.new.items ≡ line_of_refused offset cause) }
{
    line.clear();
    push_number(line, offset)?;
    line.extend_from_slice(b" refused ")?;
    line.extend_from_slice(body_refusal_name(cause).as_bytes())?;
    line.extend_from_slice(b"\n")
}

fn make_refused_object(
    line: &mut Vec<u8>,
    offset: u64,
    body: &[u8],
    cause: BodyRefusal,
) -> Result<(), AllocError>
    ensures { OnOk result (line.new.items ≡ object_of_refused offset body.now cause) }
{
    line.clear();
    line.extend_from_slice(b"{\"offset\":")?;
    push_number(line, offset)?;
    line.extend_from_slice(b",\"bytes\":")?;
    push_number(line, body.len() as u64)?;
    line.extend_from_slice(b",\"refused\":\"")?;
    line.extend_from_slice(body_refusal_name(cause).as_bytes())?;
    line.extend_from_slice(b"\"}\n")
}

/// Makes the line of a body that is no message.
fn make_refused(
    line: &mut Vec<u8>,
    form: Form,
    offset: u64,
    body: &[u8],
    cause: BodyRefusal,
) -> Result<(), AllocError>
    ensures { OnOk result (line.new.items ≡ refused_in form offset body.now cause) }
{
    match form {
        Form::Line | Form::Reasons => make_refused_line(line, offset, cause),
        Form::Object => make_refused_object(line, offset, body, cause),
        Form::Body => {
            line.clear();
            Ok(())
        }
    }
}

/// Makes the line of a body in a style, and answers whether the body is refused, and all the same has one.
pub(crate) fn make_line_in(
    alloc: Global,
    scratch: &mut Scratch,
    line: &mut Vec<u8>,
    style: Style,
    offset: u64,
    body: &[u8],
) -> Result<bool, BodyFault>
    ensures made { IfOk result (IsLineOf style offset body.now line.new.items) }
    ensures fault { IfErr result (IsStopped style body.now) }
{
    match make_message_line(alloc, scratch, line, style.form, offset, body) {
        Ok(()) => Ok(false),
        Err(BodyFault::Refused(cause)) => {
            if !style.keeps_going {
                return Err(BodyFault::Refused(cause));
            }
            make_refused(line, style.form, offset, body, cause)?;
            Ok(true)
        }
        Err(BodyFault::OutOfMemory) => Err(BodyFault::OutOfMemory),
    }
}
