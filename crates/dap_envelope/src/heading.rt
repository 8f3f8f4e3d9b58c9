//! What a message says of itself, read without a tree: its number, its kind and its names.
//!
//! A tool that lists messages needs no more, and a tree of a large body costs most of the time of reading it. The
//! members of the body are passed once, and those that make a heading are noted; of equal keys the last counts.
ghost use Rattle.std.specs.Prelude.{◌≡◌, ◌≤◌, ℕ, List, codes, Option, option_map, option_and_then, length, IfSome, IfOk, IsTrue, Some};
ghost use Rattle.serde_json.specs.Data.{Data, Members, object, no_members, put, string as string_data};
ghost use Rattle.serde_json.specs.Find.{as_str, as_bool};
ghost use Rattle.dap_json.specs.Field.{unless_null, text_at};
ghost use Rattle.dap_json.specs.ObjectReader.{Describes, IsRestOf};
ghost use Rattle.dap_envelope.specs.Heading.{after_note, Notes, NotesAll, whole_in, IsHeadingOf, IsKindOf};
ghost use Rattle.dap_envelope.specs.Meaning.{Msg, MeansKind, MeansMessage};
ghost use Rattle.dap_envelope.specs.Refusals.{max_command};
ghost use Rattle.dap_envelope.specs.declared.message.Message.{Message};
ghost use Rattle.dap_envelope.specs.declared.message.Kind.{Kind};

use crate::message::{Kind, MAX_COMMAND, Message};
use dap_json::field::MAX_SEQ;
use dap_json::object_reader::{Invalid, MemberValue, ObjectReader, Scratch};

/// A message without its trees and its reason. The names are lent.
#[derive(Clone, Copy, Debug, PartialEq, Eq, Drop)]
pub struct Heading<'a> {
    /// 0 to 9007199254740991.
    pub seq: u64,
    pub kind: HeadingKind<'a>,
}

/// What a message is, without its trees and its reason.
#[derive(Clone, Copy, Debug, PartialEq, Eq, Drop)]
pub enum HeadingKind<'a> {
    Request {
        command: &'a str,
    },
    Response {
        /// The `seq` of the request that it answers.
        request_seq: u64,
        success: bool,
        /// The command of that request.
        command: &'a str,
    },
    Event {
        event: &'a str,
    },
    /// A message whose `type` is none of the three.
    Other {
        tag: &'a str,
    },
}

impl Message {
    ghost use Rattle.dap_envelope.specs.Heading.{IsHeadingOf};

    /// Its number, its kind and its names.
    pub fn heading(&self) -> Heading<'_>
        ensures { IsHeadingOf result self.now }
    {
        let kind = match &self.kind {
            Kind::Request { command, .. } => HeadingKind::Request {
                command: command.as_str(),
            },
            Kind::Response {
                request_seq,
                success,
                command,
                ..
            } => HeadingKind::Response {
                request_seq: *request_seq,
                success: *success,
                command: command.as_str(),
            },
            Kind::Event { event, .. } => HeadingKind::Event {
                event: event.as_str(),
            },
            Kind::Other { tag } => HeadingKind::Other { tag: tag.as_str() },
        };
        Heading {
            seq: self.seq,
            kind,
        }
    }
}

/// The values at the keys that make a heading, where they came.
#[derive(Drop)]
pub struct Noted<'a> {
    pub seq: Option<MemberValue<'a>>,
    /// That of `type`.
    pub tag: Option<MemberValue<'a>>,
    pub command: Option<MemberValue<'a>>,
    pub request_seq: Option<MemberValue<'a>>,
    pub success: Option<MemberValue<'a>>,
    pub message: Option<MemberValue<'a>>,
    pub event: Option<MemberValue<'a>>,
}

/// Nothing came yet.
pub fn none_noted<'a>() -> Noted<'a>
    ensures { NotesAll result no_members }
{
    let nothing = None;
    Noted {
        seq: nothing,
        tag: nothing,
        command: nothing,
        request_seq: nothing,
        success: nothing,
        message: nothing,
        event: nothing,
    }
}

/// Notes a value at the key that is wanted.
#[inline(always)]
fn note<'a>(noted: &mut Option<MemberValue<'a>>, wanted: &str, key: &str, value: MemberValue<'a>)
    ensures { noted.new ≡ after_note wanted.now key.now value.entry noted.old }
{
    if key == wanted {
        *noted = Some(value);
    }
}

/// Notes a member of a message.
pub fn note_member<'a>(noted: &mut Noted<'a>, key: &str, value: MemberValue<'a>)
    ensures { (d : Data) (found : Members) → Describes value.entry d → NotesAll noted.old found → NotesAll noted.new (put key.now d found) }
{
    note(&mut noted.seq, "seq", key, value);
    note(&mut noted.tag, "type", key, value);
    note(&mut noted.command, "command", key, value);
    note(&mut noted.request_seq, "request_seq", key, value);
    note(&mut noted.success, "success", key, value);
    note(&mut noted.message, "message", key, value);
    note(&mut noted.event, "event", key, value);
}

/// Notes the members of an object, all of them to come.
fn note_members<'a>(object_reader: &mut ObjectReader<'a>) -> Result<Noted<'a>, Invalid>
    ensures { IfOk result (λ noted. (ms : Members) × IsRestOf object_reader.old no_members ms × NotesAll noted ms) }
{
    let mut noted = none_noted();
    while let Some((key, value)) = object_reader.next()? {
        note_member(&mut noted, key, value);
    }
    Ok(noted)
}

pub(crate) fn whole(noted: &Option<MemberValue<'_>>) -> Option<u64>
    ensures { (found : Option Data) → Notes noted.now found → result ≡ whole_in found }
{
    match noted {
        Some(MemberValue::Whole(n)) if *n <= MAX_SEQ => Some(*n),
        _ => None,
    }
}

pub(crate) fn text<'a>(noted: &Option<MemberValue<'a>>) -> Option<&'a str>
    ensures { (found : Option Data) → Notes noted.now found → option_map (λ s. s.now) result ≡ option_and_then as_str found }
{
    match noted {
        Some(MemberValue::Text(text)) => Some(*text),
        _ => None,
    }
}

pub(crate) fn boolean(noted: &Option<MemberValue<'_>>) -> Option<bool>
    ensures { (found : Option Data) → Notes noted.now found → result ≡ option_and_then as_bool found }
{
    match noted {
        Some(MemberValue::Boolean(b)) => Some(*b),
        _ => None,
    }
}

/// Whether a text stands there, or nothing or `null`.
fn is_text_or_absent(noted: &Option<MemberValue<'_>>) -> bool
    ensures { IsTrue result → (found : Option Data) → Notes noted.now found → (text : Option (List ℕ)) × (unless_null found ≡ option_map string_data text) }
{
    let Some(value) = noted else {
        return true;
    };
    match value {
        MemberValue::Null => true,
        MemberValue::Text(_) => true,
        _ => false,
    }
}

pub(crate) fn command<'a>(noted: &Noted<'a>) -> Option<&'a str>
    ensures { IfSome result (λ name. (found : Option Data) → Notes noted.now.command found → (option_and_then as_str found ≡ Some name.now) × (length name.now ≤ max_command)) }
{
    let name = text(&noted.command)?;
    if name.len() > MAX_COMMAND {
        return None;
    }
    Some(name)
}

fn request<'a>(noted: &Noted<'a>) -> Option<HeadingKind<'a>>
    ensures { IfSome result (λ kind. (ms : Members) → NotesAll noted.now ms → text_at (codes "type") (object ms) ≡ Some (codes "request") → (k : Kind) × MeansKind (object ms) k × IsKindOf kind k) }
{
    let command = command(noted)?;
    Some(HeadingKind::Request { command })
}

fn response<'a>(noted: &Noted<'a>) -> Option<HeadingKind<'a>>
    ensures { IfSome result (λ kind. (ms : Members) → NotesAll noted.now ms → text_at (codes "type") (object ms) ≡ Some (codes "response") → (k : Kind) × MeansKind (object ms) k × IsKindOf kind k) }
{
    let command = command(noted)?;
    let request_seq = whole(&noted.request_seq)?;
    let success = boolean(&noted.success)?;
    if !is_text_or_absent(&noted.message) {
        return None;
    }
    Some(HeadingKind::Response {
        request_seq,
        success,
        command,
    })
}

fn event<'a>(noted: &Noted<'a>) -> Option<HeadingKind<'a>>
    ensures { IfSome result (λ kind. (ms : Members) → NotesAll noted.now ms → text_at (codes "type") (object ms) ≡ Some (codes "event") → (k : Kind) × MeansKind (object ms) k × IsKindOf kind k) }
{
    let event = text(&noted.event)?;
    Some(HeadingKind::Event { event })
}

pub(crate) fn kind<'a>(noted: &Noted<'a>) -> Option<HeadingKind<'a>>
    ensures { IfSome result (λ kind. (ms : Members) → NotesAll noted.now ms → (k : Kind) × MeansKind (object ms) k × IsKindOf kind k) }
{
    match text(&noted.tag)? {
        "request" => request(noted),
        "response" => response(noted),
        "event" => event(noted),
        tag => Some(HeadingKind::Other { tag }),
    }
}

/// The heading of the message whose members were noted, where all that it takes has come.
pub fn heading_of<'a>(noted: &Noted<'a>) -> Option<Heading<'a>>
    ensures { IfSome result (λ heading. (ms : Members) → NotesAll noted.now ms → (m : Message) × MeansMessage (object ms) m × IsHeadingOf heading m) }
{
    let seq = whole(&noted.seq)?;
    let kind = kind(noted)?;
    Some(Heading { seq, kind })
}

/// The heading of the message that a body is. There is none where the body is no message, for which
/// [`read_message`](crate::read_message) tells why, and where memory is refused. That there is one everywhere else is no
/// clause: tests show it, and whoever gets none asks `read_message`. Unescaped names are lent from `scratch`, which grows
/// to the length of the body and is kept from body to body.
pub fn read_heading<'a>(scratch: &'a mut Scratch, body: &'a [u8]) -> Option<Heading<'a>>
    ensures { IfSome result (λ heading. (m : Message) × Msg body.now m × IsHeadingOf heading m) }
{
    let Ok(mut object_reader) = ObjectReader::open(body, scratch) else {
        return None;
    };
    let Ok(noted) = note_members(&mut object_reader) else {
        return None;
    };
    let seq = whole(&noted.seq)?;
    let kind = kind(&noted)?;
    Some(Heading { seq, kind })
}
