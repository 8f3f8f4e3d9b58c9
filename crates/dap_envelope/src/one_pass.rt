//! A message read with no tree of its own: the members of the body are passed once, and trees are made of what stands at
//! `arguments` and at `body` alone.
//!
//! Whatever is refused, and where memory is, nothing is given, and [`read_message`](crate::read_message) reads the body
//! whole. So only what is given has to be right.
ghost use Rattle.std.specs.Prelude.{◌≡◌, codes, Option, option_map, IfSome, IfOk, OnOk, Some};
ghost use Rattle.serde_json.specs.Data.{Data, Members, object, no_members, put, string as string_data};
ghost use Rattle.dap_json.specs.Field.{unless_null, text_at};
ghost use Rattle.dap_json.specs.ObjectReader.{IsRestOf, IsNext};
ghost use Rattle.dap_envelope.specs.Heading.{Notes};
ghost use Rattle.dap_envelope.specs.Meaning.{Msg, MeansKind};
ghost use Rattle.dap_envelope.specs.PrivateOnePass.{HoldsAll};

use crate::heading::{Noted, boolean, command, none_noted, note_member, text, whole};
use crate::message::{Kind, Message};
use dap_json::object_reader::{Invalid, MemberValue, ObjectReader, Scratch};
use dap_json::{Text, Tree};
use std::alloc::Global;

/// What the members of a message are, so far.
#[derive(Drop)]
struct Envelope<'a> {
    noted: Noted<'a>,
    /// Absent where it was `null`.
    arguments: Option<Tree>,
    body: Option<Tree>,
}

/// The next value as a tree. `null` counts as absent.
fn tree(alloc: Global, object_reader: &mut ObjectReader<'_>) -> Result<Option<Tree>, Invalid>
    ensures { IfOk result (λ tree. (d : Data) × IsNext d object_reader.old object_reader.new × (tree ≡ unless_null (Some d))) }
{
    let tree = object_reader.tree(alloc)?;
    if tree.value().is_null() {
        return Ok(None);
    }
    Ok(Some(tree))
}

/// Takes the value of a key.
fn take_member<'a>(
    alloc: Global,
    object_reader: &mut ObjectReader<'a>,
    key: &str,
    seen: &mut Envelope<'a>,
) -> Result<(), Invalid>
    ensures { OnOk result ((d : Data) × IsNext d object_reader.old object_reader.new × ((found : Members) → HoldsAll seen.old found → HoldsAll seen.new (put key.now d found))) }
{
    match key {
        "arguments" => seen.arguments = tree(alloc, object_reader)?,
        "body" => seen.body = tree(alloc, object_reader)?,
        _ => note_member(&mut seen.noted, key, object_reader.pass()?),
    }
    Ok(())
}

/// Nothing came yet.
fn nothing_seen<'a>() -> Envelope<'a>
    ensures { HoldsAll result no_members }
{
    Envelope {
        noted: none_noted(),
        arguments: None,
        body: None,
    }
}

/// Takes the members of an object, all of them to come. What is seen stays in its place in memory: it is large to hand over.
#[inline(never)]
fn take_members<'a>(
    alloc: Global,
    object_reader: &mut ObjectReader<'a>,
    seen: &mut Envelope<'a>,
) -> Result<(), Invalid>
    requires { HoldsAll seen.old no_members }
    ensures { OnOk result ((ms : Members) × IsRestOf object_reader.old no_members ms × HoldsAll seen.new ms) }
{
    while let Some(key) = object_reader.next_key()? {
        take_member(alloc, object_reader, key, seen)?;
    }
    Ok(())
}

/// The text that stands there, if any; `null` counts as absent.
fn text_if_any<'a>(noted: &Option<MemberValue<'a>>) -> Option<Option<&'a str>>
    ensures { IfSome result (λ text. (found : Option Data) → Notes noted.now found → unless_null found ≡ option_map (λ s. string_data s.now) text) }
{
    match noted {
        None | Some(MemberValue::Null) => Some(None),
        Some(MemberValue::Text(text)) => Some(Some(*text)),
        Some(_) => None,
    }
}

/// A copy, unless memory is refused.
fn copied(alloc: Global, text: &str) -> Option<Text>
    ensures { IfSome result (λ copy. copy ≡ text.now) }
{
    match Text::copied(alloc, text) {
        Ok(copy) => Some(copy),
        Err(_) => None,
    }
}

/// A copy of a text, if there is one.
fn copied_if_any(alloc: Global, text: Option<&str>) -> Option<Option<Text>>
    ensures { IfSome result (λ copy. copy ≡ option_map (λ s. s.now) text.entry) }
{
    match text {
        None => Some(None),
        Some(text) => Some(Some(copied(alloc, text)?)),
    }
}

fn request(alloc: Global, seen: &mut Envelope<'_>) -> Option<Kind>
    ensures { IfSome result (λ kind. (ms : Members) → HoldsAll seen.old ms → text_at (codes "type") (object ms) ≡ Some (codes "request") → MeansKind (object ms) kind) }
{
    let command = copied(alloc, command(&seen.noted)?)?;
    Some(Kind::Request {
        command,
        arguments: seen.arguments.take(),
    })
}

fn response(alloc: Global, seen: &mut Envelope<'_>) -> Option<Kind>
    ensures { IfSome result (λ kind. (ms : Members) → HoldsAll seen.old ms → text_at (codes "type") (object ms) ≡ Some (codes "response") → MeansKind (object ms) kind) }
{
    let request_seq = whole(&seen.noted.request_seq)?;
    let success = boolean(&seen.noted.success)?;
    let command = copied(alloc, command(&seen.noted)?)?;
    let message = copied_if_any(alloc, text_if_any(&seen.noted.message)?)?;
    Some(Kind::Response {
        request_seq,
        success,
        command,
        message,
        body: seen.body.take(),
    })
}

fn event(alloc: Global, seen: &mut Envelope<'_>) -> Option<Kind>
    ensures { IfSome result (λ kind. (ms : Members) → HoldsAll seen.old ms → text_at (codes "type") (object ms) ≡ Some (codes "event") → MeansKind (object ms) kind) }
{
    let event = copied(alloc, text(&seen.noted.event)?)?;
    Some(Kind::Event {
        event,
        body: seen.body.take(),
    })
}

fn kind(alloc: Global, seen: &mut Envelope<'_>) -> Option<Kind>
    ensures { IfSome result (λ kind. (ms : Members) → HoldsAll seen.old ms → MeansKind (object ms) kind) }
{
    match text(&seen.noted.tag)? {
        "request" => request(alloc, seen),
        "response" => response(alloc, seen),
        "event" => event(alloc, seen),
        tag => Some(Kind::Other {
            tag: copied(alloc, tag)?,
        }),
    }
}

/// The message that a body is, if it is given here. Unescaped texts go to `scratch`.
pub(crate) fn message(alloc: Global, body: &[u8], scratch: &mut Scratch) -> Option<Message>
    ensures { IfSome result (λ m. Msg body.now m) }
{
    let Ok(mut object_reader) = ObjectReader::open(body, scratch) else {
        return None;
    };
    let mut seen = nothing_seen();
    let Ok(()) = take_members(alloc, &mut object_reader, &mut seen) else {
        return None;
    };
    let seq = whole(&seen.noted.seq)?;
    let kind = kind(alloc, &mut seen)?;
    Some(Message { seq, kind })
}
