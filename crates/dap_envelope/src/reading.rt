//! From bytes to a message. Trees are moved out of the parsed value, and not copied.
ghost use Rattle.std.specs.Prelude.{◌≡◌, codes};
ghost use Rattle.serde_json.specs.Find.{get};
ghost use Rattle.serde_json.specs.View.{view};
ghost use Rattle.dap_json.specs.Read.{json_of};
ghost use Rattle.dap_envelope.specs.Gives.{Gives};
ghost use Rattle.dap_envelope.specs.Meaning.{Msg};
ghost use Rattle.dap_envelope.specs.Refusals.{Bad};
ghost use Rattle.dap_envelope.specs.PrivateVerdict.{command_of, message_in, request_of, response_of, event_of, kind_in, envelope_of, verdict_of};
ghost use Rattle.dap_envelope.specs.declared.fault.BodyRefusal.{BodyRefusal};
ghost use Rattle.dap_envelope.specs.declared.message.Message.{Message};

use crate::fault::{BodyFault, BodyRefusal};
use crate::message::{Kind, MAX_COMMAND, Message};
use crate::one_pass;
use dap_json::object_reader::Scratch;
use dap_json::{ParseFault, Text, field, parse};
use serde_json::Value;
use std::alloc::Global;

fn command(alloc: Global, object: &Value) -> Result<Text, BodyFault>
    ensures { Gives result (command_of (view object.now)) }
{
    match field::text(object, "command") {
        Some(name) if name.len() <= MAX_COMMAND => Ok(Text::copied(alloc, name)?),
        _ => Err(BodyFault::Refused(BodyRefusal::BadCommand)),
    }
}

#[tactic(auto, unfolding(crate::specs::PrivateVerdict::request_of))]
fn request(alloc: Global, object: &mut Value) -> Result<Kind, BodyFault>
    ensures { Gives result (request_of (view object.old)) }
{
    let command = command(alloc, object)?;
    let arguments = field::take_tree(object, "arguments");
    Ok(Kind::Request { command, arguments })
}

fn message(alloc: Global, object: &Value) -> Result<Option<Text>, BodyFault>
    ensures { Gives result (message_in (get (codes "message") (view object.now))) }
{
    match object.get("message") {
        None | Some(Value::Null) => Ok(None),
        Some(Value::String(text)) => Ok(Some(Text::copied(alloc, text.as_str())?)),
        Some(_) => Err(BodyFault::Refused(BodyRefusal::BadMessage)),
    }
}

#[tactic(auto, unfolding(crate::specs::PrivateVerdict::response_of))]
fn response(alloc: Global, object: &mut Value) -> Result<Kind, BodyFault>
    ensures { Gives result (response_of (view object.old)) }
{
    let command = command(alloc, object)?;
    let request_seq = field::whole(object, "request_seq").ok_or(BodyFault::Refused(
        BodyRefusal::BadRequestSeq,
    ))?;
    let success = field::boolean(object, "success").ok_or(BodyFault::Refused(
        BodyRefusal::BadSuccess,
    ))?;
    let message = message(alloc, object)?;
    let body = field::take_tree(object, "body");
    Ok(Kind::Response {
        request_seq,
        success,
        command,
        message,
        body,
    })
}

#[tactic(auto, unfolding(crate::specs::PrivateVerdict::event_of))]
fn event(alloc: Global, object: &mut Value) -> Result<Kind, BodyFault>
    ensures { Gives result (event_of (view object.old)) }
{
    let event = field::text(object, "event").ok_or(BodyFault::Refused(BodyRefusal::BadEvent))?;
    let event = Text::copied(alloc, event)?;
    let body = field::take_tree(object, "body");
    Ok(Kind::Event { event, body })
}

#[tactic(auto, unfolding(crate::specs::PrivateVerdict::kind_in, crate::specs::PrivateVerdict::kind_of))]
fn kind(alloc: Global, object: &mut Value) -> Result<Kind, BodyFault>
    ensures { Gives result (kind_in (view object.old)) }
{
    match field::text(object, "type") {
        None => Err(BodyFault::Refused(BodyRefusal::BadType)),
        Some("request") => request(alloc, object),
        Some("response") => response(alloc, object),
        Some("event") => event(alloc, object),
        Some(tag) => Ok(Kind::Other {
            tag: Text::copied(alloc, tag)?,
        }),
    }
}

#[tactic(auto, unfolding(crate::specs::PrivateVerdict::envelope_of))]
fn envelope(alloc: Global, value: &mut Value) -> Result<Message, BodyFault>
    ensures { Gives result (envelope_of (view value.old)) }
{
    if !value.is_object() {
        return Err(BodyFault::Refused(BodyRefusal::NotObject));
    }
    let seq = field::whole(value, "seq").ok_or(BodyFault::Refused(BodyRefusal::BadSeq))?;
    let kind = kind(alloc, value)?;
    Ok(Message { seq, kind })
}

/// The message that a body is, read whole into a tree, or the first of its refusals. Seldom called, and it wants 16 KiB of
/// the stack.
#[inline(never)]
fn read_whole(alloc: Global, body: &[u8]) -> Result<Message, BodyFault>
    ensures { Gives result (verdict_of (json_of body.now)) }
{
    match parse(alloc, body) {
        Ok(mut value) => envelope(alloc, &mut value),
        Err(ParseFault::NotJson) => Err(BodyFault::Refused(BodyRefusal::NotJson)),
        Err(ParseFault::OutOfMemory) => Err(BodyFault::OutOfMemory),
    }
}

/// The message that a body is, or the first of the nine refusals that holds of it. Nothing else is
/// refused: unknown keys are ignored, and a message of another type is `Kind::Other`.
///
/// `OutOfMemory` comes where the allocator refuses memory for the JSON value or for a text of the
/// message. Nothing is then kept.
pub fn read_message(alloc: Global, body: &[u8]) -> Result<Message, BodyFault>
    ensures read { (m : Message) → result ≡ Ok m → Msg body.now m }
    ensures refused { (r : BodyRefusal) → result ≡ Err (BodyFault.Refused r) → Bad body.now r }

    // And the other way, unless memory runs out.
    ensures reads { (m : Message) → Msg body.now m → Gives result (Ok m) }
    ensures refuses { (r : BodyRefusal) → Bad body.now r → Gives result (Err r) }
{
    let mut scratch = Scratch::new(alloc);
    read_message_with(alloc, body, &mut scratch)
}

/// [`read_message`] with memory that is lent, so that whoever reads many bodies makes it once. Texts without their escapes
/// go there; it grows to the length of the body, and what it held does not matter.
pub fn read_message_with(
    alloc: Global,
    body: &[u8],
    scratch: &mut Scratch,
) -> Result<Message, BodyFault>
    ensures read { (m : Message) → result ≡ Ok m → Msg body.now m }
    ensures refused { (r : BodyRefusal) → result ≡ Err (BodyFault.Refused r) → Bad body.now r }

    // And the other way, unless memory runs out.
    ensures reads { (m : Message) → Msg body.now m → Gives result (Ok m) }
    ensures refuses { (r : BodyRefusal) → Bad body.now r → Gives result (Err r) }
{
    match one_pass::message(alloc, body, scratch) {
        Some(message) => Ok(message),
        None => read_whole(alloc, body),
    }
}
