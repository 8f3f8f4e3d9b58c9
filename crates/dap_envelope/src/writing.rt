//! From a message to bytes. A key whose value is absent is not written.
ghost use Rattle.std.specs.Prelude.{◌≡◌, IsTrue, IfOk};
ghost use Rattle.serde_json.specs.View.{members_view};
ghost use Rattle.dap_envelope.specs.Meaning.{Msg};
ghost use Rattle.dap_envelope.specs.Plain.{is_plain};
ghost use Rattle.dap_envelope.specs.Canon.{common_members, request_members, response_members, event_members, members_of, canon};

use crate::message::{Kind, Message};
use dap_json::members::{Members, put_optional_text, put_text, put_tree};
use dap_json::{Text, Tree};
use serde_json::{Map, Value, put};
use std::alloc::{AllocError, Global};

/// The members that each message has.
fn common(alloc: Global, seq: u64, tag: &str) -> Result<Members, AllocError>
    ensures { IfOk result (λ m. members_view m.entries ≡ common_members seq tag.now) }
{
    let mut members = Map::new(alloc);
    put(&mut members, alloc, "seq", Value::from(seq))?;
    put_text(alloc, &mut members, "type", tag)?;
    Ok(members)
}

#[tactic(auto, unfolding(crate::specs::Canon::request_members))]
fn request(
    alloc: Global,
    seq: u64,
    command: &Text,
    arguments: &Option<Tree>,
) -> Result<Members, AllocError>
    ensures { IfOk result (λ m. members_view m.entries
        ≡ request_members seq command.now arguments.now) }
{
    let mut members = common(alloc, seq, "request")?;
    put_text(alloc, &mut members, "command", command.as_str())?;
    put_tree(alloc, &mut members, "arguments", arguments)?;
    Ok(members)
}

#[tactic(auto, unfolding(crate::specs::Canon::response_members))]
fn response(
    alloc: Global,
    seq: u64,
    request_seq: u64,
    success: bool,
    command: &Text,
    message: &Option<Text>,
    body: &Option<Tree>,
) -> Result<Members, AllocError>
    ensures { IfOk result (λ m. members_view m.entries
        ≡ response_members seq request_seq success command.now message.now body.now) }
{
    let mut members = common(alloc, seq, "response")?;
    put(&mut members, alloc, "request_seq", Value::from(request_seq))?;
    put(&mut members, alloc, "success", Value::from(success))?;
    put_text(alloc, &mut members, "command", command.as_str())?;
    put_optional_text(alloc, &mut members, "message", message)?;
    put_tree(alloc, &mut members, "body", body)?;
    Ok(members)
}

#[tactic(auto, unfolding(crate::specs::Canon::event_members))]
fn event(alloc: Global, seq: u64, event: &Text, body: &Option<Tree>) -> Result<Members, AllocError>
    ensures { IfOk result (λ m. members_view m.entries ≡ event_members seq event.now body.now) }
{
    let mut members = common(alloc, seq, "event")?;
    put_text(alloc, &mut members, "event", event.as_str())?;
    put_tree(alloc, &mut members, "body", body)?;
    Ok(members)
}

fn members(alloc: Global, message: &Message) -> Result<Members, AllocError>
    ensures { IfOk result (λ m. members_view m.entries
        ≡ members_of message.now.seq message.now.kind) }
{
    let seq = message.seq;
    match &message.kind {
        Kind::Request { command, arguments } => request(alloc, seq, command, arguments),
        Kind::Response {
            request_seq,
            success,
            command,
            message,
            body,
        } => response(alloc, seq, *request_seq, *success, command, message, body),
        Kind::Event { event: name, body } => event(alloc, seq, name, body),
        Kind::Other { tag } => common(alloc, seq, tag.as_str()),
    }
}

/// The message as compact JSON, its keys in byte order, so that it is read again as itself. What it
/// asks is told by [`Message::plain`].
pub fn write_message(alloc: Global, message: &Message) -> Result<Vec<u8>, AllocError>
    requires { IsTrue (is_plain message.now) }
    ensures canon { IfOk result (λ b. b.items ≡ canon message.now) }
    ensures reads_back { IfOk result (λ b. Msg b.items message.now) }
{
    let tree = Value::Object(members(alloc, message)?);
    dap_json::write(alloc, &tree)
}
