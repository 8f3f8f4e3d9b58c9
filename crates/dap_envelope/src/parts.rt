//! A message as the response to a request, and as an event: what is in it, lent.
//!
//! Specification, "Response", "Event".
ghost use Rattle.std.specs.Prelude.{◌≡◌, option_map};
ghost use Rattle.dap_json.specs.Lent.{lent_data};

use crate::message::{Kind, Message};
use dap_json::{Text, Tree};
use serde_json::Value;

/// A response, without the numbers of its envelope.
#[derive(Clone, Copy, Debug, Drop)]
pub struct Response<'m> {
    pub success: bool,
    /// The command of the request.
    pub command: &'m str,
    /// Why the request failed, in short.
    pub message: Option<&'m str>,
    pub body: Option<&'m Value>,
}

/// An event, without the number of its envelope.
#[derive(Clone, Copy, Debug, Drop)]
pub struct Event<'m> {
    pub name: &'m str,
    pub body: Option<&'m Value>,
}

fn lent_text(text: &Option<Text>) -> Option<&str>
    ensures { option_map (λ lent. lent.now) result ≡ text.now }
{
    match text {
        None => None,
        Some(text) => Some(text.as_str()),
    }
}

fn lent_value(tree: &Option<Tree>) -> Option<&Value>
    ensures { lent_data result ≡ tree.now }
{
    match tree {
        None => None,
        Some(tree) => Some(tree.value()),
    }
}

impl Message {
    ghost use Rattle.std.specs.Prelude.{◌≡◌, option_map};
    ghost use Rattle.dap_envelope.specs.Parts.{response_parts, event_parts, parts_of_response, parts_of_event};

    /// What is in the response to the request with this number, where the message is that.
    pub fn response_to(&self, seq: u64) -> Option<Response<'_>>
        ensures { option_map parts_of_response result ≡ response_parts seq self.now.kind }
    {
        match &self.kind {
            Kind::Response {
                request_seq,
                success,
                command,
                message,
                body,
            } if *request_seq == seq => Some(Response {
                success: *success,
                command: command.as_str(),
                message: lent_text(message),
                body: lent_value(body),
            }),
            _ => None,
        }
    }

    /// What is in the event, where the message is one.
    pub fn event(&self) -> Option<Event<'_>>
        ensures { option_map parts_of_event result ≡ event_parts self.now.kind }
    {
        match &self.kind {
            Kind::Event { event, body } => Some(Event {
                name: event.as_str(),
                body: lent_value(body),
            }),
            _ => None,
        }
    }
}
