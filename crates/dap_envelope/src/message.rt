//! Messages of either side, as plain data.
//!
//! Specification, "ProtocolMessage", "Request", "Response", "Event".
ghost use Rattle.std.specs.Prelude.{◌≡◌, IsTrue};
ghost use Rattle.dap_json.specs.Writable.{is_plain_tree as plain_tree};
ghost use Rattle.dap_envelope.specs.SoundMessage.{IsSoundTree};

use dap_json::field::MAX_SEQ;
use dap_json::plain::MAX_NESTING;
use dap_json::{Text, Tree, plain};

/// The longest name of a command, in bytes. The limit is this profile's.
pub const MAX_COMMAND: usize = 64;

/// A message of either side.
#[derive(Debug, Drop)]
pub struct Message {
    /// 0 to 9007199254740991. Each side numbers its own messages.
    pub seq: u64,
    pub kind: Kind,
}

/// What a message is. A tree or a text that is `None` was absent or `null`.
#[derive(Debug, Drop)]
pub enum Kind {
    Request {
        command: Text,
        arguments: Option<Tree>,
    },
    Response {
        /// The `seq` of the request that it answers.
        request_seq: u64,
        success: bool,
        /// The command of that request.
        command: Text,
        /// Why the request failed, in short.
        message: Option<Text>,
        body: Option<Tree>,
    },
    Event {
        event: Text,
        body: Option<Tree>,
    },
    /// A message whose `type` is none of the three. It has no effect.
    Other {
        tag: Text,
    },
}

impl Message {
    ghost use Rattle.std.specs.Prelude.{◌≡◌, IsTrue};
    ghost use Rattle.dap_envelope.specs.Plain.{is_plain};
    ghost use Rattle.dap_envelope.specs.SoundMessage.{HasSoundTree};

    /// Whether the message can be written, and is then read again as itself: numbers of at most
    /// 9007199254740991, a command of at most 64 bytes, a tag that is none of the three types, and
    /// trees that are not `null`, have no floats and nest at most 120 deep.
    pub fn plain(&self) -> bool
        ensures plain { result ≡ is_plain self.now }
        ensures sound { IsTrue result → HasSoundTree self.now.kind }
    {
        self.seq <= MAX_SEQ && self.kind.plain()
    }
}

impl Kind {
    ghost use Rattle.std.specs.Prelude.{◌≡◌, IsTrue};
    ghost use Rattle.dap_envelope.specs.Plain.{is_plain_kind};
    ghost use Rattle.dap_envelope.specs.SoundMessage.{HasSoundTree};

    fn plain(&self) -> bool
        ensures plain { result ≡ is_plain_kind self.now }
        ensures sound { IsTrue result → HasSoundTree self.now }
    {
        match self {
            Kind::Request { command, arguments } => {
                command.len() <= MAX_COMMAND && is_plain_tree(arguments)
            }
            Kind::Response {
                request_seq,
                command,
                body,
                ..
            } => *request_seq <= MAX_SEQ && command.len() <= MAX_COMMAND && is_plain_tree(body),
            Kind::Event { body, .. } => is_plain_tree(body),
            Kind::Other { tag } => {
                let tag = tag.as_str();
                tag != "request" && tag != "response" && tag != "event"
            }
        }
    }
}

/// Whether this can be the arguments or the body of a message that is written: none, or a tree that is not `null`, has no float,
/// and nests at most 120 deep.
pub fn is_plain_tree(tree: &Option<Tree>) -> bool
    ensures plain { result ≡ plain_tree tree.now }
    ensures sound { IsTrue result → IsSoundTree tree.now }
{
    match tree {
        None => true,
        Some(tree) => !tree.value().is_null() && plain::is_plain(tree.value(), MAX_NESTING),
    }
}
