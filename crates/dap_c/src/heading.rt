//! What a message says of itself: a body comes in; its number, its kind and its name go out. Only what the caller lends for
//! them is touched.
ghost use Rattle.std.specs.Prelude.{◌≡◌, ◌<◌, length, ◌≢◌};
ghost use Rattle.dap_envelope.specs.Heading.{IsHeadingOf};
ghost use Rattle.dap_envelope.specs.declared.message.Message.{Message};
ghost use Rattle.dap_c.specs.HeadingFound.{IsFound, name_of, HasHeading};

use dap_c_parts::codes::{YT_NOTHING, YT_OK, YT_SMALL};
use dap_c_parts::copying::put;
use dap_envelope::{Heading, HeadingKind, read_heading};
use dap_json::object_reader::Scratch;
use std::alloc::Global;

/// What a message says of itself.
#[repr(C)]
#[derive(Drop)]
pub struct YtHeadingFound {
    pub seq: u64,
    /// The number of the request that a response answers; 0 of other messages.
    pub request_seq: u64,
    /// How long the command, the event or the type is, in bytes.
    pub name: usize,
    /// 1 of a request, 2 of a response, 3 of an event, 4 of another message.
    pub kind: u32,
    /// Of a response, whether the request succeeded.
    pub success: bool,
}

fn none() -> YtHeadingFound {
    YtHeadingFound {
        seq: 0,
        request_seq: 0,
        name: 0,
        kind: 0,
        success: false,
    }
}

/// The command, the event or the type.
fn name_in<'a>(heading: &Heading<'a>) -> &'a str
    ensures { (m : Message) → IsHeadingOf heading.now m → result.now ≡ name_of m.kind }
{
    match heading.kind {
        HeadingKind::Request { command } => command,
        HeadingKind::Response { command, .. } => command,
        HeadingKind::Event { event } => event,
        HeadingKind::Other { tag } => tag,
    }
}

fn found_of(heading: &Heading<'_>) -> YtHeadingFound
    ensures { (m : Message) → IsHeadingOf heading.now m → IsFound result m }
{
    let name = name_in(heading).len();
    let (kind, request_seq, success) = match heading.kind {
        HeadingKind::Request { .. } => (1, 0, false),
        HeadingKind::Response {
            request_seq,
            success,
            ..
        } => (2, request_seq, success),
        HeadingKind::Event { .. } => (3, 0, false),
        HeadingKind::Other { .. } => (4, 0, false),
    };
    YtHeadingFound {
        seq: heading.seq,
        request_seq,
        name,
        kind,
        success,
    }
}

/// Reads the heading of a body, and puts its command, its event or its type into the buffer. `YT_NOTHING` where the body is
/// no message, and where memory is refused; `YT_SMALL` where the name has no room, with all else told.
#[unsafe(no_mangle)]
pub extern "C" fn yt_heading(
    alloc: Global,
    body: &[u8],
    heading: &mut YtHeadingFound,
    name: &mut [u8],
) -> u32
    ensures found { result ≢ YT_NOTHING → HasHeading body.now heading.new result name.old name.new }
    ensures unchanged { result ≢ YT_OK → name.new ≡ name.old }
    ensures small { result ≡ YT_SMALL → length name.old < heading.new.name }
    ensures codes { result ≢ YT_OK → result ≢ YT_SMALL → result ≡ YT_NOTHING }
{
    let mut scratch = Scratch::new(alloc);
    match read_heading(&mut scratch, body) {
        None => {
            *heading = none();
            YT_NOTHING
        }
        Some(found) => {
            *heading = found_of(&found);
            put(name_in(&found).as_bytes(), name)
        }
    }
}
