//! A piece of the stream by `next`: what each request says is seen before it is handled.

use dap_adapter::{Adapter, Turned};
use dap_command::SourceKey;
use dap_envelope::{Kind, Message};
use dap_frame::Limits;
use dap_json::{Text, field};
use dap_replay::Recorded;
use std::alloc::Global;
use std::test::Fail;
use test_kit::samples::RECORDING;

/// Two requests, of which the second says that its source was changed, and the front of a third one.
static PIECE: &[u8] =
    b"Content-Length: 81\r\n\r\n{\"seq\":1,\"type\":\"request\",\"command\":\"initialize\",\"arguments\":{\"adapterID\":\"rec\"}}Content-Length: 141\r\n\r\n{\"seq\":2,\"type\":\"request\",\"command\":\"setBreakpoints\",\"arguments\":{\"source\":{\"path\":\"/a.c\"},\"breakpoints\":[{\"line\":2}],\"sourceModified\":true}}Content-";

/// Whether a request says that its source was changed.
fn says_changed(message: &Message) -> bool {
    match &message.kind {
        Kind::Request {
            arguments: Some(arguments),
            ..
        } => field::boolean(arguments.value(), "sourceModified") == Some(true),
        _ => false,
    }
}

/// Likewise of the next message; `None` where there is none.
fn next_says_changed(
    alloc: Global,
    adapter: &mut Adapter<Recorded>,
    piece: &mut &[u8],
    out: &mut Vec<u8>,
) -> Option<bool> {
    match adapter.next(alloc, piece, out) {
        Ok(Some(message)) => Some(says_changed(&message)),
        _ => None,
    }
}

/// Whether both requests are seen, and then no message, while nothing is handled.
fn sees_both(alloc: Global, adapter: &mut Adapter<Recorded>) -> bool {
    let mut piece = PIECE;
    let mut out = Vec::new(alloc);
    next_says_changed(alloc, adapter, &mut piece, &mut out) == Some(false)
        && next_says_changed(alloc, adapter, &mut piece, &mut out) == Some(true)
        && adapter.kept() == 2
        && !piece.is_empty()
        && next_says_changed(alloc, adapter, &mut piece, &mut out).is_none()
        && piece.is_empty()
        && out.is_empty()
        && adapter.held() == 8
        && adapter.breakpoints() == 0
}

/// Handles a request.
fn handles(alloc: Global, adapter: &mut Adapter<Recorded>) -> bool {
    matches!(adapter.turn(alloc), Ok(Turned::Done { .. }))
}

/// Whether one breakpoint is set, its number and its line as they were asked for.
fn has_set(alloc: Global, adapter: &Adapter<Recorded>) -> bool {
    let Ok(path) = Text::copied(alloc, "/a.c") else {
        return false;
    };
    adapter.breakpoints() == 1
        && adapter.breakpoints_of(&SourceKey::Path(path)) == [(1, 2)].as_slice()
        && adapter.breakpoints_of(&SourceKey::Reference(1)).is_empty()
}

/// Whether requests are seen, and then handled.
fn goes_through(alloc: Global) -> Option<bool> {
    let debuggee = Recorded::read(alloc, RECORDING).ok()?;
    let mut adapter = Adapter::open(alloc, Limits::usual(), debuggee).ok()?;
    let is_right = sees_both(alloc, &mut adapter)
        && handles(alloc, &mut adapter)
        && handles(alloc, &mut adapter)
        && has_set(alloc, &adapter);
    // The proof of a call is shorter than that of a value that goes out of scope.
    drop(adapter);
    Some(is_right)
}

#[test]
fn requests_are_seen_before_they_are_handled(rt: HostRuntime) -> Result<(), Fail> {
    assert!(rt; goes_through(rt.alloc()) == Some(true));
    Ok(())
}
