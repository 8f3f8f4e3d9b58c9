//! Whole sessions by `answer`, in pieces, and by `answer_body`, and messages that a client hears by `next`: where memory is refused, what was
//! appended is a front of what is due, and each later call answers the same.

ghost use Rattle.std.specs.Prelude.{◌≡◌};
ghost use Rattle.dap_debuggee.specs.declared.answers.State.{State};

use crate::debuggee::RECORDING;
use crate::outcomes::{judge, refused};
use crate::serving::{LOOKS, SESSION, TERMINAL};
use dap_adapter::{Adapter, AdapterFault, first_body};
use dap_client::{Client, ClientFault};
use dap_frame::Limits;
use dap_recording::RecordingFault;
use dap_replay::Recorded;
use std::alloc::Global;
use std::test::Fail;
use test_kit::served::{Stream, stream_of};

/// How a session is handed to an adapter.
#[derive(Clone, Copy)]
enum By {
    Pieces,
    Bodies,
}

/// Hands the first of these bytes to an adapter: whether the session has ended, and what is behind them.
fn answer_next<'a>(
    alloc: Global,
    adapter: &mut Adapter<Recorded>,
    by: By,
    rest: &'a [u8],
    out: &mut Vec<u8>,
) -> Result<(bool, &'a [u8]), AdapterFault> {
    match by {
        By::Pieces => {
            let (piece, later) = rest.split_at(rest.len().min(50));
            Ok((adapter.answer(alloc, piece, out)?, later))
        }
        By::Bodies => match first_body(rest) {
            Some((body, later)) => Ok((adapter.answer_body(alloc, body, out)?, later)),
            None => Ok((adapter.answer(alloc, rest, out)?, rest)),
        },
    }
}

/// Hands a session to an adapter, and then polls: whether it has ended.
fn answer(
    alloc: Global,
    adapter: &mut Adapter<Recorded>,
    by: By,
    session: &[u8],
    out: &mut Vec<u8>,
) -> Result<bool, AdapterFault> {
    let mut ended = false;
    let mut rest = session;
    for _piece in 0..session.len() {
        let (is_ended, later) = answer_next(alloc, adapter, by, rest, out)?;
        ended = is_ended;
        rest = later;
    }
    adapter.tell(alloc, out)?;
    Ok(ended)
}

/// Whether an adapter is closed for good.
fn is_closed(alloc: Global, adapter: &mut Adapter<Recorded>, out: &mut Vec<u8>) -> bool {
    adapter.held() == 0
        && adapter.answer(alloc, b"x", out) == Err(AdapterFault::OutOfMemory)
        && adapter.tell(alloc, out) == Err(AdapterFault::OutOfMemory)
}

/// Whether a session is answered so.
fn answers(alloc: Global, debuggee: Recorded, by: By, session: &[u8], wanted: &[u8]) -> Option<bool>
    requires { debuggee.state ≡ State.NotStarted }
{
    let mut adapter = match Adapter::open(alloc, Limits::usual(), debuggee) {
        Ok(adapter) => adapter,
        Err(_) => return None,
    };
    let mut out = Vec::new(alloc);
    let outcome = match answer(alloc, &mut adapter, by, session, &mut out) {
        Ok(ended) => Some(ended && out.as_slice() == wanted),
        Err(AdapterFault::OutOfMemory) => {
            let is_front = wanted.starts_with(&out);
            refused(
                is_front && is_closed(alloc, &mut adapter, &mut out) && wanted.starts_with(&out),
            )
        }
        Err(_) => Some(false),
    };
    // The proof of a call is shorter than that of a value that goes out of scope.
    drop(adapter);
    outcome
}

/// Likewise from the recording on.
fn is_answered(alloc: Global, by: By, stream: &Stream) -> Option<bool> {
    match Recorded::read(alloc, RECORDING) {
        Ok(debuggee) => answers(alloc, debuggee, by, &stream.input, &stream.answers),
        Err(fault) => refused(fault == RecordingFault::OutOfMemory),
    }
}

/// Likewise the stream of a row.
fn is_row_answered(alloc: Global, by: By, row: &str) -> Option<bool> {
    match stream_of(alloc, row) {
        Ok(stream) => {
            let outcome = is_answered(alloc, by, &stream);
            drop(stream);
            outcome
        }
        Err(_) => None,
    }
}

/// An event, a request that a client does not know, and an event.
static HEARD: &[u8] =
    b"Content-Length: 46\r\n\r\n{\"event\":\"initialized\",\"seq\":1,\"type\":\"event\"}Content-Length: 54\r\n\r\n{\"command\":\"startDebugging\",\"seq\":2,\"type\":\"request\"}\nContent-Length: 46\r\n\r\n{\"event\":\"initialized\",\"seq\":3,\"type\":\"event\"}";

/// How many messages a client hears in these bytes.
fn count(
    alloc: Global,
    client: &mut Client,
    written: &[u8],
    out: &mut Vec<u8>,
) -> Result<u64, ClientFault> {
    let mut piece = written;
    let mut count = 0;
    for _message in 0..written.len() {
        if let Some(_) = client.next(alloc, &mut piece, out)? {
            count = u64::saturating_add(count, 1);
        }
    }
    Ok(count)
}

/// Whether a client hears three messages, and answers one.
fn hears(alloc: Global) -> Option<bool> {
    let mut client = match Client::open(alloc, Limits::usual()) {
        Ok(client) => client,
        Err(_) => return None,
    };
    let mut out = Vec::new(alloc);
    let outcome = match count(alloc, &mut client, HEARD, &mut out) {
        Ok(count) => Some(count == 3 && !out.is_empty()),
        Err(ClientFault::OutOfMemory) => refused(client.held() == 0),
        Err(_) => Some(false),
    };
    drop(client);
    outcome
}

#[test]
fn answering(rt: HostRuntime) -> Result<(), Fail> {
    judge(&rt, is_row_answered(rt.alloc(), By::Pieces, SESSION))
}

#[test]
fn answering_in_a_terminal(rt: HostRuntime) -> Result<(), Fail> {
    judge(&rt, is_row_answered(rt.alloc(), By::Pieces, TERMINAL))
}

#[test]
fn answering_a_stop(rt: HostRuntime) -> Result<(), Fail> {
    judge(&rt, is_row_answered(rt.alloc(), By::Pieces, LOOKS))
}

#[test]
fn answering_bodies(rt: HostRuntime) -> Result<(), Fail> {
    judge(&rt, is_row_answered(rt.alloc(), By::Bodies, SESSION))
}

#[test]
fn answering_bodies_of_a_stop(rt: HostRuntime) -> Result<(), Fail> {
    judge(&rt, is_row_answered(rt.alloc(), By::Bodies, LOOKS))
}

#[test]
fn hearing(rt: HostRuntime) -> Result<(), Fail> {
    judge(&rt, hears(rt.alloc()))
}
