//! Both ends joined by two ways of bytes, of which any pieces are moved: the nine messages of a request that is cancelled while
//! another one waits.

use crate::library::initialize;
use dap_adapter::{Adapter, Turned};
use dap_call::Call;
use dap_client::Client;
use dap_frame::Limits;
use dap_replay::Recorded;
use std::alloc::Global;
use std::marker::Model;
use std::test::Fail;
use test_kit::bodies::{body_of, frame_of};
use test_kit::samples::RECORDING;

/// What the client writes, in order.
static UP: [&str; 4] = [
    r#"{"arguments":{"adapterID":"rec"},"command":"initialize","seq":1,"type":"request"}"#,
    r#"{"command":"threads","seq":2,"type":"request"}"#,
    r#"{"command":"threads","seq":3,"type":"request"}"#,
    r#"{"arguments":{"requestId":2},"command":"cancel","seq":4,"type":"request"}"#,
];

/// What the adapter writes, in order; some in short, as `test_kit::bodies` explains.
static DOWN: [&str; 5] = [
    "capabilities seq 1 to 1",
    r#"{"event":"initialized","seq":2,"type":"event"}"#,
    "cancelled seq 3 to 2 threads",
    r#"{"command":"cancel","request_seq":4,"seq":4,"success":true,"type":"response"}"#,
    r#"{"body":{"threads":[]},"command":"threads","request_seq":3,"seq":5,"success":true,"type":"response"}"#,
];

/// Both ends with what is under way. A contract sees nothing of it.
#[derive(Drop)]
struct Joined {
    alloc: Global,
    client: Client,
    adapter: Adapter<Recorded>,
    up: Vec<u8>,
    down: Vec<u8>,
    /// All that was written.
    all_up: Vec<u8>,
    all_down: Vec<u8>,
}

impl Model for Joined {
    ghost use Rattle.std.specs.Prelude.{ℕ};

    ghost Value = { ℕ };

    ghost view = { λ _. 0 };
}

impl Joined {
    fn open(alloc: Global) -> Option<Joined> {
        let debuggee = Recorded::read(alloc, RECORDING).ok()?;
        let adapter = Adapter::open(alloc, Limits::usual(), debuggee).ok()?;
        let client = Client::open(alloc, Limits::usual()).ok()?;
        Some(Joined {
            alloc,
            client,
            adapter,
            up: Vec::new(alloc),
            down: Vec::new(alloc),
            all_up: Vec::new(alloc),
            all_down: Vec::new(alloc),
        })
    }

    fn wrote_up(&mut self, bytes: &[u8]) -> bool {
        self.up.extend_from_slice(bytes).is_ok() && self.all_up.extend_from_slice(bytes).is_ok()
    }

    fn wrote_down(&mut self, bytes: &[u8]) -> bool {
        self.down.extend_from_slice(bytes).is_ok() && self.all_down.extend_from_slice(bytes).is_ok()
    }

    fn send(&mut self, call: &Call) -> bool {
        if !call.plain() {
            return false;
        }
        match self.client.send(self.alloc, call) {
            Ok(sent) => self.wrote_up(&sent.bytes),
            Err(_) => false,
        }
    }

    /// The adapter takes a piece, call by call.
    fn take_up(&mut self, piece: &[u8]) -> bool {
        let mut left = piece;
        for _call in 0..piece.len() {
            if left.is_empty() {
                return true;
            }
            match self.adapter.take(self.alloc, left) {
                Ok(taken) => {
                    let (_, rest) = left.split_at(taken.used);
                    left = rest;
                    if !self.wrote_down(&taken.bytes) {
                        return false;
                    }
                }
                Err(_) => return false,
            }
        }
        left.is_empty()
    }

    /// The client takes a piece, call by call.
    fn take_down(&mut self, piece: &[u8]) -> bool {
        let mut left = piece;
        for _call in 0..piece.len() {
            if left.is_empty() {
                return true;
            }
            match self.client.take(self.alloc, left) {
                Ok(got) => {
                    let (_, rest) = left.split_at(got.used);
                    left = rest;
                    if !self.wrote_up(&got.bytes) {
                        return false;
                    }
                }
                Err(_) => return false,
            }
        }
        left.is_empty()
    }

    /// Moves all that is on the way up, in pieces of so many bytes.
    fn move_up(&mut self, size: usize) -> bool {
        let mut way = Vec::new(self.alloc);
        std::mem::swap(&mut way, &mut self.up);
        let mut left: &[u8] = &way;
        for _piece in 0..way.len() {
            let (piece, rest) = left.split_at(size.min(left.len()));
            left = rest;
            if !self.take_up(piece) {
                return false;
            }
        }
        left.is_empty()
    }

    fn move_down(&mut self, size: usize) -> bool {
        let mut way = Vec::new(self.alloc);
        std::mem::swap(&mut way, &mut self.down);
        let mut left: &[u8] = &way;
        for _piece in 0..way.len() {
            let (piece, rest) = left.split_at(size.min(left.len()));
            left = rest;
            if !self.take_down(piece) {
                return false;
            }
        }
        left.is_empty()
    }

    fn turn(&mut self) -> bool {
        match self.adapter.turn(self.alloc) {
            Ok(Turned::Done { bytes }) => self.wrote_down(&bytes),
            Ok(Turned::Idle) | Err(_) => false,
        }
    }

    /// The session, in pieces of so many bytes.
    fn play(&mut self, size: usize, initialize: &Call) -> bool {
        self.send(initialize)
            && self.move_up(size)
            && self.turn()
            && self.move_down(size)
            && self.send(&Call::Threads)
            && self.send(&Call::Threads)
            && self.send(&Call::Cancel {
                request_id: Some(2),
            })
            && self.move_up(size)
            && self.move_down(size)
            && self.turn()
            && self.move_down(size)
    }
}

/// The bodies that these texts stand for, each in its frame.
fn frames(alloc: Global, bodies: &[&str]) -> Option<Vec<u8>> {
    let mut frames = Vec::new(alloc);
    for body in bodies.iter() {
        let body = body_of(alloc, body).ok()?;
        let frame = frame_of(alloc, &body).ok()?;
        frames.extend_from_slice(&frame).ok()?;
    }
    Some(frames)
}

/// Whether both write just the nine messages, in pieces of so many bytes, and none is left waiting.
fn is_played(alloc: Global, size: usize) -> Option<bool> {
    let call = initialize(alloc)?;
    let up = frames(alloc, &UP)?;
    let down = frames(alloc, &DOWN)?;
    let mut joined = Joined::open(alloc)?;
    let is_so = joined.play(size, &call)
        && joined.all_up == up
        && joined.all_down == down
        && joined.client.outstanding() == 0
        && joined.adapter.kept() == 0;
    drop(joined);
    Some(is_so)
}

#[test]
fn nine_messages_move_byte_by_byte(rt: HostRuntime) -> Result<(), Fail> {
    for size in 1..8 {
        assert!(rt; is_played(rt.alloc(), size) == Some(true));
    }
    assert!(rt; is_played(rt.alloc(), 1000) == Some(true));
    Ok(())
}
