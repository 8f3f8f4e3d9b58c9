//! The library code of the README, as tests: an adapter in a program with a loop of its own, and a client over a connection.

use dap_adapter::{Adapter, AdapterFault};
use dap_channel::Channel;
use dap_client::Client;
use dap_connection::Connection;
use dap_frame::Limits;
use dap_message::{Call, Initialize, Kind, Message, StackTrace, Text, Variables};
use dap_replay::Recorded;
use serde_json::Value;
use std::alloc::Global;
use std::fmt::Write;
use std::io;
use std::marker::Model;
use std::test::Fail;
use test_kit::samples::RECORDING;

/// A debug adapter in a program with a loop of its own. A contract sees nothing of it.
#[derive(Drop)]
struct Program {
    alloc: Global,
    adapter: Adapter<Recorded>,
    /// What goes to the client.
    out: Vec<u8>,
}

impl Model for Program {
    ghost use Rattle.std.specs.Prelude.{ℕ};

    ghost Value = { ℕ };

    ghost view = { λ _. 0 };
}

impl Program {
    fn open(alloc: Global, recording: &[u8]) -> Option<Program> {
        let debuggee = Recorded::read(alloc, recording).ok()?;
        let adapter = Adapter::open(alloc, Limits::usual(), debuggee).ok()?;
        Some(Program {
            alloc,
            adapter,
            out: Vec::new(alloc),
        })
    }

    /// Bytes came from the client: whether the session has ended.
    fn came(&mut self, piece: &[u8]) -> Result<bool, AdapterFault> {
        self.adapter.answer(self.alloc, piece, &mut self.out)
    }

    /// Time went by, and the debugger may have news.
    fn waited(&mut self) -> Result<(), AdapterFault> {
        self.adapter.tell(self.alloc, &mut self.out)
    }
}

/// The program as a channel of a client in the same process: what is written to it comes, and what goes out is read.
#[derive(Drop)]
struct Nearby {
    program: Program,
    at: usize,
}

impl Model for Nearby {
    ghost use Rattle.std.specs.Prelude.{ℕ};

    ghost Value = { ℕ };

    ghost view = { λ _. 0 };
}

impl Channel for Nearby {
    ghost goes = { λ _ _ _. Unit {0} };

    fn read(&mut self, buf: &mut [u8]) -> io::Result<usize> {
        if self.program.waited().is_err() {
            return Err(io::Error::from(io::ErrorKind::Other));
        }
        let start = self.at.min(self.program.out.len());
        let (_, rest) = self.program.out.split_at(start);
        let n = rest.len().min(buf.len());
        buf[..n].copy_from_slice(&rest[..n]);
        self.at = start + n;
        Ok(n)
    }

    fn write(&mut self, bytes: &[u8]) -> io::Result<usize> {
        match self.program.came(bytes) {
            Ok(_) => Ok(bytes.len()),
            Err(_) => Err(io::Error::from(io::ErrorKind::Other)),
        }
    }

    fn flush(&mut self) -> io::Result<()> {
        Ok(())
    }
}

pub(crate) fn initialize(alloc: Global) -> Option<Call> {
    match Text::copied(alloc, "rec") {
        Ok(adapter_id) => Some(Call::Initialize(Initialize {
            adapter_id,
            lines_start_at_1: true,
            columns_start_at_1: true,
            supports_variable_paging: false,
            supports_run_in_terminal_request: false,
        })),
        Err(_) => None,
    }
}

/// Asks, and waits for the response.
fn ask<C: Channel + Drop>(editor: &mut Connection<C>, call: &Call) -> Option<Message> {
    if !call.plain() {
        return None;
    }
    editor.ask(call).ok()
}

/// The body of a response.
fn body(message: &Message) -> Option<&Value> {
    match &message.kind {
        Kind::Response {
            body: Some(body),
            ..
        } => Some(body.value()),
        _ => None,
    }
}

/// Waits for an event.
fn wait_for<C: Channel + Drop>(editor: &mut Connection<C>, name: &str) -> Option<()> {
    for _message in 0..100 {
        let message = editor.next().ok()??;
        if message.event().is_some_and(|event| event.name == name) {
            return Some(());
        }
    }
    None
}

/// Starts the run, and waits for its first stop.
fn start<C: Channel + Drop>(alloc: Global, editor: &mut Connection<C>) -> Option<()> {
    ask(editor, &initialize(alloc)?)?;
    editor.send(&Call::Launch(None)).ok()?;
    wait_for(editor, "initialized")?;
    ask(editor, &Call::ConfigurationDone)?;
    wait_for(editor, "stopped")
}

/// The newest frame of a thread.
fn frame<C: Channel + Drop>(
    alloc: Global,
    editor: &mut Connection<C>,
    thread_id: i64,
) -> Option<u32> {
    let asked = StackTrace {
        thread_id,
        start_frame: 0,
        levels: 1,
    };
    let told = ask(editor, &Call::StackTrace(asked))?;
    let stack = dap_body::view::stack_trace(alloc, body(&told)?).ok()?;
    Some(stack.stack_frames.first()?.id)
}

/// The response with the variables of a frame's first scope.
fn variables<C: Channel + Drop>(
    alloc: Global,
    editor: &mut Connection<C>,
    frame_id: u32,
) -> Option<Message> {
    let told = ask(editor, &Call::Scopes { frame_id })?;
    let scopes = dap_body::view::scopes(alloc, body(&told)?).ok()?;
    let variables_reference = scopes.first()?.variables_reference;
    let asked = Variables {
        variables_reference,
        start: 0,
        count: 0,
    };
    ask(editor, &Call::Variables(asked))
}

/// The variables of the first stop, a line each.
fn lines<C: Channel + Drop>(alloc: Global, editor: &mut Connection<C>) -> Option<String> {
    start(alloc, editor)?;
    let frame_id = frame(alloc, editor, 1)?;
    let told = variables(alloc, editor, frame_id)?;
    let mut lines = String::new(alloc);
    for variable in dap_body::view::variables(alloc, body(&told)?).ok()?.iter() {
        writeln!(lines, "{} = {}", variable.name, variable.value).ok()?;
    }
    Some(lines)
}

/// The variables of a recording's first stop.
fn told(alloc: Global, recording: &[u8]) -> Option<String> {
    let program = Program::open(alloc, recording)?;
    let nearby = Nearby { program, at: 0 };
    let mut editor = Connection::open(alloc, nearby, Limits::usual()).ok()?;
    let lines = lines(alloc, &mut editor);
    // The proof of a call is shorter than that of a value that goes out of scope.
    drop(editor);
    lines
}

/// Whether these are told.
fn tells(alloc: Global, recording: &[u8], wanted: &str) -> bool {
    match told(alloc, recording) {
        Some(lines) => lines.as_str() == wanted,
        None => false,
    }
}

/// A client of its own loop: how many messages are in these bytes of an adapter.
fn count(alloc: Global, written: &[u8]) -> Option<u64> {
    let mut client = Client::open(alloc, Limits::usual()).ok()?;
    let mut piece = written;
    let mut out = Vec::new(alloc);
    let mut count = 0;
    for _message in 0..written.len() {
        if let Some(_) = client.next(alloc, &mut piece, &mut out).ok()? {
            count = u64::saturating_add(count, 1);
        }
    }
    Some(count)
}

#[test]
fn the_readme_prints_variables(rt: HostRuntime) -> Result<(), Fail> {
    assert!(rt; tells(rt.alloc(), RECORDING, "x = 1\np = P\n"));
    assert!(rt; told(rt.alloc(), b"{}").is_none());
    Ok(())
}

#[test]
fn a_client_counts_events(rt: HostRuntime) -> Result<(), Fail> {
    let two =
        b"Content-Length: 46\r\n\r\n{\"event\":\"initialized\",\"seq\":2,\"type\":\"event\"}Content-Length: 46\r\n\r\n{\"event\":\"initialized\",\"seq\":3,\"type\":\"event\"}";
    assert!(rt; count(rt.alloc(), two) == Some(2));
    assert!(rt; count(rt.alloc(), b"") == Some(0));
    Ok(())
}
