//! Whole sessions that are served: where memory is refused, what was written is a front of what is due.

ghost use Rattle.std.specs.Prelude.{◌≡◌, ◌≤◌};
ghost use Rattle.dap_debuggee.specs.declared.answers.State.{State};

use crate::debuggee::RECORDING;
use crate::files::Whole;
use crate::outcomes::{judge, refused};
use dap_adapter::{Phase, ServeFault, Served, serve};
use dap_channel::Pipe;
use dap_frame::Limits;
use dap_recording::RecordingFault;
use dap_replay::Recorded;
use std::alloc::Global;
use std::io;
use std::io::Write;
use std::test::Fail;
use test_kit::served::{Stream, stream_of};

/// A session from `initialize` to `disconnect`.
pub(crate) static SESSION: &str = r#"
row a session
> {"seq":1,"type":"request","command":"initialize","arguments":{"adapterID":"rec"}}
< capabilities seq 1 to 1
< {"event":"initialized","seq":2,"type":"event"}
> {"seq":2,"type":"request","command":"launch"}
> {"seq":3,"type":"request","command":"configurationDone"}
< {"command":"configurationDone","request_seq":3,"seq":3,"success":true,"type":"response"}
< {"command":"launch","request_seq":2,"seq":4,"success":true,"type":"response"}
< {"body":{"category":"stdout","output":"go\n"},"event":"output","seq":5,"type":"event"}
< {"body":{"allThreadsStopped":true,"reason":"entry","threadId":1},"event":"stopped","seq":6,"type":"event"}
> {"seq":4,"type":"request","command":"disconnect"}
< {"command":"disconnect","request_seq":4,"seq":7,"success":true,"type":"response"}
phase Ended
"#;

/// A session that sets a breakpoint, looks into a stop and sets a variable there.
pub(crate) static LOOKS: &str = r#"
row a session that looks into a stop
> {"seq":1,"type":"request","command":"initialize","arguments":{"adapterID":"rec"}}
< capabilities seq 1 to 1
< {"event":"initialized","seq":2,"type":"event"}
> {"seq":2,"type":"request","command":"setBreakpoints","arguments":{"source":{"path":"/a.c"},"breakpoints":[{"line":2}]}}
< {"body":{"breakpoints":[{"id":1,"line":2,"verified":true}]},"command":"setBreakpoints","request_seq":2,"seq":3,"success":true,"type":"response"}
> {"seq":3,"type":"request","command":"launch"}
> {"seq":4,"type":"request","command":"configurationDone"}
< {"command":"configurationDone","request_seq":4,"seq":4,"success":true,"type":"response"}
< {"command":"launch","request_seq":3,"seq":5,"success":true,"type":"response"}
< {"body":{"category":"stdout","output":"go\n"},"event":"output","seq":6,"type":"event"}
< {"body":{"allThreadsStopped":true,"reason":"entry","threadId":1},"event":"stopped","seq":7,"type":"event"}
> {"seq":5,"type":"request","command":"stackTrace","arguments":{"threadId":1}}
< {"body":{"stackFrames":[{"column":1,"id":1,"line":1,"name":"main","source":{"name":"a.c","path":"/a.c","sourceReference":1}}],"totalFrames":1},"command":"stackTrace","request_seq":5,"seq":8,"success":true,"type":"response"}
> {"seq":6,"type":"request","command":"scopes","arguments":{"frameId":1}}
< {"body":{"scopes":[{"expensive":false,"name":"Locals","variablesReference":2}]},"command":"scopes","request_seq":6,"seq":9,"success":true,"type":"response"}
> {"seq":7,"type":"request","command":"variables","arguments":{"variablesReference":2}}
< {"body":{"variables":[{"name":"p","value":"P","variablesReference":3}]},"command":"variables","request_seq":7,"seq":10,"success":true,"type":"response"}
> {"seq":8,"type":"request","command":"evaluate","arguments":{"expression":"p","frameId":1}}
< {"body":{"result":"P","variablesReference":3},"command":"evaluate","request_seq":8,"seq":11,"success":true,"type":"response"}
> {"seq":9,"type":"request","command":"setVariable","arguments":{"variablesReference":2,"name":"p","value":"Q"}}
< {"body":{"value":"Q"},"command":"setVariable","request_seq":9,"seq":12,"success":true,"type":"response"}
> {"seq":10,"type":"request","command":"variables","arguments":{"variablesReference":2}}
< {"body":{"variables":[{"name":"p","value":"Q","variablesReference":3}]},"command":"variables","request_seq":10,"seq":13,"success":true,"type":"response"}
> {"seq":11,"type":"request","command":"loadedSources"}
< {"body":{"sources":[{"name":"a.c","path":"/a.c","sourceReference":1}]},"command":"loadedSources","request_seq":11,"seq":14,"success":true,"type":"response"}
> {"seq":12,"type":"request","command":"source","arguments":{"sourceReference":1}}
< {"body":{"content":"one\ntwo\n"},"command":"source","request_seq":12,"seq":15,"success":true,"type":"response"}
> {"seq":13,"type":"request","command":"disconnect"}
< {"command":"disconnect","request_seq":13,"seq":16,"success":true,"type":"response"}
phase Ended
"#;

/// A session in a terminal that the client refuses first.
pub(crate) static TERMINAL: &str = r#"
row a session in a terminal
> {"seq":1,"type":"request","command":"initialize","arguments":{"adapterID":"rec","supportsRunInTerminalRequest":true}}
< capabilities seq 1 to 1
< {"event":"initialized","seq":2,"type":"event"}
> {"seq":2,"type":"request","command":"launch","arguments":{"console":"terminal"}}
> {"seq":3,"type":"request","command":"configurationDone"}
< {"command":"configurationDone","request_seq":3,"seq":3,"success":true,"type":"response"}
< terminal seq 4
> {"seq":4,"type":"response","request_seq":4,"success":false,"command":"runInTerminal","message":"terminalRefused"}
< debuggee seq 5 to 2 launch
> {"seq":5,"type":"request","command":"launch","arguments":{"console":"terminal"}}
< terminal seq 6
> {"seq":6,"type":"response","request_seq":6,"success":true,"command":"runInTerminal","body":{}}
< {"command":"launch","request_seq":5,"seq":7,"success":true,"type":"response"}
< {"body":{"category":"stdout","output":"go\n"},"event":"output","seq":8,"type":"event"}
< {"body":{"allThreadsStopped":true,"reason":"entry","threadId":1},"event":"stopped","seq":9,"type":"event"}
> {"seq":7,"type":"request","command":"disconnect"}
< {"command":"disconnect","request_seq":7,"seq":10,"success":true,"type":"response"}
phase Ended
"#;

/// Keeps up to 4096 bytes, and takes no memory.
#[derive(Drop)]
struct Kept {
    bytes: [u8; 4096],
    len: usize,
    ghost within: { len ≤ 4096 },
}

impl Write for Kept {
    fn write(&mut self, buf: &[u8]) -> io::Result<usize> {
        let room = 4096 - self.len;
        let n = room.min(buf.len());
        let start = self.len;
        let end = start + n;
        self.bytes[start..end].copy_from_slice(&buf[..n]);
        self.len = end;
        Ok(n)
    }

    fn flush(&mut self) -> io::Result<()> {
        Ok(())
    }
}

impl Kept {
    fn written(&self) -> &[u8] {
        &self.bytes[..self.len]
    }
}

/// Whether a session that ended so wrote its answers; nothing where memory was refused, and a front of them is written.
fn is_answered(end: Result<Served, ServeFault>, written: &[u8], answers: &[u8]) -> Option<bool> {
    match end {
        Ok(served) => Some(served.phase == Phase::Ended && written == answers),
        Err(ServeFault::OutOfMemory) => refused(answers.starts_with(written)),
        Err(_) => Some(false),
    }
}

/// Whether a session is served so.
fn serves(alloc: Global, debuggee: Recorded, session: &[u8], answers: &[u8]) -> Option<bool>
    requires { debuggee.state ≡ State.NotStarted }
{
    let mut pipe = Pipe::new(
        Whole { rest: session },
        Kept {
            bytes: [0; 4096],
            len: 0,
        },
    );
    let end = serve(alloc, &mut pipe, debuggee, Limits::usual(), 10);
    is_answered(end, pipe.writer.written(), answers)
}

/// Likewise from the recording on.
fn is_served(alloc: Global, stream: &Stream) -> Option<bool> {
    match Recorded::read(alloc, RECORDING) {
        Ok(debuggee) => serves(alloc, debuggee, &stream.input, &stream.answers),
        Err(fault) => refused(fault == RecordingFault::OutOfMemory),
    }
}

/// Likewise the stream of a row.
fn is_row_served(alloc: Global, row: &str) -> Option<bool> {
    match stream_of(alloc, row) {
        Ok(stream) => {
            let outcome = is_served(alloc, &stream);
            // The proof of a call is shorter than that of a value that goes out of scope.
            drop(stream);
            outcome
        }
        Err(_) => None,
    }
}

#[test]
fn serving(rt: HostRuntime) -> Result<(), Fail> {
    judge(&rt, is_row_served(rt.alloc(), SESSION))
}

#[test]
fn serving_in_a_terminal(rt: HostRuntime) -> Result<(), Fail> {
    judge(&rt, is_row_served(rt.alloc(), TERMINAL))
}

#[test]
fn serving_a_stop(rt: HostRuntime) -> Result<(), Fail> {
    judge(&rt, is_row_served(rt.alloc(), LOOKS))
}
