//! Scripts, the transcripts that they give, and the faults at which they stop. What the lines of a row say stands in
//! `driven.rt`.

use crate::driven::Driven;
use dap_check::Checked;
use dap_drive::{DriveFault, Driven as Came, drive, drive_debuggee, drive_debuggee_and_check};
use dap_frame::Limits;
use std::alloc::Global;
use std::test::Fail;
use test_kit::rows::play_rows;
use test_kit::samples::{RECORDING, debuggee_of};

pub(crate) static ROWS: [&str; 33] = [
    r#"
row no line
"#,
    r#"
row left at once
send initialize {"adapterID":"rec"}
> {"arguments":{"adapterID":"rec"},"command":"initialize","seq":1,"type":"request"}
run
< capabilities seq 1 to 1
< {"event":"initialized","seq":2,"type":"event"}
send disconnect
> {"command":"disconnect","seq":2,"type":"request"}
run
< {"command":"disconnect","request_seq":2,"seq":3,"success":true,"type":"response"}
"#,
    r#"
row one request of two is cancelled
send initialize {"adapterID":"rec"}
> {"arguments":{"adapterID":"rec"},"command":"initialize","seq":1,"type":"request"}
run
< capabilities seq 1 to 1
< {"event":"initialized","seq":2,"type":"event"}
send threads
> {"command":"threads","seq":2,"type":"request"}
send threads
> {"command":"threads","seq":3,"type":"request"}
send cancel {"requestId":2}
> {"arguments":{"requestId":2},"command":"cancel","seq":4,"type":"request"}
run
< cancelled seq 3 to 2 threads
< {"command":"cancel","request_seq":4,"seq":4,"success":true,"type":"response"}
< {"body":{"threads":[]},"command":"threads","request_seq":3,"seq":5,"success":true,"type":"response"}
"#,
    r#"
row a word that is not known
jump
! Script { line: 1 }
"#,
    r#"
row a missing argument
.
.
send next {}
! Call { line: 3 }
"#,
    r#"
row too early
send threads
! Send { line: 1, cause: WrongPhase }
"#,
    r#"
row no own number is left
limits 8192 4194304 64 65536 4096 1 2147483647
send initialize
run
! Adapter
"#,
    r#"
# The client may send it, since it is offered.
row a variable is set
send initialize {"adapterID":"rec"}
> {"arguments":{"adapterID":"rec"},"command":"initialize","seq":1,"type":"request"}
run
< capabilities seq 1 to 1
< {"event":"initialized","seq":2,"type":"event"}
send configurationDone
> {"command":"configurationDone","seq":2,"type":"request"}
run
< {"command":"configurationDone","request_seq":2,"seq":3,"success":true,"type":"response"}
send launch
> {"command":"launch","seq":3,"type":"request"}
run
< {"command":"launch","request_seq":3,"seq":4,"success":true,"type":"response"}
< {"body":{"category":"stdout","output":"go\n"},"event":"output","seq":5,"type":"event"}
< {"body":{"allThreadsStopped":true,"reason":"entry","threadId":1},"event":"stopped","seq":6,"type":"event"}
send stackTrace {"threadId":1}
> {"arguments":{"threadId":1},"command":"stackTrace","seq":4,"type":"request"}
run
< {"body":{"stackFrames":[{"column":1,"id":1,"line":1,"name":"main","source":{"name":"a.c","path":"/a.c","sourceReference":1}}],"totalFrames":1},"command":"stackTrace","request_seq":4,"seq":7,"success":true,"type":"response"}
send scopes {"frameId":1}
> {"arguments":{"frameId":1},"command":"scopes","seq":5,"type":"request"}
run
< {"body":{"scopes":[{"expensive":false,"name":"Locals","variablesReference":2}]},"command":"scopes","request_seq":5,"seq":8,"success":true,"type":"response"}
send setVariable {"variablesReference":2,"name":"x","value":"9"}
> {"arguments":{"name":"x","value":"9","variablesReference":2},"command":"setVariable","seq":6,"type":"request"}
run
< {"body":{"value":"9"},"command":"setVariable","request_seq":6,"seq":9,"success":true,"type":"response"}
send setVariable {"variablesReference":2,"name":"y","value":"9"}
> {"arguments":{"name":"y","value":"9","variablesReference":2},"command":"setVariable","seq":7,"type":"request"}
run
< debuggee seq 10 to 7 setVariable
send evaluate {"expression":"x","frameId":1}
> {"arguments":{"expression":"x","frameId":1},"command":"evaluate","seq":8,"type":"request"}
run
< {"body":{"result":"9","variablesReference":0},"command":"evaluate","request_seq":8,"seq":11,"success":true,"type":"response"}
"#,
    r#"
# The number 3 is given by `variables` alone.
row a variable of a number that was not given
send initialize {"adapterID":"rec"}
run
send launch
send configurationDone
run
send stackTrace {"threadId":1}
run
send scopes {"frameId":1}
run
send setVariable {"variablesReference":3,"name":"a","value":"9"}
! Send { line: 10, cause: UnknownReference }
"#,
    r#"
row a stop that is left
send initialize {"adapterID":"rec"}
run
send launch
send configurationDone
run
send stackTrace {"threadId":1}
run
send next {"threadId":1}
send scopes {"frameId":1}
! Send { line: 9, cause: NotStopped }
"#,
    r#"
row a stop that is gone
send initialize {"adapterID":"rec"}
run
send launch
send configurationDone
run
send stackTrace {"threadId":1}
run
send next {"threadId":1}
run
send scopes {"frameId":1}
! Send { line: 10, cause: UnknownReference }
"#,
    r#"
row a frame is named in its own stop
send initialize {"adapterID":"rec"}
> {"arguments":{"adapterID":"rec"},"command":"initialize","seq":1,"type":"request"}
run
< capabilities seq 1 to 1
< {"event":"initialized","seq":2,"type":"event"}
send launch
> {"command":"launch","seq":2,"type":"request"}
send configurationDone
> {"command":"configurationDone","seq":3,"type":"request"}
run
< {"command":"configurationDone","request_seq":3,"seq":3,"success":true,"type":"response"}
< {"command":"launch","request_seq":2,"seq":4,"success":true,"type":"response"}
< {"body":{"category":"stdout","output":"go\n"},"event":"output","seq":5,"type":"event"}
< {"body":{"allThreadsStopped":true,"reason":"entry","threadId":1},"event":"stopped","seq":6,"type":"event"}
send stackTrace {"threadId":1}
> {"arguments":{"threadId":1},"command":"stackTrace","seq":4,"type":"request"}
run
< {"body":{"stackFrames":[{"column":1,"id":1,"line":1,"name":"main","source":{"name":"a.c","path":"/a.c","sourceReference":1}}],"totalFrames":1},"command":"stackTrace","request_seq":4,"seq":7,"success":true,"type":"response"}
send scopes {"frameId":1}
> {"arguments":{"frameId":1},"command":"scopes","seq":5,"type":"request"}
run
< {"body":{"scopes":[{"expensive":false,"name":"Locals","variablesReference":2}]},"command":"scopes","request_seq":5,"seq":8,"success":true,"type":"response"}
send next {"threadId":1}
> {"arguments":{"threadId":1},"command":"next","seq":6,"type":"request"}
= legal
"#,
    r#"
row the debuggee runs in a terminal
send initialize {"adapterID":"rec","supportsRunInTerminalRequest":true}
> {"arguments":{"adapterID":"rec","supportsRunInTerminalRequest":true},"command":"initialize","seq":1,"type":"request"}
run
< capabilities seq 1 to 1
< {"event":"initialized","seq":2,"type":"event"}
send launch {"console":"terminal"}
> {"arguments":{"console":"terminal"},"command":"launch","seq":2,"type":"request"}
send configurationDone
> {"command":"configurationDone","seq":3,"type":"request"}
run
< {"command":"configurationDone","request_seq":3,"seq":3,"success":true,"type":"response"}
< {"arguments":{"args":["recorded"],"cwd":"/","kind":"integrated","title":"recorded"},"command":"runInTerminal","seq":4,"type":"request"}
terminal ok
> {"body":{},"command":"runInTerminal","request_seq":4,"seq":4,"success":true,"type":"response"}
< {"command":"launch","request_seq":2,"seq":5,"success":true,"type":"response"}
run
< {"body":{"category":"stdout","output":"go\n"},"event":"output","seq":6,"type":"event"}
< {"body":{"allThreadsStopped":true,"reason":"entry","threadId":1},"event":"stopped","seq":7,"type":"event"}
= legal
"#,
    r#"
row a terminal is refused
send initialize {"adapterID":"rec","supportsRunInTerminalRequest":true}
> {"arguments":{"adapterID":"rec","supportsRunInTerminalRequest":true},"command":"initialize","seq":1,"type":"request"}
run
< capabilities seq 1 to 1
< {"event":"initialized","seq":2,"type":"event"}
send launch {"console":"terminal"}
> {"arguments":{"console":"terminal"},"command":"launch","seq":2,"type":"request"}
send configurationDone
> {"command":"configurationDone","seq":3,"type":"request"}
run
< {"command":"configurationDone","request_seq":3,"seq":3,"success":true,"type":"response"}
< {"arguments":{"args":["recorded"],"cwd":"/","kind":"integrated","title":"recorded"},"command":"runInTerminal","seq":4,"type":"request"}
terminal no
> {"body":{"error":{"format":"The terminal refused.","id":1018}},"command":"runInTerminal","message":"terminalRefused","request_seq":4,"seq":4,"success":false,"type":"response"}
< {"body":{"error":{"format":"The debuggee refused.","id":1013}},"command":"launch","message":"debuggee","request_seq":2,"seq":5,"success":false,"type":"response"}
run
"#,
    r#"
# After a refusal the session is configured: `launch` asks at once, and the request has a new number.
row a terminal is asked for again
send initialize {"adapterID":"rec","supportsRunInTerminalRequest":true}
> {"arguments":{"adapterID":"rec","supportsRunInTerminalRequest":true},"command":"initialize","seq":1,"type":"request"}
run
< capabilities seq 1 to 1
< {"event":"initialized","seq":2,"type":"event"}
send launch {"console":"terminal"}
> {"arguments":{"console":"terminal"},"command":"launch","seq":2,"type":"request"}
send configurationDone
> {"command":"configurationDone","seq":3,"type":"request"}
run
< {"command":"configurationDone","request_seq":3,"seq":3,"success":true,"type":"response"}
< {"arguments":{"args":["recorded"],"cwd":"/","kind":"integrated","title":"recorded"},"command":"runInTerminal","seq":4,"type":"request"}
terminal no
> {"body":{"error":{"format":"The terminal refused.","id":1018}},"command":"runInTerminal","message":"terminalRefused","request_seq":4,"seq":4,"success":false,"type":"response"}
< {"body":{"error":{"format":"The debuggee refused.","id":1013}},"command":"launch","message":"debuggee","request_seq":2,"seq":5,"success":false,"type":"response"}
send launch {"console":"terminal"}
> {"arguments":{"console":"terminal"},"command":"launch","seq":5,"type":"request"}
run
< {"arguments":{"args":["recorded"],"cwd":"/","kind":"integrated","title":"recorded"},"command":"runInTerminal","seq":6,"type":"request"}
terminal ok
> {"body":{},"command":"runInTerminal","request_seq":6,"seq":6,"success":true,"type":"response"}
< {"command":"launch","request_seq":5,"seq":7,"success":true,"type":"response"}
run
< {"body":{"category":"stdout","output":"go\n"},"event":"output","seq":8,"type":"event"}
< {"body":{"allThreadsStopped":true,"reason":"entry","threadId":1},"event":"stopped","seq":9,"type":"event"}
"#,
    r#"
# The client may still answer then; it comes to nothing.
row left while a terminal is waited for
send initialize {"adapterID":"rec","supportsRunInTerminalRequest":true}
> {"arguments":{"adapterID":"rec","supportsRunInTerminalRequest":true},"command":"initialize","seq":1,"type":"request"}
run
< capabilities seq 1 to 1
< {"event":"initialized","seq":2,"type":"event"}
send launch {"console":"terminal"}
> {"arguments":{"console":"terminal"},"command":"launch","seq":2,"type":"request"}
send configurationDone
> {"command":"configurationDone","seq":3,"type":"request"}
run
< {"command":"configurationDone","request_seq":3,"seq":3,"success":true,"type":"response"}
< {"arguments":{"args":["recorded"],"cwd":"/","kind":"integrated","title":"recorded"},"command":"runInTerminal","seq":4,"type":"request"}
send disconnect
> {"command":"disconnect","seq":4,"type":"request"}
run
< cancelled seq 5 to 2 launch
< {"command":"disconnect","request_seq":4,"seq":6,"success":true,"type":"response"}
terminal ok
> {"body":{},"command":"runInTerminal","request_seq":4,"seq":5,"success":true,"type":"response"}
run
"#,
    r#"
# The launch is answered by the call that takes the response, before any turn.
row a request waits while a terminal is answered
send initialize {"adapterID":"rec","supportsRunInTerminalRequest":true}
> {"arguments":{"adapterID":"rec","supportsRunInTerminalRequest":true},"command":"initialize","seq":1,"type":"request"}
run
< capabilities seq 1 to 1
< {"event":"initialized","seq":2,"type":"event"}
send launch {"console":"terminal"}
> {"arguments":{"console":"terminal"},"command":"launch","seq":2,"type":"request"}
send configurationDone
> {"command":"configurationDone","seq":3,"type":"request"}
run
< {"command":"configurationDone","request_seq":3,"seq":3,"success":true,"type":"response"}
< {"arguments":{"args":["recorded"],"cwd":"/","kind":"integrated","title":"recorded"},"command":"runInTerminal","seq":4,"type":"request"}
send threads
> {"command":"threads","seq":4,"type":"request"}
terminal no
> {"body":{"error":{"format":"The terminal refused.","id":1018}},"command":"runInTerminal","message":"terminalRefused","request_seq":4,"seq":5,"success":false,"type":"response"}
< {"body":{"error":{"format":"The debuggee refused.","id":1013}},"command":"launch","message":"debuggee","request_seq":2,"seq":5,"success":false,"type":"response"}
run
< {"body":{"threads":[]},"command":"threads","request_seq":4,"seq":6,"success":true,"type":"response"}
"#,
    r#"
row no terminal is wanted
terminal ok
! Call { line: 1 }
"#,
    r#"
row no terminal is wanted of a client that runs none
send initialize {"adapterID":"rec"}
run
send launch {"console":"terminal"}
send configurationDone
run
terminal no
! Call { line: 6 }
"#,
    r#"
row a terminal is answered twice
send initialize {"adapterID":"rec","supportsRunInTerminalRequest":true}
run
send launch {"console":"terminal"}
send configurationDone
run
terminal ok
.
terminal ok
! Call { line: 8 }
"#,
    r#"
# With 4 numbers each the adapter asks with its last one, and `threads` has the last one of the client.
row no own number of the client is left
limits 8192 4194304 64 65536 4096 4 2147483647
send initialize {"adapterID":"rec","supportsRunInTerminalRequest":true}
run
send launch {"console":"terminal"}
send configurationDone
run
send threads
terminal ok
! Client
"#,
    r#"
row no own number is left to refuse a terminal
limits 8192 4194304 64 65536 4096 4 2147483647
send initialize {"adapterID":"rec","supportsRunInTerminalRequest":true}
run
send launch {"console":"terminal"}
send configurationDone
run
send threads
terminal no
! Client
"#,
    r#"
# The response comes, and `launch` cannot be answered.
row no own number of the adapter is left for the launch
limits 8192 4194304 64 65536 4096 4 2147483647
send initialize {"adapterID":"rec","supportsRunInTerminalRequest":true}
run
send launch {"console":"terminal"}
send configurationDone
run
terminal ok
! Adapter
"#,
    r#"
row a terminal without a word
terminal
! Script { line: 1 }
"#,
    r#"
row a terminal with a word that is not known
terminal maybe
! Script { line: 1 }
"#,
    r#"
row a terminal behind two spaces
terminal  ok
! Script { line: 1 }
"#,
    r#"
row a terminal with more behind it
terminal ok 1
! Script { line: 1 }
"#,
    r#"
row a terminal in capitals
Terminal ok
! Script { line: 1 }
"#,
    r#"
row lines without bytes are counted
.
run
.
jump
! Script { line: 4 }
"#,
    r#"
row there are no comments
run
.# run
! Script { line: 2 }
"#,
    r#"
row a comment without a word
.#
! Script { line: 1 }
"#,
    r#"
row a comment behind an order
run # to the end
! Script { line: 1 }
"#,
    r#"
row a comment behind a space
. # run
! Script { line: 1 }
"#,
];

/// The rows. A proof looks at their texts here alone.
fn rows() -> &'static [&'static str] {
    &ROWS
}

#[test]
fn scripts(rt: HostRuntime) -> Result<(), Fail> {
    play_rows::<Driven>(&rt, rows(), usize::MAX)?;
    play_rows::<Driven>(&rt, rows(), 0)
}

/// A session that begins and ends, and what both ends write by it.
const LEFT_AT_ONCE: &[u8] = b"send initialize {\"adapterID\":\"rec\"}\nrun\nsend disconnect\nrun\n";

/// Whether a debuggee of one's own comes back, with the transcript that its recording has.
fn comes_back(alloc: Global, wanted: &[u8]) -> Option<bool> {
    let debuggee = debuggee_of(alloc, RECORDING).ok()?;
    let Came {
        transcript,
        debuggee,
    } = drive_debuggee(alloc, debuggee, LEFT_AT_ONCE, Limits::usual());
    let is_there = debuggee.is_some();
    drop(debuggee);
    let transcript = transcript.ok()?;
    Some(is_there && transcript.as_slice() == wanted)
}

/// Whether its transcript is found to be legal.
fn is_found_legal(alloc: Global, wanted: &[u8]) -> Option<bool> {
    let debuggee = debuggee_of(alloc, RECORDING).ok()?;
    let found = drive_debuggee_and_check(alloc, debuggee, LEFT_AT_ONCE, Limits::usual()).ok()?;
    Some(found.checked == Checked::Legal && found.transcript.as_slice() == wanted)
}

/// The same of both, and of the calls over the recording.
fn are_the_same(alloc: Global) -> Option<bool> {
    let wanted = drive(alloc, RECORDING, LEFT_AT_ONCE, Limits::usual()).ok()?;
    let comes_back = comes_back(alloc, &wanted)?;
    let is_found_legal = is_found_legal(alloc, &wanted)?;
    Some(!wanted.is_empty() && comes_back && is_found_legal)
}

#[test]
fn debuggees(rt: HostRuntime) {
    assert!(rt; are_the_same(rt.alloc()) == Some(true));
}

pub(crate) static NO_RECORDINGS: [(&str, &str); 2] = [("[]", "jump"), ("{", "")];

/// Whether what is no recording is told before any line of the script.
fn is_none(alloc: Global, recording: &str, script: &str) -> bool {
    match drive(
        alloc,
        recording.as_bytes(),
        script.as_bytes(),
        Limits::usual(),
    ) {
        Ok(transcript) => {
            drop(transcript);
            false
        }
        Err(fault) => fault == DriveFault::Recording,
    }
}

fn are_none(alloc: Global) -> bool {
    for (recording, script) in &NO_RECORDINGS {
        if !is_none(alloc, recording, script) {
            return false;
        }
    }
    true
}

#[test]
fn no_recordings(rt: HostRuntime) {
    assert!(rt; are_none(rt.alloc()));
}
