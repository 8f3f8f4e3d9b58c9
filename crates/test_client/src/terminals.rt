//! A client of which a terminal is asked. What the lines of a row say stands in `asking.rt`.

use crate::asking::Asking;
use std::test::Fail;
use test_kit::rows::play_rows;

pub(crate) static TERMINALS: [&str; 12] = [
    r#"
row runs terminals
send initialize {"adapterID":"rec","supportsRunInTerminalRequest":true}
> {"arguments":{"adapterID":"rec","supportsRunInTerminalRequest":true},"command":"initialize","seq":1,"type":"request"}
< capabilities seq 1 to 1
phase Configuring
< {"event":"initialized","seq":2,"type":"event"}
incoming 0
oldest none
"#,
    r#"
row three are asked for, and two are kept
limits 8192 4194304 2 65536 4096 9007199254740991 2147483647
after runs terminals
< {"seq":3,"type":"request","command":"runInTerminal","arguments":{"args":["recorded"],"cwd":"/","kind":"integrated","title":"recorded"}}
incoming 1
oldest 3
outstanding 0
< {"seq":4,"type":"request","command":"runInTerminal","arguments":{"args":["recorded"],"cwd":"/"}}
incoming 2
oldest 3
< {"seq":5,"type":"request","command":"runInTerminal","arguments":{"args":["recorded"],"cwd":"/"}}
> busy seq 2 to 5 runInTerminal
incoming 2
answer 9 ok
! NotKept
< {"seq":3,"type":"request","command":"runInTerminal","arguments":{"args":["recorded"],"cwd":"/"}}
! RepeatedSeq { seq: 3 }
"#,
    r#"
# The first one is refused, and the second one starts; their numbers may come again then.
row both are answered
limits 8192 4194304 2 65536 4096 9007199254740991 2147483647
after runs terminals
< {"seq":3,"type":"request","command":"runInTerminal","arguments":{"args":["a"],"cwd":"/"}}
< {"seq":4,"type":"request","command":"runInTerminal","arguments":{"args":["b"],"cwd":"/"}}
incoming 2
answer 4 ok
> {"body":{},"command":"runInTerminal","request_seq":4,"seq":2,"success":true,"type":"response"}
incoming 1
oldest 3
answer 4 ok
! NotKept
answer 3 no
> terminalRefused seq 3 to 3 runInTerminal
incoming 0
oldest none
< {"seq":4,"type":"request","command":"runInTerminal","arguments":{"args":["b"],"cwd":"/"}}
incoming 1
oldest 4
answer 4 ok 7 8
> {"body":{"processId":7,"shellProcessId":8},"command":"runInTerminal","request_seq":4,"seq":4,"success":true,"type":"response"}
incoming 0
send threads
> {"command":"threads","seq":5,"type":"request"}
phase Configuring
"#,
    r#"
row a process alone
after runs terminals
< {"seq":0,"type":"request","command":"runInTerminal","arguments":{"args":[],"cwd":"","env":{"A":"b"},"argsCanBeInterpretedByShell":true}}
incoming 1
oldest 0
answer 0 ok 2147483647
> {"body":{"processId":2147483647},"command":"runInTerminal","request_seq":0,"seq":2,"success":true,"type":"response"}
incoming 0
"#,
    r#"
# In the order of the keys; each is answered at once, with the next number.
row bad arguments
after runs terminals
< {"seq":3,"type":"request","command":"runInTerminal"}
> badArguments arguments seq 2 to 3 runInTerminal
< {"seq":3,"type":"request","command":"runInTerminal","arguments":{"kind":1,"title":1}}
> badArguments kind seq 3 to 3 runInTerminal
< {"seq":3,"type":"request","command":"runInTerminal","arguments":{"title":1,"args":["a"]}}
> badArguments title seq 4 to 3 runInTerminal
< {"seq":3,"type":"request","command":"runInTerminal","arguments":{"args":["a"],"kind":null}}
> badArguments cwd seq 5 to 3 runInTerminal
< {"seq":3,"type":"request","command":"runInTerminal","arguments":{"args":["a",1],"cwd":"/"}}
> badArguments args seq 6 to 3 runInTerminal
< {"seq":3,"type":"request","command":"runInTerminal","arguments":{"args":["a"],"cwd":"/","env":["A"]}}
> badArguments env seq 7 to 3 runInTerminal
incoming 0
outstanding 0
"#,
    r#"
# Bad arguments come before want of room, and another command before both.
row other requests of the adapter
limits 8192 4194304 2 65536 4096 9007199254740991 2147483647
after runs terminals
< {"seq":3,"type":"request","command":"runInTerminal","arguments":{"args":["a"],"cwd":"/"}}
< {"seq":4,"type":"request","command":"runInTerminal","arguments":{"args":["a"],"cwd":"/"}}
< {"seq":5,"type":"request","command":"startDebugging","arguments":{"request":"launch"}}
> unsupported seq 2 to 5 startDebugging
< {"seq":5,"type":"request","command":"runInTerminal","arguments":{"args":["a"]}}
> badArguments cwd seq 3 to 5 runInTerminal
< {"seq":4,"type":"request","command":"startDebugging"}
! RepeatedSeq { seq: 4 }
incoming 2
"#,
    r#"
row what the last initialize says counts
send initialize {"adapterID":"rec","supportsRunInTerminalRequest":true}
> {"arguments":{"adapterID":"rec","supportsRunInTerminalRequest":true},"command":"initialize","seq":1,"type":"request"}
< {"seq":1,"type":"request","command":"runInTerminal","arguments":{"args":["a"],"cwd":"/"}}
phase Initializing
incoming 1
< {"command":"initialize","request_seq":1,"seq":2,"success":false,"type":"response"}
phase Fresh
send initialize {"adapterID":"rec"}
> {"arguments":{"adapterID":"rec"},"command":"initialize","seq":2,"type":"request"}
phase Initializing
< {"seq":3,"type":"request","command":"runInTerminal","arguments":{"args":["a"],"cwd":"/"}}
> unsupported seq 3 to 3 runInTerminal
incoming 1
answer 1 ok
> {"body":{},"command":"runInTerminal","request_seq":1,"seq":4,"success":true,"type":"response"}
incoming 0
"#,
    r#"
row before initialize
< {"seq":1,"type":"request","command":"runInTerminal","arguments":{"args":["a"],"cwd":"/"}}
> unsupported seq 1 to 1 runInTerminal
phase Fresh
incoming 0
"#,
    r#"
# The end of the session is no end of what the adapter asks.
row after disconnect
after runs terminals
< {"seq":3,"type":"request","command":"runInTerminal","arguments":{"args":["a"],"cwd":"/"}}
send disconnect
> {"command":"disconnect","seq":2,"type":"request"}
phase Ended
< {"seq":4,"type":"request","command":"runInTerminal","arguments":{"args":["b"],"cwd":"/"}}
incoming 2
answer 3 ok
> {"body":{},"command":"runInTerminal","request_seq":3,"seq":3,"success":true,"type":"response"}
incoming 1
answer 4 no
> terminalRefused seq 4 to 4 runInTerminal
incoming 0
"#,
    r#"
# A refused answer uses no number; a request that is answered at once closes the client.
row numbers run out
limits 8192 4194304 64 65536 4096 2 2147483647
after runs terminals
< {"seq":3,"type":"request","command":"runInTerminal","arguments":{"args":["a"],"cwd":"/"}}
< {"seq":4,"type":"request","command":"runInTerminal","arguments":{"args":["b"],"cwd":"/"}}
answer 5 ok
! NotKept
answer 3 ok
> {"body":{},"command":"runInTerminal","request_seq":3,"seq":2,"success":true,"type":"response"}
incoming 1
answer 5 ok
! NotKept
answer 4 ok
! SeqExhausted
incoming 1
oldest 4
< {"seq":5,"type":"request","command":"runInTerminal"}
! SeqExhausted
incoming 1
"#,
    r#"
row a fault closes it for answers too
after runs terminals
< {"seq":3,"type":"request","command":"runInTerminal","arguments":{"args":["a"],"cwd":"/"}}
incoming 1
< {"command":"threads","request_seq":9,"seq":4,"success":true,"type":"response"}
! Unmatched { request_seq: 9 }
answer 3 ok
! Ended
answer 9 ok
! Ended
incoming 1
oldest 3
"#,
    r#"
row what takes no memory where a terminal waits
limits 8192 4194304 64 65536 4096 1 2147483647
after runs terminals
< {"seq":3,"type":"request","command":"runInTerminal","arguments":{"args":["a"],"cwd":"/"}}
free of memory
incoming 1
oldest 3
answer 4 ok
! NotKept
answer 3 ok
! SeqExhausted
"#,
];

/// The rows. A proof looks at their texts here alone.
fn rows() -> &'static [&'static str] {
    &TERMINALS
}

#[test]
fn terminals(rt: HostRuntime) -> Result<(), Fail> {
    play_rows::<Asking>(&rt, rows(), usize::MAX)?;
    play_rows::<Asking>(&rt, rows(), 7)
}
