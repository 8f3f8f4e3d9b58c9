//! A terminal that is asked for where few own numbers are left, and what takes no memory beside it. Lines: `playing.rt`.

use crate::playing::Playing;
use dap_replay::Recorded;
use std::test::Fail;
use test_kit::rows::play_rows;

pub(crate) static LAST_NUMBERS: [&str; 17] = [
    r#"
row runs terminals
> {"seq":1,"type":"request","command":"initialize","arguments":{"adapterID":"rec","supportsRunInTerminalRequest":true}}
turn
< capabilities seq 1 to 1
< {"event":"initialized","seq":2,"type":"event"}
"#,
    r#"
row asks for a terminal
> {"seq":1,"type":"request","command":"initialize","arguments":{"adapterID":"rec","supportsRunInTerminalRequest":true}}
turn
< capabilities seq 1 to 1
< {"event":"initialized","seq":2,"type":"event"}
> {"seq":2,"type":"request","command":"launch","arguments":{"console":"terminal"}}
turn
phase Parked
> {"seq":3,"type":"request","command":"configurationDone"}
turn
< {"command":"configurationDone","request_seq":3,"seq":3,"success":true,"type":"response"}
< terminal seq 4
kept 1
asked 1
phase Asked
"#,
    r#"
row disconnect beside a terminal
> {"seq":1,"type":"request","command":"initialize","arguments":{"adapterID":"rec","supportsRunInTerminalRequest":true}}
turn
< capabilities seq 1 to 1
< {"event":"initialized","seq":2,"type":"event"}
> {"seq":2,"type":"request","command":"launch","arguments":{"console":"terminal"}}
turn
phase Parked
> {"seq":3,"type":"request","command":"configurationDone"}
turn
< {"command":"configurationDone","request_seq":3,"seq":3,"success":true,"type":"response"}
< terminal seq 4
kept 1
asked 1
phase Asked
> {"seq":4,"type":"request","command":"disconnect"}
turn
< cancelled seq 5 to 2 launch
< {"command":"disconnect","request_seq":4,"seq":6,"success":true,"type":"response"}
kept 0
asked 1
phase Ended
"#,
    r#"
row is configured
> {"seq":1,"type":"request","command":"initialize","arguments":{"adapterID":"rec","supportsRunInTerminalRequest":true}}
turn
< capabilities seq 1 to 1
< {"event":"initialized","seq":2,"type":"event"}
> {"seq":2,"type":"request","command":"configurationDone"}
turn
< {"command":"configurationDone","request_seq":2,"seq":3,"success":true,"type":"response"}
phase Configured
asked 0
"#,
    r#"
# A launch that asks needs one.
row no number is left for a request
limits 8192 4194304 64 65536 4096 3 2147483647
after is configured
> {"seq":3,"type":"request","command":"launch","arguments":{"console":"terminal"}}
turn
! SeqExhausted
kept 1
asked 0
"#,
    r#"
# None is left for the answer to it then.
row a number is left for a request
limits 8192 4194304 64 65536 4096 4 2147483647
after is configured
> {"seq":3,"type":"request","command":"launch","arguments":{"console":"terminal"}}
turn
< terminal seq 4
kept 1
asked 1
phase Asked
> {"seq":4,"type":"response","request_seq":4,"success":true,"command":"runInTerminal"}
! SeqExhausted
kept 1
asked 1
"#,
    r#"
# It needs two.
row one number is left for a request and an answer
limits 8192 4194304 64 65536 4096 3 2147483647
after runs terminals
> {"seq":2,"type":"request","command":"launch","arguments":{"console":"terminal"}}
turn
phase Parked
> {"seq":3,"type":"request","command":"configurationDone"}
turn
! SeqExhausted
kept 2
asked 0
"#,
    r#"
row no number is left for a success
limits 8192 4194304 64 65536 4096 4 2147483647
after asks for a terminal
> {"seq":4,"type":"response","request_seq":4,"success":true,"command":"runInTerminal"}
! SeqExhausted
kept 1
asked 1
"#,
    r#"
row no number is left for a failure
limits 8192 4194304 64 65536 4096 4 2147483647
after asks for a terminal
> {"seq":4,"type":"response","request_seq":4,"success":false,"command":"runInTerminal"}
! SeqExhausted
kept 1
asked 1
"#,
    r#"
# This comes first.
row no number is left, and another one is answered
limits 8192 4194304 64 65536 4096 4 2147483647
after asks for a terminal
> {"seq":4,"type":"response","request_seq":9,"success":true,"command":"runInTerminal"}
! Unmatched { request_seq: 9 }
kept 1
asked 1
"#,
    r#"
row no number is left, and the command is another
limits 8192 4194304 64 65536 4096 4 2147483647
after asks for a terminal
> {"seq":4,"type":"response","request_seq":4,"success":true,"command":"x"}
! CommandMismatch { request_seq: 4 }
kept 1
asked 1
"#,
    r#"
row one number is left for a success
limits 8192 4194304 64 65536 4096 5 2147483647
after asks for a terminal
> {"seq":4,"type":"response","request_seq":4,"success":true,"command":"runInTerminal"}
< {"command":"launch","request_seq":2,"seq":5,"success":true,"type":"response"}
kept 0
asked 0
phase Running
poll
! SeqExhausted
"#,
    r#"
row one number is left for a failure
limits 8192 4194304 64 65536 4096 5 2147483647
after asks for a terminal
> {"seq":4,"type":"response","request_seq":4,"success":false,"command":"runInTerminal"}
< debuggee seq 5 to 2 launch
kept 0
asked 0
phase Configured
"#,
    r#"
# It needs two.
row no number is left for a disconnect
limits 8192 4194304 64 65536 4096 5 2147483647
after asks for a terminal
> {"seq":4,"type":"request","command":"disconnect"}
turn
! SeqExhausted
kept 2
asked 1
"#,
    r#"
row a late response needs no number
limits 8192 4194304 64 65536 4096 6 2147483647
after disconnect beside a terminal
> {"seq":5,"type":"response","request_seq":4,"success":true,"command":"runInTerminal"}
kept 0
asked 0
phase Ended
> {"seq":6,"type":"response","request_seq":4,"success":true,"command":"runInTerminal"}
! Unmatched { request_seq: 4 }
"#,
    r#"
row what takes no memory beside a terminal
after asks for a terminal
free of memory
idle
poll
bytes 0 "Content-Length: 46\r\n\r\n{\"seq\":4,"
held 9
asked 1
phase Asked
"#,
    r#"
row what takes no memory behind a late response
after disconnect beside a terminal
> {"seq":5,"type":"response","request_seq":4,"success":true,"command":"runInTerminal"}
asked 0
free of memory
idle
poll
phase Ended
"#,
];

#[test]
fn last_numbers(rt: HostRuntime) -> Result<(), Fail> {
    play_rows::<Playing<Recorded>>(&rt, &LAST_NUMBERS, usize::MAX)
}
