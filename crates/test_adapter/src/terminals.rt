//! Sessions in which the adapter asks the client for a terminal, call by call. What the lines of a row say is in `playing.rt`.

use crate::playing::Playing;
use dap_replay::Recorded;
use std::test::Fail;
use test_kit::rows::play_rows;

pub(crate) static TERMINALS: [&str; 47] = [
    r#"
row runs terminals
> {"seq":1,"type":"request","command":"initialize","arguments":{"adapterID":"rec","supportsRunInTerminalRequest":true}}
turn
< capabilities seq 1 to 1
< {"event":"initialized","seq":2,"type":"event"}
phase Ready
asked 0
"#,
    r#"
# `configurationDone` is answered, and then the client is asked. Only its answer lets the debuggee start.
row asks for a terminal
> {"seq":1,"type":"request","command":"initialize","arguments":{"adapterID":"rec","supportsRunInTerminalRequest":true}}
turn
< capabilities seq 1 to 1
< {"event":"initialized","seq":2,"type":"event"}
phase Ready
asked 0
> {"seq":2,"type":"request","command":"launch","arguments":{"console":"terminal"}}
turn
phase Parked
asked 0
> {"seq":3,"type":"request","command":"configurationDone"}
kept 2
turn
< {"command":"configurationDone","request_seq":3,"seq":3,"success":true,"type":"response"}
< {"arguments":{"args":["recorded"],"cwd":"/","kind":"integrated","title":"recorded"},"command":"runInTerminal","seq":4,"type":"request"}
kept 1
asked 1
phase Asked
"#,
    r#"
# No poll does anything before. The request is answered once.
row the terminal is there
after asks for a terminal
idle
poll
> {"seq":4,"type":"response","request_seq":4,"success":true,"command":"runInTerminal","body":{}}
< {"command":"launch","request_seq":2,"seq":5,"success":true,"type":"response"}
kept 0
asked 0
phase Running
poll
< {"body":{"category":"stdout","output":"go\n"},"event":"output","seq":6,"type":"event"}
poll
< {"body":{"allThreadsStopped":true,"reason":"entry","threadId":1},"event":"stopped","seq":7,"type":"event"}
phase Stopped
> {"seq":5,"type":"response","request_seq":4,"success":true,"command":"runInTerminal"}
! Unmatched { request_seq: 4 }
asked 0
"#,
    r#"
# The next launch asks again, with another number.
row the terminal is refused
after asks for a terminal
> {"seq":4,"type":"response","request_seq":4,"success":false,"command":"runInTerminal","message":"terminalRefused","body":{"error":{"id":1018,"format":"The terminal refused."}}}
< debuggee seq 5 to 2 launch
kept 0
asked 0
phase Configured
idle
poll
> {"seq":5,"type":"request","command":"threads"}
turn
< {"body":{"threads":[]},"command":"threads","request_seq":5,"seq":6,"success":true,"type":"response"}
> {"seq":6,"type":"request","command":"launch","arguments":{"console":"terminal"}}
turn
< terminal seq 7
kept 1
asked 1
phase Asked
> {"seq":7,"type":"response","request_seq":7,"success":true,"command":"runInTerminal"}
< {"command":"launch","request_seq":6,"seq":8,"success":true,"type":"response"}
kept 0
asked 0
phase Running
poll
< {"body":{"category":"stdout","output":"go\n"},"event":"output","seq":9,"type":"event"}
"#,
    r#"
# It is answered, so that it is not waited for.
row the number of the first request
after asks for a terminal
> {"seq":4,"type":"response","request_seq":4,"success":false,"command":"runInTerminal"}
< debuggee seq 5 to 2 launch
> {"seq":5,"type":"request","command":"launch","arguments":{"console":"terminal"}}
turn
< terminal seq 6
asked 1
phase Asked
> {"seq":6,"type":"response","request_seq":4,"success":true,"command":"runInTerminal"}
! Unmatched { request_seq: 4 }
kept 1
asked 1
"#,
    r#"
# The parked launch is cancelled like each other request. The own request stays unanswered.
row disconnect beside a terminal
> {"seq":1,"type":"request","command":"initialize","arguments":{"adapterID":"rec","supportsRunInTerminalRequest":true}}
turn
< capabilities seq 1 to 1
< {"event":"initialized","seq":2,"type":"event"}
phase Ready
asked 0
> {"seq":2,"type":"request","command":"launch","arguments":{"console":"terminal"}}
turn
phase Parked
asked 0
> {"seq":3,"type":"request","command":"configurationDone"}
kept 2
turn
< {"command":"configurationDone","request_seq":3,"seq":3,"success":true,"type":"response"}
< {"arguments":{"args":["recorded"],"cwd":"/","kind":"integrated","title":"recorded"},"command":"runInTerminal","seq":4,"type":"request"}
kept 1
asked 1
phase Asked
> {"seq":4,"type":"request","command":"disconnect"}
kept 2
turn
< cancelled seq 5 to 2 launch
< {"command":"disconnect","request_seq":4,"seq":6,"success":true,"type":"response"}
kept 0
asked 1
phase Ended
idle
poll
"#,
    r#"
# It comes once, and nothing else comes of it.
row a late success
after disconnect beside a terminal
> {"seq":5,"type":"response","request_seq":4,"success":true,"command":"runInTerminal","body":{"processId":7}}
kept 0
asked 0
phase Ended
idle
poll
> {"seq":6,"type":"response","request_seq":4,"success":true,"command":"runInTerminal"}
! Unmatched { request_seq: 4 }
asked 0
"#,
    r#"
row a late failure
after disconnect beside a terminal
> {"seq":5,"type":"response","request_seq":4,"success":false,"command":"runInTerminal","message":"terminalRefused","body":{"error":{"id":1018,"format":"The terminal refused."}}}
kept 0
asked 0
phase Ended
idle
poll
> {"seq":6,"type":"response","request_seq":4,"success":false,"command":"runInTerminal"}
! Unmatched { request_seq: 4 }
"#,
    r#"
row a late response with another command
after disconnect beside a terminal
> {"seq":5,"type":"response","request_seq":4,"success":true,"command":"x"}
! CommandMismatch { request_seq: 4 }
asked 1
"#,
    r#"
row a late response to another number
after disconnect beside a terminal
> {"seq":5,"type":"response","request_seq":2,"success":true,"command":"runInTerminal"}
! Unmatched { request_seq: 2 }
asked 1
"#,
    r#"
row a request behind a late response
after disconnect beside a terminal
> {"seq":5,"type":"response","request_seq":4,"success":true,"command":"runInTerminal"}
asked 0
> {"seq":6,"type":"request","command":"threads"}
! Ended
"#,
    r#"
row a response with another command
after asks for a terminal
> {"seq":4,"type":"response","request_seq":4,"success":true,"command":"launch"}
! CommandMismatch { request_seq: 4 }
kept 1
asked 1
"#,
    r#"
row a failure with another command
after asks for a terminal
> {"seq":4,"type":"response","request_seq":4,"success":false,"command":"runInTermina"}
! CommandMismatch { request_seq: 4 }
kept 1
asked 1
"#,
    r#"
# The number is tested before the command.
row a response to another number
after asks for a terminal
> {"seq":4,"type":"response","request_seq":3,"success":true,"command":"x"}
! Unmatched { request_seq: 3 }
kept 1
asked 1
"#,
    r#"
row a response before the request
after runs terminals
> {"seq":2,"type":"request","command":"launch","arguments":{"console":"terminal"}}
turn
phase Parked
> {"seq":3,"type":"response","request_seq":4,"success":true,"command":"runInTerminal"}
! Unmatched { request_seq: 4 }
kept 1
asked 0
"#,
    r#"
# The lines count once the debuggee runs. A cancel of the parked launch succeeds alone.
row what is served beside a terminal
after asks for a terminal
> {"seq":4,"type":"request","command":"threads"}
turn
< {"body":{"threads":[]},"command":"threads","request_seq":4,"seq":5,"success":true,"type":"response"}
> {"seq":5,"type":"request","command":"loadedSources"}
turn
< {"body":{"sources":[{"name":"a.c","path":"/a.c","sourceReference":1}]},"command":"loadedSources","request_seq":5,"seq":6,"success":true,"type":"response"}
> {"seq":6,"type":"request","command":"source","arguments":{"sourceReference":1}}
turn
< {"body":{"content":"one\ntwo\nthree\n"},"command":"source","request_seq":6,"seq":7,"success":true,"type":"response"}
> {"seq":7,"type":"request","command":"setBreakpoints","arguments":{"source":{"path":"/a.c"},"breakpoints":[{"line":2}]}}
turn
< {"body":{"breakpoints":[{"id":1,"line":2,"verified":true}]},"command":"setBreakpoints","request_seq":7,"seq":8,"success":true,"type":"response"}
breakpoints 1
> {"seq":8,"type":"request","command":"setExceptionBreakpoints","arguments":{"filters":[]}}
turn
< {"command":"setExceptionBreakpoints","request_seq":8,"seq":9,"success":true,"type":"response"}
> {"seq":9,"type":"request","command":"cancel","arguments":{"requestId":2}}
< {"command":"cancel","request_seq":9,"seq":10,"success":true,"type":"response"}
kept 1
phase Asked
asked 1
> {"seq":10,"type":"response","request_seq":4,"success":true,"command":"runInTerminal"}
< {"command":"launch","request_seq":2,"seq":11,"success":true,"type":"response"}
phase Running
asked 0
poll
< {"body":{"category":"stdout","output":"go\n"},"event":"output","seq":12,"type":"event"}
poll
< {"body":{"allThreadsStopped":true,"reason":"entry","threadId":1},"event":"stopped","seq":13,"type":"event"}
phase Stopped
> {"seq":11,"type":"request","command":"continue","arguments":{"threadId":1}}
turn
< {"body":{"allThreadsContinued":true},"command":"continue","request_seq":11,"seq":14,"success":true,"type":"response"}
phase Running
poll
< {"body":{"allThreadsStopped":true,"reason":"breakpoint","threadId":1},"event":"stopped","seq":15,"type":"event"}
phase Stopped
"#,
    r#"
row what is refused beside a terminal
after asks for a terminal
> {"seq":4,"type":"request","command":"terminate"}
turn
< wrongPhase seq 5 to 4 terminate
> {"seq":5,"type":"request","command":"launch"}
turn
< wrongPhase seq 6 to 5 launch
> {"seq":6,"type":"request","command":"launch","arguments":{"console":"terminal"}}
turn
< wrongPhase seq 7 to 6 launch
> {"seq":7,"type":"request","command":"attach"}
turn
< wrongPhase seq 8 to 7 attach
> {"seq":8,"type":"request","command":"configurationDone"}
turn
< wrongPhase seq 9 to 8 configurationDone
> {"seq":9,"type":"request","command":"next","arguments":{"threadId":1}}
turn
< wrongPhase seq 10 to 9 next
> {"seq":10,"type":"request","command":"pause","arguments":{"threadId":1}}
turn
< wrongPhase seq 11 to 10 pause
> {"seq":11,"type":"request","command":"stackTrace","arguments":{"threadId":1}}
turn
< wrongPhase seq 12 to 11 stackTrace
> {"seq":12,"type":"request","command":"setVariable","arguments":{"variablesReference":1,"name":"x","value":"1"}}
turn
< wrongPhase seq 13 to 12 setVariable
kept 1
asked 1
phase Asked
"#,
    r#"
# The second announcement is refused, and changes nothing.
row what else is refused beside a terminal
after asks for a terminal
> {"seq":4,"type":"request","command":"initialize","arguments":{"supportsRunInTerminalRequest":false}}
turn
< alreadyInitialized seq 5 to 4 initialize
> {"seq":5,"type":"request","command":"runInTerminal"}
turn
< unknownCommand seq 6 to 5 runInTerminal
> {"seq":6,"type":"request","command":"restart"}
turn
< unsupported seq 7 to 6 restart
> {"seq":7,"type":"request","command":"next","arguments":{}}
turn
< badArguments threadId seq 8 to 7 next
> {"seq":8,"type":"request","command":"source","arguments":{"sourceReference":2}}
turn
< unknownSource seq 9 to 8 source
> {"seq":9,"type":"request","command":"cancel","arguments":{"requestId":"x"}}
< badArguments requestId seq 10 to 9 cancel
kept 1
asked 1
phase Asked
> {"seq":10,"type":"response","request_seq":4,"success":true,"command":"runInTerminal"}
< {"command":"launch","request_seq":2,"seq":11,"success":true,"type":"response"}
phase Running
asked 0
"#,
    r#"
row a number that is parked
after asks for a terminal
> {"seq":2,"type":"request","command":"threads"}
! RepeatedSeq { seq: 2 }
kept 1
asked 1
"#,
    r#"
row messages that are no response
after asks for a terminal
> {"seq":4,"type":"event","event":"x"}
> {"seq":5,"type":"x"}
kept 1
asked 1
phase Asked
"#,
    r#"
# The launch is answered by the call that takes the response. What stands in its body is not looked at.
row a response before a request is handled
after asks for a terminal
> {"seq":4,"type":"request","command":"threads"}
kept 2
> {"seq":5,"type":"response","request_seq":4,"success":true,"command":"runInTerminal","body":{"processId":"x"}}
< {"command":"launch","request_seq":2,"seq":5,"success":true,"type":"response"}
kept 1
phase Running
asked 0
turn
< {"body":{"threads":[{"id":1,"name":"main"}]},"command":"threads","request_seq":4,"seq":6,"success":true,"type":"response"}
kept 0
"#,
    r#"
row a cancel beside a terminal
after asks for a terminal
> {"seq":4,"type":"request","command":"threads"}
> {"seq":5,"type":"request","command":"cancel","arguments":{"requestId":4}}
< cancelled seq 5 to 4 threads
< {"command":"cancel","request_seq":5,"seq":6,"success":true,"type":"response"}
kept 1
idle
phase Asked
asked 1
"#,
    r#"
row disconnect with others kept
after asks for a terminal
> {"seq":4,"type":"request","command":"threads"}
> {"seq":5,"type":"request","command":"disconnect"}
> {"seq":6,"type":"request","command":"loadedSources"}
kept 4
turn
< {"body":{"threads":[]},"command":"threads","request_seq":4,"seq":5,"success":true,"type":"response"}
turn
< cancelled seq 6 to 2 launch
< cancelled seq 7 to 6 loadedSources
< {"command":"disconnect","request_seq":5,"seq":8,"success":true,"type":"response"}
kept 0
asked 1
phase Ended
"#,
    r#"
# The parked launch keeps its place; the own request takes none.
row busy beside a terminal
limits 8192 4194304 2 65536 4096 9007199254740991 2147483647
after asks for a terminal
> {"seq":4,"type":"request","command":"threads"}
kept 2
> {"seq":5,"type":"request","command":"threads"}
< busy seq 5 to 5 threads
kept 2
> {"seq":6,"type":"response","request_seq":4,"success":true,"command":"runInTerminal"}
< {"command":"launch","request_seq":2,"seq":6,"success":true,"type":"response"}
kept 1
asked 0
> {"seq":7,"type":"request","command":"disconnect"}
kept 2
"#,
    r#"
row is configured
> {"seq":1,"type":"request","command":"initialize","arguments":{"adapterID":"rec","supportsRunInTerminalRequest":true}}
turn
< capabilities seq 1 to 1
< {"event":"initialized","seq":2,"type":"event"}
phase Ready
asked 0
> {"seq":2,"type":"request","command":"configurationDone"}
turn
< {"command":"configurationDone","request_seq":2,"seq":3,"success":true,"type":"response"}
phase Configured
asked 0
"#,
    r#"
# It asks at once. Its other arguments are not looked at.
row a launch behind the configuration
after is configured
> {"seq":3,"type":"request","command":"launch","arguments":{"program":"x","console":"terminal","args":[1,2]}}
kept 1
turn
< terminal seq 4
kept 1
asked 1
phase Asked
idle
> {"seq":4,"type":"response","request_seq":4,"success":true,"command":"runInTerminal"}
< {"command":"launch","request_seq":3,"seq":5,"success":true,"type":"response"}
kept 0
asked 0
phase Running
poll
< {"body":{"category":"stdout","output":"go\n"},"event":"output","seq":6,"type":"event"}
poll
< {"body":{"allThreadsStopped":true,"reason":"entry","threadId":1},"event":"stopped","seq":7,"type":"event"}
phase Stopped
"#,
    r#"
# It is the same text.
row an escape in the console
after is configured
> {"seq":3,"type":"request","command":"launch","arguments":{"console":"termin\u0061l"}}
turn
< terminal seq 4
kept 1
asked 1
phase Asked
"#,
    r#"
# It asks for no terminal.
row attach behind the configuration
after is configured
> {"seq":3,"type":"request","command":"attach","arguments":{"console":"terminal"}}
turn
< {"command":"attach","request_seq":3,"seq":4,"success":true,"type":"response"}
kept 0
asked 0
phase Running
"#,
    r#"
row attach before the configuration
after runs terminals
> {"seq":2,"type":"request","command":"attach","arguments":{"console":"terminal"}}
turn
phase Parked
> {"seq":3,"type":"request","command":"configurationDone"}
turn
< {"command":"configurationDone","request_seq":3,"seq":3,"success":true,"type":"response"}
< {"command":"attach","request_seq":2,"seq":4,"success":true,"type":"response"}
kept 0
asked 0
phase Running
"#,
    r#"
# Then the debuggee starts at once.
row no arguments
after is configured
> {"seq":3,"type":"request","command":"launch"}
turn
< {"command":"launch","request_seq":3,"seq":4,"success":true,"type":"response"}
kept 0
asked 0
phase Running
"#,
    r#"
row no console
after is configured
> {"seq":3,"type":"request","command":"launch","arguments":{}}
turn
< {"command":"launch","request_seq":3,"seq":4,"success":true,"type":"response"}
kept 0
asked 0
phase Running
"#,
    r#"
row another console
after is configured
> {"seq":3,"type":"request","command":"launch","arguments":{"console":"integratedTerminal"}}
turn
< {"command":"launch","request_seq":3,"seq":4,"success":true,"type":"response"}
kept 0
asked 0
phase Running
"#,
    r#"
row a console in capitals
after is configured
> {"seq":3,"type":"request","command":"launch","arguments":{"console":"Terminal"}}
turn
< {"command":"launch","request_seq":3,"seq":4,"success":true,"type":"response"}
kept 0
asked 0
phase Running
"#,
    r#"
row a longer console
after is configured
> {"seq":3,"type":"request","command":"launch","arguments":{"console":"terminals"}}
turn
< {"command":"launch","request_seq":3,"seq":4,"success":true,"type":"response"}
kept 0
asked 0
phase Running
"#,
    r#"
row a number as the console
after is configured
> {"seq":3,"type":"request","command":"launch","arguments":{"console":1}}
turn
< {"command":"launch","request_seq":3,"seq":4,"success":true,"type":"response"}
kept 0
asked 0
phase Running
"#,
    r#"
row a list as the console
after is configured
> {"seq":3,"type":"request","command":"launch","arguments":{"console":["terminal"]}}
turn
< {"command":"launch","request_seq":3,"seq":4,"success":true,"type":"response"}
kept 0
asked 0
phase Running
"#,
    r#"
row a console deeper
after is configured
> {"seq":3,"type":"request","command":"launch","arguments":{"console":{"console":"terminal"},"consoles":"terminal"}}
turn
< {"command":"launch","request_seq":3,"seq":4,"success":true,"type":"response"}
kept 0
asked 0
phase Running
"#,
    r#"
row null as the console
after is configured
> {"seq":3,"type":"request","command":"launch","arguments":{"console":null}}
turn
< {"command":"launch","request_seq":3,"seq":4,"success":true,"type":"response"}
kept 0
asked 0
phase Running
"#,
    r#"
row another console before the configuration
after runs terminals
> {"seq":2,"type":"request","command":"launch","arguments":{"console":"external"}}
turn
phase Parked
> {"seq":3,"type":"request","command":"configurationDone"}
turn
< {"command":"configurationDone","request_seq":3,"seq":3,"success":true,"type":"response"}
< {"command":"launch","request_seq":2,"seq":4,"success":true,"type":"response"}
kept 0
asked 0
phase Running
"#,
    r#"
row arguments that are no object
after is configured
> {"seq":3,"type":"request","command":"launch","arguments":["terminal"]}
turn
< badArguments arguments seq 4 to 3 launch
> {"seq":4,"type":"request","command":"launch","arguments":"terminal"}
turn
< badArguments arguments seq 5 to 4 launch
kept 0
asked 0
phase Configured
"#,
    r#"
# Then no terminal is asked for.
row a client that runs none
> {"seq":1,"type":"request","command":"initialize","arguments":{"adapterID":"rec"}}
turn
< capabilities seq 1 to 1
< {"event":"initialized","seq":2,"type":"event"}
> {"seq":2,"type":"request","command":"launch","arguments":{"console":"terminal"}}
turn
phase Parked
> {"seq":3,"type":"request","command":"configurationDone"}
turn
< {"command":"configurationDone","request_seq":3,"seq":3,"success":true,"type":"response"}
< {"command":"launch","request_seq":2,"seq":4,"success":true,"type":"response"}
kept 0
asked 0
phase Running
"#,
    r#"
row a client that says so
> {"seq":1,"type":"request","command":"initialize","arguments":{"adapterID":"rec","supportsRunInTerminalRequest":false}}
turn
< capabilities seq 1 to 1
< {"event":"initialized","seq":2,"type":"event"}
> {"seq":2,"type":"request","command":"launch","arguments":{"console":"terminal"}}
turn
phase Parked
> {"seq":3,"type":"request","command":"configurationDone"}
turn
< {"command":"configurationDone","request_seq":3,"seq":3,"success":true,"type":"response"}
< {"command":"launch","request_seq":2,"seq":4,"success":true,"type":"response"}
kept 0
asked 0
phase Running
"#,
    r#"
row a client that says null
> {"seq":1,"type":"request","command":"initialize","arguments":{"adapterID":"rec","supportsRunInTerminalRequest":null}}
turn
< capabilities seq 1 to 1
< {"event":"initialized","seq":2,"type":"event"}
> {"seq":2,"type":"request","command":"launch","arguments":{"console":"terminal"}}
turn
phase Parked
> {"seq":3,"type":"request","command":"configurationDone"}
turn
< {"command":"configurationDone","request_seq":3,"seq":3,"success":true,"type":"response"}
< {"command":"launch","request_seq":2,"seq":4,"success":true,"type":"response"}
kept 0
asked 0
phase Running
"#,
    r#"
row a client that runs none, once configured
> {"seq":1,"type":"request","command":"initialize","arguments":{"adapterID":"rec"}}
turn
< capabilities seq 1 to 1
< {"event":"initialized","seq":2,"type":"event"}
> {"seq":2,"type":"request","command":"configurationDone"}
turn
< {"command":"configurationDone","request_seq":2,"seq":3,"success":true,"type":"response"}
> {"seq":3,"type":"request","command":"launch","arguments":{"console":"terminal"}}
turn
< {"command":"launch","request_seq":3,"seq":4,"success":true,"type":"response"}
kept 0
asked 0
phase Running
"#,
    r#"
# The one that was answered with success counts.
row an announcement that is refused
> {"seq":1,"type":"request","command":"initialize","arguments":{"supportsRunInTerminalRequest":true,"linesStartAt1":1}}
turn
< badArguments linesStartAt1 seq 1 to 1 initialize
phase Fresh
> {"seq":2,"type":"request","command":"initialize","arguments":{"adapterID":"rec"}}
turn
< capabilities seq 2 to 2
< {"event":"initialized","seq":3,"type":"event"}
phase Ready
> {"seq":3,"type":"request","command":"configurationDone"}
turn
< {"command":"configurationDone","request_seq":3,"seq":4,"success":true,"type":"response"}
phase Configured
> {"seq":4,"type":"request","command":"launch","arguments":{"console":"terminal"}}
turn
< {"command":"launch","request_seq":4,"seq":5,"success":true,"type":"response"}
asked 0
phase Running
"#,
    r#"
row an announcement behind a refusal
> {"seq":1,"type":"request","command":"initialize","arguments":{"supportsRunInTerminalRequest":1}}
turn
< badArguments supportsRunInTerminalRequest seq 1 to 1 initialize
phase Fresh
> {"seq":2,"type":"request","command":"initialize","arguments":{"supportsRunInTerminalRequest":true}}
turn
< capabilities seq 2 to 2
< {"event":"initialized","seq":3,"type":"event"}
phase Ready
> {"seq":3,"type":"request","command":"configurationDone"}
turn
< {"command":"configurationDone","request_seq":3,"seq":4,"success":true,"type":"response"}
phase Configured
> {"seq":4,"type":"request","command":"launch","arguments":{"console":"terminal"}}
turn
< terminal seq 5
kept 1
asked 1
phase Asked
"#,
    r#"
row a second announcement
> {"seq":1,"type":"request","command":"initialize","arguments":{"adapterID":"rec"}}
turn
< capabilities seq 1 to 1
< {"event":"initialized","seq":2,"type":"event"}
> {"seq":2,"type":"request","command":"initialize","arguments":{"supportsRunInTerminalRequest":true}}
turn
< alreadyInitialized seq 3 to 2 initialize
phase Ready
> {"seq":3,"type":"request","command":"configurationDone"}
turn
< {"command":"configurationDone","request_seq":3,"seq":4,"success":true,"type":"response"}
phase Configured
> {"seq":4,"type":"request","command":"launch","arguments":{"console":"terminal"}}
turn
< {"command":"launch","request_seq":4,"seq":5,"success":true,"type":"response"}
asked 0
phase Running
"#,
];

/// The rows. A proof looks at their texts here alone.
fn rows() -> &'static [&'static str] {
    &TERMINALS
}

#[test]
fn terminals(rt: HostRuntime) -> Result<(), Fail> {
    play_rows::<Playing<Recorded>>(&rt, rows(), usize::MAX)?;
    play_rows::<Playing<Recorded>>(&rt, rows(), 7)
}
