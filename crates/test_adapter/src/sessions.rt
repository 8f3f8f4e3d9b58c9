//! Sessions, call by call, with the messages that they hand out. What the lines of a row say stands in `playing.rt`.

use crate::playing::Playing;
use dap_replay::Recorded;
use std::test::Fail;
use test_kit::rows::play_rows;

pub(crate) static ROWS: [&str; 44] = [
    r#"
row initializes
> {"seq":1,"type":"request","command":"initialize","arguments":{"adapterID":"rec"}}
turn
< capabilities seq 1 to 1
< {"event":"initialized","seq":2,"type":"event"}
"#,
    r#"
row a launch is parked
> {"seq":1,"type":"request","command":"initialize","arguments":{"adapterID":"rec"}}
turn
< capabilities seq 1 to 1
< {"event":"initialized","seq":2,"type":"event"}
> {"seq":2,"type":"request","command":"launch"}
turn
phase Parked
"#,
    r#"
row stops at its entry
> {"seq":1,"type":"request","command":"initialize","arguments":{"adapterID":"rec"}}
turn
< capabilities seq 1 to 1
< {"event":"initialized","seq":2,"type":"event"}
> {"seq":2,"type":"request","command":"launch"}
turn
> {"seq":3,"type":"request","command":"configurationDone"}
turn
< {"command":"configurationDone","request_seq":3,"seq":3,"success":true,"type":"response"}
< {"command":"launch","request_seq":2,"seq":4,"success":true,"type":"response"}
poll
< {"body":{"category":"stdout","output":"go\n"},"event":"output","seq":5,"type":"event"}
poll
< {"body":{"allThreadsStopped":true,"reason":"entry","threadId":1},"event":"stopped","seq":6,"type":"event"}
phase Stopped
references 0
"#,
    r#"
row a request before initialize
> {"seq":1,"type":"request","command":"threads"}
turn
< notInitialized seq 1 to 1 threads
phase Fresh
"#,
    r#"
# Two requests are kept at most: a third is `busy` at once, and a parked one keeps its place.
row busy where two are kept
limits 8192 4194304 2 65536 4096 9007199254740991 2147483647
after a launch is parked
> {"seq":3,"type":"request","command":"threads"}
kept 2
> {"seq":4,"type":"request","command":"loadedSources"}
< busy seq 3 to 4 loadedSources
kept 2
turn
< {"body":{"threads":[]},"command":"threads","request_seq":3,"seq":4,"success":true,"type":"response"}
kept 1
> {"seq":5,"type":"request","command":"configurationDone"}
kept 2
turn
< {"command":"configurationDone","request_seq":5,"seq":5,"success":true,"type":"response"}
< {"command":"launch","request_seq":2,"seq":6,"success":true,"type":"response"}
kept 0
phase Running
"#,
    r#"
# `cancel` answers the request that it names, and then itself.
row a request is cancelled
after initializes
> {"seq":2,"type":"request","command":"threads"}
kept 1
> {"seq":3,"type":"request","command":"cancel","arguments":{"requestId":2}}
< cancelled seq 3 to 2 threads
< {"command":"cancel","request_seq":3,"seq":4,"success":true,"type":"response"}
kept 0
idle
kept 0
phase Ready
"#,
    r#"
# A parked launch is not cancelled, nor what is not kept; a bad number is refused; nothing is cancelled before `initialize`.
row nothing is cancelled
> {"seq":9,"type":"request","command":"cancel","arguments":{"requestId":"x"}}
< notInitialized seq 1 to 9 cancel
kept 0
> {"seq":1,"type":"request","command":"initialize","arguments":{"adapterID":"rec"}}
kept 1
turn
< capabilities seq 2 to 1
< {"event":"initialized","seq":3,"type":"event"}
kept 0
> {"seq":2,"type":"request","command":"launch"}
kept 1
turn
kept 1
> {"seq":3,"type":"request","command":"cancel","arguments":{"requestId":2}}
< {"command":"cancel","request_seq":3,"seq":4,"success":true,"type":"response"}
kept 1
> {"seq":4,"type":"request","command":"cancel","arguments":{"requestId":77}}
< {"command":"cancel","request_seq":4,"seq":5,"success":true,"type":"response"}
kept 1
> {"seq":5,"type":"request","command":"cancel"}
< {"command":"cancel","request_seq":5,"seq":6,"success":true,"type":"response"}
kept 1
> {"seq":6,"type":"request","command":"cancel","arguments":{"requestId":"x"}}
< badArguments requestId seq 7 to 6 cancel
kept 1
idle
kept 1
phase Parked
"#,
    r#"
# `disconnect` answers every other request, the parked one too, and then itself. A further request closes the adapter.
row disconnect answers all
after a launch is parked
> {"seq":3,"type":"request","command":"disconnect"}
kept 2
> {"seq":4,"type":"request","command":"threads"}
kept 3
> {"seq":5,"type":"request","command":"loadedSources"}
kept 4
turn
< cancelled seq 3 to 2 launch
< cancelled seq 4 to 4 threads
< cancelled seq 5 to 5 loadedSources
< {"command":"disconnect","request_seq":3,"seq":6,"success":true,"type":"response"}
kept 0
phase Ended
idle
> {"seq":6,"type":"request","command":"threads"}
! Ended
"#,
    r#"
# A message that is no request has no effect.
row messages after the end
after initializes
> {"seq":2,"type":"request","command":"disconnect"}
turn
< {"command":"disconnect","request_seq":2,"seq":3,"success":true,"type":"response"}
phase Ended
> {"seq":3,"type":"event","event":"x"}
kept 0
> {"seq":4,"type":"x"}
kept 0
"#,
    r#"
# Each refusal of a session that is only initialized.
row refused requests
after initializes
> {"seq":2,"type":"request","command":"initialize","arguments":{"adapterID":"rec"}}
turn
< alreadyInitialized seq 3 to 2 initialize
> {"seq":3,"type":"request","command":"foo"}
turn
< unknownCommand seq 4 to 3 foo
> {"seq":4,"type":"request","command":"restart"}
turn
< unsupported seq 5 to 4 restart
> {"seq":5,"type":"request","command":"next","arguments":{}}
turn
< badArguments threadId seq 6 to 5 next
> {"seq":6,"type":"request","command":"next","arguments":{"threadId":1}}
turn
< wrongPhase seq 7 to 6 next
phase Ready
"#,
    r#"
# A run to a moment that waits is held until `pause`; meanwhile no frames are told.
row runs and pauses
after stops at its entry
> {"seq":4,"type":"request","command":"continue","arguments":{"threadId":1}}
turn
< {"body":{"allThreadsContinued":true},"command":"continue","request_seq":4,"seq":7,"success":true,"type":"response"}
poll
> {"seq":5,"type":"request","command":"stackTrace","arguments":{"threadId":1}}
turn
< notStopped seq 8 to 5 stackTrace
> {"seq":6,"type":"request","command":"pause","arguments":{"threadId":1}}
turn
< {"command":"pause","request_seq":6,"seq":9,"success":true,"type":"response"}
poll
< {"body":{"allThreadsStopped":true,"reason":"pause","threadId":1},"event":"stopped","seq":10,"type":"event"}
> {"seq":7,"type":"request","command":"continue","arguments":{"threadId":1}}
turn
< {"body":{"allThreadsContinued":true},"command":"continue","request_seq":7,"seq":11,"success":true,"type":"response"}
poll
< {"body":{"exitCode":0},"event":"exited","seq":12,"type":"event"}
< {"event":"terminated","seq":13,"type":"event"}
poll
phase Exited
"#,
    r#"
# `terminate` ends the debuggee, which then has no threads.
row terminates
after stops at its entry
> {"seq":4,"type":"request","command":"terminate"}
turn
< {"command":"terminate","request_seq":4,"seq":7,"success":true,"type":"response"}
< {"event":"terminated","seq":8,"type":"event"}
> {"seq":5,"type":"request","command":"threads"}
turn
< {"body":{"threads":[]},"command":"threads","request_seq":5,"seq":9,"success":true,"type":"response"}
phase Exited
"#,
    r#"
# The six resuming commands, each of a thread that exists; `pause` of a stopped debuggee changes nothing.
row each step
after stops at its entry
> {"seq":4,"type":"request","command":"next","arguments":{"threadId":2}}
turn
< unknownThread seq 7 to 4 next
> {"seq":5,"type":"request","command":"pause","arguments":{"threadId":9}}
turn
< {"command":"pause","request_seq":5,"seq":8,"success":true,"type":"response"}
> {"seq":6,"type":"request","command":"stepIn","arguments":{"threadId":1}}
turn
< {"command":"stepIn","request_seq":6,"seq":9,"success":true,"type":"response"}
poll
< {"body":{"allThreadsStopped":true,"reason":"step","threadId":1},"event":"stopped","seq":10,"type":"event"}
> {"seq":7,"type":"request","command":"stepOut","arguments":{"threadId":1}}
turn
< {"command":"stepOut","request_seq":7,"seq":11,"success":true,"type":"response"}
poll
< {"body":{"allThreadsStopped":true,"reason":"step","threadId":1},"event":"stopped","seq":12,"type":"event"}
> {"seq":8,"type":"request","command":"stepBack","arguments":{"threadId":1}}
turn
< {"command":"stepBack","request_seq":8,"seq":13,"success":true,"type":"response"}
poll
< {"body":{"allThreadsStopped":true,"reason":"step","threadId":1},"event":"stopped","seq":14,"type":"event"}
> {"seq":9,"type":"request","command":"reverseContinue","arguments":{"threadId":1}}
turn
< {"command":"reverseContinue","request_seq":9,"seq":15,"success":true,"type":"response"}
poll
< {"body":{"allThreadsStopped":true,"reason":"entry","threadId":1},"event":"stopped","seq":16,"type":"event"}
> {"seq":10,"type":"request","command":"next","arguments":{"threadId":1}}
turn
< {"command":"next","request_seq":10,"seq":17,"success":true,"type":"response"}
poll
< {"body":{"allThreadsStopped":true,"reason":"step","threadId":1},"event":"stopped","seq":18,"type":"event"}
> {"seq":11,"type":"request","command":"threads"}
turn
< {"body":{"threads":[{"id":1,"name":"main"}]},"command":"threads","request_seq":11,"seq":19,"success":true,"type":"response"}
phase Stopped
"#,
    r#"
row a parked launch outlives its cancel
after a launch is parked
> {"seq":3,"type":"request","command":"cancel","arguments":{"requestId":2}}
< {"command":"cancel","request_seq":3,"seq":3,"success":true,"type":"response"}
> {"seq":4,"type":"request","command":"configurationDone"}
turn
< {"command":"configurationDone","request_seq":4,"seq":4,"success":true,"type":"response"}
< {"command":"launch","request_seq":2,"seq":5,"success":true,"type":"response"}
poll
< {"body":{"category":"stdout","output":"go\n"},"event":"output","seq":6,"type":"event"}
poll
< {"body":{"allThreadsStopped":true,"reason":"entry","threadId":1},"event":"stopped","seq":7,"type":"event"}
phase Stopped
"#,
    r#"
# A number names one object until the debuggee goes on; later ones come behind it.
row looks into a stop
after stops at its entry
> {"seq":4,"type":"request","command":"stackTrace","arguments":{"threadId":1}}
turn
< {"body":{"stackFrames":[{"column":1,"id":1,"line":1,"name":"main","source":{"name":"a.c","path":"/a.c","sourceReference":1}}],"totalFrames":1},"command":"stackTrace","request_seq":4,"seq":7,"success":true,"type":"response"}
> {"seq":5,"type":"request","command":"scopes","arguments":{"frameId":1}}
turn
< {"body":{"scopes":[{"expensive":false,"name":"Locals","variablesReference":2}]},"command":"scopes","request_seq":5,"seq":8,"success":true,"type":"response"}
> {"seq":6,"type":"request","command":"scopes","arguments":{"frameId":1}}
turn
< {"body":{"scopes":[{"expensive":false,"name":"Locals","variablesReference":2}]},"command":"scopes","request_seq":6,"seq":9,"success":true,"type":"response"}
> {"seq":7,"type":"request","command":"variables","arguments":{"variablesReference":2}}
turn
< {"body":{"variables":[{"name":"x","value":"1","variablesReference":0},{"name":"p","value":"P","variablesReference":3}]},"command":"variables","request_seq":7,"seq":10,"success":true,"type":"response"}
> {"seq":8,"type":"request","command":"variables","arguments":{"variablesReference":3}}
turn
< {"body":{"variables":[{"name":"a","value":"7","variablesReference":0}]},"command":"variables","request_seq":8,"seq":11,"success":true,"type":"response"}
> {"seq":9,"type":"request","command":"evaluate","arguments":{"expression":"p","frameId":1}}
turn
< {"body":{"result":"P","variablesReference":3},"command":"evaluate","request_seq":9,"seq":12,"success":true,"type":"response"}
> {"seq":10,"type":"request","command":"evaluate","arguments":{"expression":"q","frameId":1}}
turn
< debuggee seq 13 to 10 evaluate
> {"seq":11,"type":"request","command":"next","arguments":{"threadId":2}}
turn
< unknownThread seq 14 to 11 next
> {"seq":12,"type":"request","command":"next","arguments":{"threadId":1}}
turn
< {"command":"next","request_seq":12,"seq":15,"success":true,"type":"response"}
poll
< {"body":{"allThreadsStopped":true,"reason":"step","threadId":1},"event":"stopped","seq":16,"type":"event"}
> {"seq":13,"type":"request","command":"variables","arguments":{"variablesReference":2}}
turn
< staleReference seq 17 to 13 variables
> {"seq":14,"type":"request","command":"stackTrace","arguments":{"threadId":1}}
turn
< {"body":{"stackFrames":[{"column":1,"id":4,"line":2,"name":"main","source":{"name":"a.c","path":"/a.c","sourceReference":1}}],"totalFrames":1},"command":"stackTrace","request_seq":14,"seq":18,"success":true,"type":"response"}
> {"seq":15,"type":"request","command":"scopes","arguments":{"frameId":4}}
turn
< {"body":{"scopes":[]},"command":"scopes","request_seq":15,"seq":19,"success":true,"type":"response"}
references 1
"#,
    r#"
# The two that there were stay live.
row a third reference is refused
limits 8192 4194304 64 2 4096 9007199254740991 2147483647
after stops at its entry
> {"seq":4,"type":"request","command":"stackTrace","arguments":{"threadId":1}}
turn
< {"body":{"stackFrames":[{"column":1,"id":1,"line":1,"name":"main","source":{"name":"a.c","path":"/a.c","sourceReference":1}}],"totalFrames":1},"command":"stackTrace","request_seq":4,"seq":7,"success":true,"type":"response"}
> {"seq":5,"type":"request","command":"scopes","arguments":{"frameId":1}}
turn
< {"body":{"scopes":[{"expensive":false,"name":"Locals","variablesReference":2}]},"command":"scopes","request_seq":5,"seq":8,"success":true,"type":"response"}
> {"seq":6,"type":"request","command":"variables","arguments":{"variablesReference":2}}
turn
< tooManyReferences seq 9 to 6 variables
> {"seq":7,"type":"request","command":"scopes","arguments":{"frameId":1}}
turn
< {"body":{"scopes":[{"expensive":false,"name":"Locals","variablesReference":2}]},"command":"scopes","request_seq":7,"seq":10,"success":true,"type":"response"}
references 2
"#,
    r#"
# Numbers that died never come again.
row no number is left
limits 8192 4194304 64 65536 4096 9007199254740991 2
after stops at its entry
> {"seq":4,"type":"request","command":"stackTrace","arguments":{"threadId":1}}
turn
< {"body":{"stackFrames":[{"column":1,"id":1,"line":1,"name":"main","source":{"name":"a.c","path":"/a.c","sourceReference":1}}],"totalFrames":1},"command":"stackTrace","request_seq":4,"seq":7,"success":true,"type":"response"}
> {"seq":5,"type":"request","command":"scopes","arguments":{"frameId":1}}
turn
< {"body":{"scopes":[{"expensive":false,"name":"Locals","variablesReference":2}]},"command":"scopes","request_seq":5,"seq":8,"success":true,"type":"response"}
> {"seq":6,"type":"request","command":"next","arguments":{"threadId":1}}
turn
< {"command":"next","request_seq":6,"seq":9,"success":true,"type":"response"}
poll
< {"body":{"allThreadsStopped":true,"reason":"step","threadId":1},"event":"stopped","seq":10,"type":"event"}
> {"seq":7,"type":"request","command":"stackTrace","arguments":{"threadId":1}}
turn
< referencesExhausted seq 11 to 7 stackTrace
references 0
"#,
    r#"
# Of two frames none gets a number where there is room for one alone.
row refused frames take no number
limits 8192 4194304 64 1 4096 9007199254740991 2147483647
after stops at its entry
> {"seq":4,"type":"request","command":"stepIn","arguments":{"threadId":1}}
turn
< {"command":"stepIn","request_seq":4,"seq":7,"success":true,"type":"response"}
poll
< {"body":{"allThreadsStopped":true,"reason":"step","threadId":1},"event":"stopped","seq":8,"type":"event"}
> {"seq":5,"type":"request","command":"stackTrace","arguments":{"threadId":1}}
turn
< tooManyReferences seq 9 to 5 stackTrace
references 0
> {"seq":6,"type":"request","command":"stackTrace","arguments":{"threadId":1,"startFrame":1}}
turn
< {"body":{"stackFrames":[{"column":1,"id":1,"line":1,"name":"main","source":{"name":"a.c","path":"/a.c","sourceReference":1}}],"totalFrames":2},"command":"stackTrace","request_seq":6,"seq":10,"success":true,"type":"response"}
references 1
> {"seq":7,"type":"request","command":"loadedSources"}
turn
< {"body":{"sources":[{"name":"a.c","path":"/a.c","sourceReference":1}]},"command":"loadedSources","request_seq":7,"seq":11,"success":true,"type":"response"}
> {"seq":8,"type":"request","command":"source","arguments":{"sourceReference":1}}
turn
< {"body":{"content":"one\ntwo\nthree\n"},"command":"source","request_seq":8,"seq":12,"success":true,"type":"response"}
> {"seq":9,"type":"request","command":"source","arguments":{"sourceReference":2}}
turn
< unknownSource seq 13 to 9 source
"#,
    r#"
# A file that the client reads by its path has no number; what has no path keeps its own. Each can be asked for still.
row sources on disk
recording {"exit":0,"sources":[{"name":"a.c","path":"/a.c","text":"one","onDisk":true},{"name":"b.c","text":"two","onDisk":true},{"name":"c.c","path":"/c.c","text":"three","onDisk":false}],"moments":[{"thread":1,"threads":[{"id":1,"name":"main","frames":[{"name":"f","source":0,"line":1},{"name":"g","source":1,"line":1},{"name":"h","source":2,"line":1}]}]}]}
> {"seq":1,"type":"request","command":"initialize","arguments":{"adapterID":"rec"}}
turn
< capabilities seq 1 to 1
< {"event":"initialized","seq":2,"type":"event"}
> {"seq":2,"type":"request","command":"configurationDone"}
turn
< {"command":"configurationDone","request_seq":2,"seq":3,"success":true,"type":"response"}
> {"seq":3,"type":"request","command":"launch"}
turn
< {"command":"launch","request_seq":3,"seq":4,"success":true,"type":"response"}
poll
< {"body":{"allThreadsStopped":true,"reason":"entry","threadId":1},"event":"stopped","seq":5,"type":"event"}
> {"seq":4,"type":"request","command":"stackTrace","arguments":{"threadId":1}}
turn
< {"body":{"stackFrames":[{"column":1,"id":1,"line":1,"name":"f","source":{"name":"a.c","path":"/a.c"}},{"column":1,"id":2,"line":1,"name":"g","source":{"name":"b.c","sourceReference":2}},{"column":1,"id":3,"line":1,"name":"h","source":{"name":"c.c","path":"/c.c","sourceReference":3}}],"totalFrames":3},"command":"stackTrace","request_seq":4,"seq":6,"success":true,"type":"response"}
> {"seq":5,"type":"request","command":"loadedSources"}
turn
< {"body":{"sources":[{"name":"a.c","path":"/a.c"},{"name":"b.c","sourceReference":2},{"name":"c.c","path":"/c.c","sourceReference":3}]},"command":"loadedSources","request_seq":5,"seq":7,"success":true,"type":"response"}
> {"seq":6,"type":"request","command":"source","arguments":{"sourceReference":1}}
turn
< {"body":{"content":"one"},"command":"source","request_seq":6,"seq":8,"success":true,"type":"response"}
> {"seq":7,"type":"request","command":"setBreakpoints","arguments":{"source":{"path":"/a.c"},"breakpoints":[{"line":1}]}}
turn
< {"body":{"breakpoints":[{"id":1,"line":1,"verified":true}]},"command":"setBreakpoints","request_seq":7,"seq":9,"success":true,"type":"response"}
references 3
breakpoints 1
"#,
    r#"
# Lines replace those of the same source, ids never come again, and an answer that is too large changes nothing.
row breakpoints are replaced
limits 8192 1024 64 65536 4096 9007199254740991 2147483647
after initializes
> {"seq":2,"type":"request","command":"setBreakpoints","arguments":{"source":{"path":"/a.c"},"breakpoints":[{"line":1},{"line":3},{"line":9}]}}
turn
< {"body":{"breakpoints":[{"id":1,"line":1,"verified":true},{"id":2,"line":3,"verified":true},{"id":3,"line":9,"verified":false}]},"command":"setBreakpoints","request_seq":2,"seq":3,"success":true,"type":"response"}
breakpoints 3
> {"seq":3,"type":"request","command":"setBreakpoints","arguments":{"source":{"path":"/a.c"},"breakpoints":[]}}
turn
< {"body":{"breakpoints":[]},"command":"setBreakpoints","request_seq":3,"seq":4,"success":true,"type":"response"}
breakpoints 0
> {"seq":4,"type":"request","command":"setBreakpoints","arguments":{"source":{"path":"/a.c"},"lines":[2]}}
turn
< {"body":{"breakpoints":[{"id":4,"line":2,"verified":true}]},"command":"setBreakpoints","request_seq":4,"seq":5,"success":true,"type":"response"}
breakpoints 1
> {"seq":5,"type":"request","command":"setBreakpoints","arguments":{"source":{"path":"/a.c"},"lines":[1,1,1,1,1,1,1,1,1,1,1,1,1,1,1,1,1,1,1,1,1,1,1,1,1,1,1,1,1,1,1,1,1,1,1,1,1,1,1,1,1,1,1,1,1,1,1,1,1,1,1,1,1,1,1,1,1,1,1,1,1,1,1,1,1,1,1,1,1,1,1,1,1,1,1,1,1,1,1,1,1,1,1,1,1,1,1,1,1,1,1,1,1,1,1,1,1,1,1,1]}}
turn
< tooLarge seq 6 to 5 setBreakpoints
> {"seq":6,"type":"request","command":"setBreakpoints","arguments":{"source":{"path":"/a.c"},"lines":[3]}}
turn
< {"body":{"breakpoints":[{"id":5,"line":3,"verified":true}]},"command":"setBreakpoints","request_seq":6,"seq":7,"success":true,"type":"response"}
breakpoints 1
"#,
    r#"
# More breakpoints than there is room for are refused whole.
row a third breakpoint is refused
limits 8192 4194304 64 65536 2 9007199254740991 2147483647
after initializes
> {"seq":2,"type":"request","command":"setBreakpoints","arguments":{"source":{"path":"/a.c"},"breakpoints":[{"line":1},{"line":3},{"line":9}]}}
turn
< tooManyBreakpoints seq 3 to 2 setBreakpoints
breakpoints 0
"#,
    r#"
# A client that counts lines from 0 gets them as it asked for them.
row lines begin at 0
> {"seq":1,"type":"request","command":"initialize","arguments":{"linesStartAt1":false}}
turn
< capabilities seq 1 to 1
< {"event":"initialized","seq":2,"type":"event"}
> {"seq":2,"type":"request","command":"setBreakpoints","arguments":{"source":{"path":"/a.c"},"lines":[0]}}
turn
< {"body":{"breakpoints":[{"id":1,"line":0,"verified":true}]},"command":"setBreakpoints","request_seq":2,"seq":3,"success":true,"type":"response"}
breakpoints 1
"#,
    r#"
row a number that is kept already
> {"seq":1,"type":"request","command":"initialize","arguments":{"adapterID":"rec"}}
> {"seq":1,"type":"request","command":"initialize","arguments":{"adapterID":"rec"}}
! RepeatedSeq { seq: 1 }
kept 1
"#,
    r#"
row a response that nothing waits for
after initializes
> {"seq":2,"type":"response","request_seq":9,"success":true,"command":"threads"}
! Unmatched { request_seq: 9 }
kept 0
"#,
    r#"
row a request after the end
> {"seq":2,"type":"request","command":"disconnect"}
turn
< {"command":"disconnect","request_seq":2,"seq":1,"success":true,"type":"response"}
> {"seq":3,"type":"request","command":"threads"}
! Ended
kept 0
"#,
    r#"
row a body without bytes
> {"seq":1,"type":"request","command":"initialize","arguments":{"adapterID":"rec"}}
>
! Body { cause: NotJson, offset: 103 }
kept 1
"#,
    r#"
row a number below 0
> {"seq":1,"type":"request","command":"initialize","arguments":{"adapterID":"rec"}}
> {"seq":-1}
! Body { cause: BadSeq, offset: 103 }
kept 1
"#,
    r#"
row no body at all
>
! Body { cause: NotJson, offset: 0 }
kept 0
"#,
    r#"
# The request is still kept, and nothing more is answered.
row numbers run out
limits 8192 4194304 64 1 1 3 1
after initializes
> {"seq":2,"type":"request","command":"threads"}
turn
< {"body":{"threads":[]},"command":"threads","request_seq":2,"seq":3,"success":true,"type":"response"}
> {"seq":3,"type":"request","command":"loadedSources"}
turn
! SeqExhausted
kept 1
"#,
    r#"
# What is parked does not hold up what came behind it.
row a launch is parked with others kept
after initializes
> {"seq":2,"type":"request","command":"threads"}
> {"seq":3,"type":"request","command":"launch"}
> {"seq":4,"type":"request","command":"loadedSources"}
kept 3
turn
< {"body":{"threads":[]},"command":"threads","request_seq":2,"seq":3,"success":true,"type":"response"}
turn
kept 2
phase Parked
turn
< {"body":{"sources":[{"name":"a.c","path":"/a.c","sourceReference":1}]},"command":"loadedSources","request_seq":4,"seq":4,"success":true,"type":"response"}
kept 1
idle
"#,
    r#"
# It needs no room of its own.
row a cancel where all room is taken
limits 8192 4194304 2 65536 4096 9007199254740991 2147483647
after initializes
> {"seq":2,"type":"request","command":"threads"}
> {"seq":3,"type":"request","command":"loadedSources"}
kept 2
> {"seq":4,"type":"request","command":"cancel","arguments":{"requestId":3}}
< cancelled seq 3 to 3 loadedSources
< {"command":"cancel","request_seq":4,"seq":4,"success":true,"type":"response"}
kept 1
turn
< {"body":{"threads":[]},"command":"threads","request_seq":2,"seq":5,"success":true,"type":"response"}
kept 0
"#,
    r#"
# Arguments are tested before the phase.
row bad arguments after the exit
after stops at its entry
> {"seq":4,"type":"request","command":"terminate"}
turn
< {"command":"terminate","request_seq":4,"seq":7,"success":true,"type":"response"}
< {"event":"terminated","seq":8,"type":"event"}
phase Exited
> {"seq":5,"type":"request","command":"next","arguments":{}}
turn
< badArguments threadId seq 9 to 5 next
> {"seq":6,"type":"request","command":"next","arguments":{"threadId":1}}
turn
< wrongPhase seq 10 to 6 next
"#,
    r#"
# From 60 bytes to the greatest length, 64.
row long commands
after initializes
> {"seq":2,"type":"request","command":"cccccccccccccccccccccccccccccccccccccccccccccccccccccccccccc"}
turn
< unknownCommand seq 3 to 2 cccccccccccccccccccccccccccccccccccccccccccccccccccccccccccc
> {"seq":3,"type":"request","command":"ccccccccccccccccccccccccccccccccccccccccccccccccccccccccccccc"}
turn
< unknownCommand seq 4 to 3 ccccccccccccccccccccccccccccccccccccccccccccccccccccccccccccc
> {"seq":4,"type":"request","command":"cccccccccccccccccccccccccccccccccccccccccccccccccccccccccccccc"}
turn
< unknownCommand seq 5 to 4 cccccccccccccccccccccccccccccccccccccccccccccccccccccccccccccc
> {"seq":5,"type":"request","command":"ccccccccccccccccccccccccccccccccccccccccccccccccccccccccccccccc"}
turn
< unknownCommand seq 6 to 5 ccccccccccccccccccccccccccccccccccccccccccccccccccccccccccccccc
> {"seq":6,"type":"request","command":"cccccccccccccccccccccccccccccccccccccccccccccccccccccccccccccccc"}
turn
< unknownCommand seq 7 to 6 cccccccccccccccccccccccccccccccccccccccccccccccccccccccccccccccc
"#,
    r#"
# It needs two numbers, and one is left: the request that it names is still kept.
row no number is left for a cancel
limits 8192 4194304 64 65536 4096 3 2147483647
after initializes
> {"seq":2,"type":"request","command":"threads"}
> {"seq":3,"type":"request","command":"cancel","arguments":{"requestId":2}}
! SeqExhausted
kept 1
"#,
    r#"
row no number is left for a third request
limits 8192 4194304 2 65536 4096 2 2147483647
after initializes
> {"seq":2,"type":"request","command":"threads"}
> {"seq":3,"type":"request","command":"threads"}
> {"seq":4,"type":"request","command":"threads"}
! SeqExhausted
kept 2
"#,
    r#"
row no number is left for an output
limits 8192 4194304 64 65536 4096 4 2147483647
after a launch is parked
> {"seq":3,"type":"request","command":"configurationDone"}
turn
< {"command":"configurationDone","request_seq":3,"seq":3,"success":true,"type":"response"}
< {"command":"launch","request_seq":2,"seq":4,"success":true,"type":"response"}
poll
! SeqExhausted
phase Running
"#,
    r#"
row no number is left for a stop
limits 8192 4194304 64 65536 4096 5 2147483647
after a launch is parked
> {"seq":3,"type":"request","command":"configurationDone"}
turn
< {"command":"configurationDone","request_seq":3,"seq":3,"success":true,"type":"response"}
< {"command":"launch","request_seq":2,"seq":4,"success":true,"type":"response"}
poll
< {"body":{"category":"stdout","output":"go\n"},"event":"output","seq":5,"type":"event"}
poll
! SeqExhausted
phase Running
"#,
    r#"
# It needs two numbers, and one is left.
row no number is left for an exit
limits 8192 4194304 64 65536 4096 11 2147483647
after stops at its entry
> {"seq":4,"type":"request","command":"continue","arguments":{"threadId":1}}
turn
< {"body":{"allThreadsContinued":true},"command":"continue","request_seq":4,"seq":7,"success":true,"type":"response"}
> {"seq":5,"type":"request","command":"pause","arguments":{"threadId":1}}
turn
< {"command":"pause","request_seq":5,"seq":8,"success":true,"type":"response"}
poll
< {"body":{"allThreadsStopped":true,"reason":"pause","threadId":1},"event":"stopped","seq":9,"type":"event"}
> {"seq":6,"type":"request","command":"continue","arguments":{"threadId":1}}
turn
< {"body":{"allThreadsContinued":true},"command":"continue","request_seq":6,"seq":10,"success":true,"type":"response"}
poll
! SeqExhausted
phase Running
"#,
    r#"
row what takes no memory before initialize
free of memory
idle
poll
bytes 0 "Content-Length: 46\r\n\r\n{\"seq\":1,"
held 9
bytes 0 "\"type\":"
held 16
phase Fresh
"#,
    r#"
row what takes no memory after initialize
after initializes
free of memory
idle
poll
bytes 0 "Content-Length: 46\r"
held 19
phase Ready
"#,
    r#"
row what takes no memory beside a parked launch
after a launch is parked
free of memory
idle
poll
kept 1
"#,
    r#"
row what takes no memory in a stop
after stops at its entry
free of memory
idle
bytes 0 "A: b\r\n"
held 6
phase Stopped
"#,
    r#"
row what takes no memory after the exit
after stops at its entry
> {"seq":4,"type":"request","command":"terminate"}
turn
< {"command":"terminate","request_seq":4,"seq":7,"success":true,"type":"response"}
< {"event":"terminated","seq":8,"type":"event"}
free of memory
idle
poll
phase Exited
"#,
    r#"
row what takes no memory after the end
after stops at its entry
> {"seq":4,"type":"request","command":"disconnect"}
turn
< {"command":"disconnect","request_seq":4,"seq":7,"success":true,"type":"response"}
free of memory
idle
poll
bytes 0 "Content-Length: 46\r\n\r\n"
phase Ended
"#,
];

/// The rows. A proof looks at their texts here alone.
fn rows() -> &'static [&'static str] {
    &ROWS
}

/// The row in a place.
fn row_at(place: usize) -> &'static str {
    rows().get(place).copied().unwrap_or("")
}

#[test]
fn sessions(rt: HostRuntime) -> Result<(), Fail> {
    play_rows::<Playing<Recorded>>(&rt, rows(), usize::MAX)?;
    play_rows::<Playing<Recorded>>(&rt, rows(), 7)
}

/// A request before `initialize`, in pieces of each size.
#[test]
fn pieces_do_not_matter(rt: HostRuntime) -> Result<(), Fail> {
    for size in 1..69 {
        play_rows::<Playing<Recorded>>(&rt, &[row_at(3)], size)?;
    }
    Ok(())
}
