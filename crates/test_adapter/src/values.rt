//! Variables that are set, call by call. What the lines of a row say stands in `playing.rt`.

use crate::playing::Playing;
use dap_replay::Recorded;
use std::test::Fail;
use test_kit::rows::play_rows;

/// The first ones, those after which the others come, stand in `sessions.rt` too.
pub(crate) static VALUES: [&str; 10] = [
    r#"
row stops at its entry
> {"seq":1,"type":"request","command":"initialize","arguments":{"adapterID":"rec"}}
turn
< capabilities seq 1 to 1
< {"event":"initialized","seq":2,"type":"event"}
> {"seq":2,"type":"request","command":"launch"}
turn
> {"seq":3,"type":"request","command":"configurationDone"}
turn
< {"command":"configurationDone","request_seq":3,"seq":3,"success":true,"type":"response"}
< {"command":"launch","request_seq":2,"seq":4,"success":true,"type":"response"}
poll
< {"body":{"category":"stdout","output":"go\n"},"event":"output","seq":5,"type":"event"}
poll
< {"body":{"allThreadsStopped":true,"reason":"entry","threadId":1},"event":"stopped","seq":6,"type":"event"}
phase Stopped
references 0
"#,
    r#"
# The value lies on top of what was told until the debuggee goes on. No number is given, and none dies.
row a variable is set
after stops at its entry
> {"seq":4,"type":"request","command":"stackTrace","arguments":{"threadId":1}}
turn
< {"body":{"stackFrames":[{"column":1,"id":1,"line":1,"name":"main","source":{"name":"a.c","path":"/a.c","sourceReference":1}}],"totalFrames":1},"command":"stackTrace","request_seq":4,"seq":7,"success":true,"type":"response"}
> {"seq":5,"type":"request","command":"scopes","arguments":{"frameId":1}}
turn
< {"body":{"scopes":[{"expensive":false,"name":"Locals","variablesReference":2}]},"command":"scopes","request_seq":5,"seq":8,"success":true,"type":"response"}
> {"seq":6,"type":"request","command":"scopes","arguments":{"frameId":1}}
turn
< {"body":{"scopes":[{"expensive":false,"name":"Locals","variablesReference":2}]},"command":"scopes","request_seq":6,"seq":9,"success":true,"type":"response"}
> {"seq":7,"type":"request","command":"variables","arguments":{"variablesReference":2}}
turn
< {"body":{"variables":[{"name":"x","value":"1","variablesReference":0},{"name":"p","value":"P","variablesReference":3}]},"command":"variables","request_seq":7,"seq":10,"success":true,"type":"response"}
> {"seq":8,"type":"request","command":"variables","arguments":{"variablesReference":3}}
turn
< {"body":{"variables":[{"name":"a","value":"7","variablesReference":0}]},"command":"variables","request_seq":8,"seq":11,"success":true,"type":"response"}
references 3
> {"seq":9,"type":"request","command":"setVariable","arguments":{"variablesReference":2,"name":"x","value":"9"}}
turn
< {"body":{"value":"9"},"command":"setVariable","request_seq":9,"seq":12,"success":true,"type":"response"}
> {"seq":10,"type":"request","command":"setVariable","arguments":{"variablesReference":2,"name":"p","value":"Q"}}
turn
< {"body":{"value":"Q"},"command":"setVariable","request_seq":10,"seq":13,"success":true,"type":"response"}
> {"seq":11,"type":"request","command":"setVariable","arguments":{"variablesReference":2,"name":"y","value":"9"}}
turn
< debuggee seq 14 to 11 setVariable
references 3
> {"seq":12,"type":"request","command":"variables","arguments":{"variablesReference":2}}
turn
< {"body":{"variables":[{"name":"x","value":"9","variablesReference":0},{"name":"p","value":"Q","variablesReference":3}]},"command":"variables","request_seq":12,"seq":15,"success":true,"type":"response"}
> {"seq":13,"type":"request","command":"evaluate","arguments":{"expression":"x","frameId":1}}
turn
< {"body":{"result":"9","variablesReference":0},"command":"evaluate","request_seq":13,"seq":16,"success":true,"type":"response"}
> {"seq":14,"type":"request","command":"next","arguments":{"threadId":1}}
turn
< {"command":"next","request_seq":14,"seq":17,"success":true,"type":"response"}
references 0
poll
< {"body":{"allThreadsStopped":true,"reason":"step","threadId":1},"event":"stopped","seq":18,"type":"event"}
> {"seq":15,"type":"request","command":"stepBack","arguments":{"threadId":1}}
turn
< {"command":"stepBack","request_seq":15,"seq":19,"success":true,"type":"response"}
poll
< {"body":{"allThreadsStopped":true,"reason":"step","threadId":1},"event":"stopped","seq":20,"type":"event"}
> {"seq":16,"type":"request","command":"stepBack","arguments":{"threadId":1}}
turn
< {"command":"stepBack","request_seq":16,"seq":21,"success":true,"type":"response"}
poll
< {"body":{"allThreadsStopped":true,"reason":"step","threadId":1},"event":"stopped","seq":22,"type":"event"}
> {"seq":17,"type":"request","command":"stackTrace","arguments":{"threadId":1}}
turn
< {"body":{"stackFrames":[{"column":1,"id":4,"line":1,"name":"main","source":{"name":"a.c","path":"/a.c","sourceReference":1}}],"totalFrames":1},"command":"stackTrace","request_seq":17,"seq":23,"success":true,"type":"response"}
references 1
> {"seq":18,"type":"request","command":"evaluate","arguments":{"expression":"x","frameId":4}}
turn
< {"body":{"result":"1","variablesReference":0},"command":"evaluate","request_seq":18,"seq":24,"success":true,"type":"response"}
> {"seq":19,"type":"request","command":"setVariable","arguments":{"variablesReference":2,"name":"x","value":"9"}}
turn
< staleReference seq 25 to 19 setVariable
phase Stopped
"#,
    r#"
# Neither a request that is refused nor one without effect takes a value away; a step to the same moment does.
row a set variable outlives a refused step
after stops at its entry
> {"seq":4,"type":"request","command":"stackTrace","arguments":{"threadId":1}}
turn
< {"body":{"stackFrames":[{"column":1,"id":1,"line":1,"name":"main","source":{"name":"a.c","path":"/a.c","sourceReference":1}}],"totalFrames":1},"command":"stackTrace","request_seq":4,"seq":7,"success":true,"type":"response"}
> {"seq":5,"type":"request","command":"scopes","arguments":{"frameId":1}}
turn
< {"body":{"scopes":[{"expensive":false,"name":"Locals","variablesReference":2}]},"command":"scopes","request_seq":5,"seq":8,"success":true,"type":"response"}
> {"seq":6,"type":"request","command":"setVariable","arguments":{"variablesReference":2,"name":"x","value":"9"}}
turn
< {"body":{"value":"9"},"command":"setVariable","request_seq":6,"seq":9,"success":true,"type":"response"}
> {"seq":7,"type":"request","command":"next","arguments":{"threadId":2}}
turn
< unknownThread seq 10 to 7 next
> {"seq":8,"type":"request","command":"stepBack","arguments":{}}
turn
< badArguments threadId seq 11 to 8 stepBack
> {"seq":9,"type":"request","command":"pause","arguments":{"threadId":1}}
turn
< {"command":"pause","request_seq":9,"seq":12,"success":true,"type":"response"}
poll
> {"seq":10,"type":"request","command":"setBreakpoints","arguments":{"source":{"path":"/a.c"},"lines":[2]}}
turn
< {"body":{"breakpoints":[{"id":1,"line":2,"verified":true}]},"command":"setBreakpoints","request_seq":10,"seq":13,"success":true,"type":"response"}
> {"seq":11,"type":"request","command":"variables","arguments":{"variablesReference":2}}
turn
< {"body":{"variables":[{"name":"x","value":"9","variablesReference":0},{"name":"p","value":"P","variablesReference":3}]},"command":"variables","request_seq":11,"seq":14,"success":true,"type":"response"}
> {"seq":12,"type":"request","command":"evaluate","arguments":{"expression":"x","frameId":1}}
turn
< {"body":{"result":"9","variablesReference":0},"command":"evaluate","request_seq":12,"seq":15,"success":true,"type":"response"}
> {"seq":13,"type":"request","command":"stepBack","arguments":{"threadId":1}}
turn
< {"command":"stepBack","request_seq":13,"seq":16,"success":true,"type":"response"}
poll
< {"body":{"allThreadsStopped":true,"reason":"step","threadId":1},"event":"stopped","seq":17,"type":"event"}
> {"seq":14,"type":"request","command":"stackTrace","arguments":{"threadId":1}}
turn
< {"body":{"stackFrames":[{"column":1,"id":4,"line":1,"name":"main","source":{"name":"a.c","path":"/a.c","sourceReference":1}}],"totalFrames":1},"command":"stackTrace","request_seq":14,"seq":18,"success":true,"type":"response"}
> {"seq":15,"type":"request","command":"scopes","arguments":{"frameId":4}}
turn
< {"body":{"scopes":[{"expensive":false,"name":"Locals","variablesReference":5}]},"command":"scopes","request_seq":15,"seq":19,"success":true,"type":"response"}
> {"seq":16,"type":"request","command":"variables","arguments":{"variablesReference":5}}
turn
< {"body":{"variables":[{"name":"x","value":"1","variablesReference":0},{"name":"p","value":"P","variablesReference":6}]},"command":"variables","request_seq":16,"seq":20,"success":true,"type":"response"}
> {"seq":17,"type":"request","command":"evaluate","arguments":{"expression":"x","frameId":4}}
turn
< {"body":{"result":"1","variablesReference":0},"command":"evaluate","request_seq":17,"seq":21,"success":true,"type":"response"}
"#,
    r#"
# The last value counts, be it without a letter or the one that was told first.
row a variable is set twice
after stops at its entry
> {"seq":4,"type":"request","command":"stackTrace","arguments":{"threadId":1}}
turn
< {"body":{"stackFrames":[{"column":1,"id":1,"line":1,"name":"main","source":{"name":"a.c","path":"/a.c","sourceReference":1}}],"totalFrames":1},"command":"stackTrace","request_seq":4,"seq":7,"success":true,"type":"response"}
> {"seq":5,"type":"request","command":"scopes","arguments":{"frameId":1}}
turn
< {"body":{"scopes":[{"expensive":false,"name":"Locals","variablesReference":2}]},"command":"scopes","request_seq":5,"seq":8,"success":true,"type":"response"}
> {"seq":6,"type":"request","command":"setVariable","arguments":{"variablesReference":2,"name":"x","value":"9"}}
turn
< {"body":{"value":"9"},"command":"setVariable","request_seq":6,"seq":9,"success":true,"type":"response"}
> {"seq":7,"type":"request","command":"setVariable","arguments":{"variablesReference":2,"name":"x","value":"10"}}
turn
< {"body":{"value":"10"},"command":"setVariable","request_seq":7,"seq":10,"success":true,"type":"response"}
> {"seq":8,"type":"request","command":"variables","arguments":{"variablesReference":2}}
turn
< {"body":{"variables":[{"name":"x","value":"10","variablesReference":0},{"name":"p","value":"P","variablesReference":3}]},"command":"variables","request_seq":8,"seq":11,"success":true,"type":"response"}
> {"seq":9,"type":"request","command":"evaluate","arguments":{"expression":"x","frameId":1}}
turn
< {"body":{"result":"10","variablesReference":0},"command":"evaluate","request_seq":9,"seq":12,"success":true,"type":"response"}
> {"seq":10,"type":"request","command":"setVariable","arguments":{"variablesReference":2,"name":"x","value":"\"\\\u000a\u00e9"}}
turn
< {"body":{"value":"\"\\\né"},"command":"setVariable","request_seq":10,"seq":13,"success":true,"type":"response"}
> {"seq":11,"type":"request","command":"evaluate","arguments":{"expression":"x","frameId":1}}
turn
< {"body":{"result":"\"\\\né","variablesReference":0},"command":"evaluate","request_seq":11,"seq":14,"success":true,"type":"response"}
> {"seq":12,"type":"request","command":"setVariable","arguments":{"variablesReference":2,"name":"x","value":""}}
turn
< {"body":{"value":""},"command":"setVariable","request_seq":12,"seq":15,"success":true,"type":"response"}
> {"seq":13,"type":"request","command":"variables","arguments":{"variablesReference":2}}
turn
< {"body":{"variables":[{"name":"x","value":"","variablesReference":0},{"name":"p","value":"P","variablesReference":3}]},"command":"variables","request_seq":13,"seq":16,"success":true,"type":"response"}
> {"seq":14,"type":"request","command":"setVariable","arguments":{"variablesReference":2,"name":"x","value":"1"}}
turn
< {"body":{"value":"1"},"command":"setVariable","request_seq":14,"seq":17,"success":true,"type":"response"}
> {"seq":15,"type":"request","command":"variables","arguments":{"variablesReference":2}}
turn
< {"body":{"variables":[{"name":"x","value":"1","variablesReference":0},{"name":"p","value":"P","variablesReference":3}]},"command":"variables","request_seq":15,"seq":18,"success":true,"type":"response"}
references 3
"#,
    r#"
# A value is set in the holder that is named, and in no other.
row what a variable has is set
after stops at its entry
> {"seq":4,"type":"request","command":"stackTrace","arguments":{"threadId":1}}
turn
< {"body":{"stackFrames":[{"column":1,"id":1,"line":1,"name":"main","source":{"name":"a.c","path":"/a.c","sourceReference":1}}],"totalFrames":1},"command":"stackTrace","request_seq":4,"seq":7,"success":true,"type":"response"}
> {"seq":5,"type":"request","command":"scopes","arguments":{"frameId":1}}
turn
< {"body":{"scopes":[{"expensive":false,"name":"Locals","variablesReference":2}]},"command":"scopes","request_seq":5,"seq":8,"success":true,"type":"response"}
> {"seq":6,"type":"request","command":"variables","arguments":{"variablesReference":2}}
turn
< {"body":{"variables":[{"name":"x","value":"1","variablesReference":0},{"name":"p","value":"P","variablesReference":3}]},"command":"variables","request_seq":6,"seq":9,"success":true,"type":"response"}
> {"seq":7,"type":"request","command":"setVariable","arguments":{"variablesReference":3,"name":"a","value":"8"}}
turn
< {"body":{"value":"8"},"command":"setVariable","request_seq":7,"seq":10,"success":true,"type":"response"}
> {"seq":8,"type":"request","command":"variables","arguments":{"variablesReference":3}}
turn
< {"body":{"variables":[{"name":"a","value":"8","variablesReference":0}]},"command":"variables","request_seq":8,"seq":11,"success":true,"type":"response"}
> {"seq":9,"type":"request","command":"variables","arguments":{"variablesReference":2}}
turn
< {"body":{"variables":[{"name":"x","value":"1","variablesReference":0},{"name":"p","value":"P","variablesReference":3}]},"command":"variables","request_seq":9,"seq":12,"success":true,"type":"response"}
> {"seq":10,"type":"request","command":"evaluate","arguments":{"expression":"p","frameId":1}}
turn
< {"body":{"result":"P","variablesReference":3},"command":"evaluate","request_seq":10,"seq":13,"success":true,"type":"response"}
> {"seq":11,"type":"request","command":"setVariable","arguments":{"variablesReference":3,"name":"x","value":"9"}}
turn
< debuggee seq 14 to 11 setVariable
> {"seq":12,"type":"request","command":"setVariable","arguments":{"variablesReference":2,"name":"a","value":"9"}}
turn
< debuggee seq 15 to 12 setVariable
> {"seq":13,"type":"request","command":"setVariable","arguments":{"variablesReference":2,"name":"p","value":"Q"}}
turn
< {"body":{"value":"Q"},"command":"setVariable","request_seq":13,"seq":16,"success":true,"type":"response"}
> {"seq":14,"type":"request","command":"variables","arguments":{"variablesReference":3}}
turn
< {"body":{"variables":[{"name":"a","value":"8","variablesReference":0}]},"command":"variables","request_seq":14,"seq":17,"success":true,"type":"response"}
> {"seq":15,"type":"request","command":"variables","arguments":{"variablesReference":2}}
turn
< {"body":{"variables":[{"name":"x","value":"1","variablesReference":0},{"name":"p","value":"Q","variablesReference":3}]},"command":"variables","request_seq":15,"seq":18,"success":true,"type":"response"}
> {"seq":16,"type":"request","command":"evaluate","arguments":{"expression":"p","frameId":1}}
turn
< {"body":{"result":"Q","variablesReference":3},"command":"evaluate","request_seq":16,"seq":19,"success":true,"type":"response"}
references 3
"#,
    r#"
# Of two in a holder it is the first; an expression names that of the first scope that has one.
row variables of one name are set
recording {"exit":0,"sources":[{"name":"a.c","text":"one"}],"moments":[{"thread":1,"output":"go\n","threads":[{"id":1,"name":"main","frames":[{"name":"main","source":0,"line":1,"scopes":[{"name":"A","variables":[{"name":"y","value":"0"},{"name":"x","value":"1","variables":[{"name":"x","value":"2"}]},{"name":"x","value":"3"}]},{"name":"B","variables":[{"name":"x","value":"4"}]}]}]}]}]}
after stops at its entry
> {"seq":4,"type":"request","command":"stackTrace","arguments":{"threadId":1}}
turn
< {"body":{"stackFrames":[{"column":1,"id":1,"line":1,"name":"main","source":{"name":"a.c","sourceReference":1}}],"totalFrames":1},"command":"stackTrace","request_seq":4,"seq":7,"success":true,"type":"response"}
> {"seq":5,"type":"request","command":"scopes","arguments":{"frameId":1}}
turn
< {"body":{"scopes":[{"expensive":false,"name":"A","variablesReference":2},{"expensive":false,"name":"B","variablesReference":3}]},"command":"scopes","request_seq":5,"seq":8,"success":true,"type":"response"}
> {"seq":6,"type":"request","command":"variables","arguments":{"variablesReference":2}}
turn
< {"body":{"variables":[{"name":"y","value":"0","variablesReference":0},{"name":"x","value":"1","variablesReference":4},{"name":"x","value":"3","variablesReference":0}]},"command":"variables","request_seq":6,"seq":9,"success":true,"type":"response"}
> {"seq":7,"type":"request","command":"setVariable","arguments":{"variablesReference":2,"name":"x","value":"9"}}
turn
< {"body":{"value":"9"},"command":"setVariable","request_seq":7,"seq":10,"success":true,"type":"response"}
> {"seq":8,"type":"request","command":"variables","arguments":{"variablesReference":2}}
turn
< {"body":{"variables":[{"name":"y","value":"0","variablesReference":0},{"name":"x","value":"9","variablesReference":4},{"name":"x","value":"3","variablesReference":0}]},"command":"variables","request_seq":8,"seq":11,"success":true,"type":"response"}
> {"seq":9,"type":"request","command":"variables","arguments":{"variablesReference":4}}
turn
< {"body":{"variables":[{"name":"x","value":"2","variablesReference":0}]},"command":"variables","request_seq":9,"seq":12,"success":true,"type":"response"}
> {"seq":10,"type":"request","command":"variables","arguments":{"variablesReference":3}}
turn
< {"body":{"variables":[{"name":"x","value":"4","variablesReference":0}]},"command":"variables","request_seq":10,"seq":13,"success":true,"type":"response"}
> {"seq":11,"type":"request","command":"evaluate","arguments":{"expression":"x","frameId":1}}
turn
< {"body":{"result":"9","variablesReference":4},"command":"evaluate","request_seq":11,"seq":14,"success":true,"type":"response"}
> {"seq":12,"type":"request","command":"setVariable","arguments":{"variablesReference":3,"name":"x","value":"8"}}
turn
< {"body":{"value":"8"},"command":"setVariable","request_seq":12,"seq":15,"success":true,"type":"response"}
> {"seq":13,"type":"request","command":"variables","arguments":{"variablesReference":3}}
turn
< {"body":{"variables":[{"name":"x","value":"8","variablesReference":0}]},"command":"variables","request_seq":13,"seq":16,"success":true,"type":"response"}
> {"seq":14,"type":"request","command":"evaluate","arguments":{"expression":"x","frameId":1}}
turn
< {"body":{"result":"9","variablesReference":4},"command":"evaluate","request_seq":14,"seq":17,"success":true,"type":"response"}
> {"seq":15,"type":"request","command":"setVariable","arguments":{"variablesReference":4,"name":"x","value":"7"}}
turn
< {"body":{"value":"7"},"command":"setVariable","request_seq":15,"seq":18,"success":true,"type":"response"}
> {"seq":16,"type":"request","command":"variables","arguments":{"variablesReference":4}}
turn
< {"body":{"variables":[{"name":"x","value":"7","variablesReference":0}]},"command":"variables","request_seq":16,"seq":19,"success":true,"type":"response"}
> {"seq":17,"type":"request","command":"variables","arguments":{"variablesReference":2}}
turn
< {"body":{"variables":[{"name":"y","value":"0","variablesReference":0},{"name":"x","value":"9","variablesReference":4},{"name":"x","value":"3","variablesReference":0}]},"command":"variables","request_seq":17,"seq":20,"success":true,"type":"response"}
references 4
"#,
    r#"
# Each failure in a stop, in their order: arguments, the number, the name. Nothing changes.
row nothing is set
after stops at its entry
> {"seq":4,"type":"request","command":"stackTrace","arguments":{"threadId":1}}
turn
< {"body":{"stackFrames":[{"column":1,"id":1,"line":1,"name":"main","source":{"name":"a.c","path":"/a.c","sourceReference":1}}],"totalFrames":1},"command":"stackTrace","request_seq":4,"seq":7,"success":true,"type":"response"}
> {"seq":5,"type":"request","command":"scopes","arguments":{"frameId":1}}
turn
< {"body":{"scopes":[{"expensive":false,"name":"Locals","variablesReference":2}]},"command":"scopes","request_seq":5,"seq":8,"success":true,"type":"response"}
> {"seq":6,"type":"request","command":"setVariable"}
turn
< badArguments arguments seq 9 to 6 setVariable
> {"seq":7,"type":"request","command":"setVariable","arguments":[]}
turn
< badArguments arguments seq 10 to 7 setVariable
> {"seq":8,"type":"request","command":"setVariable","arguments":{}}
turn
< badArguments variablesReference seq 11 to 8 setVariable
> {"seq":9,"type":"request","command":"setVariable","arguments":{"variablesReference":2}}
turn
< badArguments name seq 12 to 9 setVariable
> {"seq":10,"type":"request","command":"setVariable","arguments":{"variablesReference":2,"name":"x"}}
turn
< badArguments value seq 13 to 10 setVariable
> {"seq":11,"type":"request","command":"setVariable","arguments":{"variablesReference":"2","name":"x","value":"9"}}
turn
< badArguments variablesReference seq 14 to 11 setVariable
> {"seq":12,"type":"request","command":"setVariable","arguments":{"variablesReference":-1,"name":"x","value":"9"}}
turn
< badArguments variablesReference seq 15 to 12 setVariable
> {"seq":13,"type":"request","command":"setVariable","arguments":{"variablesReference":2147483648,"name":"x","value":"9"}}
turn
< badArguments variablesReference seq 16 to 13 setVariable
> {"seq":14,"type":"request","command":"setVariable","arguments":{"variablesReference":2,"name":1,"value":"9"}}
turn
< badArguments name seq 17 to 14 setVariable
> {"seq":15,"type":"request","command":"setVariable","arguments":{"variablesReference":2,"name":"x","value":9}}
turn
< badArguments value seq 18 to 15 setVariable
> {"seq":16,"type":"request","command":"setVariable","arguments":{"variablesReference":2,"name":"x","value":null}}
turn
< badArguments value seq 19 to 16 setVariable
> {"seq":17,"type":"request","command":"setVariable","arguments":{"variablesReference":9,"name":"x"}}
turn
< badArguments value seq 20 to 17 setVariable
> {"seq":18,"type":"request","command":"setVariable","arguments":{"variablesReference":0,"name":"x","value":"9"}}
turn
< staleReference seq 21 to 18 setVariable
> {"seq":19,"type":"request","command":"setVariable","arguments":{"variablesReference":1,"name":"x","value":"9"}}
turn
< staleReference seq 22 to 19 setVariable
> {"seq":20,"type":"request","command":"setVariable","arguments":{"variablesReference":3,"name":"x","value":"9"}}
turn
< staleReference seq 23 to 20 setVariable
> {"seq":21,"type":"request","command":"setVariable","arguments":{"variablesReference":2147483647,"name":"x","value":"9"}}
turn
< staleReference seq 24 to 21 setVariable
> {"seq":22,"type":"request","command":"setVariable","arguments":{"variablesReference":2,"name":"q","value":"9"}}
turn
< debuggee seq 25 to 22 setVariable
> {"seq":23,"type":"request","command":"setVariable","arguments":{"variablesReference":2,"name":"X","value":"9"}}
turn
< debuggee seq 26 to 23 setVariable
> {"seq":24,"type":"request","command":"setVariable","arguments":{"variablesReference":2,"name":"","value":"9"}}
turn
< debuggee seq 27 to 24 setVariable
> {"seq":25,"type":"request","command":"setVariable","arguments":{"variablesReference":2,"name":"a","value":"9"}}
turn
< debuggee seq 28 to 25 setVariable
references 2
> {"seq":26,"type":"request","command":"evaluate","arguments":{"expression":"x","frameId":1}}
turn
< {"body":{"result":"1","variablesReference":0},"command":"evaluate","request_seq":26,"seq":29,"success":true,"type":"response"}
> {"seq":27,"type":"request","command":"variables","arguments":{"variablesReference":2}}
turn
< {"body":{"variables":[{"name":"x","value":"1","variablesReference":0},{"name":"p","value":"P","variablesReference":3}]},"command":"variables","request_seq":27,"seq":30,"success":true,"type":"response"}
references 3
phase Stopped
"#,
    r#"
# Each phase but Stopped.
row nothing is set outside a stop
> {"seq":1,"type":"request","command":"setVariable","arguments":{"variablesReference":2,"name":"x","value":"9"}}
turn
< notInitialized seq 1 to 1 setVariable
> {"seq":2,"type":"request","command":"initialize","arguments":{"adapterID":"rec"}}
turn
< capabilities seq 2 to 2
< {"event":"initialized","seq":3,"type":"event"}
> {"seq":3,"type":"request","command":"setVariable","arguments":{"variablesReference":2,"name":"x","value":"9"}}
turn
< wrongPhase seq 4 to 3 setVariable
> {"seq":4,"type":"request","command":"setVariable","arguments":{}}
turn
< badArguments variablesReference seq 5 to 4 setVariable
> {"seq":5,"type":"request","command":"launch"}
turn
phase Parked
> {"seq":6,"type":"request","command":"setVariable","arguments":{"variablesReference":2,"name":"x","value":"9"}}
turn
< wrongPhase seq 6 to 6 setVariable
> {"seq":7,"type":"request","command":"configurationDone"}
turn
< {"command":"configurationDone","request_seq":7,"seq":7,"success":true,"type":"response"}
< {"command":"launch","request_seq":5,"seq":8,"success":true,"type":"response"}
phase Running
> {"seq":8,"type":"request","command":"setVariable","arguments":{"variablesReference":2,"name":"x","value":"9"}}
turn
< notStopped seq 9 to 8 setVariable
poll
< {"body":{"category":"stdout","output":"go\n"},"event":"output","seq":10,"type":"event"}
poll
< {"body":{"allThreadsStopped":true,"reason":"entry","threadId":1},"event":"stopped","seq":11,"type":"event"}
phase Stopped
> {"seq":9,"type":"request","command":"terminate"}
turn
< {"command":"terminate","request_seq":9,"seq":12,"success":true,"type":"response"}
< {"event":"terminated","seq":13,"type":"event"}
phase Exited
> {"seq":10,"type":"request","command":"setVariable","arguments":{"variablesReference":2,"name":"x","value":"9"}}
turn
< wrongPhase seq 14 to 10 setVariable
> {"seq":11,"type":"request","command":"disconnect"}
turn
< {"command":"disconnect","request_seq":11,"seq":15,"success":true,"type":"response"}
phase Ended
> {"seq":12,"type":"request","command":"setVariable","arguments":{"variablesReference":2,"name":"x","value":"9"}}
! Ended
"#,
    r#"
row no number is left for a value
limits 8192 4194304 64 65536 4096 8 2147483647
after stops at its entry
> {"seq":4,"type":"request","command":"stackTrace","arguments":{"threadId":1}}
turn
< {"body":{"stackFrames":[{"column":1,"id":1,"line":1,"name":"main","source":{"name":"a.c","path":"/a.c","sourceReference":1}}],"totalFrames":1},"command":"stackTrace","request_seq":4,"seq":7,"success":true,"type":"response"}
> {"seq":5,"type":"request","command":"scopes","arguments":{"frameId":1}}
turn
< {"body":{"scopes":[{"expensive":false,"name":"Locals","variablesReference":2}]},"command":"scopes","request_seq":5,"seq":8,"success":true,"type":"response"}
> {"seq":6,"type":"request","command":"setVariable","arguments":{"variablesReference":2,"name":"x","value":"9"}}
turn
! SeqExhausted
kept 1
"#,
    r#"
# It needs none.
row a value is set where no reference is left
limits 8192 4194304 64 2 4096 9007199254740991 2147483647
after stops at its entry
> {"seq":4,"type":"request","command":"stackTrace","arguments":{"threadId":1}}
turn
< {"body":{"stackFrames":[{"column":1,"id":1,"line":1,"name":"main","source":{"name":"a.c","path":"/a.c","sourceReference":1}}],"totalFrames":1},"command":"stackTrace","request_seq":4,"seq":7,"success":true,"type":"response"}
> {"seq":5,"type":"request","command":"scopes","arguments":{"frameId":1}}
turn
< {"body":{"scopes":[{"expensive":false,"name":"Locals","variablesReference":2}]},"command":"scopes","request_seq":5,"seq":8,"success":true,"type":"response"}
references 2
> {"seq":6,"type":"request","command":"setVariable","arguments":{"variablesReference":2,"name":"p","value":"Q"}}
turn
< {"body":{"value":"Q"},"command":"setVariable","request_seq":6,"seq":9,"success":true,"type":"response"}
> {"seq":7,"type":"request","command":"evaluate","arguments":{"expression":"x","frameId":1}}
turn
< {"body":{"result":"1","variablesReference":0},"command":"evaluate","request_seq":7,"seq":10,"success":true,"type":"response"}
> {"seq":8,"type":"request","command":"evaluate","arguments":{"expression":"p","frameId":1}}
turn
< tooManyReferences seq 11 to 8 evaluate
references 2
"#,
];

/// The rows. A proof looks at their texts here alone.
fn rows() -> &'static [&'static str] {
    &VALUES
}

/// Whole, and in pieces.
#[test]
fn values(rt: HostRuntime) -> Result<(), Fail> {
    play_rows::<Playing<Recorded>>(&rt, rows(), usize::MAX)?;
    play_rows::<Playing<Recorded>>(&rt, rows(), 7)
}
