//! Requests of whoever holds an adapter to the client, by their names. What the lines of a row say stands in `holding.rt`.

use crate::holding::Holder;
use std::test::Fail;
use test_kit::rows::play_rows;

pub(crate) static ROWS: [&str; 15] = [
    r#"
row asked and answered
from ready
waits 0
ask 3 startDebugging {"configuration":{},"request":"launch"}
< {"arguments":{"configuration":{},"request":"launch"},"command":"startDebugging","seq":3,"type":"request"}
waits 1
> {"seq":2,"type":"response","request_seq":3,"success":true,"command":"startDebugging"}
waits 0
"#,
    r#"
row without arguments, and a failure
from ready
ask 3 mine
< {"command":"mine","seq":3,"type":"request"}
> {"seq":2,"type":"response","request_seq":3,"success":false,"command":"mine","message":"notNow"}
waits 0
"#,
    r#"
row in the other order
from ready
ask 3 mine
< {"command":"mine","seq":3,"type":"request"}
ask 4 yours [1]
< {"arguments":[1],"command":"yours","seq":4,"type":"request"}
waits 2
> {"seq":2,"type":"response","request_seq":4,"success":true,"command":"yours"}
waits 1
> {"seq":3,"type":"request","command":"threads"}
< {"body":{"threads":[]},"command":"threads","request_seq":3,"seq":5,"success":true,"type":"response"}
> {"seq":4,"type":"response","request_seq":3,"success":true,"command":"mine","body":{}}
waits 0
"#,
    r#"
row answered twice
from ready
ask 3 mine
< {"command":"mine","seq":3,"type":"request"}
> {"seq":2,"type":"response","request_seq":3,"success":true,"command":"mine"}
waits 0
> {"seq":3,"type":"response","request_seq":3,"success":true,"command":"mine"}
! Unmatched
ask 0 mine
! Closed
"#,
    r#"
row another command
from ready
ask 3 mine
< {"command":"mine","seq":3,"type":"request"}
> {"seq":2,"type":"response","request_seq":3,"success":true,"command":"yours"}
! CommandMismatch
waits 1
"#,
    r#"
row nothing is asked
from ready
> {"seq":2,"type":"response","request_seq":3,"success":true,"command":"mine"}
! Unmatched
"#,
    r#"
row before initialize
ask 0 mine
! WrongPhase
"#,
    r#"
# By `answer_body` nothing is taken any more.
row after the end
from ready
ask 3 mine
< {"command":"mine","seq":3,"type":"request"}
> {"seq":2,"type":"request","command":"disconnect"}
< {"command":"disconnect","request_seq":2,"seq":4,"success":true,"type":"response"}
ask 0 mine
! WrongPhase
waits 1
> {"seq":3,"type":"response","request_seq":3,"success":true,"command":"mine"}
waits 1
"#,
    r#"
# By `take` a response is taken still, and a request is not.
row taken after the end
from ready
ask 3 mine
< {"command":"mine","seq":3,"type":"request"}
ask 4 yours
< {"command":"yours","seq":4,"type":"request"}
> {"seq":2,"type":"request","command":"disconnect"}
< {"command":"disconnect","request_seq":2,"seq":5,"success":true,"type":"response"}
take {"seq":3,"type":"response","request_seq":4,"success":true,"command":"yours"}
waits 1
take {"seq":4,"type":"response","request_seq":3,"success":false,"command":"mine"}
waits 0
take {"seq":5,"type":"response","request_seq":3,"success":true,"command":"mine"}
! Unmatched
"#,
    r#"
row names of 64 and of 65 bytes
from ready
ask 3 aaaaaaaaaaaaaaaaaaaaaaaaaaaaaaaaaaaaaaaaaaaaaaaaaaaaaaaaaaaaaaaa
< {"command":"aaaaaaaaaaaaaaaaaaaaaaaaaaaaaaaaaaaaaaaaaaaaaaaaaaaaaaaaaaaaaaaa","seq":3,"type":"request"}
ask 0 aaaaaaaaaaaaaaaaaaaaaaaaaaaaaaaaaaaaaaaaaaaaaaaaaaaaaaaaaaaaaaaaa
! BadName
waits 1
"#,
    r#"
row one of two places
limits 8192 4194304 2 65536 4096 9007199254740991 2147483647
from ready
ask 3 mine
< {"command":"mine","seq":3,"type":"request"}
ask 0 mine
! Full
> {"seq":2,"type":"response","request_seq":3,"success":true,"command":"mine"}
ask 4 mine
< {"command":"mine","seq":4,"type":"request"}
waits 1
"#,
    r#"
# The other place is that of the request for a terminal.
row a terminal beside it
limits 8192 4194304 2 65536 4096 9007199254740991 2147483647
> {"seq":1,"type":"request","command":"initialize","arguments":{"adapterID":"rec","supportsRunInTerminalRequest":true}}
< capabilities seq 1 to 1
< {"event":"initialized","seq":2,"type":"event"}
ask 3 runInTerminal {"args":["sh"],"cwd":"/tmp"}
< {"arguments":{"args":["sh"],"cwd":"/tmp"},"command":"runInTerminal","seq":3,"type":"request"}
> {"seq":2,"type":"request","command":"launch","arguments":{"console":"terminal"}}
> {"seq":3,"type":"request","command":"configurationDone"}
< {"command":"configurationDone","request_seq":3,"seq":4,"success":true,"type":"response"}
< terminal seq 5
ask 0 mine
! Full
> {"seq":4,"type":"response","request_seq":3,"success":true,"command":"runInTerminal"}
waits 0
> {"seq":5,"type":"response","request_seq":5,"success":true,"command":"runInTerminal"}
< {"command":"launch","request_seq":2,"seq":6,"success":true,"type":"response"}
< {"body":{"category":"stdout","output":"go\n"},"event":"output","seq":7,"type":"event"}
< {"body":{"allThreadsStopped":true,"reason":"entry","threadId":1},"event":"stopped","seq":8,"type":"event"}
"#,
    r#"
# Around the text are 55 bytes.
row bodies of 1024 bytes, and three numbers
limits 8192 1024 8 65536 4096 3 2147483647
from ready
long 0 m 970
! TooLarge
ask 3 m
< {"command":"m","seq":3,"type":"request"}
long 0 m 970
! TooLarge
long 0 m 969
! SeqExhausted
waits 1
"#,
    r#"
row closed
from ready
closed
ask 0 mine
! Closed
waits 0
"#,
    r#"
# A lent request and one of whoever holds the adapter may have the same number: each is of its own end.
row both ways
opened mine
from ready
> {"seq":3,"type":"request","command":"mine"}
ask 3 yours
< {"command":"yours","seq":3,"type":"request"}
lent 3
> {"seq":4,"type":"response","request_seq":3,"success":true,"command":"yours"}
lent 3
waits 0
success 3
< {"command":"mine","request_seq":3,"seq":4,"success":true,"type":"response"}
lent
"#,
];

#[test]
fn requests_are_asked_by_their_names(rt: HostRuntime) -> Result<(), Fail> {
    play_rows::<Holder>(&rt, &ROWS, usize::MAX)
}
