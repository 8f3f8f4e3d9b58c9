//! Transcripts, what is told of them, and the sentence that explains it. What the lines of a row say stands in
//! `judged.rt`.

use crate::judged::Judged;
use dap_check::{Rule, laws};
use dap_explain::laws::broken_rules_have_reasons;
use std::test::Fail;
use test_kit::rows::play_rows;

pub(crate) static ROWS: [&str; 40] = [
    r#"
row no bytes
= legal
"#,
    r#"
row numbers that are not tested
any seq
> {"seq":1,"type":"request","command":"initialize"}
< {"seq":0,"type":"response","request_seq":1,"success":true,"command":"initialize"}
= legal
"#,
    r#"
row a session from its beginning to its end
unended
> {"arguments":{"adapterID":"rec"},"command":"initialize","seq":1,"type":"request"}
< capabilities seq 1 to 1
< {"event":"initialized","seq":2,"type":"event"}
> {"command":"disconnect","seq":2,"type":"request"}
< {"command":"disconnect","request_seq":2,"seq":3,"success":true,"type":"response"}
= legal
"#,
    r#"
row another number than the next one
> {"seq":1,"type":"request","command":"initialize"}
< {"seq":0,"type":"response","request_seq":1,"success":true,"command":"initialize"}
= line 2 rule 1: seq 1 was due, in the first message of its side
"#,
    r#"
row a first request that is not initialize
> {"seq":1,"type":"request","command":"threads"}
= line 1 rule 3: the first request of the client is not initialize
"#,
    r#"
row an answer to nothing
< {"seq":1,"type":"response","request_seq":1,"success":true,"command":"initialize"}
= line 1 rule 2: response to request 1, which the other side has not made
"#,
    r#"
row initialized before the answer
> {"seq":1,"type":"request","command":"initialize"}
< {"seq":1,"type":"event","event":"initialized"}
= line 2 rule 4: event initialized, before the response to the initialize request of line 1
"#,
    r#"
row a request that is not offered
> {"seq":1,"type":"request","command":"initialize"}
< {"seq":1,"type":"response","request_seq":1,"success":true,"command":"initialize"}
> {"seq":2,"type":"request","command":"terminate"}
= line 3 rule 5: the request needs supportsTerminateRequest, which line 2 does not set to true
"#,
    r#"
row a reference that was never given
> {"seq":1,"type":"request","command":"initialize"}
< {"seq":1,"type":"response","request_seq":1,"success":true,"command":"initialize"}
> {"seq":2,"type":"request","command":"scopes","arguments":{"frameId":1}}
= line 3 rule 6: frameId 1, which no response has given
"#,
    r#"
row an event after disconnect
> {"seq":1,"type":"request","command":"initialize"}
< {"seq":1,"type":"response","request_seq":1,"success":true,"command":"initialize"}
> {"seq":2,"type":"request","command":"disconnect"}
< {"seq":2,"type":"response","request_seq":2,"success":true,"command":"disconnect"}
< {"seq":3,"type":"event","event":"output"}
= line 5 rule 7: after the successful response to disconnect in line 4
"#,
    r#"
row a number is left out
> {"seq":1,"type":"request","command":"initialize"}
< {"seq":1,"type":"response","request_seq":1,"success":true,"command":"initialize"}
< {"seq":3,"type":"event","event":"output"}
= line 3 rule 1: seq 2 was due, after the message of line 2
"#,
    r#"
row a second answer
> {"seq":1,"type":"request","command":"initialize"}
< {"seq":1,"type":"response","request_seq":1,"success":true,"command":"initialize"}
< {"seq":2,"type":"response","request_seq":1,"success":true,"command":"initialize"}
= line 3 rule 2: response to request 1 of line 1, which line 2 answered already
"#,
    r#"
row an answer to another command
> {"seq":1,"type":"request","command":"initialize"}
.
< {"seq":1,"type":"response","request_seq":1,"success":true,"command":"threads"}
= line 3 rule 2: response to request 1, which line 1 made for another command
"#,
    r#"
row a number that waits
any seq
> {"seq":1,"type":"request","command":"initialize"}
> {"seq":1,"type":"request","command":"threads"}
= line 2 rule 2: request 1 again, while request 1 of line 1 has no response
"#,
    r#"
row a second request before the answer
> {"seq":1,"type":"request","command":"initialize"}
> {"seq":2,"type":"request","command":"threads"}
= line 2 rule 3: the second request of the client, before a response to the first, of line 1
"#,
    r#"
row initialized before any request
< {"seq":1,"type":"event","event":"initialized"}
= line 1 rule 4: event initialized, before any initialize request
"#,
    r#"
row initialized after a failure
> {"seq":1,"type":"request","command":"initialize"}
< {"seq":1,"type":"response","request_seq":1,"success":false,"command":"initialize"}
< {"seq":2,"type":"event","event":"initialized"}
= line 3 rule 4: event initialized, after initialize failed in line 2
"#,
    r#"
row nothing is offered
> {"seq":1,"type":"request","command":"initialize"}
< {"seq":1,"type":"response","request_seq":1,"success":false,"command":"initialize"}
> {"seq":2,"type":"request","command":"terminate"}
= line 3 rule 5: the request needs supportsTerminateRequest, before any successful response to initialize
"#,
    r#"
row what is offered is taken back
> {"seq":1,"type":"request","command":"initialize"}
< {"seq":1,"type":"response","request_seq":1,"success":true,"command":"initialize","body":{"supportsTerminateRequest":true}}
< {"seq":2,"type":"event","event":"capabilities","body":{"capabilities":{"supportsTerminateRequest":null}}}
< {"seq":3,"type":"event","event":"capabilities","body":{"capabilities":{"supportsStepBack":true}}}
> {"seq":2,"type":"request","command":"terminate"}
= line 5 rule 5: the request needs supportsTerminateRequest, which line 3 does not set to true
"#,
    r#"
row the least of two rules that a line breaks
> {"seq":1,"type":"request","command":"initialize"}
< {"seq":1,"type":"response","request_seq":1,"success":true,"command":"initialize"}
> {"seq":2,"type":"request","command":"setVariable","arguments":{"variablesReference":1}}
= line 3 rule 5: the request needs supportsSetVariable, which line 2 does not set to true
"#,
    r#"
row a number below 0
> {"seq":1,"type":"request","command":"initialize"}
< {"seq":1,"type":"response","request_seq":1,"success":true,"command":"initialize"}
> {"seq":2,"type":"request","command":"variables","arguments":{"variablesReference":-1}}
= line 3 rule 6: the number at variablesReference is below 0, and no reference
"#,
    r#"
row a frame that is no holder
> {"seq":1,"type":"request","command":"initialize"}
< {"seq":1,"type":"response","request_seq":1,"success":true,"command":"initialize"}
> {"seq":2,"type":"request","command":"stackTrace"}
< {"seq":2,"type":"response","request_seq":2,"success":true,"command":"stackTrace","body":{"stackFrames":[{"id":1}]}}
> {"seq":3,"type":"request","command":"variables","arguments":{"variablesReference":1}}
= line 5 rule 6: variablesReference 1, which line 4 gave as the id of a stack frame
"#,
    r#"
row a holder that is no frame
> {"seq":1,"type":"request","command":"initialize"}
< {"seq":1,"type":"response","request_seq":1,"success":true,"command":"initialize"}
> {"seq":2,"type":"request","command":"evaluate"}
< {"seq":2,"type":"response","request_seq":2,"success":true,"command":"evaluate","body":{"variablesReference":7}}
> {"seq":3,"type":"request","command":"scopes","arguments":{"frameId":7}}
= line 5 rule 6: frameId 7, which line 4 gave as a variablesReference
"#,
    r#"
row a reference from before a resumption
> {"seq":1,"type":"request","command":"initialize"}
< {"seq":1,"type":"response","request_seq":1,"success":true,"command":"initialize"}
> {"seq":2,"type":"request","command":"stackTrace"}
< {"seq":2,"type":"response","request_seq":2,"success":true,"command":"stackTrace","body":{"stackFrames":[{"id":1}]}}
< {"seq":3,"type":"event","event":"exited"}
< {"seq":4,"type":"event","event":"terminated"}
> {"seq":3,"type":"request","command":"scopes","arguments":{"frameId":1}}
= line 7 rule 6: frameId 1, which line 4 gave, until the debuggee went on or ended in line 5
"#,
    r#"
row lines without bytes are counted
bytes "> {\"seq\":1,\"type\":\"request\",\"command\":\"initialize\"}\n\n< {\"seq\":1,\"type\":\"response\",\"request_seq\":1,\"success\":true,\"command\":\"initialize\"}\r\n\n\r\n> {\"seq\":2,\"type\":\"request\",\"command\":\"terminate\"}"
= line 6 rule 5: the request needs supportsTerminateRequest, which line 3 does not set to true
"#,
    r#"
row no line of a transcript
unended
< {"seq":1,"type":"response","request_seq":1,"success":true,"command":"initialize"}
x
! BadLine { line: 2 }
"#,
    r#"
row a message that is no object
unended
> []
! Body { line: 1, cause: NotObject }
"#,
    r#"
row a message that is no JSON
any seq
bytes "\n< "
! Body { line: 2, cause: NotJson }
"#,
    r#"
row the numbers of the adapter alone are not tested
any seq adapter
all
> {"seq":1,"type":"request","command":"initialize"}
< {"seq":0,"type":"response","request_seq":1,"success":true,"command":"initialize"}
> {"seq":3,"type":"request","command":"threads"}
< {"seq":0,"type":"response","request_seq":3,"success":true,"command":"threads"}
= line 3 rule 1: seq 2 was due, after the message of line 1
"#,
    r#"
row the numbers of the client alone are not tested
any seq client
all
> {"seq":7,"type":"request","command":"initialize"}
< {"seq":0,"type":"response","request_seq":7,"success":true,"command":"initialize"}
= line 2 rule 1: seq 1 was due, in the first message of its side
"#,
    r#"
row each later number of the side is another one than was due
all
> {"seq":1,"type":"request","command":"initialize"}
< {"seq":1,"type":"response","request_seq":1,"success":true,"command":"initialize"}
< {"seq":3,"type":"event","event":"output"}
.
< {"seq":4,"type":"event","event":"output"}
> {"seq":2,"type":"request","command":"disconnect"}
< {"seq":4,"type":"response","request_seq":2,"success":true,"command":"disconnect"}
= line 3 rule 1: seq 2 was due, after the message of line 2
+ line 5 rule 1: seq 3 was due, after the message of line 3
"#,
    r#"
row two lines break two rules
all
> {"seq":1,"type":"request","command":"initialize"}
< {"seq":1,"type":"event","event":"initialized"}
< {"seq":2,"type":"response","request_seq":1,"success":true,"command":"initialize"}
> {"seq":2,"type":"request","command":"scopes","arguments":{"frameId":1}}
< {"seq":3,"type":"response","request_seq":2,"success":false,"command":"scopes"}
= line 2 rule 4: event initialized, before the response to the initialize request of line 1
+ line 4 rule 6: frameId 1, which no response has given
"#,
    r#"
row a line with two faults is listed once, by the least rule
all
> {"seq":2,"type":"request","command":"threads"}
< {"seq":1,"type":"response","request_seq":2,"success":true,"command":"threads"}
= line 1 rule 1: seq 1 was due, in the first message of its side
"#,
    r#"
row a response for another command, and then the right one
all
> {"seq":1,"type":"request","command":"initialize"}
< {"seq":1,"type":"response","request_seq":1,"success":true,"command":"threads"}
< {"seq":2,"type":"response","request_seq":1,"success":true,"command":"initialize"}
= line 2 rule 2: response to request 1, which line 1 made for another command
+ line 3 rule 2: response to request 1 of line 1, which line 2 answered already
"#,
    r#"
row a number that is asked again waits for either command
any seq
all
> {"seq":1,"type":"request","command":"initialize"}
< {"seq":0,"type":"response","request_seq":1,"success":true,"command":"initialize"}
> {"seq":2,"type":"request","command":"threads"}
> {"seq":2,"type":"request","command":"stackTrace"}
< {"seq":0,"type":"response","request_seq":2,"success":true,"command":"threads"}
= line 4 rule 2: request 2 again, while request 2 of line 3 has no response
"#,
    r#"
row a request that breaks a rule gives what its response gives
any seq
all
> {"seq":1,"type":"request","command":"threads"}
< {"seq":0,"type":"response","request_seq":1,"success":true,"command":"threads"}
> {"seq":2,"type":"request","command":"stackTrace"}
< {"seq":0,"type":"response","request_seq":2,"success":true,"command":"stackTrace","body":{"stackFrames":[{"id":4}]}}
< {"seq":0,"type":"response","request_seq":2,"success":true,"command":"stackTrace","body":{"stackFrames":[{"id":5}]}}
> {"seq":3,"type":"request","command":"scopes","arguments":{"frameId":5}}
< {"seq":0,"type":"response","request_seq":3,"success":true,"command":"scopes"}
= line 1 rule 3: the first request of the client is not initialize
+ line 5 rule 2: response to request 2 of line 3, which line 4 answered already
"#,
    r#"
row a request without an answer is legal
all
> {"seq":1,"type":"request","command":"initialize"}
< {"seq":1,"type":"response","request_seq":1,"success":true,"command":"initialize"}
> {"seq":2,"type":"request","command":"threads"}
> {"seq":3,"type":"request","command":"next"}
< {"seq":2,"type":"response","request_seq":2,"success":true,"command":"threads"}
= legal
? line 4 request 3 next of the client
"#,
    r#"
row requests of both sides without an answer, by their lines
all
> {"seq":1,"type":"request","command":"initialize"}
< {"seq":1,"type":"response","request_seq":1,"success":true,"command":"initialize"}
< {"seq":2,"type":"request","command":"runInTerminal"}
> {"seq":2,"type":"request","command":"launch"}
< {"seq":3,"type":"request","command":"runInTerminal"}
> {"seq":3,"type":"response","request_seq":3,"success":true,"command":"runInTerminal"}
= legal
? line 3 request 2 runInTerminal of the adapter
? line 4 request 2 launch of the client
"#,
    r#"
row requests by their lines, and not by their numbers
any seq
all
> {"seq":9,"type":"request","command":"initialize"}
> {"seq":4,"type":"request","command":"threads"}
> {"seq":4,"type":"request","command":"next"}
= line 2 rule 3: the second request of the client, before a response to the first, of line 1
+ line 3 rule 2: request 4 again, while request 4 of line 2 has no response
? line 1 request 9 initialize of the client
? line 2 request 4 threads of the client
? line 3 request 4 next of the client
"#,
    r#"
row a fault comes before all findings
all
> {"seq":5,"type":"request","command":"threads"}
x
! BadLine { line: 2 }
"#,
];

#[test]
fn transcripts(rt: HostRuntime) -> Result<(), Fail> {
    play_rows::<Judged>(&rt, &ROWS, usize::MAX)
}

/// The laws run nothing.
#[test]
fn laws_run_nothing(rt: HostRuntime) {
    laws::each_transcript_has_one_verdict();
    laws::earlier_lines_are_places();
    laws::rules_are_told_by_places();
    laws::texts_are_read_in_one_way();
    laws::findings_are_broken_rules();
    laws::open_requests_are_unanswered();
    broken_rules_have_reasons();
    assert!(rt; Rule::Reference.number() == 6);
}
