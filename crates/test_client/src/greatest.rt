//! A client at the greatest sizes, with ample memory: nothing is refused. The rows are too long to be written, so they are
//! made.

use crate::asking::Asking;
use crate::calls::row_at;
use std::alloc::{AllocError, Global};
use std::fmt::Write;
use std::test::Fail;
use test_kit::rows::{add_many, play_rows};

/// Plays a row after the one that initializes, which it may come after.
fn play_both<'a>(rt: &HostRuntime, first: &'a str, row: &'a str) -> Result<(), Fail> {
    let rows: [&'a str; 2] = [first, row];
    play_rows::<Asking>(rt, &rows, usize::MAX)
}

/// Plays a row that was made.
fn play(rt: &HostRuntime, row: Result<String, AllocError>) -> Result<(), Fail> {
    match row {
        Ok(row) => {
            let played = play_both(rt, row_at(1), row.as_str());
            // The proof of a call is shorter than that of a value that goes out of scope.
            drop(row);
            played
        }
        Err(_) => Err(Fail::from("no memory")),
    }
}

/// Sends requests with the numbers from 2 on.
fn add_requests(row: &mut String, last: u32) -> Result<(), AllocError> {
    for seq in 2..=last {
        row.push_str("send threads\n")?;
        writeln!(
            row,
            r#"> {{"command":"threads","seq":{seq},"type":"request"}}"#
        )?;
    }
    Ok(())
}

/// Their answers, the last one first.
fn add_answers(row: &mut String, last: u32) -> Result<(), AllocError> {
    for answered in 0..last.saturating_sub(1) {
        writeln!(
            row,
            r#"< {{"seq":0,"type":"response","request_seq":{},"success":true,"command":"threads"}}"#,
            last - answered
        )?;
    }
    Ok(())
}

fn many_requests(alloc: Global) -> Result<String, AllocError> {
    let mut row = String::from_str(
        alloc,
        "row many requests\nlimits 8192 4194304 4096 65536 4096 9007199254740991 2147483647\nafter initializes\nphase Configuring\nreferences 0\n",
    )?;
    add_requests(&mut row, 4097)?;
    row.push_str("outstanding 4096\nsend threads\n! Full\n")?;
    add_answers(&mut row, 4097)?;
    row.push_str("outstanding 0")?;
    Ok(row)
}

/// 4096 requests are outstanding, one more finds no room, and all are answered, the last one first.
#[test]
fn many_requests_are_answered_in_reverse(rt: HostRuntime) -> Result<(), Fail> {
    play(&rt, many_requests(rt.alloc()))
}

/// So many frames, each with an id of its own.
fn add_frames(row: &mut String, count: u32) -> Result<(), AllocError> {
    row.push_str(r#"{"id":0}"#)?;
    for id in 1..count {
        write!(row, r#",{{"id":{id}}}"#)?;
    }
    Ok(())
}

fn many_references(alloc: Global) -> Result<String, AllocError> {
    let mut row = String::from_str(
        alloc,
        r#"row many references
after initializes
< {"event":"stopped","seq":0,"type":"event"}
phase Stopped
references 0
send stackTrace {"threadId":1}
> {"arguments":{"threadId":1},"command":"stackTrace","seq":2,"type":"request"}
< {"seq":0,"type":"response","request_seq":2,"success":true,"command":"stackTrace","body":{"stackFrames":["#,
    )?;
    add_frames(&mut row, 65536)?;
    row.push_str(
        r#"]}}
references 65536
send scopes {"frameId":65535}
> {"arguments":{"frameId":65535},"command":"scopes","seq":3,"type":"request"}
send scopes {"frameId":65536}
! UnknownReference
# A frame is no holder of variables.
send variables {"variablesReference":1}
! UnknownReference
outstanding 1
"#,
    )?;
    Ok(row)
}

/// 65536 references are known from one response: the last can be asked for, and what is none cannot.
#[test]
fn many_references_are_known(rt: HostRuntime) -> Result<(), Fail> {
    play(&rt, many_references(rt.alloc()))
}

/// A body of 4 MiB comes but for its last byte, and then whole.
fn longest_message(alloc: Global) -> Result<String, AllocError> {
    let mut row = String::from_str(
        alloc,
        r#"row the longest message
phase Fresh
references 0
bytes 0 "Content-Length: 4194304\r\n\r\n{\"seq\":0,\"type\":\"event\",\"event\":\"output\",\"body\":{\"output\":\""#,
    )?;
    add_many(alloc, &mut row, b'a', 4194242)?;
    row.push_str("\\\"}\"\nheld 4194303\nbytes 1 \"}\"\nheld 0")?;
    Ok(row)
}

#[test]
fn the_longest_body_is_taken(rt: HostRuntime) -> Result<(), Fail> {
    play(&rt, longest_message(rt.alloc()))
}

/// A line that sends an `evaluate` whose body has so many bytes.
fn add_evaluate(alloc: Global, row: &mut String, length: usize) -> Result<(), AllocError> {
    row.push_str(r#"send evaluate {"expression":""#)?;
    add_many(alloc, row, b'b', length.saturating_sub(77))?;
    row.push_str("\"}\n")
}

fn longest_request(alloc: Global) -> Result<String, AllocError> {
    let mut row = String::from_str(
        alloc,
        r#"row the longest request
after initializes
< {"event":"stopped","seq":0,"type":"event"}
phase Stopped
references 0
"#,
    )?;
    add_evaluate(alloc, &mut row, 4194305)?;
    row.push_str("! TooLarge\noutstanding 0\n")?;
    add_evaluate(alloc, &mut row, 4194304)?;
    row.push_str(r#"> {"arguments":{"expression":""#)?;
    add_many(alloc, &mut row, b'b', 4194227)?;
    row.push_str(r#""},"command":"evaluate","seq":2,"type":"request"}"#)?;
    Ok(row)
}

/// A body of 4 MiB is sent, and none that is longer.
#[test]
fn the_longest_body_is_sent(rt: HostRuntime) -> Result<(), Fail> {
    play(&rt, longest_request(rt.alloc()))
}
