//! Sessions at the greatest sizes, with ample memory. Their rows are too long to be written, so they are made.

use crate::playing::Playing;
use dap_replay::Recorded;
use std::alloc::{AllocError, Global};
use std::fmt::Write;
use std::test::Fail;
use test_kit::rows::{add_many, play_rows};

/// Plays a row that was made.
fn play(rt: &HostRuntime, row: Result<String, AllocError>, size: usize) -> Result<(), Fail> {
    match row {
        Ok(row) => {
            let played = play_rows::<Playing<Recorded>>(rt, &[row.as_str()], size);
            // The proof of a call is shorter than that of a value that goes out of scope.
            drop(row);
            played
        }
        Err(_) => Err(Fail::from("no memory")),
    }
}

/// The lines that initialize.
const INITIALIZES: &str =
    r#"> {"seq":1,"type":"request","command":"initialize","arguments":{"adapterID":"rec"}}
turn
< capabilities seq 1 to 1
< {"event":"initialized","seq":2,"type":"event"}
"#;

/// A row that begins with these lines, and then initializes.
fn initialized(alloc: Global, lines: &str) -> Result<String, AllocError> {
    let mut row = String::from_str(alloc, lines)?;
    row.push_str(INITIALIZES)?;
    Ok(row)
}

/// A row in which the body of a `launch` has the greatest length, 4194304 bytes.
fn longest_launch(alloc: Global) -> Result<String, AllocError> {
    let mut row = initialized(alloc, "row the longest launch\n")?;
    row.push_str(r#"> {"seq":2,"type":"request","command":"launch","arguments":{"a":""#)?;
    add_many(alloc, &mut row, b'a', 4194238)?;
    row.push_str(
        r#""}}
turn
> {"seq":3,"type":"request","command":"configurationDone"}
turn
< {"command":"configurationDone","request_seq":3,"seq":3,"success":true,"type":"response"}
< {"command":"launch","request_seq":2,"seq":4,"success":true,"type":"response"}
"#,
    )?;
    Ok(row)
}

/// A request whose body has the greatest length is parked and answered.
#[test]
fn the_greatest_body(rt: HostRuntime) -> Result<(), Fail> {
    play(&rt, longest_launch(rt.alloc()), 4096)
}

fn add_requests(row: &mut String, count: u32) -> Result<(), AllocError> {
    for seq in 1..=count {
        writeln!(
            row,
            r#"> {{"seq":{seq},"type":"request","command":"threads"}}"#
        )?;
    }
    Ok(())
}

/// Before `initialize` all numbers are alike.
fn add_turns(row: &mut String, count: u32) -> Result<(), AllocError> {
    for seq in 1..=count {
        writeln!(row, "turn\n< notInitialized seq {seq} to {seq} threads")?;
    }
    Ok(())
}

/// A row in which so many requests are kept, and then answered in their order.
fn many_requests(alloc: Global, count: u32) -> Result<String, AllocError> {
    let mut row = String::from_str(
        alloc,
        "row many requests\nlimits 8192 4194304 4096 1 1 10000 1\n",
    )?;
    add_requests(&mut row, count)?;
    writeln!(row, "kept {count}")?;
    add_turns(&mut row, count)?;
    row.push_str("kept 0\nidle")?;
    Ok(row)
}

/// As many requests as may be are kept, and then answered in their order.
#[test]
fn the_greatest_count_of_requests(rt: HostRuntime) -> Result<(), Fail> {
    play(&rt, many_requests(rt.alloc(), 4096), usize::MAX)
}

/// Requests from the number 4 on, each of which is `busy`.
fn add_busy(row: &mut String, last: u32) -> Result<(), AllocError> {
    for seq in 4..=last {
        writeln!(
            row,
            r#"> {{"seq":{seq},"type":"request","command":"threads"}}"#
        )?;
        writeln!(row, "< busy seq {} to {seq} threads", seq.saturating_sub(1))?;
    }
    Ok(())
}

fn many_busy(alloc: Global) -> Result<String, AllocError> {
    let mut row = initialized(
        alloc,
        "row two of a thousand are kept\nlimits 8192 4194304 2 65536 4096 9007199254740991 2147483647\n",
    )?;
    row.push_str(
        r#"> {"seq":2,"type":"request","command":"threads"}
> {"seq":3,"type":"request","command":"threads"}
"#,
    )?;
    add_busy(&mut row, 1001)?;
    row.push_str(
        r#"kept 2
turn
< {"body":{"threads":[]},"command":"threads","request_seq":2,"seq":1001,"success":true,"type":"response"}
turn
< {"body":{"threads":[]},"command":"threads","request_seq":3,"seq":1002,"success":true,"type":"response"}
idle"#,
    )?;
    Ok(row)
}

/// Of a thousand requests two are kept, and 998 are `busy`, with the numbers 3 to 1000.
#[test]
fn a_thousand_requests_for_two_places(rt: HostRuntime) -> Result<(), Fail> {
    play(&rt, many_busy(rt.alloc()), usize::MAX)
}

/// The numbers from 1 on.
fn add_numbers(row: &mut String, last: u32) -> Result<(), AllocError> {
    row.push('1')?;
    for number in 2..=last {
        write!(row, ",{number}")?;
    }
    Ok(())
}

/// Breakpoints at these lines. The source has three.
fn add_breakpoints(row: &mut String, last: u32) -> Result<(), AllocError> {
    row.push_str(r#"{"id":1,"line":1,"verified":true}"#)?;
    for id in 2..=last {
        write!(row, r#",{{"id":{id},"line":{id},"verified":{}}}"#, id <= 3)?;
    }
    Ok(())
}

fn many_breakpoints(alloc: Global) -> Result<String, AllocError> {
    let mut row = initialized(alloc, "row many breakpoints\n")?;
    row.push_str(
        r#"> {"seq":2,"type":"request","command":"setBreakpoints","arguments":{"source":{"path":"/a.c"},"lines":["#,
    )?;
    add_numbers(&mut row, 4096)?;
    row.push_str("]}}\nturn\n< {\"body\":{\"breakpoints\":[")?;
    add_breakpoints(&mut row, 4096)?;
    row.push_str(
        r#"]},"command":"setBreakpoints","request_seq":2,"seq":3,"success":true,"type":"response"}
breakpoints 4096
> {"seq":3,"type":"request","command":"setBreakpoints","arguments":{"source":{"path":"/b.c"},"lines":[2]}}
turn
< tooManyBreakpoints seq 4 to 3 setBreakpoints
> {"seq":4,"type":"request","command":"setBreakpoints","arguments":{"source":{"path":"/a.c"},"lines":[2]}}
turn
< {"body":{"breakpoints":[{"id":4097,"line":2,"verified":true}]},"command":"setBreakpoints","request_seq":4,"seq":5,"success":true,"type":"response"}
breakpoints 1"#,
    )?;
    Ok(row)
}

/// As many breakpoints as may be are set at once, one more finds no room, and then all are replaced by one.
#[test]
fn many_breakpoints_are_set(rt: HostRuntime) -> Result<(), Fail> {
    play(&rt, many_breakpoints(rt.alloc()), usize::MAX)
}

/// What stands in a recording of one moment before its output and its frames.
const BEGINS: &str =
    r#"recording {"exit":0,"sources":[{"name":"a","text":"x\n"}],"moments":[{"thread":1,"output":""#;

const FRAMES: &str = r#"","threads":[{"id":1,"name":"t","frames":["#;

const ENDS: &str = "]}]}]}\n";

/// Appends the lines that initialize and start the debuggee.
fn add_start(row: &mut String) -> Result<(), AllocError> {
    row.push_str(INITIALIZES)?;
    row.push_str(
        r#"> {"seq":2,"type":"request","command":"configurationDone"}
turn
< {"command":"configurationDone","request_seq":2,"seq":3,"success":true,"type":"response"}
> {"seq":3,"type":"request","command":"launch"}
turn
< {"command":"launch","request_seq":3,"seq":4,"success":true,"type":"response"}
"#,
    )
}

/// Appends a poll that tells the stop at the entry.
fn add_entry(row: &mut String, seq: u32) -> Result<(), AllocError> {
    writeln!(
        row,
        "poll\n< {{\"body\":{{\"allThreadsStopped\":true,\"reason\":\"entry\",\"threadId\":1}},\"event\":\"stopped\",\"seq\":{seq},\"type\":\"event\"}}"
    )
}

/// Polls with the numbers from 5 on, each of which tells 128 letters.
fn add_outputs(alloc: Global, row: &mut String, count: u32) -> Result<(), AllocError> {
    for place in 0..count {
        row.push_str("poll\n< {\"body\":{\"category\":\"stdout\",\"output\":\"")?;
        add_many(alloc, row, b'a', 128)?;
        writeln!(
            row,
            r#""}},"event":"output","seq":{},"type":"event"}}"#,
            place.saturating_add(5)
        )?;
    }
    Ok(())
}

fn long_output(alloc: Global) -> Result<String, AllocError> {
    let mut row = String::from_str(alloc, "row a long output\n")?;
    row.push_str(BEGINS)?;
    add_many(alloc, &mut row, b'a', 61440)?;
    row.push_str(FRAMES)?;
    row.push_str(r#"{"name":"f","source":0,"line":1}"#)?;
    row.push_str(ENDS)?;
    add_start(&mut row)?;
    add_outputs(alloc, &mut row, 480)?;
    add_entry(&mut row, 485)?;
    Ok(row)
}

/// An output of 61440 bytes comes in 480 pieces, and then the stop.
#[test]
fn a_long_output(rt: HostRuntime) -> Result<(), Fail> {
    play(&rt, long_output(rt.alloc()), usize::MAX)
}

/// Variables of a recording, each with one of its own.
fn add_recorded_variables(row: &mut String, count: u32) -> Result<(), AllocError> {
    let mut comma = "";
    for place in 0..count {
        write!(
            row,
            r#"{comma}{{"name":"v","value":"{place}","variables":[{{"name":"w","value":"0"}}]}}"#
        )?;
        comma = ",";
    }
    Ok(())
}

/// The same variables as they are told, with the references from 3 on.
fn add_told_variables(row: &mut String, count: u32) -> Result<(), AllocError> {
    let mut comma = "";
    for place in 0..count {
        write!(
            row,
            r#"{comma}{{"name":"v","value":"{place}","variablesReference":{}}}"#,
            place.saturating_add(3)
        )?;
        comma = ",";
    }
    Ok(())
}

fn many_variables(alloc: Global) -> Result<String, AllocError> {
    let mut row = String::from_str(alloc, "row many variables\n")?;
    row.push_str(BEGINS)?;
    row.push_str(FRAMES)?;
    row.push_str(r#"{"name":"f","source":0,"line":1,"scopes":[{"name":"s","variables":["#)?;
    add_recorded_variables(&mut row, 1100)?;
    row.push_str("]}]}")?;
    row.push_str(ENDS)?;
    add_start(&mut row)?;
    add_entry(&mut row, 5)?;
    row.push_str(
        r#"> {"seq":4,"type":"request","command":"stackTrace","arguments":{"threadId":1}}
turn
< {"body":{"stackFrames":[{"column":1,"id":1,"line":1,"name":"f","source":{"name":"a","sourceReference":1}}],"totalFrames":1},"command":"stackTrace","request_seq":4,"seq":6,"success":true,"type":"response"}
> {"seq":5,"type":"request","command":"scopes","arguments":{"frameId":1}}
turn
< {"body":{"scopes":[{"expensive":false,"name":"s","variablesReference":2}]},"command":"scopes","request_seq":5,"seq":7,"success":true,"type":"response"}
> {"seq":6,"type":"request","command":"variables","arguments":{"variablesReference":2}}
turn
< {"body":{"variables":["#,
    )?;
    add_told_variables(&mut row, 1100)?;
    row.push_str(
        r#"]},"command":"variables","request_seq":6,"seq":8,"success":true,"type":"response"}
references 1102"#,
    )?;
    Ok(row)
}

/// 1100 variables of one scope each get a reference.
#[test]
fn many_variables_are_told(rt: HostRuntime) -> Result<(), Fail> {
    play(&rt, many_variables(rt.alloc()), usize::MAX)
}

/// So many scopes of a recording.
fn add_recorded_scopes(row: &mut String, count: u32) -> Result<(), AllocError> {
    row.push_str(r#"{"name":""}"#)?;
    for _ in 1..count {
        row.push_str(r#",{"name":""}"#)?;
    }
    Ok(())
}

/// The same scopes as they are told, with the references from 2 on.
fn add_told_scopes(row: &mut String, count: u32) -> Result<(), AllocError> {
    let mut comma = "";
    for place in 0..count {
        write!(
            row,
            r#"{comma}{{"expensive":false,"name":"","variablesReference":{}}}"#,
            place.saturating_add(2)
        )?;
        comma = ",";
    }
    Ok(())
}

fn many_references(alloc: Global) -> Result<String, AllocError> {
    let mut row = String::from_str(alloc, "row many references\n")?;
    row.push_str(BEGINS)?;
    row.push_str(FRAMES)?;
    row.push_str(r#"{"name":"f","source":0,"line":1,"scopes":["#)?;
    add_recorded_scopes(&mut row, 65535)?;
    row.push_str(r#"]},{"name":"g","source":0,"line":1}"#)?;
    row.push_str(ENDS)?;
    add_start(&mut row)?;
    add_entry(&mut row, 5)?;
    row.push_str(
        r#"> {"seq":4,"type":"request","command":"stackTrace","arguments":{"threadId":1,"levels":1}}
turn
< {"body":{"stackFrames":[{"column":1,"id":1,"line":1,"name":"f","source":{"name":"a","sourceReference":1}}],"totalFrames":2},"command":"stackTrace","request_seq":4,"seq":6,"success":true,"type":"response"}
> {"seq":5,"type":"request","command":"scopes","arguments":{"frameId":1}}
turn
< {"body":{"scopes":["#,
    )?;
    add_told_scopes(&mut row, 65535)?;
    row.push_str(
        r#"]},"command":"scopes","request_seq":5,"seq":7,"success":true,"type":"response"}
references 65536
> {"seq":6,"type":"request","command":"stackTrace","arguments":{"threadId":1,"startFrame":1}}
turn
< tooManyReferences seq 8 to 6 stackTrace
references 65536"#,
    )?;
    Ok(row)
}

/// As many references are given as may be live, and no 65537th.
#[test]
fn many_references_are_given(rt: HostRuntime) -> Result<(), Fail> {
    play(&rt, many_references(rt.alloc()), usize::MAX)
}
