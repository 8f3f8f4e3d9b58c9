//! A breakpoint that a debuggee puts at another line, with what is to be known of it, for clients that count from 1 and from 0.

use dap_adapter::Adapter;
use dap_command::SourceKey;
use dap_debuggee::Placement;
use dap_frame::Limits;
use dap_json::{List, More, Text};
use dap_live::{Ahead, Live, Mail, Placed};
use dap_recording::Sources;
use std::alloc::Global;
use std::test::Fail;
use test_kit::bodies::frame_of;

/// How a client counts lines; which line it asks for, and what is answered.
static ROWS: [(&str, &str, &str); 4] = [
    (
        "true",
        "1",
        r#"{"id":1,"line":3,"message":"Moved.","verified":true}"#,
    ),
    (
        "false",
        "0",
        r#"{"id":1,"line":2,"message":"Moved.","verified":true}"#,
    ),
    // Of other lines nothing is said, and no source has them.
    ("true", "2", r#"{"id":1,"line":2,"verified":false}"#),
    ("false", "1", r#"{"id":1,"line":1,"verified":false}"#),
];

/// That the breakpoint which is asked for at the first line of `/a.c` is at the third.
fn moved(alloc: Global) -> Option<Placed> {
    let placement = Placement {
        verified: true,
        line: 3,
        message: Some(Text::copied(alloc, "Moved.").ok()?),
        more: More::none(),
    };
    let mut placements = Vec::new(alloc);
    placements.push(placement).ok()?;
    let mut lines = Vec::new(alloc);
    lines.push(1).ok()?;
    Some(Placed {
        source: SourceKey::Path(Text::copied(alloc, "/a.c").ok()?),
        lines: List::new(lines),
        placements: List::new(placements),
    })
}

/// The mail that says so.
fn mail(alloc: Global) -> Option<Mail> {
    let placed = moved(alloc)?;
    let mut mail = Mail::new(alloc);
    mail.prepare(Ahead {
        placed: Some(placed),
        refusal: None,
    });
    Some(mail)
}

fn joined(alloc: Global, parts: &[&str]) -> Option<String> {
    let mut text = String::new(alloc);
    for part in parts {
        text.push_str(part).ok()?;
    }
    Some(text)
}

/// What is answered to a message.
fn answer(alloc: Global, adapter: &mut Adapter<Live>, parts: &[&str]) -> Option<Vec<u8>> {
    let body = joined(alloc, parts)?;
    let mut out = Vec::new(alloc);
    adapter
        .answer_body(alloc, body.as_str().as_bytes(), &mut out)
        .ok()?;
    Some(out)
}

/// The frame of the answer that has this breakpoint.
fn wanted(alloc: Global, breakpoint: &str) -> Option<Vec<u8>> {
    let front = r#"{"body":{"breakpoints":["#;
    let back =
        r#"]},"command":"setBreakpoints","request_seq":2,"seq":3,"success":true,"type":"response"}"#;
    let body = joined(alloc, &[front, breakpoint, back])?;
    frame_of(alloc, body.as_str()).ok()
}

/// What a client that counts so is answered where it asks for a line.
fn told(alloc: Global, adapter: &mut Adapter<Live>, from_one: &str, line: &str) -> Option<Vec<u8>> {
    let front =
        r#"{"seq":1,"type":"request","command":"initialize","arguments":{"adapterID":"a","linesStartAt1":"#;
    answer(alloc, adapter, &[front, from_one, "}}"])?;
    let front =
        r#"{"seq":2,"type":"request","command":"setBreakpoints","arguments":{"source":{"path":"/a.c"},"breakpoints":[{"line":"#;
    answer(alloc, adapter, &[front, line, "}]}}"])
}

/// Whether a row is so.
fn is_so(alloc: Global, row: (&str, &str, &str)) -> Option<bool> {
    let (from_one, line, breakpoint) = row;
    let sources = Sources::new(alloc, Vec::new(alloc)).ok()?;
    let mail = mail(alloc)?;
    let wanted = wanted(alloc, breakpoint)?;
    let mut adapter = Adapter::open(alloc, Limits::usual(), Live::open(alloc, sources)).ok()?;
    drop(adapter.exchange(mail));
    let told = told(alloc, &mut adapter, from_one, line);
    // The proof of a call is shorter than that of a value that goes out of scope.
    drop(adapter);
    Some(told? == wanted)
}

#[test]
fn a_breakpoint_is_told_where_it_is(rt: HostRuntime) -> Result<(), Fail> {
    for row in &ROWS {
        assert!(rt; is_so(rt.alloc(), *row) == Some(true));
    }
    Ok(())
}
