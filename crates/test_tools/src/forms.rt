//! `list` in each form, also behind a body that is refused, and `unwrap`.

use crate::serving::frames_of;
use crate::told::expect_none;
use dap_envelope::BodyRefusal;
use dap_frame::{End, Limits};
use dap_tool::{Form, ShowFault, Shown, Style, list, unwrap, wrap};
use std::alloc::Global;
use std::test::Fail;

/// A request, a body that is no message, a message with line feeds between its tokens, and a response that says why a request
/// failed: their frames begin at 0, 68, 91 and 135.
static FOUR: [&[u8]; 4] = [
    br#"{"seq":1,"type":"request","command":"threads"}"#,
    b"{}",
    b"{\"seq\":3,\r\n\"type\":\"x\"}",
    br#"{"seq":4,"type":"response","request_seq":1,"success":false,"command":"next","message":"m"}"#,
];

/// A form, whether the listing keeps going, how it ends, and its lines.
type Listed<'a> = (Form, bool, Result<Shown, ShowFault>, &'a [u8]);

/// The end of a listing that went on.
const WENT_ON: Result<Shown, ShowFault> = Ok(Shown {
    end: End::Clean,
    refused: true,
});

/// The end of one that did not.
const STOPPED: Result<Shown, ShowFault> = Err(ShowFault::Body {
    cause: BodyRefusal::BadSeq,
    offset: 68,
    body_offset: 89,
    body_length: 2,
});

static LISTED: [Listed<'static>; 8] = [
    (Form::Line, false, STOPPED, b"0 1 request threads\n"),
    (
        Form::Line,
        true,
        WENT_ON,
        b"0 1 request threads\n68 refused BadSeq\n91 3 other x\n135 4 response next 1 failed\n",
    ),
    (Form::Reasons, false, STOPPED, b"0 1 request threads\n"),
    (
        Form::Reasons,
        true,
        WENT_ON,
        b"0 1 request threads\n68 refused BadSeq\n91 3 other x\n135 4 response next 1 failed m\n",
    ),
    (
        Form::Object,
        false,
        STOPPED,
        b"{\"offset\":0,\"bytes\":46,\"message\":{\"seq\":1,\"type\":\"request\",\"command\":\"threads\"}}\n",
    ),
    (
        Form::Object,
        true,
        WENT_ON,
        b"{\"offset\":0,\"bytes\":46,\"message\":{\"seq\":1,\"type\":\"request\",\"command\":\"threads\"}}\n{\"offset\":68,\"bytes\":2,\"refused\":\"BadSeq\"}\n{\"offset\":91,\"bytes\":22,\"message\":{\"seq\":3,\"type\":\"x\"}}\n{\"offset\":135,\"bytes\":90,\"message\":{\"seq\":4,\"type\":\"response\",\"request_seq\":1,\"success\":false,\"command\":\"next\",\"message\":\"m\"}}\n",
    ),
    (
        Form::Body,
        false,
        STOPPED,
        b"{\"seq\":1,\"type\":\"request\",\"command\":\"threads\"}\n",
    ),
    (
        Form::Body,
        true,
        WENT_ON,
        b"{\"seq\":1,\"type\":\"request\",\"command\":\"threads\"}\n{\"seq\":3,\"type\":\"x\"}\n{\"seq\":4,\"type\":\"response\",\"request_seq\":1,\"success\":false,\"command\":\"next\",\"message\":\"m\"}\n",
    ),
];

/// Whether a stream is listed as a row says.
fn is_listed(alloc: Global, input: &[u8], row: &Listed<'_>) -> bool {
    let (form, keeps_going, end, lines) = *row;
    let mut listing = Vec::new(alloc);
    let style = Style { form, keeps_going };
    let told = list(alloc, input, Limits::usual(), style, &mut listing);
    told == end && listing.as_slice() == lines
}

fn other_form(alloc: Global) -> Option<usize> {
    let Some(input) = frames_of(alloc, &FOUR) else {
        return Some(LISTED.len());
    };
    for (place, row) in LISTED.iter().enumerate() {
        if !is_listed(alloc, &input, row) {
            return Some(place);
        }
    }
    None
}

/// Each form, up to a body that is refused and behind it.
#[test]
fn each_form_has_its_lines(rt: HostRuntime) -> Result<(), Fail> {
    expect_none(&rt, other_form(rt.alloc()))
}

/// Bodies, and what they are on one line.
static UNWRAPPED: [(&[u8], &[u8]); 5] = [
    (br#"{"seq":3,"type":"x"}"#, b"{\"seq\":3,\"type\":\"x\"}\n"),
    (
        b"\r\n{\n\"seq\":3,\r\"type\":\"x\"\n}\r\n",
        b"{\"seq\":3,\"type\":\"x\"}\n",
    ),
    // of what indents a member the blanks stay
    (
        b"{\n\t \"seq\": 3,\n\t \"type\": \"x\"\n}",
        b"{\t \"seq\": 3,\t \"type\": \"x\"}\n",
    ),
    // so do escapes, digits and equal keys
    (
        br#" {"seq":3,"type":"\u0078","a":"\n\/","a":[1.0,1e2]} "#,
        b" {\"seq\":3,\"type\":\"\\u0078\",\"a\":\"\\n\\/\",\"a\":[1.0,1e2]} \n",
    ),
    (
        b"{\"seq\":3,\"type\":\"\xc3\xa9\"}",
        b"{\"seq\":3,\"type\":\"\xc3\xa9\"}\n",
    ),
];

/// Whether a stream is unwrapped to this line, and the line framed again.
fn is_unwrapped(alloc: Global, input: &[u8], line: &[u8]) -> bool {
    let mut lines = Vec::new(alloc);
    if unwrap(alloc, input, Limits::usual(), &mut lines) != Ok(End::Clean) {
        return false;
    }
    let (body, _) = line.split_at(line.len().saturating_sub(1));
    match (
        wrap(alloc, &lines, Limits::usual()),
        frames_of(alloc, &[body]),
    ) {
        (Ok(frames), Some(wanted)) => {
            lines.as_slice() == line && frames.as_slice() == wanted.as_slice()
        }
        _ => false,
    }
}

fn is_line_of(alloc: Global, body: &[u8], line: &[u8]) -> bool {
    match frames_of(alloc, &[body]) {
        Some(input) => is_unwrapped(alloc, &input, line),
        None => false,
    }
}

fn other_line(alloc: Global) -> Option<usize> {
    for (place, (body, line)) in UNWRAPPED.iter().enumerate() {
        if !is_line_of(alloc, body, line) {
            return Some(place);
        }
    }
    None
}

/// A body is a line without its line feeds, which `wrap` frames.
#[test]
fn bodies_are_lines(rt: HostRuntime) -> Result<(), Fail> {
    expect_none(&rt, other_line(rt.alloc()))
}
