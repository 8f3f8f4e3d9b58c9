//! Frames, and files of them, in and out.

use crate::outcomes::{both, judge, refused};
use dap_adapter::{AdapterFault, ServeFault};
use dap_channel::Input;
use dap_envelope::BodyRefusal;
use dap_frame::{Fed, Frames, Limits, write_frame};
use dap_tool::{
    FileFault, Form, ShowFault, Style, ToolFault, WrapFault, fault_line, list, read_whole, show,
    wrap,
};
use std::alloc::Global;
use std::io;
use std::io::Read;
use std::test::Fail;

static INPUT: &[u8; 171] =
    b"Content-Length: 81\r\n\r\n{\"seq\":1,\"type\":\"request\",\"command\":\"initialize\",\"arguments\":{\"adapterID\":\"rec\"}}Content-Length: 46\r\n\r\n{\"seq\":1,\"type\":\"request\",\"command\":\"threads\"}";

/// Gives its bytes at once.
#[derive(Drop)]
pub(crate) struct Whole<'a> {
    pub(crate) rest: &'a [u8],
}

impl Read for Whole<'_> {
    fn read(&mut self, buf: &mut [u8]) -> io::Result<usize> {
        let n = self.rest.len().min(buf.len());
        let (given, rest) = self.rest.split_at(n);
        buf[..n].copy_from_slice(given);
        self.rest = rest;
        Ok(n)
    }
}

/// Whether the first frame is read.
fn feeds(frames: &mut Frames) -> bool {
    let wanted = Fed {
        used: 103,
        ready: true,
    };
    frames.feed(INPUT) == Ok(wanted) && frames.held() == 81
}

fn frames_input(alloc: Global) -> Option<bool> {
    match Frames::open(alloc, &Limits::usual()) {
        Ok(mut frames) => {
            let is_fed = feeds(&mut frames);
            drop(frames);
            Some(is_fed)
        }
        Err(_) => None,
    }
}

/// Once there is a reader, it takes no memory: a frame is read whatever is refused.
#[test]
fn framing(rt: HostRuntime) -> Result<(), Fail> {
    judge(&rt, frames_input(rt.alloc()))
}

fn appends(out: &mut Vec<u8>, body: &[u8]) -> Option<bool> {
    let before = out.len();
    match write_frame(out, body) {
        Ok(()) => Some(out.ends_with(body)),
        Err(_) => refused(out.len() == before),
    }
}

fn appends_two(alloc: Global) -> Option<bool> {
    let mut out = Vec::new(alloc);
    let first = appends(&mut out, b"{}");
    both(first, appends(&mut out, b"[0,1,2,3,4,5,6,7,8,9]"))
}

/// A frame is appended whole, or nothing is.
#[test]
fn writing_a_frame(rt: HostRuntime) -> Result<(), Fail> {
    judge(&rt, appends_two(rt.alloc()))
}

fn lists(alloc: Global) -> Option<bool> {
    let lines = b"0 1 request initialize\n103 1 request threads\n".as_slice();
    let mut out = Vec::new(alloc);
    match show(alloc, INPUT, Limits::usual(), &mut out) {
        Ok(_) => Some(out.as_slice() == lines),
        Err(ShowFault::OutOfMemory) => {
            let is_whole = out.is_empty() || out.ends_with(b"\n");
            refused(lines.starts_with(&out) && is_whole)
        }
        Err(_) => Some(false),
    }
}

/// Two messages are listed, or some whole lines in front of theirs.
#[test]
fn listing(rt: HostRuntime) -> Result<(), Fail> {
    judge(&rt, lists(rt.alloc()))
}

fn lists_in(alloc: Global, form: Form, lines: &[u8]) -> Option<bool> {
    let style = Style {
        form,
        keeps_going: true,
    };
    let mut out = Vec::new(alloc);
    match list(alloc, INPUT, Limits::usual(), style, &mut out) {
        Ok(_) => Some(out.as_slice() == lines),
        Err(ShowFault::OutOfMemory) => {
            let is_whole = out.is_empty() || out.ends_with(b"\n");
            refused(lines.starts_with(&out) && is_whole)
        }
        Err(_) => Some(false),
    }
}

/// The bodies of `INPUT` as objects.
static OBJECTS: &[u8; 199] =
    b"{\"offset\":0,\"bytes\":81,\"message\":{\"seq\":1,\"type\":\"request\",\"command\":\"initialize\",\"arguments\":{\"adapterID\":\"rec\"}}}\n{\"offset\":103,\"bytes\":46,\"message\":{\"seq\":1,\"type\":\"request\",\"command\":\"threads\"}}\n";

/// The same as lines.
static BODIES: &[u8; 129] =
    b"{\"seq\":1,\"type\":\"request\",\"command\":\"initialize\",\"arguments\":{\"adapterID\":\"rec\"}}\n{\"seq\":1,\"type\":\"request\",\"command\":\"threads\"}\n";

/// Two messages are listed in each other form, or some whole lines in front of theirs.
#[test]
fn other_listings(rt: HostRuntime) -> Result<(), Fail> {
    let first = lists_in(rt.alloc(), Form::Object, OBJECTS);
    judge(&rt, both(first, lists_in(rt.alloc(), Form::Body, BODIES)))
}

fn reads_whole(alloc: Global, expected: u64) -> Option<bool> {
    let reader = Whole { rest: INPUT };
    match read_whole(alloc, &mut Input { reader }, expected) {
        Ok(bytes) => Some(bytes.as_slice() == INPUT.as_slice()),
        Err(fault) => refused(fault == FileFault::OutOfMemory),
    }
}

/// A file is read whole, or not at all, whatever size was expected.
#[test]
fn reading_a_file(rt: HostRuntime) -> Result<(), Fail> {
    let first = reads_whole(rt.alloc(), 0);
    judge(&rt, both(first, reads_whole(rt.alloc(), 1000)))
}

fn tells_fault(alloc: Global) -> Option<bool> {
    let fault = ServeFault::Adapter(AdapterFault::Body {
        cause: BodyRefusal::BadSeq,
        offset: 103,
    });
    match fault_line(alloc, &ToolFault::Serve(fault)) {
        Ok(line) => Some(line.as_slice() == b"dap: BadSeq at 103\n".as_slice()),
        Err(_) => None,
    }
}

/// A fault's line, or none.
#[test]
fn telling_a_fault(rt: HostRuntime) -> Result<(), Fail> {
    judge(&rt, tells_fault(rt.alloc()))
}

/// The bodies of `INPUT`, one a line.
static FILE: &[u8; 130] =
    b"{\"seq\":1,\"type\":\"request\",\"command\":\"initialize\",\"arguments\":{\"adapterID\":\"rec\"}}\n\r\n{\"seq\":1,\"type\":\"request\",\"command\":\"threads\"}";

static THREADS: &[u8; 47] = b"{\"seq\":1,\"type\":\"request\",\"command\":\"threads\"}\n";

static THREADS_FRAME: &[u8; 68] =
    b"Content-Length: 46\r\n\r\n{\"seq\":1,\"type\":\"request\",\"command\":\"threads\"}";

/// Whether a file is framed so, or refused.
fn wraps(alloc: Global, file: &[u8], wanted: Result<&[u8], WrapFault>) -> Option<bool> {
    match (wrap(alloc, file, Limits::usual()), wanted) {
        (Ok(frames), wanted) => Some(wanted == Ok(frames.as_slice())),
        (Err(WrapFault::OutOfMemory), _) => None,
        (Err(fault), wanted) => Some(wanted == Err(fault)),
    }
}

fn wraps_all(alloc: Global) -> Option<bool> {
    let no_message = WrapFault::Body {
        cause: BodyRefusal::BadSeq,
        line: 1,
    };
    let first = wraps(alloc, FILE, Ok(INPUT));
    let second = both(first, wraps(alloc, THREADS, Ok(THREADS_FRAME)));
    both(second, wraps(alloc, b"{}", Err(no_message)))
}

/// The bodies of a file are framed, or none is.
#[test]
fn wrapping(rt: HostRuntime) -> Result<(), Fail> {
    judge(&rt, wraps_all(rt.alloc()))
}
