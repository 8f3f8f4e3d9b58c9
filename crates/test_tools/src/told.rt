//! Faults of tools: the status and the line of each, and what a person reads.

use dap_adapter::{AdapterFault, ServeFault};
use dap_envelope::BodyRefusal;
use dap_frame::{FrameFault, Refusal};
use dap_recording::RecordingFault;
use dap_replay::Recorded;
use dap_tool::{
    CheckFault, DriveFault, FileFault, OpenFault, SendFault, ShowFault, ToolFault, WrapFault,
    explanation, fault_line, status,
};
use std::alloc::Global;
use std::test::Fail;

/// Fails the test where there is a row, a size or a count that goes otherwise.
pub(crate) fn expect_none(rt: &HostRuntime, other: Option<usize>) -> Result<(), Fail> {
    match other {
        None => Ok(()),
        Some(place) => {
            eprintln!(rt; "{place} differs")?;
            Err(Fail::from("something differs"))
        }
    }
}

/// Whether a fault has this status and this line.
pub(crate) fn is_told(alloc: Global, fault: &ToolFault, wanted: u8, line: &[u8]) -> bool {
    match fault_line(alloc, fault) {
        Ok(told) => status(fault) == wanted && told.as_slice() == line,
        Err(_) => false,
    }
}

/// A fault, its status and its line.
type Row = (ToolFault, u8, &'static [u8]);

/// The place of the first row that is told otherwise.
fn other_told(alloc: Global, rows: &[Row]) -> Option<usize> {
    for (place, (fault, wanted, line)) in rows.iter().enumerate() {
        if !is_told(alloc, fault, *wanted, line) {
            return Some(place);
        }
    }
    None
}

static NAMED: [Row; 10] = [
    (ToolFault::Serve(ServeFault::Read), 5, b"dap: Read\n"),
    (
        ToolFault::Serve(ServeFault::Write { written: 0 }),
        5,
        b"dap: Write\n",
    ),
    (
        ToolFault::Serve(ServeFault::Write { written: 7 }),
        5,
        b"dap: Write\n",
    ),
    (
        ToolFault::Serve(ServeFault::TooManyReads),
        5,
        b"dap: TooManyReads\n",
    ),
    (
        ToolFault::Serve(ServeFault::OutOfMemory),
        6,
        b"dap: OutOfMemory\n",
    ),
    (
        ToolFault::Serve(ServeFault::Adapter(AdapterFault::RepeatedSeq { seq: 1 })),
        3,
        b"dap: RepeatedSeq\n",
    ),
    (
        ToolFault::Serve(ServeFault::Adapter(AdapterFault::Unmatched { request_seq: 1 })),
        3,
        b"dap: Unmatched\n",
    ),
    (
        ToolFault::Serve(ServeFault::Adapter(AdapterFault::CommandMismatch { request_seq: 1 })),
        3,
        b"dap: CommandMismatch\n",
    ),
    (
        ToolFault::Serve(ServeFault::Adapter(AdapterFault::Ended)),
        3,
        b"dap: Ended\n",
    ),
    (
        ToolFault::Serve(ServeFault::Adapter(AdapterFault::SeqExhausted)),
        3,
        b"dap: SeqExhausted\n",
    ),
];

/// The status and the line of each fault of a session that is told by its name alone.
#[test]
fn named_faults(rt: HostRuntime) -> Result<(), Fail> {
    expect_none(&rt, other_told(rt.alloc(), &NAMED))
}

/// The status and the line of a stream that ends within a frame.
#[test]
fn a_truncated_stream(rt: HostRuntime) {
    assert!(rt; is_told(rt.alloc(), &ToolFault::Truncated, 4, b"dap: Truncated\n"));
}

static RECORDINGS: [(&[u8], &[u8]); 3] = [
    (b"{", b"dap: NotJson\n"),
    (b"[]", b"dap: NotObject\n"),
    (br#"{"exit":0,"sources":[],"moments":[]}"#, b"dap: BadKey\n"),
];

/// Whether bytes are no recording, and that is told with this line.
fn is_refused(alloc: Global, bytes: &[u8], line: &[u8]) -> bool {
    match Recorded::read(alloc, bytes) {
        Ok(recorded) => {
            drop(recorded);
            false
        }
        Err(fault) => is_told(alloc, &ToolFault::Recording(fault), 3, line),
    }
}

fn other_recording(alloc: Global) -> Option<usize> {
    for (place, (bytes, line)) in RECORDINGS.iter().enumerate() {
        if !is_refused(alloc, bytes, line) {
            return Some(place);
        }
    }
    None
}

/// Likewise of a file that is no recording.
#[test]
fn refused_recordings(rt: HostRuntime) -> Result<(), Fail> {
    expect_none(&rt, other_recording(rt.alloc()))
}

static TOLD: [Row; 10] = [
    (
        ToolFault::Wrap(WrapFault::Body {
            cause: BodyRefusal::BadSeq,
            line: 1,
        }),
        3,
        b"dap: BadSeq at line 1\n",
    ),
    (
        ToolFault::Wrap(WrapFault::BodyTooLong { line: 1000 }),
        3,
        b"dap: BodyTooLong at line 1000\n",
    ),
    (
        ToolFault::Wrap(WrapFault::OutOfMemory),
        6,
        b"dap: OutOfMemory\n",
    ),
    (ToolFault::File(FileFault::Read), 5, b"dap: Read\n"),
    (
        ToolFault::File(FileFault::FileTooLong),
        3,
        b"dap: FileTooLong\n",
    ),
    (
        ToolFault::File(FileFault::OutOfMemory),
        6,
        b"dap: OutOfMemory\n",
    ),
    (
        ToolFault::Show(ShowFault::OutOfMemory),
        6,
        b"dap: OutOfMemory\n",
    ),
    (ToolFault::Write, 5, b"dap: Write\n"),
    (ToolFault::OutOfMemory, 6, b"dap: OutOfMemory\n"),
    (ToolFault::Truncated, 4, b"dap: Truncated\n"),
];

/// The other faults of tools, with their statuses and lines.
#[test]
fn faults_of_tools(rt: HostRuntime) -> Result<(), Fail> {
    expect_none(&rt, other_told(rt.alloc(), &TOLD))
}

/// A fault, what was read of the input, and the line that explains it.
type Explained = (ToolFault, &'static [u8], &'static [u8]);

static EXPLAINED: [Explained; 17] = [
    (
        ToolFault::Open(OpenFault::NotFound),
        b"",
        b"a?b: no such file\n",
    ),
    (
        ToolFault::Open(OpenFault::PermissionDenied),
        b"",
        b"a?b: permission denied\n",
    ),
    (
        ToolFault::File(FileFault::FileTooLong),
        b"",
        b"a?b: longer than 67108864 bytes\n",
    ),
    (
        ToolFault::Recording(RecordingFault::NotJson),
        b"{",
        b"a?b: no JSON\n",
    ),
    (
        ToolFault::Recording(RecordingFault::NotObject),
        b"[]",
        b"a?b: an array, not an object\n",
    ),
    (
        ToolFault::Recording(RecordingFault::OutOfMemory),
        b"{}",
        b"a?b: memory was refused\n",
    ),
    (
        ToolFault::Drive(DriveFault::Recording),
        br#"{"exit":0,"sources":[{}]}"#,
        b"a?b: sources[0].name: absent\n",
    ),
    (
        ToolFault::Show(ShowFault::Frame(FrameFault {
            cause: Refusal::BadHeader,
            offset: 3,
        })),
        b"abcContent-Length 12\r\n\r\n{}",
        b"a?b: at 3: \"Content-Length 12\"\n",
    ),
    (
        ToolFault::Show(ShowFault::Body {
            cause: BodyRefusal::NotObject,
            offset: 0,
            body_offset: 21,
            body_length: 2,
        }),
        b"Content-Length: 2\r\n\r\n[]Content",
        b"a?b: at 0: \"[]\"\n",
    ),
    (
        ToolFault::Wrap(WrapFault::BodyTooLong { line: 2 }),
        b"{}\n\t\x00\\\"\n",
        b"a?b: line 2: \"\\t\\x00\\\\\\\"\"\n",
    ),
    (
        ToolFault::Check(CheckFault::BadLine { line: 1 }),
        b"=\r\n",
        b"a?b: line 1: \"=\"\n",
    ),
    (
        ToolFault::Drive(DriveFault::Send {
            line: 2,
            cause: SendFault::NotStopped,
        }),
        b"run\nsend threads",
        b"a?b: line 2: \"send threads\": the debuggee is not stopped\n",
    ),
    (
        ToolFault::Serve(ServeFault::Write { written: 7 }),
        b"",
        b"a?b: cannot be written, after 7 bytes\n",
    ),
    (
        ToolFault::Serve(ServeFault::Adapter(AdapterFault::Body {
            cause: BodyRefusal::NotJson,
            offset: 68,
        })),
        b"",
        b"a?b: at 68: the body is no JSON\n",
    ),
    (
        ToolFault::Serve(ServeFault::Adapter(AdapterFault::RepeatedSeq { seq: 4 })),
        b"",
        b"a?b: request 4 again, while request 4 has no response\n",
    ),
    (ToolFault::Truncated, b"", b"a?b: ends within a frame\n"),
    (ToolFault::OutOfMemory, b"", b"a?b: memory was refused\n"),
];

fn is_explained(alloc: Global, fault: &ToolFault, bytes: &[u8], line: &[u8]) -> bool {
    match explanation(alloc, "a\nb", bytes, fault) {
        Ok(told) => told.as_slice() == line,
        Err(_) => false,
    }
}

fn other_explained(alloc: Global) -> Option<usize> {
    for (place, (fault, bytes, line)) in EXPLAINED.iter().enumerate() {
        if !is_explained(alloc, fault, bytes, line) {
            return Some(place);
        }
    }
    None
}

/// The line that explains a fault, with the name of a file of three characters.
#[test]
fn explained_faults(rt: HostRuntime) -> Result<(), Fail> {
    expect_none(&rt, other_explained(rt.alloc()))
}

static IN_WORDS: [(ToolFault, &str); 24] = [
    (
        ToolFault::Serve(ServeFault::Read),
        "the session is broken off",
    ),
    (
        ToolFault::Recording(RecordingFault::NotJson),
        "the recording is refused",
    ),
    (
        ToolFault::Show(ShowFault::Frame(FrameFault {
            cause: Refusal::NoLength,
            offset: 103,
        })),
        "a frame is refused at byte 103",
    ),
    (
        ToolFault::Show(ShowFault::Body {
            cause: BodyRefusal::BadSeq,
            offset: 68,
            body_offset: 89,
            body_length: 2,
        }),
        "the body of the frame at byte 68 is refused",
    ),
    (
        ToolFault::Show(ShowFault::OutOfMemory),
        "memory is exhausted",
    ),
    (
        ToolFault::Wrap(WrapFault::Body {
            cause: BodyRefusal::BadSeq,
            line: 3,
        }),
        "line 3 is no message",
    ),
    (
        ToolFault::Wrap(WrapFault::BodyTooLong { line: 9 }),
        "line 9 is longer than a body may be",
    ),
    (
        ToolFault::Wrap(WrapFault::OutOfMemory),
        "memory is exhausted",
    ),
    (ToolFault::File(FileFault::Read), "the file cannot be read"),
    (
        ToolFault::File(FileFault::FileTooLong),
        "the file is too long",
    ),
    (
        ToolFault::File(FileFault::OutOfMemory),
        "memory is exhausted",
    ),
    (
        ToolFault::Check(CheckFault::BadLine { line: 7 }),
        "line 7 is of neither side",
    ),
    (
        ToolFault::Check(CheckFault::Body {
            line: 8,
            cause: BodyRefusal::NotJson,
        }),
        "line 8 is no message",
    ),
    (
        ToolFault::Check(CheckFault::OutOfMemory),
        "memory is exhausted",
    ),
    (
        ToolFault::Drive(DriveFault::Recording),
        "the recording is refused",
    ),
    (
        ToolFault::Drive(DriveFault::Script { line: 2 }),
        "line 2 is no order",
    ),
    (
        ToolFault::Drive(DriveFault::Call { line: 3 }),
        "line 3 has arguments that are refused, or nothing to answer",
    ),
    (
        ToolFault::Drive(DriveFault::Send {
            line: 4,
            cause: SendFault::WrongPhase,
        }),
        "line 4 is not sent",
    ),
    (
        ToolFault::Drive(DriveFault::Adapter),
        "the adapter is closed",
    ),
    (
        ToolFault::Drive(DriveFault::Client),
        "the client is closed, or has no number left",
    ),
    (
        ToolFault::Drive(DriveFault::OutOfMemory),
        "memory is exhausted",
    ),
    (ToolFault::Truncated, "the input ends within a frame"),
    (ToolFault::Write, "the output failed"),
    (ToolFault::OutOfMemory, "memory is exhausted"),
];

fn is_in_words(alloc: Global, fault: ToolFault, words: &str) -> bool {
    match format!(in alloc; "{fault}") {
        Ok(text) => text.as_str() == words,
        Err(_) => false,
    }
}

fn other_words(alloc: Global) -> Option<usize> {
    for (place, (fault, words)) in IN_WORDS.iter().enumerate() {
        if !is_in_words(alloc, *fault, words) {
            return Some(place);
        }
    }
    None
}

/// What a person reads of each fault.
#[test]
fn faults_in_words(rt: HostRuntime) -> Result<(), Fail> {
    expect_none(&rt, other_words(rt.alloc()))
}
