//! Calls and capabilities that are read and written, or want of memory.

use crate::outcomes::{both, judge, refused};
use dap_call::{Call, CallFault, read_call, read_terminal, write_call, write_terminal};
use dap_command::{Capabilities, Command, SourceKey};
use dap_json::{ParseFault, parse, write};
use serde_json::Value;
use std::alloc::Global;
use std::test::Fail;

/// Whether a tree is written as this text.
fn writes(alloc: Global, tree: &Value, text: &[u8]) -> Option<bool> {
    match write(alloc, tree) {
        Ok(written) => Some(written.as_slice() == text),
        Err(_) => None,
    }
}

/// Whether a tree that is handed over is.
pub(crate) fn is_written(alloc: Global, tree: Value, text: &[u8]) -> Option<bool> {
    let outcome = writes(alloc, &tree, text);
    // The proof of a call is shorter than that of a value that goes out of scope.
    drop(tree);
    outcome
}

fn has_lines(call: &Call) -> bool {
    match call {
        Call::SetBreakpoints {
            source: SourceKey::Path(path),
            lines,
        } => path.as_str() == "/a.c" && lines.as_slice() == [2, 9].as_slice(),
        _ => false,
    }
}

fn has_names(call: &Call) -> bool {
    match call {
        Call::SetFunctionBreakpoints { names } => match names.as_slice() {
            [first, second] => first.as_str() == "main" && second.as_str() == "f",
            _ => false,
        },
        _ => false,
    }
}

/// Whether a call has the arguments of this text, as the first three tests have them.
fn has(alloc: Global, call: &Call, command: Command, text: &[u8]) -> Option<bool> {
    match command {
        Command::SetBreakpoints => Some(has_lines(call)),
        Command::SetFunctionBreakpoints => Some(has_names(call)),
        _ => match call {
            Call::Launch(Some(tree)) => writes(alloc, tree.value(), text),
            _ => Some(false),
        },
    }
}

/// Whether a call is plain, and its arguments are written as this text.
fn writes_call(alloc: Global, call: &Call, text: &[u8]) -> Option<bool> {
    if !call.plain() {
        return Some(false);
    }
    match write_call(alloc, call) {
        Ok(Some(object)) => is_written(alloc, object, text),
        Ok(None) => Some(false),
        Err(_) => None,
    }
}

/// What is done with the tree of a text.
#[derive(Clone, Copy)]
enum Deed {
    /// It is read as a call of this command, and once more.
    ReadTwice(Command),
    /// It is read as a call of this command, which is written.
    ReadAndWrite(Command),
    /// It is read as what an adapter asks of a terminal, which is written, and once more.
    AskTwice,
    /// It is read as capabilities, which are written, and once more.
    WriteTwice,
}

fn reads(alloc: Global, arguments: &Value, command: Command, text: &[u8]) -> Option<bool> {
    match read_call(alloc, command, Some(arguments)) {
        Ok(call) => {
            let outcome = has(alloc, &call, command, text);
            drop(call);
            outcome
        }
        Err(fault) => refused(fault == CallFault::OutOfMemory),
    }
}

fn reads_and_writes(
    alloc: Global,
    arguments: &Value,
    command: Command,
    text: &[u8],
) -> Option<bool> {
    match read_call(alloc, command, Some(arguments)) {
        Ok(call) => {
            let outcome = writes_call(alloc, &call, text);
            drop(call);
            outcome
        }
        Err(fault) => refused(fault == CallFault::OutOfMemory),
    }
}

/// Whether what an adapter asks of a terminal is read, and written again as this text.
fn asks(alloc: Global, arguments: &Value, text: &[u8]) -> Option<bool> {
    match read_terminal(alloc, Some(arguments)) {
        Ok(call) => {
            let outcome = match write_terminal(alloc, &call) {
                Ok(object) => is_written(alloc, object, text),
                Err(_) => None,
            };
            drop(call);
            outcome
        }
        Err(fault) => refused(fault == CallFault::OutOfMemory),
    }
}

fn writes_flags(alloc: Global, offered: &Capabilities, text: &[u8]) -> Option<bool> {
    match offered.write(alloc) {
        Ok(object) => is_written(alloc, object, text),
        Err(_) => None,
    }
}

fn does(alloc: Global, deed: Deed, tree: &Value, text: &[u8]) -> Option<bool> {
    match deed {
        Deed::ReadTwice(command) => {
            let first = reads(alloc, tree, command, text);
            both(first, reads(alloc, tree, command, text))
        }
        Deed::ReadAndWrite(command) => reads_and_writes(alloc, tree, command, text),
        Deed::AskTwice => {
            let first = asks(alloc, tree, text);
            both(first, asks(alloc, tree, text))
        }
        Deed::WriteTwice => {
            let offered = Capabilities::read(Some(tree));
            let first = writes_flags(alloc, &offered, text);
            both(first, writes_flags(alloc, &offered, text))
        }
    }
}

/// Whether a deed with a text comes to that text.
fn is_done(alloc: Global, deed: Deed, text: &[u8]) -> Option<bool> {
    match parse(alloc, text) {
        Ok(tree) => {
            let outcome = does(alloc, deed, &tree, text);
            drop(tree);
            outcome
        }
        Err(fault) => refused(fault == ParseFault::OutOfMemory),
    }
}

const LINES: &[u8; 64] = br#"{"breakpoints":[{"line":2},{"line":9}],"source":{"path":"/a.c"}}"#;

const NAMES: &[u8; 46] = br#"{"breakpoints":[{"name":"main"},{"name":"f"}]}"#;

/// A call with a text and a list is read whole, or not at all, and then by the next try.
#[test]
fn reading_lines(rt: HostRuntime) -> Result<(), Fail> {
    let deed = Deed::ReadTwice(Command::SetBreakpoints);
    judge(&rt, is_done(rt.alloc(), deed, LINES))
}

/// Likewise a list of texts.
#[test]
fn reading_names(rt: HostRuntime) -> Result<(), Fail> {
    let deed = Deed::ReadTwice(Command::SetFunctionBreakpoints);
    judge(&rt, is_done(rt.alloc(), deed, NAMES))
}

/// Likewise a tree.
#[test]
fn reading_a_launch(rt: HostRuntime) -> Result<(), Fail> {
    let deed = Deed::ReadTwice(Command::Launch);
    let text = br#"{"args":["-v",7],"env":{"A":"b"},"program":"/a"}"#;
    judge(&rt, is_done(rt.alloc(), deed, text))
}

/// Likewise what an adapter asks of a terminal.
#[test]
fn asking_for_a_terminal(rt: HostRuntime) -> Result<(), Fail> {
    let text = br#"{"args":["a","b"],"cwd":"/","kind":"integrated","title":"t"}"#;
    judge(&rt, is_done(rt.alloc(), Deed::AskTwice, text))
}

/// The object of the flags that are set, or none.
#[test]
fn writing_capabilities(rt: HostRuntime) -> Result<(), Fail> {
    let text = br#"{"supportsCancelRequest":true,"supportsStepBack":true}"#;
    judge(&rt, is_done(rt.alloc(), Deed::WriteTwice, text))
}

static ARGUMENTS: [(Command, &[u8]); 6] = [
    (Command::SetBreakpoints, LINES),
    (Command::SetFunctionBreakpoints, NAMES),
    (Command::Launch, br#"{"args":["-v",7],"program":"/a"}"#),
    (
        Command::StackTrace,
        br#"{"levels":2,"startFrame":1,"threadId":7}"#,
    ),
    (Command::Evaluate, br#"{"expression":"x","frameId":3}"#),
    (Command::Next, br#"{"threadId":1}"#),
];

fn writes_all(alloc: Global) -> Option<bool> {
    let mut outcome = Some(true);
    for (command, text) in &ARGUMENTS {
        let deed = Deed::ReadAndWrite(*command);
        outcome = both(outcome, is_done(alloc, deed, *text));
    }
    outcome
}

/// Arguments are written as they stood, or not at all.
#[test]
fn writing_calls(rt: HostRuntime) -> Result<(), Fail> {
    judge(&rt, writes_all(rt.alloc()))
}
