//! Examples of a recorded debuggee: it is played, and asked.

use crate::outcomes::{both, judge, refused};
use dap_command::SourceKey;
use dap_debuggee::{Debuggee, DebuggeeFault, Happening, Placement};
use dap_recording::RecordingFault;
use dap_replay::Recorded;
use std::alloc::Global;
use std::test::Fail;

pub(crate) static RECORDING: &[u8; 301] =
    br#"{"exit":0,"sources":[{"name":"a.c","path":"/a.c","text":"one\ntwo\n"}],"moments":[{"thread":1,"output":"go\n","threads":[{"id":1,"name":"main","frames":[{"name":"main","source":0,"line":1,"scopes":[{"name":"Locals","variables":[{"name":"p","value":"P","variables":[{"name":"a","value":"7"}]}]}]}]}]}]}"#;

fn is_due(happening: &Happening, wanted: &str) -> bool {
    match happening {
        Happening::Output { text, .. } => text.as_str() == wanted,
        Happening::Stopped { reason, thread, .. } => reason.as_str() == wanted && *thread == 1,
        _ => false,
    }
}

/// Whether a poll tells this output, or a stop for this reason.
fn tells(alloc: Global, debuggee: &mut Recorded, wanted: &str) -> Option<bool> {
    match debuggee.poll(alloc) {
        Ok(happening) => Some(is_due(&happening, wanted)),
        Err(_) => None,
    }
}

fn tells_both(alloc: Global, debuggee: &mut Recorded) -> Option<bool> {
    match tells(alloc, debuggee, "go\n") {
        Some(true) => tells(alloc, debuggee, "entry"),
        outcome => outcome,
    }
}

fn sets(alloc: Global, debuggee: &mut Recorded) -> bool {
    let lines = [1, 2];
    debuggee
        .set_breakpoints(alloc, &SourceKey::Reference(1), &lines)
        .is_ok()
}

fn runs(alloc: Global, debuggee: &mut Recorded) -> Option<bool> {
    if !sets(alloc, debuggee) {
        return None;
    }
    if debuggee.start(alloc).is_err() {
        return Some(false);
    }
    tells_both(alloc, debuggee)
}

fn plays(alloc: Global) -> Option<bool> {
    match Recorded::read(alloc, RECORDING) {
        Ok(mut debuggee) => {
            let outcome = runs(alloc, &mut debuggee);
            // The proof of a call is shorter than that of a value that goes out of scope.
            drop(debuggee);
            outcome
        }
        Err(fault) => refused(fault == RecordingFault::OutOfMemory),
    }
}

/// What runs writes and stops, or a poll was refused memory; then no more is asked of it.
#[test]
fn playing(rt: HostRuntime) -> Result<(), Fail> {
    judge(&rt, plays(rt.alloc()))
}

/// What is asked of a debuggee that was started.
#[derive(Clone, Copy)]
enum Query {
    Scopes,
    Children,
    Evaluate,
    Sources,
    Content,
    Verify,
    Threads,
    Frames,
}

/// Want of memory; any other fault of a query is wrong.
fn unanswered(fault: DebuggeeFault) -> Option<bool> {
    refused(fault == DebuggeeFault::OutOfMemory)
}

fn tells_scopes(alloc: Global, debuggee: &Recorded) -> Option<bool> {
    match debuggee.scopes(alloc, 0) {
        Ok(scopes) => Some(scopes.len() == 1),
        Err(fault) => unanswered(fault),
    }
}

fn tells_children(alloc: Global, debuggee: &Recorded) -> Option<bool> {
    match debuggee.children(alloc, 1, 0, 0) {
        Ok(variables) => Some(variables.len() == 1),
        Err(fault) => unanswered(fault),
    }
}

fn tells_value(alloc: Global, debuggee: &Recorded) -> Option<bool> {
    match debuggee.evaluate(alloc, Some(0), "p") {
        Ok(value) => Some(value.value.as_str() == "P" && value.holder == Some(0)),
        Err(fault) => unanswered(fault),
    }
}

fn tells_sources(alloc: Global, debuggee: &Recorded) -> Option<bool> {
    match debuggee.sources(alloc) {
        Ok(sources) => Some(sources.len() == 1),
        Err(_) => None,
    }
}

fn tells_content(alloc: Global, debuggee: &Recorded) -> Option<bool> {
    match debuggee.content(alloc, 0) {
        Ok(text) => Some(text.as_str() == "one\ntwo\n"),
        Err(fault) => unanswered(fault),
    }
}

/// Whether these are two breakpoints where they were asked for, of which the first can stop.
fn are_placed(answers: &[Placement]) -> bool {
    match answers {
        [first, second] => {
            first.verified && first.line == 2 && !second.verified && second.line == 3
        }
        _ => false,
    }
}

fn tells_lines(alloc: Global, debuggee: &Recorded) -> Option<bool> {
    match debuggee.verify(alloc, &SourceKey::Reference(1), &[2, 3]) {
        Ok(answers) => Some(are_placed(&answers)),
        Err(fault) => unanswered(fault),
    }
}

fn tells_threads(alloc: Global, debuggee: &Recorded) -> Option<bool> {
    match debuggee.threads(alloc) {
        Ok(threads) => Some(threads.len() == 1),
        Err(_) => None,
    }
}

fn tells_frames(alloc: Global, debuggee: &Recorded) -> Option<bool> {
    match debuggee.frames(alloc, 1) {
        Ok(frames) => Some(frames.len() == 1),
        Err(fault) => unanswered(fault),
    }
}

fn answers(alloc: Global, debuggee: &Recorded, query: Query) -> Option<bool> {
    match query {
        Query::Scopes => tells_scopes(alloc, debuggee),
        Query::Children => tells_children(alloc, debuggee),
        Query::Evaluate => tells_value(alloc, debuggee),
        Query::Sources => tells_sources(alloc, debuggee),
        Query::Content => tells_content(alloc, debuggee),
        Query::Verify => tells_lines(alloc, debuggee),
        Query::Threads => tells_threads(alloc, debuggee),
        Query::Frames => tells_frames(alloc, debuggee),
    }
}

/// Each query is made, also after one that was refused memory.
fn answers_all(alloc: Global, debuggee: &mut Recorded, queries: &[Query]) -> Option<bool> {
    if debuggee.start(alloc).is_err() {
        return Some(false);
    }
    let mut outcome = Some(true);
    for query in queries {
        outcome = both(outcome, answers(alloc, debuggee, *query));
    }
    outcome
}

fn asks(alloc: Global, queries: &[Query]) -> Option<bool> {
    match Recorded::read(alloc, RECORDING) {
        Ok(mut debuggee) => {
            let outcome = answers_all(alloc, &mut debuggee, queries);
            drop(debuggee);
            outcome
        }
        Err(fault) => refused(fault == RecordingFault::OutOfMemory),
    }
}

static LOOKED_AT: [Query; 6] = [
    Query::Scopes,
    Query::Children,
    Query::Evaluate,
    Query::Sources,
    Query::Content,
    Query::Verify,
];

/// A query is answered whole, or not at all.
#[test]
fn asking_a_debuggee(rt: HostRuntime) -> Result<(), Fail> {
    judge(&rt, asks(rt.alloc(), &LOOKED_AT))
}

static THREADS: [Query; 2] = [Query::Threads, Query::Frames];

/// Threads and frames of what was started, or none.
#[test]
fn asking_for_threads(rt: HostRuntime) -> Result<(), Fail> {
    judge(&rt, asks(rt.alloc(), &THREADS))
}

/// Whether the variable `p` has this value, both among the children and as an expression.
fn has_value(alloc: Global, debuggee: &Recorded, wanted: &str) -> Option<bool> {
    let told = match debuggee.children(alloc, 1, 0, 0) {
        Ok(variables) => match variables.as_slice() {
            [p] => Some(p.value.as_str() == wanted && p.holder == Some(0)),
            _ => Some(false),
        },
        Err(fault) => unanswered(fault),
    };
    both(told, is_worth(alloc, debuggee, wanted))
}

fn is_worth(alloc: Global, debuggee: &Recorded, wanted: &str) -> Option<bool> {
    match debuggee.evaluate(alloc, Some(0), "p") {
        Ok(value) => Some(value.value.as_str() == wanted && value.holder == Some(0)),
        Err(fault) => unanswered(fault),
    }
}

/// Whether a variable is set to a text, which is what it was told to be set to; nothing where memory was refused.
fn puts(
    alloc: Global,
    debuggee: &mut Recorded,
    holder: u64,
    name: &str,
    text: &str,
) -> Option<bool> {
    match debuggee.assigned(alloc, holder, name, text) {
        Ok(assigned) if assigned.value.as_str() == text => {
            match debuggee.assign(alloc, holder, name, text) {
                Ok(()) => Some(true),
                Err(_) => None,
            }
        }
        Ok(_) => Some(false),
        Err(fault) => unanswered(fault),
    }
}

/// The value of what was to be set to a text.
fn value_after(is_set: Option<bool>, text: &'static str, before: &'static str) -> &'static str {
    if is_set == Some(true) { text } else { before }
}

/// `p` is set twice and its child once, each also after one that was refused memory. Where it was, `p` has the value that it
/// had.
fn puts_all(alloc: Global, debuggee: &mut Recorded) -> Option<bool> {
    if debuggee.start(alloc).is_err() {
        return Some(false);
    }
    let first = puts(alloc, debuggee, 1, "p", "Q");
    let value = value_after(first, "Q", "P");
    let told = has_value(alloc, debuggee, value);
    let second = puts(alloc, debuggee, 1, "p", "R");
    let value = value_after(second, "R", value);
    let told = both(told, has_value(alloc, debuggee, value));
    let third = puts(alloc, debuggee, 0, "a", "8");
    let told = both(told, has_value(alloc, debuggee, value));
    both(both(first, second), both(third, told))
}

fn sets_values(alloc: Global) -> Option<bool> {
    match Recorded::read(alloc, RECORDING) {
        Ok(mut debuggee) => {
            let outcome = puts_all(alloc, &mut debuggee);
            drop(debuggee);
            outcome
        }
        Err(fault) => refused(fault == RecordingFault::OutOfMemory),
    }
}

/// A value is set, or all is as it was.
#[test]
fn setting_values(rt: HostRuntime) -> Result<(), Fail> {
    judge(&rt, sets_values(rt.alloc()))
}
