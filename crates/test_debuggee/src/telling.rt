//! What a recording tells of its threads, frames, variables and sources, as text.

use crate::playing::{faulted, in_short, source};
use dap_command::SourceKey;
use dap_debuggee::{Debuggee, Evaluation, Frame, Placement, Scope, Source, Thread, Variable};
use dap_replay::Recorded;
use std::alloc::Global;
use std::fmt::Write;

/// What a recording is asked to tell.
#[derive(Clone, Copy)]
pub(crate) enum Query {
    Threads,
    /// The frames of a thread.
    Frames(i64),
    /// The scopes of a frame, with their variables.
    Scopes(u64),
    /// The children of a holder.
    Children(u64),
    /// The value of an expression, and its children.
    Value(Option<u64>, &'static str),
    Sources,
    /// The content of a source.
    Content(u32),
    /// Which lines of the source with the path `/a.c` are verified.
    LinesByPath(&'static [u32]),
    /// Which lines of the source with this reference are verified.
    LinesByReference(u32, &'static [u32]),
}

/// Threads as numbers and names.
fn add_threads(told: &mut String, threads: &[Thread]) -> bool {
    for thread in threads {
        let (id, name) = (thread.id, thread.name.as_str());
        if write!(told, "{id} {name}; ").is_err() {
            return false;
        }
    }
    true
}

/// Frames as objects, names, sources, `-` where there is none, and lines.
pub(crate) fn add_frames(told: &mut String, frames: &[Frame]) -> bool {
    for frame in frames {
        let (object, name) = (frame.object, frame.name.as_str());
        let line = frame.line;
        let is_told = match frame.source {
            None => write!(told, "{object} {name} - {line}; ").is_ok(),
            Some(source) => write!(told, "{object} {name} {source} {line}; ").is_ok(),
        };
        if !is_told {
            return false;
        }
    }
    true
}

/// Variables as names and values, with a `+` where there are children.
fn add_variables(told: &mut String, variables: &[Variable]) -> bool {
    for variable in variables {
        let (name, value) = (variable.name.as_str(), in_short(variable.value.as_str()));
        let more = if variable.holder.is_some() { "+" } else { "" };
        if write!(told, "{name}={value}{more}; ").is_err() {
            return false;
        }
    }
    true
}

/// The children of a holder.
pub(crate) fn add_children<D: Debuggee>(
    alloc: Global,
    debuggee: &D,
    holder: u64,
    told: &mut String,
) -> bool {
    match debuggee.children(alloc, holder, 0, 0) {
        Ok(variables) => add_variables(told, &variables),
        Err(fault) => told.push_str(faulted(fault)).is_ok(),
    }
}

/// Scopes as names and variables.
fn add_scopes<D: Debuggee>(
    alloc: Global,
    debuggee: &D,
    scopes: &[Scope],
    told: &mut String,
) -> bool {
    for scope in scopes {
        let name = scope.name.as_str();
        if write!(told, "{name}: ").is_err() || !add_children(alloc, debuggee, scope.holder, told) {
            return false;
        }
    }
    true
}

/// A value as text, and its children if it has any.
fn add_evaluation<D: Debuggee>(
    alloc: Global,
    debuggee: &D,
    value: &Evaluation,
    told: &mut String,
) -> bool {
    let text = in_short(value.value.as_str());
    match value.holder {
        Some(holder) => {
            write!(told, "{text} of ").is_ok() && add_children(alloc, debuggee, holder, told)
        }
        None => told.push_str(text).is_ok(),
    }
}

/// What a text is worth in a frame, or in none.
pub(crate) fn add_value<D: Debuggee>(
    alloc: Global,
    debuggee: &D,
    frame: Option<u64>,
    text: &str,
    told: &mut String,
) -> bool {
    match debuggee.evaluate(alloc, frame, text) {
        Ok(value) => add_evaluation(alloc, debuggee, &value, told),
        Err(fault) => told.push_str(faulted(fault)).is_ok(),
    }
}

/// The names of all sources.
pub(crate) fn add_sources(told: &mut String, sources: &[Source]) -> bool {
    for source in sources {
        if told.push_str(source.name.as_str()).is_err() {
            return false;
        }
    }
    true
}

/// Which lines of a source are verified, `y` or `n` for each.
fn add_lines<D: Debuggee>(
    alloc: Global,
    debuggee: &D,
    source: &SourceKey,
    lines: &[u32],
    told: &mut String,
) -> bool {
    match debuggee.verify(alloc, source, lines) {
        Ok(answers) => add_verified(told, &answers),
        Err(_) => false,
    }
}

fn add_verified(told: &mut String, answers: &[Placement]) -> bool {
    for placed in answers {
        if told
            .push_str(if placed.verified { "y" } else { "n" })
            .is_err()
        {
            return false;
        }
    }
    true
}

/// What a debuggee tells, as text.
pub(crate) fn add_told<D: Debuggee>(
    alloc: Global,
    debuggee: &D,
    query: Query,
    told: &mut String,
) -> bool {
    match query {
        Query::Threads => match debuggee.threads(alloc) {
            Ok(threads) => add_threads(told, &threads),
            Err(_) => false,
        },
        Query::Frames(thread) => match debuggee.frames(alloc, thread) {
            Ok(frames) => add_frames(told, &frames),
            Err(fault) => told.push_str(faulted(fault)).is_ok(),
        },
        Query::Scopes(frame) => match debuggee.scopes(alloc, frame) {
            Ok(scopes) => add_scopes(alloc, debuggee, &scopes, told),
            Err(fault) => told.push_str(faulted(fault)).is_ok(),
        },
        Query::Children(holder) => add_children(alloc, debuggee, holder, told),
        Query::Value(frame, text) => add_value(alloc, debuggee, frame, text, told),
        Query::Sources => match debuggee.sources(alloc) {
            Ok(sources) => add_sources(told, &sources),
            Err(_) => false,
        },
        Query::Content(source) => match debuggee.content(alloc, source) {
            Ok(text) => told.push_str(text.as_str()).is_ok(),
            Err(fault) => told.push_str(faulted(fault)).is_ok(),
        },
        Query::LinesByPath(lines) => match source(alloc) {
            Some(source) => add_lines(alloc, debuggee, &source, lines, told),
            None => false,
        },
        Query::LinesByReference(reference, lines) => {
            add_lines(
                alloc,
                debuggee,
                &SourceKey::Reference(reference),
                lines,
                told,
            )
        }
    }
}

/// What can be told of the first frame of the thread 1, each with a colon behind it.
static ALL: [Query; 10] = [
    Query::Threads,
    Query::Frames(1),
    Query::Scopes(0),
    Query::Children(0),
    Query::Children(1),
    Query::Value(Some(0), "x"),
    Query::Value(Some(0), "p"),
    Query::Sources,
    Query::Content(0),
    Query::LinesByPath(&[1, 3, 4]),
];

/// All that can be told there.
pub(crate) fn add_all<D: Debuggee>(alloc: Global, debuggee: &D, told: &mut String) -> bool {
    for query in &ALL {
        if !add_told(alloc, debuggee, *query, told) || told.push_str(": ").is_err() {
            return false;
        }
    }
    true
}

/// Whether a recording tells this.
pub(crate) fn is_told(alloc: Global, recorded: &Recorded, query: Query, wanted: &str) -> bool {
    let mut told = String::new(alloc);
    add_told(alloc, recorded, query, &mut told) && told.as_str() == wanted
}
