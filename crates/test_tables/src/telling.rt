//! Calls as words, for tests to compare them with what is due.

use dap_call::{Call, CallFault, read_call};
use dap_command::{Command, SourceKey};
use dap_json::{Text, Tree};
use serde_json::Value;
use std::alloc::{AllocError, Global};

/// What stands as a word.
#[derive(Clone, Copy)]
enum Word<'a> {
    Text(&'a str),
    Flag(bool),
    Number(i64),
    Whole(u64),
}

fn put(alloc: Global, told: &mut String, word: Word<'_>) -> Result<(), AllocError> {
    let text = match word {
        Word::Text(text) => return told.push_str(text),
        Word::Flag(flag) => format!(in alloc; "{flag}")?,
        Word::Number(number) => format!(in alloc; "{number}")?,
        Word::Whole(number) => format!(in alloc; "{number}")?,
    };
    told.push_str(text.as_str())
}

fn put_after(alloc: Global, told: &mut String, word: Word<'_>) -> Result<(), AllocError> {
    told.push_str(" ")?;
    put(alloc, told, word)
}

/// A first word and others, with a space between any two.
fn words(alloc: Global, first: Word<'_>, others: &[Word<'_>]) -> Result<String, AllocError> {
    let mut told = String::new(alloc);
    put(alloc, &mut told, first)?;
    for word in others {
        put_after(alloc, &mut told, *word)?;
    }
    Ok(told)
}

fn small(number: u32) -> Word<'static> {
    Word::Whole(u64::from(number))
}

/// How a source is named.
fn told_source(alloc: Global, source: &SourceKey) -> Result<String, AllocError> {
    match source {
        SourceKey::Path(path) => words(alloc, Word::Text("path"), &[Word::Text(path.as_str())]),
        SourceKey::Reference(number) => words(alloc, Word::Text("reference"), &[small(*number)]),
    }
}

/// A source and lines.
fn told_lines(alloc: Global, source: &SourceKey, lines: &[u32]) -> Result<String, AllocError> {
    let mut told = told_source(alloc, source)?;
    for line in lines {
        put_after(alloc, &mut told, small(*line))?;
    }
    Ok(told)
}

fn told_texts(alloc: Global, texts: &[Text]) -> Result<String, AllocError> {
    let mut told = words(alloc, Word::Text("texts"), &[])?;
    for text in texts {
        put_after(alloc, &mut told, Word::Text(text.as_str()))?;
    }
    Ok(told)
}

fn told_tree(alloc: Global, tree: Option<&Tree>) -> Result<String, AllocError> {
    match tree {
        None => String::from_str(alloc, "none"),
        Some(tree) => tree.value().to_string(alloc),
    }
}

/// A word and the number of a thread.
fn told_thread(alloc: Global, word: &str, thread: i64) -> Result<String, AllocError> {
    words(alloc, Word::Text(word), &[Word::Number(thread)])
}

/// The fields of a call, for short.
fn told(alloc: Global, call: &Call) -> Result<String, AllocError> {
    match call {
        Call::Initialize(i) => words(
            alloc,
            Word::Text(i.adapter_id.as_str()),
            &[
                Word::Flag(i.lines_start_at_1),
                Word::Flag(i.columns_start_at_1),
                Word::Flag(i.supports_variable_paging),
                Word::Flag(i.supports_run_in_terminal_request),
            ],
        ),
        Call::Launch(tree) | Call::Attach(tree) => told_tree(alloc, tree.as_ref()),
        Call::ConfigurationDone => String::from_str(alloc, "configured"),
        Call::Disconnect => String::from_str(alloc, "disconnect"),
        Call::Threads => String::from_str(alloc, "threads"),
        Call::Terminate => String::from_str(alloc, "terminate"),
        Call::LoadedSources => String::from_str(alloc, "sources"),
        Call::Restart => String::from_str(alloc, "restart"),
        Call::Cancel { request_id: None } => String::from_str(alloc, "none"),
        Call::Cancel {
            request_id: Some(seq),
        } => words(alloc, Word::Whole(*seq), &[]),
        Call::SetBreakpoints { source, lines } => told_lines(alloc, source, lines.as_slice()),
        Call::SetFunctionBreakpoints { names: texts }
        | Call::SetExceptionBreakpoints { filters: texts } => told_texts(alloc, texts.as_slice()),
        Call::Continue { thread_id } => told_thread(alloc, "continue", *thread_id),
        Call::Next { thread_id } => told_thread(alloc, "next", *thread_id),
        Call::StepIn { thread_id } => told_thread(alloc, "in", *thread_id),
        Call::StepOut { thread_id } => told_thread(alloc, "out", *thread_id),
        Call::Pause { thread_id } => told_thread(alloc, "pause", *thread_id),
        Call::StepBack { thread_id } => told_thread(alloc, "back", *thread_id),
        Call::ReverseContinue { thread_id } => told_thread(alloc, "reverse", *thread_id),
        Call::ExceptionInfo { thread_id } => told_thread(alloc, "exception", *thread_id),
        Call::StackTrace(s) => words(
            alloc,
            Word::Number(s.thread_id),
            &[small(s.start_frame), small(s.levels)],
        ),
        Call::Scopes { frame_id } => words(alloc, Word::Text("frame"), &[small(*frame_id)]),
        Call::Variables(v) => words(
            alloc,
            small(v.variables_reference),
            &[small(v.start), small(v.count)],
        ),
        Call::Evaluate(e) => {
            let text = Word::Text(e.expression.as_str());
            match e.frame_id {
                None => words(alloc, text, &[Word::Text("none")]),
                Some(frame) => words(alloc, text, &[small(frame)]),
            }
        }
        Call::Source { source_reference } => {
            words(alloc, Word::Text("source"), &[small(*source_reference)])
        }
        Call::SetVariable(s) => words(
            alloc,
            small(s.variables_reference),
            &[Word::Text(s.name.as_str()), Word::Text(s.value.as_str())],
        ),
        Call::Modules(m) => words(alloc, small(m.start_module), &[small(m.module_count)]),
        Call::BreakpointLocations(b) => {
            told_lines(alloc, &b.source, &[b.line, b.end_line.unwrap_or(0)])
        }
        Call::Completions(c) => words(
            alloc,
            Word::Text(c.text.as_str()),
            &[
                small(c.column),
                small(c.frame_id.unwrap_or(0)),
                small(c.line.unwrap_or(0)),
            ],
        ),
    }
}

/// The call that arguments are read as, or the bad key.
pub(crate) fn told_read(
    alloc: Global,
    command: Command,
    arguments: Option<&Value>,
) -> Result<String, AllocError> {
    match read_call(alloc, command, arguments) {
        Ok(call) => {
            let told = told(alloc, &call);
            drop(call);
            told
        }
        Err(CallFault::BadArguments { key }) => {
            words(alloc, Word::Text("bad"), &[Word::Text(key.name())])
        }
        Err(CallFault::OutOfMemory) => Err(AllocError),
    }
}
