//! What a moment shows, as a debuggee is asked for it.
ghost use Rattle.std.specs.Prelude.{◌≡◌, IfOk, IsErrOf, map, option_map};
ghost use Rattle.std.specs.List.{slice_get};
ghost use Rattle.std.specs.Option.{IsSome};
ghost use Rattle.dap_debuggee.specs.Laws.{AnswersQuery};
ghost use Rattle.dap_recording.specs.Lent.{lent_value, LacksMemoryOnlyFor};
ghost use Rattle.dap_recording.specs.Snapshot.{frames_in, if_in, is_among, is_in as is_in_span, thread_shown, thread_with};

use crate::recording::{RecordedThread, Span};
use dap_debuggee::{DebuggeeFault, Frame, Scope, Thread};
use dap_json::List;
use std::alloc::{AllocError, Global};

/// The threads, each with its id and its name.
pub fn threads(alloc: Global, threads: &[RecordedThread]) -> Result<Vec<Thread>, AllocError>
    ensures { IfOk result (λ shown. shown.items ≡ map thread_shown threads.now) }
{
    let mut shown = Vec::with_capacity(alloc, threads.len())?;
    for thread in threads {
        shown.push(Thread {
            id: thread.id,
            name: thread.name.clone()?,
            more: thread.more.clone()?,
        })?;
    }
    Ok(shown)
}

fn frames(alloc: Global, frames: &[Frame]) -> Result<Vec<Frame>, AllocError>
    ensures { IfOk result (λ copy. copy.items ≡ frames.now) }
{
    let mut copy = Vec::with_capacity(alloc, frames.len())?;
    for frame in frames {
        copy.push(Frame {
            object: frame.object,
            name: frame.name.clone()?,
            source: frame.source,
            line: frame.line,
            more: frame.more.clone()?,
        })?;
    }
    Ok(copy)
}

/// The first thread with an id.
fn thread_of(threads: &[RecordedThread], id: i64) -> Option<&RecordedThread>
    ensures { option_map (λ t. t.now) result ≡ thread_with id threads.now }
{
    for thread in threads {
        if id == thread.id {
            return Some(thread);
        }
    }
    None
}

/// The frames of the first thread with an id.
///
/// # Errors
/// `Refused` where there is no such thread, `OutOfMemory` where memory is refused.
pub fn frames_of(
    alloc: Global,
    threads: &[RecordedThread],
    id: i64,
) -> Result<Vec<Frame>, DebuggeeFault>
    ensures frames { AnswersQuery result (λ frames. frames.items) (frames_in threads.now id) }
    ensures memory { LacksMemoryOnlyFor result (frames_in threads.now id) }
{
    match thread_of(threads, id) {
        None => Err(DebuggeeFault::Refused),
        Some(thread) => Ok(frames(alloc, thread.frames.as_slice())?),
    }
}

/// The scopes, copied.
fn scopes(alloc: Global, scopes: &[Scope]) -> Result<Vec<Scope>, AllocError>
    ensures { IfOk result (λ copy. copy.items ≡ scopes.now) }
{
    let mut copy = Vec::with_capacity(alloc, scopes.len())?;
    for scope in scopes {
        copy.push(Scope {
            name: scope.name.clone()?,
            holder: scope.holder,
            more: scope.more.clone()?,
        })?;
    }
    Ok(copy)
}

/// The scopes that were found, copied.
///
/// # Errors
/// `Refused` where none were, `OutOfMemory` where memory is refused.
pub fn scopes_of(alloc: Global, found: Option<&[Scope]>) -> Result<Vec<Scope>, DebuggeeFault>
    ensures scopes { AnswersQuery result (λ scopes. scopes.items) (lent_value found.entry) }
    ensures memory { LacksMemoryOnlyFor result (lent_value found.entry) }
{
    match found {
        None => Err(DebuggeeFault::Refused),
        Some(found) => Ok(scopes(alloc, found)?),
    }
}

/// Whether a number is in a span.
pub fn is_in(span: Span, number: u64) -> bool
    ensures { result ≡ is_in_span span number }
{
    span.from <= number && number < span.to
}

/// The list at a number, where that is in a span.
pub fn list_in<T>(span: Span, lists: &[List<T>], number: u64) -> Option<&[T]>
    ensures { lent_value result ≡ if_in span number (slice_get lists.now number) }
{
    if !is_in(span, number) {
        return None;
    }
    let list = lists.get(number as usize)?;
    Some(list.as_slice())
}

/// Whether a holder is among some.
pub fn is_one_of(holders: &[u64], holder: u64) -> bool
    ensures { result ≡ is_among holder holders.now }
{
    holders.iter().any(|other| *other == holder)
}
