//! What stands at the keys of a recording.
ghost use Rattle.std.specs.Prelude.{◌≡◌};
ghost use Rattle.serde_json.specs.View.{view};
ghost use Rattle.dap_recording.specs.Places.{present_at};
ghost use Rattle.dap_recording.specs.PrivateStops.{Finds, FindsItems, FindsValue};
ghost use Rattle.dap_recording.specs.Reading.{text_at, text_if_any, optional_text_at, short_text_at, flag_at, exit_at, items_at, items_if_any as items_if_any_of, more_at, some_items as some_items_of, few_items as few_items_of};

use crate::place::{BadCause, JsonKind};
use crate::stop::Stop;
use crate::texts::Texts;
use crate::{causes, numbers, stop};
use dap_json::{More, Text};
use serde_json::Value;
use std::alloc::{AllocError, AllocFailed, Global};

/// A key of a recording.
#[derive(Clone, Copy, Debug, PartialEq, Eq)]
pub enum RecordingKey {
    Exit,
    Sources,
    Name,
    Path,
    Text,
    OnDisk,
    Moments,
    Threads,
    Id,
    Frames,
    Source,
    Line,
    Scopes,
    Variables,
    Value,
    Thread,
    Output,
    Waits,
    Stop,
    Description,
    /// What stands beside a source, a thread, a frame, a scope or a variable.
    More,
}

/// Who tells of a moment.
#[derive(Clone, Copy, Debug, PartialEq, Eq)]
pub(crate) enum Teller {
    /// A recording, in which each frame has a source.
    Recording,
    /// A host, of whose frames some may have none.
    Host,
}

/// Why bytes are no recording.
#[derive(Clone, Copy, Debug, PartialEq, Eq)]
pub enum RecordingFault {
    /// They are not UTF-8 or no JSON value, nest deeper than 127, or have a number too great for a float.
    NotJson,
    /// They are a JSON value that is no object.
    NotObject,
    /// The first bad key in the order of the format. An element that is no object is named by its array's key.
    BadKey { key: RecordingKey },
    /// Memory was refused.
    OutOfMemory,
}

impl From<AllocError> for RecordingFault {
    ghost use Rattle.dap_recording.specs.declared.reading.RecordingFault.TheVariants.{OutOfMemory};

    ghost from_gives = { λ _ e. e ≡ OutOfMemory };

    fn from(_e: AllocError) -> RecordingFault {
        RecordingFault::OutOfMemory
    }
}

impl<T: Drop> From<AllocFailed<T>> for RecordingFault {
    ghost use Rattle.dap_recording.specs.declared.reading.RecordingFault.TheVariants.{OutOfMemory};

    ghost from_gives = { λ _ e. e ≡ OutOfMemory };

    fn from(_e: AllocFailed<T>) -> RecordingFault {
        RecordingFault::OutOfMemory
    }
}

impl RecordingKey {
    ghost use Rattle.dap_recording.specs.RecordingKey.{name_of};

    /// Its name in the format.
    pub fn name(self) -> &'static str
        ensures { result.now ≡ name_of self }
    {
        match self {
            RecordingKey::Exit => "exit",
            RecordingKey::Sources => "sources",
            RecordingKey::Name => "name",
            RecordingKey::Path => "path",
            RecordingKey::Text => "text",
            RecordingKey::OnDisk => "onDisk",
            RecordingKey::Moments => "moments",
            RecordingKey::Threads => "threads",
            RecordingKey::Id => "id",
            RecordingKey::Frames => "frames",
            RecordingKey::Source => "source",
            RecordingKey::Line => "line",
            RecordingKey::Scopes => "scopes",
            RecordingKey::Variables => "variables",
            RecordingKey::Value => "value",
            RecordingKey::Thread => "thread",
            RecordingKey::Output => "output",
            RecordingKey::Waits => "waits",
            RecordingKey::Stop => "stop",
            RecordingKey::Description => "description",
            RecordingKey::More => "more",
        }
    }
}

/// What stands at a key, which has to be there.
pub(crate) fn present<'v>(
    alloc: Global,
    value: &'v Value,
    key: RecordingKey,
) -> Result<&'v Value, Stop>
    ensures { FindsValue result (present_at key (view value.now)) }
{
    match value.get(key.name()) {
        Some(found) => Ok(found),
        None => Err(stop::here(alloc, key, BadCause::Absent)),
    }
}

pub(crate) fn text(texts: &mut Texts, value: &Value, key: RecordingKey) -> Result<Text, Stop>
    ensures { Finds result (text_at key (view value.now)) }
{
    let found = present(texts.alloc, value, key)?;
    match found.as_str() {
        Some(text) => Ok(texts.text(text)?),
        None => Err(stop::other(texts.alloc, key, found, JsonKind::Text)),
    }
}

pub(crate) fn optional_text(
    texts: &mut Texts,
    value: &Value,
    key: RecordingKey,
) -> Result<Option<Text>, Stop>
    ensures { Finds result (optional_text_at key (view value.now)) }
{
    let Some(found) = value.get(key.name()) else {
        return Ok(None);
    };
    match found.as_str() {
        Some(text) => Ok(Some(texts.text(text)?)),
        None => Err(stop::other(texts.alloc, key, found, JsonKind::Text)),
    }
}

/// A text of at most so many bytes, where there is one.
pub(crate) fn short_text(
    texts: &mut Texts,
    value: &Value,
    most: usize,
    key: RecordingKey,
) -> Result<Option<Text>, Stop>
    ensures { Finds result (short_text_at most key (view value.now)) }
{
    let Some(found) = value.get(key.name()) else {
        return Ok(None);
    };
    match found.as_str() {
        Some(text) if text.len() <= most => Ok(Some(texts.text(text)?)),
        _ => Err(stop::here(texts.alloc, key, causes::no_short_text(found, most))),
    }
}

pub(crate) fn text_or_empty(
    texts: &mut Texts,
    value: &Value,
    key: RecordingKey,
) -> Result<Text, Stop>
    ensures { Finds result (text_if_any key (view value.now)) }
{
    let Some(found) = value.get(key.name()) else {
        return Ok(texts.text("")?);
    };
    match found.as_str() {
        Some(text) => Ok(texts.text(text)?),
        None => Err(stop::other(texts.alloc, key, found, JsonKind::Text)),
    }
}

pub(crate) fn flag(alloc: Global, value: &Value, key: RecordingKey) -> Result<bool, Stop>
    ensures { Finds result (flag_at key (view value.now)) }
{
    let Some(found) = value.get(key.name()) else {
        return Ok(false);
    };
    match found.as_bool() {
        Some(flag) => Ok(flag),
        None => Err(stop::other(alloc, key, found, JsonKind::Boolean)),
    }
}

pub(crate) fn exit(alloc: Global, value: &Value) -> Result<i32, Stop>
    ensures { Finds result (exit_at (view value.now)) }
{
    let found = present(alloc, value, RecordingKey::Exit)?;
    match numbers::status(found) {
        Some(status) => Ok(status),
        None => Err(stop::here(alloc, RecordingKey::Exit, causes::no_exit(found))),
    }
}

pub(crate) fn items(alloc: Global, value: &Value, key: RecordingKey) -> Result<&[Value], Stop>
    ensures { FindsItems result (items_at key (view value.now)) }
{
    let found = present(alloc, value, key)?;
    match found.as_array() {
        Some(items) => Ok(items),
        None => Err(stop::other(alloc, key, found, JsonKind::Array)),
    }
}

/// The members of the object at `more`; none where that is absent.
pub(crate) fn more(texts: &Texts, value: &Value) -> Result<More, Stop>
    ensures { Finds result (more_at (view value.now)) }
{
    let Some(found) = value.get(RecordingKey::More.name()) else {
        return Ok(More::none());
    };
    match More::of(texts.alloc, found)? {
        Some(more) => Ok(more),
        None => Err(stop::here(texts.alloc, RecordingKey::More, causes::no_more(found))),
    }
}

/// An absent array is empty.
pub(crate) fn items_if_any(
    alloc: Global,
    value: &Value,
    key: RecordingKey,
) -> Result<&[Value], Stop>
    ensures { FindsItems result (items_if_any_of key (view value.now)) }
{
    let Some(found) = value.get(key.name()) else {
        return Ok(&[]);
    };
    match found.as_array() {
        Some(items) => Ok(items),
        None => Err(stop::other(alloc, key, found, JsonKind::Array)),
    }
}

#[tactic(auto, using(crate::proofs::Elements::count_is_length))]
pub(crate) fn some_items(alloc: Global, value: &Value, key: RecordingKey) -> Result<&[Value], Stop>
    ensures { FindsItems result (some_items_of key (view value.now)) }
{
    let items = items(alloc, value, key)?;
    if items.is_empty() {
        return Err(stop::here(alloc, key, BadCause::NoElements));
    }
    Ok(items)
}

/// The elements of an array, which is not too long.
#[tactic(auto, using(crate::proofs::Elements::count_is_length))]
pub(crate) fn few_items(alloc: Global, value: &Value, key: RecordingKey) -> Result<&[Value], Stop>
    ensures { FindsItems result (few_items_of key (view value.now)) }
{
    let Some(items) = value.as_array() else {
        return Err(stop::other(alloc, key, value, JsonKind::Array));
    };
    if items.len() > numbers::MAX_SOURCES {
        let count = items.len() as u64;
        return Err(stop::here(alloc, key, BadCause::TooMany { count }));
    }
    Ok(items)
}
