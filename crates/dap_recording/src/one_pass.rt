//! A recording read with no tree of the whole: its moments come one after the other, each as a value that is dropped.
//!
//! Whatever is refused, and where memory is, nothing is given, and [`Recording::read`] reads the bytes whole. So only what is
//! given has to be right.
ghost use Rattle.std.specs.Prelude.{◌≡◌, ◌≤◌, length, ℤ, List as Items, Option, Some, None, Ok, true, IfOk, IfSome, OnOk};
ghost use Rattle.serde_json.specs.Data.{Data, Items as DataItems, Members, array as array_data, object, no_members, put};
ghost use Rattle.serde_json.specs.View.{view};
ghost use Rattle.dap_json.specs.Field.{is_object};
ghost use Rattle.dap_json.specs.Read.{json_of};
ghost use Rattle.dap_json.specs.ObjectReader.{IsRestOf, IsNext};
ghost use Rattle.dap_recording.specs.Reading.{moment_of, moments_of, source_rows, recording_of, verdict_of};
ghost use Rattle.dap_recording.specs.RecordingKey.{name_of};
ghost use Rattle.dap_recording.specs.PrivateOnePass.{HoldsSeen};
ghost use Rattle.dap_recording.specs.declared.reading.RecordingKey.TheVariants as key;
ghost use Rattle.dap_recording.specs.declared.reading.Teller.TheVariants as teller;

use crate::reading::{RecordingKey, Teller};
use crate::recording::{Moment, RecordedSource, Recording};
use crate::rows::Numbers;
use crate::sources::Sources;
use crate::stop::Stop;
use crate::texts::Texts;
use crate::{numbers, rows};
use dap_json::List;
use dap_json::object_reader::{Invalid, ObjectReader, Scratch};
use serde_json::Value;
use std::alloc::{AllocError, AllocFailed, Global};

/// Why nothing is given: what came is refused, or memory is, or the keys are not in the usual order.
#[derive(Clone, Copy, Debug, Drop)]
struct NotGiven;

impl From<Invalid> for NotGiven {
    fn from(_invalid: Invalid) -> NotGiven {
        NotGiven
    }
}

impl From<AllocError> for NotGiven {
    fn from(_refused: AllocError) -> NotGiven {
        NotGiven
    }
}

impl<T: Drop> From<AllocFailed<T>> for NotGiven {
    fn from(_refused: AllocFailed<T>) -> NotGiven {
        NotGiven
    }
}

impl From<Stop> for NotGiven {
    fn from(_stop: Stop) -> NotGiven {
        NotGiven
    }
}

/// What stands at the keys that came so far.
#[derive(Drop)]
struct Seen {
    exit: Option<i32>,
    sources: Option<Sources>,
    moments: Option<(List<Moment>, Numbers)>,
}

/// The moment that an item is, which is an object, and is dropped.
fn moment(
    texts: &mut Texts,
    sources: &[RecordedSource],
    item: Value,
    numbers: &mut Numbers,
) -> Result<Moment, NotGiven>
    ensures is { IfOk result (λ m. moment_of teller.Recording sources.now (view item) numbers.old ≡ Ok (m, numbers.new)) }
    ensures object { IfOk result (λ _. is_object (view item) ≡ true) }
{
    if !item.is_object() {
        return Err(NotGiven);
    }
    let moment = rows::moment(texts, Teller::Recording, sources, &item, numbers)?;
    Ok(moment)
}

/// The moments that the items of an array are, which is the value of the key that came last.
fn each_moment(
    texts: &mut Texts,
    sources: &[RecordedSource],
    object_reader: &mut ObjectReader<'_>,
    numbers: &mut Numbers,
) -> Result<Vec<Moment>, NotGiven>
    ensures { IfOk result (λ found. (all : DataItems) × IsNext (array_data all) object_reader.old object_reader.new × (moments_of sources.now all numbers.old ≡ Ok (found.items, numbers.new))) }
{
    object_reader.enter_items()?;
    let mut found = Vec::new(texts.alloc);
    while let Some(item) = object_reader.next_item(texts.alloc)? {
        found.push(moment(texts, sources, item, numbers)?)?;
    }
    Ok(found)
}

/// Takes the exit code.
fn take_exit(
    texts: &Texts,
    object_reader: &mut ObjectReader<'_>,
    seen: &mut Seen,
) -> Result<(), NotGiven>
    ensures { OnOk result ((d : Data) × IsNext d object_reader.old object_reader.new × ((found : Members) → HoldsSeen seen.old found → HoldsSeen seen.new (put (name_of key.Exit) d found))) }
{
    let tree = object_reader.tree(texts.alloc)?;
    seen.exit = numbers::status(tree.value());
    Ok(())
}

/// The sources that the items of an array are.
fn sources(texts: &mut Texts, value: &Value) -> Result<Vec<RecordedSource>, NotGiven>
    ensures rows { IfOk result (λ rows. source_rows (view value.now) ≡ Ok rows.items) }
    ensures few { IfOk result (λ rows. length rows.items ≤ 65536) }
{
    let rows = rows::source_rows(texts, value)?;
    Ok(rows)
}

/// Takes the sources, which come before the moments.
fn take_sources(
    texts: &mut Texts,
    object_reader: &mut ObjectReader<'_>,
    seen: &mut Seen,
) -> Result<(), NotGiven>
    ensures { OnOk result ((d : Data) × IsNext d object_reader.old object_reader.new × ((found : Members) → HoldsSeen seen.old found → HoldsSeen seen.new (put (name_of key.Sources) d found))) }
{
    if seen.moments.is_some() {
        return Err(NotGiven);
    }
    let tree = object_reader.tree(texts.alloc)?;
    let rows = sources(texts, tree.value())?;
    // The tree of a file with many sources is great, and so is the map of their paths: one after the other.
    drop(tree);
    let sources = Sources::new(texts.alloc, rows)?;
    seen.sources = Some(sources);
    Ok(())
}

/// Takes the moments, once the sources are there.
fn take_moments(
    texts: &mut Texts,
    object_reader: &mut ObjectReader<'_>,
    seen: &mut Seen,
) -> Result<(), NotGiven>
    ensures { OnOk result ((d : Data) × IsNext d object_reader.old object_reader.new × ((found : Members) → HoldsSeen seen.old found → HoldsSeen seen.new (put (name_of key.Moments) d found))) }
{
    let Some(sources) = &seen.sources else {
        return Err(NotGiven);
    };
    let mut numbers = Numbers::new(texts.alloc);
    let moments = each_moment(texts, sources.as_slice(), object_reader, &mut numbers)?;
    if moments.is_empty() {
        return Err(NotGiven);
    }
    seen.moments = Some((List::new(moments), numbers));
    Ok(())
}

/// Passes the value of any other key.
fn pass(object_reader: &mut ObjectReader<'_>) -> Result<(), NotGiven>
    ensures { OnOk result ((d : Data) × IsNext d object_reader.old object_reader.new) }
{
    let _ = object_reader.pass()?;
    Ok(())
}

/// Takes the value of a key.
fn take_member(
    texts: &mut Texts,
    object_reader: &mut ObjectReader<'_>,
    key: &str,
    seen: &mut Seen,
) -> Result<(), NotGiven>
    ensures { OnOk result ((d : Data) × IsNext d object_reader.old object_reader.new × ((found : Members) → HoldsSeen seen.old found → HoldsSeen seen.new (put key.now d found))) }
{
    if key == RecordingKey::Exit.name() {
        return take_exit(texts, object_reader, seen);
    }
    if key == RecordingKey::Sources.name() {
        return take_sources(texts, object_reader, seen);
    }
    if key == RecordingKey::Moments.name() {
        return take_moments(texts, object_reader, seen);
    }
    pass(object_reader)?;
    Ok(())
}

/// Takes the members of an object, all of them to come.
fn take_members(
    texts: &mut Texts,
    object_reader: &mut ObjectReader<'_>,
    seen: &mut Seen,
) -> Result<(), NotGiven>
    requires { HoldsSeen seen.old no_members }
    ensures { OnOk result ((ms : Members) × IsRestOf object_reader.old no_members ms × HoldsSeen seen.new ms) }
{
    while let Some(key) = object_reader.next_key()? {
        take_member(texts, object_reader, key, seen)?;
    }
    Ok(())
}

/// Nothing came yet.
fn nothing_seen() -> Seen
    ensures { HoldsSeen result no_members }
{
    Seen {
        exit: None,
        sources: None,
        moments: None,
    }
}

/// The recording of what came, where nothing is missing.
fn recording_seen(seen: Seen) -> Option<Recording>
    ensures { IfSome result (λ recording. (ms : Members) → HoldsSeen seen ms → recording_of (object ms) ≡ Ok recording) }
{
    let Seen {
        exit,
        sources,
        moments,
    } = seen;
    let (Some(exit), Some(sources), Some((moments, numbers))) = (exit, sources, moments) else {
        return None;
    };
    Some(numbers.into_recording(exit, sources, moments.into_vec()))
}

/// The recording that bytes are, if it is given here.
pub(crate) fn recording(texts: &mut Texts, bytes: &[u8]) -> Option<Recording>
    ensures { IfSome result (λ recording. verdict_of (json_of bytes.now) ≡ Ok recording) }
{
    let mut scratch = Scratch::new(texts.alloc);
    let Ok(mut object_reader) = ObjectReader::open(bytes, &mut scratch) else {
        return None;
    };
    let mut seen = nothing_seen();
    let Ok(()) = take_members(texts, &mut object_reader, &mut seen) else {
        return None;
    };
    let recording = recording_seen(seen)?;
    Some(recording)
}
