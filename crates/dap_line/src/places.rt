//! Where a host says that breakpoints are, as it is read.
ghost use Rattle.std.specs.Prelude.{◌≡◌, [], Some, IfOk, option_map, option_and_then};
ghost use Rattle.serde_json.specs.Find.{as_array, as_str};
ghost use Rattle.serde_json.specs.View.{view, items_view};
ghost use Rattle.dap_json.specs.Steps.{Returns};
ghost use Rattle.dap_line.specs.Told.{Gives, SaysKey, value_at, optional_at, optional_or, source_named, source_in as source_of, line_of, place_of, each_place, places_of, placed_in as placed_of, IsPlainSaid};

use crate::refusal::HostKey;
use crate::told::{Note, Said, Unread, at, beside_in};
use dap_command::SourceKey;
use dap_debuggee::Placement;
use dap_json::{List, More, Text, numbers};
use dap_live::Placed;
use serde_json::Value;
use std::alloc::{AllocError, Global};

/// How a source is named, or the key of what names none.
fn source_named(
    alloc: Global,
    path: Option<&str>,
    reference: u32,
) -> Result<Result<SourceKey, HostKey>, AllocError>
    ensures { IfOk result (λ named. named ≡ source_named (option_map (λ text. text.now) path.entry) reference) }
{
    match (path, reference) {
        (Some(path), _) => Ok(Ok(SourceKey::Path(Text::copied(alloc, path)?))),
        (None, 0) => Ok(Err(HostKey::Placed)),
        (None, reference) => Ok(Ok(SourceKey::Reference(reference))),
    }
}

#[tactic(auto, unfolding(crate::specs::Told::source_in))]
fn source_in(alloc: Global, source: &Value) -> Result<SourceKey, Unread>
    ensures { Gives result (source_of (view source.now)) }
{
    let path = at(source, HostKey::Path).optional_text()?;
    let reference = at(source, HostKey::SourceReference).number_or(0)?;
    let named = source_named(alloc, path, reference)?;
    Ok(named?)
}

/// A line, counted from 1.
fn line(value: &Value) -> Option<u32>
    ensures { result ≡ line_of (view value.now) }
{
    match numbers::number(value) {
        None | Some(0) => None,
        Some(line) => Some(line),
    }
}

/// Where a breakpoint is: where it is asked for where nothing else is said.
fn line_or(place: &Value, asked: u32) -> Result<u32, HostKey>
    ensures { result ≡ optional_or line_of asked HostKey.Line (view place.now) }
{
    match at(place, HostKey::Line).found {
        None => Ok(asked),
        Some(found) => line(found).ok_or(HostKey::Line),
    }
}

/// Why it can't stop, or what else is to be known of it.
fn message_in(alloc: Global, place: &Value) -> Result<Option<Text>, Unread>
    ensures { Gives result (optional_at as_str HostKey.Message (view place.now)) }
{
    match at(place, HostKey::Message).optional_text()? {
        None => Ok(None),
        Some(text) => Ok(Some(Text::copied(alloc, text)?)),
    }
}

/// The line that is asked for, and where its breakpoint is.
#[tactic(auto, unfolding(crate::specs::Told::place_of))]
fn place_in(alloc: Global, place: &Value) -> Result<(u32, Placement), Unread>
    ensures { Gives result (place_of (view place.now)) }
{
    let asked = at(place, HostKey::Asked).required_number()?;
    let line = line_or(place, asked)?;
    let verified = at(place, HostKey::Verified).flag_or(true)?;
    let message = message_in(alloc, place)?;
    let said = beside_in(alloc, place)?;
    let more = said?.unwrap_or(More::none());
    Ok((
        asked,
        Placement {
            verified,
            line,
            message,
            more,
        },
    ))
}

fn each_place(alloc: Global, items: &[Value]) -> Result<(Vec<u32>, Vec<Placement>), Unread>
    ensures { Returns (λ places. (places.0.items, places.1.items)) SaysKey result (each_place (items_view items.now) ([], [])) }
{
    let mut lines = Vec::with_capacity(alloc, items.len())?;
    let mut placements = Vec::with_capacity(alloc, items.len())?;
    for item in items {
        let (line, placement) = place_in(alloc, item)?;
        lines.push(line)?;
        placements.push(placement)?;
    }
    Ok((lines, placements))
}

fn places_in(alloc: Global, said: &Value) -> Result<(Vec<u32>, Vec<Placement>), Unread>
    ensures { Returns (λ places. (places.0.items, places.1.items)) SaysKey result (places_of (option_and_then as_array (value_at HostKey.Breakpoints (view said.now)))) }
{
    let items = at(said, HostKey::Breakpoints).required_items()?;
    each_place(alloc, items)
}

/// Where breakpoints are that are to be set in a source.
#[tactic(auto, unfolding(crate::specs::Told::placed_in))]
pub(crate) fn placed_in(alloc: Global, said: &Value) -> Result<Said, Unread>
    ensures gives { Gives result (placed_of (view said.now)) }
    ensures plain { IfOk result IsPlainSaid }
{
    let named = at(said, HostKey::Placed).found.ok_or(HostKey::Placed)?;
    let source = source_in(alloc, named)?;
    let (lines, placements) = places_in(alloc, said)?;
    Ok(Said::OfNext(Note::Places(Placed {
        source,
        lines: List::new(lines),
        placements: List::new(placements),
    })))
}
