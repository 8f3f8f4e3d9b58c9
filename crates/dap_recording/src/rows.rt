//! From JSON to a recording: a function for each row of keys, which tests them in the order of the format.
ghost use Rattle.std.specs.Prelude.{◌≡◌, ◌≤◌, ◌++◌, [], length, IfOk, OnOk};
ghost use Rattle.serde_json.specs.View.{view, items_view};
ghost use Rattle.dap_recording.specs.declared.reading.RecordingKey.TheVariants as key;
ghost use Rattle.dap_recording.specs.Places.{value_at};
ghost use Rattle.dap_recording.specs.PrivateStops.{Finds, FindsWith, FindsList, FindsListWith};
ghost use Rattle.dap_recording.specs.Reading.{Numbered, none_numbered, untold_of, stop_of, source_at, line_at, new_id_at, thread_place_at, frame_source as frame_source_of, frame_line as frame_line_of, read_variables, variable_row, variables_of, holder_of, with_holder, each, each_source, scope_of, scopes_of, frame_of, thread_of, moment_of, moments_of, source_of, recording_of, lines_at, place_of, source_rows as source_rows_of, sources_at as sources_at_of, moment_alone as moment_alone_of};

use crate::place::JsonKind;
use crate::read_threads::ReadThreads;
use crate::reading::{RecordingKey, Teller};
use crate::recording::{Moment, OwnStop, RecordedSource, RecordedThread, Recording, Span};
use crate::snapshot::Snapshot;
use crate::sources::Sources;
use crate::stop::Stop;
use crate::texts::Texts;
use crate::{causes, numbers, reading, stop};
use dap_debuggee::{Frame, Scope, Variable};
use dap_json::List;
use serde_json::Value;
use std::alloc::{AllocError, Global};
use std::marker::Model;

// ---- variables

/// Keeps variables under the next number, where there are some.
fn holder(
    inner: Vec<Variable>,
    holders: &mut Vec<List<Variable>>,
) -> Result<Option<u64>, AllocError>
    ensures holder { IfOk result (λ o. o ≡ holder_of inner.items holders.old.items) }
    ensures holders { IfOk result (λ _. holders.new.items ≡ with_holder inner.items holders.old.items) }
{
    if inner.is_empty() {
        return Ok(None);
    }
    let number = holders.len() as u64;
    holders.push(List::new(inner))?;
    Ok(Some(number))
}

/// A variable, whose children get their numbers before it.
#[cycle(variables)]
fn variable(
    texts: &mut Texts,
    value: &Value,
    holders: &mut Vec<List<Variable>>,
) -> Result<Variable, Stop>
    ensures { FindsWith result holders.new.items (variable_row (view value.now) holders.old.items) }
{
    let name = reading::text(texts, value, RecordingKey::Name)?;
    let text = reading::text(texts, value, RecordingKey::Value)?;
    let inner = children(texts, value, holders)?;
    let more = reading::more(texts, value)?;
    let holder = holder(inner, holders)?;
    Ok(Variable {
        name,
        value: text,
        holder,
        more,
    })
}

/// The variables at the key for them.
#[cycle(variables)]
fn children(
    texts: &mut Texts,
    value: &Value,
    holders: &mut Vec<List<Variable>>,
) -> Result<Vec<Variable>, Stop>
    ensures { FindsListWith result holders.new.items (read_variables (value_at key.Variables (view value.now)) holders.old.items) }
{
    match value.get(RecordingKey::Variables.name()) {
        None => Ok(Vec::new(texts.alloc)),
        Some(inner) => variables(texts, inner, holders),
    }
}

#[cycle(variables)]
fn variables(
    texts: &mut Texts,
    value: &Value,
    holders: &mut Vec<List<Variable>>,
) -> Result<Vec<Variable>, Stop>
    ensures { FindsListWith result holders.new.items (variables_of (view value.now) holders.old.items) }
{
    let Some(items) = value.as_array() else {
        return Err(stop::other(texts.alloc, RecordingKey::Variables, value, JsonKind::Array));
    };
    let mut found = Vec::with_capacity(texts.alloc, items.len())?;
    for item in items {
        let index = found.len();
        stop::element(texts.alloc, item, RecordingKey::Variables, index)?;
        match variable(texts, item, holders) {
            Ok(variable) => found.push(variable)?,
            Err(why) => return Err(stop::within(texts.alloc, why, RecordingKey::Variables, index)),
        }
    }
    Ok(found)
}

// ---- scopes, frames and threads

#[tactic(auto, unfolding(crate::specs::Reading::scope_of))]
fn scope(texts: &mut Texts, value: &Value, holders: &mut Vec<List<Variable>>) -> Result<Scope, Stop>
    ensures { FindsWith result holders.new.items (scope_of (view value.now) holders.old.items) }
{
    let name = reading::text(texts, value, RecordingKey::Name)?;
    let inner = children(texts, value, holders)?;
    let more = reading::more(texts, value)?;
    let holder = holders.len() as u64;
    holders.push(List::new(inner))?;
    Ok(Scope { name, holder, more })
}

#[tactic(auto, unfolding(crate::specs::Reading::scopes_of))]
fn each_scope(
    texts: &mut Texts,
    items: &[Value],
    holders: &mut Vec<List<Variable>>,
) -> Result<Vec<Scope>, Stop>
    ensures { FindsListWith result holders.new.items (scopes_of (items_view items.now) holders.old.items) }
{
    let mut found = Vec::with_capacity(texts.alloc, items.len())?;
    for item in items {
        let index = found.len();
        stop::element(texts.alloc, item, RecordingKey::Scopes, index)?;
        match scope(texts, item, holders) {
            Ok(scope) => found.push(scope)?,
            Err(why) => return Err(stop::within(texts.alloc, why, RecordingKey::Scopes, index)),
        }
    }
    Ok(found)
}

/// Adds the holders of those scopes that have no key for variables.
fn add_untold(items: &[Value], scopes: &[Scope], untold: &mut Vec<u64>) -> Result<(), AllocError>
    ensures { OnOk result (untold.new.items ≡ untold.old.items ++ untold_of (items_view items.now) scopes.now) }
{
    for (i, scope) in scopes.iter().enumerate() {
        let Some(item) = items.get(i) else {
            return Ok(());
        };
        if item.get(RecordingKey::Variables.name()).is_none() {
            untold.push(scope.holder)?;
        }
    }
    Ok(())
}

/// The scopes and the variables so far, by the numbers of their frames and their holders.
#[derive(Drop)]
pub(crate) struct Numbers {
    scopes: Vec<List<Scope>>,
    variables: Vec<List<Variable>>,
    untold: Vec<u64>,
}

impl Model for Numbers {
    ghost use Rattle.std.specs.Coded.{codes};
    ghost use Rattle.dap_json.specs.Stored.{coded_data};
    ghost use Rattle.dap_recording.specs.Reading.{Numbered};

    ghost Value = { Numbered };

    ghost coded = { Prim.hlevel (codes, coded_data) };

    ghost view = { λ n. record { scopes = n.scopes.items; variables = n.variables.items; untold = n.untold.items } };
}

/// The place of one of the sources.
fn source_place(alloc: Global, sources: &[RecordedSource], value: &Value) -> Result<u32, Stop>
    ensures { Finds result (source_at sources.now (view value.now)) }
{
    let found = reading::present(alloc, value, RecordingKey::Source)?;
    match numbers::number(found) {
        Some(place) if (place as usize) < sources.len() => Ok(place),
        _ => {
            let cause = causes::no_source(found, sources.len() as u64);
            Err(stop::here(alloc, RecordingKey::Source, cause))
        }
    }
}

/// A line of a text that has so many.
fn line(alloc: Global, lines: u64, value: &Value) -> Result<u32, Stop>
    ensures { Finds result (line_at lines (view value.now)) }
{
    let found = reading::present(alloc, value, RecordingKey::Line)?;
    match numbers::number(found) {
        Some(line) if 1 <= line && line as u64 <= lines => Ok(line),
        _ => {
            let cause = causes::no_line(found, lines);
            Err(stop::here(alloc, RecordingKey::Line, cause))
        }
    }
}

/// The source of a frame.
fn frame_source(
    alloc: Global,
    teller: Teller,
    sources: &[RecordedSource],
    value: &Value,
) -> Result<Option<u32>, Stop>
    ensures { Finds result (frame_source_of teller sources.now (view value.now)) }
{
    if teller == Teller::Host && value.get(RecordingKey::Source.name()).is_none() {
        return Ok(None);
    }
    Ok(Some(source_place(alloc, sources, value)?))
}

fn lines_of(sources: &[RecordedSource], place: u32) -> u64
    ensures { result ≡ lines_at sources.now place }
{
    match sources.get(place as usize) {
        Some(source) => source.lines,
        None => 0,
    }
}

/// The line of a frame in its source, if it has one.
fn frame_line(
    alloc: Global,
    sources: &[RecordedSource],
    source: Option<u32>,
    value: &Value,
) -> Result<u32, Stop>
    ensures { Finds result (frame_line_of sources.now source (view value.now)) }
{
    match source {
        None => Ok(0),
        Some(source) => line(alloc, lines_of(sources, source), value),
    }
}

/// A frame, whose number is the count of those before it.
#[tactic(auto, unfolding(crate::specs::Reading::frame_of))]
fn frame(
    texts: &mut Texts,
    teller: Teller,
    sources: &[RecordedSource],
    value: &Value,
    numbers: &mut Numbers,
) -> Result<Frame, Stop>
    ensures { FindsWith result numbers.new (frame_of teller sources.now (view value.now) numbers.old) }
{
    let name = reading::text(texts, value, RecordingKey::Name)?;
    let source = frame_source(texts.alloc, teller, sources, value)?;
    let line = frame_line(texts.alloc, sources, source, value)?;
    let items = reading::items_if_any(texts.alloc, value, RecordingKey::Scopes)?;
    let scopes = each_scope(texts, items, &mut numbers.variables)?;
    let more = reading::more(texts, value)?;
    add_untold(items, &scopes, &mut numbers.untold)?;
    let object = numbers.scopes.len() as u64;
    numbers.scopes.push(List::new(scopes))?;
    Ok(Frame {
        object,
        name,
        source,
        line,
        more,
    })
}

fn frames(
    texts: &mut Texts,
    teller: Teller,
    sources: &[RecordedSource],
    items: &[Value],
    numbers: &mut Numbers,
) -> Result<Vec<Frame>, Stop>
    ensures { FindsListWith result numbers.new (each key.Frames (λ earlier. frame_of teller sources.now) (items_view items.now) [] numbers.old) }
{
    let mut found = Vec::with_capacity(texts.alloc, items.len())?;
    for item in items {
        let index = found.len();
        stop::element(texts.alloc, item, RecordingKey::Frames, index)?;
        match frame(texts, teller, sources, item, numbers) {
            Ok(frame) => found.push(frame)?,
            Err(why) => return Err(stop::within(texts.alloc, why, RecordingKey::Frames, index)),
        }
    }
    Ok(found)
}

/// The place of the thread with an id.
fn place(id: i64, threads: &[RecordedThread]) -> Option<usize>
    ensures { result ≡ place_of id threads.now }
{
    for (i, thread) in threads.iter().enumerate() {
        if thread.id == id {
            return Some(i);
        }
    }
    None
}

/// An id that no earlier thread has.
fn new_id(alloc: Global, earlier: &ReadThreads, value: &Value) -> Result<i64, Stop>
    ensures { Finds result (new_id_at earlier.now (view value.now)) }
{
    let found = reading::present(alloc, value, RecordingKey::Id)?;
    match numbers::int(found) {
        Some(id) if !earlier.has(id) => Ok(id),
        _ => {
            let cause = causes::no_new_id(found);
            Err(stop::here(alloc, RecordingKey::Id, cause))
        }
    }
}

/// The place of the thread that a moment names.
fn thread_place(alloc: Global, threads: &[RecordedThread], value: &Value) -> Result<usize, Stop>
    ensures { Finds result (thread_place_at threads.now (view value.now)) }
{
    let found = reading::present(alloc, value, RecordingKey::Thread)?;
    match numbers::int(found).and_then(|id| place(id, threads)) {
        Some(place) => Ok(place),
        None => {
            let cause = causes::no_thread(found);
            Err(stop::here(alloc, RecordingKey::Thread, cause))
        }
    }
}

#[tactic(auto, unfolding(crate::specs::Reading::thread_of))]
fn thread(
    texts: &mut Texts,
    teller: Teller,
    sources: &[RecordedSource],
    earlier: &ReadThreads,
    value: &Value,
    numbers: &mut Numbers,
) -> Result<RecordedThread, Stop>
    ensures { FindsWith result numbers.new (thread_of teller sources.now earlier.now (view value.now) numbers.old) }
{
    let id = new_id(texts.alloc, earlier, value)?;
    let name = reading::text(texts, value, RecordingKey::Name)?;
    let items = reading::some_items(texts.alloc, value, RecordingKey::Frames)?;
    let frames = frames(texts, teller, sources, items, numbers)?;
    let more = reading::more(texts, value)?;
    Ok(RecordedThread {
        id,
        name,
        frames: List::new(frames),
        more,
    })
}

fn threads(
    texts: &mut Texts,
    teller: Teller,
    sources: &[RecordedSource],
    items: &[Value],
    numbers: &mut Numbers,
) -> Result<Vec<RecordedThread>, Stop>
    ensures { FindsListWith result numbers.new (each key.Threads (thread_of teller sources.now) (items_view items.now) [] numbers.old) }
{
    let mut found = ReadThreads::with_capacity(texts.alloc, items.len())?;
    for item in items {
        let index = found.len();
        stop::element(texts.alloc, item, RecordingKey::Threads, index)?;
        match thread(texts, teller, sources, &found, item, numbers) {
            Ok(thread) => found = found.with(thread)?,
            Err(why) => return Err(stop::within(texts.alloc, why, RecordingKey::Threads, index)),
        }
    }
    Ok(found.into_vec())
}

// ---- the whole

/// Why a run stops at a moment, where it always does.
#[tactic(auto, unfolding(crate::specs::Reading::stop_of))]
fn own_stop(texts: &mut Texts, value: &Value) -> Result<Option<OwnStop>, Stop>
    ensures { Finds result (stop_of (view value.now)) }
{
    let reason = reading::short_text(texts, value, numbers::MAX_REASON, RecordingKey::Stop)?;
    let description = reading::short_text(
        texts,
        value,
        numbers::MAX_WORDS,
        RecordingKey::Description,
    )?;
    let text = reading::short_text(texts, value, numbers::MAX_WORDS, RecordingKey::Text)?;
    let Some(reason) = reason else {
        return Ok(None);
    };
    Ok(Some(OwnStop {
        reason,
        description,
        text,
    }))
}

#[tactic(auto, unfolding(crate::specs::Reading::moment_of))]
pub(crate) fn moment(
    texts: &mut Texts,
    teller: Teller,
    sources: &[RecordedSource],
    value: &Value,
    numbers: &mut Numbers,
) -> Result<Moment, Stop>
    ensures { FindsWith result numbers.new (moment_of teller sources.now (view value.now) numbers.old) }
{
    let items = reading::items(texts.alloc, value, RecordingKey::Threads)?;
    let frames_from = numbers.scopes.len() as u64;
    let holders_from = numbers.variables.len() as u64;
    let threads = threads(texts, teller, sources, items, numbers)?;
    let frames = Span {
        from: frames_from,
        to: numbers.scopes.len() as u64,
    };
    let holders = Span {
        from: holders_from,
        to: numbers.variables.len() as u64,
    };
    let thread = thread_place(texts.alloc, &threads, value)?;
    let output = reading::text_or_empty(texts, value, RecordingKey::Output)?;
    let waits = reading::flag(texts.alloc, value, RecordingKey::Waits)?;
    let stop = own_stop(texts, value)?;
    Ok(Moment {
        threads: List::new(threads),
        thread,
        output,
        waits,
        stop,
        frames,
        holders,
    })
}

#[tactic(auto, unfolding(crate::specs::Reading::moments_of))]
fn moments(
    texts: &mut Texts,
    sources: &[RecordedSource],
    items: &[Value],
    numbers: &mut Numbers,
) -> Result<Vec<Moment>, Stop>
    ensures { FindsListWith result numbers.new (moments_of sources.now (items_view items.now) numbers.old) }
{
    let mut found = Vec::with_capacity(texts.alloc, items.len())?;
    for item in items {
        let index = found.len();
        stop::element(texts.alloc, item, RecordingKey::Moments, index)?;
        match moment(texts, Teller::Recording, sources, item, numbers) {
            Ok(moment) => found.push(moment)?,
            Err(why) => return Err(stop::within(texts.alloc, why, RecordingKey::Moments, index)),
        }
    }
    Ok(found)
}

#[tactic(auto, unfolding(crate::specs::Reading::source_of))]
fn source(texts: &mut Texts, value: &Value) -> Result<RecordedSource, Stop>
    ensures { Finds result (source_of (view value.now)) }
{
    let name = reading::text(texts, value, RecordingKey::Name)?;
    let path = reading::optional_text(texts, value, RecordingKey::Path)?;
    let text = reading::text(texts, value, RecordingKey::Text)?;
    let on_disk = reading::flag(texts.alloc, value, RecordingKey::OnDisk)?;
    let more = reading::more(texts, value)?;
    let lines = numbers::line_count(text.as_str());
    Ok(RecordedSource {
        name,
        path,
        text,
        on_disk,
        lines,
        more,
    })
}

pub(crate) fn sources(texts: &mut Texts, items: &[Value]) -> Result<Vec<RecordedSource>, Stop>
    ensures { FindsList result (each_source (items_view items.now) []) }
{
    let mut found = Vec::with_capacity(texts.alloc, items.len())?;
    for item in items {
        let index = found.len();
        stop::element(texts.alloc, item, RecordingKey::Sources, index)?;
        match source(texts, item) {
            Ok(source) => found.push(source)?,
            Err(why) => return Err(stop::within(texts.alloc, why, RecordingKey::Sources, index)),
        }
    }
    Ok(found)
}

impl Numbers {
    ghost use Rattle.dap_recording.specs.Reading.{Numbered, numbered_alone};
    ghost use Rattle.dap_recording.specs.Snapshot.{IsAlone};

    pub(crate) fn new(alloc: Global) -> Numbers
        ensures { result ≡ none_numbered }
    {
        Numbers {
            scopes: Vec::new(alloc),
            variables: Vec::new(alloc),
            untold: Vec::new(alloc),
        }
    }

    pub(crate) fn into_recording(
        self,
        exit: i32,
        sources: Sources,
        moments: Vec<Moment>,
    ) -> Recording
        ensures { result ≡ record { exit = exit; sources = sources; moments = moments.items; scopes = self.scopes; variables = self.variables; untold = self.untold } }
    {
        let Numbers {
            scopes,
            variables,
            untold,
        } = self;
        Recording {
            exit,
            sources,
            moments: List::new(moments),
            scopes: List::new(scopes),
            variables: List::new(variables),
            untold: List::new(untold),
        }
    }

    /// A moment with these numbers, by itself.
    pub(crate) fn into_snapshot(self, moment: Moment, sources: usize) -> Snapshot
        requires { IsAlone (numbered_alone sources (moment, self)) }
        ensures { result ≡ numbered_alone sources (moment, self) }
    {
        let Numbers {
            scopes,
            variables,
            untold,
        } = self;
        Snapshot {
            moment,
            scopes: List::new(scopes),
            variables: List::new(variables),
            untold: List::new(untold),
            sources,
        }
    }
}

/// The sources that an array is, before the map of their paths is made.
pub(crate) fn source_rows(texts: &mut Texts, value: &Value) -> Result<Vec<RecordedSource>, Stop>
    ensures rows { FindsList result (source_rows_of (view value.now)) }
    ensures few { IfOk result (λ rows. length rows.items ≤ 65536) }
{
    let items = reading::few_items(texts.alloc, value, RecordingKey::Sources)?;
    let rows = sources(texts, items)?;
    Ok(rows)
}

/// The recording that an object is, or its first bad place.
#[tactic(auto, unfolding(crate::specs::Reading::recording_of))]
pub(crate) fn recording(texts: &mut Texts, value: &Value) -> Result<Recording, Stop>
    ensures { Finds result (recording_of (view value.now)) }
{
    let exit = reading::exit(texts.alloc, value)?;
    let found = reading::present(texts.alloc, value, RecordingKey::Sources)?;
    let rows = source_rows(texts, found)?;
    let items = reading::some_items(texts.alloc, value, RecordingKey::Moments)?;
    let mut numbers = Numbers::new(texts.alloc);
    let moments = moments(texts, &rows, items, &mut numbers)?;
    let sources = Sources::new(texts.alloc, rows)?;
    Ok(numbers.into_recording(exit, sources, moments))
}

/// The sources that an array is.
pub(crate) fn sources_in(texts: &mut Texts, value: &Value) -> Result<Sources, Stop>
    ensures { Finds result (source_rows_of (view value.now)) }
{
    let rows = source_rows(texts, value)?;
    Ok(Sources::new(texts.alloc, rows)?)
}

/// The sources of an object.
#[tactic(auto, unfolding(crate::specs::Reading::sources_at))]
pub(crate) fn sources_at(texts: &mut Texts, value: &Value) -> Result<Sources, Stop>
    ensures { Finds result (sources_at_of (view value.now)) }
{
    let found = reading::present(texts.alloc, value, RecordingKey::Sources)?;
    sources_in(texts, found)
}

/// One moment over sources.
#[tactic(auto, unfolding(crate::specs::Reading::moment_alone))]
pub(crate) fn moment_alone(
    texts: &mut Texts,
    sources: &[RecordedSource],
    value: &Value,
) -> Result<Snapshot, Stop>
    ensures { Finds result (moment_alone_of sources.now (view value.now)) }
{
    if !value.is_object() {
        return Err(stop::other(texts.alloc, RecordingKey::Moments, value, JsonKind::Object));
    }
    let mut numbers = Numbers::new(texts.alloc);
    let moment = moment(texts, Teller::Host, sources, value, &mut numbers)?;
    Ok(numbers.into_snapshot(moment, sources.len()))
}
