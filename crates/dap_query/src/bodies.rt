//! What a debuggee answers, in the forms that bodies have: its lists, each with the numbers that were given for it.
ghost use Rattle.std.specs.Prelude.{◌≡◌, ◌≤◌, map, length, take, drop, Some, IfOk, option_map};
ghost use Rattle.std.specs.List.{zip};
ghost use Rattle.dap_debuggee.specs.declared.answers.Frame.{Frame as FrameWord};
ghost use Rattle.dap_debuggee.specs.declared.answers.Scope.{Scope as ScopeWord};
ghost use Rattle.dap_debuggee.specs.declared.answers.Variable.{Variable as VariableWord};
ghost use Rattle.dap_tables.specs.References.{frame_of, holder_of};
ghost use Rattle.dap_debuggee.specs.Shown.{window};
ghost use Rattle.dap_query.specs.Bodies.{protocol_thread, numbered_source, reference_of, protocol_sources, source_of_frame, optional_source_of_frame, column_shown, frame_with, protocol_frame, protocol_scope, protocol_variable, with_numbers};

use crate::options::Options;
use dap_body::StackFrame;
use dap_debuggee::{Debuggee, DebuggeeFault, Frame, Scope, Source, Thread, Variable};
use dap_json::{More, Text};
use dap_tables::{ReferenceKind, Target};
use std::alloc::{AllocError, Global};

fn from_start<T: Drop>(alloc: Global, start: u32, items: Vec<T>) -> Result<Vec<T>, AllocError>
    ensures { IfOk result (λ part. part.items ≡ drop start items.items) }
{
    if start == 0 {
        return Ok(items);
    }
    items.into_iter().skip(start as usize).collect(alloc)
}

fn part<T: Drop>(alloc: Global, start: u32, count: u32, items: Vec<T>) -> Result<Vec<T>, AllocError>
    ensures { IfOk result (λ part. part.items ≡ take count (drop start items.items)) }
{
    items
        .into_iter()
        .skip(start as usize)
        .take(count as usize)
        .collect(alloc)
}

/// From `start` on, at most `count` where that is above 0.
pub(crate) fn window<T: Drop>(
    alloc: Global,
    start: u32,
    count: u32,
    items: Vec<T>,
) -> Result<Vec<T>, AllocError>
    ensures { IfOk result (λ part. part.items ≡ window start count items.items) }
{
    if 0 < count {
        part(alloc, start, count, items)
    } else {
        from_start(alloc, start, items)
    }
}

// ---- what has a number

fn frame(object: u64) -> Target
    ensures { result ≡ frame_of object }
{
    Target {
        kind: ReferenceKind::Frame,
        object,
    }
}

fn holder(object: u64) -> Target
    ensures { result ≡ holder_of object }
{
    Target {
        kind: ReferenceKind::Holder,
        object,
    }
}

/// What holds the parts of a value, where it has some.
pub(crate) fn holder_in(object: Option<u64>) -> Option<Target>
    ensures { result ≡ option_map holder_of object }
{
    match object {
        None => None,
        Some(object) => Some(holder(object)),
    }
}

/// What the numbers of frames name.
pub(crate) fn frames_named(
    alloc: Global,
    frames: &[Frame],
) -> Result<Vec<Option<Target>>, AllocError>
    ensures { IfOk result (λ named. named.items ≡ map (λ (f : FrameWord). Some (frame_of f.object)) frames.now) }
{
    let mut named = Vec::with_capacity(alloc, frames.len())?;
    for told in frames {
        named.push(Some(frame(told.object)))?;
    }
    Ok(named)
}

/// What the numbers of scopes name.
pub(crate) fn scopes_named(
    alloc: Global,
    scopes: &[Scope],
) -> Result<Vec<Option<Target>>, AllocError>
    ensures { IfOk result (λ named. named.items ≡ map (λ (x : ScopeWord). Some (holder_of x.holder)) scopes.now) }
{
    let mut named = Vec::with_capacity(alloc, scopes.len())?;
    for told in scopes {
        named.push(Some(holder(told.holder)))?;
    }
    Ok(named)
}

/// What the numbers of variables name.
pub(crate) fn variables_named(
    alloc: Global,
    variables: &[Variable],
) -> Result<Vec<Option<Target>>, AllocError>
    ensures { IfOk result (λ named. named.items ≡ map (λ (x : VariableWord). option_map holder_of x.holder) variables.now) }
{
    let mut named = Vec::with_capacity(alloc, variables.len())?;
    for told in variables {
        named.push(holder_in(told.holder))?;
    }
    Ok(named)
}

// ---- lists of bodies

fn protocol_thread(thread: Thread) -> dap_body::Thread
    ensures { result ≡ protocol_thread thread }
{
    let Thread { id, name, more } = thread;
    dap_body::Thread { id, name, more }
}

pub(crate) fn protocol_threads(
    alloc: Global,
    threads: Vec<Thread>,
) -> Result<Vec<dap_body::Thread>, AllocError>
    ensures { IfOk result (λ told. told.items ≡ map protocol_thread threads.items) }
{
    threads
        .into_iter()
        .map(|told| protocol_thread(told))
        .collect(alloc)
}

/// The number by which a client asks for the text of a source; none where it reads the file itself.
fn reference_of(number: u32, source: &Source) -> Option<u32>
    ensures { result ≡ reference_of number source.now }
{
    if source.on_disk && source.path.is_some() {
        None
    } else {
        Some(number)
    }
}

fn numbered_source(number: u32, source: Source) -> dap_body::Source
    ensures { result ≡ numbered_source number source }
{
    let source_reference = reference_of(number, &source);
    let Source {
        name,
        path,
        on_disk: _,
        more,
    } = source;
    dap_body::Source {
        name,
        path,
        source_reference,
        more,
    }
}

/// Sources with their numbers, from 1.
pub(crate) fn protocol_sources(
    alloc: Global,
    sources: Vec<Source>,
) -> Result<Vec<dap_body::Source>, AllocError>
    requires { length sources.items ≤ 65536 }
    ensures { IfOk result (λ told. told.items ≡ protocol_sources sources.items) }
{
    let past = sources.len() as u32 + 1;
    (1..past)
        .zip(sources)
        .map(|(number, source)| numbered_source(number, source))
        .collect(alloc)
}

/// The source of a frame. At an index past the sources it has no name, and the number 0.
fn source_of_frame<D: Debuggee>(
    alloc: Global,
    debuggee: &D,
    index: u32,
) -> Result<dap_body::Source, AllocError>
    ensures { IfOk result (λ told. told ≡ source_of_frame (D.shown debuggee.now).sources index) }
{
    match debuggee.source(alloc, index) {
        Ok(source) => Ok(numbered_source(index + 1, source)),
        Err(DebuggeeFault::Refused) => Ok(dap_body::Source {
            name: Text::copied(alloc, "")?,
            path: None,
            source_reference: Some(0),
            more: More::none(),
        }),
        Err(DebuggeeFault::OutOfMemory) => Err(AllocError),
    }
}

/// The source of a frame, where it has one.
fn optional_source_of_frame<D: Debuggee>(
    alloc: Global,
    debuggee: &D,
    source: Option<u32>,
) -> Result<Option<dap_body::Source>, AllocError>
    ensures { IfOk result (λ told. told ≡ optional_source_of_frame (D.shown debuggee.now).sources source) }
{
    match source {
        None => Ok(None),
        Some(index) => Ok(Some(source_of_frame(alloc, debuggee, index)?)),
    }
}

/// The source of each frame.
fn sources_of_frames<D: Debuggee>(
    alloc: Global,
    debuggee: &D,
    frames: &[Frame],
) -> Result<Vec<Option<dap_body::Source>>, AllocError>
    ensures { IfOk result (λ told. told.items ≡ map (λ (f : FrameWord). optional_source_of_frame (D.shown debuggee.now).sources f.source) frames.now) }
{
    let mut told = Vec::with_capacity(alloc, frames.len())?;
    for frame in frames {
        told.push(optional_source_of_frame(alloc, debuggee, frame.source)?)?;
    }
    Ok(told)
}

fn column_shown(options: Options) -> u32
    ensures { result ≡ column_shown options }
{
    if options.columns_start_at_1 { 1 } else { 0 }
}

/// A frame as it is told. Where it has no source, its line and its column are 0: Specification, "StackFrame".
fn frame_with(
    options: Options,
    id: u32,
    frame: Frame,
    source: Option<dap_body::Source>,
) -> StackFrame
    ensures { result ≡ frame_with options id frame source }
{
    let Frame {
        object: _,
        name,
        source: _,
        line,
        more,
    } = frame;
    match source {
        None => StackFrame {
            id,
            name,
            source: None,
            line: 0,
            column: 0,
            more,
        },
        Some(source) => StackFrame {
            id,
            name,
            source: Some(source),
            line: options.line_shown(line),
            column: column_shown(options),
            more,
        },
    }
}

fn frames_with(
    alloc: Global,
    options: Options,
    ids: Vec<u32>,
    frames: Vec<Frame>,
    sources: Vec<Option<dap_body::Source>>,
) -> Result<Vec<StackFrame>, AllocError>
    ensures { IfOk result (λ told. told.items ≡ map (λ p. frame_with options p.0 p.1.0 p.1.1) (zip ids.items (zip frames.items sources.items))) }
{
    ids.into_iter()
        .zip(frames.into_iter().zip(sources))
        .map(|(id, (frame, source))| frame_with(options, id, frame, source))
        .collect(alloc)
}

/// Frames with their numbers and their sources.
pub(crate) fn protocol_frames<D: Debuggee>(
    alloc: Global,
    options: Options,
    debuggee: &D,
    ids: Vec<u32>,
    frames: Vec<Frame>,
) -> Result<Vec<StackFrame>, AllocError>
    ensures { IfOk result (λ told. told.items ≡ with_numbers (protocol_frame options (D.shown debuggee.now).sources) ids.items frames.items) }
{
    let sources = sources_of_frames(alloc, debuggee, &frames)?;
    frames_with(alloc, options, ids, frames, sources)
}

fn protocol_scope(number: u32, scope: Scope) -> dap_body::Scope
    ensures { result ≡ protocol_scope number scope }
{
    let Scope {
        name,
        holder: _,
        more,
    } = scope;
    dap_body::Scope {
        name,
        variables_reference: number,
        more,
    }
}

/// Scopes with their numbers.
pub(crate) fn protocol_scopes(
    alloc: Global,
    numbers: Vec<u32>,
    scopes: Vec<Scope>,
) -> Result<Vec<dap_body::Scope>, AllocError>
    ensures { IfOk result (λ told. told.items ≡ with_numbers protocol_scope numbers.items scopes.items) }
{
    numbers
        .into_iter()
        .zip(scopes)
        .map(|(number, scope)| protocol_scope(number, scope))
        .collect(alloc)
}

fn protocol_variable(number: u32, variable: Variable) -> dap_body::Variable
    ensures { result ≡ protocol_variable number variable }
{
    let Variable {
        name,
        value,
        holder: _,
        more,
    } = variable;
    dap_body::Variable {
        name,
        value,
        variables_reference: number,
        more,
    }
}

/// Variables with their numbers.
pub(crate) fn protocol_variables(
    alloc: Global,
    numbers: Vec<u32>,
    variables: Vec<Variable>,
) -> Result<Vec<dap_body::Variable>, AllocError>
    ensures { IfOk result (λ told. told.items ≡ with_numbers protocol_variable numbers.items variables.items) }
{
    numbers
        .into_iter()
        .zip(variables)
        .map(|(number, variable)| protocol_variable(number, variable))
        .collect(alloc)
}
