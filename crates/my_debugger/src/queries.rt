//! What is shown of a program: its calls as frames and variables, and its source.
ghost use Rattle.std.specs.Prelude.{◌≡◌, [], ◌∷◌, IfOk, map, option_map};
ghost use Rattle.dap_debuggee.specs.Shown.{window as window_of};
ghost use Rattle.my_debugger.specs.ToyShown.{of_its_type, main_thread, line_of, frames_from, scope_of, local_named, variable_of, the_source, has_line, placed_in};

use crate::call::{Call, Local};
use crate::program::{NAME, PATH};
use dap_command::SourceKey;
use dap_debuggee::{Frame, Placement, Scope, Source, Thread, Variable};
use dap_json::{More, Text};
use std::alloc::{AllocError, Global};

/// The only thread.
pub(crate) fn threads(alloc: Global) -> Result<Vec<Thread>, AllocError>
    ensures { IfOk result (λ threads. threads.items ≡ main_thread ∷ []) }
{
    let mut threads = Vec::new(alloc);
    threads.push(Thread {
        id: 1,
        name: Text::copied(alloc, "main")?,
        more: More::none(),
    })?;
    Ok(threads)
}

/// The line that a call is at, counted from 1: at most 2147483647, the greatest one that there may be.
pub(crate) fn line(call: &Call) -> u32
    ensures { result ≡ line_of call.now }
{
    call.at.min(2147483646) + 1
}

/// The frames of calls, numbered from 0.
pub(crate) fn frames(alloc: Global, stack: &[Call]) -> Result<Vec<Frame>, AllocError>
    ensures { IfOk result (λ frames. frames.items ≡ frames_from 0 stack.now) }
{
    let mut frames = Vec::with_capacity(alloc, stack.len())?;
    for (number, call) in stack.iter().enumerate() {
        frames.push(Frame {
            object: number as u64,
            name: call.name.clone()?,
            source: Some(0),
            line: line(call),
            more: More::none(),
        })?;
    }
    Ok(frames)
}

/// The only scope of a frame. What holds its variables has the frame's number.
pub(crate) fn scopes(alloc: Global, frame: u64) -> Result<Vec<Scope>, AllocError>
    ensures { IfOk result (λ scopes. scopes.items ≡ scope_of frame ∷ []) }
{
    let mut scopes = Vec::new(alloc);
    scopes.push(Scope {
        name: Text::copied(alloc, "Locals")?,
        holder: frame,
        more: More::none(),
    })?;
    Ok(scopes)
}

/// The variable of a name.
pub(crate) fn named<'l>(locals: &'l [Local], name: &str) -> Option<&'l Local>
    ensures { option_map (λ local. local.now) result ≡ local_named name.now locals.now }
{
    for local in locals {
        if name == local.name.as_str() {
            return Some(local);
        }
    }
    None
}

/// From the place `start` on, counted from 0, at most `count` of them where `count` is above 0.
pub(crate) fn window(locals: &[Local], start: usize, count: usize) -> &[Local]
    ensures { result.now ≡ window_of start count locals.now }
{
    let (_, rest) = locals.split_at(start.min(locals.len()));
    if count == 0 {
        return rest;
    }
    let (part, _) = rest.split_at(count.min(rest.len()));
    part
}

/// Each value is a number, and its type says so to an editor that shows types.
pub(crate) fn of_its_type(alloc: Global) -> Result<More, AllocError>
    ensures { IfOk result (λ more. more ≡ of_its_type) }
{
    More::text(alloc, "type", "number")
}

pub(crate) fn variables(alloc: Global, locals: &[Local]) -> Result<Vec<Variable>, AllocError>
    ensures { IfOk result (λ variables. variables.items ≡ map variable_of locals.now) }
{
    let mut variables = Vec::with_capacity(alloc, locals.len())?;
    for local in locals {
        variables.push(Variable {
            name: local.name.clone()?,
            value: Text::new(local.value.to_string(alloc)?),
            holder: None,
            more: of_its_type(alloc)?,
        })?;
    }
    Ok(variables)
}

/// The only source. A client asks for its text by a number.
pub(crate) fn source(alloc: Global) -> Result<Source, AllocError>
    ensures { IfOk result (λ source. source ≡ the_source) }
{
    Ok(Source {
        name: Text::copied(alloc, NAME)?,
        path: Some(Text::copied(alloc, PATH)?),
        on_disk: false,
        more: More::none(),
    })
}

/// Whether a source has a line, counted from 1.
fn has_line(source: &SourceKey, line: u32) -> bool
    ensures { result ≡ has_line source.now line }
{
    match source {
        SourceKey::Path(path) => path.as_str() == PATH && (1 <= line && line <= 12),
        SourceKey::Reference(_) => false,
    }
}

/// Of each line, a breakpoint there, which can stop where the source has it.
pub(crate) fn verified(
    alloc: Global,
    source: &SourceKey,
    lines: &[u32],
) -> Result<Vec<Placement>, AllocError>
    ensures { IfOk result (λ answers. answers.items ≡ map (placed_in source.now) lines.now) }
{
    let mut answers = Vec::with_capacity(alloc, lines.len())?;
    for line in lines {
        answers.push(Placement::as_asked(*line, has_line(source, *line)))?;
    }
    Ok(answers)
}
