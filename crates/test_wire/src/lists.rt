//! The lists that bodies have, made of rows.

use dap_body::{Breakpoint, Scope, Source, StackFrame, Thread, Variable};
use dap_json::{More, Text};
use std::alloc::{AllocError, Global};

/// The name, path and reference of a source, 0 where it has none.
pub(crate) type SourceRow = (&'static str, Option<&'static str>, u32);

/// The number, name, source, line and column of a frame.
pub(crate) type FrameRow = (u32, &'static str, Option<SourceRow>, u32, u32);

pub(crate) fn breakpoints(
    alloc: Global,
    rows: &[(u64, u32, bool)],
) -> Result<Vec<Breakpoint>, AllocError> {
    let mut breakpoints = Vec::new(alloc);
    for (id, line, verified) in rows {
        breakpoints.push(Breakpoint {
            id: *id,
            line: *line,
            verified: *verified,
            message: None,
            more: More::none(),
        })?;
    }
    Ok(breakpoints)
}

pub(crate) fn threads(
    alloc: Global,
    rows: &[(i64, &'static str)],
) -> Result<Vec<Thread>, AllocError> {
    let mut threads = Vec::new(alloc);
    for (id, name) in rows {
        let name = Text::copied(alloc, name)?;
        threads.push(Thread {
            id: *id,
            name,
            more: More::none(),
        })?;
    }
    Ok(threads)
}

pub(crate) fn scopes(
    alloc: Global,
    rows: &[(&'static str, u32)],
) -> Result<Vec<Scope>, AllocError> {
    let mut scopes = Vec::new(alloc);
    for (name, variables_reference) in rows {
        scopes.push(Scope {
            name: Text::copied(alloc, name)?,
            variables_reference: *variables_reference,
            more: More::none(),
        })?;
    }
    Ok(scopes)
}

fn pair(alloc: Global, first: &str, second: &str) -> Result<(Text, Text), AllocError> {
    let first = Text::copied(alloc, first)?;
    Ok((first, Text::copied(alloc, second)?))
}

pub(crate) fn variables(
    alloc: Global,
    rows: &[(&'static str, &'static str, u32)],
) -> Result<Vec<Variable>, AllocError> {
    let mut variables = Vec::new(alloc);
    for (name, value, variables_reference) in rows {
        let (name, value) = pair(alloc, name, value)?;
        variables.push(Variable {
            name,
            value,
            variables_reference: *variables_reference,
            more: More::none(),
        })?;
    }
    Ok(variables)
}

fn source(alloc: Global, row: SourceRow) -> Result<Source, AllocError> {
    let (name, path, reference) = row;
    let source_reference = if reference > 0 { Some(reference) } else { None };
    let path = match path {
        None => None,
        Some(path) => Some(Text::copied(alloc, path)?),
    };
    Ok(Source {
        name: Text::copied(alloc, name)?,
        path,
        source_reference,
        more: More::none(),
    })
}

pub(crate) fn sources(alloc: Global, rows: &[SourceRow]) -> Result<Vec<Source>, AllocError> {
    let mut sources = Vec::new(alloc);
    for row in rows {
        sources.push(source(alloc, *row)?)?;
    }
    Ok(sources)
}

fn frame(alloc: Global, row: FrameRow) -> Result<StackFrame, AllocError> {
    let (id, name, of, line, column) = row;
    let source = match of {
        None => None,
        Some(of) => Some(source(alloc, of)?),
    };
    Ok(StackFrame {
        id,
        name: Text::copied(alloc, name)?,
        source,
        line,
        column,
        more: More::none(),
    })
}

pub(crate) fn frames(alloc: Global, rows: &[FrameRow]) -> Result<Vec<StackFrame>, AllocError> {
    let mut frames = Vec::new(alloc);
    for row in rows {
        frames.push(frame(alloc, *row)?)?;
    }
    Ok(frames)
}
