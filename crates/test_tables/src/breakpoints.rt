//! The table of breakpoints.

use crate::checks::judge;
use dap_command::SourceKey;
use dap_json::Text;
use dap_tables::{BpFault, Breakpoints};
use std::alloc::{AllocError, Global};
use std::test::Fail;

/// The name of a source.
#[derive(Clone, Copy)]
enum Name<'a> {
    Path(&'a str),
    Reference(u32),
}

fn source(alloc: Global, name: Name<'_>) -> Result<SourceKey, AllocError> {
    match name {
        Name::Path(path) => Ok(SourceKey::Path(Text::copied(alloc, path)?)),
        Name::Reference(reference) => Ok(SourceKey::Reference(reference)),
    }
}

/// A call of a table about a source, and what it answers.
#[derive(Clone, Copy)]
enum Op<'a> {
    /// The lines of the source are replaced.
    Replace(Name<'a>, &'a [u32], Result<u64, BpFault>),
    /// The lines of the source are checked.
    Check(Name<'a>, &'a [u32], Result<(), BpFault>),
    /// The breakpoints of the source.
    Show(Name<'a>, &'a [(u64, u32)]),
    /// How many breakpoints are set, whether none is, and the next id.
    Count(usize, bool, u64),
}

// What is seen of a table: how many breakpoints are set, the next id, and the first and the count of one source.
fn seen(table: &Breakpoints, source: &SourceKey) -> (usize, u64, Option<(u64, u32)>, usize) {
    let set = table.of_source(source);
    (
        table.len(),
        table.next_id(),
        set.first().copied(),
        set.len(),
    )
}

// Memory was refused: the table is as it was, and the next try is answered.
fn is_refused(
    table: &mut Breakpoints,
    before: (usize, u64, Option<(u64, u32)>, usize),
    source: &SourceKey,
    lines: &[u32],
    answer: Result<u64, BpFault>,
) -> Result<bool, AllocError> {
    if seen(table, source) == before && table.replace(source.clone()?, lines) == answer {
        Err(AllocError)
    } else {
        Ok(false)
    }
}

// Whether the lines of a source are replaced so.
fn replaces(
    table: &mut Breakpoints,
    source: &SourceKey,
    lines: &[u32],
    answer: Result<u64, BpFault>,
) -> Result<bool, AllocError> {
    let before = seen(table, source);
    match table.replace(source.clone()?, lines) {
        Err(BpFault::OutOfMemory) => is_refused(table, before, source, lines, answer),
        first => Ok(first == answer),
    }
}

// Whether a call answers what its row says.
fn is_done(alloc: Global, table: &mut Breakpoints, op: Op<'_>) -> Result<bool, AllocError> {
    match op {
        Op::Replace(name, lines, answer) => {
            let source = source(alloc, name)?;
            let is_so = replaces(table, &source, lines, answer);
            drop(source);
            is_so
        }
        Op::Check(name, lines, answer) => {
            let source = source(alloc, name)?;
            let found = table.check(&source, lines);
            drop(source);
            Ok(found == answer)
        }
        Op::Show(name, shown) => {
            let source = source(alloc, name)?;
            let is_so = table.of_source(&source) == shown;
            drop(source);
            Ok(is_so)
        }
        Op::Count(len, empty, next) => {
            Ok((table.len(), table.is_empty(), table.next_id()) == (len, empty, next))
        }
    }
}

// The place of the first call that answers something else.
fn other_call(
    alloc: Global,
    table: &mut Breakpoints,
    ops: &[Op<'_>],
) -> Result<Option<usize>, AllocError> {
    for (place, op) in ops.iter().enumerate() {
        if !is_done(alloc, table, *op)? {
            return Ok(Some(place));
        }
    }
    Ok(None)
}

// Likewise with a fresh table.
fn other(alloc: Global, room: usize, ops: &[Op<'_>]) -> Result<Option<usize>, AllocError> {
    match Breakpoints::open(alloc, room) {
        Ok(mut table) => {
            let other = other_call(alloc, &mut table, ops);
            drop(table);
            other
        }
        Err(fault) => Err(fault),
    }
}

static ONE: [Op<'static>; 12] = [
    Op::Replace(Name::Path("/a.c"), &[1, 3, 9], Ok(1)),
    Op::Count(3, false, 4),
    Op::Show(Name::Path("/a.c"), &[(1, 1), (2, 3), (3, 9)]),
    Op::Replace(Name::Path("/a.c"), &[], Ok(4)),
    Op::Count(0, true, 4),
    Op::Replace(Name::Path("/a.c"), &[2], Ok(4)),
    Op::Count(1, false, 5),
    Op::Check(Name::Path("/a.c"), &[1, 1, 1, 1], Ok(())),
    Op::Check(Name::Path("/a.c"), &[1, 1, 1, 1, 1], Err(BpFault::Full)),
    Op::Check(Name::Reference(1), &[1, 1, 1, 1], Err(BpFault::Full)),
    Op::Replace(Name::Path("/a.c"), &[1, 1, 1, 1, 1], Err(BpFault::Full)),
    Op::Show(Name::Path("/a.c"), &[(4, 2)]),
];

#[test]
fn one_source(rt: HostRuntime) -> Result<(), Fail> {
    judge(&rt, other(rt.alloc(), 4, &ONE))
}

static SEVERAL: [Op<'static>; 14] = [
    Op::Replace(Name::Reference(1), &[7], Ok(1)),
    Op::Replace(Name::Path("1"), &[7, 8], Ok(2)),
    Op::Replace(Name::Reference(2), &[9], Ok(4)),
    Op::Replace(Name::Path(""), &[5], Ok(5)),
    Op::Replace(Name::Reference(3), &[1], Err(BpFault::Full)),
    Op::Replace(Name::Path("1"), &[6], Ok(6)),
    Op::Show(Name::Reference(1), &[(1, 7)]),
    Op::Show(Name::Reference(2), &[(4, 9)]),
    Op::Show(Name::Reference(3), &[]),
    Op::Show(Name::Path("1"), &[(6, 6)]),
    Op::Show(Name::Path(""), &[(5, 5)]),
    Op::Show(Name::Path("2"), &[]),
    Op::Replace(Name::Reference(1), &[], Ok(7)),
    Op::Count(3, false, 7),
];

// A path and a reference are two names, whatever they mean, and so are two paths.
#[test]
fn several_sources(rt: HostRuntime) -> Result<(), Fail> {
    judge(&rt, other(rt.alloc(), 5, &SEVERAL))
}
