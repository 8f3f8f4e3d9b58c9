//! The table of references.

use crate::checks::{check, judge};
use dap_tables::{RefFault, ReferenceKind, References, Target};
use std::alloc::{AllocError, Global};
use std::test::Fail;

fn frame(object: u64) -> Target {
    Target {
        kind: ReferenceKind::Frame,
        object,
    }
}

fn holder(object: u64) -> Target {
    Target {
        kind: ReferenceKind::Holder,
        object,
    }
}

// What a target gets in a table that goes back then to what it was.
fn intern_for_now(table: &mut References, target: Target) -> Result<u32, RefFault> {
    let mark = table.mark();
    let given = table.intern(target);
    table.back_to(mark);
    given
}

/// A call of a table, and what it answers. A target is named by its kind and its object.
#[derive(Clone, Copy)]
enum Op {
    /// The number that a target gets, or why it gets none.
    Intern(ReferenceKind, u64, Result<u32, RefFault>),
    /// The same, after which the table goes back to what it was.
    InternForNow(ReferenceKind, u64, Result<u32, RefFault>),
    /// The target of a number.
    Finds(u32, ReferenceKind, u64),
    /// A number has no target.
    Lacks(u32),
    /// How many targets have a number, and whether none has.
    Count(usize, bool),
    Clear,
}

// What is seen of a table: how many targets have a number, and those of the first numbers.
fn seen(table: &References) -> (usize, [Option<Target>; 4]) {
    let targets = [
        table.target(1).copied(),
        table.target(2).copied(),
        table.target(3).copied(),
        table.target(4).copied(),
    ];
    (table.len(), targets)
}

// Memory was refused: the table is as it was, and the next try is answered.
fn is_refused(
    table: &mut References,
    before: (usize, [Option<Target>; 4]),
    target: Target,
    answer: Result<u32, RefFault>,
) -> Result<bool, AllocError> {
    if seen(table) == before && intern_for_now(table, target) == answer && seen(table) == before {
        Err(AllocError)
    } else {
        Ok(false)
    }
}

// Whether a target gets this, for now or for good.
fn gets(
    table: &mut References,
    target: Target,
    for_now: bool,
    answer: Result<u32, RefFault>,
) -> Result<bool, AllocError> {
    let before = seen(table);
    let given = if for_now {
        intern_for_now(table, target)
    } else {
        table.intern(target)
    };
    match given {
        Err(RefFault::OutOfMemory) => is_refused(table, before, target, answer),
        given => Ok(given == answer),
    }
}

// Whether a call answers what its row says.
fn is_done(table: &mut References, op: Op) -> Result<bool, AllocError> {
    match op {
        Op::Intern(kind, object, answer) => gets(table, Target { kind, object }, false, answer),
        Op::InternForNow(kind, object, answer) => {
            gets(table, Target { kind, object }, true, answer)
        }
        Op::Finds(number, kind, object) => {
            Ok(table.target(number).copied() == Some(Target { kind, object }))
        }
        Op::Lacks(number) => Ok(table.target(number).is_none()),
        Op::Count(len, empty) => Ok((table.len(), table.is_empty()) == (len, empty)),
        Op::Clear => {
            table.clear();
            Ok(true)
        }
    }
}

// The place of the first call that answers something else.
fn other_call(table: &mut References, ops: &[Op]) -> Result<Option<usize>, AllocError> {
    for (place, op) in ops.iter().enumerate() {
        if !is_done(table, *op)? {
            return Ok(Some(place));
        }
    }
    Ok(None)
}

// Likewise with a fresh table of two references.
fn other(alloc: Global, last: u32, ops: &[Op]) -> Result<Option<usize>, AllocError> {
    match References::open(alloc, 2, last) {
        Ok(mut table) => {
            let other = other_call(&mut table, ops);
            drop(table);
            other
        }
        Err(fault) => Err(fault),
    }
}

static TWO: [Op; 17] = [
    Op::Count(0, true),
    Op::Intern(ReferenceKind::Frame, 7, Ok(1)),
    Op::Intern(ReferenceKind::Holder, 7, Ok(2)),
    Op::Intern(ReferenceKind::Frame, 7, Ok(1)),
    Op::Intern(ReferenceKind::Frame, 8, Err(RefFault::Full)),
    Op::Intern(ReferenceKind::Holder, 7, Ok(2)),
    Op::Count(2, false),
    Op::Lacks(0),
    Op::Finds(1, ReferenceKind::Frame, 7),
    Op::Finds(2, ReferenceKind::Holder, 7),
    Op::Lacks(3),
    Op::Clear,
    Op::Count(0, true),
    Op::Intern(ReferenceKind::Frame, 8, Ok(3)),
    Op::InternForNow(ReferenceKind::Holder, 9, Ok(4)),
    Op::Intern(ReferenceKind::Holder, 10, Ok(4)),
    Op::Finds(4, ReferenceKind::Holder, 10),
];

#[test]
fn two_references(rt: HostRuntime) -> Result<(), Fail> {
    judge(&rt, other(rt.alloc(), 100, &TWO))
}

static EXHAUSTED: [Op; 7] = [
    Op::Intern(ReferenceKind::Frame, 1, Ok(1)),
    Op::Intern(ReferenceKind::Holder, 1, Ok(2)),
    Op::Intern(ReferenceKind::Frame, 2, Err(RefFault::Full)),
    Op::Clear,
    Op::Intern(ReferenceKind::Frame, 1, Ok(3)),
    Op::Intern(ReferenceKind::Holder, 1, Err(RefFault::Exhausted)),
    Op::Intern(ReferenceKind::Frame, 1, Ok(3)),
];

#[test]
fn no_number_is_left(rt: HostRuntime) -> Result<(), Fail> {
    judge(&rt, other(rt.alloc(), 3, &EXHAUSTED))
}

// Whether the frame and the holder of an object get numbers.
fn get_numbers(table: &mut References, object: u64) -> bool {
    table.intern(frame(object)).is_ok() && table.intern(holder(object)).is_ok()
}

// Whether a table that is cleared goes on with the next number.
fn goes_on(table: &mut References) -> bool {
    table.clear();
    table.intern(holder(499)) == Ok(1001)
}

// A known target is found among many.
#[test]
fn a_thousand_references(rt: HostRuntime) {
    match References::open(rt.alloc(), 1000, 5000) {
        Ok(mut table) => {
            for object in 0..500 {
                check(&rt, get_numbers(&mut table, object), object);
            }
            check(&rt, table.len() == 1000, "length");
            for object in 0..500 {
                let found = table.intern(holder(object)) == Ok(2 * object as u32 + 2);
                check(&rt, found, object);
            }
            check(&rt, goes_on(&mut table), "cleared");
            drop(table);
        }
        Err(_) => check(&rt, false, "table"),
    }
}
