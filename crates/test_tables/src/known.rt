//! The table of known references.

use crate::checks::{check, judge};
use dap_tables::{Known, KnownFault, ReferenceKind};
use std::alloc::{AllocError, Global};
use std::test::Fail;

/// A call of a table, and what it answers.
#[derive(Clone, Copy)]
enum Op<'a> {
    /// References are given.
    Add(&'a [(ReferenceKind, u32)], Result<(), KnownFault>),
    /// Whether a reference is held.
    Has(ReferenceKind, u32, bool),
    /// How many are held, and whether none is.
    Count(usize, bool),
    Clear,
}

// What is seen of a table: how many are held, and which of some.
fn seen(known: &Known) -> (usize, [bool; 6]) {
    let held = [
        known.has(ReferenceKind::Frame, 1),
        known.has(ReferenceKind::Frame, 2),
        known.has(ReferenceKind::Frame, 3),
        known.has(ReferenceKind::Frame, 7),
        known.has(ReferenceKind::Holder, 1),
        known.has(ReferenceKind::Holder, 7),
    ];
    (known.len(), held)
}

// Whether references are given so. Where memory is refused the table is as it was, and the next try is answered.
fn is_given(
    known: &mut Known,
    given: &[(ReferenceKind, u32)],
    answer: Result<(), KnownFault>,
) -> Result<bool, AllocError> {
    let before = seen(known);
    match known.add(given) {
        Err(KnownFault::OutOfMemory) => {
            if seen(known) == before && known.add(given) == answer {
                Err(AllocError)
            } else {
                Ok(false)
            }
        }
        added => Ok(added == answer),
    }
}

// Whether a call answers what its row says.
fn is_done(known: &mut Known, op: Op<'_>) -> Result<bool, AllocError> {
    match op {
        Op::Add(given, answer) => is_given(known, given, answer),
        Op::Has(kind, number, held) => Ok(known.has(kind, number) == held),
        Op::Count(len, empty) => Ok((known.len(), known.is_empty()) == (len, empty)),
        Op::Clear => {
            known.clear();
            Ok(true)
        }
    }
}

// The place of the first call that answers something else.
fn other_call(known: &mut Known, ops: &[Op<'_>]) -> Result<Option<usize>, AllocError> {
    for (place, op) in ops.iter().enumerate() {
        if !is_done(known, *op)? {
            return Ok(Some(place));
        }
    }
    Ok(None)
}

// Likewise with a fresh table of three references.
fn other(alloc: Global, ops: &[Op<'_>]) -> Result<Option<usize>, AllocError> {
    match Known::open(alloc, 3) {
        Ok(mut known) => {
            let other = other_call(&mut known, ops);
            drop(known);
            other
        }
        Err(fault) => Err(fault),
    }
}

static THREE: [Op<'static>; 15] = [
    Op::Count(0, true),
    Op::Add(
        &[
            (ReferenceKind::Frame, 1),
            (ReferenceKind::Holder, 1),
            (ReferenceKind::Frame, 1),
        ],
        Ok(()),
    ),
    Op::Count(2, false),
    Op::Add(
        &[
            (ReferenceKind::Frame, 1),
            (ReferenceKind::Frame, 2),
            (ReferenceKind::Frame, 3),
        ],
        Err(KnownFault::Full),
    ),
    Op::Count(2, false),
    Op::Add(
        &[
            (ReferenceKind::Holder, 7),
            (ReferenceKind::Frame, 1),
            (ReferenceKind::Holder, 7),
        ],
        Ok(()),
    ),
    Op::Count(3, false),
    Op::Has(ReferenceKind::Frame, 1, true),
    Op::Has(ReferenceKind::Frame, 2, false),
    Op::Has(ReferenceKind::Frame, 7, false),
    Op::Has(ReferenceKind::Holder, 7, true),
    Op::Has(ReferenceKind::Holder, 2, false),
    Op::Clear,
    Op::Count(0, true),
    Op::Has(ReferenceKind::Frame, 1, false),
];

#[test]
fn three_references(rt: HostRuntime) -> Result<(), Fail> {
    judge(&rt, other(rt.alloc(), &THREE))
}

// Whether the frame and the holder of a number may be given.
fn are_given(known: &mut Known, number: u32) -> bool {
    let pair = [
        (ReferenceKind::Frame, number),
        (ReferenceKind::Holder, number),
    ];
    known.add(&pair) == Ok(())
}

// Whether they are known, and the holder is given again.
fn is_known(known: &mut Known, number: u32) -> bool {
    known.has(ReferenceKind::Frame, number) && known.add(&[(ReferenceKind::Holder, number)]).is_ok()
}

// Whether a thousand are known, and one more is refused.
fn is_full(known: &mut Known) -> bool {
    known.len() == 1000 && known.add(&[(ReferenceKind::Frame, 500)]) == Err(KnownFault::Full)
}

// What is known is found among many, and given again it takes no room.
#[test]
fn a_thousand_known_references(rt: HostRuntime) {
    match Known::open(rt.alloc(), 1000) {
        Ok(mut known) => {
            for number in 0..500 {
                check(&rt, are_given(&mut known, number), number);
            }
            for number in 0..500 {
                check(&rt, is_known(&mut known, number), number);
            }
            check(&rt, is_full(&mut known), "full");
            drop(known);
        }
        Err(_) => check(&rt, false, "table"),
    }
}
