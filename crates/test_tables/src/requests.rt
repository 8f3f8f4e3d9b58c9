//! The table of requests, and the numbers that an end gives.

ghost use Rattle.std.specs.Prelude.{◌≡◌, ◌↔◌, map, IfOk, IsSome, Some};
ghost use Rattle.dap_tables.specs.Outstanding.{entries, is_parked, oldest_unparked};

use crate::checks::{check, judge};
use dap_json::{Text, Tree};
use dap_tables::{Entry, Outstanding, PutFault, Seq};
use serde_json::Value;
use std::alloc::{AllocError, Global};
use std::test::Fail;

fn request(alloc: Global, seq: u64) -> Result<Entry, AllocError> {
    Ok(Entry {
        seq,
        command: Text::copied(alloc, "threads")?,
        arguments: Some(Tree::new(Value::Bool(true))),
    })
}

// The answer to a put, and the seq of the request that it hands back.
fn put(
    alloc: Global,
    table: &mut Outstanding,
    seq: u64,
) -> Result<(&'static str, u64), AllocError> {
    Ok(match table.put(request(alloc, seq)?) {
        Ok(()) => ("kept", 0),
        Err(PutFault::Repeated(entry)) => ("Repeated", entry.seq),
        Err(PutFault::Full(entry)) => ("Full", entry.seq),
    })
}

// A chain over the requests, which knows what comes.
fn seqs(alloc: Global, table: &Outstanding) -> Result<Vec<u64>, AllocError>
    ensures { IfOk result (λ seqs. seqs.items ≡ map (λ entry. entry.seq) (entries table.now.kept)) }
{
    table.in_order().map(|entry| entry.seq).collect(alloc)
}

// What a caller can conclude: a request that was kept is taken out again, and leaves the rest as it was.
fn kept_and_taken(table: &mut Outstanding, entry: Entry) -> Result<Option<Entry>, PutFault>
    ensures taken { IfOk result (λ taken. taken ≡ Some entry) }
    ensures same { table.new ≡ table.old }
{
    let seq = entry.seq;
    table.put(entry)?;
    Ok(table.take(seq))
}

// What a caller can conclude: the oldest that is not parked is kept, so it can be taken.
fn take_oldest(table: &mut Outstanding) -> Option<Entry>
    ensures { IsSome result ↔ IsSome (oldest_unparked table.old.kept) }
{
    let seq = table.oldest_unparked()?;
    table.take(seq)
}

// Whether a request is kept when it is put, and is the one that is taken then.
fn is_kept_and_taken(alloc: Global, table: &mut Outstanding, seq: u64) -> Result<bool, AllocError> {
    Ok(match kept_and_taken(table, request(alloc, seq)?) {
        Ok(taken) => taken.is_some_and(|entry| entry.seq == seq),
        Err(_) => false,
    })
}

// The seq of the request that is taken.
fn taken(table: &mut Outstanding, seq: u64) -> Option<u64> {
    table.take(seq).map(|entry| entry.seq)
}

// Parks a request that is kept.
fn park(table: &mut Outstanding, seq: u64) -> bool {
    let kept = table.contains(seq);
    if kept {
        table.park(seq);
    }
    kept
}

// Ends the parking of a request that is kept.
fn unpark(table: &mut Outstanding, seq: u64) -> bool {
    let kept = table.contains(seq);
    if kept {
        table.unpark(seq);
    }
    kept
}

// A request that is kept: its seq, its command, and whether it has arguments.
fn got(table: &Outstanding, seq: u64) -> Option<(u64, &str, bool)> {
    let entry = table.get(seq)?;
    Some((entry.seq, entry.command.as_str(), entry.arguments.is_some()))
}

// The seq of a request that a full table hands back.
fn handed_back(alloc: Global, seq: u64) -> Result<u64, AllocError> {
    Ok(PutFault::Full(request(alloc, seq)?).into_entry().seq)
}

/// A call of a table, and what it answers.
#[derive(Clone, Copy)]
enum Op<'a> {
    /// A request is put.
    Put(u64, (&'static str, u64)),
    /// The request of a seq is taken, or none is.
    Take(u64, Option<u64>),
    /// The oldest that is not parked is taken.
    TakeOldest(Option<u64>),
    /// A request is put and taken again.
    PutAndTake(u64),
    /// A request that is kept is parked.
    Park(u64),
    /// Its parking ends.
    Unpark(u64),
    /// The oldest that is not parked.
    Oldest(Option<u64>),
    /// Whether a request is kept, and whether it is parked.
    Marks(u64, bool, bool),
    /// The request of a seq has the command `threads` and arguments, or there is none.
    Get(u64, bool),
    /// All requests by arrival.
    Order(&'a [u64]),
    /// How many requests are kept, whether none is, and whether there is no room.
    Count(usize, bool, bool),
}

// Whether a call answers what its row says.
fn is_done(alloc: Global, table: &mut Outstanding, op: Op<'_>) -> Result<bool, AllocError> {
    Ok(match op {
        Op::Put(seq, answer) => put(alloc, table, seq)? == answer,
        Op::Take(seq, expected) => taken(table, seq) == expected,
        Op::TakeOldest(expected) => take_oldest(table).map(|entry| entry.seq) == expected,
        Op::PutAndTake(seq) => is_kept_and_taken(alloc, table, seq)?,
        Op::Park(seq) => park(table, seq),
        Op::Unpark(seq) => unpark(table, seq),
        Op::Oldest(seq) => table.oldest_unparked() == seq,
        Op::Marks(seq, kept, parked) => {
            (table.contains(seq), table.is_parked(seq)) == (kept, parked)
        }
        Op::Get(seq, true) => got(table, seq) == Some((seq, "threads", true)),
        Op::Get(seq, false) => got(table, seq).is_none(),
        Op::Order(order) => seqs(alloc, table)?.as_slice() == order,
        Op::Count(len, empty, full) => {
            (table.len(), table.is_empty(), table.is_full()) == (len, empty, full)
        }
    })
}

// The place of the first call that answers something else. Where memory is refused, it is that of a request and not of the
// table, which takes none.
fn other_call(
    alloc: Global,
    table: &mut Outstanding,
    ops: &[Op<'_>],
) -> Result<Option<usize>, AllocError> {
    for (place, op) in ops.iter().enumerate() {
        if !is_done(alloc, table, *op)? {
            return Ok(Some(place));
        }
    }
    Ok(None)
}

// Likewise with a fresh table.
fn other(alloc: Global, room: usize, ops: &[Op<'_>]) -> Result<Option<usize>, AllocError> {
    match Outstanding::open(alloc, room) {
        Ok(mut table) => {
            let other = other_call(alloc, &mut table, ops);
            drop(table);
            other
        }
        Err(fault) => Err(fault),
    }
}

static TWO: [Op<'static>; 20] = [
    Op::Count(0, true, false),
    Op::Put(5, ("kept", 0)),
    Op::Put(9, ("kept", 0)),
    Op::Put(9, ("Repeated", 9)),
    Op::Put(7, ("Full", 7)),
    Op::Count(2, false, true),
    Op::Take(7, None),
    Op::Take(5, Some(5)),
    Op::Put(5, ("kept", 0)),
    Op::Order(&[9, 5]),
    Op::Oldest(Some(9)),
    Op::Park(9),
    Op::Oldest(Some(5)),
    Op::Marks(5, true, false),
    Op::Marks(7, false, false),
    Op::Marks(9, true, true),
    Op::Park(5),
    Op::Oldest(None),
    Op::Unpark(9),
    Op::Oldest(Some(9)),
];

#[test]
fn two_requests(rt: HostRuntime) -> Result<(), Fail> {
    judge(&rt, other(rt.alloc(), 2, &TWO))
}

static IN_ORDER: [Op<'static>; 13] = [
    Op::Put(1, ("kept", 0)),
    Op::Put(2, ("kept", 0)),
    Op::Put(3, ("kept", 0)),
    Op::Take(2, Some(2)),
    Op::Count(2, false, false),
    Op::Put(4, ("kept", 0)),
    Op::Order(&[1, 3, 4]),
    Op::Get(3, true),
    Op::Get(4, true),
    Op::Get(2, false),
    Op::TakeOldest(Some(1)),
    Op::PutAndTake(6),
    Op::Order(&[3, 4]),
];

#[test]
fn keeps_the_order(rt: HostRuntime) -> Result<(), Fail> {
    judge(&rt, other(rt.alloc(), 3, &IN_ORDER))
}

#[test]
fn hands_back(rt: HostRuntime) {
    let back = handed_back(rt.alloc(), 8);
    check(&rt, matches!(back, Ok(8)), "handed back");
}

static SLOTS: [Op<'static>; 32] = [
    Op::Put(7, ("kept", 0)),
    Op::Order(&[7]),
    Op::Put(3, ("kept", 0)),
    Op::Order(&[7, 3]),
    Op::Put(5, ("kept", 0)),
    Op::Order(&[7, 3, 5]),
    Op::Put(9, ("Full", 9)),
    Op::Order(&[7, 3, 5]),
    Op::Take(7, Some(7)),
    Op::Marks(7, false, false),
    Op::Get(7, false),
    Op::Put(7, ("kept", 0)),
    Op::Get(7, true),
    Op::Order(&[3, 5, 7]),
    Op::Take(5, Some(5)),
    Op::Marks(5, false, false),
    Op::Get(5, false),
    Op::Put(4, ("kept", 0)),
    Op::Get(4, true),
    Op::Order(&[3, 7, 4]),
    Op::Take(4, Some(4)),
    Op::Marks(4, false, false),
    Op::Get(4, false),
    Op::Put(8, ("kept", 0)),
    Op::Get(8, true),
    Op::Order(&[3, 7, 8]),
    Op::Take(3, Some(3)),
    Op::Marks(3, false, false),
    Op::Get(3, false),
    Op::Put(1, ("kept", 0)),
    Op::Get(1, true),
    Op::Order(&[7, 8, 1]),
];

// A slot is used again, under the number that it had and under another: what is found is what was put last.
#[test]
fn slots_are_used_again(rt: HostRuntime) -> Result<(), Fail> {
    judge(&rt, other(rt.alloc(), 3, &SLOTS))
}

// Puts the requests 1 to 4096, up to the first that is not kept; whether all are, and the first is the oldest.
fn fill(alloc: Global, table: &mut Outstanding) -> bool {
    for seq in 1..4097u64 {
        if !matches!(put(alloc, table, seq), Ok(("kept", 0))) {
            return false;
        }
    }
    let first = match table.in_order().next() {
        Some(entry) => entry.seq,
        None => 0,
    };
    table.is_full() && first == 1
}

// Takes them, by arrival or in reverse, up to the first that is not what it should be; whether none is left.
fn drain(table: &mut Outstanding, reverse: bool) -> bool {
    for step in 1..4097u64 {
        let seq = if reverse { 4097 - step } else { step };
        let oldest = reverse || table.oldest_unparked() == Some(seq);
        if !oldest || taken(table, seq) != Some(seq) {
            return false;
        }
    }
    table.is_empty()
}

// As many requests as an end may keep, answered by arrival and in reverse.
#[test]
fn four_thousand_requests(rt: HostRuntime) {
    match Outstanding::open(rt.alloc(), 4096) {
        Ok(mut table) => {
            for (reverse, name) in [(false, "by arrival"), (true, "in reverse")] {
                check(&rt, fill(rt.alloc(), &mut table), name);
                check(&rt, drain(&mut table, reverse), name);
            }
            drop(table);
        }
        Err(_) => check(&rt, false, "table"),
    }
}

/// How many numbers are left, and the next.
static NUMBERS: [(u64, Option<u64>); 5] = [
    (3, Some(1)),
    (2, Some(2)),
    (1, Some(3)),
    (0, None),
    (0, None),
];

#[test]
fn numbers_up_to_three(rt: HostRuntime) {
    let mut numbers = Seq::open(3);
    for (left, number) in &NUMBERS {
        check(&rt, numbers.left() == *left, *left);
        check(&rt, numbers.next() == *number, *left);
    }
}

// Whether a request that is kept is shown so.
fn is_shown(alloc: Global, front: &str) -> Result<bool, AllocError> {
    let entry = request(alloc, 5)?;
    let shown = format!(in alloc; "{entry:?}")?;
    Ok(shown.as_str().starts_with(front))
}

#[test]
fn shows_what_is_kept(rt: HostRuntime) {
    let is_so = is_shown(rt.alloc(), "Entry { seq: 5, command: ");
    check(&rt, matches!(is_so, Ok(true)), "entry");
}
