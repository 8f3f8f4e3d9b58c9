//! Kept requests whose answer waits: for the debuggee to start, or for whoever holds the adapter.
ghost use Rattle.std.specs.Prelude.{◌≡◌, ◌≤◌, length, find, IsTrue};
ghost use Rattle.std.specs.Iterator.{YieldsFirstRef, item_count};
ghost use Rattle.std.specs.Option.{option_map};
ghost use Rattle.dap_tables.specs.Outstanding.{IsOrderlyRequests, contains_seq, entries, without};
ghost use Rattle.dap_outbox.specs.Waiting.{may_be_lent, starting_ones, not_starting_ones, lent_ones, is_starting_in, is_lent_in, is_lent_as};

use dap_command::{Command, is_openable};
use dap_tables::{Entry, InOrder, Outstanding};
use std::iter::FusedIterator;
use std::marker::Model;

/// Whether a request is of a command that may be opened.
fn may_be_lent(request: &Entry) -> bool
    ensures { result ≡ may_be_lent request.now }
{
    is_openable(Command::of_name(request.command.as_str()))
}

/// Whether a kept request is parked until the debuggee starts.
pub fn is_starting_in(kept: &Outstanding, request: &Entry) -> bool
    ensures { result ≡ is_starting_in kept.now.kept request.now }
{
    kept.is_parked(request.seq) && !may_be_lent(request)
}

fn is_lent_in(kept: &Outstanding, request: &Entry) -> bool
    ensures { result ≡ is_lent_in kept.now.kept request.now }
{
    kept.is_parked(request.seq) && may_be_lent(request)
}

/// Whether the request with a number is lent: kept, and parked until whoever holds the adapter answers it.
pub fn is_lent(kept: &Outstanding, seq: u64) -> bool
    ensures lent { result ≡ is_lent_as seq kept.now.kept }
    ensures kept { IsTrue result → IsTrue (contains_seq seq kept.now.kept) }
{
    // For the proof: no number comes twice.
    let _ = kept.len();
    match kept.get(seq) {
        Some(request) => is_lent_in(kept, request),
        None => false,
    }
}

// ---- those that wait for the debuggee to start

/// The number of the first of those that are still to come which waits for the debuggee to start.
fn first_starting(kept: &Outstanding, mut requests: InOrder<'_>) -> Option<u64>
    ensures { result ≡ option_map (λ r. r.seq) (find (λ r. is_starting_in kept.now.kept r) requests.entry) }
{
    while let Some(request) = requests.next() {
        if is_starting_in(kept, request) {
            return Some(request.seq);
        }
    }
    None
}

fn give_up(kept: &mut Outstanding, seq: u64)
    ensures { kept.new ≡ record kept.old { kept = without seq kept.old.kept } }
{
    kept.take(seq);
}

/// Gives up the requests that wait for the debuggee to start.
pub fn clear_starting(kept: &mut Outstanding)
    ensures others { kept.new ≡ record kept.old { kept = not_starting_ones kept.old.kept } }
    ensures orderly { IsOrderlyRequests kept.new }
{
    while let Some(seq) = first_starting(kept, kept.in_order()) {
        give_up(kept, seq);
    }
}

// ---- those that are lent

/// The requests that are lent, by arrival, seen as the list of those that are still to come.
#[derive(Drop)]
pub struct Lent<'a> {
    kept: &'a Outstanding,
    requests: InOrder<'a>,
}

impl<'a> Model for Lent<'a> {
    ghost use Rattle.std.specs.Prelude.{List, filter};
    ghost use Rattle.std.specs.Coded.{codes};
    ghost use Rattle.dap_json.specs.Stored.{coded_data};
    ghost use Rattle.dap_tables.specs.declared.entry.Entry.{Entry};
    ghost use Rattle.dap_outbox.specs.Waiting.{is_lent_in};

    ghost Value = { List Entry };

    ghost coded = { Prim.hlevel (codes, coded_data) };

    ghost view = { λ it. filter (λ r. is_lent_in it.kept.now.kept r) it.requests };
}

impl<'a> Iterator for Lent<'a> {
    type Item = &'a Entry;

    ghost next_gives = { YieldsFirstRef (λ rest. rest) };

    ghost remaining = { item_count (λ rest. rest) };

    fn next(&mut self) -> Option<&'a Entry> {
        while let Some(request) = self.requests.next() {
            if is_lent_in(self.kept, request) {
                return Some(request);
            }
        }
        None
    }
}

impl<'a> FusedIterator for Lent<'a> {}

/// The requests that are lent, by arrival.
pub fn lent_in_order(kept: &Outstanding) -> Lent<'_>
    ensures entries { result ≡ entries (lent_ones kept.now.kept) }
{
    Lent {
        kept,
        requests: kept.in_order(),
    }
}

/// How many requests are lent.
pub fn lent_count(kept: &Outstanding) -> usize
    ensures lent { result ≡ length (lent_ones kept.now.kept) }
    ensures bound { result ≤ length kept.now.kept }
{
    // For the proof: a number has room for as many as are kept.
    let _ = kept.len();
    let mut lent = lent_in_order(kept);
    let mut count = 0;
    while let Some(_) = lent.next() {
        count += 1;
    }
    count
}

/// How many requests wait for the debuggee to start: those that are parked, and not lent.
pub fn starting_count(kept: &Outstanding) -> usize
    ensures starting { result ≡ length (starting_ones kept.now.kept) }
    ensures bound { result ≤ length kept.now.kept }
{
    kept.parked() - lent_count(kept)
}
