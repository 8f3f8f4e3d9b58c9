//! A request as the table stores it, and the walks over its store.
ghost use Rattle.std.specs.Prelude.{◌≡◌, not, find, count_by};
ghost use Rattle.std.specs.Option.{option_map, option_copied};
ghost use Rattle.slab.specs.Slab.{get};
ghost use Rattle.dap_tables.specs.PrivateOutstandingStore.{IsFilled, marked_in, slot_at, slots_at};

use crate::arrivals::Arrivals;
use crate::entry::Entry;
use slab::Slab;

/// A kept request, and whether its answer waits for another request.
#[derive(Debug, Drop)]
pub(crate) struct Slot {
    pub(crate) entry: Entry,
    pub(crate) parked: bool,
}

/// The request under a key, where there is one.
pub(crate) fn entry_at(slots: &Slab<Slot>, key: Option<usize>) -> Option<&Entry>
    ensures { option_copied result ≡ option_map (λ slot. slot.entry) (slot_at (λ key. get slots.now key) key) }
{
    let slot = slots.get(key?)?;
    Some(&slot.entry)
}

/// Whether the request under a key is parked.
pub(crate) fn is_parked_at(slots: &Slab<Slot>, key: Option<usize>) -> bool
    ensures { result ≡ marked_in (slot_at (λ key. get slots.now key) key) }
{
    match key {
        Some(key) => match slots.get(key) {
            Some(slot) => slot.parked,
            None => false,
        },
        None => false,
    }
}

/// The seq of the request that came first of those that are not parked.
pub(crate) fn oldest(slots: &Slab<Slot>, order: &Arrivals) -> Option<u64>
    requires { IsFilled (λ key. get slots.now key) order.now.keys }
    ensures { let found = find (λ slot. not slot.parked) (slots_at (λ key. get slots.now key) order.now.keys) in
        result ≡ option_map (λ slot. slot.entry.seq) found }
{
    let mut at = order.first();
    while let Some(key) = at {
        let slot = &slots[key];
        if !slot.parked {
            return Some(slot.entry.seq);
        }
        at = order.after(key);
    }
    None
}

/// How many requests are parked: all without those that are not.
pub(crate) fn parked(slots: &Slab<Slot>, order: &Arrivals) -> usize
    requires { IsFilled (λ key. get slots.now key) order.now.keys }
    ensures { result ≡ count_by (λ slot. slot.parked) (slots_at (λ key. get slots.now key) order.now.keys) }
{
    let mut count = order.len();
    let mut at = order.first();
    while let Some(key) = at {
        if !slots[key].parked {
            count -= 1;
        }
        at = order.after(key);
    }
    count
}
