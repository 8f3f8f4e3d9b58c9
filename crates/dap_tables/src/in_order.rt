//! The kept requests by arrival.
ghost use Rattle.std.specs.Iterator.{YieldsFirstRef, item_count};

use crate::arrivals::Arrivals;
use crate::entry::Entry;
use crate::slot::Slot;
use slab::Slab;
use std::iter::FusedIterator;
use std::marker::Model;

/// The kept requests by arrival, seen as the list of those that are still to come.
#[derive(Drop)]
pub struct InOrder<'a> {
    pub(crate) slots: &'a Slab<Slot>,
    pub(crate) order: &'a Arrivals,
    // The key of the next one.
    pub(crate) at: Option<usize>,
}

impl<'a> Model for InOrder<'a> {
    ghost use Rattle.std.specs.Prelude.{List, map};
    ghost use Rattle.std.specs.Coded.{codes};
    ghost use Rattle.dap_json.specs.Stored.{coded_data};
    ghost use Rattle.slab.specs.Slab.{get};
    ghost use Rattle.dap_tables.specs.declared.entry.Entry.{Entry};
    ghost use Rattle.dap_tables.specs.Arrivals.{keys_from};
    ghost use Rattle.dap_tables.specs.PrivateOutstandingStore.{slots_at, IsWalk};

    ghost Value = { List Entry };

    ghost coded = { Prim.hlevel (codes, coded_data) };

    ghost view = { λ it. map (λ slot. slot.entry) (slots_at (λ key. get it.slots.now key) (keys_from it.at it.order.now.keys)) };

    ghost invariant = { λ it. IsWalk (λ key. get it.slots.now key) it.order.now.keys it.at };
}

impl<'a> Iterator for InOrder<'a> {
    type Item = &'a Entry;

    ghost next_gives = { YieldsFirstRef (λ rest. rest) };

    ghost remaining = { item_count (λ rest. rest) };

    fn next(&mut self) -> Option<&'a Entry> {
        let key = self.at?;
        let slot = self.slots.get(key)?;
        self.at = self.order.after(key);
        Some(&slot.entry)
    }
}

impl<'a> FusedIterator for InOrder<'a> {}
