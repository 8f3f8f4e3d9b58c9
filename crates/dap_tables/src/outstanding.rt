//! The requests that an end has still to answer.
ghost use Rattle.std.specs.Prelude.{◌≡◌, ◌<◌, ◌≤◌, ◌↔◌, [], true, false, length, IsTrue, IsSome, IfOk, IfErr, IfSome, IfNone, OnOk, OnErr, Err, Some};
ghost use Rattle.std.specs.Option.{option_copied, option_map};
ghost use Rattle.dap_tables.specs.Outstanding.{IsOrderlyRequests, HasNoRoomForRequest, entries, contains_seq, entry_with, without, is_parked, with_mark, oldest_unparked, parked_ones, unparked_ones, IsOutstanding, with_request};
ghost use Rattle.dap_tables.specs.PutFault.{refused_entry};
ghost use Rattle.dap_tables.specs.declared.put_fault.PutFault.TheVariants.{Repeated, Full};

use crate::arrivals::Arrivals;
use crate::entry::Entry;
use crate::in_order::InOrder;
use crate::put_fault::PutFault;
use crate::seq_index::SeqIndex;
use crate::slot::{self, Slot};
use slab::Slab;
use std::alloc::{AllocError, Global};
use std::marker::Model;

/// The requests that an end keeps until it has answered them, by arrival. The memory for as many as there is room for is
/// taken when the table is made.
///
/// A request has a slot under a key. The index tells the key of a seq, and the order links the keys by arrival, so that no
/// call but those that concern many requests walks past others.
#[derive(Debug, Drop)]
pub struct Outstanding {
    slots: Slab<Slot>,
    index: SeqIndex,
    order: Arrivals,
    room: usize,
}

impl Model for Outstanding {
    ghost use Rattle.std.specs.Coded.{codes};
    ghost use Rattle.dap_json.specs.Stored.{coded_data};
    ghost use Rattle.dap_tables.specs.Outstanding.{KeptRequests};
    ghost use Rattle.dap_tables.specs.PrivateOutstandingStore.{request_table_of, IsStored};

    ghost Value = { KeptRequests };

    ghost coded = { Prim.hlevel (codes, coded_data) };

    ghost view = { λ o. request_table_of o.room o.slots o.order };

    ghost invariant = { λ o. IsStored o.room o.slots o.index o.order };
}

impl Outstanding {
    /// An empty table with room for `n` requests; an error where the memory for so many is refused.
    pub fn open(alloc: Global, n: usize) -> Result<Outstanding, AllocError>
        ensures empty { IfOk result (λ table. table ≡ record { room = n; kept = [] }) }
        ensures memory { OnErr result (0 < n) }
    {
        let mut slots = Slab::new(alloc);
        slots.reserve_exact(n)?;
        let order = Arrivals::open(alloc, slots.capacity())?;
        Ok(Outstanding {
            slots,
            index: SeqIndex::open(alloc, n)?,
            order,
            room: n,
        })
    }

    /// Keeps a request, not parked, after those that are kept already. It takes no memory.
    ///
    /// `Repeated` comes where its seq is kept already, else `Full` where there is no room.
    pub fn put(&mut self, entry: Entry) -> Result<(), PutFault>
        ensures ok { OnOk result (self.new ≡ with_request entry self.old) }
        ensures err { OnErr result (self.new ≡ self.old) }
        ensures orderly { IsOrderlyRequests self.new }

        // Which refusal comes, and that it hands the request back.
        ensures handed_back { IfErr result (λ fault. refused_entry fault ≡ entry) }
        ensures repeated { (result ≡ Err (Repeated entry)) ↔ IsOutstanding entry.seq self.old }
        ensures full { (result ≡ Err (Full entry)) ↔ HasNoRoomForRequest entry.seq self.old }
        ensures new { OnOk result (contains_seq entry.seq self.old.kept ≡ false) }

        // The request is found again by its seq, and taking it out gives back what was kept before.
        ensures found { OnOk result (entry_with entry.seq self.new.kept ≡ Some entry) }
        ensures kept { OnOk result (IsTrue (contains_seq entry.seq self.new.kept)) }
        ensures undone { OnOk result (without entry.seq self.new.kept ≡ self.old.kept) }
    {
        if self.contains(entry.seq) {
            return Err(PutFault::Repeated(entry));
        }
        if self.is_full() {
            return Err(PutFault::Full(entry));
        }
        let seq = entry.seq;
        let key = self.slots.insert_reserved(Slot {
            entry,
            parked: false,
        });
        self.index.insert(seq, key);
        self.order.push(key);
        Ok(())
    }

    /// Takes out the request with a seq, where it is kept.
    pub fn take(&mut self, seq: u64) -> Option<Entry>
        ensures entry { result ≡ entry_with seq self.old.kept }
        ensures others { self.new ≡ record self.old { kept = without seq self.old.kept } }
        ensures orderly { IsOrderlyRequests self.new }
        ensures found { IsSome result ↔ IsTrue (contains_seq seq self.old.kept) }
        ensures seq { IfSome result (λ entry. entry.seq ≡ seq) }
        ensures gone { contains_seq seq self.new.kept ≡ false }
        ensures absent { IfNone result (self.new ≡ self.old) }
    {
        let key = self.index.remove(seq)?;
        self.order.remove(key);
        Some(self.slots.remove(key).entry)
    }

    /// Gives all requests up.
    pub fn clear(&mut self)
        ensures none { self.new ≡ record self.old { kept = [] } }
        ensures orderly { IsOrderlyRequests self.new }
    {
        self.slots.clear();
        self.index.clear();
        self.order.clear();
    }

    /// The seq of the request that came first of those that are not parked.
    pub fn oldest_unparked(&self) -> Option<u64>
        ensures oldest { result ≡ oldest_unparked self.now.kept }
        ensures kept { IfSome result (λ seq. IsTrue (contains_seq seq self.now.kept)) }
        ensures unparked { IfSome result (λ seq. is_parked seq self.now.kept ≡ false) }
    {
        slot::oldest(&self.slots, &self.order)
    }

    /// Parks the request with a seq, which is kept: its answer waits for another request.
    #[tactic(auto, using(crate::proofs::KeptLemmas::marking))]
    pub fn park(&mut self, seq: u64)
        requires { IsTrue (contains_seq seq self.old.kept) }
        ensures mark { self.new ≡ record self.old { kept = with_mark seq true self.old.kept } }
        ensures parked { is_parked seq self.new.kept ≡ true }
        ensures entries { entries self.new.kept ≡ entries self.old.kept }
        ensures orderly { IsOrderlyRequests self.new }
    {
        self.set_mark(seq, true);
    }

    /// Ends the parking of the request with a seq, which is kept.
    #[tactic(auto, using(crate::proofs::KeptLemmas::marking))]
    pub fn unpark(&mut self, seq: u64)
        requires { IsTrue (contains_seq seq self.old.kept) }
        ensures mark { self.new ≡ record self.old { kept = with_mark seq false self.old.kept } }
        ensures unparked { is_parked seq self.new.kept ≡ false }
        ensures entries { entries self.new.kept ≡ entries self.old.kept }
        ensures orderly { IsOrderlyRequests self.new }
    {
        self.set_mark(seq, false);
    }

    /// Whether the request with a seq is kept.
    pub fn contains(&self, seq: u64) -> bool
        ensures contains { result ≡ contains_seq seq self.now.kept }
        ensures orderly { IsOrderlyRequests self.now }
    {
        self.index.get(seq).is_some()
    }

    /// The request with a seq, where it is kept.
    pub fn get(&self, seq: u64) -> Option<&Entry>
        ensures entry { option_copied result ≡ entry_with seq self.now.kept }
        ensures found { IsSome result ↔ IsTrue (contains_seq seq self.now.kept) }
        ensures seq { IfSome result (λ entry. entry.now.seq ≡ seq) }
    {
        slot::entry_at(&self.slots, self.index.get(seq))
    }

    /// Whether the request with a seq is parked. One that is not kept is not.
    pub fn is_parked(&self, seq: u64) -> bool
        ensures parked { result ≡ is_parked seq self.now.kept }
        ensures kept { IsTrue result → IsTrue (contains_seq seq self.now.kept) }
    {
        slot::is_parked_at(&self.slots, self.index.get(seq))
    }

    /// How many requests are kept.
    pub fn len(&self) -> usize
        ensures len { result ≡ length self.now.kept }
        ensures orderly { IsOrderlyRequests self.now }
    {
        self.order.len()
    }

    /// How many requests are parked.
    pub fn parked(&self) -> usize
        ensures parked { result ≡ length (parked_ones self.now.kept) }
        ensures bound { result ≤ length self.now.kept }
    {
        slot::parked(&self.slots, &self.order)
    }

    /// Whether no request is kept.
    pub fn is_empty(&self) -> bool
        ensures { IsTrue result ↔ (self.now.kept ≡ []) }
    {
        self.len() == 0
    }

    /// Whether there is no room for one more request.
    pub fn is_full(&self) -> bool
        ensures { IsTrue result ↔ (length self.now.kept ≡ self.now.room) }
    {
        self.len() >= self.room
    }

    /// The requests kept, by arrival.
    pub fn in_order(&self) -> InOrder<'_>
        ensures entries { result ≡ entries self.now.kept }
        ensures len { length result ≡ length self.now.kept }
        ensures orderly { IsOrderlyRequests self.now }
    {
        InOrder {
            slots: &self.slots,
            order: &self.order,
            at: self.order.first(),
        }
    }

    fn set_mark(&mut self, seq: u64, parked: bool)
        ensures mark { self.new ≡ record self.old { kept = with_mark seq parked self.old.kept } }
        ensures orderly { IsOrderlyRequests self.new }
    {
        match self.index.get(seq) {
            Some(key) => self.slots[key].parked = parked,
            None => {}
        }
    }
}
