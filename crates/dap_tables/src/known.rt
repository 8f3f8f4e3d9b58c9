//! The references that a peer gave.
ghost use Rattle.std.specs.Prelude.{◌≡◌, ◌≤◌, ◌<◌, ◌↔◌, [], length, take, IsTrue, IsOk, OnOk, OnErr, Err, IfOk};
ghost use Rattle.dap_tables.specs.Known.{has_pair, with_pair, with_pairs, IsSet, TakesRoom, known_with_pairs, count_known_with};
ghost use Rattle.dap_tables.specs.PrivateKnownStore.{target_of_pair, pairs_of_targets};
ghost use Rattle.dap_tables.specs.declared.known.KnownFault.TheVariants.{Full, OutOfMemory};

use crate::live_targets::LiveTargets;
use crate::reference_kind::ReferenceKind;
use crate::target::Target;
use std::alloc::{AllocError, Global};
use std::marker::Model;

/// Why references are not added. The table is then as it was.
#[derive(Clone, Copy, Debug, PartialEq, Eq)]
pub enum KnownFault {
    /// More would be held than there is room for, each counted once.
    Full,
    /// The allocator refused memory.
    OutOfMemory,
}

/// The references that a peer gave, by kind: each is held once.
#[derive(Drop)]
pub struct Known {
    held: LiveTargets,
    room: usize,
}

impl Model for Known {
    ghost use Rattle.dap_tables.specs.Known.{KnownReferences, IsSet};
    ghost use Rattle.dap_tables.specs.PrivateKnownStore.{known_of};

    ghost Value = { KnownReferences };

    ghost view = { λ k. known_of k.room k.held };

    ghost invariant = { λ k. IsSet (known_of k.room k.held) };
}

/// A reference as it is stored.
fn stored(kind: ReferenceKind, number: u32) -> Target
    ensures { result ≡ target_of_pair (kind, number) }
{
    Target {
        kind,
        object: number as u64,
    }
}

fn has(held: &LiveTargets, target: Target) -> bool
    ensures { result ≡ has_pair (target.kind, target.object) (pairs_of_targets held.now) }
{
    held.place(target).is_some()
}

/// Adds one, unless it is held or there is no room.
fn add_one(
    held: &mut LiveTargets,
    room: usize,
    kind: ReferenceKind,
    number: u32,
) -> Result<(), KnownFault>
    requires { length held.old ≤ room }
    ensures ok { OnOk result (pairs_of_targets held.new ≡ with_pair (kind, number) (pairs_of_targets held.old)) }
    ensures within { OnOk result (length held.new ≤ room) }
    ensures err { OnErr result (held.new ≡ held.old) }
    ensures full { result ≡ Err Full → room < length (with_pair (kind, number) (pairs_of_targets held.old)) }
    ensures memory { result ≡ Err OutOfMemory → (length held.old < length (with_pair (kind, number) (pairs_of_targets held.old))) × (length held.old < room) }
{
    let target = stored(kind, number);
    if has(held, target) {
        return Ok(());
    }
    if held.len() >= room {
        return Err(KnownFault::Full);
    }
    if held.push(target).is_err() {
        return Err(KnownFault::OutOfMemory);
    }
    Ok(())
}

/// Adds one after the other, up to the first that is refused.
fn add_each(
    held: &mut LiveTargets,
    room: usize,
    given: &[(ReferenceKind, u32)],
) -> Result<(), KnownFault>
    requires { length held.old ≤ room }
    ensures ok { OnOk result (pairs_of_targets held.new ≡ with_pairs given.now (pairs_of_targets held.old)) }
    ensures within { OnOk result (length held.new ≤ room) }
    ensures front { OnErr result (take (length held.old) (pairs_of_targets held.new) ≡ pairs_of_targets held.old) }
    ensures more { length held.old ≤ length held.new }
    ensures full { result ≡ Err Full → room < length (with_pairs given.now (pairs_of_targets held.old)) }
    ensures memory { result ≡ Err OutOfMemory → (length held.old < length (with_pairs given.now (pairs_of_targets held.old))) × (length held.old < room) }
{
    let mut rest = given;
    while let Some((pair, others)) = rest.split_first() {
        rest = others;
        match add_one(held, room, pair.0, pair.1) {
            Ok(()) => {}
            Err(fault) => return Err(fault),
        }
    }
    Ok(())
}

impl Known {
    /// None yet, and room for `r`. It takes no memory, so that it never fails.
    pub fn open(alloc: Global, r: usize) -> Result<Known, AllocError>
        ensures empty { IfOk result (λ known. known ≡ record { room = r; pairs = [] }) }
        ensures memory { IsOk result }
    {
        Ok(Known {
            held: LiveTargets::new(alloc),
            room: r,
        })
    }

    /// Adds references, each once, or none of them.
    ///
    /// # Errors
    /// `Full` only where more would be held than there is room for; `OutOfMemory` where memory for one that is not held is
    /// refused. The table is then as it was.
    pub fn add(&mut self, given: &[(ReferenceKind, u32)]) -> Result<(), KnownFault>
        ensures ok { OnOk result (self.new ≡ known_with_pairs given.now self.old) }
        ensures within { OnOk result (count_known_with given.now self.old ≤ self.old.room) }
        ensures err { OnErr result (self.new ≡ self.old) }
        ensures set { IsSet self.new }

        // Which refusal comes.
        ensures full { result ≡ Err Full → self.old.room < count_known_with given.now self.old }
        ensures memory { result ≡ Err OutOfMemory → TakesRoom given.now self.old }
    {
        let before = self.held.len();
        match add_each(&mut self.held, self.room, given) {
            Ok(()) => Ok(()),
            Err(fault) => {
                self.held.truncate(before);
                Err(fault)
            }
        }
    }

    /// Whether a reference of this kind and number is held.
    pub fn has(&self, kind: ReferenceKind, number: u32) -> bool
        ensures { result ≡ has_pair (kind, number) self.now.pairs }
    {
        has(&self.held, stored(kind, number))
    }

    /// Forgets all.
    pub fn clear(&mut self)
        ensures none { self.new ≡ record self.old { pairs = [] } }
        ensures set { IsSet self.new }
    {
        self.held.clear();
    }

    /// How many are held.
    pub fn len(&self) -> usize
        ensures len { result ≡ length self.now.pairs }
        ensures set { IsSet self.now }
    {
        self.held.len()
    }

    /// Whether none is held.
    pub fn is_empty(&self) -> bool
        ensures { IsTrue result ↔ (self.now.pairs ≡ []) }
    {
        self.held.is_empty()
    }
}
