//! The numbers of what a client may ask for while the debuggee is stopped.
ghost use Rattle.std.specs.Prelude.{◌≡◌, ◌≤◌, ◌↔◌, [], length, IsTrue, IsOk, IfOk, OnErr, Err, Some};
ghost use Rattle.std.specs.Option.{option_copied};
ghost use Rattle.dap_tables.specs.References.{ReferenceTable, target_of, HasNoRoomForTarget, IsRefusedForNumber, TakesNumber, IsOrderlyReferences, empty_references, Interns, KeepsNumber, table_back_to, table_without_references};

use crate::live_targets::LiveTargets;
use crate::mark::Mark;
use crate::ref_fault::RefFault;
use crate::target::Target;
use std::alloc::{AllocError, Global};
use std::marker::Model;

/// The references that are live: each has a number, and a target keeps the number that it has.
///
/// Numbers rise from 1, and no number is given again once `clear` let it die.
#[derive(Drop)]
pub struct References {
    live: LiveTargets,
    base: u32,
    room: usize,
    greatest: u32,
}

impl Model for References {
    ghost use Rattle.dap_tables.specs.References.{ReferenceTable, IsOrderlyReferences};
    ghost use Rattle.dap_tables.specs.PrivateReferenceStore.{reference_table_of};

    ghost Value = { ReferenceTable };

    ghost view = { λ r. reference_table_of r.room r.greatest r.base r.live };

    ghost invariant = { λ r. IsOrderlyReferences (reference_table_of r.room r.greatest r.base r.live) };
}

impl References {
    /// None yet: room for `r` at once, and `m` the greatest number. It takes no memory, so that it never fails.
    pub fn open(alloc: Global, r: usize, m: u32) -> Result<References, AllocError>
        ensures empty { IfOk result (λ table. table ≡ empty_references r m) }
        ensures memory { IsOk result }
    {
        Ok(References {
            live: LiveTargets::new(alloc),
            base: 0,
            room: r,
            greatest: m,
        })
    }

    /// The number of a target: its own where it is live, else the next one.
    ///
    /// The number is 1 to `m`. A live target is never refused, and takes no memory.
    ///
    /// # Errors
    /// `Full` where as many are live as there is room for, else `Exhausted` where no number is left, else `OutOfMemory` where
    /// memory for one more is refused. The table is then as it was.
    pub fn intern(&mut self, target: Target) -> Result<u32, RefFault>
        ensures ok { IfOk result (λ number. Interns target self.old number self.new) }
        ensures limits { (self.new.room ≡ self.old.room) × (self.new.greatest ≡ self.old.greatest) }
        ensures err { OnErr result (self.new ≡ self.old) }

        // Which refusal comes.
        ensures full { (result ≡ Err RefFault.Full) ↔ HasNoRoomForTarget target self.old }
        ensures exhausted { (result ≡ Err RefFault.Exhausted) ↔ IsRefusedForNumber target self.old }
        ensures memory { result ≡ Err RefFault.OutOfMemory → TakesNumber target self.old }

        // A target that is live keeps its number, whatever is full, and nothing changes.
        ensures known { KeepsNumber target self.old result self.new }
        ensures names { IfOk result (λ number. target_of self.new.references number ≡ Some target) }
        ensures orderly { IsOrderlyReferences self.new }
    {
        if let Some(place) = self.live.place(target) {
            return Ok(self.base + 1 + place as u32);
        }
        if self.live.len() >= self.room {
            return Err(RefFault::Full);
        }
        let given = self.base + self.live.len() as u32;
        if given >= self.greatest {
            return Err(RefFault::Exhausted);
        }
        if self.live.push(target).is_err() {
            return Err(RefFault::OutOfMemory);
        }
        Ok(given + 1)
    }

    /// What a number names, where it is live: nothing at 0, at a number that died and at one that is not given yet.
    pub fn target(&self, number: u32) -> Option<&Target>
        ensures target { option_copied result ≡ target_of self.now.references number }
    {
        if number <= self.base {
            return None;
        }
        self.live.get((number - self.base - 1) as usize)
    }

    /// How many are live now, to go back to.
    pub fn mark(&self) -> Mark
        ensures mark { result ≡ length self.now.references.live }
    {
        Mark {
            live: self.live.len(),
        }
    }

    /// Keeps as many from the front as were live at the mark, and takes back the numbers of the others, which are then given
    /// again. At least so many must be live.
    pub fn back_to(&mut self, mark: Mark)
        requires { mark ≤ length self.old.references.live }
        ensures back { self.new ≡ table_back_to mark self.old }
        ensures orderly { IsOrderlyReferences self.new }
    {
        self.live.truncate(mark.live);
    }

    /// Lets all die. Their numbers never come again.
    pub fn clear(&mut self)
        ensures none { self.new ≡ table_without_references self.old }
        ensures orderly { IsOrderlyReferences self.new }
    {
        self.base += self.live.len() as u32;
        self.live.clear();
    }

    /// How many are live.
    pub fn len(&self) -> usize
        ensures len { result ≡ length self.now.references.live }
        ensures orderly { IsOrderlyReferences self.now }
    {
        self.live.len()
    }

    /// Whether none is live.
    pub fn is_empty(&self) -> bool
        ensures { IsTrue result ↔ (self.now.references.live ≡ []) }
    {
        self.live.is_empty()
    }
}
