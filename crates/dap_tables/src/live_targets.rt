//! The targets that are live, by place, and their places by target.
ghost use Rattle.std.specs.Prelude.{◌≡◌, ◌≤◌, ◌-◌, ◌↔◌, [], ◌∷◌, ◌++◌, length, take, None, OnOk, OnErr, IsTrue};
ghost use Rattle.std.specs.List.{slice_get};
ghost use Rattle.std.specs.Option.{option_copied};
ghost use Rattle.dap_tables.specs.References.{place_of, frame_of, holder_of};

use crate::reference_kind::ReferenceKind;
use crate::target::Target;
use std::alloc::{AllocError, Global};
use std::collections::BTreeMap;
use std::marker::Model;

/// Targets in the order in which they came, no two the same. A target is found by its object, and not by a walk.
#[derive(Drop)]
pub(crate) struct LiveTargets {
    targets: Vec<Target>,
    frames: BTreeMap<u64, usize>,
    holders: BTreeMap<u64, usize>,
}

impl Model for LiveTargets {
    ghost use Rattle.std.specs.Prelude.{List};
    ghost use Rattle.dap_tables.specs.declared.target.Target.{Target as Named};
    ghost use Rattle.dap_tables.specs.References.{HasDistinctTargets};
    ghost use Rattle.dap_tables.specs.PrivateReferenceStore.{HasPlaces};

    ghost Value = { List Named };

    ghost view = { λ t. t.targets.items };

    ghost invariant = { λ t. HasPlaces t.frames t.holders t.targets.items × HasDistinctTargets t.targets.items };
}

impl LiveTargets {
    pub(crate) fn new(alloc: Global) -> LiveTargets
        ensures { result ≡ [] }
    {
        LiveTargets {
            targets: Vec::new(alloc),
            frames: BTreeMap::new(alloc),
            holders: BTreeMap::new(alloc),
        }
    }

    pub(crate) fn len(&self) -> usize
        ensures { result ≡ length self.now }
    {
        self.targets.len()
    }

    pub(crate) fn get(&self, place: usize) -> Option<&Target>
        ensures { option_copied result ≡ slice_get self.now place }
    {
        self.targets.get(place)
    }

    fn place_of_frame(&self, object: u64) -> Option<usize>
        ensures { result ≡ place_of (frame_of object) self.now }
    {
        self.frames.get(&object).copied()
    }

    fn place_of_holder(&self, object: u64) -> Option<usize>
        ensures { result ≡ place_of (holder_of object) self.now }
    {
        self.holders.get(&object).copied()
    }

    pub(crate) fn place(&self, target: Target) -> Option<usize>
        ensures { result ≡ place_of target self.now }
    {
        match target.kind {
            ReferenceKind::Frame => self.place_of_frame(target.object),
            ReferenceKind::Holder => self.place_of_holder(target.object),
        }
    }

    fn push_frame(&mut self, object: u64) -> Result<(), AllocError>
        requires { place_of (frame_of object) self.old ≡ None }
        ensures pushed { OnOk result (self.new ≡ self.old ++ frame_of object ∷ []) }
        ensures memory { OnErr result (self.new ≡ self.old) }
    {
        self.targets.reserve(1)?;
        self.frames.insert(object, self.targets.len())?;
        self.targets.push(Target {
            kind: ReferenceKind::Frame,
            object,
        })?;
        Ok(())
    }

    fn push_holder(&mut self, object: u64) -> Result<(), AllocError>
        requires { place_of (holder_of object) self.old ≡ None }
        ensures pushed { OnOk result (self.new ≡ self.old ++ holder_of object ∷ []) }
        ensures memory { OnErr result (self.new ≡ self.old) }
    {
        self.targets.reserve(1)?;
        self.holders.insert(object, self.targets.len())?;
        self.targets.push(Target {
            kind: ReferenceKind::Holder,
            object,
        })?;
        Ok(())
    }

    pub(crate) fn push(&mut self, target: Target) -> Result<(), AllocError>
        requires { place_of target self.old ≡ None }
        ensures pushed { OnOk result (self.new ≡ self.old ++ target ∷ []) }
        ensures memory { OnErr result (self.new ≡ self.old) }
    {
        match target.kind {
            ReferenceKind::Frame => self.push_frame(target.object),
            ReferenceKind::Holder => self.push_holder(target.object),
        }
    }

    fn pop(&mut self)
        ensures { self.new ≡ take (length self.old - 1) self.old }
    {
        let Some(target) = self.targets.pop() else {
            return;
        };
        match target.kind {
            ReferenceKind::Frame => {
                self.frames.remove(&target.object);
            }
            ReferenceKind::Holder => {
                self.holders.remove(&target.object);
            }
        }
    }

    pub(crate) fn truncate(&mut self, len: usize)
        requires { len ≤ length self.old }
        ensures { self.new ≡ take len self.old }
    {
        while self.len() > len {
            self.pop();
        }
    }

    pub(crate) fn clear(&mut self)
        ensures { self.new ≡ [] }
    {
        self.targets.clear();
        self.frames.clear();
        self.holders.clear();
    }

    pub(crate) fn is_empty(&self) -> bool
        ensures { IsTrue result ↔ (self.now ≡ []) }
    {
        self.targets.is_empty()
    }
}
