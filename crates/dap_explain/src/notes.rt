//! All that is kept of the lines so far, for the reasons of findings at the next one.
ghost use Rattle.std.specs.Prelude.{◌≡◌, ◌+◌, ◌-◌, ◌^◌, ◌<◌, ◌∷◌, ◌++◌, [], List, ℕ, Some, OnOk, IfErr, true, option_map};
ghost use Rattle.dap_explain.specs.KeptNotes.{AreNotes, asked_of};
ghost use Rattle.dap_explain.specs.KeptTrails.{AreBelow};
ghost use Rattle.dap_check.specs.Checking.{IsFound};
ghost use Rattle.dap_check.specs.declared.found.CheckMode.{CheckMode};
ghost use Rattle.dap_check.specs.declared.line.Line.{Line as TheLine};

use crate::asked::Asked;
use crate::decisions::Decisions;
use crate::given::Given;
use crate::trail::Trails;
use dap_check::{Line, LineFound, Side};
use std::alloc::{AllocError, Global};

#[derive(Drop)]
pub(crate) struct Notes {
    pub(crate) trails: Trails,
    pub(crate) decisions: Decisions,
    pub(crate) client: Asked,
    pub(crate) adapter: Asked,
    pub(crate) given: Given,
}

impl Notes {
    pub(crate) fn new(alloc: Global) -> Notes
        ensures notes { AreNotes result [] }
        ensures below { AreBelow 1 result.trails }
    {
        Notes {
            trails: Trails::new(),
            decisions: Decisions::new(),
            client: Asked::new(alloc),
            adapter: Asked::new(alloc),
            given: Given::new(alloc),
        }
    }

    /// The requests of a side.
    pub(crate) fn asked(&self, side: Side) -> &Asked
        ensures { result.now ≡ asked_of self.now side }
    {
        match side {
            Side::Client => &self.client,
            Side::Adapter => &self.adapter,
        }
    }

    pub(crate) fn note(&mut self, alloc: Global, line: &Line) -> Result<(), AllocError>
        requires { AreBelow (2 ^ 64 - 1) self.old.trails }
        ensures notes { OnOk result ((earlier : List TheLine) → AreNotes self.old earlier → AreNotes self.new (earlier ++ line.now ∷ [])) }
        ensures below { OnOk result ((n : ℕ) → AreBelow n self.old.trails → AreBelow (n + 1) self.new.trails) }
        ensures same { IfErr result (λ refused. self.new.trails ≡ self.old.trails) }
    {
        self.client.note(alloc, Side::Client, line)?;
        self.adapter.note(alloc, Side::Adapter, line)?;
        self.given.note(line)?;
        self.decisions.note(line);
        self.trails.note(line);
        Ok(())
    }

    /// Takes note of a line that was read whole.
    #[inline(never)]
    pub(crate) fn note_found(&mut self, alloc: Global, found: &LineFound) -> Result<(), AllocError>
        requires { AreBelow (2 ^ 64 - 1) self.old.trails }
        ensures notes { OnOk result ((mode : CheckMode) (earlier : List TheLine) (line : TheLine) → mode.whole ≡ true → IsFound mode earlier line found.now → AreNotes self.old earlier → AreNotes self.new (earlier ++ line ∷ [])) }
        ensures below { OnOk result ((n : ℕ) → AreBelow n self.old.trails → AreBelow (n + 1) self.new.trails) }
        ensures same { IfErr result (λ refused. self.new.trails ≡ self.old.trails) }
    {
        self.note_given(alloc, &found.line)
    }

    /// The same of a line that may not be given.
    fn note_given(&mut self, alloc: Global, line: &Option<Box<Line>>) -> Result<(), AllocError>
        requires { AreBelow (2 ^ 64 - 1) self.old.trails }
        ensures notes { OnOk result ((earlier : List TheLine) (real : TheLine) → option_map (λ boxed. boxed.value) line.now ≡ Some real → AreNotes self.old earlier → AreNotes self.new (earlier ++ real ∷ [])) }
        ensures below { OnOk result ((n : ℕ) → AreBelow n self.old.trails → AreBelow (n + 1) self.new.trails) }
        ensures same { IfErr result (λ refused. self.new.trails ≡ self.old.trails) }
    {
        match line {
            None => Ok(()),
            Some(line) => self.note(alloc, line),
        }
    }
}
