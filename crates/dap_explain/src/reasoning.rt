//! A checker of lines that has the reason of each finding at hand.
ghost use Rattle.std.specs.Prelude.{◌+◌};
ghost use Rattle.dap_check.specs.Checking.{taken_by};
ghost use Rattle.dap_explain.specs.KeptTrails.{AreBelow};

use crate::notes::Notes;
use crate::reason::Reason;
use crate::told::LineTold;
use dap_check::{CheckFault, CheckMode, Checker, OpenRequest, Rule, read_line};
use std::alloc::{AllocError, Global};

/// A [`Checker`] that says why: it keeps of each line what a reason at a later one may stand against, so that a reason is a
/// lookup. Reasons are asked for by `whole` of its mode; without, it is the checker alone.
#[derive(Drop)]
pub struct ExplainedChecker {
    checker: Checker,
    explains: bool,
    notes: Notes,
    ghost below: { AreBelow (taken_by checker + 1) notes.trails },
}

impl ExplainedChecker {
    ghost use Rattle.std.specs.Prelude.{◌≡◌, ◌-◌, ◌^◌, ◌<◌, [], List, ℕ, length, OnOk, IfOk, IfErr, IfSome, true};
    ghost use Rattle.dap_check.specs.Transcript.{IsLine, Refuses, RefusesNext};
    ghost use Rattle.dap_check.specs.declared.checking.CheckFault.{CheckFault};
    ghost use Rattle.dap_check.specs.declared.found.CheckMode.{CheckMode};
    ghost use Rattle.dap_check.specs.declared.line.Line.{Line as TheLine};
    ghost use Rattle.dap_explain.specs.Explained.{HasNoted, TellsNext, KeepsNoted, AreUnansweredOf, noted_by};
    ghost use Rattle.dap_explain.specs.Reasons.{reason_of};

    /// Before the first line.
    pub fn open(alloc: Global, mode: CheckMode) -> ExplainedChecker
        ensures noted { HasNoted mode [] [] result }
        ensures none { noted_by result ≡ 0 }
    {
        ExplainedChecker {
            checker: Checker::open(alloc, mode),
            explains: mode.whole,
            notes: Notes::new(alloc),
        }
    }

    /// How many lines it has taken, those without bytes too.
    pub fn taken(&self) -> u64
        ensures { result ≡ noted_by self.now }
    {
        self.checker.taken()
    }

    /// Takes the text of the next line as [`Checker::line`] does, and says why the line breaks its rule.
    ///
    /// # Errors
    /// Those of [`Checker::line`], which say what is left then.
    pub fn line(&mut self, alloc: Global, text: &[u8]) -> Result<Option<LineTold>, CheckFault>
        requires { noted_by self.old < 2 ^ 64 - 1 }
        ensures told { IfOk result (TellsNext self.old text.now self.new) }
        ensures bytes { IfOk result (λ told. IfSome told (λ line. 0 < length text.now)) }
        ensures one { OnOk result (noted_by self.new ≡ noted_by self.old + 1) }
        ensures refused { IfErr result (RefusesNext (noted_by self.old) text.now) }
        ensures kept { IfErr result (KeepsNoted self.old self.new) }
    {
        match self.checker.line(alloc, text)? {
            None => Ok(None),
            Some(found) => {
                if !self.explains {
                    return Ok(Some(LineTold {
                        found,
                        reason: None,
                    }));
                }
                let reason = self.notes.explain_found(&found);
                match self.notes.note_found(alloc, &found) {
                    Ok(()) => Ok(Some(LineTold { found, reason })),
                    Err(_) => Err(CheckFault::OutOfMemory),
                }
            }
        }
    }

    /// Why the line of a text breaks a rule, where it is the next one and reasons are asked for. It is not taken.
    ///
    /// # Errors
    /// The text is no line, or memory is refused.
    pub(crate) fn reason(
        &self,
        alloc: Global,
        text: &[u8],
        rule: Rule,
    ) -> Result<Option<Reason>, CheckFault>
        requires { noted_by self.now < 2 ^ 64 - 1 }
        ensures reason { IfOk result (λ reason. (mode : CheckMode) (texts : List (List ℕ)) (lines : List TheLine) → mode.whole ≡ true → HasNoted mode texts lines self.now → (line : TheLine) × IsLine (noted_by self.now + 1) text.now line × (reason ≡ reason_of rule lines line)) }
        ensures refused { IfErr result (Refuses (noted_by self.now + 1) text.now) }
    {
        let number = self.checker.taken() + 1;
        let line = read_line(alloc, number, text)?;
        Ok(self.notes.explain(rule, &line))
    }

    /// The requests of the lines taken that nothing has answered, in the order of their lines.
    ///
    /// # Errors
    /// Memory is refused.
    pub fn unanswered(self, alloc: Global) -> Result<Vec<OpenRequest>, AllocError>
        ensures { IfOk result (AreUnansweredOf self) }
    {
        let ExplainedChecker { checker, .. } = self;
        checker.unanswered(alloc)
    }
}
