//! A checker of lines: one after the other comes in, and what it breaks goes out.
ghost use Rattle.std.specs.Prelude.{◌+◌, ◌≤◌};

use crate::checking::CheckFault;
use crate::found::{CheckMode, LineFound};
use crate::judging::{is_either, is_of_rule_8, judge_body};
use crate::reading::{LineRead, read_in};
use crate::rule::OpenRequest;
use crate::seen::Seen;
use crate::unanswered::in_order;
use dap_command::GatheredReferences;
use dap_json::object_reader::Scratch;
use std::alloc::{AllocError, Global};

/// Judges the lines of a transcript, one after the other, by those before. It keeps of them what the rules ask for, and not
/// their texts.
#[derive(Drop)]
pub struct Checker {
    mode: CheckMode,
    /// How many lines were taken.
    number: u64,
    seen: Seen,
    scratch: Scratch,
    /// What the last line gives, where it was read without its tree.
    given: GatheredReferences,
    ghost room: { seen.counts.client + seen.counts.adapter ≤ number },
}

impl Checker {
    ghost use Rattle.std.specs.Prelude.{◌≡◌, ◌-◌, ◌^◌, ◌<◌, [], List, ℕ, length, OnOk, IfOk, IfErr, IfSome, IsTrue, None, true};
    ghost use Rattle.dap_check.specs.Checking.{HasTaken, TakesText, TakesNextText, KeepsTaken, AreUnanswered, taken_by};
    ghost use Rattle.dap_check.specs.PrivateBare.{IsReadAs};
    ghost use Rattle.dap_check.specs.Transcript.{IsLine, Refuses, RefusesNext};
    ghost use Rattle.dap_shape.specs.Faults.{fault_in};
    ghost use Rattle.dap_check.specs.declared.line.Form.{Form};
    ghost use Rattle.dap_check.specs.declared.checking.CheckFault.{CheckFault};
    ghost use Rattle.dap_check.specs.declared.found.CheckMode.{CheckMode};
    ghost use Rattle.dap_check.specs.declared.line.Line.{Line as TheLine};

    /// Before the first line.
    pub fn open(alloc: Global, mode: CheckMode) -> Checker
        ensures taken { HasTaken mode [] [] result }
        ensures none { taken_by result ≡ 0 }
    {
        Checker {
            mode,
            number: 0,
            seen: Seen::new(alloc),
            scratch: Scratch::new(alloc),
            given: GatheredReferences::new(alloc),
        }
    }

    /// How many lines it has taken, those without bytes too.
    pub fn taken(&self) -> u64
        ensures { result ≡ taken_by self.now }
    {
        self.number
    }

    /// Takes the text of the next line, without its line feed: what the line breaks by those before, or none where the text has
    /// no bytes. A line that breaks a rule is noted as any other.
    ///
    /// # Errors
    /// `BadLine` and `Body` as [`check`](crate::check) has them: the checker is as it was, and the text may be left out.
    /// `OutOfMemory` where memory is refused: of the checker nothing more is promised.
    pub fn line(&mut self, alloc: Global, text: &[u8]) -> Result<Option<LineFound>, CheckFault>
        requires { taken_by self.old < 2 ^ 64 - 1 }
        ensures found { IfOk result (TakesNextText self.old text.now self.new) }
        ensures bytes { IfOk result (λ found. IfSome found (λ line. 0 < length text.now)) }
        ensures one { OnOk result (taken_by self.new ≡ taken_by self.old + 1) }
        ensures same { IfErr result (λ fault. taken_by self.new ≡ taken_by self.old) }
        ensures refused { IfErr result (RefusesNext (taken_by self.old) text.now) }
        ensures kept { IfErr result (KeepsTaken self.old self.new) }
    {
        let number = self.number + 1;
        if text.is_empty() {
            self.number = number;
            return Ok(None);
        }
        let mode = self.mode;
        let read = read_in(
            alloc,
            &mut self.scratch,
            &mut self.given,
            mode,
            number,
            text,
        );
        match read {
            Ok(read) => self.take_read(alloc, number, text, read),
            Err(fault) => Err(fault),
        }
    }

    /// Judges the next line as it was read, and takes note of it.
    fn take_read(
        &mut self,
        alloc: Global,
        number: u64,
        text: &[u8],
        mut read: LineRead,
    ) -> Result<Option<LineFound>, CheckFault>
        requires next { number ≡ taken_by self.old + 1 }
        requires below { taken_by self.old < 2 ^ 64 - 1 }
        ensures found { IfOk result (λ found. (mode : CheckMode) (texts : List (List ℕ)) (lines : List TheLine) (real : TheLine) → HasTaken mode texts lines self.old → 0 < length text.now → IsLine number text.now real → IsReadAs read.form self.old.given read.line real → (IsTrue read.is_sound → fault_in real.message.kind ≡ None) → (self.old.mode.whole ≡ true → read.form ≡ Form.Whole) → TakesText mode texts lines text.now found self.new) }
        ensures one { OnOk result (taken_by self.new ≡ taken_by self.old + 1) }
        ensures same { IfErr result (λ fault. taken_by self.new ≡ taken_by self.old) }
        ensures refused { IfErr result (Refuses number text.now) }
        ensures kept { IfErr result (KeepsTaken self.old self.new) }
    {
        let mode = self.mode;
        let rule = self.seen.least_broken(mode.any_seq, &read.line);
        let broken = judge_body(
            alloc,
            &mut self.scratch,
            mode.bodies,
            number,
            &mut read,
            rule,
            text,
        )?;
        let side = read.line.side;
        let is_of_8 = is_of_rule_8(&broken);
        let is_given_back = is_either(mode.whole, is_of_8);
        let line = self
            .seen
            .note_read(alloc, read, &self.given, is_given_back)?;
        self.number = number;
        Ok(Some(LineFound {
            number,
            side,
            broken,
            line,
        }))
    }

    /// The requests of the lines taken that nothing has answered, in the order of their lines.
    ///
    /// # Errors
    /// Memory is refused.
    pub fn unanswered(self, alloc: Global) -> Result<Vec<OpenRequest>, AllocError>
        ensures { IfOk result (AreUnanswered self) }
    {
        let Checker { seen, .. } = self;
        in_order(alloc, seen.pending)
    }
}
