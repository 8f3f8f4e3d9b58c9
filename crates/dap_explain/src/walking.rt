//! Why one line of a transcript breaks a rule: the lines before it, taken once.
ghost use Rattle.std.specs.Prelude.{◌≡◌, ◌+◌, ◌-◌, ◌^◌, ◌<◌, ◌∷◌, ◌++◌, [], List, ℕ, take, false, OnOk, IfOk, IfErr};
ghost use Rattle.std.specs.Str.Lines.{lines};
ghost use Rattle.dap_explain.specs.Explained.{HasNoted, noted_by};
ghost use Rattle.dap_explain.specs.PrivateWalks.{explaining, IsWalk, IsAt, IsExplained};
ghost use Rattle.dap_check.specs.Transcript.{RefusesNext, FirstRefused, GivesFirstRefused, IsRefusedIn};
ghost use Rattle.dap_explain.specs.Explanations.{ExplainsLine, ExplainsLastLine, ExplainsNoLine};
ghost use Rattle.dap_check.specs.declared.checking.CheckFault.{CheckFault};
ghost use Rattle.dap_check.specs.declared.line.Line.{Line as TheLine};

use crate::reason::Reason;
use crate::reasoning::ExplainedChecker;
use dap_check::laws::texts_are_read_in_one_way;
use dap_check::{AnySeq, CheckFault, CheckMode, Rule, split_line};
use std::alloc::Global;

/// How far the lines were taken.
#[derive(Drop)]
pub(crate) struct Walk<'a> {
    pub(crate) checker: ExplainedChecker,
    pub(crate) rest: &'a [u8],
}

/// Takes the text of the next line.
fn take_text(alloc: Global, checker: &mut ExplainedChecker, text: &[u8]) -> Result<(), CheckFault>
    requires { noted_by checker.old < 2 ^ 64 - 1 }
    ensures noted { OnOk result ((texts : List (List ℕ)) (read : List TheLine) → HasNoted explaining texts read checker.old → (more : List TheLine) × HasNoted explaining (texts ++ text.now ∷ []) more checker.new) }
    ensures one { OnOk result (noted_by checker.new ≡ noted_by checker.old + 1) }
    ensures refused { IfErr result (RefusesNext (noted_by checker.old) text.now) }
{
    let told = checker.line(alloc, text)?;
    drop(told);
    Ok(())
}

/// Takes the lines before this number.
fn walk_to<'a>(alloc: Global, bytes: &'a [u8], number: u64) -> Result<Walk<'a>, CheckFault>
    ensures walk { IfOk result (λ walk. IsWalk bytes.entry.now walk.rest.now walk.checker × IsAt number walk.rest.now walk.checker) }
    ensures refused { IfErr result (FirstRefused (take number (lines bytes.entry.now))) }
{
    let mode = CheckMode {
        any_seq: AnySeq::OfNone,
        bodies: false,
        whole: true,
    };
    let mut checker = ExplainedChecker::open(alloc, mode);
    let mut rest = bytes;
    while !rest.is_empty() && checker.taken() + 1 < number {
        let (text, later) = split_line(rest);
        take_text(alloc, &mut checker, text)?;
        rest = later;
    }
    Ok(Walk { checker, rest })
}

impl<'a> Walk<'a> {
    /// Why the next line breaks a rule, if it has this number.
    fn explain(&self, alloc: Global, number: u64, rule: Rule) -> Result<Option<Reason>, CheckFault>
        requires { noted_by self.now.checker < 2 ^ 64 - 1 }
        ensures { (bytes : List ℕ) → IsWalk bytes self.now.rest.now self.now.checker → IsAt number self.now.rest.now self.now.checker → IsExplained bytes number rule result }
    {
        // A law for the proof: no text is two lines.
        texts_are_read_in_one_way();
        if self.checker.taken() + 1 != number || self.rest.is_empty() {
            return Ok(None);
        }
        let (text, _) = split_line(self.rest);
        if text.is_empty() {
            return Ok(None);
        }
        self.checker.reason(alloc, text, rule)
    }
}

fn explain_line(
    alloc: Global,
    bytes: &[u8],
    number: u64,
    rule: Rule,
) -> Result<Option<Reason>, CheckFault>
    ensures { IsExplained bytes.now number rule result }
{
    // A law for the proof: a transcript is refused for nothing but memory.
    texts_are_read_in_one_way();
    let walk = walk_to(alloc, bytes, number)?;
    walk.explain(alloc, number, rule)
}

/// Why a line of a transcript breaks a rule, as [`check`](dap_check::check) has found: against which earlier line it stands.
/// None where the line keeps the rule, and where no line with a message has this number. The lines after it are not read.
/// Whoever judges the lines has the reasons at hand by [`ExplainedChecker`].
pub fn explain(
    alloc: Global,
    bytes: &[u8],
    number: u64,
    rule: Rule,
) -> Result<Option<Reason>, CheckFault>
    ensures explains { ExplainsLine number rule (lines bytes.now) result }
    ensures absent { ExplainsNoLine number (lines bytes.now) result }
    ensures refused { IfErr result (IsRefusedIn (lines bytes.now)) }

    // By the lines up to that number alone, also where a later one is refused.
    ensures explains_so_far { ExplainsLastLine number rule (take number (lines bytes.now)) result }
    ensures absent_so_far { ExplainsNoLine number (take number (lines bytes.now)) result }
    ensures refused_so_far { IfErr result (FirstRefused (take number (lines bytes.now))) }
    ensures refuses { GivesFirstRefused (take number (lines bytes.now)) result }
{
    // A law for the proof: how transcripts grow.
    texts_are_read_in_one_way();
    explain_line(alloc, bytes, number, rule)
}
