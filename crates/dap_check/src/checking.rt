//! Whether a transcript is legal, and all that is found in it.
ghost use Rattle.std.specs.Prelude.{◌≡◌, ◌+◌, ◌-◌, ◌^◌, ◌<◌, ◌∷◌, ◌++◌, [], List, ℕ, length, OnOk, IfOk, IfErr, MatchResult};
ghost use Rattle.std.specs.Str.Lines.{lines};
ghost use Rattle.dap_check.specs.Checking.{taken_by};
ghost use Rattle.dap_check.specs.Findings.{finding_at, findings, first_of, IsReport};
ghost use Rattle.dap_check.specs.PrivateJudged.{rule_in, IsProgress};
ghost use Rattle.dap_check.specs.Rules.{of_both_if};
ghost use Rattle.dap_check.specs.Transcript.{Refuses, FirstRefused, GivesFirstRefused, IsRefusal};
ghost use Rattle.dap_check.specs.Verdicts.{IsVerdictOnBytes, GivesVerdict, IsReportOnBytes, GivesReport};
ghost use Rattle.dap_check.specs.declared.checking.CheckFault.{CheckFault};
ghost use Rattle.dap_check.specs.declared.line.Line.{Line as TheLine};
ghost use Rattle.dap_check.specs.declared.rule.AnySeq.{AnySeq};
ghost use Rattle.dap_check.specs.declared.rule.Checked.{Checked};

use crate::checker::Checker;
use crate::cutting::split_line;
use crate::found::{Broken, CheckMode};
use crate::rule::{AnySeq, Checked, Finding, Report};
use dap_envelope::BodyRefusal;
use dap_envelope::laws::each_body_is_one;
use std::alloc::{AllocError, Global};
use thiserror::Error;

/// Why a text is no transcript.
#[derive(Clone, Copy, Debug, PartialEq, Eq, Error)]
pub enum CheckFault {
    /// A line begins neither with `> ` nor with `< `; lines are counted from 1.
    #[error("line {line} is of neither side")]
    BadLine { line: u64 },
    /// What a line has after that is no message.
    #[error("line {line} is no message")]
    Body { line: u64, cause: BodyRefusal },
    /// Memory was refused.
    #[error("memory is exhausted")]
    OutOfMemory,
}

impl From<AllocError> for CheckFault {
    ghost use Rattle.std.specs.Prelude.{◌≡◌};
    ghost use Rattle.dap_check.specs.declared.checking.CheckFault.TheVariants.{OutOfMemory};

    ghost from_gives = { λ _ fault. fault ≡ OutOfMemory };

    fn from(_refused: AllocError) -> CheckFault {
        CheckFault::OutOfMemory
    }
}

fn push_broken(
    findings: &mut Vec<Finding>,
    line: u64,
    broken: &Option<Broken>,
) -> Result<(), AllocError>
    ensures { OnOk result (findings.new.items ≡ findings.old.items ++ finding_at line (rule_in broken.now)) }
{
    if let Some(Broken::Rule(rule)) = broken {
        findings.push(Finding { line, rule: *rule })?;
    }
    Ok(())
}

/// How far checking has come.
#[derive(Drop)]
pub(crate) struct Progress {
    pub(crate) checker: Checker,
    /// The lines so far that break a rule, in order.
    pub(crate) findings: Vec<Finding>,
}

impl Progress {
    fn new(alloc: Global, any_seq: AnySeq) -> Progress
        ensures progress { IsProgress any_seq [] [] result }
        ensures none { taken_by result.checker ≡ 0 }
    {
        let mode = CheckMode {
            any_seq,
            bodies: false,
            whole: false,
        };
        Progress {
            checker: Checker::open(alloc, mode),
            findings: Vec::new(alloc),
        }
    }

    /// Takes the text of the next line.
    fn take(&mut self, alloc: Global, text: &[u8]) -> Result<(), CheckFault>
        requires { taken_by self.old.checker < 2 ^ 64 - 1 }
        ensures progress { OnOk result ((any_seq : AnySeq) (texts : List (List ℕ)) (lines : List TheLine) → IsProgress any_seq texts lines self.old → (more : List TheLine) × IsProgress any_seq (texts ++ text.now ∷ []) more self.new) }
        ensures one { OnOk result (taken_by self.new.checker ≡ taken_by self.old.checker + 1) }
        ensures refused { IfErr result (λ fault. Refuses (taken_by self.old.checker + 1) text.now fault × (0 < length text.now)) }
    {
        match self.checker.line(alloc, text)? {
            None => Ok(()),
            Some(found) => {
                match push_broken(&mut self.findings, found.number, &found.broken) {
                    Ok(()) => Ok(()),
                    Err(_) => Err(CheckFault::OutOfMemory),
                }
            }
        }
    }
}

/// All lines, in one pass.
fn pass(alloc: Global, bytes: &[u8], any_seq: AnySeq) -> Result<Progress, CheckFault>
    ensures progress { IfOk result (λ progress. (transcript : List TheLine) × IsProgress any_seq (lines bytes.now) transcript progress) }
    ensures refused { IfErr result (FirstRefused (lines bytes.now)) }
{
    let mut progress = Progress::new(alloc, any_seq);
    let mut rest = bytes;
    while !rest.is_empty() {
        let (text, later) = split_line(rest);
        progress.take(alloc, text)?;
        rest = later;
    }
    Ok(progress)
}

/// What was found, with the requests that nothing has answered.
fn report(alloc: Global, progress: Progress) -> Result<Report, CheckFault>
    ensures { (any_seq : AnySeq) (texts : List (List ℕ)) (lines : List TheLine) → IsProgress any_seq texts lines progress → MatchResult result (IsReport any_seq lines) (λ fault. fault ≡ CheckFault.OutOfMemory) }
{
    let Progress { checker, findings } = progress;
    match checker.unanswered(alloc) {
        Ok(unanswered) => Ok(Report {
            findings,
            unanswered,
        }),
        Err(_) => Err(CheckFault::OutOfMemory),
    }
}

fn first(findings: &[Finding]) -> Checked
    ensures { result ≡ first_of findings.now }
{
    match findings.first() {
        None => Checked::Legal,
        Some(finding) => Checked::Finding {
            line: finding.line,
            rule: finding.rule,
        },
    }
}

/// Whether a transcript keeps the rules. Of one that does not, the least line that breaks a rule is told, and the least
/// rule that it breaks. With `any_seq` messages may have any number: rule 1 is not tested. A line that is none, or no message,
/// is told before any finding. [`check_by_side`] leaves rule 1 out for one side alone.
pub fn check(alloc: Global, bytes: &[u8], any_seq: bool) -> Result<Checked, CheckFault>
    ensures checked { IfOk result (IsVerdictOnBytes (of_both_if any_seq) bytes.now) }
    ensures refused { IfErr result (FirstRefused (lines bytes.now)) }

    // And the other way, unless memory runs out.
    ensures checks { GivesVerdict (of_both_if any_seq) bytes.now result }
    ensures refuses { GivesFirstRefused (lines bytes.now) result }
{
    check_by_side(alloc, bytes, AnySeq::of_both_if(any_seq))
}

/// The same, where `any_seq` says whose numbers are not tested: those of neither side, of one, or of both.
pub fn check_by_side(alloc: Global, bytes: &[u8], any_seq: AnySeq) -> Result<Checked, CheckFault>
    ensures checked { IfOk result (IsVerdictOnBytes any_seq bytes.now) }
    ensures refused { IfErr result (FirstRefused (lines bytes.now)) }

    // And the other way, unless memory runs out.
    ensures checks { GivesVerdict any_seq bytes.now result }
    ensures refuses { GivesFirstRefused (lines bytes.now) result }
{
    // A law for the proof: no line is both a message and refused.
    each_body_is_one();
    match pass(alloc, bytes, any_seq) {
        Ok(progress) => Ok(first(&progress.findings)),
        Err(fault) => Err(fault),
    }
}

/// Each line that breaks a rule, with the least rule that it breaks, and each request that nothing has answered. A line is
/// judged by all lines before it, also by those that break a rule. The first finding is that of [`check_by_side`]; a line that is
/// none, or no message, is reported before any. For rule 8 too see [`Checker`].
pub fn check_all(alloc: Global, bytes: &[u8], any_seq: AnySeq) -> Result<Report, CheckFault>
    ensures checked { IfOk result (IsReportOnBytes any_seq bytes.now) }
    ensures refused { IfErr result (IsRefusal (lines bytes.now)) }

    // And the other way, unless memory runs out.
    ensures checks { GivesReport any_seq bytes.now result }
    ensures refuses { GivesFirstRefused (lines bytes.now) result }
{
    // A law for the proof: no line is both a message and refused.
    each_body_is_one();
    match pass(alloc, bytes, any_seq) {
        Ok(progress) => report(alloc, progress),
        Err(fault) => Err(fault),
    }
}
