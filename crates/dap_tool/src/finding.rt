//! What is printed of a line that breaks a rule: the line, the rule, and why where that is asked for.
ghost use Rattle.std.specs.Prelude.{◌≡◌, ◌++◌, codes, decimal, Some, IfOk, OnOk, string_bytes, option_map};
ghost use Rattle.dap_check.specs.declared.line.Line.{Line as TheLine};
ghost use Rattle.dap_shape.specs.Seen.{fault_seen};
ghost use Rattle.dap_shape.specs.Sentences.{sentence_of};
ghost use Rattle.dap_tool.specs.Verdicts.{text_of_finding, text_of_reason, text_of_why, text_of_fault};
ghost use Rattle.dap_tool.specs.PrivateListed.{IsGivenFor, text_told};

use dap_check::{Broken, Line, Rule};
use dap_envelope::Kind;
use dap_explain::{LineTold, Reason};
use dap_shape::ShapeFault;
use std::alloc::{AllocError, Global};

/// The line and the rule, by their numbers.
pub(crate) fn rule_text(alloc: Global, line: u64, rule: u8) -> Result<String, AllocError>
    ensures { IfOk result (λ text. string_bytes text ≡ codes "line " ++ decimal line ++ codes " rule " ++ decimal rule ++ codes "\n") }
{
    let rule = u64::from(rule);
    Ok(format!(in alloc; "line {line} rule {rule}\n")?)
}

fn push_rule(alloc: Global, text: &mut Vec<u8>, line: u64, rule: u8) -> Result<(), AllocError>
    ensures { OnOk result (text.new.items ≡ text.old.items ++ (codes "line " ++ decimal line ++ codes " rule " ++ decimal rule ++ codes "\n")) }
{
    let words = rule_text(alloc, line, rule)?;
    text.extend_from_slice(words.as_bytes())
}

fn push_reason(alloc: Global, text: &mut Vec<u8>, reason: Reason) -> Result<(), AllocError>
    ensures { OnOk result (text.new.items ≡ text.old.items ++ text_of_reason reason) }
{
    let words = dap_explain::sentence(alloc, reason)?;
    text.extend_from_slice(words.as_bytes())?;
    text.extend_from_slice(b"\n")
}

fn push_why(alloc: Global, text: &mut Vec<u8>, reason: Option<Reason>) -> Result<(), AllocError>
    ensures { OnOk result (text.new.items ≡ text.old.items ++ text_of_why reason) }
{
    match reason {
        None => Ok(()),
        Some(reason) => push_reason(alloc, text, reason),
    }
}

/// Of a line that breaks one of the seven rules.
#[inline(never)]
fn push_finding(
    alloc: Global,
    text: &mut Vec<u8>,
    line: u64,
    rule: Rule,
    reason: Option<Reason>,
) -> Result<(), AllocError>
    ensures { OnOk result (text.new.items ≡ text.old.items ++ (text_of_finding line rule ++ text_of_why reason)) }
{
    push_rule(alloc, text, line, rule.number())?;
    push_why(alloc, text, reason)
}

fn push_sentence(
    alloc: Global,
    text: &mut Vec<u8>,
    kind: &Kind,
    fault: &ShapeFault,
) -> Result<(), AllocError>
    ensures { OnOk result (text.new.items ≡ text.old.items ++ (sentence_of kind.now (fault_seen fault.now) ++ codes "\n")) }
{
    let words = dap_shape::sentence(alloc, kind, fault)?;
    text.extend_from_slice(words.as_bytes())?;
    text.extend_from_slice(b"\n")
}

/// The same of a line that is given.
fn push_sentence_of(
    alloc: Global,
    text: &mut Vec<u8>,
    line: &Option<Box<Line>>,
    fault: &ShapeFault,
) -> Result<(), AllocError>
    ensures { OnOk result ((real : TheLine) → option_map (λ boxed. boxed.value) line.now ≡ Some real → text.new.items ≡ text.old.items ++ (sentence_of real.message.kind (fault_seen fault.now) ++ codes "\n")) }
{
    match line {
        None => Ok(()),
        Some(line) => push_sentence(alloc, text, &line.message.kind, fault),
    }
}

fn rule_8_text(alloc: Global, line: u64) -> Result<String, AllocError>
    ensures { IfOk result (λ text. string_bytes text ≡ codes "line " ++ decimal line ++ codes " rule 8\n") }
{
    Ok(format!(in alloc; "line {line} rule 8\n")?)
}

fn push_rule_8(alloc: Global, text: &mut Vec<u8>, line: u64) -> Result<(), AllocError>
    ensures { OnOk result (text.new.items ≡ text.old.items ++ (codes "line " ++ decimal line ++ codes " rule 8\n")) }
{
    let words = rule_8_text(alloc, line)?;
    text.extend_from_slice(words.as_bytes())
}

/// Of a line that breaks rule 8, which is given.
#[inline(never)]
fn push_fault(
    alloc: Global,
    text: &mut Vec<u8>,
    explained: bool,
    number: u64,
    line: &Option<Box<Line>>,
    fault: &ShapeFault,
) -> Result<(), AllocError>
    ensures { OnOk result ((real : TheLine) → option_map (λ boxed. boxed.value) line.now ≡ Some real → text.new.items ≡ text.old.items ++ text_of_fault explained number real.message.kind (fault_seen fault.now)) }
{
    push_rule_8(alloc, text, number)?;
    if !explained {
        return Ok(());
    }
    push_sentence_of(alloc, text, line, fault)?;
    Ok(())
}

/// Appends what is printed of a line; nothing where it breaks no rule.
pub(crate) fn push_told(
    alloc: Global,
    text: &mut Vec<u8>,
    explained: bool,
    told: &LineTold,
) -> Result<(), AllocError>
    ensures { OnOk result ((line : TheLine) → IsGivenFor line told.now.found → text.new.items ≡ text.old.items ++ text_told explained told.now.found.number told.now.reason line told.now.found.broken) }
{
    let number = told.found.number;
    match &told.found.broken {
        None => Ok(()),
        Some(Broken::Rule(rule)) => push_finding(alloc, text, number, *rule, told.reason),
        Some(Broken::Body(fault)) => {
            push_fault(alloc, text, explained, number, &told.found.line, fault)
        }
    }
}
