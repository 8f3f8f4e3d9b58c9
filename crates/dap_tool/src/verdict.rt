//! What a program prints of a transcript that it checks.

ghost use Rattle.std.specs.Prelude.{◌≡◌, ◌&&◌, ◌++◌, [], List, ℕ, if◌then◌else◌, nat_le, flat_map, OnOk, IfOk, IfErr, string_bytes};
ghost use Rattle.std.specs.Str.Lines.{lines};
ghost use Rattle.dap_check.specs.Findings.{open_requests};
ghost use Rattle.dap_check.specs.Transcript.{GivesFirstRefused, IsRefusal};
ghost use Rattle.dap_check.specs.declared.checking.CheckFault.{CheckFault};
ghost use Rattle.dap_check.specs.declared.line.Line.{Line};
ghost use Rattle.dap_explain.specs.Explained.{HasNoted};
ghost use Rattle.dap_tool.specs.Hints.{hint_text};
ghost use Rattle.dap_tool.specs.PrivateListed.{mode_of, IsListed};
ghost use Rattle.dap_tool.specs.Verdicts.{text_of_checked, count_text, closing_text, text_of_request, text_of_open, open_text, IsVerdictText, IsVerdictTextOn, GivesVerdictText};

use crate::commands::command_words;
use crate::finding::rule_text;
use crate::listing::{Listing, list_lines};
use crate::numbering::{SideNumbers, words_of};
use dap_check::laws::texts_are_read_in_one_way;
use dap_check::{AnySeq, CheckFault, Checked, OpenRequest};
use dap_explain::ExplainedChecker;
use dap_stream::{push_number, push_shown};
use std::alloc::{AllocError, Global};

/// What is to be printed of a transcript.
#[derive(Clone, Copy, Debug, PartialEq, Eq)]
pub struct CheckOptions {
    /// Whose numbers are not tested.
    pub any_seq: AnySeq,
    /// Every line that breaks a rule, and how many there are; else the first one alone.
    pub all: bool,
    /// Why each of them breaks its rule.
    pub explained: bool,
    /// Each request that nothing has answered.
    pub unanswered: bool,
    /// Whether rule 8 counts: what a message holds is as the Specification has it.
    pub bodies: bool,
}

/// What is printed of a transcript.
#[derive(Debug, Drop)]
pub struct VerdictText {
    /// Whole lines.
    pub text: Vec<u8>,
    pub is_legal: bool,
}

// ---- how many there are

fn push_count(text: &mut Vec<u8>, count: u64) -> Result<(), AllocError>
    ensures { OnOk result (text.new.items ≡ text.old.items ++ count_text count) }
{
    if count == 1 {
        return text.extend_from_slice(b"1 finding\n");
    }
    push_number(text, count)?;
    text.extend_from_slice(b" findings\n")
}

fn push_closing(text: &mut Vec<u8>, all: bool, count: u64) -> Result<(), AllocError>
    ensures { OnOk result (text.new.items ≡ text.old.items ++ closing_text all count) }
{
    if count == 0 {
        return text.extend_from_slice(b"legal\n");
    }
    if all {
        return push_count(text, count);
    }
    Ok(())
}

/// Appends what is said of the numbers of either side, where reasons are asked for.
fn push_hint(
    text: &mut Vec<u8>,
    explained: bool,
    client: SideNumbers,
    adapter: SideNumbers,
) -> Result<(), AllocError>
    ensures { OnOk result (text.new.items ≡ text.old.items ++ (if explained then hint_text (nat_le 2 client.count && client.each_breaks) (nat_le 2 adapter.count && adapter.each_breaks) else [])) }
{
    if explained {
        text.extend_from_slice(words_of(client.are_own(), adapter.are_own()).as_bytes())?;
    }
    Ok(())
}

// ---- requests that nothing has answered

fn push_request(text: &mut Vec<u8>, request: &OpenRequest) -> Result<(), AllocError>
    ensures { OnOk result (text.new.items ≡ text.old.items ++ text_of_request request.now) }
{
    text.extend_from_slice(b"line ")?;
    push_number(text, request.line)?;
    text.extend_from_slice(b" request ")?;
    push_number(text, request.seq)?;
    text.extend_from_slice(b" ")?;
    push_shown(text, request.command.as_str().as_bytes())?;
    text.extend_from_slice(b" is not answered\n")
}

/// The same with what is said of its command, where it is to be explained.
fn push_open(text: &mut Vec<u8>, explained: bool, request: &OpenRequest) -> Result<(), AllocError>
    ensures { OnOk result (text.new.items ≡ text.old.items ++ text_of_open explained request.now) }
{
    push_request(text, request)?;
    if !explained {
        return Ok(());
    }
    text.extend_from_slice(command_words(request.command.as_str()).as_bytes())
}

fn push_each_open(
    text: &mut Vec<u8>,
    explained: bool,
    requests: &[OpenRequest],
) -> Result<(), AllocError>
    ensures { OnOk result (text.new.items ≡ text.old.items ++ flat_map (text_of_open explained) requests.now) }
{
    for request in requests {
        push_open(text, explained, request)?;
    }
    Ok(())
}

/// The same of all that nothing has answered, where it is asked for.
fn push_unanswered(
    alloc: Global,
    text: &mut Vec<u8>,
    options: CheckOptions,
    checker: ExplainedChecker,
) -> Result<(), AllocError>
    ensures { OnOk result ((texts : List (List ℕ)) (transcript : List Line) → HasNoted (mode_of options) texts transcript checker → text.new.items ≡ text.old.items ++ open_text options.unanswered options.explained (open_requests transcript)) }
{
    if !options.unanswered {
        return Ok(());
    }
    let requests = checker.unanswered(alloc)?;
    push_each_open(text, options.explained, &requests)?;
    Ok(())
}

// ---- of a transcript

/// A verdict alone, as a line: `legal`, or the first line that breaks a rule, with that rule.
pub fn verdict_line(alloc: Global, checked: Checked) -> Result<String, AllocError>
    ensures { IfOk result (λ text. string_bytes text ≡ text_of_checked checked) }
{
    match checked {
        Checked::Legal => format!(in alloc; "legal\n"),
        Checked::Finding { line, rule } => rule_text(alloc, line, rule.number()),
    }
}

/// What is printed of a transcript that was listed.
fn verdict(
    alloc: Global,
    options: CheckOptions,
    listing: Listing,
) -> Result<VerdictText, AllocError>
    ensures { IfOk result (λ printed. (texts : List (List ℕ)) (transcript : List Line) → IsListed options texts transcript listing → IsVerdictText options transcript printed) }
{
    let Listing {
        checker,
        mut text,
        count,
        client,
        adapter,
    } = listing;
    let is_legal = count == 0;
    push_closing(&mut text, options.all, count)?;
    push_hint(&mut text, options.explained, client, adapter)?;
    push_unanswered(alloc, &mut text, options, checker)?;
    Ok(VerdictText { text, is_legal })
}

/// What a program prints of a transcript: that it is legal, or the first line that breaks a rule, counted from 1, and the
/// first rule that it breaks; as the options say it, each such line and how many there are, why each breaks its rule, with
/// a hint where a side numbers its messages in a way of its own, and after all that each request that nothing has answered.
/// A message that is not as the Specification has it counts as a finding of rule 8 where bodies are checked and the line
/// breaks none of the seven. Control characters of a command are shown as `?`. Each line is read once.
///
/// # Errors
/// Those of [`check`](dap_check::check): the first line that is of neither side or no message, before any finding.
pub fn check_text(
    alloc: Global,
    bytes: &[u8],
    options: CheckOptions,
) -> Result<VerdictText, CheckFault>
    ensures checked { IfOk result (IsVerdictTextOn options bytes.now) }
    ensures refused { IfErr result (IsRefusal (lines bytes.now)) }

    // And the other way, unless memory runs out.
    ensures checks { GivesVerdictText options bytes.now result }
    ensures refuses { GivesFirstRefused (lines bytes.now) result }
{
    // A law for the proof: a text is one transcript, or is refused.
    texts_are_read_in_one_way();
    match list_lines(alloc, bytes, options) {
        Ok(listing) => match verdict(alloc, options, listing) {
            Ok(printed) => Ok(printed),
            Err(_) => Err(CheckFault::OutOfMemory),
        },
        Err(fault) => Err(fault),
    }
}
