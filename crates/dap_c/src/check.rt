//! Whether a transcript keeps the rules, and why a line of it breaks one: a text comes in; a verdict, or a sentence in the
//! caller's buffer, goes out. Nothing else is touched.
ghost use Rattle.std.specs.Prelude.{◌≡◌, ◌≢◌, ◌⊎◌, ◌++◌, ◌==◌, ◌∷◌, List, IfErr, MatchResult, None, false, option_map, string_bytes};
ghost use Rattle.std.specs.List.{list_any};
ghost use Rattle.std.specs.Str.Lines.{lines};
ghost use Rattle.dap_check.specs.Legal.{IsVerdict};
ghost use Rattle.dap_check.specs.Transcript.{AreLines, FirstRefused, IsRefusedIn};
ghost use Rattle.dap_check.specs.declared.checking.CheckFault.{CheckFault};
ghost use Rattle.dap_check.specs.declared.line.Line.{Line};
ghost use Rattle.dap_check.specs.declared.rule.Checked.{Checked};
ghost use Rattle.dap_explain.specs.Reasons.{reason_of};
ghost use Rattle.dap_explain.specs.Sentences.{sentence_of};
ghost use Rattle.dap_c.specs.CheckFound.{any_of, rule_of, fault_code, fault_line, TellsChecked, TellsRefused, IsCodeOfLine, PutsIfAny, FindsNone, FindsLine, RefusesText, TellsVerdict, TellsFault, Explains, ExplainsNone, IsRefusedWith};
ghost use Rattle.std.specs.Option.{ForSome};

use dap_c_parts::codes::{
    YT_BAD_ARGUMENTS, YT_BAD_LINE, YT_FINDING, YT_NO_MEMORY, YT_NO_MESSAGE, YT_NOTHING, YT_OK,
};
use dap_c_parts::copying::put;
use dap_check::{AnySeq, CheckFault, Checked, Rule, check_by_side};
use dap_explain::{explain, sentence};
use std::alloc::Global;

/// What is found of a transcript.
#[repr(C)]
#[derive(Drop)]
pub struct YtVerdict {
    /// The first line that breaks a rule, is of neither side or is no message, from 1; else 0.
    pub line: u64,
    /// The first rule that it breaks, 1 to 7; else 0.
    pub rule: u32,
}

/// Whose numbers are not tested.
fn any_seq_of(number: u32) -> Option<AnySeq>
    ensures { result ≡ any_of number }
{
    match number {
        0 => Some(AnySeq::OfNone),
        1 => Some(AnySeq::OfClient),
        2 => Some(AnySeq::OfAdapter),
        3 => Some(AnySeq::OfBoth),
        _ => None,
    }
}

fn rule_numbered(number: u32) -> Option<Rule>
    ensures { result ≡ rule_of number }
{
    match number {
        1 => Some(Rule::Seq),
        2 => Some(Rule::Answer),
        3 => Some(Rule::FirstRequest),
        4 => Some(Rule::Initialized),
        5 => Some(Rule::Gate),
        6 => Some(Rule::Reference),
        7 => Some(Rule::Disconnect),
        _ => None,
    }
}

fn code_of(fault: CheckFault) -> u32
    ensures { result ≡ fault_code fault }
{
    match fault {
        CheckFault::BadLine { .. } => YT_BAD_LINE,
        CheckFault::Body { .. } => YT_NO_MESSAGE,
        CheckFault::OutOfMemory => YT_NO_MEMORY,
    }
}

fn line_of(fault: CheckFault) -> u64
    ensures { result ≡ fault_line fault }
{
    match fault {
        CheckFault::BadLine { line } => line,
        CheckFault::Body { line, .. } => line,
        CheckFault::OutOfMemory => 0,
    }
}

fn tell(checked: Checked, verdict: &mut YtVerdict) -> u32
    ensures { TellsChecked checked result verdict.new }
{
    match checked {
        Checked::Legal => {
            *verdict = YtVerdict { line: 0, rule: 0 };
            YT_OK
        }
        Checked::Finding { line, rule } => {
            *verdict = YtVerdict {
                line,
                rule: rule.number() as u32,
            };
            YT_FINDING
        }
    }
}

fn judge(alloc: Global, text: &[u8], any_seq: AnySeq, verdict: &mut YtVerdict) -> u32
    ensures legal { result ≡ YT_OK → (transcript : List Line) × AreLines 1 (lines text.now) transcript × IsVerdict any_seq transcript Checked.Legal }
    ensures finding { result ≡ YT_FINDING → (transcript : List Line) × (checked : Checked) × AreLines 1 (lines text.now) transcript × IsVerdict any_seq transcript checked × TellsChecked checked result verdict.new }
    ensures refused { (result ≡ YT_OK → ⊥) → (result ≡ YT_FINDING → ⊥) → (fault : CheckFault) × FirstRefused (lines text.now) fault × (result ≡ fault_code fault) × (verdict.new.line ≡ fault_line fault) }
    ensures checks { (transcript : List Line) (checked : Checked) → AreLines 1 (lines text.now) transcript → IsVerdict any_seq transcript checked → TellsChecked checked result verdict.new ⊎ (result ≡ YT_NO_MEMORY) }
    ensures refuses { (fault : CheckFault) → FirstRefused (lines text.now) fault → fault ≢ CheckFault.OutOfMemory → TellsRefused fault result verdict.new ⊎ (result ≡ YT_NO_MEMORY) }
{
    match check_by_side(alloc, text, any_seq) {
        Ok(checked) => tell(checked, verdict),
        Err(fault) => {
            *verdict = YtVerdict {
                line: line_of(fault),
                rule: 0,
            };
            code_of(fault)
        }
    }
}

/// Judges a transcript: `YT_OK` where it keeps the rules, `YT_FINDING` where a line breaks one, `YT_BAD_LINE` and
/// `YT_NO_MESSAGE` where it is no transcript. `any_seq` says whose numbers are not tested: 0 of none, 1 of the client, 2 of
/// the adapter, 3 of both.
#[unsafe(no_mangle)]
pub extern "C" fn yt_check(alloc: Global, text: &[u8], any_seq: u32, verdict: &mut YtVerdict) -> u32
    ensures unknown { any_of any_seq ≡ None → result ≡ YT_BAD_ARGUMENTS }
    ensures unchanged { any_of any_seq ≡ None → verdict.new ≡ verdict.old }
    ensures legal { ForSome (any_of any_seq) (FindsNone text.now result) }
    ensures finding { ForSome (any_of any_seq) (FindsLine text.now result verdict.new) }
    ensures refused { ForSome (any_of any_seq) (RefusesText text.now result verdict.new) }

    // And the other way, unless memory is refused.
    ensures checks { ForSome (any_of any_seq) (TellsVerdict text.now result verdict.new) }
    ensures refuses { ForSome (any_of any_seq) (λ any. TellsFault text.now result verdict.new) }
{
    match any_seq_of(any_seq) {
        None => YT_BAD_ARGUMENTS,
        Some(any) => judge(alloc, text, any, verdict),
    }
}

fn told(alloc: Global, text: &[u8], number: u64, rule: Rule) -> Result<Option<String>, CheckFault>
    ensures explains { (earlier : List Line) (line : Line) (later : List Line) → AreLines 1 (lines text.now) (earlier ++ line ∷ later) → line.number ≡ number
        → MatchResult result (λ told. option_map string_bytes told ≡ option_map sentence_of (reason_of rule earlier line)) (λ fault. fault ≡ CheckFault.OutOfMemory) }
    ensures absent { (transcript : List Line) → AreLines 1 (lines text.now) transcript → list_any (λ line. line.number == number) transcript ≡ false
        → MatchResult result (λ told. option_map string_bytes told ≡ None) (λ fault. fault ≡ CheckFault.OutOfMemory) }
    ensures refused { IfErr result (λ fault. (fault ≡ CheckFault.OutOfMemory) ⊎ IsRefusedIn (lines text.now) fault) }
{
    match explain(alloc, text, number, rule) {
        Err(fault) => Err(fault),
        Ok(None) => Ok(None),
        Ok(Some(reason)) => match sentence(alloc, reason) {
            Ok(text) => Ok(Some(text)),
            Err(_) => Err(CheckFault::OutOfMemory),
        },
    }
}

fn put_told(told: &Option<String>, out: &mut [u8], size: &mut usize) -> u32
    ensures { PutsIfAny (option_map string_bytes told.now) result size.new out.old out.new }
{
    match told {
        None => {
            *size = 0;
            YT_NOTHING
        }
        Some(text) => {
            *size = text.len();
            put(text.as_bytes(), out)
        }
    }
}

fn tell_why(
    alloc: Global,
    text: &[u8],
    line: u64,
    rule: Rule,
    out: &mut [u8],
    size: &mut usize,
) -> u32
    ensures explains { (earlier : List Line) (l : Line) (later : List Line) → AreLines 1 (lines text.now) (earlier ++ l ∷ later) → l.number ≡ line
        → PutsIfAny (option_map sentence_of (reason_of rule earlier l)) result size.new out.old out.new ⊎ (result ≡ YT_NO_MEMORY) }
    ensures absent { (transcript : List Line) → AreLines 1 (lines text.now) transcript → list_any (λ l. l.number == line) transcript ≡ false
        → PutsIfAny None result size.new out.old out.new ⊎ (result ≡ YT_NO_MEMORY) }
    ensures refused { IsCodeOfLine result → (fault : CheckFault) × IsRefusedIn (lines text.now) fault × (result ≡ fault_code fault) }
    ensures unchanged { (result ≡ YT_OK → ⊥) → out.new ≡ out.old }
{
    match told(alloc, text, line, rule) {
        Ok(told) => put_told(&told, out, size),
        Err(fault) => {
            *size = 0;
            code_of(fault)
        }
    }
}

/// Puts into a buffer, in one sentence, why a line of a transcript breaks a rule, as `yt_check` has found. `size` is how
/// long it is, also where the buffer is too small for it: the first call may lend a buffer of no bytes. `YT_NOTHING` where
/// the line keeps the rule, and where there is no such line.
#[unsafe(no_mangle)]
pub extern "C" fn yt_explain(
    alloc: Global,
    text: &[u8],
    line: u64,
    rule: u32,
    out: &mut [u8],
    size: &mut usize,
) -> u32
    ensures unknown { rule_of rule ≡ None → result ≡ YT_BAD_ARGUMENTS }
    ensures explains { Explains text.now line rule result size.new out.old out.new }
    ensures absent { ExplainsNone text.now line rule result size.new out.old out.new }
    ensures refused { IsCodeOfLine result → IsRefusedWith text.now result }
    ensures unchanged { result ≢ YT_OK → out.new ≡ out.old }
{
    match rule_numbered(rule) {
        None => {
            *size = 0;
            YT_BAD_ARGUMENTS
        }
        Some(rule) => tell_why(alloc, text, line, rule, out, size),
    }
}
