//! What a line breaks by rule 8, where it breaks none of the seven.
ghost use Rattle.std.specs.Prelude.{◌≡◌, ◌||◌, List, OnOk, IfOk, IfErr, IsTrue, None, true};
ghost use Rattle.dap_command.specs.declared.gathering.GatheredReferences.{GatheredReferences};
ghost use Rattle.dap_shape.specs.Faults.{fault_in};
ghost use Rattle.dap_check.specs.Checking.{is_of_body, IsBrokenBody};
ghost use Rattle.dap_check.specs.Legal.{least_broken};
ghost use Rattle.dap_check.specs.PrivateBare.{IsReadAs};
ghost use Rattle.dap_check.specs.PrivateJudged.{IsJudged};
ghost use Rattle.dap_check.specs.Transcript.{IsLine, Refuses};
ghost use Rattle.dap_check.specs.declared.found.CheckMode.{CheckMode as TheMode};
ghost use Rattle.dap_check.specs.declared.line.Line.{Line as TheLine};

use crate::checking::CheckFault;
use crate::found::Broken;
use crate::line::Form;
use crate::reading::{LineRead, read_line_with};
use crate::rule::Rule;
use dap_envelope::Kind;
use dap_envelope::laws::each_body_is_one;
use dap_json::object_reader::Scratch;
use dap_shape::message_fault;
use std::alloc::{AllocError, Global};

pub(crate) fn is_of_rule_8(broken: &Option<Broken>) -> bool
    ensures { result ≡ is_of_body broken.now }
{
    matches!(broken, Some(Broken::Body(_)))
}

pub(crate) fn is_either(one: bool, other: bool) -> bool
    ensures { result ≡ (one || other) }
{
    one || other
}

/// Reads the line again, with its tree, where it was read without.
fn make_whole(
    alloc: Global,
    scratch: &mut Scratch,
    number: u64,
    read: &mut LineRead,
    text: &[u8],
) -> Result<(), CheckFault>
    ensures line { OnOk result ((given : GatheredReferences) (real : TheLine) → IsLine number text.now real → IsReadAs read.old.form given read.old.line real → (read.new.line ≡ real) × (read.new.form ≡ Form.Whole)) }
    ensures refused { IfErr result (Refuses number text.now) }
{
    // A law for the proof: no text is two messages.
    each_body_is_one();
    match read.form {
        Form::Whole => Ok(()),
        Form::Bare => {
            let line = read_line_with(alloc, scratch, number, text)?;
            *read = LineRead {
                line,
                form: Form::Whole,
                is_sound: false,
            };
            Ok(())
        }
    }
}

/// What a message breaks by rule 8.
fn body_broken(alloc: Global, kind: &Kind) -> Result<Option<Broken>, AllocError>
    ensures { IfOk result (IsBrokenBody kind.now) }
{
    match message_fault(alloc, kind)? {
        None => Ok(None),
        Some(fault) => Ok(Some(Broken::Body(fault))),
    }
}

/// What a line of this number breaks by rule 8, which its message is looked through for.
#[inline(never)]
fn judge_message(
    alloc: Global,
    scratch: &mut Scratch,
    number: u64,
    read: &mut LineRead,
    text: &[u8],
) -> Result<Option<Broken>, CheckFault>
    ensures judged { IfOk result (λ broken. (mode : TheMode) (earlier : List TheLine) (given : GatheredReferences) (real : TheLine) → mode.bodies ≡ true → IsLine number text.now real → IsReadAs read.old.form given read.old.line real → least_broken mode.any_seq earlier real ≡ None → IsJudged mode earlier given real read.new broken) }
    ensures refused { IfErr result (Refuses number text.now) }
{
    make_whole(alloc, scratch, number, read, text)?;
    match body_broken(alloc, &read.line.message.kind) {
        Ok(broken) => Ok(broken),
        Err(_) => Err(CheckFault::OutOfMemory),
    }
}

/// What a line of this number breaks that breaks none of the seven rules: where bodies count, its message is looked through,
/// unless that was seen to have no fault.
fn judge_unbroken(
    alloc: Global,
    scratch: &mut Scratch,
    bodies: bool,
    number: u64,
    read: &mut LineRead,
    text: &[u8],
) -> Result<Option<Broken>, CheckFault>
    ensures judged { IfOk result (λ broken. (mode : TheMode) (earlier : List TheLine) (given : GatheredReferences) (real : TheLine) → mode.bodies ≡ bodies → IsLine number text.now real → IsReadAs read.old.form given read.old.line real → (IsTrue read.old.is_sound → fault_in real.message.kind ≡ None) → (mode.whole ≡ true → read.old.form ≡ Form.Whole) → least_broken mode.any_seq earlier real ≡ None → IsJudged mode earlier given real read.new broken) }
    ensures refused { IfErr result (Refuses number text.now) }
{
    let is_done = is_either(!bodies, read.is_sound);
    if is_done {
        return Ok(None);
    }
    judge_message(alloc, scratch, number, read, text)
}

/// What a line of this number breaks, by the least of the seven rules that it breaks. Where that was looked for, the line has
/// its tree then.
pub(crate) fn judge_body(
    alloc: Global,
    scratch: &mut Scratch,
    bodies: bool,
    number: u64,
    read: &mut LineRead,
    rule: Option<Rule>,
    text: &[u8],
) -> Result<Option<Broken>, CheckFault>
    ensures judged { IfOk result (λ broken. (mode : TheMode) (earlier : List TheLine) (given : GatheredReferences) (real : TheLine) → mode.bodies ≡ bodies → IsLine number text.now real → IsReadAs read.old.form given read.old.line real → (IsTrue read.old.is_sound → fault_in real.message.kind ≡ None) → (mode.whole ≡ true → read.old.form ≡ Form.Whole) → rule ≡ least_broken mode.any_seq earlier real → IsJudged mode earlier given real read.new broken) }
    ensures refused { IfErr result (Refuses number text.now) }
{
    match rule {
        Some(rule) => Ok(Some(Broken::Rule(rule))),
        None => judge_unbroken(alloc, scratch, bodies, number, read, text),
    }
}
