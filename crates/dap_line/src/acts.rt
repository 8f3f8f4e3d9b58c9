//! The lines of what a host has to do.
ghost use Rattle.std.specs.Prelude.{◌≡◌, ◌++◌, OnOk};
ghost use Rattle.json.specs.Print.{print};
ghost use Rattle.dap_body.specs.Adds.{Adds};
ghost use Rattle.dap_line.specs.Written.{how_name as how_name_of, text_member, number_member, thread_member, source_member, lines_member, act_members, act_tokens, act_line, act_lines};
ghost use Rattle.dap_live.specs.declared.mail.HostAct.{HostAct};

use dap_command::SourceKey;
use dap_debuggee::How;
use dap_json::{List, Text};
use dap_live::HostAct;
use json::Writer;
use std::alloc::{AllocError, Global};
use std::mem;

fn how_name(how: How) -> &'static str
    ensures { result.now ≡ how_name_of how }
{
    match how {
        How::StepIn => "stepIn",
        How::Next => "next",
        How::StepOut => "stepOut",
        How::Continue => "continue",
        How::StepBack => "stepBack",
        How::ReverseContinue => "reverseContinue",
    }
}

/// A key with a text.
pub fn write_text(out: &mut Writer, name: &str, text: &str) -> Result<(), AllocError>
    ensures { OnOk result (Adds out.old out.new (text_member name.now text.now)) }
{
    out.key(name)?;
    out.string(text)
}

/// A key with a number.
pub fn write_number(out: &mut Writer, name: &str, n: u64) -> Result<(), AllocError>
    ensures { OnOk result (Adds out.old out.new (number_member name.now n)) }
{
    out.key(name)?;
    out.u64(n)
}

/// The id of a thread.
fn write_thread(out: &mut Writer, thread: i64) -> Result<(), AllocError>
    ensures { OnOk result (Adds out.old out.new (thread_member thread)) }
{
    out.key("thread")?;
    out.i64(thread)
}

/// What names a source.
fn write_source(out: &mut Writer, source: &SourceKey) -> Result<(), AllocError>
    ensures { OnOk result (Adds out.old out.new (source_member source.now)) }
{
    match source {
        SourceKey::Path(path) => write_text(out, "path", path.as_str()),
        SourceKey::Reference(reference) => {
            write_number(out, "sourceReference", u64::from(*reference))
        }
    }
}

fn write_lines(out: &mut Writer, lines: &[u32]) -> Result<(), AllocError>
    ensures { OnOk result (Adds out.old out.new (lines_member lines.now)) }
{
    out.key("lines")?;
    out.begin_array()?;
    for line in lines {
        out.u64(u64::from(*line))?;
    }
    out.end_array()
}

fn write_resume(out: &mut Writer, how: How, thread: i64) -> Result<(), AllocError>
    ensures { OnOk result (Adds out.old out.new (act_members (HostAct.Resume how thread))) }
{
    write_text(out, "act", "resume")?;
    write_text(out, "how", how_name(how))?;
    write_thread(out, thread)
}

fn write_set(out: &mut Writer, source: &SourceKey, lines: &List<u32>) -> Result<(), AllocError>
    ensures { OnOk result (Adds out.old out.new (act_members (HostAct.SetBreakpoints source.now lines.now))) }
{
    write_text(out, "act", "setBreakpoints")?;
    out.key("source")?;
    out.begin_object()?;
    write_source(out, source)?;
    out.end_object()?;
    write_lines(out, lines.as_slice())
}

fn write_assign(out: &mut Writer, holder: u64, name: &Text, value: &Text) -> Result<(), AllocError>
    ensures { OnOk result (Adds out.old out.new (act_members (HostAct.Assign holder name.now value.now))) }
{
    write_text(out, "act", "setVariable")?;
    write_number(out, "holder", holder)?;
    write_text(out, "name", name.as_str())?;
    write_text(out, "value", value.as_str())
}

/// What is in the object of an act.
fn write_members(out: &mut Writer, act: &HostAct) -> Result<(), AllocError>
    ensures { OnOk result (Adds out.old out.new (act_members act.now)) }
{
    match act {
        HostAct::Start => write_text(out, "act", "start"),
        HostAct::Resume { how, thread } => write_resume(out, *how, *thread),
        HostAct::Pause => write_text(out, "act", "pause"),
        HostAct::SetBreakpoints { source, lines } => write_set(out, source, lines),
        HostAct::Assign {
            holder,
            name,
            value,
        } => write_assign(out, *holder, name, value),
        HostAct::End => write_text(out, "act", "end"),
    }
}

fn write_act(out: &mut Writer, act: &HostAct) -> Result<(), AllocError>
    ensures { OnOk result (Adds out.old out.new (act_tokens act.now)) }
{
    out.begin_object()?;
    write_members(out, act)?;
    out.end_object()
}

/// Appends the object of an act.
fn push_object(alloc: Global, out: &mut Vec<u8>, act: &HostAct) -> Result<(), AllocError>
    ensures { OnOk result (out.new.items ≡ out.old.items ++ print (act_tokens act.now)) }
{
    let mut writer = Writer::new(mem::replace(out, Vec::new(alloc)));
    let result = write_act(&mut writer, act);
    *out = writer.into_inner();
    result
}

/// Appends the line of an act.
fn push_act(alloc: Global, out: &mut Vec<u8>, act: &HostAct) -> Result<(), AllocError>
    ensures { OnOk result (out.new.items ≡ out.old.items ++ act_line act.now) }
{
    out.extend_from_slice(b"! ")?;
    push_object(alloc, out, act)?;
    out.extend_from_slice(b"\n")
}

/// Appends the lines of acts, in order.
pub fn push_acts(alloc: Global, out: &mut Vec<u8>, acts: &[HostAct]) -> Result<(), AllocError>
    ensures { OnOk result (out.new.items ≡ out.old.items ++ act_lines acts.now) }
{
    for act in acts {
        push_act(alloc, out, act)?;
    }
    Ok(())
}
