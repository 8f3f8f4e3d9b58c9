//! The line that says what a number of the client names.
ghost use Rattle.std.specs.Prelude.{◌≡◌, ◌++◌, OnOk};
ghost use Rattle.json.specs.Print.{print};
ghost use Rattle.dap_body.specs.Adds.{Adds};
ghost use Rattle.dap_line.specs.Written.{kind_name as kind_name_of, named_members, target_tokens, target_line};

use crate::acts::{write_number, write_text};
use dap_tables::{ReferenceKind, Target};
use json::Writer;
use std::alloc::{AllocError, Global};
use std::mem;

fn kind_name(kind: ReferenceKind) -> &'static str
    ensures { result.now ≡ kind_name_of kind }
{
    match kind {
        ReferenceKind::Frame => "frame",
        ReferenceKind::Holder => "holder",
    }
}

/// What is named, if anything is.
fn write_named(out: &mut Writer, target: Option<Target>) -> Result<(), AllocError>
    ensures { OnOk result (Adds out.old out.new (named_members target)) }
{
    match target {
        None => write_text(out, "kind", "none"),
        Some(target) => {
            write_text(out, "kind", kind_name(target.kind))?;
            write_number(out, "object", target.object)
        }
    }
}

fn write_target(out: &mut Writer, number: u32, target: Option<Target>) -> Result<(), AllocError>
    ensures { OnOk result (Adds out.old out.new (target_tokens number target)) }
{
    out.begin_object()?;
    write_number(out, "target", u64::from(number))?;
    write_named(out, target)?;
    out.end_object()
}

/// Appends the object.
fn push_object(
    alloc: Global,
    out: &mut Vec<u8>,
    number: u32,
    target: Option<Target>,
) -> Result<(), AllocError>
    ensures { OnOk result (out.new.items ≡ out.old.items ++ print (target_tokens number target)) }
{
    let mut writer = Writer::new(mem::replace(out, Vec::new(alloc)));
    let result = write_target(&mut writer, number, target);
    *out = writer.into_inner();
    result
}

/// Appends the line.
pub fn push_target(
    alloc: Global,
    out: &mut Vec<u8>,
    number: u32,
    target: Option<Target>,
) -> Result<(), AllocError>
    ensures { OnOk result (out.new.items ≡ out.old.items ++ target_line number target) }
{
    out.extend_from_slice(b"! ")?;
    push_object(alloc, out, number, target)?;
    out.extend_from_slice(b"\n")
}
