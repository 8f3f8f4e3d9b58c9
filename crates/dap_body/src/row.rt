//! Objects, written a field after the other with no tree.
ghost use Rattle.std.specs.Prelude.{◌≡◌, ◌++◌, OnOk, OnErr, option_map};
ghost use Rattle.serde_json.specs.Written.{compact_text};
ghost use Rattle.dap_json.specs.Sound.{IsSound};
ghost use Rattle.dap_body.specs.Row.{flag_if_set, object_of, list_of, text, whole, integer, flag, tree, text_if_any, whole_if_any, tree_if_any};
ghost use Rattle.dap_body.specs.PrivateText.{tokens_of, wrote, IsSoundField};

use dap_json::Text;
use json::Writer;
use std::alloc::{AllocError, Global};
use std::mem;

/// What is written as an object.
pub(crate) trait Fields: Drop {
    ghost use Rattle.std.specs.Prelude.{◌≡◌, OnOk};
    ghost use Rattle.dap_body.specs.Row.{Row};
    ghost use Rattle.dap_body.specs.PrivateText.{wrote_row, IsSoundRow};

    ghost written: { Self → Row };

    /// Writes its fields in their order.
    fn write(&self, out: &mut Writer) -> Result<(), AllocError>
        ensures adds { OnOk result (out.new.tokens ≡ wrote_row (written self.now) out.old.tokens) }
        ensures before { out.new.before ≡ out.old.before }
        ensures sound { OnOk result (IsSoundRow (written self.now)) };
}

// ---- fields

// (Put where a field is written, its key is a constant there, and nothing of it has to be escaped.)

#[inline(always)]
#[tactic(auto, unfolding(crate::specs::PrivateText::wrote))]
pub(crate) fn put_number(out: &mut Writer, key: &str, n: u64) -> Result<(), AllocError>
    ensures adds { OnOk result (out.new.tokens ≡ wrote (key.now, whole n) out.old.tokens) }
    ensures before { out.new.before ≡ out.old.before }
    ensures sound { IsSoundField (key.now, whole n) }
{
    out.key(key)?;
    out.u64(n)
}

#[inline(always)]
pub(crate) fn put_short(out: &mut Writer, key: &str, n: u32) -> Result<(), AllocError>
    ensures adds { OnOk result (out.new.tokens ≡ wrote (key.now, whole n) out.old.tokens) }
    ensures before { out.new.before ≡ out.old.before }
    ensures sound { IsSoundField (key.now, whole n) }
{
    put_number(out, key, n.into())
}

#[inline(always)]
#[tactic(auto, unfolding(crate::specs::PrivateText::wrote))]
pub(crate) fn put_signed(out: &mut Writer, key: &str, n: i64) -> Result<(), AllocError>
    ensures adds { OnOk result (out.new.tokens ≡ wrote (key.now, integer n) out.old.tokens) }
    ensures before { out.new.before ≡ out.old.before }
    ensures sound { IsSoundField (key.now, integer n) }
{
    out.key(key)?;
    out.i64(n)
}

#[inline(always)]
#[tactic(auto, unfolding(crate::specs::PrivateText::wrote))]
pub(crate) fn put_str(out: &mut Writer, key: &str, value: &str) -> Result<(), AllocError>
    ensures adds { OnOk result (out.new.tokens ≡ wrote (key.now, text value.now) out.old.tokens) }
    ensures before { out.new.before ≡ out.old.before }
    ensures sound { IsSoundField (key.now, text value.now) }
{
    out.key(key)?;
    out.string(value)
}

#[inline(always)]
pub(crate) fn put_text(out: &mut Writer, key: &str, value: &Text) -> Result<(), AllocError>
    ensures adds { OnOk result (out.new.tokens ≡ wrote (key.now, text value.now) out.old.tokens) }
    ensures before { out.new.before ≡ out.old.before }
    ensures sound { IsSoundField (key.now, text value.now) }
{
    put_str(out, key, value.as_str())
}

#[inline(always)]
#[tactic(auto, unfolding(crate::specs::PrivateText::wrote))]
pub(crate) fn put_flag(out: &mut Writer, key: &str, on: bool) -> Result<(), AllocError>
    ensures adds { OnOk result (out.new.tokens ≡ wrote (key.now, flag on) out.old.tokens) }
    ensures before { out.new.before ≡ out.old.before }
    ensures sound { IsSoundField (key.now, flag on) }
{
    out.key(key)?;
    out.boolean(on)
}

// ---- fields that are left out where there is nothing

#[tactic(auto, unfolding(crate::specs::PrivateText::wrote))]
pub(crate) fn put_flag_if_set(out: &mut Writer, key: &str, on: bool) -> Result<(), AllocError>
    ensures adds { OnOk result (out.new.tokens ≡ wrote (key.now, flag_if_set on) out.old.tokens) }
    ensures before { out.new.before ≡ out.old.before }
    ensures sound { IsSoundField (key.now, flag_if_set on) }
{
    if on {
        return put_flag(out, key, true);
    }
    Ok(())
}

#[tactic(auto, unfolding(crate::specs::PrivateText::wrote))]
pub(crate) fn put_short_if_any(
    out: &mut Writer,
    key: &str,
    n: Option<u32>,
) -> Result<(), AllocError>
    ensures adds { OnOk result (out.new.tokens ≡ wrote (key.now, whole_if_any n) out.old.tokens) }
    ensures before { out.new.before ≡ out.old.before }
    ensures sound { IsSoundField (key.now, whole_if_any n) }
{
    match n {
        None => Ok(()),
        Some(n) => put_short(out, key, n),
    }
}

#[tactic(auto, unfolding(crate::specs::PrivateText::wrote))]
pub(crate) fn put_text_if_any(
    out: &mut Writer,
    key: &str,
    value: &Option<Text>,
) -> Result<(), AllocError>
    ensures adds { OnOk result (out.new.tokens ≡ wrote (key.now, text_if_any value.now) out.old.tokens) }
    ensures before { out.new.before ≡ out.old.before }
    ensures sound { IsSoundField (key.now, text_if_any value.now) }
{
    match value {
        None => Ok(()),
        Some(value) => put_text(out, key, value),
    }
}

/// An object at a key.
#[tactic(auto, unfolding(crate::specs::PrivateText::wrote))]
pub(crate) fn put_object_if_any<T: Fields>(
    out: &mut Writer,
    key: &str,
    value: &Option<T>,
) -> Result<(), AllocError>
    ensures adds { OnOk result (out.new.tokens
        ≡ wrote (key.now, tree_if_any (option_map (λ x. object_of (T.written x)) value.now)) out.old.tokens) }
    ensures before { out.new.before ≡ out.old.before }
    ensures sound { OnOk result (IsSoundField (key.now, tree_if_any (option_map (λ x. object_of (T.written x)) value.now))) }
{
    match value {
        None => Ok(()),
        Some(value) => put_object(out, key, value),
    }
}

// ---- objects and lists

#[tactic(auto, unfolding(crate::specs::PrivateText::wrote))]
pub(crate) fn put_object<T: Fields>(
    out: &mut Writer,
    key: &str,
    value: &T,
) -> Result<(), AllocError>
    ensures adds { OnOk result (out.new.tokens ≡ wrote (key.now, tree (object_of (T.written value.now))) out.old.tokens) }
    ensures before { out.new.before ≡ out.old.before }
    ensures sound { OnOk result (IsSoundField (key.now, tree (object_of (T.written value.now)))) }
{
    out.key(key)?;
    write_object(out, value)
}

pub(crate) fn write_object<T: Fields>(out: &mut Writer, value: &T) -> Result<(), AllocError>
    ensures adds { OnOk result (out.new.tokens ≡ out.old.tokens ++ tokens_of (object_of (T.written value.now))) }
    ensures before { out.new.before ≡ out.old.before }
    ensures sound { OnOk result (IsSound (object_of (T.written value.now))) }
{
    out.begin_object()?;
    value.write(out)?;
    out.end_object()
}

#[tactic(auto, unfolding(crate::specs::PrivateText::wrote))]
pub(crate) fn put_list<T: Fields>(
    out: &mut Writer,
    key: &str,
    elements: &[T],
) -> Result<(), AllocError>
    ensures adds { OnOk result (out.new.tokens ≡ wrote (key.now, tree (list_of T.written elements.now)) out.old.tokens) }
    ensures before { out.new.before ≡ out.old.before }
    ensures sound { OnOk result (IsSoundField (key.now, tree (list_of T.written elements.now))) }
{
    out.key(key)?;
    write_list(out, elements)
}

fn write_list<T: Fields>(out: &mut Writer, elements: &[T]) -> Result<(), AllocError>
    ensures adds { OnOk result (out.new.tokens ≡ out.old.tokens ++ tokens_of (list_of T.written elements.now)) }
    ensures before { out.new.before ≡ out.old.before }
    ensures sound { OnOk result (IsSound (list_of T.written elements.now)) }
{
    out.begin_array()?;
    for element in elements {
        write_object(out, element)?;
    }
    out.end_array()
}

/// Appends the text of an object, or changes nothing.
pub(crate) fn append_object<T: Fields>(
    alloc: Global,
    out: &mut Vec<u8>,
    value: &T,
) -> Result<(), AllocError>
    ensures ok { OnOk result (out.new.items ≡ out.old.items ++ compact_text (object_of (T.written value.now))) }
    ensures sound { OnOk result (IsSound (object_of (T.written value.now))) }
    ensures err { OnErr result (out.new.items ≡ out.old.items) }
{
    let end = out.len();
    let mut writer = Writer::new(mem::replace(out, Vec::new(alloc)));
    let result = write_object(&mut writer, value);
    *out = writer.into_inner();
    if result.is_err() {
        out.truncate(end);
    }
    result
}
