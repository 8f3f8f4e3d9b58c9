//! Members that stand beside an object's own fields, each written at its place among them.
ghost use Rattle.std.specs.Prelude.{◌≡◌, ◌∷◌, [], None, IfOk, OnOk};
ghost use Rattle.dap_json.specs.More.{object_with};
ghost use Rattle.dap_json.specs.Sound.{IsSound};
ghost use Rattle.dap_body.specs.Beside.{field_of, fit_members};
ghost use Rattle.dap_body.specs.PrivateText.{wrote, wrote_among, IsSoundField, HasNoFloats, PutsBefore, PutsNone};
ghost use Rattle.dap_body.specs.Row.{whole_if_any};

use crate::row::put_short_if_any;
use dap_json::written::write_value;
use dap_json::{Member, More};
use json::Writer;
use std::alloc::AllocError;
use std::cmp::Ordering;

/// The members, to be written from the first on.
#[inline(always)]
pub(crate) fn fit_members(more: &More) -> &[Member]
    ensures members { result.now ≡ fit_members more.now }
    ensures plain { HasNoFloats result.now }
    ensures sound { IsSound (object_with result.now) }
{
    more.more_is_fit();
    more.as_slice()
}

#[tactic(auto, unfolding(crate::specs::PrivateText::wrote))]
fn put_member(out: &mut Writer, member: &Member) -> Result<(), AllocError>
    requires { HasNoFloats (member.now ∷ []) }
    ensures adds { OnOk result (out.new.tokens ≡ wrote (field_of member.now) out.old.tokens) }
    ensures before { out.new.before ≡ out.old.before }
{
    out.key(member.key.as_str())?;
    write_value(out, member.value.value())
}

/// Writes those that come before a key, and gives those that come behind it. The one of that key is left out.
fn put_some_before<'m>(
    out: &mut Writer,
    key: &str,
    members: &'m [Member],
) -> Result<&'m [Member], AllocError>
    requires { HasNoFloats members.now }
    ensures puts { IfOk result (λ left. PutsBefore key.now members.now out.old.tokens left.now out.new.tokens) }
    ensures plain { IfOk result (λ left. HasNoFloats left.now) }
    ensures before { out.new.before ≡ out.old.before }
{
    let mut left = members;
    while let Some((member, rest)) = left.split_first() {
        match member.key.as_str().cmp(key) {
            Ordering::Less => put_member(out, member)?,
            Ordering::Equal => {}
            Ordering::Greater => return Ok(left),
        }
        left = rest;
    }
    Ok(left)
}

/// The same. Where there are none, nothing is called.
#[inline(always)]
pub(crate) fn put_before<'m>(
    out: &mut Writer,
    key: &str,
    members: &'m [Member],
) -> Result<&'m [Member], AllocError>
    requires { HasNoFloats members.now }
    ensures puts { IfOk result (λ left. PutsBefore key.now members.now out.old.tokens left.now out.new.tokens) }
    ensures plain { IfOk result (λ left. HasNoFloats left.now) }
    ensures before { out.new.before ≡ out.old.before }
{
    if members.is_empty() {
        return Ok(members);
    }
    put_some_before(out, key, members)
}

#[tactic(auto, unfolding(crate::specs::PrivateText::wrote_among))]
fn put_all(out: &mut Writer, members: &[Member]) -> Result<(), AllocError>
    requires { HasNoFloats members.now }
    ensures adds { OnOk result (out.new.tokens ≡ wrote_among [] members.now out.old.tokens) }
    ensures before { out.new.before ≡ out.old.before }
{
    for member in members {
        put_member(out, member)?;
    }
    Ok(())
}

/// Writes all that are left. Where there are none, nothing is called.
#[inline(always)]
#[tactic(auto, unfolding(crate::specs::PrivateText::wrote_among))]
pub(crate) fn put_left(out: &mut Writer, members: &[Member]) -> Result<(), AllocError>
    requires { HasNoFloats members.now }
    ensures adds { OnOk result (out.new.tokens ≡ wrote_among [] members.now out.old.tokens) }
    ensures before { out.new.before ≡ out.old.before }
{
    if members.is_empty() {
        return Ok(());
    }
    put_all(out, members)
}

/// Writes those that come before a key at which nothing is written, and gives those that come behind it.
pub(crate) fn put_none<'m>(
    out: &mut Writer,
    key: &str,
    left: &'m [Member],
) -> Result<&'m [Member], AllocError>
    requires { HasNoFloats left.now }
    ensures puts { IfOk result (λ later. PutsNone key.now left.now out.old.tokens later.now out.new.tokens) }
    ensures sound { IsSoundField (key.now, whole_if_any None) }
    ensures plain { IfOk result (λ later. HasNoFloats later.now) }
    ensures before { out.new.before ≡ out.old.before }
{
    let left = put_before(out, key, left)?;
    put_short_if_any(out, key, None)?;
    Ok(left)
}
