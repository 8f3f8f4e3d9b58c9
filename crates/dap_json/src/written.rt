//! JSON values, written token by token.
ghost use Rattle.std.specs.Prelude.{◌≡◌, ◌++◌, ◌∷◌, [], false, OnOk};
ghost use Rattle.json.specs.Token.{number as number_token};
ghost use Rattle.json.specs.Tree.{json_tokens, items_tokens, members_tokens};
ghost use Rattle.serde_json.specs.Find.{is_float};
ghost use Rattle.serde_json.specs.View.{view, number_view, items_view, members_view};
ghost use Rattle.serde_json.specs.Written.{has_float, items_have_float, members_have_float, outline, items_outline, members_outline, number_text};

use json::Writer;
use serde_json::{Map, Number, Value};
use std::alloc::AllocError;

fn write_integer(out: &mut Writer, number: &Number) -> Result<(), AllocError>
    requires { is_float (number_view number.now) ≡ false }
    ensures tokens { OnOk result (out.new.tokens ≡ out.old.tokens ++ number_token (number_text (number_view number.now)) ∷ []) }
    ensures before { out.new.before ≡ out.old.before }
{
    match number.as_u64() {
        Some(n) => out.u64(n),
        None => match number.as_i64() {
            Some(n) => out.i64(n),
            None => unreachable!(),
        },
    }
}

/// Writes a value that has no float.
#[cycle(write_value)]
pub fn write_value(out: &mut Writer, value: &Value) -> Result<(), AllocError>
    requires { has_float (view value.now) ≡ false }
    ensures tokens { OnOk result (out.new.tokens ≡ out.old.tokens ++ json_tokens (outline (view value.now))) }
    ensures before { out.new.before ≡ out.old.before }
{
    match value {
        Value::Null => out.null(),
        Value::Bool(on) => out.boolean(*on),
        Value::Number(number) => write_integer(out, number),
        Value::String(text) => out.string(text.as_str()),
        Value::Array(items) => {
            out.begin_array()?;
            write_items(out, items)
        }
        Value::Object(members) => {
            out.begin_object()?;
            write_members(out, members)
        }
    }
}

/// With the closing bracket.
#[cycle(write_value)]
fn write_items(out: &mut Writer, items: &Vec<Value>) -> Result<(), AllocError>
    requires { items_have_float (items_view items.now.items) ≡ false }
    ensures tokens { OnOk result (out.new.tokens ≡ out.old.tokens ++ items_tokens (items_outline (items_view items.now.items))) }
    ensures before { out.new.before ≡ out.old.before }
{
    for item in items {
        write_value(out, item)?;
    }
    out.end_array()
}

/// With the closing brace.
#[cycle(write_value)]
fn write_members(out: &mut Writer, members: &Map<String, Value>) -> Result<(), AllocError>
    requires { members_have_float (members_view members.now.entries) ≡ false }
    ensures tokens { OnOk result (out.new.tokens ≡ out.old.tokens ++ members_tokens (members_outline (members_view members.now.entries))) }
    ensures before { out.new.before ≡ out.old.before }
{
    for (key, member) in members.iter() {
        out.key(key.as_str())?;
        write_value(out, member)?;
    }
    out.end_object()
}
