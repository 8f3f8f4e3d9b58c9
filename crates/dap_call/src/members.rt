//! Members of the arguments that are being written, by their keys. A key with its default value is left out.
ghost use Rattle.std.specs.Prelude.{◌≡◌, ◌≢◌, OnOk, OnErr};
ghost use Rattle.serde_json.specs.Data.{string};
ghost use Rattle.serde_json.specs.View.{view, members_view};
ghost use Rattle.dap_call.specs.CallTree.{with, with_number, with_false, with_true, with_optional, with_optional_text};

use dap_command::Key;
use dap_json::Text;
use dap_json::members::{Members, put_text};
use serde_json::{Value, put};
use std::alloc::{AllocError, Global};

pub(crate) fn add(
    alloc: Global,
    members: &mut Members,
    key: Key,
    value: Value,
) -> Result<(), AllocError>
    ensures { OnOk result (members_view members.new.entries
        ≡ with key (view value) (members_view members.old.entries)) }
{
    put(members, alloc, key.name(), value)
}

pub(crate) fn add_text(
    alloc: Global,
    members: &mut Members,
    key: Key,
    text: &Text,
) -> Result<(), AllocError>
    ensures { OnOk result (members_view members.new.entries
        ≡ with key (string text.now) (members_view members.old.entries)) }
{
    put_text(alloc, members, key.name(), text.as_str())
}

/// Adds a number that is not the default, 0.
pub(crate) fn add_number(
    alloc: Global,
    members: &mut Members,
    key: Key,
    number: u32,
) -> Result<(), AllocError>
    ensures with { OnOk result (members_view members.new.entries
        ≡ with_number key number (members_view members.old.entries)) }
    ensures memory { OnErr result (number ≢ 0) }
{
    match number {
        0 => Ok(()),
        _ => add(alloc, members, key, Value::from(number)),
    }
}

/// Adds a flag whose default is `true`.
pub(crate) fn add_if_false(
    alloc: Global,
    members: &mut Members,
    key: Key,
    flag: bool,
) -> Result<(), AllocError>
    ensures { OnOk result (members_view members.new.entries
        ≡ with_false key flag (members_view members.old.entries)) }
{
    if flag {
        Ok(())
    } else {
        add(alloc, members, key, Value::from(false))
    }
}

/// Adds a flag whose default is `false`.
pub(crate) fn add_if_true(
    alloc: Global,
    members: &mut Members,
    key: Key,
    flag: bool,
) -> Result<(), AllocError>
    ensures { OnOk result (members_view members.new.entries
        ≡ with_true key flag (members_view members.old.entries)) }
{
    if flag {
        add(alloc, members, key, Value::from(true))
    } else {
        Ok(())
    }
}

/// Adds a number that is there.
pub(crate) fn add_optional(
    alloc: Global,
    members: &mut Members,
    key: Key,
    number: Option<u32>,
) -> Result<(), AllocError>
    ensures { OnOk result (members_view members.new.entries
        ≡ with_optional key number (members_view members.old.entries)) }
{
    match number {
        None => Ok(()),
        Some(number) => add(alloc, members, key, Value::from(number)),
    }
}

/// Adds a text that is there.
pub(crate) fn add_optional_text(
    alloc: Global,
    members: &mut Members,
    key: Key,
    text: &Option<Text>,
) -> Result<(), AllocError>
    ensures { OnOk result (members_view members.new.entries
        ≡ with_optional_text key text.now (members_view members.old.entries)) }
{
    match text {
        None => Ok(()),
        Some(text) => add_text(alloc, members, key, text),
    }
}
