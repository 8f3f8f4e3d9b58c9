//! Commands that are opened, as an author lists them in JSON.
ghost use Rattle.std.specs.Prelude.{◌≡◌, [], IfOk, codes, option_map};
ghost use Rattle.serde_json.specs.View.{view, items_view};
ghost use Rattle.dap_json.specs.Field.{text_at, tree_at};
ghost use Rattle.dap_command.specs.Opening.{is_usually_of_stops, opened_so, is_of_stops, described, opened_of, each_opened, opened_in};

use crate::opening::Opened;
use dap_json::{Text, field};
use serde_json::Value;
use std::alloc::{AllocError, Global};

/// Whether a command of the protocol looks at a stop, or goes on from one.
fn is_usually_of_stops(name: &str) -> bool
    ensures { result ≡ is_usually_of_stops name.now }
{
    match name {
        "exceptionInfo" => true,
        "setExpression" => true,
        "stepInTargets" => true,
        "gotoTargets" => true,
        "goto" => true,
        "restartFrame" => true,
        _ => false,
    }
}

fn opened_so(alloc: Global, name: &str, in_stops: bool) -> Result<Opened, AllocError>
    ensures { IfOk result (λ opened. opened ≡ opened_so name.now in_stops) }
{
    let name = Text::copied(alloc, name)?;
    Ok(Opened { name, in_stops })
}

/// Whether a command is of stops alone, as the object says that describes it.
fn is_of_stops(value: &Value, name: &str) -> Option<bool>
    ensures { result ≡ is_of_stops name.now (tree_at (codes "inStops") (view value.now)) }
{
    match field::present(value, "inStops") {
        None => Some(is_usually_of_stops(name)),
        Some(given) => given.as_bool(),
    }
}

/// A command that an object describes.
fn described(alloc: Global, value: &Value) -> Result<Option<Opened>, AllocError>
    ensures { IfOk result (λ opened. opened ≡ described (text_at (codes "name") (view value.now)) (view value.now)) }
{
    let Some(name) = field::text(value, "name") else {
        return Ok(None);
    };
    match is_of_stops(value, name) {
        None => Ok(None),
        Some(in_stops) => Ok(Some(opened_so(alloc, name, in_stops)?)),
    }
}

/// A command by its name, or as an object describes it.
fn opened_of(alloc: Global, value: &Value) -> Result<Option<Opened>, AllocError>
    ensures { IfOk result (λ opened. opened ≡ opened_of (view value.now)) }
{
    match value.as_str() {
        Some(name) => Ok(Some(opened_so(alloc, name, is_usually_of_stops(name))?)),
        None => described(alloc, value),
    }
}

fn each_opened(alloc: Global, items: &[Value]) -> Result<Option<Vec<Opened>>, AllocError>
    ensures { IfOk result (λ opened. option_map (λ v. v.items) opened ≡ each_opened (items_view items.now) []) }
{
    let mut commands = Vec::with_capacity(alloc, items.len())?;
    for item in items {
        match opened_of(alloc, item)? {
            None => return Ok(None),
            Some(opened) => commands.push(opened)?,
        }
    }
    Ok(Some(commands))
}

/// The commands of a list; `None` where it is none, or an element is no command.
pub(crate) fn opened_in(alloc: Global, value: &Value) -> Result<Option<Vec<Opened>>, AllocError>
    ensures { IfOk result (λ opened. option_map (λ v. v.items) opened ≡ opened_in (view value.now)) }
{
    match value.as_array() {
        None => Ok(None),
        Some(items) => each_opened(alloc, items),
    }
}
