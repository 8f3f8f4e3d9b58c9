//! The references that responses give.
ghost use Rattle.std.specs.Prelude.{◌≡◌, map, IfOk, Some};
ghost use Rattle.serde_json.specs.View.{view};
ghost use Rattle.dap_command.specs.GivenReferences.{frame_ids, holders_of};
ghost use Rattle.dap_tables.specs.Given.{frame, holder, references_given_by, references_given_in};

use dap_command::{Command, GivenObjects, frames_given, holders_given};
use dap_json::Tree;
use dap_tables::ReferenceKind;
use serde_json::Value;
use std::alloc::{AllocError, Global};

fn frames(alloc: Global, body: &Value) -> Result<Vec<(ReferenceKind, u32)>, AllocError>
    ensures { IfOk result (λ pairs. pairs.items ≡ map frame (frame_ids (view body.now))) }
{
    frames_given(body)
        .map(|number| (ReferenceKind::Frame, number))
        .collect(alloc)
}

fn holders(
    alloc: Global,
    command: Command,
    body: &Value,
) -> Result<Vec<(ReferenceKind, u32)>, AllocError>
    ensures { IfOk result (λ pairs. pairs.items ≡ map holder (holders_of command (view body.now))) }
{
    holders_given(command, body)
        .map(|number| (ReferenceKind::Holder, number))
        .collect(alloc)
}

fn references_given_by(
    alloc: Global,
    command: Command,
    body: &Value,
) -> Result<Vec<(ReferenceKind, u32)>, AllocError>
    ensures { IfOk result (λ pairs. pairs.items ≡ references_given_by command (view body.now)) }
{
    match command.given_objects() {
        GivenObjects::Frames => frames(alloc, body),
        _ => holders(alloc, command, body),
    }
}

/// The references that the body of a success gives.
pub(crate) fn references_given_in(
    alloc: Global,
    command: Option<Command>,
    body: &Option<Tree>,
) -> Result<Vec<(ReferenceKind, u32)>, AllocError>
    ensures { IfOk result (λ pairs. pairs.items ≡ references_given_in command body.now) }
{
    let Some(command) = command else {
        return Ok(Vec::new(alloc));
    };
    match body {
        None => Ok(Vec::new(alloc)),
        Some(body) => references_given_by(alloc, command, body.value()),
    }
}
