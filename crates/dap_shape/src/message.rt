//! The first fault of a message.
ghost use Rattle.std.specs.Prelude.{◌≡◌, map, IfOk, Option, option_map};
ghost use Rattle.serde_json.specs.View.{view};
ghost use Rattle.dap_shape.specs.Faults.{row_named, held_fault as held_fault_of, fault_in};
ghost use Rattle.dap_shape.specs.Seen.{row_seen, entry_seen, fault_seen};

use crate::entries::{events, requests, responses};
use crate::fault::ShapeFault;
use crate::shape::{Entry, Field};
use crate::walking::held_fault;
use dap_envelope::Kind;
use dap_json::Tree;
use std::alloc::{AllocError, Global};

pub(crate) fn field_named(entries: &'static [Entry], name: &str) -> Option<Field>
    ensures { option_map row_seen result ≡ row_named (map entry_seen entries.now) name.now }
{
    for entry in entries {
        if entry.0 == name {
            return Some(entry.1);
        }
    }
    None
}

fn tree_fault(
    alloc: Global,
    field: Option<Field>,
    tree: &Option<Tree>,
) -> Result<Option<ShapeFault>, AllocError>
    ensures { IfOk result (λ found. option_map fault_seen found ≡ held_fault_of (option_map row_seen field) tree.now) }
{
    let Some(field) = field else {
        return Ok(None);
    };
    match tree {
        None => held_fault(alloc, field, None),
        Some(tree) => held_fault(alloc, field, Some(tree.value())),
    }
}

/// The first value in a message that is not as the Specification has it: in the arguments of a request, and in the body of a
/// successful response or of an event, of either side. None where there is none, and where the command or the event is no
/// row of the table.
///
/// # Errors
/// Memory is refused.
pub fn message_fault(alloc: Global, kind: &Kind) -> Result<Option<ShapeFault>, AllocError>
    ensures { IfOk result (λ found. option_map fault_seen found ≡ fault_in kind.now) }
{
    match kind {
        Kind::Request { command, arguments } => {
            tree_fault(alloc, field_named(requests(), command.as_str()), arguments)
        }
        Kind::Response {
            success: true,
            command,
            body,
            ..
        } => tree_fault(alloc, field_named(responses(), command.as_str()), body),
        Kind::Event { event, body } => {
            tree_fault(alloc, field_named(events(), event.as_str()), body)
        }
        _ => Ok(None),
    }
}
