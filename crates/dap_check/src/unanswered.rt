//! The requests that nothing has answered, in the order of their lines.
ghost use Rattle.std.specs.Prelude.{◌≡◌, ◌++◌, List, OnOk, IfOk};
ghost use Rattle.std.specs.BTreeMap as tree;
ghost use Rattle.std.specs.Ordering.{nat_cmp};
ghost use Rattle.dap_check.specs.Findings.{open_requests};
ghost use Rattle.dap_check.specs.Kept.{ArePending};
ghost use Rattle.dap_check.specs.PrivateOpen.{all_kept, AreFrom, IsInOrder};
ghost use Rattle.dap_check.specs.declared.line.Line.{Line};

use crate::pending::Pending;
use crate::rule::OpenRequest;
use crate::waiting::Waiting;
use std::alloc::{AllocError, Global};
use std::collections::BTreeMap;

/// Appends all requests of a side, in the order of their numbers.
fn gather(all: &mut Vec<OpenRequest>, waiting: Waiting) -> Result<(), AllocError>
    ensures all { OnOk result (all.new.items ≡ all.old.items ++ all_kept waiting) }
    ensures ordered { OnOk result (tree.IsOrdered nat_cmp waiting.requests) }
{
    let Waiting { requests } = waiting;
    // For the proof: the numbers are in order.
    let _count = requests.len();
    for mut under_number in requests.into_values() {
        all.append(&mut under_number)?;
    }
    Ok(())
}

/// The same requests, by their lines.
fn by_line(alloc: Global, all: Vec<OpenRequest>) -> Result<BTreeMap<u64, OpenRequest>, AllocError>
    ensures { IfOk result (IsInOrder all.items) }
{
    let mut lines = BTreeMap::new(alloc);
    for request in all {
        lines.insert(request.line, request)?;
    }
    // For the proof: the lines are in order.
    let _count = lines.len();
    Ok(lines)
}

fn values(alloc: Global, lines: BTreeMap<u64, OpenRequest>) -> Result<Vec<OpenRequest>, AllocError>
    ensures { IfOk result (λ requests. requests.items ≡ tree.values lines) }
{
    let mut requests = Vec::new(alloc);
    for request in lines.into_values() {
        requests.push(request)?;
    }
    Ok(requests)
}

/// The requests that are kept, in the order of their lines.
pub(crate) fn in_order(alloc: Global, pending: Pending) -> Result<Vec<OpenRequest>, AllocError>
    ensures { IfOk result (λ requests. (lines : List Line) → AreFrom 1 lines → ArePending pending lines → requests.items ≡ open_requests lines) }
{
    let Pending { client, adapter } = pending;
    let mut all = Vec::new(alloc);
    gather(&mut all, client)?;
    gather(&mut all, adapter)?;
    let lines = by_line(alloc, all)?;
    values(alloc, lines)
}
