//! Where the host said that breakpoints are.
ghost use Rattle.std.specs.Prelude.{◌≡◌, IfOk};
ghost use Rattle.dap_command.specs.SameSource.{is_source};
ghost use Rattle.dap_live.specs.Placing.{is_of};

use crate::mail::Placed;
use dap_command::SourceKey;
use dap_debuggee::Placement;
use std::alloc::{AllocError, Global};

fn is_source(one: &SourceKey, other: &SourceKey) -> bool
    ensures { result ≡ is_source one.now other.now }
{
    match (one, other) {
        (SourceKey::Path(path), SourceKey::Path(other)) => path.as_str() == other.as_str(),
        (SourceKey::Reference(reference), SourceKey::Reference(other)) => reference == other,
        _ => false,
    }
}

/// The same placements.
pub(crate) fn copied(alloc: Global, placements: &[Placement]) -> Result<Vec<Placement>, AllocError>
    ensures { IfOk result (λ copy. copy.items ≡ placements.now) }
{
    let mut copy = Vec::with_capacity(alloc, placements.len())?;
    for original in placements {
        copy.push(original.clone()?)?;
    }
    Ok(copy)
}

impl Placed {
    /// Whether it is of just this source and these lines.
    pub(crate) fn is_of(&self, source: &SourceKey, lines: &[u32]) -> bool
        ensures { result ≡ is_of source.now lines.now self.now }
    {
        is_source(&self.source, source)
            && lines == self.lines.as_slice()
            && self.placements.as_slice().len() == lines.len()
    }
}
