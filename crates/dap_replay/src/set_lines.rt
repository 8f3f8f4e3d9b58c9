//! The lines that are set, by source. Each source's are kept as they were set and in rising order, so that one of many is found
//! by halving.
ghost use Rattle.std.specs.Prelude.{◌≡◌, ◌<◌, ◌≤◌, [], length, IfOk, OnOk, OnErr};
ghost use Rattle.dap_command.specs.declared.source_key.SourceKey.TheVariants.{Path, Reference};
ghost use Rattle.dap_tables.specs.SourceMap.{count, HasNoEmptyList};
ghost use Rattle.dap_replay.specs.Moves.{has_line as has_line_in};
ghost use Rattle.dap_replay.specs.Played.{lines_in, with_source_lines};
ghost use Rattle.dap_replay.specs.PrivateSetLines.{lines_of, rising_of, IsRising};

use dap_command::SourceKey;
use dap_tables::SourceMap;
use std::alloc::{AllocError, Global};
use std::marker::Model;

/// The line at a place of a source's lines as they were set, and the one at that place once they are put in rising order.
#[derive(Clone, Copy, Debug)]
pub(crate) struct SetLine {
    pub(crate) line: u32,
    pub(crate) rising: u32,
}

/// The lines that are set. A contract sees them as they were set.
#[derive(Drop)]
pub(crate) struct SetLines {
    pub(crate) sources: SourceMap<SetLine>,
}

impl Model for SetLines {
    ghost use Rattle.std.specs.Prelude.{ℕ, List};
    ghost use Rattle.dap_tables.specs.SourceMap.{OfSource};
    ghost use Rattle.dap_replay.specs.PrivateSetLines.{all_lines, AllRise};

    ghost Value = { List (OfSource ℕ) };

    ghost view = { λ s. all_lines s.sources };

    ghost invariant = { λ s. AllRise s.sources };
}

/// Lines, each beside one of as many others.
fn beside(alloc: Global, lines: &[u32], rising: &[u32]) -> Result<Vec<SetLine>, AllocError>
    requires { length rising.now ≡ length lines.now }
    ensures lines { IfOk result (λ set. lines_of set.items ≡ lines.now) }
    ensures rising { IfOk result (λ set. rising_of set.items ≡ rising.now) }
{
    let mut set = Vec::with_capacity(alloc, lines.len())?;
    for (i, line) in lines.iter().enumerate() {
        set.push(SetLine {
            line: *line,
            rising: rising[i],
        })?;
    }
    Ok(set)
}

/// Lines as they are given and in rising order.
fn in_both_orders(alloc: Global, lines: &[u32]) -> Result<Vec<SetLine>, AllocError>
    ensures lines { IfOk result (λ set. lines_of set.items ≡ lines.now) }
    ensures rising { IfOk result (λ set. IsRising set.items) }
{
    let mut rising = lines.to_vec(alloc)?;
    rising.sort_unstable();
    beside(alloc, lines, &rising)
}

/// Whether a line is among those that are set.
fn has_line(line: u32, set: &[SetLine]) -> bool
    requires { IsRising set.now }
    ensures { result ≡ has_line_in line (lines_of set.now) }
{
    set.binary_search_by_key(&line, |l| l.rising).is_ok()
}

impl SetLines {
    /// No line is set yet.
    pub(crate) fn new(alloc: Global) -> SetLines
        ensures { result ≡ [] }
    {
        SetLines {
            sources: SourceMap::new(alloc),
        }
    }

    /// Each source that has an entry has a line. There is nothing to run.
    pub(crate) fn no_list_is_empty(&self)
        ensures filled { HasNoEmptyList self.now }
        ensures few { length self.now ≤ count self.now }
    {
        self.sources.no_list_is_empty();
    }

    /// Whether a line of the source with a path is set.
    pub(crate) fn has_path_line(&self, path: &str, line: u32) -> bool
        ensures { result ≡ has_line_in line (lines_in self.now (Path path.now)) }
    {
        has_line(line, self.sources.of_path(path))
    }

    /// Whether a line of the source with a reference is set.
    pub(crate) fn has_reference_line(&self, reference: u64, line: u32) -> bool
        ensures { result ≡ has_line_in line (lines_in self.now (Reference reference)) }
    {
        has_line(line, self.sources.of_reference(reference))
    }

    /// Puts lines in place of those of a source.
    pub(crate) fn put(
        &mut self,
        alloc: Global,
        source: &SourceKey,
        lines: &[u32],
    ) -> Result<(), AllocError>
        ensures set { OnOk result (self.new ≡ with_source_lines source.now lines.now self.old) }
        ensures memory { OnErr result (self.new ≡ self.old) }
        ensures some { OnErr result (0 < length lines.now) }
    {
        if lines.is_empty() {
            self.sources.remove(source);
            return Ok(());
        }
        self.sources
            .put(source.clone()?, in_both_orders(alloc, lines)?)
    }
}
