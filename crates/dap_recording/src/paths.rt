//! How many lines there are under a path.
ghost use Rattle.std.specs.Prelude.{◌≡◌, ℕ, List as Items, max, unwrap_or, IfOk, OnOk};
ghost use Rattle.std.specs.BTreeMap.{get_by_text};
ghost use Rattle.dap_recording.specs.PrivatePaths.{path_lines_of, most_lines, HasMost};

use crate::recording::RecordedSource;
use std::alloc::{AllocError, Global};
use std::collections::BTreeMap;

/// For each path how many lines the longest source with it has.
#[derive(Debug, Drop)]
pub(crate) struct Paths {
    pub(crate) most: BTreeMap<String, u64>,
}

/// Adds a source to those that were looked at.
fn add(
    most: &mut BTreeMap<String, u64>,
    alloc: Global,
    source: &RecordedSource,
) -> Result<(), AllocError>
    ensures { OnOk result ((path : Items ℕ) → unwrap_or (get_by_text most.new path) 0 ≡ max (unwrap_or (get_by_text most.old path) 0) (path_lines_of path source.now)) }
{
    let Some(path) = &source.path else {
        return Ok(());
    };
    let before = most.get(path.as_str()).copied().unwrap_or(0);
    let lines = before.max(source.lines);
    most.insert(String::from_str(alloc, path.as_str())?, lines)?;
    Ok(())
}

/// Adds sources to those that were looked at.
fn add_all(
    most: &mut BTreeMap<String, u64>,
    alloc: Global,
    sources: &[RecordedSource],
) -> Result<(), AllocError>
    ensures { OnOk result ((path : Items ℕ) → unwrap_or (get_by_text most.new path) 0 ≡ max (unwrap_or (get_by_text most.old path) 0) (most_lines path sources.now)) }
{
    for source in sources {
        add(most, alloc, source)?;
    }
    Ok(())
}

/// How many lines there are under each path of the sources.
pub(crate) fn of_sources(alloc: Global, sources: &[RecordedSource]) -> Result<Paths, AllocError>
    ensures { IfOk result (λ p. HasMost p.most sources.now) }
{
    let mut most = BTreeMap::new(alloc);
    add_all(&mut most, alloc, sources)?;
    Ok(Paths { most })
}

impl Paths {
    ghost use Rattle.std.specs.Prelude.{◌≡◌, unwrap_or};
    ghost use Rattle.std.specs.BTreeMap.{get_by_text};

    /// How many lines the longest source with a path has, 0 where there is none.
    pub(crate) fn most_lines(&self, path: &str) -> u64
        ensures { result ≡ unwrap_or (get_by_text self.now.most path.now) 0 }
    {
        self.most.get(path).copied().unwrap_or(0)
    }
}
