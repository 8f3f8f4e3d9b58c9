//! The sources of a debuggee: the name, the path and the text of each, and how many lines there are under a path.
ghost use Rattle.std.specs.Prelude.{◌≡◌, ◌&&◌, nat_le, ◌++◌, IfOk, OnOk, map, option_map};
ghost use Rattle.dap_recording.specs.Sources.{source_shown};
ghost use Rattle.dap_recording.specs.PrivatePaths.{placed_within};

use crate::numbers::MAX_SOURCES;
use crate::paths;
use crate::paths::Paths;
use crate::recording::RecordedSource;
use dap_command::SourceKey;
use dap_debuggee::{DebuggeeFault, Placement, Source};
use dap_json::Text;
use std::alloc::{AllocError, Global};
use std::marker::Model;
use std::sync::Arc;

/// Sources, which recordings and debuggees share: at most 65536. A contract sees the list.
#[derive(Debug, Drop)]
pub struct Sources {
    held: Arc<Vec<RecordedSource>>,
    paths: Arc<Paths>,
}

impl Model for Sources {
    ghost use Rattle.std.specs.Coded.{codes};
    ghost use Rattle.dap_json.specs.Stored.{coded_data};
    ghost use Rattle.std.specs.Prelude.{◌≤◌, length, List as Items};
    ghost use Rattle.dap_recording.specs.PrivatePaths.{HasMost};
    ghost use Rattle.dap_recording.specs.declared.recording.RecordedSource.{RecordedSource};

    ghost Value = { Items RecordedSource };

    ghost coded = { Prim.hlevel (codes, coded_data) };

    ghost view = { λ s. s.held.value.items };

    ghost invariant = { λ s. (length s.held.value.items ≤ 65536) × HasMost s.paths.value.most s.held.value.items };
}

impl Sources {
    ghost use Rattle.std.specs.Prelude.{◌≤◌, ◌↔◌, ◌+◌, length, IsTrue};
    ghost use Rattle.std.specs.List.{slice_get};
    ghost use Rattle.std.specs.Option.{IsSome};
    ghost use Rattle.std.specs.Prelude.{IsErrOf};
    ghost use Rattle.dap_debuggee.specs.Laws.{AnswersQuery};
    ghost use Rattle.dap_recording.specs.PrivatePaths.{lines_of_key};
    ghost use Rattle.dap_recording.specs.Lent.{LacksMemoryOnlyFor};
    ghost use Rattle.dap_recording.specs.Sources.{shown_at, text_at, lines_verified};

    /// The sources of a `Vec`, without a copy.
    pub fn new(alloc: Global, sources: Vec<RecordedSource>) -> Result<Sources, AllocError>
        requires { length sources.items ≤ 65536 }
        ensures { IfOk result (λ s. s ≡ sources.items) }
    {
        let paths = paths::of_sources(alloc, sources.as_slice())?;
        let paths = Arc::new(alloc, paths)?;
        Ok(Sources {
            held: Arc::new(alloc, sources)?,
            paths,
        })
    }

    /// The sources, lent.
    pub fn as_slice(&self) -> &[RecordedSource]
        ensures { result.now ≡ self.now }
    {
        self.held.as_slice()
    }

    /// How many there are.
    pub fn len(&self) -> usize
        ensures { result ≡ length self.now }
    {
        self.as_slice().len()
    }

    /// There are at most 65536. There is nothing to run.
    #[inline(always)]
    pub fn are_few(&self)
        ensures { length self.now ≤ 65536 }
    {
        let _ = &self.held;
    }

    /// Whether there is room for others behind these.
    pub fn has_room(&self, more: &Sources) -> bool
        ensures { IsTrue result ↔ length self.now + length more.now ≤ 65536 }
    {
        self.len().saturating_add(more.len()) <= MAX_SOURCES
    }

    /// These, and others behind them. It takes time in proportion to all of them; texts that are shared are not copied.
    pub fn with(&self, alloc: Global, more: &Sources) -> Result<Sources, AllocError>
        requires { length self.now + length more.now ≤ 65536 }
        ensures { IfOk result (λ s. s ≡ self.now ++ more.now) }
    {
        let count = self.len().saturating_add(more.len());
        let mut all = Vec::with_capacity(alloc, count)?;
        push_each(&mut all, self.as_slice())?;
        push_each(&mut all, more.as_slice())?;
        Sources::new(alloc, all)
    }

    /// What each shows.
    pub fn all(&self, alloc: Global) -> Result<Vec<Source>, AllocError>
        ensures { IfOk result (λ sources. sources.items ≡ map source_shown self.now) }
    {
        shown(alloc, self.as_slice())
    }

    fn get(&self, index: u32) -> Option<&RecordedSource>
        ensures { option_map (λ s. s.now) result ≡ slice_get self.now index }
    {
        self.as_slice().get(index as usize)
    }

    /// What the source at a place shows, counted from 0.
    ///
    /// # Errors
    /// `Refused` where there is none at the place, `OutOfMemory` where memory is refused.
    pub fn source(&self, index: u32) -> Result<Source, DebuggeeFault>
        ensures source { AnswersQuery result (λ source. source) (shown_at self.now index) }
        ensures memory { LacksMemoryOnlyFor result (shown_at self.now index) }
    {
        match self.get(index) {
            None => Err(DebuggeeFault::Refused),
            Some(source) => Ok(source_copied(source)?),
        }
    }

    /// The text of the source at a place, counted from 0.
    ///
    /// # Errors
    /// Those of [`source`](Sources::source).
    pub fn content(&self, index: u32) -> Result<Text, DebuggeeFault>
        ensures text { AnswersQuery result (λ text. text) (text_at self.now index) }
        ensures memory { LacksMemoryOnlyFor result (text_at self.now index) }
    {
        match self.get(index) {
            None => Err(DebuggeeFault::Refused),
            Some(source) => Ok(source.text.clone()?),
        }
    }

    /// How many lines a source has; the longest one where several have its path.
    fn lines_of(&self, source: &SourceKey) -> u64
        ensures { result ≡ lines_of_key self.now source.now }
    {
        match source {
            SourceKey::Path(path) => self.paths.most_lines(path.as_str()),
            SourceKey::Reference(0) => 0,
            SourceKey::Reference(n) => match self.as_slice().get(*n as usize - 1) {
                None => 0,
                Some(source) => source.lines,
            },
        }
    }

    /// Which of the lines a source has, each answered in its turn.
    pub fn verify(
        &self,
        alloc: Global,
        source: &SourceKey,
        lines: &[u32],
    ) -> Result<Vec<Placement>, AllocError>
        ensures { IfOk result (λ v. v.items ≡ lines_verified self.now source.now lines.now) }
    {
        let most = self.lines_of(source);
        verified(alloc, most, lines)
    }
}

/// A copy shares the sources, and takes no memory.
impl Clone for Sources {
    ghost is_clone = { λ a b. b ≡ a };

    fn clone(&self) -> Result<Sources, AllocError> {
        Ok(Sources {
            held: self.held.clone()?,
            paths: self.paths.clone()?,
        })
    }
}

fn push_each(all: &mut Vec<RecordedSource>, sources: &[RecordedSource]) -> Result<(), AllocError>
    ensures { OnOk result (all.new.items ≡ all.old.items ++ sources.now) }
{
    for source in sources {
        all.push(source.clone()?)?;
    }
    Ok(())
}

fn copied_path(path: &Option<Text>) -> Result<Option<Text>, AllocError>
    ensures { IfOk result (λ copy. copy ≡ path.now) }
{
    match path {
        None => Ok(None),
        Some(path) => Ok(Some(path.clone()?)),
    }
}

fn source_copied(source: &RecordedSource) -> Result<Source, AllocError>
    ensures { IfOk result (λ shown. shown ≡ source_shown source.now) }
{
    Ok(Source {
        name: source.name.clone()?,
        path: copied_path(&source.path)?,
        on_disk: source.on_disk,
        more: source.more.clone()?,
    })
}

fn shown(alloc: Global, sources: &[RecordedSource]) -> Result<Vec<Source>, AllocError>
    ensures { IfOk result (λ shown. shown.items ≡ map source_shown sources.now) }
{
    let mut shown = Vec::with_capacity(alloc, sources.len())?;
    for source in sources {
        shown.push(source_copied(source)?)?;
    }
    Ok(shown)
}

fn verified(alloc: Global, most: u64, lines: &[u32]) -> Result<Vec<Placement>, AllocError>
    ensures { IfOk result (λ answers. answers.items ≡ map (placed_within most) lines.now) }
{
    let mut answers = Vec::new(alloc);
    for line in lines {
        let has_line = 1 <= *line && *line as u64 <= most;
        answers.push(Placement::as_asked(*line, has_line))?;
    }
    Ok(answers)
}
