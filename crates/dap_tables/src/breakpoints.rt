//! The breakpoints that are set, by source.
ghost use Rattle.std.specs.Prelude.{◌≡◌, ◌+◌, ◌<◌, ◌≤◌, ◌↔◌, [], length, IsTrue, IsOk, IfOk, OnOk, OnErr, Ok, Err};
ghost use Rattle.dap_tables.specs.SourceMap.{set_of, count, of_others, with_set};
ghost use Rattle.dap_tables.specs.Breakpoints.{BreakpointTable, lines_with_ids, max_id, IsAllowed, HasNoRoomForLines, LacksIds, TakesIds, IsOrderlyBreakpoints, empty_breakpoints, breakpoints_of, table_with_lines, with_ids, KeepsOtherSources};
ghost use Rattle.dap_tables.specs.declared.bp_fault.BpFault.TheVariants.{Full, Exhausted, OutOfMemory};

use crate::bp_fault::BpFault;
use crate::source_map::SourceMap;
use dap_command::SourceKey;
use std::alloc::{AllocError, Global};
use std::marker::Model;

const MAX_ID: u64 = 9007199254740991;

/// The breakpoints that are set, in one list for each source that has some.
///
/// A path and a reference are two names, with two lists, even where they mean one file. Ids rise from 1, and none is given
/// twice.
#[derive(Drop)]
pub struct Breakpoints {
    alloc: Global,
    sets: SourceMap<(u64, u32)>,
    len: usize,
    next_id: u64,
    room: usize,
}

impl Model for Breakpoints {
    ghost use Rattle.std.specs.Prelude.{◌≡◌};
    ghost use Rattle.dap_tables.specs.SourceMap.{count};
    ghost use Rattle.dap_tables.specs.Breakpoints.{BreakpointTable, IsOrderlyBreakpoints};

    ghost Value = { BreakpointTable };

    ghost view = { λ b. record { room = b.room; breakpoints = record { sources = b.sets; next_id = b.next_id } } };

    ghost invariant = { λ b. (b.len ≡ count b.sets) × IsOrderlyBreakpoints (record { room = b.room; breakpoints = record { sources = b.sets; next_id = b.next_id } }) };
}

/// Lines with their ids.
fn numbered(alloc: Global, first: u64, lines: &[u32]) -> Result<Vec<(u64, u32)>, AllocError>
    requires { first + length lines.now ≤ max_id + 1 }
    ensures numbered { IfOk result (λ set. set.items ≡ lines_with_ids first lines.now) }
{
    let mut set = Vec::with_capacity(alloc, lines.len())?;
    let mut id = first;
    for line in lines {
        set.push((id, *line))?;
        id += 1;
    }
    Ok(set)
}

/// Sets these lines in place of those of a source, with ids from the first on.
fn set_lines(
    sets: &mut SourceMap<(u64, u32)>,
    alloc: Global,
    source: SourceKey,
    first: u64,
    lines: &[u32],
) -> Result<(), AllocError>
    requires { first + length lines.now ≤ max_id + 1 }
    ensures ok { OnOk result (sets.new ≡ with_set source (lines_with_ids first lines.now) (of_others source sets.old)) }
    ensures err { OnErr result (sets.new ≡ sets.old) }
    ensures memory { OnErr result (0 < length lines.now) }
{
    if lines.is_empty() {
        sets.remove(&source);
        return Ok(());
    }
    let set = numbered(alloc, first, lines)?;
    sets.put(source, set)
}

impl Breakpoints {
    /// None yet, and room for `k` in all lists together. It takes no memory, so that it never fails.
    pub fn open(alloc: Global, k: usize) -> Result<Breakpoints, AllocError>
        ensures empty { IfOk result (λ table. table ≡ empty_breakpoints k) }
        ensures memory { IsOk result }
    {
        Ok(Breakpoints {
            alloc,
            sets: SourceMap::new(alloc),
            len: 0,
            next_id: 1,
            room: k,
        })
    }

    /// Sets these lines in place of all that one source has, and answers the id of the first; each later one has the next
    /// id. No lines leave the source without a list, are never refused and take no memory: the answer is the id that comes
    /// next, 9007199254740992 once all are used.
    ///
    /// Paths are compared byte by byte. Lines may be any, and may come twice.
    ///
    /// # Errors
    /// `Full` where more would stand than there is room for, else `Exhausted` where an id would be past 9007199254740991, else
    /// `OutOfMemory` where memory is refused. The table is then as it was.
    #[tactic(auto, using(crate::proofs::SetLemmas::replacing))]
    pub fn replace(&mut self, source: SourceKey, lines: &[u32]) -> Result<u64, BpFault>
        ensures ok { OnOk result (self.new ≡ table_with_lines source lines.now self.old) }
        ensures first { IfOk result (λ first. first ≡ self.old.breakpoints.next_id) }
        ensures err { OnErr result (self.new ≡ self.old) }

        // Which refusal comes.
        ensures full { (result ≡ Err Full) ↔ HasNoRoomForLines source lines.now self.old }
        ensures exhausted { (result ≡ Err Exhausted) ↔ LacksIds source lines.now self.old }
        ensures memory { result ≡ Err OutOfMemory → TakesIds source lines.now self.old }
        ensures none { length lines.now ≡ 0 → result ≡ Ok self.old.breakpoints.next_id }

        // The source has these lines, and each other source what it had.
        ensures set { OnOk result (breakpoints_of source self.new ≡ with_ids lines.now self.old) }
        ensures others { OnOk result (KeepsOtherSources source self.old self.new) }
        ensures orderly { IsOrderlyBreakpoints self.new }
    {
        if let Err(fault) = self.check(&source, lines) {
            return Err(fault);
        }
        let others = self.count_of_others(&source);
        let first = self.next_id;
        if set_lines(&mut self.sets, self.alloc, source, first, lines).is_err() {
            return Err(BpFault::OutOfMemory);
        }
        self.len = others + lines.len();
        self.next_id = first + lines.len() as u64;
        Ok(first)
    }

    /// Whether `replace` would set these lines, if memory is given. No lines are never refused.
    ///
    /// # Errors
    /// `Full` and `Exhausted`, where `replace` would answer them.
    pub fn check(&self, source: &SourceKey, lines: &[u32]) -> Result<(), BpFault>
        ensures ok { OnOk result (IsAllowed source.now lines.now self.now) }
        ensures full { (result ≡ Err Full) ↔ HasNoRoomForLines source.now lines.now self.now }
        ensures exhausted { (result ≡ Err Exhausted) ↔ LacksIds source.now lines.now self.now }
        ensures memory { result ≡ Err OutOfMemory → ⊥ }
        ensures none { OnErr result (0 < length lines.now) }
    {
        if lines.len() > self.room - self.count_of_others(source) {
            return Err(BpFault::Full);
        }
        if lines.len() as u64 > MAX_ID + 1 - self.next_id {
            return Err(BpFault::Exhausted);
        }
        Ok(())
    }

    #[tactic(auto, using(crate::proofs::SetLemmas::counting))]
    fn count_of_others(&self, source: &SourceKey) -> usize
        ensures others { result ≡ count (of_others source.now self.now.breakpoints.sources) }
        ensures bound { result ≤ self.now.room }
        ensures orderly { IsOrderlyBreakpoints self.now }
    {
        self.len - self.sets.of_source(source).len()
    }

    /// The breakpoints of one source, each its id and its line, in the order in which they were given; none where it has no
    /// list.
    pub fn of_source(&self, source: &SourceKey) -> &[(u64, u32)]
        ensures { result.now ≡ set_of source.now self.now.breakpoints.sources }
    {
        self.sets.of_source(source)
    }

    /// The id that the next breakpoint gets, at most 9007199254740992, which none gets.
    pub fn next_id(&self) -> u64
        ensures next_id { result ≡ self.now.breakpoints.next_id }
        ensures bound { result ≤ max_id + 1 }
    {
        self.next_id
    }

    /// How many breakpoints there are in all lists together.
    pub fn len(&self) -> usize
        ensures len { result ≡ count self.now.breakpoints.sources }
        ensures orderly { IsOrderlyBreakpoints self.now }
    {
        self.len
    }

    /// Whether no breakpoint is set.
    pub fn is_empty(&self) -> bool
        ensures { IsTrue result ↔ (self.now.breakpoints.sources ≡ []) }
    {
        self.len == 0
    }
}
