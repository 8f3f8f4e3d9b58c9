//! Who follows a row.

use crate::outcome::Outcome;
use dap_frame::Limits;
use std::alloc::Global;

/// With what a row begins.
#[derive(Clone, Copy)]
pub struct Setting<'a> {
    pub limits: Limits,
    /// How many bytes a piece has at most.
    pub size: usize,
    /// All lines of the row.
    pub row: &'a str,
}

/// One end of a session, or both, that a row is played with.
pub trait Player: Drop + Sized {
    /// A fresh one, or why there is none.
    fn open(alloc: Global, setting: &Setting<'_>, came: &mut String) -> Result<Self, Outcome>;

    /// Does what a line says, or compares it; where something else came, that is appended.
    fn follow(&mut self, alloc: Global, line: &str, came: &mut String) -> Outcome;

    /// Compares what came last with what the row says.
    fn finish(&mut self, alloc: Global, came: &mut String) -> Outcome;

    /// From here on nothing that was said holds.
    fn forget(&mut self);
}
