//! Where a run of a recording goes: a walk over its moments.
ghost use Rattle.std.specs.Prelude.{◌≡◌, ◌<◌, ◌≤◌, ◌||◌, length, option_map, unwrap_or, IfOk, IfSome};
ghost use Rattle.dap_recording.specs.Recording.{depth as depth_of, top as top_of, id_at as thread_id_at, beside_stop};
ghost use Rattle.dap_replay.specs.Moves.{reason_text, is_at_breakpoint as stands_at_breakpoint, is_forward as goes_forward, has_stop, plain_stop, stop_told};
ghost use Rattle.dap_replay.specs.Played.{lines_in};

use crate::set_lines::SetLines;
use dap_debuggee::{Frame, How};
use dap_json::More;
use dap_recording::{Moment, OwnStop, RecordedSource};
use std::alloc::{AllocError, Global};

/// Why a run stops, where the moment does not say why.
#[derive(Clone, Copy, Debug, PartialEq, Eq)]
pub(crate) enum Reason {
    Entry,
    Step,
    Breakpoint,
    Pause,
}

/// Where a run goes.
#[derive(Clone, Copy, Debug)]
pub(crate) struct Move {
    /// The place of the moment, or how many there are for the exit.
    pub(crate) to: usize,
    /// Whether it is held there until a pause.
    pub(crate) held: bool,
    /// Whether it goes to a later moment, whose own stop counts.
    pub(crate) forward: bool,
    pub(crate) reason: Reason,
}

/// A moment that is looked for.
#[derive(Clone, Copy, Debug)]
pub(crate) enum Wanted {
    /// At most so many frames.
    NoDeeper(usize),
    /// Fewer frames.
    Shallower(usize),
    AtBreakpoint,
}

impl Reason {
    pub(crate) fn text(self) -> &'static str
        ensures { result.now ≡ reason_text self }
    {
        match self {
            Reason::Entry => "entry",
            Reason::Step => "step",
            Reason::Breakpoint => "breakpoint",
            Reason::Pause => "pause",
        }
    }
}

fn depth(moment: &Moment) -> usize
    ensures { result ≡ depth_of moment.now }
{
    match moment.threads.as_slice().get(moment.thread) {
        None => 0,
        Some(thread) => thread.frames.as_slice().len(),
    }
}

fn top(moment: &Moment) -> Option<&Frame>
    ensures { option_map (λ f. f.now) result ≡ top_of moment.now }
{
    moment
        .threads
        .as_slice()
        .get(moment.thread)?
        .frames
        .as_slice()
        .first()
}

/// Whether the line of the newest frame has a breakpoint, by the path of its source or by its number.
fn is_at_breakpoint(moment: &Moment, sources: &[RecordedSource], set: &SetLines) -> bool
    ensures { result ≡ stands_at_breakpoint (lines_in set.now) sources.now moment.now }
{
    let Some(frame) = top(moment) else {
        return false;
    };
    let Some(place) = frame.source else {
        return false;
    };
    if let Some(source) = sources.get(place as usize)
        && let Some(path) = &source.path
        && set.has_path_line(path.as_str(), frame.line)
    {
        return true;
    }
    set.has_reference_line(place as u64 + 1, frame.line)
}

/// What a move is decided by.
#[derive(Clone, Copy, Drop)]
pub(crate) struct Plan<'r> {
    pub(crate) sources: &'r [RecordedSource],
    pub(crate) moments: &'r [Moment],
    /// The lines that are set.
    pub(crate) set: &'r SetLines,
}

impl Plan<'_> {
    ghost use Rattle.dap_replay.specs.Moves.{passes as passes_test, next_stop, greatest_before as greatest_place_before, target as target_of, reason_of, depth_at, waiting_moment_within, move_of};
    ghost use Rattle.dap_replay.specs.Played.{lines_in};

    fn passes(&self, wanted: Wanted, moment: &Moment) -> bool
        ensures { result ≡ passes_test self.now.sources.now (lines_in self.now.set.now) wanted moment.now }
    {
        match wanted {
            Wanted::NoDeeper(deep) => depth(moment) <= deep,
            Wanted::Shallower(deep) => depth(moment) < deep,
            Wanted::AtBreakpoint => is_at_breakpoint(moment, self.sources, self.set),
        }
    }

    /// Whether a forward run stops at a moment.
    fn halts(&self, wanted: Wanted, moment: &Moment) -> bool
        ensures { result ≡ (passes_test self.now.sources.now (lines_in self.now.set.now) wanted moment.now || has_stop moment.now) }
    {
        self.passes(wanted, moment) || moment.stop.is_some()
    }

    /// The least place after `i` of a moment that is wanted or has a stop of its own, or how many moments there are.
    fn least_after(&self, wanted: Wanted, i: usize) -> usize
        requires { i < length self.now.moments.now }
        ensures place { result ≡ next_stop (passes_test self.now.sources.now (lines_in self.now.set.now) wanted) i self.now.moments.now }
        ensures within { result ≤ length self.now.moments.now }
    {
        let mut k = i + 1;
        while let Some(moment) = self.moments.get(k) {
            if self.halts(wanted, moment) {
                return k;
            }
            k += 1;
        }
        k
    }

    /// The greatest place before `i` of a moment that is wanted.
    fn greatest_before(&self, wanted: Wanted, i: usize) -> Option<usize>
        requires { i < length self.now.moments.now }
        ensures place { result ≡ greatest_place_before (passes_test self.now.sources.now (lines_in self.now.set.now) wanted) i self.now.moments.now }
        ensures within { IfSome result (λ k. k < i) }
    {
        let mut k = i;
        while k > 0 {
            k -= 1;
            if self.passes(wanted, &self.moments[k]) {
                return Some(k);
            }
        }
        None
    }

    /// The least place after `i` and before `to` of a moment that waits.
    fn waiting_before(&self, i: usize, to: usize) -> Option<usize>
        requires after { i < length self.now.moments.now }
        requires within { to ≤ length self.now.moments.now }
        ensures { result ≡ waiting_moment_within i to self.now.moments.now }
    {
        let mut k = i + 1;
        while k < to {
            if self.moments[k].waits {
                return Some(k);
            }
            k += 1;
        }
        None
    }

    /// Where a run from moment `i` goes that is not held, and why it stops there.
    fn unheld(&self, how: How, i: usize) -> (usize, Reason)
        requires { i < length self.now.moments.now }
        ensures within { result.0 ≤ length self.now.moments.now }
        ensures goal { result ≡ (target_of self.now.sources.now self.now.moments.now (lines_in self.now.set.now) how i (depth_at i self.now.moments.now), reason_of self.now.sources.now self.now.moments.now (lines_in self.now.set.now) how i) }
    {
        let deep = self.moments.get(i).map_or(0, depth);
        match how {
            How::StepIn => (i + 1, Reason::Step),
            How::Next => (self.least_after(Wanted::NoDeeper(deep), i), Reason::Step),
            How::StepOut => (self.least_after(Wanted::Shallower(deep), i), Reason::Step),
            How::Continue => (
                self.least_after(Wanted::AtBreakpoint, i),
                Reason::Breakpoint,
            ),
            How::StepBack => (i.saturating_sub(1), Reason::Step),
            How::ReverseContinue => match self.greatest_before(Wanted::AtBreakpoint, i) {
                None => (0, Reason::Entry),
                Some(k) => (k, Reason::Breakpoint),
            },
        }
    }

    /// Where a run from moment `i` goes: a forward one is held at the first waiting moment that it would pass.
    pub(crate) fn movement(&self, how: How, i: usize) -> Move
        requires { i < length self.now.moments.now }
        ensures { result ≡ move_of self.now.sources.now self.now.moments.now (lines_in self.now.set.now) how i }
    {
        let (to, reason) = self.unheld(how, i);
        let forward = is_forward(how);
        if forward && let Some(waiting) = self.waiting_before(i, to) {
            return Move {
                to: waiting,
                held: true,
                forward,
                reason: Reason::Pause,
            };
        }
        Move {
            to,
            held: false,
            forward,
            reason,
        }
    }
}

pub(crate) fn is_forward(how: How) -> bool
    ensures { result ≡ goes_forward how }
{
    match how {
        How::StepBack | How::ReverseContinue => false,
        _ => true,
    }
}

/// The id of the thread that stands at a moment.
pub(crate) fn id_at(moment: &Moment) -> i64
    ensures { result ≡ thread_id_at moment.now }
{
    match moment.threads.as_slice().get(moment.thread) {
        None => 0,
        Some(thread) => thread.id,
    }
}

/// The stop of a moment itself, where the move comes to an end by it.
fn own_stop(to: Move, moment: &Moment) -> Option<&OwnStop>
    ensures { unwrap_or (option_map (λ stop. stop.now) result) (plain_stop (reason_text to.reason)) ≡ stop_told to moment.now }
{
    if !to.forward || to.held {
        return None;
    }
    moment.stop.as_ref()
}

/// Why a run stops at a moment, at the end of a move.
pub(crate) fn reason_told<'m>(to: Move, moment: &'m Moment) -> &'m str
    ensures { result.now ≡ (stop_told to moment.now).reason }
{
    match own_stop(to, moment) {
        Some(stop) => stop.reason.as_str(),
        None => to.reason.text(),
    }
}

/// What is said beside the reason.
pub(crate) fn beside_told(alloc: Global, to: Move, moment: &Moment) -> Result<More, AllocError>
    ensures { IfOk result (λ more. more ≡ beside_stop (stop_told to moment.now)) }
{
    match own_stop(to, moment) {
        Some(stop) => stop.beside(alloc),
        None => Ok(More::none()),
    }
}
