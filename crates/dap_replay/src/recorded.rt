//! A debuggee that plays a recorded run.
ghost use Rattle.std.specs.Prelude.{◌≡◌, ◌<◌, ◌≤◌, length};
ghost use Rattle.dap_replay.specs.PrivateHeld.{last_of};
ghost use Rattle.std.specs.Prelude.{if◌then◌else◌};
ghost use Rattle.dap_replay.specs.Moves.{is_forward};
ghost use Rattle.dap_recording.specs.Recording.{IsRecording};

use crate::moves;
use crate::moves::{Move, Plan, Reason};
use crate::set_lines::SetLines;
use dap_command::SourceKey;
use dap_debuggee::{
    ActFault, Asked, Assigned, Debuggee, DebuggeeFault, Evaluation, Explanation, Frame, Happening,
    How, Placement, RefusedQuery, Scope, Source, State, Thread, Variable,
};
use dap_json::Text;
use dap_recording::Recording;
use dap_recording::variables::HolderMap;
use std::alloc::{AllocError, Global};
use std::marker::Model;

/// The rest of a run.
#[derive(Clone, Copy, Debug)]
pub(crate) struct Going {
    /// The place of the moment whose output is being told.
    pub(crate) moment: usize,
    /// How many bytes of that were told.
    pub(crate) told: usize,
    /// The place of the last moment whose output is told.
    pub(crate) last: usize,
    pub(crate) to: Move,
    pub(crate) paused: bool,
}

/// What a poll gave last.
#[derive(Clone, Copy, Debug)]
pub(crate) enum LastPoll {
    Nothing,
    /// Bytes of a moment's output.
    Output {
        moment: usize,
        from: usize,
        to: usize,
    },
    /// At the end of a move.
    Stopped {
        by: Move,
    },
    Exited,
}

/// What was asked last, and the answer.
#[derive(Clone, Copy, Debug)]
pub(crate) enum LastAsked {
    Never,
    Done(Asked),
    Refused(Asked),
    Polled(LastPoll),
}

/// A recorded debuggee.
#[derive(Drop)]
pub struct Recorded {
    pub(crate) recording: Recording,
    pub(crate) state: State,
    /// The place of the moment that is shown.
    pub(crate) at: usize,
    pub(crate) going: Option<Going>,
    /// The lines that are set.
    pub(crate) set: SetLines,
    /// The variables of each holder in which one was set since the debuggee went on.
    pub(crate) changed: HolderMap,
    pub(crate) acts: u64,
    pub(crate) last: LastAsked,
}

impl Model for Recorded {
    ghost use Rattle.std.specs.Coded.{codes};
    ghost use Rattle.dap_json.specs.Stored.{coded_data};
    ghost use Rattle.std.specs.Prelude.{◌<◌, length};
    ghost use Rattle.dap_replay.specs.Played.{Played};
    ghost use Rattle.dap_replay.specs.PrivateHeld.{run_of, last_of, IsOutputWhole, HasRun, KeepHolders};
    ghost use Rattle.dap_recording.specs.Recording.{IsRecording};

    ghost Value = { Played };

    ghost coded = { Prim.hlevel (codes, coded_data) };

    ghost view = { λ r. record {
      recording = r.recording;
      state = r.state;
      at = r.at;
      run = run_of r.recording.moments r.going;
      set = r.set;
      changed = r.changed;
      acts = r.acts;
      last = last_of r.recording r.last;
    } };

    ghost invariant = { λ r. IsRecording r.recording × (r.at < length r.recording.moments) × IsOutputWhole r.recording.moments r.going × HasRun r.state r.going × KeepHolders r.recording.variables r.changed };
}

impl Recorded {
    ghost use Rattle.std.specs.Prelude.{IfOk};
    ghost use Rattle.std.specs.Option.{IsSome};
    ghost use Rattle.dap_replay.specs.Played.{fresh_played, after_start, after_resume};
    ghost use Rattle.dap_recording.specs.Recording.{IsRecording};
    ghost use Rattle.dap_replay.specs.PrivateHeld.{after_act, KeepHolders};
    ghost use Rattle.dap_replay.specs.Played.{shown_of};
    ghost use Rattle.dap_replay.specs.ShownNumbers.{ShownCanBeAsked, NamesOneHolder};
    ghost use Rattle.dap_tables.specs.SourceMap.{count, HasNoEmptyList};

    /// A recording that is not started.
    pub(crate) fn of_recording(alloc: Global, recording: Recording) -> Recorded
        requires { IsRecording recording }
        ensures { result ≡ fresh_played recording }
    {
        Recorded {
            recording,
            state: State::NotStarted,
            at: 0,
            going: None,
            set: SetLines::new(alloc),
            changed: HolderMap::new(alloc),
            acts: 0,
            last: LastAsked::Never,
        }
    }

    /// Counts and remembers an act.
    pub(crate) fn note(&mut self, last: LastAsked)
        ensures { self.new ≡ after_act (last_of self.old.recording last) self.old }
    {
        self.acts = self.acts.wrapping_add(1);
        self.last = last;
    }

    /// What holds of the recording, and of the values that were set. There is nothing to run.
    #[inline(always)]
    pub(crate) fn is_recording(&self)
        ensures recording { IsRecording self.now.recording }
        ensures changed { KeepHolders self.now.recording.variables self.now.changed }
    {
        let _ = &self.recording;
    }

    /// What is told can be asked for what it holds: each thread, source, frame, scope, variable and value. There is
    /// nothing to run.
    pub fn told_can_be_asked(&self)
        ensures { ShownCanBeAsked (shown_of self.now) }
    {
        self.is_recording();
    }

    /// What runs has a run under way, whose end polls tell. There is nothing to run.
    pub fn a_run_is_under_way(&self)
        ensures { self.now.state ≡ State.Running → IsSome self.now.run }
    {
        let _ = &self.going;
    }

    /// No two scopes or variables have one number of a holder. There is nothing to run.
    pub fn holders_differ(&self)
        ensures { NamesOneHolder (shown_of self.now) }
    {
        self.is_recording();
    }

    /// Each source that has an entry among the lines that are set has a line there, so that there are at most as many entries
    /// as lines, whatever was set before. There is nothing to run.
    pub fn entries_have_lines(&self)
        ensures filled { HasNoEmptyList self.now.set }
        ensures few { length self.now.set ≤ count self.now.set }
    {
        self.set.no_list_is_empty();
    }

    /// What a move is decided by.
    fn plan(&self) -> Plan<'_>
        ensures sources { result.sources.now ≡ self.now.recording.sources }
        ensures moments { result.moments.now ≡ self.now.recording.moments }
        ensures set { result.set.now ≡ self.now.set }
    {
        Plan {
            sources: self.recording.sources.as_slice(),
            moments: self.recording.moments.as_slice(),
            set: &self.set,
        }
    }

    /// Goes on from the moment that is shown.
    pub(crate) fn go(&mut self, how: How)
        ensures { self.new ≡ after_resume how self.old }
    {
        let to = self.plan().movement(how, self.at);
        let last = last_told(how, self.at, to.to);
        self.going = Some(Going {
            moment: self.at + 1,
            told: 0,
            last,
            to,
            paused: false,
        });
        self.state = State::Running;
        self.changed.clear();
    }

    /// Goes to the first moment.
    pub(crate) fn begin(&mut self)
        ensures { self.new ≡ after_start self.old }
    {
        self.going = Some(Going {
            moment: 0,
            told: 0,
            last: 0,
            to: Move {
                to: 0,
                held: false,
                forward: true,
                reason: Reason::Entry,
            },
            paused: false,
        });
        self.state = State::Running;
        self.at = 0;
    }
}

/// The last moment whose output is told on the way.
fn last_told(how: How, at: usize, to: usize) -> usize
    ensures { result ≡ (if is_forward how then to else at) }
{
    if moves::is_forward(how) { to } else { at }
}

impl Debuggee for Recorded {
    ghost use Rattle.std.specs.Prelude.{◌≡◌, ◌<◌, length, IfOk, IsTrue, IsErrOf, OnOk, OnErr, option_map};
    ghost use Rattle.std.specs.List.{slice_get};
    ghost use Rattle.std.specs.Option.{IsSome};
    ghost use Rattle.dap_debuggee.specs.Shown.{to_start, to_resume, to_pause, to_poll, to_set_breakpoints, to_assign, done, happened, window};
    ghost use Rattle.dap_debuggee.specs.Laws.{Replies, AnswersQuery, is_short, FramesInRange, NamesOneFrame, SourcesInRange};
    ghost use Rattle.dap_replay.specs.Played.{shown_of, FollowsPlayed};
    ghost use Rattle.dap_replay.specs.PlayedLaws.{counts-played, remembers-played, answers-played, moves-played, sets_lines-played, sets_values-played, keeps_answers-played, keeps_frames-played, keeps_sources-played, no_threads-played, verifies_each-played, assigns_variables-played};

    ghost shown = { shown_of };

    ghost follows = { FollowsPlayed };

    fn start(&mut self, _alloc: Global) -> Result<(), ActFault>
        ensures follows { Replies result (λ reply. FollowsPlayed self.old to_start reply self.new) }
        ensures memory { IsErrOf result ActFault.OutOfMemory → ⊥ }
    {
        self.to_start()
    }

    fn resume(&mut self, _alloc: Global, how: How, thread: i64) -> Result<(), ActFault>
        ensures follows { Replies result (λ reply. FollowsPlayed self.old (to_resume how thread) reply self.new) }
        ensures memory { IsErrOf result ActFault.OutOfMemory → ⊥ }
    {
        self.to_resume(how, thread)
    }

    fn pause(&mut self, _alloc: Global) -> Result<(), ActFault>
        ensures follows { Replies result (λ reply. FollowsPlayed self.old to_pause reply self.new) }
        ensures memory { IsErrOf result ActFault.OutOfMemory → ⊥ }
    {
        self.to_pause()
    }

    fn poll(&mut self, alloc: Global) -> Result<Happening, AllocError>
        ensures follows { IfOk result (λ h. FollowsPlayed self.old to_poll (happened h) self.new) }
        ensures in_range { IfOk result (λ h. IsTrue (is_short h)) }
        ensures memory { OnErr result (self.old.state ≡ State.Running) }
        ensures kept { OnErr result (self.new ≡ self.old) }
    {
        self.to_poll(alloc)
    }

    fn set_breakpoints(
        &mut self,
        alloc: Global,
        source: &SourceKey,
        lines: &[u32],
    ) -> Result<(), AllocError>
        ensures follows { OnOk result (FollowsPlayed self.old (to_set_breakpoints source.now lines.now) done self.new) }
        ensures memory { OnErr result (self.new ≡ self.old) }
        ensures some { OnErr result (0 < length lines.now) }
    {
        self.to_set(alloc, source, lines)
    }

    fn assign(
        &mut self,
        alloc: Global,
        holder: u64,
        name: &str,
        text: &str,
    ) -> Result<(), AllocError>
        requires { IsSome ((shown_of self.old).assigned holder name.now text.now) }
        ensures follows { OnOk result (FollowsPlayed self.old (to_assign holder name.now text.now) done self.new) }
        ensures memory { OnErr result (self.new ≡ self.old) }
    {
        self.to_assign(alloc, holder, name, text)
    }

    fn end(&mut self) {
        self.to_end()
    }

    fn threads(&self, alloc: Global) -> Result<Vec<Thread>, AllocError> {
        self.is_recording();
        self.all_threads(alloc)
    }

    fn frames(&self, alloc: Global, thread: i64) -> Result<Vec<Frame>, DebuggeeFault>
        ensures frames { AnswersQuery result (λ frames. frames.items) ((shown_of self.now).frames thread) }
        ensures in_range { FramesInRange (shown_of self.now) }
        ensures one_name { NamesOneFrame (shown_of self.now) }
        ensures memory { IsErrOf result DebuggeeFault.OutOfMemory → IsSome ((shown_of self.now).frames thread) }
    {
        self.is_recording();
        self.frames_of(alloc, thread)
    }

    fn scopes(&self, alloc: Global, frame: u64) -> Result<Vec<Scope>, DebuggeeFault>
        ensures told { AnswersQuery result (λ scopes. scopes.items) ((shown_of self.now).scopes frame) }
        ensures memory { IsErrOf result DebuggeeFault.OutOfMemory → IsSome ((shown_of self.now).scopes frame) }
    {
        self.scopes_of(alloc, frame)
    }

    fn children(
        &self,
        alloc: Global,
        holder: u64,
        start: u32,
        count: u32,
    ) -> Result<Vec<Variable>, DebuggeeFault>
        ensures told { AnswersQuery result (λ children. children.items) (option_map (window start count) ((shown_of self.now).children holder)) }
        ensures memory { IsErrOf result DebuggeeFault.OutOfMemory → IsSome ((shown_of self.now).children holder) }
    {
        self.children_of(alloc, holder, start, count)
    }

    fn evaluate(
        &self,
        _alloc: Global,
        frame: Option<u64>,
        text: &str,
    ) -> Result<Evaluation, DebuggeeFault>
        ensures told { AnswersQuery result (λ value. value) ((shown_of self.now).evaluate frame text.now) }
        ensures memory { IsErrOf result DebuggeeFault.OutOfMemory → IsSome ((shown_of self.now).evaluate frame text.now) }
    {
        self.value_of(frame, text)
    }

    fn assigned(
        &self,
        alloc: Global,
        holder: u64,
        name: &str,
        text: &str,
    ) -> Result<Assigned, DebuggeeFault>
        ensures told { AnswersQuery result (λ assigned. assigned) ((shown_of self.now).assigned holder name.now text.now) }
        ensures memory { IsErrOf result DebuggeeFault.OutOfMemory → IsSome ((shown_of self.now).assigned holder name.now text.now) }
    {
        self.assigned_of(alloc, holder, name, text)
    }

    fn sources(&self, alloc: Global) -> Result<Vec<Source>, AllocError> {
        self.is_recording();
        self.recording.sources.all(alloc)
    }

    fn source(&self, _alloc: Global, index: u32) -> Result<Source, DebuggeeFault>
        ensures source { AnswersQuery result (λ source. source) (slice_get (shown_of self.now).sources index) }
        ensures in_range { SourcesInRange (shown_of self.now) }
        ensures memory { IsErrOf result DebuggeeFault.OutOfMemory → IsSome (slice_get (shown_of self.now).sources index) }
    {
        self.is_recording();
        self.recording.sources.source(index)
    }

    fn content(&self, _alloc: Global, index: u32) -> Result<Text, DebuggeeFault>
        ensures told { AnswersQuery result (λ text. text) ((shown_of self.now).content index) }
        ensures memory { IsErrOf result DebuggeeFault.OutOfMemory → IsSome ((shown_of self.now).content index) }
    {
        self.recording.sources.content(index)
    }

    fn verify(
        &self,
        alloc: Global,
        source: &SourceKey,
        lines: &[u32],
    ) -> Result<Vec<Placement>, DebuggeeFault> {
        Ok(self.recording.sources.verify(alloc, source, lines)?)
    }

    /// A recording does not say why.
    fn why(
        &self,
        _alloc: Global,
        _query: RefusedQuery<'_>,
    ) -> Result<Option<Explanation>, AllocError> {
        Ok(None)
    }

    ghost counts = { counts-played };

    ghost remembers = { remembers-played };

    ghost answers = { answers-played };

    ghost moves = { moves-played };

    ghost sets_lines = { sets_lines-played };

    ghost sets_values = { sets_values-played };

    ghost keeps_answers = { keeps_answers-played };

    ghost keeps_frames = { keeps_frames-played };

    ghost keeps_sources = { keeps_sources-played };

    ghost no_threads = { no_threads-played };

    ghost verifies_each = { verifies_each-played };

    ghost assigns_variables = { assigns_variables-played };
}
