//! The debugger: what it does when it is asked, and what it shows.

use crate::call::{Call, Local};
use crate::news::{LastAct, News, Reason};
use crate::program::{NO_VARIABLE, NO_WAY_BACK, PATH, TEXT};
use crate::{call, queries};
use dap_command::SourceKey;
use dap_debuggee::{
    ActFault, Asked, Assigned, Debuggee, DebuggeeFault, Evaluation, Explanation, Frame, Happening,
    How, Placement, RefusedQuery, Scope, Source, State, Thread, Variable,
};
use dap_json::Text;
use dap_tables::SourceMap;
use std::alloc::{AllocError, Global};
use std::marker::Model;

/// A poll runs at most so many instructions.
const BUDGET: u32 = 1000;

/// How far the program is to run.
#[derive(Clone, Copy)]
struct Run {
    /// It stops where there are at most so many calls.
    until: usize,
    /// Whether it has moved since it stopped.
    moved: bool,
    /// Whether it was asked to stop.
    pausing: bool,
}

/// A debugger with the program that it debugs.
#[derive(Drop)]
pub(crate) struct Toy {
    state: State,
    /// The calls that have not returned, the newest first.
    stack: Vec<Call>,
    run: Run,
    /// The lines that are set.
    set: SourceMap<u32>,
    acts: u64,
    last: Option<LastAct>,
}

impl Model for Toy {
    ghost use Rattle.std.specs.Coded.{codes};
    ghost use Rattle.dap_json.specs.Stored.{coded_data};
    ghost use Rattle.std.specs.Prelude.{option_map};
    ghost use Rattle.my_debugger.specs.ToyShown.{ToyState};
    ghost use Rattle.my_debugger.specs.ToyActs.{last_of};

    ghost Value = { ToyState };

    ghost coded = { Prim.hlevel (codes, coded_data) };

    ghost view = { λ t. record {
      state = t.state;
      stack = t.stack.items;
      set = t.set;
      acts = t.acts;
      last = option_map last_of t.last;
    } };
}

/// At how many calls a program stops that goes on so from a stop with `calls` of them; `None` where it can't.
fn until(how: How, calls: usize) -> Option<usize> {
    match how {
        How::Continue => Some(0),
        How::StepIn => Some(usize::MAX),
        How::Next => Some(calls),
        How::StepOut => Some(calls.saturating_sub(1)),
        How::StepBack | How::ReverseContinue => None,
    }
}

impl Toy {
    ghost use Rattle.std.specs.Prelude.{◌≡◌, IfOk, IsTrue, option_map};
    ghost use Rattle.dap_debuggee.specs.Shown.{to_resume, to_poll, happened};
    ghost use Rattle.dap_debuggee.specs.Laws.{Replies, AnswersQuery, is_short};
    ghost use Rattle.my_debugger.specs.ToyShown.{fresh_toy, calls_in, locals_in, shown_toy};
    ghost use Rattle.my_debugger.specs.ToyActs.{HasRun, FollowsToy, last_of, noted};

    /// The program is not started.
    pub(crate) fn open(alloc: Global) -> Toy
        ensures { result ≡ fresh_toy }
    {
        Toy {
            state: State::NotStarted,
            stack: Vec::new(alloc),
            run: Run {
                until: 0,
                moved: true,
                pausing: false,
            },
            set: SourceMap::new(alloc),
            acts: 0,
            last: None,
        }
    }

    /// Counts and remembers an act.
    fn note(&mut self, last: LastAct)
        ensures { self.new ≡ noted (last_of last) self.old }
    {
        self.acts = self.acts.wrapping_add(1);
        self.last = Some(last);
    }

    /// Why the program is to stop where it is.
    fn reason_to_stop(&self) -> Option<Reason> {
        if self.run.pausing {
            return Some(Reason::Pause);
        }
        let call = self.stack.first()?;
        if !self.run.moved {
            return None;
        }
        if self.set.of_path(PATH).contains(&queries::line(call)) {
            return Some(Reason::Breakpoint);
        }
        if self.stack.len() <= self.run.until {
            return Some(Reason::Step);
        }
        None
    }

    /// Stops where that is due, else runs one instruction.
    fn go(&mut self, alloc: Global) -> Result<News, AllocError>
        ensures { IfOk result (λ news. HasRun self.old news self.new) }
    {
        if let Some(reason) = self.reason_to_stop() {
            self.state = State::Stopped;
            return Ok(News::Stopped(reason));
        }
        let news = call::step(alloc, &mut self.stack)?;
        self.run.moved = true;
        self.state = news.state();
        Ok(news)
    }

    /// Runs until there is something to tell, `BUDGET` instructions at most.
    fn run_on(&mut self, alloc: Global) -> Result<News, AllocError>
        requires { self.old.state ≡ State.Running }
        ensures { IfOk result (λ news. HasRun self.old news self.new) }
    {
        for _turn in 0..BUDGET {
            match self.go(alloc)? {
                News::Nothing => {}
                news => return Ok(news),
            }
        }
        Ok(News::Nothing)
    }

    /// Runs on, and tells what came of it.
    fn poll_running(&mut self, alloc: Global) -> Result<Happening, AllocError>
        requires { self.old.state ≡ State.Running }
        ensures follows { IfOk result (λ h. FollowsToy self.old to_poll (happened h) self.new) }
        ensures in_range { IfOk result (λ h. IsTrue (is_short h)) }
    {
        let news = self.run_on(alloc)?;
        let happening = news.happening(alloc)?;
        self.note(LastAct::Polled(news));
        Ok(happening)
    }

    /// Goes on from a stop, or refuses and says why.
    fn go_on(&mut self, alloc: Global, how: How, thread: i64) -> Result<(), ActFault>
        requires { self.old.state ≡ State.Stopped }
        ensures { Replies result (λ reply. FollowsToy self.old (to_resume how thread) reply self.new) }
    {
        match until(how, self.stack.len()) {
            None => {
                let text = Text::copied(alloc, NO_WAY_BACK)?;
                self.note(LastAct::Refused(Asked::Resume { how, thread }));
                Err(ActFault::Refused(Some(Explanation {
                    text,
                    show_user: true,
                })))
            }
            Some(until) => {
                self.run = Run {
                    until,
                    moved: false,
                    pausing: false,
                };
                self.state = State::Running;
                self.note(LastAct::Done(Asked::Resume { how, thread }));
                Ok(())
            }
        }
    }

    /// The calls that are shown: those of a stop.
    fn shown_now(&self) -> Option<&[Call]>
        ensures { option_map (λ stack. stack.now) result ≡ calls_in self.now.state self.now.stack }
    {
        match self.state {
            State::NotStarted | State::Running | State::Gone => None,
            State::Stopped => Some(self.stack.as_slice()),
        }
    }

    /// The variables of a call, in a stop.
    pub(crate) fn locals_of(&self, holder: u64) -> Option<&[Local]>
        ensures { option_map (λ locals. locals.now) result ≡ locals_in (calls_in self.now.state self.now.stack) holder }
    {
        let call = self.shown_now()?.get(holder as usize)?;
        Some(call.locals.as_slice())
    }

    /// The frames of a thread, in a stop.
    fn frames_of(&self, alloc: Global, thread: i64) -> Result<Vec<Frame>, DebuggeeFault>
        ensures { AnswersQuery result (λ frames. frames.items) ((shown_toy self.now).frames thread) }
    {
        if thread != 1 {
            return Err(DebuggeeFault::Refused);
        }
        match self.shown_now() {
            None => Err(DebuggeeFault::Refused),
            Some(stack) => Ok(queries::frames(alloc, stack)?),
        }
    }
}

impl Debuggee for Toy {
    ghost use Rattle.std.specs.Prelude.{OnOk, OnErr};
    ghost use Rattle.dap_debuggee.specs.Shown.{to_assign, done};
    ghost use Rattle.dap_debuggee.specs.Laws.{Stands};
    ghost use Rattle.my_debugger.specs.ToyShown.{shown_toy};
    ghost use Rattle.my_debugger.specs.ToyActs.{FollowsToy};
    ghost use Rattle.my_debugger.specs.ToyLaws.{counts-toy, remembers-toy, answers-toy, moves-toy, sets_lines-toy, sets_values-toy, keeps_answers-toy, keeps_frames-toy, keeps_sources-toy, no_threads-toy, verifies_each-toy, assigns_variables-toy};

    ghost shown = { shown_toy };

    ghost follows = { FollowsToy };

    fn start(&mut self, alloc: Global) -> Result<(), ActFault> {
        match self.state {
            State::NotStarted => {
                call::enter(alloc, &mut self.stack, "main", 0)?;
                self.state = State::Running;
                self.note(LastAct::Done(Asked::Start));
                Ok(())
            }
            State::Running | State::Stopped | State::Gone => {
                self.note(LastAct::Refused(Asked::Start));
                Err(ActFault::Refused(None))
            }
        }
    }

    fn resume(&mut self, alloc: Global, how: How, thread: i64) -> Result<(), ActFault> {
        match self.state {
            State::Stopped => self.go_on(alloc, how, thread),
            State::NotStarted | State::Running | State::Gone => {
                self.note(LastAct::Refused(Asked::Resume { how, thread }));
                Err(ActFault::Refused(None))
            }
        }
    }

    fn pause(&mut self, _alloc: Global) -> Result<(), ActFault> {
        match self.state {
            State::Running => {
                self.run.pausing = true;
                self.note(LastAct::Done(Asked::Pause));
                Ok(())
            }
            State::NotStarted | State::Stopped | State::Gone => {
                self.note(LastAct::Refused(Asked::Pause));
                Err(ActFault::Refused(None))
            }
        }
    }

    fn poll(&mut self, alloc: Global) -> Result<Happening, AllocError> {
        match self.state {
            State::Running => self.poll_running(alloc),
            State::NotStarted | State::Stopped | State::Gone => {
                self.note(LastAct::Polled(News::Nothing));
                Ok(Happening::Nothing)
            }
        }
    }

    fn set_breakpoints(
        &mut self,
        alloc: Global,
        source: &SourceKey,
        lines: &[u32],
    ) -> Result<(), AllocError> {
        self.set.put(source.clone()?, lines.to_vec(alloc)?)?;
        self.note(LastAct::Done(Asked::SetBreakpoints));
        Ok(())
    }

    // No value is ever set, so this is never asked. It asks nothing of its caller, since none could meet the trait's clause.
    fn assign(
        &mut self,
        _alloc: Global,
        _holder: u64,
        _name: &str,
        _text: &str,
    ) -> Result<(), AllocError>
        ensures follows { OnOk result (FollowsToy self.old (to_assign _holder _name.now _text.now) done self.new) }
        ensures memory { OnErr result (Stands (shown_toy self.old) (shown_toy self.new)) }
    {
        Err(AllocError)
    }

    fn end(&mut self) {
        self.state = State::Gone;
        self.note(LastAct::Done(Asked::End));
    }

    fn threads(&self, alloc: Global) -> Result<Vec<Thread>, AllocError> {
        match self.state {
            State::NotStarted | State::Gone => Ok(Vec::new(alloc)),
            State::Running | State::Stopped => queries::threads(alloc),
        }
    }

    fn frames(&self, alloc: Global, thread: i64) -> Result<Vec<Frame>, DebuggeeFault> {
        self.frames_of(alloc, thread)
    }

    fn scopes(&self, alloc: Global, frame: u64) -> Result<Vec<Scope>, DebuggeeFault> {
        let Some(stack) = self.shown_now() else {
            return Err(DebuggeeFault::Refused);
        };
        if frame < stack.len() as u64 {
            Ok(queries::scopes(alloc, frame)?)
        } else {
            Err(DebuggeeFault::Refused)
        }
    }

    fn children(
        &self,
        alloc: Global,
        holder: u64,
        start: u32,
        count: u32,
    ) -> Result<Vec<Variable>, DebuggeeFault> {
        match self.locals_of(holder) {
            None => Err(DebuggeeFault::Refused),
            Some(locals) => {
                let part = queries::window(locals, start as usize, count as usize);
                Ok(queries::variables(alloc, part)?)
            }
        }
    }

    fn evaluate(
        &self,
        alloc: Global,
        frame: Option<u64>,
        text: &str,
    ) -> Result<Evaluation, DebuggeeFault> {
        let Some(frame) = frame else {
            return Err(DebuggeeFault::Refused);
        };
        let Some(locals) = self.locals_of(frame) else {
            return Err(DebuggeeFault::Refused);
        };
        match queries::named(locals, text) {
            None => Err(DebuggeeFault::Refused),
            Some(local) => Ok(Evaluation {
                value: Text::new(local.value.to_string(alloc)?),
                holder: None,
                more: queries::of_its_type(alloc)?,
            }),
        }
    }

    fn assigned(
        &self,
        _alloc: Global,
        _holder: u64,
        _name: &str,
        _text: &str,
    ) -> Result<Assigned, DebuggeeFault> {
        Err(DebuggeeFault::Refused)
    }

    fn sources(&self, alloc: Global) -> Result<Vec<Source>, AllocError> {
        let mut sources = Vec::new(alloc);
        sources.push(queries::source(alloc)?)?;
        Ok(sources)
    }

    fn source(&self, alloc: Global, index: u32) -> Result<Source, DebuggeeFault> {
        match index {
            0 => Ok(queries::source(alloc)?),
            _ => Err(DebuggeeFault::Refused),
        }
    }

    fn content(&self, alloc: Global, index: u32) -> Result<Text, DebuggeeFault> {
        match index {
            0 => Ok(Text::copied(alloc, TEXT)?),
            _ => Err(DebuggeeFault::Refused),
        }
    }

    fn verify(
        &self,
        alloc: Global,
        source: &SourceKey,
        lines: &[u32],
    ) -> Result<Vec<Placement>, DebuggeeFault> {
        Ok(queries::verified(alloc, source, lines)?)
    }

    /// Of a text that has no value, that it is no variable; of the others it says nothing.
    fn why(
        &self,
        alloc: Global,
        query: RefusedQuery<'_>,
    ) -> Result<Option<Explanation>, AllocError> {
        match query {
            RefusedQuery::Evaluate { .. } => Ok(Some(Explanation {
                text: Text::copied(alloc, NO_VARIABLE)?,
                show_user: false,
            })),
            _ => Ok(None),
        }
    }

    ghost counts = { counts-toy };

    ghost remembers = { remembers-toy };

    ghost answers = { answers-toy };

    ghost moves = { moves-toy };

    ghost sets_lines = { sets_lines-toy };

    ghost sets_values = { sets_values-toy };

    ghost keeps_answers = { keeps_answers-toy };

    ghost keeps_frames = { keeps_frames-toy };

    ghost keeps_sources = { keeps_sources-toy };

    ghost no_threads = { no_threads-toy };

    ghost verifies_each = { verifies_each-toy };

    ghost assigns_variables = { assigns_variables-toy };
}
