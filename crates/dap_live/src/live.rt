//! The debuggee: what it does when it is asked, and what it tells.
ghost use Rattle.std.specs.Prelude.{◌≡◌, ◌≤◌, ◌+◌, ◌↔◌, IfOk, IsTrue, Some, None, length, if◌then◌else◌};
ghost use Rattle.dap_debuggee.specs.Laws.{state_after};
ghost use Rattle.dap_debuggee.specs.Shown.{to_poll, happened};
ghost use Rattle.dap_live.specs.Dropping.{why_no_room, why_too_wide};
ghost use Rattle.dap_live.specs.declared.mail.Dropped.{Dropped};
ghost use Rattle.dap_live.specs.PrivateHeld.{asked_of_act};

use crate::dropping::why_dropped;
use crate::held::{Heard, Learned, Live, LiveLast};
use crate::here::Here;
use crate::mail::{Coming, Dropped, HostAct, Mail};
use crate::placing::copied as copied_placements;
use dap_command::SourceKey;
use dap_debuggee::{
    ActFault, Asked, Assigned, Debuggee, DebuggeeFault, Evaluation, Explanation, Frame, Happening,
    HasMail, How, Placement, RefusedQuery, Scope, Source, State, Thread, Variable,
};
use dap_json::{List, More, Text};
use dap_recording::variables::{self, HolderMap};
use dap_recording::{Snapshot, Sources};
use std::alloc::{AllocError, Global};

fn copied(happening: &Happening) -> Result<Happening, AllocError>
    ensures { IfOk result (λ copy. copy ≡ happening.now) }
{
    match happening {
        Happening::Nothing => Ok(Happening::Nothing),
        Happening::Output {
            category,
            text,
            more,
        } => Ok(Happening::Output {
            category: category.clone()?,
            text: text.clone()?,
            more: more.clone()?,
        }),
        Happening::Stopped {
            reason,
            thread,
            more,
        } => Ok(Happening::Stopped {
            reason: reason.clone()?,
            thread: *thread,
            more: more.clone()?,
        }),
        Happening::Continued { thread } => Ok(Happening::Continued { thread: *thread }),
        Happening::Exited { code } => Ok(Happening::Exited { code: *code }),
    }
}

/// What is said beside the value of a text.
fn said_beside(learned: &Learned) -> Result<Option<More>, AllocError>
    ensures { IfOk result (λ said. said ≡ learned.now.more) }
{
    match &learned.more {
        None => Ok(None),
        Some(more) => Ok(Some(more.clone()?)),
    }
}

/// How an act is remembered.
fn asked_of(act: &HostAct) -> Asked
    ensures { result ≡ asked_of_act act.now }
{
    match act {
        HostAct::Start => Asked::Start,
        HostAct::Resume { how, thread } => Asked::Resume {
            how: *how,
            thread: *thread,
        },
        HostAct::Pause => Asked::Pause,
        HostAct::SetBreakpoints { .. } => Asked::SetBreakpoints,
        HostAct::Assign { .. } => Asked::Assign,
        HostAct::End => Asked::End,
    }
}

/// Where a debuggee is once that has happened.
fn next(state: State, happening: &Happening) -> State
    ensures { result ≡ state_after state to_poll (happened happening.now) }
{
    match happening {
        Happening::Nothing | Happening::Output { .. } => state,
        Happening::Stopped { .. } => State::Stopped,
        Happening::Continued { .. } => State::Running,
        Happening::Exited { .. } => State::Gone,
    }
}

/// Whether a moment was read over no more sources than there are.
fn has_few_sources(sources: &Sources, shows: &Snapshot) -> bool
    ensures few { IsTrue result ↔ shows.now.sources ≤ length sources.now }
    ensures wide { why_too_wide shows.now sources.now ≡ (if result then None else Some Dropped.TooManySources) }
{
    shows.source_count() <= sources.len()
}

/// Whether there is room for sources behind those there are.
fn has_room(sources: &Sources, more: &Sources) -> bool
    ensures room { IsTrue result ↔ length sources.now + length more.now ≤ 65536 }
    ensures none { why_no_room more.now sources.now ≡ (if result then None else Some Dropped.TooManySources) }
{
    sources.has_room(more)
}

impl Live {
    ghost use Rattle.std.specs.Prelude.{◌≡◌, ◌≤◌, ◌+◌, ◌++◌, length, Some, None, OnOk, OnErr, IfOk, option_and_then, option_map};
    ghost use Rattle.std.specs.Option.{IsSome};
    ghost use Rattle.dap_debuggee.specs.Laws.{is_short};
    ghost use Rattle.dap_debuggee.specs.Shown.{to_set_breakpoints, to_assign, done};
    ghost use Rattle.dap_debuggee.specs.declared.answers.Happening.{Happening};
    ghost use Rattle.dap_live.specs.declared.mail.Coming.{Coming};
    ghost use Rattle.dap_live.specs.declared.mail.HostAct.{HostAct};
    ghost use Rattle.dap_debuggee.specs.declared.explanation.ActFault.{ActFault};
    ghost use Rattle.dap_live.specs.declared.held.LiveLast.{LiveLast};
    ghost use Rattle.dap_live.specs.Dropping.{why_untold};
    ghost use Rattle.dap_live.specs.Hearing.{with_told};
    ghost use Rattle.dap_live.specs.LiveLaws.{FollowsLive, noted, assigned_for, variables_set};
    ghost use Rattle.dap_live.specs.LiveShown.{shown_live, IsFew, now_shown, children_in, told_of, with_mail};
    ghost use Rattle.dap_live.specs.MailState.{with_act};
    ghost use Rattle.dap_live.specs.PrivateHeld.{last_of, done_by, with_here, with_sources, with_learned};
    ghost use Rattle.dap_live.specs.PrivateHearing.{polled, dropped_so, heard_in, after_happening, heard_of, after_hearing};

    /// Counts and remembers an act.
    fn note(&mut self, last: LiveLast)
        ensures { self.new ≡ noted (last_of last) self.old }
    {
        self.acts = self.acts.wrapping_add(1);
        self.last = Some(last);
    }

    /// What is shown has no more sources than there are. There is nothing to run.
    #[inline(always)]
    fn has_few_shown(&self)
        ensures { IsFew self.now.sources self.now.here }
    {
        let _ = &self.sources;
    }

    /// What is shown now.
    fn shown_now(&self) -> Option<&Here>
        ensures { option_map (λ here. here.now) result ≡ now_shown self.now.state self.now.here }
    {
        match self.state {
            State::NotStarted | State::Gone => None,
            State::Running | State::Stopped => match &self.here {
                None => None,
                Some(here) => Some(here),
            },
        }
    }

    /// The variables of a holder that are shown.
    fn children_at(&self, holder: u64) -> Option<&[Variable]>
        ensures { option_map (λ v. v.now) result ≡ children_in (now_shown self.now.state self.now.here) holder }
    {
        self.shown_now()?.children_at(holder)
    }

    /// Why variables of a holder are not heard.
    fn why_untold(&self, holder: u64) -> Option<Dropped>
        ensures { result ≡ why_untold (now_shown self.now.state self.now.here) holder }
    {
        match self.shown_now() {
            None => Some(Dropped::OutOfTurn),
            Some(here) => here.why_untold(holder),
        }
    }

    /// What the host told of a text.
    fn told(&self, text: &str) -> Option<&Learned>
        ensures { option_map (λ l. l.now) result ≡ told_of self.now.learned text.now }
    {
        match &self.learned {
            Some(learned) if text == learned.text.as_str() => Some(learned),
            _ => None,
        }
    }

    /// Why a text has no value, where the host told that.
    fn why_no_value(&self, text: &str) -> Result<Option<Explanation>, AllocError>
        ensures { IfOk result (λ why. why ≡ option_and_then (λ l. l.why) (told_of self.now.learned text.now)) }
    {
        let Some(told) = self.told(text) else {
            return Ok(None);
        };
        match &told.why {
            None => Ok(None),
            Some(why) => Ok(Some(why.clone()?)),
        }
    }

    /// What a variable gets by a text, where it gets something.
    fn assigned_to(
        &self,
        holder: u64,
        name: &str,
        text: &str,
    ) -> Result<Option<Assigned>, AllocError>
        ensures { IfOk result (λ assigned. assigned ≡ (shown_live self.now).assigned holder name.now text.now) }
    {
        let Some(learned) = self.told(text) else {
            return Ok(None);
        };
        let Some(value) = &learned.value else {
            return Ok(None);
        };
        let Some(variables) = self.children_at(holder) else {
            return Ok(None);
        };
        let Some(variable) = variables::named(variables, name) else {
            return Ok(None);
        };
        let said = said_beside(learned)?;
        let assigned = variables::assigned_to(variable, value.clone()?, said)?;
        Ok(Some(assigned))
    }

    /// Nothing happened, and the host may have told what a text comes to.
    fn see_nothing(&mut self, learned: Option<Learned>) -> Heard
        ensures heard { result ≡ record { happening = Happening.Nothing; dropped = None } }
        ensures view { self.new ≡ polled Happening.Nothing (with_learned learned self.old) }
    {
        self.learned = learned;
        self.note(LiveLast::Polled(Happening::Nothing));
        Heard {
            happening: Happening::Nothing,
            dropped: None,
        }
    }

    /// Nothing happened, since what the host says is dropped.
    fn drop_it(&mut self, why: Dropped) -> Heard
        ensures dropped { result ≡ dropped_so why }
        ensures view { self.new ≡ polled Happening.Nothing (with_learned None self.old) }
    {
        let _ = self.see_nothing(None);
        Heard {
            happening: Happening::Nothing,
            dropped: Some(why),
        }
    }

    /// Tells what the host says, or nothing where that is dropped. It is no stop.
    fn see(&mut self, happening: Happening) -> Result<Heard, AllocError>
        ensures heard { IfOk result (λ h. h ≡ heard_in self.old happening) }
        ensures view { OnOk result (self.new ≡ after_happening happening self.old) }
        ensures memory { OnErr result (self.new ≡ self.old) }
        ensures in_range { IfOk result (λ h. IsTrue (is_short h.happening)) }
    {
        if let Some(why) = why_dropped(self.state, &happening) {
            return Ok(self.drop_it(why));
        }
        let copy = copied(&happening)?;
        self.state = next(self.state, &happening);
        self.learned = None;
        self.note(LiveLast::Polled(copy));
        Ok(Heard {
            happening,
            dropped: None,
        })
    }

    /// Tells a stop, and shows where, and whether more is told later; or nothing where that is dropped.
    fn stop(
        &mut self,
        alloc: Global,
        reason: Text,
        thread: i64,
        more: More,
        shows: Snapshot,
        later: bool,
    ) -> Result<Heard, AllocError>
        ensures heard { IfOk result (λ h. h ≡ heard_of (Some (Coming.Stopped reason thread shows later more)) self.old) }
        ensures view { OnOk result (self.new ≡ after_hearing (Some (Coming.Stopped reason thread shows later more)) self.old) }
        ensures memory { OnErr result (self.new ≡ self.old) }
        ensures in_range { IfOk result (λ h. IsTrue (is_short h.happening)) }
    {
        let happening = Happening::Stopped {
            reason,
            thread,
            more,
        };
        if let Some(why) = why_dropped(self.state, &happening) {
            return Ok(self.drop_it(why));
        }
        if !has_few_sources(&self.sources, &shows) {
            return Ok(self.drop_it(Dropped::TooManySources));
        }
        let copy = copied(&happening)?;
        self.state = State::Stopped;
        self.here = Some(Here {
            moment: shows,
            later,
            told: HolderMap::new(alloc),
        });
        self.learned = None;
        self.note(LiveLast::Polled(copy));
        Ok(Heard {
            happening,
            dropped: None,
        })
    }

    /// Puts sources behind those there are.
    #[tactic(auto, using(crate::proofs::Shows::few_more))]
    fn put_sources(&mut self, alloc: Global, more: Sources) -> Result<(), AllocError>
        requires { length self.old.sources + length more ≤ 65536 }
        ensures put { OnOk result (self.new ≡ with_sources (self.old.sources ++ more) self.old) }
        ensures memory { OnErr result (self.new ≡ self.old) }
    {
        self.sources = self.sources.with(alloc, &more)?;
        Ok(())
    }

    /// Tells nothing, and has more sources, unless they are dropped.
    fn see_sources(&mut self, alloc: Global, more: Sources) -> Result<Heard, AllocError>
        ensures heard { IfOk result (λ h. h ≡ heard_of (Some (Coming.Sources more)) self.old) }
        ensures view { OnOk result (self.new ≡ after_hearing (Some (Coming.Sources more)) self.old) }
        ensures memory { OnErr result (self.new ≡ self.old) }
    {
        if !has_room(&self.sources, &more) {
            return Ok(self.drop_it(Dropped::TooManySources));
        }
        self.put_sources(alloc, more)?;
        Ok(self.see_nothing(None))
    }

    /// Puts variables of a holder before what the moment has.
    fn put_told(&mut self, holder: u64, variables: Vec<Variable>) -> Result<(), AllocError>
        ensures put { OnOk result (self.new ≡ with_here (with_told holder variables.items self.old.here) self.old) }
        ensures memory { OnErr result (self.new ≡ self.old) }
    {
        match &mut self.here {
            None => Ok(()),
            Some(here) => here.told.put(holder, variables),
        }
    }

    /// Tells nothing, and shows the variables of a holder, unless they are dropped.
    fn see_variables(&mut self, holder: u64, variables: List<Variable>) -> Result<Heard, AllocError>
        ensures heard { IfOk result (λ h. h ≡ heard_of (Some (Coming.Variables holder variables)) self.old) }
        ensures view { OnOk result (self.new ≡ after_hearing (Some (Coming.Variables holder variables)) self.old) }
        ensures memory { OnErr result (self.new ≡ self.old) }
    {
        if let Some(why) = self.why_untold(holder) {
            return Ok(self.drop_it(why));
        }
        self.put_told(holder, variables.into_vec())?;
        Ok(self.see_nothing(None))
    }

    /// Hears what the host said, if it said something.
    fn hear(&mut self, alloc: Global, coming: Option<Coming>) -> Result<Heard, AllocError>
        ensures heard { IfOk result (λ h. h ≡ heard_of coming self.old) }
        ensures view { OnOk result (self.new ≡ after_hearing coming self.old) }
        ensures memory { OnErr result (self.new ≡ self.old) }
        ensures in_range { IfOk result (λ h. IsTrue (is_short h.happening)) }
    {
        let Some(coming) = coming else {
            return Ok(self.see_nothing(None));
        };
        match coming {
            Coming::Learned {
                text,
                value,
                holder,
                more,
            } => Ok(self.see_nothing(Some(Learned {
                text,
                value,
                holder,
                more,
                why: None,
            }))),
            Coming::NoValue { text, why } => Ok(self.see_nothing(Some(Learned {
                text,
                value: None,
                holder: None,
                more: None,
                why: Some(why),
            }))),
            Coming::Variables { holder, variables } => self.see_variables(holder, variables),
            Coming::Sources(more) => self.see_sources(alloc, more),
            Coming::Output {
                category,
                text,
                more,
            } => self.see(Happening::Output {
                category,
                text,
                more,
            }),
            Coming::Stopped {
                reason,
                thread,
                shows,
                later,
                more,
            } => self.stop(alloc, reason, thread, more, shows, later),
            Coming::Continued { thread } => self.see(Happening::Continued { thread }),
            Coming::Exited { code } => self.see(Happening::Exited { code }),
        }
    }

    /// Refuses an act, and notes it.
    fn refuse(&mut self, asked: Asked, why: Option<Explanation>) -> ActFault
        ensures fault { result ≡ ActFault.Refused why }
        ensures view { self.new ≡ noted (last_of (LiveLast.Refused asked)) self.old }
    {
        self.note(LiveLast::Refused(asked));
        ActFault::Refused(why)
    }

    /// Asks the host for an act that takes no more than that, and notes it.
    fn ask(&mut self, act: HostAct) -> Result<(), AllocError>
        ensures asked { OnOk result (self.new ≡ noted (done_by act) (with_mail (with_act act self.old.mail) self.old)) }
        ensures memory { OnErr result (self.new ≡ self.old) }
    {
        let asked = asked_of(&act);
        self.mail.ask(act)?;
        self.note(LiveLast::Done(asked));
        Ok(())
    }

    /// Puts lines in place of those of a source.
    fn put_lines(
        &mut self,
        alloc: Global,
        source: &SourceKey,
        lines: &[u32],
    ) -> Result<(), AllocError>
        ensures { OnOk result (FollowsLive self.old (to_set_breakpoints source.now lines.now) done self.new) }
    {
        let act = HostAct::SetBreakpoints {
            source: source.clone()?,
            lines: List::new(lines.to_vec(alloc)?),
        };
        self.set.put(source.clone()?, lines.to_vec(alloc)?)?;
        self.ask(act)
    }

    /// The act that sets a variable to what it gets by a text, and what its holder has then.
    fn act_and_variables(
        &self,
        alloc: Global,
        holder: u64,
        name: &str,
        text: &str,
    ) -> Result<(HostAct, Vec<Variable>), AllocError>
        requires { IsSome ((shown_live self.now).assigned holder name.now text.now) }
        ensures act { IfOk result (λ set. set.0 ≡ HostAct.Assign holder name.now (assigned_for holder name.now text.now self.now).value) }
        ensures changed { IfOk result (λ set. set.1.items ≡ variables_set holder name.now text.now self.now) }
    {
        let Some(assigned) = self.assigned_to(holder, name, text)? else {
            unreachable!()
        };
        let Some(variables) = self.children_at(holder) else {
            unreachable!()
        };
        let act = HostAct::Assign {
            holder,
            name: Text::copied(alloc, name)?,
            value: assigned.value.clone()?,
        };
        let changed = variables::with_assigned(alloc, variables, name, &assigned)?;
        Ok((act, changed))
    }

    /// Sets a variable to what it gets by a text.
    fn set_value(
        &mut self,
        alloc: Global,
        holder: u64,
        name: &str,
        text: &str,
    ) -> Result<(), AllocError>
        requires { IsSome ((shown_live self.old).assigned holder name.now text.now) }
        ensures follows { OnOk result (FollowsLive self.old (to_assign holder name.now text.now) done self.new) }
        ensures memory { OnErr result (self.new ≡ self.old) }
    {
        let (act, changed) = self.act_and_variables(alloc, holder, name, text)?;
        self.mail.ask(act)?;
        match self.put_told(holder, changed) {
            Ok(()) => {
                self.note(LiveLast::Done(Asked::Assign));
                Ok(())
            }
            Err(refused) => {
                self.mail.take_back();
                Err(refused)
            }
        }
    }
}

impl Debuggee for Live {
    ghost use Rattle.std.specs.Prelude.{◌≡◌, IfOk, OnErr, IsTrue};
    ghost use Rattle.dap_debuggee.specs.Laws.{is_short};
    ghost use Rattle.dap_debuggee.specs.Shown.{to_poll, happened};
    ghost use Rattle.dap_live.specs.LiveShown.{shown_live, with_mail};
    ghost use Rattle.dap_live.specs.MailState.{without_coming};
    ghost use Rattle.dap_live.specs.LiveLaws.{FollowsLive, counts-live, remembers-live, answers-live, moves-live, sets_lines-live, sets_values-live, keeps_answers-live, keeps_frames-live, keeps_sources-live, no_threads-live, verifies_each-live, assigns_variables-live};

    ghost shown = { shown_live };

    ghost follows = { FollowsLive };

    fn start(&mut self, _alloc: Global) -> Result<(), ActFault> {
        match self.state {
            State::NotStarted => match self.mail.refusal()? {
                None => {
                    self.ask(HostAct::Start)?;
                    self.state = State::Running;
                    Ok(())
                }
                why => Err(self.refuse(Asked::Start, why)),
            },
            State::Running | State::Stopped | State::Gone => Err(self.refuse(Asked::Start, None)),
        }
    }

    fn resume(&mut self, _alloc: Global, how: How, thread: i64) -> Result<(), ActFault> {
        match self.state {
            State::Stopped => match self.mail.refusal()? {
                None => {
                    self.ask(HostAct::Resume { how, thread })?;
                    self.state = State::Running;
                    Ok(())
                }
                why => Err(self.refuse(Asked::Resume { how, thread }, why)),
            },
            State::NotStarted | State::Running | State::Gone => {
                Err(self.refuse(Asked::Resume { how, thread }, None))
            }
        }
    }

    fn pause(&mut self, _alloc: Global) -> Result<(), ActFault> {
        match self.state {
            State::Running => match self.mail.refusal()? {
                None => {
                    self.ask(HostAct::Pause)?;
                    Ok(())
                }
                why => Err(self.refuse(Asked::Pause, why)),
            },
            State::NotStarted | State::Stopped | State::Gone => {
                Err(self.refuse(Asked::Pause, None))
            }
        }
    }

    /// What the host said last, just that, or nothing where that is dropped; the mail says why then.
    ///
    /// # Errors
    /// `AllocError` where memory is refused. What the host said is lost then, and all else is as it was.
    fn poll(&mut self, alloc: Global) -> Result<Happening, AllocError>
        ensures follows { IfOk result (λ h. FollowsLive self.old to_poll (happened h) self.new) }
        ensures in_range { IfOk result (λ h. IsTrue (is_short h)) }
        ensures memory { OnErr result (self.new ≡ with_mail (without_coming self.old.mail) self.old) }
    {
        let coming = self.mail.take_coming();
        let heard = self.hear(alloc, coming)?;
        self.mail.set_dropped(heard.dropped);
        Ok(heard.happening)
    }

    fn set_breakpoints(
        &mut self,
        alloc: Global,
        source: &SourceKey,
        lines: &[u32],
    ) -> Result<(), AllocError> {
        self.put_lines(alloc, source, lines)
    }

    fn assign(
        &mut self,
        alloc: Global,
        holder: u64,
        name: &str,
        text: &str,
    ) -> Result<(), AllocError> {
        self.set_value(alloc, holder, name, text)
    }

    fn end(&mut self) {
        self.mail.ask_end();
        self.state = State::Gone;
        self.note(LiveLast::Done(Asked::End));
    }

    fn threads(&self, alloc: Global) -> Result<Vec<Thread>, AllocError> {
        match self.shown_now() {
            None => Ok(Vec::new(alloc)),
            Some(here) => here.moment.threads(alloc),
        }
    }

    fn frames(&self, alloc: Global, thread: i64) -> Result<Vec<Frame>, DebuggeeFault> {
        self.has_few_shown();
        match self.shown_now() {
            None => Err(DebuggeeFault::Refused),
            Some(here) => here.moment.frames(alloc, thread),
        }
    }

    fn scopes(&self, alloc: Global, frame: u64) -> Result<Vec<Scope>, DebuggeeFault> {
        match self.shown_now() {
            None => Err(DebuggeeFault::Refused),
            Some(here) => here.moment.scopes(alloc, frame),
        }
    }

    fn children(
        &self,
        alloc: Global,
        holder: u64,
        start: u32,
        count: u32,
    ) -> Result<Vec<Variable>, DebuggeeFault> {
        match self.children_at(holder) {
            None => Err(DebuggeeFault::Refused),
            Some(found) => Ok(variables::copied(
                alloc,
                variables::window(found, start as usize, count as usize),
            )?),
        }
    }

    fn evaluate(
        &self,
        _alloc: Global,
        frame: Option<u64>,
        text: &str,
    ) -> Result<Evaluation, DebuggeeFault> {
        if let Some(learned) = self.told(text) {
            return match &learned.value {
                None => Err(DebuggeeFault::Refused),
                Some(value) => Ok(Evaluation {
                    value: value.clone()?,
                    holder: learned.holder,
                    more: said_beside(learned)?.unwrap_or(More::none()),
                }),
            };
        }
        match self.shown_now() {
            None => Err(DebuggeeFault::Refused),
            Some(here) => here.evaluate(frame, text),
        }
    }

    fn assigned(
        &self,
        _alloc: Global,
        holder: u64,
        name: &str,
        text: &str,
    ) -> Result<Assigned, DebuggeeFault> {
        match self.assigned_to(holder, name, text)? {
            None => Err(DebuggeeFault::Refused),
            Some(assigned) => Ok(assigned),
        }
    }

    #[tactic(auto, using(crate::proofs::Shows::sources_in_range))]
    fn sources(&self, alloc: Global) -> Result<Vec<Source>, AllocError> {
        self.sources.are_few();
        self.sources.all(alloc)
    }

    #[tactic(auto, using(crate::proofs::Shows::sources_in_range))]
    fn source(&self, _alloc: Global, index: u32) -> Result<Source, DebuggeeFault> {
        self.sources.are_few();
        self.sources.source(index)
    }

    fn content(&self, _alloc: Global, index: u32) -> Result<Text, DebuggeeFault> {
        self.sources.content(index)
    }

    fn verify(
        &self,
        alloc: Global,
        source: &SourceKey,
        lines: &[u32],
    ) -> Result<Vec<Placement>, DebuggeeFault> {
        match self.mail.placed_at(source, lines) {
            Some(placed) => Ok(copied_placements(alloc, placed.placements.as_slice())?),
            None => Ok(self.sources.verify(alloc, source, lines)?),
        }
    }

    fn why(
        &self,
        _alloc: Global,
        query: RefusedQuery<'_>,
    ) -> Result<Option<Explanation>, AllocError> {
        match query {
            RefusedQuery::Evaluate { text, .. } => self.why_no_value(text),
            RefusedQuery::Assigned { text, .. } => self.why_no_value(text),
            _ => Ok(None),
        }
    }

    ghost counts = { counts-live };

    ghost remembers = { remembers-live };

    ghost answers = { answers-live };

    ghost moves = { moves-live };

    ghost sets_lines = { sets_lines-live };

    ghost sets_values = { sets_values-live };

    ghost keeps_answers = { keeps_answers-live };

    ghost keeps_frames = { keeps_frames-live };

    ghost keeps_sources = { keeps_sources-live };

    ghost no_threads = { no_threads-live };

    ghost verifies_each = { verifies_each-live };

    ghost assigns_variables = { assigns_variables-live };
}

impl HasMail for Live {
    type Mail = Mail;

    ghost use Rattle.std.specs.Prelude.{refl};
    ghost use Rattle.dap_live.specs.LiveShown.{with_mail as with_mail_in};

    ghost mail = { λ v. v.mail };

    ghost with_mail = { with_mail_in };

    fn exchange(&mut self, given: Mail) -> Mail {
        std::mem::replace(&mut self.mail, given)
    }

    ghost shows_the_same = { λ _ _. refl };

    ghost has_what_was_put = { λ _ _. refl };
}
