//! What a recorded debuggee does when it is asked.

use crate::recorded::{Going, LastAsked, Recorded};
use dap_command::SourceKey;
use dap_debuggee::{ActFault, Asked, How, State};
use dap_json::Text;
use dap_recording::variables;
use std::alloc::{AllocError, Global};

impl Recorded {
    ghost use Rattle.std.specs.Prelude.{◌≡◌, ◌<◌, length, None, OnOk, OnErr, IsErrOf};
    ghost use Rattle.std.specs.Option.{IsSome};
    ghost use Rattle.dap_debuggee.specs.Shown.{to_start, to_resume, to_pause, to_set_breakpoints, to_assign, to_end, done};
    ghost use Rattle.dap_debuggee.specs.Laws.{Replies};
    ghost use Rattle.dap_replay.specs.Played.{FollowsPlayed, at_rest, with_source_lines, with_lines, after_assign, shown_of};
    ghost use Rattle.dap_replay.specs.PrivateHeld.{HasRun};

    pub(crate) fn to_start(&mut self) -> Result<(), ActFault>
        ensures follows { Replies result (λ reply. FollowsPlayed self.old to_start reply self.new) }
        ensures memory { IsErrOf result ActFault.OutOfMemory → ⊥ }
    {
        match self.state {
            State::NotStarted => {
                self.begin();
                self.note(LastAsked::Done(Asked::Start));
                Ok(())
            }
            State::Running | State::Stopped | State::Gone => {
                self.note(LastAsked::Refused(Asked::Start));
                Err(ActFault::Refused(None))
            }
        }
    }

    pub(crate) fn to_resume(&mut self, how: How, thread: i64) -> Result<(), ActFault>
        ensures follows { Replies result (λ reply. FollowsPlayed self.old (to_resume how thread) reply self.new) }
        ensures memory { IsErrOf result ActFault.OutOfMemory → ⊥ }
    {
        match self.state {
            State::Stopped => {
                self.go(how);
                self.note(LastAsked::Done(Asked::Resume { how, thread }));
                Ok(())
            }
            State::NotStarted | State::Running | State::Gone => {
                self.note(LastAsked::Refused(Asked::Resume { how, thread }));
                Err(ActFault::Refused(None))
            }
        }
    }

    pub(crate) fn to_pause(&mut self) -> Result<(), ActFault>
        ensures follows { Replies result (λ reply. FollowsPlayed self.old to_pause reply self.new) }
        ensures memory { IsErrOf result ActFault.OutOfMemory → ⊥ }
    {
        match self.state {
            State::Running => {
                if let Some(going) = self.going {
                    self.going = Some(Going {
                        paused: true,
                        ..going
                    });
                }
                self.note(LastAsked::Done(Asked::Pause));
                Ok(())
            }
            State::NotStarted | State::Stopped | State::Gone => {
                self.note(LastAsked::Refused(Asked::Pause));
                Err(ActFault::Refused(None))
            }
        }
    }

    /// Rests at a moment, or is gone.
    pub(crate) fn rest(&mut self, state: State, at: usize)
        requires within { at < length self.old.recording.moments }
        requires over { HasRun state None }
        ensures { self.new ≡ at_rest state at self.old }
    {
        self.state = state;
        self.at = at;
        self.going = None;
    }

    pub(crate) fn to_end(&mut self)
        ensures { FollowsPlayed self.old to_end done self.new }
    {
        self.rest(State::Gone, self.at);
        self.note(LastAsked::Done(Asked::End));
    }

    /// Puts lines in place of those of a source.
    fn put_lines(
        &mut self,
        alloc: Global,
        source: &SourceKey,
        lines: &[u32],
    ) -> Result<(), AllocError>
        ensures set { OnOk result (self.new ≡ with_lines (with_source_lines source.now lines.now self.old.set) self.old) }
        ensures memory { OnErr result (self.new ≡ self.old) }
        ensures some { OnErr result (0 < length lines.now) }
    {
        self.set.put(alloc, source, lines)
    }

    pub(crate) fn to_set(
        &mut self,
        alloc: Global,
        source: &SourceKey,
        lines: &[u32],
    ) -> Result<(), AllocError>
        ensures follows { OnOk result (FollowsPlayed self.old (to_set_breakpoints source.now lines.now) done self.new) }
        ensures memory { OnErr result (self.new ≡ self.old) }
        ensures some { OnErr result (0 < length lines.now) }
    {
        self.put_lines(alloc, source, lines)?;
        self.note(LastAsked::Done(Asked::SetBreakpoints));
        Ok(())
    }

    /// Sets a value on top of what is recorded.
    fn put_value(
        &mut self,
        alloc: Global,
        holder: u64,
        name: &str,
        text: &str,
    ) -> Result<(), AllocError>
        requires { IsSome ((shown_of self.old).assigned holder name.now text.now) }
        ensures set { OnOk result (self.new ≡ after_assign holder name.now text.now self.old) }
        ensures memory { OnErr result (self.new ≡ self.old) }
    {
        let Some(held) = self.variables_of(holder) else {
            unreachable!()
        };
        let Some(variable) = variables::named(held, name) else {
            unreachable!()
        };
        let assigned = variables::assigned_to(variable, Text::copied(alloc, text)?, None)?;
        let changed = variables::with_assigned(alloc, held, name, &assigned)?;
        self.changed.put(holder, changed)?;
        Ok(())
    }

    pub(crate) fn to_assign(
        &mut self,
        alloc: Global,
        holder: u64,
        name: &str,
        text: &str,
    ) -> Result<(), AllocError>
        requires { IsSome ((shown_of self.old).assigned holder name.now text.now) }
        ensures follows { OnOk result (FollowsPlayed self.old (to_assign holder name.now text.now) done self.new) }
        ensures memory { OnErr result (self.new ≡ self.old) }
    {
        self.put_value(alloc, holder, name, text)?;
        self.note(LastAsked::Done(Asked::Assign));
        Ok(())
    }
}
