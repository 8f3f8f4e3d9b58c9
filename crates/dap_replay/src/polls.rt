//! What a recorded debuggee gives when it is polled: output, then how the run ends.

ghost use Rattle.std.specs.Prelude.{◌≡◌};

use crate::recorded::{Going, LastAsked, LastPoll, Recorded};
use crate::{moves, run};
use dap_debuggee::{Category, Happening, State};
use dap_json::{More, Text};
use std::alloc::{AllocError, Global};

impl Recorded {
    ghost use Rattle.std.specs.Prelude.{◌≡◌, [], Some, IfOk, IsTrue, OnErr};
    ghost use Rattle.dap_debuggee.specs.Shown.{to_poll, happened};
    ghost use Rattle.dap_debuggee.specs.Laws.{is_short};
    ghost use Rattle.dap_replay.specs.PrivateHeld.{output_left, run_of, rest_of, IsOutputWhole};
    ghost use Rattle.dap_replay.specs.Played.{FollowsPlayed, with_ask, end_of_run};

    /// How a run ends whose output is all told: it is held, or stops, or exits.
    fn arrive(&mut self, alloc: Global, going: Going) -> Result<Happening, AllocError>
        requires whole { IsOutputWhole self.old.recording.moments (Some going) }
        requires told { output_left self.old.recording.moments going ≡ [] }
        ensures happened { IfOk result (λ h. h ≡ (end_of_run (rest_of going) self.old).0) }
        ensures view { IfOk result (λ h. self.new ≡ with_ask to_poll (happened h) (end_of_run (rest_of going) self.old).1) }
        ensures in_range { IfOk result (λ h. IsTrue (is_short h)) }
        ensures kept { OnErr result (self.new ≡ self.old) }
    {
        let to = going.to;
        if to.held && !going.paused {
            self.going = Some(going);
            self.note(LastAsked::Polled(LastPoll::Nothing));
            return Ok(Happening::Nothing);
        }
        let Some(moment) = self.recording.moments.as_slice().get(to.to) else {
            let code = self.recording.exit;
            self.rest(State::Gone, self.at);
            self.note(LastAsked::Polled(LastPoll::Exited));
            return Ok(Happening::Exited { code });
        };
        let thread = moves::id_at(moment);
        let reason = Text::copied(alloc, moves::reason_told(to, moment))?;
        let more = moves::beside_told(alloc, to, moment)?;
        self.rest(State::Stopped, to.to);
        self.note(LastAsked::Polled(LastPoll::Stopped { by: to }));
        Ok(Happening::Stopped {
            reason,
            thread,
            more,
        })
    }

    pub(crate) fn to_poll(&mut self, alloc: Global) -> Result<Happening, AllocError>
        ensures memory { OnErr result (self.old.state ≡ State.Running) }
        ensures follows { IfOk result (λ h. FollowsPlayed self.old to_poll (happened h) self.new) }
        ensures in_range { IfOk result (λ h. IsTrue (is_short h)) }
        ensures kept { OnErr result (self.new ≡ self.old) }
    {
        match (self.state, self.going) {
            (State::Running, Some(going)) => self.tell(alloc, going),
            _ => {
                self.note(LastAsked::Polled(LastPoll::Nothing));
                Ok(Happening::Nothing)
            }
        }
    }

    /// The next piece of output of a run, or how it ends.
    fn tell(&mut self, alloc: Global, going: Going) -> Result<Happening, AllocError>
        requires whole { IsOutputWhole self.old.recording.moments (Some going) }
        requires runs { self.old.state ≡ State.Running }
        requires going { self.old.run ≡ run_of self.old.recording.moments (Some going) }
        ensures follows { IfOk result (λ h. FollowsPlayed self.old to_poll (happened h) self.new) }
        ensures in_range { IfOk result (λ h. IsTrue (is_short h)) }
        ensures kept { OnErr result (self.new ≡ self.old) }
    {
        let moments = self.recording.moments.as_slice();
        let going = run::skipped(moments, going);
        let Some((piece, after)) = run::next_piece(moments, going) else {
            return self.arrive(alloc, going);
        };
        let text = Text::copied(alloc, piece)?;
        self.going = Some(after);
        self.note(LastAsked::Polled(LastPoll::Output {
            moment: going.moment,
            from: going.told,
            to: after.told,
        }));
        Ok(Happening::Output {
            category: Category::Stdout,
            text,
            more: More::none(),
        })
    }
}
