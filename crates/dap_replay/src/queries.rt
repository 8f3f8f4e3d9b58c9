//! What a recorded debuggee tells of the moment that it shows.

use crate::recorded::Recorded;
use dap_debuggee::{Assigned, DebuggeeFault, Evaluation, Frame, Scope, State, Thread, Variable};
use dap_json::Text;
use dap_recording::{Moment, RecordedThread, shown, variables};
use std::alloc::{AllocError, Global};

impl Recorded {
    ghost use Rattle.std.specs.Prelude.{◌≡◌, [], IfOk, option_map, unwrap_or, IsErrOf};
    ghost use Rattle.std.specs.List.{slice_get};
    ghost use Rattle.std.specs.Option.{IsSome};
    ghost use Rattle.dap_debuggee.specs.Laws.{AnswersQuery, variable_named};
    ghost use Rattle.dap_debuggee.specs.Shown.{window};
    ghost use Rattle.dap_replay.specs.Played.{moment_shown, threads_at, variables_held, value_in as value_within, shown_of};

    /// The moment that is shown; none before the start and once gone.
    fn moment(&self) -> Option<&Moment>
        ensures { option_map (λ m. m.now) result ≡ moment_shown self.now }
    {
        match self.state {
            State::NotStarted | State::Gone => None,
            State::Running | State::Stopped => self.recording.moments.as_slice().get(self.at),
        }
    }

    /// The threads of the moment that is shown.
    fn here(&self) -> &[RecordedThread]
        ensures { result.now ≡ threads_at self.now }
    {
        match self.moment() {
            None => &[],
            Some(moment) => moment.threads.as_slice(),
        }
    }

    /// The scopes of a frame of the moment that is shown.
    fn scopes_at(&self, frame: u64) -> Option<&[Scope]>
        ensures { option_map (λ s. s.now) result ≡ (shown_of self.now).scopes frame }
    {
        let moment = self.moment()?;
        shown::list_in(moment.frames, self.recording.scopes.as_slice(), frame)
    }

    /// The variables of a holder as they are recorded.
    fn recorded_of(&self, holder: u64) -> Option<&[Variable]>
        ensures { option_map (λ v. v.now) result ≡ slice_get self.now.recording.variables holder }
    {
        let variables = self.recording.variables.as_slice().get(holder as usize)?;
        Some(variables.as_slice())
    }

    /// The variables of a holder of any moment, with the values that were set.
    pub(crate) fn variables_of(&self, holder: u64) -> Option<&[Variable]>
        ensures { option_map (λ v. v.now) result ≡ variables_held self.now holder }
    {
        match self.changed.get(holder) {
            None => self.recorded_of(holder),
            Some(variables) => Some(variables),
        }
    }

    /// The first variable with a name in a scope.
    fn value_in_scope(&self, name: &str, scope: &Scope) -> Option<&Variable>
        ensures { option_map (λ v. v.now) result ≡ variable_named name.now (unwrap_or (variables_held self.now scope.now.holder) []) }
    {
        variables::named(self.variables_of(scope.holder)?, name)
    }

    /// The first variable with a name directly in one of the scopes, in order.
    fn value_in(&self, name: &str, scopes: &[Scope]) -> Option<&Variable>
        ensures { option_map (λ v. v.now) result ≡ value_within (λ holder. variables_held self.now holder) name.now scopes.now }
    {
        for scope in scopes {
            if let Some(variable) = self.value_in_scope(name, scope) {
                return Some(variable);
            }
        }
        None
    }

    /// The variables of a holder of the moment that is shown.
    fn children_at(&self, holder: u64) -> Option<&[Variable]>
        ensures { option_map (λ v. v.now) result ≡ (shown_of self.now).children holder }
    {
        let moment = self.moment()?;
        if !shown::is_in(moment.holders, holder) {
            return None;
        }
        self.variables_of(holder)
    }

    pub(crate) fn all_threads(&self, alloc: Global) -> Result<Vec<Thread>, AllocError>
        ensures { IfOk result (λ threads. threads.items ≡ (shown_of self.now).threads) }
    {
        shown::threads(alloc, self.here())
    }

    pub(crate) fn frames_of(&self, alloc: Global, id: i64) -> Result<Vec<Frame>, DebuggeeFault>
        ensures told { AnswersQuery result (λ frames. frames.items) ((shown_of self.now).frames id) }
        ensures memory { IsErrOf result DebuggeeFault.OutOfMemory → IsSome ((shown_of self.now).frames id) }
    {
        shown::frames_of(alloc, self.here(), id)
    }

    pub(crate) fn scopes_of(&self, alloc: Global, frame: u64) -> Result<Vec<Scope>, DebuggeeFault>
        ensures told { AnswersQuery result (λ scopes. scopes.items) ((shown_of self.now).scopes frame) }
        ensures memory { IsErrOf result DebuggeeFault.OutOfMemory → IsSome ((shown_of self.now).scopes frame) }
    {
        shown::scopes_of(alloc, self.scopes_at(frame))
    }

    pub(crate) fn children_of(
        &self,
        alloc: Global,
        holder: u64,
        start: u32,
        count: u32,
    ) -> Result<Vec<Variable>, DebuggeeFault>
        ensures told { AnswersQuery result (λ children. children.items) (option_map (window start count) ((shown_of self.now).children holder)) }
        ensures memory { IsErrOf result DebuggeeFault.OutOfMemory → IsSome ((shown_of self.now).children holder) }
    {
        match self.children_at(holder) {
            None => Err(DebuggeeFault::Refused),
            Some(found) => Ok(variables::copied(
                alloc,
                variables::window(found, start as usize, count as usize),
            )?),
        }
    }

    pub(crate) fn value_of(
        &self,
        frame: Option<u64>,
        name: &str,
    ) -> Result<Evaluation, DebuggeeFault>
        ensures told { AnswersQuery result (λ value. value) ((shown_of self.now).evaluate frame name.now) }
        ensures memory { IsErrOf result DebuggeeFault.OutOfMemory → IsSome ((shown_of self.now).evaluate frame name.now) }
    {
        let Some(frame) = frame else {
            return Err(DebuggeeFault::Refused);
        };
        let Some(scopes) = self.scopes_at(frame) else {
            return Err(DebuggeeFault::Refused);
        };
        match self.value_in(name, scopes) {
            None => Err(DebuggeeFault::Refused),
            Some(variable) => Ok(variables::evaluation(variable)?),
        }
    }

    pub(crate) fn assigned_of(
        &self,
        alloc: Global,
        holder: u64,
        name: &str,
        text: &str,
    ) -> Result<Assigned, DebuggeeFault>
        ensures told { AnswersQuery result (λ assigned. assigned) ((shown_of self.now).assigned holder name.now text.now) }
        ensures memory { IsErrOf result DebuggeeFault.OutOfMemory → IsSome ((shown_of self.now).assigned holder name.now text.now) }
    {
        let Some(children) = self.children_at(holder) else {
            return Err(DebuggeeFault::Refused);
        };
        match variables::named(children, name) {
            None => Err(DebuggeeFault::Refused),
            Some(variable) => Ok(variables::assigned_to(
                variable,
                Text::copied(alloc, text)?,
                None,
            )?),
        }
    }
}
