//! What is shown of a stop.

use crate::mail::Dropped;
use dap_debuggee::{DebuggeeFault, Evaluation, Scope, Variable};
use dap_recording::Snapshot;
use dap_recording::variables::{self, HolderMap};

/// How many holders are told in one stop.
const MAX_HOLDERS: usize = 65536;

/// What is shown of a stop.
#[derive(Drop)]
pub(crate) struct Here {
    pub(crate) moment: Snapshot,
    /// Whether more is told later: a scope of the moment that came without its variables is still to be told.
    pub(crate) later: bool,
    /// The variables of the holders that were told later, and of those in which a value was set. They come before the moment's.
    pub(crate) told: HolderMap,
}

impl Here {
    ghost use Rattle.std.specs.Prelude.{◌≡◌, Some, option_map};
    ghost use Rattle.dap_debuggee.specs.Laws.{AnswersQuery};
    ghost use Rattle.dap_live.specs.LiveShown.{children_in, evaluation_in, variable_in as variable_within};
    ghost use Rattle.dap_live.specs.Dropping.{why_untold};

    /// The variables of a holder; none where they are still to be told.
    pub(crate) fn children_at(&self, holder: u64) -> Option<&[Variable]>
        ensures { option_map (λ v. v.now) result ≡ children_in (Some self.now) holder }
    {
        if let Some(variables) = self.told.get(holder) {
            return Some(variables);
        }
        if self.later && self.moment.is_untold(holder) {
            return None;
        }
        self.moment.children_at(holder)
    }

    /// Why variables of a holder are not heard.
    pub(crate) fn why_untold(&self, holder: u64) -> Option<Dropped>
        ensures { result ≡ why_untold (Some self.now) holder }
    {
        match self.children_at(holder) {
            Some(_) => Some(Dropped::Told),
            None if self.told.len() < MAX_HOLDERS => None,
            None => Some(Dropped::TooManyHolders),
        }
    }

    /// The first variable with a name directly in one of the scopes, in order.
    fn variable_in(&self, name: &str, scopes: &[Scope]) -> Option<&Variable>
        ensures { option_map (λ v. v.now) result ≡ variable_within (λ holder. children_in (Some self.now) holder) name.now scopes.now }
    {
        for scope in scopes {
            let variables = self.children_at(scope.holder)?;
            if let Some(variable) = variables::named(variables, name) {
                return Some(variable);
            }
        }
        None
    }

    /// What a text comes to: the value of the variable that it names in a frame.
    pub(crate) fn evaluate(
        &self,
        frame: Option<u64>,
        text: &str,
    ) -> Result<Evaluation, DebuggeeFault>
        ensures { AnswersQuery result (λ value. value) (evaluation_in (Some self.now) frame text.now) }
    {
        let Some(frame) = frame else {
            return Err(DebuggeeFault::Refused);
        };
        let Some(scopes) = self.moment.scopes_at(frame) else {
            return Err(DebuggeeFault::Refused);
        };
        match self.variable_in(text, scopes) {
            None => Err(DebuggeeFault::Refused),
            Some(variable) => Ok(variables::evaluation(variable)?),
        }
    }
}
