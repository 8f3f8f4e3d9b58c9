//! A law of the definitions, on a function with nothing to run.
ghost use Rattle.dap_explain.specs.Reasons.{BrokenRulesHaveReasons};

use dap_check::laws::{earlier_lines_are_places, rules_are_told_by_places};

/// A line has a reason why it breaks a rule just where it breaks it.
pub fn broken_rules_have_reasons()
    ensures { BrokenRulesHaveReasons }
{
    // Laws for the proof: where a flag is offered.
    earlier_lines_are_places();
    rules_are_told_by_places();
}
