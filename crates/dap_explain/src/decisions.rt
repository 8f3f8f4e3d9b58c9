//! What is said of the flags that an adapter offers.
ghost use Rattle.std.specs.Prelude.{◌≡◌, ◌∷◌, ◌++◌, [], List};
ghost use Rattle.dap_json.specs.Lent.{lent_data};
ghost use Rattle.dap_command.specs.declared.command.Gate.{Gate as TheGate};
ghost use Rattle.dap_explain.specs.KeptNotes.{AreDecisions, decision_at, decision_after};
ghost use Rattle.dap_check.specs.Places.{decided_by, named_by};
ghost use Rattle.dap_check.specs.declared.line.Line.{Line as TheLine};

use dap_check::{Line, words};
use dap_command::{Capabilities, Gate};
use dap_json::field;
use serde_json::Value;

/// The last line that switches a flag on or off.
#[derive(Clone, Copy)]
pub(crate) struct Decision {
    pub(crate) line: u64,
    pub(crate) is_on: bool,
}

/// Of each flag that gates a command.
#[derive(Clone, Copy)]
pub(crate) struct Decisions {
    pub(crate) breakpoint_locations: Option<Decision>,
    pub(crate) cancel: Option<Decision>,
    pub(crate) completions: Option<Decision>,
    pub(crate) configuration_done: Option<Decision>,
    pub(crate) exception_info: Option<Decision>,
    pub(crate) function_breakpoints: Option<Decision>,
    pub(crate) loaded_sources: Option<Decision>,
    pub(crate) modules: Option<Decision>,
    pub(crate) restart: Option<Decision>,
    pub(crate) set_variable: Option<Decision>,
    pub(crate) step_back: Option<Decision>,
    pub(crate) terminate: Option<Decision>,
}

/// What a `capabilities` event says of a flag.
fn named(gate: Gate, line: &Line) -> Option<&Value>
    ensures { lent_data result ≡ named_by gate line.now }
{
    if !line.tells("capabilities") {
        return None;
    }
    let body = words::body(&line.message.kind)?;
    let object = field::present(body, "capabilities")?;
    object.get(gate.flag())
}

/// Whether a line switches a flag on or off.
fn decided(gate: Gate, line: &Line) -> Option<bool>
    ensures { result ≡ decided_by gate line.now }
{
    if line.succeeds("initialize") {
        return Some(Capabilities::read(words::body(&line.message.kind)).has(gate));
    }
    match named(gate, line) {
        None => None,
        Some(value) => Some(value.as_bool().unwrap_or(false)),
    }
}

impl Decisions {
    pub(crate) fn new() -> Decisions
        ensures { AreDecisions result [] }
    {
        Decisions {
            breakpoint_locations: None,
            cancel: None,
            completions: None,
            configuration_done: None,
            exception_info: None,
            function_breakpoints: None,
            loaded_sources: None,
            modules: None,
            restart: None,
            set_variable: None,
            step_back: None,
            terminate: None,
        }
    }

    pub(crate) fn at(&self, gate: Gate) -> Option<Decision>
        ensures { result ≡ decision_at self.now gate }
    {
        match gate {
            Gate::BreakpointLocations => self.breakpoint_locations,
            Gate::Cancel => self.cancel,
            Gate::Completions => self.completions,
            Gate::ConfigurationDone => self.configuration_done,
            Gate::ExceptionInfo => self.exception_info,
            Gate::FunctionBreakpoints => self.function_breakpoints,
            Gate::LoadedSources => self.loaded_sources,
            Gate::Modules => self.modules,
            Gate::Restart => self.restart,
            Gate::SetVariable => self.set_variable,
            Gate::StepBack => self.step_back,
            Gate::Terminate => self.terminate,
        }
    }

    /// The same, one line later.
    fn after(&self, gate: Gate, line: &Line) -> Option<Decision>
        ensures { result ≡ decision_after gate line.now (decision_at self.now gate) }
    {
        match decided(gate, line) {
            None => self.at(gate),
            Some(is_on) => Some(Decision {
                line: line.number,
                is_on,
            }),
        }
    }

    fn changed(&self, line: &Line) -> Decisions
        ensures { (gate : TheGate) → decision_at result gate ≡ decision_after gate line.now (decision_at self.now gate) }
    {
        Decisions {
            breakpoint_locations: self.after(Gate::BreakpointLocations, line),
            cancel: self.after(Gate::Cancel, line),
            completions: self.after(Gate::Completions, line),
            configuration_done: self.after(Gate::ConfigurationDone, line),
            exception_info: self.after(Gate::ExceptionInfo, line),
            function_breakpoints: self.after(Gate::FunctionBreakpoints, line),
            loaded_sources: self.after(Gate::LoadedSources, line),
            modules: self.after(Gate::Modules, line),
            restart: self.after(Gate::Restart, line),
            set_variable: self.after(Gate::SetVariable, line),
            step_back: self.after(Gate::StepBack, line),
            terminate: self.after(Gate::Terminate, line),
        }
    }

    pub(crate) fn note(&mut self, line: &Line)
        ensures { (earlier : List TheLine) → AreDecisions self.old earlier → AreDecisions self.new (earlier ++ line.now ∷ []) }
    {
        *self = self.changed(line);
    }
}
