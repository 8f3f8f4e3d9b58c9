//! What an adapter offers: the flags of its capabilities that gate a command.
//!
//! Specification, "Capabilities", "InitializeResponse" and "CapabilitiesEvent".
ghost use Rattle.std.specs.Prelude.{◌≡◌, ◌≢◌, None, IfOk, OnOk, OnErr, IsTrue};
ghost use Rattle.serde_json.specs.View.{view, members_view};
ghost use Rattle.dap_json.specs.Lent.{lent_data};
ghost use Rattle.dap_command.specs.Capabilities.{is_flag, updated_flag, with_flag};

use crate::command::{Command, Gate};
use dap_json::field;
use serde_json::{Map, Value, put};
use std::alloc::{AllocError, Global};

/// The flags of an adapter that gate a command. One that is absent, `null` or no truth value is `false`.
#[derive(Clone, Copy, Debug, PartialEq, Eq)]
pub struct Capabilities {
    pub breakpoint_locations: bool,
    pub cancel: bool,
    pub completions: bool,
    pub configuration_done: bool,
    pub exception_info: bool,
    pub function_breakpoints: bool,
    pub loaded_sources: bool,
    pub modules: bool,
    pub restart: bool,
    pub set_variable: bool,
    pub step_back: bool,
    pub terminate: bool,
}

fn flag(body: Option<&Value>, gate: Gate) -> bool
    ensures { result ≡ is_flag gate (lent_data body.entry) }
{
    match body {
        None => false,
        Some(body) => field::boolean(body, gate.flag()).unwrap_or(false),
    }
}

pub(crate) fn updated(object: &Value, gate: Gate, before: bool) -> bool
    ensures { result ≡ updated_flag gate (view object.now) before }
{
    match object.get(gate.flag()) {
        None => before,
        Some(value) => value.as_bool().unwrap_or(false),
    }
}

fn add(
    alloc: Global,
    members: &mut Map<String, Value>,
    gate: Gate,
    on: bool,
) -> Result<(), AllocError>
    ensures added { OnOk result (members_view members.new.entries
        ≡ with_flag gate on (members_view members.old.entries)) }
    ensures memory { OnErr result (IsTrue on) }
{
    if on {
        put(members, alloc, gate.flag(), Value::Bool(true))
    } else {
        Ok(())
    }
}

impl Capabilities {
    ghost use Rattle.dap_command.specs.Capabilities.{has, offered_by, updated_by, is_allowed, capabilities_data};

    /// The flags in the body of a response to `initialize`; without a body all are `false`.
    pub fn read(body: Option<&Value>) -> Capabilities
        ensures { result ≡ offered_by (lent_data body.entry) }
    {
        Capabilities {
            breakpoint_locations: flag(body, Gate::BreakpointLocations),
            cancel: flag(body, Gate::Cancel),
            completions: flag(body, Gate::Completions),
            configuration_done: flag(body, Gate::ConfigurationDone),
            exception_info: flag(body, Gate::ExceptionInfo),
            function_breakpoints: flag(body, Gate::FunctionBreakpoints),
            loaded_sources: flag(body, Gate::LoadedSources),
            modules: flag(body, Gate::Modules),
            restart: flag(body, Gate::Restart),
            set_variable: flag(body, Gate::SetVariable),
            step_back: flag(body, Gate::StepBack),
            terminate: flag(body, Gate::Terminate),
        }
    }

    /// Replaces the flags that an object names: the one under `capabilities` in the body of a `capabilities` event. One
    /// that is not `true` becomes `false`, `null` too.
    pub fn update(&mut self, object: &Value)
        ensures { self.new ≡ updated_by (view object.now) self.old }
    {
        *self = Capabilities {
            breakpoint_locations: updated(
                object,
                Gate::BreakpointLocations,
                self.breakpoint_locations,
            ),
            cancel: updated(object, Gate::Cancel, self.cancel),
            completions: updated(object, Gate::Completions, self.completions),
            configuration_done: updated(object, Gate::ConfigurationDone, self.configuration_done),
            exception_info: updated(object, Gate::ExceptionInfo, self.exception_info),
            function_breakpoints: updated(
                object,
                Gate::FunctionBreakpoints,
                self.function_breakpoints,
            ),
            loaded_sources: updated(object, Gate::LoadedSources, self.loaded_sources),
            modules: updated(object, Gate::Modules, self.modules),
            restart: updated(object, Gate::Restart, self.restart),
            set_variable: updated(object, Gate::SetVariable, self.set_variable),
            step_back: updated(object, Gate::StepBack, self.step_back),
            terminate: updated(object, Gate::Terminate, self.terminate),
        };
    }

    /// Whether a flag is set.
    pub fn has(&self, gate: Gate) -> bool
        ensures { result ≡ has self.now gate }
    {
        match gate {
            Gate::BreakpointLocations => self.breakpoint_locations,
            Gate::Cancel => self.cancel,
            Gate::Completions => self.completions,
            Gate::ConfigurationDone => self.configuration_done,
            Gate::ExceptionInfo => self.exception_info,
            Gate::FunctionBreakpoints => self.function_breakpoints,
            Gate::LoadedSources => self.loaded_sources,
            Gate::Modules => self.modules,
            Gate::Restart => self.restart,
            Gate::SetVariable => self.set_variable,
            Gate::StepBack => self.step_back,
            Gate::Terminate => self.terminate,
        }
    }

    /// Whether a command may be sent: it has no gate, or the flag of its gate is set.
    pub fn allows(&self, command: Command) -> bool
        ensures { result ≡ is_allowed self.now command }
    {
        match command.gate() {
            None => true,
            Some(gate) => self.has(gate),
        }
    }

    /// The object of the flags that are set. It takes memory where one is.
    pub fn write(&self, alloc: Global) -> Result<Value, AllocError>
        ensures written { IfOk result (λ value. view value ≡ capabilities_data self.now) }
        ensures memory { OnErr result (self.now ≢ offered_by None) }
    {
        let mut members = Map::new(alloc);
        add(
            alloc,
            &mut members,
            Gate::BreakpointLocations,
            self.breakpoint_locations,
        )?;
        add(alloc, &mut members, Gate::Cancel, self.cancel)?;
        add(alloc, &mut members, Gate::Completions, self.completions)?;
        add(
            alloc,
            &mut members,
            Gate::ConfigurationDone,
            self.configuration_done,
        )?;
        add(
            alloc,
            &mut members,
            Gate::ExceptionInfo,
            self.exception_info,
        )?;
        add(
            alloc,
            &mut members,
            Gate::FunctionBreakpoints,
            self.function_breakpoints,
        )?;
        add(
            alloc,
            &mut members,
            Gate::LoadedSources,
            self.loaded_sources,
        )?;
        add(alloc, &mut members, Gate::Modules, self.modules)?;
        add(alloc, &mut members, Gate::Restart, self.restart)?;
        add(alloc, &mut members, Gate::SetVariable, self.set_variable)?;
        add(alloc, &mut members, Gate::StepBack, self.step_back)?;
        add(alloc, &mut members, Gate::Terminate, self.terminate)?;
        Ok(Value::Object(members))
    }
}
