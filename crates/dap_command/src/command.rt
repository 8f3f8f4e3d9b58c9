//! The commands of this profile, and what an adapter has to offer before one may be sent.
//!
//! Specification, "Requests"; the flags are those of the type "Capabilities".
ghost use Rattle.std.specs.Prelude.{◌≡◌};

/// A command, by its name in the protocol.
#[derive(Clone, Copy, Debug, PartialEq, Eq)]
pub enum Command {
    Initialize,
    Launch,
    Attach,
    ConfigurationDone,
    Disconnect,
    Threads,
    Terminate,
    Cancel,
    SetBreakpoints,
    SetFunctionBreakpoints,
    SetExceptionBreakpoints,
    Continue,
    Next,
    StepIn,
    StepOut,
    Pause,
    StepBack,
    ReverseContinue,
    StackTrace,
    Scopes,
    Variables,
    Evaluate,
    Source,
    LoadedSources,
    SetVariable,
    Restart,
    Modules,
    ExceptionInfo,
    BreakpointLocations,
    Completions,
}

/// What an adapter has to offer before a command may be sent: a flag of its capabilities. That a command is refused
/// without its flag is this profile's choice.
#[derive(Clone, Copy, Debug, PartialEq, Eq)]
pub enum Gate {
    BreakpointLocations,
    Cancel,
    Completions,
    ConfigurationDone,
    ExceptionInfo,
    FunctionBreakpoints,
    LoadedSources,
    Modules,
    Restart,
    SetVariable,
    StepBack,
    Terminate,
}

impl Command {
    ghost use Rattle.dap_command.specs.Command.{name_of, gate_of, command_named};

    /// The command with a name, which is compared byte by byte.
    pub fn of_name(name: &str) -> Option<Command>
        ensures { result ≡ command_named name.now }
    {
        match name {
            "initialize" => Some(Command::Initialize),
            "launch" => Some(Command::Launch),
            "attach" => Some(Command::Attach),
            "configurationDone" => Some(Command::ConfigurationDone),
            "disconnect" => Some(Command::Disconnect),
            "threads" => Some(Command::Threads),
            "terminate" => Some(Command::Terminate),
            "cancel" => Some(Command::Cancel),
            "setBreakpoints" => Some(Command::SetBreakpoints),
            "setFunctionBreakpoints" => Some(Command::SetFunctionBreakpoints),
            "setExceptionBreakpoints" => Some(Command::SetExceptionBreakpoints),
            "continue" => Some(Command::Continue),
            "next" => Some(Command::Next),
            "stepIn" => Some(Command::StepIn),
            "stepOut" => Some(Command::StepOut),
            "pause" => Some(Command::Pause),
            "stepBack" => Some(Command::StepBack),
            "reverseContinue" => Some(Command::ReverseContinue),
            "stackTrace" => Some(Command::StackTrace),
            "scopes" => Some(Command::Scopes),
            "variables" => Some(Command::Variables),
            "evaluate" => Some(Command::Evaluate),
            "source" => Some(Command::Source),
            "loadedSources" => Some(Command::LoadedSources),
            "setVariable" => Some(Command::SetVariable),
            "restart" => Some(Command::Restart),
            "modules" => Some(Command::Modules),
            "exceptionInfo" => Some(Command::ExceptionInfo),
            "breakpointLocations" => Some(Command::BreakpointLocations),
            "completions" => Some(Command::Completions),
            _ => None,
        }
    }

    /// Its name in the protocol.
    pub fn name(self) -> &'static str
        ensures { result.now ≡ name_of self }
    {
        match self {
            Command::Initialize => "initialize",
            Command::Launch => "launch",
            Command::Attach => "attach",
            Command::ConfigurationDone => "configurationDone",
            Command::Disconnect => "disconnect",
            Command::Threads => "threads",
            Command::Terminate => "terminate",
            Command::Cancel => "cancel",
            Command::SetBreakpoints => "setBreakpoints",
            Command::SetFunctionBreakpoints => "setFunctionBreakpoints",
            Command::SetExceptionBreakpoints => "setExceptionBreakpoints",
            Command::Continue => "continue",
            Command::Next => "next",
            Command::StepIn => "stepIn",
            Command::StepOut => "stepOut",
            Command::Pause => "pause",
            Command::StepBack => "stepBack",
            Command::ReverseContinue => "reverseContinue",
            Command::StackTrace => "stackTrace",
            Command::Scopes => "scopes",
            Command::Variables => "variables",
            Command::Evaluate => "evaluate",
            Command::Source => "source",
            Command::LoadedSources => "loadedSources",
            Command::SetVariable => "setVariable",
            Command::Restart => "restart",
            Command::Modules => "modules",
            Command::ExceptionInfo => "exceptionInfo",
            Command::BreakpointLocations => "breakpointLocations",
            Command::Completions => "completions",
        }
    }

    /// The flag of the capabilities without which it is refused, if there is one.
    pub fn gate(self) -> Option<Gate>
        ensures { result ≡ gate_of self }
    {
        match self {
            Command::ConfigurationDone => Some(Gate::ConfigurationDone),
            Command::Terminate => Some(Gate::Terminate),
            Command::Cancel => Some(Gate::Cancel),
            Command::SetFunctionBreakpoints => Some(Gate::FunctionBreakpoints),
            Command::StepBack => Some(Gate::StepBack),
            Command::ReverseContinue => Some(Gate::StepBack),
            Command::LoadedSources => Some(Gate::LoadedSources),
            Command::SetVariable => Some(Gate::SetVariable),
            Command::Restart => Some(Gate::Restart),
            Command::Modules => Some(Gate::Modules),
            Command::ExceptionInfo => Some(Gate::ExceptionInfo),
            Command::BreakpointLocations => Some(Gate::BreakpointLocations),
            Command::Completions => Some(Gate::Completions),
            _ => None,
        }
    }
}

impl Gate {
    ghost use Rattle.dap_command.specs.Command.{flag_of};

    /// The key of its flag in the capabilities.
    pub fn flag(self) -> &'static str
        ensures { result.now ≡ flag_of self }
    {
        match self {
            Gate::BreakpointLocations => "supportsBreakpointLocationsRequest",
            Gate::Cancel => "supportsCancelRequest",
            Gate::Completions => "supportsCompletionsRequest",
            Gate::ConfigurationDone => "supportsConfigurationDoneRequest",
            Gate::ExceptionInfo => "supportsExceptionInfoRequest",
            Gate::FunctionBreakpoints => "supportsFunctionBreakpoints",
            Gate::LoadedSources => "supportsLoadedSourcesRequest",
            Gate::Modules => "supportsModulesRequest",
            Gate::Restart => "supportsRestartRequest",
            Gate::SetVariable => "supportsSetVariable",
            Gate::StepBack => "supportsStepBack",
            Gate::Terminate => "supportsTerminateRequest",
        }
    }
}
