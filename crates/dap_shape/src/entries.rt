//! What each message holds, and the closed lists of texts, as `specs/Rows.antt` has them. `scripts/shapes entries` prints
//! this file, but for its layout.
ghost use Rattle.std.specs.Prelude.{◌≡◌, map};
ghost use Rattle.dap_shape.specs.Rows.{values_of, requests as request_rows, responses as response_rows, events as event_rows};
ghost use Rattle.dap_shape.specs.Seen.{entry_seen};

use crate::shape::Field::{Optional, Required};
use crate::shape::Kind::Object;
use crate::shape::Shape::One;
use crate::shape::{Choice, Entry, TypeName};

static CHECKSUM_ALGORITHM: [&str; 4] = ["MD5", "SHA1", "SHA256", "timestamp"];

static COLUMN_DESCRIPTOR_TYPE: [&str; 4] = ["string", "number", "boolean", "unixTimestampUTC"];

static COMPLETION_ITEM_TYPE: [&str; 19] = [
    "method",
    "function",
    "constructor",
    "field",
    "variable",
    "class",
    "interface",
    "module",
    "property",
    "unit",
    "value",
    "enum",
    "keyword",
    "snippet",
    "text",
    "color",
    "file",
    "reference",
    "customcolor",
];

static EXCEPTION_BREAK_MODE: [&str; 4] = ["never", "always", "unhandled", "userUnhandled"];

static LOADED_SOURCE_EVENT_REASON: [&str; 3] = ["new", "changed", "removed"];

static MODULE_EVENT_REASON: [&str; 3] = ["new", "changed", "removed"];

static OUTPUT_EVENT_GROUP: [&str; 3] = ["start", "startCollapsed", "end"];

static PROCESS_EVENT_START_METHOD: [&str; 3] = ["launch", "attach", "attachForSuspendedLaunch"];

static RUN_IN_TERMINAL_KIND: [&str; 2] = ["integrated", "external"];

static SOURCE_PRESENTATION_HINT: [&str; 3] = ["normal", "emphasize", "deemphasize"];

static STACK_FRAME_PRESENTATION_HINT: [&str; 3] = ["normal", "label", "subtle"];

static STEPPING_GRANULARITY: [&str; 3] = ["statement", "line", "instruction"];

static VARIABLES_FILTER: [&str; 2] = ["indexed", "named"];

static REQUESTS: [Entry; 30] = [
    Entry(
        "initialize",
        Required(
            "arguments",
            One(Object(TypeName::InitializeRequestArguments)),
        ),
    ),
    Entry(
        "launch",
        Required("arguments", One(Object(TypeName::LaunchRequestArguments))),
    ),
    Entry(
        "attach",
        Required("arguments", One(Object(TypeName::AttachRequestArguments))),
    ),
    Entry(
        "configurationDone",
        Optional(
            "arguments",
            One(Object(TypeName::ConfigurationDoneArguments)),
        ),
    ),
    Entry(
        "disconnect",
        Optional("arguments", One(Object(TypeName::DisconnectArguments))),
    ),
    Entry(
        "terminate",
        Optional("arguments", One(Object(TypeName::TerminateArguments))),
    ),
    Entry(
        "cancel",
        Optional("arguments", One(Object(TypeName::CancelArguments))),
    ),
    Entry(
        "setBreakpoints",
        Required("arguments", One(Object(TypeName::SetBreakpointsArguments))),
    ),
    Entry(
        "setFunctionBreakpoints",
        Required(
            "arguments",
            One(Object(TypeName::SetFunctionBreakpointsArguments)),
        ),
    ),
    Entry(
        "setExceptionBreakpoints",
        Required(
            "arguments",
            One(Object(TypeName::SetExceptionBreakpointsArguments)),
        ),
    ),
    Entry(
        "continue",
        Required("arguments", One(Object(TypeName::ContinueArguments))),
    ),
    Entry(
        "next",
        Required("arguments", One(Object(TypeName::NextArguments))),
    ),
    Entry(
        "stepIn",
        Required("arguments", One(Object(TypeName::StepInArguments))),
    ),
    Entry(
        "stepOut",
        Required("arguments", One(Object(TypeName::StepOutArguments))),
    ),
    Entry(
        "pause",
        Required("arguments", One(Object(TypeName::PauseArguments))),
    ),
    Entry(
        "stepBack",
        Required("arguments", One(Object(TypeName::StepBackArguments))),
    ),
    Entry(
        "reverseContinue",
        Required("arguments", One(Object(TypeName::ReverseContinueArguments))),
    ),
    Entry(
        "stackTrace",
        Required("arguments", One(Object(TypeName::StackTraceArguments))),
    ),
    Entry(
        "scopes",
        Required("arguments", One(Object(TypeName::ScopesArguments))),
    ),
    Entry(
        "variables",
        Required("arguments", One(Object(TypeName::VariablesArguments))),
    ),
    Entry(
        "evaluate",
        Required("arguments", One(Object(TypeName::EvaluateArguments))),
    ),
    Entry(
        "source",
        Required("arguments", One(Object(TypeName::SourceArguments))),
    ),
    Entry(
        "loadedSources",
        Optional("arguments", One(Object(TypeName::LoadedSourcesArguments))),
    ),
    Entry(
        "setVariable",
        Required("arguments", One(Object(TypeName::SetVariableArguments))),
    ),
    Entry(
        "restart",
        Optional("arguments", One(Object(TypeName::RestartArguments))),
    ),
    Entry(
        "modules",
        Required("arguments", One(Object(TypeName::ModulesArguments))),
    ),
    Entry(
        "exceptionInfo",
        Required("arguments", One(Object(TypeName::ExceptionInfoArguments))),
    ),
    Entry(
        "breakpointLocations",
        Optional(
            "arguments",
            One(Object(TypeName::BreakpointLocationsArguments)),
        ),
    ),
    Entry(
        "completions",
        Required("arguments", One(Object(TypeName::CompletionsArguments))),
    ),
    Entry(
        "runInTerminal",
        Required(
            "arguments",
            One(Object(TypeName::RunInTerminalRequestArguments)),
        ),
    ),
];

static RESPONSES: [Entry; 18] = [
    Entry(
        "initialize",
        Optional("body", One(Object(TypeName::Capabilities))),
    ),
    Entry(
        "threads",
        Required("body", One(Object(TypeName::ThreadsResponse))),
    ),
    Entry(
        "setBreakpoints",
        Required("body", One(Object(TypeName::SetBreakpointsResponse))),
    ),
    Entry(
        "setFunctionBreakpoints",
        Required(
            "body",
            One(Object(TypeName::SetFunctionBreakpointsResponse)),
        ),
    ),
    Entry(
        "setExceptionBreakpoints",
        Optional(
            "body",
            One(Object(TypeName::SetExceptionBreakpointsResponse)),
        ),
    ),
    Entry(
        "continue",
        Required("body", One(Object(TypeName::ContinueResponse))),
    ),
    Entry(
        "stackTrace",
        Required("body", One(Object(TypeName::StackTraceResponse))),
    ),
    Entry(
        "scopes",
        Required("body", One(Object(TypeName::ScopesResponse))),
    ),
    Entry(
        "variables",
        Required("body", One(Object(TypeName::VariablesResponse))),
    ),
    Entry(
        "evaluate",
        Required("body", One(Object(TypeName::EvaluateResponse))),
    ),
    Entry(
        "source",
        Required("body", One(Object(TypeName::SourceResponse))),
    ),
    Entry(
        "loadedSources",
        Required("body", One(Object(TypeName::LoadedSourcesResponse))),
    ),
    Entry(
        "setVariable",
        Required("body", One(Object(TypeName::SetVariableResponse))),
    ),
    Entry(
        "modules",
        Required("body", One(Object(TypeName::ModulesResponse))),
    ),
    Entry(
        "exceptionInfo",
        Required("body", One(Object(TypeName::ExceptionInfoResponse))),
    ),
    Entry(
        "breakpointLocations",
        Required("body", One(Object(TypeName::BreakpointLocationsResponse))),
    ),
    Entry(
        "completions",
        Required("body", One(Object(TypeName::CompletionsResponse))),
    ),
    Entry(
        "runInTerminal",
        Required("body", One(Object(TypeName::RunInTerminalResponse))),
    ),
];

static EVENTS: [Entry; 16] = [
    Entry(
        "stopped",
        Required("body", One(Object(TypeName::StoppedEvent))),
    ),
    Entry(
        "continued",
        Required("body", One(Object(TypeName::ContinuedEvent))),
    ),
    Entry(
        "exited",
        Required("body", One(Object(TypeName::ExitedEvent))),
    ),
    Entry(
        "terminated",
        Optional("body", One(Object(TypeName::TerminatedEvent))),
    ),
    Entry(
        "thread",
        Required("body", One(Object(TypeName::ThreadEvent))),
    ),
    Entry(
        "output",
        Required("body", One(Object(TypeName::OutputEvent))),
    ),
    Entry(
        "breakpoint",
        Required("body", One(Object(TypeName::BreakpointEvent))),
    ),
    Entry(
        "module",
        Required("body", One(Object(TypeName::ModuleEvent))),
    ),
    Entry(
        "loadedSource",
        Required("body", One(Object(TypeName::LoadedSourceEvent))),
    ),
    Entry(
        "process",
        Required("body", One(Object(TypeName::ProcessEvent))),
    ),
    Entry(
        "capabilities",
        Required("body", One(Object(TypeName::CapabilitiesEvent))),
    ),
    Entry(
        "progressStart",
        Required("body", One(Object(TypeName::ProgressStartEvent))),
    ),
    Entry(
        "progressUpdate",
        Required("body", One(Object(TypeName::ProgressUpdateEvent))),
    ),
    Entry(
        "progressEnd",
        Required("body", One(Object(TypeName::ProgressEndEvent))),
    ),
    Entry(
        "invalidated",
        Required("body", One(Object(TypeName::InvalidatedEvent))),
    ),
    Entry(
        "memory",
        Required("body", One(Object(TypeName::MemoryEvent))),
    ),
];

/// The texts of a closed list.
pub fn values(choice: Choice) -> &'static [&'static str]
    ensures { map (λ text. text.now) result.now ≡ values_of choice }
{
    match choice {
        Choice::ChecksumAlgorithm => &CHECKSUM_ALGORITHM,
        Choice::ColumnDescriptorType => &COLUMN_DESCRIPTOR_TYPE,
        Choice::CompletionItemType => &COMPLETION_ITEM_TYPE,
        Choice::ExceptionBreakMode => &EXCEPTION_BREAK_MODE,
        Choice::LoadedSourceEventReason => &LOADED_SOURCE_EVENT_REASON,
        Choice::ModuleEventReason => &MODULE_EVENT_REASON,
        Choice::OutputEventGroup => &OUTPUT_EVENT_GROUP,
        Choice::ProcessEventStartMethod => &PROCESS_EVENT_START_METHOD,
        Choice::RunInTerminalKind => &RUN_IN_TERMINAL_KIND,
        Choice::SourcePresentationHint => &SOURCE_PRESENTATION_HINT,
        Choice::StackFramePresentationHint => &STACK_FRAME_PRESENTATION_HINT,
        Choice::SteppingGranularity => &STEPPING_GRANULARITY,
        Choice::VariablesFilter => &VARIABLES_FILTER,
    }
}

/// What the arguments of requests are.
pub(crate) fn requests() -> &'static [Entry]
    ensures { map entry_seen result.now ≡ request_rows }
{
    &REQUESTS
}

/// What the bodies of successful responses are.
pub(crate) fn responses() -> &'static [Entry]
    ensures { map entry_seen result.now ≡ response_rows }
{
    &RESPONSES
}

/// What the bodies of events are.
pub(crate) fn events() -> &'static [Entry]
    ensures { map entry_seen result.now ≡ event_rows }
{
    &EVENTS
}
