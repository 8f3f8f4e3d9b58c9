//! What a value may be: an own small language for the types of the Specification.

/// A value without parts.
#[derive(Clone, Copy, Debug)]
pub enum Scalar {
    /// Any value, also one with parts.
    Any,
    Text,
    Boolean,
    /// A number that JSON writes without a fraction and without an exponent, of -9223372036854775808 to
    /// 18446744073709551615.
    Whole,
    Number,
    WholeOrText,
    /// One of the texts of a closed list.
    OneOf(Choice),
}

/// A value of a list, or one that is in none.
#[derive(Clone, Copy, Debug)]
pub enum Kind {
    Plain(Scalar),
    Object(TypeName),
}

/// A value.
#[derive(Clone, Copy, Debug)]
pub enum Shape {
    One(Kind),
    /// A list of such values.
    Each(Kind),
}

/// A key of an object, and what stands there. A key whose value is `null` counts as absent.
#[derive(Clone, Copy, Debug)]
pub enum Field {
    Required(&'static str, Shape),
    Optional(&'static str, Shape),
}

/// What stands at the one key of a message, by the name of its command or its event.
#[derive(Clone, Copy, Debug)]
pub(crate) struct Entry(pub(crate) &'static str, pub(crate) Field);

/// A type of the Specification; of one whose name ends in Response or Event, the body.
#[derive(Clone, Copy, Debug)]
pub enum TypeName {
    AttachRequestArguments,
    Breakpoint,
    BreakpointEvent,
    BreakpointLocation,
    BreakpointLocationsArguments,
    BreakpointLocationsResponse,
    CancelArguments,
    Capabilities,
    CapabilitiesEvent,
    Checksum,
    ColumnDescriptor,
    CompletionItem,
    CompletionsArguments,
    CompletionsResponse,
    ConfigurationDoneArguments,
    ContinueArguments,
    ContinueResponse,
    ContinuedEvent,
    DisconnectArguments,
    EvaluateArguments,
    EvaluateResponse,
    ExceptionBreakpointsFilter,
    ExceptionDetails,
    ExceptionFilterOptions,
    ExceptionInfoArguments,
    ExceptionInfoResponse,
    ExceptionOptions,
    ExceptionPathSegment,
    ExitedEvent,
    FunctionBreakpoint,
    InitializeRequestArguments,
    InvalidatedEvent,
    LaunchRequestArguments,
    LoadedSourceEvent,
    LoadedSourcesArguments,
    LoadedSourcesResponse,
    MemoryEvent,
    Module,
    ModuleEvent,
    ModulesArguments,
    ModulesResponse,
    NextArguments,
    OutputEvent,
    PauseArguments,
    ProcessEvent,
    ProgressEndEvent,
    ProgressStartEvent,
    ProgressUpdateEvent,
    RestartArguments,
    ReverseContinueArguments,
    RunInTerminalEnv,
    RunInTerminalRequestArguments,
    RunInTerminalResponse,
    Scope,
    ScopesArguments,
    ScopesResponse,
    SetBreakpointsArguments,
    SetBreakpointsResponse,
    SetExceptionBreakpointsArguments,
    SetExceptionBreakpointsResponse,
    SetFunctionBreakpointsArguments,
    SetFunctionBreakpointsResponse,
    SetVariableArguments,
    SetVariableResponse,
    Source,
    SourceArguments,
    SourceBreakpoint,
    SourceResponse,
    StackFrame,
    StackFrameFormat,
    StackTraceArguments,
    StackTraceResponse,
    StepBackArguments,
    StepInArguments,
    StepOutArguments,
    StoppedEvent,
    TerminateArguments,
    TerminatedEvent,
    Thread,
    ThreadEvent,
    ThreadsResponse,
    ValueFormat,
    Variable,
    VariablePresentationHint,
    VariablesArguments,
    VariablesResponse,
}

/// A closed list of texts: an `enum` of the Specification. Where a list is open, any text may stand.
#[derive(Clone, Copy, Debug)]
pub enum Choice {
    ChecksumAlgorithm,
    ColumnDescriptorType,
    CompletionItemType,
    ExceptionBreakMode,
    LoadedSourceEventReason,
    ModuleEventReason,
    OutputEventGroup,
    ProcessEventStartMethod,
    RunInTerminalKind,
    SourcePresentationHint,
    StackFramePresentationHint,
    SteppingGranularity,
    VariablesFilter,
}

impl Field {
    ghost use Rattle.std.specs.Prelude.{◌≡◌};
    ghost use Rattle.dap_shape.specs.Seen.{row_seen};

    pub fn key(self) -> &'static str
        ensures { result.now ≡ (row_seen self).key }
    {
        match self {
            Field::Required(key, _) => key,
            Field::Optional(key, _) => key,
        }
    }

    pub fn shape(self) -> Shape
        ensures { result ≡ (row_seen self).shape }
    {
        match self {
            Field::Required(_, shape) => shape,
            Field::Optional(_, shape) => shape,
        }
    }
}
