//! The keys of each type, as `specs/Rows.antt` has them. `scripts/shapes rows` prints this file, but for its layout.
ghost use Rattle.std.specs.Prelude.{◌≡◌, map};
ghost use Rattle.dap_shape.specs.Rows.{fields_of};
ghost use Rattle.dap_shape.specs.Seen.{row_seen};

use crate::shape::Field::{Optional, Required};
use crate::shape::Kind::{Object, Plain};
use crate::shape::Shape::{Each, One};
use crate::shape::{Choice, Field, Scalar, TypeName};

static ATTACH_REQUEST_ARGUMENTS: [Field; 0] = [];

static BREAKPOINT: [Field; 10] = [
    Optional("id", One(Plain(Scalar::Whole))),
    Required("verified", One(Plain(Scalar::Boolean))),
    Optional("message", One(Plain(Scalar::Text))),
    Optional("source", One(Object(TypeName::Source))),
    Optional("line", One(Plain(Scalar::Whole))),
    Optional("column", One(Plain(Scalar::Whole))),
    Optional("endLine", One(Plain(Scalar::Whole))),
    Optional("endColumn", One(Plain(Scalar::Whole))),
    Optional("instructionReference", One(Plain(Scalar::Text))),
    Optional("offset", One(Plain(Scalar::Whole))),
];

static BREAKPOINT_EVENT: [Field; 2] = [
    Required("reason", One(Plain(Scalar::Text))),
    Required("breakpoint", One(Object(TypeName::Breakpoint))),
];

static BREAKPOINT_LOCATION: [Field; 4] = [
    Required("line", One(Plain(Scalar::Whole))),
    Optional("column", One(Plain(Scalar::Whole))),
    Optional("endLine", One(Plain(Scalar::Whole))),
    Optional("endColumn", One(Plain(Scalar::Whole))),
];

static BREAKPOINT_LOCATIONS_ARGUMENTS: [Field; 5] = [
    Required("source", One(Object(TypeName::Source))),
    Required("line", One(Plain(Scalar::Whole))),
    Optional("column", One(Plain(Scalar::Whole))),
    Optional("endLine", One(Plain(Scalar::Whole))),
    Optional("endColumn", One(Plain(Scalar::Whole))),
];

static BREAKPOINT_LOCATIONS_RESPONSE: [Field; 1] = [Required(
    "breakpoints",
    Each(Object(TypeName::BreakpointLocation)),
)];

static CANCEL_ARGUMENTS: [Field; 2] = [
    Optional("requestId", One(Plain(Scalar::Whole))),
    Optional("progressId", One(Plain(Scalar::Text))),
];

static CAPABILITIES: [Field; 39] = [
    Optional(
        "supportsConfigurationDoneRequest",
        One(Plain(Scalar::Boolean)),
    ),
    Optional("supportsFunctionBreakpoints", One(Plain(Scalar::Boolean))),
    Optional(
        "supportsConditionalBreakpoints",
        One(Plain(Scalar::Boolean)),
    ),
    Optional(
        "supportsHitConditionalBreakpoints",
        One(Plain(Scalar::Boolean)),
    ),
    Optional("supportsEvaluateForHovers", One(Plain(Scalar::Boolean))),
    Optional(
        "exceptionBreakpointFilters",
        Each(Object(TypeName::ExceptionBreakpointsFilter)),
    ),
    Optional("supportsStepBack", One(Plain(Scalar::Boolean))),
    Optional("supportsSetVariable", One(Plain(Scalar::Boolean))),
    Optional("supportsRestartFrame", One(Plain(Scalar::Boolean))),
    Optional("supportsGotoTargetsRequest", One(Plain(Scalar::Boolean))),
    Optional("supportsStepInTargetsRequest", One(Plain(Scalar::Boolean))),
    Optional("supportsCompletionsRequest", One(Plain(Scalar::Boolean))),
    Optional("completionTriggerCharacters", Each(Plain(Scalar::Text))),
    Optional("supportsModulesRequest", One(Plain(Scalar::Boolean))),
    Optional(
        "additionalModuleColumns",
        Each(Object(TypeName::ColumnDescriptor)),
    ),
    Optional(
        "supportedChecksumAlgorithms",
        Each(Plain(Scalar::OneOf(Choice::ChecksumAlgorithm))),
    ),
    Optional("supportsRestartRequest", One(Plain(Scalar::Boolean))),
    Optional("supportsExceptionOptions", One(Plain(Scalar::Boolean))),
    Optional(
        "supportsValueFormattingOptions",
        One(Plain(Scalar::Boolean)),
    ),
    Optional("supportsExceptionInfoRequest", One(Plain(Scalar::Boolean))),
    Optional("supportTerminateDebuggee", One(Plain(Scalar::Boolean))),
    Optional("supportSuspendDebuggee", One(Plain(Scalar::Boolean))),
    Optional(
        "supportsDelayedStackTraceLoading",
        One(Plain(Scalar::Boolean)),
    ),
    Optional("supportsLoadedSourcesRequest", One(Plain(Scalar::Boolean))),
    Optional("supportsLogPoints", One(Plain(Scalar::Boolean))),
    Optional(
        "supportsTerminateThreadsRequest",
        One(Plain(Scalar::Boolean)),
    ),
    Optional("supportsSetExpression", One(Plain(Scalar::Boolean))),
    Optional("supportsTerminateRequest", One(Plain(Scalar::Boolean))),
    Optional("supportsDataBreakpoints", One(Plain(Scalar::Boolean))),
    Optional("supportsReadMemoryRequest", One(Plain(Scalar::Boolean))),
    Optional("supportsWriteMemoryRequest", One(Plain(Scalar::Boolean))),
    Optional("supportsDisassembleRequest", One(Plain(Scalar::Boolean))),
    Optional("supportsCancelRequest", One(Plain(Scalar::Boolean))),
    Optional(
        "supportsBreakpointLocationsRequest",
        One(Plain(Scalar::Boolean)),
    ),
    Optional("supportsClipboardContext", One(Plain(Scalar::Boolean))),
    Optional("supportsSteppingGranularity", One(Plain(Scalar::Boolean))),
    Optional(
        "supportsInstructionBreakpoints",
        One(Plain(Scalar::Boolean)),
    ),
    Optional(
        "supportsExceptionFilterOptions",
        One(Plain(Scalar::Boolean)),
    ),
    Optional(
        "supportsSingleThreadExecutionRequests",
        One(Plain(Scalar::Boolean)),
    ),
];

static CAPABILITIES_EVENT: [Field; 1] = [Required(
    "capabilities",
    One(Object(TypeName::Capabilities)),
)];

static CHECKSUM: [Field; 2] = [
    Required(
        "algorithm",
        One(Plain(Scalar::OneOf(Choice::ChecksumAlgorithm))),
    ),
    Required("checksum", One(Plain(Scalar::Text))),
];

static COLUMN_DESCRIPTOR: [Field; 5] = [
    Required("attributeName", One(Plain(Scalar::Text))),
    Required("label", One(Plain(Scalar::Text))),
    Optional("format", One(Plain(Scalar::Text))),
    Optional(
        "type",
        One(Plain(Scalar::OneOf(Choice::ColumnDescriptorType))),
    ),
    Optional("width", One(Plain(Scalar::Whole))),
];

static COMPLETION_ITEM: [Field; 9] = [
    Required("label", One(Plain(Scalar::Text))),
    Optional("text", One(Plain(Scalar::Text))),
    Optional("sortText", One(Plain(Scalar::Text))),
    Optional("detail", One(Plain(Scalar::Text))),
    Optional(
        "type",
        One(Plain(Scalar::OneOf(Choice::CompletionItemType))),
    ),
    Optional("start", One(Plain(Scalar::Whole))),
    Optional("length", One(Plain(Scalar::Whole))),
    Optional("selectionStart", One(Plain(Scalar::Whole))),
    Optional("selectionLength", One(Plain(Scalar::Whole))),
];

static COMPLETIONS_ARGUMENTS: [Field; 4] = [
    Optional("frameId", One(Plain(Scalar::Whole))),
    Required("text", One(Plain(Scalar::Text))),
    Required("column", One(Plain(Scalar::Whole))),
    Optional("line", One(Plain(Scalar::Whole))),
];

static COMPLETIONS_RESPONSE: [Field; 1] = [Required(
    "targets",
    Each(Object(TypeName::CompletionItem)),
)];

static CONFIGURATION_DONE_ARGUMENTS: [Field; 0] = [];

static CONTINUE_ARGUMENTS: [Field; 2] = [
    Required("threadId", One(Plain(Scalar::Whole))),
    Optional("singleThread", One(Plain(Scalar::Boolean))),
];

static CONTINUE_RESPONSE: [Field; 1] = [Optional(
    "allThreadsContinued",
    One(Plain(Scalar::Boolean)),
)];

static CONTINUED_EVENT: [Field; 2] = [
    Required("threadId", One(Plain(Scalar::Whole))),
    Optional("allThreadsContinued", One(Plain(Scalar::Boolean))),
];

static DISCONNECT_ARGUMENTS: [Field; 3] = [
    Optional("restart", One(Plain(Scalar::Boolean))),
    Optional("terminateDebuggee", One(Plain(Scalar::Boolean))),
    Optional("suspendDebuggee", One(Plain(Scalar::Boolean))),
];

static EVALUATE_ARGUMENTS: [Field; 4] = [
    Required("expression", One(Plain(Scalar::Text))),
    Optional("frameId", One(Plain(Scalar::Whole))),
    Optional("context", One(Plain(Scalar::Text))),
    Optional("format", One(Object(TypeName::ValueFormat))),
];

static EVALUATE_RESPONSE: [Field; 7] = [
    Required("result", One(Plain(Scalar::Text))),
    Optional("type", One(Plain(Scalar::Text))),
    Optional(
        "presentationHint",
        One(Object(TypeName::VariablePresentationHint)),
    ),
    Required("variablesReference", One(Plain(Scalar::Whole))),
    Optional("namedVariables", One(Plain(Scalar::Whole))),
    Optional("indexedVariables", One(Plain(Scalar::Whole))),
    Optional("memoryReference", One(Plain(Scalar::Text))),
];

static EXCEPTION_BREAKPOINTS_FILTER: [Field; 6] = [
    Required("filter", One(Plain(Scalar::Text))),
    Required("label", One(Plain(Scalar::Text))),
    Optional("description", One(Plain(Scalar::Text))),
    Optional("default", One(Plain(Scalar::Boolean))),
    Optional("supportsCondition", One(Plain(Scalar::Boolean))),
    Optional("conditionDescription", One(Plain(Scalar::Text))),
];

static EXCEPTION_DETAILS: [Field; 6] = [
    Optional("message", One(Plain(Scalar::Text))),
    Optional("typeName", One(Plain(Scalar::Text))),
    Optional("fullTypeName", One(Plain(Scalar::Text))),
    Optional("evaluateName", One(Plain(Scalar::Text))),
    Optional("stackTrace", One(Plain(Scalar::Text))),
    Optional("innerException", Each(Object(TypeName::ExceptionDetails))),
];

static EXCEPTION_FILTER_OPTIONS: [Field; 2] = [
    Required("filterId", One(Plain(Scalar::Text))),
    Optional("condition", One(Plain(Scalar::Text))),
];

static EXCEPTION_INFO_ARGUMENTS: [Field; 1] = [Required("threadId", One(Plain(Scalar::Whole)))];

static EXCEPTION_INFO_RESPONSE: [Field; 4] = [
    Required("exceptionId", One(Plain(Scalar::Text))),
    Optional("description", One(Plain(Scalar::Text))),
    Required(
        "breakMode",
        One(Plain(Scalar::OneOf(Choice::ExceptionBreakMode))),
    ),
    Optional("details", One(Object(TypeName::ExceptionDetails))),
];

static EXCEPTION_OPTIONS: [Field; 2] = [
    Optional("path", Each(Object(TypeName::ExceptionPathSegment))),
    Required(
        "breakMode",
        One(Plain(Scalar::OneOf(Choice::ExceptionBreakMode))),
    ),
];

static EXCEPTION_PATH_SEGMENT: [Field; 2] = [
    Optional("negate", One(Plain(Scalar::Boolean))),
    Required("names", Each(Plain(Scalar::Text))),
];

static EXITED_EVENT: [Field; 1] = [Required("exitCode", One(Plain(Scalar::Whole)))];

static FUNCTION_BREAKPOINT: [Field; 3] = [
    Required("name", One(Plain(Scalar::Text))),
    Optional("condition", One(Plain(Scalar::Text))),
    Optional("hitCondition", One(Plain(Scalar::Text))),
];

static INITIALIZE_REQUEST_ARGUMENTS: [Field; 15] = [
    Optional("clientID", One(Plain(Scalar::Text))),
    Optional("clientName", One(Plain(Scalar::Text))),
    Required("adapterID", One(Plain(Scalar::Text))),
    Optional("locale", One(Plain(Scalar::Text))),
    Optional("linesStartAt1", One(Plain(Scalar::Boolean))),
    Optional("columnsStartAt1", One(Plain(Scalar::Boolean))),
    Optional("pathFormat", One(Plain(Scalar::Text))),
    Optional("supportsVariableType", One(Plain(Scalar::Boolean))),
    Optional("supportsVariablePaging", One(Plain(Scalar::Boolean))),
    Optional("supportsRunInTerminalRequest", One(Plain(Scalar::Boolean))),
    Optional("supportsMemoryReferences", One(Plain(Scalar::Boolean))),
    Optional("supportsProgressReporting", One(Plain(Scalar::Boolean))),
    Optional("supportsInvalidatedEvent", One(Plain(Scalar::Boolean))),
    Optional("supportsMemoryEvent", One(Plain(Scalar::Boolean))),
    Optional(
        "supportsArgsCanBeInterpretedByShell",
        One(Plain(Scalar::Boolean)),
    ),
];

static INVALIDATED_EVENT: [Field; 3] = [
    Optional("areas", Each(Plain(Scalar::Text))),
    Optional("threadId", One(Plain(Scalar::Whole))),
    Optional("stackFrameId", One(Plain(Scalar::Whole))),
];

static LAUNCH_REQUEST_ARGUMENTS: [Field; 1] = [Optional("noDebug", One(Plain(Scalar::Boolean)))];

static LOADED_SOURCE_EVENT: [Field; 2] = [
    Required(
        "reason",
        One(Plain(Scalar::OneOf(Choice::LoadedSourceEventReason))),
    ),
    Required("source", One(Object(TypeName::Source))),
];

static LOADED_SOURCES_ARGUMENTS: [Field; 0] = [];

static LOADED_SOURCES_RESPONSE: [Field; 1] = [Required("sources", Each(Object(TypeName::Source)))];

static MEMORY_EVENT: [Field; 3] = [
    Required("memoryReference", One(Plain(Scalar::Text))),
    Required("offset", One(Plain(Scalar::Whole))),
    Required("count", One(Plain(Scalar::Whole))),
];

static MODULE: [Field; 10] = [
    Required("id", One(Plain(Scalar::WholeOrText))),
    Required("name", One(Plain(Scalar::Text))),
    Optional("path", One(Plain(Scalar::Text))),
    Optional("isOptimized", One(Plain(Scalar::Boolean))),
    Optional("isUserCode", One(Plain(Scalar::Boolean))),
    Optional("version", One(Plain(Scalar::Text))),
    Optional("symbolStatus", One(Plain(Scalar::Text))),
    Optional("symbolFilePath", One(Plain(Scalar::Text))),
    Optional("dateTimeStamp", One(Plain(Scalar::Text))),
    Optional("addressRange", One(Plain(Scalar::Text))),
];

static MODULE_EVENT: [Field; 2] = [
    Required(
        "reason",
        One(Plain(Scalar::OneOf(Choice::ModuleEventReason))),
    ),
    Required("module", One(Object(TypeName::Module))),
];

static MODULES_ARGUMENTS: [Field; 2] = [
    Optional("startModule", One(Plain(Scalar::Whole))),
    Optional("moduleCount", One(Plain(Scalar::Whole))),
];

static MODULES_RESPONSE: [Field; 2] = [
    Required("modules", Each(Object(TypeName::Module))),
    Optional("totalModules", One(Plain(Scalar::Whole))),
];

static NEXT_ARGUMENTS: [Field; 3] = [
    Required("threadId", One(Plain(Scalar::Whole))),
    Optional("singleThread", One(Plain(Scalar::Boolean))),
    Optional(
        "granularity",
        One(Plain(Scalar::OneOf(Choice::SteppingGranularity))),
    ),
];

static OUTPUT_EVENT: [Field; 7] = [
    Optional("category", One(Plain(Scalar::Text))),
    Required("output", One(Plain(Scalar::Text))),
    Optional("group", One(Plain(Scalar::OneOf(Choice::OutputEventGroup)))),
    Optional("variablesReference", One(Plain(Scalar::Whole))),
    Optional("source", One(Object(TypeName::Source))),
    Optional("line", One(Plain(Scalar::Whole))),
    Optional("column", One(Plain(Scalar::Whole))),
];

static PAUSE_ARGUMENTS: [Field; 1] = [Required("threadId", One(Plain(Scalar::Whole)))];

static PROCESS_EVENT: [Field; 5] = [
    Required("name", One(Plain(Scalar::Text))),
    Optional("systemProcessId", One(Plain(Scalar::Whole))),
    Optional("isLocalProcess", One(Plain(Scalar::Boolean))),
    Optional(
        "startMethod",
        One(Plain(Scalar::OneOf(Choice::ProcessEventStartMethod))),
    ),
    Optional("pointerSize", One(Plain(Scalar::Whole))),
];

static PROGRESS_END_EVENT: [Field; 2] = [
    Required("progressId", One(Plain(Scalar::Text))),
    Optional("message", One(Plain(Scalar::Text))),
];

static PROGRESS_START_EVENT: [Field; 6] = [
    Required("progressId", One(Plain(Scalar::Text))),
    Required("title", One(Plain(Scalar::Text))),
    Optional("requestId", One(Plain(Scalar::Whole))),
    Optional("cancellable", One(Plain(Scalar::Boolean))),
    Optional("message", One(Plain(Scalar::Text))),
    Optional("percentage", One(Plain(Scalar::Number))),
];

static PROGRESS_UPDATE_EVENT: [Field; 3] = [
    Required("progressId", One(Plain(Scalar::Text))),
    Optional("message", One(Plain(Scalar::Text))),
    Optional("percentage", One(Plain(Scalar::Number))),
];

static RESTART_ARGUMENTS: [Field; 1] = [Optional(
    "arguments",
    One(Object(TypeName::AttachRequestArguments)),
)];

static REVERSE_CONTINUE_ARGUMENTS: [Field; 2] = [
    Required("threadId", One(Plain(Scalar::Whole))),
    Optional("singleThread", One(Plain(Scalar::Boolean))),
];

static RUN_IN_TERMINAL_ENV: [Field; 0] = [];

static RUN_IN_TERMINAL_REQUEST_ARGUMENTS: [Field; 6] = [
    Optional("kind", One(Plain(Scalar::OneOf(Choice::RunInTerminalKind)))),
    Optional("title", One(Plain(Scalar::Text))),
    Required("cwd", One(Plain(Scalar::Text))),
    Required("args", Each(Plain(Scalar::Text))),
    Optional("env", One(Object(TypeName::RunInTerminalEnv))),
    Optional("argsCanBeInterpretedByShell", One(Plain(Scalar::Boolean))),
];

static RUN_IN_TERMINAL_RESPONSE: [Field; 2] = [
    Optional("processId", One(Plain(Scalar::Whole))),
    Optional("shellProcessId", One(Plain(Scalar::Whole))),
];

static SCOPE: [Field; 11] = [
    Required("name", One(Plain(Scalar::Text))),
    Optional("presentationHint", One(Plain(Scalar::Text))),
    Required("variablesReference", One(Plain(Scalar::Whole))),
    Optional("namedVariables", One(Plain(Scalar::Whole))),
    Optional("indexedVariables", One(Plain(Scalar::Whole))),
    Required("expensive", One(Plain(Scalar::Boolean))),
    Optional("source", One(Object(TypeName::Source))),
    Optional("line", One(Plain(Scalar::Whole))),
    Optional("column", One(Plain(Scalar::Whole))),
    Optional("endLine", One(Plain(Scalar::Whole))),
    Optional("endColumn", One(Plain(Scalar::Whole))),
];

static SCOPES_ARGUMENTS: [Field; 1] = [Required("frameId", One(Plain(Scalar::Whole)))];

static SCOPES_RESPONSE: [Field; 1] = [Required("scopes", Each(Object(TypeName::Scope)))];

static SET_BREAKPOINTS_ARGUMENTS: [Field; 4] = [
    Required("source", One(Object(TypeName::Source))),
    Optional("breakpoints", Each(Object(TypeName::SourceBreakpoint))),
    Optional("lines", Each(Plain(Scalar::Whole))),
    Optional("sourceModified", One(Plain(Scalar::Boolean))),
];

static SET_BREAKPOINTS_RESPONSE: [Field; 1] = [Required(
    "breakpoints",
    Each(Object(TypeName::Breakpoint)),
)];

static SET_EXCEPTION_BREAKPOINTS_ARGUMENTS: [Field; 3] = [
    Required("filters", Each(Plain(Scalar::Text))),
    Optional(
        "filterOptions",
        Each(Object(TypeName::ExceptionFilterOptions)),
    ),
    Optional("exceptionOptions", Each(Object(TypeName::ExceptionOptions))),
];

static SET_EXCEPTION_BREAKPOINTS_RESPONSE: [Field; 1] = [Optional(
    "breakpoints",
    Each(Object(TypeName::Breakpoint)),
)];

static SET_FUNCTION_BREAKPOINTS_ARGUMENTS: [Field; 1] = [Required(
    "breakpoints",
    Each(Object(TypeName::FunctionBreakpoint)),
)];

static SET_FUNCTION_BREAKPOINTS_RESPONSE: [Field; 1] = [Required(
    "breakpoints",
    Each(Object(TypeName::Breakpoint)),
)];

static SET_VARIABLE_ARGUMENTS: [Field; 4] = [
    Required("variablesReference", One(Plain(Scalar::Whole))),
    Required("name", One(Plain(Scalar::Text))),
    Required("value", One(Plain(Scalar::Text))),
    Optional("format", One(Object(TypeName::ValueFormat))),
];

static SET_VARIABLE_RESPONSE: [Field; 5] = [
    Required("value", One(Plain(Scalar::Text))),
    Optional("type", One(Plain(Scalar::Text))),
    Optional("variablesReference", One(Plain(Scalar::Whole))),
    Optional("namedVariables", One(Plain(Scalar::Whole))),
    Optional("indexedVariables", One(Plain(Scalar::Whole))),
];

static SOURCE: [Field; 7] = [
    Optional("name", One(Plain(Scalar::Text))),
    Optional("path", One(Plain(Scalar::Text))),
    Optional("sourceReference", One(Plain(Scalar::Whole))),
    Optional(
        "presentationHint",
        One(Plain(Scalar::OneOf(Choice::SourcePresentationHint))),
    ),
    Optional("origin", One(Plain(Scalar::Text))),
    Optional("sources", Each(Object(TypeName::Source))),
    Optional("checksums", Each(Object(TypeName::Checksum))),
];

static SOURCE_ARGUMENTS: [Field; 2] = [
    Optional("source", One(Object(TypeName::Source))),
    Required("sourceReference", One(Plain(Scalar::Whole))),
];

static SOURCE_BREAKPOINT: [Field; 5] = [
    Required("line", One(Plain(Scalar::Whole))),
    Optional("column", One(Plain(Scalar::Whole))),
    Optional("condition", One(Plain(Scalar::Text))),
    Optional("hitCondition", One(Plain(Scalar::Text))),
    Optional("logMessage", One(Plain(Scalar::Text))),
];

static SOURCE_RESPONSE: [Field; 2] = [
    Required("content", One(Plain(Scalar::Text))),
    Optional("mimeType", One(Plain(Scalar::Text))),
];

static STACK_FRAME: [Field; 11] = [
    Required("id", One(Plain(Scalar::Whole))),
    Required("name", One(Plain(Scalar::Text))),
    Optional("source", One(Object(TypeName::Source))),
    Required("line", One(Plain(Scalar::Whole))),
    Required("column", One(Plain(Scalar::Whole))),
    Optional("endLine", One(Plain(Scalar::Whole))),
    Optional("endColumn", One(Plain(Scalar::Whole))),
    Optional("canRestart", One(Plain(Scalar::Boolean))),
    Optional("instructionPointerReference", One(Plain(Scalar::Text))),
    Optional("moduleId", One(Plain(Scalar::WholeOrText))),
    Optional(
        "presentationHint",
        One(Plain(Scalar::OneOf(Choice::StackFramePresentationHint))),
    ),
];

static STACK_FRAME_FORMAT: [Field; 8] = [
    Optional("hex", One(Plain(Scalar::Boolean))),
    Optional("parameters", One(Plain(Scalar::Boolean))),
    Optional("parameterTypes", One(Plain(Scalar::Boolean))),
    Optional("parameterNames", One(Plain(Scalar::Boolean))),
    Optional("parameterValues", One(Plain(Scalar::Boolean))),
    Optional("line", One(Plain(Scalar::Boolean))),
    Optional("module", One(Plain(Scalar::Boolean))),
    Optional("includeAll", One(Plain(Scalar::Boolean))),
];

static STACK_TRACE_ARGUMENTS: [Field; 4] = [
    Required("threadId", One(Plain(Scalar::Whole))),
    Optional("startFrame", One(Plain(Scalar::Whole))),
    Optional("levels", One(Plain(Scalar::Whole))),
    Optional("format", One(Object(TypeName::StackFrameFormat))),
];

static STACK_TRACE_RESPONSE: [Field; 2] = [
    Required("stackFrames", Each(Object(TypeName::StackFrame))),
    Optional("totalFrames", One(Plain(Scalar::Whole))),
];

static STEP_BACK_ARGUMENTS: [Field; 3] = [
    Required("threadId", One(Plain(Scalar::Whole))),
    Optional("singleThread", One(Plain(Scalar::Boolean))),
    Optional(
        "granularity",
        One(Plain(Scalar::OneOf(Choice::SteppingGranularity))),
    ),
];

static STEP_IN_ARGUMENTS: [Field; 4] = [
    Required("threadId", One(Plain(Scalar::Whole))),
    Optional("singleThread", One(Plain(Scalar::Boolean))),
    Optional("targetId", One(Plain(Scalar::Whole))),
    Optional(
        "granularity",
        One(Plain(Scalar::OneOf(Choice::SteppingGranularity))),
    ),
];

static STEP_OUT_ARGUMENTS: [Field; 3] = [
    Required("threadId", One(Plain(Scalar::Whole))),
    Optional("singleThread", One(Plain(Scalar::Boolean))),
    Optional(
        "granularity",
        One(Plain(Scalar::OneOf(Choice::SteppingGranularity))),
    ),
];

static STOPPED_EVENT: [Field; 7] = [
    Required("reason", One(Plain(Scalar::Text))),
    Optional("description", One(Plain(Scalar::Text))),
    Optional("threadId", One(Plain(Scalar::Whole))),
    Optional("preserveFocusHint", One(Plain(Scalar::Boolean))),
    Optional("text", One(Plain(Scalar::Text))),
    Optional("allThreadsStopped", One(Plain(Scalar::Boolean))),
    Optional("hitBreakpointIds", Each(Plain(Scalar::Whole))),
];

static TERMINATE_ARGUMENTS: [Field; 1] = [Optional("restart", One(Plain(Scalar::Boolean)))];

static TERMINATED_EVENT: [Field; 0] = [];

static THREAD: [Field; 2] = [
    Required("id", One(Plain(Scalar::Whole))),
    Required("name", One(Plain(Scalar::Text))),
];

static THREAD_EVENT: [Field; 2] = [
    Required("reason", One(Plain(Scalar::Text))),
    Required("threadId", One(Plain(Scalar::Whole))),
];

static THREADS_RESPONSE: [Field; 1] = [Required("threads", Each(Object(TypeName::Thread)))];

static VALUE_FORMAT: [Field; 1] = [Optional("hex", One(Plain(Scalar::Boolean)))];

static VARIABLE: [Field; 9] = [
    Required("name", One(Plain(Scalar::Text))),
    Required("value", One(Plain(Scalar::Text))),
    Optional("type", One(Plain(Scalar::Text))),
    Optional(
        "presentationHint",
        One(Object(TypeName::VariablePresentationHint)),
    ),
    Optional("evaluateName", One(Plain(Scalar::Text))),
    Required("variablesReference", One(Plain(Scalar::Whole))),
    Optional("namedVariables", One(Plain(Scalar::Whole))),
    Optional("indexedVariables", One(Plain(Scalar::Whole))),
    Optional("memoryReference", One(Plain(Scalar::Text))),
];

static VARIABLE_PRESENTATION_HINT: [Field; 4] = [
    Optional("kind", One(Plain(Scalar::Text))),
    Optional("attributes", Each(Plain(Scalar::Text))),
    Optional("visibility", One(Plain(Scalar::Text))),
    Optional("lazy", One(Plain(Scalar::Boolean))),
];

static VARIABLES_ARGUMENTS: [Field; 5] = [
    Required("variablesReference", One(Plain(Scalar::Whole))),
    Optional("filter", One(Plain(Scalar::OneOf(Choice::VariablesFilter)))),
    Optional("start", One(Plain(Scalar::Whole))),
    Optional("count", One(Plain(Scalar::Whole))),
    Optional("format", One(Object(TypeName::ValueFormat))),
];

static VARIABLES_RESPONSE: [Field; 1] = [Required("variables", Each(Object(TypeName::Variable)))];

/// The keys of an object, in the order in which they are looked at.
pub fn fields(name: TypeName) -> &'static [Field]
    ensures { map row_seen result.now ≡ fields_of name }
{
    match name {
        TypeName::AttachRequestArguments => &ATTACH_REQUEST_ARGUMENTS,
        TypeName::Breakpoint => &BREAKPOINT,
        TypeName::BreakpointEvent => &BREAKPOINT_EVENT,
        TypeName::BreakpointLocation => &BREAKPOINT_LOCATION,
        TypeName::BreakpointLocationsArguments => &BREAKPOINT_LOCATIONS_ARGUMENTS,
        TypeName::BreakpointLocationsResponse => &BREAKPOINT_LOCATIONS_RESPONSE,
        TypeName::CancelArguments => &CANCEL_ARGUMENTS,
        TypeName::Capabilities => &CAPABILITIES,
        TypeName::CapabilitiesEvent => &CAPABILITIES_EVENT,
        TypeName::Checksum => &CHECKSUM,
        TypeName::ColumnDescriptor => &COLUMN_DESCRIPTOR,
        TypeName::CompletionItem => &COMPLETION_ITEM,
        TypeName::CompletionsArguments => &COMPLETIONS_ARGUMENTS,
        TypeName::CompletionsResponse => &COMPLETIONS_RESPONSE,
        TypeName::ConfigurationDoneArguments => &CONFIGURATION_DONE_ARGUMENTS,
        TypeName::ContinueArguments => &CONTINUE_ARGUMENTS,
        TypeName::ContinueResponse => &CONTINUE_RESPONSE,
        TypeName::ContinuedEvent => &CONTINUED_EVENT,
        TypeName::DisconnectArguments => &DISCONNECT_ARGUMENTS,
        TypeName::EvaluateArguments => &EVALUATE_ARGUMENTS,
        TypeName::EvaluateResponse => &EVALUATE_RESPONSE,
        TypeName::ExceptionBreakpointsFilter => &EXCEPTION_BREAKPOINTS_FILTER,
        TypeName::ExceptionDetails => &EXCEPTION_DETAILS,
        TypeName::ExceptionFilterOptions => &EXCEPTION_FILTER_OPTIONS,
        TypeName::ExceptionInfoArguments => &EXCEPTION_INFO_ARGUMENTS,
        TypeName::ExceptionInfoResponse => &EXCEPTION_INFO_RESPONSE,
        TypeName::ExceptionOptions => &EXCEPTION_OPTIONS,
        TypeName::ExceptionPathSegment => &EXCEPTION_PATH_SEGMENT,
        TypeName::ExitedEvent => &EXITED_EVENT,
        TypeName::FunctionBreakpoint => &FUNCTION_BREAKPOINT,
        TypeName::InitializeRequestArguments => &INITIALIZE_REQUEST_ARGUMENTS,
        TypeName::InvalidatedEvent => &INVALIDATED_EVENT,
        TypeName::LaunchRequestArguments => &LAUNCH_REQUEST_ARGUMENTS,
        TypeName::LoadedSourceEvent => &LOADED_SOURCE_EVENT,
        TypeName::LoadedSourcesArguments => &LOADED_SOURCES_ARGUMENTS,
        TypeName::LoadedSourcesResponse => &LOADED_SOURCES_RESPONSE,
        TypeName::MemoryEvent => &MEMORY_EVENT,
        TypeName::Module => &MODULE,
        TypeName::ModuleEvent => &MODULE_EVENT,
        TypeName::ModulesArguments => &MODULES_ARGUMENTS,
        TypeName::ModulesResponse => &MODULES_RESPONSE,
        TypeName::NextArguments => &NEXT_ARGUMENTS,
        TypeName::OutputEvent => &OUTPUT_EVENT,
        TypeName::PauseArguments => &PAUSE_ARGUMENTS,
        TypeName::ProcessEvent => &PROCESS_EVENT,
        TypeName::ProgressEndEvent => &PROGRESS_END_EVENT,
        TypeName::ProgressStartEvent => &PROGRESS_START_EVENT,
        TypeName::ProgressUpdateEvent => &PROGRESS_UPDATE_EVENT,
        TypeName::RestartArguments => &RESTART_ARGUMENTS,
        TypeName::ReverseContinueArguments => &REVERSE_CONTINUE_ARGUMENTS,
        TypeName::RunInTerminalEnv => &RUN_IN_TERMINAL_ENV,
        TypeName::RunInTerminalRequestArguments => &RUN_IN_TERMINAL_REQUEST_ARGUMENTS,
        TypeName::RunInTerminalResponse => &RUN_IN_TERMINAL_RESPONSE,
        TypeName::Scope => &SCOPE,
        TypeName::ScopesArguments => &SCOPES_ARGUMENTS,
        TypeName::ScopesResponse => &SCOPES_RESPONSE,
        TypeName::SetBreakpointsArguments => &SET_BREAKPOINTS_ARGUMENTS,
        TypeName::SetBreakpointsResponse => &SET_BREAKPOINTS_RESPONSE,
        TypeName::SetExceptionBreakpointsArguments => &SET_EXCEPTION_BREAKPOINTS_ARGUMENTS,
        TypeName::SetExceptionBreakpointsResponse => &SET_EXCEPTION_BREAKPOINTS_RESPONSE,
        TypeName::SetFunctionBreakpointsArguments => &SET_FUNCTION_BREAKPOINTS_ARGUMENTS,
        TypeName::SetFunctionBreakpointsResponse => &SET_FUNCTION_BREAKPOINTS_RESPONSE,
        TypeName::SetVariableArguments => &SET_VARIABLE_ARGUMENTS,
        TypeName::SetVariableResponse => &SET_VARIABLE_RESPONSE,
        TypeName::Source => &SOURCE,
        TypeName::SourceArguments => &SOURCE_ARGUMENTS,
        TypeName::SourceBreakpoint => &SOURCE_BREAKPOINT,
        TypeName::SourceResponse => &SOURCE_RESPONSE,
        TypeName::StackFrame => &STACK_FRAME,
        TypeName::StackFrameFormat => &STACK_FRAME_FORMAT,
        TypeName::StackTraceArguments => &STACK_TRACE_ARGUMENTS,
        TypeName::StackTraceResponse => &STACK_TRACE_RESPONSE,
        TypeName::StepBackArguments => &STEP_BACK_ARGUMENTS,
        TypeName::StepInArguments => &STEP_IN_ARGUMENTS,
        TypeName::StepOutArguments => &STEP_OUT_ARGUMENTS,
        TypeName::StoppedEvent => &STOPPED_EVENT,
        TypeName::TerminateArguments => &TERMINATE_ARGUMENTS,
        TypeName::TerminatedEvent => &TERMINATED_EVENT,
        TypeName::Thread => &THREAD,
        TypeName::ThreadEvent => &THREAD_EVENT,
        TypeName::ThreadsResponse => &THREADS_RESPONSE,
        TypeName::ValueFormat => &VALUE_FORMAT,
        TypeName::Variable => &VARIABLE,
        TypeName::VariablePresentationHint => &VARIABLE_PRESENTATION_HINT,
        TypeName::VariablesArguments => &VARIABLES_ARGUMENTS,
        TypeName::VariablesResponse => &VARIABLES_RESPONSE,
    }
}
