//! The keys of arguments: Specification, the types whose names end in "Arguments".
ghost use Rattle.std.specs.Prelude.{◌≡◌};

/// A key of the arguments of a command, or of `runInTerminal`; or `arguments` for the whole.
#[derive(Clone, Copy, Debug, PartialEq, Eq)]
pub enum Key {
    Arguments,
    AdapterId,
    LinesStartAt1,
    ColumnsStartAt1,
    SupportsVariablePaging,
    SupportsRunInTerminalRequest,
    RequestId,
    Source,
    Breakpoints,
    Lines,
    Line,
    Filters,
    ThreadId,
    StartFrame,
    Levels,
    FrameId,
    VariablesReference,
    Start,
    Count,
    Expression,
    SourceReference,
    Name,
    Value,
    StartModule,
    ModuleCount,
    EndLine,
    Text,
    Column,
    Path,
    Kind,
    Title,
    Cwd,
    Args,
    Env,
}

impl Key {
    ghost use Rattle.dap_command.specs.Key.{text_of};

    /// Its name in the protocol.
    pub fn name(self) -> &'static str
        ensures { result.now ≡ text_of self }
    {
        match self {
            Key::Arguments => "arguments",
            Key::AdapterId => "adapterID",
            Key::LinesStartAt1 => "linesStartAt1",
            Key::ColumnsStartAt1 => "columnsStartAt1",
            Key::SupportsVariablePaging => "supportsVariablePaging",
            Key::SupportsRunInTerminalRequest => "supportsRunInTerminalRequest",
            Key::RequestId => "requestId",
            Key::Source => "source",
            Key::Breakpoints => "breakpoints",
            Key::Lines => "lines",
            Key::Line => "line",
            Key::Filters => "filters",
            Key::ThreadId => "threadId",
            Key::StartFrame => "startFrame",
            Key::Levels => "levels",
            Key::FrameId => "frameId",
            Key::VariablesReference => "variablesReference",
            Key::Start => "start",
            Key::Count => "count",
            Key::Expression => "expression",
            Key::SourceReference => "sourceReference",
            Key::Name => "name",
            Key::Value => "value",
            Key::StartModule => "startModule",
            Key::ModuleCount => "moduleCount",
            Key::EndLine => "endLine",
            Key::Text => "text",
            Key::Column => "column",
            Key::Path => "path",
            Key::Kind => "kind",
            Key::Title => "title",
            Key::Cwd => "cwd",
            Key::Args => "args",
            Key::Env => "env",
        }
    }
}
