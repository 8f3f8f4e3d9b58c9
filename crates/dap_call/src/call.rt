//! Requests with their arguments, typed by the keys of each command.
//!
//! Specification, "Requests". A key that this profile does not list is not kept, save those of `launch` and `attach`.
use dap_command::{Key, SourceKey};
use dap_json::{List, Text, Tree};

/// A request. In one that was read, or is plain, a number of a thread is -9007199254740991 to 9007199254740991, and any
/// other number, unless it says otherwise, is 0 to 2147483647. Lines and columns are counted as the client counts them,
/// from 1 or from 0. `None` was absent.
#[derive(Drop)]
pub enum Call {
    Initialize(Initialize),
    /// The whole object of the arguments, if there is one.
    Launch(Option<Tree>),
    /// Likewise.
    Attach(Option<Tree>),
    ConfigurationDone,
    Disconnect,
    Threads,
    Terminate,
    Cancel {
        /// The `seq` of the request to cancel, 0 to 9007199254740991.
        request_id: Option<u64>,
    },
    SetBreakpoints {
        source: SourceKey,
        lines: List<u32>,
    },
    SetFunctionBreakpoints {
        names: List<Text>,
    },
    SetExceptionBreakpoints {
        filters: List<Text>,
    },
    Continue {
        thread_id: i64,
    },
    Next {
        thread_id: i64,
    },
    StepIn {
        thread_id: i64,
    },
    StepOut {
        thread_id: i64,
    },
    Pause {
        thread_id: i64,
    },
    StepBack {
        thread_id: i64,
    },
    ReverseContinue {
        thread_id: i64,
    },
    StackTrace(StackTrace),
    Scopes {
        frame_id: u32,
    },
    Variables(Variables),
    Evaluate(Evaluate),
    Source {
        /// That of `source` where it is above 0, else `sourceReference`; an absent one reads as 0.
        source_reference: u32,
    },
    LoadedSources,
    SetVariable(SetVariable),
    Restart,
    Modules(Modules),
    ExceptionInfo {
        thread_id: i64,
    },
    BreakpointLocations(BreakpointLocations),
    Completions(Completions),
}

/// The arguments of `initialize`: absent flags are `true` for the two that say where lines and columns start, else
/// `false`.
#[derive(Drop)]
pub struct Initialize {
    /// Empty where it is absent, though the Specification requires it.
    pub adapter_id: Text,
    pub lines_start_at_1: bool,
    pub columns_start_at_1: bool,
    pub supports_variable_paging: bool,
    pub supports_run_in_terminal_request: bool,
}

#[derive(Clone, Copy, Debug)]
pub struct StackTrace {
    pub thread_id: i64,
    /// The index of the first frame wanted, from 0.
    pub start_frame: u32,
    /// At most so many frames; 0 means all.
    pub levels: u32,
}

#[derive(Clone, Copy, Debug)]
pub struct Variables {
    pub variables_reference: u32,
    /// The index of the first variable wanted, from 0.
    pub start: u32,
    /// At most so many variables; 0 means all.
    pub count: u32,
}

#[derive(Drop)]
pub struct Evaluate {
    pub expression: Text,
    pub frame_id: Option<u32>,
}

#[derive(Drop)]
pub struct SetVariable {
    pub variables_reference: u32,
    pub name: Text,
    pub value: Text,
}

#[derive(Clone, Copy, Debug)]
pub struct Modules {
    /// The index of the first module wanted, from 0.
    pub start_module: u32,
    /// At most so many modules; 0 means all.
    pub module_count: u32,
}

#[derive(Drop)]
pub struct BreakpointLocations {
    pub source: SourceKey,
    pub line: u32,
    pub end_line: Option<u32>,
}

#[derive(Drop)]
pub struct Completions {
    pub text: Text,
    pub column: u32,
    pub frame_id: Option<u32>,
    pub line: Option<u32>,
}

/// Why arguments were not read.
#[derive(Clone, Copy, Debug, PartialEq, Eq)]
pub enum CallFault {
    /// The first bad key in the order of the command's row: one that is required and absent, or whose value is not of
    /// its kind or range. It is the row's own key also where the fault stands deeper, as in `source`. `arguments` where
    /// they are no object, or absent while a key is required.
    BadArguments { key: Key },
    /// Memory was refused.
    OutOfMemory,
}
