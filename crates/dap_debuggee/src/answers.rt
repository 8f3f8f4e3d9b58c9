//! What a debuggee tells: threads, frames, scopes, variables, sources, and what happened.
//!
//! Specification, "Thread", "StackFrame", "Scope", "Variable", "Source", and the events "output", "stopped", "continued"
//! and "exited". An object number is the debuggee's own name of a frame, or of a holder: what holds variables.
//!
//! Whatever else the protocol lets a debugger say of one of these can stand beside it (`more`), such as a variable's `type`.
//! None of a body's own members is replaced by that, also not one that is absent: `dap_body::laws::more_is_beside`.
ghost use Rattle.std.specs.Prelude.{◌≡◌};

use dap_json::{More, Text};
use std::alloc::AllocError;

/// Where a debuggee stands.
#[derive(Clone, Copy, Debug, PartialEq, Eq)]
pub enum State {
    NotStarted,
    Running,
    Stopped,
    /// It exited, or was ended.
    Gone,
}

/// How a stopped debuggee is to go on.
#[derive(Clone, Copy, Debug, PartialEq, Eq)]
pub enum How {
    StepIn,
    Next,
    StepOut,
    Continue,
    StepBack,
    ReverseContinue,
}

/// What a debuggee was asked to do.
#[derive(Clone, Copy, Debug, PartialEq, Eq)]
pub enum Asked {
    Start,
    Resume { how: How, thread: i64 },
    Pause,
    Poll,
    SetBreakpoints,
    Assign,
    End,
}

/// Where output belongs: Specification, "OutputEvent".
#[derive(Debug, Drop)]
pub enum Category {
    Console,
    /// What a client shows where it can't be overlooked.
    Important,
    Stdout,
    Stderr,
    /// What a client hands on to who gathers such, and shows nobody.
    Telemetry,
    /// A category of the debuggee's own: a name, as `dap_json::names::is_name` has it. A client that does not know it takes it
    /// for the console's.
    Other(Text),
}

/// What a poll gives.
#[derive(Debug, Drop)]
pub enum Happening {
    Nothing,
    Output {
        category: Category,
        /// At most 128 bytes.
        text: Text,
        /// What is to be said beside these, such as `source` and `line`. A client is told none of it where the event would have
        /// more bytes than a body may have.
        more: More,
    },
    Stopped {
        /// At most 64 bytes.
        reason: Text,
        /// The id of the thread that stopped.
        thread: i64,
        /// What is to be said beside these, such as `description` and `hitBreakpointIds`; told as that of output.
        more: More,
    },
    /// It went on by itself.
    Continued {
        thread: i64,
    },
    Exited {
        code: i32,
    },
}

/// Why a debuggee did not tell what it was asked.
#[derive(Clone, Copy, Debug, PartialEq, Eq)]
pub enum DebuggeeFault {
    /// It has no answer.
    Refused,
    /// Memory was refused.
    OutOfMemory,
}

impl From<AllocError> for DebuggeeFault {
    ghost use Rattle.dap_debuggee.specs.declared.answers.DebuggeeFault.TheVariants.{OutOfMemory};

    ghost from_gives = { λ _ e. e ≡ OutOfMemory };

    fn from(_e: AllocError) -> DebuggeeFault {
        DebuggeeFault::OutOfMemory
    }
}

/// Specification, "Thread".
#[derive(Debug, Drop)]
pub struct Thread {
    /// -9007199254740991 to 9007199254740991.
    pub id: i64,
    pub name: Text,
    /// What is to be said beside these, in the members of its object.
    pub more: More,
}

/// Specification, "StackFrame".
#[derive(Debug, Drop)]
pub struct Frame {
    /// The debuggee's number of it, by which `scopes` and `evaluate` are asked.
    pub object: u64,
    pub name: Text,
    /// The index of its source, from 0; `None` where it has none, such as in a library without symbols.
    pub source: Option<u32>,
    /// 1 to 2147483647; 0 where there is no source.
    pub line: u32,
    /// What is to be said beside these, in the members of its object.
    pub more: More,
}

/// Specification, "Scope".
#[derive(Debug, Drop)]
pub struct Scope {
    pub name: Text,
    /// The number of what holds its variables, by which `children` is asked.
    pub holder: u64,
    /// What is to be said beside these, in the members of its object.
    pub more: More,
}

/// Specification, "Variable".
#[derive(Debug, Drop)]
pub struct Variable {
    pub name: Text,
    pub value: Text,
    /// What holds its children; `None` where it has none.
    pub holder: Option<u64>,
    /// What is to be said beside these, in the members of its object.
    pub more: More,
}

/// The value of an expression: Specification, "EvaluateResponse".
#[derive(Debug, Drop)]
pub struct Evaluation {
    pub value: Text,
    /// What holds its children; `None` where it has none.
    pub holder: Option<u64>,
    /// What is to be said beside these, in the members of its object.
    pub more: More,
}

/// The value that a variable gets: Specification, "SetVariableResponse".
#[derive(Debug, Drop)]
pub struct Assigned {
    pub value: Text,
    /// What is to be said beside these, in the members of its object.
    pub more: More,
}

/// A breakpoint at a line that was asked for: Specification, "Breakpoint".
#[derive(Debug, Drop)]
pub struct Placement {
    /// Whether it can stop there.
    pub verified: bool,
    /// Where it is, counted from 1: the line that was asked for, or another one.
    pub line: u32,
    /// Why it can't stop, or what else is to be known of it.
    pub message: Option<Text>,
    /// What is to be said beside these, in the members of its object.
    pub more: More,
}

/// Specification, "Source".
#[derive(Debug, Drop)]
pub struct Source {
    pub name: Text,
    /// `None` where it has none; then it is named by its number alone.
    pub path: Option<Text>,
    /// Whether the client reads the file at `path` itself, where there is a path. Else it asks for the text by a number.
    pub on_disk: bool,
    /// What is to be said beside these, in the members of its object.
    pub more: More,
}

impl Clone for Placement {
    ghost use Rattle.std.specs.Prelude.{◌≡◌};

    ghost is_clone = { λ a b. b ≡ a };

    fn clone(&self) -> Result<Placement, AllocError> {
        Ok(Placement {
            verified: self.verified,
            line: self.line,
            message: self.message.clone()?,
            more: self.more.clone()?,
        })
    }
}

impl Placement {
    ghost use Rattle.dap_debuggee.specs.Shown.{as_asked};

    /// A breakpoint that is where it was asked for.
    pub fn as_asked(line: u32, verified: bool) -> Placement
        ensures { result ≡ as_asked verified line }
    {
        Placement {
            verified,
            line,
            message: None,
            more: More::none(),
        }
    }
}

impl Category {
    ghost use Rattle.dap_debuggee.specs.Shown.{category_name};

    /// Its name in the protocol.
    pub fn name(&self) -> &str
        ensures { result.now ≡ category_name self.now }
    {
        match self {
            Category::Console => "console",
            Category::Important => "important",
            Category::Stdout => "stdout",
            Category::Stderr => "stderr",
            Category::Telemetry => "telemetry",
            Category::Other(name) => name.as_str(),
        }
    }
}

impl Clone for Category {
    ghost is_clone = { λ a b. b ≡ a };

    fn clone(&self) -> Result<Category, AllocError> {
        match self {
            Category::Console => Ok(Category::Console),
            Category::Important => Ok(Category::Important),
            Category::Stdout => Ok(Category::Stdout),
            Category::Stderr => Ok(Category::Stderr),
            Category::Telemetry => Ok(Category::Telemetry),
            Category::Other(name) => Ok(Category::Other(name.clone()?)),
        }
    }
}
