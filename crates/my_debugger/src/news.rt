//! What there is to tell of a program that runs.
ghost use Rattle.std.specs.Prelude.{◌≡◌, IfOk, IsTrue};
ghost use Rattle.dap_debuggee.specs.Laws.{is_short};
ghost use Rattle.my_debugger.specs.ToyActs.{reason_text, happening_of, state_by};

use dap_debuggee::{Asked, Category, Happening, State};
use dap_json::{More, Text};
use std::alloc::{AllocError, Global};

/// Why a program stopped.
#[derive(Clone, Copy, Debug, PartialEq, Eq)]
pub(crate) enum Reason {
    Breakpoint,
    Step,
    Pause,
}

/// What came of running.
#[derive(Clone, Copy, Debug, PartialEq, Eq)]
pub(crate) enum News {
    Nothing,
    /// A value was printed.
    Printed(u32),
    Stopped(Reason),
    /// The program is at its end.
    Finished,
    /// One call more than there may be: the program is ended.
    TooDeep,
}

/// What was asked last, and the answer.
#[derive(Clone, Copy, Debug, PartialEq, Eq)]
pub(crate) enum LastAct {
    Done(Asked),
    Refused(Asked),
    Polled(News),
}

impl Reason {
    /// Its name in the protocol: Specification, "StoppedEvent".
    fn name(self) -> &'static str
        ensures { result.now ≡ reason_text self }
    {
        match self {
            Reason::Breakpoint => "breakpoint",
            Reason::Step => "step",
            Reason::Pause => "pause",
        }
    }
}

impl News {
    /// Where what ran is then.
    pub(crate) fn state(self) -> State
        ensures { result ≡ state_by self }
    {
        match self {
            News::Nothing | News::Printed(_) => State::Running,
            News::Stopped(_) => State::Stopped,
            News::Finished | News::TooDeep => State::Gone,
        }
    }

    /// What an adapter is told of it. The only thread is 1.
    pub(crate) fn happening(self, alloc: Global) -> Result<Happening, AllocError>
        ensures gives { IfOk result (λ h. h ≡ happening_of self) }
        ensures in_range { IfOk result (λ h. IsTrue (is_short h)) }
    {
        match self {
            News::Nothing => Ok(Happening::Nothing),
            News::Printed(value) => Ok(Happening::Output {
                category: Category::Stdout,
                text: Text::new(format!(in alloc; "{value}\n")?),
                more: More::none(),
            }),
            News::Stopped(reason) => Ok(Happening::Stopped {
                reason: Text::copied(alloc, reason.name())?,
                thread: 1,
                more: More::none(),
            }),
            News::Finished => Ok(Happening::Exited { code: 0 }),
            News::TooDeep => Ok(Happening::Exited { code: 1 }),
        }
    }
}
