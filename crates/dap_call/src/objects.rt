//! What of the debuggee a call names.
ghost use Rattle.std.specs.Prelude.{◌≡◌};

use crate::call::Call;

/// What of the debuggee a call names that has to be there.
#[derive(Clone, Copy, Debug, PartialEq, Eq)]
pub enum CallObject {
    Nothing,
    /// A thread, by its id.
    Thread(i64),
    /// A source, by its reference.
    Source(u32),
    /// A stack frame, by its id; where it is absent none is named.
    Frame(Option<u32>),
    /// What has variables, by the number by which they are asked for.
    Holder(u32),
}

impl Call {
    ghost use Rattle.dap_call.specs.CallObjects.{object_named};

    /// What of the debuggee it names that has to be there.
    pub fn object(&self) -> CallObject
        ensures { result ≡ object_named self.now }
    {
        match self {
            Call::Continue { thread_id } => CallObject::Thread(*thread_id),
            Call::Next { thread_id } => CallObject::Thread(*thread_id),
            Call::StepIn { thread_id } => CallObject::Thread(*thread_id),
            Call::StepOut { thread_id } => CallObject::Thread(*thread_id),
            Call::StepBack { thread_id } => CallObject::Thread(*thread_id),
            Call::ReverseContinue { thread_id } => CallObject::Thread(*thread_id),
            Call::StackTrace(asked) => CallObject::Thread(asked.thread_id),
            Call::ExceptionInfo { thread_id } => CallObject::Thread(*thread_id),
            Call::Source { source_reference } => CallObject::Source(*source_reference),
            Call::Scopes { frame_id } => CallObject::Frame(Some(*frame_id)),
            Call::Evaluate(asked) => CallObject::Frame(asked.frame_id),
            Call::Completions(asked) => CallObject::Frame(asked.frame_id),
            Call::Variables(asked) => CallObject::Holder(asked.variables_reference),
            Call::SetVariable(asked) => CallObject::Holder(asked.variables_reference),
            _ => CallObject::Nothing,
        }
    }
}
