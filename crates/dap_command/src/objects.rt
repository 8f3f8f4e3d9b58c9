//! What of the debuggee a command is about: what its arguments name, and what the body of its response gives references to.
//!
//! Specification, the types whose names end in "Arguments" and in "Response".
ghost use Rattle.std.specs.Prelude.{◌≡◌, option_map};

use crate::command::Command;
use dap_json::object_reader::Range;

/// The greatest number of a reference.
pub(crate) const MAX_REFERENCE: u64 = 2147483647;

/// What arguments name that has to be there.
#[derive(Clone, Copy, Debug, PartialEq, Eq)]
pub enum NamedObject {
    Nothing,
    /// A thread, by its id.
    Thread,
    /// A source, by its reference.
    Source,
    /// A stack frame, by its id.
    Frame,
    /// What has variables, by the number by which they are asked for.
    Holder,
}

/// What the body of a success gives references to, and where they stand in it.
#[derive(Clone, Copy, Debug, PartialEq, Eq)]
pub enum GivenObjects {
    Nothing,
    /// The stack frames of a list.
    Frames,
    /// The scopes of a list.
    Scopes,
    /// The variables of a list.
    Variables,
    /// The value that the body is.
    Value,
}

impl GivenObjects {
    ghost use Rattle.dap_command.specs.Objects.{member_of, IsAt, number_key_of, least_of};

    /// The member of a body that holds them: a list of objects, or the number of the value that the body is.
    #[inline]
    pub fn member(self) -> Option<&'static str>
        ensures { option_map (λ text. text.now) result ≡ member_of self }
    {
        match self {
            GivenObjects::Nothing => None,
            GivenObjects::Frames => Some("stackFrames"),
            GivenObjects::Scopes => Some("scopes"),
            GivenObjects::Variables => Some("variables"),
            GivenObjects::Value => Some("variablesReference"),
        }
    }

    /// What stands at a member of a body.
    #[inline]
    pub fn at_member(member: &str) -> GivenObjects
        ensures { IsAt member.now result }
    {
        match member {
            "stackFrames" => GivenObjects::Frames,
            "scopes" => GivenObjects::Scopes,
            "variables" => GivenObjects::Variables,
            "variablesReference" => GivenObjects::Value,
            _ => GivenObjects::Nothing,
        }
    }

    /// The key at which each has its number.
    #[inline]
    pub fn number_key(self) -> &'static str
        ensures { result.now ≡ number_key_of self }
    {
        match self {
            GivenObjects::Frames => "id",
            _ => "variablesReference",
        }
    }

    /// Which numbers are references: ids of frames from 0 on, all others from 1 on, since 0 says that there is nothing to ask
    /// for.
    #[inline]
    pub fn range(self) -> Range
        ensures least { result.least ≡ least_of self }
        ensures most { result.most ≡ 2147483647 }
    {
        let least = match self {
            GivenObjects::Frames => 0,
            _ => 1,
        };
        Range {
            least,
            most: MAX_REFERENCE,
        }
    }
}

impl Command {
    ghost use Rattle.dap_command.specs.Objects.{named_object, given_objects};

    /// What its arguments name that has to be there.
    pub fn named_object(self) -> NamedObject
        ensures { result ≡ named_object self }
    {
        match self {
            Command::Continue
            | Command::Next
            | Command::StepIn
            | Command::StepOut
            | Command::StepBack
            | Command::ReverseContinue
            | Command::StackTrace
            | Command::ExceptionInfo => NamedObject::Thread,
            Command::Source => NamedObject::Source,
            Command::Scopes | Command::Evaluate | Command::Completions => NamedObject::Frame,
            Command::Variables | Command::SetVariable => NamedObject::Holder,
            _ => NamedObject::Nothing,
        }
    }

    /// What the body of its success gives references to.
    pub fn given_objects(self) -> GivenObjects
        ensures { result ≡ given_objects self }
    {
        match self {
            Command::StackTrace => GivenObjects::Frames,
            Command::Scopes => GivenObjects::Scopes,
            Command::Variables => GivenObjects::Variables,
            Command::Evaluate | Command::SetVariable => GivenObjects::Value,
            _ => GivenObjects::Nothing,
        }
    }
}
