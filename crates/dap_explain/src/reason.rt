//! Why a line breaks a rule, and against which earlier line it stands.
ghost use Rattle.std.specs.Prelude.{◌≡◌};

use dap_command::Gate;

/// Which of the two kinds a reference is of, by the key that names it.
#[derive(Clone, Copy, Debug, PartialEq, Eq)]
pub enum ReferenceKind {
    /// `frameId`, of a stack frame.
    Frame,
    /// `variablesReference`, by which variables are asked for.
    Variables,
}

impl ReferenceKind {
    ghost use Rattle.dap_explain.specs.Reasons.{other_kind, key_of};

    pub(crate) fn other(self) -> ReferenceKind
        ensures { result ≡ other_kind self }
    {
        match self {
            ReferenceKind::Frame => ReferenceKind::Variables,
            ReferenceKind::Variables => ReferenceKind::Frame,
        }
    }

    /// The key in a request's arguments.
    pub fn key(self) -> &'static str
        ensures { result.now ≡ key_of self }
    {
        match self {
            ReferenceKind::Frame => "frameId",
            ReferenceKind::Variables => "variablesReference",
        }
    }
}

/// Why a line breaks a rule. Lines are told by their numbers in the text, from 1, and requests by their `seq`.
#[derive(Clone, Copy, Debug, PartialEq, Eq)]
pub enum Reason {
    /// Another number was due. The last message of the side before stands in the line `after`, if there is one.
    Numbered {
        due: u64,
        after: Option<u64>,
    },

    /// A response to a request that the other side has not made.
    NotAsked {
        request: u64,
    },
    /// A response to a request that is answered already.
    Answered {
        request: u64,
        asked: u64,
        answered: u64,
    },
    /// A response that names another command than the request.
    OtherCommand {
        request: u64,
        asked: u64,
    },
    /// A request with the number of one that waits for its response.
    Waits {
        request: u64,
        asked: u64,
    },

    /// The first request of the client is another one.
    NotInitialize,
    /// The second request of the client, before a response to the first.
    FirstWaits {
        asked: u64,
    },

    /// The event `initialized` where no `initialize` was asked.
    NeverAsked,
    /// The event before the response to `initialize`.
    InitializeWaits {
        asked: u64,
    },
    /// The event although `initialize` has failed.
    InitializeFailed {
        answered: u64,
    },

    /// A request that needs a flag, before a successful response to `initialize`.
    NotInitialized {
        gate: Gate,
    },
    /// A request that needs a flag that is not offered. The line has said so last: a response to `initialize`, or a
    /// `capabilities` event that names the flag.
    NotOffered {
        gate: Gate,
        decided: u64,
    },

    /// A request names a number below 0, which is no reference.
    Negative {
        kind: ReferenceKind,
    },
    /// A request names a number that no response has given.
    NeverGiven {
        kind: ReferenceKind,
        number: u64,
    },
    /// A request names a number that was given as a reference of the other kind alone.
    OtherKind {
        kind: ReferenceKind,
        number: u64,
        given: u64,
    },
    /// A request names a number that was given, and then the debuggee went on, or ended.
    Gone {
        kind: ReferenceKind,
        number: u64,
        given: u64,
        resumed: u64,
    },

    /// A message after the successful response to `disconnect`.
    Ended {
        ended: u64,
    },
}
