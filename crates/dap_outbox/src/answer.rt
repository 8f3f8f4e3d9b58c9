//! How a request is answered, and what is told, before it is written.
ghost use Rattle.std.specs.Prelude.{◌≡◌};
ghost use Rattle.dap_message.specs.MessageParts.{without_more};
ghost use Rattle.dap_outbox.specs.Outbox.{event_of};

use dap_body::Failure;
use dap_debuggee::Category;
use dap_json::{More, Text};

/// A body of a fixed shape.
#[derive(Clone, Copy, Debug)]
pub enum Fixed {
    /// All threads go on.
    Continue,
}

/// How a request is answered where the answer has no body, or one of a fixed shape.
#[derive(Debug, Drop)]
pub enum Answer {
    Success(Option<Fixed>),
    Failure(Failure),
}

/// What is told to the client.
#[derive(Debug, Drop)]
pub enum Event {
    Initialized,
    Output {
        category: Category,
        text: Text,
        more: More,
    },
    Stopped {
        reason: Text,
        thread: i64,
        more: More,
    },
    Continued {
        thread: i64,
    },
    Exited {
        code: i32,
    },
    Terminated,
}

impl Event {
    /// The same with no more beside its own members.
    pub(crate) fn alone(self) -> Event
        ensures { event_of result ≡ without_more (event_of self) }
    {
        match self {
            Event::Output { category, text, .. } => Event::Output {
                category,
                text,
                more: More::none(),
            },
            Event::Stopped { reason, thread, .. } => Event::Stopped {
                reason,
                thread,
                more: More::none(),
            },
            Event::Initialized => Event::Initialized,
            Event::Continued { thread } => Event::Continued { thread },
            Event::Exited { code } => Event::Exited { code },
            Event::Terminated => Event::Terminated,
        }
    }
}
