//! The text of each message that an adapter writes without a body of its own.
ghost use Rattle.std.specs.Prelude.{◌≡◌, ◌≤◌, ◌++◌, length, IfOk, OnOk, OnErr, IsTrue};
ghost use Rattle.dap_body.specs.Body.{event_data_in};
ghost use Rattle.dap_envelope.specs.Canon.{canon};
ghost use Rattle.dap_envelope.specs.Refusals.{max_command};
ghost use Rattle.dap_outbox.specs.Draft.{reply, emit, ask, ask_named, explained, came_out, message_of, recorded_terminal};
ghost use Rattle.dap_outbox.specs.InRange.{IsRequestInRange};
ghost use Rattle.dap_outbox.specs.Outbox.{answer_of, event_of, shape_of};
ghost use Rattle.dap_json.specs.Field.{max_seq};
ghost use Rattle.dap_json.specs.Writable.{is_plain_tree};
ghost use Rattle.dap_message.specs.MessageParts.{event_name, event_body, is_plain_outcome, named};
ghost use Rattle.dap_message.specs.Appending.{CanonIsRead};
ghost use Rattle.dap_message.specs.Lengths.{max_fixed};
ghost use Rattle.dap_envelope.specs.ReadBack.{ReadsBack};

use crate::answer::{Answer, Event, Fixed};
use dap_body::{Body, EventBody};
use dap_call::{RUN_IN_TERMINAL, TerminalCall, write_terminal};
use dap_debuggee::Explanation;
use dap_json::{List, Text, Tree};
use dap_message::laws::fixed_messages_are_short;
use dap_message::{
    Outcome, append_answer, append_event, append_explained, append_failure, append_named_event,
    append_outcome, append_request,
};
use dap_tables::Entry;
use std::alloc::{AllocError, Global};

fn body_of(fixed: Option<Fixed>) -> Option<Body>
    ensures { result ≡ shape_of fixed }
{
    match fixed {
        None => None,
        Some(Fixed::Continue) => Some(Body::Continue),
    }
}

/// Appends the text of the response to a request, or changes nothing.
pub(crate) fn append_reply(
    alloc: Global,
    out: &mut Vec<u8>,
    seq: u64,
    request: &Entry,
    answer: &Answer,
) -> Result<(), AllocError>
    ensures canon { OnOk result (out.new.items ≡ out.old.items ++ canon (message_of seq (reply request.now (answer_of answer.now)))) }
    ensures reads_back { OnOk result (seq ≤ max_seq → IsRequestInRange request.now → ReadsBack max_fixed (message_of seq (reply request.now (answer_of answer.now)))) }
    ensures err { OnErr result (out.new.items ≡ out.old.items) }
{
    fixed_messages_are_short();
    let command = request.command.as_str();
    match answer {
        Answer::Failure(failure) => {
            append_failure(alloc, out, seq, request.seq, command, *failure)
        }
        Answer::Success(fixed) => {
            append_answer(alloc, out, seq, request.seq, command, &body_of(*fixed))
        }
    }
}

/// Appends the text of a failure with why the debuggee refused, or changes nothing.
pub(crate) fn append_why(
    alloc: Global,
    out: &mut Vec<u8>,
    seq: u64,
    request: &Entry,
    told: &Explanation,
) -> Result<(), AllocError>
    ensures canon { OnOk result (out.new.items ≡ out.old.items ++ canon (message_of seq (reply request.now (explained told.now)))) }
    ensures reads_back { OnOk result (seq ≤ max_seq → IsRequestInRange request.now → CanonIsRead (message_of seq (reply request.now (explained told.now)))) }
    ensures err { OnErr result (out.new.items ≡ out.old.items) }
{
    let (command, why) = (request.command.as_str(), told.text.as_str());
    append_explained(alloc, out, seq, request.seq, command, why, told.show_user)
}

/// Appends the text of the response to a request that came out so, or changes nothing.
pub(crate) fn append_response(
    alloc: Global,
    out: &mut Vec<u8>,
    seq: u64,
    request: &Entry,
    outcome: &Outcome,
) -> Result<(), AllocError>
    requires { IsTrue (is_plain_outcome outcome.now) }
    ensures canon { OnOk result (out.new.items ≡ out.old.items ++ canon (message_of seq (reply request.now (came_out outcome.now)))) }
    ensures reads_back { OnOk result (seq ≤ max_seq → IsRequestInRange request.now → CanonIsRead (message_of seq (reply request.now (came_out outcome.now)))) }
    ensures err { OnErr result (out.new.items ≡ out.old.items) }
{
    append_outcome(
        alloc,
        out,
        seq,
        request.seq,
        request.command.as_str(),
        outcome,
    )
}

fn event_name(event: &Event) -> &'static str
    ensures { result.now ≡ event_name (event_of event.now) }
{
    match event {
        Event::Initialized => "initialized",
        Event::Terminated => "terminated",
        Event::Output { .. } => "output",
        Event::Stopped { .. } => "stopped",
        Event::Continued { .. } => "continued",
        Event::Exited { .. } => "exited",
    }
}

fn event_body(event: &Event) -> Option<EventBody<'_>>
    ensures { event_data_in result ≡ event_body (event_of event.now) }
{
    match event {
        Event::Initialized => None,
        Event::Terminated => None,
        Event::Output {
            category,
            text,
            more,
        } => Some(EventBody::Output {
            category: category.name(),
            output: text,
            more,
        }),
        Event::Stopped {
            reason,
            thread,
            more,
        } => Some(EventBody::Stopped {
            reason,
            thread_id: *thread,
            more,
        }),
        Event::Continued { thread } => Some(EventBody::Continued { thread_id: *thread }),
        Event::Exited { code } => Some(EventBody::Exited { exit_code: *code }),
    }
}

/// Appends the text of an event, or changes nothing.
pub(crate) fn append_told(
    alloc: Global,
    out: &mut Vec<u8>,
    seq: u64,
    event: &Event,
) -> Result<(), AllocError>
    ensures canon { OnOk result (out.new.items ≡ out.old.items ++ canon (message_of seq (emit (event_of event.now)))) }
    ensures reads_back { OnOk result (seq ≤ max_seq → CanonIsRead (message_of seq (emit (event_of event.now)))) }
    ensures err { OnErr result (out.new.items ≡ out.old.items) }
{
    append_event(alloc, out, seq, event_name(event), event_body(event))
}

/// Appends the text of an event of any name, or changes nothing.
pub(crate) fn append_named(
    alloc: Global,
    out: &mut Vec<u8>,
    seq: u64,
    event: &str,
    body: &Option<Tree>,
) -> Result<(), AllocError>
    requires { IsTrue (is_plain_tree body.now) }
    ensures canon { OnOk result (out.new.items ≡ out.old.items ++ canon (message_of seq (emit (named event.now body.now)))) }
    ensures reads_back { OnOk result (seq ≤ max_seq → CanonIsRead (message_of seq (emit (named event.now body.now)))) }
    ensures err { OnErr result (out.new.items ≡ out.old.items) }
{
    append_named_event(alloc, out, seq, event, body)
}

/// What the client's terminal is to run.
fn recorded_terminal(alloc: Global) -> Result<TerminalCall, AllocError>
    ensures { IfOk result (λ call. call ≡ recorded_terminal) }
{
    let mut args = Vec::new(alloc);
    args.push(Text::copied(alloc, "recorded")?)?;
    Ok(TerminalCall {
        kind: Some(Text::copied(alloc, "integrated")?),
        title: Some(Text::copied(alloc, "recorded")?),
        cwd: Text::copied(alloc, "/")?,
        args: List::new(args),
    })
}

/// Appends the text of the request for a terminal, or changes nothing.
pub(crate) fn append_terminal(alloc: Global, out: &mut Vec<u8>, seq: u64) -> Result<(), AllocError>
    ensures canon { OnOk result (out.new.items ≡ out.old.items ++ canon (message_of seq ask)) }
    ensures reads_back { OnOk result (seq ≤ max_seq → ReadsBack max_fixed (message_of seq ask)) }
    ensures err { OnErr result (out.new.items ≡ out.old.items) }
{
    let call = recorded_terminal(alloc)?;
    let arguments = Some(Tree::new(write_terminal(alloc, &call)?));
    append_request(alloc, out, seq, RUN_IN_TERMINAL, &arguments)
}

/// Appends the text of a request of any name, or changes nothing.
pub(crate) fn append_named_request(
    alloc: Global,
    out: &mut Vec<u8>,
    seq: u64,
    command: &str,
    arguments: &Option<Tree>,
) -> Result<(), AllocError>
    requires { IsTrue (is_plain_tree arguments.now) }
    ensures canon { OnOk result (out.new.items ≡ out.old.items ++ canon (message_of seq (ask_named command.now arguments.now))) }
    ensures reads_back { OnOk result (seq ≤ max_seq → length command.now ≤ max_command → CanonIsRead (message_of seq (ask_named command.now arguments.now))) }
    ensures err { OnErr result (out.new.items ≡ out.old.items) }
{
    append_request(alloc, out, seq, command, arguments)
}
