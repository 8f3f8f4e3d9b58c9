//! The texts of requests, responses and events, appended with no tree of the message.
//!
//! Specification, "Request", "Response", "ErrorResponse", "Event". Each is the text that `write_message` gives of that message.
//! Where memory is refused, the buffer is as it was.
ghost use Rattle.std.specs.Prelude.{◌≡◌, ◌≤◌, ◌++◌, length, take, IfOk, IsOk, OnOk, OnErr, IsTrue, None, Some, false, true};
ghost use Rattle.json.specs.Tree.{members_tokens};
ghost use Rattle.serde_json.specs.Written.{compact_text, members_outline, members_text};
ghost use Rattle.dap_json.specs.Sound.{IsSound};
ghost use Rattle.dap_json.specs.Writable.{is_plain_tree};
ghost use Rattle.dap_body.specs.Adds.{Adds};
ghost use Rattle.dap_body.specs.Body.{data_in, event_data_in};
ghost use Rattle.dap_body.specs.Failure.{explained_body, failure_body};
ghost use Rattle.dap_message.specs.PrivateAnswering.{with_body, with_arguments, end_members, response_end};
ghost use Rattle.dap_envelope.specs.Canon.{canon, request_members, event_members, response_members};
ghost use Rattle.dap_envelope.specs.SoundMessage.{IsSoundTree};
ghost use Rattle.dap_message.specs.MessageParts.{is_plain_outcome};
ghost use Rattle.dap_message.specs.declared.outcome.Outcome.TheVariants as came;
ghost use Rattle.dap_message.specs.Appending.{AddsFailure, AddsExplained, AddsAnswer, AddsOutcome, AddsEvent, AddsNamedEvent, AddsRequest, FailureReadsBack, ExplainedReadsBack, AnswerReadsBack, OutcomeReadsBack, EventReadsBack, NamedEventReadsBack, RequestReadsBack};

use crate::outcome::Outcome;
use dap_body::{
    Body, EventBody, Failure, append_body, append_event_body, append_explained_body,
    append_failure_body,
};
use dap_envelope::laws::written_is_read_again;
use dap_json::Tree;
use dap_json::laws::what_is_read_is_sound;
use json::Writer;
use std::alloc::{AllocError, Global};
use std::mem;

/// The room that a text is given at first, in bytes.
const ROOM: usize = 256;

/// The most room that is foreseen for a body, in bytes.
const MOST_ROOM: usize = 65536;

/// The room that a text with this body most often needs, in bytes; one that is longer takes more as it grows.
fn room_for(body: &Body) -> usize {
    let (count, each) = match body {
        Body::Initialize { .. } => (12, 48),
        Body::SetBreakpoints { breakpoints } => (breakpoints.len(), 48),
        Body::Threads { threads } => (threads.len(), 64),
        Body::Continue => (1, 32),
        Body::RunInTerminal { .. } => (2, 32),
        Body::StackTrace { stack_frames, .. } => (stack_frames.len(), 224),
        Body::Scopes { scopes } => (scopes.len(), 96),
        Body::Variables { variables } => (variables.len(), 96),
        Body::LoadedSources { sources } => (sources.len(), 128),
        Body::Source { content } => (content.len(), 1),
        Body::SetVariable { value, .. } => (value.len(), 1),
        Body::Evaluate { result, .. } => (result.len(), 1),
    };
    count
        .saturating_mul(each)
        .min(MOST_ROOM)
        .saturating_add(ROOM)
}

/// The text of a tree that can be written, and so one that a `Value` can hold.
fn tree_text(alloc: Global, tree: &Tree) -> Result<Vec<u8>, AllocError>
    requires { IsTrue (is_plain_tree (Some tree.now)) }
    ensures text { IfOk result (λ text. text.items ≡ compact_text tree.now) }
    ensures sound { OnOk result (IsSound tree.now) }
{
    // A law for the proof: what is written is read again, and what is read is sound.
    what_is_read_is_sound();
    dap_json::write(alloc, tree.value())
}

// ---- a text up to the end of its body, with the comma after it; where memory is refused, a part of it may be there

fn open_event(
    alloc: Global,
    out: &mut Vec<u8>,
    body: Option<EventBody<'_>>,
) -> Result<(), AllocError>
    ensures ok { OnOk result (out.new.items ≡ out.old.items ++ with_body (event_data_in body.entry)) }
    ensures sound { OnOk result (IsSoundTree (event_data_in body.entry)) }
    ensures front { take (length out.old.items) out.new.items ≡ out.old.items }
{
    out.reserve(ROOM)?;
    let Some(body) = body else {
        out.push(b'{')?;
        return Ok(());
    };
    out.extend_from_slice(b"{\"body\":")?;
    append_event_body(alloc, out, body)?;
    out.push(b',')?;
    Ok(())
}

/// The same of a body that is a tree.
fn open_tree(alloc: Global, out: &mut Vec<u8>, body: &Option<Tree>) -> Result<(), AllocError>
    requires { IsTrue (is_plain_tree body.now) }
    ensures ok { OnOk result (out.new.items ≡ out.old.items ++ with_body body.now) }
    ensures sound { OnOk result (IsSoundTree body.now) }
    ensures front { take (length out.old.items) out.new.items ≡ out.old.items }
{
    out.reserve(ROOM)?;
    let Some(body) = body else {
        out.push(b'{')?;
        return Ok(());
    };
    out.extend_from_slice(b"{\"body\":")?;
    out.extend_from_slice(&tree_text(alloc, body)?)?;
    out.push(b',')?;
    Ok(())
}

/// The same of the body of a response.
fn open_answer(alloc: Global, out: &mut Vec<u8>, body: &Option<Body>) -> Result<(), AllocError>
    ensures ok { OnOk result (out.new.items ≡ out.old.items ++ with_body (data_in body.now)) }
    ensures sound { OnOk result (IsSoundTree (data_in body.now)) }
    ensures front { take (length out.old.items) out.new.items ≡ out.old.items }
{
    let Some(body) = body else {
        out.reserve(ROOM)?;
        out.push(b'{')?;
        return Ok(());
    };
    out.reserve(room_for(body))?;
    out.extend_from_slice(b"{\"body\":")?;
    append_body(alloc, out, body)?;
    out.push(b',')?;
    Ok(())
}

/// The same of a failure's body.
fn open_failure(alloc: Global, out: &mut Vec<u8>, failure: Failure) -> Result<(), AllocError>
    ensures ok { OnOk result (out.new.items ≡ out.old.items ++ with_body (Some (failure_body failure))) }
    ensures sound { OnOk result (IsSoundTree (Some (failure_body failure))) }
    ensures front { take (length out.old.items) out.new.items ≡ out.old.items }
{
    out.reserve(ROOM)?;
    out.extend_from_slice(b"{\"body\":")?;
    append_failure_body(alloc, out, failure)?;
    out.push(b',')?;
    Ok(())
}

/// The same of the body of a failure that the debuggee gives a reason for.
fn open_explained(
    alloc: Global,
    out: &mut Vec<u8>,
    why: &str,
    show_user: bool,
) -> Result<(), AllocError>
    ensures ok { OnOk result (out.new.items ≡ out.old.items ++ with_body (Some (explained_body show_user why.now))) }
    ensures sound { OnOk result (IsSoundTree (Some (explained_body show_user why.now))) }
    ensures front { take (length out.old.items) out.new.items ≡ out.old.items }
{
    out.reserve(ROOM)?;
    out.extend_from_slice(b"{\"body\":")?;
    append_explained_body(alloc, out, why, show_user)?;
    out.push(b',')?;
    Ok(())
}

/// The same of a request, up to the end of its arguments.
fn open_request(
    alloc: Global,
    out: &mut Vec<u8>,
    arguments: &Option<Tree>,
) -> Result<(), AllocError>
    requires { IsTrue (is_plain_tree arguments.now) }
    ensures ok { OnOk result (out.new.items ≡ out.old.items ++ with_arguments arguments.now) }
    ensures sound { OnOk result (IsSoundTree arguments.now) }
    ensures front { take (length out.old.items) out.new.items ≡ out.old.items }
{
    out.reserve(ROOM)?;
    let Some(arguments) = arguments else {
        out.push(b'{')?;
        return Ok(());
    };
    out.extend_from_slice(b"{\"arguments\":")?;
    out.extend_from_slice(&tree_text(alloc, arguments)?)?;
    out.push(b',')?;
    Ok(())
}

// ---- what comes after it

fn request_end(out: &mut Writer, seq: u64, command: &str) -> Result<(), AllocError>
    ensures adds { OnOk result (Adds out.old out.new (members_tokens (members_outline (request_members seq command.now None)))) }
    ensures before { out.new.before ≡ out.old.before }
{
    out.key("command")?;
    out.string(command)?;
    out.key("seq")?;
    out.u64(seq)?;
    out.key("type")?;
    out.string("request")?;
    out.end_object()
}

fn response_end(
    out: &mut Writer,
    seq: u64,
    request_seq: u64,
    success: bool,
) -> Result<(), AllocError>
    ensures adds { OnOk result (Adds out.old out.new (response_end seq request_seq success)) }
    ensures before { out.new.before ≡ out.old.before }
{
    out.key("request_seq")?;
    out.u64(request_seq)?;
    out.key("seq")?;
    out.u64(seq)?;
    out.key("success")?;
    out.boolean(success)?;
    out.key("type")?;
    out.string("response")?;
    out.end_object()
}

fn success_end(
    out: &mut Writer,
    seq: u64,
    request_seq: u64,
    command: &str,
) -> Result<(), AllocError>
    ensures adds { OnOk result (Adds out.old out.new (members_tokens (members_outline (response_members seq request_seq true command.now None None)))) }
    ensures before { out.new.before ≡ out.old.before }
{
    out.key("command")?;
    out.string(command)?;
    response_end(out, seq, request_seq, true)
}

fn failure_end(
    out: &mut Writer,
    seq: u64,
    request_seq: u64,
    command: &str,
    name: &str,
) -> Result<(), AllocError>
    ensures adds { OnOk result (Adds out.old out.new (members_tokens (members_outline (response_members seq request_seq false command.now (Some name.now) None)))) }
    ensures before { out.new.before ≡ out.old.before }
{
    out.key("command")?;
    out.string(command)?;
    out.key("message")?;
    out.string(name)?;
    response_end(out, seq, request_seq, false)
}

fn event_end(out: &mut Writer, seq: u64, event: &str) -> Result<(), AllocError>
    ensures adds { OnOk result (Adds out.old out.new (members_tokens (members_outline (event_members seq event.now None)))) }
    ensures before { out.new.before ≡ out.old.before }
{
    out.key("event")?;
    out.string(event)?;
    out.key("seq")?;
    out.u64(seq)?;
    out.key("type")?;
    out.string("event")?;
    out.end_object()
}

/// What a text has after its body.
#[derive(Clone, Copy)]
enum End<'a> {
    Request {
        seq: u64,
        command: &'a str,
    },
    Success {
        seq: u64,
        request_seq: u64,
        command: &'a str,
    },
    Failure {
        seq: u64,
        request_seq: u64,
        command: &'a str,
        name: &'a str,
    },
    Event {
        seq: u64,
        event: &'a str,
    },
}

fn write_end(out: &mut Writer, end: End<'_>) -> Result<(), AllocError>
    ensures adds { OnOk result (Adds out.old out.new (members_tokens (members_outline (end_members end.entry)))) }
    ensures before { out.new.before ≡ out.old.before }
{
    match end {
        End::Request { seq, command } => request_end(out, seq, command),
        End::Success {
            seq,
            request_seq,
            command,
        } => success_end(out, seq, request_seq, command),
        End::Failure {
            seq,
            request_seq,
            command,
            name,
        } => failure_end(out, seq, request_seq, command, name),
        End::Event { seq, event } => event_end(out, seq, event),
    }
}

/// Appends it where what is before it was appended; else the buffer is cut to its first bytes.
fn close(
    alloc: Global,
    out: &mut Vec<u8>,
    start: usize,
    opened: Result<(), AllocError>,
    end: End<'_>,
) -> Result<(), AllocError>
    requires { start ≤ length out.old.items }
    ensures opened { OnOk result (IsOk opened) }
    ensures ok { OnOk result (out.new.items ≡ out.old.items ++ members_text false (end_members end.entry)) }
    ensures err { OnErr result (out.new.items ≡ take start out.old.items) }
{
    if opened.is_err() {
        out.truncate(start);
        return opened;
    }
    let mut writer = Writer::new(mem::replace(out, Vec::new(alloc)));
    let result = write_end(&mut writer, end);
    *out = writer.into_inner();
    if result.is_err() {
        out.truncate(start);
    }
    result
}

/// Appends the text of the response to a request that failed.
pub fn append_failure(
    alloc: Global,
    out: &mut Vec<u8>,
    seq: u64,
    request_seq: u64,
    command: &str,
    failure: Failure,
) -> Result<(), AllocError>
    ensures canon { OnOk result (AddsFailure seq request_seq command.now failure out.old out.new) }
    ensures reads_back { OnOk result (FailureReadsBack seq request_seq command.now failure) }
    ensures err { OnErr result (out.new.items ≡ out.old.items) }
{
    // A law for the proof: what is written is read again.
    written_is_read_again();
    let start = out.len();
    let opened = open_failure(alloc, out, failure);
    let name = failure.name();
    let end = End::Failure {
        seq,
        request_seq,
        command,
        name,
    };
    close(alloc, out, start, opened, end)
}

/// Appends the text of the response to a request that the debuggee refused, with what it says of why: the failure `debuggee`, its
/// body as by [`append_explained_body`].
pub fn append_explained(
    alloc: Global,
    out: &mut Vec<u8>,
    seq: u64,
    request_seq: u64,
    command: &str,
    why: &str,
    show_user: bool,
) -> Result<(), AllocError>
    ensures canon { OnOk result (AddsExplained seq request_seq command.now show_user why.now out.old out.new) }
    ensures reads_back { OnOk result (ExplainedReadsBack seq request_seq command.now show_user why.now) }
    ensures err { OnErr result (out.new.items ≡ out.old.items) }
{
    // A law for the proof: what is written is read again.
    written_is_read_again();
    let start = out.len();
    let opened = open_explained(alloc, out, why, show_user);
    let name = Failure::Debuggee.name();
    let end = End::Failure {
        seq,
        request_seq,
        command,
        name,
    };
    close(alloc, out, start, opened, end)
}

/// Appends the text of the response to a request that succeeded.
pub fn append_answer(
    alloc: Global,
    out: &mut Vec<u8>,
    seq: u64,
    request_seq: u64,
    command: &str,
    body: &Option<Body>,
) -> Result<(), AllocError>
    ensures canon { OnOk result (AddsAnswer seq request_seq command.now body.now out.old out.new) }
    ensures reads_back { OnOk result (AnswerReadsBack seq request_seq command.now body.now) }
    ensures err { OnErr result (out.new.items ≡ out.old.items) }
{
    // A law for the proof: what is written is read again.
    written_is_read_again();
    let start = out.len();
    let opened = open_answer(alloc, out, body);
    let end = End::Success {
        seq,
        request_seq,
        command,
    };
    close(alloc, out, start, opened, end)
}

/// The same of a success whose body is a tree.
fn append_success(
    alloc: Global,
    out: &mut Vec<u8>,
    seq: u64,
    request_seq: u64,
    command: &str,
    body: &Option<Tree>,
) -> Result<(), AllocError>
    requires { IsTrue (is_plain_tree body.now) }
    ensures canon { OnOk result (AddsOutcome seq request_seq command.now (came.Success body.now) out.old out.new) }
    ensures reads_back { OnOk result (OutcomeReadsBack seq request_seq command.now (came.Success body.now)) }
    ensures err { OnErr result (out.new.items ≡ out.old.items) }
{
    // A law for the proof: what is written is read again.
    written_is_read_again();
    let start = out.len();
    let opened = open_tree(alloc, out, body);
    let end = End::Success {
        seq,
        request_seq,
        command,
    };
    close(alloc, out, start, opened, end)
}

/// The same of a failure whose body is a tree.
fn append_worded(
    alloc: Global,
    out: &mut Vec<u8>,
    seq: u64,
    request_seq: u64,
    command: &str,
    name: &str,
    body: &Option<Tree>,
) -> Result<(), AllocError>
    requires { IsTrue (is_plain_tree body.now) }
    ensures canon { OnOk result (AddsOutcome seq request_seq command.now (came.Failure name.now body.now) out.old out.new) }
    ensures reads_back { OnOk result (OutcomeReadsBack seq request_seq command.now (came.Failure name.now body.now)) }
    ensures err { OnErr result (out.new.items ≡ out.old.items) }
{
    // A law for the proof: what is written is read again.
    written_is_read_again();
    let start = out.len();
    let opened = open_tree(alloc, out, body);
    let end = End::Failure {
        seq,
        request_seq,
        command,
        name,
    };
    close(alloc, out, start, opened, end)
}

/// Appends the text of the response to a request that came out so.
pub fn append_outcome(
    alloc: Global,
    out: &mut Vec<u8>,
    seq: u64,
    request_seq: u64,
    command: &str,
    outcome: &Outcome,
) -> Result<(), AllocError>
    requires { IsTrue (is_plain_outcome outcome.now) }
    ensures canon { OnOk result (AddsOutcome seq request_seq command.now outcome.now out.old out.new) }
    ensures reads_back { OnOk result (OutcomeReadsBack seq request_seq command.now outcome.now) }
    ensures err { OnErr result (out.new.items ≡ out.old.items) }
{
    match outcome {
        Outcome::Success(body) => append_success(alloc, out, seq, request_seq, command, body),
        Outcome::Failure { message, body } => {
            append_worded(
                alloc,
                out,
                seq,
                request_seq,
                command,
                message.as_str(),
                body,
            )
        }
    }
}

/// Appends the text of an event.
pub fn append_event(
    alloc: Global,
    out: &mut Vec<u8>,
    seq: u64,
    event: &str,
    body: Option<EventBody<'_>>,
) -> Result<(), AllocError>
    ensures canon { OnOk result (AddsEvent seq event.now body.entry out.old out.new) }
    ensures reads_back { OnOk result (EventReadsBack seq event.now body.entry) }
    ensures err { OnErr result (out.new.items ≡ out.old.items) }
{
    // A law for the proof: what is written is read again.
    written_is_read_again();
    let start = out.len();
    let opened = open_event(alloc, out, body);
    close(alloc, out, start, opened, End::Event { seq, event })
}

/// Appends the text of an event of any name, with a tree as its body.
pub fn append_named_event(
    alloc: Global,
    out: &mut Vec<u8>,
    seq: u64,
    event: &str,
    body: &Option<Tree>,
) -> Result<(), AllocError>
    requires { IsTrue (is_plain_tree body.now) }
    ensures canon { OnOk result (AddsNamedEvent seq event.now body.now out.old out.new) }
    ensures reads_back { OnOk result (NamedEventReadsBack seq event.now body.now) }
    ensures err { OnErr result (out.new.items ≡ out.old.items) }
{
    // A law for the proof: what is written is read again.
    written_is_read_again();
    let start = out.len();
    let opened = open_tree(alloc, out, body);
    close(alloc, out, start, opened, End::Event { seq, event })
}

/// Appends the text of a request. Its number may be past the greatest, so that a request can be measured that has none.
pub fn append_request(
    alloc: Global,
    out: &mut Vec<u8>,
    seq: u64,
    command: &str,
    arguments: &Option<Tree>,
) -> Result<(), AllocError>
    requires { IsTrue (is_plain_tree arguments.now) }
    ensures canon { OnOk result (AddsRequest seq command.now arguments.now out.old out.new) }
    ensures reads_back { OnOk result (RequestReadsBack seq command.now arguments.now) }
    ensures err { OnErr result (out.new.items ≡ out.old.items) }
{
    // A law for the proof: what is written is read again.
    written_is_read_again();
    let start = out.len();
    let opened = open_request(alloc, out, arguments);
    close(alloc, out, start, opened, End::Request { seq, command })
}
