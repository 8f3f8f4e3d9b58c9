//! The bodies of an adapter's events as their parts, and their texts, written with no tree: Specification, "OutputEvent",
//! "StoppedEvent", "ContinuedEvent" and "ExitedEvent".
//!
//! The events `initialized` and `terminated` have none. Beside the members of output and of a stop others can stand (`more`).
ghost use Rattle.std.specs.Prelude.{◌≡◌, ◌++◌, IfOk, OnOk, OnErr};
ghost use Rattle.serde_json.specs.View.{view};
ghost use Rattle.serde_json.specs.Written.{compact_text};
ghost use Rattle.dap_json.specs.Sound.{IsSound};
ghost use Rattle.dap_body.specs.Body.{event_data};
ghost use Rattle.dap_body.specs.EventBody.{output_body, output_row, stopped_body, stopped_row, continued_body, exited_body};
ghost use Rattle.dap_body.specs.PrivateText.{wrote_row, IsSoundRow};

use crate::beside::{fit_members, put_before, put_left, put_none};
use crate::row::{Fields, append_object, put_flag, put_signed, put_str, put_text};
use dap_json::laws::text_is_read_again;
use dap_json::{More, ParseFault, Text, parse};
use json::Writer;
use serde_json::Value;
use std::alloc::{AllocError, Global};

/// The body of an event, lent.
#[derive(Clone, Copy, Debug, Drop)]
pub enum EventBody<'e> {
    /// Of `output`. The category is `console`, `stdout`, `stderr` or another that the client knows.
    Output {
        category: &'e str,
        output: &'e Text,
        more: &'e More,
    },
    /// Of `stopped`: one thread stopped for a reason, and all others with it.
    Stopped {
        reason: &'e Text,
        thread_id: i64,
        more: &'e More,
    },
    /// Of `continued`: one thread goes on, and all others with it.
    Continued {
        thread_id: i64,
    },
    /// Of `exited`, with the debuggee's exit code.
    Exited {
        exit_code: i32,
    },
}

fn write_output(
    out: &mut Writer,
    category: &str,
    output: &Text,
    more: &More,
) -> Result<(), AllocError>
    ensures adds { OnOk result (out.new.tokens ≡ wrote_row (output_row category.now output.now more.now) out.old.tokens) }
    ensures before { out.new.before ≡ out.old.before }
    ensures sound { OnOk result (IsSoundRow (output_row category.now output.now more.now)) }
{
    let left = put_before(out, "category", fit_members(more))?;
    put_str(out, "category", category)?;
    let left = put_before(out, "output", left)?;
    put_text(out, "output", output)?;
    let left = put_none(out, "variablesReference", left)?;
    put_left(out, left)
}

fn write_stop(
    out: &mut Writer,
    reason: &Text,
    thread_id: i64,
    more: &More,
) -> Result<(), AllocError>
    ensures adds { OnOk result (out.new.tokens ≡ wrote_row (stopped_row reason.now thread_id more.now) out.old.tokens) }
    ensures before { out.new.before ≡ out.old.before }
    ensures sound { OnOk result (IsSoundRow (stopped_row reason.now thread_id more.now)) }
{
    let left = put_before(out, "allThreadsStopped", fit_members(more))?;
    put_flag(out, "allThreadsStopped", true)?;
    let left = put_before(out, "reason", left)?;
    put_text(out, "reason", reason)?;
    let left = put_before(out, "threadId", left)?;
    put_signed(out, "threadId", thread_id)?;
    put_left(out, left)
}

impl<'e> Fields for EventBody<'e> {
    ghost use Rattle.dap_body.specs.Body.{event_row};

    ghost written = { event_row };

    fn write(&self, out: &mut Writer) -> Result<(), AllocError> {
        match *self {
            EventBody::Output {
                category,
                output,
                more,
            } => write_output(out, category, output, more),
            EventBody::Stopped {
                reason,
                thread_id,
                more,
            } => write_stop(out, reason, thread_id, more),
            EventBody::Continued { thread_id } => {
                put_flag(out, "allThreadsContinued", true)?;
                put_signed(out, "threadId", thread_id)
            }
            EventBody::Exited { exit_code } => put_signed(out, "exitCode", exit_code.into()),
        }
    }
}

/// Appends the text of the body of an event, or changes nothing.
pub fn append_event_body(
    alloc: Global,
    out: &mut Vec<u8>,
    body: EventBody<'_>,
) -> Result<(), AllocError>
    ensures ok { OnOk result (out.new.items ≡ out.old.items ++ compact_text (event_data body.entry)) }
    ensures sound { OnOk result (IsSound (event_data body.entry)) }
    ensures err { OnErr result (out.new.items ≡ out.old.items) }
{
    append_object(alloc, out, &body)
}

/// The body of an event as a tree. Its text is written, and read again.
fn value(alloc: Global, body: EventBody<'_>) -> Result<Value, AllocError>
    ensures { IfOk result (λ v. view v ≡ event_data body.entry) }
{
    // A law for the proof: what is written is read again.
    text_is_read_again();
    let mut text = Vec::new(alloc);
    append_event_body(alloc, &mut text, body)?;
    match parse(alloc, &text) {
        Ok(value) => Ok(value),
        Err(ParseFault::OutOfMemory) => Err(AllocError),
        Err(ParseFault::NotJson) => unreachable!(),
    }
}

/// The body of the event `output`. The category is `console`, `stdout`, `stderr` or another that the client knows.
pub fn body_output(
    alloc: Global,
    category: Text,
    output: Text,
    more: More,
) -> Result<Value, AllocError>
    ensures { IfOk result (λ v. view v ≡ output_body category output more) }
{
    let category = category.as_str();
    value(
        alloc,
        EventBody::Output {
            category,
            output: &output,
            more: &more,
        },
    )
}

/// The body of the event `stopped`: one thread stopped for a reason, and all others with it.
pub fn body_stopped(
    alloc: Global,
    reason: Text,
    thread_id: i64,
    more: More,
) -> Result<Value, AllocError>
    ensures { IfOk result (λ v. view v ≡ stopped_body reason thread_id more) }
{
    value(
        alloc,
        EventBody::Stopped {
            reason: &reason,
            thread_id,
            more: &more,
        },
    )
}

/// The body of the event `continued`: one thread goes on, and all others with it.
pub fn body_continued(alloc: Global, thread_id: i64) -> Result<Value, AllocError>
    ensures { IfOk result (λ v. view v ≡ continued_body thread_id) }
{
    value(alloc, EventBody::Continued { thread_id })
}

/// The body of the event `exited`, with the debuggee's exit code.
pub fn body_exited(alloc: Global, exit_code: i32) -> Result<Value, AllocError>
    ensures { IfOk result (λ v. view v ≡ exited_body exit_code) }
{
    value(alloc, EventBody::Exited { exit_code })
}
