//! Why a request failed: Specification, "ErrorResponse" and "Message".
//!
//! The short names, the numbers, the texts and their one order are this profile's choice, but for the short names
//! `cancelled` and `notStopped`, which are the standard's own ("Response").
ghost use Rattle.std.specs.Prelude.{◌≡◌, ◌++◌, IfOk, IfErr, OnOk, OnErr, string_bytes};
ghost use Rattle.serde_json.specs.View.{view};
ghost use Rattle.serde_json.specs.Written.{compact_text};
ghost use Rattle.dap_json.specs.Sound.{IsSound};
ghost use Rattle.dap_body.specs.Failure.{bad_argument_format, error_body, explained_body, failure_body, row_of};

use crate::row::{Fields, append_object, put_flag_if_set, put_object, put_short, put_str};
use dap_command::Key;
use json::Writer;
use serde_json::{Map, Value, put};
use std::alloc::{AllocError, Global};

/// Why a request failed, in the order in which an adapter tests: the first that holds is answered. The last three come
/// outside this order.
#[derive(Clone, Copy, Debug, PartialEq, Eq)]
pub enum Failure {
    NotInitialized,
    AlreadyInitialized,
    UnknownCommand,
    Unsupported,
    /// A key of the arguments is missing or malformed.
    BadArguments { key: Key },
    WrongPhase,
    NotStopped,
    UnknownThread,
    StaleReference,
    UnknownSource,
    /// The debuggee refused.
    Debuggee,
    TooManyBreakpoints,
    TooManyReferences,
    ReferencesExhausted,
    TooLarge,
    Busy,
    Cancelled,
    /// The client's alone: the terminal that an adapter asked for is refused.
    TerminalRefused,
}

fn bad_argument(alloc: Global, key: Key) -> Result<String, AllocError>
    ensures { IfOk result (λ s. string_bytes s ≡ bad_argument_format key) }
{
    format!(in alloc; "The argument {} is missing or malformed.", key.name())
}

impl Failure {
    ghost use Rattle.dap_body.specs.Failure.{bad_argument_format, row_of};

    /// The short name, which stands in the response's `message`.
    pub fn name(self) -> &'static str
        ensures { result.now ≡ (row_of self).name }
    {
        match self {
            Failure::NotInitialized => "notInitialized",
            Failure::AlreadyInitialized => "alreadyInitialized",
            Failure::UnknownCommand => "unknownCommand",
            Failure::Unsupported => "unsupported",
            Failure::BadArguments { .. } => "badArguments",
            Failure::WrongPhase => "wrongPhase",
            Failure::NotStopped => "notStopped",
            Failure::UnknownThread => "unknownThread",
            Failure::StaleReference => "staleReference",
            Failure::UnknownSource => "unknownSource",
            Failure::Debuggee => "debuggee",
            Failure::TooManyBreakpoints => "tooManyBreakpoints",
            Failure::TooManyReferences => "tooManyReferences",
            Failure::ReferencesExhausted => "referencesExhausted",
            Failure::TooLarge => "tooLarge",
            Failure::Busy => "busy",
            Failure::Cancelled => "cancelled",
            Failure::TerminalRefused => "terminalRefused",
        }
    }

    /// The number, which stands in the body as `id`.
    pub fn id(self) -> u32
        ensures { result ≡ (row_of self).id }
    {
        match self {
            Failure::NotInitialized => 1001,
            Failure::AlreadyInitialized => 1002,
            Failure::UnknownCommand => 1003,
            Failure::Unsupported => 1004,
            Failure::BadArguments { .. } => 1005,
            Failure::WrongPhase => 1007,
            Failure::NotStopped => 1006,
            Failure::UnknownThread => 1008,
            Failure::StaleReference => 1009,
            Failure::UnknownSource => 1014,
            Failure::Debuggee => 1013,
            Failure::TooManyBreakpoints => 1015,
            Failure::TooManyReferences => 1010,
            Failure::ReferencesExhausted => 1017,
            Failure::TooLarge => 1016,
            Failure::Busy => 1011,
            Failure::Cancelled => 1012,
            Failure::TerminalRefused => 1018,
        }
    }

    /// The text, or the key that it is about.
    fn fixed_format(self) -> Result<&'static str, Key>
        ensures fixed { IfOk result (λ s. s.now ≡ (row_of self).format) }
        ensures of_key { IfErr result (λ key. (row_of self).format ≡ bad_argument_format key) }
    {
        match self {
            Failure::BadArguments { key } => Err(key),
            Failure::NotInitialized => Ok("The session is not initialized."),
            Failure::AlreadyInitialized => Ok("The session is already initialized."),
            Failure::UnknownCommand => Ok("The command is not known."),
            Failure::Unsupported => Ok("The command is not supported."),
            Failure::WrongPhase => Ok("The request does not fit the state of the session."),
            Failure::NotStopped => Ok("The debuggee is not stopped."),
            Failure::UnknownThread => Ok("The thread does not exist."),
            Failure::StaleReference => Ok("The reference is not valid in this stop."),
            Failure::UnknownSource => Ok("The source does not exist."),
            Failure::Debuggee => Ok("The debuggee refused."),
            Failure::TooManyBreakpoints => Ok("Too many breakpoints are set."),
            Failure::TooManyReferences => Ok("Too many references are in use."),
            Failure::ReferencesExhausted => Ok("No reference numbers are left."),
            Failure::TooLarge => Ok("The response would be too large."),
            Failure::Busy => Ok("Too many requests are waiting."),
            Failure::Cancelled => Ok("The request was cancelled."),
            Failure::TerminalRefused => Ok("The terminal refused."),
        }
    }

    fn format(self, alloc: Global) -> Result<String, AllocError>
        ensures { IfOk result (λ s. string_bytes s ≡ (row_of self).format) }
    {
        match self.fixed_format() {
            Ok(format) => String::from_str(alloc, format),
            Err(key) => bad_argument(alloc, key),
        }
    }
}

/// The body of the response to a request that failed.
pub fn body_failure(alloc: Global, failure: Failure) -> Result<Value, AllocError>
    ensures { IfOk result (λ v. view v ≡ failure_body failure) }
{
    let mut error = Map::new(alloc);
    put(
        &mut error,
        alloc,
        "format",
        Value::String(failure.format(alloc)?),
    )?;
    put(&mut error, alloc, "id", Value::from(failure.id()))?;
    let mut members = Map::new(alloc);
    put(&mut members, alloc, "error", Value::Object(error))?;
    Ok(Value::Object(members))
}

/// The object at `error`: a number and a text.
#[derive(Drop)]
struct Cause<'e> {
    id: u32,
    format: &'e str,
}

impl<'e> Fields for Cause<'e> {
    ghost use Rattle.dap_body.specs.Failure.{cause_row};

    ghost written = { λ cause. cause_row cause.id cause.format.now };

    fn write(&self, out: &mut Writer) -> Result<(), AllocError> {
        put_str(out, "format", self.format)?;
        put_short(out, "id", self.id)
    }
}

#[derive(Drop)]
struct ErrorBody<'e> {
    error: Cause<'e>,
}

impl<'e> Fields for ErrorBody<'e> {
    ghost use Rattle.dap_body.specs.Failure.{error_row};

    ghost written = { λ body. error_row body.error.id body.error.format.now };

    fn write(&self, out: &mut Writer) -> Result<(), AllocError> {
        put_object(out, "error", &self.error)
    }
}

fn append_error(alloc: Global, out: &mut Vec<u8>, id: u32, format: &str) -> Result<(), AllocError>
    ensures ok { OnOk result (out.new.items ≡ out.old.items ++ compact_text (error_body id format.now)) }
    ensures sound { OnOk result (IsSound (error_body id format.now)) }
    ensures err { OnErr result (out.new.items ≡ out.old.items) }
{
    let error = Cause { id, format };
    append_object(alloc, out, &ErrorBody { error })
}

/// Appends the text of that body, with no tree, or changes nothing.
pub fn append_failure_body(
    alloc: Global,
    out: &mut Vec<u8>,
    failure: Failure,
) -> Result<(), AllocError>
    ensures ok { OnOk result (out.new.items ≡ out.old.items ++ compact_text (failure_body failure)) }
    ensures sound { OnOk result (IsSound (failure_body failure)) }
    ensures err { OnErr result (out.new.items ≡ out.old.items) }
{
    let id = failure.id();
    match failure.fixed_format() {
        Ok(format) => append_error(alloc, out, id, format),
        Err(key) => append_error(alloc, out, id, bad_argument(alloc, key)?.as_str()),
    }
}

// ---- why the debuggee refused

/// The object at `variables`: the one that the format names.
#[derive(Drop)]
struct Variables<'e> {
    why: &'e str,
}

impl<'e> Fields for Variables<'e> {
    ghost use Rattle.dap_body.specs.Failure.{variables_row};

    ghost written = { λ variables. variables_row variables.why.now };

    fn write(&self, out: &mut Writer) -> Result<(), AllocError> {
        put_str(out, "why", self.why)
    }
}

/// The object at `error`: that the client puts the text in the place of the format, and whether its user sees it.
#[derive(Drop)]
struct ExplainedCause<'e> {
    show_user: bool,
    variables: Variables<'e>,
}

impl<'e> Fields for ExplainedCause<'e> {
    ghost use Rattle.dap_body.specs.Failure.{explained_cause_row};

    ghost written = { λ cause. explained_cause_row cause.show_user cause.variables.why.now };

    fn write(&self, out: &mut Writer) -> Result<(), AllocError> {
        put_str(out, "format", "{why}")?;
        put_short(out, "id", Failure::Debuggee.id())?;
        put_flag_if_set(out, "showUser", self.show_user)?;
        put_object(out, "variables", &self.variables)
    }
}

#[derive(Drop)]
struct ExplainedBody<'e> {
    error: ExplainedCause<'e>,
}

impl<'e> Fields for ExplainedBody<'e> {
    ghost use Rattle.dap_body.specs.Failure.{explained_row};

    ghost written = { λ body. explained_row body.error.show_user body.error.variables.why.now };

    fn write(&self, out: &mut Writer) -> Result<(), AllocError> {
        put_object(out, "error", &self.error)
    }
}

/// Appends the text of the body of the failure `debuggee` with what the debuggee says of why it refused, or changes nothing.
/// `showUser` is there where the client's user should see it: Specification, "Message".
pub fn append_explained_body(
    alloc: Global,
    out: &mut Vec<u8>,
    why: &str,
    show_user: bool,
) -> Result<(), AllocError>
    ensures ok { OnOk result (out.new.items ≡ out.old.items ++ compact_text (explained_body show_user why.now)) }
    ensures sound { OnOk result (IsSound (explained_body show_user why.now)) }
    ensures err { OnErr result (out.new.items ≡ out.old.items) }
{
    let error = ExplainedCause {
        show_user,
        variables: Variables { why },
    };
    append_object(alloc, out, &ExplainedBody { error })
}
