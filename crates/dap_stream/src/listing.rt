//! A stream of messages as a listing: a line for each.

ghost use Rattle.std.specs.Prelude.{◌≡◌, ◌||◌, ◌-◌, ℕ, List, ◌^◌, ◌<◌, ◌≤◌, Bool, length, OnOk, IfOk, IfErr, Err};
ghost use Rattle.dap_frame.specs.Settings.{Settings};
ghost use Rattle.dap_frame.specs.Intake.{IsReady, IsUnderWay};
ghost use Rattle.dap_stream.specs.Listing.{IsLineOf, Shows, ShowsAll};
ghost use Rattle.dap_stream.specs.PrivateShowSteps.{Extends, IsStopped, ListedBefore, ListedTo};

use crate::lines::{Form, Style, make_line_in};
use dap_envelope::{BodyFault, BodyRefusal};
use dap_frame::{End, FrameFault, Frames, Limits};
use dap_json::object_reader::Scratch;
use std::alloc::{AllocError, Global};
use thiserror::Error;

/// Why a stream is not listed to its end.
#[derive(Clone, Copy, Debug, PartialEq, Eq, Error)]
pub enum ShowFault {
    /// The framing is refused.
    #[error("a frame is refused at byte {}", .0.offset)]
    Frame(FrameFault),
    /// A body is no message; the frame's first byte has this offset, and the body's the other.
    #[error("the body of the frame at byte {offset} is refused")]
    Body {
        cause: BodyRefusal,
        offset: u64,
        body_offset: u64,
        body_length: u64,
    },
    /// Memory was refused.
    #[error("memory is exhausted")]
    OutOfMemory,
}

impl From<AllocError> for ShowFault {
    ghost use Rattle.dap_stream.specs.declared.listing.ShowFault.TheVariants.{OutOfMemory};

    ghost from_gives = { λ _ fault. fault ≡ OutOfMemory };

    fn from(_refused: AllocError) -> ShowFault {
        ShowFault::OutOfMemory
    }
}

/// How a listing ended that met no fault.
#[derive(Clone, Copy, Debug, PartialEq, Eq)]
pub struct Shown {
    /// `Clean` or `Truncated`.
    pub end: End,
    /// Whether a body was refused, and the listing went on.
    pub refused: bool,
}

/// Makes the line of the ready body, and answers whether the body is refused.
fn make_line_of_ready(
    alloc: Global,
    frames: &mut Frames,
    scratch: &mut Scratch,
    line: &mut Vec<u8>,
    style: Style,
) -> Result<bool, BodyFault>
    requires { IsReady frames.old }
    ensures same { frames.new ≡ frames.old }
    ensures made { IfOk result (IsLineOf style frames.old.start frames.old.held line.new.items) }
    ensures fault { IfErr result (IsStopped style frames.old.held) }
{
    let offset = frames.offset();
    let Some(body) = frames.body() else {
        unreachable!()
    };
    make_line_in(alloc, scratch, line, style, offset, body)
}

/// The fault of the ready body, which ends after so many bytes of the stream.
fn refused_body(frames: &Frames, cause: BodyRefusal, at: usize) -> ShowFault
    ensures { result ≡ ShowFault.Body cause frames.now.start (at - length frames.now.held) (length frames.now.held) }
{
    let body_length = frames.held();
    ShowFault::Body {
        cause,
        offset: frames.offset(),
        body_offset: at.saturating_sub(body_length) as u64,
        body_length: body_length as u64,
    }
}

/// Appends the line of the ready body, which ends after so many bytes of the stream, and gives the body up. It answers whether
/// the body is refused.
fn list_body(
    alloc: Global,
    frames: &mut Frames,
    scratch: &mut Scratch,
    line: &mut Vec<u8>,
    style: Style,
    at: usize,
    out: &mut Vec<u8>,
) -> Result<bool, ShowFault>
    requires { IsReady frames.old }
    ensures grows { Extends out.old.items out.new.items }
    ensures under_way { OnOk result (IsUnderWay frames.new) }
    ensures ok { IfOk result (λ refused. (limits : Settings) (bytes old : List ℕ) (at : ℕ) (before : Bool) → length bytes < 2 ^ 64 → ListedBefore style limits frames.old bytes at old out.old.items before
        → ListedTo style limits frames.new bytes at old out.new.items (before || refused)) }
    ensures err { IfErr result (λ fault. (limits : Settings) (bytes old : List ℕ) (before : Bool) → at ≤ length bytes → ListedBefore style limits frames.old bytes at old out.old.items before
        → Shows style limits bytes old out.new.items (Err fault)) }
{
    let refused = match make_line_of_ready(alloc, frames, scratch, line, style) {
        Ok(refused) => refused,
        Err(BodyFault::Refused(cause)) => return Err(refused_body(frames, cause, at)),
        Err(BodyFault::OutOfMemory) => return Err(ShowFault::OutOfMemory),
    };
    out.extend_from_slice(line)?;
    frames.release();
    Ok(refused)
}

fn either(one: bool, other: bool) -> bool
    ensures { result ≡ (one || other) }
{
    one || other
}

/// Appends the lines of what follows the first `start` bytes of a stream, which were listed. It answers whether a body was
/// refused, with those before.
pub(crate) fn list_rest(
    alloc: Global,
    frames: &mut Frames,
    scratch: &mut Scratch,
    line: &mut Vec<u8>,
    style: Style,
    before: bool,
    bytes: &[u8],
    start: usize,
    out: &mut Vec<u8>,
) -> Result<bool, ShowFault>
    requires under_way { IsUnderWay frames.old }
    requires within { start ≤ length bytes.now }
    ensures grows { Extends out.old.items out.new.items }
    ensures under_way { OnOk result (IsUnderWay frames.new) }
    ensures ok { IfOk result (λ refused. (limits : Settings) (old : List ℕ) → ListedTo style limits frames.old bytes.now start old out.old.items before
        → ListedTo style limits frames.new bytes.now (length bytes.now) old out.new.items refused) }
    ensures err { IfErr result (λ fault. (limits : Settings) (old : List ℕ) → ListedTo style limits frames.old bytes.now start old out.old.items before
        → Shows style limits bytes.now old out.new.items (Err fault)) }
{
    let mut at = start;
    let mut refused = before;
    while at < bytes.len() {
        let (_, rest) = bytes.split_at(at);
        let fed = match frames.feed(rest) {
            Ok(fed) => fed,
            Err(fault) => return Err(ShowFault::Frame(fault)),
        };
        at += fed.used;
        if fed.ready {
            match list_body(alloc, frames, scratch, line, style, at, out) {
                Ok(this) => refused = either(refused, this),
                Err(fault) => return Err(fault),
            }
        }
    }
    Ok(refused)
}

/// Appends the line of each message of a stream in a style, up to the first refusal, or to the first refused frame where it
/// keeps going. Offsets count bytes from the stream's start.
///
/// At a fault the lines of all messages before it stay. Where memory is refused the lines of some first messages stay, each
/// of them whole.
pub fn list(
    alloc: Global,
    bytes: &[u8],
    limits: Limits,
    style: Style,
    out: &mut Vec<u8>,
) -> Result<Shown, ShowFault>
    ensures { Shows style limits bytes.now out.old.items out.new.items result }
{
    let Ok(mut frames) = Frames::open(alloc, &limits) else {
        return Err(ShowFault::OutOfMemory);
    };
    let mut scratch = Scratch::new(alloc);
    let mut line = Vec::new(alloc);
    match list_rest(
        alloc,
        &mut frames,
        &mut scratch,
        &mut line,
        style,
        false,
        bytes,
        0,
        out,
    ) {
        Ok(refused) => Ok(Shown {
            end: frames.finish(),
            refused,
        }),
        Err(fault) => Err(fault),
    }
}

/// The end of a listing in a form, which stops at the first refusal.
fn list_all(
    alloc: Global,
    bytes: &[u8],
    limits: Limits,
    form: Form,
    out: &mut Vec<u8>,
) -> Result<End, ShowFault>
    ensures { ShowsAll form limits bytes.now out.old.items out.new.items result }
{
    let style = Style {
        form,
        keeps_going: false,
    };
    match list(alloc, bytes, limits, style, out) {
        Ok(shown) => Ok(shown.end),
        Err(fault) => Err(fault),
    }
}

/// Appends a line for each message of a stream, up to the first refusal: `OFFSET SEQ request COMMAND`,
/// `OFFSET SEQ response COMMAND REQUEST_SEQ ok` or `failed`, `OFFSET SEQ event EVENT`, `OFFSET SEQ other TAG`. Offsets count
/// bytes from the stream's start; control characters are shown as `?`. This is [`list`] in the form `Line`; in the form
/// `Reasons` the `message` of a response is behind `failed`.
pub fn show(
    alloc: Global,
    bytes: &[u8],
    limits: Limits,
    out: &mut Vec<u8>,
) -> Result<End, ShowFault>
    ensures { ShowsAll Form.Line limits bytes.now out.old.items out.new.items result }
{
    list_all(alloc, bytes, limits, Form::Line, out)
}

/// Appends the body of each message of a stream, one a line, up to the first refusal, as `wrap` reads them. A body is
/// appended byte for byte, but for line feeds and carriage returns, which are left out: in a message they are nowhere but
/// between its tokens. This is [`list`] in the form `Body`.
pub fn unwrap(
    alloc: Global,
    bytes: &[u8],
    limits: Limits,
    out: &mut Vec<u8>,
) -> Result<End, ShowFault>
    ensures { ShowsAll Form.Body limits bytes.now out.old.items out.new.items result }
{
    list_all(alloc, bytes, limits, Form::Body, out)
}
