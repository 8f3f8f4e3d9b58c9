//! The line that a text is, whole or without what no rule looks at.
//!
//! Most messages are long for their trees' sake, and a tree costs most of the time of reading. The rules look at few of
//! them: at what `initialize` and `capabilities` offer, and at what a request names. The references that a response gives
//! are gathered with no tree.
ghost use Rattle.std.specs.Prelude.{◌≡◌, drop, true, false, None, MatchOption, IfSome, IfOk, IfErr, IsTrue};
ghost use Rattle.dap_envelope.specs.Heading.{IsHeadingOf, IsKindOf};
ghost use Rattle.dap_envelope.specs.Meaning.{Msg};
ghost use Rattle.dap_envelope.specs.ResponseReferences.{AreGivenIn};
ghost use Rattle.dap_envelope.specs.declared.message.Kind.{Kind as TheKind};
ghost use Rattle.dap_envelope.specs.declared.message.Message.{Message as TheMessage};
ghost use Rattle.dap_shape.specs.Faults.{fault_in};
ghost use Rattle.dap_check.specs.PrivateBare.{bare_kind as bare_kind_of, bare_message, is_looked_at as looked_at, IsReadAs, IsUnread};
ghost use Rattle.dap_check.specs.PrivateRead.{IsReadOf, IsReadFrom};
ghost use Rattle.dap_check.specs.Transcript.{side_of, IsLine, Refuses};
ghost use Rattle.dap_check.specs.declared.line.Line.{Line as TheLine};

use crate::checking::CheckFault;
use crate::found::CheckMode;
use crate::line::{Form, Line, Side};
use crate::words;
use dap_command::GatheredReferences;
use dap_envelope::{
    BodyFault, Heading, HeadingKind, Kind, Message, read_heading_and_references, read_message_with,
};
use dap_json::Text;
use dap_json::object_reader::Scratch;
use dap_shape::read_heading_and_shape;
use std::alloc::{AllocError, Global};

/// Whose message a line has, and its body.
fn split_side(text: &[u8]) -> Option<(Side, &[u8])>
    ensures { MatchOption result (side_of text.now ≡ None) (λ x. (side_of text.now ≡ Some x.0) × (x.1.now ≡ drop 2 text.now)) }
{
    if let Some(body) = text.strip_prefix(b"> ") {
        return Some((Side::Client, body));
    }
    match text.strip_prefix(b"< ") {
        Some(body) => Some((Side::Adapter, body)),
        None => None,
    }
}

/// The line of this number that a text without its line feed is.
///
/// # Errors
/// `BadLine` and `Body` as [`check`](crate::check) has them; `OutOfMemory` where memory is refused.
pub fn read_line(alloc: Global, number: u64, text: &[u8]) -> Result<Line, CheckFault>
    ensures line { IfOk result (IsLine number text.now) }
    ensures refused { IfErr result (Refuses number text.now) }
{
    let mut scratch = Scratch::new(alloc);
    read_line_with(alloc, &mut scratch, number, text)
}

/// The same, with a scratch that other lines have used.
pub(crate) fn read_line_with(
    alloc: Global,
    scratch: &mut Scratch,
    number: u64,
    text: &[u8],
) -> Result<Line, CheckFault>
    ensures line { IfOk result (IsLine number text.now) }
    ensures refused { IfErr result (Refuses number text.now) }
{
    let Some((side, body)) = split_side(text) else {
        return Err(CheckFault::BadLine { line: number });
    };
    match read_message_with(alloc, body, scratch) {
        Ok(message) => Ok(Line {
            number,
            side,
            message,
        }),
        Err(BodyFault::Refused(cause)) => Err(CheckFault::Body {
            line: number,
            cause,
        }),
        Err(BodyFault::OutOfMemory) => Err(CheckFault::OutOfMemory),
    }
}

/// Whether a rule looks at the tree of such a message.
fn is_looked_at(kind: &HeadingKind<'_>) -> bool
    ensures { (k : TheKind) → IsKindOf kind.now k → result ≡ looked_at k }
{
    match kind {
        HeadingKind::Request { command } => {
            words::names_frame(command) || words::names_holder(command)
        }
        HeadingKind::Response {
            success,
            command,
            ..
        } => *success && words::is_telling(command),
        HeadingKind::Event { event } => *event == "capabilities",
        HeadingKind::Other { .. } => false,
    }
}

fn bare_kind(alloc: Global, kind: &HeadingKind<'_>) -> Result<Kind, AllocError>
    ensures { IfOk result (λ bare. (k : TheKind) → IsKindOf kind.now k → bare ≡ bare_kind_of k) }
{
    match kind {
        HeadingKind::Request { command } => Ok(Kind::Request {
            command: Text::copied(alloc, command)?,
            arguments: None,
        }),
        HeadingKind::Response {
            request_seq,
            success,
            command,
        } => Ok(Kind::Response {
            request_seq: *request_seq,
            success: *success,
            command: Text::copied(alloc, command)?,
            message: None,
            body: None,
        }),
        HeadingKind::Event { event } => Ok(Kind::Event {
            event: Text::copied(alloc, event)?,
            body: None,
        }),
        HeadingKind::Other { tag } => Ok(Kind::Other {
            tag: Text::copied(alloc, tag)?,
        }),
    }
}

/// The message with a heading, without its tree and its reason.
fn bare(alloc: Global, heading: &Heading<'_>) -> Result<Message, AllocError>
    ensures { IfOk result (λ bare. (m : TheMessage) → IsHeadingOf heading.now m → bare ≡ bare_message m) }
{
    Ok(Message {
        seq: heading.seq,
        kind: bare_kind(alloc, &heading.kind)?,
    })
}

/// A line as it was read.
pub(crate) struct LineRead {
    pub(crate) line: Line,
    pub(crate) form: Form,
    /// Whether it was seen that the message has no fault. Else it may have one.
    pub(crate) is_sound: bool,
}

impl LineRead {
    pub(crate) fn into_line(self) -> Line
        ensures { result ≡ self.line }
    {
        let LineRead {
            line,
            form: _,
            is_sound: _,
        } = self;
        line
    }
}

// By hand, so that whoever drops one makes a call: else each of these places takes the message apart, with room for its parts
// that is cleared for each line.
impl Drop for LineRead {
    #[inline(always)]
    fn drop(self) {
        let LineRead {
            line,
            form: _,
            is_sound: _,
        } = self;
        drop(line);
    }
}

// Each of the functions that give a line as it was read gives what the next one gave: a line is long, and a move of it takes
// as much as a rule.

/// The line of a side whose message has a heading, without its tree and its reason.
fn bare_line(
    alloc: Global,
    number: u64,
    side: Side,
    heading: &Heading<'_>,
    is_sound: bool,
) -> Result<LineRead, CheckFault>
    ensures line { IfOk result (λ read. (given : GatheredReferences) (m : TheMessage) → IsHeadingOf heading.now m → looked_at m.kind ≡ false → AreGivenIn given m.kind → (IsTrue is_sound → fault_in m.kind ≡ None) → IsReadOf number side m given read) }
    ensures refused { IfErr result (λ fault. fault ≡ CheckFault.OutOfMemory) }
{
    let message = bare(alloc, heading)?;
    Ok(LineRead {
        line: Line {
            number,
            side,
            message,
        },
        form: Form::Bare,
        is_sound,
    })
}

/// The line of a side whose message a body is, with its tree.
#[inline(never)]
fn whole_line(
    alloc: Global,
    scratch: &mut Scratch,
    number: u64,
    side: Side,
    body: &[u8],
) -> Result<LineRead, CheckFault>
    ensures line { IfOk result (λ read. (given : GatheredReferences) → IsReadFrom number side body.now given read) }
    ensures whole { IfOk result (λ read. read.form ≡ Form.Whole) }
    ensures refused { IfErr result (IsUnread number body.now) }
{
    match read_message_with(alloc, body, scratch) {
        Ok(message) => Ok(LineRead {
            line: Line {
                number,
                side,
                message,
            },
            form: Form::Whole,
            is_sound: false,
        }),
        Err(BodyFault::Refused(cause)) => Err(CheckFault::Body {
            line: number,
            cause,
        }),
        Err(BodyFault::OutOfMemory) => Err(CheckFault::OutOfMemory),
    }
}

/// The heading of the message that a body is, unless a rule looks at its tree; what it gives is gathered.
fn short_heading<'a>(
    scratch: &'a mut Scratch,
    given: &mut GatheredReferences,
    body: &'a [u8],
) -> Option<Heading<'a>>
    ensures { IfSome result (λ heading. (m : TheMessage) × Msg body.entry.now m × IsHeadingOf heading m × (looked_at m.kind ≡ false) × AreGivenIn given.new m.kind) }
{
    let heading = read_heading_and_references(scratch, given, body)?;
    if is_looked_at(&heading.kind) {
        return None;
    }
    Some(heading)
}

/// The same without its tree, unless a rule looks at that; what it gives is gathered.
#[inline(always)]
fn short_line(
    alloc: Global,
    scratch: &mut Scratch,
    given: &mut GatheredReferences,
    number: u64,
    side: Side,
    body: &[u8],
) -> Result<LineRead, CheckFault>
    ensures line { IfOk result (IsReadFrom number side body.now given.new) }
    ensures refused { IfErr result (IsUnread number body.now) }
{
    match short_heading(scratch, given, body) {
        Some(heading) => bare_line(alloc, number, side, &heading, false),
        None => whole_line(alloc, scratch, number, side, body),
    }
}

/// The same, looked out for faults on the way.
#[inline(never)]
fn sound_line(
    alloc: Global,
    scratch: &mut Scratch,
    given: &mut GatheredReferences,
    number: u64,
    side: Side,
    body: &[u8],
) -> Result<LineRead, CheckFault>
    ensures line { IfOk result (IsReadFrom number side body.now given.new) }
    ensures refused { IfErr result (IsUnread number body.now) }
{
    let Some((heading, is_sound)) = read_heading_and_shape(scratch, given, body) else {
        return short_line(alloc, scratch, given, number, side, body);
    };
    if is_looked_at(&heading.kind) {
        return whole_line(alloc, scratch, number, side, body);
    }
    bare_line(alloc, number, side, &heading, is_sound)
}

/// The line of a side whose message a body is, with its tree where that is asked for.
fn line_of(
    alloc: Global,
    scratch: &mut Scratch,
    given: &mut GatheredReferences,
    mode: CheckMode,
    number: u64,
    side: Side,
    body: &[u8],
) -> Result<LineRead, CheckFault>
    ensures line { IfOk result (IsReadFrom number side body.now given.new) }
    ensures whole { IfOk result (λ read. mode.whole ≡ true → read.form ≡ Form.Whole) }
    ensures refused { IfErr result (IsUnread number body.now) }
{
    if mode.whole {
        return whole_line(alloc, scratch, number, side, body);
    }
    if mode.bodies {
        return sound_line(alloc, scratch, given, number, side, body);
    }
    short_line(alloc, scratch, given, number, side, body)
}

/// The line of this number, with its tree where that is asked for, or where a rule looks at it; what it gives is gathered
/// where it has none.
pub(crate) fn read_in(
    alloc: Global,
    scratch: &mut Scratch,
    given: &mut GatheredReferences,
    mode: CheckMode,
    number: u64,
    text: &[u8],
) -> Result<LineRead, CheckFault>
    ensures line { IfOk result (λ read. (real : TheLine) × IsLine number text.now real × IsReadAs read.form given.new read.line real × (IsTrue read.is_sound → fault_in real.message.kind ≡ None)) }
    ensures whole { IfOk result (λ read. mode.whole ≡ true → read.form ≡ Form.Whole) }
    ensures refused { IfErr result (Refuses number text.now) }
{
    match split_side(text) {
        None => Err(CheckFault::BadLine { line: number }),
        Some((side, body)) => line_of(alloc, scratch, given, mode, number, side, body),
    }
}
