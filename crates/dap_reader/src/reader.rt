//! A reader of messages.
ghost use Rattle.std.specs.Prelude.{◌≡◌, ◌≢◌, ◌<◌, ◌≤◌, [], length, max, IfOk, IfErr, OnOk, OnErr, IfSome, IfNone, Some, None};
ghost use Rattle.dap_frame.specs.Closed.{StaysClosed};
ghost use Rattle.dap_frame.specs.Ends.{EachEndsWith};
ghost use Rattle.dap_frame.specs.Intake.{IsReady, IsUnderWay};
ghost use Rattle.dap_frame.specs.Settings.{bounds_of};
ghost use Rattle.dap_frame.specs.declared.frames.End.{End};
ghost use Rattle.dap_envelope.specs.Meaning.{Msg};
ghost use Rattle.dap_reader.specs.declared.fault.ReadFault.{ReadFault};
ghost use Rattle.dap_reader.specs.Reader.{Advances, Gives, GivesBy, GoesOnBy, IsRefused, IsUntaken, IsUnread, ShortensWith, StandsFor};

use crate::fault::ReadFault;
use dap_envelope::{BodyFault, Message, read_message_with};
use dap_frame::{End, Frames, Limits};
use dap_history::laws::histories_grow;
use dap_json::object_reader::Scratch;
use std::alloc::{AllocError, Global};
use std::marker::Model;

/// What a call of `next` did: how many bytes of the piece it used, and the message that became whole by them.
#[derive(Debug, Drop)]
pub struct Next {
    pub used: usize,
    pub message: Option<Message>,
}

/// A reader of messages. It holds the bytes of the frame under way, in room that is taken when it is made.
#[derive(Drop)]
pub struct MessageReader {
    frames: Frames,
    /// Kept from body to body.
    scratch: Scratch,
    fault: Option<ReadFault>,
}

impl Model for MessageReader {
    ghost use Rattle.dap_reader.specs.Reader.{Reader, IsReader};

    ghost Value = { Reader };

    ghost view = { λ r. record { intake = r.frames; fault = r.fault } };

    ghost invariant = { λ r. IsReader r.frames r.fault };
}

impl MessageReader {
    /// A reader that no byte has reached.
    ///
    /// # Errors
    /// `AllocError` where memory is refused: room for the longest header block or body of the limits is taken here.
    pub fn open(alloc: Global, limits: &Limits) -> Result<MessageReader, AllocError>
        ensures bounds { IfOk result (λ r. r.intake.bounds ≡ bounds_of limits.now) }
        ensures fault { IfOk result (λ r. r.fault ≡ None) }
        ensures stands { IfOk result (λ r. StandsFor r [] []) }
    {
        Ok(MessageReader {
            frames: Frames::open(alloc, limits)?,
            scratch: Scratch::new(alloc),
            fault: None,
        })
    }

    /// Uses the bytes of a piece up to the end of one frame at most, and gives the message that becomes whole. The rest of
    /// the piece is for the next call.
    ///
    /// # Errors
    /// `Frame` and `Body` where the framing or a body is refused, at the offset of the refused frame; `OutOfMemory` where
    /// memory is refused once a body is whole: a piece that makes no frame whole takes none. Then nothing is held, and each
    /// later call answers it again.
    pub fn next(&mut self, alloc: Global, piece: &[u8]) -> Result<Next, ReadFault>
        ensures gives { IfOk result (GivesBy self.old self.new piece.now) }
        ensures stands { IfOk result (GoesOnBy self.old self.new piece.now) }
        ensures progress { IfOk result (λ next. 0 < length piece.now → 0 < next.used) }
        ensures within { IfOk result (λ next. next.used ≤ length piece.now) }
        ensures bounds { self.new.intake.bounds ≡ self.old.intake.bounds }
        ensures open { OnOk result (self.new.fault ≡ None) }

        // Why it is refused; then nothing is held.
        ensures refused { IfErr result (IsUntaken self.old piece.now) }
        ensures held { OnErr result (self.new.intake.held ≡ []) }
        ensures latches { IfErr result (λ fault. self.new.fault ≡ Some fault) }
        ensures latched { StaysClosed self.old.fault result self.old self.new }
    {
        if let Some(fault) = self.fault {
            return Err(fault);
        }
        histories_grow();
        match read_next(alloc, &mut self.frames, &mut self.scratch, piece) {
            Ok(next) => Ok(next),
            Err(fault) => {
                self.frames.close();
                self.fault = Some(fault);
                Err(fault)
            }
        }
    }

    /// The next message of a piece: the bytes up to the end of its frame are used, and the piece is what is left behind them.
    /// `None` once all of the piece is used. So each message of a piece is read by
    /// `while let Some(message) = reader.next_in(alloc, &mut piece)?`.
    ///
    /// # Errors
    /// Those of `next`, of the piece as it is; then it stays so.
    pub fn next_in(
        &mut self,
        alloc: Global,
        piece: &mut &[u8],
    ) -> Result<Option<Message>, ReadFault>
        ensures advances { IfOk result (Advances self.old self.new piece.old.now piece.new.now) }
        ensures shorter { IfOk result (ShortensWith piece.old.now piece.new.now) }
        ensures used { IfOk result (λ message. IfNone message (piece.new.now ≡ [])) }
        ensures bounds { self.new.intake.bounds ≡ self.old.intake.bounds }
        ensures open { OnOk result (self.new.fault ≡ None) }

        // Why it is refused; then nothing is held.
        ensures refused { IfErr result (IsUntaken self.old piece.old.now) }
        ensures piece { OnErr result (piece.new.now ≡ piece.old.now) }
        ensures held { OnErr result (self.new.intake.held ≡ []) }
        ensures latches { IfErr result (λ fault. self.new.fault ≡ Some fault) }
        ensures latched { StaysClosed self.old.fault result self.old self.new }
    {
        if let Some(fault) = self.fault {
            return Err(fault);
        }
        if piece.is_empty() {
            return Ok(None);
        }
        let Next { used, message } = self.next(alloc, piece)?;
        let (_, rest) = piece.split_at(used);
        *piece = rest;
        Ok(message)
    }

    /// Gives up what is held, for good: each later `next` answers `Closed`, or the fault that came before.
    pub fn close(&mut self)
        ensures bounds { self.new.intake.bounds ≡ self.old.intake.bounds }
        ensures held { self.new.intake.held ≡ [] }
        ensures closed { self.old.fault ≡ None → self.new.fault ≡ Some ReadFault.Closed }
        ensures latched { IfSome self.old.fault (λ fault. self.new.fault ≡ Some fault) }
    {
        self.frames.close();
        if self.fault.is_none() {
            self.fault = Some(ReadFault::Closed);
        }
    }

    /// How the stream ends, if no more of it comes: `Clean` behind a whole frame, `Truncated` within one, `Refused` after a
    /// fault.
    pub fn finish(&self) -> End
        ensures ends { EachEndsWith self.now.intake result }
        ensures open { self.now.fault ≡ None → result ≢ End.Refused }
    {
        let _ = &self.fault;
        self.frames.finish()
    }

    /// The bytes held of the frame under way. After a fault there are none.
    pub fn held(&self) -> usize
        ensures held { result ≡ length self.now.intake.held }
        ensures bounded { result ≤ max self.now.intake.bounds.header self.now.intake.bounds.body }
        ensures closed { IfSome self.now.fault (λ fault. result ≡ 0) }
    {
        let _ = &self.fault;
        self.frames.held()
    }
}

/// The message that the ready body is.
fn read_body(
    alloc: Global,
    frames: &mut Frames,
    scratch: &mut Scratch,
) -> Result<Message, ReadFault>
    requires { IsReady frames.old }
    ensures same { frames.new ≡ frames.old }
    ensures read { IfOk result (Msg frames.old.held) }
    ensures fault { IfErr result (IsUnread frames.old) }
{
    let offset = frames.offset();
    let Some(body) = frames.body() else {
        unreachable!()
    };
    match read_message_with(alloc, body, scratch) {
        Ok(message) => Ok(message),
        Err(BodyFault::Refused(cause)) => Err(ReadFault::Body { cause, offset }),
        Err(BodyFault::OutOfMemory) => Err(ReadFault::OutOfMemory),
    }
}

/// Takes bytes up to the end of a frame at most, and reads its message.
fn read_next(
    alloc: Global,
    frames: &mut Frames,
    scratch: &mut Scratch,
    piece: &[u8],
) -> Result<Next, ReadFault>
    requires { IsUnderWay frames.old }
    ensures bounds { frames.new.bounds ≡ frames.old.bounds }
    ensures under_way { OnOk result (IsUnderWay frames.new) }
    ensures gives { IfOk result (λ next. Gives frames.old frames.new piece.now next.used next.message) }
    ensures progress { IfOk result (λ next. 0 < length piece.now → 0 < next.used) }
    ensures within { IfOk result (λ next. next.used ≤ length piece.now) }
    ensures refused { IfErr result (λ fault. IsRefused frames.old piece.now fault) }
{
    let fed = match frames.feed(piece) {
        Ok(fed) => fed,
        Err(fault) => return Err(ReadFault::Frame(fault)),
    };
    if !fed.ready {
        return Ok(Next {
            used: fed.used,
            message: None,
        });
    }
    let message = read_body(alloc, frames, scratch)?;
    frames.release();
    Ok(Next {
        used: fed.used,
        message: Some(message),
    })
}
