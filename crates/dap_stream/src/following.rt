//! A stream that is listed while it comes.

ghost use Rattle.std.specs.Prelude.{◌≡◌, ℕ, ◌+◌, ◌++◌, [], false, OnOk, IfOk, IfErr, Err};
ghost use Rattle.dap_frame.specs.Intake.{IsUnderWay};
ghost use Rattle.dap_frame.specs.Settings.{Settings};
ghost use Rattle.dap_stream.specs.Following.{Follows, FollowsTo, FollowingIsOfTheLog};
ghost use Rattle.dap_stream.specs.PrivateFollowing.{Came};

use crate::lines::Style;
use crate::listing::{ShowFault, Shown, list_rest};
use dap_channel::{Channel, calls_add_up, calls_are_the_log, send};
use dap_frame::{Frames, Limits};
use dap_json::object_reader::Scratch;
use std::alloc::Global;
use thiserror::Error;

/// Why a stream that is followed is not listed to its end.
#[derive(Clone, Copy, Debug, PartialEq, Eq, Error)]
pub enum FollowFault {
    /// A read failed, also by an interruption.
    #[error("the stream cannot be read")]
    Read,
    /// A write or a flush failed, or a write took nothing.
    #[error("the output failed")]
    Write,
    /// More bytes came than may.
    #[error("the stream is too long")]
    TooLong,
    /// The stream is refused, or memory is.
    #[error("{0}")]
    Show(ShowFault),
}

/// How following a stream ended, and what was read of it.
#[derive(Debug, Drop)]
pub struct Followed {
    /// All that was read; where memory for more was refused, a front of it.
    pub bytes: Vec<u8>,
    pub end: Result<Shown, FollowFault>,
}

/// Takes a piece, lists what is whole, and sends the lines. `out` holds all lines so far, which went out before.
fn follow_piece<C: Channel>(
    alloc: Global,
    channel: &mut C,
    frames: &mut Frames,
    scratch: &mut Scratch,
    line: &mut Vec<u8>,
    style: Style,
    refused: bool,
    bytes: &mut Vec<u8>,
    piece: &[u8],
    out: &mut Vec<u8>,
) -> Result<bool, FollowFault>
    requires { IsUnderWay frames.old }
    ensures bytes { IfOk result (λ _. bytes.new.items ≡ bytes.old.items ++ piece.now) }
    ensures under_way { OnOk result (IsUnderWay frames.new) }
    ensures goes_on { IfOk result (λ more. (limits : Settings) (start : C) (most : ℕ) → Came C.goes style limits most start channel.old frames.old bytes.old.items piece.now out.old.items refused
        → Came C.goes style limits most start channel.new frames.new bytes.new.items [] out.new.items more) }
    ensures stops { IfErr result (λ fault. (limits : Settings) (start : C) (most : ℕ) → Came C.goes style limits most start channel.old frames.old bytes.old.items piece.now out.old.items refused
        → Follows C.goes style limits most start channel.new bytes.new.items (Err fault)) }
{
    // A law for the proof: what calls come to that are made one after the other.
    calls_add_up::<C>();
    let at = bytes.len();
    let sent = out.len();
    if bytes.extend_from_slice(piece).is_err() {
        return Err(FollowFault::Show(ShowFault::OutOfMemory));
    }
    let listed = list_rest(alloc, frames, scratch, line, style, refused, bytes, at, out);
    let (_, lines) = out.split_at(sent);
    if send(channel, lines, 0).is_err() {
        return Err(FollowFault::Write);
    }
    match listed {
        Ok(more) => Ok(more),
        Err(fault) => Err(FollowFault::Show(fault)),
    }
}

/// Reads and lists until the stream ends, with a reader of frames that no byte has reached.
fn follow_frames<C: Channel>(
    alloc: Global,
    channel: &mut C,
    frames: &mut Frames,
    style: Style,
    most: usize,
    bytes: &mut Vec<u8>,
) -> Result<Shown, FollowFault>
    requires under_way { IsUnderWay frames.old }
    requires none { bytes.old.items ≡ [] }
    ensures { (limits : Settings) → Came C.goes style limits most channel.old channel.old frames.old [] [] [] false → Follows C.goes style limits most channel.old channel.new bytes.new.items result }
{
    // A law for the proof: what calls come to that are made one after the other.
    calls_add_up::<C>();
    let mut scratch = Scratch::new(alloc);
    let mut line = Vec::new(alloc);
    let mut out = Vec::new(alloc);
    let mut refused = false;
    let mut buffer = [0; 65536];
    'pieces: while bytes.len() <= most {
        let Ok(n) = channel.read(&mut buffer) else {
            return Err(FollowFault::Read);
        };
        if n == 0 {
            let end = frames.finish();
            return Ok(Shown { end, refused });
        }
        let (piece, _) = buffer.split_at(n);
        match follow_piece(
            alloc,
            channel,
            frames,
            &mut scratch,
            &mut line,
            style,
            refused,
            bytes,
            piece,
            &mut out,
        ) {
            Ok(more) => refused = more,
            Err(fault) => return Err(fault),
        }
    }
    Err(FollowFault::TooLong)
}

/// Lists a stream while it comes, in a style, up to the first refusal, or to the first refused frame where it keeps going, as
/// [`list`](crate::list) lists bytes. Reads have room for 65536 bytes; before each of them the lines of all that is whole are
/// written and flushed. No read comes after more than `most` bytes.
///
/// All that was read is kept, for who explains a fault by it.
pub fn follow<C: Channel>(
    alloc: Global,
    channel: &mut C,
    limits: Limits,
    style: Style,
    most: usize,
) -> Followed
    ensures { FollowsTo C.goes style limits most channel.old channel.new result }
{
    let mut bytes = Vec::new(alloc);
    let Ok(mut frames) = Frames::open(alloc, &limits) else {
        let end = Err(FollowFault::Show(ShowFault::OutOfMemory));
        return Followed { bytes, end };
    };
    let end = follow_frames(alloc, channel, &mut frames, style, most, &mut bytes);
    Followed { bytes, end }
}

/// A law: of a channel that is the log of its calls, what `follow` says is said of that very log.
pub fn following_is_of_the_log()
    ensures { FollowingIsOfTheLog }
{
    calls_are_the_log();
}
