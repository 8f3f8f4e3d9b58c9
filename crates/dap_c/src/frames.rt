//! A reader of frames behind a handle.
//!
//! Pieces of a stream come in, and the bodies in it go out one by one. What a reader is and does is in `dap_frame`; each
//! export has the clauses of its function there. Only the reader behind the handle and the caller's buffer are touched.
ghost use Rattle.std.specs.Prelude.{◌≡◌, ◌<◌, ◌≤◌, [], ◌++◌, length, drop, IfOk, IfErr, OnOk, Option, None, IsSome, is_some, ◌≢◌};
ghost use Rattle.dap_frame.specs.Feeds.{Completes, Gathers};
ghost use Rattle.dap_frame.specs.Intake.{Intake, IsReady, IsUnderWay, IsGivenUp, StandsFor};
ghost use Rattle.dap_frame.specs.Intake.{IsClosed};
ghost use Rattle.dap_frame.specs.Settings.{bounds_of, first_outside};
ghost use Rattle.dap_frame.specs.declared.Refusal.{Refusal};
ghost use Rattle.dap_c_parts.specs.Limited.{settings_of, AreOutOfRange};
ghost use Rattle.dap_c.specs.Refused.{end_number, ClosesWith, IsRefusedAgain};
ghost use Rattle.dap_c.specs.FramesBehind.{IsFull, IsEmpty, IfFull, FromTo, FromEmpty};
ghost use Rattle.dap_c.specs.FramesCalls.{CompletesFrame, GathersPart, ClosesReader, ClosesAtBytes, UsesBytes, TellsBody, StaysReady, StaysGivenUp, LatchesRefusal, StandsAsBefore, EndsAsItStands, IfClosed, PutsBody, HasNoBody};
ghost use Rattle.dap_c_parts.specs.Buffer.{StaysIfSmall};

use crate::frames_handle::YtFrames;
use dap_c_parts::causes::cause_of;
use dap_c_parts::codes::{
    YT_BAD_LIMITS, YT_FRAME, YT_NO_MEMORY, YT_NONE, YT_NOTHING, YT_OK, YT_READY, YT_SMALL,
    YT_TRUNCATED,
};
use dap_c_parts::copying::put;
use dap_c_parts::limits::{self, YtLimits};
use dap_frame::{End, FrameFault, Frames};
use dap_slot::{handle_of, take_out};
use std::alloc::Global;

/// What a piece did.
#[repr(C)]
#[derive(Drop)]
pub struct YtFed {
    /// How many bytes were used.
    pub used: usize,
    /// How long the body is that is ready; 0 where none is.
    pub body: usize,
    /// Where the refused frame begins, in bytes of the stream.
    pub offset: u64,
    /// Why it is refused, from 1: the block is too long, a line is no field, no length, two lengths, a bad length, the body
    /// is too long. 0 where none is.
    pub cause: u32,
}

fn opened(alloc: Global, limits: &YtLimits) -> Result<Box<Frames>, u32>
    ensures bounds { IfOk result (λ b. b.value.bounds ≡ bounds_of (settings_of limits.now)) }
    ensures under_way { IfOk result (λ b. IsUnderWay b.value) }
    ensures fresh { IfOk result (λ b. StandsFor b.value [] [] []) }
    ensures in_range { OnOk result (first_outside (settings_of limits.now) ≡ None) }
    ensures out_of_range { IfErr result (λ code. code ≡ YT_BAD_LIMITS → IsSome (first_outside (settings_of limits.now))) }
    ensures wanted { IfErr result (λ code. IsSome (first_outside (settings_of limits.now)) → code ≡ YT_BAD_LIMITS) }
    ensures code { IfErr result (λ code. (code ≡ YT_BAD_LIMITS → ⊥) → code ≡ YT_NO_MEMORY) }
{
    let Ok(limits) = limits::read(limits) else {
        return Err(YT_BAD_LIMITS);
    };
    let Ok(frames) = Frames::open(alloc, &limits) else {
        return Err(YT_NO_MEMORY);
    };
    match Box::new(alloc, frames) {
        Ok(held) => Ok(held),
        Err(_) => Err(YT_NO_MEMORY),
    }
}

/// Opens a reader that no byte has reached, with room for a header block or a body of the limits' size, and lets go what
/// the handle held. Where it answers other than `YT_OK`, the handle holds none.
#[unsafe(no_mangle)]
pub extern "C" fn yt_frames_open(alloc: Global, frames: &mut YtFrames, limits: &YtLimits) -> u32
    ensures open { result ≡ YT_OK → IsFull frames.new }
    ensures closed { result ≢ YT_OK → IsEmpty frames.new }
    ensures bounds { IfFull frames.new (λ f. f.bounds ≡ bounds_of (settings_of limits.now)) }
    ensures under_way { IfFull frames.new IsUnderWay }
    ensures fresh { IfFull frames.new (λ f. StandsFor f [] [] []) }
    ensures refused { result ≡ YT_BAD_LIMITS → AreOutOfRange limits.now }
    ensures out_of_range { AreOutOfRange limits.now → result ≡ YT_BAD_LIMITS }
    ensures in_range { result ≡ YT_OK → first_outside (settings_of limits.now) ≡ None }
    ensures codes { result ≢ YT_OK → result ≢ YT_BAD_LIMITS → result ≡ YT_NO_MEMORY }
{
    take_out(alloc, frames);
    match opened(alloc, limits) {
        Ok(held) => {
            *frames = handle_of(held);
            YT_OK
        }
        Err(code) => code,
    }
}

/// Lets go what the handle held.
#[unsafe(no_mangle)]
pub extern "C" fn yt_frames_free(alloc: Global, frames: &mut YtFrames)
    ensures { IsEmpty frames.new }
{
    drop(take_out(alloc, frames));
}

/// What a piece did to a reader, with its code.
fn feed(held: &mut Frames, piece: &[u8], fed: &mut YtFed) -> u32
    ensures codes { (result ≡ YT_OK → ⊥) → (result ≡ YT_READY → ⊥) → result ≡ YT_FRAME }
    ensures bounds { held.new.bounds ≡ held.old.bounds }
    ensures completes { result ≡ YT_READY → IsUnderWay held.old → Completes held.old held.new piece.now fed.new.used }
    ensures gathers { result ≡ YT_OK → IsUnderWay held.old → Gathers held.old held.new piece.now fed.new.used }
    ensures closes { result ≡ YT_FRAME → IsUnderWay held.old → ClosesWith held.old held.new piece.now fed.new.cause fed.new.offset }
    ensures within { fed.new.used ≤ length piece.now }
    ensures some { result ≡ YT_FRAME → IsUnderWay held.old → 0 < length piece.now }
    ensures none { (result ≡ YT_READY → ⊥) → fed.new.body ≡ 0 }
    ensures progress { (result ≡ YT_FRAME → ⊥) → IsUnderWay held.old → 0 < length piece.now → 0 < fed.new.used }
    ensures body { result ≡ YT_READY → fed.new.body ≡ length held.new.held }
    ensures waits { IsReady held.old → (held.new ≡ held.old) × (result ≡ YT_READY) × (fed.new.used ≡ 0) }
    ensures given_up { IsGivenUp held.old → (held.new ≡ held.old) × (result ≡ YT_OK) × (fed.new.used ≡ 0) }
    ensures latched { (cause : Refusal) → IsClosed held.old cause → IsRefusedAgain held.old held.new cause result fed.new.cause fed.new.offset }
{
    match held.feed(piece) {
        Ok(done) => {
            let ready = done.ready;
            *fed = YtFed {
                used: done.used,
                body: if ready { held.held() } else { 0 },
                offset: 0,
                cause: 0,
            };
            if ready { YT_READY } else { YT_OK }
        }
        Err(FrameFault { cause, offset }) => {
            *fed = YtFed {
                used: 0,
                body: 0,
                offset,
                cause: cause_of(cause),
            };
            YT_FRAME
        }
    }
}

/// Uses the bytes of a piece up to the end of one frame at most: `YT_READY` where a body is ready.
#[unsafe(no_mangle)]
pub extern "C" fn yt_frames_feed(
    alloc: Global,
    frames: &mut YtFrames,
    piece: &[u8],
    fed: &mut YtFed,
) -> u32
    ensures none { FromEmpty frames.old frames.new (result ≡ YT_NONE) (fed.new ≡ fed.old) }
    ensures held { IsFull frames.old → IsFull frames.new }
    ensures bounds { FromTo frames.old frames.new (λ f g. g.bounds ≡ f.bounds) }
    ensures codes { result ≢ YT_NONE → result ≢ YT_OK → result ≢ YT_READY → result ≡ YT_FRAME }
    ensures completes { FromTo frames.old frames.new (CompletesFrame piece.now result fed.new) }
    ensures gathers { FromTo frames.old frames.new (GathersPart piece.now result fed.new) }
    ensures closes { FromTo frames.old frames.new (ClosesReader piece.now result fed.new) }
    ensures within { FromTo frames.old frames.new (λ f g. fed.new.used ≤ length piece.now) }
    ensures some { FromTo frames.old frames.new (ClosesAtBytes piece.now result) }
    ensures progress { FromTo frames.old frames.new (UsesBytes piece.now result fed.new) }
    ensures body { FromTo frames.old frames.new (TellsBody result fed.new) }
    ensures no_body { FromTo frames.old frames.new (λ f g. result ≢ YT_READY → fed.new.body ≡ 0) }
    ensures waits { FromTo frames.old frames.new (StaysReady result fed.new) }
    ensures given_up { FromTo frames.old frames.new (StaysGivenUp result fed.new) }
    ensures latched { FromTo frames.old frames.new (LatchesRefusal result fed.new) }
{
    let Some(mut held) = take_out(alloc, frames) else {
        return YT_NONE;
    };
    let code = feed(&mut *held, piece, fed);
    *frames = handle_of(held);
    code
}

/// Puts the ready body into a buffer.
fn put_body(held: &mut Frames, out: &mut [u8]) -> u32
    ensures body { result ≡ YT_OK → IsReady held.old × (out.new ≡ held.old.held ++ drop (length held.old.held) out.old) }
    ensures room { result ≡ YT_OK → length held.old.held ≤ length out.old }
    ensures small { result ≡ YT_SMALL → (length out.old < length held.old.held) × (out.new ≡ out.old) }
    ensures nothing { result ≡ YT_NOTHING → (IsReady held.old → ⊥) × (out.new ≡ out.old) }
    ensures codes { (result ≡ YT_OK → ⊥) → (result ≡ YT_SMALL → ⊥) → result ≡ YT_NOTHING }
    ensures same { held.new ≡ held.old }
{
    match held.body() {
        None => YT_NOTHING,
        Some(body) => put(body, out),
    }
}

/// Puts the ready body into a buffer: `YT_NOTHING` where none is ready.
#[unsafe(no_mangle)]
pub extern "C" fn yt_frames_body(alloc: Global, frames: &mut YtFrames, out: &mut [u8]) -> u32
    ensures none { IsEmpty frames.old → (result ≡ YT_NONE) × (out.new ≡ out.old) }
    ensures same { frames.new.inner.value ≡ frames.old.inner.value }
    ensures body { IfFull frames.old (λ f. result ≡ YT_OK → PutsBody f out.old out.new) }
    ensures small { IfFull frames.old (λ f. StaysIfSmall f.held result out.old out.new) }
    ensures nothing { IfFull frames.old (λ f. result ≡ YT_NOTHING → HasNoBody f out.old out.new) }
    ensures codes { IsFull frames.old → result ≢ YT_OK → result ≢ YT_SMALL → result ≡ YT_NOTHING }
{
    let Some(mut held) = take_out(alloc, frames) else {
        return YT_NONE;
    };
    let code = put_body(&mut *held, out);
    *frames = handle_of(held);
    code
}

/// Gives the ready body up, or does nothing.
#[unsafe(no_mangle)]
pub extern "C" fn yt_frames_release(alloc: Global, frames: &mut YtFrames) -> u32
    ensures none { IsEmpty frames.old → (result ≡ YT_NONE) × IsEmpty frames.new }
    ensures held { IsFull frames.old → (result ≡ YT_OK) × IsFull frames.new }
    ensures bounds { FromTo frames.old frames.new (λ f g. g.bounds ≡ f.bounds) }
    ensures under_way { FromTo frames.old frames.new (λ f g. IsReady f → IsUnderWay g) }
    ensures stands { FromTo frames.old frames.new StandsAsBefore }
    ensures other { FromTo frames.old frames.new (λ f g. (IsReady f → ⊥) → g ≡ f) }
{
    let Some(mut held) = take_out(alloc, frames) else {
        return YT_NONE;
    };
    held.release();
    *frames = handle_of(held);
    YT_OK
}

/// How the stream ends, if no more bytes come: `YT_OK` on a border of two frames, `YT_TRUNCATED` within one, `YT_FRAME`
/// where one was refused.
#[unsafe(no_mangle)]
pub extern "C" fn yt_frames_finish(alloc: Global, frames: &mut YtFrames) -> u32
    ensures none { IsEmpty frames.old → result ≡ YT_NONE }
    ensures same { frames.new.inner.value ≡ frames.old.inner.value }
    ensures ends { IfFull frames.old (λ f. EndsAsItStands f result) }
    ensures refused { IfFull frames.old (λ f. IfClosed f (result ≡ YT_FRAME)) }
    ensures given_up { IfFull frames.old (λ f. IsGivenUp f → result ≡ YT_FRAME) }
    ensures under_way { IfFull frames.old (λ f. IsUnderWay f → result ≢ YT_FRAME) }
{
    let Some(held) = take_out(alloc, frames) else {
        return YT_NONE;
    };
    let end = end_code(held.finish());
    *frames = handle_of(held);
    end
}

fn end_code(end: End) -> u32
    ensures { result ≡ end_number end }
{
    match end {
        End::Clean => YT_OK,
        End::Truncated => YT_TRUNCATED,
        End::Refused => YT_FRAME,
    }
}
