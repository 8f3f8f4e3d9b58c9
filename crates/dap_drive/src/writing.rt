//! The lines of a transcript: each message that an end wrote, with a mark that tells which end.
//!
//! An end hands out the bytes of frames. A reader of frames with the same limits tells where each message ends.
ghost use Rattle.std.specs.Prelude.{◌≡◌, ◌++◌, ◌<◌, ◌≤◌, length, take, IfOk, IfErr, OnOk};
ghost use Rattle.dap_frame.specs.Intake.{IsReady, IsUnderWay};
ghost use Rattle.dap_frame.specs.Settings.{Settings};
ghost use Rattle.dap_drive.specs.PrivateLines.{IsBetween, IsUnwritten, WritesLine, WritesLines};
ghost use Rattle.dap_drive.specs.Transcript.{mark_of};

use dap_check::Side;
use dap_frame::{Frames, each_stream_has_one_split};
use dap_world::laws::moves_are_in_order;
use std::alloc::AllocError;

/// Why the lines of a call's bytes are not written.
#[derive(Clone, Copy)]
pub(crate) enum Unwritten {
    /// The bytes are no whole frames within the limits.
    Frames,
    OutOfMemory,
}

impl From<AllocError> for Unwritten {
    ghost use Rattle.std.specs.Prelude.{◌≡◌};
    ghost use Rattle.dap_drive.specs.declared.writing.Unwritten.TheVariants.{OutOfMemory};

    ghost from_gives = { λ _ fault. fault ≡ OutOfMemory };

    fn from(_refused: AllocError) -> Unwritten {
        Unwritten::OutOfMemory
    }
}

fn mark(side: Side) -> &'static [u8]
    ensures { result.now ≡ mark_of side }
{
    match side {
        Side::Client => b"> ",
        Side::Adapter => b"< ",
    }
}

/// Appends the body that is ready.
fn append_body(reader: &mut Frames, transcript: &mut Vec<u8>) -> Result<(), AllocError>
    requires { IsReady reader.old }
    ensures same { reader.new ≡ reader.old }
    ensures appended { OnOk result (transcript.new.items ≡ transcript.old.items ++ reader.old.held) }
{
    let Some(body) = reader.body() else {
        unreachable!()
    };
    transcript.extend_from_slice(body)
}

/// Writes the line of the first message of some bytes, and answers how many of them are its frame.
fn write_line(
    reader: &mut Frames,
    transcript: &mut Vec<u8>,
    side: Side,
    bytes: &[u8],
) -> Result<usize, Unwritten>
    requires under_way { IsUnderWay reader.old }
    ensures under_way { OnOk result (IsUnderWay reader.new) }
    ensures progress { IfOk result (λ n. 0 < length bytes.now → 0 < n) }
    ensures within { IfOk result (λ n. n ≤ length bytes.now) }
    ensures line { IfOk result (λ n. WritesLine reader.old reader.new side (take n bytes.now) transcript.old.items transcript.new.items) }
    ensures unwritten { IfErr result (λ fault. 0 < length bytes.now → IsUnwritten fault reader.old bytes.now) }
{
    // Laws for the proof: bytes are frames in one way only, and frames that are moved are not refused.
    each_stream_has_one_split();
    moves_are_in_order();
    let fed = match reader.feed(bytes) {
        Ok(fed) => fed,
        Err(_fault) => return Err(Unwritten::Frames),
    };
    if !fed.ready {
        return Err(Unwritten::Frames);
    }
    transcript.extend_from_slice(mark(side))?;
    append_body(reader, transcript)?;
    transcript.extend_from_slice(b"\n")?;
    reader.release();
    Ok(fed.used)
}

/// Writes the lines of all messages of the bytes that an end handed out.
pub(crate) fn write_lines(
    reader: &mut Frames,
    transcript: &mut Vec<u8>,
    side: Side,
    bytes: &[u8],
) -> Result<(), Unwritten>
    requires under_way { IsUnderWay reader.old }
    ensures under_way { OnOk result (IsUnderWay reader.new) }
    ensures lines { OnOk result ((limits : Settings) → IsBetween limits reader.old → WritesLines limits reader.new side bytes.now transcript.old.items transcript.new.items) }
    ensures unwritten { IfErr result (λ fault. IsUnwritten fault reader.old bytes.now) }
{
    // Laws for the proof: bytes are frames in one way only, and frames that are moved are not refused.
    each_stream_has_one_split();
    moves_are_in_order();
    let mut at = 0;
    while at < bytes.len() {
        let (_, rest) = bytes.split_at(at);
        at += write_line(reader, transcript, side, rest)?;
    }
    Ok(())
}
