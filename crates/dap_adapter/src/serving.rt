//! A debuggee served over a channel.
ghost use Rattle.std.specs.Prelude.{◌≡◌, ℕ, ◌+◌, ◌<◌, ◌≤◌, List, [], length, take, is_some, IsTrue, false, IfOk, OnOk, IfErr, Result};
ghost use Rattle.dap_debuggee.specs.declared.answers.State.{State};
ghost use Rattle.dap_plan.specs.Session.{to_handle};
ghost use Rattle.dap_decision.specs.Table.{is_phase};
ghost use Rattle.dap_decision.specs.declared.phase.Phase.{Phase};
ghost use Rattle.dap_adapter.specs.Run.{to_take, to_turn, to_poll, has_ended};
ghost use Rattle.dap_channel.specs.Channel.{reads};
ghost use Rattle.dap_adapter.specs.declared.served.Served.{Served};
ghost use Rattle.dap_adapter.specs.declared.served.ServeFault.{ServeFault};
ghost use Rattle.dap_adapter.specs.Served.{Start, Serves, ServesPipe, PipeGoes, ServingIsOfTheLog, start_of};
ghost use Rattle.dap_adapter.specs.PrivateServing.{served_by, progress_of, place_at, way_of, point_of, Reaches, Leads, Breaks, Quietly, next_after, next_if, Uses, UsesUp, EndsIn, serve_fault_of};

use crate::adapter::Adapter;
use crate::outlet::{Outgoing, Outlet};
use crate::served::{ServeFault, Served};
use crate::taken::Came;
use dap_channel::{Channel, Pipe, calls_add_up, calls_are_the_log, pipes_tell_their_bytes};
use dap_debuggee::Debuggee;
use dap_frame::{End, Limits, each_stream_has_one_split};
use dap_plan::AdapterFault;
use dap_session::Phase;
use std::alloc::Global;
use std::io::{Read, Write};

/// After a message, the debuggee is asked at most so often what happened.
const MAX_POLLS: u32 = 65536;

pub(crate) fn is_ended(phase: Phase) -> bool
    ensures { result ≡ is_phase Phase.Ended phase }
{
    match phase {
        Phase::Ended => true,
        Phase::Fresh => false,
        Phase::Ready => false,
        Phase::Configured => false,
        Phase::Parked => false,
        Phase::Asked => false,
        Phase::Running => false,
        Phase::Stopped => false,
        Phase::Exited => false,
    }
}

fn is_stopped(phase: Phase) -> bool
    ensures { result ≡ is_phase Phase.Stopped phase }
{
    match phase {
        Phase::Stopped => true,
        Phase::Fresh => false,
        Phase::Ready => false,
        Phase::Configured => false,
        Phase::Parked => false,
        Phase::Asked => false,
        Phase::Running => false,
        Phase::Exited => false,
        Phase::Ended => false,
    }
}

fn serve_fault(fault: AdapterFault) -> ServeFault
    ensures { result ≡ serve_fault_of fault }
{
    match fault {
        AdapterFault::OutOfMemory => ServeFault::OutOfMemory,
        other => ServeFault::Adapter(other),
    }
}

/// Handles the request that is next, and hands out what is written: whether there was one.
fn turn_out<C, S: Outgoing<C>, D: Debuggee + Drop>(
    alloc: Global,
    adapter: &mut Adapter<D>,
    channel: &mut C,
    sink: &mut S,
) -> Result<bool, ServeFault>
    ensures done { IfOk result (λ done. IsTrue done → Leads (way_of S.puts S.refuses D.shown D.follows) (point_of channel.old sink.old adapter.old) to_turn [] (point_of channel.new sink.new adapter.new) to_turn) }
    ensures idle { IfOk result (λ done. done ≡ false → Leads (way_of S.puts S.refuses D.shown D.follows) (point_of channel.old sink.old adapter.old) to_turn [] (point_of channel.new sink.new adapter.new) (to_poll 0)) }
    ensures fewer { IfOk result (λ done. IsTrue done → to_handle adapter.new.session.kept < to_handle adapter.old.session.kept) }
    ensures halts { IfErr result (λ fault. (piece : List ℕ) → Breaks (way_of S.puts S.refuses D.shown D.follows) (point_of channel.old sink.old adapter.old) to_turn piece (point_of channel.new sink.new adapter.new) fault) }
{
    let mut buffer = sink.lend(alloc);
    match adapter.turn_into(alloc, &mut buffer) {
        Ok(true) => match sink.put(channel, buffer) {
            Ok(()) => Ok(true),
            Err(fault) => Err(fault),
        },
        Ok(false) => {
            sink.restore(buffer);
            Ok(false)
        }
        Err(fault) => {
            sink.restore(buffer);
            Err(serve_fault(fault))
        }
    }
}

/// Handles all requests that are kept and not parked.
fn turns<C, S: Outgoing<C>, D: Debuggee + Drop>(
    alloc: Global,
    adapter: &mut Adapter<D>,
    channel: &mut C,
    sink: &mut S,
) -> Result<(), ServeFault>
    ensures idle { OnOk result (Leads (way_of S.puts S.refuses D.shown D.follows) (point_of channel.old sink.old adapter.old) to_turn [] (point_of channel.new sink.new adapter.new) (to_poll 0)) }
    ensures halts { IfErr result (λ fault. (piece : List ℕ) → Breaks (way_of S.puts S.refuses D.shown D.follows) (point_of channel.old sink.old adapter.old) to_turn piece (point_of channel.new sink.new adapter.new) fault) }
{
    'turns: loop {
        match turn_out(alloc, adapter, channel, sink) {
            Ok(true) => {}
            Ok(false) => return Ok(()),
            Err(fault) => return Err(fault),
        }
    }
}

/// Asks the debuggee once what happened, and hands out what is told: whether more may be due.
fn poll_out<C, S: Outgoing<C>, D: Debuggee + Drop>(
    alloc: Global,
    adapter: &mut Adapter<D>,
    channel: &mut C,
    sink: &mut S,
) -> Result<bool, ServeFault>
    ensures goes { IfOk result (λ more. (asks : ℕ) → Quietly (way_of S.puts S.refuses D.shown D.follows) (point_of channel.old sink.old adapter.old) (to_poll asks) (point_of channel.new sink.new adapter.new) (next_after more asks)) }
    ensures halts { IfErr result (λ fault. (asks : ℕ) (piece : List ℕ) → Breaks (way_of S.puts S.refuses D.shown D.follows) (point_of channel.old sink.old adapter.old) (to_poll asks) piece (point_of channel.new sink.new adapter.new) fault) }
    ensures intake { OnOk result (adapter.new.intake ≡ adapter.old.intake) }
{
    let mut buffer = sink.lend(alloc);
    let before = buffer.len();
    if let Err(fault) = adapter.poll_into(alloc, &mut buffer) {
        sink.restore(buffer);
        return Err(serve_fault(fault));
    }
    let tells = buffer.len() > before;
    match sink.put(channel, buffer) {
        Ok(()) => Ok(tells && !is_stopped(adapter.phase())),
        Err(fault) => Err(fault),
    }
}

/// Tells what happened to the debuggee.
pub(crate) fn polls<C, S: Outgoing<C>, D: Debuggee + Drop>(
    alloc: Global,
    adapter: &mut Adapter<D>,
    channel: &mut C,
    sink: &mut S,
) -> Result<(), ServeFault>
    ensures told { OnOk result (Quietly (way_of S.puts S.refuses D.shown D.follows) (point_of channel.old sink.old adapter.old) (to_poll 0) (point_of channel.new sink.new adapter.new) to_take) }
    ensures halts { IfErr result (λ fault. (piece : List ℕ) → Breaks (way_of S.puts S.refuses D.shown D.follows) (point_of channel.old sink.old adapter.old) (to_poll 0) piece (point_of channel.new sink.new adapter.new) fault) }
    ensures intake { OnOk result (adapter.new.intake ≡ adapter.old.intake) }
{
    for _poll in 0..MAX_POLLS {
        match poll_out(alloc, adapter, channel, sink) {
            Ok(true) => {}
            Ok(false) => return Ok(()),
            Err(fault) => return Err(fault),
        }
    }
    Ok(())
}

/// How many bytes were used, and whether a message came.
fn how_far(came: Came) -> (usize, bool)
    ensures used { result.0 ≡ came.used }
    ensures has_come { result.1 ≡ is_some came.delivered }
{
    (came.used, came.delivered.is_some())
}

/// Uses the bytes of a piece up to the end of a frame at most, and hands out what its message leads to at once. It answers how
/// many were used, and whether a message came.
fn take_out<C, S: Outgoing<C>, D: Debuggee + Drop>(
    alloc: Global,
    adapter: &mut Adapter<D>,
    channel: &mut C,
    sink: &mut S,
    piece: &[u8],
) -> Result<(usize, bool), ServeFault>
    ensures some { IfOk result (λ taken. 0 < length piece.now → 0 < taken.0) }
    ensures within { IfOk result (λ taken. taken.0 ≤ length piece.now) }
    ensures came { IfOk result (λ taken. has_ended adapter.old.session ≡ false → Leads (way_of S.puts S.refuses D.shown D.follows) (point_of channel.old sink.old adapter.old) to_take (take taken.0 piece.now) (point_of channel.new sink.new adapter.new) (next_if taken.1)) }
    ensures halts { IfErr result (λ fault. has_ended adapter.old.session ≡ false → Breaks (way_of S.puts S.refuses D.shown D.follows) (point_of channel.old sink.old adapter.old) to_take piece.now (point_of channel.new sink.new adapter.new) fault) }
{
    // A law for the proof: what was read is one list of frames.
    each_stream_has_one_split();
    let mut buffer = sink.lend(alloc);
    let (used, has_come) = match adapter.take_into(alloc, piece, &mut buffer) {
        Ok(came) => how_far(came),
        Err(fault) => {
            sink.restore(buffer);
            return Err(serve_fault(fault));
        }
    };
    if has_come {
        return match sink.put(channel, buffer) {
            Ok(()) => Ok((used, true)),
            Err(fault) => Err(fault),
        };
    }
    sink.restore(buffer);
    Ok((used, false))
}

/// Handles all requests, and tells what happened.
fn handle<C, S: Outgoing<C>, D: Debuggee + Drop>(
    alloc: Global,
    adapter: &mut Adapter<D>,
    channel: &mut C,
    sink: &mut S,
) -> Result<(), ServeFault>
    ensures handled { OnOk result (Leads (way_of S.puts S.refuses D.shown D.follows) (point_of channel.old sink.old adapter.old) to_turn [] (point_of channel.new sink.new adapter.new) to_take) }
    ensures halts { IfErr result (λ fault. (piece : List ℕ) → Breaks (way_of S.puts S.refuses D.shown D.follows) (point_of channel.old sink.old adapter.old) to_turn piece (point_of channel.new sink.new adapter.new) fault) }
{
    if let Err(fault) = turns(alloc, adapter, channel, sink) {
        return Err(fault);
    }
    match polls(alloc, adapter, channel, sink) {
        Ok(()) => Ok(()),
        Err(fault) => Err(fault),
    }
}

/// Uses the bytes of a piece up to the end of a frame at most, and handles its message. It answers how many were used.
fn serve_frame<C, S: Outgoing<C>, D: Debuggee + Drop>(
    alloc: Global,
    adapter: &mut Adapter<D>,
    channel: &mut C,
    sink: &mut S,
    piece: &[u8],
) -> Result<usize, ServeFault>
    ensures some { IfOk result (λ k. 0 < length piece.now → 0 < k) }
    ensures within { IfOk result (λ k. k ≤ length piece.now) }
    ensures uses { IfOk result (λ k. has_ended adapter.old.session ≡ false → Leads (way_of S.puts S.refuses D.shown D.follows) (point_of channel.old sink.old adapter.old) to_take (take k piece.now) (point_of channel.new sink.new adapter.new) to_take) }
    ensures halts { IfErr result (λ fault. has_ended adapter.old.session ≡ false → Breaks (way_of S.puts S.refuses D.shown D.follows) (point_of channel.old sink.old adapter.old) to_take piece.now (point_of channel.new sink.new adapter.new) fault) }
{
    match take_out(alloc, adapter, channel, sink, piece) {
        Err(fault) => Err(fault),
        Ok((used, false)) => Ok(used),
        Ok((used, true)) => match handle(alloc, adapter, channel, sink) {
            Ok(()) => Ok(used),
            Err(fault) => Err(fault),
        },
    }
}

/// Serves a piece: whether the session ended within it.
pub(crate) fn serve_piece<C, S: Outgoing<C>, D: Debuggee + Drop>(
    alloc: Global,
    adapter: &mut Adapter<D>,
    channel: &mut C,
    sink: &mut S,
    piece: &[u8],
) -> Result<bool, ServeFault>
    ensures uses_up { IfOk result (λ ended. has_ended adapter.old.session ≡ false → UsesUp (way_of S.puts S.refuses D.shown D.follows) (point_of channel.old sink.old adapter.old) piece.now (point_of channel.new sink.new adapter.new) ended) }
    ensures halts { IfErr result (λ fault. has_ended adapter.old.session ≡ false → Breaks (way_of S.puts S.refuses D.shown D.follows) (point_of channel.old sink.old adapter.old) to_take piece.now (point_of channel.new sink.new adapter.new) fault) }
{
    let mut at = 0;
    while at < piece.len() {
        let (_, rest) = piece.split_at(at);
        match serve_frame(alloc, adapter, channel, sink, rest) {
            Ok(used) => at += used,
            Err(fault) => return Err(fault),
        }
        if is_ended(adapter.phase()) {
            return Ok(true);
        }
    }
    Ok(false)
}

/// Serves a piece, and writes and flushes what was made, before a fault too: whether the session ended.
fn serve_read<C: Channel, D: Debuggee + Drop>(
    alloc: Global,
    adapter: &mut Adapter<D>,
    channel: &mut C,
    outlet: &mut Outlet,
    piece: &[u8],
) -> Result<bool, ServeFault>
    ensures uses_up { IfOk result (Uses (served_by C.goes D.shown D.follows) (progress_of channel.old adapter.old outlet.old) (progress_of channel.new adapter.new outlet.new) piece.now) }
    ensures none_left { OnOk result (outlet.new.gathered ≡ []) }
    ensures stops { IfErr result (EndsIn (served_by C.goes D.shown D.follows) (progress_of channel.old adapter.old outlet.old) channel.new piece.now) }
{
    calls_add_up::<C>();
    match serve_piece(alloc, adapter, channel, outlet, piece) {
        Ok(ended) => match outlet.send(channel) {
            Ok(()) => Ok(ended),
            Err(fault) => Err(fault),
        },
        Err(fault) => match fault {
            ServeFault::Write { written } => Err(ServeFault::Write { written }),
            other => match outlet.send(channel) {
                Ok(()) => Err(other),
                Err(short) => Err(short),
            },
        },
    }
}

/// Reads until the input or the session has ended.
fn serve_reads<C: Channel, D: Debuggee + Drop>(
    alloc: Global,
    adapter: &mut Adapter<D>,
    channel: &mut C,
    outlet: &mut Outlet,
    max_reads: u64,
) -> Result<Served, ServeFault>
    requires going { has_ended adapter.old.session ≡ false }
    requires none { outlet.old.gathered ≡ [] }
    ensures { (b : Start C D) → max_reads ≡ b.most → Reaches (served_by C.goes D.shown D.follows b) (progress_of channel.old adapter.old outlet.old) (place_at 0 [] [] []) to_take → Serves C.goes D.shown D.follows b channel.new result }
{
    let mut buffer = [0; 4096];
    for _read in 0..max_reads {
        let Ok(n) = channel.read(&mut buffer) else {
            return Err(ServeFault::Read);
        };
        if n == 0 {
            return Ok(Served {
                end: adapter.finish(),
                phase: adapter.phase(),
            });
        }
        let (piece, _) = buffer.split_at(n);
        let ended = match serve_read(alloc, adapter, channel, outlet, piece) {
            Ok(ended) => ended,
            Err(fault) => return Err(fault),
        };
        if ended {
            return Ok(Served {
                end: End::Clean,
                phase: adapter.phase(),
            });
        }
    }
    Err(ServeFault::TooManyReads)
}

/// Serves a debuggee, which is not started, to the client at the other end of a channel, until the input or the session
/// ends. The channel is read in pieces of at most 4096 bytes, at most `max_reads` times, and what is made of a piece is
/// written and flushed before the next read. After each message all requests are handled, and the debuggee is asked what
/// happened: at most 65536 times, until it gives no bytes or stops.
///
/// # Errors
/// `Read` and `Write` where the channel failed, `Write` also where it took nothing, with how many bytes went out in all;
/// `Adapter` for each fault of the adapter but want of memory; `TooManyReads` where `max_reads` reads were made and another
/// is due; `OutOfMemory` where memory is refused. At each but `Write` all that was made is written and flushed.
pub fn serve_channel<C: Channel, D: Debuggee + Drop>(
    alloc: Global,
    channel: &mut C,
    debuggee: D,
    limits: Limits,
    max_reads: u64,
) -> Result<Served, ServeFault>
    requires { (D.shown debuggee).state ≡ State.NotStarted }
    ensures { Serves C.goes D.shown D.follows
        (start_of limits max_reads channel.old debuggee) channel.new result }
{
    // A law for the proof: also where memory is refused at once, no bytes are a stream with one split.
    each_stream_has_one_split();
    let Ok(mut adapter) = Adapter::open(alloc, limits, debuggee) else {
        return Err(ServeFault::OutOfMemory);
    };
    let mut outlet = Outlet::new(alloc);
    match serve_reads(alloc, &mut adapter, channel, &mut outlet, max_reads) {
        Ok(served) => Ok(served),
        Err(fault) => Err(fault),
    }
}

/// Serves a reader and a writer, as `serve_channel`, whose clause says when they are called. This one says what that does
/// to the bytes that they know.
///
/// # Errors
/// Those of `serve_channel`.
pub fn serve<R: Read, W: Write, D: Debuggee + Drop>(
    alloc: Global,
    pipe: &mut Pipe<R, W>,
    debuggee: D,
    limits: Limits,
    max_reads: u64,
) -> Result<Served, ServeFault>
    requires { (D.shown debuggee).state ≡ State.NotStarted }
    ensures bytes { ServesPipe R.remaining W.contents D.shown D.follows
        limits debuggee pipe.old pipe.new result }
    ensures calls { Serves (PipeGoes R.remaining W.contents) D.shown D.follows
        (start_of limits max_reads pipe.old debuggee) pipe.new result }
{
    pipes_tell_their_bytes::<R, W>();
    serve_channel(alloc, pipe, debuggee, limits, max_reads)
}

/// A law: of a channel that is the log of its calls, what `serve_channel` says is said of that very log.
pub fn serving_is_of_the_log<D: Debuggee + Drop>()
    ensures { ServingIsOfTheLog D.shown D.follows }
{
    calls_are_the_log();
}
