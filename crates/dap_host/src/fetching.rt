//! What is read over a channel until a line is whole. It knows bytes and reads; it must not know what a line says.
ghost use Rattle.std.specs.Prelude.{◌≡◌, ◌+◌, ◌≤◌, ◌++◌, ℕ, List, length, true, false, IfOk, IfErr};
ghost use Rattle.dap_channel.specs.Channel.{MayGoOn, HasEnded};
ghost use Rattle.dap_host.specs.Fetching.{has_line};
ghost use Rattle.dap_host.specs.PrivateFetching.{ReadsOnce, ReadStops, IsDropped, Drops, FetchesBehind, StopsBehind};

use dap_adapter::ServeFault;
use dap_channel::Channel;
use memchr::memchr;

/// Whether there is a line feed.
fn has_line(bytes: &[u8]) -> bool
    ensures { result ≡ has_line bytes.now }
{
    memchr(b'\n', bytes).is_some()
}

/// What a read found.
#[derive(Clone, Copy)]
pub(crate) enum Found {
    /// Bytes without a line feed.
    More,
    /// The end of a line.
    Line,
    /// The end of the input.
    End,
}

/// What reads came to.
#[derive(Clone, Copy)]
pub(crate) struct Fetched {
    /// Whether a line is held up to its line feed. Else the input has ended.
    pub(crate) more: bool,
    /// Whether that line is too long: what came of it before is not held.
    pub(crate) is_long: bool,
}

/// Reads once, behind what is held.
fn read_more<C: Channel>(channel: &mut C, held: &mut Vec<u8>) -> Result<Found, ServeFault>
    ensures reads { IfOk result (ReadsOnce C.goes channel.old held.old.items channel.new held.new.items) }
    ensures stops { IfErr result (ReadStops C.goes channel.old held.old.items channel.new held.new.items) }
    ensures bounded { length held.new.items ≤ length held.old.items + 4096 }
{
    let mut buffer = [0; 4096];
    let Ok(n) = channel.read(&mut buffer) else {
        return Err(ServeFault::Read);
    };
    if n == 0 {
        return Ok(Found::End);
    }
    let (piece, _) = buffer.split_at(n);
    if held.extend_from_slice(piece).is_err() {
        return Err(ServeFault::OutOfMemory);
    }
    if has_line(piece) {
        return Ok(Found::Line);
    }
    Ok(Found::More)
}

/// Lets go what is held of a line that is too long, and answers whether it is. A carriage return at the end of what is held may
/// be no part of the line, so it is only then where there is another byte more.
fn let_go(held: &mut Vec<u8>, longest: usize, is_long: bool) -> bool
    requires { has_line held.old.items ≡ false }
    ensures dropped { (dropped : List ℕ) → IsDropped longest is_long dropped → Drops longest result dropped held.old.items held.new.items }
    ensures bounded { length held.new.items ≤ longest + 1 }
{
    if is_long || held.len() > longest.saturating_add(1) {
        held.clear();
        return true;
    }
    false
}

/// Reads until a line is held up to its line feed, or the input has ended. Of a line that has more bytes than `longest` nothing
/// is held but its end, so that at most 4097 bytes more are.
pub(crate) fn fetch<C: Channel>(
    channel: &mut C,
    held: &mut Vec<u8>,
    longest: usize,
    max_reads: u64,
) -> Result<Fetched, ServeFault>
    ensures line { IfOk result (λ f. f.more ≡ true → has_line held.new.items ≡ true) }
    ensures fetched { IfOk result (λ f. f.more ≡ true → FetchesBehind C.goes MayGoOn true longest f.is_long channel.old held.old.items channel.new held.new.items) }
    ensures ended { IfOk result (λ f. f.more ≡ false → FetchesBehind C.goes HasEnded false longest f.is_long channel.old held.old.items channel.new held.new.items) }
    ensures stops { IfErr result (StopsBehind C.goes max_reads channel.old held.old.items channel.new) }
    ensures bounded { length held.old.items ≤ longest + 4097 → length held.new.items ≤ longest + 4097 }
{
    let mut is_long = false;
    if has_line(held) {
        return Ok(Fetched {
            more: true,
            is_long,
        });
    }
    for _read in 0..max_reads {
        is_long = let_go(held, longest, is_long);
        match read_more(channel, held) {
            Ok(Found::More) => {}
            Ok(Found::Line) => {
                return Ok(Fetched {
                    more: true,
                    is_long,
                });
            }
            Ok(Found::End) => {
                return Ok(Fetched {
                    more: false,
                    is_long,
                });
            }
            Err(fault) => return Err(fault),
        }
    }
    Err(ServeFault::TooManyReads)
}
