//! A host over a channel: each line is answered whole before the next is heard.
ghost use Rattle.std.specs.Prelude.{◌≡◌, ◌≢◌, ℕ, ◌+◌, ◌<◌, ◌++◌, List, [], length, true, false, IfOk, IfErr, OnOk, Err};
ghost use Rattle.dap_plan.specs.declared.fault.AdapterFault.{AdapterFault};
ghost use Rattle.dap_host.specs.Hearing.{Hears, IsGoing, Stops};
ghost use Rattle.dap_host.specs.PrivateFetching.{IsDropped};
ghost use Rattle.dap_host.specs.Fetching.{has_line};
ghost use Rattle.dap_host.specs.Hosting.{HostPoint, point_of, HearsAll, Hosts, AnswersInput};
ghost use Rattle.dap_host.specs.PrivateHosting.{Answers, AnswerStops, AnswersFirst, FirstStops, AnswersLast, IsWhole, LastStops, SoFar, with_held};

use crate::fetching::fetch;
use crate::host::Host;
use dap_adapter::{AdapterFault, ServeFault};
use dap_channel::{Channel, calls_add_up, send};
use dap_check::split_line;
use std::alloc::Global;
use std::marker::Model;

/// Hears a line of which these bytes are held.
fn hear(
    alloc: Global,
    host: &mut Host,
    line: &[u8],
    is_long: bool,
    out: &mut Vec<u8>,
) -> Result<(), AdapterFault>
    requires { IsGoing host.old }
    ensures going { OnOk result (IsGoing host.new) }
    ensures hears { OnOk result ((whole : List ℕ) → IsWhole host.old.longest is_long line.now whole → Hears host.old whole out.old.items out.new.items host.new) }
    ensures stops { IfErr result (λ fault. fault ≢ AdapterFault.OutOfMemory → (whole : List ℕ) → IsWhole host.old.longest is_long line.now whole → Stops host.old whole out.old.items out.new.items host.new fault) }
{
    if is_long {
        host.hear_too_long(out)
    } else {
        host.line(alloc, line, out)
    }
}

/// Hears a line of which these bytes are held, and writes and flushes what is due then, before a fault too. It answers how many
/// bytes went out in all.
fn answer_line<C: Channel>(
    alloc: Global,
    channel: &mut C,
    host: &mut Host,
    line: &[u8],
    is_long: bool,
    written: u64,
) -> Result<u64, ServeFault>
    requires { IsGoing host.old }
    ensures going { OnOk result (IsGoing host.new) }
    ensures answered { IfOk result (λ total. (whole : List ℕ) → IsWhole host.old.longest is_long line.now whole → Answers C.goes channel.old host.old whole channel.new host.new written total) }
    ensures stops { IfErr result (λ fault. (whole : List ℕ) → IsWhole host.old.longest is_long line.now whole → AnswerStops C.goes channel.old host.old whole channel.new written fault) }
{
    let mut out = Vec::new(alloc);
    let heard = hear(alloc, host, line, is_long, &mut out);
    // Where memory is refused, a part of a line may be there.
    if let Err(AdapterFault::OutOfMemory) = heard {
        return Err(ServeFault::OutOfMemory);
    }
    let total = match send(channel, &out, written) {
        Ok(total) => total,
        Err(written) => return Err(ServeFault::Write { written }),
    };
    match heard {
        Ok(()) => Ok(total),
        Err(fault) => Err(ServeFault::Adapter(fault)),
    }
}

/// Whether there is no last line, of which these bytes are held.
fn is_none(held: &[u8], is_long: bool) -> bool
    ensures none { result ≡ true → (is_long ≡ false) × (held.now ≡ []) }
    ensures some { result ≡ false → is_long ≡ false → 0 < length held.now }
{
    !is_long && held.is_empty()
}

/// A host, the bytes that were read and are no line yet, and how many went out.
struct Hosting {
    host: Host,
    held: Vec<u8>,
    written: u64,
}

// By hand, so that whoever drops one makes a call, and no proof looks into it.
impl Drop for Hosting {
    fn drop(self) {
        let Hosting {
            host,
            held,
            written: _,
        } = self;
        drop(held);
        drop(host);
    }
}

impl Model for Hosting {
    ghost use Rattle.std.specs.Coded.{codes};
    ghost use Rattle.dap_json.specs.Stored.{coded_data};
    ghost use Rattle.dap_host.specs.PrivateHosting.{HostingState};

    ghost Value = { HostingState };

    ghost coded = { Prim.hlevel (codes, coded_data) };

    ghost view = { λ h. record { host = h.host; held = h.held.items; written = h.written } };
}

impl Hosting {
    /// Answers the first line of what is held, behind what was dropped of it where it is too long.
    fn answer_first<C: Channel>(
        &mut self,
        alloc: Global,
        channel: &mut C,
        is_long: bool,
    ) -> Result<(), ServeFault>
        requires going { IsGoing self.old.host }
        requires line { has_line self.old.held ≡ true }
        ensures going { OnOk result (IsGoing self.new.host) }
        ensures answered { OnOk result ((dropped : List ℕ) → IsDropped self.old.host.longest is_long dropped → AnswersFirst C.goes channel.old (with_held (dropped ++ self.old.held) self.old) channel.new self.new) }
        ensures stops { IfErr result (λ fault. (dropped : List ℕ) → IsDropped self.old.host.longest is_long dropped → FirstStops C.goes channel.old (with_held (dropped ++ self.old.held) self.old) channel.new fault) }
    {
        let (line, rest) = split_line(&self.held);
        let Ok(rest) = rest.to_vec(alloc) else {
            return Err(ServeFault::OutOfMemory);
        };
        match answer_line(alloc, channel, &mut self.host, line, is_long, self.written) {
            Ok(written) => {
                self.written = written;
                self.held = rest;
                Ok(())
            }
            Err(fault) => Err(fault),
        }
    }

    /// Answers what is held at the end of the input, behind what was dropped of it, if anything is.
    fn answer_last<C: Channel>(
        &mut self,
        alloc: Global,
        channel: &mut C,
        is_long: bool,
    ) -> Result<(), ServeFault>
        requires going { IsGoing self.old.host }
        ensures answered { OnOk result ((dropped : List ℕ) → IsDropped self.old.host.longest is_long dropped → AnswersLast C.goes channel.old (with_held (dropped ++ self.old.held) self.old) channel.new) }
        ensures stops { IfErr result (λ fault. (dropped : List ℕ) → IsDropped self.old.host.longest is_long dropped → LastStops C.goes channel.old (with_held (dropped ++ self.old.held) self.old) channel.new fault) }
    {
        if is_none(&self.held, is_long) {
            return Ok(());
        }
        match answer_line(
            alloc,
            channel,
            &mut self.host,
            &self.held,
            is_long,
            self.written,
        ) {
            Ok(_written) => {}
            Err(fault) => return Err(fault),
        }
        Ok(())
    }

    /// Reads and answers the next line. It answers whether another may come.
    fn step<C: Channel>(
        &mut self,
        alloc: Global,
        channel: &mut C,
        max_reads: u64,
    ) -> Result<bool, ServeFault>
        requires { IsGoing self.old.host }
        ensures going { IfOk result (λ more. more ≡ true → IsGoing self.new.host) }
        ensures heard { IfOk result (λ more. more ≡ true → (start : HostPoint C) (n : ℕ) → SoFar C.goes start n channel.old self.old → SoFar C.goes start (n + 1) channel.new self.new) }
        ensures all { IfOk result (λ more. more ≡ false → (start : HostPoint C) (n : ℕ) → SoFar C.goes start n channel.old self.old → HearsAll C.goes start channel.new) }
        ensures stops { IfErr result (λ fault. (start : HostPoint C) (n : ℕ) → SoFar C.goes start n channel.old self.old → Hosts C.goes max_reads start channel.new (Err fault)) }
    {
        // A law for the proof: what calls come to that are made one after the other.
        calls_add_up::<C>();
        let fetched = match fetch(channel, &mut self.held, self.host.longest(), max_reads) {
            Ok(fetched) => fetched,
            Err(fault) => return Err(fault),
        };
        if fetched.more {
            return match self.answer_first(alloc, channel, fetched.is_long) {
                Ok(()) => Ok(true),
                Err(fault) => Err(fault),
            };
        }
        match self.answer_last(alloc, channel, fetched.is_long) {
            Ok(()) => Ok(false),
            Err(fault) => Err(fault),
        }
    }
}

/// Answers the lines of a host that come over a channel, until the input ends. The channel is read in pieces of at most 4096
/// bytes. Of a line that is too long nothing is kept: at most 4097 bytes more are held than a line may have. Each line is answered whole, and what is due is written and flushed, before the next is heard. At most `max_reads`
/// lines are answered, and at most as many reads are made for each.
///
/// # Errors
/// `Read` and `Write` where the channel failed; `Adapter` where the adapter is closed; `TooManyReads`; `OutOfMemory` where
/// memory is refused: no part of the answer to that line is written. At each but `Write` all that was made before is written and
/// flushed.
pub fn host_channel<C: Channel>(
    alloc: Global,
    channel: &mut C,
    host: Host,
    max_reads: u64,
) -> Result<(), ServeFault>
    requires { IsGoing host }
    ensures input { OnOk result (AnswersInput C.goes channel.old host channel.new) }

    // In which order, and why it stops.
    ensures hosts { Hosts C.goes max_reads (point_of channel.old host []) channel.new result }
{
    // A law for the proof: what calls come to that are made one after the other.
    calls_add_up::<C>();
    let mut hosting = Hosting {
        host,
        held: Vec::new(alloc),
        written: 0,
    };
    for _line in 0..max_reads {
        match hosting.step(alloc, channel, max_reads) {
            Ok(true) => {}
            Ok(false) => return Ok(()),
            Err(fault) => return Err(fault),
        }
    }
    Err(ServeFault::TooManyReads)
}
