//! Bytes that are gathered before they go out.
ghost use Rattle.std.specs.Prelude.{◌≡◌, ℕ, ◌+◌, [], length, OnOk, IfErr};
ghost use Rattle.dap_channel.specs.Sent.{Sends, saturating_count};
ghost use Rattle.dap_adapter.specs.PrivateServing.{sink_of, FallsShort};

use crate::served::ServeFault;
use dap_channel::{Channel, send};
use std::alloc::Global;
use std::marker::Model;
use std::mem;

/// As many bytes are sent at once.
const FULL: usize = 65536;

/// What takes the bytes that an adapter hands out, and may send them over a channel. Its buffer is lent to each step, which
/// appends to it, and comes back.
pub(crate) trait Outgoing<C> {
    ghost use Rattle.std.specs.Prelude.{ℕ, List, ◌≡◌, ◌++◌, OnOk, IfErr};
    ghost use Rattle.dap_adapter.specs.declared.served.ServeFault.{ServeFault};

    // It took these bytes.
    ghost puts: { C → Self → List ℕ → C → Self → Type 0 };

    // It refused them.
    ghost refuses: { C → Self → List ℕ → C → Self → ServeFault → Type 0 };

    // Its buffer, which has these bytes, is lent.
    ghost lends: { Self → List ℕ → Self → Type 0 };

    /// Lends its buffer.
    fn lend(&mut self, alloc: Global) -> Vec<u8>
        ensures { lends self.old result.items self.new };

    /// Takes its buffer back, with bytes that were appended.
    fn put(&mut self, channel: &mut C, buffer: Vec<u8>) -> Result<(), ServeFault>
        ensures puts { (s : Self) (before bytes : List ℕ) → lends s before self.old → buffer.items ≡ before ++ bytes → OnOk result (puts channel.old s bytes channel.new self.new) }
        ensures refused { (s : Self) (before bytes : List ℕ) → lends s before self.old → buffer.items ≡ before ++ bytes → IfErr result (refuses channel.old s bytes channel.new self.new) };

    /// Takes its buffer back as it was.
    fn restore(&mut self, buffer: Vec<u8>)
        ensures { (s : Self) → lends s buffer.items self.old → self.new ≡ s };
}

/// Bytes to be written, and how many others went out.
#[derive(Drop)]
pub(crate) struct Outlet {
    buffer: Vec<u8>,
    written: u64,
}

impl Model for Outlet {
    ghost use Rattle.dap_adapter.specs.PrivateServing.{OutletState};

    ghost Value = { OutletState };

    ghost view = { λ o. record { gathered = o.buffer.items; written = o.written } };
}

impl Outlet {
    pub(crate) fn new(alloc: Global) -> Outlet
        ensures gathered { result.gathered ≡ [] }
        ensures written { result.written ≡ 0 }
    {
        Outlet {
            buffer: Vec::new(alloc),
            written: 0,
        }
    }

    /// Writes and flushes what is gathered, if anything is.
    pub(crate) fn send<C: Channel>(&mut self, channel: &mut C) -> Result<(), ServeFault>
        ensures sent { OnOk result (Sends C.goes channel.old channel.new self.old.gathered) }
        ensures none { OnOk result (self.new.gathered ≡ []) }
        ensures count { OnOk result ((others : ℕ) → self.old.written ≡ saturating_count others → self.new.written ≡ saturating_count (others + length self.old.gathered)) }
        ensures short { IfErr result (FallsShort C.goes (sink_of channel.old self.old) channel.new self.old.gathered) }
    {
        if self.buffer.is_empty() {
            return Ok(());
        }
        match send(channel, &self.buffer, self.written) {
            Ok(total) => {
                self.buffer.clear();
                self.written = total;
                Ok(())
            }
            Err(written) => Err(ServeFault::Write { written }),
        }
    }
}

impl<C: Channel> Outgoing<C> for Outlet {
    ghost use Rattle.std.specs.Prelude.{◌≡◌};
    ghost use Rattle.dap_adapter.specs.PrivateServing.{sink_of, Gathers, FallsShort, GathersNot, IsLent};

    ghost puts = { λ c s bytes d t. Gathers C.goes (sink_of c s) bytes (sink_of d t) };

    ghost refuses = { λ c s bytes d t fault. GathersNot C.goes (sink_of c s) bytes (sink_of d t) fault };

    ghost lends = { λ s before t. IsLent s before t };

    fn lend(&mut self, alloc: Global) -> Vec<u8> {
        mem::replace(&mut self.buffer, Vec::new(alloc))
    }

    fn put(&mut self, channel: &mut C, buffer: Vec<u8>) -> Result<(), ServeFault> {
        self.buffer = buffer;
        if self.buffer.len() >= FULL {
            return self.send(channel);
        }
        Ok(())
    }

    fn restore(&mut self, buffer: Vec<u8>) {
        self.buffer = buffer;
    }
}

/// A buffer that keeps all bytes.
#[derive(Drop)]
pub(crate) struct Gathered {
    buffer: Vec<u8>,
}

impl Model for Gathered {
    ghost use Rattle.std.specs.Prelude.{List, ℕ};

    ghost Value = { List ℕ };

    ghost view = { λ g. g.buffer.items };
}

impl Gathered {
    pub(crate) fn behind(buffer: Vec<u8>) -> Gathered
        ensures { result ≡ buffer.items }
    {
        Gathered { buffer }
    }

    pub(crate) fn into_buffer(self) -> Vec<u8>
        ensures { result.items ≡ self }
    {
        self.buffer
    }
}

impl Outgoing<()> for Gathered {
    ghost use Rattle.dap_adapter.specs.PrivateServing.{Appends, IsLentAll};

    ghost puts = { λ c s bytes d t. Appends s bytes t };

    ghost refuses = { λ c s bytes d t fault. ⊥ };

    ghost lends = { λ s before t. IsLentAll s before t };

    fn lend(&mut self, alloc: Global) -> Vec<u8> {
        mem::replace(&mut self.buffer, Vec::new(alloc))
    }

    fn put(&mut self, _channel: &mut (), buffer: Vec<u8>) -> Result<(), ServeFault> {
        self.buffer = buffer;
        Ok(())
    }

    fn restore(&mut self, buffer: Vec<u8>) {
        self.buffer = buffer;
    }
}
