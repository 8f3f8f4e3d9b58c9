//! What an end reads from and writes to, so that clauses can say when.

ghost use Rattle.std.specs.Prelude.{◌≡◌, List, ◌++◌, length, take, drop, IfOk, OnOk, OnErr};
ghost use Rattle.std.specs.Io.{ReadsAtMost, WritesAtMost};
ghost use Rattle.dap_channel.specs.Channel.{IoEvent, Gave, ReadFailed, Took, WriteFailed, Flushed, FlushFailed, Pipes, Inputs, Ran, keeps_log};

use std::io;
use std::io::{Read, Write};

/// A peer's bytes in both directions.
pub trait Channel {
    // One call, which is this event, led from one state to the other. Clauses over all channels say of it what the
    // calls ensure, and nothing else: so a log of such steps is the log of the calls.
    ghost goes: { Self → IoEvent → Self → Type 0 };

    /// As `std::io::Read::read`.
    fn read(&mut self, buf: &mut [u8]) -> io::Result<usize>
        ensures bound { ReadsAtMost result buf.new }
        ensures ok { IfOk result (λ n. goes self.old (Gave (length buf.new) (take n buf.new)) self.new) }
        ensures err { OnErr result (goes self.old ReadFailed self.new) };

    /// As `std::io::Write::write`.
    fn write(&mut self, bytes: &[u8]) -> io::Result<usize>
        ensures bound { WritesAtMost result bytes.now }
        ensures ok { IfOk result (λ n. goes self.old (Took (take n bytes.now) (drop n bytes.now)) self.new) }
        ensures err { OnErr result (goes self.old WriteFailed self.new) };

    /// As `std::io::Write::flush`.
    fn flush(&mut self) -> io::Result<()>
        ensures ok { OnOk result (goes self.old Flushed self.new) }
        ensures err { OnErr result (goes self.old FlushFailed self.new) };
}

/// A reader and a writer as a channel.
#[derive(Drop)]
pub struct Pipe<R, W> {
    pub reader: R,
    pub writer: W,
}

impl<R, W> Pipe<R, W> {
    /// The two as one channel.
    pub fn new(reader: R, writer: W) -> Pipe<R, W>
        ensures reads { result.reader ≡ reader }
        ensures writes { result.writer ≡ writer }
    {
        Pipe { reader, writer }
    }
}

impl<R: Read, W: Write> Channel for Pipe<R, W> {
    ghost goes = { λ p e q. Pipes (R.remaining p.reader) (W.contents p.writer) e (R.remaining q.reader) (W.contents q.writer) };

    fn read(&mut self, buf: &mut [u8]) -> io::Result<usize> {
        self.reader.read(buf)
    }

    fn write(&mut self, bytes: &[u8]) -> io::Result<usize> {
        self.writer.write(bytes)
    }

    fn flush(&mut self) -> io::Result<()> {
        self.writer.flush()
    }
}

/// A reader as a channel. Nothing is ever written to it: each write and each flush is an error, of kind `Unsupported`, and
/// leaves the reader as it was.
#[derive(Drop)]
pub struct Input<R> {
    pub reader: R,
}

impl<R: Read> Channel for Input<R> {
    ghost goes = { λ p e q. Inputs (R.remaining p.reader) e (R.remaining q.reader) };

    fn read(&mut self, buf: &mut [u8]) -> io::Result<usize> {
        self.reader.read(buf)
    }

    fn write(&mut self, _bytes: &[u8]) -> io::Result<usize> {
        Err(io::Error::from(io::ErrorKind::Unsupported))
    }

    fn flush(&mut self) -> io::Result<()> {
        Err(io::Error::from(io::ErrorKind::Unsupported))
    }
}

/// A law: where a channel is the log of its calls, the calls that a clause says were made are those of the log, all of
/// them and in their order.
pub fn calls_are_the_log()
    ensures { (old new calls : List IoEvent) → Ran keeps_log old calls new → new ≡ calls ++ old }
{}
