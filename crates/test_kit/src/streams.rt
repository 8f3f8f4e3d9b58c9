//! Readers and writers over memory, which fail when they are told to.

ghost use Rattle.std.specs.Prelude.{Some, ◌<◌};

use std::io;
use std::io::{Read, Write};

/// Gives its bytes in pieces of one size, and fails after so many calls.
#[derive(Drop)]
pub struct Pieces<'a> {
    pub rest: &'a [u8],
    pub size: usize,
    pub calls_left: usize,
    ghost some: { 0 < size },
}

impl Read for Pieces<'_> {
    ghost remaining = { λ r. Some r.rest.now };

    fn read(&mut self, buf: &mut [u8]) -> io::Result<usize> {
        if self.calls_left == 0 {
            return Err(io::Error::from(io::ErrorKind::Other));
        }
        self.calls_left -= 1;
        let n = self.rest.len().min(self.size).min(buf.len());
        let (given, rest) = self.rest.split_at(n);
        buf[..n].copy_from_slice(given);
        self.rest = rest;
        Ok(n)
    }
}

/// Takes so many bytes, and then fails.
#[derive(Drop)]
pub struct Short {
    pub room: usize,
    pub held: Vec<u8>,
}

impl Write for Short {
    ghost contents = { λ w. Some w.held.items };

    fn write(&mut self, buf: &[u8]) -> io::Result<usize> {
        let n = self.room.min(buf.len());
        if n == 0 && !buf.is_empty() {
            return Err(io::Error::from(io::ErrorKind::Other));
        }
        self.held.extend_from_slice(&buf[..n])?;
        self.room -= n;
        Ok(n)
    }

    fn flush(&mut self) -> io::Result<()> {
        Ok(())
    }
}

/// Takes everything, counts its flushes, and fails at one of them.
#[derive(Drop)]
pub struct Flushed {
    pub held: Vec<u8>,
    pub flushes: usize,
    pub flushes_left: usize,
}

impl Write for Flushed {
    fn write(&mut self, buf: &[u8]) -> io::Result<usize> {
        self.held.extend_from_slice(buf)?;
        Ok(buf.len())
    }

    fn flush(&mut self) -> io::Result<()> {
        if self.flushes_left == 0 {
            return Err(io::Error::from(io::ErrorKind::Other));
        }
        self.flushes_left -= 1;
        self.flushes = self.flushes.saturating_add(1);
        Ok(())
    }
}

/// Takes nothing, and calls that no failure.
#[derive(Drop)]
pub struct Stuck;

impl Write for Stuck {
    fn write(&mut self, _buf: &[u8]) -> io::Result<usize> {
        Ok(0)
    }

    fn flush(&mut self) -> io::Result<()> {
        Ok(())
    }
}
