//! How often a program reads that serves a session.
ghost use Rattle.std.specs.Prelude.{◌≡◌};

/// How many reads a program makes at most that serves a session: 1000000000, more than an input has that is read for hours.
pub fn most_reads() -> u64
    ensures { result ≡ 1000000000 }
{
    1000000000
}
