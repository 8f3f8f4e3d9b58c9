//! The numbers that an end gives its own messages.
ghost use Rattle.std.specs.Prelude.{◌≡◌, ◌≤◌, ◌↔◌, IsNone};
ghost use Rattle.dap_tables.specs.Seq.{next_number, after_next, numbers_left, CountsTo};

use std::marker::Model;

/// The numbers that an end gives its own messages: 1, 2 and so on, up to a greatest one.
#[derive(Clone, Copy, Debug, PartialEq, Eq)]
pub struct Seq {
    last: u64,
    used: u64,
}

impl Model for Seq {
    ghost use Rattle.std.specs.Prelude.{◌≤◌};
    ghost use Rattle.dap_tables.specs.Seq.{Numbers};

    ghost Value = { Numbers };

    ghost view = { λ seq. record { last = seq.last; used = seq.used } };

    ghost invariant = { λ seq. seq.used ≤ seq.last };

    ghost inverse = { λ numbers. record { last = numbers.last; used = numbers.used } };
}

impl Seq {
    /// No number given yet, and `s` the greatest that will be.
    #[tactic(auto, using(crate::proofs::SeqLemmas::counting))]
    pub fn open(s: u64) -> Seq
        ensures opened { result ≡ record { last = s; used = 0 } }
        ensures counts { CountsTo s result }
    {
        Seq { last: s, used: 0 }
    }

    /// The next number, or `None`, for ever, once the greatest was given.
    pub fn next(&mut self) -> Option<u64>
        ensures number { result ≡ next_number self.old }
        ensures moves { self.new ≡ after_next self.old }
        ensures none { IsNone result ↔ (self.old.used ≡ self.old.last) }
        ensures bound { self.new.used ≤ self.new.last }
    {
        if self.used == self.last {
            return None;
        }
        self.used += 1;
        Some(self.used)
    }

    /// How many numbers are left to give.
    pub fn left(&self) -> u64
        ensures left { result ≡ numbers_left self.now }
        ensures bound { self.now.used ≤ self.now.last }
    {
        self.last - self.used
    }
}
