//! How many references were live at a moment.

use std::marker::Model;

/// How many references were live when it was taken; a contract sees that number.
#[derive(Clone, Copy, Debug)]
pub struct Mark {
    pub(crate) live: usize,
}

impl Model for Mark {
    ghost use Rattle.std.specs.Prelude.{ℕ};

    ghost Value = { ℕ };

    ghost view = { λ mark. mark.live };

    ghost inverse = { λ live. record { live = live } };
}
