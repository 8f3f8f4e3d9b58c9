//! What a row, or a part of it, comes to.

use std::alloc::AllocError;

#[derive(Clone, Copy, Debug, PartialEq, Eq)]
pub enum Outcome {
    Right,
    Wrong,
    /// Memory was refused, and nothing else has happened.
    Refused,
}

impl Outcome {
    /// Right where something is so, and else wrong.
    pub fn of(is_so: bool) -> Outcome {
        if is_so {
            Outcome::Right
        } else {
            Outcome::Wrong
        }
    }

    /// Whether something is so; refused where memory for finding it out was.
    pub fn of_tried(is_so: Result<bool, AllocError>) -> Outcome {
        match is_so {
            Ok(is_so) => Outcome::of(is_so),
            Err(_) => Outcome::Refused,
        }
    }

    /// Right where something was added.
    pub fn of_added(added: Result<(), AllocError>) -> Outcome {
        match added {
            Ok(()) => Outcome::Right,
            Err(_) => Outcome::Refused,
        }
    }

    /// Memory was refused: wrong where something else has happened too.
    pub fn of_refusal(is_same: bool) -> Outcome {
        if is_same {
            Outcome::Refused
        } else {
            Outcome::Wrong
        }
    }
}
