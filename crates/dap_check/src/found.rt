//! What a checker is asked of each line, and what it finds of one.
ghost use Rattle.std.specs.Prelude.{◌≡◌};

use crate::line::{Line, Side};
use crate::rule::{AnySeq, Rule};
use dap_shape::ShapeFault;

/// What a checker is asked of each line.
#[derive(Clone, Copy, Debug, PartialEq, Eq)]
pub struct CheckMode {
    /// Whose numbers are not tested.
    pub any_seq: AnySeq,
    /// Whether rule 8 counts: what a message holds is as the Specification has it.
    pub bodies: bool,
    /// Whether each line is given back with its message. Without, a message is read without its tree where no rule looks at
    /// that, which takes a part of the time.
    pub whole: bool,
}

/// What a line breaks.
#[derive(Debug, Drop)]
pub enum Broken {
    /// One of rules 1 to 7: the least that it breaks.
    Rule(Rule),
    /// None of these, but rule 8: this is not as the Specification has it.
    Body(ShapeFault),
}

impl Broken {
    ghost use Rattle.dap_check.specs.Checking.{number_of_broken};

    /// The rule's number, 1 to 8.
    pub fn number(&self) -> u8
        ensures { result ≡ number_of_broken self.now }
    {
        match self {
            Broken::Rule(rule) => rule.number(),
            Broken::Body(_) => 8,
        }
    }
}

/// What is found of a line.
#[derive(Debug, Drop)]
pub struct LineFound {
    /// Its place in the text, counted from 1.
    pub number: u64,
    pub side: Side,
    pub broken: Option<Broken>,
    /// The line with its message: where that is asked for, and where it breaks rule 8.
    pub line: Option<Box<Line>>,
}
