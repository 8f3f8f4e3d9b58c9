//! What a row says of an end: each fact holds until the row says otherwise, but for the bytes that are held.

use crate::words::Counted;
use std::alloc::{AllocError, Global};
use std::fmt::{Debug, Write};

/// Counts that are seen from outside. A row names each by one word.
#[derive(Clone, Copy, Debug, PartialEq, Eq)]
pub struct Counts {
    /// Requests that wait for an answer: `kept` of an adapter, `outstanding` of a client.
    pub waiting: usize,
    /// Requests of the adapter that wait for an answer: `incoming` of a client, `asked` of an adapter.
    pub reverse: usize,
    pub references: usize,
    pub breakpoints: usize,
    pub held: usize,
}

impl Counts {
    /// What a word of a row counts.
    pub fn of(&self, counted: Counted) -> usize {
        match counted {
            Counted::Waiting => self.waiting,
            Counted::Reverse => self.reverse,
            Counted::References => self.references,
            Counted::Breakpoints => self.breakpoints,
            Counted::Held => self.held,
        }
    }
}

/// What was said; nothing where a row does not speak of it. The requests that wait are counted along a row.
#[derive(Clone, Copy, Debug, PartialEq, Eq)]
pub struct Facts {
    waiting: usize,
    reverse: Option<usize>,
    references: Option<usize>,
    breakpoints: Option<usize>,
    held: Option<usize>,
}

/// Whether a count is what was said of it.
fn holds(said: Option<usize>, count: usize) -> bool {
    match said {
        None => true,
        Some(said) => said == count,
    }
}

impl Facts {
    /// Nothing is said, and nothing waits.
    pub fn none() -> Facts {
        Facts {
            waiting: 0,
            reverse: None,
            references: None,
            breakpoints: None,
            held: None,
        }
    }

    /// The same, but for what waits.
    pub fn of_what_waits(self) -> Facts {
        Facts {
            waiting: self.waiting,
            ..Facts::none()
        }
    }

    /// A request more waits.
    pub fn count_request(&mut self) {
        self.waiting = self.waiting.saturating_add(1);
    }

    /// One fewer.
    pub fn count_answer(&mut self) {
        self.waiting = self.waiting.saturating_sub(1);
    }

    /// How many bytes are held was said of one place alone.
    pub fn go_on(&mut self) {
        self.held = None;
    }

    pub fn waiting(&self) -> usize {
        self.waiting
    }

    /// Whether all that was said is so.
    pub fn are_so(&self, counts: &Counts) -> bool {
        self.waiting == counts.waiting
            && holds(self.reverse, counts.reverse)
            && holds(self.references, counts.references)
            && holds(self.breakpoints, counts.breakpoints)
            && holds(self.held, counts.held)
    }

    /// Notes a count; false where another number of requests waits.
    pub fn note(&mut self, counted: Counted, count: usize) -> bool {
        match counted {
            Counted::Waiting => return self.waiting == count,
            Counted::Reverse => self.reverse = Some(count),
            Counted::References => self.references = Some(count),
            Counted::Breakpoints => self.breakpoints = Some(count),
            Counted::Held => self.held = Some(count),
        }
        true
    }
}

/// Whether a value is printed as this text.
pub fn is_printed<T: Debug>(alloc: Global, value: &T, text: &str) -> Result<bool, AllocError> {
    match format!(in alloc; "{value:?}") {
        Ok(printed) => {
            let is_so = printed.as_str() == text;
            drop(printed);
            Ok(is_so)
        }
        Err(fault) => Err(fault),
    }
}

/// Appends a value as it is printed. Where memory for that is refused, less is told.
pub fn tell<T: Debug>(came: &mut String, value: &T) {
    let _ = write!(came, "{value:?}");
}
