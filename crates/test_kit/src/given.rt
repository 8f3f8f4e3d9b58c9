//! Bytes that a call handed out, of which a row names the frames one after the other.

use crate::bodies::{body_of, frame_of, is_response};
use crate::outcome::Outcome;
use std::alloc::{AllocError, Global};
use std::str;

#[derive(Drop)]
pub struct Given {
    bytes: Vec<u8>,
    /// How many of them a row has named.
    named: usize,
}

impl Given {
    pub fn new(alloc: Global) -> Given {
        Given {
            bytes: Vec::new(alloc),
            named: 0,
        }
    }

    /// Takes more bytes in.
    pub fn add(&mut self, bytes: &[u8]) -> Result<(), AllocError> {
        self.bytes.extend_from_slice(bytes)
    }

    /// The bytes that were not named yet.
    fn rest(&self) -> &[u8] {
        let (_, rest) = self.bytes.split_at(self.named.min(self.bytes.len()));
        rest
    }

    pub fn is_named(&self) -> bool {
        self.rest().is_empty()
    }

    /// Whether bytes come next, which are named then.
    fn passes(&mut self, bytes: &[u8]) -> bool {
        let is_next = self.rest().starts_with(bytes);
        if is_next {
            self.named = self.named.saturating_add(bytes.len());
        }
        is_next
    }

    /// Whether the frame of a body comes next.
    fn passes_frame(&mut self, alloc: Global, body: &str) -> Result<bool, AllocError> {
        match frame_of(alloc, body) {
            Ok(frame) => {
                let is_next = self.passes(&frame);
                // The proof of a call is shorter than that of a value that goes out of scope.
                drop(frame);
                Ok(is_next)
            }
            Err(fault) => Err(fault),
        }
    }

    /// Whether the frame comes next of the body that a text stands for, and whether that is a response.
    pub fn passes_text(&mut self, alloc: Global, text: &str) -> Result<(bool, bool), AllocError> {
        match body_of(alloc, text) {
            Ok(body) => {
                let (is_next, answers) = (
                    self.passes_frame(alloc, body.as_str()),
                    is_response(body.as_str()),
                );
                drop(body);
                match is_next {
                    Ok(is_next) => Ok((is_next, answers)),
                    Err(fault) => Err(fault),
                }
            }
            Err(fault) => Err(fault),
        }
    }

    /// Appends what was not named yet, where it is a text.
    pub fn tell(&self, came: &mut String) {
        match str::from_utf8(self.rest()) {
            Ok("") => note(came, "nothing"),
            Ok(rest) => note(came, rest),
            Err(_) => note(came, "bytes that are no text"),
        }
    }
}

/// Notes what came in place of what a row says. Where memory for that is refused, less is told.
pub fn note(came: &mut String, text: &str) {
    let _ = came.push_str(text);
}

/// Wrong, with what came.
pub fn wrong(came: &mut String, text: &str) -> Outcome {
    note(came, text);
    Outcome::Wrong
}
