//! Rows of a stream that is served: `> BODY` a message of the client, `< BODY` one that has to come for it, and `phase P` how
//! far the session is then.

use crate::bodies::body_of;
use crate::words::{Word, parts, word_named};
use dap_decision::Phase;
use dap_frame::write_frame;
use std::alloc::{AllocError, Global};

static PHASES: [(&str, Phase); 9] = [
    ("Fresh", Phase::Fresh),
    ("Ready", Phase::Ready),
    ("Configured", Phase::Configured),
    ("Parked", Phase::Parked),
    ("Asked", Phase::Asked),
    ("Running", Phase::Running),
    ("Stopped", Phase::Stopped),
    ("Exited", Phase::Exited),
    ("Ended", Phase::Ended),
];

/// The phase of an adapter that a row names.
pub fn phase_named(name: &str) -> Option<Phase> {
    match PHASES.iter().find(|phase| phase.0 == name) {
        Some(phase) => Some(phase.1),
        None => None,
    }
}

/// A stream, and what it comes to.
#[derive(Drop)]
pub struct Stream {
    pub input: Vec<u8>,
    pub answers: Vec<u8>,
    /// How many bytes of the input, and of the answers, there are where a phase is named.
    pub ends: Vec<(usize, usize, Phase)>,
}

/// Appends the frame of the body that a text stands for.
fn add_frame(alloc: Global, frames: &mut Vec<u8>, text: &str) -> Result<(), AllocError> {
    match body_of(alloc, text) {
        Ok(body) => {
            let added = write_frame(frames, body.as_str().as_bytes());
            // The proof of a call is shorter than that of a value that goes out of scope.
            drop(body);
            added
        }
        Err(fault) => Err(fault),
    }
}

impl Stream {
    /// Appends what a line says; a line that says nothing of a stream is passed over.
    fn add_line(&mut self, alloc: Global, line: &str) -> Result<(), AllocError> {
        let (name, text) = parts(line);
        match word_named(name) {
            Some(Word::Client) => add_frame(alloc, &mut self.input, text),
            Some(Word::Adapter) => add_frame(alloc, &mut self.answers, text),
            Some(Word::Phase) => self.add_phase(text),
            _ => Ok(()),
        }
    }

    fn add_phase(&mut self, name: &str) -> Result<(), AllocError> {
        match phase_named(name) {
            Some(phase) => self.add_end(phase),
            None => Ok(()),
        }
    }

    fn add_end(&mut self, phase: Phase) -> Result<(), AllocError> {
        let end = (self.input.len(), self.answers.len(), phase);
        match self.ends.push(end) {
            Ok(()) => Ok(()),
            Err(_) => Err(AllocError),
        }
    }

    fn add_lines(&mut self, alloc: Global, row: &str) -> Result<(), AllocError> {
        for line in row.split('\n') {
            self.add_line(alloc, line)?;
        }
        Ok(())
    }
}

/// The stream of a row.
pub fn stream_of(alloc: Global, row: &str) -> Result<Stream, AllocError> {
    let mut stream = Stream {
        input: Vec::new(alloc),
        answers: Vec::new(alloc),
        ends: Vec::new(alloc),
    };
    match stream.add_lines(alloc, row) {
        Ok(()) => Ok(stream),
        Err(fault) => Err(fault),
    }
}
