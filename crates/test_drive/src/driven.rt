//! Rows of scripts: both ends, over the shared recording.
//!
//! | a line | says |
//! |---|---|
//! | `send ..`, `terminal ..`, `turn`, `poll`, `run`, or anything else | a line of the script |
//! | `.` and what follows it | a line of the script, which is what follows: without bytes, or one that begins as no row may |
//! | `> BODY`, `< BODY` | the next line of the transcript |
//! | `= legal` | the transcript keeps every rule |
//! | `! FAULT` | the script stops with this fault |
//!
//! A script ends in a line feed where pieces have a size, and its transcript is checked by the same call; it does not where they
//! have none.

use dap_check::{CheckFault, Checked, check};
use dap_drive::{DriveFault, drive, drive_and_check};
use dap_frame::Limits;
use std::alloc::{AllocError, Global};
use std::marker::Model;
use std::str;
use test_kit::bodies::body_of;
use test_kit::facts::{is_printed, tell};
use test_kit::given::{note, wrong};
use test_kit::outcome::Outcome;
use test_kit::player::{Player, Setting};
use test_kit::rows::is_heading;
use test_kit::samples::RECORDING;

/// What a script came to. A contract sees nothing of it.
#[derive(Drop)]
pub(crate) struct Driven {
    transcript: Vec<u8>,
    /// How much of it the row has named.
    named: usize,
    fault: Option<DriveFault>,
}

impl Model for Driven {
    ghost use Rattle.std.specs.Prelude.{ℕ};

    ghost Value = { ℕ };

    ghost view = { λ _. 0 };
}

/// The line of the script that a line of a row is, if it is one.
fn order_of(line: &str) -> Option<&str> {
    let is_other = is_heading(line)
        || line.starts_with("> ")
        || line.starts_with("< ")
        || line.starts_with("= ")
        || line.starts_with("! ");
    if is_other {
        return None;
    }
    match line.strip_prefix('.') {
        Some(order) => Some(order),
        None => Some(line),
    }
}

/// Appends the lines of a row's script, each with a line feed.
fn add_script(script: &mut String, row: &str) -> Result<(), AllocError> {
    for line in row.split('\n') {
        if let Some(order) = order_of(line) {
            script.push_str(order)?;
            script.push('\n')?;
        }
    }
    Ok(())
}

/// The script of a row.
fn script_of(alloc: Global, row: &str) -> Result<String, AllocError> {
    let mut script = String::new(alloc);
    match add_script(&mut script, row) {
        Ok(()) => Ok(script),
        Err(fault) => Err(fault),
    }
}

fn with_transcript(transcript: Vec<u8>) -> Driven {
    Driven {
        transcript,
        named: 0,
        fault: None,
    }
}

/// What a script comes to that is not run to its end.
fn with_fault(alloc: Global, fault: DriveFault) -> Result<Driven, Outcome> {
    match fault {
        DriveFault::OutOfMemory => Err(Outcome::Refused),
        _ => Ok(Driven {
            transcript: Vec::new(alloc),
            named: 0,
            fault: Some(fault),
        }),
    }
}

fn run(alloc: Global, script: &[u8], limits: Limits) -> Result<Driven, Outcome> {
    match drive(alloc, RECORDING, script, limits) {
        Ok(transcript) => Ok(with_transcript(transcript)),
        Err(fault) => with_fault(alloc, fault),
    }
}

/// The same with the verdict, which is always legal.
fn run_checked(alloc: Global, script: &[u8], limits: Limits) -> Result<Driven, Outcome> {
    match drive_and_check(alloc, RECORDING, script, limits) {
        Ok(found) => match found.checked {
            Checked::Legal => Ok(with_transcript(found.transcript)),
            Checked::Finding { .. } => Err(Outcome::Wrong),
        },
        Err(fault) => with_fault(alloc, fault),
    }
}

/// A script without the line feed at its end.
fn without_line_feed(script: &[u8]) -> &[u8] {
    script.strip_suffix(b"\n").unwrap_or(script)
}

/// Right where a transcript keeps every rule; where it does not, that is appended.
fn judge(alloc: Global, transcript: &[u8], came: &mut String) -> Outcome {
    match check(alloc, transcript, false) {
        Ok(Checked::Legal) => Outcome::Right,
        Ok(found) => {
            tell(came, &found);
            Outcome::Wrong
        }
        Err(CheckFault::OutOfMemory) => Outcome::Refused,
        Err(fault) => {
            tell(came, &fault);
            Outcome::Wrong
        }
    }
}

impl Driven {
    /// The part of the transcript that was not named yet.
    fn rest(&self) -> &[u8] {
        let (_, rest) = self
            .transcript
            .split_at(self.named.min(self.transcript.len()));
        rest
    }

    /// What comes next is told.
    fn tell_rest(&self, came: &mut String) {
        if let Some(fault) = self.fault {
            tell(came, &fault);
        }
        match str::from_utf8(self.rest()) {
            Ok(rest) => note(came, rest.split('\n').next().unwrap_or("")),
            Err(_) => note(came, "bytes that are no text"),
        }
    }

    /// Whether a text comes next, which is named then.
    fn passes(&mut self, text: &[u8]) -> bool {
        let is_next = self.rest().starts_with(text);
        if is_next {
            self.named = self.named.saturating_add(text.len());
        }
        is_next
    }

    /// Whether a line comes next, with a mark and the body that a text stands for.
    fn passes_line(&mut self, alloc: Global, mark: &str, text: &str) -> Result<bool, AllocError> {
        match body_of(alloc, text) {
            Ok(body) => {
                let is_next = self.passes(mark.as_bytes())
                    && self.passes(body.as_str().as_bytes())
                    && self.passes(b"\n");
                // The proof of a call is shorter than that of a value that goes out of scope.
                drop(body);
                Ok(is_next)
            }
            Err(fault) => Err(fault),
        }
    }

    fn writes(&mut self, alloc: Global, mark: &str, text: &str, came: &mut String) -> Outcome {
        let before = self.named;
        match self.passes_line(alloc, mark, text) {
            Ok(true) => Outcome::Right,
            Ok(false) => {
                self.named = before;
                self.tell_rest(came);
                Outcome::Wrong
            }
            Err(_) => Outcome::Refused,
        }
    }

    fn stops(&mut self, alloc: Global, name: &str, came: &mut String) -> Outcome {
        let Some(fault) = self.fault else {
            return wrong(came, "no fault");
        };
        tell(came, &fault);
        self.fault = None;
        Outcome::of_tried(is_printed(alloc, &fault, name))
    }
}

impl Player for Driven {
    fn open(alloc: Global, setting: &Setting<'_>, _came: &mut String) -> Result<Self, Outcome> {
        match script_of(alloc, setting.row) {
            Ok(script) => {
                let bytes = script.as_str().as_bytes();
                let driven = if setting.size == 0 {
                    run(alloc, without_line_feed(bytes), setting.limits)
                } else {
                    run_checked(alloc, bytes, setting.limits)
                };
                drop(script);
                driven
            }
            Err(_) => Err(Outcome::Refused),
        }
    }

    fn follow(&mut self, alloc: Global, line: &str, came: &mut String) -> Outcome {
        match line.split_once(' ') {
            Some((">", text)) => self.writes(alloc, "> ", text, came),
            Some(("<", text)) => self.writes(alloc, "< ", text, came),
            Some(("=", "legal")) => judge(alloc, &self.transcript, came),
            Some(("=", _)) => wrong(came, "a verdict that is not known"),
            Some(("!", name)) => self.stops(alloc, name, came),
            _ => Outcome::Right,
        }
    }

    fn finish(&mut self, _alloc: Global, came: &mut String) -> Outcome {
        if self.fault.is_none() && self.rest().is_empty() {
            return Outcome::Right;
        }
        self.tell_rest(came);
        Outcome::Wrong
    }

    fn forget(&mut self) {}
}
