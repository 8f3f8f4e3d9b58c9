//! The references that were given, and the lines that let the debuggee go on.
ghost use Rattle.std.specs.Prelude.{◌≡◌, ◌≤◌, ◌∷◌, ◌++◌, [], List, ℕ, length, OnOk, Some, if◌then◌else◌};
ghost use Rattle.std.specs.BTreeMap as tree;
ghost use Rattle.std.specs.Ordering.{nat_cmp};
ghost use Rattle.serde_json.specs.View.{view};
ghost use Rattle.dap_command.specs.GivenReferences.{frame_ids, holders_of};
ghost use Rattle.dap_check.specs.Rules.{contains_number, gives_frame, gives_holder, resumes};
ghost use Rattle.dap_explain.specs.KeptNotes.{AreGiven, given_at, last_given};
ghost use Rattle.dap_check.specs.declared.line.Line.{Line as TheLine};

use crate::reason::ReferenceKind;
use crate::trail::{Last, Opened};
use dap_check::{Line, Side, words};
use dap_command::{Command, GivenObjects, frames_given, holders_given};
use dap_envelope::Kind;
use serde_json::Value;
use std::alloc::{AllocError, Global};
use std::collections::BTreeMap;

/// Where a reference was given last.
#[derive(Clone, Copy)]
pub(crate) struct LastGiven {
    pub(crate) opened: Opened,
    /// How many lines had let the debuggee go on.
    pub(crate) resumptions: usize,
}

/// By kind and number.
#[derive(Drop)]
pub(crate) struct Given {
    pub(crate) frames: BTreeMap<u64, LastGiven>,
    pub(crate) holders: BTreeMap<u64, LastGiven>,
    /// The lines that let the debuggee go on, in order.
    pub(crate) resumptions: Vec<u64>,
}

fn add_frames(
    known: &mut BTreeMap<u64, LastGiven>,
    body: &Value,
    given: LastGiven,
) -> Result<(), AllocError>
    ensures { OnOk result ((n : ℕ) → tree.get nat_cmp known.new n ≡ (if contains_number n (frame_ids (view body.now)) then Some given else tree.get nat_cmp known.old n)) }
{
    for frame in frames_given(body) {
        known.insert(u64::from(frame), given)?;
    }
    Ok(())
}

fn add_holders(
    known: &mut BTreeMap<u64, LastGiven>,
    command: Command,
    body: &Value,
    given: LastGiven,
) -> Result<(), AllocError>
    ensures { OnOk result ((n : ℕ) → tree.get nat_cmp known.new n ≡ (if contains_number n (holders_of command (view body.now)) then Some given else tree.get nat_cmp known.old n)) }
{
    for holder in holders_given(command, body) {
        known.insert(u64::from(holder), given)?;
    }
    Ok(())
}

impl Given {
    pub(crate) fn new(alloc: Global) -> Given
        ensures { AreGiven result [] }
    {
        Given {
            frames: BTreeMap::new(alloc),
            holders: BTreeMap::new(alloc),
            resumptions: Vec::new(alloc),
        }
    }

    fn at(&self, kind: ReferenceKind, number: u64) -> Option<LastGiven>
        ensures { result ≡ given_at self.now kind number }
    {
        match kind {
            ReferenceKind::Frame => self.frames.get(&number).copied(),
            ReferenceKind::Variables => self.holders.get(&number).copied(),
        }
    }

    /// The last line that gives a reference, and the first since that lets the debuggee go on.
    pub(crate) fn last(&self, kind: ReferenceKind, number: u64) -> Last
        ensures { result ≡ last_given self.now.resumptions.items (given_at self.now kind number) }
    {
        match self.at(kind, number) {
            None => Last {
                opened: None,
                closed: None,
            },
            Some(given) => Last {
                opened: Some(given.opened),
                closed: self.resumptions.get(given.resumptions).copied(),
            },
        }
    }

    /// Keeps what a line gives, as given there.
    fn add(&mut self, line: &Line, given: LastGiven) -> Result<(), AllocError>
        ensures frames { OnOk result ((n : ℕ) → tree.get nat_cmp self.new.frames n ≡ (if gives_frame n line.now then Some given else tree.get nat_cmp self.old.frames n)) }
        ensures holders { OnOk result ((n : ℕ) → tree.get nat_cmp self.new.holders n ≡ (if gives_holder n line.now then Some given else tree.get nat_cmp self.old.holders n)) }
        ensures resumptions { self.new.resumptions ≡ self.old.resumptions }
    {
        let Kind::Response {
            success: true,
            command,
            ..
        } = &line.message.kind
        else {
            return Ok(());
        };
        if !line.is_of(Side::Adapter) {
            return Ok(());
        }
        let Some(body) = words::body(&line.message.kind) else {
            return Ok(());
        };
        let Some(command) = Command::of_name(command.as_str()) else {
            return Ok(());
        };
        match command.given_objects() {
            GivenObjects::Frames => add_frames(&mut self.frames, body, given),
            _ => add_holders(&mut self.holders, command, body, given),
        }
    }

    /// Keeps a line that lets the debuggee go on.
    fn resume(&mut self, line: &Line) -> Result<(), AllocError>
        ensures resumptions { OnOk result (self.new.resumptions.items ≡ self.old.resumptions.items ++ (if resumes line.now then line.now.number ∷ [] else [])) }
        ensures frames { self.new.frames ≡ self.old.frames }
        ensures holders { self.new.holders ≡ self.old.holders }
    {
        if line.resumes() {
            self.resumptions.push(line.number)?;
        }
        Ok(())
    }

    pub(crate) fn note(&mut self, line: &Line) -> Result<(), AllocError>
        ensures { OnOk result ((earlier : List TheLine) → AreGiven self.old earlier → AreGiven self.new (earlier ++ line.now ∷ [])) }
    {
        self.resume(line)?;
        let given = LastGiven {
            opened: Opened {
                line: line.number,
                seq: line.message.seq,
            },
            resumptions: self.resumptions.len(),
        };
        self.add(line, given)
    }
}
