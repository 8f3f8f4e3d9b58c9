//! The requests of a side, by their numbers.
ghost use Rattle.std.specs.Prelude.{◌≡◌, ◌==◌, ◌∷◌, ◌++◌, [], List, ℕ, Some, None, OnOk, if◌then◌else◌, bytes_eq};
ghost use Rattle.std.specs.List.{list_any};
ghost use Rattle.dap_explain.specs.KeptNotes.{AreAsked, last_at, waiting_at, last_after, waiting_after, answered_by};
ghost use Rattle.dap_check.specs.declared.line.Line.{Line as TheLine};
ghost use Rattle.dap_check.specs.declared.line.Side.{Side as TheSide};

use crate::trail::{Last, Opened};
use dap_check::{Line, Side};
use dap_envelope::Kind;
use dap_json::Text;
use std::alloc::{AllocError, Global};
use std::collections::BTreeMap;

/// The last request with a number.
#[derive(Drop)]
pub(crate) struct LastAsked {
    pub(crate) opened: Opened,
    /// The line of the first response since.
    pub(crate) closed: Option<u64>,
    /// The commands of the requests with this number that nothing has answered.
    pub(crate) waiting: Vec<Text>,
}

#[derive(Drop)]
pub(crate) struct Asked {
    pub(crate) requests: BTreeMap<u64, LastAsked>,
}

impl Asked {
    pub(crate) fn new(alloc: Global) -> Asked
        ensures { (side : TheSide) → AreAsked result side [] }
    {
        Asked {
            requests: BTreeMap::new(alloc),
        }
    }

    /// The last request with a number, and the first response since.
    pub(crate) fn last(&self, seq: u64) -> Last
        ensures { result ≡ last_at self.now seq }
    {
        match self.requests.get(&seq) {
            None => Last {
                opened: None,
                closed: None,
            },
            Some(asked) => Last {
                opened: Some(asked.opened),
                closed: asked.closed,
            },
        }
    }

    /// Whether a request with a number for a command waits.
    pub(crate) fn waits_for(&self, seq: u64, name: &str) -> bool
        ensures { result ≡ list_any (λ command. bytes_eq command name.now) (waiting_at self.now seq) }
    {
        match self.requests.get(&seq) {
            None => false,
            Some(asked) => asked.waiting.iter().any(|command| command.as_str() == name),
        }
    }

    /// Keeps a request.
    fn ask(&mut self, alloc: Global, line: u64, seq: u64, command: &Text) -> Result<(), AllocError>
        ensures last { OnOk result ((n : ℕ) → last_at self.new n ≡ (if seq == n then record { opened = Some (record { line = line; seq = seq }); closed = None } else last_at self.old n)) }
        ensures waiting { OnOk result ((n : ℕ) → waiting_at self.new n ≡ waiting_at self.old n ++ (if seq == n then command.now ∷ [] else [])) }
    {
        let mut waiting = match self.requests.remove(&seq) {
            None => Vec::new(alloc),
            Some(LastAsked { waiting, .. }) => waiting,
        };
        waiting.push(command.clone()?)?;
        let asked = LastAsked {
            opened: Opened { line, seq },
            closed: None,
            waiting,
        };
        self.requests.insert(seq, asked)?;
        Ok(())
    }

    /// Keeps a response to the requests with a number.
    fn answer(&mut self, alloc: Global, line: u64, seq: u64) -> Result<(), AllocError>
        ensures last { OnOk result ((n : ℕ) → last_at self.new n ≡ (if seq == n then answered_by line (last_at self.old n) else last_at self.old n)) }
        ensures waiting { OnOk result ((n : ℕ) → waiting_at self.new n ≡ (if seq == n then [] else waiting_at self.old n)) }
    {
        let Some(LastAsked { opened, closed, .. }) = self.requests.remove(&seq) else {
            return Ok(());
        };
        let asked = LastAsked {
            opened,
            closed: Some(closed.unwrap_or(line)),
            waiting: Vec::new(alloc),
        };
        self.requests.insert(seq, asked)?;
        Ok(())
    }

    fn change(&mut self, alloc: Global, side: Side, line: &Line) -> Result<(), AllocError>
        ensures last { OnOk result ((n : ℕ) → last_at self.new n ≡ last_after side line.now n (last_at self.old n)) }
        ensures waiting { OnOk result ((n : ℕ) → waiting_at self.new n ≡ waiting_after side line.now n (waiting_at self.old n)) }
    {
        match &line.message.kind {
            Kind::Request { command, .. } => {
                if line.is_of(side) {
                    self.ask(alloc, line.number, line.message.seq, command)?;
                }
            }
            Kind::Response { request_seq, .. } => {
                if line.is_of(side.opposite()) {
                    self.answer(alloc, line.number, *request_seq)?;
                }
            }
            _ => {}
        }
        Ok(())
    }

    pub(crate) fn note(&mut self, alloc: Global, side: Side, line: &Line) -> Result<(), AllocError>
        ensures { OnOk result ((earlier : List TheLine) → AreAsked self.old side earlier → AreAsked self.new side (earlier ++ line.now ∷ [])) }
    {
        self.change(alloc, side, line)
    }
}
