//! A session: the adapter serves the debugger, and `completions` is answered here.

use crate::call::Local;
use crate::toy::Toy;
use dap_adapter::{
    Adapter, Entry, Offer, Opened, Opening, Outcome, Phase, ReferenceKind, Turned,
    is_plain_outcome, offers_fit,
};
use dap_channel::{Channel, send};
use dap_frame::Limits;
use dap_json::{Text, Tree, field, numbers};
use serde_json::{Map, Value, put};
use std::alloc::{AllocError, Global};
use std::marker::Model;

/// What is offered as usual, and `completions`, in stops alone.
fn offer(alloc: Global) -> Option<Offer> {
    let name = Text::copied(alloc, "completions").ok()?;
    let mut commands = Vec::new(alloc);
    commands
        .push(Opened {
            name,
            in_stops: true,
        })
        .ok()?;
    let opening = Opening::of(alloc, commands).ok()?;
    Offer::read_opening(alloc, &Value::Object(Map::new(alloc)), opening).ok()
}

fn open(alloc: Global) -> Option<Adapter<Toy>> {
    let limits = Limits::usual();
    let offer = offer(alloc)?;
    let Ok(true) = offers_fit(alloc, limits, &offer) else {
        return None;
    };
    Adapter::open_with(alloc, limits, Toy::open(alloc), offer).ok()
}

/// One proposal: Specification, "CompletionItem".
fn item(alloc: Global, label: &str) -> Result<Value, AllocError> {
    let mut item = Map::new(alloc);
    put(
        &mut item,
        alloc,
        "label",
        Value::try_from_str(alloc, label)?,
    )?;
    Ok(Value::Object(item))
}

/// The variables whose names begin with a text: Specification, "CompletionsResponse".
fn targets(alloc: Global, locals: &[Local], text: &str) -> Result<Value, AllocError> {
    let mut targets = Vec::new(alloc);
    for local in locals {
        let name = local.name.as_str();
        if name.starts_with(text) {
            targets.push(item(alloc, name)?)?;
        }
    }
    let mut body = Map::new(alloc);
    put(&mut body, alloc, "targets", Value::Array(targets))?;
    Ok(Value::Object(body))
}

/// An adapter with what goes to the editor, as frames.
#[derive(Drop)]
pub(crate) struct Session {
    alloc: Global,
    adapter: Adapter<Toy>,
    out: Vec<u8>,
}

impl Model for Session {
    ghost use Rattle.std.specs.Prelude.{ℕ};

    ghost Value = { ℕ };

    ghost view = { λ _. 0 };
}

impl Session {
    /// The program is not started.
    pub(crate) fn open(alloc: Global) -> Option<Session> {
        Some(Session {
            alloc,
            adapter: open(alloc)?,
            out: Vec::new(alloc),
        })
    }

    // ---- what is answered here

    /// The variables of the frame that a request names, and its text.
    fn asked<'s>(&'s self, request: &'s Entry) -> Option<(&'s [Local], &'s str)> {
        let arguments = request.arguments.as_ref()?.value();
        let text = field::text(arguments, "text")?;
        let frame = numbers::number(field::present(arguments, "frameId")?)?;
        let target = self.adapter.target(frame)?;
        match target.kind {
            ReferenceKind::Frame => {
                let locals = self.adapter.debuggee().locals_of(target.object)?;
                Some((locals, text))
            }
            ReferenceKind::Holder => None,
        }
    }

    /// How a request for `completions` comes out.
    fn completed(&self, request: &Entry) -> Result<Outcome, AllocError> {
        match self.asked(request) {
            Some((locals, text)) => {
                let body = targets(self.alloc, locals, text)?;
                Ok(Outcome::Success(Some(Tree::new(body))))
            }
            None => Ok(Outcome::Failure {
                message: Text::copied(self.alloc, "noFrame")?,
                body: None,
            }),
        }
    }

    /// Answers each request that is lent, the oldest first.
    fn answer_lent(&mut self) -> Option<()> {
        for _ in 0..self.adapter.kept() {
            let Some(request) = self.adapter.lent().next() else {
                return Some(());
            };
            let seq = request.seq;
            let outcome = self.completed(request).ok()?;
            if !is_plain_outcome(&outcome) {
                return None;
            }
            self.adapter
                .respond(self.alloc, seq, &outcome, &mut self.out)
                .ok()?;
        }
        Some(())
    }

    // ---- what comes, and what goes

    /// Handles the requests that are kept.
    fn turn_all(&mut self) -> Option<()> {
        for _ in 0..self.adapter.kept() {
            match self.adapter.turn(self.alloc).ok()? {
                Turned::Idle => return Some(()),
                Turned::Done { bytes } => self.out.extend_from_slice(&bytes).ok()?,
            }
        }
        Some(())
    }

    /// Handles the messages of a piece, each before the next one is read: whether the session has ended.
    fn came(&mut self, piece: &[u8]) -> Option<bool> {
        let mut rest = piece;
        for _ in 0..piece.len() {
            let Some(_) = self
                .adapter
                .next(self.alloc, &mut rest, &mut self.out)
                .ok()?
            else {
                return Some(false);
            };
            self.turn_all()?;
            self.answer_lent()?;
            self.adapter.tell(self.alloc, &mut self.out).ok()?;
            if self.adapter.phase() == Phase::Ended {
                return Some(true);
            }
        }
        Some(false)
    }

    /// Serves until the session ends, or nothing comes any more between two messages. `None` where it broke off: what was
    /// made before is sent.
    pub(crate) fn serve<C: Channel>(&mut self, channel: &mut C) -> Option<()> {
        let mut buffer = [0; 4096];
        for _read in 0..u64::MAX {
            let read = channel.read(&mut buffer).ok()?;
            if read == 0 {
                return if self.adapter.held() == 0 {
                    Some(())
                } else {
                    None
                };
            }
            let (piece, _) = buffer.split_at(read);
            let came = self.came(piece);
            send(channel, &self.out, 0).ok()?;
            self.out.clear();
            if came? {
                return Some(());
            }
        }
        None
    }
}
