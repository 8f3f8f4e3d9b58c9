//! A recorded run as it is held: its sources, and its moments one after the other.
//!
//! Frames and holders have numbers of their own, by which their scopes and their variables are found at once: those of
//! frame n stand at place n of `scopes`, those of holder n at place n of `variables`.
ghost use Rattle.std.specs.Prelude.{◌≡◌, IfOk};

use crate::sources::Sources;
use dap_debuggee::{Frame, Scope, Variable};
use dap_json::members::put_optional_text;
use dap_json::{List, More, Text};
use serde_json::{Map, Value};
use std::alloc::{AllocError, Global};

#[derive(Debug, Drop)]
pub struct RecordedSource {
    pub name: Text,
    pub path: Option<Text>,
    pub text: Text,
    /// Whether a client reads the file at `path` itself.
    pub on_disk: bool,
    /// How many lines the text has.
    pub lines: u64,
    /// What is said beside it.
    pub more: More,
}

#[derive(Debug, Drop)]
pub struct RecordedThread {
    pub id: i64,
    pub name: Text,
    /// The newest first.
    pub frames: List<Frame>,
    /// What is said beside it.
    pub more: More,
}

/// Why a run stops at a moment that it would go by, in words: Specification, "StoppedEvent".
#[derive(Debug, Drop)]
pub struct OwnStop {
    /// At most 64 bytes.
    pub reason: Text,
    /// At most 128 bytes.
    pub description: Option<Text>,
    /// At most 128 bytes.
    pub text: Option<Text>,
}

/// Object numbers, from the first one to before `to`.
#[derive(Clone, Copy, Debug)]
pub struct Span {
    pub from: u64,
    pub to: u64,
}

#[derive(Debug, Drop)]
pub struct Moment {
    pub threads: List<RecordedThread>,
    /// The place of the thread that stands here.
    pub thread: usize,
    /// What is written on the way here.
    pub output: Text,
    /// Whether a run that comes by is held here.
    pub waits: bool,
    /// Why a forward run stops here, where it always does.
    pub stop: Option<OwnStop>,
    /// The numbers of its frames.
    pub frames: Span,
    /// The numbers of its holders.
    pub holders: Span,
}

#[derive(Debug, Drop)]
pub struct Recording {
    pub exit: i32,
    pub sources: Sources,
    pub moments: List<Moment>,
    /// By the object number of a frame.
    pub scopes: List<List<Scope>>,
    /// By the object number of a holder.
    pub variables: List<List<Variable>>,
    /// The holders of the scopes that have no key `variables`. Of a recording these are empty; a host may tell them later.
    pub untold: List<u64>,
}

impl Clone for RecordedSource {
    ghost is_clone = { λ a b. b ≡ a };

    fn clone(&self) -> Result<RecordedSource, AllocError> {
        let path = match &self.path {
            None => None,
            Some(path) => Some(path.clone()?),
        };
        Ok(RecordedSource {
            name: self.name.clone()?,
            path,
            text: self.text.clone()?,
            on_disk: self.on_disk,
            lines: self.lines,
            more: self.more.clone()?,
        })
    }
}

fn copied(text: &Option<Text>) -> Result<Option<Text>, AllocError>
    ensures { IfOk result (λ copy. copy ≡ text.now) }
{
    match text {
        None => Ok(None),
        Some(text) => Ok(Some(text.clone()?)),
    }
}

impl OwnStop {
    ghost use Rattle.std.specs.Prelude.{◌≡◌, IfOk};
    ghost use Rattle.dap_recording.specs.Recording.{beside_stop};

    /// What is said beside the reason: Specification, "StoppedEvent".
    pub fn beside(&self, alloc: Global) -> Result<More, AllocError>
        ensures { IfOk result (λ more. more ≡ beside_stop self.now) }
    {
        let mut members = Map::new(alloc);
        put_optional_text(alloc, &mut members, "description", &self.description)?;
        put_optional_text(alloc, &mut members, "text", &self.text)?;
        match More::of(alloc, &Value::Object(members))? {
            Some(more) => Ok(more),
            None => unreachable!(),
        }
    }
}

impl Clone for OwnStop {
    ghost is_clone = { λ a b. b ≡ a };

    fn clone(&self) -> Result<OwnStop, AllocError> {
        Ok(OwnStop {
            reason: self.reason.clone()?,
            description: copied(&self.description)?,
            text: copied(&self.text)?,
        })
    }
}
