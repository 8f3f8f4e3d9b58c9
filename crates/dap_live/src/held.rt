//! What a debuggee holds that a host feeds.

use crate::here::Here;
use crate::mail::{Dropped, Mail};
use dap_debuggee::{Asked, Explanation, Happening, State};
use dap_json::{More, Text};
use dap_recording::Sources;
use dap_tables::SourceMap;
use std::alloc::Global;
use std::marker::Model;

/// What was asked last, and the answer.
#[derive(Drop)]
pub(crate) enum LiveLast {
    Done(Asked),
    Refused(Asked),
    Polled(Happening),
}

/// What a text comes to, `None` where it has no value.
#[derive(Drop)]
pub(crate) struct Learned {
    pub(crate) text: Text,
    pub(crate) value: Option<Text>,
    /// What holds the parts of the value.
    pub(crate) holder: Option<u64>,
    /// What is said beside the value.
    pub(crate) more: Option<More>,
    /// Why it has none.
    pub(crate) why: Option<Explanation>,
}

/// What comes of what a host says.
#[derive(Drop)]
pub(crate) struct Heard {
    /// What is told of it, to be given by a poll.
    pub(crate) happening: Happening,
    /// Why it is dropped; `None` where it is heard.
    pub(crate) dropped: Option<Dropped>,
}

/// A debuggee that a host feeds.
#[derive(Drop)]
pub struct Live {
    pub(crate) sources: Sources,
    /// What is shown of the last stop. It stays while the debuggee runs.
    pub(crate) here: Option<Here>,
    pub(crate) learned: Option<Learned>,
    pub(crate) state: State,
    /// The lines that are set.
    pub(crate) set: SourceMap<u32>,
    pub(crate) acts: u64,
    pub(crate) last: Option<LiveLast>,
    /// What is left for the host, and what the host left.
    pub(crate) mail: Mail,
}

impl Model for Live {
    ghost use Rattle.std.specs.Coded.{codes};
    ghost use Rattle.dap_json.specs.Stored.{coded_data};
    ghost use Rattle.std.specs.Prelude.{option_map};
    ghost use Rattle.dap_live.specs.LiveShown.{LiveState, IsFew};
    ghost use Rattle.dap_live.specs.PrivateHeld.{last_of};

    ghost Value = { LiveState };

    ghost coded = { Prim.hlevel (codes, coded_data) };

    ghost view = { λ l. record {
      sources = l.sources;
      here = l.here;
      learned = l.learned;
      state = l.state;
      set = l.set;
      acts = l.acts;
      last = option_map last_of l.last;
      mail = l.mail;
    } };

    ghost invariant = { λ l. IsFew l.sources l.here };
}

impl Live {
    ghost use Rattle.std.specs.Prelude.{◌≡◌};
    ghost use Rattle.dap_live.specs.LiveShown.{fresh_live};

    /// A debuggee that is not started, with these sources, and lines where those have lines. There is no mail.
    pub fn open(alloc: Global, sources: Sources) -> Live
        ensures { result ≡ fresh_live sources }
    {
        Live {
            sources,
            here: None,
            learned: None,
            state: State::NotStarted,
            set: SourceMap::new(alloc),
            acts: 0,
            last: None,
            mail: Mail::new(alloc),
        }
    }

    /// Its sources, over which moments are read.
    pub fn sources(&self) -> &Sources
        ensures { result.now ≡ self.now.sources }
    {
        &self.sources
    }
}
