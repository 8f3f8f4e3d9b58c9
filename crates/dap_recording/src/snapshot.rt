//! One moment by itself: what a stop shows.
use crate::recording::{Moment, Recording};
use crate::shown;
use dap_debuggee::{DebuggeeFault, Frame, Scope, Thread, Variable};
use dap_json::List;
use std::alloc::{AllocError, Global};
use std::marker::Model;

/// One moment by itself, with what its numbers name. Its output, and why a run stops there, do not matter. A contract sees its parts.
#[derive(Debug, Drop)]
pub struct Snapshot {
    pub(crate) moment: Moment,
    /// By the object number of a frame.
    pub(crate) scopes: List<List<Scope>>,
    /// By the object number of a holder.
    pub(crate) variables: List<List<Variable>>,
    /// The holders of the scopes that came without their variables.
    pub(crate) untold: List<u64>,
    /// How many sources its frames may name.
    pub(crate) sources: usize,
}

impl Model for Snapshot {
    ghost use Rattle.std.specs.Coded.{codes};
    ghost use Rattle.dap_json.specs.Stored.{coded_data};
    ghost use Rattle.dap_recording.specs.Snapshot.{MomentAlone, IsAlone};

    ghost Value = { MomentAlone };

    ghost coded = { Prim.hlevel (codes, coded_data) };

    ghost view = { λ s. record {
      moment = s.moment;
      scopes = s.scopes;
      variables = s.variables;
      untold = s.untold;
      sources = s.sources;
    } };

    ghost invariant = { λ s. IsAlone (record {
      moment = s.moment;
      scopes = s.scopes;
      variables = s.variables;
      untold = s.untold;
      sources = s.sources;
    }) };
}

impl Snapshot {
    ghost use Rattle.std.specs.Prelude.{◌≡◌, IfOk, Some, map, option_map};
    ghost use Rattle.std.specs.List.{slice_get};
    ghost use Rattle.dap_debuggee.specs.Laws.{AnswersQuery};
    ghost use Rattle.dap_recording.specs.Lent.{lent_value};
    ghost use Rattle.dap_recording.specs.Recording.{IsRecording};
    ghost use Rattle.dap_recording.specs.Snapshot.{IsAlone, HasIds, NameSources, NameOne, alone_in, threads_alone, frames_alone, scopes_alone, children_alone, is_among};

    /// The first moment of a recording, whose others are let go.
    pub fn first_of(recording: Recording) -> Snapshot
        requires { IsRecording recording }
        ensures { option_map (alone_in recording) (slice_get recording.moments 0) ≡ Some result }
    {
        let Recording {
            exit: _,
            sources,
            moments,
            scopes,
            variables,
            untold,
        } = recording;
        let mut moments = moments.into_vec();
        let moment = moments.swap_remove(0);
        Snapshot {
            moment,
            scopes,
            variables,
            untold,
            sources: sources.len(),
        }
    }

    /// What holds of each moment by itself. There is nothing to run.
    #[inline(always)]
    pub fn is_alone(&self)
        ensures { IsAlone self.now }
    {
        let _ = &self.moment;
    }

    /// How many sources its frames may name.
    pub fn source_count(&self) -> usize
        ensures { result ≡ self.now.sources }
    {
        self.sources
    }

    /// Its threads.
    pub fn threads(&self, alloc: Global) -> Result<Vec<Thread>, AllocError>
        ensures threads { IfOk result (λ threads. threads.items ≡ threads_alone self.now) }
        ensures in_range { HasIds (threads_alone self.now) }
    {
        self.is_alone();
        shown::threads(alloc, self.moment.threads.as_slice())
    }

    /// The frames of a thread, the newest first.
    ///
    /// # Errors
    /// `Refused` where there is no such thread, `OutOfMemory` where memory is refused.
    pub fn frames(&self, alloc: Global, thread: i64) -> Result<Vec<Frame>, DebuggeeFault>
        ensures frames { AnswersQuery result (λ frames. frames.items) (frames_alone self.now thread) }
        ensures in_range { NameSources self.now.sources (frames_alone self.now) }
        ensures one_name { NameOne (frames_alone self.now) }
    {
        self.is_alone();
        shown::frames_of(alloc, self.moment.threads.as_slice(), thread)
    }

    /// The scopes of a frame, by its object number.
    pub fn scopes_at(&self, frame: u64) -> Option<&[Scope]>
        ensures { lent_value result ≡ scopes_alone self.now frame }
    {
        shown::list_in(self.moment.frames, self.scopes.as_slice(), frame)
    }

    /// The same, copied.
    ///
    /// # Errors
    /// `Refused` where there is no such frame, `OutOfMemory` where memory is refused.
    pub fn scopes(&self, alloc: Global, frame: u64) -> Result<Vec<Scope>, DebuggeeFault>
        ensures { AnswersQuery result (λ scopes. scopes.items) (scopes_alone self.now frame) }
    {
        shown::scopes_of(alloc, self.scopes_at(frame))
    }

    /// The variables of a holder, by its object number.
    pub fn children_at(&self, holder: u64) -> Option<&[Variable]>
        ensures { lent_value result ≡ children_alone self.now holder }
    {
        shown::list_in(self.moment.holders, self.variables.as_slice(), holder)
    }

    /// Whether a holder is that of a scope that came without its variables.
    pub fn is_untold(&self, holder: u64) -> bool
        ensures { result ≡ is_among holder self.now.untold }
    {
        shown::is_one_of(self.untold.as_slice(), holder)
    }
}
