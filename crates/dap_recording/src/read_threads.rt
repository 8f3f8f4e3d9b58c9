//! The threads of a moment, as they are read one after the other.
ghost use Rattle.std.specs.Prelude.{◌≡◌, ◌++◌, ◌∷◌, [], length, is_some, IfOk};
ghost use Rattle.dap_recording.specs.Reading.{place_of};

use crate::recording::RecordedThread;
use std::alloc::{AllocError, Global};
use std::collections::BTreeSet;
use std::marker::Model;

/// Threads, and their ids, by which a repeated one is found at once. A contract sees the threads.
#[derive(Drop)]
pub(crate) struct ReadThreads {
    threads: Vec<RecordedThread>,
    ids: BTreeSet<i64>,
}

impl Model for ReadThreads {
    ghost use Rattle.std.specs.Coded.{codes};
    ghost use Rattle.dap_json.specs.Stored.{coded_data};
    ghost use Rattle.std.specs.Prelude.{List as Items};
    ghost use Rattle.dap_recording.specs.declared.recording.RecordedThread.{RecordedThread as Thread};
    ghost use Rattle.dap_recording.specs.PrivateReadThreads.{HasIds};

    ghost Value = { Items Thread };

    ghost coded = { Prim.hlevel (codes, coded_data) };

    ghost view = { λ t. t.threads.items };

    ghost invariant = { λ t. HasIds t.ids t.threads.items };
}

impl ReadThreads {
    /// None yet, with room for so many.
    pub(crate) fn with_capacity(alloc: Global, count: usize) -> Result<ReadThreads, AllocError>
        ensures { IfOk result (λ t. t ≡ []) }
    {
        Ok(ReadThreads {
            threads: Vec::with_capacity(alloc, count)?,
            ids: BTreeSet::new(alloc),
        })
    }

    /// How many there are.
    pub(crate) fn len(&self) -> usize
        ensures { result ≡ length self.now }
    {
        self.threads.len()
    }

    /// Whether one of them has the id.
    pub(crate) fn has(&self, id: i64) -> bool
        ensures { result ≡ is_some (place_of id self.now) }
    {
        self.ids.contains(&id)
    }

    /// These and one more.
    pub(crate) fn with(self, thread: RecordedThread) -> Result<ReadThreads, AllocError>
        ensures { IfOk result (λ t. t ≡ self ++ thread ∷ []) }
    {
        let ReadThreads {
            mut threads,
            mut ids,
        } = self;
        ids.insert(thread.id)?;
        threads.push(thread)?;
        Ok(ReadThreads { threads, ids })
    }

    /// The threads, without a copy.
    pub(crate) fn into_vec(self) -> Vec<RecordedThread>
        ensures { result.items ≡ self }
    {
        let ReadThreads { threads, ids } = self;
        drop(ids);
        threads
    }
}
