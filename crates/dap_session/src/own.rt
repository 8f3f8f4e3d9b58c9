//! The requests of whoever holds the session that the client has not answered.
ghost use Rattle.std.specs.Prelude.{◌≡◌, ◌≤◌, ◌<◌, ◌++◌, ◌∷◌, [], length, OnOk, OnErr, false};
ghost use Rattle.std.specs.Option.{option_copied};
ghost use Rattle.dap_tables.specs.Outstanding.{contains_seq, entry_with, kept_unparked, without};

use crate::session::put_in;
use dap_tables::{Entry, Outstanding};
use std::alloc::{AllocError, Global};
use std::marker::Model;

/// They stand in a table that the first of them opens: who asks nothing pays for none.
#[derive(Drop)]
pub(crate) struct OwnRequests {
    room: usize,
    table: Option<Outstanding>,
}

impl Model for OwnRequests {
    ghost use Rattle.std.specs.Coded.{codes};
    ghost use Rattle.dap_json.specs.Stored.{coded_data};
    ghost use Rattle.dap_tables.specs.Outstanding.{KeptRequests};
    ghost use Rattle.dap_session.specs.PrivateOwn.{IsOpened, table_in};

    ghost Value = { KeptRequests };

    ghost coded = { Prim.hlevel (codes, coded_data) };

    ghost view = { λ o. table_in o.room o.table };

    ghost invariant = { λ o. IsOpened o.room o.table };
}

impl OwnRequests {
    /// None, with room for so many.
    pub(crate) fn none(room: usize) -> OwnRequests
        ensures { result ≡ record { room = room; kept = [] } }
    {
        OwnRequests { room, table: None }
    }

    pub(crate) fn contains(&self, seq: u64) -> bool
        ensures { result ≡ contains_seq seq self.now.kept }
    {
        match &self.table {
            None => false,
            Some(table) => table.contains(seq),
        }
    }

    /// The one with this number.
    pub(crate) fn get(&self, seq: u64) -> Option<&Entry>
        ensures { option_copied result ≡ entry_with seq self.now.kept }
    {
        match &self.table {
            None => None,
            Some(table) => table.get(seq),
        }
    }

    /// How many there are.
    pub(crate) fn len(&self) -> usize
        ensures len { result ≡ length self.now.kept }
        ensures bound { result ≤ self.now.room }
    {
        match &self.table {
            None => 0,
            Some(table) => table.len(),
        }
    }

    /// The one with this number waits no more.
    pub(crate) fn take(&mut self, seq: u64)
        ensures { self.new ≡ record self.old { kept = without seq self.old.kept } }
    {
        if let Some(table) = &mut self.table {
            let _ = table.take(seq);
        }
    }

    /// One more, with a new number, where there is room.
    pub(crate) fn put(&mut self, alloc: Global, request: Entry) -> Result<(), AllocError>
        requires new { contains_seq request.seq self.old.kept ≡ false }
        requires room { length self.old.kept < self.old.room }
        ensures ok { OnOk result (self.new ≡ record self.old { kept = self.old.kept ++ kept_unparked request ∷ [] }) }
        ensures err { OnErr result (self.new ≡ self.old) }
    {
        match &mut self.table {
            Some(table) => put_in(table, request),
            None => {
                let mut table = Outstanding::open(alloc, self.room)?;
                put_in(&mut table, request);
                self.table = Some(table);
            }
        }
        Ok(())
    }
}
