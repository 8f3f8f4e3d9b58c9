//! A request as an end keeps it.
use dap_json::{Text, Tree};
use std::fmt;

/// A request that an end keeps until it has answered it.
#[derive(Clone, Drop)]
pub struct Entry {
    /// The request's own number, `Request.seq`, which its response names as `request_seq`.
    pub seq: u64,
    /// `Request.command`.
    pub command: Text,
    /// `Request.arguments`, or `None` where the request has none.
    pub arguments: Option<Tree>,
}

impl fmt::Debug for Entry {
    fn fmt<W: fmt::Write>(&self, f: &mut fmt::Formatter<W>) -> fmt::Result {
        f.debug_struct("Entry")
            .field("seq", &self.seq)
            .field("command", &self.command)
            .finish_non_exhaustive()
    }
}
