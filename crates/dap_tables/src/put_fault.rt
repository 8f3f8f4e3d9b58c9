//! Why a request is not kept.
ghost use Rattle.std.specs.Prelude.{◌≡◌};

use crate::entry::Entry;

/// Why a request is not kept. Each hands back the request.
#[derive(Debug, Drop)]
pub enum PutFault {
    /// A request with its seq is kept already.
    Repeated(Entry),
    /// As many requests are kept as there is room for.
    Full(Entry),
}

impl PutFault {
    ghost use Rattle.dap_tables.specs.PutFault.{refused_entry};

    /// The request that was not kept.
    pub fn into_entry(self) -> Entry
        ensures { result ≡ refused_entry self }
    {
        match self {
            PutFault::Repeated(entry) | PutFault::Full(entry) => entry,
        }
    }
}
