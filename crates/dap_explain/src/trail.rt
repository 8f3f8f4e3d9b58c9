//! What is looked for among the earlier lines, and what is found: what each reason asks for that does not hang on the line.
ghost use Rattle.std.specs.Prelude.{◌≡◌, ◌+◌, ◌-◌, ◌^◌, ◌<◌, ◌≤◌, ◌∷◌, ◌++◌, [], List, ℕ};
ghost use Rattle.dap_explain.specs.KeptTrails.{closed_after, trail_after, opens_of, closes_of, trails, AreBelow};
ghost use Rattle.dap_check.specs.declared.line.Line.{Line as TheLine};

use dap_check::{Line, Side, words};

/// A line that was looked for.
#[derive(Clone, Copy)]
pub(crate) struct Opened {
    pub(crate) line: u64,
    pub(crate) seq: u64,
}

/// Of the lines that open: how many there are, the last, and the first line since that closes.
#[derive(Clone, Copy)]
pub(crate) struct Trail {
    pub(crate) count: u64,
    pub(crate) opened: Option<Opened>,
    pub(crate) closed: Option<u64>,
}

/// The same without the number.
#[derive(Clone, Copy)]
pub(crate) struct Last {
    pub(crate) opened: Option<Opened>,
    pub(crate) closed: Option<u64>,
}

/// Which lines open, and which close.
#[derive(Clone, Copy)]
pub(crate) enum Watch {
    /// Messages of a side.
    Of(Side),
    /// Requests of the client, and the responses to them.
    ClientAsks,
    /// Requests of the client to initialize, and the responses to them.
    AsksToInitialize,
    /// Successful responses to `initialize`.
    Initializes,
    /// Successful responses to `disconnect`.
    Disconnects,
}

impl Watch {
    fn opens(&self, line: &Line) -> bool
        ensures { result ≡ opens_of self.now line.now }
    {
        match self {
            Watch::Of(side) => line.is_of(*side),
            Watch::ClientAsks => line.asks(Side::Client),
            Watch::AsksToInitialize => {
                line.is_of(Side::Client) && words::is_request_for(&line.message.kind, "initialize")
            }
            Watch::Initializes => line.succeeds("initialize"),
            Watch::Disconnects => line.succeeds("disconnect"),
        }
    }

    /// Whether a line closes what one with this number has opened.
    fn closes(&self, seq: u64, line: &Line) -> bool
        ensures { result ≡ closes_of self.now seq line.now }
    {
        match self {
            Watch::ClientAsks | Watch::AsksToInitialize => line.answers(Side::Adapter, seq),
            _ => false,
        }
    }
}

impl Trail {
    pub(crate) fn new() -> Trail
        ensures { result ≡ record { count = 0; opened = None; closed = None } }
    {
        Trail {
            count: 0,
            opened: None,
            closed: None,
        }
    }

    /// The line that closes, one line later.
    fn closed_after(&self, watch: &Watch, line: &Line) -> Option<u64>
        ensures { result ≡ closed_after (closes_of watch.now) line.now self.now.opened self.now.closed }
    {
        match (self.opened, self.closed) {
            (Some(opened), None) => {
                if watch.closes(opened.seq, line) {
                    Some(line.number)
                } else {
                    None
                }
            }
            (_, closed) => closed,
        }
    }

    pub(crate) fn note(&mut self, watch: &Watch, line: &Line)
        requires { self.old.count < 2 ^ 64 - 1 }
        ensures trail { self.new ≡ trail_after (opens_of watch.now) (closes_of watch.now) line.now self.old }
        ensures room { self.new.count ≤ self.old.count + 1 }
    {
        if watch.opens(line) {
            *self = Trail {
                count: self.count + 1,
                opened: Some(Opened {
                    line: line.number,
                    seq: line.message.seq,
                }),
                closed: None,
            };
        } else {
            self.closed = self.closed_after(watch, line);
        }
    }
}

/// The trails of all these.
#[derive(Clone, Copy)]
pub(crate) struct Trails {
    /// Of the messages of either side.
    pub(crate) client: Trail,
    pub(crate) adapter: Trail,
    pub(crate) requests: Trail,
    pub(crate) requests_to_initialize: Trail,
    pub(crate) initialized: Trail,
    pub(crate) disconnected: Trail,
}

impl Trails {
    pub(crate) fn new() -> Trails
        ensures found { result ≡ trails [] }
        ensures below { AreBelow 1 result }
    {
        Trails {
            client: Trail::new(),
            adapter: Trail::new(),
            requests: Trail::new(),
            requests_to_initialize: Trail::new(),
            initialized: Trail::new(),
            disconnected: Trail::new(),
        }
    }

    pub(crate) fn note(&mut self, line: &Line)
        requires { AreBelow (2 ^ 64 - 1) self.old }
        ensures found { (earlier : List TheLine) → self.old ≡ trails earlier → self.new ≡ trails (earlier ++ line.now ∷ []) }
        ensures below { (n : ℕ) → AreBelow n self.old → AreBelow (n + 1) self.new }
    {
        self.client.note(&Watch::Of(Side::Client), line);
        self.adapter.note(&Watch::Of(Side::Adapter), line);
        self.requests.note(&Watch::ClientAsks, line);
        self.requests_to_initialize
            .note(&Watch::AsksToInitialize, line);
        self.initialized.note(&Watch::Initializes, line);
        self.disconnected.note(&Watch::Disconnects, line);
    }
}
