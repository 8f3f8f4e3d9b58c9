//! What a host and its debuggee leave for each other.
//!
//! The host leaves what it says, and the debuggee what the host has to do, and why what it said last is dropped. Whoever has
//! the adapter takes the mail out between its calls, and puts it back (`dap_debuggee::HasMail`). This file must not know the
//! debuggee: what becomes of what is said is in `live.rt`.
ghost use Rattle.std.specs.Prelude.{◌≡◌, Some, None, false, OnOk, OnErr};
ghost use Rattle.std.specs.List.{last_or};
ghost use Rattle.dap_live.specs.MailState.{is_end as is_the_end};
ghost use Rattle.dap_live.specs.PrivateHeld.{acts_held};

use dap_command::SourceKey;
use dap_debuggee::{Category, Explanation, How, Placement, Variable};
use dap_json::{List, More, Text};
use dap_recording::{Snapshot, Sources};
use std::alloc::{AllocError, Global};
use std::marker::Model;

/// What the host says of the debuggee.
#[derive(Drop)]
pub enum Coming {
    /// At most 128 bytes of output.
    Output {
        category: Category,
        text: Text,
        /// What is said beside these.
        more: More,
    },
    /// It stopped.
    Stopped {
        /// At most 64 bytes.
        reason: Text,
        thread: i64,
        /// What is shown of the stop.
        shows: Snapshot,
        /// Whether more is told later. A scope of the moment that came without its variables is then refused until they are told;
        /// else it has none, like one that came with no variables.
        later: bool,
        /// What is said beside the reason and the thread.
        more: More,
    },
    /// It went on by itself.
    Continued {
        thread: i64,
    },
    Exited {
        code: i32,
    },
    /// What a text comes to, `None` where it has no value. It is known until the debuggee is asked next what happened, so for
    /// the requests of one message.
    Learned {
        text: Text,
        value: Option<Text>,
        /// What holds the parts of the value: a holder of the moment, or one whose variables are told.
        holder: Option<u64>,
        /// What is said beside the value. `None` says nothing: a variable that gets it keeps what is said beside its own.
        more: Option<More>,
    },
    /// That a text has no value, and why: the reason of an `evaluate` or a `setVariable` of just that text. It is known as long as
    /// what is learned.
    NoValue {
        text: Text,
        why: Explanation,
    },
    /// The variables of a holder that has none yet, until the next stop: one of a moment of which more is told later, of a
    /// variable, or of a value. The moment's holders are counted from 0, in the order in which it was read; others are any numbers
    /// beyond those. At most 65536 holders of a stop are told.
    Variables {
        holder: u64,
        variables: List<Variable>,
    },
    /// These sources come behind those there are, at most 65536 in all.
    Sources(Sources),
}

/// Where breakpoints are that are to be set at these lines of a source, one for each, in order.
#[derive(Drop)]
pub struct Placed {
    pub source: SourceKey,
    /// Counted from 1.
    pub lines: List<u32>,
    pub placements: List<Placement>,
}

/// What the host says of a message before it is handed on: it counts as long as it is in the mail.
#[derive(Drop)]
pub struct Ahead {
    pub placed: Option<Placed>,
    /// A start, a going on and a pause are refused, for this reason.
    pub refusal: Option<Explanation>,
}

impl Ahead {
    ghost use Rattle.std.specs.Prelude.{◌≡◌};
    ghost use Rattle.dap_live.specs.MailState.{nothing_ahead};

    /// Nothing is said.
    pub fn none() -> Ahead
        ensures { result ≡ nothing_ahead }
    {
        Ahead {
            placed: None,
            refusal: None,
        }
    }
}

/// What the host has to do.
#[derive(Drop)]
pub enum HostAct {
    Start,
    Resume {
        how: How,
        thread: i64,
    },
    Pause,
    /// These lines are in place of all others of the source.
    SetBreakpoints {
        source: SourceKey,
        lines: List<u32>,
    },
    /// The first variable of the name directly in the holder has the value. The holder is named by its number in the moment that
    /// is shown, or by the one that was told.
    Assign {
        holder: u64,
        name: Text,
        value: Text,
    },
    End,
}

/// Why what a host said is dropped.
#[derive(Clone, Copy, Debug, PartialEq, Eq)]
pub enum Dropped {
    /// It does not happen in the state that the debuggee is in.
    OutOfTurn,
    /// A text is too long, or the id of a thread is too great.
    OutOfRange,
    /// The moment was read over more sources than the debuggee has, or it would have more than 65536.
    TooManySources,
    /// The holder has its variables already.
    Told,
    /// So many holders were told since the last stop, or have a value that was set, that there is room for no more.
    TooManyHolders,
}

/// What a host and its debuggee leave for each other. A contract sees what came, what is said of the next message, the acts in
/// order, and why what came is dropped.
#[derive(Drop)]
pub struct Mail {
    coming: Option<Coming>,
    ahead: Ahead,
    acts: Vec<HostAct>,
    /// Behind them comes the end. It takes no memory to say so.
    is_to_end: bool,
    dropped: Option<Dropped>,
}

impl Model for Mail {
    ghost use Rattle.std.specs.Coded.{codes};
    ghost use Rattle.dap_json.specs.Stored.{coded_data};
    ghost use Rattle.dap_live.specs.MailState.{MailState};
    ghost use Rattle.dap_live.specs.PrivateHeld.{acts_held};

    ghost Value = { MailState };

    ghost coded = { Prim.hlevel (codes, coded_data) };

    ghost view = { λ m. record { coming = m.coming; ahead = m.ahead; acts = acts_held m.acts.items m.is_to_end; dropped = m.dropped } };
}

fn is_end(act: &HostAct) -> bool
    ensures { result ≡ is_the_end (Some act.now) }
{
    matches!(act, HostAct::End)
}

/// Whether the last of them is the end.
#[tactic(auto, using(crate::proofs::Mails::last_at))]
fn is_at_end(acts: &[HostAct]) -> bool
    ensures { result ≡ is_the_end (last_or None acts.now) }
{
    match acts.last() {
        Some(act) => is_end(act),
        None => false,
    }
}

/// Puts the end behind the acts, where it is asked for.
fn put_end(acts: &mut Vec<HostAct>, is_to_end: &mut bool) -> Result<(), AllocError>
    ensures put { OnOk result (acts.new.items ≡ acts_held acts.old.items is_to_end.old) }
    ensures done { OnOk result (is_to_end.new ≡ false) }
    ensures memory { OnErr result (acts_held acts.new.items is_to_end.new ≡ acts_held acts.old.items is_to_end.old) }
{
    if *is_to_end {
        acts.push(HostAct::End)?;
        *is_to_end = false;
    }
    Ok(())
}

impl Mail {
    ghost use Rattle.std.specs.Prelude.{◌≡◌, None, IfOk, OnOk, OnErr, option_map};
    ghost use Rattle.dap_live.specs.MailState.{MailState, no_mail, with_coming, with_ahead, without_coming, with_dropped, without_acts, with_act, with_end};
    ghost use Rattle.dap_live.specs.Placing.{placed_at};

    /// There is nothing.
    pub fn new(alloc: Global) -> Mail
        ensures { result ≡ no_mail }
    {
        Mail {
            coming: None,
            ahead: Ahead::none(),
            acts: Vec::new(alloc),
            is_to_end: false,
            dropped: None,
        }
    }

    /// Leaves what the host says, in place of what it said before, until the debuggee is asked what happened.
    pub fn post(&mut self, coming: Coming)
        ensures { self.new ≡ with_coming coming self.old }
    {
        self.coming = Some(coming);
        self.dropped = None;
    }

    /// Leaves what the host says of the next message, in place of what it said before. Where breakpoints are is what `verify`
    /// answers of just that source and those lines; where there are more or fewer places than lines, it is of none.
    pub fn prepare(&mut self, ahead: Ahead)
        ensures { self.new ≡ with_ahead ahead self.old }
    {
        self.ahead = ahead;
    }

    /// Why the host refuses an act, where it does.
    pub(crate) fn refusal(&self) -> Result<Option<Explanation>, AllocError>
        ensures { IfOk result (λ why. why ≡ self.now.ahead.refusal) }
    {
        match &self.ahead.refusal {
            None => Ok(None),
            Some(why) => Ok(Some(why.clone()?)),
        }
    }

    /// Where breakpoints are that are to be set at these lines of a source, where the host said that.
    pub(crate) fn placed_at(&self, source: &SourceKey, lines: &[u32]) -> Option<&Placed>
        ensures { option_map (λ p. p.now) result ≡ placed_at self.now.ahead.placed source.now lines.now }
    {
        match &self.ahead.placed {
            Some(placed) if placed.is_of(source, lines) => Some(placed),
            _ => None,
        }
    }

    /// Takes what the host left, where the debuggee has not been asked since.
    pub fn take_coming(&mut self) -> Option<Coming>
        ensures given { result ≡ self.old.coming }
        ensures taken { self.new ≡ without_coming self.old }
    {
        std::mem::replace(&mut self.coming, None)
    }

    /// Why what the debuggee heard last is dropped; `None` where it is not. It is told once.
    pub fn take_dropped(&mut self) -> Option<Dropped>
        ensures given { result ≡ self.old.dropped }
        ensures taken { self.new ≡ with_dropped None self.old }
    {
        std::mem::replace(&mut self.dropped, None)
    }

    /// What the host has to do since the last call, in the order in which it was asked.
    ///
    /// # Errors
    /// `AllocError` where memory is refused for the last of them, the end. Then all stay.
    pub fn take_acts(&mut self, alloc: Global) -> Result<Vec<HostAct>, AllocError>
        ensures given { IfOk result (λ acts. acts.items ≡ self.old.acts) }
        ensures taken { OnOk result (self.new ≡ without_acts self.old) }
        ensures memory { OnErr result (self.new ≡ self.old) }
    {
        put_end(&mut self.acts, &mut self.is_to_end)?;
        Ok(std::mem::replace(&mut self.acts, Vec::new(alloc)))
    }

    /// Says why what came is dropped, or that it is not.
    pub(crate) fn set_dropped(&mut self, why: Option<Dropped>)
        ensures { self.new ≡ with_dropped why self.old }
    {
        self.dropped = why;
    }

    /// One more act, behind all others.
    pub(crate) fn ask(&mut self, act: HostAct) -> Result<(), AllocError>
        ensures asked { OnOk result (self.new ≡ with_act act self.old) }
        ensures memory { OnErr result (self.new ≡ self.old) }
    {
        put_end(&mut self.acts, &mut self.is_to_end)?;
        self.acts.push(act)?;
        Ok(())
    }

    /// The last act is not to be done after all.
    pub(crate) fn take_back(&mut self)
        ensures { (m : MailState) (act : _) → self.old ≡ with_act act m → self.new ≡ m }
    {
        if self.is_to_end {
            self.is_to_end = false;
        } else {
            let _ = self.acts.pop();
        }
    }

    /// The end, behind all other acts.
    pub(crate) fn ask_end(&mut self)
        ensures { self.new ≡ with_end self.old }
    {
        if !is_at_end(&self.acts) {
            self.is_to_end = true;
        }
    }
}
