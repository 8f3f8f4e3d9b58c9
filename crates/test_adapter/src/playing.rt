//! Rows of an adapter over the shared recording.
//!
//! | a line | says |
//! |---|---|
//! | `> BODY` | this message is taken |
//! | `bytes N TEXT` | the bytes of this JSON text are taken, and so many messages are delivered |
//! | `turn` | the oldest request that waits is handled |
//! | `idle` | no request waits to be handled |
//! | `poll` | the debuggee is asked what happened |
//! | `< BODY` | this message comes next of what the last call hands out |
//! | `! FAULT` | the last call closes the adapter with this fault: each call answers it from then on, nothing is held, and all else is as it was right before that call |
//! | `phase P`, `kept N`, `asked N`, `references N`, `breakpoints N`, `held N` | what is seen, until the row says otherwise |
//! | `free of memory` | from here on no call takes memory, so that one which is refused any is wrong |
//! | `recording JSON` | the debuggee is of this recording; of the shared one if left out |
//! | `debuggee willing` | of a stubborn debuggee: it does not refuse its first start |
//! | `debuggee says TEXT` | of a stubborn debuggee: it refuses each pause and each way back too, and gives this as the reason |
//!
//! At each call all that the last one handed out has to be named, and as many requests are kept as were taken and not
//! answered. A call that is refused memory closes the adapter too.

ghost use Rattle.std.specs.Prelude.{◌≡◌, IfSome};
ghost use Rattle.dap_debuggee.specs.declared.answers.State.{State};

use dap_adapter::{Adapter, AdapterFault, Phase, Turned};
use dap_debuggee::Debuggee;
use dap_json::Text;
use dap_replay::Recorded;
use std::alloc::Global;
use std::marker::Model;
use test_kit::bodies::{frame_with_next, is_request};
use test_kit::facts::{Counts, Facts, is_printed, tell};
use test_kit::given::{Given, note, wrong};
use test_kit::json::text_of;
use test_kit::outcome::Outcome;
use test_kit::player::{Player, Setting};
use test_kit::rows::heading;
use test_kit::samples::{RECORDING, debuggee_of};
use test_kit::served::phase_named;
use test_kit::stubborn::Stubborn;
use test_kit::words::{Counted, Word, parts, word_named};

/// A call of an adapter.
#[derive(Clone, Copy)]
enum Act<'a> {
    /// A message with this body is taken.
    Take(&'a str),
    /// The bytes that a JSON text is are taken, and so many messages are delivered.
    Bytes(&'a str),
    Turn,
    Idle,
    Poll,
}

/// The call that a line makes, if it makes one.
fn act_of(word: Word, rest: &str) -> Option<Act<'_>> {
    match word {
        Word::Client => Some(Act::Take(rest)),
        Word::Bytes => Some(Act::Bytes(rest)),
        Word::Turn => Some(Act::Turn),
        Word::Idle => Some(Act::Idle),
        Word::Poll => Some(Act::Poll),
        _ => None,
    }
}

/// What is seen of an adapter.
#[derive(Clone, Copy, Debug, PartialEq, Eq)]
struct Seen {
    counts: Counts,
    phase: Phase,
}

impl Seen {
    fn of<D: Debuggee + Drop>(adapter: &Adapter<D>) -> Seen {
        Seen {
            counts: Counts {
                waiting: adapter.kept(),
                reverse: adapter.asked(),
                references: adapter.references(),
                breakpoints: adapter.breakpoints(),
                held: adapter.held(),
            },
            phase: adapter.phase(),
        }
    }

    /// The same with nothing held.
    fn closed(self) -> Seen {
        Seen {
            counts: Counts {
                held: 0,
                ..self.counts
            },
            ..self
        }
    }
}

/// An adapter that follows a row. A contract sees nothing of it.
#[derive(Drop)]
pub(crate) struct Playing<D: Debuggee + Drop> {
    adapter: Adapter<D>,
    size: usize,
    given: Given,
    fault: Option<AdapterFault>,
    facts: Facts,
    phase: Option<Phase>,
    /// What was seen right before the last call of the adapter.
    before: Seen,
    /// Whether no call takes memory any more.
    is_free: bool,
}

impl<D: Debuggee + Drop> Model for Playing<D> {
    ghost use Rattle.std.specs.Prelude.{ℕ};

    ghost Value = { ℕ };

    ghost view = { λ _. 0 };
}

impl<D: Debuggee + Drop> Playing<D> {
    fn new(alloc: Global, adapter: Adapter<D>, size: usize) -> Playing<D> {
        Playing {
            before: Seen::of(&adapter),
            adapter,
            size,
            given: Given::new(alloc),
            fault: None,
            facts: Facts::none(),
            phase: None,
            is_free: false,
        }
    }

    fn seen(&self) -> Seen {
        Seen::of(&self.adapter)
    }

    fn is_in_phase(&self) -> bool {
        match self.phase {
            None => true,
            Some(phase) => self.adapter.phase() == phase,
        }
    }

    /// Whether all that the row says is seen; else what is seen is told.
    fn shows(&self, came: &mut String) -> Outcome {
        if self.facts.are_so(&self.seen().counts) && self.is_in_phase() {
            return Outcome::Right;
        }
        tell(came, &self.seen());
        Outcome::Wrong
    }

    /// Whether all that came of the last call was named, and the rest is as the row says.
    fn settle(&self, came: &mut String) -> Outcome {
        if let Some(fault) = self.fault {
            tell(came, &fault);
            return Outcome::Wrong;
        }
        if !self.given.is_named() {
            self.given.tell(came);
            return Outcome::Wrong;
        }
        self.shows(came)
    }

    /// Takes a piece: how many bytes are used, and whether a message is delivered; nothing where memory for the bytes that it
    /// hands out is refused here.
    fn take_piece(
        &mut self,
        alloc: Global,
        piece: &[u8],
    ) -> Result<Option<(usize, bool)>, AdapterFault> {
        self.before = self.seen();
        match self.adapter.take(alloc, piece) {
            Ok(taken) => {
                let (used, delivers) = (taken.used, taken.delivered.is_some());
                let added = self.given.add(&taken.bytes);
                // The proof of a call is shorter than that of a value that goes out of scope.
                drop(taken);
                match added {
                    Ok(()) => Ok(Some((used, delivers))),
                    Err(_) => Ok(None),
                }
            }
            Err(fault) => Err(fault),
        }
    }

    /// Takes so many of the bytes, in pieces: right where no other one is used, and so many messages are delivered.
    fn take_bytes(
        &mut self,
        alloc: Global,
        bytes: &[u8],
        count: usize,
        messages: usize,
    ) -> Result<Outcome, AdapterFault> {
        let mut rest = bytes;
        let (mut at, mut delivered): (usize, usize) = (0, 0);
        for _ in 0..count {
            let (piece, _) = rest.split_at(self.size.min(rest.len()));
            let Some((used, delivers)) = self.take_piece(alloc, piece)? else {
                return Ok(Outcome::Refused);
            };
            let (_, later) = rest.split_at(used.min(rest.len()));
            rest = later;
            at = at.saturating_add(used);
            delivered = delivered.saturating_add(usize::from(delivers));
            if at >= count {
                return Ok(Outcome::of(at == count && delivered == messages));
            }
        }
        Ok(Outcome::Wrong)
    }

    /// Takes a message. Where pieces have any size, a byte of the next frame comes with it.
    fn take(&mut self, alloc: Global, body: &str) -> Result<Outcome, AdapterFault> {
        match frame_with_next(alloc, body, self.size) {
            Ok((frame, count)) => {
                let taken = self.take_bytes(alloc, &frame, count, 1);
                drop(frame);
                self.count_request(taken, body);
                taken
            }
            Err(_) => Ok(Outcome::Refused),
        }
    }

    /// Takes the bytes that a JSON text is, in which so many messages end.
    fn take_text(&mut self, alloc: Global, words: &str) -> Result<Outcome, AdapterFault> {
        let (messages, json) = parts(words);
        let Ok(messages) = messages.parse::<usize>() else {
            return Ok(Outcome::Wrong);
        };
        match text_of(alloc, json) {
            Ok(text) => {
                let bytes = text.as_str().as_bytes();
                let taken = self.take_bytes(alloc, bytes, bytes.len(), messages);
                if messages > 0 {
                    self.count_request(taken, text.as_str());
                }
                drop(text);
                taken
            }
            Err(outcome) => Ok(outcome),
        }
    }

    /// A request that was taken waits.
    fn count_request(&mut self, taken: Result<Outcome, AdapterFault>, text: &str) {
        if taken == Ok(Outcome::Right) && is_request(text) {
            self.facts.count_request();
        }
    }

    fn turn(&mut self, alloc: Global) -> Result<Outcome, AdapterFault> {
        self.before = self.seen();
        match self.adapter.turn(alloc) {
            Ok(Turned::Idle) => Ok(Outcome::Wrong),
            Ok(Turned::Done { bytes }) => Ok(Outcome::of_added(self.given.add(&bytes))),
            Err(fault) => Err(fault),
        }
    }

    fn is_idle(&mut self, alloc: Global) -> Result<Outcome, AdapterFault> {
        self.before = self.seen();
        match self.adapter.turn(alloc) {
            Ok(Turned::Idle) => Ok(Outcome::Right),
            Ok(Turned::Done { bytes }) => {
                let _ = self.given.add(&bytes);
                Ok(Outcome::Wrong)
            }
            Err(fault) => Err(fault),
        }
    }

    fn poll(&mut self, alloc: Global) -> Result<Outcome, AdapterFault> {
        self.before = self.seen();
        match self.adapter.poll(alloc) {
            Ok(bytes) => Ok(Outcome::of_added(self.given.add(&bytes))),
            Err(fault) => Err(fault),
        }
    }

    fn call(&mut self, alloc: Global, act: Act<'_>) -> Result<Outcome, AdapterFault> {
        match act {
            Act::Take(body) => self.take(alloc, body),
            Act::Bytes(words) => self.take_text(alloc, words),
            Act::Turn => self.turn(alloc),
            Act::Idle => self.is_idle(alloc),
            Act::Poll => self.poll(alloc),
        }
    }

    /// Whether each call answers a fault.
    fn answers_only(&mut self, alloc: Global, fault: AdapterFault) -> bool {
        self.take_piece(alloc, b"x") == Err(fault)
            && self.is_idle(alloc) == Err(fault)
            && self.poll(alloc) == Err(fault)
    }

    /// Whether each call answers the fault of the last one, nothing is held, and all else is as it was right before that.
    fn is_closed(&mut self, alloc: Global, fault: AdapterFault) -> bool {
        let before = self.before;
        before.counts.waiting == self.facts.waiting()
            && self.seen() == before.closed()
            && self.answers_only(alloc, fault)
            && self.seen() == before.closed()
    }

    /// What comes of a call. A fault is kept for the line that names it.
    fn outcome_of(&mut self, alloc: Global, act: Act<'_>, came: &mut String) -> Outcome {
        match self.call(alloc, act) {
            Ok(Outcome::Wrong) => {
                self.given.tell(came);
                Outcome::Wrong
            }
            Ok(outcome) => outcome,
            Err(AdapterFault::OutOfMemory) if self.is_free => {
                wrong(came, "memory was refused where none is taken")
            }
            Err(AdapterFault::OutOfMemory) => {
                note(
                    came,
                    "memory was refused, and the adapter is not closed as it was",
                );
                Outcome::of_refusal(self.is_closed(alloc, AdapterFault::OutOfMemory))
            }
            Err(fault) => {
                self.fault = Some(fault);
                Outcome::Right
            }
        }
    }

    /// Makes a call, once all that came before was named.
    fn act(&mut self, alloc: Global, act: Act<'_>, came: &mut String) -> Outcome {
        match self.settle(came) {
            Outcome::Right => self.outcome_of(alloc, act, came),
            outcome => outcome,
        }
    }

    /// Whether a message comes next.
    fn gives(&mut self, alloc: Global, text: &str, came: &mut String) -> Outcome {
        match self.given.passes_text(alloc, text) {
            Ok((true, answers)) => {
                if answers {
                    self.facts.count_answer();
                }
                Outcome::Right
            }
            Ok((false, _)) => {
                self.given.tell(came);
                Outcome::Wrong
            }
            Err(_) => Outcome::Refused,
        }
    }

    /// Whether the last call met a fault of this name, which closed the adapter.
    fn is_closed_by(&mut self, alloc: Global, name: &str, came: &mut String) -> Outcome {
        let Some(fault) = self.fault else {
            return wrong(came, "no fault");
        };
        tell(came, &fault);
        self.fault = None;
        match is_printed(alloc, &fault, name) {
            Ok(is_so) => Outcome::of(is_so && self.is_closed(alloc, fault)),
            Err(_) => Outcome::Refused,
        }
    }

    fn is_in(&mut self, name: &str, came: &mut String) -> Outcome {
        self.phase = phase_named(name);
        if self.phase.is_none() {
            return wrong(came, "no phase has this name");
        }
        if self.is_in_phase() {
            return Outcome::Right;
        }
        tell(came, &self.seen());
        Outcome::Wrong
    }

    /// Notes a count, and compares it. All that the row says is compared before the next call.
    fn counts_so(&mut self, counted: Counted, value: &str, came: &mut String) -> Outcome {
        let seen = self.seen();
        let is_so = match value.parse::<usize>() {
            Ok(count) => self.facts.note(counted, count) && seen.counts.of(counted) == count,
            Err(_) => false,
        };
        self.facts.go_on();
        if is_so {
            return Outcome::Right;
        }
        tell(came, &seen);
        Outcome::Wrong
    }

    fn is_free_from_here(&mut self) -> Outcome {
        self.is_free = true;
        Outcome::Right
    }

    /// What is compared at a line at which no call is made.
    fn compare(&mut self, alloc: Global, word: Word, rest: &str, came: &mut String) -> Outcome {
        match word {
            Word::Adapter => self.gives(alloc, rest, came),
            Word::Fault => self.is_closed_by(alloc, rest, came),
            Word::Phase => self.is_in(rest, came),
            Word::Count(counted) => self.counts_so(counted, rest, came),
            Word::Free => self.is_free_from_here(),
            _ => wrong(came, "no line of an adapter"),
        }
    }

    fn follow_word(&mut self, alloc: Global, word: Word, rest: &str, came: &mut String) -> Outcome {
        match act_of(word, rest) {
            Some(act) => self.act(alloc, act, came),
            None => self.compare(alloc, word, rest, came),
        }
    }

    fn follow_line(&mut self, alloc: Global, line: &str, came: &mut String) -> Outcome {
        let (name, rest) = parts(line);
        match word_named(name) {
            Some(word) => self.follow_word(alloc, word, rest, came),
            None => wrong(came, "no such line"),
        }
    }

    fn forget_facts(&mut self) {
        self.facts = self.facts.of_what_waits();
        self.phase = None;
    }
}

/// The recording that a row is played over.
fn recording_of<'a>(setting: &Setting<'a>) -> &'a [u8] {
    match heading(setting.row, "recording ") {
        Some(recording) => recording.as_bytes(),
        None => RECORDING.as_slice(),
    }
}

impl Player for Playing<Recorded> {
    fn open(alloc: Global, setting: &Setting<'_>, _came: &mut String) -> Result<Self, Outcome> {
        match debuggee_of(alloc, recording_of(setting)) {
            Ok(debuggee) => match Adapter::open(alloc, setting.limits, debuggee) {
                Ok(adapter) => Ok(Playing::new(alloc, adapter, setting.size)),
                Err(_) => Err(Outcome::Refused),
            },
            Err(outcome) => Err(outcome),
        }
    }

    fn follow(&mut self, alloc: Global, line: &str, came: &mut String) -> Outcome {
        self.follow_line(alloc, line, came)
    }

    fn finish(&mut self, _alloc: Global, came: &mut String) -> Outcome {
        self.settle(came)
    }

    fn forget(&mut self) {
        self.forget_facts()
    }
}

/// The debuggee of a recording that refuses its first start, unless the row says that it is willing; `None` where memory is
/// refused.
fn stubborn_of(alloc: Global, setting: &Setting<'_>, recorded: Recorded) -> Option<Stubborn>
    requires { recorded.state ≡ State.NotStarted }
    ensures { IfSome result (λ stubborn. stubborn.inner.state ≡ State.NotStarted) }
{
    if let Some(text) = heading(setting.row, "debuggee says ") {
        let why = Text::copied(alloc, text).ok()?;
        return Some(Stubborn::saying(recorded, why));
    }
    match heading(setting.row, "debuggee ") {
        Some("willing") => Some(Stubborn::willing(recorded)),
        _ => Some(Stubborn::new(recorded)),
    }
}

/// Over a debuggee that may refuse acts, and whose variables take one long value.
impl Player for Playing<Stubborn> {
    fn open(alloc: Global, setting: &Setting<'_>, _came: &mut String) -> Result<Self, Outcome> {
        match debuggee_of(alloc, recording_of(setting)) {
            Ok(recorded) => {
                let Some(debuggee) = stubborn_of(alloc, setting, recorded) else {
                    return Err(Outcome::Refused);
                };
                match Adapter::open(alloc, setting.limits, debuggee) {
                    Ok(adapter) => Ok(Playing::new(alloc, adapter, setting.size)),
                    Err(_) => Err(Outcome::Refused),
                }
            }
            Err(outcome) => Err(outcome),
        }
    }

    fn follow(&mut self, alloc: Global, line: &str, came: &mut String) -> Outcome {
        self.follow_line(alloc, line, came)
    }

    fn finish(&mut self, _alloc: Global, came: &mut String) -> Outcome {
        self.settle(came)
    }

    fn forget(&mut self) {
        self.forget_facts()
    }
}
