//! Whoever holds an adapter: answers commands that were opened, and asks the client by requests of any name.
//!
//! | a line of a row | says |
//! |---|---|
//! | `opened NAME NAME!` | these commands are opened, those with `!` of stops alone |
//! | `from ready`, `from stopped` | before the row `initialize` came, and the start up to the stop at the entry |
//! | `> BODY` | this message comes |
//! | `take BODY` | it comes by `take` alone, in its frame, and nothing goes out |
//! | `< BODY` | this one goes out next |
//! | `lent N N` | the requests with these numbers are lent, by arrival |
//! | `success N BODY` | the request with this number is answered so, with this body or none |
//! | `failure N MESSAGE BODY` | it is answered with this failure, and this body or none |
//! | `echo N` | it succeeds with the arguments that it has |
//! | `ask N NAME BODY` | the client is asked by a request of this name, with these arguments or none: it has this number, or is refused |
//! | `long N NAME BYTES` | the same with a text of so many bytes as its arguments |
//! | `waits N` | so many of these wait for a response |
//! | `! REFUSAL` | why the last of these was refused, or the fault by which the last message closed the adapter |
//! | `closed` | bytes come that are no frame: the adapter is closed |

use crate::emitting::text_of;
use crate::opening::offer_of;
use dap_adapter::{
    Adapter, AdapterFault, AskFault, Outcome, RespondFault, is_plain_outcome, offers_fit,
};
use dap_envelope::is_plain_tree;
use dap_frame::Limits;
use dap_json::{ParseFault, Text, Tree, parse};
use dap_replay::Recorded;
use std::alloc::{AllocError, Global};
use std::fmt::Write;
use std::marker::Model;
use test_kit::bodies::frame_of;
use test_kit::given::{Given, note, wrong};
use test_kit::outcome::Outcome as Played;
use test_kit::player::{Player, Setting};
use test_kit::rows::heading;
use test_kit::samples::RECORDING;
use test_kit::words::parts;

/// `scripts/refuse-allocations` plays a copy with each allocation refused in turn, in which this is false.
const IS_AMPLE: bool = true;

pub(crate) const INITIALIZE: &str = r#"{"seq":1,"type":"request","command":"initialize"}"#;

pub(crate) const LAUNCH: &str = r#"{"seq":2,"type":"request","command":"launch"}"#;

pub(crate) const CONFIGURED: &str = r#"{"seq":3,"type":"request","command":"configurationDone"}"#;

fn name_of(fault: RespondFault) -> &'static str {
    match fault {
        RespondFault::Closed => "Closed",
        RespondFault::NotLent => "NotLent",
        RespondFault::TooLarge => "TooLarge",
        RespondFault::SeqExhausted => "SeqExhausted",
        RespondFault::OutOfMemory => "OutOfMemory",
    }
}

fn name_of_refusal(fault: AskFault) -> &'static str {
    match fault {
        AskFault::Closed => "Closed",
        AskFault::WrongPhase => "WrongPhase",
        AskFault::BadName => "BadName",
        AskFault::Full => "Full",
        AskFault::TooLarge => "TooLarge",
        AskFault::SeqExhausted => "SeqExhausted",
        AskFault::OutOfMemory => "OutOfMemory",
    }
}

fn name_of_fault(fault: AdapterFault) -> &'static str {
    match fault {
        AdapterFault::Unmatched { .. } => "Unmatched",
        AdapterFault::CommandMismatch { .. } => "CommandMismatch",
        _ => "another fault",
    }
}

/// An adapter over the shared recording that opens this, and to which these messages came.
pub(crate) fn adapter_after(
    alloc: Global,
    limits: Limits,
    words: &str,
    messages: &[&str],
) -> Option<Adapter<Recorded>> {
    let debuggee = Recorded::read(alloc, RECORDING).ok()?;
    let mut refused = String::new(alloc);
    let offer = offer_of(alloc, words, "{}", &mut refused)?;
    let Ok(true) = offers_fit(alloc, limits, &offer) else {
        return None;
    };
    let mut adapter = Adapter::open_with(alloc, limits, debuggee, offer).ok()?;
    for message in messages {
        let mut out = Vec::new(alloc);
        adapter
            .answer_body(alloc, (*message).as_bytes(), &mut out)
            .ok()?;
    }
    Some(adapter)
}

/// What goes out where a lent request is answered, or why it is not.
pub(crate) fn answer(
    alloc: Global,
    adapter: &mut Adapter<Recorded>,
    seq: u64,
    outcome: &Outcome,
) -> Result<Vec<u8>, &'static str> {
    if !is_plain_outcome(outcome) {
        return Err("not plain");
    }
    let mut out = Vec::new(alloc);
    match adapter.respond(alloc, seq, outcome, &mut out) {
        Ok(()) => Ok(out),
        Err(_) if !out.is_empty() => Err("written"),
        Err(fault) => Err(name_of(fault)),
    }
}

/// The value that a text is; none where that is no JSON.
pub(crate) fn body_in(alloc: Global, text: &str) -> Result<Option<Tree>, AllocError> {
    match parse(alloc, text.as_bytes()) {
        Ok(value) => Ok(Some(Tree::new(value))),
        Err(ParseFault::NotJson) => Ok(None),
        Err(ParseFault::OutOfMemory) => Err(AllocError),
    }
}

/// What a row needs is not there: wrong where there is memory for all.
fn missing() -> Played {
    if IS_AMPLE {
        Played::Wrong
    } else {
        Played::Refused
    }
}

fn is_lent(adapter: &Adapter<Recorded>, seq: u64) -> bool {
    for request in adapter.lent() {
        if request.seq == seq {
            return true;
        }
    }
    false
}

/// The numbers of the requests that are lent.
fn lent_in(alloc: Global, adapter: &Adapter<Recorded>) -> Option<String> {
    let mut numbers = String::new(alloc);
    for request in adapter.lent() {
        if !numbers.is_empty() {
            numbers.push(' ').ok()?;
        }
        write!(numbers, "{}", request.seq).ok()?;
    }
    Some(numbers)
}

/// The arguments of the lent request with this number.
fn arguments_of(adapter: &Adapter<Recorded>, seq: u64) -> Option<Option<Tree>> {
    for request in adapter.lent() {
        if request.seq == seq {
            return request.arguments.clone().ok();
        }
    }
    None
}

/// The messages that came before a row.
fn messages_before(word: &str) -> &'static [&'static str] {
    match word {
        "ready" => &[INITIALIZE],
        "stopped" => &[INITIALIZE, LAUNCH, CONFIGURED],
        _ => &[],
    }
}

/// Whoever holds an adapter, and follows a row. A contract sees nothing of it.
#[derive(Drop)]
pub(crate) struct Holder {
    adapter: Adapter<Recorded>,
    given: Given,
    /// Why the last answer was refused, until a row says so.
    refusal: &'static str,
}

impl Model for Holder {
    ghost use Rattle.std.specs.Prelude.{ℕ};

    ghost Value = { ℕ };

    ghost view = { λ _. 0 };
}

impl Holder {
    fn of_row(alloc: Global, setting: &Setting<'_>) -> Option<Holder> {
        let words = heading(setting.row, "opened ").unwrap_or("");
        let before = messages_before(heading(setting.row, "from ").unwrap_or(""));
        Some(Holder {
            adapter: adapter_after(alloc, setting.limits, words, before)?,
            given: Given::new(alloc),
            refusal: "",
        })
    }

    /// Whether the row named all that came of the last call.
    fn is_settled(&self) -> bool {
        self.given.is_named() && self.refusal.is_empty()
    }

    /// Whether a fault closed the adapter.
    fn is_closed(&mut self, alloc: Global) -> bool {
        let mut out = Vec::new(alloc);
        let refused = self.adapter.ask(alloc, "mine", None, &mut out);
        matches!(refused, Err(AskFault::Closed))
    }

    /// Keeps why a message closed the adapter; refused where memory was.
    fn fails_by(&mut self, alloc: Global, fault: AdapterFault) -> Played {
        if fault == AdapterFault::OutOfMemory {
            return Played::of_refusal(self.is_closed(alloc));
        }
        self.refusal = name_of_fault(fault);
        Played::Right
    }

    fn hears(&mut self, alloc: Global, body: &str) -> Played {
        let mut out = Vec::new(alloc);
        match self.adapter.answer_body(alloc, body.as_bytes(), &mut out) {
            Ok(_) => Played::of_added(self.given.add(&out)),
            Err(fault) => self.fails_by(alloc, fault),
        }
    }

    /// Hands the frame of a message in by `take` alone.
    fn takes(&mut self, alloc: Global, body: &str) -> Played {
        let Ok(frame) = frame_of(alloc, body) else {
            return Played::Refused;
        };
        match self.adapter.take(alloc, &frame) {
            Ok(taken) => Played::of(taken.used == frame.len() && taken.bytes.is_empty()),
            Err(fault) => self.fails_by(alloc, fault),
        }
    }

    fn says(&mut self, alloc: Global, text: &str) -> Played {
        match self.given.passes_text(alloc, text) {
            Ok((is_next, _)) => Played::of(is_next),
            Err(_) => Played::Refused,
        }
    }

    fn lends(&self, alloc: Global, numbers: &str) -> Played {
        match lent_in(alloc, &self.adapter) {
            Some(lent) => Played::of(lent.as_str() == numbers),
            None => Played::Refused,
        }
    }

    fn responds(&mut self, alloc: Global, seq: u64, outcome: Outcome) -> Played {
        match answer(alloc, &mut self.adapter, seq, &outcome) {
            Ok(out) => Played::of_added(self.given.add(&out)),
            Err("OutOfMemory") => Played::of_refusal(is_lent(&self.adapter, seq)),
            Err(refusal) => {
                self.refusal = refusal;
                Played::Right
            }
        }
    }

    fn succeeds(&mut self, alloc: Global, words: &str) -> Played {
        let (number, body) = parts(words);
        let Ok(seq) = number.parse::<u64>() else {
            return Played::Wrong;
        };
        match body_in(alloc, body) {
            Ok(body) => self.responds(alloc, seq, Outcome::Success(body)),
            Err(_) => Played::Refused,
        }
    }

    fn fails(&mut self, alloc: Global, words: &str) -> Played {
        let (number, words) = parts(words);
        let (name, body) = parts(words);
        let Ok(seq) = number.parse::<u64>() else {
            return Played::Wrong;
        };
        match (Text::copied(alloc, name), body_in(alloc, body)) {
            (Ok(message), Ok(body)) => {
                self.responds(alloc, seq, Outcome::Failure { message, body })
            }
            _ => Played::Refused,
        }
    }

    fn echoes(&mut self, alloc: Global, number: &str) -> Played {
        let Ok(seq) = number.parse::<u64>() else {
            return Played::Wrong;
        };
        match arguments_of(&self.adapter, seq) {
            Some(arguments) => self.responds(alloc, seq, Outcome::Success(arguments)),
            None => missing(),
        }
    }

    /// Asks: right where it has this number, or is refused.
    fn asks(&mut self, alloc: Global, number: &str, name: &str, arguments: Option<Tree>) -> Played {
        let Ok(wanted) = number.parse::<u64>() else {
            return Played::Wrong;
        };
        if !is_plain_tree(&arguments) {
            return Played::Wrong;
        }
        let before = self.adapter.asked_by_name();
        let mut out = Vec::new(alloc);
        match self.adapter.ask(alloc, name, arguments, &mut out) {
            Ok(seq) if seq == wanted => Played::of_added(self.given.add(&out)),
            Ok(_) => Played::Wrong,
            Err(AskFault::OutOfMemory) => {
                Played::of_refusal(out.is_empty() && self.adapter.asked_by_name() == before)
            }
            Err(fault) => {
                self.refusal = name_of_refusal(fault);
                Played::Right
            }
        }
    }

    fn asks_with(&mut self, alloc: Global, words: &str) -> Played {
        let (number, words) = parts(words);
        let (name, body) = parts(words);
        match body_in(alloc, body) {
            Ok(arguments) => self.asks(alloc, number, name, arguments),
            Err(_) => Played::Refused,
        }
    }

    fn asks_at_length(&mut self, alloc: Global, words: &str) -> Played {
        let (number, words) = parts(words);
        let (name, bytes) = parts(words);
        let Ok(bytes) = bytes.parse::<usize>() else {
            return Played::Wrong;
        };
        let Ok(text) = text_of(alloc, bytes) else {
            return Played::Refused;
        };
        match body_in(alloc, text.as_str()) {
            Ok(arguments) => self.asks(alloc, number, name, arguments),
            Err(_) => Played::Refused,
        }
    }

    fn waits_for(&self, number: &str) -> Played {
        Played::of(number.parse::<usize>() == Ok(self.adapter.asked_by_name()))
    }

    fn is_refused(&mut self, refusal: &str) -> Played {
        if self.refusal != refusal {
            return Played::Wrong;
        }
        self.refusal = "";
        Played::Right
    }

    /// Makes the call of a line, if it makes one.
    fn calls(&mut self, alloc: Global, word: &str, rest: &str) -> Played {
        match word {
            ">" => self.hears(alloc, rest),
            "take" => self.takes(alloc, rest),
            "success" => self.succeeds(alloc, rest),
            "failure" => self.fails(alloc, rest),
            "echo" => self.echoes(alloc, rest),
            "ask" => self.asks_with(alloc, rest),
            "long" => self.asks_at_length(alloc, rest),
            "closed" => Played::of(self.adapter.take(alloc, b"no header\r\n\r\n").is_err()),
            _ => Played::Wrong,
        }
    }

    /// Does what a line says, once all that came of the last call was named.
    fn does_next(&mut self, alloc: Global, word: &str, rest: &str) -> Played {
        if !self.is_settled() {
            return Played::Wrong;
        }
        match word {
            "lent" => self.lends(alloc, rest),
            "waits" => self.waits_for(rest),
            _ => self.calls(alloc, word, rest),
        }
    }

    /// Does what a line says: whether it is so.
    fn does(&mut self, alloc: Global, line: &str) -> Played {
        let (word, rest) = parts(line);
        match word {
            "opened" | "from" => Played::Right,
            "<" => self.says(alloc, rest),
            "!" => self.is_refused(rest),
            _ => self.does_next(alloc, word, rest),
        }
    }
}

impl Player for Holder {
    fn open(alloc: Global, setting: &Setting<'_>, came: &mut String) -> Result<Holder, Played> {
        match Holder::of_row(alloc, setting) {
            Some(holder) => Ok(holder),
            None => {
                note(came, "no adapter");
                Err(missing())
            }
        }
    }

    fn follow(&mut self, alloc: Global, line: &str, came: &mut String) -> Played {
        let outcome = self.does(alloc, line);
        if outcome == Played::Wrong {
            self.given.tell(came);
            note(came, self.refusal);
        }
        outcome
    }

    fn finish(&mut self, _alloc: Global, came: &mut String) -> Played {
        if self.is_settled() {
            return Played::Right;
        }
        self.given.tell(came);
        wrong(came, self.refusal)
    }

    fn forget(&mut self) {}
}
