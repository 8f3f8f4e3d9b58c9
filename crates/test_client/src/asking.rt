//! Rows of a client.
//!
//! | a line | says |
//! |---|---|
//! | `send COMMAND`, `send COMMAND JSON` | this call is sent, with the arguments that the JSON is |
//! | `answer N no`, `answer N ok`, `answer N ok P`, `answer N ok P S` | the request N of the adapter is answered: the terminal refused; or it started, with the numbers of the process and of the shell |
//! | `< BODY` | this message comes, and is delivered |
//! | `> BODY` | the client writes this message next, for the last of those |
//! | `! FAULT` | the last of those was refused with this fault: a call or an answer, and nothing has changed; a message, and the client is closed, so that it answers this fault to any piece, and `Ended` to any call and answer; nothing is held then, and all else is as it was right before that piece |
//! | `bytes N TEXT` | the bytes of this JSON text come, and so many messages are delivered |
//! | `phase P`, `outstanding N`, `incoming N`, `references N`, `held N`, `ready`, `not ready` | what the client knows, until the row says otherwise |
//! | `oldest N`, `oldest none` | the oldest request of the adapter that is kept |
//! | `free of memory` | from here on no call takes memory, so that one which is refused any is wrong |
//!
//! At each call all that the last one wrote has to be named, and as many requests are outstanding as were sent and not
//! answered. A call that is refused memory changes nothing, and a piece that is closes the client too.

use dap_call::{Call, CallFault, read_call};
use dap_client::{AnswerFault, Client, ClientFault, Phase, SendFault, Terminal};
use dap_command::{Capabilities, Command};
use serde_json::Value;
use std::alloc::{AllocError, Global};
use std::marker::Model;
use test_kit::bodies::{body_of, frame_with_next, is_response, word_at};
use test_kit::facts::{Counts, Facts, is_printed, tell};
use test_kit::given::{Given, note, wrong};
use test_kit::json::{text_of, value_of};
use test_kit::outcome::Outcome;
use test_kit::player::{Player, Setting};
use test_kit::words::{Counted, Word, parts, word_named};

/// Why a call or a piece was refused.
#[derive(Clone, Copy, Debug, PartialEq, Eq)]
enum Refusal {
    Send(SendFault),
    Answer(AnswerFault),
    Take(ClientFault),
}

/// What is seen of a client.
#[derive(Clone, Copy, Debug, PartialEq, Eq)]
struct Seen {
    counts: Counts,
    phase: Phase,
    ready: bool,
    capabilities: Capabilities,
}

impl Seen {
    fn of(client: &Client) -> Seen {
        Seen {
            counts: Counts {
                waiting: client.outstanding(),
                reverse: client.incoming(),
                references: client.references(),
                breakpoints: 0,
                held: client.held(),
            },
            phase: client.phase(),
            ready: client.ready(),
            capabilities: client.capabilities(),
        }
    }

    /// The same with nothing held.
    fn closed(self) -> Seen {
        Seen {
            counts: Counts {
                held: 0,
                ..self.counts
            },
            ..self
        }
    }
}

/// A client that follows a row. A contract sees nothing of it.
#[derive(Drop)]
pub(crate) struct Asking {
    client: Client,
    size: usize,
    given: Given,
    refusal: Option<Refusal>,
    facts: Facts,
    phase: Option<Phase>,
    ready: Option<bool>,
    /// What was seen right before the last call of the client.
    before: Seen,
    /// Whether no call takes memory any more.
    is_free: bool,
}

impl Model for Asking {
    ghost use Rattle.std.specs.Prelude.{ℕ};

    ghost Value = { ℕ };

    ghost view = { λ _. 0 };
}

static PHASES: [(&str, Phase); 8] = [
    ("Fresh", Phase::Fresh),
    ("Initializing", Phase::Initializing),
    ("Configuring", Phase::Configuring),
    ("Running", Phase::Running),
    ("Stopped", Phase::Stopped),
    ("Resuming", Phase::Resuming),
    ("Exited", Phase::Exited),
    ("Ended", Phase::Ended),
];

fn phase_named(name: &str) -> Option<Phase> {
    match PHASES.iter().find(|phase| phase.0 == name) {
        Some(phase) => Some(phase.1),
        None => None,
    }
}

/// The terminal that the words behind a number are.
fn terminal_of(words: &str) -> Option<Terminal> {
    match word_at(words, 1) {
        "ok" => Some(Terminal::Started {
            process_id: word_at(words, 2).parse::<u32>().ok(),
            shell_process_id: word_at(words, 3).parse::<u32>().ok(),
        }),
        "no" => Some(Terminal::Refused),
        _ => None,
    }
}

/// The call with a name and these arguments; wrong where they are none.
fn call_with(alloc: Global, name: &str, arguments: Option<&Value>) -> Result<Call, Outcome> {
    let Some(command) = Command::of_name(name) else {
        return Err(Outcome::Wrong);
    };
    match read_call(alloc, command, arguments) {
        Ok(call) => Ok(call),
        Err(CallFault::OutOfMemory) => Err(Outcome::Refused),
        Err(CallFault::BadArguments { .. }) => Err(Outcome::Wrong),
    }
}

/// The call with a name, and the arguments that a text is.
fn call_in(alloc: Global, name: &str, json: &str) -> Result<Call, Outcome> {
    match value_of(alloc, json) {
        Ok(arguments) => {
            let call = call_with(alloc, name, Some(&arguments));
            // The proof of a call is shorter than that of a value that goes out of scope.
            drop(arguments);
            call
        }
        Err(outcome) => Err(outcome),
    }
}

/// The call that the words after `send` are.
fn call_of(alloc: Global, words: &str) -> Result<Call, Outcome> {
    match words.split_once(' ') {
        None => call_with(alloc, words, None),
        Some((name, json)) => call_in(alloc, name, json),
    }
}

impl Asking {
    fn seen(&self) -> Seen {
        Seen::of(&self.client)
    }

    fn is_in_phase(&self) -> bool {
        match self.phase {
            None => true,
            Some(phase) => self.client.phase() == phase,
        }
    }

    fn is_as_ready(&self) -> bool {
        match self.ready {
            None => true,
            Some(ready) => self.client.ready() == ready,
        }
    }

    /// Whether all that the row says is known; else what is known is told.
    fn shows(&self, came: &mut String) -> Outcome {
        let seen = self.seen();
        if self.facts.are_so(&seen.counts) && self.is_in_phase() && self.is_as_ready() {
            return Outcome::Right;
        }
        tell(came, &seen.phase);
        note(came, ", ");
        tell(came, &seen.counts);
        Outcome::Wrong
    }

    /// Whether all that the last call wrote was named, and the rest is as the row says.
    fn settle(&self, came: &mut String) -> Outcome {
        if let Some(refusal) = self.refusal {
            tell(came, &refusal);
            return Outcome::Wrong;
        }
        if !self.given.is_named() {
            self.given.tell(came);
            return Outcome::Wrong;
        }
        self.shows(came)
    }

    /// Sends a call that is plain.
    fn send_plain(&mut self, alloc: Global, call: &Call) -> Result<Outcome, SendFault> {
        if !call.plain() {
            return Ok(Outcome::Wrong);
        }
        self.before = self.seen();
        match self.client.send(alloc, call) {
            Ok(sent) => {
                let added = self.given.add(&sent.bytes);
                // The proof of a call is shorter than that of a value that goes out of scope.
                drop(sent);
                self.facts.count_request();
                Ok(Outcome::of_added(added))
            }
            Err(fault) => Err(fault),
        }
    }

    /// Sends the call that these words are.
    fn send(&mut self, alloc: Global, words: &str) -> Result<Outcome, SendFault> {
        match call_of(alloc, words) {
            Ok(call) => {
                let sent = self.send_plain(alloc, &call);
                drop(call);
                sent
            }
            Err(outcome) => Ok(outcome),
        }
    }

    /// What comes of it. A refusal is kept for the line that names it.
    fn sends(&mut self, alloc: Global, words: &str, came: &mut String) -> Outcome {
        match self.send(alloc, words) {
            Ok(Outcome::Wrong) => wrong(came, "these words are no call that can be sent"),
            Ok(outcome) => outcome,
            Err(fault) if self.seen() != self.before => {
                tell(came, &fault);
                wrong(came, ", and something has changed")
            }
            Err(SendFault::OutOfMemory) => self.is_short(came),
            Err(fault) => {
                self.refusal = Some(Refusal::Send(fault));
                Outcome::Right
            }
        }
    }

    /// Answers a request of the adapter.
    fn answer_with(
        &mut self,
        alloc: Global,
        seq: u64,
        terminal: Terminal,
    ) -> Result<Outcome, AnswerFault> {
        if !terminal.plain() {
            return Ok(Outcome::Wrong);
        }
        self.before = self.seen();
        match self.client.answer(alloc, seq, terminal) {
            Ok(bytes) => {
                let added = self.given.add(&bytes);
                // The proof of a call is shorter than that of a value that goes out of scope.
                drop(bytes);
                Ok(Outcome::of_added(added))
            }
            Err(fault) => Err(fault),
        }
    }

    /// Answers the request that these words name.
    fn answer(&mut self, alloc: Global, words: &str) -> Result<Outcome, AnswerFault> {
        match (word_at(words, 0).parse::<u64>(), terminal_of(words)) {
            (Ok(seq), Some(terminal)) => self.answer_with(alloc, seq, terminal),
            _ => Ok(Outcome::Wrong),
        }
    }

    /// What comes of it. A refusal is kept for the line that names it.
    fn answers(&mut self, alloc: Global, words: &str, came: &mut String) -> Outcome {
        match self.answer(alloc, words) {
            Ok(Outcome::Wrong) => wrong(came, "these words are no answer"),
            Ok(outcome) => outcome,
            Err(fault) if self.seen() != self.before => {
                tell(came, &fault);
                wrong(came, ", and something has changed")
            }
            Err(AnswerFault::OutOfMemory) => self.is_short(came),
            Err(fault) => {
                self.refusal = Some(Refusal::Answer(fault));
                Outcome::Right
            }
        }
    }

    /// Memory was refused, and nothing else has happened.
    fn is_short(&self, came: &mut String) -> Outcome {
        note(came, "memory was refused where none is taken");
        Outcome::of_refusal(!self.is_free)
    }

    /// Takes a piece: how many bytes are used, and whether a message is delivered; nothing where memory for the bytes that it
    /// writes is refused here.
    fn take_piece(
        &mut self,
        alloc: Global,
        piece: &[u8],
    ) -> Result<Option<(usize, bool)>, ClientFault> {
        self.before = self.seen();
        match self.client.take(alloc, piece) {
            Ok(got) => {
                let (used, delivers) = (got.used, got.delivered.is_some());
                let added = self.given.add(&got.bytes);
                drop(got);
                match added {
                    Ok(()) => Ok(Some((used, delivers))),
                    Err(_) => Ok(None),
                }
            }
            Err(fault) => Err(fault),
        }
    }

    /// Takes so many of the bytes, in pieces: right where no other one is used, and so many messages are delivered.
    fn take_bytes(
        &mut self,
        alloc: Global,
        bytes: &[u8],
        count: usize,
        messages: usize,
    ) -> Result<Outcome, ClientFault> {
        let mut rest = bytes;
        let (mut at, mut delivered): (usize, usize) = (0, 0);
        for _ in 0..count {
            let (piece, _) = rest.split_at(self.size.min(rest.len()));
            let Some((used, delivers)) = self.take_piece(alloc, piece)? else {
                return Ok(Outcome::Refused);
            };
            let (_, later) = rest.split_at(used.min(rest.len()));
            rest = later;
            at = at.saturating_add(used);
            delivered = delivered.saturating_add(usize::from(delivers));
            if at >= count {
                return Ok(Outcome::of(at == count && delivered == messages));
            }
        }
        Ok(Outcome::Wrong)
    }

    /// Takes a frame. Where pieces have any size, a byte of the next one comes with it.
    fn take_frame(&mut self, alloc: Global, body: &str) -> Result<Outcome, ClientFault> {
        match frame_with_next(alloc, body, self.size) {
            Ok((frame, count)) => {
                let taken = self.take_bytes(alloc, &frame, count, 1);
                drop(frame);
                if taken == Ok(Outcome::Right) && is_response(body) {
                    self.facts.count_answer();
                }
                taken
            }
            Err(_) => Ok(Outcome::Refused),
        }
    }

    /// Takes the message that a text stands for.
    fn take(&mut self, alloc: Global, text: &str) -> Result<Outcome, ClientFault> {
        match body_of(alloc, text) {
            Ok(body) => {
                let taken = self.take_frame(alloc, body.as_str());
                drop(body);
                taken
            }
            Err(_) => Ok(Outcome::Refused),
        }
    }

    /// Takes the bytes that a JSON text is, in which so many messages end.
    fn take_text(
        &mut self,
        alloc: Global,
        json: &str,
        messages: usize,
    ) -> Result<Outcome, ClientFault> {
        match text_of(alloc, json) {
            Ok(text) => {
                let bytes = text.as_str().as_bytes();
                let taken = self.take_bytes(alloc, bytes, bytes.len(), messages);
                if taken == Ok(Outcome::Right) && is_response(text.as_str()) {
                    self.facts.count_answer();
                }
                drop(text);
                taken
            }
            Err(outcome) => Ok(outcome),
        }
    }

    /// The fault of taking a byte.
    fn fault_of_take(&mut self, alloc: Global) -> Option<ClientFault> {
        match self.take_piece(alloc, b"x") {
            Ok(_) => None,
            Err(fault) => Some(fault),
        }
    }

    /// Whether the client answers a fault to a piece, and `Ended` to a call and to an answer.
    fn answers_only(&mut self, alloc: Global, fault: ClientFault) -> bool {
        self.fault_of_take(alloc) == Some(fault)
            && self.send_plain(alloc, &Call::Threads) == Err(SendFault::Ended)
            && self.answer_with(alloc, 1, Terminal::Refused) == Err(AnswerFault::Ended)
    }

    /// Whether it answers the fault of the last piece, nothing is held, and all else is as it was right before that.
    fn is_closed(&mut self, alloc: Global, fault: ClientFault) -> bool {
        let before = self.before;
        before.counts.waiting == self.facts.waiting()
            && self.seen() == before.closed()
            && self.answers_only(alloc, fault)
            && self.seen() == before.closed()
    }

    /// What comes of a piece or a message. A fault is kept for the line that names it.
    fn outcome_of(
        &mut self,
        alloc: Global,
        taken: Result<Outcome, ClientFault>,
        came: &mut String,
    ) -> Outcome {
        match taken {
            Ok(Outcome::Wrong) => wrong(came, "another count of bytes or messages"),
            Ok(outcome) => outcome,
            Err(ClientFault::OutOfMemory) if self.is_closed(alloc, ClientFault::OutOfMemory) => {
                self.is_short(came)
            }
            Err(ClientFault::OutOfMemory) => wrong(
                came,
                "memory was refused, and the client is not closed as it was",
            ),
            Err(fault) => {
                self.refusal = Some(Refusal::Take(fault));
                Outcome::Right
            }
        }
    }

    fn takes(&mut self, alloc: Global, text: &str, came: &mut String) -> Outcome {
        let taken = self.take(alloc, text);
        self.outcome_of(alloc, taken, came)
    }

    fn takes_text(&mut self, alloc: Global, words: &str, came: &mut String) -> Outcome {
        let Some((messages, json)) = words.split_once(' ') else {
            return wrong(came, "no bytes");
        };
        let Ok(messages) = messages.parse::<usize>() else {
            return wrong(came, "no count of messages");
        };
        let taken = self.take_text(alloc, json, messages);
        self.outcome_of(alloc, taken, came)
    }

    /// Whether the client writes a message next.
    fn writes(&mut self, alloc: Global, text: &str, came: &mut String) -> Outcome {
        match self.given.passes_text(alloc, text) {
            Ok((true, _)) => Outcome::Right,
            Ok((false, _)) => {
                self.given.tell(came);
                Outcome::Wrong
            }
            Err(_) => Outcome::Refused,
        }
    }

    /// Whether a refusal has this name, and the client is as it is to be then.
    fn is_so_refused(
        &mut self,
        alloc: Global,
        refusal: Refusal,
        name: &str,
    ) -> Result<bool, AllocError> {
        match refusal {
            Refusal::Send(fault) => is_printed(alloc, &fault, name),
            Refusal::Answer(fault) => is_printed(alloc, &fault, name),
            Refusal::Take(fault) => {
                let is_named = is_printed(alloc, &fault, name)?;
                Ok(is_named && self.is_closed(alloc, fault))
            }
        }
    }

    fn is_refused(&mut self, alloc: Global, name: &str, came: &mut String) -> Outcome {
        let Some(refusal) = self.refusal else {
            return wrong(came, "no fault");
        };
        tell(came, &refusal);
        self.refusal = None;
        match self.is_so_refused(alloc, refusal, name) {
            Ok(true) => self.shows(came),
            Ok(false) => Outcome::Wrong,
            Err(_) => Outcome::Refused,
        }
    }

    /// Notes a count, and compares.
    fn counts_so(&mut self, counted: Counted, value: &str, came: &mut String) -> Outcome {
        let is_said = match value.parse::<usize>() {
            Ok(count) => self.facts.note(counted, count),
            Err(_) => false,
        };
        let outcome = self.shows(came);
        self.facts.go_on();
        if is_said {
            return outcome;
        }
        tell(came, &self.seen().counts);
        Outcome::Wrong
    }

    fn is_in(&mut self, name: &str, came: &mut String) -> Outcome {
        self.phase = phase_named(name);
        if self.phase.is_none() {
            return wrong(came, "no phase has this name");
        }
        self.shows(came)
    }

    fn is_oldest(&mut self, number: &str, came: &mut String) -> Outcome {
        let oldest = self.client.oldest_incoming();
        if oldest == number.parse::<u64>().ok() {
            return self.shows(came);
        }
        tell(came, &oldest);
        Outcome::Wrong
    }

    fn is_ready(&mut self, ready: bool, came: &mut String) -> Outcome {
        self.ready = Some(ready);
        self.shows(came)
    }

    /// What is done at a line that is no comparison, once all that came before was named.
    fn act(&mut self, alloc: Global, word: Word, rest: &str, came: &mut String) -> Outcome {
        match self.settle(came) {
            Outcome::Right => match word {
                Word::Send => self.sends(alloc, rest, came),
                Word::Answer => self.answers(alloc, rest, came),
                Word::Bytes => self.takes_text(alloc, rest, came),
                _ => self.takes(alloc, rest, came),
            },
            outcome => outcome,
        }
    }

    fn is_free_from_here(&mut self) -> Outcome {
        self.is_free = true;
        Outcome::Right
    }

    /// What is compared at a line at which nothing is done.
    fn compare(&mut self, alloc: Global, word: Word, rest: &str, came: &mut String) -> Outcome {
        match word {
            Word::Client => self.writes(alloc, rest, came),
            Word::Fault => self.is_refused(alloc, rest, came),
            Word::Phase => self.is_in(rest, came),
            Word::Ready => self.is_ready(true, came),
            Word::Oldest => self.is_oldest(rest, came),
            Word::Not => self.is_ready(false, came),
            Word::Count(counted) => self.counts_so(counted, rest, came),
            Word::Free => self.is_free_from_here(),
            _ => wrong(came, "no line of a client"),
        }
    }

    fn follow_word(&mut self, alloc: Global, word: Word, rest: &str, came: &mut String) -> Outcome {
        match word {
            Word::Send | Word::Answer | Word::Bytes | Word::Adapter => self.act(
                alloc, word, rest, came,
            ),
            _ => self.compare(alloc, word, rest, came),
        }
    }
}

impl Player for Asking {
    fn open(alloc: Global, setting: &Setting<'_>, _came: &mut String) -> Result<Self, Outcome> {
        match Client::open(alloc, setting.limits) {
            Ok(client) => Ok(Asking {
                before: Seen::of(&client),
                client,
                size: setting.size,
                given: Given::new(alloc),
                refusal: None,
                facts: Facts::none(),
                phase: None,
                ready: None,
                is_free: false,
            }),
            Err(_) => Err(Outcome::Refused),
        }
    }

    fn follow(&mut self, alloc: Global, line: &str, came: &mut String) -> Outcome {
        let (name, rest) = parts(line);
        match word_named(name) {
            Some(word) => self.follow_word(alloc, word, rest, came),
            None => wrong(came, "no such line"),
        }
    }

    fn finish(&mut self, _alloc: Global, came: &mut String) -> Outcome {
        self.settle(came)
    }

    fn forget(&mut self) {
        self.facts = self.facts.of_what_waits();
        self.phase = None;
        self.ready = None;
    }
}
