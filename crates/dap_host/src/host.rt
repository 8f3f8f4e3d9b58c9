//! A host's lines, one after the other.
ghost use Rattle.std.specs.Prelude.{◌≡◌, ◌≢◌, ◌++◌, List, IfErr, IfOk, OnOk, drop};
ghost use Rattle.dap_envelope.specs.declared.message.Message.{Message};
ghost use Rattle.dap_line.specs.Written.{act_lines, lent_lines, message_lines};
ghost use Rattle.dap_outbox.specs.Draft.{bytes_of};
ghost use Rattle.dap_plan.specs.declared.fault.AdapterFault.{AdapterFault};
ghost use Rattle.dap_decision.specs.Table.{is_phase};
ghost use Rattle.dap_decision.specs.declared.phase.Phase.{Phase};
ghost use Rattle.dap_host.specs.Hearing.{emit_refusal, respond_refusal, ask_refusal, new_numbers, numbers_in, mark_of, state_of, drop_of, with_ahead};
ghost use Rattle.dap_json.specs.Writable.{is_plain_tree};
ghost use Rattle.dap_line.specs.Told.{ahead_with};

use crate::fed::{answer_fed, tell_fed};
use crate::lending::{numbers_in, push_new};
use crate::limits::limits_are_in_range;
use crate::messages::push_messages;
use crate::offers::{OffersFault, read_offers};
use dap_adapter::{
    Adapter, AdapterFault, AskFault, EmitFault, Lent, Outcome, Phase, RespondFault,
    bodies_come_one_by_one,
};
use dap_debuggee::{Category, State};
use dap_frame::Limits;
use dap_json::object_reader::Scratch;
use dap_json::{More, Text, Tree};
use dap_line::{
    HostKey, Note, Refusal, Said, Told, Unread, body_refusal, coming_of, happening_in, push_acts,
    push_refusal, push_target, read_said,
};
use dap_live::{Ahead, Coming, Dropped, HostAct, Live, why_dropped};
use dap_recording::{RecordingFault, Sources, Texts, piece_length};
use std::alloc::{AllocError, Global};
use std::marker::Model;

/// Room for a message of the greatest body, and the mark before it: 16777218 bytes.
pub const LONGEST_LINE: usize = 16777218;

/// For so many bytes of moments texts are kept that later ones share.
const TEXT_BYTES: usize = 1048576;

/// Why a file is none that a host begins with.
#[derive(Debug, Drop)]
pub enum FileFault {
    Sources(RecordingFault),
    Offers(OffersFault),
}

impl From<AllocError> for FileFault {
    ghost use Rattle.std.specs.Prelude.{◌≡◌};
    ghost use Rattle.dap_host.specs.declared.host.FileFault.{FileFault};
    ghost use Rattle.dap_recording.specs.declared.reading.RecordingFault.{RecordingFault};

    ghost from_gives = { λ _ fault. fault ≡ FileFault.Sources RecordingFault.OutOfMemory };

    fn from(_: AllocError) -> FileFault {
        FileFault::Sources(RecordingFault::OutOfMemory)
    }
}

/// Where what a line says goes, by its first two bytes.
#[derive(Clone, Copy)]
pub(crate) enum Mark {
    Message,
    Happening,
    None,
}

fn mark_of(line: &[u8]) -> Mark
    ensures { result ≡ mark_of line.now }
{
    if line.starts_with(b"> ") {
        return Mark::Message;
    }
    if line.starts_with(b"! ") {
        return Mark::Happening;
    }
    Mark::None
}

/// What is behind a mark.
fn behind_mark(line: &[u8]) -> &[u8]
    ensures { result.now ≡ drop 2 line.now }
{
    match line {
        [_, _, rest @ ..] => rest,
        _ => &[],
    }
}

/// Why an event is not told, as a line's refusal; `None` where memory was refused.
fn emit_refusal(fault: EmitFault) -> Option<Refusal>
    ensures { result ≡ emit_refusal fault }
{
    match fault {
        EmitFault::Closed => Some(Refusal::Ended),
        EmitFault::WrongPhase => Some(Refusal::Dropped(Dropped::OutOfTurn)),
        EmitFault::Reserved => Some(Refusal::BadKey(HostKey::Event)),
        EmitFault::TooLarge => Some(Refusal::BodyTooLong),
        EmitFault::SeqExhausted => Some(Refusal::SeqExhausted),
        EmitFault::OutOfMemory => None,
    }
}

/// Why a lent request is not answered, as a line's refusal; `None` where memory was refused.
fn respond_refusal(fault: RespondFault) -> Option<Refusal>
    ensures { result ≡ respond_refusal fault }
{
    match fault {
        RespondFault::Closed => Some(Refusal::Ended),
        RespondFault::NotLent => Some(Refusal::NotLent),
        RespondFault::TooLarge => Some(Refusal::BodyTooLong),
        RespondFault::SeqExhausted => Some(Refusal::SeqExhausted),
        RespondFault::OutOfMemory => None,
    }
}

/// Why the client is not asked, as a line's refusal: `BadKey` where the name is too long; `None` where memory was refused.
fn ask_refusal(fault: AskFault) -> Option<Refusal>
    ensures { result ≡ ask_refusal fault }
{
    match fault {
        AskFault::Closed => Some(Refusal::Ended),
        AskFault::WrongPhase => Some(Refusal::Dropped(Dropped::OutOfTurn)),
        AskFault::BadName => Some(Refusal::BadKey(HostKey::Ask)),
        AskFault::Full => Some(Refusal::Full),
        AskFault::TooLarge => Some(Refusal::BodyTooLong),
        AskFault::SeqExhausted => Some(Refusal::SeqExhausted),
        AskFault::OutOfMemory => None,
    }
}

fn is_ended(phase: Phase) -> bool
    ensures { result ≡ is_phase Phase.Ended phase }
{
    matches!(phase, Phase::Ended)
}

/// Where the debuggee is that is in a run; else there is none to ask.
fn state_in(phase: Phase) -> Option<State>
    ensures { result ≡ state_of phase }
{
    match phase {
        Phase::Running => Some(State::Running),
        Phase::Stopped => Some(State::Stopped),
        _ => None,
    }
}

/// Why what is told is dropped in a phase.
fn dropped_in(alloc: Global, phase: Phase, told: &Told) -> Result<Option<Dropped>, AllocError>
    ensures { IfOk result (λ dropped. dropped ≡ drop_of phase told.now) }
{
    match state_in(phase) {
        None => Ok(Some(Dropped::OutOfTurn)),
        Some(state) => Ok(why_dropped(state, &happening_in(alloc, told)?)),
    }
}

/// An adapter over a debuggee that a host feeds by lines.
#[derive(Drop)]
pub struct Host {
    adapter: Adapter<Live>,
    /// Those of moments, which later ones share.
    texts: Texts,
    limits: Limits,
    /// The most bytes that a line may have.
    longest: usize,
    /// How many lines came.
    number: u64,
    /// What was said of the next message.
    ahead: Ahead,
    /// For what lines say.
    scratch: Scratch,
}

impl Model for Host {
    ghost use Rattle.std.specs.Coded.{codes};
    ghost use Rattle.dap_json.specs.Stored.{coded_data};
    ghost use Rattle.dap_host.specs.Hearing.{HostState};

    ghost Value = { HostState };

    ghost coded = { Prim.hlevel (codes, coded_data) };

    ghost view = { λ h. record { adapter = h.adapter; limits = h.limits; longest = h.longest; number = h.number; ahead = h.ahead } };
}

impl Host {
    ghost use Rattle.std.specs.Prelude.{◌≡◌, ◌≢◌, ◌↔◌, ◌<◌, ◌++◌, ◌∷◌, [], List, ℕ, length, IfOk, IfErr, OnOk, OnErr, IfSome, IsTrue, None, Ok, Err, true, false};
    ghost use Rattle.dap_host.specs.Hearing.{IsFresh, IsGoing, RefusesMessage, TakesMessage, Comes, HearsTold, IsUnheard, AnswersMessage, dropped_line, TellsIt, TellsUntil, TellsOrDrops, StopsMessage, StopsTelling, StopsWithin, HearsMessage, HearsHappening, EmitsOrRefuses, AnswersOrRefuses, AsksOrRefuses, HearsMarked, StopsMarked, HearsText, Hears, HearsLonger, Halts, RefusesFile, counted};
    ghost use Rattle.dap_host.specs.Parts.{parts_of, outputs, outputs_alone, texts_told};
    ghost use Rattle.dap_line.specs.Moments.{HasRoom};
    ghost use Rattle.dap_live.specs.declared.mail.Coming.TheVariants as news;
    ghost use Rattle.dap_recording.specs.Pieces.{pieces};
    ghost use Rattle.dap_line.specs.Told.{said_of};
    ghost use Rattle.dap_line.specs.Written.{message_lines, refusal_line, target_line};
    ghost use Rattle.dap_line.specs.declared.told.Said.{Said};
    ghost use Rattle.dap_tables.specs.References.{target_of};
    ghost use Rattle.dap_envelope.specs.declared.message.Message.{Message};
    ghost use Rattle.dap_outbox.specs.Draft.{bytes_of};
    ghost use Rattle.dap_message.specs.MessageParts.{is_plain_outcome};
    ghost use Rattle.dap_message.specs.declared.outcome.Outcome.{Outcome};
    ghost use Rattle.dap_plan.specs.Polling.{has_debuggee};

    /// A host of a debuggee that is not started. The bytes are a JSON object with the `sources` of a recording; a recording is one,
    /// and what else it has is not looked at. A line may have so many bytes as `longest` says; [`LONGEST_LINE`] has room for the
    /// greatest message.
    ///
    /// What it offers is what stands at `offers` in the same object, and what is opened at `open`, as `read_offers` has it.
    ///
    /// # Errors
    /// `Sources` with the faults of `Sources::of_file`, and with `OutOfMemory` where memory is refused to the adapter; `Offers` with
    /// those of `read_offers`, where the sources are good.
    pub fn open(
        alloc: Global,
        limits: Limits,
        longest: usize,
        bytes: &[u8],
    ) -> Result<Host, FileFault>
        ensures fresh { IfOk result (IsFresh limits longest bytes.now) }
        ensures going { IfOk result IsGoing }
        ensures refused { IfErr result (RefusesFile limits bytes.now) }
    {
        // For the proof: no message is under way.
        limits_are_in_range(&limits);
        bodies_come_one_by_one::<Live>();
        let mut texts = Texts::new(alloc, TEXT_BYTES)?;
        let sources = match Sources::of_file(&mut texts, bytes) {
            Ok(sources) => sources,
            Err(fault) => return Err(FileFault::Sources(fault)),
        };
        let offers = match read_offers(alloc, limits, bytes) {
            Ok(offers) => offers,
            Err(fault) => return Err(FileFault::Offers(fault)),
        };
        let live = Live::open(alloc, sources);
        let adapter = Adapter::open_with(alloc, limits, live, offers)?;
        Ok(Host {
            adapter,
            texts,
            limits,
            longest,
            number: 0,
            ahead: Ahead::none(),
            scratch: Scratch::new(alloc),
        })
    }

    /// Hears a line, without the line feed at its end, and appends the lines that are due then to `out`. A line without bytes is
    /// skipped, and one with too many refused; lines are counted from 1, also those.
    ///
    /// # Errors
    /// Those of `Adapter::answer` and `Adapter::tell`, where the adapter is closed: then the lines of what was made before are
    /// appended. `OutOfMemory` too where memory is refused for a line: then a part of the lines may be appended.
    pub fn line(
        &mut self,
        alloc: Global,
        line: &[u8],
        out: &mut Vec<u8>,
    ) -> Result<(), AdapterFault>
        requires { IsGoing self.old }
        ensures hears { OnOk result (Hears self.old line.now out.old.items out.new.items self.new) }
        ensures going { OnOk result (IsGoing self.new) }

        // Why it stops.
        ensures stops { IfErr result (Halts self.old line.now out.old.items out.new.items self.new) }
    {
        if line.len() > self.longest() {
            return self.hear_too_long(out);
        }
        self.hear_text(alloc, line, out)
    }

    /// The most bytes that a line may have.
    pub fn longest(&self) -> usize
        ensures { result ≡ self.now.longest }
    {
        self.longest
    }

    /// Hears a line that is not too long.
    fn hear_text(
        &mut self,
        alloc: Global,
        line: &[u8],
        out: &mut Vec<u8>,
    ) -> Result<(), AdapterFault>
        requires { IsGoing self.old }
        ensures hears { OnOk result (HearsText self.old line.now out.old.items out.new.items self.new) }
        ensures going { OnOk result (IsGoing self.new) }
        ensures stops { IfErr result (λ fault. fault ≢ AdapterFault.OutOfMemory → StopsMarked (mark_of line.now) (counted self.old) (drop 2 line.now) out.old.items out.new.items self.new fault) }
    {
        self.number = self.number.saturating_add(1);
        if line.is_empty() {
            return Ok(());
        }
        self.hear(alloc, line, out)
    }

    /// Hears a line with more bytes than a line may have, of which nothing has to be kept: it is refused, and counted.
    ///
    /// # Errors
    /// `OutOfMemory` alone: then a part of the refusal may be appended.
    pub fn hear_too_long(&mut self, out: &mut Vec<u8>) -> Result<(), AdapterFault>
        requires { IsGoing self.old }
        ensures hears { OnOk result (HearsLonger self.old out.old.items out.new.items self.new) }
        ensures going { OnOk result (IsGoing self.new) }
        ensures memory { IfErr result (λ fault. fault ≡ AdapterFault.OutOfMemory) }
    {
        self.number = self.number.saturating_add(1);
        self.refuse(Refusal::TooLong, out)
    }

    /// Hears a line that has bytes, and is counted.
    fn hear(&mut self, alloc: Global, line: &[u8], out: &mut Vec<u8>) -> Result<(), AdapterFault>
        requires { IsGoing self.old }
        ensures hears { OnOk result (HearsMarked (mark_of line.now) self.old (drop 2 line.now) out.old.items out.new.items self.new) }
        ensures going { OnOk result (IsGoing self.new) }
        ensures stops { IfErr result (λ fault. fault ≢ AdapterFault.OutOfMemory → StopsMarked (mark_of line.now) self.old (drop 2 line.now) out.old.items out.new.items self.new fault) }
    {
        match mark_of(line) {
            Mark::Message => self.hear_message(alloc, behind_mark(line), out),
            Mark::Happening => self.hear_happening(alloc, behind_mark(line), out),
            Mark::None => self.refuse(Refusal::BadLine, out),
        }
    }

    /// Refuses the line.
    fn refuse(&self, why: Refusal, out: &mut Vec<u8>) -> Result<(), AdapterFault>
        ensures refused { OnOk result (out.new.items ≡ out.old.items ++ refusal_line self.now.number why) }
        ensures memory { IfErr result (λ fault. fault ≡ AdapterFault.OutOfMemory) }
    {
        match push_refusal(out, self.number, why) {
            Ok(()) => Ok(()),
            Err(_) => Err(AdapterFault::OutOfMemory),
        }
    }

    /// Why a message of the client is refused, before it is handed to the adapter.
    fn refusal_of(&mut self, alloc: Global, body: &[u8]) -> Result<Option<Refusal>, AllocError>
        ensures refused { IfOk result (λ refusal. IfSome refusal (RefusesMessage self.old body.now)) }
        ensures taken { IfOk result (λ refusal. refusal ≡ None → TakesMessage self.old body.now) }
        ensures same { self.new ≡ self.old }
    {
        if let Some(cause) = body_refusal(alloc, &mut self.scratch, body)? {
            return Ok(Some(Refusal::Body(cause)));
        }
        if body.len() > self.limits.body() {
            return Ok(Some(Refusal::BodyTooLong));
        }
        if is_ended(self.adapter.phase()) {
            return Ok(Some(Refusal::Ended));
        }
        Ok(None)
    }

    /// Hears a message of the client.
    fn hear_message(
        &mut self,
        alloc: Global,
        body: &[u8],
        out: &mut Vec<u8>,
    ) -> Result<(), AdapterFault>
        requires { IsGoing self.old }
        ensures hears { OnOk result (HearsMessage self.old body.now out.old.items out.new.items self.new) }
        ensures going { OnOk result (IsGoing self.new) }
        ensures stops { IfErr result (λ fault. fault ≢ AdapterFault.OutOfMemory → TakesMessage self.old body.now × StopsMessage self.old body.now out.old.items out.new.items self.new fault) }
    {
        match self.refusal_of(alloc, body) {
            Ok(None) => self.answer(alloc, body, out),
            Ok(Some(why)) => self.refuse(why, out),
            Err(_) => Err(AdapterFault::OutOfMemory),
        }
    }

    /// Hands a message to the adapter.
    fn answer(&mut self, alloc: Global, body: &[u8], out: &mut Vec<u8>) -> Result<(), AdapterFault>
        requires going { IsGoing self.old }
        requires takes { TakesMessage self.old body.now }
        ensures answers { OnOk result (AnswersMessage self.old body.now out.old.items out.new.items self.new) }
        ensures going { OnOk result (IsGoing self.new) }
        ensures stops { IfErr result (λ fault. fault ≢ AdapterFault.OutOfMemory → StopsMessage self.old body.now out.old.items out.new.items self.new fault) }
    {
        // For the proof: a body is one message.
        limits_are_in_range(&self.limits);
        bodies_come_one_by_one::<Live>();
        let Ok(before) = numbers_in(alloc, self.adapter.lent()) else {
            return Err(AdapterFault::OutOfMemory);
        };
        let mut bytes = Vec::new(alloc);
        let ahead = std::mem::replace(&mut self.ahead, Ahead::none());
        match answer_fed(alloc, &mut self.adapter, ahead, body, &mut bytes) {
            Ok(acts) => hand_out(alloc, &bytes, &acts, &before, self.adapter.lent(), out),
            Err(fault) => Err(break_off(&bytes, fault, out)),
        }
    }

    /// What comes by what a host tells by a text.
    fn coming_in(&mut self, alloc: Global, _text: &[u8], told: Told) -> Result<Coming, Unread>
        requires { said_of _text.now ≡ Ok (Said.Happened told) }
        ensures comes { IfOk result (Comes self.old _text.now) }
        ensures refused { IfErr result (IsUnheard self.old _text.now) }
        ensures same { self.new ≡ self.old }
    {
        match dropped_in(alloc, self.adapter.phase(), &told) {
            Ok(None) => coming_of(&mut self.texts, self.adapter.debuggee().sources(), told),
            Ok(Some(why)) => Err(Unread::Refused(Refusal::Dropped(why))),
            Err(_) => Err(Unread::OutOfMemory),
        }
    }

    /// Hears what happened.
    fn hear_happening(
        &mut self,
        alloc: Global,
        text: &[u8],
        out: &mut Vec<u8>,
    ) -> Result<(), AdapterFault>
        requires { IsGoing self.old }
        ensures hears { OnOk result (HearsHappening self.old text.now out.old.items out.new.items self.new) }
        ensures going { OnOk result (IsGoing self.new) }
        ensures stops { IfErr result (λ fault. fault ≢ AdapterFault.OutOfMemory → (coming : Coming) × HearsTold self.old text.now coming × StopsWithin self.old (parts_of coming) out.old.items out.new.items self.new fault) }
    {
        match read_said(alloc, &mut self.scratch, text) {
            Ok(Said::Happened(told)) => self.hear_told(alloc, text, told, out),
            Ok(Said::Event { event, body }) => self.emit(alloc, &event, &body, out),
            Ok(Said::Answer { seq, outcome }) => self.respond(alloc, seq, &outcome, out),
            Ok(Said::Ask { command, arguments }) => self.ask(alloc, &command, arguments, out),
            Ok(Said::OfNext(note)) => {
                self.keep_note(note);
                Ok(())
            }
            Ok(Said::Target(number)) => self.answer_target(alloc, number, out),
            Err(Unread::Refused(why)) => self.refuse(why, out),
            Err(Unread::OutOfMemory) => Err(AdapterFault::OutOfMemory),
        }
    }

    /// Lets the adapter tell an event by its name, or refuses the line.
    fn emit(
        &mut self,
        alloc: Global,
        event: &Text,
        body: &Option<Tree>,
        out: &mut Vec<u8>,
    ) -> Result<(), AdapterFault>
        requires going { IsGoing self.old }
        requires plain { IsTrue (is_plain_tree body.now) }
        ensures emits { OnOk result (EmitsOrRefuses self.old event.now body.now out.old.items out.new.items self.new) }
        ensures going { OnOk result (IsGoing self.new) }
        ensures memory { IfErr result (λ fault. fault ≡ AdapterFault.OutOfMemory) }
    {
        // For the proof: no message is under way.
        bodies_come_one_by_one::<Live>();
        let mut bytes = Vec::new(alloc);
        match self.adapter.emit(alloc, event.as_str(), body, &mut bytes) {
            Ok(()) => match push_messages(&bytes, out) {
                Ok(()) => Ok(()),
                Err(_) => Err(AdapterFault::OutOfMemory),
            },
            Err(fault) => match emit_refusal(fault) {
                Some(why) => self.refuse(why, out),
                None => Err(AdapterFault::OutOfMemory),
            },
        }
    }

    /// Lets the adapter answer a lent request, or refuses the line.
    fn respond(
        &mut self,
        alloc: Global,
        seq: u64,
        outcome: &Outcome,
        out: &mut Vec<u8>,
    ) -> Result<(), AdapterFault>
        requires going { IsGoing self.old }
        requires plain { IsTrue (is_plain_outcome outcome.now) }
        ensures answers { OnOk result (AnswersOrRefuses self.old seq outcome.now out.old.items out.new.items self.new) }
        ensures going { OnOk result (IsGoing self.new) }
        ensures memory { IfErr result (λ fault. fault ≡ AdapterFault.OutOfMemory) }
    {
        // For the proof: no message is under way.
        bodies_come_one_by_one::<Live>();
        let mut bytes = Vec::new(alloc);
        match self.adapter.respond(alloc, seq, outcome, &mut bytes) {
            Ok(()) => match push_messages(&bytes, out) {
                Ok(()) => Ok(()),
                Err(_) => Err(AdapterFault::OutOfMemory),
            },
            Err(fault) => match respond_refusal(fault) {
                Some(why) => self.refuse(why, out),
                None => Err(AdapterFault::OutOfMemory),
            },
        }
    }

    /// Lets the adapter ask the client by a request of any name, or refuses the line for the first of these that holds:
    /// `OutOfTurn` before `initialize` is answered and after `disconnect` is; `BadKey ask` where the name has more than 64 bytes;
    /// `Full` where as many such requests wait for a response as may; `BodyTooLong`; `SeqExhausted`.
    fn ask(
        &mut self,
        alloc: Global,
        command: &Text,
        arguments: Option<Tree>,
        out: &mut Vec<u8>,
    ) -> Result<(), AdapterFault>
        requires going { IsGoing self.old }
        requires plain { IsTrue (is_plain_tree arguments) }
        ensures asks { OnOk result (AsksOrRefuses self.old command.now arguments out.old.items out.new.items self.new) }
        ensures going { OnOk result (IsGoing self.new) }
        ensures memory { IfErr result (λ fault. fault ≡ AdapterFault.OutOfMemory) }
    {
        // For the proof: no message is under way.
        bodies_come_one_by_one::<Live>();
        let mut bytes = Vec::new(alloc);
        match self
            .adapter
            .ask(alloc, command.as_str(), arguments, &mut bytes)
        {
            Ok(_seq) => match push_messages(&bytes, out) {
                Ok(()) => Ok(()),
                Err(_) => Err(AdapterFault::OutOfMemory),
            },
            Err(fault) => match ask_refusal(fault) {
                Some(why) => self.refuse(why, out),
                None => Err(AdapterFault::OutOfMemory),
            },
        }
    }

    /// Keeps what is said of the next message.
    fn keep_note(&mut self, note: Note)
        ensures { self.new ≡ with_ahead (ahead_with note self.old.ahead) self.old }
    {
        note.keep_in(&mut self.ahead);
    }

    /// Answers what a number of the client names.
    fn answer_target(
        &self,
        alloc: Global,
        number: u32,
        out: &mut Vec<u8>,
    ) -> Result<(), AdapterFault>
        ensures answered { OnOk result (out.new.items ≡ out.old.items ++ target_line number (target_of self.now.adapter.session.references number)) }
        ensures memory { IfErr result (λ fault. fault ≡ AdapterFault.OutOfMemory) }
    {
        let target = self.adapter.target(number).copied();
        match push_target(alloc, out, number, target) {
            Ok(()) => Ok(()),
            Err(_) => Err(AdapterFault::OutOfMemory),
        }
    }

    /// Hears what happened by a text, as it is read.
    fn hear_told(
        &mut self,
        alloc: Global,
        text: &[u8],
        told: Told,
        out: &mut Vec<u8>,
    ) -> Result<(), AdapterFault>
        requires going { IsGoing self.old }
        requires is { said_of text.now ≡ Ok (Said.Happened told) }
        ensures hears { OnOk result (HearsHappening self.old text.now out.old.items out.new.items self.new) }
        ensures going { OnOk result (IsGoing self.new) }
        ensures stops { IfErr result (λ fault. fault ≢ AdapterFault.OutOfMemory → (coming : Coming) × HearsTold self.old text.now coming × StopsWithin self.old (parts_of coming) out.old.items out.new.items self.new fault) }
    {
        match self.coming_in(alloc, text, told) {
            Ok(coming) => self.hear_coming(alloc, text, coming, out),
            Err(Unread::Refused(why)) => self.refuse(why, out),
            Err(Unread::OutOfMemory) => Err(AdapterFault::OutOfMemory),
        }
    }

    /// Hears what comes by a text, if there is room for it.
    fn hear_coming(
        &mut self,
        alloc: Global,
        _text: &[u8],
        coming: Coming,
        out: &mut Vec<u8>,
    ) -> Result<(), AdapterFault>
        requires going { IsGoing self.old }
        requires comes { Comes self.old _text.now coming }
        ensures hears { OnOk result (HearsHappening self.old _text.now out.old.items out.new.items self.new) }
        ensures going { OnOk result (IsGoing self.new) }
        ensures stops { IfErr result (λ fault. fault ≢ AdapterFault.OutOfMemory → HearsTold self.old _text.now coming × StopsWithin self.old (parts_of coming) out.old.items out.new.items self.new fault) }
    {
        if !self.has_room(&coming) {
            return self.refuse(Refusal::Dropped(Dropped::TooManySources), out);
        }
        self.tell_or_refuse(alloc, coming, out)
    }

    /// Whether there is room for sources that come.
    fn has_room(&self, coming: &Coming) -> bool
        ensures { IsTrue result ↔ HasRoom self.now.adapter.debuggee.sources coming.now }
    {
        match coming {
            Coming::Sources(more) => self.adapter.debuggee().sources().has_room(more),
            _ => true,
        }
    }

    /// Refuses the line, where the debuggee dropped what it told.
    fn refuse_dropped(
        &self,
        dropped: Option<Dropped>,
        out: &mut Vec<u8>,
    ) -> Result<(), AdapterFault>
        ensures says { OnOk result (out.new.items ≡ out.old.items ++ dropped_line self.now.number dropped) }
        ensures memory { IfErr result (λ fault. fault ≡ AdapterFault.OutOfMemory) }
    {
        match dropped {
            Some(why) => self.refuse(Refusal::Dropped(why), out),
            None => Ok(()),
        }
    }

    /// Lets the adapter tell what happened, part by part, and refuses the line where one is dropped after all.
    fn tell_or_refuse(
        &mut self,
        alloc: Global,
        coming: Coming,
        out: &mut Vec<u8>,
    ) -> Result<(), AdapterFault>
        requires going { IsGoing self.old }
        requires in_a_run { has_debuggee self.old.adapter.session.phase ≡ true }
        ensures tells { OnOk result (TellsOrDrops self.old (parts_of coming) out.old.items out.new.items self.new) }
        ensures going { OnOk result (IsGoing self.new) }
        ensures stops { IfErr result (λ fault. fault ≢ AdapterFault.OutOfMemory → StopsWithin self.old (parts_of coming) out.old.items out.new.items self.new fault) }
    {
        let dropped = self.tell_parts(alloc, coming, out)?;
        self.refuse_dropped(dropped, out)
    }

    /// Lets the adapter tell what happened, output in pieces: why a part is dropped, if one is. None is told behind it.
    fn tell_parts(
        &mut self,
        alloc: Global,
        coming: Coming,
        out: &mut Vec<u8>,
    ) -> Result<Option<Dropped>, AdapterFault>
        requires going { IsGoing self.old }
        requires in_a_run { has_debuggee self.old.adapter.session.phase ≡ true }
        ensures tells { IfOk result (TellsUntil self.old (parts_of coming) out.old.items out.new.items self.new) }
        ensures going { OnOk result (IsGoing self.new) }
        ensures stops { IfErr result (λ fault. fault ≢ AdapterFault.OutOfMemory → StopsWithin self.old (parts_of coming) out.old.items out.new.items self.new fault) }
    {
        match coming {
            Coming::Output {
                category,
                text,
                more,
            } => self.tell_output(alloc, &category, text.as_str(), more, out),
            whole => self.tell(alloc, whole, out),
        }
    }

    /// Lets the adapter tell output, with what stands beside it beside the first piece.
    fn tell_output(
        &mut self,
        alloc: Global,
        category: &Category,
        text: &str,
        more: More,
        out: &mut Vec<u8>,
    ) -> Result<Option<Dropped>, AdapterFault>
        requires going { IsGoing self.old }
        requires in_a_run { has_debuggee self.old.adapter.session.phase ≡ true }
        ensures tells { IfOk result (TellsUntil self.old (outputs category.now more (texts_told text.now)) out.old.items out.new.items self.new) }
        ensures going { OnOk result (IsGoing self.new) }
        ensures stops { IfErr result (λ fault. fault ≢ AdapterFault.OutOfMemory → StopsWithin self.old (outputs category.now more (texts_told text.now)) out.old.items out.new.items self.new fault) }
    {
        let (piece, rest) = text.split_at(piece_length(text));
        match self.tell_piece(alloc, category, piece, more, out) {
            Ok(None) => self.tell_rest(alloc, category, rest, out),
            Ok(Some(why)) => Ok(Some(why)),
            Err(fault) => Err(fault),
        }
    }

    /// Lets the adapter tell the pieces of output behind the first.
    fn tell_rest(
        &mut self,
        alloc: Global,
        category: &Category,
        text: &str,
        out: &mut Vec<u8>,
    ) -> Result<Option<Dropped>, AdapterFault>
        requires going { IsGoing self.old }
        requires in_a_run { has_debuggee self.old.adapter.session.phase ≡ true }
        ensures tells { IfOk result (TellsUntil self.old (outputs_alone category.now (pieces (text.now ∷ []))) out.old.items out.new.items self.new) }
        ensures going { OnOk result (IsGoing self.new) }
        ensures stops { IfErr result (λ fault. fault ≢ AdapterFault.OutOfMemory → StopsWithin self.old (outputs_alone category.now (pieces (text.now ∷ []))) out.old.items out.new.items self.new fault) }
    {
        let mut left = text;
        while !left.is_empty() {
            let (piece, rest) = left.split_at(piece_length(left));
            match self.tell_piece(alloc, category, piece, More::none(), out) {
                Ok(None) => {}
                Ok(Some(why)) => return Ok(Some(why)),
                Err(fault) => return Err(fault),
            }
            left = rest;
        }
        Ok(None)
    }

    /// Lets the adapter tell a piece of output: why it is dropped, if it is.
    fn tell_piece(
        &mut self,
        alloc: Global,
        category: &Category,
        piece: &str,
        more: More,
        out: &mut Vec<u8>,
    ) -> Result<Option<Dropped>, AdapterFault>
        requires going { IsGoing self.old }
        requires in_a_run { has_debuggee self.old.adapter.session.phase ≡ true }
        ensures tells { IfOk result (λ dropped. TellsIt self.old (news.Output category.now piece.now more) dropped out.old.items out.new.items self.new) }
        ensures going { OnOk result (IsGoing self.new) }
        ensures in_a_run { OnOk result (has_debuggee self.new.adapter.session.phase ≡ true) }
        ensures stops { IfErr result (λ fault. fault ≢ AdapterFault.OutOfMemory → StopsTelling self.old (news.Output category.now piece.now more) out.old.items out.new.items self.new fault) }
    {
        let Ok(text) = Text::copied(alloc, piece) else {
            return Err(AdapterFault::OutOfMemory);
        };
        let Ok(category) = category.clone() else {
            return Err(AdapterFault::OutOfMemory);
        };
        let coming = Coming::Output {
            category,
            text,
            more,
        };
        self.tell(alloc, coming, out)
    }

    /// Lets the adapter tell what happened: why it is dropped, if it is.
    fn tell(
        &mut self,
        alloc: Global,
        coming: Coming,
        out: &mut Vec<u8>,
    ) -> Result<Option<Dropped>, AdapterFault>
        requires going { IsGoing self.old }
        requires in_a_run { has_debuggee self.old.adapter.session.phase ≡ true }
        ensures tells { IfOk result (λ dropped. TellsIt self.old coming dropped out.old.items out.new.items self.new) }
        ensures going { OnOk result (IsGoing self.new) }
        ensures stops { IfErr result (λ fault. fault ≢ AdapterFault.OutOfMemory → StopsTelling self.old coming out.old.items out.new.items self.new fault) }
    {
        // For the proof: no message is under way.
        bodies_come_one_by_one::<Live>();
        let mut bytes = Vec::new(alloc);
        match tell_fed(alloc, &mut self.adapter, coming, &mut bytes) {
            Ok(dropped) => match push_messages(&bytes, out) {
                Ok(()) => Ok(dropped),
                Err(_) => Err(AdapterFault::OutOfMemory),
            },
            Err(fault) => Err(break_off(&bytes, fault, out)),
        }
    }
}

/// Appends the lines of what the debugger has to do, and of the requests that are lent, and were not before.
fn push_due(
    alloc: Global,
    acts: &[HostAct],
    before: &[u64],
    lent: Lent<'_>,
    out: &mut Vec<u8>,
) -> Result<(), AllocError>
    ensures { OnOk result (out.new.items ≡ out.old.items ++ (act_lines acts.now ++ lent_lines (new_numbers before.now (numbers_in lent.entry)))) }
{
    push_acts(alloc, out, acts)?;
    push_new(out, before, lent)
}

/// Appends the lines of what the adapter wrote, and of what the host has to do.
fn hand_out(
    alloc: Global,
    bytes: &[u8],
    acts: &[HostAct],
    before: &[u64],
    lent: Lent<'_>,
    out: &mut Vec<u8>,
) -> Result<(), AdapterFault>
    ensures out { OnOk result ((outs : List Message) → bytes.now ≡ bytes_of outs → out.new.items ≡ out.old.items ++ (message_lines outs ++ (act_lines acts.now ++ lent_lines (new_numbers before.now (numbers_in lent.entry))))) }
    ensures memory { IfErr result (λ fault. fault ≡ AdapterFault.OutOfMemory) }
{
    if push_messages(bytes, out).is_err() {
        return Err(AdapterFault::OutOfMemory);
    }
    match push_due(alloc, acts, before, lent, out) {
        Ok(()) => Ok(()),
        Err(_) => Err(AdapterFault::OutOfMemory),
    }
}

/// Appends the lines of what the adapter wrote before a fault, and answers why it stops.
fn break_off(bytes: &[u8], fault: AdapterFault, out: &mut Vec<u8>) -> AdapterFault
    ensures is { result ≢ AdapterFault.OutOfMemory → result ≡ fault }
    ensures out { result ≢ AdapterFault.OutOfMemory → (outs : List Message) → bytes.now ≡ bytes_of outs → out.new.items ≡ out.old.items ++ message_lines outs }
{
    match push_messages(bytes, out) {
        Ok(()) => fault,
        Err(_) => AdapterFault::OutOfMemory,
    }
}
