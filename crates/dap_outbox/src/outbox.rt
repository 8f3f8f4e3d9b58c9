//! A buffer that is lent, with messages of a step behind what it had before.
ghost use Rattle.std.specs.Prelude.{◌≡◌, ◌+◌, ◌<◌, ◌≤◌, ◌++◌, length, IfOk, OnOk, OnErr, IsTrue, false};
ghost use Rattle.dap_outbox.specs.Draft.{ask};
ghost use Rattle.dap_outbox.specs.Outbox.{event_of, IsReady, AppendsDraft, HoldsNone, AppendsReply, AppendsEvent, EmitsIfFits, EmitsNamedIfFits, answer_fits, AnswersIfFits, explanation_fits, explanation_fits_as, ExplainsIfFits, outcome_fits, RespondsIfFits, AppendsAnswer, request_fits, AsksNamedIfFits};
ghost use Rattle.dap_json.specs.Field.{max_seq};
ghost use Rattle.dap_json.specs.Writable.{is_plain_tree};
ghost use Rattle.dap_message.specs.Lengths.{max_fixed, IsWithin, event_fits};
ghost use Rattle.dap_message.specs.MessageParts.{is_plain_outcome, named};

use crate::answer::{Answer, Event};
use crate::texts::{
    append_named, append_named_request, append_reply, append_response, append_terminal,
    append_told, append_why,
};
use dap_body::Body;
use dap_debuggee::Explanation;
use dap_frame::frame_from;
use dap_json::Tree;
use dap_message::laws::fixed_messages_are_short;
use dap_message::{Outcome, append_answer};
use dap_tables::{Entry, Seq};
use std::alloc::{AllocError, Global};
use std::marker::Model;

/// A buffer, how many bytes it had before, and the own numbers that are left after the messages behind these.
#[derive(Drop)]
pub struct Outbox {
    buffer: Vec<u8>,
    start: usize,
    numbers: Seq,
}

impl Model for Outbox {
    ghost use Rattle.std.specs.Prelude.{◌≤◌, length};
    ghost use Rattle.dap_outbox.specs.Outbox.{OutboxState, state_of};

    ghost Value = { OutboxState };

    ghost view = { λ o. state_of o.start o.buffer.items o.numbers };

    ghost invariant = { λ o. o.start ≤ length o.buffer.items };
}

impl Outbox {
    /// No message yet, behind what the buffer has, with the numbers that are left.
    pub fn behind(buffer: Vec<u8>, numbers: Seq) -> Outbox
        ensures before { result.before ≡ buffer.items }
        ensures ready { IsReady result numbers }
        ensures holds { HoldsNone result numbers }
    {
        let start = buffer.len();
        Outbox {
            buffer,
            start,
            numbers,
        }
    }

    /// The numbers that are left.
    pub fn numbers(&self) -> Seq
        ensures numbers { result ≡ self.now.numbers }
        ensures used { result.used ≤ result.last }
    {
        // For the proof: no more were used than there are.
        let _ = self.numbers.left();
        self.numbers
    }

    /// The buffer, with the messages behind what it had before.
    pub fn into_buffer(self) -> Vec<u8>
        ensures { result.items ≡ self.before ++ self.bytes }
    {
        self.buffer
    }

    /// The buffer as it was before.
    pub fn into_front(self) -> Vec<u8>
        ensures { result.items ≡ self.before }
    {
        let Outbox { buffer, start, .. } = self;
        let mut buffer = buffer;
        buffer.truncate(start);
        buffer
    }

    /// The next number, and those after it.
    fn next(&self) -> (u64, Seq)
        requires { self.now.numbers.used < self.now.numbers.last }
        ensures number { result.0 ≡ self.now.numbers.used + 1 }
        ensures used { result.1.used ≡ self.now.numbers.used + 1 }
        ensures last { result.1.last ≡ self.now.numbers.last }
    {
        let mut numbers = self.numbers;
        match numbers.next() {
            Some(seq) => (seq, numbers),
            None => unreachable!(),
        }
    }

    /// Answers a request.
    pub fn reply(
        &mut self,
        alloc: Global,
        request: &Entry,
        answer: Answer,
    ) -> Result<(), AllocError>
        requires { self.old.numbers.used < self.old.numbers.last }
        ensures writes { OnOk result (AppendsReply self.old self.new request.now answer) }
        ensures before { self.new.before ≡ self.old.before }
        ensures err { OnErr result (self.new ≡ self.old) }
    {
        let (seq, numbers) = self.next();
        let end = self.buffer.len();
        append_reply(alloc, &mut self.buffer, seq, request, &answer)?;
        frame_from(&mut self.buffer, end)?;
        self.numbers = numbers;
        Ok(())
    }

    /// Answers a request with a body, of which the caller knows how long it may become.
    pub fn reply_with(
        &mut self,
        alloc: Global,
        request: &Entry,
        body: Option<Body>,
    ) -> Result<(), AllocError>
        requires { self.old.numbers.used < self.old.numbers.last }
        ensures writes { OnOk result (AppendsAnswer self.old self.new request.now body) }
        ensures before { self.new.before ≡ self.old.before }
        ensures err { OnErr result (self.new ≡ self.old) }
    {
        let (seq, numbers) = self.next();
        let end = self.buffer.len();
        let command = request.command.as_str();
        append_answer(alloc, &mut self.buffer, seq, request.seq, command, &body)?;
        frame_from(&mut self.buffer, end)?;
        self.numbers = numbers;
        Ok(())
    }

    /// Answers a request with a body, unless its message is longer than so many bytes: whether it was.
    pub fn reply_within(
        &mut self,
        alloc: Global,
        request: &Entry,
        body: Option<Body>,
        most: usize,
    ) -> Result<bool, AllocError>
        requires { self.old.numbers.used < self.old.numbers.last }
        ensures fits { IfOk result (λ ok. ok ≡ answer_fits most self.old request.now body) }
        ensures writes { IfOk result (AnswersIfFits most self.old self.new request.now body) }
        ensures before { self.new.before ≡ self.old.before }
        ensures too_long { IfOk result (λ ok. ok ≡ false → self.new ≡ self.old) }
        ensures err { OnErr result (self.new ≡ self.old) }
    {
        let (seq, numbers) = self.next();
        let end = self.buffer.len();
        let command = request.command.as_str();
        append_answer(alloc, &mut self.buffer, seq, request.seq, command, &body)?;
        if self.buffer.len() - end > most {
            self.buffer.truncate(end);
            return Ok(false);
        }
        frame_from(&mut self.buffer, end)?;
        self.numbers = numbers;
        Ok(true)
    }

    /// Answers a request that the debuggee refused with the failure `debuggee` and why, unless its message is longer than so many
    /// bytes: whether it was.
    pub fn explain_within(
        &mut self,
        alloc: Global,
        request: &Entry,
        told: &Explanation,
        most: usize,
    ) -> Result<bool, AllocError>
        requires { self.old.numbers.used < self.old.numbers.last }
        ensures fits { IfOk result (λ ok. ok ≡ explanation_fits most self.old request.now told.now) }
        ensures writes { IfOk result (ExplainsIfFits most self.old self.new request.now told.now) }
        ensures before { self.new.before ≡ self.old.before }
        ensures too_long { IfOk result (λ ok. ok ≡ false → self.new ≡ self.old) }
        ensures err { OnErr result (self.new ≡ self.old) }
    {
        let (seq, numbers) = self.next();
        let end = self.buffer.len();
        append_why(alloc, &mut self.buffer, seq, request, told)?;
        if self.buffer.len() - end > most {
            self.buffer.truncate(end);
            return Ok(false);
        }
        frame_from(&mut self.buffer, end)?;
        self.numbers = numbers;
        Ok(true)
    }

    /// Whether the failure with why, and with the own number `last`, has at most so many bytes. Nothing is written.
    pub(crate) fn can_explain(
        &mut self,
        alloc: Global,
        request: &Entry,
        told: &Explanation,
        last: u64,
        most: usize,
    ) -> Result<bool, AllocError>
        ensures fits { IfOk result (λ ok. ok ≡ explanation_fits_as last most request.now told.now) }
        ensures same { self.new ≡ self.old }
    {
        let end = self.buffer.len();
        append_why(alloc, &mut self.buffer, last, request, told)?;
        let bytes = self.buffer.len() - end;
        self.buffer.truncate(end);
        Ok(bytes <= most)
    }

    /// Tells an event with all that is said beside it, unless its message is longer than so many bytes: whether it was told.
    fn emit_if_fits(
        &mut self,
        alloc: Global,
        event: &Event,
        most: usize,
    ) -> Result<bool, AllocError>
        requires { self.old.numbers.used < self.old.numbers.last }
        ensures fits { IfOk result (λ ok. ok ≡ event_fits most (self.old.numbers.used + 1) (event_of event.now)) }
        ensures writes { IfOk result (EmitsIfFits most self.old self.new event.now) }
        ensures before { self.new.before ≡ self.old.before }
        ensures too_long { IfOk result (λ ok. ok ≡ false → self.new ≡ self.old) }
        ensures err { OnErr result (self.new ≡ self.old) }
    {
        let (seq, numbers) = self.next();
        let end = self.buffer.len();
        append_told(alloc, &mut self.buffer, seq, event)?;
        if self.buffer.len() - end > most {
            self.buffer.truncate(end);
            return Ok(false);
        }
        frame_from(&mut self.buffer, end)?;
        self.numbers = numbers;
        Ok(true)
    }

    /// Tells an event. What is said beside its own members is left out where its message would be longer than so many bytes.
    pub fn emit(&mut self, alloc: Global, event: Event, most: usize) -> Result<(), AllocError>
        requires left { self.old.numbers.used < self.old.numbers.last }
        requires last { self.old.numbers.last ≤ max_seq }
        requires short { IsWithin (event_of event) }
        requires room { max_fixed ≤ most }
        ensures writes { OnOk result (AppendsEvent most self.old self.new event) }
        ensures before { self.new.before ≡ self.old.before }
        ensures err { OnErr result (self.new ≡ self.old) }
    {
        fixed_messages_are_short();
        if self.emit_if_fits(alloc, &event, most)? {
            return Ok(());
        }
        if self.emit_if_fits(alloc, &event.alone(), most)? {
            return Ok(());
        }
        unreachable!()
    }

    /// Whether the message of such an event, with the own number `seq`, has at most so many bytes. Nothing is written.
    pub fn can_emit_named(
        &mut self,
        alloc: Global,
        event: &str,
        body: &Option<Tree>,
        seq: u64,
        most: usize,
    ) -> Result<bool, AllocError>
        requires plain { IsTrue (is_plain_tree body.now) }
        ensures fits { IfOk result (λ ok. ok ≡ event_fits most seq (named event.now body.now)) }
        ensures same { self.new ≡ self.old }
    {
        let end = self.buffer.len();
        append_named(alloc, &mut self.buffer, seq, event, body)?;
        let length = self.buffer.len() - end;
        self.buffer.truncate(end);
        Ok(length <= most)
    }

    /// Tells an event of any name, with a tree as its body, unless its message is longer than so many bytes: whether it was told.
    pub fn emit_named(
        &mut self,
        alloc: Global,
        event: &str,
        body: &Option<Tree>,
        most: usize,
    ) -> Result<bool, AllocError>
        requires left { self.old.numbers.used < self.old.numbers.last }
        requires plain { IsTrue (is_plain_tree body.now) }
        ensures fits { IfOk result (λ ok. ok ≡ event_fits most (self.old.numbers.used + 1) (named event.now body.now)) }
        ensures writes { IfOk result (EmitsNamedIfFits most self.old self.new event.now body.now) }
        ensures before { self.new.before ≡ self.old.before }
        ensures too_long { IfOk result (λ ok. ok ≡ false → self.new ≡ self.old) }
        ensures err { OnErr result (self.new ≡ self.old) }
    {
        let (seq, numbers) = self.next();
        let end = self.buffer.len();
        append_named(alloc, &mut self.buffer, seq, event, body)?;
        if self.buffer.len() - end > most {
            self.buffer.truncate(end);
            return Ok(false);
        }
        frame_from(&mut self.buffer, end)?;
        self.numbers = numbers;
        Ok(true)
    }

    /// Whether the response to a request that came out so, with the own number `seq`, has at most so many bytes. Nothing is written.
    pub fn can_respond(
        &mut self,
        alloc: Global,
        request: &Entry,
        outcome: &Outcome,
        seq: u64,
        most: usize,
    ) -> Result<bool, AllocError>
        requires plain { IsTrue (is_plain_outcome outcome.now) }
        ensures fits { IfOk result (λ ok. ok ≡ outcome_fits most seq request.now outcome.now) }
        ensures same { self.new ≡ self.old }
    {
        let end = self.buffer.len();
        append_response(alloc, &mut self.buffer, seq, request, outcome)?;
        let length = self.buffer.len() - end;
        self.buffer.truncate(end);
        Ok(length <= most)
    }

    /// Answers a request as it came out, unless the message is longer than so many bytes: whether it was answered.
    pub fn respond(
        &mut self,
        alloc: Global,
        request: &Entry,
        outcome: &Outcome,
        most: usize,
    ) -> Result<bool, AllocError>
        requires left { self.old.numbers.used < self.old.numbers.last }
        requires plain { IsTrue (is_plain_outcome outcome.now) }
        ensures fits { IfOk result (λ ok. ok ≡ outcome_fits most (self.old.numbers.used + 1) request.now outcome.now) }
        ensures writes { IfOk result (RespondsIfFits most self.old self.new request.now outcome.now) }
        ensures before { self.new.before ≡ self.old.before }
        ensures too_long { IfOk result (λ ok. ok ≡ false → self.new ≡ self.old) }
        ensures err { OnErr result (self.new ≡ self.old) }
    {
        let (seq, numbers) = self.next();
        let end = self.buffer.len();
        append_response(alloc, &mut self.buffer, seq, request, outcome)?;
        if self.buffer.len() - end > most {
            self.buffer.truncate(end);
            return Ok(false);
        }
        frame_from(&mut self.buffer, end)?;
        self.numbers = numbers;
        Ok(true)
    }

    /// Asks for a terminal: the number of the request.
    pub fn ask(&mut self, alloc: Global) -> Result<u64, AllocError>
        requires { self.old.numbers.used < self.old.numbers.last }
        ensures number { IfOk result (λ seq. seq ≡ self.old.numbers.used + 1) }
        ensures writes { OnOk result (AppendsDraft max_fixed self.old self.new ask) }
        ensures before { self.new.before ≡ self.old.before }
        ensures err { OnErr result (self.new ≡ self.old) }
    {
        let (seq, numbers) = self.next();
        let end = self.buffer.len();
        append_terminal(alloc, &mut self.buffer, seq)?;
        frame_from(&mut self.buffer, end)?;
        self.numbers = numbers;
        Ok(seq)
    }

    /// Whether a request of any name, with the own number `seq`, has at most so many bytes. Nothing is written.
    pub fn can_ask_named(
        &mut self,
        alloc: Global,
        command: &str,
        arguments: &Option<Tree>,
        seq: u64,
        most: usize,
    ) -> Result<bool, AllocError>
        requires plain { IsTrue (is_plain_tree arguments.now) }
        ensures fits { IfOk result (λ ok. ok ≡ request_fits most seq command.now arguments.now) }
        ensures same { self.new ≡ self.old }
    {
        let end = self.buffer.len();
        append_named_request(alloc, &mut self.buffer, seq, command, arguments)?;
        let length = self.buffer.len() - end;
        self.buffer.truncate(end);
        Ok(length <= most)
    }

    /// Asks the client by a request of any name, unless its message is longer than so many bytes: whether it was.
    pub fn ask_named(
        &mut self,
        alloc: Global,
        command: &str,
        arguments: &Option<Tree>,
        most: usize,
    ) -> Result<bool, AllocError>
        requires left { self.old.numbers.used < self.old.numbers.last }
        requires plain { IsTrue (is_plain_tree arguments.now) }
        ensures fits { IfOk result (λ ok. ok ≡ request_fits most (self.old.numbers.used + 1) command.now arguments.now) }
        ensures writes { IfOk result (AsksNamedIfFits most self.old self.new command.now arguments.now) }
        ensures before { self.new.before ≡ self.old.before }
        ensures too_long { IfOk result (λ ok. ok ≡ false → self.new ≡ self.old) }
        ensures err { OnErr result (self.new ≡ self.old) }
    {
        let (seq, numbers) = self.next();
        let end = self.buffer.len();
        append_named_request(alloc, &mut self.buffer, seq, command, arguments)?;
        if self.buffer.len() - end > most {
            self.buffer.truncate(end);
            return Ok(false);
        }
        frame_from(&mut self.buffer, end)?;
        self.numbers = numbers;
        Ok(true)
    }
}
