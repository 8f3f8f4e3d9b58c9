//! What comes of a message that is delivered.
ghost use Rattle.dap_session.specs.SessionCalls.{AddsIfTaken, LeavesSession, StaysUnasked, MayTakeMemory, RefusesTaking};
ghost use Rattle.std.specs.Prelude.{◌≡◌, ◌+◌, ◌≤◌, [], ◌∷◌, length, IfOk, IfErr, IsErrOf, OnOk, OnErr, Some, true, false, IsTrue};
ghost use Rattle.dap_plan.specs.Session.{numbers_of};
ghost use Rattle.dap_command.specs.Command.{command_named};
ghost use Rattle.dap_tables.specs.Outstanding.{contains_seq};
ghost use Rattle.dap_decision.specs.Failures.{of_known};
ghost use Rattle.dap_outbox.specs.Draft.{reply, failure, plain_success};
ghost use Rattle.dap_body.specs.declared.failure.Failure.TheVariants.{Cancelled};
ghost use Rattle.dap_plan.specs.SessionState.{MadeBy, HasTaken, NotTaken, LacksRoom, NamesNone, NamesOne};
ghost use Rattle.dap_outbox.specs.Outbox.{Holds, answer_of, IsReady};
ghost use Rattle.dap_decision.specs.Table.{is_phase};
ghost use Rattle.dap_decision.specs.declared.phase.Phase.TheVariants.{Ended};
ghost use Rattle.dap_plan.specs.Taking.{after_answering_at_once, after_keeping, after_cancel_request, after_cancel, id_in, is_cancel, takes, takes_request};

use crate::session::{Session, give_back};
use dap_body::Failure;
use dap_call::{Call, CallFault};
use dap_command::Command;
use dap_debuggee::Debuggee;
use dap_decision::{Phase, call_in};
use dap_envelope::{Kind, Message};
use dap_json::{Text, Tree};
use dap_outbox::{Answer, Outbox, is_starting_in};
use dap_plan::AdapterFault;
use dap_tables::Entry;
use std::alloc::{AllocError, Global};

fn is_cancel(name: &str) -> bool
    ensures { result ≡ of_known is_cancel (command_named name.now) }
{
    match Command::of_name(name) {
        Some(Command::Cancel) => true,
        _ => false,
    }
}

fn has_ended(phase: Phase) -> bool
    ensures { result ≡ is_phase Ended phase }
{
    phase == Phase::Ended
}

/// The number that a cancel has.
fn id_in(call: &Call) -> Option<u64>
    ensures { result ≡ id_in call.now }
{
    match call {
        Call::Cancel { request_id } => *request_id,
        _ => None,
    }
}

/// A request as it is kept.
fn entry_of(seq: u64, command: &Text, arguments: &Option<Tree>) -> Result<Entry, AllocError>
    ensures { IfOk result (λ r. r ≡ record { seq = seq; command = command.now; arguments = arguments.now }) }
{
    Ok(Entry {
        seq,
        command: command.clone()?,
        arguments: arguments.clone()?,
    })
}

impl<D: Debuggee + Drop> Session<D> {
    ghost use Rattle.dap_plan.specs.declared.fault.AdapterFault.TheVariants.{OutOfMemory};
    ghost use Rattle.dap_plan.specs.declared.fault.AdapterFault.{AdapterFault};

    /// Answers a request that is not kept.
    fn answer_at_once(
        &mut self,
        alloc: Global,
        out: &mut Outbox,
        request: &Entry,
        answer: Answer,
    ) -> Result<(), AdapterFault>
        requires ready { IsReady out.old (numbers_of self.old.session) }
        ensures made { OnOk result (MadeBy (after_answering_at_once request.now (answer_of answer) self.old.session) self.old.session self.new.session out.new.bytes) }
        ensures within { OnOk result (self.old.session.used + length (after_answering_at_once request.now (answer_of answer) self.old.session).drafts ≤ self.old.session.limits.seq) }
        ensures refused { IfErr result (λ fault. LacksRoom fault self.old.session (length (after_answering_at_once request.now (answer_of answer) self.old.session).drafts)) }
        ensures err { OnErr result (self.new ≡ self.old) }
        ensures debuggee { self.new.debuggee ≡ self.old.debuggee }
        ensures limits { self.new.session.limits ≡ self.old.session.limits }
        ensures before { out.new.before ≡ out.old.before }
    {
        self.room(1)?;
        self.one(alloc, out, request, answer)?;
        self.spend(out);
        Ok(())
    }

    /// Keeps a request, or answers that there is no room.
    fn keep(&mut self, alloc: Global, out: &mut Outbox, request: Entry) -> Result<(), AdapterFault>
        requires ready { IsReady out.old (numbers_of self.old.session) }
        requires new { contains_seq request.seq self.old.session.kept ≡ false }
        ensures made { OnOk result (MadeBy (after_keeping request self.old.session) self.old.session self.new.session out.new.bytes) }
        ensures within { OnOk result (self.old.session.used + length (after_keeping request self.old.session).drafts ≤ self.old.session.limits.seq) }
        ensures refused { IfErr result (λ fault. LacksRoom fault self.old.session (length (after_keeping request self.old.session).drafts)) }
        ensures err { OnErr result (self.new ≡ self.old) }
        ensures debuggee { self.new.debuggee ≡ self.old.debuggee }
        ensures limits { self.new.session.limits ≡ self.old.session.limits }
        ensures before { out.new.before ≡ out.old.before }
    {
        let _ = self.numbers();
        if self.is_full() {
            return self.answer_at_once(alloc, out, &request, Answer::Failure(Failure::Busy));
        }
        self.put(request);
        Ok(())
    }

    /// Writes that a request is cancelled, and answers another one.
    fn both_responses(
        &self,
        alloc: Global,
        out: &mut Outbox,
        named: &Entry,
        request: &Entry,
    ) -> Result<(), AdapterFault>
        requires ready { IsReady out.old (numbers_of self.now.session) }
        ensures last { OnOk result (out.new.numbers.last ≡ self.now.session.limits.seq) }
        ensures holds { OnOk result (Holds out.new self.now.session.limits.body self.now.session.used (reply named.now (failure Cancelled) ∷ reply request.now plain_success ∷ [])) }
        ensures refused { IfErr result (λ fault. LacksRoom fault self.now.session 2) }
        ensures before { out.new.before ≡ out.old.before }
    {
        self.room(2)?;
        self.one(alloc, out, named, Answer::Failure(Failure::Cancelled))?;
        Ok(out.reply(alloc, request, Answer::Success(None))?)
    }

    /// Writes the answers to a request that is cancelled and to the cancel: whether it names one that can be.
    fn cancel_responses(
        &self,
        alloc: Global,
        out: &mut Outbox,
        request: &Entry,
        id: u64,
    ) -> Result<bool, AdapterFault>
        requires ready { IsReady out.old (numbers_of self.now.session) }
        ensures none { IfOk result (λ found. found ≡ false → NamesNone id self.now.session.kept) }
        ensures one { IfOk result (λ found. IsTrue found → NamesOne id self.now.session.kept) }
        ensures last { OnOk result (out.new.numbers.last ≡ self.now.session.limits.seq) }
        ensures holds { IfOk result (λ found. IsTrue found → Holds out.new self.now.session.limits.body self.now.session.used (after_cancel (Some id) request.now self.now.session).drafts) }
        ensures unwritten { IfOk result (λ found. found ≡ false → out.new ≡ out.old) }
        ensures named { OnErr result (NamesOne id self.now.session.kept) }
        ensures refused { IfErr result (λ fault. LacksRoom fault self.now.session 2) }
        ensures before { out.new.before ≡ out.old.before }
    {
        self.begin(out);
        let Some(named) = self.kept.get(id) else {
            return Ok(false);
        };
        if is_starting_in(&self.kept, named) {
            return Ok(false);
        }
        match self.both_responses(alloc, out, named, request) {
            Ok(()) => Ok(true),
            Err(fault) => Err(fault),
        }
    }

    /// Answers what a cancel names, and the cancel.
    fn cancel_named(
        &mut self,
        alloc: Global,
        out: &mut Outbox,
        request: &Entry,
        id: Option<u64>,
    ) -> Result<(), AdapterFault>
        requires ready { IsReady out.old (numbers_of self.old.session) }
        ensures made { OnOk result (MadeBy (after_cancel id request.now self.old.session) self.old.session self.new.session out.new.bytes) }
        ensures within { OnOk result (self.old.session.used + length (after_cancel id request.now self.old.session).drafts ≤ self.old.session.limits.seq) }
        ensures refused { IfErr result (λ fault. LacksRoom fault self.old.session (length (after_cancel id request.now self.old.session).drafts)) }
        ensures err { OnErr result (self.new ≡ self.old) }
        ensures debuggee { self.new.debuggee ≡ self.old.debuggee }
        ensures limits { self.new.session.limits ≡ self.old.session.limits }
        ensures before { out.new.before ≡ out.old.before }
    {
        let Some(id) = id else {
            return self.answer_at_once(alloc, out, request, Answer::Success(None));
        };
        match self.cancel_responses(alloc, out, request, id) {
            Err(fault) => Err(fault),
            Ok(false) => self.answer_at_once(alloc, out, request, Answer::Success(None)),
            Ok(true) => {
                // For the proof: no more numbers were used than there are.
                let _ = out.numbers();
                self.commit(id, out);
                Ok(())
            }
        }
    }

    /// Answers a cancel at once, and what it names.
    fn cancel(
        &mut self,
        alloc: Global,
        out: &mut Outbox,
        request: &Entry,
    ) -> Result<(), AdapterFault>
        requires ready { IsReady out.old (numbers_of self.old.session) }
        ensures made { OnOk result (MadeBy (after_cancel_request request.now self.old.session) self.old.session self.new.session out.new.bytes) }
        ensures within { OnOk result (self.old.session.used + length (after_cancel_request request.now self.old.session).drafts ≤ self.old.session.limits.seq) }
        ensures refused { IfErr result (λ fault. LacksRoom fault self.old.session (length (after_cancel_request request.now self.old.session).drafts)) }
        ensures err { OnErr result (self.new ≡ self.old) }
        ensures debuggee { self.new.debuggee ≡ self.old.debuggee }
        ensures limits { self.new.session.limits ≡ self.old.session.limits }
        ensures before { out.new.before ≡ out.old.before }
    {
        if self.phase() == Phase::Fresh {
            let answer = Answer::Failure(Failure::NotInitialized);
            return self.answer_at_once(alloc, out, request, answer);
        }
        match call_in(alloc, request, Command::Cancel) {
            Err(CallFault::OutOfMemory) => Err(AdapterFault::OutOfMemory),
            Err(CallFault::BadArguments { key }) => {
                let answer = Answer::Failure(Failure::BadArguments { key });
                self.answer_at_once(alloc, out, request, answer)
            }
            Ok(call) => self.cancel_named(alloc, out, request, id_in(&call)),
        }
    }

    /// Keeps a request, or answers it at once.
    fn take_request(
        &mut self,
        alloc: Global,
        out: &mut Outbox,
        seq: u64,
        command: &Text,
        arguments: &Option<Tree>,
    ) -> Result<(), AdapterFault>
        requires ready { IsReady out.old (numbers_of self.old.session) }
        ensures taken { OnOk result (HasTaken D.follows (takes_request (record { seq = seq; command = command.now; arguments = arguments.now }) self.old.session) self.old self.new out.new.bytes) }
        ensures refused { IfErr result (λ fault. NotTaken fault (takes_request (record { seq = seq; command = command.now; arguments = arguments.now }) self.old.session)) }
        ensures err { OnErr result (self.new ≡ self.old) }
        ensures debuggee { self.new.debuggee ≡ self.old.debuggee }
        ensures limits { self.new.session.limits ≡ self.old.session.limits }
        ensures before { out.new.before ≡ out.old.before }
    {
        let _ = &self.queries;
        if has_ended(self.phase) {
            return Err(AdapterFault::Ended);
        }
        if self.kept.contains(seq) {
            return Err(AdapterFault::RepeatedSeq { seq });
        }
        let request = entry_of(seq, command, arguments)?;
        if is_cancel(request.command.as_str()) {
            return self.cancel(alloc, out, &request);
        }
        self.keep(alloc, out, request)
    }

    /// The same of any message.
    fn take_message(
        &mut self,
        alloc: Global,
        out: &mut Outbox,
        message: &Message,
    ) -> Result<(), AdapterFault>
        requires ready { IsReady out.old (numbers_of self.old.session) }
        ensures taken { OnOk result (HasTaken D.follows (takes message.now self.old.session) self.old self.new out.new.bytes) }
        ensures refused { IfErr result (RefusesTaking message.now self.old) }
        ensures unasked { OnErr result (StaysUnasked message.now self.old self.new) }
        ensures memory { IsErrOf result OutOfMemory → MayTakeMemory message.now self.old }
        ensures err { OnErr result (self.new.session ≡ self.old.session) }
        ensures limits { self.new.session.limits ≡ self.old.session.limits }
        ensures before { out.new.before ≡ out.old.before }
    {
        let _ = &self.queries;
        match &message.kind {
            Kind::Request { command, arguments } => {
                self.take_request(alloc, out, message.seq, command, arguments)
            }
            Kind::Response {
                request_seq,
                success,
                command,
                ..
            } => self.take_response(alloc, out, *request_seq, *success, command),
            Kind::Event { .. } => Ok(()),
            Kind::Other { .. } => Ok(()),
        }
    }

    /// Takes a message that was delivered: a request is kept, or answered at once. A response that answers no request of the
    /// session is `Unmatched`, one to another command is `CommandMismatch`. One to a request of whoever holds the session ends
    /// its waiting, and nothing else. One to the request for a terminal starts the debuggee where it is a success, and fails
    /// what waits for that where it is none, while the terminal is waited for; later it ends the waiting for an answer, and
    /// nothing else. An event, and a message of another kind, have no effect. What is written is appended to `out`; where it
    /// fails, `out` is as it was.
    pub fn take(
        &mut self,
        alloc: Global,
        message: &Message,
        out: &mut Vec<u8>,
    ) -> Result<(), AdapterFault>
        ensures taken { AddsIfTaken D.follows message.now self.old self.new out.old out.new result }
        ensures refused { IfErr result (RefusesTaking message.now self.old) }
        ensures unasked { OnErr result (StaysUnasked message.now self.old self.new) }
        ensures memory { IsErrOf result OutOfMemory → MayTakeMemory message.now self.old }
        ensures err { OnErr result (LeavesSession self.old self.new out.old out.new) }
        ensures limits { self.new.session.limits ≡ self.old.session.limits }
    {
        let mut outbox = self.outbox_behind(alloc, out);
        let result = self.take_message(alloc, &mut outbox, message);
        give_back(outbox, result.is_ok(), out);
        result
    }
}
