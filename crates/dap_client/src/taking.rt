//! What comes of a message that is delivered.
ghost use Rattle.std.specs.Prelude.{◌≡◌, ◌+◌, ◌≤◌, ◌<◌, [], ◌∷◌, ◌++◌, length, if◌then◌else◌, ◌&&◌, IfOk, IfErr, OnOk, OnErr, IsTrue, nat_le, Some, None, codes, option_and_then};
ghost use Rattle.dap_json.specs.Field.{max_seq, tree_at};
ghost use Rattle.dap_frame.specs.Written.{frame_of};
ghost use Rattle.dap_envelope.specs.Canon.{canon};
ghost use Rattle.dap_envelope.specs.InRange.{IsInRange};
ghost use Rattle.dap_message.specs.MessageParts.{failure_response};
ghost use Rattle.dap_envelope.specs.Meaning.{Msg};
ghost use Rattle.dap_envelope.specs.Refusals.{max_command};
ghost use Rattle.dap_tables.specs.Outstanding.{entry_with};
ghost use Rattle.dap_client.specs.Changes.{change_in, signal_named};
ghost use Rattle.dap_client.specs.Keeping.{match_result, AreReadBack, IsMade, IsWhyClosed, IsWhyUnlearned};
ghost use Rattle.dap_client.specs.declared.phase.Phase.TheVariants.{Initializing};
ghost use Rattle.dap_command.specs.Capabilities.{offered_by};
ghost use Rattle.dap_client.specs.Phases.{is_phase, is_among, phases_in_a_stop};
ghost use Rattle.dap_client.specs.Seen.{is_initialize, references_of_success, known_after, capabilities_after, cause_of, after_change, after_body, after_answer, after_signal, after_event, updated_from, is_ready_after};
ghost use Rattle.dap_call.specs.Terminal.{run_in_terminal};
ghost use Rattle.dap_client.specs.Taking.{declines, failure_at_once as failure_by, request_from, takes, takes_answer, takes_request};

use crate::changes;
use crate::fault::ClientFault;
use crate::phase::Phase;
use crate::response_references::references_given_in;
use crate::session::Session;
use crate::signal::Signal;
use dap_body::Failure;
use dap_call::{CallFault, RUN_IN_TERMINAL, read_terminal};
use dap_command::{Capabilities, Command};
use dap_envelope::{Kind, Message};
use dap_frame::frame_from;
use dap_json::{Text, Tree};
use dap_message::append_failure;
use dap_message::laws::fixed_messages_are_short;
use dap_tables::{Entry, KnownFault, ReferenceKind};
use std::alloc::{AllocError, Global};

/// Whether references are known in a phase.
fn is_in_a_stop(phase: Phase) -> bool
    ensures { result ≡ is_among phase phases_in_a_stop }
{
    match phase {
        Phase::Stopped => true,
        Phase::Resuming => true,
        _ => false,
    }
}

/// The references that a response gives in a phase.
fn lesson(
    alloc: Global,
    success: bool,
    command: Option<Command>,
    body: &Option<Tree>,
    phase: Phase,
) -> Result<Vec<(ReferenceKind, u32)>, AllocError>
    ensures { IfOk result (λ pairs. pairs.items ≡ references_of_success success command body.now phase) }
{
    if success && is_in_a_stop(phase) {
        references_given_in(alloc, command, body)
    } else {
        Ok(Vec::new(alloc))
    }
}

/// What the adapter offers, once a response to a command came.
fn offered(
    phase: Phase,
    before: Capabilities,
    success: bool,
    command: Command,
    body: &Option<Tree>,
) -> Capabilities
    ensures { result ≡ (if is_phase Initializing phase && (success && is_initialize command) then offered_by body.now else before) }
{
    match phase {
        Phase::Initializing => match command {
            Command::Initialize => {
                if !success {
                    return before;
                }
                match body {
                    None => Capabilities::read(None),
                    Some(body) => Capabilities::read(Some(body.value())),
                }
            }
            _ => before,
        },
        _ => before,
    }
}

impl Session {
    /// Whether a response answers the request that waits, if one does.
    fn matches(&self, request_seq: u64, command: &Text) -> Result<(), ClientFault>
        ensures { result ≡ match_result (entry_with request_seq self.now.outstanding) request_seq command.now }
    {
        match self.waiting(request_seq) {
            None => Err(ClientFault::Unmatched { request_seq }),
            Some(entry) => {
                if entry.command.as_str() == command.as_str() {
                    Ok(())
                } else {
                    Err(ClientFault::CommandMismatch { request_seq })
                }
            }
        }
    }

    /// Learns the references that a response gives, or none of them.
    fn learn(
        &mut self,
        alloc: Global,
        success: bool,
        command: Option<Command>,
        body: &Option<Tree>,
    ) -> Result<(), ClientFault>
        ensures ok { OnOk result (self.new ≡ record self.old { seen = record self.old.seen { known = known_after success command body.now self.old.seen } }) }
        ensures within { OnOk result (length (known_after success command body.now self.old.seen) ≤ self.old.limits.references) }
        ensures refused { IfErr result (λ fault. IsWhyUnlearned fault self.old.limits.references (length (known_after success command body.now self.old.seen))) }
        ensures err { OnErr result (self.new ≡ self.old) }
    {
        let pairs = lesson(alloc, success, command, body, self.phase)?;
        match self.known.add(&pairs) {
            Ok(()) => Ok(()),
            Err(KnownFault::Full) => Err(ClientFault::ReferenceLimit),
            Err(KnownFault::OutOfMemory) => Err(ClientFault::OutOfMemory),
        }
    }

    /// What the response to a request changes, once its references are known.
    fn note_answer(
        &mut self,
        request_seq: u64,
        success: bool,
        command: Command,
        body: &Option<Tree>,
    )
        ensures { self.new ≡ record self.old { seen = after_change (change_in (cause_of request_seq command success self.old.seen) self.old.seen.phase) (record self.old.seen { capabilities = capabilities_after success command body.now self.old.seen }) } }
    {
        let resumes = self.phase == Phase::Resuming && request_seq == self.resumer;
        let change = if resumes {
            changes::by_resuming(success, self.phase)
        } else {
            changes::by_answer(command, success, self.phase)
        };
        self.capabilities = offered(self.phase, self.capabilities, success, command, body);
        self.change(change);
    }

    /// What an event changes.
    fn note_event(&mut self, event: &Text, body: &Option<Tree>)
        ensures { self.new ≡ record self.old { seen = after_event (signal_named event.now) body.now self.old.seen } }
    {
        if let Some(signal) = Signal::named(event.as_str()) {
            let change = changes::by_signal(signal, self.phase);
            match signal {
                Signal::Initialized => self.ready = true,
                Signal::Capabilities => self.capabilities = updated(self.capabilities, body),
                _ => {}
            }
            self.change(change);
        }
    }

    /// Takes a response, or refuses it.
    fn take_response(
        &mut self,
        alloc: Global,
        request_seq: u64,
        success: bool,
        command: &Text,
        body: &Option<Tree>,
    ) -> Result<(), ClientFault>
        ensures limits { self.new.limits ≡ self.old.limits }
        ensures ok { OnOk result (IsMade (takes_answer (entry_with request_seq self.old.outstanding) request_seq success command.now body.now self.old) self.new []) }
        ensures refused { IfErr result (λ fault. IsWhyClosed fault (takes_answer (entry_with request_seq self.old.outstanding) request_seq success command.now body.now self.old)) }
        ensures err { OnErr result (self.new ≡ self.old) }
    {
        match self.matches(request_seq, command) {
            Ok(()) => {}
            Err(fault) => return Err(fault),
        }
        let known = Command::of_name(command.as_str());
        match self.learn(alloc, success, known, body) {
            Ok(()) => {}
            Err(fault) => return Err(fault),
        }
        self.settle(request_seq);
        if let Some(command) = known {
            self.note_answer(request_seq, success, command, body);
        }
        Ok(())
    }

    /// Answers a request of the adapter by a failure.
    fn decline(
        &mut self,
        alloc: Global,
        seq: u64,
        command: &Text,
        failure: Failure,
    ) -> Result<Vec<u8>, ClientFault>
        requires seq { seq ≤ max_seq }
        requires command { length command.now ≤ max_command }
        ensures limits { self.new.limits ≡ self.old.limits }
        ensures ok { IfOk result (λ bytes. IsMade (declines seq command.now failure self.old) self.new bytes.items) }
        ensures reads_back { OnOk result (AreReadBack self.old.limits.body (declines seq command.now failure self.old)) }
        ensures refused { IfErr result (λ fault. IsWhyClosed fault (declines seq command.now failure self.old)) }
        ensures err { OnErr result (self.new ≡ self.old) }
    {
        // A law for the proof: a failure is short.
        fixed_messages_are_short();
        let _most = self.limits.body();
        let mut numbers = self.numbers;
        let number = match numbers.next() {
            Some(number) => number,
            None => return Err(ClientFault::SeqExhausted),
        };
        let bytes = failure_bytes(alloc, number, seq, command, failure)?;
        self.numbers = numbers;
        Ok(bytes)
    }

    /// The failure with which a request of the adapter is answered at once, if it is.
    fn failure_at_once(
        &self,
        alloc: Global,
        command: &Text,
        arguments: &Option<Tree>,
    ) -> Result<Option<Failure>, AllocError>
        ensures failure { IfOk result (λ failure. failure ≡ failure_by command.now arguments.now self.now.seen.announced (nat_le self.now.limits.requests (length self.now.incoming))) }
        ensures terminal { IfOk result (λ failure. failure ≡ None → command.now ≡ run_in_terminal) }
        ensures room { IfOk result (λ failure. failure ≡ None → length self.now.incoming < self.now.limits.requests) }
    {
        if command.as_str() != RUN_IN_TERMINAL || !self.announced {
            return Ok(Some(Failure::Unsupported));
        }
        match read_terminal(alloc, arguments.as_ref().map(Tree::value)) {
            Err(CallFault::OutOfMemory) => Err(AllocError),
            Err(CallFault::BadArguments { key }) => Ok(Some(Failure::BadArguments { key })),
            Ok(_) if self.incoming.is_full() => Ok(Some(Failure::Busy)),
            Ok(_) => Ok(None),
        }
    }

    /// Takes a request of the adapter, or refuses it: it is kept, or answered at once.
    fn take_request(
        &mut self,
        alloc: Global,
        seq: u64,
        command: &Text,
        arguments: &Option<Tree>,
    ) -> Result<Vec<u8>, ClientFault>
        requires seq { seq ≤ max_seq }
        requires command { length command.now ≤ max_command }
        ensures limits { self.new.limits ≡ self.old.limits }
        ensures ok { IfOk result (λ bytes. IsMade (takes_request (request_from seq command.now arguments.now) self.old) self.new bytes.items) }
        ensures reads_back { OnOk result (AreReadBack self.old.limits.body (takes_request (request_from seq command.now arguments.now) self.old)) }
        ensures refused { IfErr result (λ fault. IsWhyClosed fault (takes_request (request_from seq command.now arguments.now) self.old)) }
        ensures err { OnErr result (self.new ≡ self.old) }
    {
        if self.incoming.contains(seq) {
            return Err(ClientFault::RepeatedSeq { seq });
        }
        if let Some(failure) = self.failure_at_once(alloc, command, arguments)? {
            return self.decline(alloc, seq, command, failure);
        }
        let request = Entry {
            seq,
            command: command.clone()?,
            arguments: arguments.clone()?,
        };
        self.keep_incoming(request);
        Ok(Vec::new(alloc))
    }

    /// Takes a message, or refuses it: what is to be written.
    pub(crate) fn take(&mut self, alloc: Global, message: &Message) -> Result<Vec<u8>, ClientFault>
        requires { IsInRange message.now }
        ensures limits { self.new.limits ≡ self.old.limits }
        ensures ok { IfOk result (λ bytes. IsMade (takes message.now self.old) self.new bytes.items) }
        ensures reads_back { OnOk result (AreReadBack self.old.limits.body (takes message.now self.old)) }
        ensures refused { IfErr result (λ fault. IsWhyClosed fault (takes message.now self.old)) }
        ensures err { OnErr result (self.new ≡ self.old) }
    {
        let _ = &self.limits;
        match &message.kind {
            Kind::Request { command, arguments } => {
                self.take_request(alloc, message.seq, command, arguments)
            }
            Kind::Response {
                request_seq,
                success,
                command,
                body,
                ..
            } => match self.take_response(alloc, *request_seq, *success, command, body) {
                Ok(()) => Ok(Vec::new(alloc)),
                Err(fault) => Err(fault),
            },
            Kind::Event { event, body } => {
                self.note_event(event, body);
                Ok(Vec::new(alloc))
            }
            Kind::Other { .. } => Ok(Vec::new(alloc)),
        }
    }
}

/// The failure of a request of the adapter, as it is written.
fn failure_bytes(
    alloc: Global,
    number: u64,
    seq: u64,
    command: &Text,
    failure: Failure,
) -> Result<Vec<u8>, AllocError>
    ensures bytes { IfOk result (λ bytes. bytes.items ≡ frame_of (canon (failure_response number seq command.now failure))) }
    ensures reads_back { OnOk result (number ≤ max_seq → seq ≤ max_seq → length command.now ≤ max_command → Msg (canon (failure_response number seq command.now failure)) (failure_response number seq command.now failure)) }
{
    let mut bytes = Vec::new(alloc);
    append_failure(alloc, &mut bytes, number, seq, command.as_str(), failure)?;
    frame_from(&mut bytes, 0)?;
    Ok(bytes)
}

/// The flags, once those that the body of an event names have replaced the old ones.
fn updated(before: Capabilities, body: &Option<Tree>) -> Capabilities
    ensures { result ≡ updated_from (option_and_then (tree_at (codes "capabilities")) body.now) before }
{
    let mut capabilities = before;
    if let Some(body) = body {
        if let Some(object) = body.value().get("capabilities") {
            if !object.is_null() {
                capabilities.update(object);
            }
        }
    }
    capabilities
}
