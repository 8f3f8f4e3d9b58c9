//! What comes of a call that is to be sent.
ghost use Rattle.std.specs.Prelude.{◌≡◌, ◌+◌, ◌<◌, ◌≤◌, length, IfOk, IfErr, IfNone, OnOk, OnErr, IsTrue, false, Some, None};
ghost use Rattle.std.specs.List.{list_all};
ghost use Rattle.dap_json.specs.Field.{max_seq};
ghost use Rattle.dap_envelope.specs.Canon.{canon};
ghost use Rattle.dap_envelope.specs.ReadBack.{ReadsBack};
ghost use Rattle.dap_call.specs.PlainCall.{is_plain_call};
ghost use Rattle.dap_call.specs.declared.call.Call.{Call};
ghost use Rattle.dap_tables.specs.Known.{has_pair};
ghost use Rattle.dap_client.specs.References.{are_known, optional_frame};
ghost use Rattle.dap_client.specs.Sending.{first_of, early_refusals, late_refusals, refusals_in_order, next_message, request_of, sent_bytes, after_send};
ghost use Rattle.dap_call.specs.CallTree.{call_tree, command_of};
ghost use Rattle.dap_client.specs.Seen.{resumer_by, announced_after as announced_after_call, after_sent};
ghost use Rattle.dap_client.specs.Keeping.{IsWhyNotSent, IsWhyLate};

use crate::change::Change;
use crate::fault::SendFault;
use crate::got::Sent;
use crate::laws::each_name_is_short;
use crate::phase::Phase;
use crate::session::Session;
use crate::{changes, table};
use dap_call::laws::written_call_is_plain;
use dap_call::{Call, CallObject, write_call};
use dap_frame::frame_from;
use dap_json::{Text, Tree};
use dap_message::append_request;
use dap_tables::{Entry, ReferenceKind};
use std::alloc::{AllocError, Global};

/// The number of the request that made the phase Resuming, once a request of this number was sent.
fn resumer_after(change: Option<Change>, seq: u64, before: u64) -> u64
    ensures { result ≡ resumer_by change seq before }
{
    match change {
        None => before,
        Some(change) => match change.to {
            Phase::Resuming => seq,
            _ => before,
        },
    }
}

/// Whether the client runs terminals, once a call was sent.
fn announced_after(call: &Call, before: bool) -> bool
    ensures { result ≡ announced_after_call (command_of call.now) (call_tree call.now) before }
{
    match call {
        Call::Initialize(asked) => asked.supports_run_in_terminal_request,
        _ => before,
    }
}

/// The request of a call. Its number may be past the greatest one.
fn request(alloc: Global, seq: u64, call: &Call) -> Result<Entry, AllocError>
    requires { IsTrue (is_plain_call call.now) }
    ensures { IfOk result (λ r. r ≡ request_of seq call.now) }
{
    let command = Text::copied(alloc, call.command().name())?;
    let arguments = write_call(alloc, call)?.map(Tree::new);
    Ok(Entry {
        seq,
        command,
        arguments,
    })
}

impl Session {
    fn knows_frame(&self, frame: Option<u32>) -> bool
        ensures { result ≡ list_all (λ p. has_pair p self.now.seen.known) (optional_frame frame) }
    {
        match frame {
            None => true,
            Some(number) => self.known.has(ReferenceKind::Frame, number),
        }
    }

    /// Whether all references that a call uses are known, each in its kind.
    fn knows(&self, call: &Call) -> bool
        ensures { result ≡ are_known call.now self.now.seen.known }
    {
        match call.object() {
            CallObject::Frame(number) => self.knows_frame(number),
            CallObject::Holder(number) => self.known.has(ReferenceKind::Holder, number),
            _ => true,
        }
    }

    /// The first refusal of those that are told without memory.
    pub(crate) fn early_refusal(&self, closed: bool, call: &Call) -> Option<SendFault>
        ensures { result ≡ first_of early_refusals call.now closed self.now }
    {
        let command = call.command();
        let waits = table::waits_for_stop(command, self.phase);
        if closed || self.phase == Phase::Ended {
            return Some(SendFault::Ended);
        }
        if !table::is_sent_in(command, self.phase, self.ready) && !waits {
            return Some(SendFault::WrongPhase);
        }
        if !self.capabilities.allows(command) {
            return Some(SendFault::NotSupported);
        }
        if waits {
            return Some(SendFault::NotStopped);
        }
        if !self.knows(call) {
            return Some(SendFault::UnknownReference);
        }
        None
    }

    /// The first of the other refusals, of a request with so many bytes.
    fn late_refusal(&self, measured: usize) -> Option<SendFault>
        ensures first { (c : Call) → length (canon (next_message self.now c)) ≡ measured → result ≡ first_of late_refusals c false self.now }
        ensures left { IfNone result (self.now.used < self.now.limits.seq) }
        ensures room { IfNone result (length self.now.outstanding < self.now.limits.requests) }
        ensures fits { IfNone result (measured ≤ self.now.limits.body) }
        ensures greatest { self.now.limits.seq ≤ max_seq }
    {
        if measured > self.limits.body() {
            return Some(SendFault::TooLarge);
        }
        if self.outstanding.is_full() {
            return Some(SendFault::Full);
        }
        if self.numbers.left() == 0 {
            return Some(SendFault::SeqExhausted);
        }
        None
    }

    /// What the sending of a call changes.
    fn note_sent(&mut self, seq: u64, call: &Call)
        ensures { self.new ≡ record self.old { seen = after_sent seq (command_of call.now) (call_tree call.now) self.old.seen } }
    {
        let change = changes::by_sending(call.command(), self.phase);
        self.announced = announced_after(call, self.announced);
        self.resumer = resumer_after(change, seq, self.resumer);
        self.change(change);
    }

    /// The request of a call, as it is kept and as it is written, if no late refusal holds.
    fn prepared(&self, alloc: Global, call: &Call) -> Result<(Entry, Vec<u8>), SendFault>
        requires { IsTrue (is_plain_call call.now) }
        ensures entry { IfOk result (λ p. p.0 ≡ request_of (self.now.used + 1) call.now) }
        ensures bytes { IfOk result (λ p. p.1.items ≡ sent_bytes self.now call.now) }
        ensures left { OnOk result (self.now.used < self.now.limits.seq) }
        ensures room { OnOk result (length self.now.outstanding < self.now.limits.requests) }
        ensures fine { OnOk result (first_of late_refusals call.now false self.now ≡ None) }
        ensures reads_back { OnOk result (ReadsBack self.now.limits.body (next_message self.now call.now)) }
        ensures refused { IfErr result (λ fault. IsWhyLate fault call.now self.now) }
    {
        // Laws for the proof: what a plain call is written as can be written, and its name is read.
        written_call_is_plain();
        each_name_is_short();
        let entry = request(alloc, self.next_seq(), call)?;
        let mut bytes = Vec::new(alloc);
        let command = entry.command.as_str();
        append_request(alloc, &mut bytes, entry.seq, command, &entry.arguments)?;
        if let Some(fault) = self.late_refusal(bytes.len()) {
            return Err(fault);
        }
        frame_from(&mut bytes, 0)?;
        Ok((entry, bytes))
    }

    /// Sends a call, or refuses it.
    pub(crate) fn send(
        &mut self,
        alloc: Global,
        closed: bool,
        call: &Call,
    ) -> Result<Sent, SendFault>
        requires { IsTrue (is_plain_call call.now) }
        ensures limits { self.new.limits ≡ self.old.limits }
        ensures sent { OnOk result (first_of refusals_in_order call.now closed self.old ≡ None) }
        ensures seq { IfOk result (λ sent. sent.seq ≡ self.old.used + 1) }
        ensures bytes { IfOk result (λ sent. sent.bytes.items ≡ sent_bytes self.old call.now) }
        ensures session { OnOk result (self.new ≡ after_send call.now self.old) }
        ensures reads_back { OnOk result (ReadsBack self.old.limits.body (next_message self.old call.now)) }
        ensures refused { IfErr result (λ fault. IsWhyNotSent fault call.now closed self.old) }
        ensures unchanged { OnErr result (self.new ≡ self.old) }
    {
        match self.early_refusal(closed, call) {
            Some(fault) => return Err(fault),
            None => {}
        }
        let (entry, bytes) = match self.prepared(alloc, call) {
            Ok(prepared) => prepared,
            Err(fault) => return Err(fault),
        };
        let seq = entry.seq;
        self.keep(entry);
        self.note_sent(seq, call);
        Ok(Sent { seq, bytes })
    }
}
