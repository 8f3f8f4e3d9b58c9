//! A request of whoever holds the session to the client, by its name, and the client's response.
ghost use Rattle.std.specs.Prelude.{◌≡◌, ◌+◌, ◌≤◌, ◌<◌, [], ◌∷◌, length, IfOk, IfErr, OnOk, OnErr, IsTrue, bytes_eq, None, true, false};
ghost use Rattle.std.specs.Option.{option_map};
ghost use Rattle.dap_envelope.specs.Refusals.{max_command};
ghost use Rattle.dap_json.specs.Writable.{is_plain_tree};
ghost use Rattle.dap_outbox.specs.Draft.{ask_named};
ghost use Rattle.dap_outbox.specs.Outbox.{Holds, IsReady, request_fits};
ghost use Rattle.dap_plan.specs.Asking.{IsWhyNotAsked, after_asking_named, ask_faults, request_asked, asks_named, early_ask_faults, first_ask_fault, may_ask};
ghost use Rattle.dap_plan.specs.Session.{numbers_of};
ghost use Rattle.dap_plan.specs.SessionState.{AppendsSome, Carries, MadeBy};
ghost use Rattle.dap_session.specs.PrivateAsking.{IsLate};
ghost use Rattle.dap_tables.specs.Outstanding.{entry_with};

use crate::emitting::tells_events;
use crate::session::{Session, give_back};
use dap_debuggee::Debuggee;
use dap_envelope::MAX_COMMAND;
use dap_json::{Text, Tree};
use dap_outbox::Outbox;
use dap_plan::AskFault;
use dap_tables::Entry;
use std::alloc::{AllocError, Global};

/// A request as it is kept.
fn request_asked(
    alloc: Global,
    seq: u64,
    command: &str,
    arguments: Option<Tree>,
) -> Result<Entry, AllocError>
    ensures { IfOk result (λ r. r ≡ request_asked seq command.now arguments) }
{
    Ok(Entry {
        seq,
        command: Text::copied(alloc, command)?,
        arguments,
    })
}

impl<D: Debuggee + Drop> Session<D> {
    /// The own number that comes next, also where none is left.
    fn next_number(&self) -> u64
        ensures { result ≡ self.now.session.used + 1 }
    {
        self.limits().seq() - self.numbers().left() + 1
    }

    /// Whether one more may be asked, so that a place is left for the request for a terminal.
    fn may_ask(&self) -> bool
        ensures { result ≡ may_ask self.now.session }
    {
        // Its range is what the proof needs: the sum is no greater than a number may be.
        let most = self.limits().requests();
        self.own.len() + 1 < most && !self.own.contains(self.next_number())
    }

    /// Why a request is not asked, of what takes no memory.
    fn early_ask_fault(&self, closed: bool, command: &str) -> Option<AskFault>
        ensures fault { result ≡ first_ask_fault early_ask_faults command.now None closed self.now.session }
        ensures name { result ≡ None → length command.now ≤ max_command }
        ensures may { result ≡ None → may_ask self.now.session ≡ true }
    {
        if closed {
            return Some(AskFault::Closed);
        }
        if !tells_events(self.phase()) {
            return Some(AskFault::WrongPhase);
        }
        if command.len() > MAX_COMMAND {
            return Some(AskFault::BadName);
        }
        if !self.may_ask() {
            return Some(AskFault::Full);
        }
        None
    }

    /// Writes the request, unless it is too large: whether it was written.
    fn own_request(
        &self,
        alloc: Global,
        out: &mut Outbox,
        request: &Entry,
    ) -> Result<bool, AllocError>
        requires ready { IsReady out.old (numbers_of self.now.session) }
        requires room { self.now.session.used + 1 ≤ self.now.session.limits.seq }
        requires plain { IsTrue (is_plain_tree request.now.arguments) }
        ensures fits { IfOk result (λ ok. ok ≡ request_fits self.now.session.limits.body (self.now.session.used + 1) request.now.command request.now.arguments) }
        ensures last { OnOk result (out.new.numbers.last ≡ self.now.session.limits.seq) }
        ensures holds { IfOk result (λ ok. IsTrue ok → Holds out.new self.now.session.limits.body self.now.session.used (ask_named request.now.command request.now.arguments ∷ [])) }
        ensures before { out.new.before ≡ out.old.before }
    {
        self.begin(out);
        let command = request.command.as_str();
        out.ask_named(alloc, command, &request.arguments, self.limits().body())
    }

    /// Whether it would fit, where no own number is left.
    fn request_would_fit(
        &self,
        alloc: Global,
        out: &mut Outbox,
        request: &Entry,
    ) -> Result<bool, AllocError>
        requires ready { IsReady out.old (numbers_of self.now.session) }
        requires full { self.now.session.limits.seq < self.now.session.used + 1 }
        requires plain { IsTrue (is_plain_tree request.now.arguments) }
        ensures fits { IfOk result (λ ok. ok ≡ request_fits self.now.session.limits.body (self.now.session.used + 1) request.now.command request.now.arguments) }
        ensures before { out.new.before ≡ out.old.before }
    {
        // For the proof: no more numbers were used than there are.
        let _ = self.numbers();
        let limits = self.limits();
        let command = request.command.as_str();
        out.can_ask_named(
            alloc,
            command,
            &request.arguments,
            limits.seq() + 1,
            limits.body(),
        )
    }

    /// Asks where nothing but the size of the request and the own numbers may stand against it.
    fn ask_late(&mut self, alloc: Global, out: &mut Outbox, request: Entry) -> Result<u64, AskFault>
        requires ready { IsReady out.old (numbers_of self.old.session) }
        requires plain { IsTrue (is_plain_tree request.arguments) }
        requires number { request.seq ≡ self.old.session.used + 1 }
        requires may { may_ask self.old.session ≡ true }
        ensures made { OnOk result (MadeBy (after_asking_named request.command request.arguments self.old.session) self.old.session self.new.session out.new.bytes) }
        ensures fits { OnOk result (request_fits self.old.session.limits.body (self.old.session.used + 1) request.command request.arguments ≡ true) }
        ensures given { IfOk result (λ seq. seq ≡ self.old.session.used + 1) }
        ensures room { OnOk result (self.old.session.used + 1 ≤ self.old.session.limits.seq) }
        ensures refused { IfErr result (λ fault. IsLate fault request.command request.arguments self.old.session) }
        ensures err { OnErr result (self.new ≡ self.old) }
        ensures debuggee { self.new.debuggee ≡ self.old.debuggee }
        ensures before { out.new.before ≡ out.old.before }
    {
        if self.room(1).is_err() {
            return match self.request_would_fit(alloc, out, &request) {
                Ok(true) => Err(AskFault::SeqExhausted),
                Ok(false) => Err(AskFault::TooLarge),
                Err(_) => Err(AskFault::OutOfMemory),
            };
        }
        match self.own_request(alloc, out, &request) {
            Ok(true) => {
                let seq = request.seq;
                self.commit_own(alloc, out, request)?;
                Ok(seq)
            }
            Ok(false) => Err(AskFault::TooLarge),
            Err(_) => Err(AskFault::OutOfMemory),
        }
    }

    /// Asks the client by a request of this name, appends it to `out`, and gives its number, which the client's response has.
    /// Where it is not asked, nothing has changed. `closed` says whether a fault closed the adapter.
    pub fn ask(
        &mut self,
        alloc: Global,
        closed: bool,
        command: &str,
        arguments: Option<Tree>,
        out: &mut Vec<u8>,
    ) -> Result<u64, AskFault>
        requires plain { IsTrue (is_plain_tree arguments) }
        ensures free { OnOk result (first_ask_fault ask_faults command.now arguments closed self.old.session ≡ None) }
        ensures may { OnOk result (may_ask self.old.session ≡ true) }
        ensures name { OnOk result (length command.now ≤ max_command) }
        ensures number { IfOk result (λ seq. seq ≡ self.old.session.used + 1) }
        ensures carries { OnOk result (AppendsSome (λ bytes. Carries D.follows (asks_named command.now arguments self.old.session) self.old self.new bytes) out.old.items out.new.items) }
        ensures within { OnOk result (self.new.session.used ≤ self.old.session.limits.seq) }
        ensures limits { self.new.session.limits ≡ self.old.session.limits }
        ensures refused { IfErr result (λ fault. IsWhyNotAsked fault command.now arguments closed self.old.session) }
        ensures err { OnErr result ((self.new ≡ self.old) × (out.new.items ≡ out.old.items)) }
    {
        if let Some(fault) = self.early_ask_fault(closed, command) {
            return Err(fault);
        }
        let request = request_asked(alloc, self.next_number(), command, arguments)?;
        let mut outbox = self.outbox_behind(alloc, out);
        let result = self.ask_late(alloc, &mut outbox, request);
        give_back(outbox, result.is_ok(), out);
        result
    }

    /// Whether a response has the command of the request that it answers, where that is one of whoever holds the session.
    pub(crate) fn answers_own(&self, request_seq: u64, command: &Text) -> Option<bool>
        ensures { result ≡ option_map (λ r. bytes_eq command.now r.command) (entry_with request_seq self.now.session.own) }
    {
        match self.own.get(request_seq) {
            None => None,
            Some(request) => Some(command.as_str() == request.command.as_str()),
        }
    }
}
