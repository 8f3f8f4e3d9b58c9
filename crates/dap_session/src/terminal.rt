//! A terminal of the client: when it is asked for, and what its answer does.
//!
//! Specification, "RunInTerminal Request" and "InitializeRequestArguments". That a `launch` whose `console` is `terminal` asks
//! for one is this profile's choice.
ghost use Rattle.std.specs.Prelude.{◌≡◌, ◌+◌, ◌≤◌, ◌&&◌, [], ◌∷◌, length, IfOk, IfErr, IsErrOf, OnOk, OnErr, IsTrue, Ok, Some, true, false};
ghost use Rattle.std.specs.List.{list_any};
ghost use Rattle.dap_command.specs.Command.{command_named};
ghost use Rattle.dap_tables.specs.Outstanding.{contains_seq, is_parked};
ghost use Rattle.dap_outbox.specs.Waiting.{starting_ones};
ghost use Rattle.dap_debuggee.specs.Shown.{to_start};
ghost use Rattle.dap_plan.specs.Handling.{after_asking, after_asking_parked, effect_of, is_launch, names_terminal, parked_wants_terminal, some_plan, wants_terminal};
ghost use Rattle.dap_plan.specs.Plan.{asking, messages_due};
ghost use Rattle.dap_outbox.specs.Draft.{ask, plain_success, reply};
ghost use Rattle.dap_outbox.specs.Outbox.{Holds, IsReady};
ghost use Rattle.dap_plan.specs.Session.{is_asked, numbers_of};
ghost use Rattle.dap_decision.specs.Table.{is_phase};
ghost use Rattle.dap_decision.specs.declared.phase.Phase.TheVariants.{Asked};
ghost use Rattle.dap_plan.specs.SessionState.{MadeBy, Carries, HasTaken, IsRefusedFor, IsUnasked, NotTaken};
ghost use Rattle.dap_session.specs.PrivateReplies.{reply_of};
ghost use Rattle.dap_plan.specs.Taking.{after_terminal, plan_of_response, plan_of_terminal, takes_response, takes_terminal_response};

use crate::effects::start_phase;
use crate::reply::ActReply;
use crate::session::Session;
use dap_call::RUN_IN_TERMINAL;
use dap_command::Command;
use dap_debuggee::Debuggee;
use dap_decision::{Effect, Phase};
use dap_json::{Text, Tree, field};
use dap_outbox::{Answer, Outbox, starting_count};
use dap_plan::AdapterFault;
use dap_query::Options;
use dap_tables::{Entry, InOrder, Outstanding};
use std::alloc::{AllocError, Global};

fn is_launch(name: &str) -> bool
    ensures { result ≡ is_launch (command_named name.now) }
{
    match Command::of_name(name) {
        Some(Command::Launch) => true,
        _ => false,
    }
}

/// Whether the text at `console` is `terminal`.
fn names_terminal(arguments: &Option<Tree>) -> bool
    ensures { result ≡ names_terminal arguments.now }
{
    match arguments {
        None => false,
        Some(tree) => match field::text(tree.value(), "console") {
            None => false,
            Some(console) => console == "terminal",
        },
    }
}

/// Whether a request is a `launch` in a terminal that the client announced.
fn wants_terminal(options: Options, request: &Entry) -> bool
    ensures { result ≡ wants_terminal options request.now }
{
    options.supports_run_in_terminal_request
        && is_launch(request.command.as_str())
        && names_terminal(&request.arguments)
}

/// Whether one of the requests that are still to come is parked and wants a terminal.
fn are_wanting(kept: &Outstanding, mut requests: InOrder<'_>, options: Options) -> bool
    ensures { result ≡ list_any (λ r. is_parked r.seq kept.now.kept && wants_terminal options r) requests.entry }
{
    while let Some(request) = requests.next() {
        if kept.is_parked(request.seq) && wants_terminal(options, request) {
            return true;
        }
    }
    false
}

fn is_asked(asked: Option<u64>, request_seq: u64) -> bool
    ensures { result ≡ is_asked request_seq asked }
{
    match asked {
        None => false,
        Some(seq) => seq == request_seq,
    }
}

/// Whether a terminal is waited for.
fn is_waiting(phase: Phase) -> bool
    ensures { result ≡ is_phase Asked phase }
{
    phase == Phase::Asked
}

impl<D: Debuggee + Drop> Session<D> {
    ghost use Rattle.dap_plan.specs.declared.fault.AdapterFault.{AdapterFault};

    fn parked_wants_terminal(&self) -> bool
        ensures { result ≡ parked_wants_terminal self.now.session.options self.now.session.kept }
    {
        are_wanting(&self.kept, self.kept.in_order(), self.options())
    }

    /// What the table says, unless a terminal is asked for first.
    pub(crate) fn effect_of(&self, request: &Entry, effect: Effect) -> Effect
        ensures { result ≡ effect_of self.now.session request.now effect }
    {
        match effect {
            Effect::Start => {
                if wants_terminal(self.options(), request) {
                    Effect::Ask
                } else {
                    Effect::Start
                }
            }
            Effect::StartParked => {
                if self.parked_wants_terminal() {
                    Effect::AskParked
                } else {
                    Effect::StartParked
                }
            }
            other => other,
        }
    }

    // ---- the request

    /// Writes a request for a terminal: its number.
    fn request_alone(&self, alloc: Global, out: &mut Outbox) -> Result<u64, AllocError>
        requires ready { IsReady out.old (numbers_of self.now.session) }
        requires room { self.now.session.used + 1 ≤ self.now.session.limits.seq }
        ensures last { OnOk result (out.new.numbers.last ≡ self.now.session.limits.seq) }
        ensures holds { OnOk result (Holds out.new self.now.session.limits.body self.now.session.used (ask ∷ [])) }
        ensures number { IfOk result (λ seq. seq ≡ self.now.session.used + 1) }
        ensures before { out.new.before ≡ out.old.before }
    {
        self.begin(out);
        out.ask(alloc)
    }

    /// Writes a response, and a request for a terminal behind it: its number.
    fn request_behind(
        &self,
        alloc: Global,
        out: &mut Outbox,
        request: &Entry,
    ) -> Result<u64, AllocError>
        requires ready { IsReady out.old (numbers_of self.now.session) }
        requires room { self.now.session.used + 2 ≤ self.now.session.limits.seq }
        ensures last { OnOk result (out.new.numbers.last ≡ self.now.session.limits.seq) }
        ensures holds { OnOk result (Holds out.new self.now.session.limits.body self.now.session.used (reply request.now plain_success ∷ ask ∷ [])) }
        ensures number { IfOk result (λ seq. seq ≡ self.now.session.used + 2) }
        ensures before { out.new.before ≡ out.old.before }
    {
        self.one(alloc, out, request, Answer::Success(None))?;
        out.ask(alloc)
    }

    /// Parks the request, and asks for a terminal.
    pub(crate) fn ask_terminal(
        &mut self,
        alloc: Global,
        out: &mut Outbox,
        request: &Entry,
    ) -> Result<(), AllocError>
        requires ready { IsReady out.old (numbers_of self.old.session) }
        requires kept { IsTrue (contains_seq request.now.seq self.old.session.kept) }
        requires room { self.old.session.used + 1 ≤ self.old.session.limits.seq }
        ensures made { OnOk result (MadeBy (after_asking self.old.session request.now) self.old.session self.new.session out.new.bytes) }
        ensures debuggee { self.new.debuggee ≡ self.old.debuggee }
        ensures err { OnErr result (self.new.session ≡ self.old.session) }
        ensures before { out.new.before ≡ out.old.before }
    {
        let seq = self.request_alone(alloc, out)?;
        self.spend(out);
        self.park(request.seq);
        self.set_asked(Some(seq));
        self.set_phase(Phase::Asked);
        Ok(())
    }

    /// Answers the request, and asks for a terminal for what is parked.
    pub(crate) fn ask_terminal_parked(
        &mut self,
        alloc: Global,
        out: &mut Outbox,
        request: &Entry,
    ) -> Result<(), AllocError>
        requires ready { IsReady out.old (numbers_of self.old.session) }
        requires room { self.old.session.used + 2 ≤ self.old.session.limits.seq }
        ensures made { OnOk result (MadeBy (after_asking_parked self.old.session request.now) self.old.session self.new.session out.new.bytes) }
        ensures debuggee { self.new.debuggee ≡ self.old.debuggee }
        ensures err { OnErr result (self.new.session ≡ self.old.session) }
        ensures before { out.new.before ≡ out.old.before }
    {
        let seq = self.request_behind(alloc, out, request)?;
        self.commit(request.seq, out);
        self.set_asked(Some(seq));
        self.set_phase(Phase::Asked);
        Ok(())
    }

    // ---- the response

    /// What waits for the debuggee to start is answered.
    fn terminal_responses(
        &self,
        alloc: Global,
        out: &mut Outbox,
        reply: &ActReply,
    ) -> Result<(), AllocError>
        requires ready { IsReady out.old (numbers_of self.now.session) }
        requires room { self.now.session.used + length (starting_ones self.now.session.kept) ≤ self.now.session.limits.seq }
        ensures last { OnOk result (out.new.numbers.last ≡ self.now.session.limits.seq) }
        ensures holds { OnOk result (Holds out.new self.now.session.limits.body self.now.session.used (after_terminal self.now.session (reply_of reply.now)).drafts) }
        ensures before { out.new.before ≡ out.old.before }
    {
        self.begin(out);
        self.answer_parked(alloc, out, reply)
    }

    /// Ends the waiting for a terminal, where the debuggee started or not.
    fn end_waiting(
        &mut self,
        alloc: Global,
        out: &mut Outbox,
        reply: &ActReply,
    ) -> Result<(), AllocError>
        requires ready { IsReady out.old (numbers_of self.old.session) }
        requires room { self.old.session.used + length (starting_ones self.old.session.kept) ≤ self.old.session.limits.seq }
        ensures made { OnOk result (MadeBy (after_terminal self.old.session (reply_of reply.now)) self.old.session self.new.session out.new.bytes) }
        ensures debuggee { self.new.debuggee ≡ self.old.debuggee }
        ensures err { OnErr result (self.new ≡ self.old) }
        ensures before { out.new.before ≡ out.old.before }
    {
        self.terminal_responses(alloc, out, reply)?;
        self.commit_asked(out);
        self.set_phase(start_phase(reply));
        Ok(())
    }

    /// Starts the debuggee in the terminal that there is.
    fn start_in_terminal(&mut self, alloc: Global, out: &mut Outbox) -> Result<(), AllocError>
        requires ready { IsReady out.old (numbers_of self.old.session) }
        requires room { self.old.session.used + length (starting_ones self.old.session.kept) ≤ self.old.session.limits.seq }
        ensures carries { OnOk result (Carries D.follows (asking to_start (after_terminal self.old.session)) self.old self.new out.new.bytes) }
        ensures err { OnErr result (self.new.session ≡ self.old.session) }
        ensures before { out.new.before ≡ out.old.before }
    {
        let reply = self.ask_start(alloc)?;
        self.end_waiting(alloc, out, &reply)
    }

    fn take_terminal(
        &mut self,
        alloc: Global,
        out: &mut Outbox,
        success: bool,
    ) -> Result<(), AllocError>
        requires ready { IsReady out.old (numbers_of self.old.session) }
        requires room { self.old.session.used + length (starting_ones self.old.session.kept) ≤ self.old.session.limits.seq }
        ensures carries { OnOk result (Carries D.follows (plan_of_terminal success self.old.session) self.old self.new out.new.bytes) }
        ensures unasked { OnErr result (IsUnasked (Ok (Some (plan_of_terminal success self.old.session))) self.old.debuggee self.new.debuggee) }
        ensures err { OnErr result (self.new.session ≡ self.old.session) }
        ensures before { out.new.before ≡ out.old.before }
    {
        if success {
            return self.start_in_terminal(alloc, out);
        }
        self.end_waiting(alloc, out, &ActReply::Refused(None))
    }

    /// Does what a response to the request for a terminal says.
    fn take_answer(
        &mut self,
        alloc: Global,
        out: &mut Outbox,
        success: bool,
    ) -> Result<(), AdapterFault>
        requires ready { IsReady out.old (numbers_of self.old.session) }
        ensures carries { OnOk result (Carries D.follows (plan_of_response success self.old.session) self.old self.new out.new.bytes) }
        ensures within { OnOk result (self.old.session.used + messages_due (plan_of_response success self.old.session) ≤ self.old.session.limits.seq) }
        ensures refused { IfErr result (λ fault. IsRefusedFor fault (plan_of_response success self.old.session) self.old self.new) }
        ensures memory { IsErrOf result AdapterFault.OutOfMemory → is_phase Asked self.old.session.phase ≡ true }
        ensures err { OnErr result (self.new.session ≡ self.old.session) }
        ensures before { out.new.before ≡ out.old.before }
    {
        if is_waiting(self.phase) {
            self.room(starting_count(&self.kept) as u64)?;
            return Ok(self.take_terminal(alloc, out, success)?);
        }
        let _ = self.numbers();
        self.set_asked(None);
        Ok(())
    }

    /// Takes a response to the request for a terminal.
    fn take_terminal_response(
        &mut self,
        alloc: Global,
        out: &mut Outbox,
        request_seq: u64,
        success: bool,
        command: &Text,
    ) -> Result<(), AdapterFault>
        requires ready { IsReady out.old (numbers_of self.old.session) }
        ensures taken { OnOk result (HasTaken D.follows (takes_terminal_response request_seq success command.now self.old.session) self.old self.new out.new.bytes) }
        ensures refused { IfErr result (λ fault. NotTaken fault (takes_terminal_response request_seq success command.now self.old.session)) }
        ensures unasked { OnErr result (IsUnasked (some_plan (takes_terminal_response request_seq success command.now self.old.session)) self.old.debuggee self.new.debuggee) }
        ensures memory { IsErrOf result AdapterFault.OutOfMemory → is_phase Asked self.old.session.phase ≡ true }
        ensures err { OnErr result (self.new.session ≡ self.old.session) }
        ensures before { out.new.before ≡ out.old.before }
    {
        if !is_asked(self.asked, request_seq) {
            return Err(AdapterFault::Unmatched { request_seq });
        }
        if command.as_str() != RUN_IN_TERMINAL {
            return Err(AdapterFault::CommandMismatch { request_seq });
        }
        self.take_answer(alloc, out, success)
    }

    /// Takes a response to a request of this end: a terminal comes, or whoever holds the session is answered.
    pub(crate) fn take_response(
        &mut self,
        alloc: Global,
        out: &mut Outbox,
        request_seq: u64,
        success: bool,
        command: &Text,
    ) -> Result<(), AdapterFault>
        requires ready { IsReady out.old (numbers_of self.old.session) }
        ensures taken { OnOk result (HasTaken D.follows (takes_response request_seq success command.now self.old.session) self.old self.new out.new.bytes) }
        ensures refused { IfErr result (λ fault. NotTaken fault (takes_response request_seq success command.now self.old.session)) }
        ensures unasked { OnErr result (IsUnasked (some_plan (takes_response request_seq success command.now self.old.session)) self.old.debuggee self.new.debuggee) }
        ensures memory { IsErrOf result AdapterFault.OutOfMemory → is_phase Asked self.old.session.phase ≡ true }
        ensures err { OnErr result (self.new.session ≡ self.old.session) }
        ensures before { out.new.before ≡ out.old.before }
    {
        match self.answers_own(request_seq, command) {
            None => self.take_terminal_response(alloc, out, request_seq, success, command),
            Some(false) => Err(AdapterFault::CommandMismatch { request_seq }),
            Some(true) => {
                self.end_own(request_seq);
                Ok(())
            }
        }
    }
}
