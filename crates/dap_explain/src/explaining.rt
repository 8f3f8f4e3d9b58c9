//! Why a line breaks a rule, by what is kept of the lines before it.
ghost use Rattle.std.specs.Prelude.{◌≡◌, ◌-◌, ◌^◌, ◌<◌, List, Some, None, true, if◌then◌else◌, option_map, is_some};
ghost use Rattle.serde_json.specs.Data.{unsigned};
ghost use Rattle.dap_json.specs.Lent.{lent_data};
ghost use Rattle.dap_check.specs.Checking.{IsFound};
ghost use Rattle.dap_check.specs.Lines.{asks, is_of};
ghost use Rattle.dap_check.specs.Rules.{number_at};
ghost use Rattle.dap_explain.specs.Reasons.{reason_of, why_number, waiting_reason, not_asked_reason, answer_reason, second_request_reason, why_early, no_initialize_reason, why_uninitialized, gate_asked, gate_reason, not_given_reason, unknown_reason, number_reason, reference_reason, key_of, kind_named, why_ended};
ghost use Rattle.dap_explain.specs.Explained.{reason_in};
ghost use Rattle.dap_explain.specs.KeptNotes.{AreNotes, is_on_in};
ghost use Rattle.dap_explain.specs.KeptTrails.{AreBelow};
ghost use Rattle.dap_explain.specs.declared.reason.Reason.{Reason as TheReason};
ghost use Rattle.dap_check.specs.declared.found.CheckMode.{CheckMode};
ghost use Rattle.dap_check.specs.declared.line.Line.{Line as TheLine};

use crate::decisions::Decision;
use crate::notes::Notes;
use crate::reason::{Reason, ReferenceKind};
use crate::trail::{Last, Opened, Trail};
use dap_check::{Broken, Line, LineFound, Rule, Side, words};
use dap_command::{Command, Gate};
use dap_envelope::Kind;
use serde_json::Value;

// ---- by what was found

fn line_of(found: Option<Opened>) -> Option<u64>
    ensures { result ≡ option_map (λ last. last.line) found }
{
    match found {
        None => None,
        Some(last) => Some(last.line),
    }
}

fn explain_number(seq: u64, messages: &Trail) -> Option<Reason>
    requires { messages.now.count < 2 ^ 64 - 1 }
    ensures { result ≡ why_number seq messages.now }
{
    let due = messages.count + 1;
    if seq == due {
        return None;
    }
    Some(Reason::Numbered {
        due,
        after: line_of(messages.opened),
    })
}

fn explain_request(seq: u64, requests: Last) -> Option<Reason>
    ensures { result ≡ waiting_reason seq requests.opened requests.closed }
{
    match (requests.opened, requests.closed) {
        (Some(asked), None) => Some(Reason::Waits {
            request: seq,
            asked: asked.line,
        }),
        _ => None,
    }
}

/// Why a response answers nothing that waits.
fn explain_answer(request: u64, requests: Last) -> Reason
    ensures { result ≡ not_asked_reason request requests.opened requests.closed }
{
    match (requests.opened, requests.closed) {
        (None, _) => Reason::NotAsked { request },
        (Some(asked), None) => Reason::OtherCommand {
            request,
            asked: asked.line,
        },
        (Some(asked), Some(answered)) => Reason::Answered {
            request,
            asked: asked.line,
            answered,
        },
    }
}

fn explain_response(request: u64, is_waiting: bool, requests: Last) -> Option<Reason>
    ensures { result ≡ (if is_waiting then None else Some (not_asked_reason request requests.opened requests.closed)) }
{
    if is_waiting {
        return None;
    }
    Some(explain_answer(request, requests))
}

fn explain_second(requests: &Trail) -> Option<Reason>
    ensures { result ≡ second_request_reason requests.now.opened requests.now.closed }
{
    match (requests.opened, requests.closed) {
        (Some(asked), None) => Some(Reason::FirstWaits { asked: asked.line }),
        _ => None,
    }
}

fn explain_first(is_initialize: bool, requests: &Trail) -> Option<Reason>
    ensures { result ≡ why_early is_initialize requests.now }
{
    match requests.count {
        0 => {
            if is_initialize {
                None
            } else {
                Some(Reason::NotInitialize)
            }
        }
        1 => explain_second(requests),
        _ => None,
    }
}

/// Why `initialize` has not succeeded.
fn explain_initialize(requests: &Trail) -> Reason
    ensures { result ≡ no_initialize_reason requests.now.opened requests.now.closed }
{
    match (requests.opened, requests.closed) {
        (None, _) => Reason::NeverAsked,
        (Some(asked), None) => Reason::InitializeWaits { asked: asked.line },
        (Some(_), Some(answered)) => Reason::InitializeFailed { answered },
    }
}

fn explain_initialized(successes: &Trail, requests: &Trail) -> Option<Reason>
    ensures { result ≡ why_uninitialized successes.now requests.now }
{
    if successes.opened.is_some() {
        return None;
    }
    Some(explain_initialize(requests))
}

/// By the last line that switches the flag on or off.
fn explain_flag(gate: Gate, decision: Option<Decision>) -> Option<Reason>
    ensures { result ≡ (if is_on_in decision then None else option_map (λ last. TheReason.NotOffered gate last.line) decision) }
{
    match decision {
        None => None,
        Some(last) => {
            if last.is_on {
                None
            } else {
                Some(Reason::NotOffered {
                    gate,
                    decided: last.line,
                })
            }
        }
    }
}

fn explain_gate(gate: Gate, successes: &Trail, decision: Option<Decision>) -> Option<Reason>
    ensures { result ≡ (if is_some successes.now.opened then (if is_on_in decision then None else option_map (λ last. TheReason.NotOffered gate last.line) decision) else Some (TheReason.NotInitialized gate)) }
{
    if successes.opened.is_none() {
        return Some(Reason::NotInitialized { gate });
    }
    explain_flag(gate, decision)
}

/// Why a number that was not given in its kind is none.
fn explain_not_given(kind: ReferenceKind, number: u64, others: Last) -> Reason
    ensures { result ≡ not_given_reason kind number others.opened }
{
    match others.opened {
        None => Reason::NeverGiven { kind, number },
        Some(other) => Reason::OtherKind {
            kind,
            number,
            given: other.line,
        },
    }
}

fn explain_reference(kind: ReferenceKind, number: u64, given: Last, others: Last) -> Option<Reason>
    ensures { result ≡ unknown_reason kind number given.opened given.closed others.opened }
{
    match (given.opened, given.closed) {
        (None, _) => Some(explain_not_given(kind, number, others)),
        (Some(_), None) => None,
        (Some(last), Some(resumed)) => Some(Reason::Gone {
            kind,
            number,
            given: last.line,
            resumed,
        }),
    }
}

fn explain_end(successes: &Trail) -> Option<Reason>
    ensures { result ≡ why_ended successes.now }
{
    match successes.opened {
        None => None,
        Some(last) => Some(Reason::Ended { ended: last.line }),
    }
}

// ---- by a line

/// The flag that a request needs.
fn gate_of_line(line: &Line) -> Option<Gate>
    ensures { result ≡ gate_asked line.now.message.kind }
{
    match &line.message.kind {
        Kind::Request { command, .. } => match Command::of_name(command.as_str()) {
            None => None,
            Some(command) => command.gate(),
        },
        _ => None,
    }
}

/// Which kind of reference a request names.
fn kind_of_line(line: &Line) -> Option<ReferenceKind>
    ensures { result ≡ kind_named line.now.message.kind }
{
    let Kind::Request { command, .. } = &line.message.kind else {
        return None;
    };
    if words::names_frame(command.as_str()) {
        Some(ReferenceKind::Frame)
    } else if words::names_holder(command.as_str()) {
        Some(ReferenceKind::Variables)
    } else {
        None
    }
}

// ---- by what is kept

impl Notes {
    fn explain_number(&self, line: &Line) -> Option<Reason>
        requires { AreBelow (2 ^ 64 - 1) self.now.trails }
        ensures { (earlier : List TheLine) → AreNotes self.now earlier → result ≡ reason_of Rule.Seq earlier line.now }
    {
        match line.side {
            Side::Client => explain_number(line.message.seq, &self.trails.client),
            Side::Adapter => explain_number(line.message.seq, &self.trails.adapter),
        }
    }

    fn explain_answer(&self, line: &Line) -> Option<Reason>
        ensures { (earlier : List TheLine) → AreNotes self.now earlier → result ≡ reason_of Rule.Answer earlier line.now }
    {
        match &line.message.kind {
            Kind::Request { .. } => {
                let seq = line.message.seq;
                explain_request(seq, self.asked(line.side).last(seq))
            }
            Kind::Response {
                request_seq,
                command,
                ..
            } => {
                let seq = *request_seq;
                let asked = self.asked(line.side.opposite());
                explain_response(seq, asked.waits_for(seq, command.as_str()), asked.last(seq))
            }
            _ => None,
        }
    }

    fn explain_first(&self, line: &Line) -> Option<Reason>
        ensures { (earlier : List TheLine) → AreNotes self.now earlier → result ≡ reason_of Rule.FirstRequest earlier line.now }
    {
        if !line.asks(Side::Client) {
            return None;
        }
        let is_initialize = words::is_request_for(&line.message.kind, "initialize");
        explain_first(is_initialize, &self.trails.requests)
    }

    fn explain_initialized(&self, line: &Line) -> Option<Reason>
        ensures { (earlier : List TheLine) → AreNotes self.now earlier → result ≡ reason_of Rule.Initialized earlier line.now }
    {
        if !line.tells("initialized") {
            return None;
        }
        explain_initialized(
            &self.trails.initialized,
            &self.trails.requests_to_initialize,
        )
    }

    fn explain_gate(&self, line: &Line) -> Option<Reason>
        ensures { (earlier : List TheLine) → AreNotes self.now earlier → result ≡ reason_of Rule.Gate earlier line.now }
    {
        if !line.is_of(Side::Client) {
            return None;
        }
        let gate = gate_of_line(line)?;
        explain_gate(gate, &self.trails.initialized, self.decisions.at(gate))
    }

    fn explain_named(&self, kind: ReferenceKind, number: u64) -> Option<Reason>
        ensures { (earlier : List TheLine) → AreNotes self.now earlier → result ≡ number_reason earlier kind (Some (unsigned number)) }
    {
        let given = self.given.last(kind, number);
        let others = self.given.last(kind.other(), number);
        explain_reference(kind, number, given, others)
    }

    fn explain_arguments(&self, kind: ReferenceKind, arguments: Option<&Value>) -> Option<Reason>
        ensures { (earlier : List TheLine) → AreNotes self.now earlier → result ≡ number_reason earlier kind (number_at (key_of kind) (lent_data arguments.entry)) }
    {
        let value = arguments?.get(kind.key())?;
        match value.as_u64() {
            Some(number) => self.explain_named(kind, number),
            None if value.is_i64() => Some(Reason::Negative { kind }),
            None => None,
        }
    }

    fn explain_reference(&self, line: &Line) -> Option<Reason>
        ensures { (earlier : List TheLine) → AreNotes self.now earlier → result ≡ reason_of Rule.Reference earlier line.now }
    {
        if !line.is_of(Side::Client) {
            return None;
        }
        let kind = kind_of_line(line)?;
        self.explain_arguments(kind, words::arguments(&line.message.kind))
    }

    fn explain_end(&self, line: &Line) -> Option<Reason>
        ensures { (earlier : List TheLine) → AreNotes self.now earlier → result ≡ reason_of Rule.Disconnect earlier line.now }
    {
        if !line.asks(Side::Client) && !line.is_of(Side::Adapter) {
            return None;
        }
        explain_end(&self.trails.disconnected)
    }

    /// Why the next line breaks a rule.
    pub(crate) fn explain(&self, rule: Rule, line: &Line) -> Option<Reason>
        requires { AreBelow (2 ^ 64 - 1) self.now.trails }
        ensures { (earlier : List TheLine) → AreNotes self.now earlier → result ≡ reason_of rule earlier line.now }
    {
        match rule {
            Rule::Seq => self.explain_number(line),
            Rule::Answer => self.explain_answer(line),
            Rule::FirstRequest => self.explain_first(line),
            Rule::Initialized => self.explain_initialized(line),
            Rule::Gate => self.explain_gate(line),
            Rule::Reference => self.explain_reference(line),
            Rule::Disconnect => self.explain_end(line),
        }
    }

    /// The same of a line that may not be given.
    fn explain_given(&self, rule: Rule, line: &Option<Box<Line>>) -> Option<Reason>
        requires { AreBelow (2 ^ 64 - 1) self.now.trails }
        ensures { (earlier : List TheLine) (real : TheLine) → option_map (λ boxed. boxed.value) line.now ≡ Some real → AreNotes self.now earlier → result ≡ reason_of rule earlier real }
    {
        match line {
            None => None,
            Some(line) => self.explain(rule, line),
        }
    }

    fn explain_broken(&self, broken: &Broken, line: &Option<Box<Line>>) -> Option<Reason>
        requires { AreBelow (2 ^ 64 - 1) self.now.trails }
        ensures { (earlier : List TheLine) (real : TheLine) → option_map (λ boxed. boxed.value) line.now ≡ Some real → AreNotes self.now earlier → result ≡ reason_in (Some broken.now) earlier real }
    {
        match broken {
            Broken::Rule(rule) => self.explain_given(*rule, line),
            Broken::Body(_) => None,
        }
    }

    /// Why the next line breaks the one of the seven rules that was found, where it was read whole.
    #[inline(never)]
    pub(crate) fn explain_found(&self, found: &LineFound) -> Option<Reason>
        requires { AreBelow (2 ^ 64 - 1) self.now.trails }
        ensures { (mode : CheckMode) (earlier : List TheLine) (line : TheLine) → mode.whole ≡ true → IsFound mode earlier line found.now → AreNotes self.now earlier → result ≡ reason_in found.now.broken earlier line }
    {
        match &found.broken {
            None => None,
            Some(broken) => self.explain_broken(broken, &found.line),
        }
    }
}
