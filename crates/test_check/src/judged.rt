//! Rows of transcripts that are checked.
//!
//! | a line | says |
//! |---|---|
//! | `> BODY`, `< BODY`, or any other | a line of the transcript |
//! | `.` | a line of the transcript without bytes |
//! | `bytes TEXT` | the bytes of this JSON text stand in the transcript, without a line feed of their own |
//! | `unended` | the last line of the transcript has no line feed |
//! | `any seq`, `any seq client`, `any seq adapter` | the numbers of both sides, or of one, are not tested |
//! | `all` | the row names all lines that break a rule, and all requests that nothing has answered |
//! | `= legal` | the transcript keeps every rule |
//! | `= line L rule N: SENTENCE` | the first line that breaks a rule, the rule, and the sentence that explains it |
//! | `+ line L rule N: SENTENCE` | the next line that breaks one |
//! | `? line L request N COMMAND of SIDE` | the next request that nothing has answered |
//! | `! FAULT` | the text is no transcript |

use dap_check::{
    AnySeq, Broken, CheckFault, CheckMode, Checked, Finding, OpenRequest, Report, Side, check,
    check_all, check_by_side,
};
use dap_explain::{ExplainedChecker, LineTold, Reason, explain, sentence};
use std::alloc::{AllocError, Global};
use std::marker::Model;
use test_kit::bodies::body_of;
use test_kit::facts::{is_printed, tell};
use test_kit::given::{note, wrong};
use test_kit::json::text_of;
use test_kit::outcome::Outcome;
use test_kit::player::{Player, Setting};
use test_kit::rows::is_heading;

/// What is told of a transcript. A contract sees nothing of it.
#[derive(Drop)]
pub(crate) struct Judged {
    /// The lines that break a rule, as a row writes them; none at a fault.
    found: Vec<String>,
    /// The requests that nothing has answered, as a row writes them; none at a fault.
    unanswered: Vec<String>,
    fault: Option<CheckFault>,
    is_named: bool,
    /// How many of each the row has named.
    named: usize,
    asked: usize,
    /// Whether it names all.
    names_all: bool,
}

impl Model for Judged {
    ghost use Rattle.std.specs.Prelude.{ℕ};

    ghost Value = { ℕ };

    ghost view = { λ _. 0 };
}

/// Appends the body that a text stands for, behind a mark.
fn add_body(alloc: Global, text: &mut String, mark: &str, body: &str) -> Result<(), Outcome> {
    match body_of(alloc, body) {
        Ok(body) => {
            let added = add_line(text, mark, body.as_str());
            // The proof of a call is shorter than that of a value that goes out of scope.
            drop(body);
            match added {
                Ok(()) => Ok(()),
                Err(_) => Err(Outcome::Refused),
            }
        }
        Err(_) => Err(Outcome::Refused),
    }
}

fn add_line(text: &mut String, mark: &str, line: &str) -> Result<(), AllocError> {
    text.push_str(mark)?;
    text.push_str(line)?;
    text.push('\n')
}

/// Appends the bytes that a JSON text is.
fn add_bytes(alloc: Global, text: &mut String, json: &str) -> Result<(), Outcome> {
    match text_of(alloc, json) {
        Ok(bytes) => {
            let added = text.push_str(bytes.as_str());
            drop(bytes);
            match added {
                Ok(()) => Ok(()),
                Err(_) => Err(Outcome::Refused),
            }
        }
        Err(outcome) => Err(outcome),
    }
}

fn add_plain(text: &mut String, line: &str) -> Result<(), Outcome> {
    match add_line(text, "", line) {
        Ok(()) => Ok(()),
        Err(_) => Err(Outcome::Refused),
    }
}

fn is_setting(line: &str) -> bool {
    matches!(
        line,
        "any seq" | "any seq client" | "any seq adapter" | "all" | "unended"
    )
}

/// Appends the line of a transcript that a line of a row is, if it is one.
fn add_said(alloc: Global, text: &mut String, line: &str) -> Result<(), Outcome> {
    if is_heading(line) || is_setting(line) {
        return Ok(());
    }
    match line.split_once(' ') {
        Some((">", body)) => add_body(alloc, text, "> ", body),
        Some(("<", body)) => add_body(alloc, text, "< ", body),
        Some(("bytes", json)) => add_bytes(alloc, text, json),
        Some(("=" | "+" | "?" | "!", _)) => Ok(()),
        _ if line == "." => add_plain(text, ""),
        _ => add_plain(text, line),
    }
}

fn add_all(alloc: Global, text: &mut String, row: &str) -> Result<(), Outcome> {
    for line in row.split('\n') {
        add_said(alloc, text, line)?;
    }
    Ok(())
}

fn has_line(row: &str, wanted: &str) -> bool {
    row.split('\n').any(|line| line == wanted)
}

/// Whose numbers a row does not test.
fn any_seq_of(row: &str) -> AnySeq {
    if has_line(row, "any seq") {
        AnySeq::OfBoth
    } else if has_line(row, "any seq client") {
        AnySeq::OfClient
    } else if has_line(row, "any seq adapter") {
        AnySeq::OfAdapter
    } else {
        AnySeq::OfNone
    }
}

fn reason_of(told: Result<Option<Reason>, CheckFault>) -> Result<Reason, Outcome> {
    match told {
        Ok(Some(reason)) => Ok(reason),
        Ok(None) => Err(Outcome::Wrong),
        Err(CheckFault::OutOfMemory) => Err(Outcome::Refused),
        Err(_) => Err(Outcome::Wrong),
    }
}

/// The sentence that explains a finding; wrong where there is none.
fn sentence_of(alloc: Global, text: &str, found: Finding) -> Result<String, Outcome> {
    let reason = reason_of(explain(alloc, text.as_bytes(), found.line, found.rule))?;
    match sentence(alloc, reason) {
        Ok(told) => Ok(told),
        Err(_) => Err(Outcome::Refused),
    }
}

/// A finding, as a row writes it.
fn text_of_finding(alloc: Global, text: &str, found: Finding) -> Result<String, Outcome> {
    match sentence_of(alloc, text, found) {
        Ok(told) => {
            let line = found.line;
            let written = format!(in alloc; "line {line} rule {}: {told}", found.rule.number());
            drop(told);
            match written {
                Ok(written) => Ok(written),
                Err(_) => Err(Outcome::Refused),
            }
        }
        Err(outcome) => Err(outcome),
    }
}

fn texts_of_findings(
    alloc: Global,
    text: &str,
    findings: &[Finding],
) -> Result<Vec<String>, Outcome> {
    let mut texts = Vec::new(alloc);
    for found in findings {
        let written = text_of_finding(alloc, text, *found)?;
        if texts.push(written).is_err() {
            return Err(Outcome::Refused);
        }
    }
    Ok(texts)
}

/// A request that nothing has answered, as a row writes it.
fn text_of_request(alloc: Global, request: &OpenRequest) -> Result<String, AllocError> {
    let line = request.line;
    let seq = request.seq;
    let command = request.command.as_str();
    let side = match request.side {
        Side::Client => "the client",
        Side::Adapter => "the adapter",
    };
    format!(in alloc; "line {line} request {seq} {command} of {side}")
}

fn texts_of_requests(alloc: Global, requests: &[OpenRequest]) -> Result<Vec<String>, AllocError> {
    let mut texts = Vec::new(alloc);
    for request in requests {
        texts.push(text_of_request(alloc, request)?)?;
    }
    Ok(texts)
}

/// What a checker of lines finds of one, as a row writes it.
fn text_of_told(alloc: Global, told: &LineTold) -> Result<Option<String>, Outcome> {
    let line = told.found.number;
    match (&told.found.broken, told.reason) {
        (None, None) => Ok(None),
        (Some(Broken::Rule(rule)), Some(reason)) => match sentence(alloc, reason) {
            Ok(said) => {
                let written = format!(in alloc; "line {line} rule {}: {said}", rule.number());
                drop(said);
                match written {
                    Ok(written) => Ok(Some(written)),
                    Err(_) => Err(Outcome::Refused),
                }
            }
            Err(_) => Err(Outcome::Refused),
        },
        _ => Err(Outcome::Wrong),
    }
}

fn next_text(
    alloc: Global,
    checker: &mut ExplainedChecker,
    line: &str,
) -> Result<Option<String>, Outcome> {
    if checker.taken() > 1000000 {
        return Err(Outcome::Wrong);
    }
    let line = line.strip_suffix('\r').unwrap_or(line);
    match checker.line(alloc, line.as_bytes()) {
        Ok(None) => Ok(None),
        Ok(Some(told)) => text_of_told(alloc, &told),
        Err(CheckFault::OutOfMemory) => Err(Outcome::Refused),
        Err(_) => Err(Outcome::Wrong),
    }
}

/// Whether a checker of lines finds the same, with the same reasons.
fn is_found_by_lines(
    alloc: Global,
    text: &str,
    any_seq: AnySeq,
    found: &[String],
) -> Result<bool, Outcome> {
    let mut checker = ExplainedChecker::open(
        alloc,
        CheckMode {
            any_seq,
            bodies: false,
            whole: true,
        },
    );
    let mut place: usize = 0;
    for line in text.split('\n') {
        if let Some(told) = next_text(alloc, &mut checker, line)? {
            match found.get(place) {
                Some(there) if there.as_str() == told.as_str() => place = place.saturating_add(1),
                _ => return Ok(false),
            }
        }
    }
    Ok(place == found.len())
}

/// What was found of a transcript, before the row says what should be.
fn with_texts(
    alloc: Global,
    text: &str,
    any_seq: AnySeq,
    report: &Report,
    names_all: bool,
) -> Result<Judged, Outcome> {
    let found = texts_of_findings(alloc, text, &report.findings)?;
    if !is_found_by_lines(alloc, text, any_seq, &found)? {
        return Err(Outcome::Wrong);
    }
    match texts_of_requests(alloc, &report.unanswered) {
        Ok(unanswered) => Ok(Judged {
            found,
            unanswered,
            fault: None,
            is_named: false,
            named: 0,
            asked: 0,
            names_all,
        }),
        Err(_) => Err(Outcome::Refused),
    }
}

fn refused(alloc: Global, fault: CheckFault) -> Result<Judged, Outcome> {
    match fault {
        CheckFault::OutOfMemory => Err(Outcome::Refused),
        fault => Ok(Judged {
            found: Vec::new(alloc),
            unanswered: Vec::new(alloc),
            fault: Some(fault),
            is_named: false,
            named: 0,
            asked: 0,
            names_all: false,
        }),
    }
}

/// Whether the first of what was found is what `check` answers.
fn is_first(checked: Checked, report: &Report) -> bool {
    match (checked, report.findings.first()) {
        (Checked::Legal, None) => true,
        (Checked::Finding { line, rule }, Some(found)) => line == found.line && rule == found.rule,
        _ => false,
    }
}

/// The verdict, by the call that is there for these sides.
fn verdict(alloc: Global, text: &[u8], any_seq: AnySeq) -> Result<Checked, CheckFault> {
    match any_seq {
        AnySeq::OfNone => check(alloc, text, false),
        AnySeq::OfBoth => check(alloc, text, true),
        AnySeq::OfClient | AnySeq::OfAdapter => check_by_side(alloc, text, any_seq),
    }
}

fn judge(alloc: Global, text: &str, any_seq: AnySeq, names_all: bool) -> Result<Judged, Outcome> {
    let checked = match verdict(alloc, text.as_bytes(), any_seq) {
        Ok(checked) => checked,
        Err(fault) => return refused(alloc, fault),
    };
    match check_all(alloc, text.as_bytes(), any_seq) {
        Ok(report) if is_first(checked, &report) => {
            with_texts(alloc, text, any_seq, &report, names_all)
        }
        Ok(_) => Err(Outcome::Wrong),
        Err(CheckFault::OutOfMemory) => Err(Outcome::Refused),
        Err(_) => Err(Outcome::Wrong),
    }
}

/// Whether a text is at its place in a list.
fn is_at(texts: &[String], place: usize, text: &str, came: &mut String) -> Outcome {
    match texts.get(place) {
        Some(found) => {
            note(came, found.as_str());
            Outcome::of(found.as_str() == text)
        }
        None => wrong(came, "there are no more"),
    }
}

impl Judged {
    /// Whether this is the verdict.
    fn is_told(&mut self, text: &str, came: &mut String) -> Outcome {
        self.is_named = true;
        if let Some(fault) = self.fault {
            tell(came, &fault);
            return Outcome::Wrong;
        }
        if text == "legal" {
            if let Some(found) = self.found.first() {
                note(came, found.as_str());
            }
            return Outcome::of(self.found.is_empty());
        }
        self.named = 1;
        is_at(&self.found, 0, text, came)
    }

    /// Whether this is the next finding.
    fn is_found(&mut self, text: &str, came: &mut String) -> Outcome {
        let place = self.named;
        self.named = place.saturating_add(1);
        is_at(&self.found, place, text, came)
    }

    /// Whether this is the next request that nothing has answered.
    fn is_unanswered(&mut self, text: &str, came: &mut String) -> Outcome {
        let place = self.asked;
        self.asked = place.saturating_add(1);
        is_at(&self.unanswered, place, text, came)
    }

    fn is_refused(&mut self, alloc: Global, name: &str, came: &mut String) -> Outcome {
        self.is_named = true;
        let Some(fault) = self.fault else {
            return wrong(came, "it is a transcript");
        };
        tell(came, &fault);
        Outcome::of_tried(is_printed(alloc, &fault, name))
    }

    /// Whether the row has named all, where it says so.
    fn is_complete(&self) -> bool {
        !self.names_all || (self.named == self.found.len() && self.asked == self.unanswered.len())
    }
}

impl Player for Judged {
    fn open(alloc: Global, setting: &Setting<'_>, _came: &mut String) -> Result<Self, Outcome> {
        let mut text = String::new(alloc);
        match add_all(alloc, &mut text, setting.row) {
            Ok(()) => {
                if has_line(setting.row, "unended") {
                    let _ = text.pop();
                }
                judge(
                    alloc,
                    text.as_str(),
                    any_seq_of(setting.row),
                    has_line(setting.row, "all"),
                )
            }
            Err(outcome) => Err(outcome),
        }
    }

    fn follow(&mut self, alloc: Global, line: &str, came: &mut String) -> Outcome {
        match line.split_once(' ') {
            Some(("=", text)) => self.is_told(text, came),
            Some(("+", text)) => self.is_found(text, came),
            Some(("?", text)) => self.is_unanswered(text, came),
            Some(("!", name)) => self.is_refused(alloc, name, came),
            _ => Outcome::Right,
        }
    }

    fn finish(&mut self, _alloc: Global, came: &mut String) -> Outcome {
        if !self.is_named {
            return wrong(came, "the row does not say what is told");
        }
        if !self.is_complete() {
            return wrong(came, "the row does not name all");
        }
        Outcome::Right
    }

    fn forget(&mut self) {}
}
