//! Calls that take no memory, each with what it answers.
//!
//! What a call works on is made first, and that takes memory. The rows are called one after the other in one test. Where its
//! Nth allocation is refused, it is one of those that make what some row works on: that row says nothing, and all others are
//! right. `scripts/refuse-allocations` refuses each N up to the last that is reached; so if a call took memory, its first
//! allocation would be one of them, and its row would be wrong.
//!
//! In the same way the rows of an adapter and of a client are played, where lines after `free of memory` take none, and the
//! tables of `test_tables`.

use crate::outcomes::{judge, refused};
use dap_body::view::{evaluate, set_variable, source};
use dap_call::{Call, CallFault, read_call};
use dap_command::{Capabilities, Command, Gate, frames_given, holders_given};
use dap_debuggee::{Debuggee, DebuggeeFault, How};
use dap_envelope::{BodyFault, read_message};
use dap_frame::{End, Fed, FrameFault, Frames, LimitFault, Limits, Refusal, write_frame};
use dap_json::{ParseFault, parse};
use dap_recording::RecordingFault;
use dap_replay::Recorded;
use dap_tables::Seq;
use dap_tool::{ToolFault, status};
use serde_json::Value;
use std::alloc::{AllocError, Global};
use std::test::Fail;
use test_kit::samples::RECORDING;

/// What is done with a reader, and what it answers.
#[derive(Clone, Copy)]
enum Act {
    /// So many bytes of a piece are used, and whether a body is ready then.
    Feed(&'static [u8], usize, bool),
    /// A piece is refused, at this offset.
    Refuse(&'static [u8], Refusal, u64),
    /// This body is lent.
    Lends(&'static [u8]),
    LendsNone,
    Release,
    Close,
    /// The bytes that are held, and all that were used.
    Counts(usize, u64),
    Ends(End),
}

/// What is called, and what it has to answer.
#[derive(Clone, Copy)]
enum Deed {
    /// Seven limits, and the first that is out of its range.
    Limits([u64; 7], Option<LimitFault>),
    UsualLimits,
    /// A limit that is set among the usual ones, and which is refused then.
    SetsLimit(LimitFault, u64, Option<LimitFault>),
    Status(ToolFault, u8),
    /// A name, the command of that name, and its gate.
    Named(&'static str, Option<(Command, Option<Gate>)>),
    /// The numbers up to a greatest one.
    Numbers(u64),
    /// Whether the call with these arguments is plain.
    PlainCall(Command, &'static str, bool),
    PlainMessage(&'static str, bool),
    /// A message, whether it is the response to this request, and whether it is an event.
    Lends(&'static str, u64, bool, bool),
    /// The body of `evaluate`, its result and its number.
    Evaluates(&'static str, &'static str, u32),
    /// The body of `setVariable`, and the value.
    SetsVariable(&'static str, &'static str),
    /// The body of `source`, and the text.
    GivesSource(&'static str, &'static str),
    /// Whether what a body offers allows a command.
    Offers(&'static str, Command, bool),
    /// The same, once it is changed by an object.
    Changes(&'static str, &'static str, Command, bool),
    FramesGiven(&'static str, &'static [u32]),
    HoldersGiven(Command, &'static str, &'static [u32]),
    /// A reader of bodies of up to 1024 bytes.
    Reads(&'static [Act]),
    /// A hundred frames of the greatest size in pieces of seven bytes.
    ReadsAHundred,
    /// A debuggee that was started ends.
    EndsDebuggee,
    /// One of which a variable was set goes on.
    GoesOn,
    /// A holder and a name with which nothing can be set in a debuggee that was started.
    RefusesToSet(u64, &'static str),
}

static DEEDS: [Deed; 38] = [
    Deed::Limits([32, 1024, 2, 1, 1, 1, 1], None),
    Deed::Limits([32, 1023, 1, 1, 1, 1, 1], Some(LimitFault::Body)),
    Deed::UsualLimits,
    Deed::SetsLimit(LimitFault::Body, 65536, None),
    Deed::SetsLimit(LimitFault::Body, 1023, Some(LimitFault::Body)),
    Deed::Status(ToolFault::Truncated, 4),
    Deed::Status(ToolFault::OutOfMemory, 6),
    Deed::Named("threads", Some((Command::Threads, None))),
    Deed::Named("stepBack", Some((Command::StepBack, Some(Gate::StepBack)))),
    Deed::Named("goto", None),
    Deed::Numbers(3),
    Deed::PlainCall(
        Command::SetBreakpoints,
        r#"{"source":{"path":"/a.c"},"lines":[2]}"#,
        true,
    ),
    Deed::PlainCall(Command::Launch, r#"{"a":[{"b":"c"},7]}"#, true),
    Deed::PlainCall(Command::Launch, r#"{"a":[{"b":1.5}]}"#, false),
    Deed::PlainMessage(
        r#"{"seq":1,"type":"request","command":"threads","arguments":{"a":[7]}}"#,
        true,
    ),
    Deed::PlainMessage(
        r#"{"seq":1,"type":"request","command":"threads","arguments":{"a":[1.5]}}"#,
        false,
    ),
    Deed::Lends(
        r#"{"seq":1,"type":"response","request_seq":3,"success":false,"command":"next","message":"m","body":{"a":1}}"#,
        3,
        true,
        false,
    ),
    Deed::Lends(
        r#"{"seq":3,"type":"event","event":"e","body":{"a":1}}"#,
        3,
        false,
        true,
    ),
    Deed::Evaluates(r#"{"result":"7","variablesReference":4}"#, "7", 4),
    Deed::SetsVariable(r#"{"value":"9"}"#, "9"),
    Deed::GivesSource(r#"{"content":"ret"}"#, "ret"),
    Deed::GivesSource(r#"{"content":""}"#, ""),
    Deed::Offers(r#"{"supportsStepBack":true}"#, Command::StepBack, true),
    Deed::Offers(r#"{"supportsStepBack":true}"#, Command::Terminate, false),
    Deed::Changes(
        r#"{"supportsStepBack":true}"#,
        r#"{"supportsStepBack":false}"#,
        Command::StepBack,
        false,
    ),
    Deed::Changes(
        r#"{"supportsStepBack":true}"#,
        r#"{"supportsTerminateRequest":true}"#,
        Command::StepBack,
        true,
    ),
    Deed::FramesGiven(r#"{"stackFrames":[{"id":1},{"id":2},{}]}"#, &[1, 2]),
    Deed::HoldersGiven(
        Command::Scopes,
        r#"{"scopes":[{"variablesReference":2},{"variablesReference":0}]}"#,
        &[2],
    ),
    Deed::HoldersGiven(
        Command::Variables,
        r#"{"variables":[{"variablesReference":3},{"variablesReference":4}]}"#,
        &[3, 4],
    ),
    Deed::HoldersGiven(Command::Evaluate, r#"{"variablesReference":7}"#, &[7]),
    Deed::Reads(&[
        Act::Counts(0, 0),
        Act::LendsNone,
        Act::Ends(End::Clean),
        Act::Feed(b"Content-Length: 2\r\n", 19, false),
        Act::Counts(19, 19),
        Act::Ends(End::Truncated),
        Act::Feed(b"\r\n{", 3, false),
        Act::Counts(1, 22),
        Act::LendsNone,
        Act::Feed(b"}x", 1, true),
        Act::Counts(2, 23),
        Act::Lends(b"{}"),
        Act::Feed(b"x", 0, true),
        Act::Release,
        Act::LendsNone,
        Act::Counts(0, 23),
        Act::Ends(End::Clean),
    ]),
    Deed::Reads(&[
        Act::Refuse(b"A: b\r\n\r\nx", Refusal::NoLength, 0),
        Act::Counts(0, 8),
        Act::LendsNone,
        Act::Ends(End::Refused),
        Act::Refuse(b"x", Refusal::NoLength, 0),
        Act::Counts(0, 8),
    ]),
    Deed::Reads(&[
        Act::Feed(b"Content", 7, false),
        Act::Close,
        Act::Counts(0, 7),
        Act::Feed(b"x", 0, false),
        Act::Ends(End::Refused),
    ]),
    Deed::ReadsAHundred,
    Deed::EndsDebuggee,
    Deed::GoesOn,
    Deed::RefusesToSet(1, "q"),
    Deed::RefusesToSet(7, "x"),
];

fn limits_are(seven: [u64; 7], fault: Option<LimitFault>) -> bool {
    let [h, b, n, r, k, s, m] = seven;
    match Limits::new(h, b, n, r, k, s, m) {
        Ok(limits) => fault.is_none() && limits.body() as u64 == b,
        Err(found) => fault == Some(found),
    }
}

fn usual_limits_are_usual() -> bool {
    let usual = Limits::usual();
    (usual.header(), usual.body(), usual.requests()) == (8192, 4194304, 64)
}

fn sets_limit(limit: LimitFault, value: u64, fault: Option<LimitFault>) -> bool {
    match Limits::usual().with(limit, value) {
        Ok(limits) => fault.is_none() && limits.get(limit) == value,
        Err(found) => fault == Some(found),
    }
}

fn is_named(name: &str, wanted: Option<(Command, Option<Gate>)>) -> bool {
    match Command::of_name(name) {
        Some(command) => wanted == Some((command, command.gate())) && command.name() == name,
        None => wanted.is_none(),
    }
}

fn counts_up_to(greatest: u64) -> bool {
    let mut numbers = Seq::open(greatest);
    for number in 1..=greatest {
        if numbers.next() != Some(number) || numbers.left() != greatest - number {
            return false;
        }
    }
    numbers.next().is_none()
}

/// The tree of a text; nothing where memory for it is refused.
fn tree_of(alloc: Global, text: &str) -> Result<Value, Option<bool>> {
    match parse(alloc, text.as_bytes()) {
        Ok(tree) => Ok(tree),
        Err(fault) => Err(refused(fault == ParseFault::OutOfMemory)),
    }
}

fn reads_call(alloc: Global, command: Command, arguments: &Value) -> Result<Call, Option<bool>> {
    match read_call(alloc, command, Some(arguments)) {
        Ok(call) => Ok(call),
        Err(fault) => Err(refused(fault == CallFault::OutOfMemory)),
    }
}

fn is_plain_call_of(alloc: Global, command: Command, tree: &Value, plain: bool) -> Option<bool> {
    match reads_call(alloc, command, tree) {
        Ok(call) => {
            let is_plain = call.plain();
            // The proof of a call is shorter than that of a value that goes out of scope.
            drop(call);
            Some(is_plain == plain)
        }
        Err(outcome) => outcome,
    }
}

fn is_plain_message(alloc: Global, body: &str, plain: bool) -> Option<bool> {
    match read_message(alloc, body.as_bytes()) {
        Ok(message) => {
            let is_plain = message.plain();
            drop(message);
            Some(is_plain == plain)
        }
        Err(fault) => refused(fault == BodyFault::OutOfMemory),
    }
}

fn lends_parts(alloc: Global, body: &str, seq: u64, response: bool, event: bool) -> Option<bool> {
    match read_message(alloc, body.as_bytes()) {
        Ok(message) => {
            let lends = (
                message.response_to(seq).is_some(),
                message.event().is_some(),
            );
            drop(message);
            Some(lends == (response, event))
        }
        Err(fault) => refused(fault == BodyFault::OutOfMemory),
    }
}

fn evaluates(tree: &Value, text: &str, reference: u32) -> bool {
    match evaluate(tree) {
        Ok(found) => found.result == text && found.variables_reference == reference,
        Err(_) => false,
    }
}

fn offers(tree: &Value, command: Command, wanted: bool) -> bool {
    Capabilities::read(Some(tree)).allows(command) == wanted
}

fn changes(
    alloc: Global,
    tree: &Value,
    object: &str,
    command: Command,
    wanted: bool,
) -> Option<bool> {
    match tree_of(alloc, object) {
        Ok(object) => {
            let mut offered = Capabilities::read(Some(tree));
            offered.update(&object);
            drop(object);
            Some(offered.allows(command) == wanted)
        }
        Err(outcome) => outcome,
    }
}

fn gives_frames(tree: &Value, wanted: &[u32]) -> bool {
    let mut place: usize = 0;
    for number in frames_given(tree) {
        if wanted.get(place).copied() != Some(number) {
            return false;
        }
        place = place.saturating_add(1);
    }
    place == wanted.len()
}

fn gives_holders(command: Command, tree: &Value, wanted: &[u32]) -> bool {
    let mut place: usize = 0;
    for number in holders_given(command, tree) {
        if wanted.get(place).copied() != Some(number) {
            return false;
        }
        place = place.saturating_add(1);
    }
    place == wanted.len()
}

/// What comes of a deed with the tree of a text.
fn does_with_tree(alloc: Global, deed: Deed, tree: &Value) -> Option<bool> {
    match deed {
        Deed::PlainCall(command, _, plain) => is_plain_call_of(alloc, command, tree, plain),
        Deed::Evaluates(_, text, reference) => Some(evaluates(tree, text, reference)),
        Deed::SetsVariable(_, value) => Some(set_variable(tree) == Ok(value)),
        Deed::GivesSource(_, text) => Some(source(tree) == Ok(text)),
        Deed::Offers(_, command, wanted) => Some(offers(tree, command, wanted)),
        Deed::Changes(_, object, command, wanted) => changes(alloc, tree, object, command, wanted),
        Deed::FramesGiven(_, wanted) => Some(gives_frames(tree, wanted)),
        Deed::HoldersGiven(command, _, wanted) => Some(gives_holders(command, tree, wanted)),
        _ => Some(false),
    }
}

fn is_done_with(alloc: Global, deed: Deed, text: &str) -> Option<bool> {
    match tree_of(alloc, text) {
        Ok(tree) => {
            let outcome = does_with_tree(alloc, deed, &tree);
            drop(tree);
            outcome
        }
        Err(outcome) => outcome,
    }
}

fn lends(frames: &mut Frames, wanted: Option<&[u8]>) -> bool {
    match (frames.body(), wanted) {
        (Some(body), Some(wanted)) => body == wanted,
        (None, None) => true,
        _ => false,
    }
}

fn is_fed(frames: &mut Frames, act: Act) -> bool {
    match act {
        Act::Feed(piece, used, ready) => frames.feed(piece) == Ok(Fed { used, ready }),
        Act::Refuse(piece, cause, offset) => {
            frames.feed(piece) == Err(FrameFault { cause, offset })
        }
        Act::Lends(body) => lends(frames, Some(body)),
        Act::LendsNone => lends(frames, None),
        Act::Release => {
            frames.release();
            true
        }
        Act::Close => {
            frames.close();
            true
        }
        Act::Counts(held, used) => (frames.held(), frames.used()) == (held, used),
        Act::Ends(end) => frames.finish() == end,
    }
}

fn are_fed(frames: &mut Frames, acts: &[Act]) -> bool {
    for act in acts {
        if !is_fed(frames, *act) {
            return false;
        }
    }
    true
}

/// A reader of bodies of up to 1024 bytes.
fn reader(alloc: Global) -> Result<Frames, Option<bool>> {
    match Limits::new(32, 1024, 64, 65536, 4096, 9007199254740991, 2147483647) {
        Ok(limits) => match Frames::open(alloc, &limits) {
            Ok(frames) => Ok(frames),
            Err(_) => Err(None),
        },
        Err(_) => Err(Some(false)),
    }
}

fn reads(alloc: Global, acts: &[Act]) -> Option<bool> {
    match reader(alloc) {
        Ok(mut frames) => {
            let is_right = are_fed(&mut frames, acts);
            drop(frames);
            Some(is_right)
        }
        Err(outcome) => outcome,
    }
}

/// How many bodies of 1024 letters a piece makes whole; nothing where one is otherwise, or more is held than a body.
fn bodies_in(frames: &mut Frames, piece: &[u8]) -> Option<usize> {
    let body = [b'a'; 1024];
    let mut rest = piece;
    let mut bodies: usize = 0;
    for _ in 0..piece.len() {
        let Ok(fed) = frames.feed(rest) else {
            return None;
        };
        if fed.ready {
            if !lends(frames, Some(&body)) {
                return None;
            }
            frames.release();
            bodies = bodies.saturating_add(1);
        }
        let (_, later) = rest.split_at(fed.used.min(rest.len()));
        rest = later;
        if rest.is_empty() {
            break;
        }
    }
    if frames.held() > 1024 {
        return None;
    }
    Some(bodies)
}

/// Whether all frames are read in pieces of seven bytes.
fn are_read_by_sevens(frames: &mut Frames, stream: &[u8]) -> bool {
    let mut bodies: usize = 0;
    for piece in stream.chunks(7) {
        match bodies_in(frames, piece) {
            Some(count) => bodies = bodies.saturating_add(count),
            None => return false,
        }
    }
    bodies == 100 && frames.finish() == End::Clean
}

fn add_a_hundred(stream: &mut Vec<u8>) -> Result<(), AllocError> {
    let body = [b'a'; 1024];
    for _ in 0..100 {
        write_frame(stream, &body)?;
    }
    Ok(())
}

/// Once there is the stream and a reader, no memory is taken.
fn reads_stream(alloc: Global, stream: &[u8]) -> Option<bool> {
    match reader(alloc) {
        Ok(mut frames) => {
            let is_right = are_read_by_sevens(&mut frames, stream);
            drop(frames);
            Some(is_right)
        }
        Err(outcome) => outcome,
    }
}

fn reads_a_hundred(alloc: Global) -> Option<bool> {
    let mut stream = Vec::new(alloc);
    match add_a_hundred(&mut stream) {
        Ok(()) => reads_stream(alloc, &stream),
        Err(_) => None,
    }
}

fn is_over(alloc: Global, debuggee: &mut Recorded) -> Option<bool> {
    if debuggee.start(alloc).is_err() {
        return None;
    }
    debuggee.end();
    match debuggee.threads(alloc) {
        Ok(threads) => Some(threads.is_empty()),
        Err(_) => None,
    }
}

fn ends_debuggee(alloc: Global) -> Option<bool> {
    match Recorded::read(alloc, RECORDING) {
        Ok(mut debuggee) => {
            let outcome = is_over(alloc, &mut debuggee);
            drop(debuggee);
            outcome
        }
        Err(fault) => refused(fault == RecordingFault::OutOfMemory),
    }
}

/// Whether it goes on once the variable `x` was set; nothing where memory for that is refused.
fn sets_and_goes_on(alloc: Global, debuggee: &mut Recorded) -> Option<bool> {
    if debuggee.start(alloc).is_err() || polls(alloc, debuggee).is_none() {
        return None;
    }
    match debuggee.assigned(alloc, 1, "x", "9") {
        Ok(_) => match debuggee.assign(alloc, 1, "x", "9") {
            Ok(()) => Some(debuggee.resume(alloc, How::Next, 1).is_ok()),
            Err(_) => None,
        },
        Err(fault) => refused(fault == DebuggeeFault::OutOfMemory),
    }
}

/// Polls up to the entry; nothing where memory for that is refused.
fn polls(alloc: Global, debuggee: &mut Recorded) -> Option<()> {
    for _ in 0..2 {
        if debuggee.poll(alloc).is_err() {
            return None;
        }
    }
    Some(())
}

fn goes_on(alloc: Global) -> Option<bool> {
    match Recorded::read(alloc, RECORDING) {
        Ok(mut debuggee) => {
            let outcome = sets_and_goes_on(alloc, &mut debuggee);
            drop(debuggee);
            outcome
        }
        Err(fault) => refused(fault == RecordingFault::OutOfMemory),
    }
}

/// Whether nothing is told that a variable could be set to.
fn is_refused(alloc: Global, debuggee: &mut Recorded, holder: u64, name: &str) -> bool {
    if debuggee.start(alloc).is_err() {
        return false;
    }
    match debuggee.assigned(alloc, holder, name, "9") {
        Ok(assigned) => {
            drop(assigned);
            false
        }
        Err(fault) => fault == DebuggeeFault::Refused,
    }
}

fn refuses_to_set(alloc: Global, holder: u64, name: &str) -> Option<bool> {
    match Recorded::read(alloc, RECORDING) {
        Ok(mut debuggee) => {
            let is_so = is_refused(alloc, &mut debuggee, holder, name);
            drop(debuggee);
            Some(is_so)
        }
        Err(fault) => refused(fault == RecordingFault::OutOfMemory),
    }
}

/// What comes of a row.
fn is_done(alloc: Global, deed: Deed) -> Option<bool> {
    match deed {
        Deed::Limits(seven, fault) => Some(limits_are(seven, fault)),
        Deed::UsualLimits => Some(usual_limits_are_usual()),
        Deed::SetsLimit(limit, value, fault) => Some(sets_limit(limit, value, fault)),
        Deed::Status(fault, wanted) => Some(status(&fault) == wanted),
        Deed::Named(name, wanted) => Some(is_named(name, wanted)),
        Deed::Numbers(greatest) => Some(counts_up_to(greatest)),
        Deed::PlainMessage(body, plain) => is_plain_message(alloc, body, plain),
        Deed::Lends(body, seq, response, event) => {
            lends_parts(alloc, body, seq, response, event)
        }
        Deed::PlainCall(_, text, _)
        | Deed::Evaluates(text, _, _)
        | Deed::SetsVariable(text, _)
        | Deed::GivesSource(text, _)
        | Deed::Offers(text, _, _)
        | Deed::Changes(text, _, _, _)
        | Deed::FramesGiven(text, _)
        | Deed::HoldersGiven(_, text, _) => is_done_with(alloc, deed, text),
        Deed::Reads(acts) => reads(alloc, acts),
        Deed::ReadsAHundred => reads_a_hundred(alloc),
        Deed::EndsDebuggee => ends_debuggee(alloc),
        Deed::GoesOn => goes_on(alloc),
        Deed::RefusesToSet(holder, name) => refuses_to_set(alloc, holder, name),
    }
}

#[test]
fn calls_that_take_no_memory(rt: HostRuntime) -> Result<(), Fail> {
    for (place, deed) in DEEDS.iter().enumerate() {
        let outcome = is_done(rt.alloc(), *deed);
        if outcome == Some(false) {
            eprintln!(rt; "row {place} is not right")?;
        }
        judge(&rt, outcome)?;
    }
    Ok(())
}
