//! A message read in one pass with no tree: its heading, the references that its body gives, and whether it has no fault.
//!
//! Which row a body has to keep depends on the name of its command or event, which may come after it. Then the name is looked
//! for at the end of the text. If that was another one in the end, it is not known whether the message has a fault.
ghost use Rattle.std.specs.Prelude.{◌≡◌, false, codes, map, option_map, Option, Some, None, IfSome, IfOk, OnOk, IsTrue};
ghost use Rattle.serde_json.specs.Data.{Data, Members, no_members, put};
ghost use Rattle.dap_json.specs.Field.{is_null, unless_null, tree_at};
ghost use Rattle.dap_json.specs.ObjectReader.{Describes, IsRestOf, IsNext};
ghost use Rattle.dap_command.specs.Gathered.{AreGivenBy};
ghost use Rattle.dap_envelope.specs.Heading.{IsKindOf};
ghost use Rattle.dap_envelope.specs.Meaning.{MeansKind};
ghost use Rattle.dap_envelope.specs.declared.message.Kind.{Kind as TheKind};
ghost use Rattle.dap_shape.specs.Faults.{row_named, held_fault, fault_in};
ghost use Rattle.dap_shape.specs.Headings.{IsHeadingWithShape};
ghost use Rattle.dap_shape.specs.Rows.{requests as request_rows, responses as response_rows, events as event_rows};
ghost use Rattle.dap_shape.specs.Seen.{row_seen, entry_seen};
ghost use Rattle.dap_shape.specs.PrivateSound.{rows_guessed, name_guessed, AreArguments, IsBody, IsRead};

use crate::body::pass_body;
use crate::entries::{events, requests, responses};
use crate::message::field_named;
use crate::shape::{Entry, Field, Kind, Shape};
use crate::sound::{is_null, value};
use dap_command::GatheredReferences;
use dap_envelope::{Heading, HeadingKind, Noted, heading_of, none_noted, note_member};
use dap_json::object_reader::{Invalid, MAX_DEPTH, MemberValue, ObjectReader, Scratch};
use memchr::{memchr, memmem};
use std::str::from_utf8;

/// By which name the row for a body is looked for.
#[derive(Clone, Copy, Drop)]
pub(crate) enum Guess<'a> {
    Response(&'a str),
    Event(&'a str),
}

/// What was read of a message.
#[derive(Drop)]
pub(crate) struct Walked<'a> {
    pub(crate) noted: Noted<'a>,
    /// The command by which its arguments have no fault; none where it has no arguments.
    pub(crate) arguments: Option<&'a str>,
    /// The name by which its body has no fault; none where it has no body.
    pub(crate) body: Option<Guess<'a>>,
}

// ---- guesses: any name would do

/// In so many bytes at the end of a message a name is looked for.
const TAIL: usize = 160;

fn tail(body: &[u8]) -> &[u8] {
    match body.len().checked_sub(TAIL) {
        Some(start) => &body[start..],
        None => body,
    }
}

/// The text after a key in the last bytes of a message.
fn text_at_end<'a>(body: &'a [u8], key: &[u8]) -> Option<&'a str> {
    let tail = tail(body);
    let place = memmem::rfind(tail, key)?;
    let text = &tail[place + key.len()..];
    let end = memchr(b'"', text)?;
    match from_utf8(&text[..end]) {
        Ok(text) => Some(text),
        Err(_) => None,
    }
}

/// The command that was noted, or else the one at the end.
fn guessed_command<'a>(noted: &Noted<'a>, body: &'a [u8]) -> &'a str {
    if let Some(MemberValue::Text(name)) = noted.command {
        return name;
    }
    text_at_end(body, b"\"command\":\"").unwrap_or("")
}

/// Whether it is a failure, of whose body nothing is asked.
fn is_failure(noted: &Noted<'_>, body: &[u8]) -> bool {
    if let Some(MemberValue::Boolean(success)) = noted.success {
        return !success;
    }
    memmem::rfind(tail(body), b"\"success\":false").is_some()
}

fn guess_of<'a>(noted: &Noted<'a>, body: &'a [u8]) -> Guess<'a> {
    if let Some(MemberValue::Text(name)) = noted.event {
        return Guess::Event(name);
    }
    let command = guessed_command(noted, body);
    if command.is_empty() {
        return Guess::Event(text_at_end(body, b"\"event\":\"").unwrap_or(""));
    }
    if is_failure(noted, body) {
        return Guess::Event("");
    }
    Guess::Response(command)
}

// ---- what stands at the keys of a message

/// Passes the arguments of a command that come next.
fn pass_arguments<'a>(
    object_reader: &mut ObjectReader<'a>,
    command: &str,
) -> Result<MemberValue<'a>, Invalid>
    ensures { IfOk result (λ passed. (d : Data) × IsNext d object_reader.old object_reader.new × Describes passed d × (is_null d ≡ false → held_fault (row_named request_rows command.now) (Some d) ≡ None)) }
{
    match field_named(requests(), command) {
        None => object_reader.pass(),
        Some(row) => value(&mut object_reader.reader, row.shape(), MAX_DEPTH - 1),
    }
}

/// The same; the command, unless they are `null`.
fn take_arguments<'a>(
    object_reader: &mut ObjectReader<'a>,
    command: &'a str,
) -> Result<Option<&'a str>, Invalid>
    ensures { IfOk result (λ name. (d : Data) × IsNext d object_reader.old object_reader.new × AreArguments (option_map (λ name. name.now) name) (unless_null (Some d))) }
{
    let passed = pass_arguments(object_reader, command)?;
    if is_null(passed) {
        return Ok(None);
    }
    Ok(Some(command))
}

fn row_of_guess(guess: Guess<'_>) -> Option<Field>
    ensures { option_map row_seen result ≡ row_named (rows_guessed guess.entry) (name_guessed guess.entry) }
{
    match guess {
        Guess::Response(name) => field_named(responses(), name),
        Guess::Event(name) => field_named(events(), name),
    }
}

/// Passes the body that comes next, and gathers what it gives.
fn take_body(
    object_reader: &mut ObjectReader<'_>,
    guess: Guess<'_>,
    given: &mut GatheredReferences,
) -> Result<(), Invalid>
    ensures { OnOk result ((d : Data) × IsNext d object_reader.old object_reader.new × AreGivenBy given.new d × IsBody (Some guess.entry) (unless_null (Some d))) }
{
    let Some(row) = row_of_guess(guess) else {
        return given.gather(object_reader);
    };
    let Shape::One(Kind::Object(name)) = row.shape() else {
        return Err(Invalid);
    };
    pass_body(&mut object_reader.reader, name, given)
}

/// Takes the value of a key.
fn take_member<'a>(
    object_reader: &mut ObjectReader<'a>,
    body: &'a [u8],
    key: &str,
    read: &mut Walked<'a>,
    given: &mut GatheredReferences,
) -> Result<(), Invalid>
    ensures { OnOk result ((d : Data) × IsNext d object_reader.old object_reader.new × ((found : Members) → IsRead read.old given.old found → IsRead read.new given.new (put key.now d found))) }
{
    match key {
        "arguments" => {
            let command = guessed_command(&read.noted, body);
            read.arguments = take_arguments(object_reader, command)?;
        }
        "body" => {
            let name = guess_of(&read.noted, body);
            take_body(object_reader, name, given)?;
            read.body = Some(name);
        }
        _ => note_member(&mut read.noted, key, object_reader.pass()?),
    }
    Ok(())
}

/// Takes the members of an object, all of them to come.
fn take_members<'a>(
    object_reader: &mut ObjectReader<'a>,
    body: &'a [u8],
    read: &mut Walked<'a>,
    given: &mut GatheredReferences,
) -> Result<(), Invalid>
    requires { IsRead read.old given.old no_members }
    ensures { OnOk result ((ms : Members) × IsRestOf object_reader.old no_members ms × IsRead read.new given.new ms) }
{
    while let Some(key) = object_reader.next_key()? {
        take_member(object_reader, body, key, read, given)?;
    }
    Ok(())
}

// ---- whether there is no fault

/// Whether a message of this name has to have what the row is for.
fn is_required(entries: &'static [Entry], name: &str) -> bool
    ensures { result ≡ false → held_fault (row_named (map entry_seen entries.now) name.now) None ≡ None }
{
    matches!(field_named(entries, name), Some(Field::Required(..)))
}

fn is_sound_request(command: &str, arguments: Option<&str>) -> bool
    ensures { IsTrue result → (held : Option Data) → AreArguments (option_map (λ name. name.now) arguments.entry) held → held_fault (row_named request_rows command.now) held ≡ None }
{
    match arguments {
        None => !is_required(requests(), command),
        Some(name) => name == command,
    }
}

fn is_sound_response(command: &str, body: Option<Guess<'_>>) -> bool
    ensures { IsTrue result → (held : Option Data) → IsBody body.entry held → held_fault (row_named response_rows command.now) held ≡ None }
{
    match body {
        None => !is_required(responses(), command),
        Some(Guess::Response(name)) => name == command,
        Some(Guess::Event(_)) => false,
    }
}

fn is_sound_event(event: &str, body: Option<Guess<'_>>) -> bool
    ensures { IsTrue result → (held : Option Data) → IsBody body.entry held → held_fault (row_named event_rows event.now) held ≡ None }
{
    match body {
        None => !is_required(events(), event),
        Some(Guess::Event(name)) => name == event,
        Some(Guess::Response(_)) => false,
    }
}

fn is_sound(kind: &HeadingKind<'_>, arguments: Option<&str>, body: Option<Guess<'_>>) -> bool
    ensures { IsTrue result → (k : TheKind) (d : Data) → IsKindOf kind.now k → MeansKind d k → AreArguments (option_map (λ name. name.now) arguments.entry) (tree_at (codes "arguments") d) → IsBody body.entry (tree_at (codes "body") d) → fault_in k ≡ None }
{
    match kind {
        HeadingKind::Request { command } => is_sound_request(command, arguments),
        HeadingKind::Response {
            success,
            command,
            ..
        } => !*success || is_sound_response(command, body),
        HeadingKind::Event { event } => is_sound_event(event, body),
        HeadingKind::Other { .. } => true,
    }
}

/// What [`read_heading_and_references`](dap_envelope::read_heading_and_references) gives, and whether it was seen on the way
/// that the message has no fault ([`message_fault`](crate::message_fault)). Where it was not, there may be one or none. That
/// it is seen, and that there is something, of most messages is no clause: tests show it.
pub fn read_heading_and_shape<'a>(
    scratch: &'a mut Scratch,
    given: &mut GatheredReferences,
    body: &'a [u8],
) -> Option<(Heading<'a>, bool)>
    ensures { IfSome result (IsHeadingWithShape body.now given.new) }
{
    let Ok(mut object_reader) = ObjectReader::open(body, scratch) else {
        return None;
    };
    given.clear();
    let mut read = Walked {
        noted: none_noted(),
        arguments: None,
        body: None,
    };
    let Ok(()) = take_members(&mut object_reader, body, &mut read, given) else {
        return None;
    };
    let heading = heading_of(&read.noted)?;
    let is_sound = is_sound(&heading.kind, read.arguments, read.body);
    Some((heading, is_sound))
}
