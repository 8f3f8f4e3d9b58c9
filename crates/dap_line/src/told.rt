//! What a host tells of its debugger, as it is read.
ghost use Rattle.std.specs.Prelude.{◌≡◌, [], take, IfOk, IsTrue, Some};
ghost use Rattle.serde_json.specs.Find.{as_str, as_array};
ghost use Rattle.serde_json.specs.View.{view, items_view};
ghost use Rattle.dap_json.specs.Lent.{lent_data};
ghost use Rattle.dap_json.specs.More.{more_of};
ghost use Rattle.dap_json.specs.Numbers.{number_of};
ghost use Rattle.dap_json.specs.Writable.{is_plain_tree as plain_tree};
ghost use Rattle.dap_message.specs.MessageParts.{is_plain_outcome};
ghost use Rattle.dap_recording.specs.Pieces.{piece_length};
ghost use Rattle.dap_line.specs.Told.{Gives, GivesList, Tells, value_at, required_at, optional_at, category_in as category_in_data, category_named as category_of_name, variable_of, each_variable, variables_of as variables_of_items, variables_in as variables_told, learned_by as learned_of_key, loaded_in as loaded_of};
ghost use Rattle.dap_line.specs.Told.{output_in as output_of, stop_in as stop_of, continued_in as continued_of, exit_in as exit_of, learned_in as learned_of, no_value_in as no_value_of, text_by as text_of_keys, plain_tree_of, event_in as event_of, outcome_of as outcome_said, answer_in as answer_of, ask_in as ask_of, happened_or_message as happened_or_message_of, IsPlainSaid, kind_named as kind_of_name, kind_of, told_in as told_of, happening_of, question_named as question_of_name, question_of, asked_in as asked_of, happened_in as happened_of, explanation_in as explanation_of, refusal_in as refusal_of, said_in as said_of};
ghost use Rattle.std.specs.Option.{is_some};

use crate::places::placed_in;
use crate::reading::read_value;
use crate::refusal::{HostKey, Refusal};
use dap_debuggee::{Category, Explanation, Happening, Variable};
use dap_envelope::is_plain_tree;
use dap_json::numbers::whole;
use dap_json::object_reader::Scratch;
use dap_json::property::Property;
use dap_json::{List, More, ParseFault, Text, Tree, field};
use dap_live::{Ahead, Placed};
use dap_message::Outcome;
use dap_recording::{numbers, piece_length};
use serde_json::Value;
use std::alloc::{AllocError, AllocFailed, Global};

/// What a host tells.
#[derive(Drop)]
pub enum Told {
    Output {
        category: Category,
        text: Text,
        more: More,
    },
    Stopped {
        reason: Text,
        thread: i64,
        moment: Tree,
        later: bool,
        more: More,
    },
    Continued {
        thread: i64,
    },
    Exited {
        code: i32,
    },
    Learned {
        text: Text,
        value: Option<Text>,
        holder: Option<u64>,
        more: Option<More>,
    },
    NoValue {
        text: Text,
        why: Explanation,
    },
    Variables {
        holder: u64,
        variables: List<Variable>,
    },
    Loaded {
        sources: Tree,
    },
}

/// What a host says of the next message.
#[derive(Drop)]
pub enum Note {
    /// Where breakpoints are that it sets.
    Places(Placed),
    /// Why what it asks the debugger to do is refused.
    Refuses(Explanation),
}

impl Note {
    ghost use Rattle.std.specs.Prelude.{◌≡◌};
    ghost use Rattle.dap_line.specs.Told.{ahead_with};

    /// Keeps it, in place of what was said of the same before.
    pub fn keep_in(self, ahead: &mut Ahead)
        ensures { ahead.new ≡ ahead_with self ahead.old }
    {
        match self {
            Note::Places(placed) => ahead.placed = Some(placed),
            Note::Refuses(why) => ahead.refusal = Some(why),
        }
    }
}

/// What a host says: what it tells, an event, an answer, a request to the client, something of the next message, or a question.
#[derive(Drop)]
pub enum Said {
    Happened(Told),
    /// An event that is told by its name, with a body that can be written.
    Event {
        event: Text,
        body: Option<Tree>,
    },
    /// An answer to the lent request with this number.
    Answer {
        seq: u64,
        outcome: Outcome,
    },
    /// A request to the client by its name, with arguments that can be written.
    Ask {
        command: Text,
        arguments: Option<Tree>,
    },
    OfNext(Note),
    /// What a number of the client names.
    Target(u32),
}

/// Why what a host tells is not read.
#[derive(Clone, Copy, Debug)]
pub enum Unread {
    Refused(Refusal),
    OutOfMemory,
}

impl From<AllocError> for Unread {
    ghost use Rattle.dap_line.specs.declared.told.Unread.TheVariants.{OutOfMemory};

    ghost from_gives = { λ _ fault. fault ≡ OutOfMemory };

    fn from(_refused: AllocError) -> Unread {
        Unread::OutOfMemory
    }
}

impl<T: Drop> From<AllocFailed<T>> for Unread {
    ghost use Rattle.dap_line.specs.declared.told.Unread.TheVariants.{OutOfMemory};

    ghost from_gives = { λ _ fault. fault ≡ OutOfMemory };

    fn from(_refused: AllocFailed<T>) -> Unread {
        Unread::OutOfMemory
    }
}

impl From<HostKey> for Unread {
    ghost use Rattle.dap_line.specs.declared.refusal.Refusal.TheVariants.{BadKey};
    ghost use Rattle.dap_line.specs.declared.told.Unread.TheVariants.{Refused};

    ghost from_gives = { λ key fault. fault ≡ Refused (BadKey key) };

    fn from(key: HostKey) -> Unread {
        Unread::Refused(Refusal::BadKey(key))
    }
}

/// What stands at a key of an object. `null` counts as absent.
pub(crate) fn at<'v>(told: &'v Value, key: HostKey) -> Property<'v, HostKey>
    ensures key { result.key ≡ key }
    ensures found { lent_data result.found ≡ value_at key (view told.now) }
{
    let found = field::present(told, key.name());
    Property { found, key }
}

/// The text at a key.
fn text_at(alloc: Global, told: &Value, key: HostKey) -> Result<Text, Unread>
    ensures { Gives result (required_at as_str key (view told.now)) }
{
    Ok(Text::copied(alloc, at(told, key).required_text()?)?)
}

/// A category of output by its name.
pub fn category_named(alloc: Global, name: &str) -> Result<Category, AllocError>
    ensures { IfOk result (λ category. category ≡ category_of_name name.now) }
{
    match name {
        "console" => Ok(Category::Console),
        "important" => Ok(Category::Important),
        "stdout" => Ok(Category::Stdout),
        "stderr" => Ok(Category::Stderr),
        "telemetry" => Ok(Category::Telemetry),
        _ => Ok(Category::Other(Text::copied(alloc, name)?)),
    }
}

/// Where output belongs: to the console where nothing is said.
#[tactic(auto, unfolding(crate::specs::Told::category_in))]
fn category_in(alloc: Global, told: &Value) -> Result<Category, Unread>
    ensures { Gives result (category_in_data (view told.now)) }
{
    match at(told, HostKey::Category).optional_text()? {
        None => Ok(Category::Console),
        Some(name) => Ok(category_named(alloc, name)?),
    }
}

/// The value of what is learned, where it has one.
fn value_in(alloc: Global, told: &Value) -> Result<Option<Text>, Unread>
    ensures { Gives result (optional_at as_str HostKey.Value (view told.now)) }
{
    match at(told, HostKey::Value).optional_text()? {
        None => Ok(None),
        Some(text) => Ok(Some(Text::copied(alloc, text)?)),
    }
}

/// What is said beside a variable or a value, where something is.
pub(crate) fn beside_in(
    alloc: Global,
    told: &Value,
) -> Result<Result<Option<More>, HostKey>, AllocError>
    ensures { IfOk result (λ said. said ≡ optional_at more_of HostKey.More (view told.now)) }
{
    let Some(found) = at(told, HostKey::More).found else {
        return Ok(Ok(None));
    };
    match More::of(alloc, found)? {
        None => Ok(Err(HostKey::More)),
        Some(more) => Ok(Ok(Some(more))),
    }
}

/// The number of a holder, where there is one.
fn holder_in(told: &Value) -> Result<Option<u64>, HostKey>
    ensures { result ≡ optional_at number_of HostKey.Holder (view told.now) }
{
    match at(told, HostKey::Holder).optional_number()? {
        None => Ok(None),
        Some(holder) => Ok(Some(holder as u64)),
    }
}

#[tactic(auto, unfolding(crate::specs::Told::variable_of))]
fn variable_in(alloc: Global, value: &Value) -> Result<Variable, Unread>
    ensures { Gives result (variable_of (view value.now)) }
{
    let name = text_at(alloc, value, HostKey::Name)?;
    let text = text_at(alloc, value, HostKey::Value)?;
    let holder = holder_in(value)?;
    let said = beside_in(alloc, value)?;
    let said = said?;
    Ok(Variable {
        name,
        value: text,
        holder,
        more: said.unwrap_or(More::none()),
    })
}

fn each_variable(alloc: Global, items: &[Value]) -> Result<Vec<Variable>, Unread>
    ensures { GivesList result (each_variable (items_view items.now) []) }
{
    let mut variables = Vec::with_capacity(alloc, items.len())?;
    for item in items {
        variables.push(variable_in(alloc, item)?)?;
    }
    Ok(variables)
}

fn variables_of(alloc: Global, value: &Value) -> Result<List<Variable>, Unread>
    ensures { Gives result (variables_of_items (as_array (view value.now))) }
{
    let Some(items) = value.as_array() else {
        return Err(HostKey::Variables.into());
    };
    Ok(List::new(each_variable(alloc, items)?))
}

#[tactic(auto, unfolding(crate::specs::Told::output_in))]
fn output_in(alloc: Global, told: &Value) -> Result<Told, Unread>
    ensures { Gives result (output_of (view told.now)) }
{
    let category = category_in(alloc, told)?;
    let text = text_at(alloc, told, HostKey::Output)?;
    let said = beside_in(alloc, told)?;
    let more = said?.unwrap_or(More::none());
    Ok(Told::Output {
        category,
        text,
        more,
    })
}

#[tactic(auto, unfolding(crate::specs::Told::stop_in))]
fn stop_in(alloc: Global, told: &mut Value) -> Result<Told, Unread>
    ensures { Gives result (stop_of (view told.old)) }
{
    let reason = text_at(alloc, told, HostKey::Reason)?;
    let thread = at(told, HostKey::Thread).required_int()?;
    let later = at(told, HostKey::Later).flag_or(false)?;
    let said = beside_in(alloc, told)?;
    let more = said?.unwrap_or(More::none());
    let moment = field::take_tree(told, HostKey::Moment.name()).ok_or(HostKey::Moment)?;
    Ok(Told::Stopped {
        reason,
        thread,
        moment,
        later,
        more,
    })
}

#[tactic(auto, unfolding(crate::specs::Told::continued_in))]
fn continued_in(told: &Value) -> Result<Told, Unread>
    ensures { Gives result (continued_of (view told.now)) }
{
    let thread = at(told, HostKey::Thread).required_int()?;
    Ok(Told::Continued { thread })
}

#[tactic(auto, unfolding(crate::specs::Told::exit_in))]
fn exit_in(told: &Value) -> Result<Told, Unread>
    ensures { Gives result (exit_of (view told.now)) }
{
    let code = at(told, HostKey::Code)
        .found
        .and_then(numbers::status)
        .ok_or(HostKey::Code)?;
    Ok(Told::Exited { code })
}

#[tactic(auto, unfolding(crate::specs::Told::learned_in))]
fn learned_in(alloc: Global, told: &Value) -> Result<Told, Unread>
    ensures { Gives result (learned_of (view told.now)) }
{
    let text = text_at(alloc, told, HostKey::Text)?;
    let value = value_in(alloc, told)?;
    let holder = holder_in(told)?;
    let said = beside_in(alloc, told)?;
    let more = said?;
    Ok(Told::Learned {
        text,
        value,
        holder,
        more,
    })
}

/// Words that say why, at a key. The client's user need not see them where nothing is said of that.
#[tactic(auto, unfolding(crate::specs::Told::explanation_in))]
fn explanation_in(alloc: Global, told: &Value, key: HostKey) -> Result<Explanation, Unread>
    ensures { Gives result (explanation_of key (view told.now)) }
{
    let text = text_at(alloc, told, key)?;
    let show_user = at(told, HostKey::ShowUser).flag_or(false)?;
    Ok(Explanation { text, show_user })
}

#[tactic(auto, unfolding(crate::specs::Told::no_value_in))]
fn no_value_in(alloc: Global, told: &Value) -> Result<Told, Unread>
    ensures { Gives result (no_value_of (view told.now)) }
{
    let text = text_at(alloc, told, HostKey::Text)?;
    let why = explanation_in(alloc, told, HostKey::Why)?;
    Ok(Told::NoValue { text, why })
}

/// What a text comes to, or why it has no value.
fn text_by(alloc: Global, told: &Value) -> Result<Told, Unread>
    ensures { Gives result (text_of_keys (value_at HostKey.Value (view told.now)) (value_at HostKey.Why (view told.now)) (view told.now)) }
{
    match (at(told, HostKey::Value).found, at(told, HostKey::Why).found) {
        (None, Some(_)) => no_value_in(alloc, told),
        _ => learned_in(alloc, told),
    }
}

/// The variables of a holder.
#[tactic(auto, unfolding(crate::specs::Told::variables_in))]
fn variables_in(alloc: Global, value: &Value, told: &Value) -> Result<Told, Unread>
    ensures { Gives result (variables_told (view value.now) (view told.now)) }
{
    let holder = at(told, HostKey::Holder).required_number()? as u64;
    let variables = variables_of(alloc, value)?;
    Ok(Told::Variables { holder, variables })
}

/// The variables of a holder where there are some, else what a text comes to.
fn learned_by(alloc: Global, told: &Value) -> Result<Told, Unread>
    ensures { Gives result (learned_of_key (value_at HostKey.Variables (view told.now)) (view told.now)) }
{
    match at(told, HostKey::Variables).found {
        None => text_by(alloc, told),
        Some(value) => variables_in(alloc, value, told),
    }
}

#[tactic(auto, unfolding(crate::specs::Told::loaded_in))]
fn loaded_in(told: &mut Value) -> Result<Told, Unread>
    ensures { Gives result (loaded_of (view told.old)) }
{
    let sources = field::take_tree(told, HostKey::Sources.name()).ok_or(HostKey::Sources)?;
    Ok(Told::Loaded { sources })
}

/// A kind of what a host tells.
#[derive(Clone, Copy)]
enum Kind {
    Output,
    Stopped,
    Continued,
    Exited,
    Learned,
    Loaded,
}

fn kind_named(name: &str) -> Option<Kind>
    ensures { result ≡ kind_of_name name.now }
{
    match name {
        "output" => Some(Kind::Output),
        "stopped" => Some(Kind::Stopped),
        "continued" => Some(Kind::Continued),
        "exited" => Some(Kind::Exited),
        "learned" => Some(Kind::Learned),
        "loaded" => Some(Kind::Loaded),
        _ => None,
    }
}

fn kind_in(value: &Value) -> Option<Kind>
    ensures { result ≡ kind_of (view value.now) }
{
    value.as_str().and_then(kind_named)
}

/// What is told, by its kind.
#[tactic(auto, unfolding(crate::specs::Told::told_in))]
fn told_in(alloc: Global, told: &mut Value) -> Result<Told, Unread>
    ensures { Gives result (told_of (view told.old)) }
{
    let kind = at(told, HostKey::Happened)
        .found
        .and_then(kind_in)
        .ok_or(HostKey::Happened)?;
    match kind {
        Kind::Output => output_in(alloc, told),
        Kind::Stopped => stop_in(alloc, told),
        Kind::Continued => continued_in(told),
        Kind::Exited => exit_in(told),
        Kind::Learned => learned_by(alloc, told),
        Kind::Loaded => loaded_in(told),
    }
}

#[derive(Clone, Copy)]
enum Question {
    Target,
}

fn question_named(name: &str) -> Option<Question>
    ensures { result ≡ question_of_name name.now }
{
    match name {
        "target" => Some(Question::Target),
        _ => None,
    }
}

fn question_in(value: &Value) -> Option<Question>
    ensures { result ≡ question_of (view value.now) }
{
    value.as_str().and_then(question_named)
}

#[tactic(auto, unfolding(crate::specs::Told::asked_in))]
fn asked_in(said: &Value) -> Result<Said, Unread>
    ensures gives { Gives result (asked_of (view said.now)) }
    ensures plain { IfOk result IsPlainSaid }
{
    let _question = at(said, HostKey::Asked)
        .found
        .and_then(question_in)
        .ok_or(HostKey::Asked)?;
    let number = at(said, HostKey::Number).required_number()?;
    Ok(Said::Target(number))
}

#[tactic(auto, unfolding(crate::specs::Told::happened_in))]
fn happened_in(alloc: Global, said: &mut Value) -> Result<Said, Unread>
    ensures gives { Gives result (happened_of (view said.old)) }
    ensures plain { IfOk result IsPlainSaid }
{
    let told = told_in(alloc, said)?;
    Ok(Said::Happened(told))
}

/// That what the next message asks for is refused, and why.
#[tactic(auto, unfolding(crate::specs::Told::refusal_in))]
fn refusal_in(alloc: Global, said: &Value) -> Result<Said, Unread>
    ensures gives { Gives result (refusal_of (view said.now)) }
    ensures plain { IfOk result IsPlainSaid }
{
    let why = explanation_in(alloc, said, HostKey::Refuses)?;
    Ok(Said::OfNext(Note::Refuses(why)))
}

/// What stands at a key, where there is something: it has to be what can be written.
fn plain_tree_at(said: &mut Value, key: HostKey) -> Result<Option<Tree>, HostKey>
    ensures read { result ≡ optional_at plain_tree_of key (view said.old) }
    ensures plain { IfOk result (λ tree. IsTrue (plain_tree tree)) }
{
    let tree = field::take_tree(said, key.name());
    if !is_plain_tree(&tree) {
        return Err(key);
    }
    Ok(tree)
}

/// An event that is told by its name.
#[tactic(auto, unfolding(crate::specs::Told::event_in))]
fn event_in(alloc: Global, said: &mut Value) -> Result<Said, Unread>
    ensures gives { Gives result (event_of (view said.old)) }
    ensures plain { IfOk result IsPlainSaid }
{
    let event = text_at(alloc, said, HostKey::Event)?;
    let body = plain_tree_at(said, HostKey::Body)?;
    Ok(Said::Event { event, body })
}

/// The words that say why a request failed, where there are some.
fn message_in(alloc: Global, said: &Value) -> Result<Option<Text>, Unread>
    ensures { Gives result (optional_at as_str HostKey.Message (view said.now)) }
{
    match at(said, HostKey::Message).optional_text()? {
        None => Ok(None),
        Some(text) => Ok(Some(Text::copied(alloc, text)?)),
    }
}

/// How a request came out: it failed where there are words that say why.
fn outcome_of(message: Option<Text>, body: Option<Tree>) -> Outcome
    requires plain { IsTrue (plain_tree body) }
    ensures outcome { result ≡ outcome_said message body }
    ensures plain { IsTrue (is_plain_outcome result) }
{
    match message {
        None => Outcome::Success(body),
        Some(message) => Outcome::Failure { message, body },
    }
}

/// An answer to a request that is lent.
#[tactic(auto, unfolding(crate::specs::Told::answer_in))]
fn answer_in(alloc: Global, said: &mut Value) -> Result<Said, Unread>
    ensures gives { Gives result (answer_of (view said.old)) }
    ensures plain { IfOk result IsPlainSaid }
{
    let seq = at(said, HostKey::Answer)
        .found
        .and_then(whole)
        .ok_or(HostKey::Answer)?;
    let message = message_in(alloc, said)?;
    let body = plain_tree_at(said, HostKey::Body)?;
    let outcome = outcome_of(message, body);
    Ok(Said::Answer { seq, outcome })
}

/// A request to the client by its name.
#[tactic(auto, unfolding(crate::specs::Told::ask_in))]
fn ask_in(alloc: Global, said: &mut Value) -> Result<Said, Unread>
    ensures gives { Gives result (ask_of (view said.old)) }
    ensures plain { IfOk result IsPlainSaid }
{
    let command = text_at(alloc, said, HostKey::Ask)?;
    let arguments = plain_tree_at(said, HostKey::Arguments)?;
    Ok(Said::Ask { command, arguments })
}

/// Whether something stands at a key.
fn is_there(said: &Value, key: HostKey) -> bool
    ensures { result ≡ is_some (value_at key (view said.now)) }
{
    at(said, key).found.is_some()
}

/// What happened, or, where nothing did, a message for the client: an answer, else a request.
fn happened_or_message(alloc: Global, said: &mut Value) -> Result<Said, Unread>
    ensures gives { Gives result (happened_or_message_of (value_at HostKey.Happened (view said.old)) (value_at HostKey.Answer (view said.old)) (value_at HostKey.Ask (view said.old)) (view said.old)) }
    ensures plain { IfOk result IsPlainSaid }
{
    if is_there(said, HostKey::Happened) {
        return happened_in(alloc, said);
    }
    if is_there(said, HostKey::Answer) {
        return answer_in(alloc, said);
    }
    if is_there(said, HostKey::Ask) {
        return ask_in(alloc, said);
    }
    // With none of the keys it is refused for this one.
    happened_in(alloc, said)
}

/// What is said: a question where there is one, else what is said of the next message, where breakpoints are or that it is
/// refused, else an event, else what happened, else an answer, else a request to the client.
fn said_in(alloc: Global, said: &mut Value) -> Result<Said, Unread>
    ensures gives { Gives result (said_of (view said.old)) }
    ensures plain { IfOk result IsPlainSaid }
{
    if is_there(said, HostKey::Asked) {
        return asked_in(said);
    }
    if is_there(said, HostKey::Placed) {
        return placed_in(alloc, said);
    }
    if is_there(said, HostKey::Refuses) {
        return refusal_in(alloc, said);
    }
    if is_there(said, HostKey::Event) {
        return event_in(alloc, said);
    }
    happened_or_message(alloc, said)
}

/// What the JSON text of a host says.
pub fn read_said(alloc: Global, scratch: &mut Scratch, text: &[u8]) -> Result<Said, Unread>
    ensures tells { Tells result text.now }
    ensures plain { IfOk result IsPlainSaid }
{
    match read_value(alloc, scratch, text) {
        Ok(mut said) => said_in(alloc, &mut said),
        Err(ParseFault::NotJson) => Err(Unread::Refused(Refusal::NotJson)),
        Err(ParseFault::OutOfMemory) => Err(Unread::OutOfMemory),
    }
}

/// The first piece of a text.
fn first_piece(alloc: Global, text: &str) -> Result<Text, AllocError>
    ensures { IfOk result (λ piece. piece ≡ take (piece_length text.now) text.now) }
{
    let (piece, _) = text.split_at(piece_length(text));
    Text::copied(alloc, piece)
}

/// What happens by what is told; of output that is told in several pieces, the first.
pub fn happening_in(alloc: Global, told: &Told) -> Result<Happening, AllocError>
    ensures { IfOk result (λ happening. happening ≡ happening_of told.now) }
{
    match told {
        Told::Output {
            category,
            text,
            more,
        } => Ok(Happening::Output {
            category: category.clone()?,
            text: first_piece(alloc, text.as_str())?,
            more: more.clone()?,
        }),
        Told::Stopped {
            reason,
            thread,
            more,
            ..
        } => Ok(Happening::Stopped {
            reason: reason.clone()?,
            thread: *thread,
            more: more.clone()?,
        }),
        Told::Continued { thread } => Ok(Happening::Continued { thread: *thread }),
        Told::Exited { code } => Ok(Happening::Exited { code: *code }),
        Told::Learned { .. }
        | Told::NoValue { .. }
        | Told::Variables { .. }
        | Told::Loaded { .. } => Ok(Happening::Nothing),
    }
}
