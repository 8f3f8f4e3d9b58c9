//! Why a line of a host is refused, and the line that says so.
ghost use Rattle.std.specs.Prelude.{◌≡◌, ◌++◌, OnOk};
ghost use Rattle.dap_line.specs.Written.{dropped_name as dropped_name_of, reason_of, refusal_front, refusal_line};

use dap_envelope::BodyRefusal;
use dap_live::Dropped;
use dap_recording::RecordingKey;
use dap_stream::{body_refusal_name, push_number};
use std::alloc::AllocError;

/// A key of what a host tells.
#[derive(Clone, Copy, Debug, PartialEq, Eq)]
pub enum HostKey {
    Happened,
    Category,
    Output,
    Reason,
    Thread,
    Moment,
    Code,
    Text,
    Value,
    Later,
    Holder,
    Variables,
    Name,
    Asked,
    Number,
    Sources,
    More,
    Why,
    ShowUser,
    Placed,
    Refuses,
    Path,
    SourceReference,
    Breakpoints,
    Line,
    Verified,
    Message,
    Event,
    Body,
    Answer,
    Ask,
    Arguments,
}

impl HostKey {
    ghost use Rattle.dap_line.specs.Written.{host_key_name};

    /// Its name.
    pub fn name(self) -> &'static str
        ensures { result.now ≡ host_key_name self }
    {
        match self {
            HostKey::Happened => "happened",
            HostKey::Category => "category",
            HostKey::Output => "output",
            HostKey::Reason => "reason",
            HostKey::Thread => "thread",
            HostKey::Moment => "moment",
            HostKey::Code => "code",
            HostKey::Text => "text",
            HostKey::Value => "value",
            HostKey::Later => "later",
            HostKey::Holder => "holder",
            HostKey::Variables => "variables",
            HostKey::Name => "name",
            HostKey::Asked => "asked",
            HostKey::Number => "number",
            HostKey::Sources => "sources",
            HostKey::More => "more",
            HostKey::Why => "why",
            HostKey::ShowUser => "showUser",
            HostKey::Placed => "placed",
            HostKey::Refuses => "refuses",
            HostKey::Path => "path",
            HostKey::SourceReference => "sourceReference",
            HostKey::Breakpoints => "breakpoints",
            HostKey::Line => "line",
            HostKey::Verified => "verified",
            HostKey::Message => "message",
            HostKey::Event => "event",
            HostKey::Body => "body",
            HostKey::Answer => "answer",
            HostKey::Ask => "ask",
            HostKey::Arguments => "arguments",
        }
    }
}

/// Why a line of a host is refused.
#[derive(Clone, Copy, Debug, PartialEq, Eq)]
pub enum Refusal {
    /// It has more bytes than a line may have. Nothing of it is kept.
    TooLong,
    /// It begins neither with `> ` nor with `! `.
    BadLine,
    /// What should be a message of the client is none.
    Body(BodyRefusal),
    /// The message, of the client or for it, is longer than a body may be.
    BodyTooLong,
    /// The session has ended: no message is taken any more.
    Ended,
    /// What should tell what happened is no JSON, or nests too deep.
    NotJson,
    /// It has no value of the right kind at a key, the first one in the order of its kind.
    BadKey(HostKey),
    /// The moment is none, by this key of recordings.
    BadMoment(RecordingKey),
    /// The sources are none, by this key of recordings.
    BadSources(RecordingKey),
    /// It is dropped.
    Dropped(Dropped),
    /// No own number is left for the event that it tells, the answer that it gives, or the request that it asks by.
    SeqExhausted,
    /// It answers a request that is not lent.
    NotLent,
    /// It asks the client, while as many such requests wait for a response as may.
    Full,
}

fn dropped_name(dropped: Dropped) -> &'static str
    ensures { result.now ≡ dropped_name_of dropped }
{
    match dropped {
        Dropped::OutOfTurn => "OutOfTurn",
        Dropped::OutOfRange => "OutOfRange",
        Dropped::TooManySources => "TooManySources",
        Dropped::Told => "Told",
        Dropped::TooManyHolders => "TooManyHolders",
    }
}

/// Appends a word, and the name of a key.
fn push_key(out: &mut Vec<u8>, word: &[u8], key: &str) -> Result<(), AllocError>
    ensures { OnOk result (out.new.items ≡ out.old.items ++ (word.now ++ key.now)) }
{
    out.extend_from_slice(word)?;
    out.extend_from_slice(key.as_bytes())
}

/// Appends why a line is refused, in a word or two.
#[tactic(auto, unfolding(crate::specs::Written::reason_of))]
fn push_reason(out: &mut Vec<u8>, why: Refusal) -> Result<(), AllocError>
    ensures { OnOk result (out.new.items ≡ out.old.items ++ reason_of why) }
{
    match why {
        Refusal::TooLong => out.extend_from_slice(b"TooLong"),
        Refusal::BadLine => out.extend_from_slice(b"BadLine"),
        Refusal::Body(cause) => out.extend_from_slice(body_refusal_name(cause).as_bytes()),
        Refusal::BodyTooLong => out.extend_from_slice(b"BodyTooLong"),
        Refusal::Ended => out.extend_from_slice(b"Ended"),
        Refusal::NotJson => out.extend_from_slice(b"NotJson"),
        Refusal::BadKey(key) => push_key(out, b"BadKey ", key.name()),
        Refusal::BadMoment(key) => push_key(out, b"BadMoment ", key.name()),
        Refusal::BadSources(key) => push_key(out, b"BadSources ", key.name()),
        Refusal::Dropped(dropped) => out.extend_from_slice(dropped_name(dropped).as_bytes()),
        Refusal::SeqExhausted => out.extend_from_slice(b"SeqExhausted"),
        Refusal::NotLent => out.extend_from_slice(b"NotLent"),
        Refusal::Full => out.extend_from_slice(b"Full"),
    }
}

/// Appends what comes before the reason.
fn push_front(out: &mut Vec<u8>, number: u64) -> Result<(), AllocError>
    ensures { OnOk result (out.new.items ≡ out.old.items ++ refusal_front number) }
{
    out.extend_from_slice(b"! {\"refused\":")?;
    push_number(out, number)?;
    out.extend_from_slice(b",\"why\":\"")?;
    Ok(())
}

/// Appends the line that refuses the line of a number.
pub fn push_refusal(out: &mut Vec<u8>, number: u64, why: Refusal) -> Result<(), AllocError>
    ensures { OnOk result (out.new.items ≡ out.old.items ++ refusal_line number why) }
{
    push_front(out, number)?;
    push_reason(out, why)?;
    out.extend_from_slice(b"\"}\n")
}
