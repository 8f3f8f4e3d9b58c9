//! What a message says of itself, and the references that its body gives, read in one pass without a tree.
ghost use Rattle.std.specs.Prelude.{◌≡◌, IfSome, IfOk, OnOk};
ghost use Rattle.serde_json.specs.Data.{Data, Members, no_members, null, put};
ghost use Rattle.dap_command.specs.Gathered.{AreGivenBy};
ghost use Rattle.dap_json.specs.ObjectReader.{IsRestOf, IsNext};
ghost use Rattle.dap_envelope.specs.ResponseReferences.{AreGivenIn, NotesAndGathers};
ghost use Rattle.dap_envelope.specs.Heading.{IsHeadingOf};
ghost use Rattle.dap_envelope.specs.Meaning.{Msg};
ghost use Rattle.dap_envelope.specs.declared.message.Message.{Message};

use crate::heading::{Heading, Noted, kind, none_noted, note_member, whole};
use dap_command::GatheredReferences;
use dap_json::object_reader::{Invalid, ObjectReader, Scratch};

/// Takes the value of a key.
fn take_member<'a>(
    object_reader: &mut ObjectReader<'a>,
    key: &str,
    noted: &mut Noted<'a>,
    given: &mut GatheredReferences,
) -> Result<(), Invalid>
    ensures { OnOk result ((d : Data) × IsNext d object_reader.old object_reader.new × ((found : Members) → NotesAndGathers noted.old given.old found → NotesAndGathers noted.new given.new (put key.now d found))) }
{
    match key {
        "body" => given.gather(object_reader)?,
        _ => note_member(noted, key, object_reader.pass()?),
    }
    Ok(())
}

/// Takes the members of an object, all of them to come. What is noted is not moved about: that would cost time.
fn take_members<'a>(
    object_reader: &mut ObjectReader<'a>,
    noted: &mut Noted<'a>,
    given: &mut GatheredReferences,
) -> Result<(), Invalid>
    requires { NotesAndGathers noted.old given.old no_members }
    ensures { OnOk result ((ms : Members) × IsRestOf object_reader.old no_members ms × NotesAndGathers noted.new given.new ms) }
{
    while let Some(key) = object_reader.next_key()? {
        take_member(object_reader, key, noted, given)?;
    }
    Ok(())
}

/// The heading of the message that a body is, with what the response's own body gives, in `given`. There is none where
/// the body is no message, where what it gives has to be looked for in its tree, and where memory is refused; then
/// it is not said what `given` tells. That there is one everywhere else is no clause: tests show it, and whoever gets none asks
/// [`read_message`](crate::read_message). Unescaped names are lent from `scratch`, which grows to the length of the body
/// and is kept from body to body.
pub fn read_heading_and_references<'a>(
    scratch: &'a mut Scratch,
    given: &mut GatheredReferences,
    body: &'a [u8],
) -> Option<Heading<'a>>
    ensures { IfSome result (λ heading. (m : Message) × Msg body.now m × IsHeadingOf heading m × AreGivenIn given.new m.kind) }
{
    let Ok(mut object_reader) = ObjectReader::open(body, scratch) else {
        return None;
    };
    given.clear();
    let mut noted = none_noted();
    let Ok(()) = take_members(&mut object_reader, &mut noted, given) else {
        return None;
    };
    let seq = whole(&noted.seq)?;
    let kind = kind(&noted)?;
    Some(Heading { seq, kind })
}
