//! What a line says, read with memory that is kept from line to line.
//!
//! An object is read member by member, and a message by its heading. Whatever else comes, and where memory is refused, those
//! functions are asked that read all and say why; so only what is given has to be right.
ghost use Rattle.std.specs.Prelude.{◌≡◌, Some, None, Err, IfOk, IfSome};
ghost use Rattle.serde_json.specs.Data.{Members, no_members};
ghost use Rattle.serde_json.specs.View.{view, members_view};
ghost use Rattle.dap_json.specs.ObjectReader.{IsRestOf};
ghost use Rattle.dap_json.specs.Read.{json_of};
ghost use Rattle.dap_json.specs.declared.bytes.ParseFault.{ParseFault};
ghost use Rattle.dap_envelope.specs.Refusals.{Bad};
ghost use Rattle.dap_line.specs.Told.{IsMessage};

use dap_envelope::{BodyFault, BodyRefusal, read_heading, read_message_with};
use dap_json::object_reader::{Invalid, ObjectReader, Scratch};
use dap_json::{ParseFault, parse};
use serde_json::{Map, Value};
use std::alloc::{AllocError, AllocFailed, Global};

/// Why no object is given: what came is refused, or memory is.
#[derive(Clone, Copy, Debug, Drop)]
struct NotGiven;

impl From<Invalid> for NotGiven {
    fn from(_invalid: Invalid) -> NotGiven {
        NotGiven
    }
}

impl From<AllocError> for NotGiven {
    fn from(_refused: AllocError) -> NotGiven {
        NotGiven
    }
}

impl<T: Drop> From<AllocFailed<T>> for NotGiven {
    fn from(_refused: AllocFailed<T>) -> NotGiven {
        NotGiven
    }
}

/// The members of an object, all of them to come.
fn members(
    alloc: Global,
    object_reader: &mut ObjectReader<'_>,
) -> Result<Map<String, Value>, NotGiven>
    ensures { IfOk result (λ found. IsRestOf object_reader.old no_members (members_view found.entries)) }
{
    let mut found = Map::new(alloc);
    while let Some(name) = object_reader.next_key()? {
        let key = String::from_str(alloc, name)?;
        let member = object_reader.tree(alloc)?.into_value()?;
        drop(found.insert(key, member)?);
    }
    Ok(found)
}

/// The object that bytes are, if it is given here.
fn object(alloc: Global, scratch: &mut Scratch, bytes: &[u8]) -> Option<Map<String, Value>>
    ensures { IfSome result (λ found. json_of bytes.now ≡ Some (view (Value.Object found))) }
{
    let Ok(mut object_reader) = ObjectReader::open(bytes, scratch) else {
        return None;
    };
    match members(alloc, &mut object_reader) {
        Ok(found) => Some(found),
        Err(_) => None,
    }
}

/// [`parse`] with memory that is lent, so that whoever reads many lines makes it once. What it held does not matter.
pub fn read_value(alloc: Global, scratch: &mut Scratch, bytes: &[u8]) -> Result<Value, ParseFault>
    ensures ok { IfOk result (λ v. json_of bytes.now ≡ Some (view v)) }
    ensures refused { result ≡ Err ParseFault.NotJson → json_of bytes.now ≡ None }
{
    match object(alloc, scratch, bytes) {
        Some(found) => Ok(Value::Object(found)),
        None => parse(alloc, bytes),
    }
}

/// Why a body is no message, where it is none.
pub fn body_refusal(
    alloc: Global,
    scratch: &mut Scratch,
    body: &[u8],
) -> Result<Option<BodyRefusal>, AllocError>
    ensures refused { IfOk result (λ refusal. IfSome refusal (Bad body.now)) }
    ensures message { IfOk result (λ refusal. refusal ≡ None → IsMessage body.now) }
{
    if let Some(_heading) = read_heading(scratch, body) {
        return Ok(None);
    }
    match read_message_with(alloc, body, scratch) {
        Ok(_message) => Ok(None),
        Err(BodyFault::Refused(cause)) => Ok(Some(cause)),
        Err(BodyFault::OutOfMemory) => Err(AllocError),
    }
}
