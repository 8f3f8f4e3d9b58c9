//! Why bytes are no recording, and where.
ghost use Rattle.std.specs.Prelude.{◌≡◌, IfOk};
ghost use Rattle.serde_json.specs.View.{view};
ghost use Rattle.dap_json.specs.Read.{json_of};
ghost use Rattle.dap_recording.specs.Reading.{recording_of};
ghost use Rattle.dap_recording.specs.Refusals.{bad_key_in, refusal_of as refusal_of_data};

use crate::place::RecordingRefusal;
use crate::stop::Stop;
use crate::texts::Texts;
use crate::{causes, rows};
use dap_json::ParseFault;
use serde_json::Value;
use std::alloc::{AllocError, Global};

/// The first bad key of an object, if it has one.
fn bad_key(texts: &mut Texts, value: &Value) -> Result<Option<RecordingRefusal>, AllocError>
    ensures { IfOk result (λ found. found ≡ bad_key_in (recording_of (view value.now))) }
{
    match rows::recording(texts, value) {
        Ok(_) => Ok(None),
        Err(Stop::Bad(place)) => Ok(Some(RecordingRefusal::BadKey(Box::into_inner(place)))),
        Err(Stop::OutOfMemory) => Err(AllocError),
    }
}

/// Why bytes are no recording, and where, or `None` where they are one: that is why
/// [`Recording::read`](crate::Recording::read) refuses them, as the law
/// [`refusals_are_faults`](crate::laws::refusals_are_faults) says. They are read once more.
///
/// # Errors
/// Where memory for what is read, or for the place, is refused.
pub fn refusal_of(alloc: Global, bytes: &[u8]) -> Result<Option<RecordingRefusal>, AllocError>
    ensures { IfOk result (λ found. found ≡ refusal_of_data (json_of bytes.now)) }
{
    let value = match dap_json::parse(alloc, bytes) {
        Ok(value) => value,
        Err(ParseFault::NotJson) => return Ok(Some(RecordingRefusal::NotJson)),
        Err(ParseFault::OutOfMemory) => return Err(AllocError),
    };
    if !value.is_object() {
        let found = causes::kind_of(&value);
        return Ok(Some(RecordingRefusal::NotObject { found }));
    }
    let mut texts = Texts::new(alloc, 0)?;
    bad_key(&mut texts, &value)
}
