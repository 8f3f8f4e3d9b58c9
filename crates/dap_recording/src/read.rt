//! The recording that bytes are, and the sources of the file that they are.
ghost use Rattle.std.specs.Prelude.{IfOk};
ghost use Rattle.dap_json.specs.Read.{json_of};
ghost use Rattle.dap_recording.specs.Reading.{IsVerdict, file_sources, verdict_of};
ghost use Rattle.dap_recording.specs.Recording.{IsRecording};

use crate::reading::RecordingFault;
use crate::recording::Recording;
use crate::sources::Sources;
use crate::texts::Texts;
use crate::{one_pass, rows};
use dap_json::ParseFault;
use std::alloc::Global;

impl Recording {
    /// The recording that bytes are. Where `sources` comes before `moments`, and each once, no tree of the whole is made.
    ///
    /// `OutOfMemory` comes where memory for the JSON value, a text, a list, a table or the place of a bad key is refused.
    pub fn read(alloc: Global, bytes: &[u8]) -> Result<Recording, RecordingFault>
        ensures verdict { IsVerdict result (verdict_of (json_of bytes.now)) }
        ensures holds { IfOk result (λ recording. IsRecording recording) }
    {
        let mut texts = Texts::new(alloc, bytes.len())?;
        if let Some(recording) = one_pass::recording(&mut texts, bytes) {
            return Ok(recording);
        }
        let value = match dap_json::parse(alloc, bytes) {
            Ok(value) => value,
            Err(ParseFault::NotJson) => return Err(RecordingFault::NotJson),
            Err(ParseFault::OutOfMemory) => return Err(RecordingFault::OutOfMemory),
        };
        if !value.is_object() {
            return Err(RecordingFault::NotObject);
        }
        Ok(rows::recording(&mut texts, &value)?)
    }
}

impl Sources {
    /// The sources of a file: what stands at `sources` in the JSON object that the bytes are. What else it has is not looked at, so
    /// a recording will do.
    ///
    /// # Errors
    /// `NotJson` and `NotObject` as of [`Recording::read`], `BadKey` with the first bad key. `OutOfMemory` where memory for the JSON
    /// value, a text, a list, a table or the place of a bad key is refused.
    pub fn of_file(texts: &mut Texts, bytes: &[u8]) -> Result<Sources, RecordingFault>
        ensures { IsVerdict result (file_sources (json_of bytes.now)) }
    {
        let file = match dap_json::parse(texts.alloc, bytes) {
            Ok(file) => file,
            Err(ParseFault::NotJson) => return Err(RecordingFault::NotJson),
            Err(ParseFault::OutOfMemory) => return Err(RecordingFault::OutOfMemory),
        };
        if file.is_object() {
            Ok(rows::sources_at(texts, &file)?)
        } else {
            Err(RecordingFault::NotObject)
        }
    }
}
