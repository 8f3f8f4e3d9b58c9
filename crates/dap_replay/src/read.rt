//! A debuggee that plays the recording that bytes are.
use crate::recorded::Recorded;
use dap_recording::{Recording, RecordingFault};
use std::alloc::Global;

impl Recorded {
    ghost use Rattle.dap_json.specs.Read.{json_of};
    ghost use Rattle.dap_recording.specs.Reading.{verdict_of};
    ghost use Rattle.dap_replay.specs.Played.{Reads};

    /// The recording that bytes are, not started.
    ///
    /// `OutOfMemory` comes where memory for the JSON value, a text, a list or a table is refused.
    pub fn read(alloc: Global, bytes: &[u8]) -> Result<Recorded, RecordingFault>
        ensures { Reads result (verdict_of (json_of bytes.now)) }
    {
        let recording = Recording::read(alloc, bytes)?;
        Ok(Recorded::of_recording(alloc, recording))
    }
}
