//! Sources, and one moment over them, each read alone.
ghost use Rattle.dap_recording.specs.Reading.{Gives, read_moment, sources_of};

use crate::reading::RecordingFault;
use crate::rows;
use crate::snapshot::Snapshot;
use crate::sources::Sources;
use crate::texts::Texts;
use dap_json::Tree;

impl Sources {
    /// The sources that JSON is: what stands in an object at `sources`.
    ///
    /// # Errors
    /// `BadKey` with the first bad key. `OutOfMemory` where memory for a text, a list, a table or the place of the key
    /// is refused.
    pub fn read(texts: &mut Texts, sources: &Tree) -> Result<Sources, RecordingFault>
        ensures { Gives result (sources_of sources.now) }
    {
        Ok(rows::sources_in(texts, sources.value())?)
    }
}

impl Snapshot {
    /// The moment that JSON is, over sources: an element of what stands in an object at `moments`. A frame may have no source.
    ///
    /// # Errors
    /// Those of [`Sources::read`].
    pub fn read(
        texts: &mut Texts,
        sources: &Sources,
        moment: &Tree,
    ) -> Result<Snapshot, RecordingFault>
        ensures { Gives result (read_moment sources.now moment.now) }
    {
        Ok(rows::moment_alone(texts, sources.as_slice(), moment.value())?)
    }
}
