//! Laws of reading. Each function is empty: its contract is the law.
ghost use Rattle.dap_recording.specs.AloneLaw.{AloneIsTheOnlyOne, RecordingsAreFiles};
ghost use Rattle.dap_recording.specs.Pieces.{PiecesAreTheOutput};
ghost use Rattle.dap_recording.specs.Refusals.{RefusalsAreFaults};

/// A moment over sources is read as the only one of a recording.
#[tactic(auto, using(crate::proofs::AloneLemmas::alone_is_the_only_one))]
pub fn alone_is_the_only_one()
    ensures only { AloneIsTheOnlyOne }
{}

/// A recording is a file of its own sources.
#[tactic(auto, using(crate::proofs::IsRead::recordings_are_files))]
pub fn recordings_are_files()
    ensures { RecordingsAreFiles }
{}

/// What [`refusal_of`](crate::refusal_of) says of bytes is why [`Recording::read`](crate::Recording::read) refuses them: it is there
/// just where that is refused, and it has the fault's key.
#[tactic(auto, using(crate::proofs::WhyRefused::refusals_are_why))]
pub fn refusals_are_faults()
    ensures { RefusalsAreFaults }
{}

/// The pieces of texts are the whole of them; none is empty, and none has more than 128 bytes.
pub fn pieces_are_the_output()
    ensures { PiecesAreTheOutput }
{}
