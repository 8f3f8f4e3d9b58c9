//! Laws of the definitions, each on a function with nothing to run.
ghost use Rattle.dap_host.specs.Parts.{OutputIsToldWhole};

use dap_recording::laws::pieces_are_the_output;

/// What is told of output in pieces is the whole of it, and no piece has more than 128 bytes.
pub fn output_is_told_whole()
    ensures { OutputIsToldWhole }
{
    pieces_are_the_output();
}
