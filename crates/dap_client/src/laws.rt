//! Laws of the definitions, each on a function with nothing to run.
ghost use Rattle.dap_client.specs.Laws.{EachNameIsShort, EachStepGoesOn};
ghost use Rattle.dap_client.specs.Projection.{EachStepProjects};
ghost use Rattle.dap_client.specs.Within.{EachStepStaysWithin};

use dap_history::laws::histories_grow;
use dap_tables::laws::known_is_a_set;

/// Each step goes on as its history does: a request is outstanding, or kept, exactly while it is unanswered, each response
/// that is accepted or written answers exactly one request that was unanswered, and the phase, the capabilities, the
/// references and what was announced are those of the history.
pub fn each_step_goes_on()
    ensures { EachStepGoesOn }
{
    histories_grow();
}

/// What is true of every session stays true: no two outstanding requests have the same number, nor have two that are kept; no
/// more of either are there, and no more references are known, than there is room for; each outstanding request names a command,
/// each reference is known once, and no number is given past the greatest.
pub fn each_step_stays_within()
    ensures { EachStepStaysWithin }
{
    known_is_a_set();
}

/// Each step is one of the model of two ends (`dap_ends`), which sees classes of commands in place of commands, and of the
/// state the phase, `ready`, the numbers, the requests of both directions, the references and what was announced alone;
/// requests stay whole. A response closes both or neither, by the same fault, but that the client alone closes by
/// `ReferenceLimit`, where the model has no fault and would know more references than there is room for. An event closes
/// neither. A request of the adapter closes the client where one with its number is kept, or where it is to be answered at
/// once and no number is left; else it is kept, or answered at once. Of a call that is not refused no refusal holds. A law
/// over both ends goes by that.
pub fn each_step_projects()
    ensures { EachStepProjects }
{}

/// The name of each command has at most 64 bytes, so that a request of this client is read.
pub fn each_name_is_short()
    ensures { EachNameIsShort }
{}
