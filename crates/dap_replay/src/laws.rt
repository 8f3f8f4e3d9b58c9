//! Laws of the definitions, each on a function with nothing to run.
ghost use Rattle.dap_debuggee.specs.Laws.{StopsLast};
ghost use Rattle.dap_debuggee.specs.StayLaws.{FramesAreConstant, SourcesAreConstant};
ghost use Rattle.dap_replay.specs.Played.{shown_of, FollowsPlayed};
ghost use Rattle.dap_replay.specs.PlainMoves.{PlaysWithoutStops};
ghost use Rattle.dap_replay.specs.Polls.{PollsGiveThePieces, HeldGivesNothing};

/// Polls of a recorded debuggee that runs give the pieces of its output in order, and then how the run ends.
pub fn polls_tell_the_pieces()
    ensures { PollsGiveThePieces }
{}

/// A recorded debuggee that is held, and was not asked to pause, gives nothing after its output, poll after poll.
pub fn held_gives_nothing()
    ensures { HeldGivesNothing }
{}

/// A recording of which no moment has a stop of its own is played as one by rules that know no such stops.
pub fn plays_without_stops()
    ensures { PlaysWithoutStops }
{}

/// A stop of a recorded debuggee lasts until it is asked to go on or to end.
pub fn recorded_stops_last()
    ensures { StopsLast shown_of FollowsPlayed }
{}

/// Frames, scopes and variables of a recorded debuggee change only by a start, a resume, a poll that gives a stop, a going on or an
/// exit, the end, and a value that is set: not even what was refused is given later.
pub fn recorded_frames_are_constant()
    ensures { FramesAreConstant shown_of FollowsPlayed }
{}

/// The sources of a recorded debuggee never change, and neither do their texts.
pub fn recorded_sources_are_constant()
    ensures { SourcesAreConstant shown_of FollowsPlayed }
{}
