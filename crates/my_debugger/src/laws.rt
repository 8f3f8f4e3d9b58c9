//! What holds of this debugger beside the laws of every debuggee, each on a function with nothing to run.
ghost use Rattle.dap_debuggee.specs.StayLaws.{FramesAreConstant, SourcesAreConstant};
ghost use Rattle.my_debugger.specs.ToyActs.{FollowsToy};
ghost use Rattle.my_debugger.specs.ToyShown.{shown_toy};

/// Frames, scopes and variables change only by a start, a resume, a poll that gives a stop, a going on or an exit, the end, and a
/// value that is set.
pub fn frames_are_constant()
    ensures { FramesAreConstant shown_toy FollowsToy }
{}

/// The source never changes.
pub fn sources_are_constant()
    ensures { SourcesAreConstant shown_toy FollowsToy }
{}
