//! Laws of the definitions, each on a function with nothing to run.
ghost use Rattle.dap_query.specs.Laws.{EachAnswerIsSound, EachQueryIsAnsweredOrRefused, NumbersNameObjects};

/// Each answer gives references to just the objects that it names, and what its body gives is live.
pub fn each_answer_is_sound()
    ensures { EachAnswerIsSound }
{}

/// A query that the debuggee refuses fails; any other has a body with a number for each object that it names, or there is no
/// number for one of them.
pub fn each_query_is_answered_or_refused()
    ensures { EachQueryIsAnsweredOrRefused }
{}

/// The numbers that objects are given name them, each in its place, and a number that named something before names it still.
pub fn numbers_name_objects()
    ensures { NumbersNameObjects }
{}
