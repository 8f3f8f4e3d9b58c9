//! Laws of the tables over every list of calls, each on a function with nothing to run.
ghost use Rattle.dap_tables.specs.KnownLaws.{KnownIsASet};
ghost use Rattle.dap_tables.specs.TableLaws.{NumbersNeverComeAgain, IdsNeverComeAgain, LinesAreCounted};

/// A reference that was let die never names anything again and its number is never given again; one that is neither let
/// die nor taken back names what it named.
pub fn numbers_never_come_again()
    ensures { NumbersNeverComeAgain }
{}

/// Ids of breakpoints are 1, 2 and so on, each given once.
pub fn ids_never_come_again()
    ensures { IdsNeverComeAgain }
{}

/// Lines in place of those of one source stand beside those of all others.
pub fn lines_are_counted()
    ensures { LinesAreCounted }
{}

/// Known references are a set: what is held is what was held and what was given, each once, and what is held already
/// changes nothing.
pub fn known_is_a_set()
    ensures { KnownIsASet }
{}
