//! Laws of the definitions, each on a function with nothing to run.
ghost use Rattle.dap_body.specs.GivenNumbers.{BodiesGiveTheirNumbers};
ghost use Rattle.dap_body.specs.BesideLaws.{MoreIsBeside, OwnFieldsAreInOrder};
ghost use Rattle.dap_body.specs.PlainBodies.{EventBodiesArePlain, ExplainedBodiesArePlain, FailureBodiesArePlain, ResponseBodiesArePlain};
ghost use Rattle.dap_body.specs.ReadAgain.{WhatIsWrittenIsReadAgain};

/// What the builders of bodies give can stand in a message that is written, however long its lists
/// and texts are: a message with such a body is plain where its numbers and its command are.
pub fn bodies_are_plain()
    ensures responses { ResponseBodiesArePlain }
    ensures failures { FailureBodiesArePlain }
    ensures explained { ExplainedBodiesArePlain }
    ensures events { EventBodiesArePlain }
{}

/// The references that a body gives, as `frame_ids` and `holders_of` read them, are the numbers that
/// it was built with, in their order, each that is in the range of references, and no other.
pub fn bodies_give_their_numbers()
    ensures { BodiesGiveTheirNumbers }
{}

/// Of each body that is written here and read by [`view`](crate::view), with its numbers in range: what is read is what was
/// written, every element in its place, and every member of its own.
pub fn what_is_written_is_read_again()
    ensures { WhatIsWrittenIsReadAgain }
{}

/// Members that stand beside a row's own fields leave each of these as it was, also one that is absent, and each is there.
/// With none, a body is as the profile has it.
pub fn more_is_beside()
    ensures beside { MoreIsBeside }
    ensures own { OwnFieldsAreInOrder }
{}
