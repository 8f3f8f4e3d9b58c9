//! Laws of the definitions, each on a function with nothing to run.
ghost use Rattle.dap_plan.specs.Answering.{EachStepGoesWell};
ghost use Rattle.dap_plan.specs.BodyLaws.{SuccessesHaveTheirBodies};
ghost use Rattle.dap_plan.specs.GivenLaws.{EachAnswerGivesLive};
ghost use Rattle.dap_plan.specs.Laws.{EachStepGoesOn};
ghost use Rattle.dap_plan.specs.OrderLaws.{FailuresComeInOrder, RefusalsComeInOrder};
ghost use Rattle.dap_plan.specs.OpenedLaws.{LendingStaysWell, OpenedCommandsAreLent};
ghost use Rattle.dap_plan.specs.OfferLaws.{EachOfferIsServed, OffersAreServed, OpenedIsUnserved};
ghost use Rattle.dap_plan.specs.ReferenceLaws.{ReferencesAreApart};
ghost use Rattle.dap_plan.specs.RefusalLaws.{RefusalsChangeNothing};
ghost use Rattle.dap_plan.specs.StaleLaws.{DeadNumbersAreStale};
ghost use Rattle.dap_plan.specs.StateLaws.{EachStepKeepsState};
ghost use Rattle.dap_plan.specs.Within.{EachStepStaysWithin};

use dap_decision::laws::queries_have_their_bodies;
use dap_history::laws::histories_grow;

/// Each step goes on as its history does, whatever the debuggee replies: a request is kept exactly while it is
/// unanswered, and each response answers exactly one request that was unanswered.
pub fn each_step_goes_on()
    ensures { EachStepGoesOn }
{
    histories_grow();
}

/// Each step answers requests that are kept or that came just before it, each once, keeps the others, numbers its messages in
/// turn, and gives and ends references as its messages say; and a turn leaves fewer requests to handle.
pub fn each_step_goes_well()
    ensures { EachStepGoesWell }
{}

/// What is true of every session stays true: no two kept requests have the same seq, no more requests are kept, references
/// live and breakpoints stand than there is room for, and no number is given past the greatest of its kind. A turn, and a
/// message that is taken, come to just as many messages as were due before the debuggee was asked.
pub fn each_step_stays_within()
    ensures { EachStepStaysWithin }
{}

/// A reference that died never names anything again, one that lives keeps its number, and the numbers of an answer name
/// the objects in their places.
pub fn references_are_apart()
    ensures { ReferencesAreApart }
{}

/// What `initialize` offers is what is served: the usual flags allow a command just where the table has a row for it, or it is
/// `cancel`, which is answered where it is taken; and whatever is offered, each command that its flags allow is served, or
/// whoever opened the adapter answers it, which may be just what is never served.
pub fn offers_are_served()
    ensures usual { OffersAreServed }
    ensures each { EachOfferIsServed }
    ensures opened { OpenedIsUnserved }
{}

/// A served request that succeeds has a body just where the row of its command says so, whatever the debuggee shows and
/// replies: an effect, a query or a change of a new command that has none of its own is refused here.
pub fn successes_have_their_bodies()
    ensures { SuccessesHaveTheirBodies }
{
    queries_have_their_bodies();
}

/// A served request with good arguments whose number died, or names nothing of its kind, is answered `staleReference` where
/// the debuggee is stopped, whatever steps came since it died, and nothing else is done.
pub fn dead_numbers_are_stale()
    ensures { DeadNumbersAreStale }
{
    references_are_apart();
}

/// An answer that is refused for its size, or for want of room or of numbers, changes nothing: the debuggee is asked nothing,
/// and references and breakpoints are as they were.
pub fn refusals_change_nothing()
    ensures { RefusalsChangeNothing }
{}

/// Before it is served, a request that is handled is refused with the first failure, in the one order that the failures have, whose test
/// holds, and passes where none does.
pub fn refusals_come_in_order()
    ensures { RefusalsComeInOrder }
{}

/// Within its limits, a session answers a request that is handled, as each is whose command is not opened, with the first failure, in the one order that the failures
/// have, whose test holds, and does nothing else. Where none holds the debuggee is asked just what the effect asks, and the
/// request succeeds or is parked; `launch`, `attach`, a resumption, and `pause` while it runs, fail as `debuggee`, and nothing
/// else is done, where the debuggee refuses. Where a terminal is asked for first, the debuggee is asked nothing, and just one
/// request to the client is written, that for a terminal: `launch` is parked then, or `configurationDone` succeeds and what is parked stays so.
pub fn failures_come_in_order()
    ensures { FailuresComeInOrder }
{}

/// Whatever the debuggee replies, each reference that a client reads from an answer, by its body and its command, names
/// something of its kind once the step is made; an answer to `setVariable` gives none.
pub fn each_answer_gives_live()
    ensures { EachAnswerGivesLive }
{}

/// The phase is the debuggee's state, after each step where it was so before, whatever the debuggee may reply, by the laws of
/// its states: up to a start it is as it was handed in, not started; it runs in Running, is stopped in Stopped, and is gone in
/// Exited.
pub fn each_step_keeps_state()
    ensures { EachStepKeepsState }
{}

/// A request whose command was opened is lent in its turn, or refused; each other one is handled as it was. What is lent stays so
/// until whoever holds the adapter answers it, or a `cancel` that names it, or `disconnect`: these two `cancelled`.
pub fn opened_commands_are_lent()
    ensures { OpenedCommandsAreLent }
{}

/// Only what was opened is lent, and of the places for requests two never are. So with nothing opened nothing is lent.
pub fn lending_stays_well()
    ensures { LendingStaysWell }
{}
