//! A law of the definitions, on a function with nothing to run.
ghost use Rattle.dap_decision.specs.Laws.{QueriesHaveTheirBodies};

/// A served query that is answered has a body just where the row of its command says so: a new one without a row of
/// its own in `query_result` is refused here.
pub fn queries_have_their_bodies()
    ensures { QueriesHaveTheirBodies }
{}
