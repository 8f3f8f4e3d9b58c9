//! Laws of histories, on a function with nothing to run.
ghost use Rattle.dap_history.specs.HistoryLaws.{HistoriesGrow};

/// What more entries do to the history of an end: which requests wait then, that each response still answers one request,
/// and which messages came and went.
pub fn histories_grow()
    ensures { HistoriesGrow }
{}
