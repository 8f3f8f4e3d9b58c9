//! A law of the definitions, on a function with nothing to run.
ghost use Rattle.dap_tool.specs.PrintedLaws.{LinesAreInOrder};

/// The lines that break a rule are printed in their order, and none twice: those of the seven rules together with those of
/// rule 8, where bodies are checked.
pub fn printed_lines_are_in_order()
    ensures { LinesAreInOrder }
{}
