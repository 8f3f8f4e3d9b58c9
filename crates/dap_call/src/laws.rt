//! Laws of the definitions, each on a function with nothing to run.
ghost use Rattle.dap_call.specs.CallObjects.{CallsNameAsTheirRowsSay};
ghost use Rattle.dap_call.specs.PlainCall.{WrittenCallIsReadAgain, WrittenCallIsPlain};
ghost use Rattle.dap_call.specs.Terminal.{WrittenTerminalIsReadAgain, WrittenTerminalIsPlain};

/// A plain call, once written, is read again as itself.
pub fn written_call_is_read_again()
    ensures { WrittenCallIsReadAgain }
{}

/// What a plain call is written as can be the arguments of a message that is written.
pub fn written_call_is_plain()
    ensures { WrittenCallIsPlain }
{}

/// What an adapter asks of a terminal, once written, is read again as itself.
pub fn written_terminal_is_read_again()
    ensures { WrittenTerminalIsReadAgain }
{}

/// What it is written as can be the arguments of a message that is written.
pub fn written_terminal_is_plain()
    ensures { WrittenTerminalIsPlain }
{}

/// What a plain call names of the debuggee is what its arguments, as they are written, have at the key that the row of its
/// command says, and it is of that row's kind.
pub fn calls_name_as_their_rows_say()
    ensures { CallsNameAsTheirRowsSay }
{}
