//! Laws of the definitions. What each rests on is called, and does nothing.
ghost use Rattle.dap_request.specs.Beside.{ArgumentsArePlain, WhatIsReadIsTheCall};

use dap_call::laws::{written_call_is_plain, written_call_is_read_again};

/// What the row of a command reads of a plain call's arguments, with members beside them that may stand there, is the call.
pub fn what_is_read_is_the_call()
    ensures { WhatIsReadIsTheCall }
{
    written_call_is_read_again();
}

/// A plain call's arguments with members beside them can be the arguments of a message that is written.
pub fn arguments_are_plain()
    ensures { ArgumentsArePlain }
{
    written_call_is_plain();
}
