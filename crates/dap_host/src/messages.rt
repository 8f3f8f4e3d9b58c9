//! The lines of what an adapter wrote.
ghost use Rattle.std.specs.Prelude.{◌≡◌, ◌++◌, List, OnOk};
ghost use Rattle.dap_envelope.specs.declared.message.Message.{Message};
ghost use Rattle.dap_line.specs.Written.{message_lines};
ghost use Rattle.dap_outbox.specs.Draft.{bytes_of};

use dap_adapter::first_body;
use dap_line::push_message;
use std::alloc::AllocError;

/// Appends a line for each message of those that an adapter appended to `bytes`.
pub(crate) fn push_messages(bytes: &[u8], out: &mut Vec<u8>) -> Result<(), AllocError>
    ensures { OnOk result ((outs : List Message) → bytes.now ≡ bytes_of outs → out.new.items ≡ out.old.items ++ message_lines outs) }
{
    let mut rest = bytes;
    while let Some((body, later)) = first_body(rest) {
        push_message(out, body)?;
        rest = later;
    }
    Ok(())
}
