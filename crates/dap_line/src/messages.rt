//! The line of a message for the client.
ghost use Rattle.std.specs.Prelude.{◌≡◌, ◌++◌, OnOk};
ghost use Rattle.dap_line.specs.Written.{marked_line};

use std::alloc::AllocError;

/// Appends the line of a message, which is its canonical text: that is one line already, and is copied as it stands.
pub fn push_message(out: &mut Vec<u8>, text: &[u8]) -> Result<(), AllocError>
    ensures { OnOk result (out.new.items ≡ out.old.items ++ marked_line text.now) }
{
    out.extend_from_slice(b"< ")?;
    out.extend_from_slice(text)?;
    out.extend_from_slice(b"\n")
}
