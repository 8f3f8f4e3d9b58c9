//! The line of a request that is lent to the host.
ghost use Rattle.std.specs.Prelude.{◌≡◌, ◌++◌, OnOk};
ghost use Rattle.dap_line.specs.Written.{lent_line};

use dap_stream::push_number;
use std::alloc::AllocError;

/// Appends the line of the request with a number.
pub fn push_lent(out: &mut Vec<u8>, seq: u64) -> Result<(), AllocError>
    ensures { OnOk result (out.new.items ≡ out.old.items ++ lent_line seq) }
{
    out.extend_from_slice(b"! {\"lent\":")?;
    push_number(out, seq)?;
    out.extend_from_slice(b"}\n")
}
