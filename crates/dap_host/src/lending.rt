//! The lines of requests that are lent to the host.
ghost use Rattle.std.specs.Prelude.{◌≡◌, ◌++◌, ◌==◌, IfOk, OnOk};
ghost use Rattle.std.specs.List.{list_any};
ghost use Rattle.dap_host.specs.Hearing.{numbers_in, new_numbers};
ghost use Rattle.dap_line.specs.Written.{lent_lines};

use dap_adapter::Lent;
use dap_line::push_lent;
use std::alloc::{AllocError, Global};

/// The numbers of requests that are lent, by arrival.
pub(crate) fn numbers_in(alloc: Global, mut lent: Lent<'_>) -> Result<Vec<u64>, AllocError>
    ensures { IfOk result (λ numbers. numbers.items ≡ numbers_in lent.entry) }
{
    let mut numbers = Vec::new(alloc);
    while let Some(request) = lent.next() {
        numbers.push(request.seq)?;
    }
    Ok(numbers)
}

fn has_number(numbers: &[u64], seq: u64) -> bool
    ensures { result ≡ list_any (λ m. m == seq) numbers.now }
{
    numbers.iter().any(|n| *n == seq)
}

/// Appends the lines of those that are lent, and were not before.
pub(crate) fn push_new(
    out: &mut Vec<u8>,
    before: &[u64],
    mut lent: Lent<'_>,
) -> Result<(), AllocError>
    ensures { OnOk result (out.new.items ≡ out.old.items ++ lent_lines (new_numbers before.now (numbers_in lent.entry))) }
{
    while let Some(request) = lent.next() {
        if !has_number(before, request.seq) {
            push_lent(out, request.seq)?;
        }
    }
    Ok(())
}
