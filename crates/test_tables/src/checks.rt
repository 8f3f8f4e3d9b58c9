//! How a test tells which of its rows is wrong. The assert stands here once, since a proof of each costs more.

use std::alloc::AllocError;
use std::fmt::Display;
use std::process::Abort;
use std::test::Fail;

/// Fails the test, by the name of the row, where something is not so.
pub(crate) fn check(rt: &impl Abort, is_so: bool, row: impl Display + Drop) {
    assert!(*rt; is_so, "wrong: {row}");
}

/// Whether there is memory enough. `scripts/refuse-allocations` runs a copy in which there is not.
const IS_AMPLE: bool = true;

/// Fails the test where one of its calls answers something else, by the place of the first; or where memory is refused though
/// there is enough. Where there is not, that is noted.
pub(crate) fn judge(
    rt: &HostRuntime,
    other: Result<Option<usize>, AllocError>,
) -> Result<(), Fail> {
    match other {
        Ok(None) => Ok(()),
        Ok(Some(place)) => Err(Fail::new(format_args!("call {place} answers something else"))),
        Err(_) if IS_AMPLE => Err(Fail::from("memory was refused")),
        Err(_) => Ok(eprintln!(rt; "refused")?),
    }
}
