//! What an example comes to: whether it is right, or nothing where memory was refused.

use std::test::Fail;

/// Whether there is memory enough. `scripts/refuse-allocations` runs a copy in which there is not.
const IS_AMPLE: bool = true;

/// Fails a test that is not right, or that was refused memory though there is enough; where there is not, that is noted.
pub(crate) fn judge(rt: &HostRuntime, outcome: Option<bool>) -> Result<(), Fail> {
    match outcome {
        Some(true) => Ok(()),
        Some(false) => Err(Fail::from("not right")),
        None if IS_AMPLE => Err(Fail::from("memory was refused")),
        None => Ok(eprintln!(rt; "refused")?),
    }
}

/// Want of memory, if nothing else has happened.
pub(crate) fn refused(is_same: bool) -> Option<bool> {
    if is_same { None } else { Some(false) }
}

/// Two outcomes as one: wrong where one is, and else want of memory where one is.
pub(crate) fn both(first: Option<bool>, second: Option<bool>) -> Option<bool> {
    match first {
        Some(true) => second,
        Some(false) => Some(false),
        None => match second {
            Some(false) => Some(false),
            _ => None,
        },
    }
}
