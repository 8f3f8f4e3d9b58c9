//! How a test tells which of its rows is wrong. The assert stands here once, since a proof of each costs more.

use std::fmt::Display;
use std::process::Abort;

/// Fails the test, by the name of the row, where something is not so.
pub(crate) fn check(rt: &impl Abort, is_so: bool, row: impl Display + Drop) {
    assert!(*rt; is_so, "wrong: {row}");
}
