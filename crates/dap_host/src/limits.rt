//! What is said of limits, for the proofs. There is nothing to run.
ghost use Rattle.dap_frame.specs.Settings.{AreInRange};

use dap_frame::Limits;

/// That limits are in their ranges.
pub(crate) fn limits_are_in_range(limits: &Limits)
    ensures { AreInRange limits.now }
{
    let _header = limits.header();
    let _body = limits.body();
    let _requests = limits.requests();
    let _references = limits.references();
    let _breakpoints = limits.breakpoints();
    let _seq = limits.seq();
    let _reference = limits.reference();
}
