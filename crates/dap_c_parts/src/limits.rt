//! The limits of an end: seven numbers come in, and limits that are in their ranges go out. Nothing else is touched.
ghost use Rattle.std.specs.Prelude.{◌≡◌, IfOk, IfErr, OnOk, None, Some};
ghost use Rattle.dap_frame.specs.Settings.{first_outside};
ghost use Rattle.dap_c_parts.specs.Limited.{settings_of};

use dap_frame::{LimitFault, Limits};

/// The limits, in the order of `dap_frame::Limits`.
#[repr(C)]
#[derive(Drop)]
pub struct YtLimits {
    /// Bytes of a header block.
    pub header: u64,
    /// Bytes of a body.
    pub body: u64,
    /// Requests kept unanswered at once.
    pub requests: u64,
    /// References live at once.
    pub references: u64,
    /// Breakpoints set at once.
    pub breakpoints: u64,
    /// The greatest sequence number that an end gives.
    pub seq: u64,
    /// The greatest number that a reference has.
    pub reference: u64,
}

/// The limits, where they are in their ranges.
pub fn read(limits: &YtLimits) -> Result<Limits, LimitFault>
    ensures limits { IfOk result (λ l. l ≡ settings_of limits.now) }
    ensures accepted { OnOk result (first_outside (settings_of limits.now) ≡ None) }
    ensures refused { IfErr result (λ limit. first_outside (settings_of limits.now) ≡ Some limit) }
{
    Limits::new(
        limits.header,
        limits.body,
        limits.requests,
        limits.references,
        limits.breakpoints,
        limits.seq,
        limits.reference,
    )
}
