//! The limits that an end has where nothing else is wanted: they go out, and nothing else is touched.
ghost use Rattle.std.specs.Prelude.{◌≡◌};
ghost use Rattle.dap_frame.specs.Settings.{usual_settings};
ghost use Rattle.dap_c_parts.specs.Limited.{settings_of};

use dap_c_parts::limits::YtLimits;
use dap_frame::{LimitFault, Limits};

/// The defaults.
#[unsafe(no_mangle)]
pub extern "C" fn yt_limits_usual(limits: &mut YtLimits)
    ensures { settings_of limits.new ≡ usual_settings }
{
    let usual = Limits::usual();
    *limits = YtLimits {
        header: usual.get(LimitFault::Header),
        body: usual.get(LimitFault::Body),
        requests: usual.get(LimitFault::Requests),
        references: usual.get(LimitFault::References),
        breakpoints: usual.get(LimitFault::Breakpoints),
        seq: usual.get(LimitFault::Seq),
        reference: usual.get(LimitFault::Reference),
    };
}
