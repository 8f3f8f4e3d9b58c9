//! How large the structs are that cross to C, so that a program can compare its header with the library that it runs on.
//! Nothing is touched but the answer.
ghost use Rattle.std.specs.Prelude.{◌≡◌};

use crate::check::YtVerdict;
use crate::client::YtSent;
use crate::client_handle::YtClient;
use crate::client_state::{YtCapabilities, YtClientSeen};
use crate::frames::YtFed;
use crate::frames_handle::YtFrames;
use crate::heading::YtHeadingFound;
use dap_c_parts::found::YtFound;
use dap_c_parts::limits::YtLimits;
use std::mem::size_of;

/// The size of each struct, in bytes.
#[repr(C)]
#[derive(Drop)]
pub struct YtSizes {
    pub limits: usize,
    pub found: usize,
    pub frames: usize,
    pub fed: usize,
    pub heading_found: usize,
    pub verdict: usize,
    pub client: usize,
    pub sent: usize,
    pub client_seen: usize,
    pub capabilities: usize,
    pub sizes: usize,
}

/// Tells the size of each struct.
#[unsafe(no_mangle)]
pub extern "C" fn yt_sizes_of(sizes: &mut YtSizes)
    ensures limits { sizes.new.limits ≡ 56 }
    ensures found { sizes.new.found ≡ 40 }
    ensures frames { sizes.new.frames ≡ 16 }
    ensures fed { sizes.new.fed ≡ 32 }
    ensures heading_found { sizes.new.heading_found ≡ 32 }
    ensures verdict { sizes.new.verdict ≡ 16 }
    ensures client { sizes.new.client ≡ 16 }
    ensures sent { sizes.new.sent ≡ 16 }
    ensures client_seen { sizes.new.client_seen ≡ 48 }
    ensures capabilities { sizes.new.capabilities ≡ 12 }
    ensures sizes { sizes.new.sizes ≡ 88 }
{
    *sizes = YtSizes {
        limits: size_of::<YtLimits>(),
        found: size_of::<YtFound>(),
        frames: size_of::<YtFrames>(),
        fed: size_of::<YtFed>(),
        heading_found: size_of::<YtHeadingFound>(),
        verdict: size_of::<YtVerdict>(),
        client: size_of::<YtClient>(),
        sent: size_of::<YtSent>(),
        client_seen: size_of::<YtClientSeen>(),
        capabilities: size_of::<YtCapabilities>(),
        sizes: size_of::<YtSizes>(),
    };
}
