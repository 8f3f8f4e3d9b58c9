//! How large the adapter's structs are that cross to C. Nothing is touched but the answer.
ghost use Rattle.std.specs.Prelude.{◌≡◌};

use crate::acts::YtAct;
use crate::adapter_handle::YtAdapter;
use crate::adapter_state::{YtAdapterSeen, YtTarget};
use crate::lending::YtLent;
use std::mem::size_of;

/// The size of each struct of the adapter, in bytes.
#[repr(C)]
#[derive(Drop)]
pub struct YtAdapterSizes {
    pub adapter: usize,
    pub act: usize,
    pub adapter_seen: usize,
    pub target: usize,
    pub lent: usize,
    pub adapter_sizes: usize,
}

/// Tells the size of each struct of the adapter.
#[unsafe(no_mangle)]
pub extern "C" fn yt_adapter_sizes_of(sizes: &mut YtAdapterSizes)
    ensures adapter { sizes.new.adapter ≡ 16 }
    ensures act { sizes.new.act ≡ 64 }
    ensures adapter_seen { sizes.new.adapter_seen ≡ 48 }
    ensures target { sizes.new.target ≡ 16 }
    ensures lent { sizes.new.lent ≡ 16 }
    ensures adapter_sizes { sizes.new.adapter_sizes ≡ 48 }
{
    *sizes = YtAdapterSizes {
        adapter: size_of::<YtAdapter>(),
        act: size_of::<YtAct>(),
        adapter_seen: size_of::<YtAdapterSeen>(),
        target: size_of::<YtTarget>(),
        lent: size_of::<YtLent>(),
        adapter_sizes: size_of::<YtAdapterSizes>(),
    };
}
