//! The handle of an adapter, as it crosses to C.
ghost use Rattle.std.specs.Prelude.{◌≡◌, Option, is_some};
ghost use Rattle.std.specs.Coded.{codes};
ghost use Rattle.dap_json.specs.Stored.{coded_data};
ghost use Rattle.dap_c_adapter.specs.declared.held_adapter.HeldAdapter.{HeldAdapter};
ghost use Rattle.dap_c_adapter.specs.contracts.held_adapter.HeldAdapter.{the_row};
ghost use Rattle.dap_slot.specs.Owned.{handle_owns};

use crate::held_adapter::HeldAdapter;
use dap_slot::{Handle, Slot};
use std::alloc::Global;
use std::marker::Model;

/// Where the adapter is.
#[repr(C)]
#[derive(Drop)]
pub struct AdapterHandle {
    at: *mut u8,
    pub ghost value: { Option HeldAdapter } by { Prim.hlevel (codes, coded_data) },
}

impl Model for AdapterHandle {
    ghost also_owns = { λ h. handle_owns the_row h.at h.value };
}

/// An adapter, or none. All zero is none.
#[repr(C)]
#[derive(Drop)]
pub struct YtAdapter {
    pub inner: AdapterHandle,
    pub full: bool,
    ghost held: { full ≡ is_some inner.value },
}

impl Handle for YtAdapter {
    type Held = HeldAdapter;

    ghost value = { λ h. h.inner.value };

    fn from_slot(slot: Slot<HeldAdapter, Global>, full: bool) -> YtAdapter
        requires { full ≡ is_some slot.value }
        ensures { result.inner.value ≡ slot.value }
    {
        YtAdapter {
            inner: from_slot(slot),
            full,
        }
    }

    fn into_slot(self, alloc: Global) -> (Slot<HeldAdapter, Global>, bool) {
        let YtAdapter { inner, full } = self;
        (into_slot(alloc, inner), full)
    }
}

fn from_slot(slot: Slot<HeldAdapter, Global>) -> AdapterHandle
    ensures { result.value ≡ slot.value }
{
    let Slot { at, alloc: _ } = slot;
    AdapterHandle { at: at as *mut u8 }
}

fn into_slot(alloc: Global, handle: AdapterHandle) -> Slot<HeldAdapter, Global>
    ensures { result.value ≡ handle.value }
{
    let AdapterHandle { at } = handle;
    Slot {
        at: at as *mut HeldAdapter,
        alloc,
    }
}
