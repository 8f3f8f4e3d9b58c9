//! The handle of a client, as it crosses to C.
ghost use Rattle.std.specs.Prelude.{◌≡◌, Option, is_some};
ghost use Rattle.std.specs.Coded.{codes};
ghost use Rattle.dap_json.specs.Stored.{coded_data};
ghost use Rattle.dap_c.specs.declared.held_client.HeldClient.{HeldClient};
ghost use Rattle.dap_c.specs.contracts.held_client.HeldClient.{the_row};
ghost use Rattle.dap_slot.specs.Owned.{handle_owns};

use crate::held_client::HeldClient;
use dap_slot::{Handle, Slot};
use std::alloc::Global;
use std::marker::Model;

/// Where the client is.
#[repr(C)]
#[derive(Drop)]
pub struct ClientHandle {
    at: *mut u8,
    pub ghost value: { Option HeldClient } by { Prim.hlevel (codes, coded_data) },
}

impl Model for ClientHandle {
    ghost also_owns = { λ h. handle_owns the_row h.at h.value };
}

/// A client, or none. All zero is none.
#[repr(C)]
#[derive(Drop)]
pub struct YtClient {
    pub inner: ClientHandle,
    pub full: bool,
    ghost held: { full ≡ is_some inner.value },
}

impl Handle for YtClient {
    type Held = HeldClient;

    ghost value = { λ h. h.inner.value };

    fn from_slot(slot: Slot<HeldClient, Global>, full: bool) -> YtClient
        requires { full ≡ is_some slot.value }
        ensures { result.inner.value ≡ slot.value }
    {
        YtClient {
            inner: from_slot(slot),
            full,
        }
    }

    fn into_slot(self, alloc: Global) -> (Slot<HeldClient, Global>, bool) {
        let YtClient { inner, full } = self;
        (into_slot(alloc, inner), full)
    }
}

fn from_slot(slot: Slot<HeldClient, Global>) -> ClientHandle
    ensures { result.value ≡ slot.value }
{
    let Slot { at, alloc: _ } = slot;
    ClientHandle { at: at as *mut u8 }
}

fn into_slot(alloc: Global, handle: ClientHandle) -> Slot<HeldClient, Global>
    ensures { result.value ≡ handle.value }
{
    let ClientHandle { at } = handle;
    Slot {
        at: at as *mut HeldClient,
        alloc,
    }
}
