//! The handle of a reader of frames, as it crosses to C.
ghost use Rattle.std.specs.Prelude.{◌≡◌, Option, is_some};
ghost use Rattle.dap_frame.specs.Intake.{Intake};
ghost use Rattle.dap_frame.specs.contracts.frames.Frames.{the_row};
ghost use Rattle.dap_slot.specs.Owned.{handle_owns};

use dap_frame::Frames;
use dap_slot::{Handle, Slot};
use std::alloc::Global;
use std::marker::Model;

/// Where the reader is.
#[repr(C)]
#[derive(Drop)]
pub struct FramesHandle {
    at: *mut u8,
    pub ghost value: { Option Intake },
}

impl Model for FramesHandle {
    ghost also_owns = { λ h. handle_owns the_row h.at h.value };
}

/// A reader, or none. All zero is none.
#[repr(C)]
#[derive(Drop)]
pub struct YtFrames {
    pub inner: FramesHandle,
    pub full: bool,
    ghost held: { full ≡ is_some inner.value },
}

impl Handle for YtFrames {
    type Held = Frames;

    ghost value = { λ h. h.inner.value };

    fn from_slot(slot: Slot<Frames, Global>, full: bool) -> YtFrames
        requires { full ≡ is_some slot.value }
        ensures { result.inner.value ≡ slot.value }
    {
        YtFrames {
            inner: from_slot(slot),
            full,
        }
    }

    fn into_slot(self, alloc: Global) -> (Slot<Frames, Global>, bool) {
        let YtFrames { inner, full } = self;
        (into_slot(alloc, inner), full)
    }
}

fn from_slot(slot: Slot<Frames, Global>) -> FramesHandle
    ensures { result.value ≡ slot.value }
{
    let Slot { at, alloc: _ } = slot;
    FramesHandle { at: at as *mut u8 }
}

fn into_slot(alloc: Global, handle: FramesHandle) -> Slot<Frames, Global>
    ensures { result.value ≡ handle.value }
{
    let FramesHandle { at } = handle;
    Slot {
        at: at as *mut Frames,
        alloc,
    }
}
