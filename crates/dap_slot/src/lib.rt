//! A box, or nothing, as a plain pointer, and the handle that a program in C keeps: an address, all zero for none.
//!
//! A box comes in by `of` and goes out by `into_box`, and nothing else is touched: no memory is taken or given back here.
//! It stands on std alone, and knows no type that is put into it. Three functions of a slot are proved by hand, since they
//! make or use raw pointers. A handle is a struct of its crate's own, since no type with parameters crosses to C: it says by
//! `Handle` how it is made of a slot and is one again, which `proofs/Handles.antt` proves for all of them.
#![tactic(auto)]

ghost use Rattle.std.specs.Prelude.{◌≡◌, Option, Some, None, IfSome, IfNone, IsSome, is_some, true, false};
ghost use Rattle.dap_slot.specs.Owned.{slot_owns};

use std::alloc::{Allocator, Global};
use std::marker::Model;

/// A box, or nothing. What it owns is let go only by `into_box`.
#[repr(C)]
#[derive(Drop)]
pub struct Slot<T, A: Allocator> {
    pub at: *mut T,
    pub alloc: A,
    pub ghost value: { Option T },
}

impl<T, A: Allocator> Model for Slot<T, A> {
    ghost also_owns = { λ s. slot_owns (A.dealloc_token s.alloc) T.row s.at s.value };
}

impl<T: Drop, A: Allocator> Slot<T, A> {
    /// Nothing.
    pub fn empty(alloc: A) -> Slot<T, A>
        ensures { result.value ≡ None }
    {
        Slot {
            at: std::ptr::null_mut(),
            alloc,
        }
    }

    /// A box.
    pub fn of(value: Box<T, A>) -> Slot<T, A>
        ensures { result.value ≡ Some value.value }
    {
        let (at, alloc) = Box::into_raw_with_allocator(value);
        Slot { at, alloc }
    }

    /// The box that is held.
    pub fn into_box(self) -> Box<T, A>
        requires { IsSome self.value }
        ensures { self.value ≡ Some result.value }
    {
        let Slot { at, alloc } = self;
        unsafe { Box::from_raw(alloc, at) }
    }
}

/// A handle as it crosses to C.
pub trait Handle {
    /// What is behind it.
    type Held: Drop;

    ghost value: { Self → Option Self.Held };

    /// The handle of a slot, with whether it holds something.
    fn from_slot(slot: Slot<Self::Held, Global>, full: bool) -> Self
        requires { full ≡ is_some slot.value }
        ensures { value result ≡ slot.value };

    /// The slot of a handle, with whether it holds something.
    fn into_slot(self, alloc: Global) -> (Slot<Self::Held, Global>, bool)
        ensures slot { result.0.value ≡ value self }
        ensures full { result.1 ≡ is_some (value self) };
}

/// The handle of a box.
pub fn handle_of<H: Handle>(held: Box<H::Held>) -> H
    ensures { H.value result ≡ Some held.value }
{
    H::from_slot(Slot::of(held), true)
}

/// Takes out what a handle holds; then it holds nothing.
pub fn take_out<H: Handle>(alloc: Global, handle: &mut H) -> Option<Box<H::Held>>
    ensures held { IfSome result (λ b. H.value handle.old ≡ Some b.value) }
    ensures none_held { IfNone result (H.value handle.old ≡ None) }
    ensures none { H.value handle.new ≡ None }
{
    let none = H::from_slot(Slot::empty(alloc), false);
    let (slot, is_full) = std::mem::replace(handle, none).into_slot(alloc);
    if is_full { Some(slot.into_box()) } else { None }
}
