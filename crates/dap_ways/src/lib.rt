//! Both ends of a session joined by two ways of bytes, and what holds in every schedule of their calls.
//!
//! Overview, "Base Protocol". The definitions stand in `specs/`, the law on a function with nothing to run, and each step
//! beside the call that it is, in `steps`. What this crate knows: what each call of `Client` and of `Adapter` does by its
//! contract, and the schedules of messages of `dap_world`, of which each schedule of bytes is one. What it must not know:
//! header fields, and how an end is written.
#![tactic(auto)]

pub mod laws;
pub mod steps;
