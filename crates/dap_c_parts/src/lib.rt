//! What the static libraries for C share: codes, limits, what is found in a piece of a stream, and bytes into a buffer.
//!
//! Nothing here is exported to C; `dap_c` and `dap_c_adapter` are. This crate knows framing and messages only as far as a code
//! or a number says why they are refused, and no end of a session.
#![tactic(auto)]

pub mod causes;
pub mod codes;
pub mod copying;
pub mod found;
pub mod limits;
