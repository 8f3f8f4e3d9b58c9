//! What comes to one end of a Debug Adapter Protocol session and what goes from it, as a list of entries, and what such a
//! list says: which requests wait, which response answers which request, and which references live.
//!
//! Nothing here runs: the definitions stand in `specs/`, below both ends, and the laws on functions with empty bodies.
#![tactic(auto)]

pub mod laws;
