//! Why a line of a transcript breaks a rule, and the sentence that says so.
//!
//! An [`ExplainedChecker`] is a `Checker` of `dap_check` that tells of each finding against which earlier line it stands.
//! What it keeps is the last line that a reason may stand against, of each side and number, each flag and
//! each reference, so that a reason is a lookup. This crate knows lines and rules by the public contracts of `dap_check`; it
//! must not know what the checker keeps of the lines.
#![tactic(auto)]

mod asked;
mod decisions;
mod explaining;
mod given;
pub mod laws;
mod notes;
mod reason;
mod reasoning;
mod sentences;
mod told;
mod trail;
mod walking;

pub use reason::{Reason, ReferenceKind};
pub use reasoning::ExplainedChecker;
pub use sentences::sentence;
pub use told::LineTold;
pub use walking::explain;
