//! What is debugged: the interface that an adapter rests on.
//!
//! An adapter asks acts and queries of a [`Debuggee`], and rests on its laws alone. Whoever writes a debugger of their own
//! implements this trait, and needs for it two types of the crates below: `dap_json::Text`, and `dap_call::SourceKey`, which
//! names a source by path or by number. It knows sources, lines and object numbers; it must not know messages, the
//! references that an adapter gives, nor phases of a session, nor any debuggee.
#![tactic(auto)]

mod answers;
mod debuggee;
mod explanation;
mod mail;

pub use answers::{
    Asked, Assigned, Category, DebuggeeFault, Evaluation, Frame, Happening, How, Placement, Scope,
    Source, State, Thread, Variable,
};
pub use debuggee::Debuggee;
pub use explanation::{ActFault, Explanation, RefusedQuery};
pub use mail::HasMail;
