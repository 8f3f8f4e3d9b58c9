//! An adapter over a debuggee that a host feeds, with what its caller may still fetch.

use dap_adapter::Adapter;
use dap_debuggee::Variable;
use dap_live::{HostAct, Live};

/// An adapter with what its caller may still fetch.
#[derive(Drop)]
pub struct HeldAdapter {
    pub(crate) adapter: Adapter<Live>,
    /// What is to be written.
    pub(crate) bytes: Vec<u8>,
    /// The bytes that were used since the message before: of the frame under way, or of the last one, where it is whole.
    pub(crate) frame: Vec<u8>,
    /// The frame is whole: its message was delivered by the last call of `take`.
    pub(crate) whole: bool,
    /// What the host has to do, in order, of what was taken out of the mail.
    pub(crate) acts: Vec<HostAct>,
    /// The one of them that was fetched last.
    pub(crate) act: Option<HostAct>,
    /// The variables that are told next, of one holder.
    pub(crate) variables: Vec<Variable>,
}
