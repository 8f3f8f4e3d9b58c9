//! Tools over whole files, and faults as a program tells them.
//!
//! What this crate knows: files, statuses, and the lines that a program tells. What it must not know: header bytes, sessions,
//! the rules of a transcript, but for
//! the hint at rule 1, and how a debuggee runs. It relies on the public contracts of the crates below alone, and hands
//! on `list`, `show`, `unwrap`, `wrap`, `check`, `drive`, `drive_and_check` and the laws of both ends together.
#![tactic(auto)]

mod commands;
mod explaining;
mod fault;
mod files;
mod finding;
mod listing;
mod numbering;
mod printed;
mod reads;
mod verdict;

pub use dap_check::{AnySeq, CheckFault, Checked, Rule, check, check_by_side};
pub use dap_client::SendFault;
pub use dap_drive::{CheckedTranscript, DriveFault, drive, drive_and_check};
pub use dap_stream::{
    FollowFault, Followed, Form, ShowFault, Shown, Style, WrapFault, follow, list, show, unwrap,
    wrap,
};
pub use dap_world::laws;
pub use explaining::explanation;
pub use fault::{ToolFault, fault_line, status};
pub use files::{FileFault, MAX_FILE, OpenFault, read_channel, read_whole, reading_is_of_the_log};
pub use printed::printed_lines_are_in_order;
pub use reads::most_reads;
pub use verdict::{CheckOptions, VerdictText, check_text, verdict_line};
