//! The words of the program `dap`: its command line with what the help says, and help laid out for a terminal.
//!
//! This crate knows the subcommands, their options and the limits' ranges; it must not know what a subcommand does. Its contracts
//! say which words the program takes, what an option gives, and what the help says of limits, but not the other sentences of
//! the help, nor where a line of it ends: `scripts/try-program` compares those.
#![tactic(auto)]

mod command_line;
mod layout;
mod options;

pub use command_line::command;
pub use layout::laid_out;
pub use options::{explains, limit_texts, limits, longest_line};
