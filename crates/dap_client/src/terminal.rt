//! What became of a command that the adapter wanted to run in a terminal.
//!
//! Specification, "RunInTerminalResponse".
ghost use Rattle.std.specs.Prelude.{◌≡◌};
ghost use Rattle.dap_command.specs.Numbers.{is_number, is_none_or};
ghost use Rattle.dap_client.specs.TerminalResponse.{is_plain_terminal};

/// The greatest number of a process.
const MAX_PROCESS: u32 = 2147483647;

/// What became of the command.
#[derive(Clone, Copy, Debug, PartialEq, Eq)]
pub enum Terminal {
    /// It runs: its process and the shell's, each 0 to 2147483647, where it is known.
    Started {
        process_id: Option<u32>,
        shell_process_id: Option<u32>,
    },
    /// It does not run.
    Refused,
}

fn is_process(id: Option<u32>) -> bool
    ensures { result ≡ is_none_or is_number id }
{
    match id {
        None => true,
        Some(id) => id <= MAX_PROCESS,
    }
}

impl Terminal {
    ghost use Rattle.dap_client.specs.TerminalResponse.{is_plain_terminal};

    /// Whether it can be written: the numbers of processes are in their range.
    pub fn plain(self) -> bool
        ensures { result ≡ is_plain_terminal self }
    {
        match self {
            Terminal::Started {
                process_id,
                shell_process_id,
            } => is_process(process_id) && is_process(shell_process_id),
            Terminal::Refused => true,
        }
    }
}
