//! What is said of commands that are none of this profile.
ghost use Rattle.std.specs.Prelude.{◌≡◌};
ghost use Rattle.dap_check.specs.Lines.{is_among};
ghost use Rattle.dap_tool.specs.Commands.{is_of_profile as of_profile, other_commands, words_of_command};

use dap_command::Command;

fn is_of_profile(command: &str) -> bool
    ensures { result ≡ of_profile command.now }
{
    Command::of_name(command).is_some() || command == "runInTerminal"
}

/// Whether the protocol has the command, and this profile has not.
fn is_other(command: &str) -> bool
    ensures { result ≡ is_among other_commands command.now }
{
    matches!(
        command,
        "dataBreakpointInfo"
            | "disassemble"
            | "goto"
            | "gotoTargets"
            | "readMemory"
            | "restartFrame"
            | "setDataBreakpoints"
            | "setExpression"
            | "setInstructionBreakpoints"
            | "stepInTargets"
            | "terminateThreads"
            | "writeMemory"
    )
}

/// What is said of the command of a request that nothing has answered: a line, or nothing where it is of this profile.
pub(crate) fn command_words(command: &str) -> &'static str
    ensures { result.now ≡ words_of_command command.now }
{
    if is_of_profile(command) {
        return "";
    }
    if is_other(command) {
        return "known to the protocol, not in this profile\n";
    }
    "unknown to the protocol\n"
}
