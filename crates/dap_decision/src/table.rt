//! The table of commands and phases.
ghost use Rattle.std.specs.Prelude.{◌≡◌, Some, None, if◌then◌else◌, false};
ghost use Rattle.dap_command.specs.declared.command.Command.{Command};
ghost use Rattle.dap_decision.specs.Table.{effect_in, is_never_served, is_of_stops, is_among, ready_to_stopped, ready_to_exited, is_phase};

use crate::effect::Effect;
use crate::phase::Phase;
use dap_command::Command;
use dap_debuggee::How;

fn is_configuring_or_there(phase: Phase) -> bool
    ensures { result ≡ is_among phase ready_to_stopped }
{
    match phase {
        Phase::Ready => true,
        Phase::Configured => true,
        Phase::Parked => true,
        Phase::Asked => true,
        Phase::Running => true,
        Phase::Stopped => true,
        Phase::Fresh => false,
        Phase::Exited => false,
        Phase::Ended => false,
    }
}

fn is_initialized(phase: Phase) -> bool
    ensures { result ≡ is_among phase ready_to_exited }
{
    match phase {
        Phase::Ready => true,
        Phase::Configured => true,
        Phase::Parked => true,
        Phase::Asked => true,
        Phase::Running => true,
        Phase::Stopped => true,
        Phase::Exited => true,
        Phase::Fresh => false,
        Phase::Ended => false,
    }
}

/// What is done in one phase alone.
fn only_in(one: Phase, phase: Phase, effect: Effect) -> Option<Effect>
    ensures { result ≡ (if is_phase phase one then Some effect else None) }
{
    if phase == one { Some(effect) } else { None }
}

/// What a command does in a phase, if it is served there.
pub(crate) fn effect_in(command: Command, phase: Phase) -> Option<Effect>
    ensures { result ≡ effect_in command phase }
{
    match command {
        Command::Initialize => only_in(Phase::Fresh, phase, Effect::Initialize),
        Command::Launch => start_in(phase),
        Command::Attach => start_in(phase),
        Command::ConfigurationDone => match phase {
            Phase::Ready => Some(Effect::ConfigurationDone),
            Phase::Parked => Some(Effect::StartParked),
            _ => None,
        },
        Command::Disconnect => match phase {
            Phase::Ended => None,
            Phase::Running => Some(Effect::EndAndDisconnect),
            Phase::Stopped => Some(Effect::EndAndDisconnect),
            _ => Some(Effect::Disconnect),
        },
        Command::Terminate => match phase {
            Phase::Running => Some(Effect::Terminate),
            Phase::Stopped => Some(Effect::Terminate),
            _ => None,
        },
        Command::SetBreakpoints => {
            if is_configuring_or_there(phase) {
                Some(Effect::Change)
            } else {
                None
            }
        }
        Command::SetExceptionBreakpoints => {
            if is_configuring_or_there(phase) {
                Some(Effect::Query)
            } else {
                None
            }
        }
        Command::Threads => tell_in(phase),
        Command::Source => tell_in(phase),
        Command::LoadedSources => tell_in(phase),
        Command::Continue => only_in(Phase::Stopped, phase, Effect::Resume(How::Continue)),
        Command::Next => only_in(Phase::Stopped, phase, Effect::Resume(How::Next)),
        Command::StepIn => only_in(Phase::Stopped, phase, Effect::Resume(How::StepIn)),
        Command::StepOut => only_in(Phase::Stopped, phase, Effect::Resume(How::StepOut)),
        Command::StepBack => only_in(Phase::Stopped, phase, Effect::Resume(How::StepBack)),
        Command::ReverseContinue => {
            only_in(Phase::Stopped, phase, Effect::Resume(How::ReverseContinue))
        }
        Command::Pause => match phase {
            Phase::Running => Some(Effect::Pause),
            Phase::Stopped => Some(Effect::Query),
            _ => None,
        },
        Command::StackTrace => only_in(Phase::Stopped, phase, Effect::Query),
        Command::Scopes => only_in(Phase::Stopped, phase, Effect::Query),
        Command::Variables => only_in(Phase::Stopped, phase, Effect::Query),
        Command::Evaluate => only_in(Phase::Stopped, phase, Effect::Query),
        Command::SetVariable => only_in(Phase::Stopped, phase, Effect::Change),
        _ => None,
    }
}

fn start_in(phase: Phase) -> Option<Effect>
    ensures { result ≡ effect_in Command.Launch phase }
{
    match phase {
        Phase::Ready => Some(Effect::Park),
        Phase::Configured => Some(Effect::Start),
        _ => None,
    }
}

fn tell_in(phase: Phase) -> Option<Effect>
    ensures { result ≡ effect_in Command.Threads phase }
{
    if is_initialized(phase) {
        Some(Effect::Query)
    } else {
        None
    }
}

/// Whether a command is served in no phase. Each that is served is served in one of these three.
pub(crate) fn is_never_served(command: Command) -> bool
    ensures { result ≡ is_never_served command }
{
    effect_in(command, Phase::Stopped).is_none()
        && effect_in(command, Phase::Ready).is_none()
        && effect_in(command, Phase::Fresh).is_none()
}

/// Whether a command is served while the debuggee is stopped, and then alone. One that is served in a stop and at another
/// time is served while it runs.
pub(crate) fn is_of_stops(command: Command) -> bool
    requires { is_never_served command ≡ false }
    ensures { result ≡ is_of_stops command }
{
    effect_in(command, Phase::Stopped).is_some() && effect_in(command, Phase::Running).is_none()
}
