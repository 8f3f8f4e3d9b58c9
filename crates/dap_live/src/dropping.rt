//! What is dropped of what a host says.
ghost use Rattle.std.specs.Prelude.{◌≡◌};
ghost use Rattle.dap_command.specs.Numbers.{is_int};
ghost use Rattle.dap_debuggee.specs.Laws.{is_short, may_happen};
ghost use Rattle.dap_live.specs.Dropping.{why_dropped, EachDropHasItsReason};

use crate::mail::Dropped;
use dap_debuggee::{Happening, State};
use dap_json::names::is_name;

const MAX_ID: i64 = 9007199254740991;

fn is_id(thread: i64) -> bool
    ensures { result ≡ is_int thread }
{
    -MAX_ID <= thread && thread <= MAX_ID
}

/// Whether what happens is in its ranges.
fn fits(happening: &Happening) -> bool
    ensures { result ≡ is_short happening.now }
{
    match happening {
        Happening::Nothing => true,
        Happening::Output { category, text, .. } => is_name(category.name()) && text.len() <= 128,
        Happening::Stopped { reason, thread, .. } => reason.len() <= 64 && is_id(*thread),
        Happening::Continued { thread } => is_id(*thread),
        Happening::Exited { code } => {
            let code = *code;
            i32::MIN <= code && code <= i32::MAX
        }
    }
}

/// Whether it may happen in a state.
fn may_happen_in(state: State, happening: &Happening) -> bool
    ensures { result ≡ may_happen state happening.now }
{
    match state {
        State::NotStarted | State::Gone => matches!(happening, Happening::Nothing),
        State::Running => !matches!(happening, Happening::Continued { .. }),
        State::Stopped => !matches!(happening, Happening::Stopped { .. }),
    }
}

/// Why a host that says this of a debuggee in a state is not heard: `OutOfTurn` before `OutOfRange`. `None` where it is.
pub fn why_dropped(state: State, happening: &Happening) -> Option<Dropped>
    ensures { result ≡ why_dropped state happening.now }
{
    if !may_happen_in(state, happening) {
        return Some(Dropped::OutOfTurn);
    }
    if !fits(happening) {
        return Some(Dropped::OutOfRange);
    }
    None
}

/// A law: what is not dropped is just what may happen in the state, in its range.
pub fn each_drop_has_its_reason()
    ensures { EachDropHasItsReason }
{}
