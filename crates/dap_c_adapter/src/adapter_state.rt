//! What can be seen of an adapter: the adapter behind a handle is read, and what is seen goes out. Nothing is changed.
ghost use Rattle.std.specs.Prelude.{◌≡◌, length, IfSome, IsSome, Some, None};
ghost use Rattle.dap_plan.specs.declared.fault.AdapterFault.{AdapterFault as TheFault};
ghost use Rattle.dap_tables.specs.References.{target_of};
ghost use Rattle.dap_c_adapter.specs.AdapterSeen.{IsAdapterState, IsWithin, IsTarget, phase_number, kind_number};
ghost use Rattle.dap_c_adapter.specs.AdapterBehind.{IsFull, IsEmpty, IfFull};
ghost use Rattle.dap_c_adapter.specs.AdapterExports.{IfClosed, IsStateOf, target_at, FindsTarget, FindsNoTarget};

use crate::adapter_handle::YtAdapter;
use crate::held_adapter::HeldAdapter;
use dap_adapter::{Adapter, Phase, ReferenceKind};
use dap_c_parts::codes::{YT_NONE, YT_NOTHING, YT_OK};
use dap_live::Live;
use dap_slot::{handle_of, take_out};
use std::alloc::Global;

/// What is seen of an adapter.
#[repr(C)]
#[derive(Drop)]
pub struct YtAdapterSeen {
    /// Requests that are kept.
    pub kept: usize,
    /// References that are live.
    pub references: usize,
    /// Breakpoints that are set.
    pub breakpoints: usize,
    /// Requests for a terminal that are not answered: at most one. `yt_adapter_asked_by_name` counts those that `yt_adapter_ask` asked.
    pub asked: usize,
    /// Bytes held of the frame under way.
    pub held: usize,
    /// 0 fresh, 1 ready, 2 configured, 3 parked, 4 asked, 5 running, 6 stopped, 7 exited, 8 ended.
    pub phase: u32,
}

/// What a number of the client names.
#[repr(C)]
#[derive(Drop)]
pub struct YtTarget {
    /// The debuggee's own number.
    pub object: u64,
    /// 1 a stack frame, 2 what holds variables.
    pub kind: u32,
}

fn phase_code(phase: Phase) -> u32
    ensures { result ≡ phase_number phase }
{
    match phase {
        Phase::Fresh => 0,
        Phase::Ready => 1,
        Phase::Configured => 2,
        Phase::Parked => 3,
        Phase::Asked => 4,
        Phase::Running => 5,
        Phase::Stopped => 6,
        Phase::Exited => 7,
        Phase::Ended => 8,
    }
}

fn kind_code(kind: ReferenceKind) -> u32
    ensures { result ≡ kind_number kind }
{
    match kind {
        ReferenceKind::Frame => 1,
        ReferenceKind::Holder => 2,
    }
}

fn state_of(adapter: &Adapter<Live>) -> YtAdapterSeen
    ensures is { IsAdapterState result adapter.now.session (length adapter.now.intake.held) }
    ensures within { IsWithin result adapter.now.session.limits }
    ensures closed { IfSome adapter.now.fault (λ fault. result.held ≡ 0) }
{
    YtAdapterSeen {
        kept: adapter.kept(),
        references: adapter.references(),
        breakpoints: adapter.breakpoints(),
        asked: adapter.asked(),
        held: adapter.held(),
        phase: phase_code(adapter.phase()),
    }
}

/// Tells what is seen of an adapter.
#[unsafe(no_mangle)]
pub extern "C" fn yt_adapter_state(
    alloc: Global,
    adapter: &mut YtAdapter,
    state: &mut YtAdapterSeen,
) -> u32
    ensures none { IsEmpty adapter.old → (result ≡ YT_NONE) × (state.new ≡ state.old) }
    ensures same { adapter.new.inner.value ≡ adapter.old.inner.value }
    ensures ok { IsFull adapter.old → result ≡ YT_OK }
    ensures is { IfFull adapter.old (IsStateOf state.new) }
    ensures within { IfFull adapter.old (λ a. IsWithin state.new a.adapter.session.limits) }
    ensures closed { IfFull adapter.old (λ a. IfClosed a (state.new.held ≡ 0)) }
{
    let Some(held) = take_out(alloc, adapter) else {
        return YT_NONE;
    };
    *state = state_of(&held.adapter);
    *adapter = handle_of(held);
    YT_OK
}

fn find_target(held: &HeldAdapter, number: u32, target: &mut YtTarget) -> u32
    ensures target { result ≡ YT_OK → IfSome (target_of held.now.adapter.session.references number) (IsTarget target.new) }
    ensures some { result ≡ YT_OK → IsSome (target_of held.now.adapter.session.references number) }
    ensures nothing { (result ≡ YT_OK → ⊥) → (result ≡ YT_NOTHING) × (target_of held.now.adapter.session.references number ≡ None) × (target.new ≡ target.old) }
{
    match held.adapter.target(number) {
        None => YT_NOTHING,
        Some(found) => {
            *target = YtTarget {
                object: found.object,
                kind: kind_code(found.kind),
            };
            YT_OK
        }
    }
}

/// Finds the frame, or what holds variables, that a number of the client names while it is live: a `frameId` or a
/// `variablesReference` of a request. `YT_NOTHING` where it names none.
#[unsafe(no_mangle)]
pub extern "C" fn yt_adapter_target(
    alloc: Global,
    adapter: &mut YtAdapter,
    number: u32,
    target: &mut YtTarget,
) -> u32
    ensures none { IsEmpty adapter.old → (result ≡ YT_NONE) × (target.new ≡ target.old) }
    ensures same { adapter.new.inner.value ≡ adapter.old.inner.value }
    ensures target { IfFull adapter.old (FindsTarget number result target.new) }
    ensures some { IfFull adapter.old (λ a. result ≡ YT_OK → IsSome (target_at number a)) }
    ensures nothing { IfFull adapter.old (FindsNoTarget number result target.old target.new) }
{
    let Some(held) = take_out(alloc, adapter) else {
        return YT_NONE;
    };
    let code = find_target(&*held, number, target);
    *adapter = handle_of(held);
    code
}
