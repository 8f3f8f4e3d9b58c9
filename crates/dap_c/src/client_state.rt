//! What can be seen of a client: the client behind a handle is read, and what is seen goes out. Nothing is changed.
ghost use Rattle.std.specs.Prelude.{◌≡◌, List, ℕ, IfSome};
ghost use Rattle.dap_history.specs.History.{Entry};
ghost use Rattle.dap_client.specs.StandsFor.{StandsFor, OfEachHistory};
ghost use Rattle.dap_c.specs.ClientSeen.{IsStateOf, IsStateIn, IsWithin, AreFlagsOf, phase_number, AreFlagsIn, flags_seen};
ghost use Rattle.dap_c.specs.ClientBehind.{IsFull, IsEmpty, IfFull};
ghost use Rattle.dap_c.specs.ClientCalls.{IfClosed};

use crate::client_handle::YtClient;
use dap_c_parts::codes::{YT_NONE, YT_OK};
use dap_client::{Client, Phase};
use dap_command::Capabilities;
use dap_slot::{handle_of, take_out};
use std::alloc::Global;

/// What is seen of a client.
#[repr(C)]
#[derive(Drop)]
pub struct YtClientSeen {
    /// Requests that were sent and are not answered yet.
    pub outstanding: usize,
    /// Requests of the adapter that are kept, which wait for `yt_client_answer`.
    pub incoming: usize,
    /// The number of the oldest one; 0 where none is kept.
    pub oldest_incoming: u64,
    /// References that are known.
    pub references: usize,
    /// Bytes held of the frame under way.
    pub held: usize,
    /// 0 fresh, 1 initializing, 2 configuring, 3 running, 4 stopped, 5 resuming, 6 exited, 7 ended.
    pub phase: u32,
    /// The event `initialized` came.
    pub ready: bool,
}

/// What the adapter offers.
#[repr(C)]
#[derive(Drop)]
pub struct YtCapabilities {
    pub breakpoint_locations: bool,
    pub cancel: bool,
    pub completions: bool,
    pub configuration_done: bool,
    pub exception_info: bool,
    pub function_breakpoints: bool,
    pub loaded_sources: bool,
    pub modules: bool,
    pub restart: bool,
    pub set_variable: bool,
    pub step_back: bool,
    pub terminate: bool,
}

fn phase_code(phase: Phase) -> u32
    ensures { result ≡ phase_number phase }
{
    match phase {
        Phase::Fresh => 0,
        Phase::Initializing => 1,
        Phase::Configuring => 2,
        Phase::Running => 3,
        Phase::Stopped => 4,
        Phase::Resuming => 5,
        Phase::Exited => 6,
        Phase::Ended => 7,
    }
}

fn state_of(client: &Client) -> YtClientSeen
    ensures is { IsStateOf result client.now }
    ensures seen { (s : List ℕ) (h : List Entry) → StandsFor client.now s h → IsStateIn result h }
    ensures within { IsWithin result client.now.session.limits }
    ensures closed { IfSome client.now.fault (λ fault. result.held ≡ 0) }
{
    YtClientSeen {
        outstanding: client.outstanding(),
        incoming: client.incoming(),
        oldest_incoming: client.oldest_incoming().unwrap_or(0),
        references: client.references(),
        held: client.held(),
        phase: phase_code(client.phase()),
        ready: client.ready(),
    }
}

/// Tells what is seen of a client.
#[unsafe(no_mangle)]
pub extern "C" fn yt_client_state(
    alloc: Global,
    client: &mut YtClient,
    state: &mut YtClientSeen,
) -> u32
    ensures none { IsEmpty client.old → (result ≡ YT_NONE) × (state.new ≡ state.old) }
    ensures same { client.new.inner.value ≡ client.old.inner.value }
    ensures ok { IsFull client.old → result ≡ YT_OK }
    ensures is { IfFull client.old (λ c. IsStateOf state.new c.client) }
    ensures seen { IfFull client.old (λ c. OfEachHistory c.client (IsStateIn state.new)) }
    ensures within { IfFull client.old (λ c. IsWithin state.new c.client.session.limits) }
    ensures closed { IfFull client.old (λ c. IfClosed c (state.new.held ≡ 0)) }
{
    let Some(held) = take_out(alloc, client) else {
        return YT_NONE;
    };
    *state = state_of(&held.client);
    *client = handle_of(held);
    YT_OK
}

fn flags_of(capabilities: Capabilities) -> YtCapabilities
    ensures { AreFlagsOf result capabilities }
{
    YtCapabilities {
        breakpoint_locations: capabilities.breakpoint_locations,
        cancel: capabilities.cancel,
        completions: capabilities.completions,
        configuration_done: capabilities.configuration_done,
        exception_info: capabilities.exception_info,
        function_breakpoints: capabilities.function_breakpoints,
        loaded_sources: capabilities.loaded_sources,
        modules: capabilities.modules,
        restart: capabilities.restart,
        set_variable: capabilities.set_variable,
        step_back: capabilities.step_back,
        terminate: capabilities.terminate,
    }
}

/// Tells what the adapter offers: the flags of the last success of `initialize`, as `capabilities` events changed them.
#[unsafe(no_mangle)]
pub extern "C" fn yt_client_capabilities(
    alloc: Global,
    client: &mut YtClient,
    capabilities: &mut YtCapabilities,
) -> u32
    ensures none { IsEmpty client.old → (result ≡ YT_NONE) × (capabilities.new ≡ capabilities.old) }
    ensures same { client.new.inner.value ≡ client.old.inner.value }
    ensures ok { IsFull client.old → result ≡ YT_OK }
    ensures value { IfFull client.old (λ c. AreFlagsOf capabilities.new (flags_seen c)) }
    ensures seen { IfFull client.old (λ c. OfEachHistory c.client (AreFlagsIn capabilities.new)) }
{
    let Some(held) = take_out(alloc, client) else {
        return YT_NONE;
    };
    *capabilities = flags_of(held.client.capabilities());
    *client = handle_of(held);
    YT_OK
}
