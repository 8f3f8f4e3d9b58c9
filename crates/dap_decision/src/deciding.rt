//! What is to be done with a request: the tests in their order, and the table.
ghost use Rattle.std.specs.Prelude.{◌≡◌, IsErrOf, IfOk, OnOk, IfErr, Some, None, ◌&&◌, false, true};
ghost use Rattle.std.specs.List.{list_any};
ghost use Rattle.std.specs.Option.{option_copied};
ghost use Rattle.std.specs.Ordering.{int_eq};
ghost use Rattle.dap_decision.specs.Failures.{name_refused, phase_refused, call_refused, call_in, lacks_thread, lacks_reference, lacks_source, thread_named, thread_of, reference_named, source_named};
ghost use Rattle.dap_call.specs.Argument.{Gives};
ghost use Rattle.dap_call.specs.Call.{takes_memory};
ghost use Rattle.dap_call.specs.declared.call.CallFault.{CallFault};
ghost use Rattle.dap_tables.specs.References.{is_of_kind};
ghost use Rattle.dap_decision.specs.Decisions.{DecidesIn};
ghost use Rattle.dap_decision.specs.Table.{is_never_served, effect_in};

use crate::decision::Decision;
use crate::effect::Effect;
use crate::phase::Phase;
use crate::table::{effect_in, is_never_served, is_of_stops};
use dap_body::Failure;
use dap_call::{Call, CallFault, CallObject, read_call};
use dap_command::Command;
use dap_debuggee::{Debuggee, DebuggeeFault, Thread};
use dap_query::Queries;
use dap_tables::{Entry, ReferenceKind, Target};
use std::alloc::{AllocError, Global};

/// Why a request fails by its name alone; else its command.
fn by_name(phase: Phase, command: Option<Command>) -> Result<Command, Failure>
    ensures refused { IfErr result (λ f. name_refused phase command ≡ Some f) }
    ensures named { IfOk result (λ c. command ≡ Some c) }
    ensures passed { OnOk result (name_refused phase command ≡ None) }
    ensures served { IfOk result (λ c. is_never_served c ≡ false) }
{
    let is_fresh = phase == Phase::Fresh;
    let Some(command) = command else {
        return Err(if is_fresh {
            Failure::NotInitialized
        } else {
            Failure::UnknownCommand
        });
    };
    if is_fresh && command != Command::Initialize && command != Command::Disconnect {
        return Err(Failure::NotInitialized);
    }
    if command == Command::Initialize && !is_fresh {
        return Err(Failure::AlreadyInitialized);
    }
    if is_never_served(command) {
        return Err(Failure::Unsupported);
    }
    Ok(command)
}

/// Why a request fails in a phase; else what it does there.
fn by_phase(phase: Phase, command: Command) -> Result<Effect, Failure>
    requires { is_never_served command ≡ false }
    ensures refused { IfErr result (λ f. phase_refused phase command ≡ Some f) }
    ensures passed { OnOk result (phase_refused phase command ≡ None) }
    ensures served { IfOk result (λ e. effect_in command phase ≡ Some e) }
{
    if let Some(effect) = effect_in(command, phase) {
        return Ok(effect);
    }
    if phase == Phase::Running && is_of_stops(command) {
        return Err(Failure::NotStopped);
    }
    Err(Failure::WrongPhase)
}

/// The thread that has to exist.
fn thread_named(call: &Call) -> Option<i64>
    ensures { result ≡ thread_named call.now }
{
    match call.object() {
        CallObject::Thread(id) => Some(id),
        _ => None,
    }
}

/// The source whose text it asks for.
fn source_named(call: &Call) -> Option<u32>
    ensures { result ≡ source_named call.now }
{
    match call.object() {
        CallObject::Source(number) => Some(number),
        _ => None,
    }
}

/// The reference that a call names, and what it has to be.
fn reference_named(call: &Call) -> Option<(ReferenceKind, u32)>
    ensures { result ≡ reference_named call.now }
{
    match call.object() {
        CallObject::Frame(None) => None,
        CallObject::Frame(Some(number)) => Some((ReferenceKind::Frame, number)),
        CallObject::Holder(number) => Some((ReferenceKind::Holder, number)),
        _ => None,
    }
}

fn is_of_kind(kind: ReferenceKind, target: Option<&Target>) -> bool
    ensures { result ≡ is_of_kind kind (option_copied target.entry) }
{
    match target {
        None => false,
        Some(target) => match (target.kind, kind) {
            (ReferenceKind::Frame, ReferenceKind::Frame) => true,
            (ReferenceKind::Holder, ReferenceKind::Holder) => true,
            (ReferenceKind::Frame, ReferenceKind::Holder) => false,
            (ReferenceKind::Holder, ReferenceKind::Frame) => false,
        },
    }
}

fn has_thread(threads: &[Thread], id: i64) -> bool
    ensures { result ≡ list_any (λ t. int_eq t.id id) threads.now }
{
    threads.iter().any(|thread| thread.id == id)
}

fn lacks_thread<D: Debuggee>(alloc: Global, debuggee: &D, call: &Call) -> Result<bool, AllocError>
    ensures { IfOk result (λ lacks. lacks ≡ lacks_thread (D.shown debuggee.now) (thread_named call.now)) }
{
    let Some(id) = thread_named(call) else {
        return Ok(false);
    };
    let threads = debuggee.threads(alloc)?;
    Ok(!has_thread(&threads, id))
}

fn lacks_reference(queries: &Queries, call: &Call) -> bool
    ensures { result ≡ lacks_reference queries.now.references (reference_named call.now) }
{
    match reference_named(call) {
        None => false,
        Some((kind, number)) => !is_of_kind(kind, queries.target(number)),
    }
}

fn lacks_source<D: Debuggee>(alloc: Global, debuggee: &D, call: &Call) -> Result<bool, AllocError>
    ensures { IfOk result (λ lacks. lacks ≡ lacks_source (D.shown debuggee.now) (source_named call.now)) }
{
    let Some(number) = source_named(call) else {
        return Ok(false);
    };
    if number == 0 {
        return Ok(true);
    }
    match debuggee.source(alloc, number - 1) {
        Ok(source) => {
            drop(source);
            Ok(false)
        }
        Err(DebuggeeFault::Refused) => Ok(true),
        Err(DebuggeeFault::OutOfMemory) => Err(AllocError),
    }
}

/// Why a call fails by what it names.
fn by_call<D: Debuggee>(
    alloc: Global,
    queries: &Queries,
    debuggee: &D,
    call: &Call,
) -> Result<Option<Failure>, AllocError>
    ensures { IfOk result (λ f. f ≡ call_refused (D.shown debuggee.now) queries.now.references call.now) }
{
    if lacks_thread(alloc, debuggee, call)? {
        return Ok(Some(Failure::UnknownThread));
    }
    if lacks_reference(queries, call) {
        return Ok(Some(Failure::StaleReference));
    }
    if lacks_source(alloc, debuggee, call)? {
        return Ok(Some(Failure::UnknownSource));
    }
    Ok(None)
}

/// What is to be done with a request in a phase, by the tests in their one order and the table.
///
/// # Errors
/// Where memory is refused.
pub fn decide<D: Debuggee>(
    alloc: Global,
    phase: Phase,
    queries: &Queries,
    debuggee: &D,
    request: &Entry,
) -> Result<Decision, AllocError>
    ensures { IfOk result (DecidesIn (D.shown debuggee.now) phase queries.now request.now) }
{
    let named = by_name(phase, Command::of_name(request.command.as_str()));
    let command = match named {
        Err(failure) => return Ok(Decision::Refuses(failure)),
        Ok(command) => command,
    };
    let call = match call_in(alloc, request, command) {
        Err(CallFault::BadArguments { key }) => {
            return Ok(Decision::Refuses(Failure::BadArguments { key }));
        }
        Err(CallFault::OutOfMemory) => return Err(AllocError),
        Ok(call) => call,
    };
    let effect = match by_phase(phase, command) {
        Err(failure) => {
            // The proof of a call is shorter than that of a value that goes out of scope.
            drop(call);
            return Ok(Decision::Refuses(failure));
        }
        Ok(effect) => effect,
    };
    match by_call(alloc, queries, debuggee, &call) {
        Err(fault) => {
            drop(call);
            Err(fault)
        }
        Ok(Some(failure)) => {
            drop(call);
            Ok(Decision::Refuses(failure))
        }
        Ok(None) => Ok(Decision::Serves(effect, call)),
    }
}

/// What a request asks.
pub fn call_in(alloc: Global, request: &Entry, command: Command) -> Result<Call, CallFault>
    ensures call { Gives result (call_in request.now command) }
    ensures memory { IsErrOf result CallFault.OutOfMemory → takes_memory command ≡ true }
{
    match &request.arguments {
        None => read_call(alloc, command, None),
        Some(tree) => read_call(alloc, command, Some(tree.value())),
    }
}

/// The thread that a call names.
pub fn thread_of(call: &Call) -> i64
    ensures { result ≡ thread_of call.now }
{
    match thread_named(call) {
        Some(id) => id,
        None => 0,
    }
}
