//! The adapter's end behind a handle, over a debuggee that the host feeds.
//!
//! Bytes of a client come in; answers and events to be written go out. What an adapter is and does is in `dap_adapter`, and
//! what the debuggee shows in `dap_live`; each export has the clauses of its function there. Only the adapter behind the
//! handle and what the caller lends for an answer are touched.
ghost use Rattle.std.specs.Prelude.{◌≡◌, ◌⊎◌, ◌<◌, ◌≤◌, ◌++◌, [], length, drop, take, IfOk, IfErr, OnOk, OnErr, IfSome, IsSome, Some, None, Ok, true, false, is_some, vec_len, vec_capacity, if◌then◌else◌, ◌+◌, ◌≢◌};
ghost use Rattle.dap_frame.specs.Settings.{first_outside};
ghost use Rattle.dap_decision.specs.Table.{is_phase};
ghost use Rattle.dap_decision.specs.declared.phase.Phase.TheVariants.{Asked};
ghost use Rattle.dap_json.specs.Read.{json_of};
ghost use Rattle.serde_json.specs.View.{view};
ghost use Rattle.dap_plan.specs.Session.{fresh_session, offers_fit, oldest};
ghost use Rattle.dap_plan.specs.declared.fault.AdapterFault.{AdapterFault as TheFault};
ghost use Rattle.dap_adapter.specs.StandsFor.{StandsFor};
ghost use Rattle.dap_live.specs.LiveShown.{fresh_live};
ghost use Rattle.dap_c_adapter.specs.AdapterCalls.{AdapterTakes, RefusesAdapterPiece, IsAdapterAsBefore, AdapterTurns, RefusesTurn, frame_so_far, IsCodeOfArguments, IsCodeOfOpen, IsCodeOfOpenWith, IsCodeOfText, IsOpenedOver, IsOpenedWith, IsOpenedFor, OffersNothing, OpensNothing, ListsNothing, listed_by, offered_by, or_braces, HasNoSources, HasNothing, KeepsActs};
ghost use Rattle.dap_c_adapter.specs.AdapterFaults.{adapter_number, IsAdapterFaultFound};
ghost use Rattle.dap_c_parts.specs.Finds.{FindsNothing};
ghost use Rattle.dap_c_parts.specs.Limited.{settings_of, AreOutOfRange};
ghost use Rattle.dap_c_parts.specs.Buffer.{StaysIfSmall};
ghost use Rattle.dap_c_adapter.specs.AdapterBehind.{IsFull, IsEmpty, IfFull, FromTo, FromEmpty};
ghost use Rattle.dap_c_adapter.specs.AdapterExports.{IsFreshWithin, IsFreshOffering, IsFreshOpening, OpensOver, KeepsAdapter, KeepsLimits, KeepsTables, KeepsFrame, LeavesBytes, TakesPiece, RefusesPiece, LeavesDebuggee, LeavesUnasked, LeavesNothing, LatchesFault, MakesTurn, StaysOpen, MakesNoTurn, WritesNothing, IdlesIfNoneWaits, LatchesAndTells, PutsBytes, PutsFrame, HasNoFrame};

use crate::adapter_handle::YtAdapter;
use crate::held_adapter::HeldAdapter;
use crate::telling::sources_given;
use dap_adapter::{Adapter, AdapterFault, Offer, OfferFault, Taken, Turned, offers_fit};
use dap_c_parts::causes::{body_cause, cause_of};
use dap_c_parts::codes::*;
use dap_c_parts::copying::put;
use dap_c_parts::found::{YtFound, fault_at, nothing_found};
use dap_c_parts::limits::{self, YtLimits};
use dap_command::{Opening, OpeningFault};
use dap_frame::Limits;
use dap_json::ParseFault;
use dap_live::Live;
use dap_recording::Sources;
use dap_slot::{handle_of, take_out};
use serde_json::Value;
use std::alloc::Global;

/// The adapter over a debuggee with these sources.
fn adapter_over(alloc: Global, limits: Limits, sources: Sources) -> Option<Adapter<Live>>
    ensures session { IfSome result (λ a. a.session ≡ fresh_session limits) }
    ensures fault { IfSome result (λ a. a.fault ≡ None) }
    ensures debuggee { IfSome result (λ a. a.debuggee ≡ fresh_live sources) }
    ensures stands { IfSome result (λ a. StandsFor a [] []) }
{
    match Adapter::open(alloc, limits, Live::open(alloc, sources)) {
        Ok(adapter) => Some(adapter),
        Err(_) => None,
    }
}

fn opened(alloc: Global, limits: &YtLimits, base: &[u8]) -> Result<Box<HeldAdapter>, u32>
    ensures session { IfOk result (λ b. b.value.adapter.session ≡ fresh_session (settings_of limits.now)) }
    ensures fault { IfOk result (λ b. b.value.adapter.fault ≡ None) }
    ensures debuggee { IfOk result (λ b. IsOpenedOver (json_of base.now) b.value.adapter.debuggee) }
    ensures stands { IfOk result (λ b. StandsFor b.value.adapter [] []) }
    ensures nothing { IfOk result (λ b. HasNothing b.value) }
    ensures in_range { OnOk result (first_outside (settings_of limits.now) ≡ None) }
    ensures refused { IfErr result (λ code. code ≡ YT_BAD_LIMITS → IsSome (first_outside (settings_of limits.now))) }
    ensures out_of_range { IfErr result (λ code. IsSome (first_outside (settings_of limits.now)) → code ≡ YT_BAD_LIMITS) }
    ensures no_recording { IfErr result (λ code. code ≡ YT_BAD_RECORDING → HasNoSources (json_of base.now)) }
    ensures code { IfErr result IsCodeOfOpen }
{
    let Ok(limits) = limits::read(limits) else {
        return Err(YT_BAD_LIMITS);
    };
    let sources = sources_given(alloc, base)?;
    let Some(adapter) = adapter_over(alloc, limits, sources) else {
        return Err(YT_NO_MEMORY);
    };
    boxed(alloc, adapter)
}

/// What JSON bytes are.
pub(crate) fn json_given(alloc: Global, bytes: &[u8]) -> Result<Value, u32>
    ensures read { IfOk result (λ value. json_of bytes.now ≡ Some (view value)) }
    ensures refused { IfErr result (λ code. code ≡ YT_BAD_ARGUMENTS → json_of bytes.now ≡ None) }
    ensures code { IfErr result IsCodeOfArguments }
{
    match dap_json::parse(alloc, bytes) {
        Ok(value) => Ok(value),
        Err(ParseFault::NotJson) => Err(YT_BAD_ARGUMENTS),
        Err(ParseFault::OutOfMemory) => Err(YT_NO_MEMORY),
    }
}

/// What JSON offers, which fits, with these commands opened.
fn offers_given(alloc: Global, limits: Limits, opened: Opening, given: &[u8]) -> Result<Offer, u32>
    ensures read { IfOk result (λ offers. offered_by opened (json_of given.now) ≡ Ok offers) }
    ensures fit { IfOk result (λ offers. offers_fit limits offers ≡ true) }
    ensures refused { IfErr result (λ code. code ≡ YT_BAD_ARGUMENTS → OffersNothing limits opened (json_of given.now)) }
    ensures code { IfErr result IsCodeOfArguments }
{
    let given = json_given(alloc, given)?;
    let offers = match Offer::read_opening(alloc, &given, opened) {
        Ok(offers) => offers,
        Err(OfferFault::OutOfMemory) => return Err(YT_NO_MEMORY),
        Err(_) => return Err(YT_BAD_ARGUMENTS),
    };
    match offers_fit(alloc, limits, &offers) {
        Ok(true) => Ok(offers),
        Ok(false) => Err(YT_BAD_ARGUMENTS),
        Err(_) => Err(YT_NO_MEMORY),
    }
}

/// The commands that JSON lists.
fn commands_given(alloc: Global, given: &[u8]) -> Result<Opening, u32>
    ensures read { IfOk result (λ opened. listed_by (json_of given.now) ≡ Ok opened) }
    ensures refused { IfErr result (λ code. code ≡ YT_BAD_ARGUMENTS → ListsNothing (json_of given.now)) }
    ensures code { IfErr result IsCodeOfArguments }
{
    let given = json_given(alloc, given)?;
    match Opening::read(alloc, &given) {
        Ok(opened) => Ok(opened),
        Err(OpeningFault::OutOfMemory) => Err(YT_NO_MEMORY),
        Err(_) => Err(YT_BAD_ARGUMENTS),
    }
}

/// An adapter over the sources of a file, which offers what JSON says, with these commands opened.
fn opened_offering(
    alloc: Global,
    limits: Limits,
    base: &[u8],
    opened: Opening,
    offers: &[u8],
) -> Result<Box<HeldAdapter>, u32>
    ensures session { IfOk result (λ b. IsOpenedWith limits opened (json_of offers.now) b.value.adapter.session) }
    ensures fault { IfOk result (λ b. b.value.adapter.fault ≡ None) }
    ensures debuggee { IfOk result (λ b. IsOpenedOver (json_of base.now) b.value.adapter.debuggee) }
    ensures stands { IfOk result (λ b. StandsFor b.value.adapter [] []) }
    ensures nothing { IfOk result (λ b. HasNothing b.value) }
    ensures no_recording { IfErr result (λ code. code ≡ YT_BAD_RECORDING → HasNoSources (json_of base.now)) }
    ensures no_offer { IfErr result (λ code. code ≡ YT_BAD_ARGUMENTS → OffersNothing limits opened (json_of offers.now)) }
    ensures code { IfErr result IsCodeOfText }
{
    let given = sources_given(alloc, base)?;
    let offers = offers_given(alloc, limits, opened, offers)?;
    match Adapter::open_with(alloc, limits, Live::open(alloc, given), offers) {
        Ok(adapter) => boxed(alloc, adapter),
        Err(_) => Err(YT_NO_MEMORY),
    }
}

fn opened_with(
    alloc: Global,
    limits: &YtLimits,
    base: &[u8],
    offers: &[u8],
) -> Result<Box<HeldAdapter>, u32>
    ensures session { IfOk result (λ b. IsOpenedWith (settings_of limits.now) [] (json_of offers.now) b.value.adapter.session) }
    ensures fault { IfOk result (λ b. b.value.adapter.fault ≡ None) }
    ensures debuggee { IfOk result (λ b. IsOpenedOver (json_of base.now) b.value.adapter.debuggee) }
    ensures stands { IfOk result (λ b. StandsFor b.value.adapter [] []) }
    ensures nothing { IfOk result (λ b. HasNothing b.value) }
    ensures refused { IfErr result (λ code. code ≡ YT_BAD_LIMITS → IsSome (first_outside (settings_of limits.now))) }
    ensures no_recording { IfErr result (λ code. code ≡ YT_BAD_RECORDING → HasNoSources (json_of base.now)) }
    ensures no_offer { IfErr result (λ code. code ≡ YT_BAD_ARGUMENTS → OffersNothing (settings_of limits.now) [] (json_of offers.now)) }
    ensures code { IfErr result IsCodeOfOpenWith }
{
    match limits::read(limits) {
        Ok(limits) => opened_offering(alloc, limits, base, Opening::none(), offers),
        Err(_) => Err(YT_BAD_LIMITS),
    }
}

/// No bytes say no more than an empty object does.
fn or_braces(offers: &[u8]) -> &[u8]
    ensures { result.now ≡ or_braces offers.now }
{
    if offers.is_empty() { b"{}" } else { offers }
}

fn opened_for(
    alloc: Global,
    limits: &YtLimits,
    base: &[u8],
    offers: &[u8],
    commands: &[u8],
) -> Result<Box<HeldAdapter>, u32>
    ensures session { IfOk result (λ b. IsOpenedFor (settings_of limits.now) (json_of commands.now) (json_of (or_braces offers.now)) b.value.adapter.session) }
    ensures fault { IfOk result (λ b. b.value.adapter.fault ≡ None) }
    ensures debuggee { IfOk result (λ b. IsOpenedOver (json_of base.now) b.value.adapter.debuggee) }
    ensures stands { IfOk result (λ b. StandsFor b.value.adapter [] []) }
    ensures nothing { IfOk result (λ b. HasNothing b.value) }
    ensures refused { IfErr result (λ code. code ≡ YT_BAD_LIMITS → IsSome (first_outside (settings_of limits.now))) }
    ensures no_recording { IfErr result (λ code. code ≡ YT_BAD_RECORDING → HasNoSources (json_of base.now)) }
    ensures no_offer { IfErr result (λ code. code ≡ YT_BAD_ARGUMENTS → OpensNothing (settings_of limits.now) (json_of commands.now) (json_of (or_braces offers.now))) }
    ensures code { IfErr result IsCodeOfOpenWith }
{
    let Ok(limits) = limits::read(limits) else {
        return Err(YT_BAD_LIMITS);
    };
    let opened = commands_given(alloc, commands)?;
    opened_offering(alloc, limits, base, opened, or_braces(offers))
}

fn boxed(alloc: Global, adapter: Adapter<Live>) -> Result<Box<HeldAdapter>, u32>
    ensures adapter { IfOk result (λ b. b.value.adapter ≡ adapter) }
    ensures nothing { IfOk result (λ b. HasNothing b.value) }
    ensures code { IfErr result (λ code. code ≡ YT_NO_MEMORY) }
{
    let held = HeldAdapter {
        adapter,
        bytes: Vec::new(alloc),
        frame: Vec::new(alloc),
        whole: false,
        acts: Vec::new(alloc),
        act: None,
        variables: Vec::new(alloc),
    };
    match Box::new(alloc, held) {
        Ok(held) => Ok(held),
        Err(_) => Err(YT_NO_MEMORY),
    }
}

/// Opens an adapter, and lets go what the handle held. `base` is a JSON object with the `sources` of a recording
/// (docs/RECORDINGS.md), which are the debuggee's; what else it has does not matter, so a recording will do. Where it answers
/// other than `YT_OK`, the handle holds none.
#[unsafe(no_mangle)]
pub extern "C" fn yt_adapter_open(
    alloc: Global,
    adapter: &mut YtAdapter,
    limits: &YtLimits,
    base: &[u8],
) -> u32
    ensures open { result ≡ YT_OK → IsFull adapter.new }
    ensures closed { result ≢ YT_OK → IsEmpty adapter.new }
    ensures session { IfFull adapter.new (IsFreshWithin limits.now) }
    ensures fault { IfFull adapter.new (λ a. a.adapter.fault ≡ None) }
    ensures debuggee { IfFull adapter.new (OpensOver base.now) }
    ensures stands { IfFull adapter.new (λ a. StandsFor a.adapter [] []) }
    ensures nothing { IfFull adapter.new HasNothing }
    ensures refused { result ≡ YT_BAD_LIMITS → AreOutOfRange limits.now }
    ensures out_of_range { AreOutOfRange limits.now → result ≡ YT_BAD_LIMITS }
    ensures in_range { result ≡ YT_OK → first_outside (settings_of limits.now) ≡ None }
    ensures no_recording { result ≡ YT_BAD_RECORDING → HasNoSources (json_of base.now) }
    ensures codes { result ≢ YT_OK → IsCodeOfOpen result }
{
    take_out(alloc, adapter);
    match opened(alloc, limits, base) {
        Ok(held) => {
            *adapter = handle_of(held);
            YT_OK
        }
        Err(code) => code,
    }
}

/// Opens an adapter as `yt_adapter_open` does, which offers what a JSON object says: flags of what is served that are taken back,
/// and what else the debugger understands (docs/PROFILE.md, "What is offered"). `YT_BAD_ARGUMENTS` where that is no object, or says
/// what can't be offered, or is longer than the limit on bodies less 512 bytes.
#[unsafe(no_mangle)]
pub extern "C" fn yt_adapter_open_with(
    alloc: Global,
    adapter: &mut YtAdapter,
    limits: &YtLimits,
    base: &[u8],
    offers: &[u8],
) -> u32
    ensures open { result ≡ YT_OK → IsFull adapter.new }
    ensures closed { result ≢ YT_OK → IsEmpty adapter.new }
    ensures session { IfFull adapter.new (IsFreshOffering limits.now offers.now) }
    ensures fault { IfFull adapter.new (λ a. a.adapter.fault ≡ None) }
    ensures debuggee { IfFull adapter.new (OpensOver base.now) }
    ensures stands { IfFull adapter.new (λ a. StandsFor a.adapter [] []) }
    ensures nothing { IfFull adapter.new HasNothing }
    ensures refused { result ≡ YT_BAD_LIMITS → AreOutOfRange limits.now }
    ensures no_recording { result ≡ YT_BAD_RECORDING → HasNoSources (json_of base.now) }
    ensures no_offer { result ≡ YT_BAD_ARGUMENTS → OffersNothing (settings_of limits.now) [] (json_of offers.now) }
    ensures codes { result ≢ YT_OK → IsCodeOfOpenWith result }
{
    take_out(alloc, adapter);
    match opened_with(alloc, limits, base, offers) {
        Ok(held) => {
            *adapter = handle_of(held);
            YT_OK
        }
        Err(code) => code,
    }
}

/// Opens an adapter as `yt_adapter_open_with` does, and with it commands that are never served, which the caller answers:
/// `commands` is a JSON list of their names, or of objects with the name at `name` and, at `inStops`, whether it is of stops alone
/// (docs/PROFILE.md, "Commands of one's own"). Where `offers` has no bytes, all that is served is offered. `YT_BAD_ARGUMENTS` where
/// `commands` is no such list, or a name can't be opened or comes twice; and for offers as in `yt_adapter_open_with`, but that a
/// flag of commands that are all opened has to be `true` where it is there.
#[unsafe(no_mangle)]
pub extern "C" fn yt_adapter_open_commands(
    alloc: Global,
    adapter: &mut YtAdapter,
    limits: &YtLimits,
    base: &[u8],
    offers: &[u8],
    commands: &[u8],
) -> u32
    ensures open { result ≡ YT_OK → IsFull adapter.new }
    ensures closed { result ≢ YT_OK → IsEmpty adapter.new }
    ensures session { IfFull adapter.new (IsFreshOpening limits.now offers.now commands.now) }
    ensures fault { IfFull adapter.new (λ a. a.adapter.fault ≡ None) }
    ensures debuggee { IfFull adapter.new (OpensOver base.now) }
    ensures stands { IfFull adapter.new (λ a. StandsFor a.adapter [] []) }
    ensures nothing { IfFull adapter.new HasNothing }
    ensures refused { result ≡ YT_BAD_LIMITS → AreOutOfRange limits.now }
    ensures no_recording { result ≡ YT_BAD_RECORDING → HasNoSources (json_of base.now) }
    ensures no_offer { result ≡ YT_BAD_ARGUMENTS → OpensNothing (settings_of limits.now) (json_of commands.now) (json_of (or_braces offers.now)) }
    ensures codes { result ≢ YT_OK → IsCodeOfOpenWith result }
{
    take_out(alloc, adapter);
    match opened_for(alloc, limits, base, offers, commands) {
        Ok(held) => {
            *adapter = handle_of(held);
            YT_OK
        }
        Err(code) => code,
    }
}

/// Lets go what the handle held.
#[unsafe(no_mangle)]
pub extern "C" fn yt_adapter_free(alloc: Global, adapter: &mut YtAdapter)
    ensures { IsEmpty adapter.new }
{
    drop(take_out(alloc, adapter));
}

pub(crate) fn adapter_code(fault: AdapterFault) -> u32
    ensures { result ≡ adapter_number fault }
{
    match fault {
        AdapterFault::Frame(_) => YT_FRAME,
        AdapterFault::Body { .. } => YT_BODY,
        AdapterFault::RepeatedSeq { .. } => YT_REPEATED_SEQ,
        AdapterFault::Unmatched { .. } => YT_UNMATCHED,
        AdapterFault::CommandMismatch { .. } => YT_COMMAND_MISMATCH,
        AdapterFault::Ended => YT_ENDED,
        AdapterFault::SeqExhausted => YT_SEQ_EXHAUSTED,
        AdapterFault::OutOfMemory => YT_NO_MEMORY,
    }
}

pub(crate) fn adapter_fault_found(fault: AdapterFault) -> YtFound
    ensures found { IsAdapterFaultFound fault result }
    ensures nothing { FindsNothing result }
{
    match fault {
        AdapterFault::Frame(fault) => fault_at(fault.offset, cause_of(fault.cause)),
        AdapterFault::Body { cause, offset } => fault_at(offset, body_cause(cause)),
        AdapterFault::RepeatedSeq { seq } => fault_at(seq, 0),
        AdapterFault::Unmatched { request_seq } => fault_at(request_seq, 0),
        AdapterFault::CommandMismatch { request_seq } => fault_at(request_seq, 0),
        AdapterFault::Ended | AdapterFault::SeqExhausted | AdapterFault::OutOfMemory => {
            fault_at(0, 0)
        }
    }
}

/// A frame that was whole is let go: the bytes of the next one are gathered from now on.
fn begin_frame(held: &mut HeldAdapter)
    ensures frame { held.new.frame.items ≡ frame_so_far held.old }
    ensures whole { held.new.whole ≡ false }
    ensures adapter { held.new.adapter ≡ held.old.adapter }
    ensures bytes { held.new.bytes.items ≡ [] }
    ensures acts { KeepsActs held.old held.new }
    ensures gathered { held.new.variables ≡ held.old.variables }
{
    held.bytes.clear();
    if held.whole {
        held.frame.clear();
        held.whole = false;
    }
}

/// Keeps what an adapter gave, and the bytes that it used.
fn keep(held: &mut HeldAdapter, piece: &[u8], taken: Taken) -> YtFound
    requires room { vec_len held.old.frame + length piece.now ≤ vec_capacity held.old.frame }
    requires used { taken.used ≤ length piece.now }
    ensures used { result.used ≡ taken.used }
    ensures bytes { held.new.bytes.items ≡ taken.bytes.items }
    ensures bytes_length { result.bytes ≡ length taken.bytes.items }
    ensures whole { held.new.whole ≡ is_some taken.delivered }
    ensures frame { held.new.frame.items ≡ held.old.frame.items ++ take taken.used piece.now }
    ensures frame_length { result.frame ≡ (if is_some taken.delivered then length held.new.frame.items else 0) }
    ensures acts { KeepsActs held.old held.new }
    ensures gathered { held.new.variables ≡ held.old.variables }
    ensures adapter { held.new.adapter ≡ held.old.adapter }
{
    let Taken {
        used,
        delivered,
        bytes,
    } = taken;
    let (front, _) = piece.split_at(used);
    let Ok(()) = held.frame.extend_from_slice(front) else {
        unreachable!()
    };
    held.whole = delivered.is_some();
    held.bytes = bytes;
    YtFound {
        used,
        bytes: held.bytes.len(),
        frame: if held.whole { held.frame.len() } else { 0 },
        at: 0,
        cause: 0,
    }
}

fn take_piece(alloc: Global, held: &mut HeldAdapter, piece: &[u8], found: &mut YtFound) -> u32
    ensures takes { result ≡ YT_OK → AdapterTakes held.old held.new piece.now found.new }
    ensures progress { result ≡ YT_OK → 0 < length piece.now → 0 < found.new.used }
    ensures within { result ≡ YT_OK → found.new.used ≤ length piece.now }
    ensures open { result ≡ YT_OK → held.new.adapter.fault ≡ None }
    ensures limits { held.new.adapter.session.limits ≡ held.old.adapter.session.limits }
    ensures refuses { (result ≡ YT_OK → ⊥) → IsAdapterAsBefore held.old held.new result ⊎ RefusesAdapterPiece held.old held.new piece.now result found.new }
    ensures tables { (result ≡ YT_OK → ⊥) → held.new.adapter.session ≡ held.old.adapter.session }
    ensures debuggee { (result ≡ YT_OK → ⊥) → (result ≡ YT_NO_MEMORY → ⊥) → held.new.adapter.debuggee ≡ held.old.adapter.debuggee }
    ensures unasked { is_phase Asked held.old.adapter.session.phase ≡ false → (result ≡ YT_OK → ⊥) → held.new.adapter.debuggee ≡ held.old.adapter.debuggee }
    ensures length { found.new.bytes ≡ length held.new.bytes.items }
    ensures nothing { (result ≡ YT_OK → ⊥) → (held.new.bytes.items ≡ []) × (held.new.whole ≡ false) × FindsNothing found.new }
    ensures acts { KeepsActs held.old held.new }
    ensures gathered { held.new.variables ≡ held.old.variables }
    ensures latched { IfSome held.old.adapter.fault (λ fault. ((result ≡ YT_NO_MEMORY) ⊎ (result ≡ adapter_number fault)) × (held.new.adapter ≡ held.old.adapter)) }
{
    begin_frame(held);
    if held.frame.reserve(piece.len()).is_err() {
        *found = nothing_found();
        return YT_NO_MEMORY;
    }
    match held.adapter.take(alloc, piece) {
        Ok(taken) => {
            *found = keep(held, piece, taken);
            YT_OK
        }
        Err(fault) => {
            *found = adapter_fault_found(fault);
            adapter_code(fault)
        }
    }
}

/// Uses the bytes of a piece up to the end of one frame at most. What is to be written is fetched by `yt_adapter_bytes`, and
/// the frame that became whole by `yt_adapter_frame`, before the next call on the handle. Where it answers other than
/// `YT_OK`, the adapter is closed, and answers that from then on; but where it is `YT_NO_MEMORY`, it may have been refused
/// before anything was taken, and the same piece can be given once more.
#[unsafe(no_mangle)]
pub extern "C" fn yt_adapter_take(
    alloc: Global,
    adapter: &mut YtAdapter,
    piece: &[u8],
    found: &mut YtFound,
) -> u32
    ensures none { FromEmpty adapter.old adapter.new (result ≡ YT_NONE) (found.new ≡ found.old) }
    ensures held { IsFull adapter.old → IsFull adapter.new }
    ensures takes { FromTo adapter.old adapter.new (TakesPiece piece.now result found.new) }
    ensures progress { result ≡ YT_OK → 0 < length piece.now → 0 < found.new.used }
    ensures within { result ≡ YT_OK → found.new.used ≤ length piece.now }
    ensures open { FromTo adapter.old adapter.new (λ a b. result ≡ YT_OK → b.adapter.fault ≡ None) }
    ensures limits { FromTo adapter.old adapter.new KeepsLimits }
    ensures refuses { FromTo adapter.old adapter.new (RefusesPiece piece.now result found.new) }
    ensures tables { FromTo adapter.old adapter.new (λ a b. result ≢ YT_OK → KeepsTables a b) }

    // The debuggee is as it was, unless memory is refused to a response that lets it start.
    ensures debuggee { FromTo adapter.old adapter.new (LeavesDebuggee result) }
    ensures unasked { FromTo adapter.old adapter.new (LeavesUnasked result) }

    // What there is to fetch; where it is refused, nothing.
    ensures length { FromTo adapter.old adapter.new (LeavesBytes found.new.bytes) }
    ensures nothing { FromTo adapter.old adapter.new (LeavesNothing result found.new) }
    ensures acts { FromTo adapter.old adapter.new KeepsActs }
    ensures gathered { FromTo adapter.old adapter.new (λ a b. b.variables ≡ a.variables) }
    ensures latched { FromTo adapter.old adapter.new (LatchesFault result) }
{
    let Some(mut held) = take_out(alloc, adapter) else {
        return YT_NONE;
    };
    let code = take_piece(alloc, &mut *held, piece, found);
    *adapter = handle_of(held);
    code
}

/// What is to be written, and no frame.
pub(crate) fn only_bytes(held: &HeldAdapter) -> YtFound
    ensures { result.bytes ≡ length held.now.bytes.items }
{
    YtFound {
        used: 0,
        bytes: held.bytes.len(),
        frame: 0,
        at: 0,
        cause: 0,
    }
}

fn turn(alloc: Global, held: &mut HeldAdapter, found: &mut YtFound) -> u32
    ensures turns { (result ≡ YT_OK) ⊎ (result ≡ YT_IDLE) → AdapterTurns held.old held.new result }
    ensures length { found.new.bytes ≡ length held.new.bytes.items }
    ensures open { (result ≡ YT_OK) ⊎ (result ≡ YT_IDLE) → held.new.adapter.fault ≡ None }
    ensures limits { held.new.adapter.session.limits ≡ held.old.adapter.session.limits }
    ensures refuses { (result ≡ YT_OK → ⊥) → (result ≡ YT_IDLE → ⊥) → RefusesTurn held.old held.new result found.new }
    ensures tables { (result ≡ YT_OK → ⊥) → held.new.adapter.session ≡ held.old.adapter.session }
    ensures unchanged { result ≡ YT_IDLE → held.new.adapter ≡ held.old.adapter }
    ensures nothing { (result ≡ YT_OK → ⊥) → (held.new.bytes.items ≡ []) × FindsNothing found.new }
    ensures latched { IfSome held.old.adapter.fault (λ fault. (result ≡ adapter_number fault) × IsAdapterFaultFound fault found.new × (held.new.adapter ≡ held.old.adapter)) }
    ensures idle { held.old.adapter.fault ≡ None → oldest held.old.adapter.session.kept ≡ None → result ≡ YT_IDLE }
    ensures frame { (held.new.frame ≡ held.old.frame) × (held.new.whole ≡ held.old.whole) }
    ensures acts { KeepsActs held.old held.new }
    ensures gathered { held.new.variables ≡ held.old.variables }
{
    held.bytes.clear();
    match held.adapter.turn(alloc) {
        Ok(Turned::Idle) => {
            *found = nothing_found();
            YT_IDLE
        }
        Ok(Turned::Done { bytes }) => {
            held.bytes = bytes;
            *found = only_bytes(held);
            YT_OK
        }
        Err(fault) => {
            *found = adapter_fault_found(fault);
            adapter_code(fault)
        }
    }
}

/// Handles the request that came first of those that are not parked: `YT_IDLE` where none waits. What is to be written is
/// fetched by `yt_adapter_bytes` before the next call on the handle.
#[unsafe(no_mangle)]
pub extern "C" fn yt_adapter_turn(
    alloc: Global,
    adapter: &mut YtAdapter,
    found: &mut YtFound,
) -> u32
    ensures none { FromEmpty adapter.old adapter.new (result ≡ YT_NONE) (found.new ≡ found.old) }
    ensures held { IsFull adapter.old → IsFull adapter.new }
    ensures turns { FromTo adapter.old adapter.new (MakesTurn result) }
    ensures length { FromTo adapter.old adapter.new (LeavesBytes found.new.bytes) }
    ensures open { FromTo adapter.old adapter.new (StaysOpen result) }
    ensures limits { FromTo adapter.old adapter.new KeepsLimits }
    ensures refuses { FromTo adapter.old adapter.new (MakesNoTurn result found.new) }
    ensures tables { FromTo adapter.old adapter.new (λ a b. result ≢ YT_OK → KeepsTables a b) }
    ensures nothing { FromTo adapter.old adapter.new (WritesNothing result found.new) }
    ensures latched { FromTo adapter.old adapter.new (LatchesAndTells result found.new) }

    // Where no request waits, memory is not asked for, and nothing changes.
    ensures idle { FromTo adapter.old adapter.new (IdlesIfNoneWaits result) }
    ensures unchanged { result ≡ YT_IDLE → FromTo adapter.old adapter.new KeepsAdapter }
    ensures frame { FromTo adapter.old adapter.new KeepsFrame }
    ensures acts { FromTo adapter.old adapter.new KeepsActs }
    ensures gathered { FromTo adapter.old adapter.new (λ a b. b.variables ≡ a.variables) }
{
    let Some(mut held) = take_out(alloc, adapter) else {
        return YT_NONE;
    };
    let code = turn(alloc, &mut *held, found);
    *adapter = handle_of(held);
    code
}

/// Puts what is to be written into a buffer.
#[unsafe(no_mangle)]
pub extern "C" fn yt_adapter_bytes(alloc: Global, adapter: &mut YtAdapter, out: &mut [u8]) -> u32
    ensures none { IsEmpty adapter.old → (result ≡ YT_NONE) × (out.new ≡ out.old) }
    ensures same { adapter.new.inner.value ≡ adapter.old.inner.value }
    ensures bytes { IfFull adapter.old (λ a. result ≡ YT_OK → PutsBytes a out.old out.new) }
    ensures small { IfFull adapter.old (λ a. StaysIfSmall a.bytes.items result out.old out.new) }
    ensures codes { IsFull adapter.old → result ≢ YT_SMALL → result ≡ YT_OK }
{
    let Some(held) = take_out(alloc, adapter) else {
        return YT_NONE;
    };
    let code = put(held.bytes.as_slice(), out);
    *adapter = handle_of(held);
    code
}

fn put_frame(held: &HeldAdapter, out: &mut [u8]) -> u32
    ensures frame { result ≡ YT_OK → (held.now.whole ≡ true) × (out.new ≡ held.now.frame.items ++ drop (length held.now.frame.items) out.old) }
    ensures small { result ≡ YT_SMALL → (length out.old < length held.now.frame.items) × (out.new ≡ out.old) }
    ensures nothing { result ≡ YT_NOTHING → (held.now.whole ≡ false) × (out.new ≡ out.old) }
    ensures codes { (result ≡ YT_OK → ⊥) → (result ≡ YT_SMALL → ⊥) → result ≡ YT_NOTHING }
{
    if held.whole {
        put(held.frame.as_slice(), out)
    } else {
        YT_NOTHING
    }
}

/// Puts the frame whose message the last call of `yt_adapter_take` delivered into a buffer, with its header block:
/// `YT_NOTHING` where it delivered none.
#[unsafe(no_mangle)]
pub extern "C" fn yt_adapter_frame(alloc: Global, adapter: &mut YtAdapter, out: &mut [u8]) -> u32
    ensures none { IsEmpty adapter.old → (result ≡ YT_NONE) × (out.new ≡ out.old) }
    ensures same { adapter.new.inner.value ≡ adapter.old.inner.value }
    ensures frame { IfFull adapter.old (λ a. result ≡ YT_OK → PutsFrame a out.old out.new) }
    ensures small { IfFull adapter.old (λ a. StaysIfSmall a.frame.items result out.old out.new) }
    ensures nothing { IfFull adapter.old (λ a. result ≡ YT_NOTHING → HasNoFrame a out.old out.new) }
    ensures codes { IsFull adapter.old → result ≢ YT_OK → result ≢ YT_SMALL → result ≡ YT_NOTHING }
{
    let Some(held) = take_out(alloc, adapter) else {
        return YT_NONE;
    };
    let code = put_frame(&*held, out);
    *adapter = handle_of(held);
    code
}
