//! What a host says of its debuggee: what happened comes in, and what is to be written for it goes out.
//!
//! What does not happen in the state that the debuggee is in, or is out of its range, is dropped, and the code says why. What
//! is told is in the debuggee's mail for one poll (`Tells`); what is shown then is what the host told. Only the adapter behind
//! the handle and what the caller lends for an answer are touched.
ghost use Rattle.std.specs.Prelude.{◌≡◌, ◌⊎◌, ◌≤◌, ◌<◌, ◌++◌, ◌∷◌, IfOk, IfErr, IfSome, IsSome, IsOk, IsUtf8, Some, None, Ok, Err, false, [], length, if◌then◌else◌, ◌≢◌, unwrap_or};
ghost use Rattle.dap_json.specs.Read.{json_of};
ghost use Rattle.dap_recording.specs.Reading.{file_sources};
ghost use Rattle.dap_plan.specs.Polling.{has_debuggee};
ghost use Rattle.dap_plan.specs.declared.fault.AdapterFault.{AdapterFault as TheFault};
ghost use Rattle.dap_c_adapter.specs.AdapterCalls.{AdapterSaw, RefusesPoll, Tells, moment_over, IsStop, AreSources, IsCodeOfText, IsCodeOfRecording, IsToldCode, HasNoSources, KeepsActs, category_of, mail_number, variable_told};
ghost use Rattle.dap_c_adapter.specs.Beside.{CanBeSaid, said_by};
ghost use Rattle.dap_c_adapter.specs.AdapterFaults.{adapter_number, IsAdapterFaultFound};
ghost use Rattle.dap_live.specs.declared.mail.Coming.TheVariants as said;
ghost use Rattle.dap_c_adapter.specs.AdapterBehind.{IsFull, IsEmpty, FromTo, FromEmpty};
ghost use Rattle.dap_c_adapter.specs.AdapterExports.{KeepsLimits, KeepsFrame, KeepsAllElse, KeepsGathered, LeavesBytes, LatchesAndTells, Outputs, RefusesUnknown, TellsStop, TellsStopWith, ShowsNoMoment, TellsLearned, TellsSources, TellsGoingOn, TellsExit, TellsVariables, LatchesUnlessText, StaysOpenApart, AcceptsText, Gathers};

use crate::adapter::{adapter_code, adapter_fault_found, only_bytes};
use crate::adapter_handle::YtAdapter;
use crate::beside::said_given;
use crate::held_adapter::HeldAdapter;
use dap_c_parts::codes::*;
use dap_c_parts::found::YtFound;
use dap_debuggee::{Category, Variable};
use dap_json::{List, More, ParseFault, Text, Tree};
use dap_live::{Coming, Dropped, Mail};
use dap_recording::{RecordingFault, Snapshot, Sources, Texts};
use dap_slot::{handle_of, take_out};
use std::alloc::Global;

/// Why what was told is dropped, as a code.
fn mail_code(mut mail: Mail) -> u32
    ensures is { result ≡ mail_number mail }
    ensures codes { IsToldCode result }
{
    let is_left = mail.take_coming().is_some();
    let dropped = mail.take_dropped();
    drop(mail);
    // The debuggee was not asked: nothing happens in this phase.
    if is_left {
        return YT_OUT_OF_TURN;
    }
    match dropped {
        None => YT_OK,
        Some(Dropped::OutOfTurn) => YT_OUT_OF_TURN,
        Some(Dropped::OutOfRange) => YT_OUT_OF_RANGE,
        Some(Dropped::TooManySources) => YT_TOO_MANY_SOURCES,
        Some(Dropped::Told) => YT_TOLD,
        Some(Dropped::TooManyHolders) => YT_TOO_MANY_HOLDERS,
    }
}

/// Hands what the host says to the debuggee, and asks it what happened.
fn tell(alloc: Global, held: &mut HeldAdapter, coming: Coming, found: &mut YtFound) -> u32
    ensures tells { AdapterSaw coming held.old held.new result found.new ⊎ RefusesPoll coming held.old held.new result found.new }
    ensures latched { IfSome held.old.adapter.fault (λ fault. (result ≡ adapter_number fault) × IsAdapterFaultFound fault found.new × (held.new.adapter ≡ held.old.adapter)) }
    ensures apart { held.old.adapter.fault ≡ None → has_debuggee held.old.adapter.session.phase ≡ false → held.new.adapter.fault ≡ None }
    ensures length { found.new.bytes ≡ length held.new.bytes.items }
    ensures heard { (result ≡ YT_BAD_ARGUMENTS → ⊥) × (result ≡ YT_BAD_RECORDING → ⊥) }
    ensures limits { held.new.adapter.session.limits ≡ held.old.adapter.session.limits }
    ensures frame { (held.new.frame ≡ held.old.frame) × (held.new.whole ≡ held.old.whole) }
    ensures acts { KeepsActs held.old held.new }
    ensures gathered { held.new.variables ≡ held.old.variables }
{
    held.bytes.clear();
    let mut mail = Mail::new(alloc);
    mail.post(coming);
    let kept = held.adapter.exchange(mail);
    let polled = held.adapter.poll(alloc);
    let code = mail_code(held.adapter.exchange(kept));
    match polled {
        Ok(bytes) => {
            held.bytes = bytes;
            *found = only_bytes(held);
            code
        }
        Err(fault) => {
            *found = adapter_fault_found(fault);
            adapter_code(fault)
        }
    }
}

/// The same, where it could be read.
fn tell_given(
    alloc: Global,
    held: &mut HeldAdapter,
    coming: Result<Coming, u32>,
    found: &mut YtFound,
) -> u32
    requires { IfErr coming IsCodeOfText }
    ensures tells { Tells coming held.old held.new result found.new }
    ensures latched { IfSome held.old.adapter.fault (λ fault. ((result ≡ adapter_number fault) ⊎ IsCodeOfText result) × (held.new.adapter ≡ held.old.adapter)) }
    ensures apart { held.old.adapter.fault ≡ None → has_debuggee held.old.adapter.session.phase ≡ false → held.new.adapter.fault ≡ None }
    ensures length { found.new.bytes ≡ length held.new.bytes.items }
    ensures why { (result ≡ YT_BAD_ARGUMENTS) ⊎ (result ≡ YT_BAD_RECORDING) → coming ≡ Err result }
    ensures unread { IfErr coming (λ code. result ≡ code) }
    ensures limits { held.new.adapter.session.limits ≡ held.old.adapter.session.limits }
    ensures frame { (held.new.frame ≡ held.old.frame) × (held.new.whole ≡ held.old.whole) }
    ensures acts { KeepsActs held.old held.new }
    ensures gathered { held.new.variables ≡ held.old.variables }
{
    match coming {
        Ok(coming) => tell(alloc, held, coming, found),
        Err(code) => {
            held.bytes.clear();
            *found = only_bytes(held);
            code
        }
    }
}

/// The same, over a handle.
pub(crate) fn tell_handle(
    alloc: Global,
    adapter: &mut YtAdapter,
    coming: Result<Coming, u32>,
    found: &mut YtFound,
) -> u32
    requires { IfErr coming IsCodeOfText }
    ensures none { FromEmpty adapter.old adapter.new (result ≡ YT_NONE) (found.new ≡ found.old) }
    ensures held { IsFull adapter.old → IsFull adapter.new }
    ensures tells { FromTo adapter.old adapter.new (λ a b. Tells coming a b result found.new) }
    ensures latched { FromTo adapter.old adapter.new (LatchesUnlessText result) }
    ensures apart { FromTo adapter.old adapter.new StaysOpenApart }
    ensures length { FromTo adapter.old adapter.new (LeavesBytes found.new.bytes) }
    ensures why { (result ≡ YT_BAD_ARGUMENTS) ⊎ (result ≡ YT_BAD_RECORDING) → coming ≡ Err result }
    ensures unread { FromTo adapter.old adapter.new (λ a b. IfErr coming (λ code. result ≡ code)) }
    ensures limits { FromTo adapter.old adapter.new KeepsLimits }
    ensures frame { FromTo adapter.old adapter.new KeepsFrame }
    ensures acts { FromTo adapter.old adapter.new KeepsActs }
    ensures gathered { FromTo adapter.old adapter.new (λ a b. b.variables ≡ a.variables) }
{
    let Some(mut held) = take_out(alloc, adapter) else {
        return YT_NONE;
    };
    let code = tell_given(alloc, &mut *held, coming, found);
    *adapter = handle_of(held);
    code
}

pub(crate) fn text_given(alloc: Global, bytes: &[u8]) -> Result<Text, u32>
    ensures text { IfOk result (λ text. text ≡ bytes.now) }
    ensures is_text { IsOk result → IsUtf8 bytes.now }
    ensures wanted { IsUtf8 bytes.now → IfErr result (λ code. code ≡ YT_NO_MEMORY) }
    ensures no_recording { IfErr result (λ code. code ≡ YT_BAD_RECORDING → ⊥) }
    ensures code { IfErr result IsCodeOfText }
{
    let Ok(text) = std::str::from_utf8(bytes) else {
        return Err(YT_BAD_ARGUMENTS);
    };
    match Text::copied(alloc, text) {
        Ok(text) => Ok(text),
        Err(_) => Err(YT_NO_MEMORY),
    }
}

/// The moment that JSON is, over sources.
fn moment_in(texts: &mut Texts, sources: &Sources, moment: &Tree) -> Result<Snapshot, u32>
    ensures read { IfOk result (λ shows. moment_over sources.now (Some moment.now) ≡ Some shows) }
    ensures no_moment { IfErr result (λ code. code ≡ YT_BAD_RECORDING → moment_over sources.now (Some moment.now) ≡ None) }
    ensures code { IfErr result IsCodeOfRecording }
{
    match Snapshot::read(texts, sources, moment) {
        Ok(shows) => Ok(shows),
        Err(RecordingFault::OutOfMemory) => Err(YT_NO_MEMORY),
        Err(_) => Err(YT_BAD_RECORDING),
    }
}

/// The same of bytes.
fn moment_given(alloc: Global, sources: &Sources, bytes: &[u8]) -> Result<Snapshot, u32>
    ensures read { IfOk result (λ shows. moment_over sources.now (json_of bytes.now) ≡ Some shows) }
    ensures no_moment { IfErr result (λ code. code ≡ YT_BAD_RECORDING → moment_over sources.now (json_of bytes.now) ≡ None) }
    ensures code { IfErr result IsCodeOfRecording }
{
    let moment = match dap_json::parse(alloc, bytes) {
        Ok(value) => Tree::new(value),
        Err(ParseFault::NotJson) => return Err(YT_BAD_RECORDING),
        Err(ParseFault::OutOfMemory) => return Err(YT_NO_MEMORY),
    };
    match Texts::new(alloc, bytes.len()) {
        Ok(mut texts) => moment_in(&mut texts, sources, &moment),
        Err(_) => Err(YT_NO_MEMORY),
    }
}

fn sources_in(texts: &mut Texts, bytes: &[u8]) -> Result<Sources, u32>
    ensures read { IfOk result (λ sources. file_sources (json_of bytes.now) ≡ Ok sources) }
    ensures no_recording { IfErr result (λ code. code ≡ YT_BAD_RECORDING → HasNoSources (json_of bytes.now)) }
    ensures code { IfErr result IsCodeOfRecording }
{
    match Sources::of_file(texts, bytes) {
        Ok(sources) => Ok(sources),
        Err(RecordingFault::OutOfMemory) => Err(YT_NO_MEMORY),
        Err(_) => Err(YT_BAD_RECORDING),
    }
}

/// The sources of a file.
pub(crate) fn sources_given(alloc: Global, bytes: &[u8]) -> Result<Sources, u32>
    ensures read { IfOk result (λ sources. file_sources (json_of bytes.now) ≡ Ok sources) }
    ensures no_recording { IfErr result (λ code. code ≡ YT_BAD_RECORDING → HasNoSources (json_of bytes.now)) }
    ensures code { IfErr result IsCodeOfRecording }
{
    match Texts::new(alloc, bytes.len()) {
        Ok(mut texts) => sources_in(&mut texts, bytes),
        Err(_) => Err(YT_NO_MEMORY),
    }
}

/// A category by its number.
fn category_given(category: u32) -> Result<Category, u32>
    ensures known { IfOk result (λ named. named ≡ category_of category) }
    ensures wanted { category ≤ 4 → IsOk result }
    ensures unknown { 4 < category → result ≡ Err YT_BAD_ARGUMENTS }
    ensures code { IfErr result (λ code. code ≡ YT_BAD_ARGUMENTS) }
{
    match category {
        0 => Ok(Category::Console),
        1 => Ok(Category::Stdout),
        2 => Ok(Category::Stderr),
        3 => Ok(Category::Important),
        4 => Ok(Category::Telemetry),
        _ => Err(YT_BAD_ARGUMENTS),
    }
}

pub(crate) fn output_given(
    alloc: Global,
    category: u32,
    output: &[u8],
    more: &[u8],
) -> Result<Coming, u32>
    ensures said { IfOk result (λ told. told ≡ said.Output (category_of category) output.now (unwrap_or (said_by more.now) [])) }
    ensures can { IfOk result (λ told. CanBeSaid more.now) }
    ensures wanted { category ≤ 4 → IsUtf8 output.now → CanBeSaid more.now → IfErr result (λ code. code ≡ YT_NO_MEMORY) }
    ensures unknown { 4 < category → result ≡ Err YT_BAD_ARGUMENTS }
    ensures no_recording { IfErr result (λ code. code ≡ YT_BAD_RECORDING → ⊥) }
    ensures code { IfErr result IsCodeOfText }
{
    let category = category_given(category)?;
    let said = said_given(alloc, more)?;
    let text = text_given(alloc, output)?;
    Ok(Coming::Output {
        category,
        text,
        more: said.unwrap_or(More::none()),
    })
}

fn stop_given(
    alloc: Global,
    sources: &Sources,
    reason: &[u8],
    thread: i64,
    shows: &[u8],
    later: bool,
    more: &[u8],
) -> Result<Coming, u32>
    ensures said { IfOk result (IsStop sources.now reason.now thread (json_of shows.now) later (unwrap_or (said_by more.now) [])) }
    ensures can { IfOk result (λ told. CanBeSaid more.now) }
    ensures wanted { IsUtf8 reason.now → CanBeSaid more.now → IfErr result (λ code. code ≡ YT_BAD_ARGUMENTS → ⊥) }
    ensures no_moment { IfErr result (λ code. code ≡ YT_BAD_RECORDING → moment_over sources.now (json_of shows.now) ≡ None) }
    ensures code { IfErr result IsCodeOfText }
{
    let said = said_given(alloc, more)?;
    let reason = text_given(alloc, reason)?;
    let shows = moment_given(alloc, sources, shows)?;
    Ok(Coming::Stopped {
        reason,
        thread,
        shows,
        later,
        more: said.unwrap_or(More::none()),
    })
}

/// Tells output: `category` is 0 console, 1 stdout, 2 stderr, 3 important, 4 telemetry; at most 128 bytes of UTF-8.
#[unsafe(no_mangle)]
pub extern "C" fn yt_adapter_output(
    alloc: Global,
    adapter: &mut YtAdapter,
    category: u32,
    output: &[u8],
    found: &mut YtFound,
) -> u32
    ensures none { FromEmpty adapter.old adapter.new (result ≡ YT_NONE) (found.new ≡ found.old) }
    ensures held { IsFull adapter.old → IsFull adapter.new }
    ensures tells { FromTo adapter.old adapter.new (Outputs category output.now result found.new) }
    ensures latched { FromTo adapter.old adapter.new (LatchesUnlessText result) }
    ensures apart { FromTo adapter.old adapter.new StaysOpenApart }
    ensures length { FromTo adapter.old adapter.new (LeavesBytes found.new.bytes) }
    ensures wanted { category ≤ 4 → IsUtf8 output.now → AcceptsText result }
    ensures unknown { FromTo adapter.old adapter.new (RefusesUnknown category result) }
    ensures no_recording { result ≢ YT_BAD_RECORDING }
    ensures limits { FromTo adapter.old adapter.new KeepsLimits }
    ensures frame { FromTo adapter.old adapter.new KeepsFrame }
    ensures acts { FromTo adapter.old adapter.new KeepsActs }
    ensures gathered { FromTo adapter.old adapter.new (λ a b. b.variables ≡ a.variables) }
{
    let coming = output_given(alloc, category, output, &[]);
    tell_handle(alloc, adapter, coming, found)
}

/// Tells a stop where the moment that is shown can be read, over the debuggee's sources.
fn tell_stop(
    alloc: Global,
    held: &mut HeldAdapter,
    reason: &[u8],
    thread: i64,
    shows: &[u8],
    later: bool,
    more: &[u8],
    found: &mut YtFound,
) -> u32
    ensures tells { TellsStopWith reason.now thread shows.now later more.now result found.new held.old held.new }
    ensures latched { IfSome held.old.adapter.fault (λ fault. ((result ≡ adapter_number fault) ⊎ IsCodeOfText result) × (held.new.adapter ≡ held.old.adapter)) }
    ensures apart { StaysOpenApart held.old held.new }
    ensures length { LeavesBytes found.new.bytes held.old held.new }
    ensures wanted { IsUtf8 reason.now → CanBeSaid more.now → result ≢ YT_BAD_ARGUMENTS }
    ensures no_moment { ShowsNoMoment shows.now result held.old held.new }
    ensures limits { KeepsLimits held.old held.new }
    ensures frame { KeepsFrame held.old held.new }
    ensures acts { KeepsActs held.old held.new }
    ensures gathered { held.new.variables ≡ held.old.variables }
{
    let sources = held.adapter.debuggee().sources();
    let coming = stop_given(alloc, sources, reason, thread, shows, later, more);
    tell_given(alloc, held, coming, found)
}

/// Tells a stop: a reason of at most 64 bytes, the thread that stopped, and the moment that is shown, as a host tells it
/// (docs/HOST.md): JSON, over the sources that there are. `later` says that more of it is told later, by `yt_adapter_variables`.
#[unsafe(no_mangle)]
pub extern "C" fn yt_adapter_stopped(
    alloc: Global,
    adapter: &mut YtAdapter,
    reason: &[u8],
    thread: i64,
    shows: &[u8],
    later: bool,
    found: &mut YtFound,
) -> u32
    ensures none { FromEmpty adapter.old adapter.new (result ≡ YT_NONE) (found.new ≡ found.old) }
    ensures held { IsFull adapter.old → IsFull adapter.new }
    ensures tells { FromTo adapter.old adapter.new
        (TellsStop reason.now thread shows.now later result found.new) }
    ensures latched { FromTo adapter.old adapter.new (LatchesUnlessText result) }
    ensures apart { FromTo adapter.old adapter.new StaysOpenApart }
    ensures length { FromTo adapter.old adapter.new (LeavesBytes found.new.bytes) }
    ensures wanted { IsUtf8 reason.now → result ≢ YT_BAD_ARGUMENTS }
    ensures no_moment { FromTo adapter.old adapter.new (ShowsNoMoment shows.now result) }
    ensures limits { FromTo adapter.old adapter.new KeepsLimits }
    ensures frame { FromTo adapter.old adapter.new KeepsFrame }
    ensures acts { FromTo adapter.old adapter.new KeepsActs }
    ensures gathered { FromTo adapter.old adapter.new (λ a b. b.variables ≡ a.variables) }
{
    let Some(mut held) = take_out(alloc, adapter) else {
        return YT_NONE;
    };
    let code = tell_stop(alloc, &mut *held, reason, thread, shows, later, &[], found);
    *adapter = handle_of(held);
    code
}

/// As `yt_adapter_stopped`, with what is said beside the stop, such as `{"description":"a breakpoint","hitBreakpointIds":[1]}`: a
/// JSON object, as of `yt_adapter_learned_with`. It is left out where the event would be longer than a body may be.
#[unsafe(no_mangle)]
pub extern "C" fn yt_adapter_stopped_with(
    alloc: Global,
    adapter: &mut YtAdapter,
    reason: &[u8],
    thread: i64,
    shows: &[u8],
    later: bool,
    more: &[u8],
    found: &mut YtFound,
) -> u32
    ensures none { FromEmpty adapter.old adapter.new (result ≡ YT_NONE) (found.new ≡ found.old) }
    ensures held { IsFull adapter.old → IsFull adapter.new }
    ensures tells { FromTo adapter.old adapter.new
        (TellsStopWith reason.now thread shows.now later more.now result found.new) }
    ensures latched { FromTo adapter.old adapter.new (LatchesUnlessText result) }
    ensures apart { FromTo adapter.old adapter.new StaysOpenApart }
    ensures length { FromTo adapter.old adapter.new (LeavesBytes found.new.bytes) }
    ensures wanted { IsUtf8 reason.now → CanBeSaid more.now → result ≢ YT_BAD_ARGUMENTS }
    ensures no_moment { FromTo adapter.old adapter.new (ShowsNoMoment shows.now result) }
    ensures limits { FromTo adapter.old adapter.new KeepsLimits }
    ensures frame { FromTo adapter.old adapter.new KeepsFrame }
    ensures acts { FromTo adapter.old adapter.new KeepsActs }
    ensures gathered { FromTo adapter.old adapter.new (λ a b. b.variables ≡ a.variables) }
{
    let Some(mut held) = take_out(alloc, adapter) else {
        return YT_NONE;
    };
    let code = tell_stop(alloc, &mut *held, reason, thread, shows, later, more, found);
    *adapter = handle_of(held);
    code
}

/// Tells that it went on by itself.
#[unsafe(no_mangle)]
pub extern "C" fn yt_adapter_continued(
    alloc: Global,
    adapter: &mut YtAdapter,
    thread: i64,
    found: &mut YtFound,
) -> u32
    ensures none { FromEmpty adapter.old adapter.new (result ≡ YT_NONE) (found.new ≡ found.old) }
    ensures held { IsFull adapter.old → IsFull adapter.new }
    ensures tells { FromTo adapter.old adapter.new (TellsGoingOn thread result found.new) }
    ensures latched { FromTo adapter.old adapter.new (LatchesUnlessText result) }
    ensures apart { FromTo adapter.old adapter.new StaysOpenApart }
    ensures length { FromTo adapter.old adapter.new (LeavesBytes found.new.bytes) }
    ensures wanted { AcceptsText result }
    ensures limits { FromTo adapter.old adapter.new KeepsLimits }
    ensures frame { FromTo adapter.old adapter.new KeepsFrame }
    ensures acts { FromTo adapter.old adapter.new KeepsActs }
    ensures gathered { FromTo adapter.old adapter.new (λ a b. b.variables ≡ a.variables) }
{
    tell_handle(alloc, adapter, Ok(Coming::Continued { thread }), found)
}

/// Tells that it exited.
#[unsafe(no_mangle)]
pub extern "C" fn yt_adapter_exited(
    alloc: Global,
    adapter: &mut YtAdapter,
    code: i32,
    found: &mut YtFound,
) -> u32
    ensures none { FromEmpty adapter.old adapter.new (result ≡ YT_NONE) (found.new ≡ found.old) }
    ensures held { IsFull adapter.old → IsFull adapter.new }
    ensures tells { FromTo adapter.old adapter.new (TellsExit code result found.new) }
    ensures latched { FromTo adapter.old adapter.new (LatchesUnlessText result) }
    ensures apart { FromTo adapter.old adapter.new StaysOpenApart }
    ensures length { FromTo adapter.old adapter.new (LeavesBytes found.new.bytes) }
    ensures wanted { AcceptsText result }
    ensures limits { FromTo adapter.old adapter.new KeepsLimits }
    ensures frame { FromTo adapter.old adapter.new KeepsFrame }
    ensures acts { FromTo adapter.old adapter.new KeepsActs }
    ensures gathered { FromTo adapter.old adapter.new (λ a b. b.variables ≡ a.variables) }
{
    tell_handle(alloc, adapter, Ok(Coming::Exited { code }), found)
}

/// What holds the parts of a value, where it has some.
pub(crate) fn holder_given(has_parts: bool, holder: u64) -> Option<u64>
    ensures { result ≡ (if has_parts then Some holder else None) }
{
    if has_parts { Some(holder) } else { None }
}

pub(crate) fn value_given(
    alloc: Global,
    asked: &[u8],
    known: bool,
    value: &[u8],
    holder: Option<u64>,
    more: Option<More>,
) -> Result<Coming, u32>
    ensures said { IfOk result (λ told. told ≡ said.Learned asked.now (if known then Some value.now else None) holder more) }
    ensures wanted { IsUtf8 asked.now → IsUtf8 value.now → IfErr result (λ code. code ≡ YT_NO_MEMORY) }
    ensures no_recording { IfErr result (λ code. code ≡ YT_BAD_RECORDING → ⊥) }
    ensures code { IfErr result IsCodeOfText }
{
    let text = text_given(alloc, asked)?;
    let value = text_given(alloc, value)?;
    Ok(Coming::Learned {
        text,
        value: if known { Some(value) } else { None },
        holder,
        more,
    })
}

pub(crate) fn variable_given(
    alloc: Global,
    name: &[u8],
    value: &[u8],
    holder: Option<u64>,
    more: More,
) -> Result<Variable, u32>
    ensures variable { IfOk result (λ variable. variable ≡ record { name = name.now; value = value.now; holder = holder; more = more }) }
    ensures wanted { IsUtf8 name.now → IsUtf8 value.now → IfErr result (λ code. code ≡ YT_NO_MEMORY) }
    ensures no_recording { IfErr result (λ code. code ≡ YT_BAD_RECORDING → ⊥) }
    ensures code { IfErr result IsCodeOfText }
{
    let name = text_given(alloc, name)?;
    let value = text_given(alloc, value)?;
    Ok(Variable {
        name,
        value,
        holder,
        more,
    })
}

/// Tells what a text comes to, or that it has no value, between `yt_adapter_take` of the request that asks it and the turn.
/// `holder` holds the parts of the value, where it has some.
#[unsafe(no_mangle)]
pub extern "C" fn yt_adapter_learned(
    alloc: Global,
    adapter: &mut YtAdapter,
    asked: &[u8],
    known: bool,
    value: &[u8],
    has_parts: bool,
    holder: u64,
    found: &mut YtFound,
) -> u32
    ensures none { FromEmpty adapter.old adapter.new (result ≡ YT_NONE) (found.new ≡ found.old) }
    ensures held { IsFull adapter.old → IsFull adapter.new }
    ensures tells { FromTo adapter.old adapter.new
        (TellsLearned asked.now value.now known has_parts holder result found.new) }
    ensures latched { FromTo adapter.old adapter.new (LatchesUnlessText result) }
    ensures apart { FromTo adapter.old adapter.new StaysOpenApart }
    ensures length { FromTo adapter.old adapter.new (LeavesBytes found.new.bytes) }
    ensures wanted { IsUtf8 asked.now → IsUtf8 value.now → AcceptsText result }
    ensures no_recording { result ≢ YT_BAD_RECORDING }
    ensures limits { FromTo adapter.old adapter.new KeepsLimits }
    ensures frame { FromTo adapter.old adapter.new KeepsFrame }
    ensures acts { FromTo adapter.old adapter.new KeepsActs }
    ensures gathered { FromTo adapter.old adapter.new (λ a b. b.variables ≡ a.variables) }
{
    let holder = holder_given(has_parts, holder);
    let coming = value_given(alloc, asked, known, value, holder, None);
    tell_handle(alloc, adapter, coming, found)
}

pub(crate) fn keep_variable(held: &mut HeldAdapter, variable: Result<Variable, u32>) -> u32
    requires { IfErr variable IsCodeOfText }
    ensures code { (result ≡ YT_OK → ⊥) → IsCodeOfText result }
    ensures adapter { held.new.adapter ≡ held.old.adapter }
    ensures others { (held.new.bytes ≡ held.old.bytes) × (held.new.frame ≡ held.old.frame) × (held.new.whole ≡ held.old.whole) }
    ensures acts { KeepsActs held.old held.new }
    ensures gathers { IfOk variable (λ v. result ≡ YT_OK → held.new.variables.items ≡ held.old.variables.items ++ v ∷ []) }
    ensures refused { (result ≡ YT_OK → ⊥) → held.new.variables.items ≡ held.old.variables.items }
    ensures read { result ≡ YT_OK → IsOk variable }
    ensures given { IfErr variable (λ code. result ≡ code) }
    ensures no_memory { IfOk variable (λ v. (result ≡ YT_OK → ⊥) → result ≡ YT_NO_MEMORY) }
{
    match variable {
        Ok(variable) => match held.variables.push(variable) {
            Ok(()) => YT_OK,
            Err(_) => YT_NO_MEMORY,
        },
        Err(code) => code,
    }
}

/// One more of the variables that `yt_adapter_variables` tells next. `holder` holds its parts, where it has some.
#[unsafe(no_mangle)]
pub extern "C" fn yt_adapter_variable(
    alloc: Global,
    adapter: &mut YtAdapter,
    name: &[u8],
    value: &[u8],
    has_parts: bool,
    holder: u64,
) -> u32
    ensures none { IsEmpty adapter.old → (result ≡ YT_NONE) × IsEmpty adapter.new }
    ensures held { IsFull adapter.old → IsFull adapter.new }
    ensures code { IsFull adapter.old → result ≢ YT_OK → IsCodeOfText result }
    ensures same { FromTo adapter.old adapter.new KeepsAllElse }
    ensures acts { FromTo adapter.old adapter.new KeepsActs }
    ensures gathers { Gathers adapter.old adapter.new name.now value.now has_parts holder result }
    ensures refused { FromTo adapter.old adapter.new (λ a b. result ≢ YT_OK → KeepsGathered a b) }
    ensures wanted { IsUtf8 name.now → IsUtf8 value.now → result ≢ YT_BAD_ARGUMENTS }
    ensures no_recording { result ≢ YT_BAD_RECORDING }
{
    let Some(mut held) = take_out(alloc, adapter) else {
        return YT_NONE;
    };
    let holder = holder_given(has_parts, holder);
    let variable = variable_given(alloc, name, value, holder, More::none());
    let code = keep_variable(&mut *held, variable);
    *adapter = handle_of(held);
    code
}

fn tell_variables(alloc: Global, held: &mut HeldAdapter, holder: u64, found: &mut YtFound) -> u32
    ensures tells { Tells (Ok (said.Variables holder held.old.variables.items)) held.old held.new result found.new }
    ensures latched { IfSome held.old.adapter.fault (λ fault. (result ≡ adapter_number fault) × IsAdapterFaultFound fault found.new × (held.new.adapter ≡ held.old.adapter)) }
    ensures apart { held.old.adapter.fault ≡ None → has_debuggee held.old.adapter.session.phase ≡ false → held.new.adapter.fault ≡ None }
    ensures length { found.new.bytes ≡ length held.new.bytes.items }
    ensures limits { held.new.adapter.session.limits ≡ held.old.adapter.session.limits }
    ensures frame { (held.new.frame ≡ held.old.frame) × (held.new.whole ≡ held.old.whole) }
    ensures acts { KeepsActs held.old held.new }
    ensures none_gathered { held.new.variables.items ≡ [] }
{
    let variables = std::mem::replace(&mut held.variables, Vec::new(alloc));
    let coming = Coming::Variables {
        holder,
        variables: List::new(variables),
    };
    tell(alloc, held, coming, found)
}

/// Tells the variables of a holder that has none yet: those that `yt_adapter_variable` has gathered since the last call.
#[unsafe(no_mangle)]
pub extern "C" fn yt_adapter_variables(
    alloc: Global,
    adapter: &mut YtAdapter,
    holder: u64,
    found: &mut YtFound,
) -> u32
    ensures none { FromEmpty adapter.old adapter.new (result ≡ YT_NONE) (found.new ≡ found.old) }
    ensures held { IsFull adapter.old → IsFull adapter.new }
    ensures tells { FromTo adapter.old adapter.new (TellsVariables holder result found.new) }
    ensures latched { FromTo adapter.old adapter.new (LatchesAndTells result found.new) }
    ensures apart { FromTo adapter.old adapter.new StaysOpenApart }
    ensures length { FromTo adapter.old adapter.new (LeavesBytes found.new.bytes) }
    ensures limits { FromTo adapter.old adapter.new KeepsLimits }
    ensures frame { FromTo adapter.old adapter.new KeepsFrame }
    ensures acts { FromTo adapter.old adapter.new KeepsActs }
    ensures none_gathered { FromTo adapter.old adapter.new (λ a b. b.variables.items ≡ []) }
{
    let Some(mut held) = take_out(alloc, adapter) else {
        return YT_NONE;
    };
    let code = tell_variables(alloc, &mut *held, holder, found);
    *adapter = handle_of(held);
    code
}

fn more_given(alloc: Global, sources: &[u8]) -> Result<Coming, u32>
    ensures said { IfOk result (AreSources (json_of sources.now)) }
    ensures no_recording { IfErr result (λ code. code ≡ YT_BAD_RECORDING → HasNoSources (json_of sources.now)) }
    ensures code { IfErr result IsCodeOfRecording }
{
    let sources = sources_given(alloc, sources)?;
    Ok(Coming::Sources(sources))
}

/// Tells of more sources: those of a JSON object (docs/RECORDINGS.md) come behind those there are. What else it has does not
/// matter.
#[unsafe(no_mangle)]
pub extern "C" fn yt_adapter_sources(
    alloc: Global,
    adapter: &mut YtAdapter,
    sources: &[u8],
    found: &mut YtFound,
) -> u32
    ensures none { FromEmpty adapter.old adapter.new (result ≡ YT_NONE) (found.new ≡ found.old) }
    ensures held { IsFull adapter.old → IsFull adapter.new }
    ensures tells { FromTo adapter.old adapter.new (TellsSources sources.now result found.new) }
    ensures latched { FromTo adapter.old adapter.new (LatchesUnlessText result) }
    ensures apart { FromTo adapter.old adapter.new StaysOpenApart }
    ensures length { FromTo adapter.old adapter.new (LeavesBytes found.new.bytes) }
    ensures wanted { result ≢ YT_BAD_ARGUMENTS }
    ensures no_recording { result ≡ YT_BAD_RECORDING → HasNoSources (json_of sources.now) }
    ensures limits { FromTo adapter.old adapter.new KeepsLimits }
    ensures frame { FromTo adapter.old adapter.new KeepsFrame }
    ensures acts { FromTo adapter.old adapter.new KeepsActs }
    ensures gathered { FromTo adapter.old adapter.new (λ a b. b.variables ≡ a.variables) }
{
    tell_handle(alloc, adapter, more_given(alloc, sources), found)
}
