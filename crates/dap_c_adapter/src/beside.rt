//! What a host says beside a variable or a value: the members of a JSON object.
ghost use Rattle.std.specs.Prelude.{◌≡◌, ◌≢◌, ◌≤◌, [], IfOk, IfErr, IsUtf8, Some, None, if◌then◌else◌, unwrap_or};
ghost use Rattle.dap_live.specs.declared.mail.Coming.TheVariants as said;
ghost use Rattle.dap_c_adapter.specs.AdapterCalls.{IsCodeOfText, KeepsActs};
ghost use Rattle.dap_c_adapter.specs.AdapterBehind.{IsFull, IsEmpty, FromTo, FromEmpty};
ghost use Rattle.dap_c_adapter.specs.AdapterExports.{KeepsLimits, KeepsFrame, KeepsAllElse, KeepsGathered, LeavesBytes, OutputsWith, RefusesUnknown, TellsLearnedWith, LatchesUnlessText, StaysOpenApart, AcceptsText, GathersWith};
ghost use Rattle.dap_c_adapter.specs.Beside.{CanBeSaid, CanBeTold, said_by};

use crate::adapter_handle::YtAdapter;
use crate::telling::{
    holder_given, keep_variable, output_given, tell_handle, value_given, variable_given,
};
use dap_c_parts::codes::*;
use dap_c_parts::found::YtFound;
use dap_debuggee::Variable;
use dap_json::{More, ParseFault};
use dap_live::Coming;
use dap_slot::{handle_of, take_out};
use std::alloc::Global;

/// What is said; `None` where there are no bytes.
pub(crate) fn said_given(alloc: Global, bytes: &[u8]) -> Result<Option<More>, u32>
    ensures said { IfOk result (λ said. said ≡ said_by bytes.now) }
    ensures can { IfOk result (λ said. CanBeSaid bytes.now) }
    ensures wanted { CanBeSaid bytes.now → IfErr result (λ code. code ≡ YT_NO_MEMORY) }
    ensures no_recording { IfErr result (λ code. code ≡ YT_BAD_RECORDING → ⊥) }
    ensures code { IfErr result IsCodeOfText }
{
    if bytes.is_empty() {
        return Ok(None);
    }
    let value = match dap_json::parse(alloc, bytes) {
        Ok(value) => value,
        Err(ParseFault::NotJson) => return Err(YT_BAD_ARGUMENTS),
        Err(ParseFault::OutOfMemory) => return Err(YT_NO_MEMORY),
    };
    match More::of(alloc, &value) {
        Ok(Some(more)) => Ok(Some(more)),
        Ok(None) => Err(YT_BAD_ARGUMENTS),
        Err(_) => Err(YT_NO_MEMORY),
    }
}

fn value_with(
    alloc: Global,
    asked: &[u8],
    known: bool,
    value: &[u8],
    holder: Option<u64>,
    more: &[u8],
) -> Result<Coming, u32>
    ensures said { IfOk result (λ told. told ≡ said.Learned asked.now (if known then Some value.now else None) holder (said_by more.now)) }
    ensures can { IfOk result (λ told. CanBeSaid more.now) }
    ensures wanted { CanBeTold asked.now value.now more.now → IfErr result (λ code. code ≡ YT_NO_MEMORY) }
    ensures no_recording { IfErr result (λ code. code ≡ YT_BAD_RECORDING → ⊥) }
    ensures code { IfErr result IsCodeOfText }
{
    let said = said_given(alloc, more)?;
    value_given(alloc, asked, known, value, holder, said)
}

fn variable_with(
    alloc: Global,
    name: &[u8],
    value: &[u8],
    holder: Option<u64>,
    more: &[u8],
) -> Result<Variable, u32>
    ensures variable { IfOk result (λ variable. variable ≡ record { name = name.now; value = value.now; holder = holder; more = unwrap_or (said_by more.now) [] }) }
    ensures can { IfOk result (λ variable. CanBeSaid more.now) }
    ensures wanted { CanBeTold name.now value.now more.now → IfErr result (λ code. code ≡ YT_NO_MEMORY) }
    ensures no_recording { IfErr result (λ code. code ≡ YT_BAD_RECORDING → ⊥) }
    ensures code { IfErr result IsCodeOfText }
{
    let said = said_given(alloc, more)?;
    let more = said.unwrap_or(More::none());
    variable_given(alloc, name, value, holder, more)
}

/// As `yt_adapter_output`, with what is said beside it, such as `{"group":"start"}`: a JSON object, as of
/// `yt_adapter_learned_with`. It is left out where the event would be longer than a body may be.
#[unsafe(no_mangle)]
pub extern "C" fn yt_adapter_output_with(
    alloc: Global,
    adapter: &mut YtAdapter,
    category: u32,
    output: &[u8],
    more: &[u8],
    found: &mut YtFound,
) -> u32
    ensures none { FromEmpty adapter.old adapter.new (result ≡ YT_NONE) (found.new ≡ found.old) }
    ensures held { IsFull adapter.old → IsFull adapter.new }
    ensures tells { FromTo adapter.old adapter.new (OutputsWith category output.now more.now result found.new) }
    ensures latched { FromTo adapter.old adapter.new (LatchesUnlessText result) }
    ensures apart { FromTo adapter.old adapter.new StaysOpenApart }
    ensures length { FromTo adapter.old adapter.new (LeavesBytes found.new.bytes) }
    ensures wanted { category ≤ 4 → IsUtf8 output.now → CanBeSaid more.now → AcceptsText result }
    ensures unknown { FromTo adapter.old adapter.new (RefusesUnknown category result) }
    ensures no_recording { result ≢ YT_BAD_RECORDING }
    ensures limits { FromTo adapter.old adapter.new KeepsLimits }
    ensures frame { FromTo adapter.old adapter.new KeepsFrame }
    ensures acts { FromTo adapter.old adapter.new KeepsActs }
    ensures gathered { FromTo adapter.old adapter.new (λ a b. b.variables ≡ a.variables) }
{
    let coming = output_given(alloc, category, output, more);
    tell_handle(alloc, adapter, coming, found)
}

/// As `yt_adapter_learned`, with what is said beside the value: a JSON object, such as `{"type":"int"}`, without floats and
/// nested at most 100 deep; no bytes where nothing is said. A variable that is set to the value has that then.
#[unsafe(no_mangle)]
pub extern "C" fn yt_adapter_learned_with(
    alloc: Global,
    adapter: &mut YtAdapter,
    asked: &[u8],
    known: bool,
    value: &[u8],
    has_parts: bool,
    holder: u64,
    more: &[u8],
    found: &mut YtFound,
) -> u32
    ensures none { FromEmpty adapter.old adapter.new (result ≡ YT_NONE) (found.new ≡ found.old) }
    ensures held { IsFull adapter.old → IsFull adapter.new }
    ensures tells { FromTo adapter.old adapter.new
        (TellsLearnedWith asked.now value.now known has_parts holder more.now result found.new) }
    ensures latched { FromTo adapter.old adapter.new (LatchesUnlessText result) }
    ensures apart { FromTo adapter.old adapter.new StaysOpenApart }
    ensures length { FromTo adapter.old adapter.new (LeavesBytes found.new.bytes) }
    ensures wanted { CanBeTold asked.now value.now more.now → AcceptsText result }
    ensures no_recording { result ≢ YT_BAD_RECORDING }
    ensures limits { FromTo adapter.old adapter.new KeepsLimits }
    ensures frame { FromTo adapter.old adapter.new KeepsFrame }
    ensures acts { FromTo adapter.old adapter.new KeepsActs }
    ensures gathered { FromTo adapter.old adapter.new (λ a b. b.variables ≡ a.variables) }
{
    let holder = holder_given(has_parts, holder);
    let coming = value_with(alloc, asked, known, value, holder, more);
    tell_handle(alloc, adapter, coming, found)
}

/// As `yt_adapter_variable`, with what is said beside the variable, as of `yt_adapter_learned_with`.
#[unsafe(no_mangle)]
pub extern "C" fn yt_adapter_variable_with(
    alloc: Global,
    adapter: &mut YtAdapter,
    name: &[u8],
    value: &[u8],
    has_parts: bool,
    holder: u64,
    more: &[u8],
) -> u32
    ensures none { IsEmpty adapter.old → (result ≡ YT_NONE) × IsEmpty adapter.new }
    ensures held { IsFull adapter.old → IsFull adapter.new }
    ensures code { IsFull adapter.old → result ≢ YT_OK → IsCodeOfText result }
    ensures same { FromTo adapter.old adapter.new KeepsAllElse }
    ensures acts { FromTo adapter.old adapter.new KeepsActs }
    ensures gathers { GathersWith adapter.old adapter.new name.now value.now has_parts holder more.now result }
    ensures refused { FromTo adapter.old adapter.new (λ a b. result ≢ YT_OK → KeepsGathered a b) }
    ensures wanted { CanBeTold name.now value.now more.now → result ≢ YT_BAD_ARGUMENTS }
    ensures no_recording { result ≢ YT_BAD_RECORDING }
{
    let Some(mut held) = take_out(alloc, adapter) else {
        return YT_NONE;
    };
    let holder = holder_given(has_parts, holder);
    let variable = variable_with(alloc, name, value, holder, more);
    let code = keep_variable(&mut *held, variable);
    *adapter = handle_of(held);
    code
}
