//! Output under a category of any name, and in pieces.
ghost use Rattle.std.specs.Prelude.{◌≡◌, ◌≢◌, IfOk, IfErr, IsUtf8, [], unwrap_or};
ghost use Rattle.dap_line.specs.Told.{category_named as category_of_name};
ghost use Rattle.dap_live.specs.declared.mail.Coming.TheVariants as said;
ghost use Rattle.dap_recording.specs.Pieces.{piece_length as length_of_first};
ghost use Rattle.dap_c_adapter.specs.AdapterCalls.{IsCodeOfText, KeepsActs};
ghost use Rattle.dap_c_adapter.specs.AdapterBehind.{IsFull, FromTo, FromEmpty};
ghost use Rattle.dap_c_adapter.specs.AdapterExports.{KeepsLimits, KeepsFrame, LeavesBytes, OutputsNamed, LatchesUnlessText, StaysOpenApart, AcceptsText};
ghost use Rattle.dap_c_adapter.specs.Beside.{CanBeSaid, CanBeTold, said_by};

use crate::adapter_handle::YtAdapter;
use crate::beside::said_given;
use crate::telling::{tell_handle, text_given};
use dap_c_parts::codes::*;
use dap_c_parts::found::YtFound;
use dap_debuggee::Category;
use dap_json::More;
use dap_line::category_named;
use dap_live::Coming;
use dap_recording::piece_length;
use std::alloc::Global;

/// A category by its name.
fn name_given(alloc: Global, name: &[u8]) -> Result<Category, u32>
    ensures named { IfOk result (λ category. category ≡ category_of_name name.now) }
    ensures wanted { IsUtf8 name.now → IfErr result (λ code. code ≡ YT_NO_MEMORY) }
    ensures no_recording { IfErr result (λ code. code ≡ YT_BAD_RECORDING → ⊥) }
    ensures code { IfErr result IsCodeOfText }
{
    let Ok(name) = std::str::from_utf8(name) else {
        return Err(YT_BAD_ARGUMENTS);
    };
    match category_named(alloc, name) {
        Ok(category) => Ok(category),
        Err(_) => Err(YT_NO_MEMORY),
    }
}

fn named_output_given(
    alloc: Global,
    category: &[u8],
    output: &[u8],
    more: &[u8],
) -> Result<Coming, u32>
    ensures said { IfOk result (λ told. told ≡ said.Output (category_of_name category.now) output.now (unwrap_or (said_by more.now) [])) }
    ensures can { IfOk result (λ told. CanBeSaid more.now) }
    ensures wanted { CanBeTold category.now output.now more.now → IfErr result (λ code. code ≡ YT_NO_MEMORY) }
    ensures no_recording { IfErr result (λ code. code ≡ YT_BAD_RECORDING → ⊥) }
    ensures code { IfErr result IsCodeOfText }
{
    let category = name_given(alloc, category)?;
    let said = said_given(alloc, more)?;
    let text = text_given(alloc, output)?;
    Ok(Coming::Output {
        category,
        text,
        more: said.unwrap_or(More::none()),
    })
}

/// As `yt_adapter_output_with`, with the category by its name: `console`, `stdout`, or one of your own. `YT_OUT_OF_RANGE` where that
/// has more than 64 bytes, a control character, a quote or a backslash, or the output more than 128 bytes.
#[unsafe(no_mangle)]
pub extern "C" fn yt_adapter_output_named(
    alloc: Global,
    adapter: &mut YtAdapter,
    category: &[u8],
    output: &[u8],
    more: &[u8],
    found: &mut YtFound,
) -> u32
    ensures none { FromEmpty adapter.old adapter.new (result ≡ YT_NONE) (found.new ≡ found.old) }
    ensures held { IsFull adapter.old → IsFull adapter.new }
    ensures tells { FromTo adapter.old adapter.new
        (OutputsNamed category.now output.now more.now result found.new) }
    ensures latched { FromTo adapter.old adapter.new (LatchesUnlessText result) }
    ensures apart { FromTo adapter.old adapter.new StaysOpenApart }
    ensures length { FromTo adapter.old adapter.new (LeavesBytes found.new.bytes) }
    ensures wanted { CanBeTold category.now output.now more.now → AcceptsText result }
    ensures no_recording { result ≢ YT_BAD_RECORDING }
    ensures limits { FromTo adapter.old adapter.new KeepsLimits }
    ensures frame { FromTo adapter.old adapter.new KeepsFrame }
    ensures acts { FromTo adapter.old adapter.new KeepsActs }
    ensures gathered { FromTo adapter.old adapter.new (λ a b. b.variables ≡ a.variables) }
{
    let coming = named_output_given(alloc, category, output, more);
    tell_handle(alloc, adapter, coming, found)
}

/// Tells how many of the first bytes of output can be told at once: all, or of more than 128 the most that are at most 128 and end
/// a character. Each call reads all that it is given, so hand in a long output some thousands of bytes at a time, each part up to
/// the end of a character. `YT_BAD_ARGUMENTS` where the bytes are no UTF-8: then `length` stays as it is.
#[unsafe(no_mangle)]
pub extern "C" fn yt_output_piece(output: &[u8], length: &mut usize) -> u32
    ensures told { IsUtf8 output.now → (result ≡ YT_OK) × (length.new ≡ length_of_first output.now) }
    ensures no_text { (IsUtf8 output.now → ⊥) → result ≡ YT_BAD_ARGUMENTS }
    ensures refused { result ≢ YT_OK → (result ≡ YT_BAD_ARGUMENTS) × (length.new ≡ length.old) }
{
    match std::str::from_utf8(output) {
        Ok(text) => {
            *length = piece_length(text);
            YT_OK
        }
        Err(_) => YT_BAD_ARGUMENTS,
    }
}
