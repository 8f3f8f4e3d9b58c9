//! Why a text has no value.
ghost use Rattle.std.specs.Prelude.{◌≡◌, ◌≢◌, IsUtf8, IfOk, IfErr};
ghost use Rattle.dap_live.specs.declared.mail.Coming.TheVariants as said;
ghost use Rattle.dap_c_adapter.specs.AdapterCalls.{IsCodeOfText, KeepsActs};
ghost use Rattle.dap_c_adapter.specs.AdapterBehind.{IsFull, FromTo, FromEmpty};
ghost use Rattle.dap_c_adapter.specs.AdapterExports.{KeepsLimits, KeepsFrame, LeavesBytes, TellsNoValue, LatchesUnlessText, StaysOpenApart, AcceptsText};

use crate::adapter_handle::YtAdapter;
use crate::telling::{tell_handle, text_given};
use dap_c_parts::codes::*;
use dap_c_parts::found::YtFound;
use dap_debuggee::Explanation;
use dap_live::Coming;
use std::alloc::Global;

fn no_value_given(alloc: Global, asked: &[u8], why: &[u8], show_user: bool) -> Result<Coming, u32>
    ensures said { IfOk result (λ told. told ≡ said.NoValue asked.now (record { text = why.now; show_user = show_user })) }
    ensures wanted { IsUtf8 asked.now → IsUtf8 why.now → IfErr result (λ code. code ≡ YT_NO_MEMORY) }
    ensures no_recording { IfErr result (λ code. code ≡ YT_BAD_RECORDING → ⊥) }
    ensures code { IfErr result IsCodeOfText }
{
    let text = text_given(alloc, asked)?;
    let words = text_given(alloc, why)?;
    let why = Explanation {
        text: words,
        show_user,
    };
    Ok(Coming::NoValue { text, why })
}

/// Tells that a text has no value, and why, in place of `yt_adapter_learned` with no value: an `evaluate` or a `setVariable` of
/// just that text fails with these words, where they fit the message. With `show_user` the client is asked to show them.
#[unsafe(no_mangle)]
pub extern "C" fn yt_adapter_no_value(
    alloc: Global,
    adapter: &mut YtAdapter,
    asked: &[u8],
    why: &[u8],
    show_user: bool,
    found: &mut YtFound,
) -> u32
    ensures none { FromEmpty adapter.old adapter.new (result ≡ YT_NONE) (found.new ≡ found.old) }
    ensures held { IsFull adapter.old → IsFull adapter.new }
    ensures tells { FromTo adapter.old adapter.new
        (TellsNoValue asked.now why.now show_user result found.new) }
    ensures latched { FromTo adapter.old adapter.new (LatchesUnlessText result) }
    ensures apart { FromTo adapter.old adapter.new StaysOpenApart }
    ensures length { FromTo adapter.old adapter.new (LeavesBytes found.new.bytes) }
    ensures wanted { IsUtf8 asked.now → IsUtf8 why.now → AcceptsText result }
    ensures no_recording { result ≢ YT_BAD_RECORDING }
    ensures limits { FromTo adapter.old adapter.new KeepsLimits }
    ensures frame { FromTo adapter.old adapter.new KeepsFrame }
    ensures acts { FromTo adapter.old adapter.new KeepsActs }
    ensures gathered { FromTo adapter.old adapter.new (λ a b. b.variables ≡ a.variables) }
{
    let coming = no_value_given(alloc, asked, why, show_user);
    tell_handle(alloc, adapter, coming, found)
}
