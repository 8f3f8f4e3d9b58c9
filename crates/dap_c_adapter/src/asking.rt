//! Requests by which a host asks the client: the command and the arguments come in, and the request to be written waits to be fetched.
//! Only the adapter behind the handle and what the caller lends for an answer are touched.
ghost use Rattle.std.specs.Prelude.{◌≡◌, ◌≢◌, ◌≤◌, IsUtf8, None, [], length};
ghost use Rattle.std.specs.Option.{IsSome};
ghost use Rattle.dap_c_adapter.specs.AdapterBehind.{FromEmpty, FromTo, IfFull, IsEmpty, IsFull};
ghost use Rattle.dap_c_adapter.specs.AdapterCalls.{IsCodeOfArguments, KeepsActs};
ghost use Rattle.dap_c_adapter.specs.AdapterExports.{KeepsAdapter, KeepsFrame, KeepsLimits, LeavesBytes};
ghost use Rattle.dap_c_adapter.specs.Asking.{AsksNamed, RefusesRequest, TellsNumber, ask_number};
ghost use Rattle.dap_c_adapter.specs.Emitting.{body_by};

use crate::adapter::only_bytes;
use crate::adapter_handle::YtAdapter;
use crate::emitting::body_given;
use crate::held_adapter::HeldAdapter;
use dap_adapter::AskFault;
use dap_c_parts::codes::*;
use dap_c_parts::found::YtFound;
use dap_slot::{handle_of, take_out};
use std::alloc::Global;

fn ask_code(fault: AskFault) -> u32
    ensures { result ≡ ask_number fault }
{
    match fault {
        AskFault::Closed => YT_ENDED,
        AskFault::WrongPhase => YT_WRONG_PHASE,
        AskFault::BadName => YT_BAD_NAME,
        AskFault::Full => YT_FULL,
        AskFault::TooLarge => YT_TOO_LARGE,
        AskFault::SeqExhausted => YT_SEQ_EXHAUSTED,
        AskFault::OutOfMemory => YT_NO_MEMORY,
    }
}

/// Lets the adapter ask the client by a request whose command is a text.
fn ask_text(
    alloc: Global,
    held: &mut HeldAdapter,
    command: &str,
    arguments: &[u8],
    seq: &mut u64,
) -> u32
    ensures asks { AsksNamed command.now arguments.now result held.old held.new }
    ensures number { TellsNumber result seq.new held.old held.new }
    ensures untold { result ≢ YT_OK → seq.new ≡ seq.old }
    ensures refuses { RefusesRequest command.now arguments.now result held.old held.new }
    ensures unchanged { result ≢ YT_OK → KeepsAdapter held.old held.new }
    ensures nothing { result ≢ YT_OK → held.new.bytes.items ≡ [] }
    ensures why { result ≡ YT_BAD_ARGUMENTS → body_by arguments.now ≡ None }
    ensures bad { body_by arguments.now ≡ None → IsCodeOfArguments result }
    ensures limits { KeepsLimits held.old held.new }
    ensures frame { KeepsFrame held.old held.new }
    ensures acts { KeepsActs held.old held.new }
    ensures gathered { held.new.variables ≡ held.old.variables }
{
    held.bytes.clear();
    let given = match body_given(alloc, arguments) {
        Ok(given) => given,
        Err(code) => return code,
    };
    match held.adapter.ask(alloc, command, given, &mut held.bytes) {
        Ok(number) => {
            *seq = number;
            YT_OK
        }
        Err(fault) => ask_code(fault),
    }
}

fn ask_named(
    alloc: Global,
    held: &mut HeldAdapter,
    command: &[u8],
    arguments: &[u8],
    seq: &mut u64,
) -> u32
    ensures asks { AsksNamed command.now arguments.now result held.old held.new }
    ensures number { TellsNumber result seq.new held.old held.new }
    ensures untold { result ≢ YT_OK → seq.new ≡ seq.old }
    ensures refuses { RefusesRequest command.now arguments.now result held.old held.new }
    ensures unchanged { result ≢ YT_OK → KeepsAdapter held.old held.new }
    ensures nothing { result ≢ YT_OK → held.new.bytes.items ≡ [] }
    ensures wanted { IsUtf8 command.now → IsSome (body_by arguments.now) → result ≢ YT_BAD_ARGUMENTS }
    ensures bad_name { (IsUtf8 command.now → ⊥) → IsCodeOfArguments result }
    ensures bad_arguments { body_by arguments.now ≡ None → IsCodeOfArguments result }
    ensures limits { KeepsLimits held.old held.new }
    ensures frame { KeepsFrame held.old held.new }
    ensures acts { KeepsActs held.old held.new }
    ensures gathered { held.new.variables ≡ held.old.variables }
{
    match std::str::from_utf8(command) {
        Ok(command) => ask_text(alloc, held, command, arguments, seq),
        Err(_) => {
            held.bytes.clear();
            YT_BAD_ARGUMENTS
        }
    }
}

/// Asks the client by a request of this name, such as `startDebugging`, or `runInTerminal` with words of your own, with arguments that
/// are JSON, or none where there are no bytes. `seq` is its number then, which the client's response has as `request_seq`: that comes
/// by `yt_adapter_take` as any other message, in any order, or never. A response to another command closes the adapter, and so does a
/// second one. Whether the client knows the request, its `initialize` says. What waited to be written is let go, so it is fetched
/// before. The request is refused, and `seq` and the adapter stay as they were, with the first of these that holds:
/// `YT_BAD_ARGUMENTS` where the name is no UTF-8, or the arguments are no JSON, or `null`, or have a float, or are nested more than
/// 120 deep; `YT_ENDED` after a fault; `YT_WRONG_PHASE` before `initialize` and once `disconnect` was answered; `YT_BAD_NAME` where the
/// name has more than 64 bytes; `YT_FULL` where as many wait for their response as requests may be kept, less one, which is left for
/// the request for a terminal; `YT_TOO_LARGE`; `YT_SEQ_EXHAUSTED`.
#[unsafe(no_mangle)]
pub extern "C" fn yt_adapter_ask(
    alloc: Global,
    adapter: &mut YtAdapter,
    command: &[u8],
    arguments: &[u8],
    seq: &mut u64,
    found: &mut YtFound,
) -> u32
    ensures none { FromEmpty adapter.old adapter.new (result ≡ YT_NONE) (found.new ≡ found.old) }
    ensures held { IsFull adapter.old → IsFull adapter.new }
    ensures asks { FromTo adapter.old adapter.new (AsksNamed command.now arguments.now result) }
    ensures number { FromTo adapter.old adapter.new (TellsNumber result seq.new) }

    // Why it is refused; then nothing has changed, no number is told, and nothing is to be written.
    ensures refuses { FromTo adapter.old adapter.new (RefusesRequest command.now arguments.now result) }
    ensures unchanged { FromTo adapter.old adapter.new (λ a b. result ≢ YT_OK → KeepsAdapter a b) }
    ensures untold { result ≢ YT_OK → seq.new ≡ seq.old }
    ensures nothing { FromTo adapter.old adapter.new (λ a b. result ≢ YT_OK → b.bytes.items ≡ []) }
    ensures wanted { IsUtf8 command.now → IsSome (body_by arguments.now) → result ≢ YT_BAD_ARGUMENTS }
    ensures bad_name { IsFull adapter.old → (IsUtf8 command.now → ⊥) → IsCodeOfArguments result }
    ensures bad_arguments { IsFull adapter.old → body_by arguments.now ≡ None → IsCodeOfArguments result }
    ensures length { FromTo adapter.old adapter.new (LeavesBytes found.new.bytes) }
    ensures limits { FromTo adapter.old adapter.new KeepsLimits }
    ensures frame { FromTo adapter.old adapter.new KeepsFrame }
    ensures acts { FromTo adapter.old adapter.new KeepsActs }
    ensures gathered { FromTo adapter.old adapter.new (λ a b. b.variables ≡ a.variables) }
{
    let Some(mut held) = take_out(alloc, adapter) else {
        return YT_NONE;
    };
    let code = ask_named(alloc, &mut *held, command, arguments, seq);
    *found = only_bytes(&*held);
    *adapter = handle_of(held);
    code
}

/// Tells how many of the requests that `yt_adapter_ask` asked wait for their response.
#[unsafe(no_mangle)]
pub extern "C" fn yt_adapter_asked_by_name(
    alloc: Global,
    adapter: &mut YtAdapter,
    count: &mut usize,
) -> u32
    ensures none { IsEmpty adapter.old → (result ≡ YT_NONE) × (count.new ≡ count.old) }
    ensures same { adapter.new.inner.value ≡ adapter.old.inner.value }
    ensures ok { IsFull adapter.old → result ≡ YT_OK }
    ensures own { IfFull adapter.old (λ a. count.new ≡ length a.adapter.session.own) }
    ensures within { IfFull adapter.old (λ a. count.new ≤ a.adapter.session.limits.requests) }
{
    let Some(held) = take_out(alloc, adapter) else {
        return YT_NONE;
    };
    *count = held.adapter.asked_by_name();
    *adapter = handle_of(held);
    YT_OK
}
