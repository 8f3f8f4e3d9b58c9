//! Events that a host tells by their names: the name and the body come in, and the message to be written waits to be fetched.
//! Only the adapter behind the handle and what the caller lends for an answer are touched.
ghost use Rattle.std.specs.Prelude.{◌≡◌, ◌≢◌, ◌⊎◌, IfErr, IfOk, IsTrue, IsUtf8, None, Some, [], length};
ghost use Rattle.std.specs.Option.{IsSome};
ghost use Rattle.dap_json.specs.Writable.{is_plain_tree as plain_tree};
ghost use Rattle.dap_c_adapter.specs.AdapterBehind.{FromEmpty, FromTo, IsFull};
ghost use Rattle.dap_c_adapter.specs.AdapterCalls.{IsCodeOfArguments, KeepsActs};
ghost use Rattle.dap_c_adapter.specs.AdapterExports.{KeepsAdapter, KeepsFrame, KeepsLimits, LeavesBytes};
ghost use Rattle.dap_c_adapter.specs.Emitting.{EmitsNamed, RefusesNamed, body_by, emit_number};

use crate::adapter::{json_given, only_bytes};
use crate::adapter_handle::YtAdapter;
use crate::held_adapter::HeldAdapter;
use dap_adapter::EmitFault;
use dap_c_parts::codes::*;
use dap_c_parts::found::YtFound;
use dap_envelope::is_plain_tree;
use dap_json::Tree;
use dap_slot::{handle_of, take_out};
use std::alloc::Global;

/// The body, or the arguments, that bytes are; none where there are no bytes.
pub(crate) fn body_given(alloc: Global, bytes: &[u8]) -> Result<Option<Tree>, u32>
    ensures read { IfOk result (λ body. body_by bytes.now ≡ Some body) }
    ensures plain { IfOk result (λ body. IsTrue (plain_tree body)) }
    ensures refused { IfErr result (λ code. code ≡ YT_BAD_ARGUMENTS → body_by bytes.now ≡ None) }
    ensures code { IfErr result IsCodeOfArguments }
{
    if bytes.is_empty() {
        return Ok(None);
    }
    let body = Some(Tree::new(json_given(alloc, bytes)?));
    if !is_plain_tree(&body) {
        return Err(YT_BAD_ARGUMENTS);
    }
    Ok(body)
}

fn emit_code(fault: EmitFault) -> u32
    ensures { result ≡ emit_number fault }
{
    match fault {
        EmitFault::Closed => YT_ENDED,
        EmitFault::WrongPhase => YT_WRONG_PHASE,
        EmitFault::Reserved => YT_RESERVED,
        EmitFault::TooLarge => YT_TOO_LARGE,
        EmitFault::SeqExhausted => YT_SEQ_EXHAUSTED,
        EmitFault::OutOfMemory => YT_NO_MEMORY,
    }
}

/// Lets the adapter tell an event whose name is a text.
fn emit_text(alloc: Global, held: &mut HeldAdapter, event: &str, body: &[u8]) -> u32
    ensures emits { EmitsNamed event.now body.now result held.old held.new }
    ensures refuses { RefusesNamed event.now body.now result held.old held.new }
    ensures unchanged { result ≢ YT_OK → KeepsAdapter held.old held.new }
    ensures nothing { result ≢ YT_OK → held.new.bytes.items ≡ [] }
    ensures why { result ≡ YT_BAD_ARGUMENTS → body_by body.now ≡ None }
    ensures bad { body_by body.now ≡ None → IsCodeOfArguments result }
    ensures limits { KeepsLimits held.old held.new }
    ensures frame { KeepsFrame held.old held.new }
    ensures acts { KeepsActs held.old held.new }
    ensures gathered { held.new.variables ≡ held.old.variables }
{
    held.bytes.clear();
    let given = match body_given(alloc, body) {
        Ok(given) => given,
        Err(code) => return code,
    };
    match held.adapter.emit(alloc, event, &given, &mut held.bytes) {
        Ok(()) => YT_OK,
        Err(fault) => emit_code(fault),
    }
}

fn emit_named(alloc: Global, held: &mut HeldAdapter, event: &[u8], body: &[u8]) -> u32
    ensures emits { EmitsNamed event.now body.now result held.old held.new }
    ensures refuses { RefusesNamed event.now body.now result held.old held.new }
    ensures unchanged { result ≢ YT_OK → KeepsAdapter held.old held.new }
    ensures nothing { result ≢ YT_OK → held.new.bytes.items ≡ [] }
    ensures wanted { IsUtf8 event.now → IsSome (body_by body.now) → result ≢ YT_BAD_ARGUMENTS }
    ensures bad_name { (IsUtf8 event.now → ⊥) → IsCodeOfArguments result }
    ensures bad_body { body_by body.now ≡ None → IsCodeOfArguments result }
    ensures limits { KeepsLimits held.old held.new }
    ensures frame { KeepsFrame held.old held.new }
    ensures acts { KeepsActs held.old held.new }
    ensures gathered { held.new.variables ≡ held.old.variables }
{
    match std::str::from_utf8(event) {
        Ok(event) => emit_text(alloc, held, event, body),
        Err(_) => {
            held.bytes.clear();
            YT_BAD_ARGUMENTS
        }
    }
}

/// Tells an event by its name, such as `module`, with a body that is JSON, or none where there are no bytes. What waited to be
/// written is let go, so it is fetched before. The event is refused, and the adapter stays as it was, with the first of these that
/// holds: `YT_BAD_ARGUMENTS` where the name is no UTF-8, or the body no JSON, or `null`, or has a float, or is nested more than 120
/// deep; `YT_ENDED` after a fault; `YT_WRONG_PHASE` before `initialize` and once `disconnect` was answered; `YT_RESERVED` for
/// `initialized`, `stopped`, `continued`, `exited` and `terminated`, which the adapter tells by itself, and for `capabilities`;
/// `YT_TOO_LARGE`; `YT_SEQ_EXHAUSTED`.
#[unsafe(no_mangle)]
pub extern "C" fn yt_adapter_emit(
    alloc: Global,
    adapter: &mut YtAdapter,
    event: &[u8],
    body: &[u8],
    found: &mut YtFound,
) -> u32
    ensures none { FromEmpty adapter.old adapter.new (result ≡ YT_NONE) (found.new ≡ found.old) }
    ensures held { IsFull adapter.old → IsFull adapter.new }
    ensures emits { FromTo adapter.old adapter.new (EmitsNamed event.now body.now result) }

    // Why it is refused; then nothing has changed, and nothing is to be written.
    ensures refuses { FromTo adapter.old adapter.new (RefusesNamed event.now body.now result) }
    ensures unchanged { FromTo adapter.old adapter.new (λ a b. result ≢ YT_OK → KeepsAdapter a b) }
    ensures nothing { FromTo adapter.old adapter.new (λ a b. result ≢ YT_OK → b.bytes.items ≡ []) }
    ensures wanted { IsUtf8 event.now → IsSome (body_by body.now) → result ≢ YT_BAD_ARGUMENTS }
    ensures bad_name { IsFull adapter.old → (IsUtf8 event.now → ⊥) → IsCodeOfArguments result }
    ensures bad_body { IsFull adapter.old → body_by body.now ≡ None → IsCodeOfArguments result }
    ensures length { FromTo adapter.old adapter.new (LeavesBytes found.new.bytes) }
    ensures limits { FromTo adapter.old adapter.new KeepsLimits }
    ensures frame { FromTo adapter.old adapter.new KeepsFrame }
    ensures acts { FromTo adapter.old adapter.new KeepsActs }
    ensures gathered { FromTo adapter.old adapter.new (λ a b. b.variables ≡ a.variables) }
{
    let Some(mut held) = take_out(alloc, adapter) else {
        return YT_NONE;
    };
    let code = emit_named(alloc, &mut *held, event, body);
    *found = only_bytes(&*held);
    *adapter = handle_of(held);
    code
}
