//! Requests of commands that the host answers: what is lent goes out, how it came out comes in, and the response waits to be
//! fetched. Only the adapter behind the handle and what the caller lends for an answer are touched.
ghost use Rattle.std.specs.Prelude.{◌≡◌, ◌≢◌, ◌⊎◌, IfErr, IfOk, IfSome, IsOk, IsTrue, IsUtf8, None, Some, [], false, length, option_map};
ghost use Rattle.std.specs.Option.{IsSome, option_copied};
ghost use Rattle.std.specs.List.{slice_get};
ghost use Rattle.dap_message.specs.MessageParts.{is_plain_outcome};
ghost use Rattle.dap_outbox.specs.Waiting.{lent_ones};
ghost use Rattle.dap_tables.specs.Outstanding.{entries};
ghost use Rattle.dap_c_adapter.specs.Acts.{PutsPart};
ghost use Rattle.dap_c_adapter.specs.AdapterBehind.{FromEmpty, FromTo, IfFull, IsEmpty, IsFull};
ghost use Rattle.dap_c_adapter.specs.AdapterCalls.{IsCodeOfArguments, KeepsActs};
ghost use Rattle.dap_c_adapter.specs.AdapterExports.{KeepsAdapter, KeepsFrame, KeepsLimits, LeavesBytes};
ghost use Rattle.dap_c_adapter.specs.Emitting.{body_by};
ghost use Rattle.dap_c_adapter.specs.Lending.{FindsLent, FindsNoLent, IsLentFound, RefusesResponse, RespondsAs, command_lent_at, lent_at, outcome_by, respond_number};

use crate::adapter::only_bytes;
use crate::adapter_handle::YtAdapter;
use crate::emitting::body_given;
use crate::held_adapter::HeldAdapter;
use crate::telling::text_given;
use dap_adapter::{Adapter, Outcome, RespondFault};
use dap_c_parts::codes::*;
use dap_c_parts::copying::put;
use dap_c_parts::found::YtFound;
use dap_live::Live;
use dap_slot::{handle_of, take_out};
use dap_tables::Entry;
use std::alloc::Global;

/// A request that is lent.
#[repr(C)]
#[derive(Drop)]
pub struct YtLent {
    /// Its number, for `yt_adapter_respond`.
    pub seq: u64,
    /// How long the name of its command is, for `yt_adapter_lent_command`.
    pub command: usize,
}

fn lent_at(adapter: &Adapter<Live>, at: usize) -> Option<&Entry>
    ensures { option_copied result ≡ slice_get (entries (lent_ones adapter.now.session.kept)) at }
{
    adapter.lent().nth(at)
}

fn find_lent(held: &HeldAdapter, at: usize, lent: &mut YtLent) -> u32
    ensures lent { FindsLent at result lent.new held.now }
    ensures some { result ≡ YT_OK → IsSome (lent_at at held.now) }
    ensures nothing { FindsNoLent at result lent.old lent.new held.now }
{
    match lent_at(&held.adapter, at) {
        None => YT_NOTHING,
        Some(request) => {
            *lent = YtLent {
                seq: request.seq,
                command: request.command.len(),
            };
            YT_OK
        }
    }
}

/// Finds the request at a place, from 0, of those that are lent, by arrival: requests of commands that were opened, which had their
/// turn and wait for an answer. `YT_NOTHING` where fewer are lent.
#[unsafe(no_mangle)]
pub extern "C" fn yt_adapter_lent(
    alloc: Global,
    adapter: &mut YtAdapter,
    at: usize,
    lent: &mut YtLent,
) -> u32
    ensures none { IsEmpty adapter.old → (result ≡ YT_NONE) × (lent.new ≡ lent.old) }
    ensures same { adapter.new.inner.value ≡ adapter.old.inner.value }
    ensures lent { IfFull adapter.old (FindsLent at result lent.new) }
    ensures some { IfFull adapter.old (λ a. result ≡ YT_OK → IsSome (lent_at at a)) }
    ensures nothing { IfFull adapter.old (FindsNoLent at result lent.old lent.new) }
{
    let Some(held) = take_out(alloc, adapter) else {
        return YT_NONE;
    };
    let code = find_lent(&*held, at, lent);
    *adapter = handle_of(held);
    code
}

fn put_command(held: &HeldAdapter, at: usize, out: &mut [u8]) -> u32
    ensures { PutsPart (command_lent_at at held.now) result out.old out.new }
{
    match lent_at(&held.adapter, at) {
        None => YT_NOTHING,
        Some(request) => put(request.command.as_str().as_bytes(), out),
    }
}

/// Puts the name of the command of the request at a place of those that are lent into a buffer: `YT_NOTHING` where fewer are lent.
#[unsafe(no_mangle)]
pub extern "C" fn yt_adapter_lent_command(
    alloc: Global,
    adapter: &mut YtAdapter,
    at: usize,
    out: &mut [u8],
) -> u32
    ensures none { IsEmpty adapter.old → (result ≡ YT_NONE) × (out.new ≡ out.old) }
    ensures same { adapter.new.inner.value ≡ adapter.old.inner.value }
    ensures puts { IfFull adapter.old (λ a. PutsPart (command_lent_at at a) result out.old out.new) }
{
    let Some(held) = take_out(alloc, adapter) else {
        return YT_NONE;
    };
    let code = put_command(&*held, at, out);
    *adapter = handle_of(held);
    code
}

/// How a request came out.
fn outcome_given(alloc: Global, success: bool, message: &[u8], body: &[u8]) -> Result<Outcome, u32>
    ensures read { IfOk result (λ o. outcome_by success message.now body.now ≡ Some o) }
    ensures plain { IfOk result (λ o. IsTrue (is_plain_outcome o)) }
    ensures is_text { IsOk result → success ≡ false → IsUtf8 message.now }
    ensures wanted { (success ≡ false → IsUtf8 message.now) → IsSome (body_by body.now) → IfErr result (λ code. code ≢ YT_BAD_ARGUMENTS) }
    ensures bad_body { body_by body.now ≡ None → IfErr result IsCodeOfArguments }
    ensures code { IfErr result IsCodeOfArguments }
{
    let body = body_given(alloc, body)?;
    if success {
        return Ok(Outcome::Success(body));
    }
    match text_given(alloc, message) {
        Ok(message) => Ok(Outcome::Failure { message, body }),
        Err(code) => Err(code),
    }
}

fn respond_code(fault: RespondFault) -> u32
    ensures { result ≡ respond_number fault }
{
    match fault {
        RespondFault::Closed => YT_ENDED,
        RespondFault::NotLent => YT_NOT_LENT,
        RespondFault::TooLarge => YT_TOO_LARGE,
        RespondFault::SeqExhausted => YT_SEQ_EXHAUSTED,
        RespondFault::OutOfMemory => YT_NO_MEMORY,
    }
}

/// Lets the adapter answer a lent request.
fn respond(
    alloc: Global,
    held: &mut HeldAdapter,
    seq: u64,
    success: bool,
    message: &[u8],
    body: &[u8],
) -> u32
    ensures responds { RespondsAs seq success message.now body.now result held.old held.new }
    ensures refuses { RefusesResponse seq success message.now body.now result held.old held.new }
    ensures unchanged { result ≢ YT_OK → KeepsAdapter held.old held.new }
    ensures nothing { result ≢ YT_OK → held.new.bytes.items ≡ [] }
    ensures wanted { (success ≡ false → IsUtf8 message.now) → IsSome (body_by body.now) → result ≢ YT_BAD_ARGUMENTS }
    ensures bad_message { success ≡ false → (IsUtf8 message.now → ⊥) → IsCodeOfArguments result }
    ensures bad_body { body_by body.now ≡ None → IsCodeOfArguments result }
    ensures limits { KeepsLimits held.old held.new }
    ensures frame { KeepsFrame held.old held.new }
    ensures acts { KeepsActs held.old held.new }
    ensures gathered { held.new.variables ≡ held.old.variables }
{
    held.bytes.clear();
    let outcome = match outcome_given(alloc, success, message, body) {
        Ok(outcome) => outcome,
        Err(code) => return code,
    };
    match held.adapter.respond(alloc, seq, &outcome, &mut held.bytes) {
        Ok(()) => YT_OK,
        Err(fault) => respond_code(fault),
    }
}

/// Answers the lent request with a number: with `success`, or else as failed for `message`, a short text that tells a program why,
/// which is not looked at where it succeeds; and with a body that is JSON, or none where there are no bytes. Lent requests may be
/// answered in any order. What waited to be written is let go, so it is fetched before. The answer is refused, and the adapter stays
/// as it was, with the first of these that holds: `YT_BAD_ARGUMENTS` where the message of a failure is no UTF-8, or the body no
/// JSON, or `null`, or has a float, or is nested more than 120 deep; `YT_ENDED` after a fault; `YT_NOT_LENT` where no request with
/// this number is lent, as once it is answered; `YT_TOO_LARGE`; `YT_SEQ_EXHAUSTED`.
#[unsafe(no_mangle)]
pub extern "C" fn yt_adapter_respond(
    alloc: Global,
    adapter: &mut YtAdapter,
    seq: u64,
    success: bool,
    message: &[u8],
    body: &[u8],
    found: &mut YtFound,
) -> u32
    ensures none { FromEmpty adapter.old adapter.new (result ≡ YT_NONE) (found.new ≡ found.old) }
    ensures held { IsFull adapter.old → IsFull adapter.new }
    ensures responds { FromTo adapter.old adapter.new (RespondsAs seq success message.now body.now result) }

    // Why it is refused; then nothing has changed, and nothing is to be written.
    ensures refuses { FromTo adapter.old adapter.new (RefusesResponse seq success message.now body.now result) }
    ensures unchanged { FromTo adapter.old adapter.new (λ a b. result ≢ YT_OK → KeepsAdapter a b) }
    ensures nothing { FromTo adapter.old adapter.new (λ a b. result ≢ YT_OK → b.bytes.items ≡ []) }
    ensures wanted { (success ≡ false → IsUtf8 message.now) → IsSome (body_by body.now) → result ≢ YT_BAD_ARGUMENTS }
    ensures bad_message { IsFull adapter.old → success ≡ false → (IsUtf8 message.now → ⊥) → IsCodeOfArguments result }
    ensures bad_body { IsFull adapter.old → body_by body.now ≡ None → IsCodeOfArguments result }
    ensures length { FromTo adapter.old adapter.new (LeavesBytes found.new.bytes) }
    ensures limits { FromTo adapter.old adapter.new KeepsLimits }
    ensures frame { FromTo adapter.old adapter.new KeepsFrame }
    ensures acts { FromTo adapter.old adapter.new KeepsActs }
    ensures gathered { FromTo adapter.old adapter.new (λ a b. b.variables ≡ a.variables) }
{
    let Some(mut held) = take_out(alloc, adapter) else {
        return YT_NONE;
    };
    let code = respond(alloc, &mut *held, seq, success, message, body);
    *found = only_bytes(&*held);
    *adapter = handle_of(held);
    code
}
