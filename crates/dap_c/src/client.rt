//! The client's end behind a handle.
//!
//! Calls of the host and bytes of the adapter come in; requests to be written and the adapter's frames go out. What a client
//! is and does is in `dap_client`; each export has the clauses of its function there. Only the client behind the handle and
//! what the caller lends for an answer are touched.
ghost use Rattle.std.specs.Prelude.{◌≡◌, ◌⊎◌, ◌<◌, ◌≤◌, ◌++◌, [], length, drop, IfOk, IfErr, OnOk, IfSome, IsSome, IsTrue, IsUtf8, None, true, false, take, is_some, vec_len, vec_capacity, if◌then◌else◌, ◌+◌, ◌≢◌};
ghost use Rattle.dap_call.specs.PlainCall.{is_plain_call};
ghost use Rattle.dap_call.specs.declared.call.Call.{Call as TheCall};
ghost use Rattle.dap_frame.specs.Settings.{first_outside};
ghost use Rattle.dap_client.specs.Session.{fresh_session};
ghost use Rattle.dap_client.specs.StandsFor.{StandsFor};
ghost use Rattle.dap_client.specs.TerminalResponse.{is_plain_terminal};
ghost use Rattle.dap_c_parts.specs.Finds.{FindsNothing};
ghost use Rattle.dap_c.specs.CallGiven.{IsCallOf, IsCodeOfCall, AcceptsCall};
ghost use Rattle.dap_c.specs.ClientCalls.{Sends, Refuses, Answers, RefusesAnswer, TakesPiece, RefusesPiece, IsAsBefore, bytes_so_far, HasNothing, terminal_of, process_of, SendsCall, RefusesCall, AnswersTerminal, RefusesTerminal, TakesBytes, RefusesBytes, IfPlainCall, LeavesBytes, KeepsFrame, IsPlainTerminal, LeavesNothing, LatchesFault, PutsBytes, PutsFrame, HasNoFrame, IsFreshWithin, KeepsLimits, KeepsTables};
ghost use Rattle.dap_c.specs.ClientFaults.{send_number, answer_number, take_number, IsFaultFound};
ghost use Rattle.dap_c_parts.specs.Limited.{settings_of, AreOutOfRange};
ghost use Rattle.dap_c.specs.ClientBehind.{IsFull, IsEmpty, IfFull, FromTo, FromEmpty};
ghost use Rattle.dap_c_parts.specs.Buffer.{StaysIfSmall};

use crate::call::call_given;
use crate::client_handle::YtClient;
use crate::held_client::HeldClient;
use dap_c_parts::causes::{body_cause, cause_of};
use dap_c_parts::codes::*;
use dap_c_parts::copying::put;
use dap_c_parts::found::{YtFound, fault_at, nothing_found};
use dap_c_parts::limits::{self, YtLimits};
use dap_call::Call;
use dap_client::{AnswerFault, Client, ClientFault, Got, SendFault, Terminal};
use dap_slot::{handle_of, take_out};
use std::alloc::Global;

/// What was sent.
#[repr(C)]
#[derive(Drop)]
pub struct YtSent {
    /// The request's own number, which its response names as `request_seq`.
    pub seq: u64,
    /// How many bytes are to be written.
    pub bytes: usize,
}

fn opened(alloc: Global, limits: &YtLimits) -> Result<Box<HeldClient>, u32>
    ensures session { IfOk result (λ b. b.value.client.session ≡ fresh_session (settings_of limits.now)) }
    ensures fault { IfOk result (λ b. b.value.client.fault ≡ None) }
    ensures stands { IfOk result (λ b. StandsFor b.value.client [] []) }
    ensures nothing { IfOk result (λ b. HasNothing b.value) }
    ensures in_range { OnOk result (first_outside (settings_of limits.now) ≡ None) }
    ensures refused { IfErr result (λ code. code ≡ YT_BAD_LIMITS → IsSome (first_outside (settings_of limits.now))) }
    ensures wanted { IfErr result (λ code. IsSome (first_outside (settings_of limits.now)) → code ≡ YT_BAD_LIMITS) }
    ensures code { IfErr result (λ code. (code ≡ YT_BAD_LIMITS → ⊥) → code ≡ YT_NO_MEMORY) }
{
    let Ok(limits) = limits::read(limits) else {
        return Err(YT_BAD_LIMITS);
    };
    let Ok(client) = Client::open(alloc, limits) else {
        return Err(YT_NO_MEMORY);
    };
    let held = HeldClient {
        client,
        bytes: Vec::new(alloc),
        frame: Vec::new(alloc),
        whole: false,
    };
    match Box::new(alloc, held) {
        Ok(held) => Ok(held),
        Err(_) => Err(YT_NO_MEMORY),
    }
}

/// Opens a client, and lets go what the handle held. Where it answers other than `YT_OK`, the handle holds none.
#[unsafe(no_mangle)]
pub extern "C" fn yt_client_open(alloc: Global, client: &mut YtClient, limits: &YtLimits) -> u32
    ensures open { result ≡ YT_OK → IsFull client.new }
    ensures closed { result ≢ YT_OK → IsEmpty client.new }
    ensures session { IfFull client.new (IsFreshWithin limits.now) }
    ensures fault { IfFull client.new (λ c. c.client.fault ≡ None) }
    ensures stands { IfFull client.new (λ c. StandsFor c.client [] []) }
    ensures nothing { IfFull client.new HasNothing }
    ensures refused { result ≡ YT_BAD_LIMITS → AreOutOfRange limits.now }
    ensures out_of_range { AreOutOfRange limits.now → result ≡ YT_BAD_LIMITS }
    ensures in_range { result ≡ YT_OK → first_outside (settings_of limits.now) ≡ None }
    ensures codes { result ≢ YT_OK → result ≢ YT_BAD_LIMITS → result ≡ YT_NO_MEMORY }
{
    take_out(alloc, client);
    match opened(alloc, limits) {
        Ok(held) => {
            *client = handle_of(held);
            YT_OK
        }
        Err(code) => code,
    }
}

/// Lets go what the handle held.
#[unsafe(no_mangle)]
pub extern "C" fn yt_client_free(alloc: Global, client: &mut YtClient)
    ensures { IsEmpty client.new }
{
    drop(take_out(alloc, client));
}

fn send_code(fault: SendFault) -> u32
    ensures number { result ≡ send_number fault }
    ensures of_a_call { (result ≡ YT_BAD_COMMAND → ⊥) × (result ≡ YT_BAD_ARGUMENTS → ⊥) }
{
    match fault {
        SendFault::Ended => YT_ENDED,
        SendFault::WrongPhase => YT_WRONG_PHASE,
        SendFault::NotSupported => YT_NOT_SUPPORTED,
        SendFault::NotStopped => YT_NOT_STOPPED,
        SendFault::UnknownReference => YT_UNKNOWN_REFERENCE,
        SendFault::TooLarge => YT_TOO_LARGE,
        SendFault::Full => YT_FULL,
        SendFault::SeqExhausted => YT_SEQ_EXHAUSTED,
        SendFault::OutOfMemory => YT_NO_MEMORY,
    }
}

/// Sends a call that can be written, with its code.
fn send_call(alloc: Global, held: &mut HeldClient, call: &Call, sent: &mut YtSent) -> u32
    requires { IsTrue (is_plain_call call.now) }
    ensures sends { result ≡ YT_OK → SendsCall held.old held.new call.now sent.new.seq }
    ensures length { result ≡ YT_OK → sent.new.bytes ≡ length held.new.bytes.items }
    ensures refuses { (result ≡ YT_OK → ⊥) → RefusesCall held.old held.new call.now result }
    ensures of_a_call { (result ≡ YT_BAD_COMMAND → ⊥) × (result ≡ YT_BAD_ARGUMENTS → ⊥) }
    ensures unchanged { (result ≡ YT_OK → ⊥) → held.new ≡ held.old }
    ensures untold { (result ≡ YT_OK → ⊥) → sent.new ≡ sent.old }
    ensures frame { (held.new.frame ≡ held.old.frame) × (held.new.whole ≡ held.old.whole) }
{
    match held.client.send(alloc, call) {
        Ok(done) => {
            held.bytes = done.bytes;
            *sent = YtSent {
                seq: done.seq,
                bytes: held.bytes.len(),
            };
            YT_OK
        }
        Err(fault) => send_code(fault),
    }
}

fn send(
    alloc: Global,
    held: &mut HeldClient,
    command: &[u8],
    arguments: &[u8],
    sent: &mut YtSent,
) -> u32
    ensures sends { result ≡ YT_OK → (call : TheCall) × IsCallOf command.now arguments.now call × SendsCall held.old held.new call sent.new.seq }
    ensures length { result ≡ YT_OK → sent.new.bytes ≡ length held.new.bytes.items }
    ensures refuses { (result ≡ YT_OK → ⊥) → IsCodeOfCall result ⊎ ((call : TheCall) × IsCallOf command.now arguments.now call × RefusesCall held.old held.new call result) }
    ensures wanted { (call : TheCall) → IsUtf8 command.now → IsCallOf command.now arguments.now call → IsTrue (is_plain_call call) → (result ≡ YT_BAD_COMMAND → ⊥) × (result ≡ YT_BAD_ARGUMENTS → ⊥) }
    ensures unchanged { (result ≡ YT_OK → ⊥) → held.new.client ≡ held.old.client }
    ensures nothing { (result ≡ YT_OK → ⊥) → held.new.bytes.items ≡ [] }
    ensures untold { (result ≡ YT_OK → ⊥) → sent.new ≡ sent.old }
    ensures frame { (held.new.frame ≡ held.old.frame) × (held.new.whole ≡ held.old.whole) }
{
    held.bytes.clear();
    match call_given(alloc, command, arguments) {
        Ok(call) => send_call(alloc, held, &call, sent),
        Err(code) => code,
    }
}

/// Sends a request: its command, and its arguments as JSON, or no bytes where it has none. What is to be written is fetched
/// by `yt_client_bytes` before the next call on the handle. A refused call changes nothing, and the client goes on.
#[unsafe(no_mangle)]
pub extern "C" fn yt_client_send(
    alloc: Global,
    client: &mut YtClient,
    command: &[u8],
    arguments: &[u8],
    sent: &mut YtSent,
) -> u32
    ensures none { FromEmpty client.old client.new (result ≡ YT_NONE) (sent.new ≡ sent.old) }
    ensures held { IsFull client.old → IsFull client.new }
    ensures sends { FromTo client.old client.new (Sends command.now arguments.now result sent.new) }
    ensures length { result ≡ YT_OK → FromTo client.old client.new (LeavesBytes sent.new.bytes) }
    ensures refuses { FromTo client.old client.new (Refuses command.now arguments.now result) }
    ensures wanted { IfPlainCall command.now arguments.now (AcceptsCall result) }
    ensures unchanged { FromTo client.old client.new (λ c d. result ≢ YT_OK → d.client ≡ c.client) }
    ensures nothing { FromTo client.old client.new (λ c d. result ≢ YT_OK → d.bytes.items ≡ []) }
    ensures untold { result ≢ YT_OK → sent.new ≡ sent.old }
    ensures frame { FromTo client.old client.new KeepsFrame }
{
    let Some(mut held) = take_out(alloc, client) else {
        return YT_NONE;
    };
    let code = send(alloc, &mut *held, command, arguments, sent);
    *client = handle_of(held);
    code
}

/// What became of a command, where its numbers are in their ranges.
fn terminal_given(runs: bool, process: u32, shell: u32) -> Terminal
    ensures { result ≡ terminal_of runs process shell }
{
    if !runs {
        return Terminal::Refused;
    }
    Terminal::Started {
        process_id: process_given(process),
        shell_process_id: process_given(shell),
    }
}

fn process_given(number: u32) -> Option<u32>
    ensures { result ≡ process_of number }
{
    match number {
        0 => None,
        number => Some(number),
    }
}

fn answer_code(fault: AnswerFault) -> u32
    ensures number { result ≡ answer_number fault }
    ensures of_an_answer { result ≡ YT_BAD_ARGUMENTS → ⊥ }
{
    match fault {
        AnswerFault::Ended => YT_ENDED,
        AnswerFault::NotKept => YT_NOT_KEPT,
        AnswerFault::SeqExhausted => YT_SEQ_EXHAUSTED,
        AnswerFault::OutOfMemory => YT_NO_MEMORY,
    }
}

fn answer(
    alloc: Global,
    held: &mut HeldClient,
    request_seq: u64,
    terminal: Terminal,
    bytes: &mut usize,
) -> u32
    ensures answers { result ≡ YT_OK → AnswersTerminal held.old held.new request_seq terminal }
    ensures plain { result ≡ YT_OK → IsTrue (is_plain_terminal terminal) }
    ensures wanted { IsTrue (is_plain_terminal terminal) → result ≡ YT_BAD_ARGUMENTS → ⊥ }
    ensures length { bytes.new ≡ length held.new.bytes.items }
    ensures refuses { (result ≡ YT_OK → ⊥) → (result ≡ YT_BAD_ARGUMENTS) ⊎ RefusesTerminal held.old held.new request_seq result }
    ensures unchanged { (result ≡ YT_OK → ⊥) → held.new.client ≡ held.old.client }
    ensures nothing { (result ≡ YT_OK → ⊥) → held.new.bytes.items ≡ [] }
    ensures frame { (held.new.frame ≡ held.old.frame) × (held.new.whole ≡ held.old.whole) }
{
    held.bytes.clear();
    *bytes = 0;
    if !terminal.plain() {
        return YT_BAD_ARGUMENTS;
    }
    match held.client.answer(alloc, request_seq, terminal) {
        Ok(written) => {
            held.bytes = written;
            *bytes = held.bytes.len();
            YT_OK
        }
        Err(fault) => answer_code(fault),
    }
}

/// Answers a request of the adapter that is kept: whether the command runs in a terminal, and the numbers of its process and
/// of the shell's, 0 where one is not known. `bytes` is how many bytes are to be written. A refused answer changes nothing,
/// and the client goes on.
#[unsafe(no_mangle)]
pub extern "C" fn yt_client_answer(
    alloc: Global,
    client: &mut YtClient,
    request_seq: u64,
    runs: bool,
    process: u32,
    shell: u32,
    bytes: &mut usize,
) -> u32
    ensures none { FromEmpty client.old client.new (result ≡ YT_NONE) (bytes.new ≡ bytes.old) }
    ensures held { IsFull client.old → IsFull client.new }
    ensures answers { FromTo client.old client.new (Answers request_seq runs process shell result) }
    ensures plain { result ≡ YT_OK → IsPlainTerminal runs process shell }
    ensures wanted { IsPlainTerminal runs process shell → result ≢ YT_BAD_ARGUMENTS }
    ensures length { FromTo client.old client.new (LeavesBytes bytes.new) }
    ensures refuses { FromTo client.old client.new (RefusesAnswer request_seq result) }
    ensures unchanged { FromTo client.old client.new (λ c d. result ≢ YT_OK → d.client ≡ c.client) }
    ensures nothing { FromTo client.old client.new (λ c d. result ≢ YT_OK → d.bytes.items ≡ []) }
    ensures frame { FromTo client.old client.new KeepsFrame }
{
    let Some(mut held) = take_out(alloc, client) else {
        return YT_NONE;
    };
    let terminal = terminal_given(runs, process, shell);
    let code = answer(alloc, &mut *held, request_seq, terminal, bytes);
    *client = handle_of(held);
    code
}

fn take_code(fault: ClientFault) -> u32
    ensures { result ≡ take_number fault }
{
    match fault {
        ClientFault::Frame(_) => YT_FRAME,
        ClientFault::Body { .. } => YT_BODY,
        ClientFault::Unmatched { .. } => YT_UNMATCHED,
        ClientFault::CommandMismatch { .. } => YT_COMMAND_MISMATCH,
        ClientFault::RepeatedSeq { .. } => YT_REPEATED_SEQ,
        ClientFault::ReferenceLimit => YT_REFERENCE_LIMIT,
        ClientFault::SeqExhausted => YT_SEQ_EXHAUSTED,
        ClientFault::OutOfMemory => YT_NO_MEMORY,
    }
}

fn fault_found(fault: ClientFault) -> YtFound
    ensures found { IsFaultFound fault result }
    ensures nothing { FindsNothing result }
{
    match fault {
        ClientFault::Frame(fault) => fault_at(fault.offset, cause_of(fault.cause)),
        ClientFault::Body { cause, offset } => fault_at(offset, body_cause(cause)),
        ClientFault::Unmatched { request_seq } => fault_at(request_seq, 0),
        ClientFault::CommandMismatch { request_seq } => fault_at(request_seq, 0),
        ClientFault::RepeatedSeq { seq } => fault_at(seq, 0),
        ClientFault::ReferenceLimit | ClientFault::SeqExhausted | ClientFault::OutOfMemory => {
            fault_at(0, 0)
        }
    }
}

/// A frame that was whole is let go: the bytes of the next one are gathered from now on.
fn begin_frame(held: &mut HeldClient)
    ensures frame { held.new.frame.items ≡ bytes_so_far held.old }
    ensures whole { held.new.whole ≡ false }
    ensures client { held.new.client ≡ held.old.client }
    ensures bytes { held.new.bytes.items ≡ [] }
{
    held.bytes.clear();
    if held.whole {
        held.frame.clear();
        held.whole = false;
    }
}

/// Keeps what a client gave, and the bytes that it used.
fn keep(held: &mut HeldClient, piece: &[u8], got: Got) -> YtFound
    requires room { vec_len held.old.frame + length piece.now ≤ vec_capacity held.old.frame }
    requires used { got.used ≤ length piece.now }
    ensures used { result.used ≡ got.used }
    ensures bytes { held.new.bytes.items ≡ got.bytes.items }
    ensures bytes_length { result.bytes ≡ length got.bytes.items }
    ensures whole { held.new.whole ≡ is_some got.delivered }
    ensures frame { held.new.frame.items ≡ held.old.frame.items ++ take got.used piece.now }
    ensures frame_length { result.frame ≡ (if is_some got.delivered then length held.new.frame.items else 0) }
    ensures client { held.new.client ≡ held.old.client }
{
    let Got {
        used,
        delivered,
        bytes,
    } = got;
    let (front, _) = piece.split_at(used);
    let Ok(()) = held.frame.extend_from_slice(front) else {
        unreachable!()
    };
    held.whole = delivered.is_some();
    held.bytes = bytes;
    YtFound {
        used,
        bytes: held.bytes.len(),
        frame: if held.whole { held.frame.len() } else { 0 },
        at: 0,
        cause: 0,
    }
}

fn take_piece(alloc: Global, held: &mut HeldClient, piece: &[u8], found: &mut YtFound) -> u32
    ensures takes { result ≡ YT_OK → TakesBytes held.old held.new piece.now found.new }
    ensures progress { result ≡ YT_OK → 0 < length piece.now → 0 < found.new.used }
    ensures within { result ≡ YT_OK → found.new.used ≤ length piece.now }
    ensures open { result ≡ YT_OK → held.new.client.fault ≡ None }
    ensures limits { held.new.client.session.limits ≡ held.old.client.session.limits }
    ensures refuses { (result ≡ YT_OK → ⊥) → IsAsBefore held.old held.new result ⊎ RefusesBytes held.old held.new piece.now result found.new }
    ensures tables { (result ≡ YT_OK → ⊥) → held.new.client.session ≡ held.old.client.session }
    ensures length { found.new.bytes ≡ length held.new.bytes.items }
    ensures nothing { (result ≡ YT_OK → ⊥) → (held.new.bytes.items ≡ []) × (held.new.whole ≡ false) × FindsNothing found.new }
    ensures latched { IfSome held.old.client.fault (λ fault. ((result ≡ YT_NO_MEMORY) ⊎ (result ≡ take_number fault)) × (held.new.client ≡ held.old.client)) }
{
    begin_frame(held);
    if held.frame.reserve(piece.len()).is_err() {
        *found = nothing_found();
        return YT_NO_MEMORY;
    }
    match held.client.take(alloc, piece) {
        Ok(got) => {
            *found = keep(held, piece, got);
            YT_OK
        }
        Err(fault) => {
            *found = fault_found(fault);
            take_code(fault)
        }
    }
}

/// Uses the bytes of a piece up to the end of one frame at most. What is to be written is fetched by `yt_client_bytes`, and
/// the frame that became whole by `yt_client_frame`, before the next call on the handle. Where it answers other than `YT_OK`,
/// the client is closed, and answers that from then on; but where it is `YT_NO_MEMORY`, it may have been refused before
/// anything was taken, and the same piece can be given once more.
#[unsafe(no_mangle)]
pub extern "C" fn yt_client_take(
    alloc: Global,
    client: &mut YtClient,
    piece: &[u8],
    found: &mut YtFound,
) -> u32
    ensures none { FromEmpty client.old client.new (result ≡ YT_NONE) (found.new ≡ found.old) }
    ensures held { IsFull client.old → IsFull client.new }
    ensures takes { FromTo client.old client.new (TakesPiece piece.now result found.new) }
    ensures progress { result ≡ YT_OK → 0 < length piece.now → 0 < found.new.used }
    ensures within { result ≡ YT_OK → found.new.used ≤ length piece.now }
    ensures open { FromTo client.old client.new (λ c d. result ≡ YT_OK → d.client.fault ≡ None) }
    ensures limits { FromTo client.old client.new KeepsLimits }
    ensures refuses { FromTo client.old client.new (RefusesPiece piece.now result found.new) }
    ensures tables { FromTo client.old client.new (λ c d. result ≢ YT_OK → KeepsTables c d) }

    // What there is to fetch; where it is refused, nothing.
    ensures length { FromTo client.old client.new (LeavesBytes found.new.bytes) }
    ensures nothing { FromTo client.old client.new (LeavesNothing result found.new) }
    ensures latched { FromTo client.old client.new (LatchesFault result) }
{
    let Some(mut held) = take_out(alloc, client) else {
        return YT_NONE;
    };
    let code = take_piece(alloc, &mut *held, piece, found);
    *client = handle_of(held);
    code
}

/// Puts what is to be written into a buffer.
#[unsafe(no_mangle)]
pub extern "C" fn yt_client_bytes(alloc: Global, client: &mut YtClient, out: &mut [u8]) -> u32
    ensures none { IsEmpty client.old → (result ≡ YT_NONE) × (out.new ≡ out.old) }
    ensures same { client.new.inner.value ≡ client.old.inner.value }
    ensures bytes { IfFull client.old (λ c. result ≡ YT_OK → PutsBytes c out.old out.new) }
    ensures small { IfFull client.old (λ c. StaysIfSmall c.bytes.items result out.old out.new) }
    ensures codes { IsFull client.old → result ≢ YT_SMALL → result ≡ YT_OK }
{
    let Some(held) = take_out(alloc, client) else {
        return YT_NONE;
    };
    let code = put(held.bytes.as_slice(), out);
    *client = handle_of(held);
    code
}

fn put_frame(held: &HeldClient, out: &mut [u8]) -> u32
    ensures frame { result ≡ YT_OK → (held.now.whole ≡ true) × (out.new ≡ held.now.frame.items ++ drop (length held.now.frame.items) out.old) }
    ensures small { result ≡ YT_SMALL → (length out.old < length held.now.frame.items) × (out.new ≡ out.old) }
    ensures nothing { result ≡ YT_NOTHING → (held.now.whole ≡ false) × (out.new ≡ out.old) }
    ensures codes { (result ≡ YT_OK → ⊥) → (result ≡ YT_SMALL → ⊥) → result ≡ YT_NOTHING }
{
    if held.whole {
        put(held.frame.as_slice(), out)
    } else {
        YT_NOTHING
    }
}

/// Puts the frame whose message the last call of `yt_client_take` delivered into a buffer, with its header block:
/// `YT_NOTHING` where it delivered none.
#[unsafe(no_mangle)]
pub extern "C" fn yt_client_frame(alloc: Global, client: &mut YtClient, out: &mut [u8]) -> u32
    ensures none { IsEmpty client.old → (result ≡ YT_NONE) × (out.new ≡ out.old) }
    ensures same { client.new.inner.value ≡ client.old.inner.value }
    ensures frame { IfFull client.old (λ c. result ≡ YT_OK → PutsFrame c out.old out.new) }
    ensures small { IfFull client.old (λ c. StaysIfSmall c.frame.items result out.old out.new) }
    ensures nothing { IfFull client.old (λ c. result ≡ YT_NOTHING → HasNoFrame c out.old out.new) }
    ensures codes { IsFull client.old → result ≢ YT_OK → result ≢ YT_SMALL → result ≡ YT_NOTHING }
{
    let Some(held) = take_out(alloc, client) else {
        return YT_NONE;
    };
    let code = put_frame(&*held, out);
    *client = handle_of(held);
    code
}
