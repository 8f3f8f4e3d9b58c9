//! What a host says of what the client asks next: where breakpoints are, or that the debugger refuses, and why.
//!
//! It is said as the lines of a host say it (`dap_line`), and lies in the debuggee's mail until it is said anew. Only that mail
//! is touched.
ghost use Rattle.std.specs.Prelude.{◌≡◌, ◌≢◌, ◌⊎◌, IfOk, IfErr, None, Some};
ghost use Rattle.dap_live.specs.MailState.{with_ahead};
ghost use Rattle.dap_c_adapter.specs.AdapterCalls.{IsCodeOfArguments, KeepsActs, over_mail};
ghost use Rattle.dap_c_adapter.specs.AdapterBehind.{IsFull, IsEmpty, FromTo};
ghost use Rattle.dap_c_adapter.specs.AdapterExports.{KeepsAdapter, KeepsFetched, CanBeAhead, SaysAhead};
ghost use Rattle.dap_c_adapter.specs.Ahead.{note_in, ahead_by};

use crate::adapter_handle::YtAdapter;
use crate::held_adapter::HeldAdapter;
use dap_c_parts::codes::*;
use dap_json::object_reader::Scratch;
use dap_line::{Note, Said, Unread, read_said};
use dap_live::{Ahead, Mail};
use dap_slot::{handle_of, take_out};
use std::alloc::Global;

/// What is said of the next message, where that is what is said.
fn note_in(said: Said) -> Option<Note>
    ensures { result ≡ note_in said }
{
    match said {
        Said::OfNext(note) => Some(note),
        Said::Happened(_) => None,
        Said::Event { .. } => None,
        Said::Answer { .. } => None,
        Said::Ask { .. } => None,
        Said::Target(_) => None,
    }
}

/// What these bytes say.
fn ahead_given(alloc: Global, bytes: &[u8]) -> Result<Ahead, u32>
    ensures said { IfOk result (λ ahead. ahead_by bytes.now ≡ Some ahead) }
    ensures refused { IfErr result (λ code. code ≡ YT_BAD_ARGUMENTS → ahead_by bytes.now ≡ None) }
    ensures code { IfErr result IsCodeOfArguments }
{
    let mut ahead = Ahead::none();
    if bytes.is_empty() {
        return Ok(ahead);
    }
    let mut scratch = Scratch::new(alloc);
    match read_said(alloc, &mut scratch, bytes) {
        Ok(said) => match note_in(said) {
            Some(note) => {
                note.keep_in(&mut ahead);
                Ok(ahead)
            }
            None => Err(YT_BAD_ARGUMENTS),
        },
        Err(Unread::Refused(_)) => Err(YT_BAD_ARGUMENTS),
        Err(Unread::OutOfMemory) => Err(YT_NO_MEMORY),
    }
}

/// Leaves it in the debuggee's mail, in place of what was said before.
fn leave(alloc: Global, held: &mut HeldAdapter, ahead: Ahead)
    ensures left { held.new.adapter ≡ over_mail (with_ahead ahead held.old.adapter.debuggee.mail) held.old.adapter }
    ensures same { KeepsFetched held.old held.new }
    ensures acts { KeepsActs held.old held.new }
{
    let mut mail = held.adapter.exchange(Mail::new(alloc));
    mail.prepare(ahead);
    let _ = held.adapter.exchange(mail);
}

/// The same, where it could be read.
fn leave_given(alloc: Global, held: &mut HeldAdapter, bytes: &[u8]) -> u32
    ensures says { SaysAhead bytes.now result held.old held.new }
    ensures refused { result ≢ YT_OK → KeepsAdapter held.old held.new }
    ensures why { result ≡ YT_BAD_ARGUMENTS → ahead_by bytes.now ≡ None }
    ensures code { result ≢ YT_OK → IsCodeOfArguments result }
    ensures same { KeepsFetched held.old held.new }
    ensures acts { KeepsActs held.old held.new }
{
    match ahead_given(alloc, bytes) {
        Ok(ahead) => {
            leave(alloc, held, ahead);
            YT_OK
        }
        Err(code) => code,
    }
}

/// Says something of the request that is handled next, as a host's line does (docs/HOST.md, "What is said of the next message"): a
/// JSON object with `placed` and `breakpoints` says where those are that are to be set, one with `refuses` that a start, a going on
/// or a pause is refused. It is called between the `yt_adapter_take` that delivered the request and the `yt_adapter_turn` that
/// handles it; where a terminal is asked for, the start comes with the `yt_adapter_take` of the answer. It counts, in place of what
/// was said before, until this is called again: so call it with no bytes, which say nothing, once the request is handled.
/// `YT_BAD_ARGUMENTS` where it says neither: then what was said before counts.
#[unsafe(no_mangle)]
pub extern "C" fn yt_adapter_ahead(alloc: Global, adapter: &mut YtAdapter, said: &[u8]) -> u32
    ensures none { IsEmpty adapter.old → (result ≡ YT_NONE) × IsEmpty adapter.new }
    ensures held { IsFull adapter.old → IsFull adapter.new }
    ensures says { FromTo adapter.old adapter.new (SaysAhead said.now result) }
    ensures refused { FromTo adapter.old adapter.new (λ a b. result ≢ YT_OK → KeepsAdapter a b) }
    ensures wanted { CanBeAhead said.now → result ≢ YT_BAD_ARGUMENTS }
    ensures code { IsFull adapter.old → result ≢ YT_OK → IsCodeOfArguments result }
    ensures same { FromTo adapter.old adapter.new KeepsFetched }
    ensures acts { FromTo adapter.old adapter.new KeepsActs }
{
    let Some(mut held) = take_out(alloc, adapter) else {
        return YT_NONE;
    };
    let code = leave_given(alloc, &mut *held, said);
    *adapter = handle_of(held);
    code
}
