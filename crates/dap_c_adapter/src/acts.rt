//! What the host has to do: acts that the session asked for go out, one a call, with their lines and texts by a copy. Only what
//! waits behind the handle and what the caller lends for an answer are touched; the session is as it was.
ghost use Rattle.std.specs.Prelude.{◌≡◌, ◌<◌, ◌++◌, ◌∷◌, [], length, drop, IfSome, IsSome, None, true, ◌≢◌};
ghost use Rattle.dap_c_adapter.specs.Acts.{IsActFound, how_number, path_of, reference_in, lines_of, source_of, variable_of, value_of, PutsPart};
ghost use Rattle.dap_c_adapter.specs.AdapterCalls.{KeepsSession, acts_due};
ghost use Rattle.dap_c_adapter.specs.AdapterBehind.{IsFull, IsEmpty, IfFull, FromTo};
ghost use Rattle.dap_c_adapter.specs.AdapterExports.{FindsAct, FetchesFirst, HasNoAct, IsCodeOfAct, LeavesDue};

use crate::adapter_handle::YtAdapter;
use crate::held_adapter::HeldAdapter;
use dap_c_parts::codes::{YT_NO_MEMORY, YT_NONE, YT_NOTHING, YT_OK, YT_SMALL};
use dap_c_parts::copying::{put, put_numbers};
use dap_command::SourceKey;
use dap_debuggee::How;
use dap_live::{HostAct, Mail};
use dap_slot::{handle_of, take_out};
use std::alloc::Global;

/// What the host has to do.
#[repr(C)]
#[derive(Drop)]
pub struct YtAct {
    /// Of 2, the thread.
    pub thread: i64,
    /// Of 5, what holds the variable.
    pub holder: u64,
    /// Of 4, how many lines there are, for `yt_adapter_lines`.
    pub lines: usize,
    /// Of 4, how long the path of the source is, for `yt_adapter_source`; 0 where `reference` names it.
    pub source: usize,
    /// Of 5, how long the variable's name is, for `yt_adapter_name`.
    pub name: usize,
    /// Of 5, how long its value is, for `yt_adapter_value`.
    pub value: usize,
    /// Of 4, the reference of the source; 0 where its path names it.
    pub reference: u32,
    /// 1 start, 2 go on, 3 pause, 4 these lines are in place of all others of the source, 5 set a variable, 6 end.
    pub kind: u32,
    /// Of 2: 0 step in, 1 next, 2 step out, 3 continue, 4 step back, 5 reverse.
    pub how: u32,
}

fn act_of(kind: u32) -> YtAct
    ensures { result.kind ≡ kind }
{
    YtAct {
        thread: 0,
        holder: 0,
        lines: 0,
        source: 0,
        name: 0,
        value: 0,
        reference: 0,
        kind,
        how: 0,
    }
}

fn how_code(how: How) -> u32
    ensures { result ≡ how_number how }
{
    match how {
        How::StepIn => 0,
        How::Next => 1,
        How::StepOut => 2,
        How::Continue => 3,
        How::StepBack => 4,
        How::ReverseContinue => 5,
    }
}

fn path_len(source: &SourceKey) -> usize
    ensures { result ≡ length (path_of source.now) }
{
    match source {
        SourceKey::Path(path) => path.len(),
        SourceKey::Reference(_) => 0,
    }
}

fn reference_of(source: &SourceKey) -> u32
    ensures { result ≡ reference_in source.now }
{
    match source {
        SourceKey::Path(_) => 0,
        SourceKey::Reference(number) => *number,
    }
}

fn found_of(act: &HostAct) -> YtAct
    ensures { IsActFound act.now result }
{
    match act {
        HostAct::Start => act_of(1),
        HostAct::Resume { how, thread } => YtAct {
            thread: *thread,
            how: how_code(*how),
            ..act_of(2)
        },
        HostAct::Pause => act_of(3),
        HostAct::SetBreakpoints { source, lines } => YtAct {
            lines: lines.as_slice().len(),
            source: path_len(source),
            reference: reference_of(source),
            ..act_of(4)
        },
        HostAct::Assign {
            holder,
            name,
            value,
        } => YtAct {
            holder: *holder,
            name: name.len(),
            value: value.len(),
            ..act_of(5)
        },
        HostAct::End => act_of(6),
    }
}

/// Takes acts out of the mail, where none are left of those that were. Whether memory was not refused.
fn fill_acts(alloc: Global, held: &mut HeldAdapter) -> bool
    ensures due { acts_due held.new ≡ acts_due held.old }
    ensures filled { result ≡ true → held.new.acts.items ≡ [] → acts_due held.new ≡ [] }
    ensures same { KeepsSession held.old held.new }
    ensures act { held.new.act ≡ held.old.act }
{
    if !held.acts.is_empty() {
        return true;
    }
    let mut mail = held.adapter.exchange(Mail::new(alloc));
    let taken = mail.take_acts(alloc);
    let _ = held.adapter.exchange(mail);
    match taken {
        Ok(acts) => {
            held.acts = acts;
            true
        }
        Err(_) => false,
    }
}

/// Hands out the first of the acts that were taken out of the mail.
fn first_act(held: &mut HeldAdapter, act: &mut YtAct) -> u32
    ensures first { result ≡ YT_OK → IfSome held.new.act (λ a. acts_due held.old ≡ a ∷ acts_due held.new) }
    ensures some { result ≡ YT_OK → IsSome held.new.act }
    ensures found { result ≡ YT_OK → IfSome held.new.act (λ a. IsActFound a act.new) }
    ensures nothing { result ≡ YT_NOTHING → (held.new.act ≡ None) × (held.old.acts.items ≡ []) × (acts_due held.new ≡ acts_due held.old) }
    ensures untold { (result ≡ YT_OK → ⊥) → act.new ≡ act.old }
    ensures same { KeepsSession held.old held.new × (held.new.adapter ≡ held.old.adapter) }
    ensures codes { (result ≡ YT_OK → ⊥) → result ≡ YT_NOTHING }
{
    if held.acts.is_empty() {
        held.act = None;
        return YT_NOTHING;
    }
    let next = held.acts.remove(0);
    *act = found_of(&next);
    held.act = Some(next);
    YT_OK
}

fn next_act(alloc: Global, held: &mut HeldAdapter, act: &mut YtAct) -> u32
    ensures first { result ≡ YT_OK → IfSome held.new.act (λ a. acts_due held.old ≡ a ∷ acts_due held.new) }
    ensures some { result ≡ YT_OK → IsSome held.new.act }
    ensures found { result ≡ YT_OK → IfSome held.new.act (λ a. IsActFound a act.new) }
    ensures nothing { result ≡ YT_NOTHING → (held.new.act ≡ None) × (acts_due held.old ≡ []) }
    ensures left { (result ≡ YT_OK → ⊥) → acts_due held.new ≡ acts_due held.old }
    ensures untold { (result ≡ YT_OK → ⊥) → act.new ≡ act.old }
    ensures same { KeepsSession held.old held.new }
    ensures codes { (result ≡ YT_OK → ⊥) → (result ≡ YT_NOTHING → ⊥) → result ≡ YT_NO_MEMORY }
{
    if !fill_acts(alloc, held) {
        return YT_NO_MEMORY;
    }
    first_act(held, act)
}

/// Fetches what the host has to do next: `YT_NOTHING` where nothing is left. It is called after each turn, and after each
/// piece, until it answers that. Where it is `YT_NO_MEMORY`, no act is lost, and it can be called again.
#[unsafe(no_mangle)]
pub extern "C" fn yt_adapter_act(alloc: Global, adapter: &mut YtAdapter, act: &mut YtAct) -> u32
    ensures none { IsEmpty adapter.old → (result ≡ YT_NONE) × (act.new ≡ act.old) }
    ensures held { IsFull adapter.old → IsFull adapter.new }
    ensures some { FromTo adapter.old adapter.new (λ a b. result ≡ YT_OK → IsSome b.act) }
    ensures found { FromTo adapter.old adapter.new (FindsAct result act.new) }

    // The acts that were asked for come in that order, each once.
    ensures first { FromTo adapter.old adapter.new (FetchesFirst result) }
    ensures nothing { FromTo adapter.old adapter.new (HasNoAct result) }
    ensures left { FromTo adapter.old adapter.new (LeavesDue result) }
    ensures untold { result ≢ YT_OK → act.new ≡ act.old }
    ensures same { FromTo adapter.old adapter.new KeepsSession }
    ensures codes { IsFull adapter.old → IsCodeOfAct result }
{
    let Some(mut held) = take_out(alloc, adapter) else {
        return YT_NONE;
    };
    let code = next_act(alloc, &mut *held, act);
    *adapter = handle_of(held);
    code
}

fn put_lines(act: &Option<HostAct>, out: &mut [u32]) -> u32
    ensures { PutsPart (lines_of act.now) result out.old out.new }
{
    match act {
        Some(HostAct::SetBreakpoints { lines, .. }) => put_numbers(lines.as_slice(), out),
        _ => YT_NOTHING,
    }
}

/// Puts the lines of the act that was fetched last into a buffer.
#[unsafe(no_mangle)]
pub extern "C" fn yt_adapter_lines(alloc: Global, adapter: &mut YtAdapter, out: &mut [u32]) -> u32
    ensures none { IsEmpty adapter.old → (result ≡ YT_NONE) × (out.new ≡ out.old) }
    ensures same { adapter.new.inner.value ≡ adapter.old.inner.value }
    ensures puts { IfFull adapter.old (λ a. PutsPart (lines_of a.act) result out.old out.new) }
{
    let Some(held) = take_out(alloc, adapter) else {
        return YT_NONE;
    };
    let code = put_lines(&held.act, out);
    *adapter = handle_of(held);
    code
}

fn put_source(act: &Option<HostAct>, out: &mut [u8]) -> u32
    ensures { PutsPart (source_of act.now) result out.old out.new }
{
    match act {
        Some(
            HostAct::SetBreakpoints {
                source: SourceKey::Path(path),
                ..
            },
        ) => put(path.as_str().as_bytes(), out),
        _ => YT_NOTHING,
    }
}

/// Puts the path of the source of the act that was fetched last into a buffer.
#[unsafe(no_mangle)]
pub extern "C" fn yt_adapter_source(alloc: Global, adapter: &mut YtAdapter, out: &mut [u8]) -> u32
    ensures none { IsEmpty adapter.old → (result ≡ YT_NONE) × (out.new ≡ out.old) }
    ensures same { adapter.new.inner.value ≡ adapter.old.inner.value }
    ensures puts { IfFull adapter.old (λ a. PutsPart (source_of a.act) result out.old out.new) }
{
    let Some(held) = take_out(alloc, adapter) else {
        return YT_NONE;
    };
    let code = put_source(&held.act, out);
    *adapter = handle_of(held);
    code
}

fn put_name(act: &Option<HostAct>, out: &mut [u8]) -> u32
    ensures { PutsPart (variable_of act.now) result out.old out.new }
{
    match act {
        Some(HostAct::Assign { name, .. }) => put(name.as_str().as_bytes(), out),
        _ => YT_NOTHING,
    }
}

/// Puts the name of the variable of the act that was fetched last into a buffer.
#[unsafe(no_mangle)]
pub extern "C" fn yt_adapter_name(alloc: Global, adapter: &mut YtAdapter, out: &mut [u8]) -> u32
    ensures none { IsEmpty adapter.old → (result ≡ YT_NONE) × (out.new ≡ out.old) }
    ensures same { adapter.new.inner.value ≡ adapter.old.inner.value }
    ensures puts { IfFull adapter.old (λ a. PutsPart (variable_of a.act) result out.old out.new) }
{
    let Some(held) = take_out(alloc, adapter) else {
        return YT_NONE;
    };
    let code = put_name(&held.act, out);
    *adapter = handle_of(held);
    code
}

fn put_value(act: &Option<HostAct>, out: &mut [u8]) -> u32
    ensures { PutsPart (value_of act.now) result out.old out.new }
{
    match act {
        Some(HostAct::Assign { value, .. }) => put(value.as_str().as_bytes(), out),
        _ => YT_NOTHING,
    }
}

/// Puts the value of the variable of the act that was fetched last into a buffer.
#[unsafe(no_mangle)]
pub extern "C" fn yt_adapter_value(alloc: Global, adapter: &mut YtAdapter, out: &mut [u8]) -> u32
    ensures none { IsEmpty adapter.old → (result ≡ YT_NONE) × (out.new ≡ out.old) }
    ensures same { adapter.new.inner.value ≡ adapter.old.inner.value }
    ensures puts { IfFull adapter.old (λ a. PutsPart (value_of a.act) result out.old out.new) }
{
    let Some(held) = take_out(alloc, adapter) else {
        return YT_NONE;
    };
    let code = put_value(&held.act, out);
    *adapter = handle_of(held);
    code
}
