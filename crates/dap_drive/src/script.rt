//! What a line of a script asks for.
ghost use Rattle.std.specs.Prelude.{◌≡◌, ◌==◌, position, option_map, IfOk, IsTrue};
ghost use Rattle.serde_json.specs.View.{view};
ghost use Rattle.dap_json.specs.Lent.{lent_data};
ghost use Rattle.dap_call.specs.PlainCall.{is_plain_call};
ghost use Rattle.dap_drive.specs.Script.{Gives, GivesArguments, IsPlainOrder, text_before, text_after, command_in, arguments_in, call_in, send_in, order_of};

use dap_call::{Call, CallFault, read_call};
use dap_client::Terminal;
use dap_command::Command;
use dap_json::{ParseFault, parse};
use serde_json::Value;
use std::alloc::Global;
use std::str;

/// What a line asks for.
#[derive(Drop)]
pub(crate) enum Order {
    /// The client sends this.
    Send(Call),
    /// The client answers the oldest request of the adapter that it keeps, which wants a terminal.
    Answer(Terminal),
    /// The adapter handles the oldest request that waits.
    Turn,
    /// The adapter tells what happened to the debuggee, once.
    Poll,
    /// The adapter handles all requests, and tells what happens until nothing does or the debuggee stops.
    Run,
}

/// Why a line asks for nothing.
#[derive(Clone, Copy)]
pub(crate) enum LineFault {
    /// Its first word or its command is not known, or what follows that is no JSON.
    Script,
    /// Its arguments are not those of the command, or cannot be written.
    Call,
    OutOfMemory,
}

/// The place of the first space.
fn space(text: &[u8]) -> Option<usize>
    ensures { result ≡ position (λ byte. byte == 32) text.now }
{
    text.iter().position(|byte| *byte == b' ')
}

/// What stands before the first space, and what stands after it.
fn parts(text: &[u8]) -> (&[u8], Option<&[u8]>)
    ensures before { result.0.now ≡ text_before text.now }
    ensures after { option_map (λ rest. rest.now) result.1 ≡ text_after text.now }
{
    match space(text) {
        None => (text, None),
        Some(n) => (&text[..n], Some(&text[n + 1..])),
    }
}

fn known_command(name: &[u8]) -> Result<Command, LineFault>
    ensures { Gives result (command_in name.now) }
{
    let Ok(name) = str::from_utf8(name) else {
        return Err(LineFault::Script);
    };
    match Command::of_name(name) {
        Some(command) => Ok(command),
        None => Err(LineFault::Script),
    }
}

/// The arguments that a text is; `null` counts as absent.
fn read_arguments(alloc: Global, text: Option<&[u8]>) -> Result<Option<Value>, LineFault>
    ensures { GivesArguments result (arguments_in (option_map (λ rest. rest.now) text.entry)) }
{
    let Some(text) = text else {
        return Ok(None);
    };
    match parse(alloc, text) {
        Ok(Value::Null) => Ok(None),
        Ok(value) => Ok(Some(value)),
        Err(ParseFault::NotJson) => Err(LineFault::Script),
        Err(ParseFault::OutOfMemory) => Err(LineFault::OutOfMemory),
    }
}

/// The call that a command and its arguments are, if it can be written.
fn plain_call(alloc: Global, command: Command, arguments: Option<&Value>) -> Result<Call, LineFault>
    ensures gives { Gives result (call_in command (lent_data arguments.entry)) }
    ensures plain { IfOk result (λ call. IsTrue (is_plain_call call)) }
{
    match read_call(alloc, command, arguments) {
        Ok(call) => {
            if call.plain() {
                Ok(call)
            } else {
                Err(LineFault::Call)
            }
        }
        Err(CallFault::BadArguments { .. }) => Err(LineFault::Call),
        Err(CallFault::OutOfMemory) => Err(LineFault::OutOfMemory),
    }
}

/// The request that is to be sent.
fn read_send(alloc: Global, text: &[u8]) -> Result<Order, LineFault>
    ensures gives { Gives result (send_in text.now) }
    ensures plain { IfOk result IsPlainOrder }
{
    let (name, rest) = parts(text);
    let command = known_command(name)?;
    let arguments = read_arguments(alloc, rest)?;
    let call = plain_call(alloc, command, arguments.as_ref())?;
    Ok(Order::Send(call))
}

/// What the text of a line asks for.
pub(crate) fn read_order(alloc: Global, text: &[u8]) -> Result<Order, LineFault>
    ensures gives { Gives result (order_of text.now) }
    ensures plain { IfOk result IsPlainOrder }
{
    if text == b"turn".as_slice() {
        return Ok(Order::Turn);
    }
    if text == b"poll".as_slice() {
        return Ok(Order::Poll);
    }
    if text == b"run".as_slice() {
        return Ok(Order::Run);
    }
    if text == b"terminal ok".as_slice() {
        return Ok(Order::Answer(Terminal::Started {
            process_id: None,
            shell_process_id: None,
        }));
    }
    if text == b"terminal no".as_slice() {
        return Ok(Order::Answer(Terminal::Refused));
    }
    match text.strip_prefix(b"send ") {
        Some(rest) => read_send(alloc, rest),
        None => Err(LineFault::Script),
    }
}
