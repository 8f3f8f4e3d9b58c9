//! A call that a caller in C gives by its command and the text of its arguments: these come in, and a call goes out. Nothing
//! else is touched.
ghost use Rattle.std.specs.Prelude.{◌≡◌, ◌⊎◌, IfOk, IfErr, IfSome, IfNone, Some, None, Ok, IsTrue, IsUtf8, option_map};
ghost use Rattle.serde_json.specs.View.{view};
ghost use Rattle.dap_call.specs.Call.{call_of};
ghost use Rattle.dap_command.specs.Command.{command_named};
ghost use Rattle.dap_call.specs.PlainCall.{is_plain_call};
ghost use Rattle.dap_call.specs.declared.call.Call.{Call as TheCall};
ghost use Rattle.dap_c.specs.CallGiven.{IsCallOf, IsCodeOfCall, given_in};

use dap_c_parts::codes::{YT_BAD_ARGUMENTS, YT_BAD_COMMAND, YT_NO_MEMORY};
use dap_call::{Call, CallFault, read_call};
use dap_command::Command;
use dap_json::{ParseFault, parse};
use serde_json::Value;
use std::alloc::Global;

fn command_of(name: &[u8]) -> Option<Command>
    ensures some { IfSome result (λ command. command_named name.now ≡ Some command) }
    ensures none { IfNone result (IsUtf8 name.now → command_named name.now ≡ None) }
{
    match std::str::from_utf8(name) {
        Ok(name) => Command::of_name(name),
        Err(_) => None,
    }
}

fn given_of(alloc: Global, arguments: &[u8]) -> Result<Option<Value>, u32>
    ensures given { IfOk result (λ given. given_in arguments.now ≡ Some (option_map view given)) }
    ensures refused { IfErr result (λ code. code ≡ YT_BAD_ARGUMENTS → given_in arguments.now ≡ None) }
    ensures code { IfErr result (λ code. (code ≡ YT_BAD_ARGUMENTS) ⊎ (code ≡ YT_NO_MEMORY)) }
{
    if arguments.is_empty() {
        return Ok(None);
    }
    match parse(alloc, arguments) {
        Ok(value) => Ok(Some(value)),
        Err(ParseFault::NotJson) => Err(YT_BAD_ARGUMENTS),
        Err(ParseFault::OutOfMemory) => Err(YT_NO_MEMORY),
    }
}

fn read(alloc: Global, command: Command, given: &Option<Value>) -> Result<Call, u32>
    ensures call { IfOk result (λ call. call_of command (option_map view given.now) ≡ Ok call) }
    ensures refused { IfErr result (λ code. code ≡ YT_BAD_ARGUMENTS → (call : TheCall) → call_of command (option_map view given.now) ≡ Ok call → ⊥) }
    ensures code { IfErr result (λ code. (code ≡ YT_BAD_ARGUMENTS) ⊎ (code ≡ YT_NO_MEMORY)) }
{
    match read_call(alloc, command, given.as_ref()) {
        Ok(call) => Ok(call),
        Err(CallFault::OutOfMemory) => Err(YT_NO_MEMORY),
        Err(CallFault::BadArguments { .. }) => Err(YT_BAD_ARGUMENTS),
    }
}

/// The call, which can be written. Its codes are `YT_BAD_COMMAND`, `YT_BAD_ARGUMENTS` and `YT_NO_MEMORY`.
pub(crate) fn call_given(alloc: Global, name: &[u8], arguments: &[u8]) -> Result<Call, u32>
    ensures call { IfOk result (IsCallOf name.now arguments.now) }
    ensures plain { IfOk result (λ call. IsTrue (is_plain_call call)) }
    ensures code { IfErr result IsCodeOfCall }
    ensures wanted { (call : TheCall) → IsUtf8 name.now → IsCallOf name.now arguments.now call → IsTrue (is_plain_call call) → IfErr result (λ code. code ≡ YT_NO_MEMORY) }
{
    let Some(command) = command_of(name) else {
        return Err(YT_BAD_COMMAND);
    };
    let given = given_of(alloc, arguments)?;
    let call = read(alloc, command, &given)?;
    if !call.plain() {
        return Err(YT_BAD_ARGUMENTS);
    }
    Ok(call)
}
