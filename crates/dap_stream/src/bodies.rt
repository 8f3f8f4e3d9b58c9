//! Bodies: whether one is a message, and what it is on one line.

ghost use Rattle.std.specs.Prelude.{◌≡◌, ◌++◌, [], ◌∷◌, OnOk, IfErr};
ghost use Rattle.dap_envelope.specs.Meaning.{Msg};
ghost use Rattle.dap_envelope.specs.declared.message.Message.{Message};
ghost use Rattle.dap_stream.specs.Lines.{is_break, unbroken, line_of_body};
ghost use Rattle.dap_stream.specs.PrivateShowSteps.{IsUnread};

use dap_envelope::{BodyFault, read_heading, read_message};
use dap_json::object_reader::Scratch;
use memchr::memchr2;
use std::alloc::{AllocError, Global};

/// Whether a body is a message. Only where its heading cannot be read, it is asked why.
pub(crate) fn test_message(
    alloc: Global,
    scratch: &mut Scratch,
    body: &[u8],
) -> Result<(), BodyFault>
    ensures message { OnOk result ((m : Message) × Msg body.now m) }
    ensures fault { IfErr result (IsUnread body.now) }
{
    if let Some(_heading) = read_heading(scratch, body) {
        return Ok(());
    }
    let _message = read_message(alloc, body)?;
    Ok(())
}

fn breaks_line(byte: u8) -> bool
    ensures { result ≡ is_break byte }
{
    byte == b'\n' || byte == b'\r'
}

/// Appends the bytes that break no line.
fn push_others(line: &mut Vec<u8>, body: &[u8]) -> Result<(), AllocError>
    ensures { OnOk result (line.new.items ≡ line.old.items ++ unbroken body.now) }
{
    for byte in body {
        if !breaks_line(*byte) {
            line.push(*byte)?;
        }
    }
    Ok(())
}

/// Appends a body without its line feeds and carriage returns. Most bodies have none, and are copied in one piece.
pub(crate) fn push_unbroken(line: &mut Vec<u8>, body: &[u8]) -> Result<(), AllocError>
    ensures { OnOk result (line.new.items ≡ line.old.items ++ unbroken body.now) }
{
    match memchr2(b'\n', b'\r', body) {
        None => line.extend_from_slice(body),
        Some(_) => push_others(line, body),
    }
}
