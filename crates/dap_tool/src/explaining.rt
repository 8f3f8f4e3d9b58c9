//! The second line of a fault: the file, the place in it, and the bytes or the key that are refused.

ghost use Rattle.std.specs.Prelude.{◌≡◌, ◌++◌, ◌∷◌, [], codes, decimal, IfOk, OnOk};
ghost use Rattle.dap_explain.specs.Sentences.{joined_text};
ghost use Rattle.dap_tool.specs.Explanations.{words_of_open, words_of_file, words_of_adapter, words_of_serve, words_of_send, words_of_drive, words_of, explanation_of};

use crate::fault::ToolFault;
use crate::files::{FileFault, OpenFault};
use dap_adapter::{AdapterFault, ServeFault};
use dap_client::SendFault;
use dap_drive::DriveFault;
use dap_reason::{
    NO_MEMORY, Part, body_refusal_words, push, push_at, push_at_line, push_check, push_recording,
    push_show, push_why, push_wrap, refusal_words,
};
use dap_stream::push_shown;
use std::alloc::{AllocError, Global};

const CANNOT_BE_READ: &str = "cannot be read";

// ---- faults of files

fn open_words(fault: OpenFault) -> &'static str
    ensures { result.now ≡ words_of_open fault }
{
    match fault {
        OpenFault::NotFound => "no such file",
        OpenFault::IsDirectory => "is a directory",
        OpenFault::PermissionDenied => "permission denied",
        OpenFault::NotOpened => "cannot be opened",
    }
}

fn file_words(fault: FileFault) -> &'static str
    ensures { result.now ≡ words_of_file fault }
{
    match fault {
        FileFault::Read => CANNOT_BE_READ,
        FileFault::FileTooLong => "longer than 67108864 bytes",
        FileFault::OutOfMemory => NO_MEMORY,
    }
}

// ---- faults of serving

fn push_repeated_seq(out: &mut Vec<u8>, seq: u64) -> Result<(), AllocError>
    ensures { OnOk result (out.new.items ≡ out.old.items ++ words_of_adapter (AdapterFault.RepeatedSeq seq)) }
{
    push(
        out,
        &[
            Part::Words("request "),
            Part::Number(seq),
            Part::Words(" again, while request "),
            Part::Number(seq),
            Part::Words(" has no response"),
        ],
    )
}

/// Appends what is wrong with a response to a request of the adapter.
fn push_response(out: &mut Vec<u8>, seq: u64, words: &str) -> Result<(), AllocError>
    ensures { OnOk result (out.new.items ≡ out.old.items ++ joined_text (codes "response to request " ∷ decimal seq ∷ words.now ∷ [])) }
{
    push(
        out,
        &[
            Part::Words("response to request "),
            Part::Number(seq),
            Part::Words(words),
        ],
    )
}

fn push_adapter(out: &mut Vec<u8>, fault: &AdapterFault) -> Result<(), AllocError>
    ensures { OnOk result (out.new.items ≡ out.old.items ++ words_of_adapter fault.now) }
{
    match fault {
        AdapterFault::Frame(fault) => {
            push_at(out, fault.offset, Part::Words(refusal_words(fault.cause)))
        }
        AdapterFault::Body { cause, offset } => {
            push_at(out, *offset, Part::Words(body_refusal_words(*cause)))
        }
        AdapterFault::RepeatedSeq { seq } => push_repeated_seq(out, *seq),
        AdapterFault::Unmatched { request_seq } => {
            push_response(out, *request_seq, ", which does not wait for one")
        }
        AdapterFault::CommandMismatch { request_seq } => {
            push_response(out, *request_seq, ", which has another command")
        }
        AdapterFault::Ended => push(
            out,
            &[Part::Words("a request after the response to disconnect")],
        ),
        AdapterFault::SeqExhausted => push(
            out,
            &[Part::Words("no sequence number is left for what is due")],
        ),
        AdapterFault::OutOfMemory => push(out, &[Part::Words(NO_MEMORY)]),
    }
}

fn push_unwritten(out: &mut Vec<u8>, written: u64) -> Result<(), AllocError>
    ensures { OnOk result (out.new.items ≡ out.old.items ++ words_of_serve (ServeFault.Write written)) }
{
    push(
        out,
        &[
            Part::Words("cannot be written, after "),
            Part::Number(written),
            Part::Words(" bytes"),
        ],
    )
}

fn push_serve(out: &mut Vec<u8>, fault: &ServeFault) -> Result<(), AllocError>
    ensures { OnOk result (out.new.items ≡ out.old.items ++ words_of_serve fault.now) }
{
    match fault {
        ServeFault::Read => push(out, &[Part::Words(CANNOT_BE_READ)]),
        ServeFault::Write { written } => push_unwritten(out, *written),
        ServeFault::Adapter(fault) => push_adapter(out, fault),
        ServeFault::TooManyReads => push(out, &[Part::Words("more than 1000000000 reads")]),
        ServeFault::OutOfMemory => push(out, &[Part::Words(NO_MEMORY)]),
    }
}

// ---- faults of driving

fn send_words(fault: SendFault) -> &'static str
    ensures { result.now ≡ words_of_send fault }
{
    match fault {
        SendFault::Ended => "the session has ended",
        SendFault::WrongPhase => "the session is in another phase",
        SendFault::NotSupported => "the adapter does not offer it",
        SendFault::NotStopped => "the debuggee is not stopped",
        SendFault::UnknownReference => "a reference is not known",
        SendFault::TooLarge => "the body is longer than its limit",
        SendFault::Full => "no more requests may wait",
        SendFault::SeqExhausted => "no sequence number is left",
        SendFault::OutOfMemory => NO_MEMORY,
    }
}

fn push_unsent(
    out: &mut Vec<u8>,
    bytes: &[u8],
    line: u64,
    cause: SendFault,
) -> Result<(), AllocError>
    ensures { OnOk result (out.new.items ≡ out.old.items ++ words_of_drive bytes.now (DriveFault.Send line cause)) }
{
    push_at_line(out, bytes, line)?;
    push(out, &[Part::Words(": "), Part::Words(send_words(cause))])
}

fn push_drive(
    alloc: Global,
    out: &mut Vec<u8>,
    bytes: &[u8],
    fault: &DriveFault,
) -> Result<(), AllocError>
    ensures { OnOk result (out.new.items ≡ out.old.items ++ words_of_drive bytes.now fault.now) }
{
    match fault {
        DriveFault::Recording => push_why(alloc, out, bytes),
        DriveFault::Script { line } => push_at_line(out, bytes, *line),
        DriveFault::Call { line } => push_at_line(out, bytes, *line),
        DriveFault::Send { line, cause } => push_unsent(out, bytes, *line, *cause),
        DriveFault::Adapter => push(
            out,
            &[Part::Words("the adapter has no sequence number left for what is due")],
        ),
        DriveFault::Client => push(
            out,
            &[Part::Words(
                "the client has no sequence number left, or would know too many references",
            )],
        ),
        DriveFault::OutOfMemory => push(out, &[Part::Words(NO_MEMORY)]),
    }
}

// ---- the line

fn push_words(
    alloc: Global,
    out: &mut Vec<u8>,
    bytes: &[u8],
    fault: &ToolFault,
) -> Result<(), AllocError>
    ensures { OnOk result (out.new.items ≡ out.old.items ++ words_of bytes.now fault.now) }
{
    match fault {
        ToolFault::Serve(fault) => push_serve(out, fault),
        ToolFault::Recording(fault) => push_recording(alloc, out, bytes, fault),
        ToolFault::Show(fault) => push_show(out, bytes, fault),
        ToolFault::Wrap(fault) => push_wrap(out, bytes, fault),
        ToolFault::Check(fault) => push_check(out, bytes, fault),
        ToolFault::Drive(fault) => push_drive(alloc, out, bytes, fault),
        ToolFault::Open(fault) => push(out, &[Part::Words(open_words(*fault))]),
        ToolFault::File(fault) => push(out, &[Part::Words(file_words(*fault))]),
        ToolFault::Truncated => push(out, &[Part::Words("ends within a frame")]),
        ToolFault::Write => push(out, &[Part::Words("cannot be written")]),
        ToolFault::OutOfMemory => push(out, &[Part::Words(NO_MEMORY)]),
    }
}

/// The line, with its line feed, that explains a fault: the name of what was read or written, whose control characters are
/// shown as `?`, then the place and the bytes or the key, such as `a.json: moments[3].thread: 7 is no thread of the moment` or
/// `trace.dap: at 55120: "Content-Length 12"`. Of the input's bytes at most 60 are shown, between quotes: others than printable
/// ASCII, a quote and a backslash are written as escapes. `bytes` is what was read of the input: of a recording, of a listed
/// stream and of a file of lines. Other faults say what they know themselves, and `bytes` may be empty there.
///
/// A recording is read once more.
pub fn explanation(
    alloc: Global,
    name: &str,
    bytes: &[u8],
    fault: &ToolFault,
) -> Result<Vec<u8>, AllocError>
    ensures { IfOk result (λ line. line.items ≡ explanation_of name.now bytes.now fault.now) }
{
    let mut line = Vec::new(alloc);
    push_shown(&mut line, name.as_bytes())?;
    push(&mut line, &[Part::Words(": ")])?;
    push_words(alloc, &mut line, bytes, fault)?;
    push(&mut line, &[Part::Words("\n")])?;
    Ok(line)
}
