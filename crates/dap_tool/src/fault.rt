//! Why a tool stops, and how a program tells it.

ghost use Rattle.std.specs.Prelude.{◌≡◌, IfOk, string_bytes};
ghost use Rattle.dap_tool.specs.Faults.{status_of, status_of_adapter, status_of_serve, status_of_recording, status_of_show, status_of_check, status_of_send, status_of_drive, line_of, line_of_adapter, line_of_serve, line_of_recording, line_of_show, line_of_wrap, line_of_check, line_of_drive, line_of_file, named_line, line_at, line_at_line, name_of_refusal, name_of_send};

use crate::files::{FileFault, OpenFault};
use dap_adapter::{AdapterFault, ServeFault};
use dap_check::CheckFault;
use dap_client::SendFault;
use dap_drive::DriveFault;
use dap_frame::Refusal;
use dap_recording::RecordingFault;
use dap_stream::{ShowFault, WrapFault, body_refusal_name};
use std::alloc::{AllocError, Global};
use thiserror::Error;

/// Why a tool stops.
#[derive(Clone, Copy, Debug, PartialEq, Eq, Error)]
pub enum ToolFault {
    /// The session was not served to its end.
    #[error("the session is broken off")]
    Serve(ServeFault),
    /// A file is no recording.
    #[error("the recording is refused")]
    Recording(RecordingFault),
    #[error("{0}")]
    Show(ShowFault),
    #[error("{0}")]
    Wrap(WrapFault),
    /// A file is no transcript.
    #[error("{0}")]
    Check(CheckFault),
    /// A script was not driven to its end.
    #[error("{0}")]
    Drive(DriveFault),
    /// A file is not opened.
    #[error("{0}")]
    Open(OpenFault),
    #[error("{0}")]
    File(FileFault),
    /// The input ended within a frame.
    #[error("the input ends within a frame")]
    Truncated,
    /// What a tool made could not be written.
    #[error("the output failed")]
    Write,
    /// Memory was refused.
    #[error("memory is exhausted")]
    OutOfMemory,
}

/// The status that a program ends with at a fault: 3 refused, 4 truncated, 5 read or write, 6 memory.
pub fn status(fault: &ToolFault) -> u8
    ensures { result ≡ status_of fault.now }
{
    match fault {
        ToolFault::Serve(fault) => serve_status(fault),
        ToolFault::Recording(fault) => recording_status(fault),
        ToolFault::Show(fault) => show_status(fault),
        ToolFault::Wrap(WrapFault::OutOfMemory) => 6,
        ToolFault::Wrap(_) => 3,
        ToolFault::Check(fault) => check_status(fault),
        ToolFault::Drive(fault) => drive_status(fault),
        ToolFault::Open(_) => 5,
        ToolFault::File(FileFault::Read) => 5,
        ToolFault::File(FileFault::FileTooLong) => 3,
        ToolFault::File(FileFault::OutOfMemory) => 6,
        ToolFault::Truncated => 4,
        ToolFault::Write => 5,
        ToolFault::OutOfMemory => 6,
    }
}

fn adapter_status(fault: &AdapterFault) -> u8
    ensures { result ≡ status_of_adapter fault.now }
{
    match fault {
        AdapterFault::Frame(_) => 3,
        AdapterFault::Body { .. } => 3,
        AdapterFault::RepeatedSeq { .. } => 3,
        AdapterFault::Unmatched { .. } => 3,
        AdapterFault::CommandMismatch { .. } => 3,
        AdapterFault::Ended => 3,
        AdapterFault::SeqExhausted => 3,
        AdapterFault::OutOfMemory => 6,
    }
}

fn serve_status(fault: &ServeFault) -> u8
    ensures { result ≡ status_of_serve fault.now }
{
    match fault {
        ServeFault::Read => 5,
        ServeFault::Write { .. } => 5,
        ServeFault::Adapter(fault) => adapter_status(fault),
        ServeFault::TooManyReads => 5,
        ServeFault::OutOfMemory => 6,
    }
}

fn recording_status(fault: &RecordingFault) -> u8
    ensures { result ≡ status_of_recording fault.now }
{
    match fault {
        RecordingFault::NotJson => 3,
        RecordingFault::NotObject => 3,
        RecordingFault::BadKey { .. } => 3,
        RecordingFault::OutOfMemory => 6,
    }
}

fn show_status(fault: &ShowFault) -> u8
    ensures { result ≡ status_of_show fault.now }
{
    match fault {
        ShowFault::Frame(_) => 3,
        ShowFault::Body { .. } => 3,
        ShowFault::OutOfMemory => 6,
    }
}

fn check_status(fault: &CheckFault) -> u8
    ensures { result ≡ status_of_check fault.now }
{
    match fault {
        CheckFault::BadLine { .. } => 3,
        CheckFault::Body { .. } => 3,
        CheckFault::OutOfMemory => 6,
    }
}

fn send_status(fault: SendFault) -> u8
    ensures { result ≡ status_of_send fault }
{
    match fault {
        SendFault::Ended => 3,
        SendFault::WrongPhase => 3,
        SendFault::NotSupported => 3,
        SendFault::NotStopped => 3,
        SendFault::UnknownReference => 3,
        SendFault::TooLarge => 3,
        SendFault::Full => 3,
        SendFault::SeqExhausted => 3,
        SendFault::OutOfMemory => 6,
    }
}

fn drive_status(fault: &DriveFault) -> u8
    ensures { result ≡ status_of_drive fault.now }
{
    match fault {
        DriveFault::Recording => 3,
        DriveFault::Script { .. } => 3,
        DriveFault::Call { .. } => 3,
        DriveFault::Send { cause, .. } => send_status(*cause),
        DriveFault::Adapter => 3,
        DriveFault::Client => 3,
        DriveFault::OutOfMemory => 6,
    }
}

fn refusal_name(refusal: Refusal) -> &'static str
    ensures { result.now ≡ name_of_refusal refusal }
{
    match refusal {
        Refusal::HeaderTooLong => "HeaderTooLong",
        Refusal::BadHeader => "BadHeader",
        Refusal::NoLength => "NoLength",
        Refusal::TwoLengths => "TwoLengths",
        Refusal::BadLength => "BadLength",
        Refusal::BodyTooLong => "BodyTooLong",
    }
}

fn send_fault_name(fault: SendFault) -> &'static str
    ensures { result.now ≡ name_of_send fault }
{
    match fault {
        SendFault::Ended => "Ended",
        SendFault::WrongPhase => "WrongPhase",
        SendFault::NotSupported => "NotSupported",
        SendFault::NotStopped => "NotStopped",
        SendFault::UnknownReference => "UnknownReference",
        SendFault::TooLarge => "TooLarge",
        SendFault::Full => "Full",
        SendFault::SeqExhausted => "SeqExhausted",
        SendFault::OutOfMemory => "OutOfMemory",
    }
}

fn named(alloc: Global, name: &str) -> Result<String, AllocError>
    ensures { IfOk result (λ line. string_bytes line ≡ named_line name.now) }
{
    format!(in alloc; "dap: {name}\n")
}

fn at_offset(alloc: Global, name: &str, offset: u64) -> Result<String, AllocError>
    ensures { IfOk result (λ line. string_bytes line ≡ line_at name.now offset) }
{
    Ok(format!(in alloc; "dap: {name} at {offset}\n")?)
}

fn at_line(alloc: Global, name: &str, number: u64) -> Result<String, AllocError>
    ensures { IfOk result (λ line. string_bytes line ≡ line_at_line name.now number) }
{
    Ok(format!(in alloc; "dap: {name} at line {number}\n")?)
}

fn adapter_line(alloc: Global, fault: &AdapterFault) -> Result<String, AllocError>
    ensures { IfOk result (λ line. string_bytes line ≡ line_of_adapter fault.now) }
{
    match fault {
        AdapterFault::Frame(fault) => at_offset(alloc, refusal_name(fault.cause), fault.offset),
        AdapterFault::Body { cause, offset } => {
            at_offset(alloc, body_refusal_name(*cause), *offset)
        }
        AdapterFault::RepeatedSeq { .. } => named(alloc, "RepeatedSeq"),
        AdapterFault::Unmatched { .. } => named(alloc, "Unmatched"),
        AdapterFault::CommandMismatch { .. } => named(alloc, "CommandMismatch"),
        AdapterFault::Ended => named(alloc, "Ended"),
        AdapterFault::SeqExhausted => named(alloc, "SeqExhausted"),
        AdapterFault::OutOfMemory => named(alloc, "OutOfMemory"),
    }
}

fn serve_line(alloc: Global, fault: &ServeFault) -> Result<String, AllocError>
    ensures { IfOk result (λ line. string_bytes line ≡ line_of_serve fault.now) }
{
    match fault {
        ServeFault::Read => named(alloc, "Read"),
        ServeFault::Write { .. } => named(alloc, "Write"),
        ServeFault::Adapter(fault) => adapter_line(alloc, fault),
        ServeFault::TooManyReads => named(alloc, "TooManyReads"),
        ServeFault::OutOfMemory => named(alloc, "OutOfMemory"),
    }
}

fn recording_line(alloc: Global, fault: &RecordingFault) -> Result<String, AllocError>
    ensures { IfOk result (λ line. string_bytes line ≡ line_of_recording fault.now) }
{
    match fault {
        RecordingFault::NotJson => named(alloc, "NotJson"),
        RecordingFault::NotObject => named(alloc, "NotObject"),
        RecordingFault::BadKey { .. } => named(alloc, "BadKey"),
        RecordingFault::OutOfMemory => named(alloc, "OutOfMemory"),
    }
}

fn show_line(alloc: Global, fault: &ShowFault) -> Result<String, AllocError>
    ensures { IfOk result (λ line. string_bytes line ≡ line_of_show fault.now) }
{
    match fault {
        ShowFault::Frame(fault) => at_offset(alloc, refusal_name(fault.cause), fault.offset),
        ShowFault::Body { cause, offset, .. } => {
            at_offset(alloc, body_refusal_name(*cause), *offset)
        }
        ShowFault::OutOfMemory => named(alloc, "OutOfMemory"),
    }
}

fn wrap_line(alloc: Global, fault: &WrapFault) -> Result<String, AllocError>
    ensures { IfOk result (λ line. string_bytes line ≡ line_of_wrap fault.now) }
{
    match fault {
        WrapFault::Body { cause, line } => at_line(alloc, body_refusal_name(*cause), *line),
        WrapFault::BodyTooLong { line } => at_line(alloc, "BodyTooLong", *line),
        WrapFault::OutOfMemory => named(alloc, "OutOfMemory"),
    }
}

fn check_line(alloc: Global, fault: &CheckFault) -> Result<String, AllocError>
    ensures { IfOk result (λ line. string_bytes line ≡ line_of_check fault.now) }
{
    match fault {
        CheckFault::BadLine { line } => at_line(alloc, "BadLine", *line),
        CheckFault::Body { line, cause } => at_line(alloc, body_refusal_name(*cause), *line),
        CheckFault::OutOfMemory => named(alloc, "OutOfMemory"),
    }
}

fn drive_line(alloc: Global, fault: &DriveFault) -> Result<String, AllocError>
    ensures { IfOk result (λ line. string_bytes line ≡ line_of_drive fault.now) }
{
    match fault {
        DriveFault::Recording => named(alloc, "Recording"),
        DriveFault::Script { line } => at_line(alloc, "Script", *line),
        DriveFault::Call { line } => at_line(alloc, "Call", *line),
        DriveFault::Send { line, cause } => at_line(alloc, send_fault_name(*cause), *line),
        DriveFault::Adapter => named(alloc, "Adapter"),
        DriveFault::Client => named(alloc, "Client"),
        DriveFault::OutOfMemory => named(alloc, "OutOfMemory"),
    }
}

fn file_line(alloc: Global, fault: &FileFault) -> Result<String, AllocError>
    ensures { IfOk result (λ line. string_bytes line ≡ line_of_file fault.now) }
{
    match fault {
        FileFault::Read => named(alloc, "Read"),
        FileFault::FileTooLong => named(alloc, "FileTooLong"),
        FileFault::OutOfMemory => named(alloc, "OutOfMemory"),
    }
}

/// The line, with its line feed, that a program writes of a fault: the innermost name, and the offset in bytes or the
/// line's number where there is one.
pub fn fault_line(alloc: Global, fault: &ToolFault) -> Result<Vec<u8>, AllocError>
    ensures { IfOk result (λ line. line.items ≡ line_of fault.now) }
{
    let line = match fault {
        ToolFault::Serve(fault) => serve_line(alloc, fault)?,
        ToolFault::Recording(fault) => recording_line(alloc, fault)?,
        ToolFault::Show(fault) => show_line(alloc, fault)?,
        ToolFault::Wrap(fault) => wrap_line(alloc, fault)?,
        ToolFault::Check(fault) => check_line(alloc, fault)?,
        ToolFault::Drive(fault) => drive_line(alloc, fault)?,
        ToolFault::Open(_) => named(alloc, "Read")?,
        ToolFault::File(fault) => file_line(alloc, fault)?,
        ToolFault::Truncated => named(alloc, "Truncated")?,
        ToolFault::Write => named(alloc, "Write")?,
        ToolFault::OutOfMemory => named(alloc, "OutOfMemory")?,
    };
    Ok(line.into_bytes())
}
