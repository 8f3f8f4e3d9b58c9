//! Why a connection gives nothing.

use dap_client::{AnswerFault, ClientFault, SendFault};

/// Why a call of a connection gives nothing. After `Send` and `Answer` it goes on; each other fault closes it.
#[derive(Clone, Copy, Debug, PartialEq, Eq)]
pub enum ConnectionFault {
    /// The call is not sent. Nothing has changed.
    Send(SendFault),
    /// The request of the adapter is not answered. Nothing has changed.
    Answer(AnswerFault),
    /// What came closes the client.
    Client(ClientFault),
    /// The input ended before the response came.
    Ended,
    /// A read failed.
    Read,
    /// A write or a flush failed, or a write took nothing. So many bytes went out in all.
    Write { written: u64 },
    /// As many other messages came before the response as may be kept.
    TooManyMessages,
    /// As many reads were made as may be.
    TooManyReads,
    /// Memory was refused.
    OutOfMemory,
}
