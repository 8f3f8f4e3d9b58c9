//! The codes that calls answer. A number has one meaning in all calls. `scripts/make-c` puts them into the header.

/// The call did what it says.
pub const YT_OK: u32 = 0;

/// A body is ready.
pub const YT_READY: u32 = 1;

/// A line breaks a rule.
pub const YT_FINDING: u32 = 2;

/// The stream ends within a frame.
pub const YT_TRUNCATED: u32 = 3;

/// No request waits.
pub const YT_IDLE: u32 = 4;

/// `disconnect` was sent, or the end is closed.
pub const YT_ENDED: u32 = 11;

/// The phase does not let the command be sent, nor merely waits for a stop, or does not let the event be told, or the client be asked.
pub const YT_WRONG_PHASE: u32 = 12;

/// The adapter does not offer the command.
pub const YT_NOT_SUPPORTED: u32 = 13;

/// The command is sent in a stop, and the debuggee is not stopped.
pub const YT_NOT_STOPPED: u32 = 14;

/// A reference among the arguments is not known.
pub const YT_UNKNOWN_REFERENCE: u32 = 15;

/// The body would be longer than the limit.
pub const YT_TOO_LARGE: u32 = 16;

/// As many requests are outstanding as there may be.
pub const YT_FULL: u32 = 17;

/// No own sequence number is left.
pub const YT_SEQ_EXHAUSTED: u32 = 18;

/// No request of the adapter with this number is kept.
pub const YT_NOT_KEPT: u32 = 19;

/// An event that says what a client may do next is not told by its name.
pub const YT_RESERVED: u32 = 20;

/// No request with this number is lent.
pub const YT_NOT_LENT: u32 = 21;

/// The name of a command has more than 64 bytes.
pub const YT_BAD_NAME: u32 = 22;

/// The stream is no frame.
pub const YT_FRAME: u32 = 31;

/// A body is no message.
pub const YT_BODY: u32 = 32;

/// A response answers no request that is outstanding.
pub const YT_UNMATCHED: u32 = 33;

/// A response names another command than its request.
pub const YT_COMMAND_MISMATCH: u32 = 34;

/// A request has the number of one that is kept.
pub const YT_REPEATED_SEQ: u32 = 35;

/// More references would be known than there may be.
pub const YT_REFERENCE_LIMIT: u32 = 36;

/// A line is of neither side.
pub const YT_BAD_LINE: u32 = 41;

/// A line is no message.
pub const YT_NO_MESSAGE: u32 = 42;

/// What the host says does not happen in the state that the debuggee is in, and is dropped.
pub const YT_OUT_OF_TURN: u32 = 51;

/// What the host says is too long or too great, and is dropped.
pub const YT_OUT_OF_RANGE: u32 = 52;

/// The moment that the host shows has more sources than the debuggee, and is dropped.
pub const YT_TOO_MANY_SOURCES: u32 = 53;

/// The holder has its variables already.
pub const YT_TOLD: u32 = 54;

/// So many holders were told that there is room for no more.
pub const YT_TOO_MANY_HOLDERS: u32 = 55;

/// The handle holds nothing.
pub const YT_NONE: u32 = 100;

/// A limit is out of its range.
pub const YT_BAD_LIMITS: u32 = 101;

/// There is no such command.
pub const YT_BAD_COMMAND: u32 = 102;

/// An argument is out of its range, or is not of its form.
pub const YT_BAD_ARGUMENTS: u32 = 103;

/// Memory was refused.
pub const YT_NO_MEMORY: u32 = 104;

/// The buffer is too small, and nothing was put into it.
pub const YT_SMALL: u32 = 105;

/// There is nothing to put.
pub const YT_NOTHING: u32 = 106;

/// The bytes are no moment over the sources, or no JSON object with sources.
pub const YT_BAD_RECORDING: u32 = 107;
