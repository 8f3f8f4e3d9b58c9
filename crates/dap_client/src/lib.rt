//! The client's end of a Debug Adapter Protocol session: what an editor or a test tool holds.
//!
//! Overview and Specification. Requests go out by `send`, and bytes of the adapter come in by `take`, in any pieces; each
//! call hands out the bytes that it writes. Nothing here reads, writes or waits. An editor's loop does so:
//!
//! - **To ask something**: `send` the call, write the `bytes` of what it answers, all of them and in order, and remember
//!   its `seq`: the response names it as `request_seq`. A refusal of `send` changes nothing and closes nothing: tell the
//!   user, or try again once the phase has changed.
//! - **Bytes came**: give them to `take`. It uses those up to the end of one frame at most, so call it again with what is
//!   left of the piece until none is left. Write its `bytes` before anything else is sent: they answer a request of the
//!   adapter that the client refuses by itself.
//! - **A message was delivered**: the client has counted it already, so that `phase`, `ready` and `capabilities` are those
//!   after it. A response is looked up by its `request_seq`; an event is shown.
//! - **The adapter asks for a terminal**: a request `runInTerminal` was delivered, and `bytes` is empty. So it is kept, and
//!   waits for `answer`. Read its arguments by `dap_call::read_terminal`, run `args` in `cwd`, and give the message's
//!   `seq` and what became of it to `answer`; write the bytes. Adapters answer `launch` only after that. It is kept where the
//!   last `initialize` that was sent says `supports_run_in_terminal_request`, its arguments are good, and fewer are kept than
//!   may be. Any other request of the adapter was answered by the failure that `bytes` holds.
//! - **`take` refuses**: the adapter broke the protocol, or memory ran out. Show the fault and close the stream. Every later
//!   `take` answers the same fault, and every `send` and `answer` answers `Ended`, also where requests are kept.
//! - **To end**: `send` `Disconnect`, go on with `take` until its response came or the stream ended, then close it. The
//!   stream ended on a border of two messages where `held` is 0.
#![tactic(auto)]

mod answering;
mod change;
mod changes;
mod client;
mod fault;
mod got;
pub mod laws;
mod phase;
mod response_references;
mod sending;
mod session;
mod signal;
mod table;
mod taking;
mod terminal;

pub use client::Client;
pub use fault::{AnswerFault, ClientFault, SendFault};
pub use got::{Got, Sent};
pub use phase::Phase;
pub use terminal::Terminal;
