//! The library for programs in C, and in whatever can call C.
//!
//! Each export calls the library's own function, and has its clauses over the value behind the handle. What the library
//! holds between two calls is behind a handle that the caller keeps: two words, all zero where nothing is held. Bytes come
//! in by a pointer and a length, and go out by a copy into the caller's buffer, whose length a call before has told.
//! Nothing here is global, calls back, starts a thread, reads or writes. `docs/C.md` has the calls in a table.
//!
//! A file a concern. The adapter's end is in `dap_c_adapter`; what both share, as the codes, is in `dap_c_parts`.
#![tactic(auto)]

mod call;
mod check;
mod client;
mod client_handle;
mod client_state;
mod frames;
mod frames_handle;
mod heading;
mod held_client;
mod layout;
mod limits;
mod write;

pub use check::{YtVerdict, yt_check, yt_explain};
pub use client::{
    YtSent, yt_client_answer, yt_client_bytes, yt_client_frame, yt_client_free, yt_client_open,
    yt_client_send, yt_client_take,
};
pub use client_handle::{ClientHandle, YtClient};
pub use client_state::{YtCapabilities, YtClientSeen, yt_client_capabilities, yt_client_state};
pub use frames::{
    YtFed, yt_frames_body, yt_frames_feed, yt_frames_finish, yt_frames_free, yt_frames_open,
    yt_frames_release,
};
pub use frames_handle::{FramesHandle, YtFrames};
pub use heading::{YtHeadingFound, yt_heading};
pub use held_client::HeldClient;
pub use layout::{YtSizes, yt_sizes_of};
pub use limits::yt_limits_usual;
pub use write::yt_frame;
