//! The adapter's end for programs in C, over a debuggee that the caller feeds: a debugger in another language.
//!
//! It is of the same kind as `dap_c`, whose head says how. The host is not called: it fetches what it has to do, and says what
//! happened. A file a concern: `adapter` has the session, `telling` what the host says, `beside` what it says beside that,
//! `output` under which name and in which pieces, `no_value` why a text has none, `ahead` what it says of what is asked next,
//! `emitting` has the events that it tells by their names, `lending` the requests of commands that it answers, `asking` those by
//! which it asks the client, `acts` what it has to do.
#![tactic(auto)]

mod acts;
mod adapter;
mod adapter_handle;
mod adapter_layout;
mod adapter_state;
mod ahead;
mod asking;
mod beside;
mod emitting;
mod held_adapter;
mod lending;
mod no_value;
mod output;
mod telling;

pub use acts::{
    YtAct, yt_adapter_act, yt_adapter_lines, yt_adapter_name, yt_adapter_source, yt_adapter_value,
};
pub use adapter::{
    yt_adapter_bytes, yt_adapter_frame, yt_adapter_free, yt_adapter_open, yt_adapter_open_commands,
    yt_adapter_open_with, yt_adapter_take, yt_adapter_turn,
};
pub use adapter_handle::{AdapterHandle, YtAdapter};
pub use adapter_layout::{YtAdapterSizes, yt_adapter_sizes_of};
pub use adapter_state::{YtAdapterSeen, YtTarget, yt_adapter_state, yt_adapter_target};
pub use ahead::yt_adapter_ahead;
pub use asking::{yt_adapter_ask, yt_adapter_asked_by_name};
pub use beside::{yt_adapter_learned_with, yt_adapter_output_with, yt_adapter_variable_with};
pub use emitting::yt_adapter_emit;
pub use held_adapter::HeldAdapter;
pub use lending::{YtLent, yt_adapter_lent, yt_adapter_lent_command, yt_adapter_respond};
pub use no_value::yt_adapter_no_value;
pub use output::{yt_adapter_output_named, yt_output_piece};
pub use telling::{
    yt_adapter_continued, yt_adapter_exited, yt_adapter_learned, yt_adapter_output,
    yt_adapter_sources, yt_adapter_stopped, yt_adapter_stopped_with, yt_adapter_variable,
    yt_adapter_variables,
};
