//! A debugger of one's own, as an example: it runs a program of twelve lines, and serves it to an editor.
//!
//! `docs/OWN_DEBUGGER.md` goes through it.
#![tactic(auto)]

mod call;
pub mod laws;
mod news;
mod program;
mod queries;
mod session;
mod toy;

use crate::session::Session;
use dap_channel::Pipe;
use std::io;
use std::process::ExitCode;

/// Serves the program from standard input to standard output. The status is 1 where the session broke off.
fn main(rt: HostRuntime) -> ExitCode {
    let mut pipe = Pipe::new(rt.reader(), io::writer(&rt));
    let Some(mut session) = Session::open(rt.alloc()) else {
        return ExitCode::FAILURE;
    };
    match session.serve(&mut pipe) {
        Some(()) => ExitCode::SUCCESS,
        None => ExitCode::FAILURE,
    }
}
