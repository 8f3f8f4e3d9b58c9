//! A recording, and messages that several tests share.

ghost use Rattle.std.specs.Prelude.{◌≡◌, IfOk};
ghost use Rattle.dap_debuggee.specs.declared.answers.State.{State};

use crate::bodies::{body_of, frame_of};
use crate::outcome::Outcome;
use dap_frame::{Limits, write_frame};
use dap_recording::RecordingFault;
use dap_replay::Recorded;
use std::alloc::Global;
use std::test::Fail;

/// A run of three moments, of which the last waits.
pub static RECORDING: &[u8; 569] =
    br#"{"exit":0,"sources":[{"name":"a.c","path":"/a.c","text":"one\ntwo\nthree\n"}],"moments":[{"thread":1,"output":"go\n","threads":[{"id":1,"name":"main","frames":[{"name":"main","source":0,"line":1,"scopes":[{"name":"Locals","variables":[{"name":"x","value":"1"},{"name":"p","value":"P","variables":[{"name":"a","value":"7"}]}]}]}]}]},{"thread":1,"threads":[{"id":1,"name":"main","frames":[{"name":"f","source":0,"line":3},{"name":"main","source":0,"line":1}]}]},{"thread":1,"waits":true,"threads":[{"id":1,"name":"main","frames":[{"name":"main","source":0,"line":2}]}]}]}"#;

pub static INITIALIZE: &[u8; 81] =
    br#"{"seq":1,"type":"request","command":"initialize","arguments":{"adapterID":"rec"}}"#;

pub static INITIALIZED: &[u8; 46] = br#"{"event":"initialized","seq":2,"type":"event"}"#;

pub static THREADS: &[u8; 46] = br#"{"seq":1,"type":"request","command":"threads"}"#;

/// The answer to `THREADS` of an adapter that is not initialized.
pub static NOT_INITIALIZED: &[u8; 178] =
    br#"{"body":{"error":{"format":"The session is not initialized.","id":1001}},"command":"threads","message":"notInitialized","request_seq":1,"seq":1,"success":false,"type":"response"}"#;

/// The frames that answer `INITIALIZE`: what the adapter offers, then `INITIALIZED`.
pub fn answer_to_initialize(alloc: Global) -> Option<Vec<u8>> {
    let body = body_of(alloc, "capabilities seq 1 to 1").ok()?;
    let mut frames = frame_of(alloc, &body).ok()?;
    write_frame(&mut frames, INITIALIZED).ok()?;
    Some(frames)
}

/// The debuggee of a recording, or what there is in its place.
pub fn debuggee_of(alloc: Global, recording: &[u8]) -> Result<Recorded, Outcome>
    ensures { IfOk result (λ debuggee. debuggee.state ≡ State.NotStarted) }
{
    match Recorded::read(alloc, recording) {
        Ok(debuggee) => Ok(debuggee),
        Err(RecordingFault::OutOfMemory) => Err(Outcome::Refused),
        Err(_) => Err(Outcome::Wrong),
    }
}

/// These limits, in the order of `Limits::new`, all within their ranges.
pub fn limits(h: u64, b: u64, n: u64, r: u64, k: u64, s: u64, m: u64) -> Result<Limits, Fail> {
    match Limits::new(h, b, n, r, k, s, m) {
        Ok(limits) => Ok(limits),
        Err(_) => Err(Fail::from("limits")),
    }
}
