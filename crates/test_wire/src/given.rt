//! The references that bodies give, gathered beside the heading with no tree.

use crate::checks::check;
use dap_command::{GatheredReferences, GivenObjects};
use dap_envelope::read_heading_and_references;
use dap_json::object_reader::Scratch;

/// Bodies that are read one after another, and the frames that each gives.
static FRAMES: [(&str, &[u64]); 4] = [
    // Frames without an id, or with one out of its range, are passed over; a key may have escapes.
    (
        r#"{"seq":1,"type":"response","request_seq":1,"success":true,"command":"stackTrace","body":{"stackFrames":[{"id":0},{},{"id":2147483647},{"id":2147483648},{"id":-1},{"id":1.0},{"id":"7"},{"x":{"id":8},"i\u0064":5}],"totalFrames":9}}"#,
        &[0, 2147483647, 5],
    ),
    // Of equal keys the last counts.
    (
        r#"{"body":{"stackFrames":[{"id":1}],"stackFrames":[{"id":2,"id":3},{"id":4,"id":null}]},"seq":1,"type":"event","event":"e"}"#,
        &[3],
    ),
    (
        r#"{"body":{"stackFrames":[{"id":1}]},"seq":1,"type":"event","event":"e","body":{}}"#,
        &[],
    ),
    // What an earlier body gave is forgotten.
    (r#"{"seq":1,"type":"event","event":"e"}"#, &[]),
];

/// Whether a body is read.
fn is_read(scratch: &mut Scratch, given: &mut GatheredReferences, body: &str) -> bool {
    read_heading_and_references(scratch, given, body.as_bytes()).is_some()
}

#[test]
fn gathers_frames(rt: HostRuntime) {
    let mut scratch = Scratch::new(rt.alloc());
    let mut given = GatheredReferences::new(rt.alloc());
    for (body, frames) in &FRAMES {
        check(&rt, is_read(&mut scratch, &mut given, body), *body);
        check(&rt, given.numbers(GivenObjects::Frames) == *frames, *body);
    }
    drop(given);
    drop(scratch);
}

/// What a body may give, and the numbers that the body of `gathers_holders` gives of it.
static HOLDERS: [(GivenObjects, &[u64]); 5] = [
    (GivenObjects::Scopes, &[2]),
    (GivenObjects::Variables, &[2147483647, 3]),
    (GivenObjects::Value, &[7]),
    (GivenObjects::Frames, &[]),
    (GivenObjects::Nothing, &[]),
];

#[test]
fn gathers_holders(rt: HostRuntime) {
    let mut scratch = Scratch::new(rt.alloc());
    let mut given = GatheredReferences::new(rt.alloc());
    let body =
        r#"{"body":{"scopes":[{"variablesReference":2},{"variablesReference":0}],"variables":[{"name":"a","value":"\"","variablesReference":2147483647},{"variablesReference":2147483648},{"variablesReference":3}],"variablesReference":7},"command":"scopes","type":"response","seq":1,"request_seq":1,"success":true}"#;
    check(&rt, is_read(&mut scratch, &mut given, body), body);
    for (objects, holders) in &HOLDERS {
        check(&rt, given.numbers(*objects) == *holders, body);
    }
    given.clear();
    check(
        &rt,
        given.numbers(GivenObjects::Variables).is_empty(),
        "cleared",
    );
    drop(given);
    drop(scratch);
}

/// There a message's tree has to be looked at, or it is no message.
static ODD: [&str; 9] = [
    r#"{"seq":1,"type":"event","event":"e","body":null}"#,
    r#"{"seq":1,"type":"event","event":"e","body":[]}"#,
    r#"{"seq":1,"type":"event","event":"e","body":{"variables":null}}"#,
    r#"{"seq":1,"type":"event","event":"e","body":{"scopes":{}}}"#,
    r#"{"seq":1,"type":"event","event":"e","body":{"stackFrames":[[]]}}"#,
    r#"{"seq":1,"type":"event","event":"e","body":{"stackFrames":[{}}}"#,
    r#"{"seq":1,"type":"event","event":"e","body":{"x":1e999}}"#,
    r#"{"seq":1,"type":"event","body":{}}"#,
    r#"{"seq":1,"type":"event","event":"e","body":{}}]"#,
];

#[test]
fn tells_nothing_of_odd_bodies(rt: HostRuntime) {
    let mut scratch = Scratch::new(rt.alloc());
    let mut given = GatheredReferences::new(rt.alloc());
    for body in &ODD {
        check(&rt, !is_read(&mut scratch, &mut given, body), *body);
    }
    drop(given);
    drop(scratch);
}
