//! Recordings that are read, and why others are not.

use crate::playing::{THREE_MOMENTS, is_moved, is_played, three_moments};
use dap_debuggee::{Debuggee, Frame, Happening, How};
use dap_recording::{RecordingFault, RecordingKey};
use dap_replay::Recorded;
use std::alloc::Global;
use std::fmt::Write;

/// Why bytes are no recording; `None` where they are one.
pub(crate) fn refusal(alloc: Global, bytes: &[u8]) -> Option<RecordingFault> {
    match Recorded::read(alloc, bytes) {
        Ok(recorded) => {
            // The proof of a call is shorter than that of a value that goes out of scope.
            drop(recorded);
            None
        }
        Err(fault) => Some(fault),
    }
}

/// How many sources a recording has after some words, if these are answered so.
fn sources_after(
    alloc: Global,
    recorded: &mut Recorded,
    words: &str,
    wanted: &str,
) -> Option<usize> {
    if !is_played(alloc, recorded, words, wanted) {
        return None;
    }
    match recorded.sources(alloc) {
        Ok(sources) => Some(sources.len()),
        Err(_) => None,
    }
}

/// How many sources the recording has after its exit.
fn sources_at_the_exit(alloc: Global) -> Option<usize> {
    let mut recorded = three_moments(alloc)?;
    let count = sources_after(
        alloc,
        &mut recorded,
        "start poll poll stepIn poll stepIn poll stepIn poll",
        "done; stdout 3 go\n; entry 1 line 1; done; step 1 line 3; done; step 1 line 2; done; exited 0; ",
    );
    drop(recorded);
    count
}

/// It has one source and three moments.
#[test]
fn reads_a_recording(rt: HostRuntime) {
    assert!(rt; sources_at_the_exit(rt.alloc()) == Some(1));
}

/// A run that goes on is held at the third moment, not at the second.
#[test]
fn the_last_moment_waits(rt: HostRuntime) {
    assert!(rt;
        is_moved(
            rt.alloc(),
            THREE_MOMENTS,
            "start poll poll continue poll pause poll",
            "done; stdout 3 go\n; entry 1 line 1; done; nothing; done; pause 1 line 2; "
        )
    );
}

/// Appends the objects of frames, one after the other.
fn add_objects(text: &mut String, frames: &[Frame]) -> bool {
    for frame in frames {
        let object = frame.object;
        if write!(text, "{object} ").is_err() {
            return false;
        }
    }
    true
}

/// Whether the frames of the thread have these objects.
fn are_objects(alloc: Global, recorded: &Recorded, wanted: &str) -> bool {
    let mut text = String::new(alloc);
    let is_told = match recorded.frames(alloc, 1) {
        Ok(frames) => add_objects(&mut text, &frames),
        Err(_) => false,
    };
    is_told && text.as_str() == wanted
}

/// Whether a holder is there.
fn is_holder(alloc: Global, recorded: &Recorded, holder: u64) -> bool {
    match recorded.children(alloc, holder, 0, 0) {
        Ok(children) => {
            drop(children);
            true
        }
        Err(_) => false,
    }
}

/// Whether a frame is there.
fn is_frame(alloc: Global, recorded: &Recorded, frame: u64) -> bool {
    match recorded.scopes(alloc, frame) {
        Ok(scopes) => {
            drop(scopes);
            true
        }
        Err(_) => false,
    }
}

/// Whether there are two holders, or none.
fn are_holders(alloc: Global, recorded: &Recorded, wanted: bool) -> bool {
    is_holder(alloc, recorded, 0) == wanted
        && is_holder(alloc, recorded, 1) == wanted
        && !is_holder(alloc, recorded, 2)
}

/// Words, their answers, the frames' numbers after them, and whether there are two holders then.
static NUMBERED: [(&str, &str, &str, bool); 3] = [
    (
        "start poll poll",
        "done; stdout 3 go\n; entry 1 line 1; ",
        "0 ",
        true,
    ),
    ("stepIn poll", "done; step 1 line 3; ", "1 2 ", false),
    ("stepIn poll", "done; step 1 line 2; ", "3 ", false),
];

/// The first wanted numbers that are others after their words.
fn first_other_of(alloc: Global, recorded: &mut Recorded) -> &'static str {
    for (words, answers, wanted, has_holders) in &NUMBERED {
        let is_right = is_played(alloc, recorded, words, answers)
            && are_objects(alloc, recorded, wanted)
            && are_holders(alloc, recorded, *has_holders)
            && !is_frame(alloc, recorded, 4);
        if !is_right {
            return *wanted;
        }
    }
    ""
}

/// The same for a fresh run.
fn first_other(alloc: Global) -> &'static str {
    match three_moments(alloc) {
        Some(mut recorded) => {
            let other = first_other_of(alloc, &mut recorded);
            drop(recorded);
            other
        }
        None => "no recording",
    }
}

/// Frames and holders count over the whole recording: four frames, and two holders at the first stop.
#[test]
fn numbers_frames(rt: HostRuntime) {
    let other = first_other(rt.alloc());
    assert!(rt; other == "", "{other}");
}

/// A run of one moment. Its keys come in the usual order, in another one, again, with other keys between them, and escaped; of
/// equal keys the last counts.
static ORDERS: [&str; 5] = [
    r#"{"exit":3,"sources":[{"name":"a.c","text":"one\ntwo\n"}],"moments":[{"thread":1,"output":"go\n","threads":[{"id":1,"name":"main","frames":[{"name":"main","source":0,"line":2}]}]}]}"#,
    r#"{"moments":[{"thread":1,"output":"go\n","threads":[{"id":1,"name":"main","frames":[{"name":"main","source":0,"line":2}]}]}],"sources":[{"name":"a.c","text":"one\ntwo\n"}],"exit":3}"#,
    r#"{"exit":9,"sources":[],"x":[{}],"exit":3,"sources":[{"name":"a.c","text":"one\ntwo\n"}],"moments":[{}],"moments":[{"thread":1,"output":"go\n","threads":[{"id":1,"name":"main","frames":[{"name":"main","source":0,"line":2}]}]}]}"#,
    r#"{"sources":[{"name":"b.c","text":"one\ntwo\n"}],"moments":[{"thread":1,"output":"go\n","threads":[{"id":1,"name":"main","frames":[{"name":"main","source":0,"line":2}]}]}],"sources":[{"name":"a.c","text":"one\ntwo\n"}],"exit":3}"#,
    r#"{"ex\u0069t":3,"source\u0073":[{"name":"a.c","text":"one\ntwo\n"}],"mom\u0065nts":[{"thread":1,"output":"go\n","threads":[{"id":1,"name":"main","frames":[{"name":"ma\u0069n","source":0,"line":2}]}]}]}"#,
];

/// In whatever order its keys come, it is the same run.
#[test]
fn reads_keys_in_any_order(rt: HostRuntime) {
    for (place, recording) in ORDERS.iter().enumerate() {
        assert!(rt;
            is_moved(
                rt.alloc(),
                recording,
                "start poll poll stepIn poll",
                "done; stdout 3 go\n; entry 1 line 2; done; exited 3; "
            ),
            "row {place}"
        );
    }
}

static REFUSED: [(&[u8], RecordingFault); 11] = [
    (
        br#"{"moments":[],"sources":[],"exit":0}"#,
        RecordingFault::BadKey {
            key: RecordingKey::Moments,
        },
    ),
    (
        br#"{"moments":[],"sources":1}"#,
        RecordingFault::BadKey {
            key: RecordingKey::Exit,
        },
    ),
    (
        br#"{"exit":0,"sources":[],"moments":[]}]"#,
        RecordingFault::NotJson,
    ),
    (b"\"\xff\"", RecordingFault::NotJson),
    (b"{", RecordingFault::NotJson),
    (b"", RecordingFault::NotJson),
    (br#"{"exit":1e999}"#, RecordingFault::NotJson),
    (b"[]", RecordingFault::NotObject),
    (b"null", RecordingFault::NotObject),
    (
        br#"{"exit":0,"sources":[],"moments":[]}"#,
        RecordingFault::BadKey {
            key: RecordingKey::Moments,
        },
    ),
    (
        b"{}",
        RecordingFault::BadKey {
            key: RecordingKey::Exit,
        },
    ),
];

#[test]
fn refuses_what_is_no_recording(rt: HostRuntime) {
    for (place, (bytes, fault)) in REFUSED.iter().enumerate() {
        assert!(rt; refusal(rt.alloc(), bytes) == Some(*fault), "row {place}");
    }
}

/// Appends a recording with so many sources and no moments.
fn add_recording(text: &mut String, count: usize) -> bool {
    if text
        .push_str(r#"{"exit":0,"sources":[{"name":"","text":""}"#)
        .is_err()
    {
        return false;
    }
    for _ in 1..count {
        if text.push_str(r#",{"name":"","text":""}"#).is_err() {
            return false;
        }
    }
    text.push_str("]}").is_ok()
}

/// Whether a recording with so many sources is refused for this key.
fn is_counted(alloc: Global, count: usize, key: RecordingKey) -> bool {
    let mut text = String::new(alloc);
    let is_whole = add_recording(&mut text, count);
    let fault = refusal(alloc, text.as_str().as_bytes());
    is_whole && fault == Some(RecordingFault::BadKey { key })
}

/// At most 65536 sources.
#[test]
fn counts_the_sources(rt: HostRuntime) {
    assert!(rt; is_counted(rt.alloc(), 65536, RecordingKey::Moments));
    assert!(rt; is_counted(rt.alloc(), 65537, RecordingKey::Sources));
}

/// Whether a poll tells a stop; nothing for want of memory.
fn is_stop(alloc: Global, recorded: &mut Recorded) -> Option<bool> {
    match recorded.poll(alloc) {
        Ok(Happening::Stopped { .. }) => Some(true),
        Ok(_) => Some(false),
        Err(_) => None,
    }
}

/// How often a recording stops that is stepped from its start to its exit; nothing for want of memory.
fn stops(alloc: Global, recorded: &mut Recorded) -> Option<u64> {
    let mut count = 0u64;
    let _started = recorded.start(alloc);
    for _ in 0..10 {
        if is_stop(alloc, recorded)? {
            count = count.saturating_add(1);
            let _resumed = recorded.resume(alloc, How::StepIn, 1);
        }
    }
    Some(count)
}

/// Whether the recording is read and stops three times, where memory is not refused.
fn is_read_or_refused(alloc: Global) -> bool {
    match Recorded::read(alloc, THREE_MOMENTS.as_bytes()) {
        Err(fault) => fault == RecordingFault::OutOfMemory,
        Ok(mut recorded) => {
            let count = stops(alloc, &mut recorded);
            drop(recorded);
            count.is_none() || count == Some(3)
        }
    }
}

/// For `rt try --test --fail-alloc N`: the recording with its three moments, or want of memory.
#[test]
fn reads_or_runs_out_of_memory(rt: HostRuntime) {
    assert!(rt; is_read_or_refused(rt.alloc()));
}
