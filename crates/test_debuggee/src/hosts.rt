//! Moments that a host tells, over the sources of a file of two lines, and the files that have sources.

use crate::telling::{add_frames, add_sources};
use dap_json::{Tree, parse};
use dap_recording::{Recording, RecordingFault, Snapshot, Sources, Texts};
use std::alloc::Global;

const SOURCES: &str = r#"[{"name":"a.c","text":"one\ntwo\n"}]"#;

/// A moment of one thread, but for its frames.
const MOMENT: &str = r#"{"thread":1,"threads":[{"id":1,"name":"main","frames":[FRAMES]}]}"#;

fn tree(alloc: Global, text: &str) -> Option<Tree> {
    match parse(alloc, text.as_bytes()) {
        Ok(value) => Some(Tree::new(value)),
        Err(_) => None,
    }
}

/// The moment with these frames.
fn moment(alloc: Global, frames: &str) -> Option<Tree> {
    let (before, after) = MOMENT.split_once("FRAMES")?;
    let text = format!(in alloc; "{before}{frames}{after}").ok()?;
    tree(alloc, text.as_str())
}

/// Whether the frames of thread 1 are these.
fn is_shown(alloc: Global, shows: &Snapshot, wanted: &str) -> bool {
    let Ok(frames) = shows.frames(alloc, 1) else {
        return false;
    };
    let mut told = String::new(alloc);
    add_frames(&mut told, &frames) && told.as_str() == wanted
}

/// Whether its frames are told so, or it is refused for this key.
fn is_read(alloc: Global, frames: &str, wanted: &str) -> bool {
    let (Some(sources), Some(moment)) = (tree(alloc, SOURCES), moment(alloc, frames)) else {
        return false;
    };
    let Ok(mut texts) = Texts::new(alloc, 0) else {
        return false;
    };
    let Ok(sources) = Sources::read(&mut texts, &sources) else {
        return false;
    };
    match Snapshot::read(&mut texts, &sources, &moment) {
        Ok(shows) => is_shown(alloc, &shows, wanted),
        Err(RecordingFault::BadKey { key }) => key.name() == wanted,
        Err(_) => false,
    }
}

static FRAMES: [(&str, &str); 9] = [
    (r#"{"name":"f","source":0,"line":1}"#, "0 f 0 1; "),
    // Without a source the line is not looked at.
    (r#"{"name":"f"}"#, "0 f - 0; "),
    (r#"{"name":"f","line":7}"#, "0 f - 0; "),
    (r#"{"name":"f","line":"x"}"#, "0 f - 0; "),
    (
        r#"{"name":"f"},{"name":"g","source":0,"line":2}"#,
        "0 f - 0; 1 g 0 2; ",
    ),
    // A source that is there is tested.
    (r#"{"name":"f","source":null}"#, "source"),
    (r#"{"name":"f","source":1,"line":1}"#, "source"),
    (r#"{"name":"f","source":0}"#, "line"),
    (r#"{"name":"f","source":0,"line":3}"#, "line"),
];

#[test]
fn frames(rt: HostRuntime) {
    for (frames, wanted) in &FRAMES {
        assert!(rt; is_read(rt.alloc(), frames, wanted), "{frames}");
    }
}

/// A recording of one source and one moment, with a scope that comes without its variables.
const RECORDED: &str =
    r#"{"exit":0,"sources":[{"name":"a.c","path":"/a.c","text":"one\n"}],"moments":[{"thread":1,"threads":[{"id":1,"name":"main","frames":[{"name":"f","source":0,"line":1,"scopes":[{"name":"Locals"},{"name":"Globals","variables":[{"name":"x","value":"1"}]}]}]}]}]}"#;

/// Whether its sources, and once more those behind them, are shown so.
fn are_sources(alloc: Global, sources: &Sources) -> bool {
    if sources.len() != 1 || !sources.has_room(sources) {
        return false;
    }
    let Ok(two) = sources.with(alloc, sources) else {
        return false;
    };
    let Ok(all) = two.all(alloc) else {
        return false;
    };
    let mut told = String::new(alloc);
    let is_told = add_sources(&mut told, &all);
    let is_text = matches!(two.content(1), Ok(text) if text.as_str() == "one\n");
    is_told && told.as_str() == "a.ca.c" && two.len() == 2 && is_text && two.content(2).is_err()
}

/// Whether the first moment is shown so.
fn is_first(alloc: Global, shows: &Snapshot) -> bool {
    is_shown(alloc, shows, "0 f 0 1; ")
        && matches!(shows.threads(alloc), Ok(threads) if threads.len() == 1)
        && matches!(shows.scopes(alloc, 0), Ok(scopes) if scopes.len() == 2)
        && matches!(shows.children_at(1), Some(variables) if variables.len() == 1)
        && shows.children_at(2).is_none()
        && shows.is_untold(0)
        && !shows.is_untold(1)
        && shows.source_count() == 1
}

/// The first moment of a recording by itself, and its sources.
fn is_apart(alloc: Global) -> bool {
    let Ok(recording) = Recording::read(alloc, RECORDED.as_bytes()) else {
        return false;
    };
    let is_so = are_sources(alloc, &recording.sources);
    let shows = Snapshot::first_of(recording);
    is_so && is_first(alloc, &shows)
}

#[test]
fn sources_and_a_moment(rt: HostRuntime) {
    assert!(rt; is_apart(rt.alloc()));
}

/// How many sources a file has, or what it is refused for.
fn are_in_file(alloc: Global, file: &str, count: usize, key: &str) -> bool {
    let Ok(mut texts) = Texts::new(alloc, 0) else {
        return false;
    };
    match Sources::of_file(&mut texts, file.as_bytes()) {
        Ok(sources) => key.is_empty() && sources.len() == count,
        Err(RecordingFault::BadKey { key: bad }) => bad.name() == key,
        Err(RecordingFault::NotJson) => key == "JSON",
        Err(RecordingFault::NotObject) => key == "object",
        Err(RecordingFault::OutOfMemory) => false,
    }
}

static FILES: [(&str, usize, &str); 9] = [
    (RECORDED, 1, ""),
    // Nothing else is looked at, and a source needs no line.
    (r#"{"moments":7,"sources":[{"name":"a","text":""}]}"#, 1, ""),
    (r#"{"sources":[]}"#, 0, ""),
    (r#"{"sources":null}"#, 0, "sources"),
    (r#"{"exit":0}"#, 0, "sources"),
    (r#"{"sources":[7]}"#, 0, "sources"),
    (r#"{"sources":[{"name":"a"}]}"#, 0, "text"),
    ("[]", 0, "object"),
    ("{", 0, "JSON"),
];

#[test]
fn files(rt: HostRuntime) {
    for (file, count, key) in &FILES {
        assert!(rt; are_in_file(rt.alloc(), file, *count, key), "{file}");
    }
}
