//! The greatest sizes, with ample memory: nothing is refused.

use dap_command::SourceKey;
use dap_debuggee::Debuggee;
use dap_frame::{End, Limits, write_frame};
use dap_json::Text;
use dap_replay::Recorded;
use dap_tool::show;
use std::alloc::Global;

/// Appends the body of an event of the greatest length.
fn add_body(body: &mut Vec<u8>) -> bool {
    body.extend_from_slice(br#"{"seq":3,"type":"event","event":"a","body":""#)
        .is_ok()
        && body.resize(4194302, b'a').is_ok()
        && body.extend_from_slice(br#""}"#).is_ok()
}

/// Appends 15 frames of a body.
fn add_frames(file: &mut Vec<u8>, body: &[u8]) -> bool {
    for _ in 0..15 {
        if write_frame(file, body).is_err() {
            return false;
        }
    }
    true
}

/// Appends a file of 15 events with bodies of the greatest length.
fn add_file(alloc: Global, file: &mut Vec<u8>) -> bool {
    let mut body = Vec::new(alloc);
    add_body(&mut body) && add_frames(file, &body)
}

/// Whether a listing has a line for each event.
fn has_lines(listing: &[u8]) -> bool {
    listing.iter().filter(|byte| **byte == b'\n').count() == 15
        && listing.starts_with(b"0 3 event a\n4194331 3 event a\n")
        && listing.ends_with(b"58720634 3 event a\n")
}

/// Whether a file is listed to its end.
fn is_listed(alloc: Global, file: &[u8]) -> bool {
    let mut listing = Vec::new(alloc);
    show(alloc, file, Limits::usual(), &mut listing) == Ok(End::Clean) && has_lines(&listing)
}

fn is_long_file_listed(alloc: Global) -> bool {
    let mut file = Vec::new(alloc);
    add_file(alloc, &mut file) && file.len() == 62914965 && is_listed(alloc, &file)
}

/// A file of 60 MB is listed.
#[test]
fn a_long_file_is_listed(rt: HostRuntime) {
    assert!(rt; is_long_file_listed(rt.alloc()));
}

/// Appends 16384 lines of 63 bytes.
fn add_text(bytes: &mut Vec<u8>) -> bool {
    for _ in 0..16384 {
        let line = b"0123456789 0123456789 0123456789 0123456789 0123456789 0123456\\n";
        if bytes.extend_from_slice(line).is_err() {
            return false;
        }
    }
    true
}

/// Appends a recording of 1 MB, whose one source has this text.
fn add_recording(bytes: &mut Vec<u8>) -> bool {
    let front = br#"{"exit":0,"sources":[{"name":"a.c","path":"/a.c","text":""#;
    let rest =
        br#""}],"moments":[{"thread":1,"threads":[{"id":1,"name":"main","frames":[{"name":"main","source":0,"line":16384}]}]}]}"#;
    bytes.extend_from_slice(front).is_ok()
        && add_text(bytes)
        && bytes.extend_from_slice(rest).is_ok()
}

/// Appends the numbers of its last 4096 lines.
fn add_lines(lines: &mut Vec<u32>) -> bool {
    for line in 12289..16385 {
        if lines.push(line).is_err() {
            return false;
        }
    }
    true
}

/// How many bytes the text of the first source has, if it is told.
fn text_length(alloc: Global, debuggee: &Recorded) -> Option<usize> {
    match debuggee.content(alloc, 0) {
        Ok(text) => Some(text.as_str().len()),
        Err(_) => None,
    }
}

/// In how many of these lines a breakpoint stands, if that is told of each, once they are set.
fn standing(
    alloc: Global,
    debuggee: &mut Recorded,
    source: &SourceKey,
    lines: &[u32],
) -> Option<usize> {
    if debuggee.set_breakpoints(alloc, source, lines).is_err() {
        return None;
    }
    match debuggee.verify(alloc, source, lines) {
        Ok(told) if told.len() == lines.len() => {
            Some(told.iter().filter(|placed| placed.verified).count())
        }
        _ => None,
    }
}

/// Whether a debuggee tells both of that recording.
fn tells(alloc: Global, debuggee: &mut Recorded, lines: &[u32]) -> bool {
    match Text::copied(alloc, "/a.c") {
        Ok(path) => {
            text_length(alloc, debuggee) == Some(1032192)
                && standing(alloc, debuggee, &SourceKey::Path(path), lines) == Some(4096)
        }
        Err(_) => false,
    }
}

/// The same where bytes are read.
fn is_read(alloc: Global, bytes: &[u8], lines: &[u32]) -> bool {
    match Recorded::read(alloc, bytes) {
        Ok(mut debuggee) => {
            let is_told = tells(alloc, &mut debuggee, lines);
            drop(debuggee);
            is_told
        }
        Err(_) => false,
    }
}

fn is_long_recording_read(alloc: Global) -> bool {
    let mut bytes = Vec::new(alloc);
    let mut lines = Vec::new(alloc);
    add_recording(&mut bytes)
        && bytes.len() > 1048576
        && add_lines(&mut lines)
        && is_read(alloc, &bytes, &lines)
}

/// A recording of 1 MB is read; it tells the text of its source, and takes breakpoints in 4096 lines of it.
#[test]
fn a_long_recording_is_read(rt: HostRuntime) {
    assert!(rt; is_long_recording_read(rt.alloc()));
}
