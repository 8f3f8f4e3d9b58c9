//! Messages that are read with memory that is lent, one after another; and objects of which a tree is asked for.

use crate::checks::check;
use crate::messages::{is_written, nested};
use dap_envelope::{BodyFault, BodyRefusal, read_message_with};
use dap_json::object_reader::{MemberValue, ObjectReader, Scratch};
use dap_json::{Tree, write};
use std::alloc::Global;

/// Whether a body is read as a plain message that is written so.
fn is_read(alloc: Global, body: &str, scratch: &mut Scratch, text: &str) -> bool {
    match read_message_with(alloc, body.as_bytes(), scratch) {
        Ok(message) => {
            let is_so = is_written(alloc, &message, text);
            drop(message);
            is_so == Some(true)
        }
        Err(_) => false,
    }
}

static READ: [(&str, &str); 6] = [
    // Escapes, in names, in trees and in keys; a key after the body; keys that nobody reads.
    (
        r#"{"type":"ev\u0065nt","body":{"b\n":["\ud83d\ude00",{"c":"\""}]},"x":[[{}],-1.5],"seq":7,"event":"\u00e9\t"}"#,
        r#"{"body":{"b\n":["😀",{"c":"\""}]},"event":"é\t","seq":7,"type":"event"}"#,
    ),
    // Of equal keys the last counts: names, bodies, and members of a body.
    (
        r#"{"seq":1,"body":[],"event":"a","type":"request","body":{"k":1,"j":0,"k":2},"event":"b","type":"event"}"#,
        r#"{"body":{"j":0,"k":2},"event":"b","seq":1,"type":"event"}"#,
    ),
    // A body that is null is absent, also where it comes after another; `arguments` are no body.
    (
        r#"{"seq":2,"type":"response","request_seq":1,"success":true,"command":"c","message":null,"body":{},"arguments":{},"body":null}"#,
        r#"{"command":"c","request_seq":1,"seq":2,"success":true,"type":"response"}"#,
    ),
    (
        r#"{"body":[1],"arguments":null,"seq":3,"arguments":{"b":[true,null],"a":""},"command":"next","type":"request"}"#,
        r#"{"arguments":{"a":"","b":[true,null]},"command":"next","seq":3,"type":"request"}"#,
    ),
    // Whole numbers of either sign, up to the ends.
    (
        r#"{"seq":4,"type":"event","event":"e","body":[-1,0,18446744073709551615,-9223372036854775808]}"#,
        r#"{"body":[-1,0,18446744073709551615,-9223372036854775808],"event":"e","seq":4,"type":"event"}"#,
    ),
    (
        r#"{"seq":5,"type":"none","body":{"a":1}}"#,
        r#"{"seq":5,"type":"none"}"#,
    ),
];

#[test]
fn reads_one_after_another(rt: HostRuntime) {
    let mut scratch = Scratch::new(rt.alloc());
    for (body, text) in &READ {
        check(&rt, is_read(rt.alloc(), body, &mut scratch, text), *body);
    }
    drop(scratch);
}

static WRONG: [(&str, BodyRefusal); 5] = [
    (
        r#"{"seq":1,"type":"event","event":"e","body":[1e999]}"#,
        BodyRefusal::NotJson,
    ),
    (
        r#"{"seq":1,"type":"event","event":"e","body":[}}"#,
        BodyRefusal::NotJson,
    ),
    (
        r#"{"seq":1,"type":"event","event":"e","body":[]}]"#,
        BodyRefusal::NotJson,
    ),
    (
        r#"{"seq":1,"type":"event","body":[]}"#,
        BodyRefusal::BadEvent,
    ),
    (
        r#"{"seq":1,"type":"response","request_seq":1,"success":true,"command":"c","message":1,"body":[]}"#,
        BodyRefusal::BadMessage,
    ),
];

/// Whether a body is refused so.
fn is_refused(alloc: Global, body: &str, scratch: &mut Scratch, refusal: BodyRefusal) -> bool {
    match read_message_with(alloc, body.as_bytes(), scratch) {
        Ok(message) => {
            drop(message);
            false
        }
        Err(fault) => fault == BodyFault::Refused(refusal),
    }
}

#[test]
fn tells_what_is_wrong(rt: HostRuntime) {
    let mut scratch = Scratch::new(rt.alloc());
    for (body, refusal) in &WRONG {
        let refused = is_refused(rt.alloc(), body, &mut scratch, *refusal);
        check(&rt, refused, *body);
    }
    drop(scratch);
}

/// What is asked of an object, and what it has to give.
enum Step {
    Key(Option<&'static str>),
    Whole(u64),
    Other,
    Tree(&'static [u8]),
    Member(&'static str, &'static str),
}

static STEPS: [Step; 8] = [
    Step::Key(Some("a")),
    Step::Whole(1),
    Step::Key(Some("b")),
    Step::Tree(br#"[1,{"c":"A","d":-2}]"#),
    Step::Key(Some("e")),
    Step::Other,
    Step::Member("g", "x"),
    Step::Key(None),
];

fn is_tree(alloc: Global, tree: &Tree, wanted: &[u8]) -> bool {
    match write(alloc, tree.value()) {
        Ok(text) => text.as_slice() == wanted,
        Err(_) => false,
    }
}

fn gives(alloc: Global, object_reader: &mut ObjectReader<'_>, step: &Step) -> bool {
    match step {
        Step::Key(key) => matches!(object_reader.next_key(), Ok(found) if found == *key),
        Step::Whole(n) =>
            matches!(object_reader.pass(), Ok(MemberValue::Whole(found)) if found == *n),
        Step::Other => matches!(object_reader.pass(), Ok(MemberValue::Other)),
        Step::Tree(text) => match object_reader.tree(alloc) {
            Ok(tree) => {
                let is_so = is_tree(alloc, &tree, text);
                drop(tree);
                is_so
            }
            Err(_) => false,
        },
        Step::Member(key, value) => match object_reader.next() {
            Ok(Some((found, MemberValue::Text(text)))) => found == *key && text == *value,
            _ => false,
        },
    }
}

#[test]
fn gives_trees_of_members(rt: HostRuntime) {
    let text = br#"{"a":1,"b":[1,{"d":-2,"c":"\u0041"}],"e":{"f":[]},"g":"x"}"#;
    let mut scratch = Scratch::new(rt.alloc());
    match ObjectReader::open(text, &mut scratch) {
        Ok(mut object_reader) => {
            for (place, step) in STEPS.iter().enumerate() {
                check(&rt, gives(rt.alloc(), &mut object_reader, step), place);
            }
        }
        Err(_) => check(&rt, false, "no object"),
    }
    drop(scratch);
}

/// Whether the first member of an object, which is `a`, is given as a tree.
fn fits(alloc: Global, scratch: &mut Scratch, text: &str) -> Option<bool> {
    match ObjectReader::open(text.as_bytes(), scratch) {
        Ok(mut object_reader) => match object_reader.next_key() {
            Ok(Some("a")) => Some(object_reader.tree(alloc).is_ok()),
            _ => None,
        },
        Err(_) => None,
    }
}

/// Whether it is where its value is so many arrays, one in another.
fn is_deep(alloc: Global, scratch: &mut Scratch, times: usize, wanted: bool) -> bool {
    match nested(alloc, r#"{"a":"#, times, "") {
        Ok(text) => fits(alloc, scratch, text.as_str()) == Some(wanted),
        Err(_) => false,
    }
}

/// How many arrays fit. The object is the first of 127 levels.
static FITS: [(usize, bool); 4] = [(0, false), (1, true), (126, true), (127, false)];

#[test]
fn gives_a_tree_of_127_levels(rt: HostRuntime) {
    let mut scratch = Scratch::new(rt.alloc());
    for (times, wanted) in &FITS {
        let is_so = is_deep(rt.alloc(), &mut scratch, *times, *wanted);
        check(&rt, is_so, *times);
    }
    drop(scratch);
}
