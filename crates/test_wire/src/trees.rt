//! Texts, trees and members of objects: each public call once, with ample memory.

use crate::checks::check;
use dap_json::members::{Members, put_optional_text, put_text, put_tree};
use dap_json::plain::is_plain;
use dap_json::{ParseFault, Text, Tree, field, parse, write};
use serde_json::{Map, Value};
use std::alloc::{AllocError, Global};

/// Whether a text gives back what it holds.
fn gives_back(text: Text) -> bool {
    match text.into_string() {
        Ok(string) => string.as_str() == "né",
        Err(_) => false,
    }
}

/// Whether a text holds three bytes, and its copy the same.
fn holds_three_bytes(text: &Text) -> Result<bool, AllocError> {
    let copy = text.clone()?;
    Ok(text.len() == 3 && !text.is_empty() && copy.as_str() == "né")
}

/// Whether a text that is made of what another gives back holds the same.
fn is_made_again(text: Text) -> Result<bool, AllocError> {
    let again = Text::new(text.into_string()?);
    Ok(again.as_str() == "né")
}

fn is_held(alloc: Global) -> Result<bool, AllocError> {
    let text = Text::copied(alloc, "né")?;
    let held = holds_three_bytes(&text)?;
    Ok(is_made_again(text)? && held)
}

fn is_empty(alloc: Global) -> Result<bool, AllocError> {
    let empty = Text::copied(alloc, "")?;
    Ok(empty.is_empty())
}

#[test]
fn holds_a_text(rt: HostRuntime) {
    check(&rt, matches!(is_held(rt.alloc()), Ok(true)), "three bytes");
    check(&rt, matches!(is_empty(rt.alloc()), Ok(true)), "none");
}

/// Whether a text and its copy, both shared, are given back, the text first.
fn is_shared(alloc: Global) -> Result<bool, AllocError> {
    let text = Text::copied(alloc, "né")?.shared(alloc);
    let copy = text.clone()?.shared(alloc);
    let first = gives_back(text);
    let held = copy.as_str() == "né";
    let last = gives_back(copy);
    Ok(first && held && last)
}

/// A text and its copies, whoever gives it back first.
#[test]
fn shares_a_text(rt: HostRuntime) {
    check(&rt, matches!(is_shared(rt.alloc()), Ok(true)), "text");
}

/// Whether a tree gives back the number that it holds.
fn gives_seven(tree: Tree) -> bool {
    match tree.into_value() {
        Ok(value) => {
            let held = value.as_u64();
            drop(value);
            held == Some(7)
        }
        Err(_) => false,
    }
}

/// Whether a tree and its copy give back what they hold, the tree first.
fn is_shared_tree(alloc: Global) -> Result<bool, AllocError> {
    let tree = Tree::shared(alloc, Value::from(7u64));
    let copy = tree.clone()?;
    let first = gives_seven(tree);
    let held = copy.value().as_u64() == Some(7);
    let last = gives_seven(copy);
    Ok(first && held && last)
}

/// A tree and its copies, likewise.
#[test]
fn shares_a_tree(rt: HostRuntime) {
    check(&rt, matches!(is_shared_tree(rt.alloc()), Ok(true)), "tree");
}

/// Whether a value is written so.
fn is_written(alloc: Global, value: &Value, text: &[u8]) -> bool {
    match write(alloc, value) {
        Ok(written) => written.as_slice() == text,
        Err(_) => false,
    }
}

/// Whether a tree is plain, and its copy is written so.
fn is_copied(alloc: Global, tree: &Tree, text: &[u8]) -> Result<bool, AllocError> {
    let value = tree.clone()?.into_value()?;
    let is_so = is_written(alloc, &value, text);
    drop(value);
    Ok(is_so && is_plain(tree.value(), 2))
}

/// Whether a text is read as a plain tree, whose copy is written so.
fn is_read(alloc: Global, bytes: &[u8], text: &[u8]) -> bool {
    match parse(alloc, bytes) {
        Ok(value) => {
            let tree = Tree::new(value);
            let is_so = matches!(is_copied(alloc, &tree, text), Ok(true));
            drop(tree);
            is_so
        }
        Err(_) => false,
    }
}

/// Whether bytes are no JSON.
fn is_not_json(alloc: Global, bytes: &[u8]) -> bool {
    match parse(alloc, bytes) {
        Ok(value) => {
            drop(value);
            false
        }
        Err(fault) => fault == ParseFault::NotJson,
    }
}

/// Texts, and what their trees are written as.
static READ: [(&str, &str); 3] = [
    (
        r#"{"b": [1, -2, null], "a": "\/"}"#,
        r#"{"a":"/","b":[1,-2,null]}"#,
    ),
    (r#"{"a":1,"a":2}"#, r#"{"a":2}"#),
    ("18446744073709551615", "18446744073709551615"),
];

#[test]
fn parses_and_writes(rt: HostRuntime) {
    for (bytes, text) in &READ {
        let is_so = is_read(rt.alloc(), bytes.as_bytes(), text.as_bytes());
        check(&rt, is_so, *bytes);
    }
    check(&rt, is_not_json(rt.alloc(), b"\xff"), "no text");
}

/// The first member that is read otherwise than it should be.
fn read_otherwise(value: &Value) -> &'static str {
    for key in ["m", "f", "s", "z", "none"] {
        if field::whole(value, key).is_some() {
            return key;
        }
    }
    if field::whole(value, "n") != Some(field::MAX_SEQ) {
        return "n as a number";
    }
    if field::text(value, "s") != Some("x") {
        return "s as a text";
    }
    if field::boolean(value, "b") != Some(false) {
        return "b as a truth value";
    }
    if field::present(value, "t").is_none() || field::present(value, "z").is_some() {
        return "which are present";
    }
    ""
}

/// Whether a tree is there to be taken.
fn is_taken(value: &mut Value, key: &str) -> bool {
    field::take_tree(value, key).is_some()
}

/// An array is taken once, and what is null never.
fn takes_once(value: &mut Value) -> bool {
    !is_taken(value, "z") && is_taken(value, "t") && !is_taken(value, "t")
}

/// The first member of a text that is read otherwise than it should be.
fn first_otherwise(alloc: Global, text: &[u8]) -> &'static str {
    match parse(alloc, text) {
        Ok(mut value) => {
            let otherwise = read_otherwise(&value);
            let takes = takes_once(&mut value);
            drop(value);
            if takes { otherwise } else { "what is taken" }
        }
        Err(_) => "the text",
    }
}

#[test]
fn reads_members(rt: HostRuntime) {
    let text =
        br#"{"n":9007199254740991,"m":9007199254740992,"f":1.0,"s":"x","b":false,"z":null,"t":[]}"#;
    let otherwise = first_otherwise(rt.alloc(), text);
    check(&rt, otherwise.is_empty(), otherwise);
}

/// Puts members of each kind, and some that are absent; whether there is memory for all.
fn puts_all(alloc: Global, members: &mut Members, tree: &Option<Tree>, x: &Option<Text>) -> bool {
    put_tree(alloc, members, "b", tree).is_ok()
        && put_tree(alloc, members, "none", &None).is_ok()
        && put_optional_text(alloc, members, "c", x).is_ok()
        && put_optional_text(alloc, members, "none", &None).is_ok()
        && put_text(alloc, members, "a", "y").is_ok()
}

/// An object of such members.
fn object(alloc: Global) -> Result<Value, AllocError> {
    let text = Some(Text::copied(alloc, "x")?);
    let tree = Some(Tree::new(Value::from(7u64)));
    let mut members: Members = Map::new(alloc);
    if !puts_all(alloc, &mut members, &tree, &text) {
        return Err(AllocError);
    }
    Ok(Value::Object(members))
}

/// Whether the object is written so.
fn is_object(alloc: Global, text: &[u8]) -> bool {
    match object(alloc) {
        Ok(value) => {
            let is_so = is_written(alloc, &value, text);
            drop(value);
            is_so
        }
        Err(_) => false,
    }
}

#[test]
fn builds_an_object(rt: HostRuntime) {
    let text = br#"{"a":"y","b":7,"c":"x"}"#;
    check(&rt, is_object(rt.alloc(), text), "object");
}
