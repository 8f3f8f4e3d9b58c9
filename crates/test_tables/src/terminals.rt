//! What an adapter asks of a terminal: what it is written as again, and the first bad key.

use crate::checks::check;
use dap_call::{CallFault, read_terminal, write_terminal};
use serde_json::Value;
use std::alloc::{AllocError, Global};

/// What arguments are written as once they were read, or the bad key.
fn written(alloc: Global, arguments: Option<&Value>) -> Result<String, AllocError> {
    match read_terminal(alloc, arguments) {
        Ok(call) => {
            let object = write_terminal(alloc, &call)?;
            drop(call);
            object.to_string(alloc)
        }
        Err(CallFault::BadArguments { key }) => String::from_str(alloc, key.name()),
        Err(CallFault::OutOfMemory) => Err(AllocError),
    }
}

fn is_text(found: Result<String, AllocError>, wanted: &str) -> bool {
    match found {
        Ok(found) => found.as_str() == wanted,
        Err(_) => false,
    }
}

/// Whether arguments, of which none are given as no text, come to this.
fn comes_to(alloc: Global, arguments: &str, wanted: &str) -> bool {
    if arguments.is_empty() {
        return is_text(written(alloc, None), wanted);
    }
    match Value::from_str(alloc, arguments) {
        Ok(arguments) => {
            let found = written(alloc, Some(&arguments));
            drop(arguments);
            is_text(found, wanted)
        }
        Err(_) => false,
    }
}

static TERMINALS: [(&str, &str); 18] = [
    (
        r#"{"title":"t","kind":"external","cwd":"/","args":["a","b"],"env":{"A":null,"B":"c"},"more":1}"#,
        r#"{"args":["a","b"],"cwd":"/","kind":"external","title":"t"}"#,
    ),
    (
        r#"{"args":[],"cwd":"","kind":null,"title":null,"env":null}"#,
        r#"{"args":[],"cwd":""}"#,
    ),
    (
        r#"{"args":["recorded"],"cwd":"/","kind":"integrated","title":"recorded"}"#,
        r#"{"args":["recorded"],"cwd":"/","kind":"integrated","title":"recorded"}"#,
    ),
    // Any text is a kind.
    (
        r#"{"args":["a"],"cwd":"/","kind":"sideways"}"#,
        r#"{"args":["a"],"cwd":"/","kind":"sideways"}"#,
    ),
    ("", "arguments"),
    ("null", "arguments"),
    ("[]", "arguments"),
    ("{}", "cwd"),
    (r#"{"kind":1,"title":1}"#, "kind"),
    (r#"{"title":[],"cwd":1}"#, "title"),
    (r#"{"cwd":null,"args":1}"#, "cwd"),
    (r#"{"cwd":7,"args":["a"]}"#, "cwd"),
    (r#"{"cwd":"/"}"#, "args"),
    (r#"{"cwd":"/","args":"a"}"#, "args"),
    (r#"{"cwd":"/","args":["a",null],"env":1}"#, "args"),
    (r#"{"cwd":"/","args":["a"],"env":1}"#, "env"),
    (r#"{"cwd":"/","args":["a"],"env":["A"]}"#, "env"),
    (r#"{"cwd":"/","args":["a"],"env":"A"}"#, "env"),
];

#[test]
fn terminals(rt: HostRuntime) {
    for (arguments, wanted) in &TERMINALS {
        check(&rt, comes_to(rt.alloc(), arguments, wanted), *arguments);
    }
}
