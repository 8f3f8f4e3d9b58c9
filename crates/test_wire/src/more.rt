//! Members that stand beside a variable's own: which can, and the text of a body with them.

use crate::checks::check;
use dap_body::{Body, Variable, append_body};
use dap_json::{More, Text, parse};
use std::alloc::{AllocError, Global};

/// A JSON value, and the text of a body whose one variable has its members beside its own; none where they cannot be there.
static ROWS: [(&str, Option<&str>); 11] = [
    (
        r#"{}"#,
        Some(r#"{"variables":[{"name":"x","value":"1","variablesReference":0}]}"#),
    ),
    (
        r#"{"type":"int","evaluateName":"a.x"}"#,
        Some(
            r#"{"variables":[{"evaluateName":"a.x","name":"x","type":"int","value":"1","variablesReference":0}]}"#,
        ),
    ),
    // One that comes before all, one between, and one behind.
    (
        r#"{"a":1,"presentationHint":{"kind":"data","attributes":["constant"]},"zone":null}"#,
        Some(
            r#"{"variables":[{"a":1,"name":"x","presentationHint":{"attributes":["constant"],"kind":"data"},"value":"1","variablesReference":0,"zone":null}]}"#,
        ),
    ),
    // None of a variable's own is replaced.
    (
        r#"{"name":"y","value":"2","variablesReference":7,"type":"int"}"#,
        Some(r#"{"variables":[{"name":"x","type":"int","value":"1","variablesReference":0}]}"#),
    ),
    (
        r#"{"namedVariables":2,"indexedVariables":-3,"lazy":true}"#,
        Some(
            r#"{"variables":[{"indexedVariables":-3,"lazy":true,"name":"x","namedVariables":2,"value":"1","variablesReference":0}]}"#,
        ),
    ),
    (
        r#"{"t":"\"\u0001\u00e9"}"#,
        Some(
            "{\"variables\":[{\"name\":\"x\",\"t\":\"\\\"\\u0001é\",\"value\":\"1\",\"variablesReference\":0}]}",
        ),
    ),
    // No object, or a float among the members.
    (r#"[]"#, None),
    (r#""type""#, None),
    (r#"null"#, None),
    (r#"{"a":1.5}"#, None),
    (r#"{"a":[{"b":1e3}]}"#, None),
];

fn body(alloc: Global, more: More) -> Result<Body, AllocError> {
    let mut variables = Vec::new(alloc);
    let name = Text::copied(alloc, "x")?;
    variables.push(Variable {
        name,
        value: Text::copied(alloc, "1")?,
        variables_reference: 0,
        more,
    })?;
    Ok(Body::Variables { variables })
}

fn text(alloc: Global, more: More) -> Result<Vec<u8>, AllocError> {
    let mut out = Vec::new(alloc);
    append_body(alloc, &mut out, &body(alloc, more)?)?;
    Ok(out)
}

fn is_beside(alloc: Global, members: &str, wanted: Option<&str>) -> bool {
    let Ok(value) = parse(alloc, members.as_bytes()) else {
        return false;
    };
    match More::of(alloc, &value) {
        Ok(None) => wanted.is_none(),
        Ok(Some(more)) => match (text(alloc, more), wanted) {
            (Ok(text), Some(wanted)) => text.as_slice() == wanted.as_bytes(),
            _ => false,
        },
        Err(_) => false,
    }
}

#[test]
fn members_stand_beside(rt: HostRuntime) {
    for (members, wanted) in &ROWS {
        check(&rt, is_beside(rt.alloc(), members, *wanted), *members);
    }
}
