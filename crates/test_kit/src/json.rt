//! Values and texts that stand in rows as JSON.

use crate::outcome::Outcome;
use dap_json::{ParseFault, parse};
use serde_json::Value;
use std::alloc::Global;

/// The value that a JSON text is; wrong where it is none.
pub fn value_of(alloc: Global, json: &str) -> Result<Value, Outcome> {
    match parse(alloc, json.as_bytes()) {
        Ok(value) => Ok(value),
        Err(ParseFault::OutOfMemory) => Err(Outcome::Refused),
        Err(ParseFault::NotJson) => Err(Outcome::Wrong),
    }
}

/// The text that a JSON text is; wrong where it is none.
pub fn text_of(alloc: Global, json: &str) -> Result<String, Outcome> {
    match value_of(alloc, json) {
        Ok(Value::String(text)) => Ok(text),
        Ok(other) => {
            // The proof of a call is shorter than that of a value that goes out of scope.
            drop(other);
            Err(Outcome::Wrong)
        }
        Err(outcome) => Err(outcome),
    }
}
