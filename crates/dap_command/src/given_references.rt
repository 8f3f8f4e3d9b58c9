//! The references that a response gives: the ids of stack frames, and the numbers by which variables are asked for.
//!
//! Specification, "StackFrame", "Scope", "Variable", "EvaluateResponse", "SetVariableResponse". A number out of its range
//! is no reference; 0 in place of a variable's number says that there is nothing to ask for.
ghost use Rattle.std.specs.Prelude.{◌≡◌, List, ℕ};
ghost use Rattle.std.specs.Iterator.{YieldsFirst, item_count};
ghost use Rattle.serde_json.specs.View.{view, items_view};
ghost use Rattle.dap_command.specs.GivenReferences.{reference_at, references_of, frame_ids, holders_of, items_at, numbers_given, given_items};

use crate::command::Command;
use crate::objects::{GivenObjects, MAX_REFERENCE};
use dap_json::field;
use serde_json::Value;
use std::marker::Model;
use std::slice;

/// The numbers of the objects that a body gives, in order.
#[derive(Drop)]
pub struct NumbersGiven<'v> {
    objects: GivenObjects,
    items: &'v [Value],
}

impl<'v> Model for NumbersGiven<'v> {
    ghost use Rattle.std.specs.Prelude.{List, ℕ};
    ghost use Rattle.dap_command.specs.Objects.{number_key_of, least_of};
    ghost use Rattle.dap_command.specs.GivenReferences.{references_of};

    ghost Value = { List ℕ };

    ghost view = { λ g. references_of (number_key_of g.objects) (least_of g.objects) g.items.now };
}

/// The ids of frames that the body of a successful response to `stackTrace` gives, each of 0 to 2147483647. Frames
/// without such an id are passed over.
pub fn frames_given(body: &Value) -> NumbersGiven<'_>
    ensures { result ≡ frame_ids (view body.now) }
{
    numbers_given(GivenObjects::Frames, body)
}

/// The numbers by which variables can be asked for that the body of a successful response gives, each of 1 to
/// 2147483647: those of the scopes or the variables in it, or that of the result. What has no such number is passed
/// over, and a response to another command gives none.
pub fn holders_given(command: Command, body: &Value) -> NumbersGiven<'_>
    ensures { result ≡ holders_of command (view body.now) }
{
    match command.given_objects() {
        GivenObjects::Frames => numbers_given(GivenObjects::Nothing, body),
        objects => numbers_given(objects, body),
    }
}

fn numbers_given(objects: GivenObjects, body: &Value) -> NumbersGiven<'_>
    ensures { result ≡ numbers_given objects (view body.now) }
{
    NumbersGiven {
        objects,
        items: given_items(objects, body),
    }
}

/// What has the numbers: the value that the body is, or each object of a list.
fn given_items<'v>(objects: GivenObjects, body: &'v Value) -> &'v [Value]
    ensures { items_view result.now ≡ given_items objects (view body.now) }
{
    if let GivenObjects::Value = objects {
        return slice::from_ref(body);
    }
    match objects.member() {
        None => &[],
        Some(member) => items(body, member),
    }
}

/// The items of the array at a key, or none.
fn items<'v>(body: &'v Value, key: &str) -> &'v [Value]
    ensures { items_view result.now ≡ items_at key.now (view body.now) }
{
    match body.get(key).and_then(Value::as_array) {
        None => &[],
        Some(items) => items.as_slice(),
    }
}

/// The number at a key, where it is in its range.
fn reference(value: &Value, key: &str, least: u64) -> Option<u32>
    ensures { result ≡ reference_at key.now least (view value.now) }
{
    let number = field::whole_at_end(value, key)?;
    if number < least || number > MAX_REFERENCE {
        return None;
    }
    Some(number as u32)
}

/// The first number at a key of some values, and the values after it.
fn first_reference<'v>(values: &'v [Value], key: &str, least: u64) -> (Option<u32>, &'v [Value])
    ensures { YieldsFirst (λ (numbers : List ℕ). numbers) (references_of key.now least values.now) result.0 (references_of key.now least result.1.now) }
{
    let mut rest = values;
    while let Some((value, others)) = rest.split_first() {
        rest = others;
        if let Some(number) = reference(value, key, least) {
            return (Some(number), rest);
        }
    }
    (None, rest)
}

impl Iterator for NumbersGiven<'_> {
    type Item = u32;

    ghost next_gives = { YieldsFirst (λ s. s) };

    ghost remaining = { item_count (λ s. s) };

    fn next(&mut self) -> Option<u32> {
        let key = self.objects.number_key();
        let (found, rest) = first_reference(self.items, key, self.objects.range().least);
        self.items = rest;
        found
    }
}
