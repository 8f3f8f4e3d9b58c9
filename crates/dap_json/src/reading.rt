//! A value of a text read into a tree, from a reader that is lent, token by token.
//!
//! The items of arrays that are under way stand in one stack, and are moved out once their array ends: so each array takes
//! memory once, and no more than it needs.
ghost use Rattle.std.specs.Prelude.{◌≡◌, ◌<◌, length, Some, IfOk, OnOk, option_map, true, false};
ghost use Rattle.json.specs.Json.{value as grammar_value, items as grammar_items, members as grammar_members};
ghost use Rattle.serde_json.specs.Data.{no_members};
ghost use Rattle.serde_json.specs.Read.{of_items, of_members, converted, number_of, number_from, float_of};
ghost use Rattle.serde_json.specs.View.{view, number_view, items_view, members_view};
ghost use Rattle.dap_json.specs.ObjectReader.{ReadsValue};

use crate::digits;
use crate::object_reader::has_minus;
use fast_float::Numeral;
use json::{Invalid, Reader, Token};
use serde_json::{Map, Number, Value};
use std::alloc::{AllocError, AllocFailed, Global};

/// Why no value was read.
#[derive(Clone, Copy, Debug, Drop)]
pub struct Unread;

impl From<Invalid> for Unread {
    fn from(_invalid: Invalid) -> Unread {
        Unread
    }
}

impl From<AllocError> for Unread {
    fn from(_refused: AllocError) -> Unread {
        Unread
    }
}

impl<T: Drop> From<AllocFailed<T>> for Unread {
    fn from(_refused: AllocFailed<T>) -> Unread {
        Unread
    }
}

/// Reads a value, in which arrays and objects nest at most so deep.
#[cycle(read)]
#[inline(always)]
pub fn value(
    alloc: Global,
    reader: &mut Reader<'_>,
    stack: &mut Vec<Value>,
    depth: usize,
) -> Result<Value, Unread>
    ensures ok { IfOk result (λ v. ReadsValue depth reader.old (view v) reader.new) }
    ensures stack { OnOk result (stack.new.items ≡ stack.old.items) }
    ensures shorter { OnOk result (length reader.new < length reader.old) }
{
    match reader.next().ok_or(Unread)? {
        Token::String(text) => Ok(Value::String(String::from_str(alloc, text)?)),
        Token::Number(text) => match number(text) {
            Some(number) => Ok(Value::Number(number)),
            None => Err(Unread),
        },
        Token::Bool(b) => Ok(Value::Bool(b)),
        Token::Null => Ok(Value::Null),
        Token::EndObject | Token::EndArray | Token::Key(_) | Token::Bad => Err(Unread),
        Token::BeginArray => {
            if depth == 0 {
                return Err(Unread);
            }
            Ok(Value::Array(items(alloc, reader, stack, depth - 1)?))
        }
        Token::BeginObject => {
            if depth == 0 {
                return Err(Unread);
            }
            Ok(Value::Object(members(alloc, reader, stack, depth - 1)?))
        }
    }
}

/// Reads the items of an array and its end.
#[cycle(read)]
#[inline(never)]
fn items(
    alloc: Global,
    reader: &mut Reader<'_>,
    stack: &mut Vec<Value>,
    depth: usize,
) -> Result<Vec<Value>, Unread>
    ensures ok { IfOk result (λ v. converted of_items (grammar_items (grammar_value depth) (length reader.old) reader.old) ≡ Some (items_view v.items, reader.new)) }
    ensures stack { OnOk result (stack.new.items ≡ stack.old.items) }
    ensures shorter { OnOk result (length reader.new < length reader.old) }
{
    let start = stack.len();
    'items: while !reader.take_end_array() {
        let item = value(alloc, reader, stack, depth)?;
        stack.push(item)?;
    }
    Ok(stack.split_off(start)?)
}

/// Reads the members of an object and its end. Of equal keys the last counts.
#[cycle(read)]
#[inline(never)]
fn members(
    alloc: Global,
    reader: &mut Reader<'_>,
    stack: &mut Vec<Value>,
    depth: usize,
) -> Result<Map<String, Value>, Unread>
    ensures ok { IfOk result (λ m. converted (λ ms. of_members ms no_members) (grammar_members (grammar_value depth) (length reader.old) reader.old) ≡ Some (members_view m.entries, reader.new)) }
    ensures stack { OnOk result (stack.new.items ≡ stack.old.items) }
    ensures shorter { OnOk result (length reader.new < length reader.old) }
{
    let mut found = Map::new(alloc);
    'members: while let Some(name) = reader.next_key()? {
        let key = String::from_str(alloc, name)?;
        let member = value(alloc, reader, stack, depth)?;
        drop(found.insert(key, member)?);
    }
    Ok(found)
}

/// The number that a token writes, where it is in range.
#[inline(always)]
fn number(text: &str) -> Option<Number>
    ensures { option_map number_view result ≡ number_of text.now }
{
    match digits::whole(text.as_bytes()) {
        Some(n) => Some(Number::from(n)),
        None => any_number(text),
    }
}

/// The same, whatever the number is.
#[inline(never)]
fn any_number(text: &str) -> Option<Number>
    ensures { option_map number_view result ≡ number_of text.now }
{
    let bytes = text.as_bytes();
    if has_minus(bytes) {
        below_zero(&Numeral::scan(&bytes[1..]))
    } else {
        from_zero(&Numeral::scan(bytes))
    }
}

/// A number without a sign.
#[inline(always)]
fn from_zero(numeral: &Numeral<'_>) -> Option<Number>
    ensures { option_map number_view result ≡ number_from false numeral.now }
{
    match numeral.to_u64() {
        Some(n) => Some(Number::from(n)),
        None => nearest(false, numeral),
    }
}

/// A number after a minus. `-0` is a float.
fn below_zero(numeral: &Numeral<'_>) -> Option<Number>
    ensures { option_map number_view result ≡ number_from true numeral.now }
{
    if let Some(n) = numeral.to_i64(true) {
        if n < 0 {
            return Some(Number::from(n));
        }
    }
    nearest(true, numeral)
}

/// The float that is nearest, where it is finite.
fn nearest(negative: bool, numeral: &Numeral<'_>) -> Option<Number>
    ensures { option_map number_view result ≡ float_of negative numeral.now }
{
    Number::from_f64(numeral.to_float::<f64>(negative))
}
