//! An object read member by member, with no tree of its own: numbers, texts and truth values are told, and all else is
//! passed over. Of a value that is wanted whole, a tree can be asked for.
//!
//! What is passed is checked as [`parse`](crate::parse) checks it. Where nothing is given here, `parse` tells why.
ghost use Rattle.std.specs.Prelude.{◌≡◌, ◌<◌, length, Some, None, IfOk, IfSome, OnOk, IsTrue, Float, slice_index, ◌==◌};
ghost use Rattle.json.specs.Json.{value as grammar_value, items as grammar_items, members as grammar_members};
ghost use Rattle.serde_json.specs.Data.{Data, Num, Items, Members, number as number_data, float, no_members};
ghost use Rattle.serde_json.specs.Read.{of_items, of_members, converted, number_of, float_of};
ghost use Rattle.dap_json.specs.ObjectReader.{Describes, IsNext, IsAfterKey, ReadsObject, EndsObject, IsMember, PassesValue};

pub use crate::inside::{Range, keep, whole};
use crate::tree::Tree;
use crate::{digits, reading};
use fast_float::Numeral;
pub use json::Invalid;
use json::{Reader, Token};
use serde_json::Value;
use std::alloc::Global;
use std::marker::Model;

/// How deep arrays and objects may nest.
pub const MAX_DEPTH: usize = 127;

/// A value that was passed.
#[derive(Clone, Copy, Debug, Drop)]
pub enum MemberValue<'a> {
    Null,
    Boolean(bool),
    /// A whole number of 0 to 18446744073709551615.
    Whole(u64),
    Text(&'a str),
    /// An array, an object or another number.
    Other,
}

/// Memory that is lent to each reading, and kept from one to the next: for texts without their escapes, and for the items
/// of arrays that are under way. What it held before does not matter.
#[derive(Drop)]
pub struct Scratch {
    texts: json::Scratch,
    items: Vec<Value>,
}

impl Scratch {
    /// Nothing is taken yet. It has 16 KiB, so keep one.
    pub fn new(alloc: Global) -> Scratch {
        Scratch {
            texts: json::Scratch::new(alloc),
            items: Vec::new(alloc),
        }
    }
}

/// The rest of an object.
#[derive(Drop)]
pub struct ObjectReader<'a> {
    /// For a caller that reads a value token by token.
    pub reader: Reader<'a>,
    pub(crate) items: &'a mut Vec<Value>,
}

impl<'a> Model for ObjectReader<'a> {
    ghost use Rattle.std.specs.Prelude.{List};
    ghost use Rattle.json.specs.Token.{Token as SpecToken, tokens_code};

    ghost Value = { List SpecToken };

    ghost coded = { tokens_code };

    ghost view = { λ s. s.reader };
}

impl<'a> ObjectReader<'a> {
    /// The members of the object that bytes are, all still to come. Unescaped texts go to `scratch`, which grows to the
    /// length of the bytes, and is kept from object to object. It is an error where the bytes are not UTF-8, where no
    /// object begins, and where memory is refused.
    pub fn open(bytes: &'a [u8], scratch: &'a mut Scratch) -> Result<ObjectReader<'a>, Invalid>
        ensures { IfOk result (ReadsObject bytes.now) }
    {
        let Ok(text) = simdutf8::basic::from_utf8(bytes) else {
            return Err(Invalid);
        };
        let Scratch { texts, items } = scratch;
        items.clear();
        let Ok(mut reader) = Reader::new(text, texts) else {
            return Err(Invalid);
        };
        match reader.next() {
            Some(Token::BeginObject) => Ok(ObjectReader { reader, items }),
            _ => Err(Invalid),
        }
    }

    /// The next member's key and value, or `None` at the end of the bytes; only then were the members those of an object.
    /// Of equal keys the last counts. It is an error where the bytes are no JSON or go on after the object, where arrays
    /// and objects nest deeper than 127, where a number is too great for a float, and after the end.
    #[inline(always)]
    pub fn next(&mut self) -> Result<Option<(&'a str, MemberValue<'a>)>, Invalid>
        ensures member { IfOk result (λ r. IfSome r (λ m. IsMember m.0.now m.1 self.old self.new)) }
        ensures end { IfOk result (λ r. r ≡ None → EndsObject self.old) }
        ensures shorter { OnOk result (length self.new < length self.old) }
    {
        let Some(key) = self.next_key()? else {
            return Ok(None);
        };
        let value = self.pass()?;
        Ok(Some((key, value)))
    }

    /// The next member's key, or `None` at the end of the bytes, with the errors of [`next`](ObjectReader::next). `pass` or `tree`
    /// reads its value then.
    #[inline(always)]
    pub fn next_key(&mut self) -> Result<Option<&'a str>, Invalid>
        ensures key { IfOk result (λ r. IfSome r (λ key. IsAfterKey key.now self.old self.new)) }
        ensures end { IfOk result (λ r. r ≡ None → EndsObject self.old) }
        ensures shorter { OnOk result (length self.new < length self.old) }
    {
        let Some(key) = self.reader.next_key()? else {
            if self.reader.next().is_some() {
                return Err(Invalid);
            }
            return Ok(None);
        };
        Ok(Some(key))
    }

    /// Passes the value of the key that came last.
    #[inline(always)]
    pub fn pass(&mut self) -> Result<MemberValue<'a>, Invalid>
        ensures { IfOk result (λ s. (d : Data) × Describes s d × IsNext d self.old self.new) }
    {
        value(&mut self.reader, MAX_DEPTH - 1)
    }

    /// The value of the key that came last, as a tree. It is also an error where memory is refused.
    pub fn tree(&mut self, alloc: Global) -> Result<Tree, Invalid>
        ensures { IfOk result (λ tree. IsNext tree self.old self.new) }
    {
        match reading::value(alloc, &mut self.reader, self.items, MAX_DEPTH - 1) {
            Ok(value) => Ok(Tree::shared(alloc, value)),
            Err(_) => Err(Invalid),
        }
    }
}

/// Passes a value, in which arrays and objects nest at most so deep.
#[cycle(object_reader)]
#[inline(always)]
pub fn value<'a>(reader: &mut Reader<'a>, depth: usize) -> Result<MemberValue<'a>, Invalid>
    ensures ok { IfOk result (PassesValue depth reader.old reader.new) }
    ensures shorter { OnOk result (length reader.new < length reader.old) }
{
    match reader.next().ok_or(Invalid)? {
        Token::String(text) => Ok(MemberValue::Text(text)),
        Token::Number(text) => Ok(number(text)?),
        Token::Bool(b) => Ok(MemberValue::Boolean(b)),
        Token::Null => Ok(MemberValue::Null),
        Token::EndObject | Token::EndArray | Token::Key(_) | Token::Bad => Err(Invalid),
        Token::BeginArray => {
            if depth == 0 {
                return Err(Invalid);
            }
            items(reader, depth - 1)?;
            Ok(MemberValue::Other)
        }
        Token::BeginObject => {
            if depth == 0 {
                return Err(Invalid);
            }
            members(reader, depth - 1)?;
            Ok(MemberValue::Other)
        }
    }
}

/// Passes the items of an array and its end.
#[cycle(object_reader)]
#[inline(never)]
fn items(reader: &mut Reader<'_>, depth: usize) -> Result<(), Invalid>
    ensures ok { OnOk result ((ds : Items) × (converted of_items (grammar_items (grammar_value depth) (length reader.old) reader.old) ≡ Some (ds, reader.new))) }
    ensures shorter { OnOk result (length reader.new < length reader.old) }
{
    'items: while !reader.take_end_array() {
        let _ = value(reader, depth)?;
    }
    Ok(())
}

/// Passes the members of an object and its end.
#[cycle(object_reader)]
#[inline(never)]
fn members(reader: &mut Reader<'_>, depth: usize) -> Result<(), Invalid>
    ensures ok { OnOk result ((ms : Members) × (converted (λ ms. of_members ms no_members) (grammar_members (grammar_value depth) (length reader.old) reader.old) ≡ Some (ms, reader.new))) }
    ensures shorter { OnOk result (length reader.new < length reader.old) }
{
    'members: while let Some(_) = reader.next_key()? {
        let _ = value(reader, depth)?;
    }
    Ok(())
}

/// A number of JSON, where it is in range.
#[inline(always)]
fn number<'a>(text: &str) -> Result<MemberValue<'a>, Invalid>
    ensures { IfOk result (λ s. (n : Num) × (number_of text.now ≡ Some n) × Describes s (number_data n)) }
{
    match digits::whole(text.as_bytes()) {
        Some(n) => Ok(MemberValue::Whole(n)),
        None => any_number(text),
    }
}

/// The same, whatever the number is.
#[inline(never)]
fn any_number<'a>(text: &str) -> Result<MemberValue<'a>, Invalid>
    ensures { IfOk result (λ s. (n : Num) × (number_of text.now ≡ Some n) × Describes s (number_data n)) }
{
    let bytes = text.as_bytes();
    if has_minus(bytes) {
        if is_near_a_float(true, &Numeral::scan(&bytes[1..])) {
            return Ok(MemberValue::Other);
        }
        return Err(Invalid);
    }
    let numeral = Numeral::scan(bytes);
    if let Some(n) = numeral.to_u64() {
        return Ok(MemberValue::Whole(n));
    }
    if is_near_a_float(false, &numeral) {
        return Ok(MemberValue::Other);
    }
    Err(Invalid)
}

#[inline(always)]
pub(crate) fn has_minus(bytes: &[u8]) -> bool
    ensures value { result ≡ (slice_index bytes.now 0 == 45) }
    ensures some { IsTrue result → 0 < length bytes.now }
{
    !bytes.is_empty() && bytes[0] == b'-'
}

/// Whether a finite float comes near the number.
fn is_near_a_float(negative: bool, numeral: &Numeral<'_>) -> bool
    ensures { IsTrue result → (x : Float) × (float_of negative numeral.now ≡ Some (float x)) }
{
    numeral.to_float::<f64>(negative).is_finite()
}
