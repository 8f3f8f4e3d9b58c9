//! An object that stands in an object, read member by member, with no tree: the whole numbers in it are told that a caller
//! looks for.
//!
//! Whatever is odd is an error here, and the caller reads the bytes in another way then.
ghost use Rattle.std.specs.Prelude.{◌≡◌, ◌<◌, ◌++◌, length, Some, None, IfOk, IfSome, OnOk};
ghost use Rattle.json.specs.Json.{value as grammar_value, items as grammar_items, members as grammar_members};
ghost use Rattle.serde_json.specs.Data.{Data, Items, Members, object as object_data, no_members};
ghost use Rattle.serde_json.specs.Read.{of_json, of_items, of_members, converted};
ghost use Rattle.dap_json.specs.Inside.{IsNextInside, IsAfterInnerKey, whole_of, numbers_in, with_whole, EntersObject, EndsInner, AddsWhole, AddsWholes};
ghost use Rattle.dap_json.specs.Field.{whole_at};
ghost use Rattle.dap_json.specs.ObjectReader.{Describes};

use crate::field::MAX_SEQ;
use crate::object_reader::{MAX_DEPTH, MemberValue, ObjectReader, value};
use json::{Invalid, Reader, Token};

/// Which whole numbers are wanted.
#[derive(Clone, Copy, Debug)]
pub struct Range {
    pub least: u64,
    pub most: u64,
}

/// The whole number that a value is, of 0 to 9007199254740991.
#[inline(always)]
pub fn whole(value: MemberValue<'_>) -> Option<u64>
    ensures { (d : Data) → Describes value.entry d → result ≡ whole_of d }
{
    match value {
        MemberValue::Whole(n) if n <= MAX_SEQ => Some(n),
        _ => None,
    }
}

/// Adds a number, if there is one in the range. It is an error where memory is refused.
#[inline(always)]
pub fn keep(found: &mut Vec<u64>, range: Range, number: Option<u64>) -> Result<(), Invalid>
    ensures { OnOk result (found.new.items ≡ with_whole found.old.items range number) }
{
    let Some(n) = number else {
        return Ok(());
    };
    if n < range.least || n > range.most {
        return Ok(());
    }
    match found.push(n) {
        Ok(()) => Ok(()),
        Err(_) => Err(Invalid),
    }
}

/// Passes the members of an object and its end. The whole number at a key is told; of equal keys the last counts.
fn number_at(reader: &mut Reader<'_>, key: &str) -> Result<Option<u64>, Invalid>
    ensures ok { IfOk result (λ n. (ms : Members) × (converted (λ ms. of_members ms no_members) (grammar_members (grammar_value 123) (length reader.old) reader.old) ≡ Some (ms, reader.new)) × (n ≡ whole_at key.now (object_data ms))) }
    ensures shorter { OnOk result (length reader.new < length reader.old) }
{
    let mut found = None;
    'members: while let Some(name) = reader.next_key()? {
        let passed = value(reader, MAX_DEPTH - 4)?;
        if name == key {
            found = whole(passed);
        }
    }
    Ok(found)
}

/// Passes an object, and tells the whole number at a key.
#[inline(always)]
fn row(reader: &mut Reader<'_>, key: &str) -> Result<Option<u64>, Invalid>
    ensures ok { IfOk result (λ n. (d : Data) × (converted of_json (grammar_value 124 reader.old) ≡ Some (d, reader.new)) × (n ≡ whole_at key.now d)) }
    ensures shorter { OnOk result (length reader.new < length reader.old) }
{
    let Some(Token::BeginObject) = reader.next() else {
        return Err(Invalid);
    };
    let number = number_at(reader, key)?;
    Ok(number)
}

/// Passes the items of an array and its end, and adds the numbers at a key of them.
fn rows(
    reader: &mut Reader<'_>,
    key: &str,
    range: Range,
    found: &mut Vec<u64>,
) -> Result<(), Invalid>
    ensures ok { OnOk result ((ds : Items) × (converted of_items (grammar_items (grammar_value 124) (length reader.old) reader.old) ≡ Some (ds, reader.new)) × (found.new.items ≡ found.old.items ++ numbers_in key.now range.least range.most ds)) }
    ensures shorter { OnOk result (length reader.new < length reader.old) }
{
    'rows: while !reader.take_end_array() {
        let number = row(reader, key)?;
        keep(found, range, number)?;
    }
    Ok(())
}

impl<'a> ObjectReader<'a> {
    /// Enters the object that is the value of the key that came last. `inner_key` gives its members then. It is an error
    /// where the value is no object.
    pub fn enter(&mut self) -> Result<(), Invalid>
        ensures entered { OnOk result (EntersObject self.old self.new) }
        ensures shorter { OnOk result (length self.new < length self.old) }
    {
        let Some(Token::BeginObject) = self.reader.next() else {
            return Err(Invalid);
        };
        Ok(())
    }

    /// The next member's key of the object that was entered, or `None` at its end, after which `next_key` goes on. One of
    /// `pass_inner`, `number` and `column` reads the value.
    #[inline(always)]
    pub fn inner_key(&mut self) -> Result<Option<&'a str>, Invalid>
        ensures key { IfOk result (λ r. IfSome r (λ k. IsAfterInnerKey k.now self.old self.new)) }
        ensures end { IfOk result (λ r. r ≡ None → EndsInner self.old self.new) }
        ensures shorter { OnOk result (length self.new < length self.old) }
    {
        let Some(key) = self.reader.next_key()? else {
            return Ok(None);
        };
        Ok(Some(key))
    }

    /// Passes the value of the inner key that came last.
    #[inline(always)]
    pub fn pass_inner(&mut self) -> Result<MemberValue<'a>, Invalid>
        ensures { IfOk result (λ s. (d : Data) × Describes s d × IsNextInside d self.old self.new) }
    {
        value(&mut self.reader, MAX_DEPTH - 2)
    }

    /// Passes the value of the inner key that came last, and adds it if it is a whole number in the range. It is also an
    /// error where memory is refused.
    pub fn number(&mut self, range: Range, found: &mut Vec<u64>) -> Result<(), Invalid>
        ensures { OnOk result (AddsWhole range self.old self.new found.old found.new) }
    {
        let passed = self.pass_inner()?;
        keep(found, range, whole(passed))
    }

    /// Passes the value of the inner key that came last, and adds the whole numbers in the range that its items have at a
    /// key. It is an error where the value is no array of objects, and where memory is refused.
    pub fn column(&mut self, key: &str, range: Range, found: &mut Vec<u64>) -> Result<(), Invalid>
        ensures { OnOk result (AddsWholes key.now range self.old self.new found.old found.new) }
    {
        let Some(Token::BeginArray) = self.reader.next() else {
            return Err(Invalid);
        };
        rows(&mut self.reader, key, range, found)?;
        Ok(())
    }
}
