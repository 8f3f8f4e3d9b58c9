//! Whether a value has no fault, told while its text is passed, with no tree.
//!
//! What is passed here has none, or is `null`, which its row decides on. Where a value may have a fault it is an error, and
//! the tree decides. Numbers that are no whole ones from 0 are left to the tree too.
ghost use Rattle.std.specs.Prelude.{◌≡◌, ◌<◌, ◌≤◌, ◌++◌, ◌∷◌, [], map, not, ◌&&◌, length, option_map, IfOk, OnOk, IsTrue, Some, None};
ghost use Rattle.serde_json.specs.Data.{Data, Items, Members, array as array_data, object as object_data, put};
ghost use Rattle.dap_json.specs.Field.{whole_at, is_null};
ghost use Rattle.dap_json.specs.Inside.{numbers_in};
ghost use Rattle.dap_json.specs.ObjectReader.{Describes};
ghost use Rattle.dap_shape.specs.Faults.{is_of as is_scalar, fault_of as fault_of_data};
ghost use Rattle.dap_shape.specs.Seen.{row_seen};
ghost use Rattle.dap_shape.specs.PrivateSound.{AreFew, row_at, lacks_one, AreKept, object_fault, IsSound, IsValue, AreItems, AreMembers};

use crate::entries::values;
use crate::rows::fields;
use crate::shape::{Choice, Field, Kind, Scalar, Shape, TypeName};
use crate::walking::has_text;
use dap_json::object_reader::{
    Invalid, MAX_DEPTH, MemberValue, Range, keep, value as passed_value, whole,
};
use json::{Reader, Token};

/// So many rows a type has at most.
pub(crate) const MAX_ROWS: usize = 40;

/// Which keys of an object's rows have come.
pub(crate) type SeenRows = [bool; 40];

// ---- values without parts

fn is_among(choice: Choice, passed: MemberValue<'_>) -> bool
    ensures { IsTrue result → (d : Data) → Describes passed.entry d → is_scalar (Scalar.OneOf choice) d ≡ result }
{
    match passed {
        MemberValue::Text(text) => has_text(values(choice), text),
        _ => false,
    }
}

/// Whether a value that was passed is of a kind.
fn is_of(scalar: Scalar, passed: MemberValue<'_>) -> bool
    ensures { IsTrue result → (d : Data) → Describes passed.entry d → is_scalar scalar d ≡ result }
{
    match scalar {
        Scalar::Any => true,
        Scalar::Text => matches!(passed, MemberValue::Text(_)),
        Scalar::Boolean => matches!(passed, MemberValue::Boolean(_)),
        Scalar::Whole | Scalar::Number => matches!(passed, MemberValue::Whole(_)),
        Scalar::WholeOrText => matches!(passed, MemberValue::Whole(_) | MemberValue::Text(_)),
        Scalar::OneOf(choice) => is_among(choice, passed),
    }
}

pub(crate) fn is_null(passed: MemberValue<'_>) -> bool
    ensures { (d : Data) → Describes passed.entry d → result ≡ is_null d }
{
    matches!(passed, MemberValue::Null)
}

/// Passes a value without parts, or one with any parts where any value may stand.
fn plain<'a>(
    reader: &mut Reader<'a>,
    scalar: Scalar,
    depth: usize,
) -> Result<MemberValue<'a>, Invalid>
    ensures ok { IfOk result (λ passed. (d : Data) × IsValue depth d reader.old reader.new × Describes passed d × IsSound (Shape.One (Kind.Plain scalar)) d) }
    ensures shorter { OnOk result (length reader.new < length reader.old) }
{
    let passed = passed_value(reader, depth)?;
    if is_null(passed) || is_of(scalar, passed) {
        return Ok(passed);
    }
    Err(Invalid)
}

// ---- rows

/// The row for a key, with its place.
pub(crate) fn row_of(rows: &'static [Field], key: &str) -> Option<(usize, Field)>
    ensures { option_map (λ found. (found.0, row_seen found.1)) result ≡ row_at (map row_seen rows.now) key.now }
{
    for (place, row) in rows.iter().enumerate() {
        if row.key() == key {
            return Some((place, *row));
        }
    }
    None
}

fn is_lacking(row: Field, came: bool) -> bool
    ensures { result ≡ ((row_seen row).is_required && not came) }
{
    match row {
        Field::Required(..) => !came,
        Field::Optional(..) => false,
    }
}

/// Whether the key of a required row has not come.
pub(crate) fn lacks(rows: &'static [Field], seen: &SeenRows) -> bool
    requires { length rows.now ≤ 40 }
    ensures { result ≡ lacks_one (map row_seen rows.now) seen.now }
{
    for (place, row) in rows.iter().enumerate() {
        if is_lacking(*row, seen[place]) {
            return true;
        }
    }
    false
}

// ---- the walk

/// Passes a value.
#[cycle(sound)]
pub(crate) fn value<'a>(
    reader: &mut Reader<'a>,
    shape: Shape,
    depth: usize,
) -> Result<MemberValue<'a>, Invalid>
    ensures ok { IfOk result (λ passed. (d : Data) × IsValue depth d reader.old reader.new × Describes passed d × IsSound shape d) }
    ensures shorter { OnOk result (length reader.new < length reader.old) }
{
    match shape {
        Shape::One(Kind::Plain(scalar)) => plain(reader, scalar, depth),
        Shape::One(Kind::Object(name)) => object(reader, name, depth),
        Shape::Each(kind) => list(reader, kind, depth),
    }
}

#[cycle(sound)]
fn object<'a>(
    reader: &mut Reader<'a>,
    name: TypeName,
    depth: usize,
) -> Result<MemberValue<'a>, Invalid>
    ensures ok { IfOk result (λ passed. (d : Data) × IsValue depth d reader.old reader.new × Describes passed d × IsSound (Shape.One (Kind.Object name)) d) }
    ensures shorter { OnOk result (length reader.new < length reader.old) }
{
    match reader.next().ok_or(Invalid)? {
        Token::Null => Ok(MemberValue::Null),
        Token::BeginObject => {
            if depth == 0 {
                return Err(Invalid);
            }
            let _ = members(reader, fields(name), "", depth - 1)?;
            Ok(MemberValue::Other)
        }
        _ => Err(Invalid),
    }
}

#[cycle(sound)]
fn list<'a>(reader: &mut Reader<'a>, kind: Kind, depth: usize) -> Result<MemberValue<'a>, Invalid>
    ensures ok { IfOk result (λ passed. (d : Data) × IsValue depth d reader.old reader.new × Describes passed d × IsSound (Shape.Each kind) d) }
    ensures shorter { OnOk result (length reader.new < length reader.old) }
{
    match reader.next().ok_or(Invalid)? {
        Token::Null => Ok(MemberValue::Null),
        Token::BeginArray => {
            if depth == 0 {
                return Err(Invalid);
            }
            items(reader, kind, depth - 1)?;
            Ok(MemberValue::Other)
        }
        _ => Err(Invalid),
    }
}

/// Passes the items of an array and its end.
#[cycle(sound)]
fn items(reader: &mut Reader<'_>, kind: Kind, depth: usize) -> Result<(), Invalid>
    ensures ok { OnOk result ((ds : Items) × AreItems depth ds reader.old reader.new × (fault_of_data (Shape.Each kind) (array_data ds) ≡ None)) }
    ensures shorter { OnOk result (length reader.new < length reader.old) }
{
    'items: while !reader.take_end_array() {
        let passed = value(reader, Shape::One(kind), depth)?;
        if is_null(passed) {
            return Err(Invalid);
        }
    }
    Ok(())
}

/// Passes the members of an object and its end. The whole number at a key is told; of equal keys the last counts.
#[cycle(sound)]
pub(crate) fn members(
    reader: &mut Reader<'_>,
    rows: &'static [Field],
    key: &str,
    depth: usize,
) -> Result<Option<u64>, Invalid>
    requires { AreFew (map row_seen rows.now) }
    ensures ok { IfOk result (λ number. (ms : Members) × AreMembers depth ms reader.old reader.new × object_fault (map row_seen rows.now) ms × (number ≡ whole_at key.now (object_data ms))) }
    ensures shorter { OnOk result (length reader.new < length reader.old) }
{
    let mut found = None;
    let mut seen = [false; 40];
    'members: while let Some(name) = reader.next_key()? {
        let passed = member(reader, rows, &mut seen, name, depth)?;
        if name == key {
            found = whole(passed);
        }
    }
    if lacks(rows, &seen) {
        return Err(Invalid);
    }
    Ok(found)
}

/// Passes the value of a key, and notes that it came if there is a row for it.
#[cycle(sound)]
pub(crate) fn member<'a>(
    reader: &mut Reader<'a>,
    rows: &'static [Field],
    seen: &mut SeenRows,
    name: &str,
    depth: usize,
) -> Result<MemberValue<'a>, Invalid>
    requires { AreFew (map row_seen rows.now) }
    ensures ok { IfOk result (λ passed. (d : Data) × IsValue depth d reader.old reader.new × Describes passed d × ((found : Members) → AreKept found (map row_seen rows.now) seen.old → AreKept (put name.now d found) (map row_seen rows.now) seen.new)) }
    ensures shorter { OnOk result (length reader.new < length reader.old) }
{
    match row_of(rows, name) {
        None => passed_value(reader, depth),
        Some((place, row)) => {
            let passed = value(reader, row.shape(), depth)?;
            seen[place] = !is_null(passed);
            Ok(passed)
        }
    }
}

// ---- numbers of the items of a list

/// Passes an object of a type. The whole number at a key is told.
fn item(reader: &mut Reader<'_>, name: TypeName, key: &str) -> Result<Option<u64>, Invalid>
    ensures ok { IfOk result (λ number. (d : Data) × IsValue 124 d reader.old reader.new × (fault_of_data (Shape.One (Kind.Object name)) d ≡ None) × (number ≡ whole_at key.now d)) }
    ensures shorter { OnOk result (length reader.new < length reader.old) }
{
    let Some(Token::BeginObject) = reader.next() else {
        return Err(Invalid);
    };
    members(reader, fields(name), key, MAX_DEPTH - 4)
}

/// Passes the items of an array and its end, and adds the numbers in the range that they have at a key.
fn item_numbers(
    reader: &mut Reader<'_>,
    name: TypeName,
    key: &str,
    range: Range,
    found: &mut Vec<u64>,
) -> Result<(), Invalid>
    ensures ok { OnOk result ((ds : Items) × AreItems 124 ds reader.old reader.new × (fault_of_data (Shape.Each (Kind.Object name)) (array_data ds) ≡ None) × (found.new.items ≡ found.old.items ++ numbers_in key.now range.least range.most ds)) }
    ensures shorter { OnOk result (length reader.new < length reader.old) }
{
    'items: while !reader.take_end_array() {
        let number = item(reader, name, key)?;
        keep(found, range, number)?;
    }
    Ok(())
}

/// Passes an array of objects of a type, and adds the numbers in the range that they have at a key.
pub(crate) fn column(
    reader: &mut Reader<'_>,
    name: TypeName,
    key: &str,
    range: Range,
    found: &mut Vec<u64>,
) -> Result<(), Invalid>
    ensures ok { OnOk result ((ds : Items) × IsValue 125 (array_data ds) reader.old reader.new × (fault_of_data (Shape.Each (Kind.Object name)) (array_data ds) ≡ None) × (found.new.items ≡ found.old.items ++ numbers_in key.now range.least range.most ds)) }
    ensures shorter { OnOk result (length reader.new < length reader.old) }
{
    let Some(Token::BeginArray) = reader.next() else {
        return Err(Invalid);
    };
    item_numbers(reader, name, key, range, found)
}
