//! The body of a message, passed with no tree: whether it has no fault, and the references that it gives.
ghost use Rattle.std.specs.Prelude.{◌≡◌, ◌<◌, map, length, OnOk, None};
ghost use Rattle.serde_json.specs.Data.{Data, Items, Members, array as array_data, object as object_data, no_members, put};
ghost use Rattle.dap_json.specs.Inside.{numbers_in};
ghost use Rattle.dap_command.specs.Gathered.{AreGivenBy};
ghost use Rattle.dap_command.specs.Objects.{number_key_of, least_of};
ghost use Rattle.dap_shape.specs.Faults.{fault_of};
ghost use Rattle.dap_shape.specs.Seen.{row_seen};
ghost use Rattle.dap_shape.specs.PrivateSound.{AreFew, AreKept, object_fault, IsValue, AreMembers};

use crate::rows::fields;
use crate::shape::{Field, Kind, Shape, TypeName};
use crate::sound::{SeenRows, column, lacks, member, row_of};
use dap_command::{GatheredReferences, GivenObjects};
use dap_json::object_reader::{Invalid, MAX_DEPTH, keep, whole};
use json::{Reader, Token};

/// How deep what stands in a body may nest.
const DEPTH: usize = MAX_DEPTH - 2;

/// Passes the list of such objects, and keeps their numbers in place of those before.
fn list_of_row(
    reader: &mut Reader<'_>,
    rows: &'static [Field],
    seen: &mut SeenRows,
    name: &str,
    objects: GivenObjects,
    numbers: &mut Vec<u64>,
) -> Result<(), Invalid>
    requires { AreFew (map row_seen rows.now) }
    ensures ok { OnOk result ((ds : Items) × IsValue 125 (array_data ds) reader.old reader.new × (numbers.new.items ≡ numbers_in (number_key_of objects) (least_of objects) 2147483647 ds)
        × ((ms : Members) → AreKept ms (map row_seen rows.now) seen.old → AreKept (put name.now (array_data ds) ms) (map row_seen rows.now) seen.new)) }
    ensures shorter { OnOk result (length reader.new < length reader.old) }
{
    let Some((place, row)) = row_of(rows, name) else {
        return Err(Invalid);
    };
    let Shape::Each(Kind::Object(type_name)) = row.shape() else {
        return Err(Invalid);
    };
    numbers.clear();
    column(
        reader,
        type_name,
        objects.number_key(),
        objects.range(),
        numbers,
    )?;
    seen[place] = true;
    Ok(())
}

/// Passes the value of a key, and gathers what it gives.
fn take_member(
    reader: &mut Reader<'_>,
    rows: &'static [Field],
    seen: &mut SeenRows,
    name: &str,
    given: &mut GatheredReferences,
) -> Result<(), Invalid>
    requires { AreFew (map row_seen rows.now) }
    ensures ok { OnOk result ((d : Data) × IsValue 125 d reader.old reader.new × ((ms : Members) → AreGivenBy given.old (object_data ms) → AreGivenBy given.new (object_data (put name.now d ms)))
        × ((ms : Members) → AreKept ms (map row_seen rows.now) seen.old → AreKept (put name.now d ms) (map row_seen rows.now) seen.new)) }
    ensures shorter { OnOk result (length reader.new < length reader.old) }
{
    match GivenObjects::at_member(name) {
        GivenObjects::Nothing => {
            let _ = member(reader, rows, seen, name, DEPTH)?;
            Ok(())
        }
        GivenObjects::Frames => {
            let objects = GivenObjects::Frames;
            list_of_row(reader, rows, seen, name, objects, &mut given.frames)
        }
        GivenObjects::Scopes => {
            let objects = GivenObjects::Scopes;
            list_of_row(reader, rows, seen, name, objects, &mut given.scopes)
        }
        GivenObjects::Variables => {
            let objects = GivenObjects::Variables;
            list_of_row(reader, rows, seen, name, objects, &mut given.variables)
        }
        GivenObjects::Value => {
            given.own.clear();
            let passed = member(reader, rows, seen, name, DEPTH)?;
            keep(&mut given.own, GivenObjects::Value.range(), whole(passed))
        }
    }
}

/// Passes the members of a body and its end.
fn take_members(
    reader: &mut Reader<'_>,
    rows: &'static [Field],
    given: &mut GatheredReferences,
) -> Result<(), Invalid>
    requires few { AreFew (map row_seen rows.now) }
    requires gathered { AreGivenBy given.old (object_data no_members) }
    ensures ok { OnOk result ((ms : Members) × AreMembers 125 ms reader.old reader.new × AreGivenBy given.new (object_data ms) × object_fault (map row_seen rows.now) ms) }
    ensures shorter { OnOk result (length reader.new < length reader.old) }
{
    let mut seen = [false; 40];
    'members: while let Some(name) = reader.next_key()? {
        take_member(reader, rows, &mut seen, name, given)?;
    }
    if lacks(rows, &seen) {
        return Err(Invalid);
    }
    Ok(())
}

/// Passes the body that comes next, which is an object of a type, and gathers what it gives in place of what was gathered
/// before.
pub(crate) fn pass_body(
    reader: &mut Reader<'_>,
    name: TypeName,
    given: &mut GatheredReferences,
) -> Result<(), Invalid>
    ensures ok { OnOk result ((ms : Members) × IsValue 126 (object_data ms) reader.old reader.new × AreGivenBy given.new (object_data ms) × (fault_of (Shape.One (Kind.Object name)) (object_data ms) ≡ None)) }
    ensures shorter { OnOk result (length reader.new < length reader.old) }
{
    let Some(Token::BeginObject) = reader.next() else {
        return Err(Invalid);
    };
    given.clear();
    take_members(reader, fields(name), given)
}
