//! The first fault of a value, by a walk over its tree.
ghost use Rattle.std.specs.Prelude.{◌≡◌, map, bytes_eq, IfOk, None, option_map};
ghost use Rattle.std.specs.List.{list_any};
ghost use Rattle.serde_json.specs.Find.{as_str};
ghost use Rattle.serde_json.specs.View.{view, items_view};
ghost use Rattle.dap_json.specs.Field.{tree_at};
ghost use Rattle.dap_json.specs.Lent.{lent_data};
ghost use Rattle.dap_shape.specs.Shapes.{inside as one_further, missing, misfit as misfit_of};
ghost use Rattle.dap_shape.specs.Rows.{values_of};
ghost use Rattle.dap_shape.specs.Faults.{is_whole as is_whole_number, is_among, is_of as is_scalar, row_fault, rows_fault, fault_of as fault_of_data, items_fault as items_fault_of};
ghost use Rattle.dap_shape.specs.Seen.{row_seen, step_seen, fault_seen};

use crate::entries::values;
use crate::fault::{Cause, Inward, ShapeFault};
use crate::rows::fields;
use crate::shape::{Choice, Field, Kind, Scalar, Shape, TypeName};
use dap_json::field;
use serde_json::Value;
use std::alloc::{AllocError, Global};

// ---- values without parts

/// Whether it is a whole number, of 64 bits.
fn is_whole(value: &Value) -> bool
    ensures { result ≡ is_whole_number (view value.now) }
{
    match value.as_number() {
        None => false,
        Some(number) => !number.is_f64(),
    }
}

/// Whether a text is among those of a list.
pub(crate) fn has_text(texts: &[&str], text: &str) -> bool
    ensures { result ≡ list_any (bytes_eq text.now) (map (λ one. one.now) texts.now) }
{
    for one in texts {
        if text == *one {
            return true;
        }
    }
    false
}

/// Whether it is one of the texts of a closed list.
fn is_one_of(choice: Choice, value: &Value) -> bool
    ensures { result ≡ is_among (values_of choice) (as_str (view value.now)) }
{
    match value.as_str() {
        None => false,
        Some(text) => has_text(values(choice), text),
    }
}

fn is_of(scalar: Scalar, value: &Value) -> bool
    ensures { result ≡ is_scalar scalar (view value.now) }
{
    match scalar {
        Scalar::Any => true,
        Scalar::Text => value.is_string(),
        Scalar::Boolean => value.is_boolean(),
        Scalar::Whole => is_whole(value),
        Scalar::Number => value.is_number(),
        Scalar::WholeOrText => is_whole(value) || value.is_string(),
        Scalar::OneOf(choice) => is_one_of(choice, value),
    }
}

// ---- faults

fn misfit(alloc: Global, shape: Shape) -> ShapeFault
    ensures { fault_seen result ≡ misfit_of shape }
{
    ShapeFault {
        path: Vec::new(alloc),
        cause: Cause::OtherThan(shape),
    }
}

fn absence(alloc: Global, key: &'static str) -> ShapeFault
    ensures { fault_seen result ≡ missing key.now }
{
    ShapeFault {
        path: Vec::new(alloc),
        cause: Cause::Absent(key),
    }
}

/// The same fault, seen from one step further out.
fn inside(mut fault: ShapeFault, step: Inward) -> Result<ShapeFault, AllocError>
    ensures { IfOk result (λ outer. fault_seen outer ≡ one_further (step_seen step) (fault_seen fault)) }
{
    fault.path.insert(0, step)?;
    Ok(fault)
}

fn within(found: Option<ShapeFault>, step: Inward) -> Result<Option<ShapeFault>, AllocError>
    ensures { IfOk result (λ outer. option_map fault_seen outer ≡ option_map (one_further (step_seen step)) (option_map fault_seen found)) }
{
    match found {
        None => Ok(None),
        Some(fault) => Ok(Some(inside(fault, step)?)),
    }
}

// ---- the walk

fn scalar_fault(alloc: Global, scalar: Scalar, value: &Value) -> Option<ShapeFault>
    ensures { option_map fault_seen result ≡ fault_of_data (Shape.One (Kind.Plain scalar)) (view value.now) }
{
    if is_of(scalar, value) {
        return None;
    }
    Some(misfit(alloc, Shape::One(Kind::Plain(scalar))))
}

/// What is wrong at a key, where its object has no value.
fn lack(alloc: Global, field: Field) -> Option<ShapeFault>
    ensures { option_map fault_seen result ≡ row_fault (row_seen field) None }
{
    match field {
        Field::Required(key, _) => Some(absence(alloc, key)),
        Field::Optional(..) => None,
    }
}

/// The first fault of a value, as far as it is not of a shape; none where it is of it. Of an object, the rows of its type
/// are looked at in their order, of a list the elements.
#[cycle(shape)]
pub(crate) fn fault_of(
    alloc: Global,
    shape: Shape,
    value: &Value,
) -> Result<Option<ShapeFault>, AllocError>
    ensures { IfOk result (λ found. option_map fault_seen found ≡ fault_of_data shape (view value.now)) }
{
    match shape {
        Shape::One(Kind::Plain(scalar)) => Ok(scalar_fault(alloc, scalar, value)),
        Shape::One(Kind::Object(name)) => object_fault(alloc, name, value),
        Shape::Each(kind) => list_fault(alloc, kind, value),
    }
}

#[cycle(shape)]
fn object_fault(
    alloc: Global,
    name: TypeName,
    value: &Value,
) -> Result<Option<ShapeFault>, AllocError>
    ensures { IfOk result (λ found. option_map fault_seen found ≡ fault_of_data (Shape.One (Kind.Object name)) (view value.now)) }
{
    if !value.is_object() {
        return Ok(Some(misfit(alloc, Shape::One(Kind::Object(name)))));
    }
    fields_fault(alloc, fields(name), value)
}

#[cycle(shape)]
fn list_fault(alloc: Global, kind: Kind, value: &Value) -> Result<Option<ShapeFault>, AllocError>
    ensures { IfOk result (λ found. option_map fault_seen found ≡ fault_of_data (Shape.Each kind) (view value.now)) }
{
    let Some(items) = value.as_array() else {
        return Ok(Some(misfit(alloc, Shape::Each(kind))));
    };
    items_fault(alloc, kind, items)
}

#[cycle(shape)]
fn fields_fault(
    alloc: Global,
    fields: &'static [Field],
    value: &Value,
) -> Result<Option<ShapeFault>, AllocError>
    ensures { IfOk result (λ found. option_map fault_seen found ≡ rows_fault (λ key shape. option_map (fault_of_data shape) (tree_at key (view value.now))) (map row_seen fields.now)) }
{
    for field in fields {
        let found = member_fault(alloc, *field, value)?;
        if found.is_some() {
            return Ok(found);
        }
    }
    Ok(None)
}

#[cycle(shape)]
fn member_fault(
    alloc: Global,
    field: Field,
    value: &Value,
) -> Result<Option<ShapeFault>, AllocError>
    ensures { IfOk result (λ found. option_map fault_seen found ≡ row_fault (row_seen field) (option_map (fault_of_data (row_seen field).shape) (tree_at (row_seen field).key (view value.now)))) }
{
    held_fault(alloc, field, field::present(value, field.key()))
}

/// The first fault at a key, by the value that stands there.
#[cycle(shape)]
pub(crate) fn held_fault(
    alloc: Global,
    field: Field,
    held: Option<&Value>,
) -> Result<Option<ShapeFault>, AllocError>
    ensures { IfOk result (λ found. option_map fault_seen found ≡ row_fault (row_seen field) (option_map (fault_of_data (row_seen field).shape) (lent_data held.entry))) }
{
    let Some(value) = held else {
        return Ok(lack(alloc, field));
    };
    let found = fault_of(alloc, field.shape(), value)?;
    within(found, Inward::Key(field.key()))
}

#[cycle(shape)]
fn items_fault(
    alloc: Global,
    kind: Kind,
    items: &Vec<Value>,
) -> Result<Option<ShapeFault>, AllocError>
    ensures { IfOk result (λ found. option_map fault_seen found ≡ items_fault_of 0 kind (items_view items.now.items)) }
{
    for (place, item) in items.iter().enumerate() {
        let found = fault_of(alloc, Shape::One(kind), item)?;
        if found.is_some() {
            return within(found, Inward::Place(place as u64));
        }
    }
    Ok(None)
}
