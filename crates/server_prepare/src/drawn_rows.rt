//! The AUTO_INCREMENT column of an INSERT or a REPLACE: whether a number is drawn for it, and the new row with that number.

ghost use Rattle.std.specs.Prelude.{◌≡◌, ◌==◌, ◌++◌, pos, option_copied, slice_get, Some, Ok, IfOk, OnOk};
ghost use Rattle.std.specs.List.{list_any};
ghost use Rattle.base_values.specs.declared.value.Value.TheVariants.{Num};
ghost use Rattle.server_model.specs.Checks.{draws, draws_for, drawn_row, is_zero, names_filled, row_draws, value_set, values_filled};

use crate::columns::{beside, is_among, places_listed};
use crate::refusals::Checked;
use crate::rows::new_row;
use base_script::Statement;
use base_values::gho_schema::{Column, Schema};
use base_values::{Duplicate, Names, Row, Sequence, Shared, StoreFault, Value, Values, store};
use server_model::auto_place;
use std::alloc::{AllocError, Global};

/// The names, with the column's own after them where it isn't among them.
fn names_filled(
    column: Option<&Column>,
    named: bool,
    names: &Option<Names>,
) -> Result<Option<Names>, AllocError>
    ensures { IfOk result (λ filled. filled ≡ names_filled (option_copied column.entry) named names.now) }
{
    match (column, names) {
        (Some(column), Some(names)) if !named => {
            let mut filled = names.copy()?;
            filled.push(column.name.copy()?)?;
            Ok(Some(filled))
        }
        _ => names.copy(),
    }
}

fn push_all(row: &mut Values, values: &[Value]) -> Result<(), AllocError>
    ensures { OnOk result (row.new ≡ row.old ++ values.now) }
{
    for value in values {
        row.push(value.copy()?)?;
    }
    Ok(())
}

/// The values, with the number in place of what is written for the column of this place.
#[tactic(auto, unfolding(server_model::specs::Checks::value_set))]
fn value_set(
    alloc: Global,
    place: usize,
    places: &[usize],
    number: u64,
    values: &[Value],
) -> Result<Row, AllocError>
    ensures { IfOk result (λ row. row ≡ value_set place places.now (Num (pos number)) values.now) }
{
    let mut row = Sequence::new(alloc);
    let mut rest = values;
    for other in places {
        let Some((value, others)) = rest.split_first() else {
            return Shared::from_sequence(row);
        };
        if place == *other {
            row.push(Value::Num(number as i128))?;
            push_all(&mut row, others)?;
            return Shared::from_sequence(row);
        }
        row.push(value.copy()?)?;
        rest = others;
    }
    Shared::from_sequence(row)
}

/// The values, with the number for the column of this place.
fn values_filled(
    alloc: Global,
    place: usize,
    places: &[usize],
    number: u64,
    values: &[Value],
) -> Result<Row, AllocError>
    ensures { IfOk result (λ row. row ≡ values_filled place places.now (list_any (λ other. place == other) places.now) (Num (pos number)) values.now) }
{
    if is_among(place, places) {
        return value_set(alloc, place, places, number, values);
    }
    let mut row = Sequence::new(alloc);
    push_all(&mut row, values)?;
    row.push(Value::Num(number as i128))?;
    Shared::from_sequence(row)
}

fn column_at(schema: &Schema, place: usize) -> Option<&Column>
    ensures { option_copied result ≡ slice_get schema.now.columns place }
{
    schema.columns.as_slice().get(place)
}

/// The new row of an INSERT or a REPLACE, with the number that it drew as the literal of the AUTO_INCREMENT column.
#[tactic(auto, unfolding(server_model::specs::Checks::new_row))]
pub fn drawn_row(
    alloc: Global,
    schema: &Schema,
    names: &Option<Names>,
    values: &[Value],
    drawn: Option<u64>,
) -> Result<Checked<Row>, AllocError>
    ensures { IfOk result (λ row. row ≡ drawn_row schema.now names.now values.now drawn) }
{
    let Some(number) = drawn else {
        return new_row(alloc, schema, names, values);
    };
    let Some(place) = auto_place(schema) else {
        return new_row(alloc, schema, names, values);
    };
    let places = match places_listed(alloc, schema, names)? {
        Ok(places) => places,
        Err(refusal) => return Ok(Err(refusal)),
    };
    let named = is_among(place, places.as_slice());
    let filled = names_filled(column_at(schema, place), named, names)?;
    let values = values_filled(alloc, place, places.as_slice(), number, values)?;
    new_row(alloc, schema, &filled, values.as_slice())
}

fn is_zero(value: &Value) -> bool
    ensures { result ≡ is_zero (Ok value.now) }
{
    matches!(value, Value::Num(0))
}

/// Whether a column draws a number where it is given this value.
fn draws_for(alloc: Global, column: &Column, value: Option<&Value>) -> Result<bool, AllocError>
    ensures { IfOk result (λ draws. draws ≡ draws_for (Some column.now) (Ok (option_copied value.entry))) }
{
    match value {
        None | Some(Value::Null) => Ok(true),
        Some(value) => match store(alloc, value, column.kind, column.nullable) {
            Ok(stored) => Ok(is_zero(&stored)),
            Err(StoreFault::Refused(_)) => Ok(false),
            Err(StoreFault::Memory) => Err(AllocError),
        },
    }
}

/// Whether a new row draws a number for the column of this place.
#[tactic(auto, unfolding(server_model::specs::Checks::value_given))]
fn row_draws(
    alloc: Global,
    schema: &Schema,
    names: &Option<Names>,
    values: &[Value],
    place: usize,
) -> Result<bool, AllocError>
    ensures { IfOk result (λ draws. draws ≡ row_draws schema.now names.now values.now (Some place)) }
{
    let Some(column) = column_at(schema, place) else {
        return Ok(false);
    };
    let places = match places_listed(alloc, schema, names)? {
        Ok(places) => places,
        Err(_refusal) => return Ok(false),
    };
    if places.len() != values.len() {
        return Ok(false);
    }
    draws_for(alloc, column, beside(place, places.as_slice(), values))
}

/// Whether the statement draws a number for the AUTO_INCREMENT column of a table of this schema.
#[tactic(auto, unfolding(server_model::specs::Checks::draws))]
pub fn draws(alloc: Global, schema: &Schema, statement: &Statement) -> Result<bool, AllocError>
    ensures { IfOk result (λ drawn. drawn ≡ draws schema.now statement.now) }
{
    let Some(place) = auto_place(schema) else {
        return Ok(false);
    };
    match statement {
        Statement::Insert {
            columns,
            values,
            ..
        }
        | Statement::Replace {
            columns,
            values,
            ..
        } => row_draws(alloc, schema, columns, values.as_slice(), place),
        _ => Ok(false),
    }
}
