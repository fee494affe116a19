//! The new row of an INSERT or a REPLACE.

ghost use Rattle.std.specs.Prelude.{◌≡◌, option_copied, IfOk};
ghost use Rattle.base_values.specs.StoredValues.{stores};
ghost use Rattle.server_model.specs.Checks.{value_at, given_or, row_from, new_row};

use crate::columns::{beside, places_listed};
use crate::refusals::{Checked, refuses, refuses_value};
use base_values::gho_schema::{Column, Schema};
use base_values::mysql_errors::{ER_NO_DEFAULT_FOR_FIELD, ER_WRONG_VALUE_COUNT_ON_ROW};
use base_values::row_conversion::UnfitAt;
use base_values::{Duplicate, Names, Row, Sequence, Shared, StoreFault, Value, store};
use std::alloc::{AllocError, Global};

/// What the column at this place stores of a value.
pub fn stored(
    alloc: Global,
    place: usize,
    column: &Column,
    value: &Value,
) -> Result<Checked<Value>, AllocError>
    ensures { IfOk result (λ stored. stored ≡ value_at place (stores value.now column.now.kind column.now.nullable)) }
{
    match store(alloc, value, column.kind, column.nullable) {
        Ok(value) => Ok(Ok(value)),
        Err(StoreFault::Refused(unfit)) => Ok(Err(refuses_value(UnfitAt {
            column: place,
            unfit,
        }))),
        Err(StoreFault::Memory) => Err(AllocError),
    }
}

/// What a column of a new row has: the value given for it, else its default.
fn given_or(
    alloc: Global,
    place: usize,
    column: &Column,
    given: Option<&Value>,
) -> Result<Checked<Value>, AllocError>
    ensures { IfOk result (λ value. value ≡ given_or place column.now (option_copied given.entry) column.now.default) }
{
    if let Some(value) = given {
        return stored(alloc, place, column, value);
    }
    match &column.default {
        Some(default) => Ok(Ok(default.copy()?)),
        None => Ok(Err(refuses(ER_NO_DEFAULT_FOR_FIELD))),
    }
}

/// A new row, column by column, of values for the columns at these places.
#[tactic(auto, unfolding(server_model::specs::Checks::row_from))]
fn row_from(
    alloc: Global,
    columns: &[Column],
    places: &[usize],
    values: &[Value],
) -> Result<Checked<Row>, AllocError>
    ensures { IfOk result (λ row. row ≡ row_from 0 columns.now places.now values.now) }
{
    let mut row = Sequence::new(alloc);
    let mut place = 0;
    for column in columns {
        let value = match given_or(alloc, place, column, beside(place, places, values))? {
            Ok(value) => value,
            Err(refusal) => return Ok(Err(refusal)),
        };
        row.push(value)?;
        place += 1;
    }
    Ok(Ok(Shared::from_sequence(row)?))
}

/// The new row of an INSERT or a REPLACE, with its columns checked first, then the number of values, then each value.
#[tactic(auto, unfolding(server_model::specs::Checks::new_row))]
pub fn new_row(
    alloc: Global,
    schema: &Schema,
    names: &Option<Names>,
    values: &[Value],
) -> Result<Checked<Row>, AllocError>
    ensures { IfOk result (λ row. row ≡ new_row schema.now names.now values.now) }
{
    let places = match places_listed(alloc, schema, names)? {
        Ok(places) => places,
        Err(refusal) => return Ok(Err(refusal)),
    };
    if places.len() != values.len() {
        return Ok(Err(refuses(ER_WRONG_VALUE_COUNT_ON_ROW)));
    }
    row_from(alloc, schema.columns.as_slice(), places.as_slice(), values)
}
