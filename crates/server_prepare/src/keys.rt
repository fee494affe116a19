//! The unique key that a condition asks for.

ghost use Rattle.std.specs.Prelude.{◌≡◌, ◌==◌, ◌++◌, position, option_to_list, slice_get, Some, None, if◌then◌else◌, IfOk, OnOk};
ghost use Rattle.std.specs.List.{list_all, list_any};
ghost use Rattle.server_model.specs.Checks.{are_distinct, beside, has_columns, wanted_at, wanted_each, key_from, is_only};

use crate::columns::{are_distinct, beside, is_among};
use crate::refusals::{Checked, refuses, refuses_value};
use base_values::gho_schema::{Index, Schema};
use base_values::mysql_errors::ER_BAD_FIELD_ERROR;
use base_values::row_conversion::UnfitAt;
use base_values::{Duplicate, Key, Sequence, Shared, StoreFault, Value, Values, seek};
use std::alloc::{AllocError, Global};

/// Whether each of the places is one of the others.
fn are_among(places: &[usize], others: &[usize]) -> bool
    ensures { result ≡ list_all (λ place. list_any (λ other. place == other) others.now) places.now }
{
    places.iter().all(|place| is_among(*place, others))
}

/// Whether the key's columns are just these.
fn has_columns(places: &[usize], index: &Index) -> bool
    ensures { result ≡ has_columns places.now index.now }
{
    are_among(index.places.as_slice(), places) && are_among(places, index.places.as_slice())
}

/// The first of the keys whose columns are just these.
fn key_with(places: &[usize], uniques: &[Index]) -> Option<usize>
    ensures { result ≡ position (has_columns places.now) uniques.now }
{
    uniques.iter().position(|index| has_columns(places, index))
}

/// The first unique key whose columns are just these, each once, by its place among the unique keys.
pub fn key_of_columns(schema: &Schema, places: &[usize]) -> Option<usize>
    ensures { result ≡ (if are_distinct places.now then position (has_columns places.now) schema.now.uniques else None) }
{
    if !are_distinct(places) {
        return None;
    }
    key_with(places, schema.uniques.as_slice())
}

/// What the column at this place compares with a literal.
fn wanted_at(
    alloc: Global,
    schema: &Schema,
    place: usize,
    value: &Value,
) -> Result<Checked<Value>, AllocError>
    ensures { IfOk result (λ sought. sought ≡ wanted_at place (slice_get schema.now.columns place) (Some value.now)) }
{
    let Some(column) = schema.columns.as_slice().get(place) else {
        return Ok(Err(refuses(ER_BAD_FIELD_ERROR)));
    };
    match seek(alloc, value, column.kind) {
        Ok(value) => Ok(Ok(value)),
        Err(StoreFault::Refused(unfit)) => Ok(Err(refuses_value(UnfitAt {
            column: place,
            unfit,
        }))),
        Err(StoreFault::Memory) => Err(AllocError),
    }
}

/// The values that are wanted in the columns at these places.
#[tactic(auto, unfolding(server_model::specs::Checks::wanted_each))]
pub fn wanted_each(
    alloc: Global,
    schema: &Schema,
    places: &[usize],
    values: &[Value],
) -> Result<Checked<Values>, AllocError>
    ensures { IfOk result (λ sought. sought ≡ wanted_each schema.now places.now values.now) }
{
    let mut sought = Sequence::new(alloc);
    let mut rest = values;
    for place in places {
        let Some((value, others)) = rest.split_first() else {
            return Ok(Ok(sought));
        };
        let value = match wanted_at(alloc, schema, *place, value)? {
            Ok(value) => value,
            Err(refusal) => return Ok(Err(refusal)),
        };
        sought.push(value)?;
        rest = others;
    }
    Ok(Ok(sought))
}

fn push_beside(
    key: &mut Values,
    place: usize,
    places: &[usize],
    values: &[Value],
) -> Result<(), AllocError>
    ensures { OnOk result (key.new ≡ key.old ++ option_to_list (beside place places.now values.now)) }
{
    match beside(place, places, values) {
        Some(value) => key.push(value.copy()?),
        None => Ok(()),
    }
}

/// A key's values, from values beside places.
#[tactic(auto, using(crate::proofs::Beside::with_value_is))]
pub fn key_from(
    alloc: Global,
    key: &[usize],
    places: &[usize],
    values: &[Value],
) -> Result<Key, AllocError>
    ensures { IfOk result (λ found. found ≡ key_from key.now places.now values.now) }
{
    let mut found = Sequence::new(alloc);
    for place in key {
        push_beside(&mut found, *place, places, values)?;
    }
    Shared::from_sequence(found)
}

/// Whether the others are all this place.
fn are_all(place: usize, others: &[usize]) -> bool
    ensures { result ≡ list_all (λ other. place == other) others.now }
{
    others.iter().all(|other| place == *other)
}

/// Whether the places are all the one place of the key.
pub fn is_only(key: &[usize], others: &[usize]) -> bool
    ensures { result ≡ is_only key.now others.now }
{
    match key.split_first() {
        Some((place, rest)) => match rest.split_first() {
            Some(_) => false,
            None => are_all(*place, others),
        },
        None => false,
    }
}
