//! The columns that a statement names.

ghost use Rattle.std.specs.Prelude.{◌≡◌, ◌==◌, position, option_copied, IfOk};
ghost use Rattle.std.specs.List.{list_any};
ghost use Rattle.base_values.specs.GhoSchema.Names.{same_name};
ghost use Rattle.server_model.specs.Checks.{place_of, places_named, are_distinct, beside, places_from, places_listed};

use crate::refusals::{Checked, refuses};
use base_values::gho_schema::{Column, Schema, same_name};
use base_values::mysql_errors::{ER_BAD_FIELD_ERROR, ER_FIELD_SPECIFIED_TWICE};
use base_values::{Name, Names, Sequence, Value};
use std::alloc::{AllocError, Global};

fn column_of(columns: &[Column], name: &Name) -> Option<usize>
    ensures { result ≡ position (λ column. same_name column.name name.now) columns.now }
{
    columns.iter().position(|column| same_name(
        column.name.as_str().as_bytes(),
        name.as_str().as_bytes(),
    ))
}

/// The place of the column of this name.
fn place_of(schema: &Schema, name: &Name) -> Checked<usize>
    ensures { result ≡ place_of schema.now name.now }
{
    match column_of(schema.columns.as_slice(), name) {
        Some(place) => Ok(place),
        None => Err(refuses(ER_BAD_FIELD_ERROR)),
    }
}

/// The places of the columns of these names.
#[tactic(auto, unfolding(server_model::specs::Checks::places_named))]
pub fn places_named(
    alloc: Global,
    schema: &Schema,
    names: &[Name],
) -> Result<Checked<Sequence<usize>>, AllocError>
    ensures { IfOk result (λ places. places ≡ places_named schema.now names.now) }
{
    let mut places = Sequence::new(alloc);
    for name in names {
        match place_of(schema, name) {
            Ok(place) => places.push(place)?,
            Err(refusal) => return Ok(Err(refusal)),
        }
    }
    Ok(Ok(places))
}

/// Whether the place is one of the others.
pub fn is_among(place: usize, others: &[usize]) -> bool
    ensures { result ≡ list_any (λ other. place == other) others.now }
{
    others.iter().any(|other| place == *other)
}

/// Whether no place is named twice.
#[tactic(auto, unfolding(server_model::specs::Checks::are_distinct))]
pub fn are_distinct(places: &[usize]) -> bool
    ensures { result ≡ are_distinct places.now }
{
    let mut rest = places;
    while let Some((place, others)) = rest.split_first() {
        if is_among(*place, others) {
            return false;
        }
        rest = others;
    }
    true
}

/// The value that is beside a place, where one does.
#[tactic(auto, unfolding(server_model::specs::Checks::beside))]
pub fn beside<'a>(place: usize, places: &[usize], values: &'a [Value]) -> Option<&'a Value>
    ensures { option_copied result ≡ beside place places.now values.now }
{
    let mut rest = values;
    for other in places {
        let Some((value, others)) = rest.split_first() else {
            return None;
        };
        if place == *other {
            return Some(value);
        }
        rest = others;
    }
    None
}

/// The places of all columns.
fn all_places(alloc: Global, columns: &[Column]) -> Result<Sequence<usize>, AllocError>
    ensures { IfOk result (λ places. places ≡ places_from 0 columns.now) }
{
    let mut places = Sequence::new(alloc);
    for place in 0..columns.len() {
        places.push(place)?;
    }
    Ok(places)
}

/// The places of the columns that an INSERT names; of all where it names none.
pub fn places_listed(
    alloc: Global,
    schema: &Schema,
    names: &Option<Names>,
) -> Result<Checked<Sequence<usize>>, AllocError>
    ensures { IfOk result (λ places. places ≡ places_listed schema.now names.now) }
{
    let Some(names) = names else {
        return Ok(Ok(all_places(alloc, schema.columns.as_slice())?));
    };
    let places = match places_named(alloc, schema, names.as_slice())? {
        Ok(places) => places,
        Err(refusal) => return Ok(Err(refusal)),
    };
    if !are_distinct(places.as_slice()) {
        return Ok(Err(refuses(ER_FIELD_SPECIFIED_TWICE)));
    }
    Ok(Ok(places))
}
