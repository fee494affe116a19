//! What a condition reaches.

ghost use Rattle.std.specs.Prelude.{◌≡◌, map, None, if◌then◌else◌, IfOk};
ghost use Rattle.base_values.specs.GhoSchema.ClusteredKey.{clustered_place};
ghost use Rattle.base_values.specs.GhoSchema.Rows.{key_places};
ghost use Rattle.server_model.specs.Checks.{is_only, reach_equal, reach_range, reach_of};

use crate::columns::places_named;
use crate::keys::{is_only, key_from, key_of_columns, wanted_each};
use crate::parts::{compared_columns, compared_values, set_columns, set_values};
use crate::ranges::{spans_together, whole};
use crate::refusals::{Checked, refuses};
use base_script::{Comparison, Condition, Set};
use base_values::Span;
use base_values::gho_schema::{Schema, clustered_place};
use base_values::mysql_errors::ER_NOT_SUPPORTED_YET;
use server_model::Reach;
use std::alloc::{AllocError, Global};

/// Equalities: on the columns of a unique key.
#[tactic(auto, unfolding(server_model::specs::Checks::reach_equal))]
fn reach_equal(alloc: Global, schema: &Schema, sets: &[Set]) -> Result<Checked<Reach>, AllocError>
    ensures { IfOk result (λ reach. reach ≡ reach_equal schema.now (map (λ set. set.column) sets.now) (map (λ set. set.value) sets.now)) }
{
    let names = set_columns(alloc, sets)?;
    let places = match places_named(alloc, schema, names.as_slice())? {
        Ok(places) => places,
        Err(refusal) => return Ok(Err(refusal)),
    };
    let Some(place) = key_of_columns(schema, places.as_slice()) else {
        return Ok(Err(refuses(ER_NOT_SUPPORTED_YET)));
    };
    let values = set_values(alloc, sets)?;
    let sought = match wanted_each(alloc, schema, places.as_slice(), values.as_slice())? {
        Ok(sought) => sought,
        Err(refusal) => return Ok(Err(refusal)),
    };
    let key = key_from(
        alloc,
        schema.places_at(place),
        places.as_slice(),
        sought.as_slice(),
    )?;
    Ok(Ok(Reach {
        key: place,
        span: Span::point(key)?,
    }))
}

/// The clustered key's place, where its one column is all that is compared.
fn range_key(schema: &Schema, places: &[usize]) -> Option<usize>
    ensures { result ≡ (if is_only (key_places schema.now) places.now then clustered_place schema.now else None) }
{
    if is_only(schema.key_places(), places) {
        clustered_place(schema)
    } else {
        None
    }
}

/// Comparisons: of the one column of the clustered key.
#[tactic(auto, unfolding(server_model::specs::Checks::reach_range))]
fn reach_range(
    alloc: Global,
    schema: &Schema,
    comparisons: &[Comparison],
) -> Result<Checked<Reach>, AllocError>
    ensures { IfOk result (λ reach. reach ≡ reach_range schema.now comparisons.now) }
{
    let names = compared_columns(alloc, comparisons)?;
    let places = match places_named(alloc, schema, names.as_slice())? {
        Ok(places) => places,
        Err(refusal) => return Ok(Err(refusal)),
    };
    let Some(place) = range_key(schema, places.as_slice()) else {
        return Ok(Err(refuses(ER_NOT_SUPPORTED_YET)));
    };
    let values = compared_values(alloc, comparisons)?;
    match wanted_each(alloc, schema, places.as_slice(), values.as_slice())? {
        Ok(sought) => Ok(Ok(Reach {
            key: place,
            span: spans_together(alloc, comparisons, sought.as_slice())?,
        })),
        Err(refusal) => Ok(Err(refusal)),
    }
}

/// What a condition reaches.
#[tactic(auto, unfolding(server_model::specs::Checks::reach_of))]
pub fn reach_of(
    alloc: Global,
    schema: &Schema,
    condition: &Condition,
) -> Result<Checked<Reach>, AllocError>
    ensures { IfOk result (λ reach. reach ≡ reach_of schema.now condition.now) }
{
    match condition {
        Condition::All => match clustered_place(schema) {
            Some(place) => Ok(Ok(Reach {
                key: place,
                span: whole(),
            })),
            None => Ok(Err(refuses(ER_NOT_SUPPORTED_YET))),
        },
        Condition::Equal(sets) => reach_equal(alloc, schema, sets.as_slice()),
        Condition::Range(comparisons) => reach_range(alloc, schema, comparisons.as_slice()),
    }
}
