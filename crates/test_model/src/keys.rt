//! Keys of rows: which rows clash, and which lie under a span.

ghost use Rattle.std.specs.Prelude.{◌≡◌, ◌&&◌, Some, IfOk, option_copied, slice_get};
ghost use Rattle.std.specs.Ordering.{is_eq};
ghost use Rattle.base_values.specs.KeyOrder.{compare_keys};
ghost use Rattle.base_values.specs.Spans.{above, below};
ghost use Rattle.base_values.specs.GhoSchema.Rows.{key_of};
ghost use Rattle.base_values.specs.GhoSchema.Tables.{no_null, clash};
ghost use Rattle.server_model.specs.Rows.{lies_under, reaches};

use base_values::gho_schema::{Index, Schema, key_of};
use base_values::{Bound, Key, Row, Span, Value};
use server_model::Reach;
use std::alloc::{AllocError, Global};

/// Whether no value of the key is null.
fn has_no_null(key: &[Value]) -> bool
    ensures { result ≡ no_null key.now }
{
    for value in key {
        if let Value::Null = value {
            return false;
        }
    }
    true
}

/// Whether two rows have the same values in this key, none of them null.
fn clash_in(alloc: Global, places: &[usize], row: &Row, other: &Row) -> Result<bool, AllocError>
    ensures { IfOk result (λ clash. clash ≡ (is_eq (compare_keys (key_of places.now row.now) (key_of places.now other.now)) && no_null (key_of places.now row.now))) }
{
    let ours = key_of(alloc, places, row.as_slice())?;
    let theirs = key_of(alloc, places, other.as_slice())?;
    Ok(ours.cmp(&theirs).is_eq() && has_no_null(ours.as_slice()))
}

/// Whether two rows clash in one of these keys.
pub fn clash(alloc: Global, uniques: &[Index], row: &Row, other: &Row) -> Result<bool, AllocError>
    ensures { IfOk result (λ is. is ≡ clash uniques.now row.now other.now) }
{
    for index in uniques {
        if clash_in(alloc, index.places.as_slice(), row, other)? {
            return Ok(true);
        }
    }
    Ok(false)
}

/// Whether the key is on the inner side of a lower end.
fn is_above(low: &Bound, key: &Key) -> bool
    ensures { result ≡ above low.now key.now }
{
    match low {
        Bound::Open(end) => end.cmp(key).is_lt(),
        Bound::Closed(end) => end.cmp(key).is_le(),
        Bound::Free => true,
    }
}

/// Whether the key is on the inner side of an upper end.
fn is_below(high: &Bound, key: &Key) -> bool
    ensures { result ≡ below high.now key.now }
{
    match high {
        Bound::Open(end) => key.cmp(end).is_lt(),
        Bound::Closed(end) => key.cmp(end).is_le(),
        Bound::Free => true,
    }
}

/// Whether the row lies under a span of a key.
#[tactic(auto, unfolding(server_model::specs::Rows::lies_under, base_values::specs::Spans::has))]
fn lies_under(alloc: Global, index: &Index, span: &Span, row: &Row) -> Result<bool, AllocError>
    ensures { IfOk result (λ lies. lies ≡ lies_under (Some index.now) span.now row.now) }
{
    let key = key_of(alloc, index.places.as_slice(), row.as_slice())?;
    Ok(has_no_null(key.as_slice()) && is_above(&span.low, &key) && is_below(&span.high, &key))
}

/// The unique key at this place.
fn key_at(schema: &Schema, place: usize) -> Option<&Index>
    ensures { option_copied result ≡ slice_get schema.now.uniques place }
{
    schema.uniques.as_slice().get(place)
}

/// Whether the row's value of the key is one of these.
#[tactic(auto, unfolding(server_model::specs::Rows::lies_under))]
pub fn reaches(alloc: Global, schema: &Schema, reach: &Reach, row: &Row) -> Result<bool, AllocError>
    ensures { IfOk result (λ is. is ≡ reaches schema.now reach.now row.now) }
{
    match key_at(schema, reach.key) {
        Some(index) => lies_under(alloc, index, &reach.span, row),
        None => Ok(false),
    }
}
