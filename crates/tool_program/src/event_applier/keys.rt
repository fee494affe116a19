//! Whether a change of a row changes a unique key of the new table. Nothing here takes memory.

ghost use Rattle.std.specs.Prelude.{◌≡◌, option_to_list};
ghost use Rattle.std.specs.List.{list_all, slice_get};
ghost use Rattle.std.specs.Ordering.{is_eq};
ghost use Rattle.base_values.specs.KeyOrder.{compare_keys};
ghost use Rattle.base_values.specs.GhoSchema.Rows.{key_of};
ghost use Rattle.tool_program.specs.EventApplier.Appliers.{given_values, changes_key};

use base_values::Value;
use base_values::gho_schema::Schema;
use base_values::row_conversion::{MapColumn, source};

/// Whether the two rows give the column at a place the same value.
#[tactic(auto, using(crate::proofs::EventApplier::RowKeys::keys))]
fn same_at(map: &[MapColumn], place: usize, before: &[Value], after: &[Value]) -> bool
    ensures { result ≡ is_eq (compare_keys (option_to_list (slice_get (given_values map.now before.now) place)) (option_to_list (slice_get (given_values map.now after.now) place))) }
{
    let null = Value::Null;
    match map.get(place) {
        Some(column) => {
            source(&column.origin, before, &null) == source(&column.origin, after, &null)
        }
        None => true,
    }
}

/// Whether the two rows give each of the columns at these places the same value.
fn same_places(map: &[MapColumn], places: &[usize], before: &[Value], after: &[Value]) -> bool
    ensures { result ≡ list_all (λ place. is_eq (compare_keys (option_to_list (slice_get (given_values map.now before.now) place)) (option_to_list (slice_get (given_values map.now after.now) place)))) places.now }
{
    places
        .iter()
        .all(|place| same_at(map, *place, before, after))
}

/// Whether the two rows have the same key at these places.
fn same_key(map: &[MapColumn], places: &[usize], before: &[Value], after: &[Value]) -> bool
    ensures { result ≡ is_eq (compare_keys (key_of places.now (given_values map.now before.now)) (key_of places.now (given_values map.now after.now))) }
{
    same_places(map, places, before, after)
}

/// Whether some unique key of the new table gets another value.
pub(crate) fn changes_key(
    schema: &Schema,
    map: &[MapColumn],
    before: &[Value],
    after: &[Value],
) -> bool
    ensures { result ≡ changes_key schema.now (given_values map.now before.now) (given_values map.now after.now) }
{
    schema.uniques.as_slice().iter().any(|index| !same_key(
        map,
        index.places.as_slice(),
        before,
        after,
    ))
}
