//! The clustered key.

ghost use Rattle.std.specs.Prelude.{◌≡◌, ◌<◌, length, option_map, IfSome};
ghost use Rattle.std.specs.List.{list_all, slice_get};
ghost use Rattle.base_values.specs.GhoSchema.ClusteredKey.{is_not_null, may_cluster, clustered_place, clustered_key};

use crate::gho_schema::schema::{Column, Index, Schema};

fn is_not_null(columns: &[Column], place: usize) -> bool
    ensures { result ≡ is_not_null (slice_get columns.now place) }
{
    match columns.get(place) {
        Some(column) => !column.nullable,
        None => false,
    }
}

/// Whether the columns at these places may not be null.
pub fn are_not_null(columns: &[Column], places: &[usize]) -> bool
    ensures { result ≡ list_all (λ place. is_not_null (slice_get columns.now place)) places.now }
{
    places.iter().all(|place| is_not_null(columns, *place))
}

/// Whether rows of these columns may be kept in order of the key.
pub fn may_cluster(columns: &[Column], index: &Index) -> bool
    ensures { result ≡ may_cluster columns.now index.now }
{
    index.name.is_none() || are_not_null(columns, index.places.as_slice())
}

/// The clustered key's place among the unique keys, where there is one.
#[tactic(auto, unfolding(crate::specs::GhoSchema::ClusteredKey::clustered_among))]
pub fn clustered_place(schema: &Schema) -> Option<usize>
    ensures place { result ≡ clustered_place schema.now }
    ensures within { IfSome result (λ place. place < length schema.now.uniques) }
{
    let columns = schema.columns.as_slice();
    schema
        .uniques
        .as_slice()
        .iter()
        .position(|index| may_cluster(columns, index))
}

/// The clustered key, where there is one.
pub fn clustered_key(schema: &Schema) -> Option<&Index>
    ensures { option_map (λ index. index.now) result ≡ clustered_key schema.now }
{
    match clustered_place(schema) {
        Some(place) => schema.uniques.as_slice().get(place),
        None => None,
    }
}
