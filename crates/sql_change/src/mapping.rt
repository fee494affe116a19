//! Where the values of the new columns come from.

ghost use Rattle.std.specs.Prelude.{◌≡◌, IfOk, ◌≤◌, length};
ghost use Rattle.sql_change.specs.AlteredSchema.{source_of, map_of};

use base_values::gho_schema::Column;
use base_values::row_conversion::{ColumnMap, MapColumn, Origin};
use base_values::{Duplicate, Sequence, Shared, Value};
use std::alloc::{AllocError, Global};

fn source_of(origin: Option<usize>, default: &Option<Value>) -> Result<Origin, AllocError>
    ensures { IfOk result (λ source. source ≡ source_of origin default.now) }
{
    match (origin, default) {
        (Some(place), _) => Ok(Origin::Old(place)),
        (None, Some(value)) => Ok(Origin::Added(value.copy()?)),
        (None, None) => Ok(Origin::Added(Value::Null)),
    }
}

/// Where the values of each column come from.
#[tactic(auto, unfolding(crate::specs::AlteredSchema::map_of))]
pub fn map_of(
    alloc: Global,
    columns: &[Column],
    origins: &[Option<usize>],
) -> Result<ColumnMap, AllocError>
    requires { length origins.now ≡ length columns.now }
    ensures { IfOk result (λ map. map ≡ map_of columns.now origins.now) }
{
    let mut map = Sequence::new(alloc);
    for (i, column) in columns.iter().enumerate() {
        let origin = source_of(origins[i], &column.default)?;
        map.push(MapColumn {
            kind: column.kind,
            nullable: column.nullable,
            origin,
        })?;
    }
    Shared::from_sequence(map)
}
