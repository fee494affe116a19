//! Columns by their names, where clauses put them, and what they store of their defaults.

ghost use Rattle.std.specs.Prelude.{◌≡◌, ◌<◌, ◌≤◌, length, option_map, IfSome};
ghost use Rattle.base_values.specs.Faults.{Answers};
ghost use Rattle.sql_change.specs.Columns.{column_place, has_column, column_named, has_place, is_in_keys, is_in_primary, is_column_position, column_position_place, lacks_default, column_of, fitting};

use crate::code::{AlterCode, AlterFault};
use crate::so_far::AlteredSoFar;
use base_values::gho_schema::{Column, Index, same_name};
use base_values::row_conversion::{ColumnPosition, NewColumn};
use base_values::schema_rules::{defaults_fit, stored_default};
use base_values::{Duplicate, Name, Value, because};
use std::alloc::Global;

/// The place of the column of this name.
#[tactic(auto, unfolding(crate::specs::Columns::column_place))]
pub fn column_place(columns: &[Column], name: &Name) -> Option<usize>
    ensures place { result ≡ column_place columns.now name.now }
    ensures within { IfSome result (λ place. place < length columns.now) }
{
    columns.iter().position(|column| same_name(
        column.name.as_str().as_bytes(),
        name.as_str().as_bytes(),
    ))
}

/// Whether a column has this name.
pub fn has_column(columns: &[Column], name: &Name) -> bool
    ensures { result ≡ has_column columns.now name.now }
{
    column_place(columns, name).is_some()
}

/// The column of this name and its place.
#[tactic(auto, unfolding(crate::specs::Columns::column_named))]
pub fn column_named<'a>(columns: &'a [Column], name: &Name) -> Option<(usize, &'a Column)>
    ensures found { option_map (λ found. (found.0, found.1.now)) result ≡ column_named columns.now name.now }
    ensures within { IfSome result (λ found. found.0 < length columns.now) }
{
    match column_place(columns, name) {
        None => None,
        Some(place) => match columns.get(place) {
            Some(column) => Some((place, column)),
            None => None,
        },
    }
}

fn has_place(place: usize, index: &Index) -> bool
    ensures { result ≡ has_place place index.now }
{
    index.places.as_slice().iter().any(|own| *own == place)
}

/// Whether the column at this place is in one of the keys.
#[tactic(auto, unfolding(crate::specs::Columns::is_in_keys))]
pub fn is_in_keys(uniques: &[Index], place: usize) -> bool
    ensures { result ≡ is_in_keys uniques.now place }
{
    uniques.iter().any(|index| has_place(place, index))
}

/// Whether the column at this place is in the PRIMARY KEY.
#[tactic(auto, unfolding(crate::specs::Columns::is_in_primary))]
pub fn is_in_primary(uniques: &[Index], place: usize) -> bool
    ensures { result ≡ is_in_primary uniques.now place }
{
    uniques
        .iter()
        .any(|index| index.name.is_none() && has_place(place, index))
}

/// Whether the column after which another is to be put is there.
pub fn is_column_position(columns: &[Column], column_position: &ColumnPosition) -> bool
    ensures { result ≡ is_column_position columns.now column_position.now }
{
    match column_position {
        ColumnPosition::Unsaid | ColumnPosition::First => true,
        ColumnPosition::After(name) => has_column(columns, name),
    }
}

/// Where a column is put among the others; where nothing is said, at this place.
#[tactic(auto, unfolding(crate::specs::Columns::column_position_place))]
pub fn column_position_place(
    columns: &[Column],
    column_position: &ColumnPosition,
    place: usize,
) -> usize
    requires within { place ≤ length columns.now }
    ensures place { result ≡ column_position_place columns.now column_position.now place }
    ensures within { result ≤ length columns.now }
{
    match column_position {
        ColumnPosition::Unsaid => place,
        ColumnPosition::First => 0,
        ColumnPosition::After(name) => match column_place(columns, name) {
            Some(place) => place + 1,
            None => 0,
        },
    }
}

fn lacks_default(origin: Option<usize>, nullable: bool, default: &Option<Value>) -> bool
    ensures { result ≡ lacks_default origin nullable default.now }
{
    matches!((origin, nullable, default), (None, false, None))
}

/// The column that a clause writes, whose values come from there.
#[tactic(auto, unfolding(crate::specs::Columns::column_of))]
pub fn column_of(
    alloc: Global,
    origin: Option<usize>,
    written: &NewColumn,
    nullable: bool,
) -> Result<Column, AlterFault>
    ensures { Answers (λ column. column) result (column_of origin written.now nullable) }
{
    let stored = stored_default(alloc, written.kind, nullable, &written.default);
    let default = because(stored, |_| AlterCode::Default)?;
    if lacks_default(origin, nullable, &default) {
        return Err(AlterFault::Refused(AlterCode::Default));
    }
    Ok(Column {
        name: written.name.copy()?,
        kind: written.kind,
        nullable,
        default,
        auto: written.auto,
    })
}

/// The table, where its defaults fit together.
pub fn fitting(standing: AlteredSoFar) -> Result<AlteredSoFar, AlterFault>
    ensures { Answers (λ standing. standing) result (fitting standing) }
{
    if defaults_fit(standing.schema.columns.as_slice()) {
        Ok(standing)
    } else {
        Err(AlterFault::Refused(AlterCode::Default))
    }
}
