//! CHANGE COLUMN and MODIFY COLUMN.

ghost use Rattle.std.specs.Prelude.{◌≡◌, ◌<◌, length, IfOk};
ghost use Rattle.base_values.specs.SchemaRules.Reasons.{first_reason};
ghost use Rattle.sql_change.specs.ClauseResults.{breaks_counter, change_reasons, changed_nullable, changed_in, unless_unapproved, changed_column, changed};
ghost use Rattle.base_values.specs.Faults.{Answers};
ghost use Rattle.sql_change.specs.AlteredSoFar.{Stands};

use crate::code::{AlterCode, AlterFault};
use crate::columns::{
    column_named, column_of, column_position_place, fitting, has_column, is_column_position,
    is_in_keys, is_in_primary,
};
use crate::conversions::{is_conversion, is_key_conversion};
use crate::renames::is_unapproved;
use crate::so_far::{AlteredSoFar, origin_at, removed};
use base_values::Name;
use base_values::gho_schema::{Column, Schema, is_widest};
use base_values::row_conversion::{ColumnPosition, NewColumn};
use base_values::schema_rules::is_column_name;
use std::alloc::{AllocError, Global};

fn breaks_counter(column: &Column, written: &NewColumn) -> bool
    ensures { result ≡ breaks_counter column.now written.now }
{
    if column.auto {
        !written.auto || is_widest(written.kind) || written.default.is_some()
    } else {
        written.auto
    }
}

fn change_reason(
    alloc: Global,
    schema: &Schema,
    place: usize,
    column: &Column,
    written: &NewColumn,
    column_position: &ColumnPosition,
) -> Result<Option<AlterCode>, AllocError>
    requires { place < length schema.now.columns }
    ensures { IfOk result (λ reason. reason ≡ first_reason (change_reasons schema.now place column.now written.now column_position.now)) }
{
    let others = removed(schema.columns.to_sequence(alloc)?, place);
    let others = others.as_slice();
    let is_in_keys = is_in_keys(schema.uniques.as_slice(), place);
    Ok(if !is_column_position(others, column_position) {
        Some(AlterCode::UnknownName)
    } else if has_column(others, &written.name) {
        Some(AlterCode::RepeatedName)
    } else if is_in_keys && !is_key_conversion(column.kind, written.kind) {
        Some(AlterCode::KeyColumnConverted)
    } else if !is_conversion(column.kind, written.kind)
        || !is_column_name(written.name.as_str())
        || breaks_counter(column, written)
    {
        Some(AlterCode::Scope)
    } else {
        None
    })
}

fn changed_nullable(schema: &Schema, place: usize, written: &NewColumn) -> bool
    ensures { result ≡ changed_nullable schema.now place written.now }
{
    match written.nullable {
        Some(nullable) => nullable,
        None => !is_in_primary(schema.uniques.as_slice(), place),
    }
}

fn changed_in(
    alloc: Global,
    standing: &AlteredSoFar,
    place: usize,
    column_position: &ColumnPosition,
    column: Column,
) -> Result<AlteredSoFar, AllocError>
    requires stands { Stands standing.now }
    requires within { place < length standing.now.schema.columns }
    ensures { IfOk result (λ changed. changed ≡ changed_in standing.now place column_position.now column) }
{
    let others = removed(standing.schema.columns.to_sequence(alloc)?, place);
    let to = column_position_place(others.as_slice(), column_position, place);
    standing.moved_to(alloc, place, to, column)
}

fn unless_unapproved(
    is_unapproved: bool,
    standing: AlteredSoFar,
) -> Result<AlteredSoFar, AlterFault>
    ensures { Answers (λ standing. standing) result (unless_unapproved is_unapproved standing) }
{
    if is_unapproved {
        Err(AlterFault::Refused(AlterCode::RenameNotApproved))
    } else {
        Ok(standing)
    }
}

fn changed_column(
    alloc: Global,
    approve: bool,
    standing: &AlteredSoFar,
    place: usize,
    column: &Column,
    written: &NewColumn,
    column_position: &ColumnPosition,
) -> Result<AlteredSoFar, AlterFault>
    requires stands { Stands standing.now }
    requires within { place < length standing.now.schema.columns }
    ensures { Answers (λ standing. standing) result (changed_column approve standing.now place column.now written.now column_position.now) }
{
    let origin = origin_at(standing.origins.as_slice(), place);
    let nullable = changed_nullable(&standing.schema, place, written);
    let new = column_of(alloc, origin, written, nullable)?;
    let changed = fitting(changed_in(alloc, standing, place, column_position, new)?)?;
    unless_unapproved(is_unapproved(approve, &column.name, &written.name), changed)
}

/// The table with a column as it is written now.
#[tactic(auto, unfolding(crate::specs::ClauseResults::changed))]
pub fn changed(
    alloc: Global,
    approve: bool,
    standing: &AlteredSoFar,
    old: &Name,
    written: &NewColumn,
    column_position: &ColumnPosition,
) -> Result<AlteredSoFar, AlterFault>
    requires { Stands standing.now }
    ensures { Answers (λ standing. standing) result (changed approve standing.now old.now written.now column_position.now) }
{
    match column_named(standing.schema.columns.as_slice(), old) {
        None => Err(AlterFault::Refused(AlterCode::UnknownName)),
        Some((place, column)) => {
            let schema = &standing.schema;
            match change_reason(alloc, schema, place, column, written, column_position)? {
                Some(code) => Err(AlterFault::Refused(code)),
                None => changed_column(
                    alloc,
                    approve,
                    standing,
                    place,
                    column,
                    written,
                    column_position,
                ),
            }
        }
    }
}
