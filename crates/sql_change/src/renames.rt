//! RENAME COLUMN.

ghost use Rattle.std.specs.Prelude.{◌≡◌, ◌<◌, ◌≤◌, length, slice_set, IfOk};
ghost use Rattle.base_values.specs.SchemaRules.Reasons.{first_reason};
ghost use Rattle.sql_change.specs.ClauseResults.{is_unapproved, rename_reasons, with_name, renamed_in, renamed};
ghost use Rattle.base_values.specs.Faults.{Answers};
ghost use Rattle.sql_change.specs.AlteredSoFar.{Stands};

use crate::code::{AlterCode, AlterFault};
use crate::columns::{column_named, has_column};
use crate::so_far::{AlteredSoFar, copied, removed};
use base_values::gho_schema::{Column, Columns, Schema, same_name};
use base_values::schema_rules::is_column_name;
use base_values::{Duplicate, Name, Sequence, Shared};
use std::alloc::{AllocError, Global};

/// Whether a column gets another name without leave.
pub fn is_unapproved(approve: bool, old: &Name, new: &Name) -> bool
    ensures { result ≡ is_unapproved approve old.now new.now }
{
    !approve && !same_name(old.as_str().as_bytes(), new.as_str().as_bytes())
}

fn rename_reason(
    alloc: Global,
    approve: bool,
    columns: &Columns,
    place: usize,
    old: &Name,
    new: &Name,
) -> Result<Option<AlterCode>, AllocError>
    requires { place < length columns.now }
    ensures { IfOk result (λ reason. reason ≡ first_reason (rename_reasons approve columns.now place old.now new.now)) }
{
    let others = removed(columns.to_sequence(alloc)?, place);
    Ok(if has_column(others.as_slice(), new) {
        Some(AlterCode::RepeatedName)
    } else if !is_column_name(new.as_str()) {
        Some(AlterCode::Scope)
    } else if is_unapproved(approve, old, new) {
        Some(AlterCode::RenameNotApproved)
    } else {
        None
    })
}

fn with_name(column: &Column, name: &Name) -> Result<Column, AllocError>
    ensures { IfOk result (λ renamed. renamed ≡ with_name column.now name.now) }
{
    Ok(Column {
        name: name.copy()?,
        kind: column.kind,
        nullable: column.nullable,
        default: column.default.copy()?,
        auto: column.auto,
    })
}

fn replaced(columns: Sequence<Column>, place: usize, column: Column) -> Sequence<Column>
    requires { place < length columns }
    ensures { result ≡ slice_set columns place column }
{
    let mut columns = columns.into_vec();
    columns[place] = column;
    Sequence::from_vec(columns)
}

#[tactic(auto, unfolding(crate::specs::ClauseResults::renamed_in))]
fn renamed_in(
    alloc: Global,
    standing: &AlteredSoFar,
    place: usize,
    column: Column,
) -> Result<AlteredSoFar, AllocError>
    requires { place < length standing.now.schema.columns }
    ensures { IfOk result (λ renamed. renamed ≡ renamed_in standing.now place column) }
{
    let schema = &standing.schema;
    let columns = replaced(schema.columns.to_sequence(alloc)?, place, column);
    Ok(AlteredSoFar {
        schema: Schema {
            name: schema.name.copy()?,
            columns: Shared::from_sequence(columns)?,
            uniques: schema.uniques.copy()?,
            indexes: schema.indexes.copy()?,
            comment: schema.comment.copy()?,
            start: schema.start,
        },
        origins: copied(alloc, standing.origins.as_slice())?,
    })
}

/// The table with another name for a column.
#[tactic(auto, unfolding(crate::specs::ClauseResults::renamed))]
pub fn renamed(
    alloc: Global,
    approve: bool,
    standing: &AlteredSoFar,
    old: &Name,
    new: &Name,
) -> Result<AlteredSoFar, AlterFault>
    requires { Stands standing.now }
    ensures { Answers (λ standing. standing) result (renamed approve standing.now old.now new.now) }
{
    let columns = &standing.schema.columns;
    match column_named(columns.as_slice(), old) {
        None => Err(AlterFault::Refused(AlterCode::UnknownName)),
        Some((place, column)) => match rename_reason(
            alloc,
            approve,
            columns,
            place,
            &column.name,
            new,
        )? {
            Some(code) => Err(AlterFault::Refused(code)),
            None => Ok(renamed_in(alloc, standing, place, with_name(column, new)?)?),
        },
    }
}
