//! The rows that a condition reaches, and those that clash with a new row.

ghost use Rattle.std.specs.Prelude.{◌≡◌, not, IfOk};
ghost use Rattle.std.specs.List.{list_any};
ghost use Rattle.base_values.specs.GhoSchema.Tables.{clash};
ghost use Rattle.server_model.specs.Rows.{rows_met, same_row};
ghost use Rattle.server_model.specs.StatementResults.{displaced, clashes_besides};

use crate::keys::{clash, reaches};
use crate::rows::push_copy;
use base_values::gho_schema::Schema;
use base_values::{Row, Rows, Sequence};
use server_model::Reach;
use std::alloc::{AllocError, Global};

/// Copies of the rows that a condition reaches, in order.
pub fn rows_met(
    alloc: Global,
    schema: &Schema,
    reach: &Reach,
    rows: &[Row],
) -> Result<Rows, AllocError>
    ensures { IfOk result (λ met. met ≡ rows_met schema.now reach.now rows.now) }
{
    let mut met = Sequence::new(alloc);
    for row in rows {
        if reaches(alloc, schema, reach, row)? {
            push_copy(&mut met, row)?;
        }
    }
    Ok(met)
}

/// Copies of the rows that clash with a new one, in order.
pub fn displaced(
    alloc: Global,
    schema: &Schema,
    new: &Row,
    rows: &[Row],
) -> Result<Rows, AllocError>
    ensures { IfOk result (λ found. found ≡ displaced schema.now new.now rows.now) }
{
    let mut found = Sequence::new(alloc);
    for row in rows {
        if clash(alloc, schema.uniques.as_slice(), new, row)? {
            push_copy(&mut found, row)?;
        }
    }
    Ok(found)
}

/// Whether the new row clashes with one.
pub fn clashes(alloc: Global, schema: &Schema, new: &Row, rows: &[Row]) -> Result<bool, AllocError>
    ensures { IfOk result (λ is. is ≡ list_any (clash schema.now.uniques new.now) rows.now) }
{
    for row in rows {
        if clash(alloc, schema.uniques.as_slice(), new, row)? {
            return Ok(true);
        }
    }
    Ok(false)
}

/// Whether the new row clashes with one besides the row that it takes the place of.
pub fn clashes_besides(
    alloc: Global,
    schema: &Schema,
    new: &Row,
    old: &Row,
    rows: &[Row],
) -> Result<bool, AllocError>
    ensures { IfOk result (λ is. is ≡ clashes_besides schema.now new.now old.now rows.now) }
{
    for row in rows {
        if clash(alloc, schema.uniques.as_slice(), new, row)? && !old.cmp(row).is_eq() {
            return Ok(true);
        }
    }
    Ok(false)
}
