//! Tables made of rows in order, and copied.

ghost use Rattle.std.specs.Prelude.{◌≡◌, ◌<◌, ◌+◌, ◌++◌, ◌∷◌, [], IfOk};
ghost use Rattle.base_values.specs.GhoSchema.Rows.{key_places};
ghost use Rattle.base_values.specs.GhoSchema.Tables.{Ascends};

use crate::paged_tables::row_pages::table::Table;
use base_values::gho_schema::Schema;
use base_values::{Duplicate, Row, Rows, Sequence};
use std::alloc::{AllocError, Global};

/// Puts a row after the others.
fn put_last(table: &mut Table, row: Row)
    requires room { 0 < table.old.spare }
    requires last { Ascends (key_places table.old.table.schema) (table.old.table.rows ++ row ∷ []) }
    ensures schema { table.new.table.schema ≡ table.old.table.schema }
    ensures rows { table.new.table.rows ≡ table.old.table.rows ++ row ∷ [] }
    ensures spare { table.new.spare + 1 ≡ table.old.spare }
{
    table.put(row)
}

/// The table of rows in order of the clustered key.
pub fn table_of(alloc: Global, schema: Schema, rows: &[Row]) -> Result<Table, AllocError>
    requires { Ascends (key_places schema) rows.now }
    ensures schema { IfOk result (λ table. table.table.schema ≡ schema) }
    ensures rows { IfOk result (λ table. table.table.rows ≡ rows.now) }
{
    let mut table = Table::new(alloc, schema);
    table.reserve(rows.len())?;
    for row in rows {
        put_last(&mut table, row.copy()?);
    }
    Ok(table)
}

/// A copy of a table, with what room it may have.
pub fn copied_table(alloc: Global, table: &Table) -> Result<Table, AllocError>
    ensures { IfOk result (λ copy. copy.table ≡ table.now.table) }
{
    let schema = table.schema();
    let mut copy = Table::new(alloc, schema.copy()?);
    copy.reserve(table.len())?;
    for row in table.rows() {
        put_last(&mut copy, row.copy()?);
    }
    Ok(copy)
}

/// Copies of a table's rows, in order.
pub fn copied_rows(alloc: Global, table: &Table) -> Result<Rows, AllocError>
    ensures { IfOk result (λ copy. copy ≡ table.now.table.rows) }
{
    let mut rows = table.rows();
    let mut copy = Vec::new(alloc);
    while let Some(row) = rows.next() {
        copy.push(row.copy()?)?;
    }
    Ok(Sequence::from_vec(copy))
}
