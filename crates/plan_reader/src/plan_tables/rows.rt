//! The rows of a plan's table.

ghost use Rattle.std.specs.Prelude.{◌≡◌, ◌<◌, ◌≤◌, ◌+◌, None, is_some, map, length, IfOk, OnOk};
ghost use Rattle.base_values.specs.GhoSchema.Tables.{IsTable};
ghost use Rattle.table_store.specs.Databases.{clashing};
ghost use Rattle.table_store.specs.ClusteredKeys.{HasClusteredKey};
ghost use Rattle.plan_reader.specs.PlanTables.Refusals.{Finds};
ghost use Rattle.base_values.specs.Faults.{Answers};
ghost use Rattle.plan_reader.specs.PlanTables.Rows.{put_text, or_bad, put_texts};
ghost use Rattle.plan_reader.specs.PlanTables.Tables.{of_rows};

use crate::plan_tables::fault::{RowFault, TableFault, TableRefusal};
use crate::plan_tables::row_text::read_row;
use base_values::Row;
use std::alloc::{AllocError, Global};
use table_store::laws::put_keeps_tables;
use table_store::paged_tables::row_pages::Table;

fn clashes(table: &Table, row: &Row) -> bool
    ensures { result ≡ is_some (clashing table.now.table row.now None) }
{
    table.clash(row, None).is_some()
}

/// Puts the row whose text this is in its place.
#[tactic(auto, unfolding(crate::specs::PlanTables::Rows::put_text))]
fn put_text(alloc: Global, table: &mut Table, text: &str) -> Result<(), RowFault>
    requires room { 0 < table.old.spare }
    requires keyed { HasClusteredKey table.old.table.schema }
    requires is_table { IsTable table.old.table.schema table.old.table.rows }
    ensures table { Finds (λ _. table.new.table) result (put_text table.old.table text.now) }
    ensures schema { table.new.table.schema ≡ table.old.table.schema }
    ensures is_table { OnOk result (IsTable table.new.table.schema table.new.table.rows) }
    ensures spare { OnOk result (table.new.spare + 1 ≡ table.old.spare) }
{
    put_keeps_tables();
    let row = read_row(alloc, text, table.schema().columns.as_slice())?;
    if clashes(table, &row) {
        return Err(RowFault::Bad);
    }
    table.put(row);
    Ok(())
}

/// The same, where a refusal has the numbers of table and row.
fn put_numbered(
    alloc: Global,
    number: u32,
    row: u32,
    table: &mut Table,
    text: &str,
) -> Result<(), TableFault>
    requires room { 0 < table.old.spare }
    requires keyed { HasClusteredKey table.old.table.schema }
    requires is_table { IsTable table.old.table.schema table.old.table.rows }
    ensures table { Answers (λ _. table.new.table) result (of_rows number (or_bad row (put_text table.old.table text.now))) }
    ensures schema { table.new.table.schema ≡ table.old.table.schema }
    ensures is_table { OnOk result (IsTable table.new.table.schema table.new.table.rows) }
    ensures spare { OnOk result (table.new.spare + 1 ≡ table.old.spare) }
{
    match put_text(alloc, table, text) {
        Ok(()) => Ok(()),
        Err(RowFault::Bad) => Err(TableFault::Refused(TableRefusal::BadRow { table: number, row })),
        Err(RowFault::Memory) => Err(TableFault::Memory),
    }
}

/// The table of this number with the rows whose texts these are.
fn put_texts(
    alloc: Global,
    number: u32,
    mut table: Table,
    texts: &[&str],
) -> Result<Table, TableFault>
    requires room { length texts.now ≤ table.spare }
    requires keyed { HasClusteredKey table.table.schema }
    requires is_table { IsTable table.table.schema table.table.rows }
    ensures table { Answers (λ table. table.table) result (of_rows number (put_texts 1 table.table (map (λ text. text.now) texts.now))) }
    ensures schema { IfOk result (λ read. read.table.schema ≡ table.table.schema) }
    ensures is_table { IfOk result (λ table. IsTable table.table.schema table.table.rows) }
{
    let mut row: u32 = 1;
    for text in texts {
        put_numbered(alloc, number, row, &mut table, text)?;
        row = row.saturating_add(1);
    }
    Ok(table)
}

/// The table of this number, which has no row yet, with the rows whose texts these are.
pub fn read_rows(
    alloc: Global,
    number: u32,
    mut table: Table,
    texts: &[&str],
) -> Result<Table, TableFault>
    requires keyed { HasClusteredKey table.table.schema }
    requires is_table { IsTable table.table.schema table.table.rows }
    ensures table { Answers (λ read. read.table) result (of_rows number (put_texts 1 table.table (map (λ text. text.now) texts.now))) }
    ensures schema { IfOk result (λ read. read.table.schema ≡ table.table.schema) }
    ensures is_table { IfOk result (λ read. IsTable read.table.schema read.table.rows) }
{
    table.reserve(texts.len())?;
    put_texts(alloc, number, table, texts)
}
