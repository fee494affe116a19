//! The ALTER of a whole table at one instant.

ghost use Rattle.std.specs.Prelude.{◌≡◌, if◌then◌else◌, Some, IfOk, option_copied};
ghost use Rattle.base_values.specs.RowConversion.ConvertedRows.{converted_rows};
ghost use Rattle.table_store.specs.Databases.{is_named, with_change};
ghost use Rattle.server_model.specs.LockedRows.Databases.{WhereFound};
ghost use Rattle.base_values.specs.SchemaRules.Valid.{IsValid};
ghost use Rattle.tool_program.specs.JournalWords.AlteredTables.{imaged, altered_table, plan_altered_table};
ghost use Rattle.tool_program.specs.JournalWords.Serials.{altered_in, altered_database};
ghost use Rattle.test_histories.specs.Histories.{AreValid};

use base_values::gho_schema::Schema;
use base_values::row_conversion::{ConversionFault, MapColumn, converted_row};
use base_values::{Duplicate, Name, Row, Rows, Sequence};
use plan_data::Plan;
use sql_change::{AlterFault, altered};
use std::alloc::{AllocError, Global};
use test_model::{PlainTable, PlainTables, find_table, is_named};

/// Every row converted; none where a row can't be converted.
#[tactic(auto, unfolding(base_values::specs::RowConversion::ConvertedRows::converted_rows))]
fn converted_rows(
    alloc: Global,
    map: &[MapColumn],
    rows: &[Row],
) -> Result<Option<Rows>, AllocError>
    ensures { IfOk result (λ made. made ≡ converted_rows map.now rows.now) }
{
    let mut made = Sequence::new(alloc);
    for row in rows {
        match converted_row(alloc, map, row.as_slice()) {
            Ok(one) => made.push(one)?,
            Err(ConversionFault::Refused(_)) => return Ok(None),
            Err(ConversionFault::Memory) => return Err(AllocError),
        }
    }
    Ok(Some(made))
}

/// The table of a new schema, with every row converted.
fn imaged(
    alloc: Global,
    schema: Schema,
    map: &[MapColumn],
    rows: &[Row],
) -> Result<Option<PlainTable>, AllocError>
    ensures { IfOk result (λ made. made ≡ imaged (Some (schema, map.now)) rows.now) }
{
    match converted_rows(alloc, map, rows)? {
        Some(rows) => Ok(Some(PlainTable::new(schema, rows))),
        None => Ok(None),
    }
}

/// What the plan's ALTER makes of a table.
#[tactic(auto, unfolding(tool_program::specs::JournalWords::AlteredTables::altered_table))]
fn altered_table(
    alloc: Global,
    plan: &Plan,
    table: &PlainTable,
) -> Result<Option<PlainTable>, AllocError>
    requires { IsValid table.now.schema }
    ensures { IfOk result (λ made. made ≡ plan_altered_table plan.now table.now) }
{
    let approve = plan.options().approve_renamed_columns;
    match altered(alloc, table.schema(), plan.alter(), approve) {
        Ok((schema, map)) => imaged(alloc, schema, map.as_slice(), table.rows()),
        Err(AlterFault::Refused(_)) => Ok(None),
        Err(AlterFault::Memory) => Err(AllocError),
    }
}

fn table_or(name: &Name, new: &PlainTable, table: &PlainTable) -> Result<PlainTable, AllocError>
    ensures { IfOk result (λ after. after ≡ (if is_named name.now table.now then new.now else table.now)) }
{
    if is_named(name, table) {
        new.copy()
    } else {
        table.copy()
    }
}

/// The tables with this one under its name.
fn with_table(
    alloc: Global,
    name: &Name,
    new: &PlainTable,
    tables: &[PlainTable],
) -> Result<PlainTables, AllocError>
    ensures { IfOk result (λ after. after ≡ with_change name.now (λ old. new.now) tables.now) }
{
    let mut after = Sequence::new(alloc);
    for table in tables {
        after.push(table_or(name, new, table)?)?;
    }
    Ok(after)
}

fn altered_in(
    alloc: Global,
    plan: &Plan,
    tables: &[PlainTable],
    table: Option<&PlainTable>,
) -> Result<Option<PlainTables>, AllocError>
    requires { WhereFound (λ found. IsValid found.schema) (option_copied table) }
    ensures { IfOk result (λ after. after ≡ altered_in plan.now tables.now (option_copied table.entry)) }
{
    let Some(table) = table else {
        return Ok(None);
    };
    match altered_table(alloc, plan, table)? {
        Some(new) => Ok(Some(with_table(alloc, plan.table(), &new, tables)?)),
        None => Ok(None),
    }
}

/// The tables with the migrated one altered; none where the ALTER is refused or a row can't be converted.
#[tactic(auto, unfolding(tool_program::specs::JournalWords::Serials::altered_database))]
pub fn altered_database(
    alloc: Global,
    plan: &Plan,
    tables: &[PlainTable],
) -> Result<Option<PlainTables>, AllocError>
    requires { AreValid tables.now }
    ensures { IfOk result (λ after. after ≡ altered_database plan.now tables.now) }
{
    altered_in(alloc, plan, tables, find_table(plan.table(), tables))
}
