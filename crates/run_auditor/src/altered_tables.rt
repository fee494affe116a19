//! The ALTER of whole tables, at one instant.

ghost use Rattle.std.specs.Prelude.{◌≡◌, ◌++◌, ◌∷◌, [], true, if◌then◌else◌, option_map, Some, IfOk, OnOk};
ghost use Rattle.base_values.specs.GhoSchema.Rows.{key_places};
ghost use Rattle.base_values.specs.GhoSchema.Tables.{Ascends};
ghost use Rattle.base_values.specs.RowConversion.ConvertedRows.{converted_rows};
ghost use Rattle.plan_data.specs.PlanData.{altered_by, plan_altered};
ghost use Rattle.server_model.specs.LockedRows.Databases.{IsWellFormedDatabase};
ghost use Rattle.table_store.specs.Databases.{TableRows, database, is_named};
ghost use Rattle.tool_program.specs.JournalWords.AlteredTables.{plan_altered_table};
ghost use Rattle.tool_program.specs.JournalWords.Serials.{altered_database};
ghost use Rattle.run_auditor.specs.Judging.{AltersTables, IsPlanned, table_after};

use crate::opening::add_other;
use base_values::row_conversion::{ConversionFault, MapColumn, converted_row};
use base_values::{Duplicate, Rows, Sequence};
use plan_data::Plan;
use std::alloc::{AllocError, Global};
use table_store::paged_tables::Tables;
use table_store::paged_tables::row_pages::{SpanRows, Table};

/// Every row converted; none where a row can't be converted.
#[tactic(auto, unfolding(base_values::specs::RowConversion::ConvertedRows::converted_rows))]
fn converted_rows(
    alloc: Global,
    map: &[MapColumn],
    rows: SpanRows<'_>,
) -> Result<Option<Rows>, AllocError>
    ensures { IfOk result (λ made. made ≡ converted_rows map.now rows.entry) }
{
    let mut made = Sequence::new(alloc);
    for row in rows {
        match converted_row(alloc, map, row.as_slice()) {
            Ok(one) => made.push(one)?,
            Err(ConversionFault::Refused(_)) => return Ok(None),
            Err(ConversionFault::Memory) => return Err(AllocError),
        }
    }
    Ok(Some(made))
}

/// What the plan's ALTER makes of the table.
#[tactic(auto, unfolding(tool_program::specs::JournalWords::AlteredTables::altered_table))]
fn altered_table(alloc: Global, plan: &Plan, table: &Table) -> Result<Option<Table>, AllocError>
    requires planned { altered_by plan.now table.now.table.schema ≡ plan_altered plan.now }
    requires ordered { (after : TableRows) → plan_altered_table plan.now table.now.table ≡ Some after → Ascends (key_places after.schema) after.rows }
    ensures { IfOk result (λ made. option_map (λ table. table.table) made ≡ plan_altered_table plan.now table.now.table) }
{
    let altered = plan.altered();
    match converted_rows(alloc, altered.map.as_slice(), table.rows())? {
        None => Ok(None),
        Some(rows) => {
            let schema = altered.schema.copy()?;
            Ok(Some(Table::from_rows(alloc, schema, rows.as_slice())?))
        }
    }
}

/// The table after the ALTER: the plan's is altered, another one stays as it is.
fn table_after(alloc: Global, plan: &Plan, table: &Table) -> Result<Option<Table>, AllocError>
    requires planned { is_named plan.now.table table.now.table ≡ true → altered_by plan.now table.now.table.schema ≡ plan_altered plan.now }
    requires ordered { (after : TableRows) → is_named plan.now.table table.now.table ≡ true → plan_altered_table plan.now table.now.table ≡ Some after → Ascends (key_places after.schema) after.rows }
    ensures { IfOk result (λ made. option_map (λ table. table.table) made ≡ table_after plan.now table.now.table) }
{
    if table.schema().name == *plan.table() {
        altered_table(alloc, plan, table)
    } else {
        Ok(Some(table.copy_table(alloc)?))
    }
}

/// The tables after the ALTER; none where the plan's isn't there, or a row of it can't be converted.
pub fn altered_tables(
    alloc: Global,
    plan: &Plan,
    tables: &Tables,
) -> Result<Option<Tables>, AllocError>
    requires planned { IsPlanned plan.now (database tables.now) }
    requires formed { IsWellFormedDatabase (database tables.now) }
    requires alters { AltersTables plan.now }
    ensures { IfOk result (λ after. option_map database after ≡ altered_database plan.now (database tables.now)) }
{
    if !tables.stands(plan.table()) {
        return Ok(None);
    }
    let mut after = Tables::new(alloc);
    for place in 0..tables.len() {
        match table_after(alloc, plan, tables.at(place))? {
            Some(table) => add_other(&mut after, table)?,
            None => return Ok(None),
        }
    }
    Ok(Some(after))
}
