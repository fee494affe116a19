//! The tables that are left.

ghost use Rattle.std.specs.Prelude.{◌≡◌, ◌++◌, option_to_list, OnOk};
ghost use Rattle.tool_program.specs.JournalWords.Serials.{tables_left};
ghost use Rattle.table_store.specs.Databases.{database, find_table};
ghost use Rattle.table_print.specs.Tables.{row_lines};
ghost use Rattle.top_report.specs.Tables.{left_of, rows_text, table_text, tables_text};

use crate::client_lines::push_number_line;
use base_values::Text;
use base_values::tool_names::is_tool_name;
use plan_data::Plan;
use std::alloc::AllocError;
use std::slice;
use table_print::{push_row_lines, push_table_line};
use table_store::paged_tables::Tables;
use table_store::paged_tables::row_pages::{SpanRows, Table};

/// Adds each row on a line of its own.
#[tactic(auto, unfolding(table_print::specs::Tables::row_lines))]
fn push_each(into: &mut Text, rows: SpanRows<'_>) -> Result<(), AllocError>
    ensures { OnOk result (into.new ≡ into.old ++ row_lines rows.entry) }
{
    for row in rows {
        push_row_lines(into, slice::from_ref(row))?;
    }
    Ok(())
}

/// Adds the rows of a table where they are shown, else how many there are.
#[tactic(auto, unfolding(crate::specs::Tables::rows_text))]
fn push_rows(into: &mut Text, shown: bool, table: &Table) -> Result<(), AllocError>
    ensures { OnOk result (into.new ≡ into.old ++ rows_text shown table.now.table.rows) }
{
    if shown {
        push_each(into, table.rows())
    } else {
        push_number_line(into, "rows ", table.len() as u64)
    }
}

fn push_table(into: &mut Text, shown: bool, table: &Table) -> Result<(), AllocError>
    ensures { OnOk result (into.new ≡ into.old ++ table_text shown table.now.table) }
{
    push_table_line(into, table.schema())?;
    push_rows(into, shown, table)
}

/// Adds the table of this one's name among those that exist, where it is there.
#[tactic(auto, using(crate::proofs::Left::found_text, crate::proofs::Left::missing_text))]
fn push_found(
    into: &mut Text,
    shown: bool,
    opening: &Table,
    tables: &Tables,
) -> Result<(), AllocError>
    ensures { OnOk result (into.new ≡ into.old ++ tables_text shown (option_to_list (find_table opening.now.table.schema.name (database tables.now)))) }
{
    match tables.find(&opening.schema().name) {
        Some(table) => push_table(into, shown, table),
        None => Ok(()),
    }
}

/// The same, unless this one is a leftover.
#[tactic(auto, using(crate::proofs::Left::leftover_text))]
fn push_left(
    into: &mut Text,
    shown: bool,
    plan: &Plan,
    opening: &Table,
    tables: &Tables,
) -> Result<(), AllocError>
    ensures { OnOk result (into.new ≡ into.old ++ tables_text shown (left_of plan.now opening.now.table (database tables.now))) }
{
    if is_tool_name(plan.table().as_str(), opening.schema().name.as_str()) {
        Ok(())
    } else {
        push_found(into, shown, opening, tables)
    }
}

/// Adds the plan's tables but the leftovers as they are left among those that exist: with their rows where these are shown.
pub fn push_tables_left(
    into: &mut Text,
    shown: bool,
    plan: &Plan,
    tables: &Tables,
) -> Result<(), AllocError>
    ensures { OnOk result (into.new ≡ into.old ++ tables_text shown (tables_left plan.now (database tables.now))) }
{
    let opening = plan.tables();
    for place in 0..opening.len() {
        push_left(into, shown, plan, opening.at(place), tables)?;
    }
    Ok(())
}
