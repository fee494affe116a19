//! Tables as a trace has them printed.

ghost use Rattle.std.specs.Prelude.{◌≡◌, ◌++◌, option_map, slice_get, IfOk, OnOk};
ghost use Rattle.run_audit.specs.Audits.{first_other};
ghost use Rattle.run_audit.specs.Lines.{printed_table};
ghost use Rattle.table_print.specs.Tables.{row_lines};
ghost use Rattle.table_store.specs.Databases.{database};
ghost use Rattle.run_auditor.specs.PrintedTables.{is_printed};

use base_values::{Duplicate, Name, Text};
use std::alloc::{AllocError, Global};
use std::slice;
use table_print::{push_row_lines, push_table_line};
use table_store::paged_tables::Tables;
use table_store::paged_tables::row_pages::{SpanRows, Table};

/// Adds each row on a line of its own.
#[tactic(auto, unfolding(table_print::specs::Tables::row_lines))]
fn push_each(into: &mut Text, rows: SpanRows<'_>) -> Result<(), AllocError>
    ensures { OnOk result (into.new ≡ into.old ++ row_lines rows.entry) }
{
    for row in rows {
        push_row_lines(into, slice::from_ref(row))?;
    }
    Ok(())
}

/// The table as it is printed.
fn printed_table(alloc: Global, table: &Table) -> Result<Text, AllocError>
    ensures { IfOk result (λ text. text ≡ printed_table table.now.table) }
{
    let mut text = Text::new(alloc);
    push_table_line(&mut text, table.schema())?;
    push_each(&mut text, table.rows())?;
    Ok(text)
}

/// Whether the table is printed so, where anything is.
fn is_printed(alloc: Global, text: Option<&Text>, table: &Table) -> Result<bool, AllocError>
    ensures { IfOk result (λ same. same ≡ is_printed (option_map (λ text. text.now) text.entry) table.now.table) }
{
    match text {
        Some(text) => Ok(text.as_str() == printed_table(alloc, table)?.as_str()),
        None => Ok(false),
    }
}

fn text_at(printed: &[Text], place: usize) -> Option<&Text>
    ensures { option_map (λ text. text.now) result ≡ slice_get printed.now place }
{
    printed.get(place)
}

/// The name of the first of these tables that isn't printed in its place; more may be printed after them.
pub fn first_other(
    alloc: Global,
    printed: &[Text],
    tables: &Tables,
) -> Result<Option<Name>, AllocError>
    ensures { IfOk result (λ name. name ≡ first_other printed.now (database tables.now)) }
{
    for place in 0..tables.len() {
        let table = tables.at(place);
        if !is_printed(alloc, text_at(printed, place), table)? {
            return Ok(Some(table.schema().name.copy()?));
        }
    }
    Ok(None)
}
