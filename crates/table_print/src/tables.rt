//! Tables, line by line.

ghost use Rattle.std.specs.Prelude.{◌≡◌, ◌++◌, OnOk};
ghost use Rattle.table_print.specs.Tables.{more_names, column_names, schema_line, table_line, row_lines};

use base_values::gho_schema::{Column, Schema};
use base_values::{Row, Text, print_row};
use std::alloc::AllocError;

#[tactic(auto, unfolding(crate::specs::Tables::more_names))]
fn push_more_names(into: &mut Text, columns: &[Column]) -> Result<(), AllocError>
    ensures { OnOk result (into.new ≡ into.old ++ more_names columns.now) }
{
    for column in columns {
        into.push_str(", ")?;
        into.push_str(column.name.as_str())?;
    }
    Ok(())
}

#[tactic(auto, unfolding(crate::specs::Tables::column_names))]
fn push_column_names(into: &mut Text, columns: &[Column]) -> Result<(), AllocError>
    ensures { OnOk result (into.new ≡ into.old ++ column_names columns.now) }
{
    match columns {
        [] => Ok(()),
        [first, others @ ..] => {
            into.push_str(first.name.as_str())?;
            push_more_names(into, others)
        }
    }
}

/// Adds a table's name and those of its columns, after whatever stands before them in their line.
pub fn push_schema_line(into: &mut Text, schema: &Schema) -> Result<(), AllocError>
    ensures { OnOk result (into.new ≡ into.old ++ schema_line schema.now) }
{
    into.push_str(schema.name.as_str())?;
    into.push_str(" (")?;
    push_column_names(into, schema.columns.as_slice())?;
    into.push_str(")\n")
}

/// Adds the line of a table.
#[tactic(auto, unfolding(crate::specs::Tables::table_line))]
pub fn push_table_line(into: &mut Text, schema: &Schema) -> Result<(), AllocError>
    ensures { OnOk result (into.new ≡ into.old ++ table_line schema.now) }
{
    into.push_str("table ")?;
    push_schema_line(into, schema)
}

/// Adds each row on a line of its own.
#[tactic(auto, unfolding(crate::specs::Tables::row_lines))]
pub fn push_row_lines(into: &mut Text, rows: &[Row]) -> Result<(), AllocError>
    ensures { OnOk result (into.new ≡ into.old ++ row_lines rows.now) }
{
    for row in rows {
        print_row(row.as_slice(), into)?;
        into.push_str("\n")?;
    }
    Ok(())
}
