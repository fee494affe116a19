//! Tables as a report prints them.

use base_values::gho_schema::Schema;
use base_values::{Row, Text, print_row};
use std::alloc::AllocError;
use test_model::PlainTable;

/// Adds a line of a word and a number.
pub(crate) fn push_number_line(text: &mut Text, word: &str, number: u64) -> Result<(), AllocError> {
    text.push_str(word)?;
    text.push_number(i128::from(number))?;
    text.push_str("\n")
}

/// Adds each row on a line of its own.
pub(crate) fn push_rows(text: &mut Text, rows: &[Row]) -> Result<(), AllocError> {
    for row in rows {
        print_row(row.as_slice(), text)?;
        text.push_str("\n")?;
    }
    Ok(())
}

fn push_columns(text: &mut Text, schema: &Schema) -> Result<(), AllocError> {
    text.push_str("table ")?;
    text.push_str(schema.name.as_str())?;
    let mut gap = " (";
    for column in schema.columns.as_slice() {
        text.push_str(gap)?;
        text.push_str(column.name.as_str())?;
        gap = ", ";
    }
    text.push_str(")\n")
}

/// Adds tables, with their rows or with how many they are.
pub(crate) fn push_tables(
    text: &mut Text,
    shown: bool,
    tables: &[PlainTable],
) -> Result<(), AllocError> {
    for table in tables {
        push_columns(text, table.schema())?;
        if shown {
            push_rows(text, table.rows())?;
        } else {
            push_number_line(text, "rows ", table.rows().len() as u64)?;
        }
    }
    Ok(())
}
