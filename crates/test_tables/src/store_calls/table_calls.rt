//! Calls on one table, with semicolons between them: first its text, then `put`, `rising`, `get`, `by`, `remove`, `clash`,
//! `in`, `in-by`, `rows`, `pages`, `len` and `copy`.

use base_values::gho_schema::{Schema, key_of};
use base_values::{Row, Sequence, Shared, Text, Value, print_row};
use sql_create::{SchemaFault, read_schema};
use std::alloc::{AllocError, Global};
use table_store::paged_tables::row_pages::{SpanRows, Table};
use test_lines::{CallFault, place_of, row_of, say, say_row, span_of, unsigned_of};

/// The schema of a text of CREATE TABLE.
fn schema_of(alloc: Global, text: &str) -> Result<Schema, CallFault> {
    read_schema(alloc, text, "t", 1).map_err(|fault| match fault {
        SchemaFault::Refused(_) => CallFault::Unread,
        SchemaFault::Memory => CallFault::Memory,
    })
}

/// Puts a row, where none has its key; whether it did.
fn put_new(alloc: Global, table: &mut Table, row: Row) -> Result<bool, AllocError> {
    table.reserve(1)?;
    let key = key_of(alloc, table.schema().key_places(), row.as_slice())?;
    if table.get(&key).is_some() {
        return Ok(false);
    }
    table.put(row);
    Ok(true)
}

/// Says the rows.
fn say_rows(output: &mut Text, rows: SpanRows<'_>) -> Result<(), CallFault> {
    say(output, "")?;
    for row in rows {
        print_row(row.as_slice(), output)?;
    }
    Ok(())
}

fn put(alloc: Global, table: &mut Table, row: Row, output: &mut Text) -> Result<(), AllocError> {
    if !put_new(alloc, table, row)? {
        say(output, "there")?;
    }
    Ok(())
}

/// Puts the row of a text.
fn put_read(
    alloc: Global,
    table: &mut Table,
    input: &str,
    output: &mut Text,
) -> Result<(), CallFault> {
    let row = row_of(alloc, input)?;
    put(alloc, table, row, output)?;
    Ok(())
}

/// Puts rows of two equal numbers, as `1 65`: from the first to below the last.
fn put_rising(
    alloc: Global,
    table: &mut Table,
    input: &str,
    output: &mut Text,
) -> Result<(), CallFault> {
    let (first, end) = input.split_once(' ').ok_or(CallFault::Unread)?;
    for n in unsigned_of(first)?..unsigned_of(end)? {
        let mut row = Sequence::new(alloc);
        row.push(Value::Num(i128::from(n)))?;
        row.push(Value::Num(i128::from(n)))?;
        put(alloc, table, Shared::from_sequence(row)?, output)?;
    }
    Ok(())
}

/// Says the row of a key.
fn get(alloc: Global, table: &Table, input: &str, output: &mut Text) -> Result<(), CallFault> {
    let key = row_of(alloc, input)?;
    say_row(output, table.get(&key))?;
    Ok(())
}

/// What clashes with a row, as `3, 5`, besides the row of a key, as `3, 5 besides 2`.
fn clash(alloc: Global, table: &Table, input: &str, output: &mut Text) -> Result<(), CallFault> {
    let (row, besides) = match input.split_once(" besides ") {
        Some((row, key)) => (row, Some(row_of(alloc, key)?)),
        None => (input, None),
    };
    let row = row_of(alloc, row)?;
    say_row(output, table.clash(&row, besides.as_ref()))?;
    Ok(())
}

/// Removes the row of a key.
fn remove(
    alloc: Global,
    table: &mut Table,
    input: &str,
    output: &mut Text,
) -> Result<(), CallFault> {
    let key = row_of(alloc, input)?;
    let row = table.remove(&key);
    say_row(output, row.as_ref())?;
    Ok(())
}

/// Says how many rows each page has.
fn say_pages(table: &Table, output: &mut Text) -> Result<(), CallFault> {
    say(output, "")?;
    for n in 0..table.pages() {
        output.push_str(if n == 0 { "" } else { " " })?;
        let (rows, _) = table.page(n).size_hint();
        output.push_number(rows as i128)?;
    }
    Ok(())
}

/// Says the row with values of a unique key.
fn by_key(alloc: Global, table: &Table, input: &str, output: &mut Text) -> Result<(), CallFault> {
    let (number, sought) = input.split_once(' ').ok_or(CallFault::Unread)?;
    let n = place_of(number)?;
    if n >= table.schema().uniques.len() {
        return Err(CallFault::Unread);
    }
    say_row(output, table.get_by(n, &row_of(alloc, sought)?))?;
    Ok(())
}

/// Says the rows whose values of a unique key lie in a span.
fn in_span_by(
    alloc: Global,
    table: &Table,
    input: &str,
    output: &mut Text,
) -> Result<(), CallFault> {
    let (number, sought) = input.split_once(' ').ok_or(CallFault::Unread)?;
    let n = place_of(number)?;
    if n >= table.schema().uniques.len() {
        return Err(CallFault::Unread);
    }
    say(output, "")?;
    for row in table.in_span_by(n, &span_of(alloc, sought)?) {
        print_row(row.as_slice(), output)?;
    }
    Ok(())
}

/// Says the rows whose keys lie in a span.
fn in_span(alloc: Global, table: &Table, input: &str, output: &mut Text) -> Result<(), CallFault> {
    say_rows(output, table.in_span(&span_of(alloc, input)?))
}

/// Says how many rows there are.
fn say_len(table: &Table, output: &mut Text) -> Result<(), CallFault> {
    say(output, if table.is_empty() { "empty " } else { "" })?;
    output.push_number(table.len() as i128)?;
    Ok(())
}

fn make_copy(alloc: Global, table: &mut Table) -> Result<(), CallFault> {
    *table = table.copy_table(alloc)?;
    Ok(())
}

/// What the table answers about all its rows.
fn ask_of_all(table: &Table, call: &str, output: &mut Text) -> Result<(), CallFault> {
    match call {
        "rows" => say_rows(output, table.rows()),
        "pages" => say_pages(table, output),
        "len" => say_len(table, output),
        _ => Err(CallFault::Unread),
    }
}

/// What the table answers to calls that change nothing.
fn ask(
    alloc: Global,
    table: &Table,
    call: &str,
    input: &str,
    output: &mut Text,
) -> Result<(), CallFault> {
    match call {
        "get" => get(alloc, table, input, output),
        "by" => by_key(alloc, table, input, output),
        "clash" => clash(alloc, table, input, output),
        "in" => in_span(alloc, table, input, output),
        "in-by" => in_span_by(alloc, table, input, output),
        _ => ask_of_all(table, call, output),
    }
}

fn take(alloc: Global, table: &mut Table, call: &str, output: &mut Text) -> Result<(), CallFault> {
    let (word, input) = call.split_once(' ').unwrap_or((call, ""));
    match word {
        "put" => put_read(alloc, table, input, output),
        "rising" => put_rising(alloc, table, input, output),
        "remove" => remove(alloc, table, input, output),
        "copy" => make_copy(alloc, table),
        _ => ask(alloc, table, word, input, output),
    }
}

/// What the calls say, one after another.
fn take_each(alloc: Global, table: &mut Table, calls: &str) -> Result<Text, CallFault> {
    let mut output = Text::new(alloc);
    for call in calls.split("; ") {
        take(alloc, table, call, &mut output)?;
    }
    Ok(output)
}

/// What the calls say.
pub fn answers(alloc: Global, input: &str) -> Result<Text, CallFault> {
    let (text, calls) = input.split_once("; ").ok_or(CallFault::Unread)?;
    let mut table = Table::new(alloc, schema_of(alloc, text)?);
    take_each(alloc, &mut table, calls)
}
