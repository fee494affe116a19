//! Calls on the tables of a database, with semicolons between them: `add`, `put`, `remove`, `rename`, `take`, `stands`,
//! `names` and `copy`. Each table has the key `id` and a column `a`.

use base_values::gho_schema::key_of;
use base_values::{Name, Row, Sequence, Text};
use sql_create::read_schema;
use std::alloc::{AllocError, Global};
use table_store::paged_tables::Tables;
use table_store::paged_tables::row_pages::Table;
use table_store::{AddFault, NotRenamed, Pair, Pairs, RenameFault};
use test_lines::{CallFault, row_of, say, say_row};

/// Whether a table was added, where there was memory for it.
fn is_added(added: Result<(), AddFault>) -> Result<bool, AllocError> {
    match added {
        Ok(()) => Ok(true),
        Err(AddFault::Exists) => Ok(false),
        Err(AddFault::Memory) => Err(AllocError),
    }
}

fn add(alloc: Global, tables: &mut Tables, name: &str, output: &mut Text) -> Result<(), CallFault> {
    let text = format!(in alloc; "CREATE TABLE `{name}` (id INT PRIMARY KEY, a INT)")?;
    // (The text is a schema's, so that only memory can be wanting.)
    let schema = read_schema(alloc, text.as_str(), "t", 1).map_err(|_| CallFault::Memory)?;
    if !is_added(tables.add(Table::new(alloc, schema)))? {
        say(output, "stands")?;
    }
    Ok(())
}

/// What became of a put.
#[derive(Clone, Copy)]
enum PutAnswer {
    Done,
    There,
    Missing,
}

/// Puts a row into the table of a name, where that exists and no row of it has the row's key.
fn put_new(
    alloc: Global,
    tables: &mut Tables,
    name: &Name,
    row: Row,
) -> Result<PutAnswer, AllocError> {
    let Some(table) = tables.find(name) else {
        return Ok(PutAnswer::Missing);
    };
    let key = key_of(alloc, table.schema().key_places(), row.as_slice())?;
    if table.get(&key).is_some() {
        return Ok(PutAnswer::There);
    }
    tables.reserve_in(name, 1)?;
    tables.put_in(name, row);
    Ok(PutAnswer::Done)
}

fn put(
    alloc: Global,
    tables: &mut Tables,
    name: &Name,
    row: Row,
    output: &mut Text,
) -> Result<(), AllocError> {
    match put_new(alloc, tables, name, row)? {
        PutAnswer::Done => Ok(()),
        PutAnswer::There => say(output, "there"),
        PutAnswer::Missing => say(output, "missing"),
    }
}

fn remove(
    tables: &mut Tables,
    name: &Name,
    key: &Row,
    output: &mut Text,
) -> Result<(), AllocError> {
    if tables.find(name).is_none() {
        return say(output, "missing");
    }
    let row = tables.remove_in(name, key);
    say_row(output, row.as_ref())
}

/// Puts the row of a text.
fn put_read(
    alloc: Global,
    tables: &mut Tables,
    name: &Name,
    row: &str,
    output: &mut Text,
) -> Result<(), CallFault> {
    let row = row_of(alloc, row)?;
    put(alloc, tables, name, row, output)?;
    Ok(())
}

/// Removes the row whose key is that of a text.
fn remove_read(
    alloc: Global,
    tables: &mut Tables,
    name: &Name,
    key: &str,
    output: &mut Text,
) -> Result<(), CallFault> {
    let key = row_of(alloc, key)?;
    remove(tables, name, &key, output)?;
    Ok(())
}

/// Says the tables' names and numbers of rows.
fn say_names(tables: &Tables, output: &mut Text) -> Result<(), CallFault> {
    say(output, if tables.is_empty() { "nothing" } else { "" })?;
    for n in 0..tables.len() {
        let table = tables.at(n);
        output.push_str(if n == 0 { "" } else { ", " })?;
        output.push_str(table.schema().name.as_str())?;
        output.push_str(" ")?;
        output.push_number(table.len() as i128)?;
    }
    Ok(())
}

/// Pairs of names, as `ta u, v ta`.
fn pairs_of(alloc: Global, text: &str) -> Result<Pairs, CallFault> {
    let mut pairs = Sequence::new(alloc);
    for pair in text.split(", ") {
        let (old, new) = pair.split_once(' ').ok_or(CallFault::Unread)?;
        pairs.push(Pair {
            old: Name::new(alloc, old)?,
            new: Name::new(alloc, new)?,
        })?;
    }
    Ok(pairs)
}

/// Why tables weren't renamed, where MySQL refused it.
fn refusal_of(renamed: Result<(), RenameFault>) -> Result<Option<NotRenamed>, AllocError> {
    match renamed {
        Ok(()) => Ok(None),
        Err(RenameFault::Refused(reason)) => Ok(Some(reason)),
        Err(RenameFault::Memory) => Err(AllocError),
    }
}

fn rename(tables: &mut Tables, pairs: &Pairs, output: &mut Text) -> Result<(), AllocError> {
    match refusal_of(tables.rename(pairs))? {
        None => Ok(()),
        Some(NotRenamed::Exists) => say(output, "stands"),
        Some(NotRenamed::Missing) => say(output, "missing"),
    }
}

/// Renames the pairs of a text.
fn rename_read(
    alloc: Global,
    tables: &mut Tables,
    input: &str,
    output: &mut Text,
) -> Result<(), CallFault> {
    let pairs = pairs_of(alloc, input)?;
    rename(tables, &pairs, output)?;
    Ok(())
}

fn make_copy(alloc: Global, tables: &mut Tables) -> Result<(), CallFault> {
    *tables = tables.copy_tables(alloc)?;
    Ok(())
}

fn say_taken(tables: &mut Tables, name: &Name, output: &mut Text) -> Result<(), CallFault> {
    let taken = tables.take(name).is_some();
    say(output, if taken { "taken" } else { "missing" })?;
    Ok(())
}

fn say_exists(tables: &Tables, name: &Name, output: &mut Text) -> Result<(), CallFault> {
    say(output, if tables.stands(name) { "yes" } else { "no" })?;
    Ok(())
}

/// Calls on the table of a name, after which a row or a key may come.
fn take_on(
    alloc: Global,
    tables: &mut Tables,
    call: &str,
    name: &Name,
    rest: &str,
    output: &mut Text,
) -> Result<(), CallFault> {
    match call {
        "add" => add(alloc, tables, name.as_str(), output),
        "put" => put_read(alloc, tables, name, rest, output),
        "remove" => remove_read(alloc, tables, name, rest, output),
        "take" => say_taken(tables, name, output),
        "stands" => say_exists(tables, name, output),
        _ => Err(CallFault::Unread),
    }
}

/// Calls that name a table and maybe a row or a key, as `put ta 2, 1`.
fn take_named(
    alloc: Global,
    tables: &mut Tables,
    call: &str,
    input: &str,
    output: &mut Text,
) -> Result<(), CallFault> {
    let (name, rest) = input.split_once(' ').unwrap_or((input, ""));
    let name = Name::new(alloc, name)?;
    take_on(alloc, tables, call, &name, rest, output)
}

fn take(
    alloc: Global,
    tables: &mut Tables,
    call: &str,
    output: &mut Text,
) -> Result<(), CallFault> {
    let (word, input) = call.split_once(' ').unwrap_or((call, ""));
    match word {
        "names" => say_names(tables, output),
        "copy" => make_copy(alloc, tables),
        "rename" => rename_read(alloc, tables, input, output),
        _ => take_named(alloc, tables, word, input, output),
    }
}

/// What the calls say, one after another.
fn take_each(alloc: Global, tables: &mut Tables, calls: &str) -> Result<Text, CallFault> {
    let mut output = Text::new(alloc);
    for call in calls.split("; ") {
        take(alloc, tables, call, &mut output)?;
    }
    Ok(output)
}

/// What the calls say.
pub fn answers(alloc: Global, input: &str) -> Result<Text, CallFault> {
    let mut tables = Tables::new(alloc);
    take_each(alloc, &mut tables, input)
}
