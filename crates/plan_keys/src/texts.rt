//! The texts of a plan.

ghost use Rattle.std.specs.Prelude.{◌≡◌, map, option_map};
ghost use Rattle.toml.specs.Data.{as_array, as_table};
ghost use Rattle.toml.specs.View.{view, table_view, items_view};
ghost use Rattle.plan_keys.specs.PlanKeys.{table_of, table_in, tables_in, needed_tables, texts_of, table_data, text_data};
ghost use Rattle.base_values.specs.Faults.{Answers};
ghost use Rattle.plan_keys.specs.Walks.{each_item};

use crate::documents::{member_at, needed_text, text_or_empty, texts_or_none};
use crate::fault::{KeyFault, KeyRefusal, WRONG_TYPE};
use std::alloc::Global;
use toml::{Table, Value};

/// The texts of one of a plan's tables.
#[derive(Drop)]
pub struct TableKeys<'a> {
    /// The text of CREATE TABLE.
    pub create: &'a str,
    /// A text a row.
    pub rows: Vec<&'a str>,
}

/// What a plan says in texts of their own, which other crates read.
#[derive(Drop)]
pub struct PlanTexts<'a> {
    /// The name of the table to migrate.
    pub table: &'a str,
    /// The text of the ALTER.
    pub alter: &'a str,
    /// The tables, in the plan's order.
    pub tables: Vec<TableKeys<'a>>,
    /// A script a client.
    pub clients: Vec<&'a str>,
    /// The operator's commands.
    pub operator: &'a str,
    /// A loss of a session a text.
    pub faults: Vec<&'a str>,
    /// The order of turns that is asked for.
    pub turns: &'a str,
}

/// The texts of a table.
#[tactic(auto, unfolding(crate::specs::PlanKeys::table_of))]
fn table_of<'a>(alloc: Global, table: &'a Table) -> Result<TableKeys<'a>, KeyFault>
    ensures { Answers table_data result (table_of (table_view table.now)) }
{
    let create = needed_text(member_at(table, "create"))?;
    let rows = texts_or_none(alloc, member_at(table, "rows"))?;
    Ok(TableKeys { create, rows })
}

fn table_in<'a>(alloc: Global, value: &'a Value) -> Result<TableKeys<'a>, KeyFault>
    ensures { Answers table_data result (table_in (as_table (view value.now))) }
{
    match value.as_table() {
        Some(table) => table_of(alloc, table),
        None => Err(WRONG_TYPE),
    }
}

/// The texts of the tables that the items are.
fn tables_of<'a>(alloc: Global, items: &'a [Value]) -> Result<Vec<TableKeys<'a>>, KeyFault>
    ensures { Answers (λ tables. map table_data tables.items) result (each_item (λ value. table_in (as_table value)) (items_view items.now)) }
{
    let mut tables = Vec::new(alloc);
    for item in items {
        let table = table_in(alloc, item)?;
        tables.push(table)?;
    }
    Ok(tables)
}

fn tables_in<'a>(alloc: Global, value: &'a Value) -> Result<Vec<TableKeys<'a>>, KeyFault>
    ensures { Answers (λ tables. map table_data tables.items) result (tables_in (as_array (view value.now))) }
{
    match value.as_array() {
        Some(items) => tables_of(alloc, items.as_slice()),
        None => Err(WRONG_TYPE),
    }
}

fn needed_tables<'a>(
    alloc: Global,
    value: Option<&'a Value>,
) -> Result<Vec<TableKeys<'a>>, KeyFault>
    ensures { Answers (λ tables. map table_data tables.items) result (needed_tables (option_map (λ value. view value.now) value.entry)) }
{
    match value {
        None => Err(KeyFault::Refused(KeyRefusal::MissingKey)),
        Some(value) => tables_in(alloc, value),
    }
}

/// The texts of a plan.
#[tactic(auto, unfolding(crate::specs::PlanKeys::texts_of))]
pub fn texts_of<'a>(alloc: Global, document: &'a Table) -> Result<PlanTexts<'a>, KeyFault>
    ensures { Answers text_data result (texts_of (table_view document.now)) }
{
    let table = needed_text(member_at(document, "table"))?;
    let alter = needed_text(member_at(document, "alter"))?;
    let tables = needed_tables(alloc, member_at(document, "tables"))?;
    let clients = texts_or_none(alloc, member_at(document, "clients"))?;
    let operator = text_or_empty(member_at(document, "operator"))?;
    let faults = texts_or_none(alloc, member_at(document, "faults"))?;
    let turns = text_or_empty(member_at(document, "turns"))?;
    Ok(PlanTexts {
        table,
        alter,
        tables,
        clients,
        operator,
        faults,
        turns,
    })
}
