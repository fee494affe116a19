//! The clients' tables of a database.

ghost use Rattle.std.specs.Prelude.{◌≡◌, ◌++◌, filter, not, option_to_list, option_copied, IfOk, OnOk};
ghost use Rattle.std.specs.List.{flat_map};
ghost use Rattle.table_store.specs.Databases.{Database, find_table};
ghost use Rattle.base_values.specs.ToolNames.{is_tool_name};
ghost use Rattle.tool_program.specs.JournalWords.Serials.{tables_left};

use base_values::tool_names::is_tool_name;
use base_values::{Duplicate, Name, Sequence};
use plan_data::Plan;
use std::alloc::{AllocError, Global};
use test_model::{PlainTable, PlainTables, find_table, plain_tables};

/// Adds a copy of the table, where there is one.
fn push_found(into: &mut PlainTables, found: Option<&PlainTable>) -> Result<(), AllocError>
    ensures { OnOk result (into.new ≡ into.old ++ option_to_list (option_copied found.entry)) }
{
    match found {
        Some(table) => into.push(table.copy()?),
        None => Ok(()),
    }
}

/// The tables of these names but the leftovers, as they are.
fn clients_of(
    alloc: Global,
    migrated: &Name,
    opening: &[PlainTable],
    tables: &[PlainTable],
) -> Result<PlainTables, AllocError>
    ensures { IfOk result (λ left. left ≡ flat_map (λ table. option_to_list (find_table table.schema.name tables.now)) (filter (λ table. not (is_tool_name migrated.now table.schema.name)) opening.now)) }
{
    let mut left = Sequence::new(alloc);
    for table in opening {
        if is_tool_name(migrated.as_str(), table.schema().name.as_str()) {
            continue;
        }
        push_found(&mut left, find_table(&table.schema().name, tables))?;
    }
    Ok(left)
}

/// The plan's tables but the leftovers, as they are, in the plan's order: what a history is run on.
#[tactic(auto, unfolding(tool_program::specs::JournalWords::Serials::tables_left))]
pub fn tables_left(
    alloc: Global,
    plan: &Plan,
    tables: &[PlainTable],
) -> Result<PlainTables, AllocError>
    ensures { IfOk result (λ left. left ≡ tables_left plan.now tables.now) }
{
    let opening = plain_tables(alloc, plan.tables())?;
    clients_of(alloc, plan.table(), opening.as_slice(), tables)
}
