//! What events do to a database.

ghost use Rattle.std.specs.Prelude.{◌≡◌, if◌then◌else◌, IfOk};
ghost use Rattle.table_store.specs.Databases.{is_named, with_change};
ghost use Rattle.server_model.specs.Operations.{change_table, after_events};

use base_values::{Change, Duplicate, Name, RowEvent, Sequence};
use std::alloc::{AllocError, Global};
use test_model::{PlainTable, PlainTables, change_rows, is_named};

/// The table after a change, where it has this name.
fn change_if_named(
    alloc: Global,
    name: &Name,
    change: &Change,
    table: &PlainTable,
) -> Result<PlainTable, AllocError>
    ensures { IfOk result (λ after. after ≡ (if is_named name.now table.now then change_table change.now table.now else table.now)) }
{
    if !is_named(name, table) {
        return table.copy();
    }
    let places = table.schema().key_places();
    let rows = change_rows(alloc, places, change, table.rows())?;
    Ok(PlainTable::new(table.schema().copy()?, rows))
}

/// The tables after an event.
fn after_event(
    alloc: Global,
    tables: &[PlainTable],
    event: &RowEvent,
) -> Result<PlainTables, AllocError>
    ensures { IfOk result (λ after. after ≡ with_change event.now.table (change_table event.now.change) tables.now) }
{
    let mut after = Sequence::new(alloc);
    for table in tables {
        after.push(change_if_named(alloc, &event.table, &event.change, table)?)?;
    }
    Ok(after)
}

/// The tables after events, one by one.
#[tactic(auto, unfolding(server_model::specs::Operations::after_events))]
pub fn after_events(
    alloc: Global,
    tables: &PlainTables,
    events: &[RowEvent],
) -> Result<PlainTables, AllocError>
    ensures { IfOk result (λ after. after ≡ after_events tables.now events.now) }
{
    let mut after = tables.copy()?;
    for event in events {
        after = after_event(alloc, after.as_slice(), event)?;
    }
    Ok(after)
}
