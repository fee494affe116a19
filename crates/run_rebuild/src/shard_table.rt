//! The converted rows of one shard.

ghost use Rattle.std.specs.Prelude.{◌≡◌, length, map, OnOk, Some};
ghost use Rattle.proof_rebuild.specs.Shards.{first_unfit, shard_sees, row_after};
ghost use Rattle.run_rebuild.specs.ShardNumbers.{AreShards};
ghost use Rattle.run_rebuild.specs.Rebuilds.{Finds, Holds, IsSound, Rebuilds, changes_of, empty_table, own, rows_then};

use crate::fault::RebuildFault;
use crate::inputs::Inputs;
use crate::steps::{follow, write};
use base_edges::Gate;
use base_values::Duplicate;
use std::alloc::Global;
use table_store::paged_tables::row_pages::Table;

/// Puts the converted rows of the shard's opening rows.
fn put_opening(
    alloc: Global,
    inputs: &Inputs<'_>,
    number: u32,
    table: &mut Table,
) -> Result<(), RebuildFault>
    requires workers { AreShards inputs.now.workers }
    ensures schema { table.new.table.schema ≡ table.old.table.schema }
    ensures rows { IsSound inputs.now → table.old.table ≡ empty_table inputs.now → OnOk result (Holds (own inputs.now number) inputs.now inputs.now.opening.now table.new.table.rows) }
    ensures finds { Finds result (first_unfit inputs.now.altered.now.map 0 (shard_sees (own inputs.now number) (map (λ row. Some row) inputs.now.opening.now))) }
{
    for (place, row) in inputs.opening.iter().enumerate() {
        write(alloc, inputs, number, table, row, place)?;
    }
    Ok(())
}

/// Follows the events, one by one.
fn follow_events(
    alloc: Global,
    inputs: &Inputs<'_>,
    number: u32,
    table: &mut Table,
) -> Result<(), RebuildFault>
    requires workers { AreShards inputs.now.workers }
    ensures schema { table.new.table.schema ≡ table.old.table.schema }
    ensures rows { IsSound inputs.now → table.old.table.schema ≡ inputs.now.altered.now.schema → Holds (own inputs.now number) inputs.now inputs.now.opening.now table.old.table.rows → OnOk result (Holds (own inputs.now number) inputs.now (rows_then inputs.now) table.new.table.rows) }
    ensures finds { Finds result (first_unfit inputs.now.altered.now.map (length inputs.now.opening.now) (shard_sees (own inputs.now number) (map row_after (changes_of inputs.now.events.now)))) }
{
    for (n, event) in inputs.events.iter().enumerate() {
        let place = inputs.opening.len() + n;
        follow(alloc, inputs, number, table, &event.change, place)?;
    }
    Ok(())
}

/// The converted rows of the shard of this number, as a table of the altered schema.
fn made_table(alloc: Global, inputs: &Inputs<'_>, number: u32) -> Result<Table, RebuildFault>
    requires workers { AreShards inputs.now.workers }
    ensures { Rebuilds (own inputs.now number) inputs.now result }
{
    let mut table = Table::new(alloc, inputs.altered.schema.copy()?);
    put_opening(alloc, inputs, number, &mut table)?;
    follow_events(alloc, inputs, number, &mut table)?;
    Ok(table)
}

/// The table of a shard. The gate is told before and after, by the shard's number and turn 1, so that a test can order the shards.
pub fn shard_table<G: Gate>(
    alloc: Global,
    inputs: &Inputs<'_>,
    gate: &G,
    number: u32,
) -> Result<Table, RebuildFault>
    requires workers { AreShards inputs.now.workers }
    ensures { Rebuilds (own inputs.now number) inputs.now result }
{
    gate.before(number, 1);
    let made = made_table(alloc, inputs, number);
    gate.after(number, 1);
    made
}
