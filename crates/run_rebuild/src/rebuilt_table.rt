//! The table that is rebuilt.

ghost use Rattle.proof_rebuild.specs.Shards.{first_unfit, rows_seen};
ghost use Rattle.run_rebuild.specs.ShardNumbers.{AreShards};
ghost use Rattle.run_rebuild.specs.Rebuilds.{Finds, GoTogether, IsRebuilt, changes_of};

use crate::fault::RebuildFault;
use crate::inputs::Inputs;
use crate::union::shards;
use base_edges::Gate;
use base_values::RowEvent;
use plan_data::AlteredSchema;
use std::alloc::Global;
use std::thread::Threads;
use table_store::paged_tables::row_pages::Table;

/// The altered form of the table that followed the events one by one, made of its opening rows and the events alone, by
/// `workers` shards in threads of their own.
///
/// The events are those of the opening's table, and each fits its rows as they then are; else the table has what the events say by
/// key. Where a row that is seen has no converted row, the answer is the first such, in
/// order, for every number of workers. That memory ran out comes before that, since then a row may not have been seen. What is
/// given stays as it is, whatever the answer.
pub fn rebuild<R: Threads + Sync, G: Gate + Sync>(
    rt: &R,
    alloc: Global,
    opening: &Table,
    altered: &AlteredSchema,
    events: &[RowEvent],
    workers: u32,
    gate: &G,
) -> Result<Table, RebuildFault>
    requires workers { AreShards workers }
    ensures table { GoTogether altered.now opening.now.table (changes_of events.now) → IsRebuilt altered.now opening.now.table (changes_of events.now) result }
    ensures unfit { Finds result (first_unfit altered.now.map 0 (rows_seen opening.now.table.rows (changes_of events.now))) }
{
    let schema = opening.schema();
    let rows = opening.copied_rows(alloc)?;
    let inputs = Inputs {
        opening: rows.as_slice(),
        places: schema.key_places(),
        events,
        altered,
        workers,
    };
    shards(rt, alloc, &inputs, gate, 0, workers)
}
