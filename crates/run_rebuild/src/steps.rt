//! What a shard makes of one row or one change.

ghost use Rattle.std.specs.Prelude.{◌≡◌, ◌∷◌, [], Some, OnOk, OnErr};
ghost use Rattle.base_values.specs.GhoSchema.Rows.{key_places};
ghost use Rattle.proof_rebuild.specs.Shards.{first_unfit, only, row_after};
ghost use Rattle.run_rebuild.specs.ShardNumbers.{AreShards};
ghost use Rattle.run_rebuild.specs.Rebuilds.{Finds, IsConvertedAs, own};
ghost use Rattle.run_rebuild.specs.Steps.{deleted, followed, replaced, written};

use crate::fault::{RebuildFault, UnfitRow};
use crate::inputs::Inputs;
use crate::shard_number::shard;
use base_values::gho_schema::key_of;
use base_values::row_conversion::{ColumnMap, converted_row};
use base_values::{Change, Fault, Row};
use std::alloc::{AllocError, Global};
use table_store::paged_tables::row_pages::Table;

/// The converted row of the row that is seen at this place.
fn converted(alloc: Global, map: &ColumnMap, row: &Row, place: usize) -> Result<Row, RebuildFault>
    ensures { IsConvertedAs map.now row.now place result }
{
    match converted_row(alloc, map.as_slice(), row.as_slice()) {
        Ok(made) => Ok(made),
        Err(Fault::Refused(at)) => Err(Fault::Refused(UnfitRow { place, at })),
        Err(Fault::Memory) => Err(Fault::Memory),
    }
}

/// Whether the row is one of the shard of this number.
fn is_own(inputs: &Inputs<'_>, number: u32, row: &Row) -> bool
    requires workers { AreShards inputs.now.workers }
    ensures { result ≡ own inputs.now number row.now }
{
    shard(inputs.places, row.as_slice(), inputs.workers) == number
}

/// Puts a row, in place of that of its key. No row has its key where the events fit the opening rows; so nothing is asked of them
/// here. All memory is taken before the first change.
pub fn replace(alloc: Global, table: &mut Table, row: Row) -> Result<(), AllocError>
    ensures schema { table.new.table.schema ≡ table.old.table.schema }
    ensures ok { OnOk result (table.new.table.rows ≡ replaced (key_places table.old.table.schema) row table.old.table.rows) }
    ensures err { OnErr result (table.new.table.rows ≡ table.old.table.rows) }
{
    let key = key_of(alloc, table.schema().key_places(), row.as_slice())?;
    table.reserve(1)?;
    let _ = table.remove(&key);
    table.put(row);
    Ok(())
}

/// Puts the converted row of a row that is seen at this place, where it is one of the shard.
pub fn write(
    alloc: Global,
    inputs: &Inputs<'_>,
    number: u32,
    table: &mut Table,
    row: &Row,
    place: usize,
) -> Result<(), RebuildFault>
    requires workers { AreShards inputs.now.workers }
    ensures schema { table.new.table.schema ≡ table.old.table.schema }
    ensures rows { OnOk result (table.new.table.rows ≡ written (own inputs.now number) (key_places table.old.table.schema) inputs.now.altered.now.map row.now table.old.table.rows) }
    ensures finds { Finds result (first_unfit inputs.now.altered.now.map place (only (own inputs.now number) (Some row.now) ∷ [])) }
{
    if !is_own(inputs, number, row) {
        return Ok(());
    }
    let made = converted(alloc, &inputs.altered.map, row, place)?;
    replace(alloc, table, made)?;
    Ok(())
}

/// Removes the converted row of a row, where it is one of the shard.
fn delete(
    alloc: Global,
    inputs: &Inputs<'_>,
    number: u32,
    table: &mut Table,
    row: &Row,
) -> Result<(), AllocError>
    requires workers { AreShards inputs.now.workers }
    ensures schema { table.new.table.schema ≡ table.old.table.schema }
    ensures rows { OnOk result (table.new.table.rows ≡ deleted (own inputs.now number) inputs.now.places.now (key_places table.old.table.schema) row.now table.old.table.rows) }
{
    if is_own(inputs, number, row) {
        let key = key_of(alloc, inputs.places, row.as_slice())?;
        let _ = table.remove(&key);
    }
    Ok(())
}

/// Follows a change after which a row may be seen at this place: what leaves the shard is removed, and what comes into it is put.
pub fn follow(
    alloc: Global,
    inputs: &Inputs<'_>,
    number: u32,
    table: &mut Table,
    change: &Change,
    place: usize,
) -> Result<(), RebuildFault>
    requires workers { AreShards inputs.now.workers }
    ensures schema { table.new.table.schema ≡ table.old.table.schema }
    ensures rows { OnOk result (table.new.table.rows ≡ followed (own inputs.now number) inputs.now.places.now (key_places table.old.table.schema) inputs.now.altered.now.map change.now table.old.table.rows) }
    ensures finds { Finds result (first_unfit inputs.now.altered.now.map place (only (own inputs.now number) (row_after change.now) ∷ [])) }
{
    match change {
        Change::Write(row) => write(alloc, inputs, number, table, row, place),
        Change::Update(before, after) => {
            delete(alloc, inputs, number, table, before)?;
            write(alloc, inputs, number, table, after, place)
        }
        Change::Delete(row) => {
            delete(alloc, inputs, number, table, row)?;
            Ok(())
        }
    }
}
