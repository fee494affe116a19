//! Shards put together.

ghost use Rattle.std.specs.Prelude.{◌≡◌, ◌≤◌, ◌+◌, if◌then◌else◌, nat_lt, Ok, Err, OnOk};
ghost use Rattle.std.specs.Thread.{IsSync};
ghost use Rattle.base_values.specs.GhoSchema.Rows.{key_places};
ghost use Rattle.base_values.specs.GhoSchema.Tables.{Ascends};
ghost use Rattle.run_rebuild.specs.ShardNumbers.{AreShards};
ghost use Rattle.run_rebuild.specs.Rebuilds.{Rebuilds, Unites, between};
ghost use Rattle.run_rebuild.specs.Steps.{replaced_all};

use crate::fault::{RebuildFault, UnfitRow};
use crate::inputs::Inputs;
use crate::shard_table::shard_table;
use crate::steps::replace;
use base_edges::Gate;
use base_values::{Duplicate, Fault};
use std::alloc::{AllocError, Global};
use std::thread::{Threads, join};
use table_store::paged_tables::row_pages::Table;

/// Puts copies of another table's rows.
fn put_rows(alloc: Global, into: &mut Table, other: &Table) -> Result<(), AllocError>
    ensures schema { into.new.table.schema ≡ into.old.table.schema }
    ensures rows { OnOk result (into.new.table.rows ≡ replaced_all (key_places into.old.table.schema) other.now.table.rows into.old.table.rows) }
    ensures ascends { Ascends (key_places other.now.table.schema) other.now.table.rows }
{
    // For the prover: the schema says that the rows are in order.
    let _schema = other.schema();
    into.reserve(other.len())?;
    for row in other.rows() {
        replace(alloc, into, row.copy()?)?;
    }
    Ok(())
}

/// The row that is seen first.
fn first(one: UnfitRow, other: UnfitRow) -> UnfitRow
    ensures { result ≡ (if nat_lt one.place other.place then one else other) }
{
    if one.place < other.place { one } else { other }
}

/// The fault that both halves come to. That memory ran out comes first, since then a row may not have been seen.
fn first_fault(one: RebuildFault, other: RebuildFault) -> RebuildFault
    ensures { Unites (Err one) (Err other) (Err result) }
{
    match one {
        Fault::Memory => Fault::Memory,
        Fault::Refused(one) => match other {
            Fault::Memory => Fault::Memory,
            Fault::Refused(other) => Fault::Refused(first(other, one)),
        },
    }
}

/// Both tables as one.
fn joined(alloc: Global, one: Table, other: &Table) -> Result<Table, RebuildFault>
    ensures { Unites (Ok one) (Ok other.now) result }
{
    let mut table = one;
    put_rows(alloc, &mut table, other)?;
    Ok(table)
}

/// What two halves of some shards come to.
fn union(
    alloc: Global,
    one: Result<Table, RebuildFault>,
    other: Result<Table, RebuildFault>,
) -> Result<Table, RebuildFault>
    ensures { Unites one other result }
{
    match one {
        Ok(one) => match other {
            Ok(other) => joined(alloc, one, &other),
            Err(fault) => Err(fault),
        },
        Err(fault) => match other {
            Ok(_) => Err(fault),
            Err(other) => Err(first_fault(fault, other)),
        },
    }
}

/// The rows of the shards from this number on, so many, as a table of the altered schema: each half of them in a thread of its own,
/// where one can be made.
#[cycle(shards)]
pub fn shards<R: Threads + Sync, G: Gate + Sync>(
    rt: &R,
    alloc: Global,
    inputs: &Inputs<'_>,
    gate: &G,
    from: u32,
    count: u32,
) -> Result<Table, RebuildFault>
    requires workers { AreShards inputs.now.workers }
    requires some { 1 ≤ count }
    requires few { from + count ≤ inputs.now.workers }
    ensures { Rebuilds (between inputs.now from count) inputs.now result }
{
    if count == 1 {
        return shard_table(alloc, inputs, gate, from);
    }
    let low = count / 2;
    let high = count - low;
    let up = from + low;
    let front = move || -> Result<Table, RebuildFault>
        requires { IsSync R.row × IsSync G.row × AreShards inputs.now.workers × (1 ≤ low) × (from + low ≤ inputs.now.workers) }
        ensures { Rebuilds (between inputs.entry.now from low) inputs.entry.now result }
    { shards(rt, alloc, inputs, gate, from, low) };
    let back = move || -> Result<Table, RebuildFault>
        requires { IsSync R.row × IsSync G.row × AreShards inputs.now.workers × (1 ≤ high) × (up + high ≤ inputs.now.workers) }
        ensures { Rebuilds (between inputs.entry.now up high) inputs.entry.now result }
    { shards(rt, alloc, inputs, gate, up, high) };
    let (one, other) = join(rt, front, back);
    union(alloc, one, other)
}
