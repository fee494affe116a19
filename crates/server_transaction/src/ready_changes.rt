//! Changes made ready: with the keys and the copies by which they are written down and committed, so that neither takes
//! memory.

ghost use Rattle.std.specs.Prelude.{◌≡◌, ◌≤◌, ◌+◌, ◌-◌, ◌++◌, length, map, vec_len, vec_capacity, IfOk, IfSome, Some};
ghost use Rattle.std.specs.List.{AllByRecursion};
ghost use Rattle.base_values.specs.GhoSchema.Rows.{key_places};
ghost use Rattle.server_transaction.specs.Ready.{ready_change, taken_out, put_in, wrote_ready, wrote_each, IsKeyed, IsReady};

use base_values::gho_schema::key_of;
use base_values::{Change, Duplicate, Key};
use server_seen::{KeyedRow, WrittenRows, keyed_row};
use std::alloc::{AllocError, Global};

/// A change, made ready.
#[derive(Drop)]
pub struct ReadyChange {
    /// The key of the row that it takes out: for the commit.
    pub gone: Option<Key>,
    /// The same key: for what was written to the table.
    pub out: Option<Key>,
    /// The row that it puts in.
    pub new: Option<KeyedRow>,
}

/// A change that takes out the row of this key, and may put one in.
fn taking_out(key: Key, new: Option<KeyedRow>) -> Result<ReadyChange, AllocError>
    ensures { IfOk result (λ ready. ready ≡ record { gone = Some key; out = Some key; new = new }) }
{
    Ok(ReadyChange {
        out: Some(key.copy()?),
        gone: Some(key),
        new,
    })
}

/// A change, made ready.
fn ready_change(alloc: Global, places: &[usize], change: &Change) -> Result<ReadyChange, AllocError>
    ensures { IfOk result (λ ready. ready ≡ ready_change places.now change.now) }
{
    match change {
        Change::Write(row) => Ok(ReadyChange {
            gone: None,
            out: None,
            new: Some(keyed_row(alloc, places, row)?),
        }),
        Change::Update(before, after) => {
            let key = key_of(alloc, places, before.as_slice())?;
            let new = keyed_row(alloc, places, after)?;
            taking_out(key, Some(new))
        }
        Change::Delete(row) => {
            let key = key_of(alloc, places, row.as_slice())?;
            taking_out(key, None)
        }
    }
}

/// Changes, made ready.
pub fn ready_changes(
    alloc: Global,
    places: &[usize],
    changes: &[Change],
) -> Result<Vec<ReadyChange>, AllocError>
    ensures { IfOk result (λ ready. ready.items ≡ map (ready_change places.now) changes.now) }
{
    let mut ready = Vec::with_capacity(alloc, changes.len())?;
    for change in changes {
        ready.push(ready_change(alloc, places, change)?)?;
    }
    Ok(ready)
}

/// Takes the row of a key out, where one is given.
fn take_out(written: &mut WrittenRows, key: Option<Key>)
    requires width { IfSome key (λ key. length key ≤ length (key_places written.old.schema)) }
    requires room { 1 ≤ written.old.spare }
    ensures schema { written.new.schema ≡ written.old.schema }
    ensures written { written.new.written ≡ taken_out (key_places written.old.schema) key written.old.written }
    ensures spare { written.old.spare ≤ written.new.spare + 1 }
{
    match key {
        Some(key) => written.remove(key),
        None => {}
    }
}

/// Puts a row in, where one is given.
fn put_in(written: &mut WrittenRows, new: Option<KeyedRow>)
    requires keyed { IfSome new (IsKeyed (key_places written.old.schema)) }
    requires room { 1 ≤ written.old.spare }
    ensures schema { written.new.schema ≡ written.old.schema }
    ensures written { written.new.written ≡ put_in (key_places written.old.schema) new written.old.written }
    ensures spare { written.old.spare ≤ written.new.spare + 1 }
{
    match new {
        Some(KeyedRow { key, row }) => written.store(key, row),
        None => {}
    }
}

/// Writes a change down, and gives the key of the row that it takes out.
fn write_one(written: &mut WrittenRows, ready: ReadyChange) -> Option<Key>
    requires ready { IsReady (key_places written.old.schema) ready }
    requires room { 2 ≤ written.old.spare }
    ensures schema { written.new.schema ≡ written.old.schema }
    ensures written { written.new.written ≡ wrote_ready (key_places written.old.schema) ready written.old.written }
    ensures spare { written.old.spare ≤ written.new.spare + 2 }
    ensures gone { result ≡ ready.gone }
{
    let ReadyChange { gone, out, new } = ready;
    take_out(written, out);
    put_in(written, new);
    gone
}

/// Writes changes down, and adds the keys of the rows that they take out.
pub fn write_each(written: &mut WrittenRows, keys: &mut Vec<Option<Key>>, ready: Vec<ReadyChange>)
    requires ready { AllByRecursion (IsReady (key_places written.old.schema)) ready.items }
    requires room { length ready.items + length ready.items ≤ written.old.spare }
    requires key_room { length ready.items ≤ vec_capacity keys.old - vec_len keys.old }
    ensures schema { written.new.schema ≡ written.old.schema }
    ensures written { written.new.written ≡ wrote_each (key_places written.old.schema) ready.items written.old.written }
    ensures keys { keys.new.items ≡ keys.old.items ++ map (λ one. one.gone) ready.items }
{
    for one in ready {
        let gone = write_one(written, one);
        keys.push_reserved(gone);
    }
}
