//! What a transaction wrote, table by table.

ghost use Rattle.std.specs.Prelude.{◌≡◌, ◌≤◌, ◌+◌, ◌-◌, ◌++◌, length, map, vec_len, vec_capacity, option_copied, IfOk, IfSome, OnOk};
ghost use Rattle.std.specs.List.{AllByRecursion, position_or_len};
ghost use Rattle.std.specs.Str.{bytes_eq};
ghost use Rattle.base_values.specs.GhoSchema.Rows.{key_places};
ghost use Rattle.server_transaction.specs.Ready.{IsReady};
ghost use Rattle.server_transaction.specs.Shown.{find_writes};
ghost use Rattle.server_transaction.specs.Stored.{plain, HasRoomFor, IsFresh, IsWrittenTo};

use crate::ready_changes::{ReadyChange, write_each};
use base_values::gho_schema::Schema;
use base_values::{Key, Name};
use server_seen::WrittenRows;
use std::alloc::{AllocError, Global};

fn is_named(name: &Name, table: &WrittenRows) -> bool
    ensures { result ≡ bytes_eq table.now.schema.name name.now }
{
    table.schema().name == *name
}

/// How many tables come before the one of this name.
pub fn place_of(tables: &[WrittenRows], name: &Name) -> usize
    ensures { result ≡ position_or_len (λ table. bytes_eq table.schema.name name.now) tables.now }
{
    tables
        .iter()
        .take_while(|table| !is_named(name, table))
        .count()
}

/// What was written to the table of this name.
pub fn written_to<'a>(tables: &'a [WrittenRows], name: &Name) -> Option<&'a WrittenRows>
    ensures { option_copied result ≡ find_writes name.now tables.now }
{
    tables.iter().find(|table| is_named(name, table))
}

/// Makes room for one table more.
fn reserve_one(tables: &mut Vec<WrittenRows>) -> Result<(), AllocError>
    ensures items { tables.new.items ≡ tables.old.items }
    ensures room { OnOk result (1 ≤ vec_capacity tables.new - vec_len tables.new) }
{
    tables.reserve(1)
}

/// A table of this schema to which nothing is written yet, with room for `n` rows and keys.
fn fresh_rows(alloc: Global, schema: &Schema, n: usize) -> Result<WrittenRows, AllocError>
    ensures { IfOk result (IsFresh n schema.now) }
{
    let mut fresh = WrittenRows::new(alloc, schema)?;
    fresh.reserve(n)?;
    Ok(fresh)
}

/// Makes room for `n` rows and keys in what was written to the table of this schema, or for that table.
pub fn reserve_for(
    alloc: Global,
    tables: &mut Vec<WrittenRows>,
    fresh: &mut Option<WrittenRows>,
    schema: &Schema,
    n: usize,
) -> Result<(), AllocError>
    ensures plain { map plain tables.new.items ≡ map plain tables.old.items }
    ensures room { OnOk result (HasRoomFor n schema.now (find_writes schema.now.name tables.new.items) fresh.new (vec_capacity tables.new - vec_len tables.new)) }
{
    let place = place_of(tables.as_slice(), &schema.name);
    if place < tables.len() {
        let table = &mut tables[place];
        table.reserve(n)
    } else {
        let rows = fresh_rows(alloc, schema, n)?;
        *fresh = Some(rows);
        reserve_one(tables)
    }
}

/// Writes changes to what was written to the table of this schema, and adds the keys of the rows that they take out.
pub fn write_to(
    tables: &mut Vec<WrittenRows>,
    fresh: &mut Option<WrittenRows>,
    keys: &mut Vec<Option<Key>>,
    schema: &Schema,
    ready: Vec<ReadyChange>,
)
    requires ready { AllByRecursion (IsReady (key_places schema.now)) ready.items }
    requires schema { IfSome (find_writes schema.now.name tables.old.items) (λ table. table.schema ≡ schema.now) }
    requires room { HasRoomFor (length ready.items + length ready.items) schema.now (find_writes schema.now.name tables.old.items) fresh.old (vec_capacity tables.old - vec_len tables.old) }
    requires key_room { length ready.items ≤ vec_capacity keys.old - vec_len keys.old }
    ensures tables { IsWrittenTo schema.now ready.items tables.old.items tables.new.items }
    ensures keys { keys.new.items ≡ keys.old.items ++ map (λ one. one.gone) ready.items }
{
    let place = place_of(tables.as_slice(), &schema.name);
    if place < tables.len() {
        let table = &mut tables[place];
        write_each(table, keys, ready);
    } else {
        let taken = fresh.take();
        match taken {
            Some(mut table) => {
                write_each(&mut table, keys, ready);
                tables.push_reserved(table);
            }
            // Room was made for a table more.
            None => unreachable!(),
        }
    }
}
