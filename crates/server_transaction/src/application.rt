//! An event is done to its table.

ghost use Rattle.std.specs.Prelude.{◌≡◌, ◌≤◌, ◌+◌, Some, IfSome};
ghost use Rattle.base_values.specs.GhoSchema.Rows.{key_of, key_places};
ghost use Rattle.base_values.specs.GhoSchema.Tables.{Ascends};
ghost use Rattle.base_values.specs.declared.event.Change.TheVariants as changes;
ghost use Rattle.table_store.specs.Databases.{database, find_table, with_change, spare_in, others, NamesDiffer};
ghost use Rattle.server_model.specs.Operations.{change_table};
ghost use Rattle.server_transaction.specs.FittingEvents.{FitsIn};
ghost use Rattle.server_model.specs.LockedRows.Databases.{WhereFound};
ghost use Rattle.server_transaction.specs.Premises.{IsGoneIn};
ghost use Rattle.server_transaction.specs.Rooms.{puts_of};

use base_values::{Change, Key, Name, Row, RowEvent};
use table_store::paged_tables::Tables;

/// Only for the prover: the tables' names differ (which `len` says), and the rows of the one of this name are in order (which
/// `schema` says).
fn look_at(tables: &Tables, name: &Name)
    ensures differ { NamesDiffer (database tables.now) }
    ensures ascends { WhereFound (λ table. Ascends (key_places table.schema) table.rows) (find_table name.now (database tables.now)) }
{
    let _count = tables.len();
    if let Some(table) = tables.find(name) {
        let _schema = table.schema();
    }
}

/// Puts a row into the table of this name.
fn put(tables: &mut Tables, name: &Name, row: Row)
    requires fits { FitsIn (changes.Write row) (find_table name.now (database tables.old)) }
    requires room { 1 ≤ spare_in name.now tables.old }
    ensures tables { database tables.new ≡ with_change name.now (change_table (changes.Write row)) (database tables.old) }
    ensures spare { spare_in name.now tables.old ≡ spare_in name.now tables.new + 1 }
    ensures others { others name.now tables.new ≡ others name.now tables.old }
{
    look_at(tables, name);
    tables.put_in(name, row);
}

/// Takes a row out of the table of this name, by its key.
fn take_out(tables: &mut Tables, name: &Name, row: &Row, gone: &Option<Key>)
    requires fits { FitsIn (changes.Delete row.now) (find_table name.now (database tables.old)) }
    requires key { IfSome (find_table name.now (database tables.old)) (λ table. gone.now ≡ Some (key_of (key_places table.schema) row.now)) }
    ensures tables { database tables.new ≡ with_change name.now (change_table (changes.Delete row.now)) (database tables.old) }
    ensures spare { spare_in name.now tables.old ≤ spare_in name.now tables.new }
    ensures others { others name.now tables.new ≡ others name.now tables.old }
{
    look_at(tables, name);
    match gone {
        Some(key) => {
            let _ = tables.remove_in(name, key);
        }
        None => unreachable!(),
    }
}

/// Changes a row of the table of this name, whose key is given.
fn change(tables: &mut Tables, name: &Name, before: &Row, after: Row, gone: &Option<Key>)
    requires fits { FitsIn (changes.Update before.now after) (find_table name.now (database tables.old)) }
    requires key { IfSome (find_table name.now (database tables.old)) (λ table. gone.now ≡ Some (key_of (key_places table.schema) before.now)) }
    requires room { 1 ≤ spare_in name.now tables.old }
    ensures tables { database tables.new ≡ with_change name.now (change_table (changes.Update before.now after)) (database tables.old) }
    ensures spare { spare_in name.now tables.old ≤ spare_in name.now tables.new + 1 }
    ensures others { others name.now tables.new ≡ others name.now tables.old }
{
    take_out(tables, name, before, gone);
    put(tables, name, after);
}

/// Does an event to its table, where the key is given of the row that it takes out.
pub fn apply(tables: &mut Tables, event: RowEvent, gone: Option<Key>)
    requires fits { FitsIn event.change (find_table event.table (database tables.old)) }
    requires key { IsGoneIn (database tables.old) event gone }
    requires room { puts_of event.change ≤ spare_in event.table tables.old }
    ensures tables { database tables.new ≡ with_change event.table (change_table event.change) (database tables.old) }
    ensures spare { spare_in event.table tables.old ≤ spare_in event.table tables.new + puts_of event.change }
    ensures others { others event.table tables.new ≡ others event.table tables.old }
{
    let RowEvent {
        table,
        change: done,
    } = event;
    match done {
        Change::Write(row) => put(tables, &table, row),
        Change::Update(before, after) => change(tables, &table, &before, after, &gone),
        Change::Delete(row) => take_out(tables, &table, &row, &gone),
    }
}
