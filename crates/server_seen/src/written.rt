//! What was written to a table.

ghost use Rattle.std.specs.Prelude.{◌≡◌, ◌≤◌, ◌<◌, ◌+◌, find, length, option_copied, IfOk, OnOk, OnErr};
ghost use Rattle.base_values.specs.GhoSchema.Rows.{key_of, key_places};
ghost use Rattle.base_values.specs.GhoSchema.Tables.{Ascends};
ghost use Rattle.table_store.specs.RowLists.{is_at};
ghost use Rattle.server_model.specs.Rows.{rows_met, stands};
ghost use Rattle.server_model.specs.StatementResults.{displaced};
ghost use Rattle.server_seen.specs.Written.{nothing, untouched, put_all, removed, stored, wrote};
ghost use Rattle.server_seen.specs.FittingChanges.{IsWritten};

use crate::keys::KeySet;
use crate::merge::merged;
use crate::met_rows::{rows_clashing, rows_met};
use base_values::gho_schema::{Schema, key_of};
use base_values::{Change, Duplicate, Key, Row, Rows, Sequence};
use server_model::Reach;
use std::alloc::{AllocError, Global};
use std::marker::Model;
use table_store::paged_tables::row_pages::Table;

/// What was written to a table: the new rows that exist, and the keys of all rows that were written or removed. Contracts see
/// besides the table's schema, and for how many more rows and keys there is room.
#[derive(Drop)]
pub struct WrittenRows {
    rows: Table,
    keys: KeySet,
}

impl Model for WrittenRows {
    ghost use Rattle.std.specs.Prelude.{min};
    ghost use Rattle.server_seen.specs.Stored.{StoredWrites, IsStored};

    ghost Value = { StoredWrites };

    ghost view = { λ w. record { schema = w.rows.table.schema; written = record { rows = w.rows.table.rows; keys = w.keys.keys }; spare = min w.rows.spare w.keys.spare } };

    ghost invariant = { λ w. IsStored w.rows.table.schema w.keys.width (record { rows = w.rows.table.rows; keys = w.keys.keys }) };
}

/// A row and its key.
#[derive(Drop)]
pub struct KeyedRow {
    /// The clustered key.
    pub key: Key,
    /// The row.
    pub row: Row,
}

/// A copy of a row, and its key at these places.
pub fn keyed_row(alloc: Global, places: &[usize], row: &Row) -> Result<KeyedRow, AllocError>
    ensures { IfOk result (λ keyed. keyed ≡ record { key = key_of places.now row.now; row = row.now }) }
{
    Ok(KeyedRow {
        key: key_of(alloc, places, row.as_slice())?,
        row: row.copy()?,
    })
}

/// Those of rows whose keys are none of these.
fn left(alloc: Global, places: &[usize], keys: &KeySet, rows: Rows) -> Result<Rows, AllocError>
    ensures { IfOk result (λ left. left ≡ untouched places.now keys.now.keys rows) }
{
    let mut left = Sequence::new(alloc);
    for row in rows.into_vec() {
        let key = key_of(alloc, places, row.as_slice())?;
        if !keys.contains(&key) {
            left.push(row)?;
        }
    }
    Ok(left)
}

impl WrittenRows {
    /// Nothing written to a table of this schema.
    pub fn new(alloc: Global, schema: &Schema) -> Result<WrittenRows, AllocError>
        ensures schema { IfOk result (λ writes. writes.schema ≡ schema.now) }
        ensures written { IfOk result (λ writes. writes.written ≡ nothing) }
    {
        let keys = KeySet::new(alloc, schema)?;
        Ok(WrittenRows {
            rows: Table::new(alloc, schema.copy()?),
            keys,
        })
    }

    /// The table's schema.
    pub fn schema(&self) -> &Schema
        ensures schema { result.now ≡ self.now.schema }
        ensures is_written { IsWritten (key_places self.now.schema) self.now.written }
    {
        self.rows.schema()
    }

    /// Makes room for `n` more rows and keys.
    pub fn reserve(&mut self, n: usize) -> Result<(), AllocError>
        ensures schema { self.new.schema ≡ self.old.schema }
        ensures written { self.new.written ≡ self.old.written }
        ensures ok { OnOk result (n ≤ self.new.spare) }
        ensures spare { self.old.spare ≤ self.new.spare }
    {
        self.rows.reserve(n)?;
        self.keys.reserve(n)
    }

    /// Takes the row of a key out.
    pub fn remove(&mut self, key: Key)
        requires width { length key ≤ length (key_places self.old.schema) }
        requires room { 0 < self.old.spare }
        ensures schema { self.new.schema ≡ self.old.schema }
        ensures written { self.new.written ≡ removed (key_places self.old.schema) key self.old.written }
        ensures spare { self.old.spare ≤ self.new.spare + 1 }
    {
        let _ = self.rows.remove(&key);
        self.keys.insert(key);
    }

    /// Puts a row in, in place of that of its key.
    pub fn store(&mut self, key: Key, row: Row)
        requires key { key ≡ key_of (key_places self.old.schema) row }
        requires room { 0 < self.old.spare }
        ensures schema { self.new.schema ≡ self.old.schema }
        ensures written { self.new.written ≡ stored (key_places self.old.schema) row self.old.written }
        ensures spare { self.old.spare ≤ self.new.spare + 1 }
    {
        let _ = self.rows.remove(&key);
        self.keys.insert(key);
        self.rows.put(row);
    }

    /// Writes a change down. Where there is no memory, all is as before.
    #[tactic(auto, using(crate::proofs::KeyTables::length_key), unfolding(crate::specs::Written::wrote))]
    pub fn write(&mut self, alloc: Global, change: &Change) -> Result<(), AllocError>
        ensures schema { self.new.schema ≡ self.old.schema }
        ensures ok { OnOk result (self.new.written ≡ wrote (key_places self.old.schema) change.now self.old.written) }
        ensures err { OnErr result (self.new.written ≡ self.old.written) }
    {
        let places = self.rows.schema().key_places();
        match change {
            Change::Write(row) => {
                let new = keyed_row(alloc, places, row)?;
                self.reserve(1)?;
                self.store(new.key, new.row);
            }
            Change::Update(before, after) => {
                let old = key_of(alloc, places, before.as_slice())?;
                let new = keyed_row(alloc, places, after)?;
                self.reserve(2)?;
                self.remove(old);
                self.store(new.key, new.row);
            }
            Change::Delete(row) => {
                let old = key_of(alloc, places, row.as_slice())?;
                self.reserve(1)?;
                self.remove(old);
            }
        }
        Ok(())
    }

    /// The row that exists with this key.
    pub(crate) fn row_of(&self, key: &Key) -> Option<&Row>
        ensures { option_copied result ≡ find (is_at (key_places self.now.schema) key.now) self.now.written.rows }
    {
        self.rows.get(key)
    }

    /// Whether the row of this key was written or removed.
    pub(crate) fn touches(&self, key: &Key) -> bool
        ensures { result ≡ stands key.now self.now.written.keys }
    {
        self.keys.contains(key)
    }

    /// The rows that exist and that a condition reaches.
    pub(crate) fn met(&self, alloc: Global, reach: &Reach) -> Result<Rows, AllocError>
        ensures { IfOk result (λ rows. rows ≡ rows_met self.now.schema reach.now self.now.written.rows) }
    {
        rows_met(alloc, &self.rows, reach)
    }

    /// The rows that exist and that clash with a new one.
    pub(crate) fn clashing(&self, alloc: Global, new: &Row) -> Result<Rows, AllocError>
        ensures { IfOk result (λ rows. rows ≡ displaced self.now.schema new.now self.now.written.rows) }
    {
        rows_clashing(alloc, &self.rows, new)
    }

    /// Rows that exist, laid over those of rows whose keys weren't touched.
    pub(crate) fn over(&self, alloc: Global, mine: Rows, rows: Rows) -> Result<Rows, AllocError>
        requires { Ascends (key_places self.now.schema) mine }
        ensures { IfOk result (λ all. all ≡ put_all (key_places self.now.schema) mine (untouched (key_places self.now.schema) self.now.written.keys rows)) }
    {
        let places = self.rows.schema().key_places();
        let left = left(alloc, places, &self.keys, rows)?;
        merged(alloc, places, mine.as_slice(), left)
    }
}
