//! The tables of a database.

ghost use Rattle.std.specs.Prelude.{◌≡◌, ◌≤◌, ◌<◌, ◌+◌, ◌==◌, true, [], ◌∷◌, ◌++◌, length, slice_get, option_map, option_and_then, Some, Ok, Err, IfOk, OnOk, OnErr, IfErr, IsSome, IsSomeAnd};
ghost use Rattle.table_store.specs.Databases.{database, find_table, has_table, find_stored, others, spare_in, put_row, remove_row, row_at_key, IsNewIn, NamesDiffer, rename_tables, spares};
ghost use Rattle.base_values.specs.Faults.{Refuses};
ghost use Rattle.table_store.specs.declared.add_fault.AddFault.{AddFault};
ghost use Rattle.table_store.specs.PagedTables.PagedDatabases.{stored_of};

use crate::name_map::NameMap;
use crate::paged_tables::additions::add_new;
use crate::paged_tables::copies::copied_tables;
use crate::paged_tables::lookup::{has_name, named, place_of};
use crate::paged_tables::renames::rename_from;
use crate::paged_tables::row_pages::Table;
use crate::{AddFault, Pairs, RenameFault};
use base_values::{Key, Name, Row};
use std::alloc::{AllocError, Global};
use std::marker::Model;

/// Tables kept by name, in order of adding. Contracts see a plain list of them.
#[derive(Drop)]
pub struct Tables {
    tables: NameMap<Table>,
}

impl Model for Tables {
    ghost use Rattle.std.specs.Prelude.{List};
    ghost use Rattle.table_store.specs.Databases.{StoredTable};
    ghost use Rattle.table_store.specs.PagedTables.PagedDatabases.{stored, AreNamed};

    ghost Value = { List StoredTable };

    ghost view = { λ t. stored t.tables.values };

    ghost invariant = { λ t. AreNamed t.tables };
}

impl Tables {
    /// No tables.
    pub fn new(alloc: Global) -> Tables
        ensures { result ≡ [] }
    {
        Tables {
            tables: NameMap::new(alloc),
        }
    }

    /// How many tables there are. Their names differ.
    pub fn len(&self) -> usize
        ensures length { result ≡ length self.now }
        ensures differ { NamesDiffer (database self.now) }
    {
        self.tables.len()
    }

    /// Whether there is no table.
    pub fn is_empty(&self) -> bool
        ensures { result ≡ (length self.now == 0) }
    {
        self.tables.len() == 0
    }

    /// The n-th table, counted from 0.
    pub fn at(&self, n: usize) -> &Table
        requires { n < length self.now }
        ensures { slice_get self.now n ≡ Some (stored_of result.now) }
    {
        self.tables.at(n)
    }

    /// The table of this name.
    pub fn find(&self, name: &Name) -> Option<&Table>
        ensures stored { option_map (λ table. stored_of table.now) result ≡ find_stored name.now self.now }
        ensures table { option_map (λ table. table.now.table) result ≡ find_table name.now (database self.now) }
    {
        named(name, &self.tables)
    }

    /// Whether a table has this name.
    pub fn stands(&self, name: &Name) -> bool
        ensures { result ≡ has_table name.now (database self.now) }
    {
        has_name(name, &self.tables)
    }

    /// A copy of the tables, with what room they may have.
    pub fn copy_tables(&self, alloc: Global) -> Result<Tables, AllocError>
        ensures { IfOk result (λ copy. database copy ≡ database self.now) }
    {
        Ok(Tables {
            tables: copied_tables(alloc, &self.tables)?,
        })
    }

    /// Adds a table after the others.
    pub fn add(&mut self, table: Table) -> Result<(), AddFault>
        ensures ok { OnOk result (self.new ≡ self.old ++ stored_of table ∷ []) }
        ensures stands { result ≡ Err AddFault.Exists → has_table table.table.schema.name (database self.old) ≡ true }
        ensures there { has_table table.table.schema.name (database self.old) ≡ true → result ≡ Err AddFault.Exists }
        ensures err { OnErr result (self.new ≡ self.old) }
    {
        if self.stands(&table.schema().name) {
            return Err(AddFault::Exists);
        }
        add_new(&mut self.tables, table)?;
        Ok(())
    }

    /// Takes the table of this name out.
    pub fn take(&mut self, name: &Name) -> Option<Table>
        ensures table { option_map stored_of result ≡ find_stored name.now self.old }
        ensures others { self.new ≡ others name.now self.old }
    {
        let place = place_of(name, &self.tables);
        if place < self.tables.len() {
            Some(self.tables.take(place))
        } else {
            None
        }
    }

    /// Makes room for `n` more rows in the table of this name.
    pub fn reserve_in(&mut self, name: &Name, n: usize) -> Result<(), AllocError>
        requires { IsSome (find_table name.now (database self.old)) }
        ensures tables { database self.new ≡ database self.old }
        ensures ok { OnOk result (n ≤ spare_in name.now self.new) }
        ensures spare { spare_in name.now self.old ≤ spare_in name.now self.new }
        ensures others { others name.now self.new ≡ others name.now self.old }
    {
        let place = place_of(name, &self.tables);
        let table = self.tables.at_mut(place);
        table.reserve(n)
    }

    /// Puts a row into the table of this name, in its place.
    pub fn put_in(&mut self, name: &Name, row: Row)
        requires room { 0 < spare_in name.now self.old }
        requires new_key { IsSomeAnd (find_table name.now (database self.old)) (IsNewIn row) }
        ensures tables { database self.new ≡ put_row name.now row (database self.old) }
        ensures spare { spare_in name.now self.new + 1 ≡ spare_in name.now self.old }
        ensures others { others name.now self.new ≡ others name.now self.old }
    {
        let place = place_of(name, &self.tables);
        let table = self.tables.at_mut(place);
        table.put(row);
    }

    /// Takes the row of this key out of the table of this name.
    pub fn remove_in(&mut self, name: &Name, key: &Key) -> Option<Row>
        requires { IsSome (find_table name.now (database self.old)) }
        ensures row { result ≡ option_and_then (λ table. row_at_key table key.now) (find_table name.now (database self.old)) }
        ensures tables { database self.new ≡ remove_row name.now key.now (database self.old) }
        ensures spare { spare_in name.now self.old ≤ spare_in name.now self.new }
        ensures others { others name.now self.new ≡ others name.now self.old }
    {
        let place = place_of(name, &self.tables);
        let table = self.tables.at_mut(place);
        table.remove(key)
    }

    /// Renames tables, pair by pair from left to right; or none, where a pair is refused.
    pub fn rename(&mut self, pairs: &Pairs) -> Result<(), RenameFault>
        ensures ok { OnOk result (rename_tables pairs.now (database self.old) ≡ Ok (database self.new)) }
        ensures fault { IfErr result (λ fault. Refuses fault (rename_tables pairs.now (database self.old))) }
        ensures err { OnErr result (self.new ≡ self.old) }
        ensures spares { spares self.new ≡ spares self.old }
    {
        // Two for each pair, before the first change: one to rename it, one to undo that. The contracts of the map don't
        // say that what is taken out leaves room.
        let Some(room) = pairs.len().checked_mul(2) else {
            return Err(RenameFault::Memory);
        };
        self.tables.reserve(room)?;
        rename_from(&mut self.tables, pairs.as_slice())
    }
}
