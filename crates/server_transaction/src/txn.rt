//! A session's transaction.

ghost use Rattle.std.specs.Prelude.{◌≡◌, ◌==◌, ◌++◌, [], length, option_copied, IfSome, OnOk};
ghost use Rattle.server_transaction.specs.Events.{changes_in};
ghost use Rattle.server_transaction.specs.Shown.{find_writes, Shows};
ghost use Rattle.server_transaction.specs.Stored.{events_in, schemas, HasRoom, schemas_with};

use crate::room::{append, make_room};
use crate::tables::{reserve_for, write_to, written_to};
use crate::writes::Writes;
use base_values::{Key, Name, RowEvent};
use server_seen::WrittenRows;
use std::alloc::{AllocError, Global};
use std::marker::Model;

/// What a session's transaction wrote. To drop it is to roll it back. Contracts see its events, what they wrote to each
/// table, and for how much more it has room.
#[derive(Drop)]
pub struct Txn {
    pub(crate) tables: Vec<WrittenRows>,
    // for one table more: nothing is written to it yet
    pub(crate) fresh: Option<WrittenRows>,
    pub(crate) events: Vec<RowEvent>,
    // for each event the key of the row that it takes out
    pub(crate) gone: Vec<Option<Key>>,
}

impl Model for Txn {
    ghost use Rattle.std.specs.Prelude.{◌-◌, min, vec_len, vec_capacity};
    ghost use Rattle.server_transaction.specs.Stored.{StoredTxn, IsTxn};

    ghost Value = { StoredTxn };

    ghost view = { λ t. record { events = t.events.items; tables = t.tables.items; fresh = t.fresh; event_room = min (vec_capacity t.events - vec_len t.events) (vec_capacity t.gone - vec_len t.gone); table_room = vec_capacity t.tables - vec_len t.tables } };

    ghost invariant = { λ t. IsTxn t.tables.items t.events.items t.gone.items };
}

impl Txn {
    /// A transaction that wrote nothing.
    pub fn new(alloc: Global) -> Txn
        ensures events { result.events ≡ [] }
        ensures tables { result.tables ≡ [] }
    {
        Txn {
            tables: Vec::new(alloc),
            fresh: None,
            events: Vec::new(alloc),
            gone: Vec::new(alloc),
        }
    }

    /// Its events, in order.
    pub fn events(&self) -> &[RowEvent]
        ensures { result.now ≡ self.now.events }
    {
        self.events.as_slice()
    }

    /// How many events it has.
    pub fn len(&self) -> usize
        ensures { result ≡ length self.now.events }
    {
        self.events.len()
    }

    /// Whether it has no event.
    pub fn is_empty(&self) -> bool
        ensures { result ≡ (length self.now.events == 0) }
    {
        self.events.is_empty()
    }

    /// What it wrote to the table of this name; nothing where it is none.
    pub fn written_to(&self, name: &Name) -> Option<&WrittenRows>
        ensures writes { option_copied result ≡ find_writes name.now self.now.tables }
        ensures shown { Shows (changes_in name.now self.now.events) (find_writes name.now self.now.tables) }
    {
        written_to(self.tables.as_slice(), name)
    }

    /// Makes room for what a statement writes.
    pub fn reserve(&mut self, writes: &Writes) -> Result<(), AllocError>
        ensures events { self.new.events ≡ self.old.events }
        ensures schemas { schemas self.new.tables ≡ schemas self.old.tables }
        ensures room { OnOk result (HasRoom self.new writes.now) }
    {
        make_room(&mut self.events, writes.len())?;
        make_room(&mut self.gone, writes.len())?;
        let Some(size) = writes.size() else {
            return Err(AllocError);
        };
        let alloc = *self.tables.allocator();
        reserve_for(
            alloc,
            &mut self.tables,
            &mut self.fresh,
            writes.schema(),
            size,
        )
    }

    /// Writes down what a statement writes to a table of the schema that it is known by.
    pub fn write(&mut self, writes: Writes)
        requires room { HasRoom self.old writes }
        requires schema { IfSome (find_writes writes.schema.name self.old.tables) (λ table. table.schema ≡ writes.schema) }
        ensures events { self.new.events ≡ self.old.events ++ events_in writes }
        ensures schemas { schemas self.new.tables ≡ schemas_with writes.schema (schemas self.old.tables) }
    {
        let Writes {
            schema,
            events,
            ready,
        } = writes;
        write_to(
            &mut self.tables,
            &mut self.fresh,
            &mut self.gone,
            &schema,
            ready,
        );
        append(&mut self.events, events);
    }
}
