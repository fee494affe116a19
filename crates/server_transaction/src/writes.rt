//! What one statement writes to its table, made ready.

ghost use Rattle.std.specs.Prelude.{◌≡◌, ◌==◌, ◌+◌, length, IfOk, IfSome};
ghost use Rattle.server_transaction.specs.Stored.{events_in};

use crate::events::events_of;
use crate::ready_changes::{ReadyChange, ready_changes};
use base_values::gho_schema::Schema;
use base_values::{Duplicate, Name, RowEvent};
use server_execute::Changes;
use std::alloc::{AllocError, Global};
use std::marker::Model;

/// What one statement writes to its table: all that is needed to write it without memory. Contracts see the table's schema
/// and the changes of its rows.
#[derive(Drop)]
pub struct Writes {
    pub(crate) schema: Schema,
    pub(crate) events: Vec<RowEvent>,
    pub(crate) ready: Vec<ReadyChange>,
}

impl Model for Writes {
    ghost use Rattle.std.specs.Prelude.{map};
    ghost use Rattle.server_transaction.specs.Stored.{TableChanges, IsMade};

    ghost Value = { TableChanges };

    ghost view = { λ w. record { schema = w.schema; changes = map (λ event. event.change) w.events.items } };

    ghost invariant = { λ w. IsMade (record { schema = w.schema; changes = map (λ event. event.change) w.events.items }) w.events.items w.ready.items };
}

impl Writes {
    /// The changes of the rows of a table of this schema, made ready.
    pub fn new(alloc: Global, schema: &Schema, changes: Changes) -> Result<Writes, AllocError>
        ensures schema { IfOk result (λ writes. writes.schema ≡ schema.now) }
        ensures changes { IfOk result (λ writes. writes.changes ≡ changes) }
    {
        let ready = ready_changes(alloc, schema.key_places(), changes.as_slice())?;
        let events = events_of(alloc, &schema.name, changes)?;
        let copy = schema.copy()?;
        Ok(Writes {
            schema: copy,
            events,
            ready,
        })
    }

    /// The table's schema.
    pub(crate) fn schema(&self) -> &Schema
        ensures { result.now ≡ self.now.schema }
    {
        &self.schema
    }

    /// The table's name.
    pub fn table(&self) -> &Name
        ensures { result.now ≡ self.now.schema.name }
    {
        &self.schema.name
    }

    /// The changes as events.
    pub fn events(&self) -> &[RowEvent]
        ensures { result.now ≡ events_in self.now }
    {
        self.events.as_slice()
    }

    /// How many changes there are.
    pub fn len(&self) -> usize
        ensures { result ≡ length self.now.changes }
    {
        self.events.len()
    }

    /// Whether there is no change.
    pub fn is_empty(&self) -> bool
        ensures { result ≡ (length self.now.changes == 0) }
    {
        self.events.is_empty()
    }

    /// For how many rows and keys there has to be room in what was written to the table: a change may touch two keys. None where
    /// no number says how many.
    pub(crate) fn size(&self) -> Option<usize>
        ensures { IfSome result (λ n. n ≡ length self.now.changes + length self.now.changes) }
    {
        self.events.len().checked_add(self.events.len())
    }
}
