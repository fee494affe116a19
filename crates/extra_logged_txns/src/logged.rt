//! A session's transaction with its events beside it.

ghost use Rattle.std.specs.Prelude.{◌≡◌, ◌≤◌, ◌+◌, ◌-◌, ◌++◌, [], ℕ, List, length, count_by, vec_len, vec_capacity, IfSome, OnOk};
ghost use Rattle.std.specs.List.{AllByRecursion};
ghost use Rattle.table_store.specs.Databases.{database, spare_in};
ghost use Rattle.server_log.specs.Encodings.{IsEncodable};
ghost use Rattle.server_model.specs.Operations.{after_events};
ghost use Rattle.server_transaction.specs.Premises.{IsOf};
ghost use Rattle.server_transaction.specs.Rooms.{puts_in};
ghost use Rattle.server_transaction.specs.Shown.{find_writes};
ghost use Rattle.server_transaction.specs.Stored.{events_in, schemas, schemas_with, HasRoom};
ghost use Rattle.server_log.specs.EventCosts.Costs.{cost_of};
ghost use Rattle.extra_logged_txns.specs.Puts.{is_put};

use crate::put_rows::puts;
use base_values::{Events, RowEvent, Sequence};
use server_log::event_costs::cost;
use server_transaction::{Txn, Writes, commit};
use std::alloc::{AllocError, Global};
use std::marker::Model;
use table_store::paged_tables::Tables;

/// A session's transaction with the events beside it that its commit gives. To drop it is to roll it back: no statement
/// is written before it is to stand, so none is taken back. Contracts see the transaction, and for how many more events
/// there is room.
#[derive(Drop)]
pub struct LoggedTxn {
    txn: Txn,
    events: Vec<RowEvent>,
}

impl Model for LoggedTxn {
    ghost use Rattle.std.specs.Prelude.{◌≡◌, ◌-◌, vec_len, vec_capacity};
    ghost use Rattle.extra_logged_txns.specs.Logged.{LoggedView};

    ghost Value = { LoggedView };

    ghost view = { λ t. record { txn = t.txn; room = vec_capacity t.events - vec_len t.events } };

    ghost invariant = { λ t. t.events.items ≡ t.txn.events };
}

/// Adds events after others.
fn append_events(events: &mut Vec<RowEvent>, more: Events)
    requires { length more ≤ vec_capacity events.old - vec_len events.old }
    ensures { events.new.items ≡ events.old.items ++ more }
{
    let mut more = more.into_vec();
    match events.append(&mut more) {
        Ok(()) => {}
        Err(_) => unreachable!(),
    }
}

impl LoggedTxn {
    /// A transaction that wrote nothing.
    pub fn new(alloc: Global) -> LoggedTxn
        ensures events { result.txn.events ≡ [] }
        ensures tables { result.txn.tables ≡ [] }
    {
        LoggedTxn {
            txn: Txn::new(alloc),
            events: Vec::new(alloc),
        }
    }

    /// The transaction, by which its session sees the tables.
    pub fn txn(&self) -> &Txn
        ensures { result.now ≡ self.now.txn }
    {
        &self.txn
    }

    /// Makes room for what a statement writes.
    pub fn reserve(&mut self, writes: &Writes) -> Result<(), AllocError>
        ensures events { self.new.txn.events ≡ self.old.txn.events }
        ensures schemas { schemas self.new.txn.tables ≡ schemas self.old.txn.tables }
        ensures room { OnOk result (HasRoom self.new.txn writes.now) }
        ensures beside { OnOk result (length writes.now.changes ≤ self.new.room) }
    {
        self.events.reserve(writes.len())?;
        self.txn.reserve(writes)
    }

    /// Writes down what a statement writes to a table of the schema that it is known by, with its events.
    pub fn write(&mut self, writes: Writes, events: Events)
        requires events { events ≡ events_in writes }
        requires room { HasRoom self.old.txn writes }
        requires beside { length writes.changes ≤ self.old.room }
        requires schema { IfSome (find_writes writes.schema.name self.old.txn.tables) (λ table. table.schema ≡ writes.schema) }
        ensures events { self.new.txn.events ≡ self.old.txn.events ++ events }
        ensures schemas { schemas self.new.txn.tables ≡ schemas_with writes.schema (schemas self.old.txn.tables) }
    {
        append_events(&mut self.events, events);
        self.txn.write(writes);
    }

    /// What the events cost that its commit gives: in how many bytes they are encoded, or the greatest number where they are
    /// more.
    pub fn cost(&self) -> u64
        requires { AllByRecursion IsEncodable self.now.txn.events }
        ensures { result ≡ cost_of self.now.txn.events }
    {
        cost(self.events.as_slice())
    }

    /// How many rows its commit puts.
    pub fn puts(&self) -> usize
        ensures { result ≡ count_by is_put self.now.txn.events }
    {
        puts(self.events.as_slice())
    }

    /// Its events so far.
    pub fn events(&self) -> &[RowEvent]
        ensures { result.now ≡ self.now.txn.events }
    {
        self.events.as_slice()
    }

    /// Commits the transaction: its events are done to their tables, and given.
    pub fn commit(self, tables: &mut Tables) -> Events
        requires of { IsOf (database tables.old) self.txn }
        requires room { (name : List ℕ) → puts_in name self.txn.events ≤ spare_in name tables.old }
        ensures events { result ≡ self.txn.events }
        ensures tables { database tables.new ≡ after_events (database tables.old) self.txn.events }
        ensures spare { (name : List ℕ) → spare_in name tables.old ≤ spare_in name tables.new + puts_in name self.txn.events }
    {
        let LoggedTxn { txn, events } = self;
        commit(txn, tables);
        Sequence::from_vec(events)
    }
}
