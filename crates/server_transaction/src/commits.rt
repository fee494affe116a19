//! A session's transaction is committed.

ghost use Rattle.std.specs.Prelude.{◌≡◌, ◌≤◌, ◌+◌, ℕ, List};
ghost use Rattle.std.specs.List.{AllZip};
ghost use Rattle.table_store.specs.Databases.{database, spare_in};
ghost use Rattle.server_model.specs.Operations.{after_events};
ghost use Rattle.server_transaction.specs.FittingEvents.{EventsFit};
ghost use Rattle.server_transaction.specs.Premises.{IsGoneIn, IsOf};
ghost use Rattle.server_transaction.specs.Rooms.{puts_in};

use crate::application::apply;
use crate::txn::Txn;
use base_values::{Key, RowEvent};
use table_store::paged_tables::Tables;

/// Does events to their tables, one by one, each with the key of the row that it takes out.
fn apply_all(tables: &mut Tables, events: Vec<RowEvent>, gone: Vec<Option<Key>>)
    requires fit { EventsFit (database tables.old) events.items }
    requires keys { AllZip (IsGoneIn (database tables.old)) events.items gone.items }
    requires room { (name : List ℕ) → puts_in name events.items ≤ spare_in name tables.old }
    ensures tables { database tables.new ≡ after_events (database tables.old) events.items }
    ensures spare { (name : List ℕ) → spare_in name tables.old ≤ spare_in name tables.new + puts_in name events.items }
{
    let mut keys = gone.into_iter();
    for event in events {
        match keys.next() {
            Some(gone) => apply(tables, event, gone),
            // There are as many keys as events.
            None => unreachable!(),
        }
    }
}

/// Commits the transaction: its events are done to their tables.
pub fn commit(txn: Txn, tables: &mut Tables)
    requires of { IsOf (database tables.old) txn }
    requires room { (name : List ℕ) → puts_in name txn.events ≤ spare_in name tables.old }
    ensures tables { database tables.new ≡ after_events (database tables.old) txn.events }
    ensures spare { (name : List ℕ) → spare_in name tables.old ≤ spare_in name tables.new + puts_in name txn.events }
{
    let Txn {
        tables: _written,
        fresh: _unwritten,
        events,
        gone,
    } = txn;
    apply_all(tables, events, gone);
}
