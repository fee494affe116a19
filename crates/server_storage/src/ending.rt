//! A session's open transaction ends: it is committed or rolled back.

ghost use Rattle.std.specs.Prelude.{◌≡◌, ◌==◌, ℕ, false, [], List};
ghost use Rattle.table_store.specs.Databases.{StoredTable, database};
ghost use Rattle.server_model.specs.Operations.{after_events};
ghost use Rattle.server_transaction.specs.FittingEvents.{EventsFit};
ghost use Rattle.server_model.specs.LockedRows.Databases.{IsWellFormedDatabase};
ghost use Rattle.server_storage.specs.OpenTxns.Open.{written_of};
ghost use Rattle.server_storage.specs.KeptTxns.Kept.{IsKept, IsKeptWith};

use crate::open_txns::{OpenTxn, take_txn};
use server_transaction::commit;
use table_store::paged_tables::Tables;

/// Commits what the session wrote.
pub fn commit_txn(tables: &mut Tables, txns: &mut Vec<OpenTxn>, session: u32)
    requires kept { IsKept tables.old txns.old.items }
    requires fit { (other : ℕ) → (other == session) ≡ false → EventsFit (after_events (database tables.old) (written_of session txns.old.items)) (written_of other txns.old.items) }
    requires well_formed { (other : ℕ) → (other == session) ≡ false → IsWellFormedDatabase (after_events (after_events (database tables.old) (written_of session txns.old.items)) (written_of other txns.old.items)) }
    ensures kept { IsKeptWith session [] tables.new txns.old.items txns.new.items }
    ensures committed { database tables.new ≡ after_events (database tables.old) (written_of session txns.old.items) }
{
    let Some(txn) = take_txn(txns, session) else {
        return;
    };
    commit(txn, tables);
}

/// Forgets what the session wrote.
pub fn roll_back_txn(txns: &mut Vec<OpenTxn>, session: u32)
    ensures { (tables : List StoredTable) → IsKept tables txns.old.items → IsKeptWith session [] tables txns.old.items txns.new.items }
{
    let _ = take_txn(txns, session);
}
