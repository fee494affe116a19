//! A table as a session sees it.

ghost use Rattle.std.specs.Prelude.{◌≡◌};
ghost use Rattle.table_store.specs.Databases.{database, find_table};
ghost use Rattle.server_model.specs.Operations.{after_events};
ghost use Rattle.server_transaction.specs.Premises.{IsOf};

use crate::txn::Txn;
use base_values::Name;
use server_seen::SeenTable;
use table_store::paged_tables::Tables;

/// The table of this name, with what the session's transaction wrote to it.
pub fn seen_table<'a>(tables: &'a Tables, txn: &'a Txn, name: &Name) -> Option<SeenTable<'a>>
    requires { IsOf (database tables.now) txn.now }
    ensures { result ≡ find_table name.now (after_events (database tables.now) txn.now.events) }
{
    let Some(table) = tables.find(name) else {
        return None;
    };
    // For the prover: `schema` says that the rows are in order of the clustered key.
    let _schema = table.schema();
    match txn.written_to(name) {
        Some(written) => Some(SeenTable::new(table, written)),
        None => Some(SeenTable::unwritten(table)),
    }
}
