//! Tables are created, dropped and renamed.

ghost use Rattle.std.specs.Prelude.{◌≡◌, ℕ, false, [], ◌∷◌, ◌++◌, List, Ok, IfErr, OnOk, OnErr};
ghost use Rattle.table_store.specs.Databases.{database, has_table, rename_tables, without_table};
ghost use Rattle.base_values.specs.Faults.{Refuses};
ghost use Rattle.server_model.specs.States.{pair_names};
ghost use Rattle.server_transaction.specs.FittingEvents.{NoneOf};
ghost use Rattle.server_model.specs.LockedRows.Coverage.{IsWellFormedTable};
ghost use Rattle.server_storage.specs.declared.open_txns.txns.OpenTxn.{OpenTxn};
ghost use Rattle.server_storage.specs.OpenTxns.Open.{written_of};
ghost use Rattle.server_storage.specs.KeptTxns.Kept.{IsKept};

use base_values::gho_schema::Schema;
use base_values::{Duplicate, Name};
use std::alloc::{AllocError, Global};
use table_store::paged_tables::Tables;
use table_store::paged_tables::row_pages::Table;
use table_store::{AddFault, Pairs, RenameFault};

/// Makes a table without rows, after the others (CREATE TABLE).
pub fn create_table(alloc: Global, tables: &mut Tables, schema: &Schema) -> Result<(), AllocError>
    requires absent { has_table schema.now.name (database tables.old) ≡ false }
    requires well_formed { IsWellFormedTable (record { schema = schema.now; rows = [] }) }
    ensures ok { OnOk result (database tables.new ≡ database tables.old ++ record { schema = schema.now; rows = [] } ∷ []) }
    ensures err { OnErr result (tables.new ≡ tables.old) }
    ensures kept { (txns : List OpenTxn) → IsKept tables.old txns → IsKept tables.new txns }
{
    let table = Table::new(alloc, schema.copy()?);
    match tables.add(table) {
        Ok(()) => Ok(()),
        Err(AddFault::Exists) => unreachable!(),
        Err(AddFault::Memory) => Err(AllocError),
    }
}

/// Drops the table of this name, to which no open transaction wrote (DROP TABLE).
pub fn drop_table(tables: &mut Tables, name: &Name)
    ensures committed { database tables.new ≡ without_table name.now (database tables.old) }
    ensures kept { (txns : List OpenTxn) → ((session : ℕ) → NoneOf (name.now ∷ []) (written_of session txns)) → IsKept tables.old txns → IsKept tables.new txns }
{
    let _ = tables.take(name);
}

/// Renames tables, to none of which an open transaction wrote, pair by pair from left to right; or none, where a pair is
/// refused (RENAME TABLE).
pub fn rename_tables(tables: &mut Tables, pairs: &Pairs) -> Result<(), RenameFault>
    ensures ok { OnOk result (rename_tables pairs.now (database tables.old) ≡ Ok (database tables.new)) }
    ensures fault { IfErr result (λ fault. Refuses fault (rename_tables pairs.now (database tables.old))) }
    ensures err { OnErr result (tables.new ≡ tables.old) }
    ensures kept { (txns : List OpenTxn) → ((session : ℕ) → NoneOf (pair_names pairs.now) (written_of session txns)) → IsKept tables.old txns → IsKept tables.new txns }
{
    tables.rename(pairs)
}
