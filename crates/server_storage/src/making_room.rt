//! Room is made for what a session writes and for its commit; so it is written without memory.

ghost use Rattle.std.specs.Prelude.{◌≡◌, ◌==◌, ℕ, false, length, List, IfOk, IfSome, IsSome, OnOk};
ghost use Rattle.table_store.specs.Databases.{StoredTable, database};
ghost use Rattle.server_transaction.specs.Premises.{HasSchema, events_ready};
ghost use Rattle.server_transaction.specs.Stored.{HasRoom};
ghost use Rattle.server_storage.specs.OpenTxns.Open.{txn_of};
ghost use Rattle.server_storage.specs.KeptTxns.Kept.{IsKept, IsKeptOn, IsReadyWrites};
ghost use Rattle.server_storage.specs.Ready.{AreReady};

use crate::open_txns::{OpenTxn, events_open, is_open, open_txn, reserve_in};
use server_transaction::{ReadyResult, Writes};
use std::alloc::{AllocError, Global};
use table_store::paged_tables::Tables;

/// Opens a transaction of the session, where it has none.
fn open_own(alloc: Global, txns: &mut Vec<OpenTxn>, session: u32) -> Result<(), AllocError>
    ensures own { OnOk result (IsSome (txn_of session txns.new.items)) }
    ensures kept { (tables : List StoredTable) → IsKept tables txns.old.items → IsKeptOn tables txns.old.items txns.new.items }
{
    if is_open(txns.as_slice(), session) {
        return Ok(());
    }
    open_txn(alloc, txns, session)?;
    Ok(())
}

/// Makes room for the writes in the session's open transaction.
fn reserve_own(txns: &mut Vec<OpenTxn>, session: u32, writes: &Writes) -> Result<(), AllocError>
    requires { IsSome (txn_of session txns.old.items) }
    ensures own { IsSome (txn_of session txns.new.items) }
    ensures room { OnOk result (IfSome (txn_of session txns.new.items) (λ one. HasRoom one.txn writes.now)) }
    ensures kept { (tables : List StoredTable) → IsKept tables txns.old.items → IsKeptOn tables txns.old.items txns.new.items }
{
    reserve_in(txns, session, writes)
}

/// Makes room in the table of the writes, for them and for all that is open.
fn reserve_table(tables: &mut Tables, txns: &[OpenTxn], writes: &Writes) -> Result<(), AllocError>
    requires kept { IsKept tables.old txns.now }
    requires has { HasSchema (database tables.old) writes.now.schema }
    requires some { (length writes.now.changes == 0) ≡ false }
    ensures ready { OnOk result ((number : ℕ) → IsSome (txn_of number txns.now) → IfSome (txn_of number txns.now) (λ one. HasRoom one.txn writes.now) → IsReadyWrites tables.new txns.now number writes.now) }
    ensures kept { IsKept tables.new txns.now }
    ensures committed { database tables.new ≡ database tables.old }
{
    // As many rows as all open transactions have events, these among them: no table gets more by their commits. So a commit
    // takes no memory, whoever committed before it.
    let Some(open) = events_open(txns) else {
        return Err(AllocError);
    };
    let Some(rows) = open.checked_add(writes.len()) else {
        return Err(AllocError);
    };
    tables.reserve_in(writes.table(), rows)
}

/// Makes room for writes of the session, and for all commits with them.
fn make_room(
    alloc: Global,
    tables: &mut Tables,
    txns: &mut Vec<OpenTxn>,
    session: u32,
    writes: &Writes,
) -> Result<(), AllocError>
    requires kept { IsKept tables.old txns.old.items }
    requires has { HasSchema (database tables.old) writes.now.schema }
    requires some { (length writes.now.changes == 0) ≡ false }
    ensures ready { OnOk result (IsReadyWrites tables.new txns.new.items session writes.now) }
    ensures kept { IsKeptOn tables.new txns.old.items txns.new.items }
    ensures committed { database tables.new ≡ database tables.old }
{
    open_own(alloc, txns, session)?;
    reserve_own(txns, session, writes)?;
    reserve_table(tables, txns.as_slice(), writes)
}

/// Makes room for what the session writes, where it writes something.
fn ready_writes(
    alloc: Global,
    tables: &mut Tables,
    txns: &mut Vec<OpenTxn>,
    session: u32,
    writes: Option<Writes>,
) -> Result<Option<Writes>, AllocError>
    requires kept { IsKept tables.old txns.old.items }
    requires has { IfSome writes (λ one. HasSchema (database tables.old) one.schema) }
    ensures events { IfOk result (λ ready. events_ready ready ≡ events_ready writes) }
    ensures ready { IfOk result (AreReady tables.new txns.new.items session) }
    ensures kept { IsKeptOn tables.new txns.old.items txns.new.items }
    ensures committed { database tables.new ≡ database tables.old }
{
    let Some(writes) = writes else {
        return Ok(None);
    };
    if writes.is_empty() {
        return Ok(None);
    }
    make_room(alloc, tables, txns, session, &writes)?;
    Ok(Some(writes))
}

/// Makes room for what was said to be written, and for its commit.
pub fn make_ready(
    alloc: Global,
    tables: &mut Tables,
    txns: &mut Vec<OpenTxn>,
    session: u32,
    executed: ReadyResult,
) -> Result<ReadyResult, AllocError>
    requires kept { IsKept tables.old txns.old.items }
    requires has { IfSome executed.writes (λ one. HasSchema (database tables.old) one.schema) }
    ensures answer { IfOk result (λ ready. ready.answer ≡ executed.answer) }
    ensures events { IfOk result (λ ready. events_ready ready.writes ≡ events_ready executed.writes) }
    ensures ready { IfOk result (λ ready. AreReady tables.new txns.new.items session ready.writes) }
    ensures kept { IsKeptOn tables.new txns.old.items txns.new.items }
    ensures committed { database tables.new ≡ database tables.old }
{
    let ReadyResult { answer, writes } = executed;
    let writes = ready_writes(alloc, tables, txns, session, writes)?;
    Ok(ReadyResult { answer, writes })
}
