//! What a session sees: the committed tables with what its open transaction wrote.

ghost use Rattle.std.specs.Prelude.{◌≡◌, false, [], List, IfOk, IfSome};
ghost use Rattle.base_values.specs.GhoSchema.ClusteredKey.{clustered_place};
ghost use Rattle.base_values.specs.declared.event.RowEvent.{RowEvent};
ghost use Rattle.table_store.specs.Databases.{StoredTable, database, find_table};
ghost use Rattle.server_model.specs.Operations.{after_events, operation_of};
ghost use Rattle.server_model.specs.Blockers.{span_lock, span_needs};
ghost use Rattle.server_model.specs.Needs.{lock_on};
ghost use Rattle.server_transaction.specs.Premises.{HasSchema, IsOf, events_ready};
ghost use Rattle.server_transaction.specs.Prepared.{IsSoundWork, IsWorkOf, work_result};
ghost use Rattle.server_storage.specs.OpenTxns.Open.{written_of};
ghost use Rattle.server_storage.specs.KeptTxns.Kept.{IsKept};

use crate::open_txns::{OpenTxn, txn_of};
use base_script::Statement;
use base_values::gho_schema::{Schema, clustered_place};
use base_values::{Duplicate, Name, Sequence, Span};
use server_execute::FoundWork;
use server_locks::row_locks::{Lock, LockSet};
use server_transaction::{ReadyResult, Txn, execute, find_work};
use std::alloc::{AllocError, Global};
use table_store::paged_tables::Tables;

/// The session's open transaction; where it has none, the one that wrote nothing.
pub fn txn_seen<'a>(txns: &'a [OpenTxn], session: u32, unwritten: &'a Txn) -> &'a Txn
    requires events { unwritten.now.events ≡ [] }
    requires tables { unwritten.now.tables ≡ [] }
    ensures of { (tables : List StoredTable) → IsKept tables txns.now → IsOf (database tables) result.now }
    ensures events { result.now.events ≡ written_of session txns.now }
{
    match txn_of(txns, session) {
        Some(one) => &one.txn,
        // One that only reads isn't opened: so each open transaction has an event of each table to which it wrote, by which
        // a DROP or RENAME of other tables leaves it as it is.
        None => unwritten,
    }
}

/// What the session's statement is to do, with the rows that it meets as the session sees them.
pub fn find_seen(
    alloc: Global,
    tables: &Tables,
    txns: &[OpenTxn],
    session: u32,
    statement: &Statement,
) -> Result<Option<FoundWork>, AllocError>
    requires { IsKept tables.now txns.now }
    ensures { IfOk result (λ work. IsWorkOf (after_events (database tables.now) (written_of session txns.now)) (operation_of statement.now) work) }
{
    let unwritten = Txn::new(alloc);
    let txn = txn_seen(txns, session, &unwritten);
    find_work(alloc, tables, txn, statement)
}

/// What the session's work gives, done to the table of this name as the session sees it, and what it writes.
pub fn execute_seen(
    alloc: Global,
    tables: &Tables,
    txns: &[OpenTxn],
    session: u32,
    table: &Name,
    work: Option<FoundWork>,
) -> Result<ReadyResult, AllocError>
    requires kept { IsKept tables.now txns.now }
    requires sound { IsSoundWork (after_events (database tables.now) (written_of session txns.now)) table.now work }
    ensures answer { IfOk result (λ executed. executed.answer ≡ (work_result (after_events (database tables.now) (written_of session txns.now)) table.now work).answer) }
    ensures events { IfOk result (λ executed. events_ready executed.writes ≡ (work_result (after_events (database tables.now) (written_of session txns.now)) table.now work).events) }
    ensures schema { IfOk result (λ executed. IfSome executed.writes (λ one. HasSchema (database tables.now) one.schema)) }
{
    let unwritten = Txn::new(alloc);
    let txn = txn_seen(txns, session, &unwritten);
    execute(alloc, tables, txn, table, work)
}

/// A share lock on a span of the key at this place.
fn share_lock(schema: &Schema, place: usize, span: &Span) -> Result<Lock, AllocError>
    ensures { IfOk result (λ lock. lock ≡ lock_on schema.now false (record { key = place; span = span.now })) }
{
    Ok(Lock {
        table: schema.name.copy()?,
        key: place,
        span: span.copy()?,
        exclusive: false,
    })
}

/// The row lock on a span of the clustered key of a table of this schema.
fn key_locks(alloc: Global, schema: &Schema, span: &Span) -> Result<LockSet, AllocError>
    ensures { IfOk result (λ locks. locks ≡ span_lock schema.now span.now (clustered_place schema.now)) }
{
    let mut locks = Sequence::new(alloc);
    if let Some(place) = clustered_place(schema) {
        locks.push(share_lock(schema, place, span)?)?;
    }
    Ok(locks)
}

/// The row lock on a span of a table's clustered key, where the table exists, whatever was written.
pub fn span_locks(
    alloc: Global,
    tables: &Tables,
    name: &Name,
    span: &Span,
) -> Result<LockSet, AllocError>
    ensures { IfOk result (λ locks. (written : List RowEvent) → locks ≡ span_needs span.now (find_table name.now (after_events (database tables.now) written))) }
{
    match tables.find(name) {
        Some(table) => key_locks(alloc, table.schema(), span),
        None => Ok(Sequence::new(alloc)),
    }
}
