//! A session's request is prepared over the tables as the session sees them.

ghost use Rattle.std.specs.Prelude.{◌≡◌, true, IfOk, IsOk};
ghost use Rattle.table_store.specs.Databases.{database};
ghost use Rattle.server_model.specs.Operations.{after_events, copy_operation, operation_of};
ghost use Rattle.server_model.specs.Blockers.{row_locks_of};
ghost use Rattle.server_model.specs.States.{is_exclusive};
ghost use Rattle.server_transaction.specs.Prepared.{IsPrepared, IsWorkFor};
ghost use Rattle.server_storage.specs.OpenTxns.Open.{written_of};
ghost use Rattle.server_storage.specs.KeptTxns.Kept.{IsKept};

use crate::lookup::{span_locks, txn_seen};
use crate::open_txns::OpenTxn;
use base_script::Statement;
use server_model::Request;
use server_transaction::row_copies::{RowCopy, prepare_copy};
use server_transaction::{Prepared, Txn, prepare};
use std::alloc::{AllocError, Global};
use table_store::paged_tables::Tables;

/// The session's statement, prepared.
fn prepare_statement(
    alloc: Global,
    tables: &Tables,
    txns: &[OpenTxn],
    session: u32,
    statement: &Statement,
) -> Result<Prepared, AllocError>
    requires { IsKept tables.now txns.now }
    ensures { IfOk result (λ prepared. IsPrepared (after_events (database tables.now) (written_of session txns.now)) (operation_of statement.now) prepared) }
{
    let unwritten = Txn::new(alloc);
    let txn = txn_seen(txns, session, &unwritten);
    prepare(alloc, tables, txn, statement)
}

/// The session's copy of a row, prepared.
fn prepare_row(
    alloc: Global,
    tables: &Tables,
    txns: &[OpenTxn],
    session: u32,
    copy: &RowCopy<'_>,
) -> Result<Prepared, AllocError>
    requires { IsKept tables.now txns.now }
    ensures { IfOk result (λ prepared. IsPrepared (after_events (database tables.now) (written_of session txns.now)) (copy_operation (after_events (database tables.now) (written_of session txns.now)) copy.now.from.now copy.now.into.now copy.now.map.now copy.now.key.now) prepared) }
{
    let unwritten = Txn::new(alloc);
    let txn = txn_seen(txns, session, &unwritten);
    prepare_copy(alloc, tables, txn, copy)
}

/// The session's request, prepared.
pub fn prepare_request(
    alloc: Global,
    tables: &Tables,
    txns: &[OpenTxn],
    session: u32,
    request: &Request,
) -> Result<Prepared, AllocError>
    requires { IsKept tables.now txns.now }
    ensures locks { IfOk result (λ prepared. prepared.locks ≡ row_locks_of (after_events (database tables.now) (written_of session txns.now)) request.now) }
    ensures work { IfOk result (λ prepared. IsWorkFor (after_events (database tables.now) (written_of session txns.now)) request.now prepared.work) }
    ensures free { is_exclusive request.now ≡ true → IsOk result }
{
    match request {
        Request::Do(statement) => prepare_statement(alloc, tables, txns, session, statement),
        Request::BeginSpan { table, span, .. } => Ok(Prepared {
            work: None,
            locks: span_locks(alloc, tables, table, span)?,
        }),
        Request::CopyRow {
            from,
            into,
            map,
            key,
        } => {
            let copy = RowCopy {
                from,
                into,
                map,
                key,
            };
            prepare_row(alloc, tables, txns, session, &copy)
        }
        _ => Ok(Prepared::nothing(alloc)),
    }
}
