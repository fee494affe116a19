//! What a session's statement is to do to its table; and what work on a table needs and gives, as the session sees the table.

ghost use Rattle.std.specs.Prelude.{◌≡◌, [], None, Some, IfOk, IfSome};
ghost use Rattle.table_store.specs.Databases.{database};
ghost use Rattle.server_model.specs.Answers.{refuses};
ghost use Rattle.server_model.specs.Needs.{needs};
ghost use Rattle.server_model.specs.Operations.{table_of, events_of, result_of, operation_of, after_events};
ghost use Rattle.server_model.specs.StatementResults.{tells};
ghost use Rattle.server_model.specs.LockedRows.Coverage.{IsWellFormedTable, IsSound};
ghost use Rattle.server_execute.specs.FoundWork.{found_in, made_by, met_by};
ghost use Rattle.server_transaction.specs.Premises.{HasSchema, IsOf, events_ready};
ghost use Rattle.server_transaction.specs.Prepared.{IsPrepared, IsSoundWork, IsWorkOf, work_result};

use crate::prepared::{Prepared, ReadyResult};
use crate::seen_tables::seen_table;
use crate::txn::Txn;
use crate::writes::Writes;
use base_script::Statement;
use base_values::gho_schema::Schema;
use base_values::mysql_errors::ER_NO_SUCH_TABLE;
use base_values::{Name, Sequence};
use server_execute::statement_work::needs;
use server_execute::{Changes, FoundWork, find, tells};
use server_model::Work;
use server_prepare::{refuses, work_of};
use server_seen::SeenTable;
use std::alloc::{AllocError, Global};
use table_store::paged_tables::Tables;

/// The statement's table.
pub fn table_of(statement: &Statement) -> &Name
    ensures { result.now ≡ table_of statement.now }
{
    match statement {
        Statement::Insert { table, .. } => table,
        Statement::Replace { table, .. } => table,
        Statement::Delete { table, .. } => table,
        Statement::Update { table, .. } => table,
        Statement::Select { table, .. } => table,
    }
}

/// What a statement is to do to its table, with the rows that it meets; nothing where the table doesn't exist.
pub fn find_work(
    alloc: Global,
    tables: &Tables,
    txn: &Txn,
    statement: &Statement,
) -> Result<Option<FoundWork>, AllocError>
    requires { IsOf (database tables.now) txn.now }
    ensures { IfOk result (λ work. IsWorkOf (after_events (database tables.now) txn.now.events) (operation_of statement.now) work) }
{
    let Some(seen) = seen_table(tables, txn, table_of(statement)) else {
        return Ok(None);
    };
    let work = work_of(alloc, seen.schema(), statement)?;
    let found = find(alloc, &seen, work)?;
    Ok(Some(found))
}

/// Work on a table, with the rows that it meets and the row locks that it needs.
pub fn with_locks(alloc: Global, seen: &SeenTable<'_>, work: Work) -> Result<Prepared, AllocError>
    ensures work { IfOk result (λ prepared. prepared.work ≡ Some (found_in seen.now work)) }
    ensures locks { IfOk result (λ prepared. prepared.locks ≡ needs seen.now.schema seen.now.rows work) }
{
    let found = find(alloc, seen, work)?;
    let locks = needs(alloc, seen, &found)?;
    Ok(Prepared {
        work: Some(found),
        locks,
    })
}

/// The session's statement is prepared.
pub fn prepare(
    alloc: Global,
    tables: &Tables,
    txn: &Txn,
    statement: &Statement,
) -> Result<Prepared, AllocError>
    requires { IsOf (database tables.now) txn.now }
    ensures { IfOk result (λ prepared. IsPrepared (after_events (database tables.now) txn.now.events) (operation_of statement.now) prepared) }
{
    let Some(seen) = seen_table(tables, txn, table_of(statement)) else {
        return Ok(Prepared::nothing(alloc));
    };
    let work = work_of(alloc, seen.schema(), statement)?;
    with_locks(alloc, &seen, work)
}

/// What changes write, made ready; nothing where there are none.
fn writes_of(alloc: Global, schema: &Schema, changes: Changes) -> Result<Option<Writes>, AllocError>
    ensures events { IfOk result (λ writes. events_ready writes ≡ events_of schema.now.name changes) }
    ensures schema { IfOk result (λ writes. IfSome writes (λ one. one.schema ≡ schema.now)) }
{
    if changes.is_empty() {
        return Ok(None);
    }
    Ok(Some(Writes::new(alloc, schema, changes)?))
}

/// What work says of its table, as it is seen, and what it writes, made ready.
fn tell(alloc: Global, seen: &SeenTable<'_>, found: FoundWork) -> Result<ReadyResult, AllocError>
    requires well_formed { IsWellFormedTable seen.now }
    requires sound { IsSound seen.now.schema.columns found.work }
    requires met { found.met ≡ met_by seen.now.schema seen.now.rows found.work }
    requires made { found.made ≡ made_by found.work found.met }
    ensures answer { IfOk result (λ executed. executed.answer ≡ (result_of seen.now.schema.name (tells seen.now.schema seen.now.rows found.work)).answer) }
    ensures events { IfOk result (λ executed. events_ready executed.writes ≡ (result_of seen.now.schema.name (tells seen.now.schema seen.now.rows found.work)).events) }
    ensures schema { IfOk result (λ executed. IfSome executed.writes (λ one. one.schema ≡ seen.now.schema)) }
{
    let schema = seen.schema();
    let executed = tells(alloc, seen, found)?;
    let writes = writes_of(alloc, schema, executed.changes)?;
    Ok(ReadyResult {
        answer: executed.answer,
        writes,
    })
}

/// What is said where the table doesn't exist.
fn missing() -> ReadyResult
    ensures answer { result.answer ≡ refuses ER_NO_SUCH_TABLE }
    ensures writes { result.writes ≡ None }
{
    ReadyResult {
        answer: refuses(ER_NO_SUCH_TABLE),
        writes: None,
    }
}

/// What the session's work gives, done to the table of this name, and what it writes, made ready.
pub fn execute(
    alloc: Global,
    tables: &Tables,
    txn: &Txn,
    name: &Name,
    work: Option<FoundWork>,
) -> Result<ReadyResult, AllocError>
    requires of { IsOf (database tables.now) txn.now }
    requires sound { IsSoundWork (after_events (database tables.now) txn.now.events) name.now work }
    ensures answer { IfOk result (λ executed. executed.answer ≡ (work_result (after_events (database tables.now) txn.now.events) name.now work).answer) }
    ensures events { IfOk result (λ executed. events_ready executed.writes ≡ (work_result (after_events (database tables.now) txn.now.events) name.now work).events) }
    ensures schema { IfOk result (λ executed. IfSome executed.writes (λ one. HasSchema (database tables.now) one.schema)) }
{
    let Some(found) = work else {
        return Ok(missing());
    };
    match seen_table(tables, txn, name) {
        Some(seen) => tell(alloc, &seen, found),
        None => Ok(missing()),
    }
}
