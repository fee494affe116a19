//! What the copy of a row comes to: the insertion of its converted row, or a refusal.

ghost use Rattle.std.specs.Prelude.{◌≡◌, IfOk, option_copied};
ghost use Rattle.std.specs.Option.{option_map};
ghost use Rattle.base_values.specs.GhoSchema.Tables.{IsRow};
ghost use Rattle.base_values.specs.RowConversion.ConvertedRows.{converted_row};
ghost use Rattle.table_store.specs.Databases.{database, find_table};
ghost use Rattle.server_model.specs.declared.work.Work.TheVariants as works;
ghost use Rattle.server_model.specs.Checks.{new_row, or_refused};
ghost use Rattle.server_model.specs.Operations.{after_events, copy_from, copy_operation, copy_work};
ghost use Rattle.proof_journals.specs.Ghost.Statements.{SameColumns};
ghost use Rattle.server_transaction.specs.Premises.{IsOf};
ghost use Rattle.server_transaction.specs.Prepared.{IsPrepared};

use crate::row_copies::RowCopy;
use crate::row_copies::columns::takes_as_is;
use crate::seen_tables::seen_table;
use crate::{Prepared, Txn, with_locks};
use base_values::Row;
use base_values::gho_schema::Schema;
use base_values::mysql_errors::ER_NO_SUCH_TABLE;
use base_values::row_conversion::{ColumnMap, ConversionFault, MapColumn, converted_row};
use server_model::{Answer, Work};
use server_prepare::{new_row, refuses, refuses_value};
use std::alloc::{AllocError, Global};
use table_store::paged_tables::Tables;

/// The insertion of a converted row, or the refusal of a value that doesn't fit its column. Where the table's columns are the
/// map's, the row itself is inserted: to store its values again would only copy them.
fn work_of_converted_row(
    alloc: Global,
    map: &[MapColumn],
    converted_row: Row,
    into: &Schema,
) -> Result<Work, AllocError>
    requires { SameColumns into.now.columns map.now → IsRow into.now.columns converted_row }
    ensures { IfOk result (λ work. work ≡ or_refused (new_row into.now None converted_row) works.Copy) }
{
    if takes_as_is(map, into) {
        return Ok(Work::Copy(converted_row));
    }
    match new_row(alloc, into, &None, converted_row.as_slice())? {
        Ok(row) => Ok(Work::Copy(row)),
        Err(refusal) => Ok(Work::Refuse(refusal)),
    }
}

/// What the copy of this row comes to; nothing, where there is none.
fn work_of_row(
    alloc: Global,
    map: &ColumnMap,
    row: Option<&Row>,
    into: &Schema,
) -> Result<Work, AllocError>
    ensures { IfOk result (λ work. work ≡ copy_work (option_map (converted_row map.now) (option_copied row.entry)) into.now) }
{
    let Some(row) = row else {
        return Ok(Work::Refuse(Answer::Ok(0)));
    };
    match converted_row(alloc, map.as_slice(), row.as_slice()) {
        Ok(converted_row) => work_of_converted_row(alloc, map.as_slice(), converted_row, into),
        Err(ConversionFault::Refused(at)) => Ok(Work::Refuse(refuses_value(at))),
        Err(ConversionFault::Memory) => Err(AllocError),
    }
}

/// What the copy comes to of the row of this key of the table of this name, as the session sees it.
fn work_of_copy(
    alloc: Global,
    tables: &Tables,
    txn: &Txn,
    copy: &RowCopy<'_>,
    into: &Schema,
) -> Result<Work, AllocError>
    requires { IsOf (database tables.now) txn.now }
    ensures { IfOk result (λ work. work ≡ copy_from (find_table copy.now.from.now (after_events (database tables.now) txn.now.events)) copy.now.map.now copy.now.key.now into.now) }
{
    match seen_table(tables, txn, copy.from) {
        Some(seen) => work_of_row(alloc, copy.map, seen.row_of(copy.key), into),
        None => Ok(Work::Refuse(refuses(ER_NO_SUCH_TABLE))),
    }
}

/// The session's copy of a row is prepared.
pub fn prepare_copy(
    alloc: Global,
    tables: &Tables,
    txn: &Txn,
    copy: &RowCopy<'_>,
) -> Result<Prepared, AllocError>
    requires { IsOf (database tables.now) txn.now }
    ensures { IfOk result (λ prepared. IsPrepared (after_events (database tables.now) txn.now.events) (copy_operation (after_events (database tables.now) txn.now.events) copy.now.from.now copy.now.into.now copy.now.map.now copy.now.key.now) prepared) }
{
    let Some(into) = seen_table(tables, txn, copy.into) else {
        return Ok(Prepared::nothing(alloc));
    };
    let work = work_of_copy(alloc, tables, txn, copy, into.schema())?;
    with_locks(alloc, &into, work)
}
