//! What a statement says of a database.

ghost use Rattle.std.specs.Prelude.{◌≡◌, [], ◌∷◌, ◌++◌, IfOk, OnOk, option_copied};
ghost use Rattle.server_model.specs.Operations.{table_of, operation_of, events_of, result_of, result_in, statement_result};
ghost use Rattle.test_model.specs.AnswerAndChanges.{as_result};

use crate::plain::{PlainTable, find_table};
use crate::results::{AnswerAndChanges, Changes, tells};
use base_script::Statement;
use base_values::mysql_errors::ER_NO_SUCH_TABLE;
use base_values::{Change, Duplicate, Events, Name, RowEvent, Sequence};
use server_model::{Answer, StatementResult};
use server_prepare::{refuses, work_of};
use std::alloc::{AllocError, Global};

/// The statement's table.
fn table_of(statement: &Statement) -> &Name
    ensures { result.now ≡ table_of statement.now }
{
    match statement {
        Statement::Insert { table, .. } => table,
        Statement::Replace { table, .. } => table,
        Statement::Delete { table, .. } => table,
        Statement::Update { table, .. } => table,
        Statement::Select { table, .. } => table,
    }
}

/// Adds a change of the table of this name.
fn push_event(events: &mut Events, table: &Name, change: Change) -> Result<(), AllocError>
    ensures { OnOk result (events.new ≡ events.old ++ record { table = table.now; change = change } ∷ []) }
{
    let table = table.copy()?;
    events.push(RowEvent { table, change })
}

/// Changes of the table of this name, as events.
fn events_of(alloc: Global, table: &Name, changes: Changes) -> Result<Events, AllocError>
    ensures { IfOk result (λ events. events ≡ events_of table.now changes) }
{
    let mut events = Sequence::new(alloc);
    for change in changes.into_vec() {
        push_event(&mut events, table, change)?;
    }
    Ok(events)
}

fn result_of(
    alloc: Global,
    table: &Name,
    executed: AnswerAndChanges,
) -> Result<StatementResult, AllocError>
    ensures { IfOk result (λ said. said ≡ result_of table.now (as_result executed)) }
{
    let events = events_of(alloc, table, executed.changes)?;
    Ok(StatementResult {
        answer: executed.answer,
        events,
    })
}

/// What a statement says of its table: `ER_NO_SUCH_TABLE` where it doesn't stand.
fn says_in(
    alloc: Global,
    statement: &Statement,
    table: Option<&PlainTable>,
) -> Result<StatementResult, AllocError>
    ensures { IfOk result (λ said. said ≡ result_in (operation_of statement.now) (option_copied table.entry)) }
{
    let Some(table) = table else {
        return Ok(StatementResult {
            answer: refuses(ER_NO_SUCH_TABLE),
            events: Sequence::new(alloc),
        });
    };
    let work = work_of(alloc, &table.schema, statement)?;
    let executed = tells(alloc, table, &work)?;
    result_of(alloc, table_of(statement), executed)
}

/// What a statement says of the tables.
#[tactic(auto, unfolding(server_model::specs::Operations::operation_result))]
pub fn statement_result(
    alloc: Global,
    tables: &[PlainTable],
    statement: &Statement,
) -> Result<StatementResult, AllocError>
    ensures { IfOk result (λ said. said ≡ statement_result tables.now statement.now) }
{
    let table = find_table(table_of(statement), tables);
    says_in(alloc, statement, table)
}
