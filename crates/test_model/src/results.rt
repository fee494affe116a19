//! What a statement says of the rows of its table.

ghost use Rattle.std.specs.Prelude.{◌≡◌, ◌+◌, ◌∷◌, [], ◌++◌, length, map, IfOk};
ghost use Rattle.base_values.specs.declared.event.Change.TheVariants as changes;
ghost use Rattle.server_model.specs.declared.answer.Answer.TheVariants as answers;
ghost use Rattle.server_model.specs.declared.work.Work.TheVariants as works;
ghost use Rattle.server_model.specs.StatementResults.{only, tells};
ghost use Rattle.test_model.specs.AnswerAndChanges.{as_result};

use crate::met_rows::{clashes, displaced, rows_met};
use crate::plain::PlainTable;
use crate::selection::selected;
use crate::updates::updated;
use base_values::mysql_errors::ER_DUP_ENTRY;
use base_values::{Change, Duplicate, Row, Rows, Sequence};
use server_model::{Answer, Reach, Selection, Work};
use server_prepare::refuses;
use std::alloc::{AllocError, Global};

/// Changes of the rows of one table, in order.
pub type Changes = Sequence<Change>;

/// What a statement says.
#[derive(Drop)]
pub struct AnswerAndChanges {
    /// What its session is answered.
    pub answer: Answer,
    /// The changes of its table's rows.
    pub changes: Changes,
}

/// An answer that changes nothing.
pub fn only(alloc: Global, answer: Answer) -> AnswerAndChanges
    ensures { as_result result ≡ only answer }
{
    AnswerAndChanges {
        answer,
        changes: Sequence::new(alloc),
    }
}

/// Removals of rows.
fn deletes(alloc: Global, rows: &[Row]) -> Result<Changes, AllocError>
    ensures { IfOk result (λ all. all ≡ map changes.Delete rows.now) }
{
    let mut all = Sequence::new(alloc);
    for row in rows {
        all.push(Change::Delete(row.copy()?))?;
    }
    Ok(all)
}

/// A row is written that clashes with none.
fn one_written(alloc: Global, row: &Row) -> Result<AnswerAndChanges, AllocError>
    ensures { IfOk result (λ executed. as_result executed ≡ record { answer = answers.Ok 1; changes = changes.Write row.now ∷ [] }) }
{
    let mut changes = Sequence::new(alloc);
    changes.push(Change::Write(row.copy()?))?;
    Ok(AnswerAndChanges {
        answer: Answer::Ok(1),
        changes,
    })
}

/// What an INSERT says: `ER_DUP_ENTRY` where its row clashes with one.
#[tactic(auto, unfolding(server_model::specs::StatementResults::tells))]
fn insert(alloc: Global, table: &PlainTable, row: &Row) -> Result<AnswerAndChanges, AllocError>
    ensures { IfOk result (λ executed. as_result executed ≡ tells table.now.schema table.now.rows (works.Insert row.now)) }
{
    if clashes(alloc, &table.schema, row, table.rows.as_slice())? {
        return Ok(only(alloc, refuses(ER_DUP_ENTRY)));
    }
    one_written(alloc, row)
}

/// What an INSERT IGNORE says: nothing is done where its row clashes with one.
#[tactic(auto, unfolding(server_model::specs::StatementResults::tells))]
fn copy(alloc: Global, table: &PlainTable, row: &Row) -> Result<AnswerAndChanges, AllocError>
    ensures { IfOk result (λ executed. as_result executed ≡ tells table.now.schema table.now.rows (works.Copy row.now)) }
{
    if clashes(alloc, &table.schema, row, table.rows.as_slice())? {
        return Ok(only(alloc, Answer::Ok(0)));
    }
    one_written(alloc, row)
}

/// These rows are removed, counted with the row that is written.
fn one_replaced(alloc: Global, displaced: &[Row], row: &Row) -> Result<AnswerAndChanges, AllocError>
    ensures { IfOk result (λ executed. as_result executed ≡ record { answer = answers.Ok (1 + length displaced.now); changes = map changes.Delete displaced.now ++ changes.Write row.now ∷ [] }) }
{
    let mut changes = deletes(alloc, displaced)?;
    changes.push(Change::Write(row.copy()?))?;
    Ok(AnswerAndChanges {
        answer: Answer::Ok(1 + displaced.len() as u64),
        changes,
    })
}

/// What a REPLACE says: the rows that clash with its row are removed, and counted with it.
#[tactic(auto, unfolding(server_model::specs::StatementResults::tells))]
fn replace(alloc: Global, table: &PlainTable, row: &Row) -> Result<AnswerAndChanges, AllocError>
    ensures { IfOk result (λ executed. as_result executed ≡ tells table.now.schema table.now.rows (works.Replace row.now)) }
{
    let displaced = displaced(alloc, &table.schema, row, table.rows.as_slice())?;
    one_replaced(alloc, displaced.as_slice(), row)
}

/// What a DELETE says: the rows that it reaches are removed.
#[tactic(auto, unfolding(server_model::specs::StatementResults::tells))]
fn delete(alloc: Global, table: &PlainTable, reach: &Reach) -> Result<AnswerAndChanges, AllocError>
    ensures { IfOk result (λ executed. as_result executed ≡ tells table.now.schema table.now.rows (works.Delete reach.now)) }
{
    let met = rows_met(alloc, &table.schema, reach, table.rows.as_slice())?;
    let changes = deletes(alloc, met.as_slice())?;
    Ok(AnswerAndChanges {
        answer: Answer::Ok(met.len() as u64),
        changes,
    })
}

/// What a SELECT says.
#[tactic(auto, unfolding(server_model::specs::StatementResults::tells))]
fn select(
    alloc: Global,
    table: &PlainTable,
    reach: &Reach,
    selection: &Selection,
) -> Result<AnswerAndChanges, AllocError>
    ensures { IfOk result (λ executed. as_result executed ≡ tells table.now.schema table.now.rows (works.Select reach.now selection.now)) }
{
    let met = rows_met(alloc, &table.schema, reach, table.rows.as_slice())?;
    Ok(only(alloc, selected(alloc, selection, met)?))
}

/// What a statement's work says of its table.
#[tactic(auto, unfolding(server_model::specs::StatementResults::tells))]
pub fn tells(alloc: Global, table: &PlainTable, work: &Work) -> Result<AnswerAndChanges, AllocError>
    ensures { IfOk result (λ executed. as_result executed ≡ tells table.now.schema table.now.rows work.now) }
{
    match work {
        Work::Refuse(refusal) => Ok(only(alloc, refusal.copy()?)),
        Work::Insert(row) => insert(alloc, table, row),
        Work::Copy(row) => copy(alloc, table, row),
        Work::Replace(row) => replace(alloc, table, row),
        Work::Delete(reach) => delete(alloc, table, reach),
        Work::Update { reach, sets } => updated(alloc, table, reach, sets),
        Work::Select { reach, selection } => select(alloc, table, reach, selection),
    }
}
