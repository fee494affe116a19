//! What a statement says.

ghost use Rattle.std.specs.Prelude.{◌≡◌, ◌+◌, ◌∷◌, ◌++◌, [], length, map, IfOk};
ghost use Rattle.std.specs.List.{list_any};
ghost use Rattle.base_values.specs.GhoSchema.Tables.{clash};
ghost use Rattle.base_values.specs.declared.event.Change.TheVariants as changes;
ghost use Rattle.server_model.specs.declared.answer.Answer.TheVariants as answers;
ghost use Rattle.server_model.specs.declared.work.Work.TheVariants as works;
ghost use Rattle.server_model.specs.StatementResults.{tells};
ghost use Rattle.server_model.specs.LockedRows.Coverage.{IsWellFormedTable, IsSound};
ghost use Rattle.server_execute.specs.FoundWork.{met_by, made_by};
ghost use Rattle.server_execute.specs.ReadyResult.{as_result};

use crate::change_lists::{ReadyResult, deletes, only};
use crate::found_work::FoundWork;
use crate::selection::selected;
use crate::updates::{updated, updated_unfit};
use base_values::mysql_errors::ER_DUP_ENTRY;
use base_values::{Change, Duplicate, Row, Rows, Sequence};
use server_model::{Answer, Reach, Selection, Work};
use server_prepare::refuses;
use server_seen::SeenTable;
use std::alloc::{AllocError, Global};

/// Whether the new row clashes with one.
#[tactic(auto, using(crate::proofs::ChangedRows::some_pass))]
fn clashes(alloc: Global, seen: &SeenTable<'_>, row: &Row) -> Result<bool, AllocError>
    ensures { IfOk result (λ clashes. clashes ≡ list_any (clash seen.now.schema.uniques row.now) seen.now.rows) }
{
    Ok(!seen.displaced(alloc, row)?.is_empty())
}

/// A row is written that clashes with none.
fn one_written(alloc: Global, row: &Row) -> Result<ReadyResult, AllocError>
    ensures { IfOk result (λ executed. as_result executed ≡ record { answer = answers.Ok 1; changes = changes.Write row.now ∷ [] }) }
{
    let mut changes = Sequence::new(alloc);
    changes.push(Change::Write(row.copy()?))?;
    Ok(ReadyResult {
        answer: Answer::Ok(1),
        changes,
    })
}

/// What an INSERT says: `ER_DUP_ENTRY` where its row clashes with one.
#[tactic(auto, unfolding(server_model::specs::StatementResults::tells))]
fn insert(alloc: Global, seen: &SeenTable<'_>, row: &Row) -> Result<ReadyResult, AllocError>
    ensures { IfOk result (λ executed. as_result executed ≡ tells seen.now.schema seen.now.rows (works.Insert row.now)) }
{
    if clashes(alloc, seen, row)? {
        return Ok(only(alloc, refuses(ER_DUP_ENTRY)));
    }
    one_written(alloc, row)
}

/// What an INSERT IGNORE says: nothing is done where its row clashes with one.
#[tactic(auto, unfolding(server_model::specs::StatementResults::tells))]
fn copy(alloc: Global, seen: &SeenTable<'_>, row: &Row) -> Result<ReadyResult, AllocError>
    ensures { IfOk result (λ executed. as_result executed ≡ tells seen.now.schema seen.now.rows (works.Copy row.now)) }
{
    if clashes(alloc, seen, row)? {
        return Ok(only(alloc, Answer::Ok(0)));
    }
    one_written(alloc, row)
}

/// What a REPLACE says: the rows that clash with its row are removed, and counted with it.
fn replace(alloc: Global, row: &Row, displaced: Rows) -> Result<ReadyResult, AllocError>
    ensures { IfOk result (λ executed. as_result executed ≡ record { answer = answers.Ok (1 + length displaced); changes = map changes.Delete displaced ++ changes.Write row.now ∷ [] }) }
{
    let count = displaced.as_slice().len() as u64;
    let mut changes = deletes(alloc, displaced)?;
    changes.push(Change::Write(row.copy()?))?;
    Ok(ReadyResult {
        answer: Answer::Ok(1 + count),
        changes,
    })
}

/// What a DELETE says: the rows that it reaches are removed.
fn delete(alloc: Global, met: Rows) -> Result<ReadyResult, AllocError>
    ensures { IfOk result (λ executed. as_result executed ≡ record { answer = answers.Ok (length met); changes = map changes.Delete met }) }
{
    let count = met.len() as u64;
    Ok(ReadyResult {
        answer: Answer::Ok(count),
        changes: deletes(alloc, met)?,
    })
}

/// What a SELECT says.
#[tactic(auto, unfolding(server_model::specs::StatementResults::tells))]
fn select(
    alloc: Global,
    seen: &SeenTable<'_>,
    reach: &Reach,
    selection: &Selection,
) -> Result<ReadyResult, AllocError>
    ensures { IfOk result (λ executed. as_result executed ≡ tells seen.now.schema seen.now.rows (works.Select reach.now selection.now)) }
{
    let met = seen.met(alloc, reach)?;
    Ok(only(alloc, selected(alloc, selection, met)?))
}

/// What a statement says of its table, by the rows of it that the statement meets and those that it makes of them. The table has a
/// clustered key, its rows are rows of it, and so are the statement's new rows.
#[tactic(auto, unfolding(server_model::specs::StatementResults::tells))]
pub fn tells(
    alloc: Global,
    seen: &SeenTable<'_>,
    found: FoundWork,
) -> Result<ReadyResult, AllocError>
    requires well_formed { IsWellFormedTable seen.now }
    requires sound { IsSound seen.now.schema.columns found.work }
    requires met { found.met ≡ met_by seen.now.schema seen.now.rows found.work }
    requires made { found.made ≡ made_by found.work found.met }
    ensures { IfOk result (λ executed. as_result executed ≡ tells seen.now.schema seen.now.rows found.work) }
{
    let FoundWork { work, met, made } = found;
    match &work {
        Work::Refuse(refusal) => Ok(only(alloc, refusal.copy()?)),
        Work::Insert(row) => insert(alloc, seen, row),
        Work::Copy(row) => copy(alloc, seen, row),
        Work::Replace(row) => replace(alloc, row, met),
        Work::Delete(_) => delete(alloc, met),
        Work::Update { sets, .. } => match sets {
            Ok(sets) => updated(
                alloc,
                seen,
                sets.as_slice(),
                met.as_slice(),
                made.as_slice(),
            ),
            Err(at) => Ok(updated_unfit(alloc, *at, met.as_slice())),
        },
        Work::Select { reach, selection } => select(alloc, seen, reach, selection),
    }
}
