//! What an UPDATE says: its rows change one by one, each seen as the changes before have left the table.

ghost use Rattle.std.specs.Prelude.{◌≡◌, [], ◌∷◌, ◌++◌, List, unwrap_or, IfOk, OnOk};
ghost use Rattle.base_values.specs.declared.value.Value.{Value};
ghost use Rattle.base_values.specs.GhoSchema.Rows.{key_places};
ghost use Rattle.base_values.specs.declared.event.Change.TheVariants as changes;
ghost use Rattle.server_model.specs.Rows.{rows_met, change_rows};
ghost use Rattle.server_model.specs.StatementResults.{with_sets, updates, result_or_refusal, updated};
ghost use Rattle.test_model.specs.AnswerAndChanges.{as_result};
ghost use Rattle.test_model.specs.RowUpdates.{changes_after, goes_on};

use crate::met_rows::{clashes_besides, rows_met};
use crate::plain::PlainTable;
use crate::results::{AnswerAndChanges, Changes, only};
use crate::rows::change_rows;
use base_values::gho_schema::Schema;
use base_values::mysql_errors::ER_DUP_ENTRY;
use base_values::row_conversion::UnfitAt;
use base_values::{Change, Duplicate, Row, Rows, Sequence, Shared, Value, Values};
use server_model::{Answer, ColumnSets, Reach};
use server_prepare::{Checked, refuses, refuses_value};
use std::alloc::{AllocError, Global};

/// A copy of what the column is set to, or else of the value that it has.
fn set_or(set: &Option<Value>, value: &Value) -> Result<Value, AllocError>
    ensures { IfOk result (λ new. new ≡ unwrap_or set.now value.now) }
{
    match set {
        Some(new) => new.copy(),
        None => value.copy(),
    }
}

/// Adds copies of the row's values, with its columns set to these, where there are such.
#[tactic(auto, using(server_model::proofs::LockedRows::Sets::with_sets_more, crate::proofs::Sets::with_no_sets), unfolding(server_model::specs::StatementResults::with_sets))]
fn push_with_sets(
    into: &mut Values,
    sets: &[Option<Value>],
    row: &[Value],
) -> Result<(), AllocError>
    ensures { OnOk result (into.new ≡ into.old ++ with_sets sets.now row.now) }
{
    let mut rest = sets;
    for value in row {
        let Some((set, others)) = rest.split_first() else {
            into.push(value.copy()?)?;
            continue;
        };
        into.push(set_or(set, value)?)?;
        rest = others;
    }
    Ok(())
}

/// A copy of the row with its columns set to these values, where there are such.
fn with_sets(alloc: Global, sets: &[Option<Value>], row: &[Value]) -> Result<Row, AllocError>
    ensures { IfOk result (λ new. new ≡ with_sets sets.now row.now) }
{
    let mut new = Sequence::new(alloc);
    push_with_sets(&mut new, sets, row)?;
    Shared::from_sequence(new)
}

/// How far an UPDATE is.
#[derive(Drop)]
pub struct Going {
    /// The rows as the changes so far have left them.
    pub rows: Rows,
    /// The changes so far.
    pub changes: Changes,
}

/// A row changes into a new one.
fn change_row(
    alloc: Global,
    schema: &Schema,
    going: &mut Going,
    old: &Row,
    new: Row,
) -> Result<(), AllocError>
    ensures rows { OnOk result (going.new.rows ≡ change_rows (key_places schema.now) (changes.Update old.now new) going.old.rows) }
    ensures changes { OnOk result (going.new.changes ≡ going.old.changes ++ changes.Update old.now new ∷ []) }
{
    let change = Change::Update(old.copy()?, new);
    going.rows = change_rows(alloc, schema.key_places(), &change, going.rows.as_slice())?;
    going.changes.push(change)
}

/// One row more: it stays as it is, it changes, or its new row clashes with another one.
fn step(
    alloc: Global,
    schema: &Schema,
    sets: &[Option<Value>],
    going: &mut Going,
    old: &Row,
) -> Result<Checked<()>, AllocError>
    ensures { IfOk result (λ done. (met : List (List Value)) → goes_on schema.now sets.now met going.new done ≡ changes_after going.old.changes (updates schema.now sets.now (old.now ∷ met) going.old.rows)) }
{
    let new = with_sets(alloc, sets, old.as_slice())?;
    if old.cmp(&new).is_eq() {
        return Ok(Ok(()));
    }
    if clashes_besides(alloc, schema, &new, old, going.rows.as_slice())? {
        return Ok(Err(refuses(ER_DUP_ENTRY)));
    }
    change_row(alloc, schema, going, old, new)?;
    Ok(Ok(()))
}

/// The rows one by one, until one's new row clashes with another one.
fn steps(
    alloc: Global,
    schema: &Schema,
    sets: &[Option<Value>],
    going: &mut Going,
    met: &[Row],
) -> Result<Checked<()>, AllocError>
    ensures { IfOk result (λ done. goes_on schema.now sets.now [] going.new done ≡ changes_after going.old.changes (updates schema.now sets.now met.now going.old.rows)) }
{
    for old in met {
        if let Err(refusal) = step(alloc, schema, sets, going, old)? {
            return Ok(Err(refusal));
        }
    }
    Ok(Ok(()))
}

/// The changes of rows that an UPDATE reaches, or 1062.
#[tactic(auto, using(crate::proofs::UpdateFacts::ended, crate::proofs::UpdateFacts::after_nothing))]
fn updates(
    alloc: Global,
    table: &PlainTable,
    sets: &[Option<Value>],
    met: &[Row],
) -> Result<Checked<Changes>, AllocError>
    ensures { IfOk result (λ all. all ≡ updates table.now.schema sets.now met.now table.now.rows) }
{
    let mut going = Going {
        rows: table.rows.copy()?,
        changes: Sequence::new(alloc),
    };
    match steps(alloc, &table.schema, sets, &mut going, met)? {
        Ok(()) => Ok(Ok(going.changes)),
        Err(refusal) => Ok(Err(refusal)),
    }
}

/// As many rows as are changed, or the refusal.
fn result_or_refusal(alloc: Global, changes: Checked<Changes>) -> AnswerAndChanges
    ensures { as_result result ≡ result_or_refusal changes }
{
    match changes {
        Ok(changes) => AnswerAndChanges {
            answer: Answer::Ok(changes.len() as u64),
            changes,
        },
        Err(refusal) => only(alloc, refusal),
    }
}

/// What an UPDATE says of the rows that it reaches.
fn updated_of(
    alloc: Global,
    table: &PlainTable,
    sets: &Result<ColumnSets, UnfitAt>,
    met: &[Row],
) -> Result<AnswerAndChanges, AllocError>
    ensures { IfOk result (λ executed. as_result executed ≡ updated table.now.schema sets.now met.now table.now.rows) }
{
    match sets {
        Ok(sets) => {
            let changes = updates(alloc, table, sets.as_slice(), met)?;
            Ok(result_or_refusal(alloc, changes))
        }
        Err(at) => {
            let answer = match met {
                [] => Answer::Ok(0),
                [_, ..] => refuses_value(*at),
            };
            Ok(only(alloc, answer))
        }
    }
}

/// What an UPDATE says: where its values don't store, it is refused at the first row.
pub fn updated(
    alloc: Global,
    table: &PlainTable,
    reach: &Reach,
    sets: &Result<ColumnSets, UnfitAt>,
) -> Result<AnswerAndChanges, AllocError>
    ensures { IfOk result (λ executed. as_result executed ≡ updated table.now.schema sets.now (rows_met table.now.schema reach.now table.now.rows) table.now.rows) }
{
    let met = rows_met(alloc, &table.schema, reach, table.rows.as_slice())?;
    updated_of(alloc, table, sets, met.as_slice())
}
