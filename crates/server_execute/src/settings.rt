//! The new rows of an UPDATE.

ghost use Rattle.std.specs.Prelude.{◌≡◌, map, unwrap_or, IfOk};
ghost use Rattle.server_model.specs.Needs.{new_rows};
ghost use Rattle.server_model.specs.StatementResults.{with_sets};

use base_values::row_conversion::UnfitAt;
use base_values::{Duplicate, Row, Rows, Sequence, Shared, Value};
use server_model::ColumnSets;
use std::alloc::{AllocError, Global};

/// A copy of what the column is set to, or else of the value that it has.
fn set_or(set: &Option<Value>, value: &Value) -> Result<Value, AllocError>
    ensures { IfOk result (λ new. new ≡ unwrap_or set.now value.now) }
{
    match set {
        Some(new) => new.copy(),
        None => value.copy(),
    }
}

/// A copy of the row with its columns set to these values, where there are such.
#[tactic(auto, using(server_model::proofs::LockedRows::Sets::with_sets_more, crate::proofs::StatementWork::Pieces::with_no_sets), unfolding(server_model::specs::StatementResults::with_sets))]
fn with_sets(alloc: Global, sets: &[Option<Value>], row: &[Value]) -> Result<Row, AllocError>
    ensures { IfOk result (λ new. new ≡ with_sets sets.now row.now) }
{
    let mut new = Sequence::new(alloc);
    let mut rest = sets;
    for value in row {
        let Some((set, others)) = rest.split_first() else {
            new.push(value.copy()?)?;
            continue;
        };
        new.push(set_or(set, value)?)?;
        rest = others;
    }
    Shared::from_sequence(new)
}

/// The new rows.
fn all_with_sets(alloc: Global, sets: &[Option<Value>], rows: &[Row]) -> Result<Rows, AllocError>
    ensures { IfOk result (λ new. new ≡ map (with_sets sets.now) rows.now) }
{
    let mut all = Sequence::new(alloc);
    for row in rows {
        all.push(with_sets(alloc, sets, row.as_slice())?)?;
    }
    Ok(all)
}

/// The new rows, where the values store.
pub fn new_rows(
    alloc: Global,
    sets: &Result<ColumnSets, UnfitAt>,
    rows: &[Row],
) -> Result<Rows, AllocError>
    ensures { IfOk result (λ new. new ≡ new_rows sets.now rows.now) }
{
    match sets {
        Ok(sets) => all_with_sets(alloc, sets.as_slice(), rows),
        Err(_) => Ok(Sequence::new(alloc)),
    }
}
