//! What a SELECT shows.

ghost use Rattle.std.specs.Prelude.{◌≡◌, [], ◌∷◌, pos, IfOk};
ghost use Rattle.base_values.specs.declared.value.Value.TheVariants.{Num};
ghost use Rattle.server_model.specs.StatementResults.{selected};

use crate::columns::columns_of;
use base_values::{Rows, Sequence, Shared, Value};
use server_model::{Answer, Selection};
use std::alloc::{AllocError, Global};

/// One row with one number.
fn row_of_count(alloc: Global, count: usize) -> Result<Rows, AllocError>
    ensures { IfOk result (λ rows. rows ≡ (Num (pos count) ∷ []) ∷ []) }
{
    let mut row = Sequence::new(alloc);
    row.push(Value::Num(count as i128))?;
    let mut rows = Sequence::new(alloc);
    rows.push(Shared::from_sequence(row)?)?;
    Ok(rows)
}

/// What is shown of rows.
pub fn selected(alloc: Global, selection: &Selection, rows: Rows) -> Result<Answer, AllocError>
    ensures { IfOk result (λ answer. answer ≡ selected selection.now rows) }
{
    match selection {
        Selection::AllColumns => Ok(Answer::Rows(rows)),
        Selection::Columns(places) => {
            let shown = columns_of(alloc, places.as_slice(), rows.as_slice())?;
            Ok(Answer::Rows(shown))
        }
        Selection::Count => Ok(Answer::Rows(row_of_count(alloc, rows.len())?)),
    }
}
