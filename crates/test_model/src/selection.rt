//! What a SELECT shows.

ghost use Rattle.std.specs.Prelude.{◌≡◌, [], ◌∷◌, pos, map, option_to_list, slice_get, option_copied, IfOk, OnOk, ◌++◌};
ghost use Rattle.std.specs.List.{flat_map};
ghost use Rattle.base_values.specs.declared.value.Value.TheVariants.{Num};
ghost use Rattle.server_model.specs.StatementResults.{selected};

use base_values::{Duplicate, Row, Rows, Sequence, Shared, Value, Values};
use server_model::{Answer, Selection};
use std::alloc::{AllocError, Global};

/// The value at a place.
fn value_at(row: &Row, place: usize) -> Option<&Value>
    ensures { option_copied result ≡ slice_get row.now place }
{
    row.as_slice().get(place)
}

/// Adds the value at a place, where there is one.
fn push_value(shown: &mut Values, row: &Row, place: usize) -> Result<(), AllocError>
    ensures { OnOk result (shown.new ≡ shown.old ++ option_to_list (slice_get row.now place)) }
{
    match value_at(row, place) {
        Some(value) => shown.push(value.copy()?),
        None => Ok(()),
    }
}

/// The row's values at these places.
fn values_at(alloc: Global, places: &[usize], row: &Row) -> Result<Row, AllocError>
    ensures { IfOk result (λ values. values ≡ flat_map (λ place. option_to_list (slice_get row.now place)) places.now) }
{
    let mut shown = Sequence::new(alloc);
    for place in places {
        push_value(&mut shown, row, *place)?;
    }
    Shared::from_sequence(shown)
}

/// The rows' values at these places.
fn columns_of(alloc: Global, places: &[usize], rows: &[Row]) -> Result<Rows, AllocError>
    ensures { IfOk result (λ shown. shown ≡ map (λ row. flat_map (λ place. option_to_list (slice_get row place)) places.now) rows.now) }
{
    let mut shown = Sequence::new(alloc);
    for row in rows {
        shown.push(values_at(alloc, places, row)?)?;
    }
    Ok(shown)
}

/// One row with one number.
fn row_of_count(alloc: Global, count: usize) -> Result<Rows, AllocError>
    ensures { IfOk result (λ rows. rows ≡ (Num (pos count) ∷ []) ∷ []) }
{
    let mut row = Sequence::new(alloc);
    row.push(Value::Num(count as i128))?;
    let mut rows = Sequence::new(alloc);
    rows.push(Shared::from_sequence(row)?)?;
    Ok(rows)
}

/// What is shown of rows.
pub fn selected(alloc: Global, selection: &Selection, rows: Rows) -> Result<Answer, AllocError>
    ensures { IfOk result (λ answer. answer ≡ selected selection.now rows) }
{
    match selection {
        Selection::AllColumns => Ok(Answer::Rows(rows)),
        Selection::Columns(places) => {
            let shown = columns_of(alloc, places.as_slice(), rows.as_slice())?;
            Ok(Answer::Rows(shown))
        }
        Selection::Count => Ok(Answer::Rows(row_of_count(alloc, rows.len())?)),
    }
}
