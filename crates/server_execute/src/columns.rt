//! Rows with columns set, and rows by columns.

ghost use Rattle.std.specs.Prelude.{◌≡◌, map, unwrap_or, option_to_list, slice_get, IfOk};
ghost use Rattle.std.specs.List.{flat_map};
ghost use Rattle.server_model.specs.StatementResults.{with_sets};

use base_values::gho_schema::key_of;
use base_values::{Duplicate, Row, Rows, Sequence, Value};
use std::alloc::{AllocError, Global};

/// The row's values at these places.
#[tactic(auto, using(crate::proofs::Shown::values_at))]
fn values_at(alloc: Global, places: &[usize], row: &[Value]) -> Result<Row, AllocError>
    ensures { IfOk result (λ values. values ≡ flat_map (λ place. option_to_list (slice_get row.now place)) places.now) }
{
    key_of(alloc, places, row)
}

/// The rows' values at these places.
pub fn columns_of(alloc: Global, places: &[usize], rows: &[Row]) -> Result<Rows, AllocError>
    ensures { IfOk result (λ shown. shown ≡ map (λ row. flat_map (λ place. option_to_list (slice_get row place)) places.now) rows.now) }
{
    let mut shown = Sequence::new(alloc);
    for row in rows {
        shown.push(values_at(alloc, places, row.as_slice())?)?;
    }
    Ok(shown)
}
