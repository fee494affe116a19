//! The rows of one table that a condition reaches, and those that clash with a new row.

ghost use Rattle.std.specs.Prelude.{◌≡◌, true, [], ◌∷◌, filter, Some, slice_get, option_copied, IfOk, IfSome};
ghost use Rattle.base_values.specs.Spans.{point};
ghost use Rattle.base_values.specs.GhoSchema.ClusteredKey.{clustered_place};
ghost use Rattle.base_values.specs.GhoSchema.Rows.{key_places};
ghost use Rattle.server_model.specs.Rows.{lies_under, rows_met};
ghost use Rattle.server_model.specs.StatementResults.{displaced};

use crate::gathered_parts::{clashing_rows, rows_under};
use crate::span_rows::copies_under;
use base_values::gho_schema::{Index, Schema, clustered_place};
use base_values::{Bound, Duplicate, Key, Row, Rows, Sequence, Span};
use server_model::Reach;
use std::alloc::{AllocError, Global};
use table_store::has_no_null;
use table_store::paged_tables::row_pages::Table;

/// The unique key at this place.
fn key_at(schema: &Schema, place: usize) -> Option<&Index>
    ensures { option_copied result ≡ slice_get schema.now.uniques place }
{
    schema.uniques.as_slice().get(place)
}

/// Whether the clustered key is at this place.
fn is_clustered(schema: &Schema, place: usize) -> bool
    ensures { result ≡ true → clustered_place schema.now ≡ Some place }
{
    match clustered_place(schema) {
        Some(own) => own == place,
        None => false,
    }
}

/// The key of a span that has one key alone.
fn key_of_point(span: &Span) -> Option<&Key>
    ensures { IfSome (option_copied result) (λ key. span.now ≡ point key) }
{
    match (&span.low, &span.high) {
        (Bound::Closed(low), Bound::Closed(high)) if low.cmp(high).is_eq() => Some(low),
        _ => None,
    }
}

fn one_row(alloc: Global, row: &Row) -> Result<Rows, AllocError>
    ensures { IfOk result (λ rows. rows ≡ row.now ∷ []) }
{
    let mut rows = Sequence::new(alloc);
    rows.push(row.copy()?)?;
    Ok(rows)
}

/// The row of a clustered key, where a row has it and no part of it is null.
fn row_at(alloc: Global, index: &Index, table: &Table, key: &Key) -> Result<Rows, AllocError>
    requires { key_places table.now.table.schema ≡ index.now.places }
    ensures { IfOk result (λ rows. rows ≡ filter (lies_under (Some index.now) (point key.now)) table.now.table.rows) }
{
    // For the prover: `schema` says that the rows are in order of the clustered key.
    let _schema = table.schema();
    let Some(row) = table.get(key) else {
        return Ok(Sequence::new(alloc));
    };
    if has_no_null(index.places.as_slice(), row.as_slice()) {
        one_row(alloc, row)
    } else {
        Ok(Sequence::new(alloc))
    }
}

/// The rows of a table that a condition on its clustered key reaches.
fn rows_met_clustered(
    alloc: Global,
    index: &Index,
    table: &Table,
    span: &Span,
) -> Result<Rows, AllocError>
    requires { key_places table.now.table.schema ≡ index.now.places }
    ensures { IfOk result (λ rows. rows ≡ filter (lies_under (Some index.now) span.now) table.now.table.rows) }
{
    match key_of_point(span) {
        Some(key) => row_at(alloc, index, table, key),
        None => copies_under(alloc, index, span, table.in_span(span)),
    }
}

/// The rows of a table that a condition reaches: only those in its span are looked at, by the index of its key.
pub fn rows_met(alloc: Global, table: &Table, reach: &Reach) -> Result<Rows, AllocError>
    ensures { IfOk result (λ rows. rows ≡ rows_met table.now.table.schema reach.now table.now.table.rows) }
{
    let schema = table.schema();
    let place = reach.key;
    let Some(index) = key_at(schema, place) else {
        return Ok(Sequence::new(alloc));
    };
    if is_clustered(schema, place) {
        rows_met_clustered(alloc, index, table, &reach.span)
    } else {
        rows_under(alloc, table, place, index, &reach.span)
    }
}

/// The rows of a table that clash with a new one, by an index of each unique key.
pub fn rows_clashing(alloc: Global, table: &Table, new: &Row) -> Result<Rows, AllocError>
    ensures { IfOk result (λ rows. rows ≡ displaced table.now.table.schema new.now table.now.table.rows) }
{
    match table.clash(new, None) {
        None => Ok(Sequence::new(alloc)),
        Some(_) => clashing_rows(alloc, table, new),
    }
}
