//! The keys of a table that a chunk of the copy asks for.

ghost use Rattle.std.specs.Prelude.{◌≡◌, ◌-◌, [], IfOk, OnOk, length, slice_get, option_copied, take, drop};
ghost use Rattle.base_values.specs.GhoSchema.Rows.{key_of, key_places};
ghost use Rattle.server_model.specs.Chunks.{keys_of, last_of, ends_of, chunk_end, end_key, first_keys, span_keys};

use base_values::gho_schema::key_of;
use base_values::{Bound, Duplicate, Key, Keys, Row, Sequence, Shared, Span};
use server_model::{Answer, KeyRange};
use std::alloc::{AllocError, Global};
use table_store::paged_tables::row_pages::{SpanRows, Table};

/// The row at this place among those that are left.
fn row_at<'a>(mut rows: SpanRows<'a>, place: usize) -> Option<&'a Row>
    ensures { option_copied result ≡ slice_get rows.entry place }
{
    rows.nth(place)
}

/// The last of the rows that are left.
fn last_row<'a>(rows: SpanRows<'a>) -> Option<&'a Row>
    ensures { option_copied result ≡ slice_get rows.entry (length rows.entry - 1) }
{
    let (left, _) = rows.size_hint();
    row_at(rows, left.saturating_sub(1))
}

/// The row of greatest key: the last one of the last page.
fn greatest_row(table: &Table) -> Option<&Row>
    ensures { option_copied result ≡ slice_get table.now.table.rows (length table.now.table.rows - 1) }
{
    let pages = table.pages();
    if pages == 0 {
        return None;
    }
    last_row(table.page(pages - 1))
}

/// The least and the greatest key of a table.
pub fn ends_of(alloc: Global, table: &Table) -> Result<Answer, AllocError>
    ensures { IfOk result (λ answer. answer ≡ ends_of (keys_of (key_places table.now.table.schema) table.now.table.rows)) }
{
    let places = table.schema().key_places();
    let mut rows = table.rows();
    let Some(least) = rows.next() else {
        return Ok(Answer::Ends(None));
    };
    let Some(greatest) = greatest_row(table) else {
        return Ok(Answer::Ends(None));
    };
    Ok(Answer::Ends(Some(KeyRange {
        least: key_of(alloc, places, least.as_slice())?,
        greatest: key_of(alloc, places, greatest.as_slice())?,
    })))
}

/// Where a chunk ends.
#[tactic(auto, unfolding(server_model::specs::Chunks::chunk_end))]
pub fn chunk_end(
    alloc: Global,
    low: &Bound,
    top: &Key,
    size: u32,
    table: &Table,
) -> Result<Key, AllocError>
    ensures { IfOk result (λ key. key ≡ chunk_end low.now top.now size table.now.table) }
{
    let span = Span {
        low: low.copy()?,
        high: Bound::Closed(top.copy()?),
    };
    let last = (size as usize).saturating_sub(1);
    match row_at(table.in_span(&span), last) {
        Some(row) => key_of(alloc, table.schema().key_places(), row.as_slice()),
        None => top.copy(),
    }
}

/// The key at a chunk's end; the empty key where the end is free.
fn end_key(alloc: Global, end: &Bound) -> Result<Key, AllocError>
    ensures { IfOk result (λ key. key ≡ end_key end.now) }
{
    match end {
        Bound::Open(key) => key.copy(),
        Bound::Closed(key) => key.copy(),
        Bound::Free => Shared::from_sequence(Sequence::new(alloc)),
    }
}

/// The last of keys, or the empty key where there is none.
fn last_of(alloc: Global, keys: &[Key]) -> Result<Key, AllocError>
    ensures { IfOk result (λ key. key ≡ last_of [] keys.now) }
{
    match keys.last() {
        Some(key) => key.copy(),
        None => Shared::from_sequence(Sequence::new(alloc)),
    }
}

/// The clustered keys of the rows that are left, this many at most; the rows after them are left then.
fn next_keys(
    alloc: Global,
    size: u32,
    places: &[usize],
    rows: &mut SpanRows<'_>,
) -> Result<Keys, AllocError>
    ensures keys { IfOk result (λ keys. keys ≡ keys_of places.now (take size rows.old)) }
    ensures left { OnOk result (rows.new ≡ drop size rows.old) }
{
    let mut keys = Sequence::new(alloc);
    for _ in 0..size {
        let Some(row) = rows.next() else {
            return Ok(keys);
        };
        keys.push(key_of(alloc, places, row.as_slice())?)?;
    }
    Ok(keys)
}

fn first_keys(
    alloc: Global,
    span: &Span,
    size: u32,
    places: &[usize],
    mut rows: SpanRows<'_>,
) -> Result<Answer, AllocError>
    ensures { IfOk result (λ answer. answer ≡ first_keys span.now size (keys_of places.now rows.entry)) }
{
    let keys = next_keys(alloc, size, places, &mut rows)?;
    match rows.next() {
        Some(_) => {
            let end = last_of(alloc, keys.as_slice())?;
            Ok(Answer::Keys { keys, end })
        }
        None => {
            let end = end_key(alloc, &span.high)?;
            Ok(Answer::Keys { keys, end })
        }
    }
}

/// The keys of a span, this many at most.
#[tactic(auto, unfolding(server_model::specs::Chunks::span_keys))]
pub fn span_keys(alloc: Global, span: &Span, size: u32, table: &Table) -> Result<Answer, AllocError>
    ensures { IfOk result (λ answer. answer ≡ span_keys span.now size table.now.table) }
{
    first_keys(
        alloc,
        span,
        size,
        table.schema().key_places(),
        table.in_span(span),
    )
}
