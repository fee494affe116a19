//! Rows that lie under a span of a unique key.

ghost use Rattle.std.specs.Prelude.{◌≡◌, Some, filter, IfOk};
ghost use Rattle.base_values.specs.Spans.{above, below};
ghost use Rattle.server_model.specs.Rows.{lies_under};

use base_values::gho_schema::{Index, key_of};
use base_values::{Bound, Duplicate, Key, Rows, Sequence, Span, Value};
use std::alloc::{AllocError, Global};
use table_store::has_no_null;
use table_store::paged_tables::row_pages::SpanRows;

/// Whether the key is on the inner side of a lower end.
fn is_above(low: &Bound, key: &Key) -> bool
    ensures { result ≡ above low.now key.now }
{
    match low {
        Bound::Open(end) => end.cmp(key).is_lt(),
        Bound::Closed(end) => end.cmp(key).is_le(),
        Bound::Free => true,
    }
}

/// Whether the key is on the inner side of an upper end.
fn is_below(high: &Bound, key: &Key) -> bool
    ensures { result ≡ below high.now key.now }
{
    match high {
        Bound::Open(end) => key.cmp(end).is_lt(),
        Bound::Closed(end) => key.cmp(end).is_le(),
        Bound::Free => true,
    }
}

/// Whether the row lies under a span of a key.
#[tactic(auto, unfolding(server_model::specs::Rows::lies_under, base_values::specs::Spans::has))]
fn lies_under(alloc: Global, index: &Index, span: &Span, row: &[Value]) -> Result<bool, AllocError>
    ensures { IfOk result (λ lies. lies ≡ lies_under (Some index.now) span.now row.now) }
{
    let places = index.places.as_slice();
    if !has_no_null(places, row) {
        return Ok(false);
    }
    let key = key_of(alloc, places, row)?;
    Ok(is_above(&span.low, &key) && is_below(&span.high, &key))
}

/// Copies of those of the rows that lie under a span of a key.
pub fn copies_under(
    alloc: Global,
    index: &Index,
    span: &Span,
    mut rows: SpanRows<'_>,
) -> Result<Rows, AllocError>
    ensures { IfOk result (λ met. met ≡ filter (lies_under (Some index.now) span.now) rows.entry) }
{
    let mut met = Sequence::new(alloc);
    while let Some(row) = rows.next() {
        if lies_under(alloc, index, span, row.as_slice())? {
            met.push(row.copy()?)?;
        }
    }
    Ok(met)
}
