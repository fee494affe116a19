//! Rows whose keys lie in a span.

ghost use Rattle.std.specs.Prelude.{◌≡◌, not, filter, List, ℕ};
ghost use Rattle.base_values.specs.Spans.{above, below, has};
ghost use Rattle.base_values.specs.GhoSchema.Rows.{key_of};
ghost use Rattle.base_page_list.specs.Pages.{flat};
ghost use Rattle.base_page_list.specs.Orders.{Ascending, Has};
ghost use Rattle.table_store.specs.PagedTables.RowPages.RowOrders.{row_of, rows_of, compare_by};

use crate::paged_tables::row_pages::comparison::compare_key;
use crate::paged_tables::row_pages::places::row_of;
use base_page_list::{Entries, PagedList, Test};
use base_values::{Bound, Row, Span, Value};
use slab::Slab;

/// Whether the row's key is on the inner side of a lower end.
fn is_above(low: &Bound, places: &[usize], row: &[Value]) -> bool
    ensures { result ≡ above low.now (key_of places.now row.now) }
{
    match low {
        Bound::Free => true,
        Bound::Open(end) => compare_key(end.as_slice(), places, row).is_lt(),
        Bound::Closed(end) => compare_key(end.as_slice(), places, row).is_le(),
    }
}

/// Whether the row's key is on the inner side of an upper end.
#[tactic(auto, using(crate::proofs::Orders::turned))]
fn is_below(high: &Bound, places: &[usize], row: &[Value]) -> bool
    ensures { result ≡ below high.now (key_of places.now row.now) }
{
    match high {
        Bound::Free => true,
        Bound::Open(end) => compare_key(end.as_slice(), places, row).is_gt(),
        Bound::Closed(end) => compare_key(end.as_slice(), places, row).is_ge(),
    }
}

/// The rows before a lower end.
#[derive(Drop)]
struct BeforeEnd<'a> {
    rows: &'a Slab<Row>,
    places: &'a [usize],
    low: &'a Bound,
}

impl<'a> Test for BeforeEnd<'a> {
    ghost on = { λ t entry. not (above t.low.now (key_of t.places.now (row_of t.rows.now entry))) };

    fn passes(&self, entry: usize) -> bool {
        !is_above(self.low, self.places, row_of(self.rows, entry))
    }
}

/// The rows up to an upper end.
#[derive(Drop)]
struct UpToEnd<'a> {
    rows: &'a Slab<Row>,
    places: &'a [usize],
    high: &'a Bound,
}

impl<'a> Test for UpToEnd<'a> {
    ghost on = { λ t entry. below t.high.now (key_of t.places.now (row_of t.rows.now entry)) };

    fn passes(&self, entry: usize) -> bool {
        is_below(self.high, self.places, row_of(self.rows, entry))
    }
}

/// The entries of the rows whose keys at these places lie in the span.
pub fn entries_in_span<'a>(
    rows: &Slab<Row>,
    order: &'a PagedList,
    places: &[usize],
    span: &Span,
) -> Entries<'a>
    requires { (second : List ℕ) × Ascending (compare_by places.now second) (rows_of rows.now (flat order.now.pages)) }
    ensures rows { rows_of rows.now result ≡ filter (λ row. has span.now (key_of places.now row)) (rows_of rows.now (flat order.now.pages)) }
    ensures has { (entry : ℕ) → Has result entry → Has (flat order.now.pages) entry }
{
    let from = order.place(&BeforeEnd {
        rows,
        places,
        low: &span.low,
    });
    let to = order.place(&UpToEnd {
        rows,
        places,
        high: &span.high,
    });
    order.entries_between(from, to)
}
