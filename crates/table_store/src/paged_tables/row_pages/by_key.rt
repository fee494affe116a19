//! Which entries are in order of a unique key.

ghost use Rattle.std.specs.Prelude.{◌≡◌, ◌<◌, length, slice_get, option_copied, Some, MatchOption};
ghost use Rattle.base_values.specs.GhoSchema.Rows.{key_places, places_at};
ghost use Rattle.base_page_list.specs.Pages.{flat};
ghost use Rattle.table_store.specs.PagedTables.RowPages.ByKeys.{IsOrderOf};
ghost use Rattle.table_store.specs.PagedTables.RowPages.Indexes.{other_keys};
ghost use Rattle.table_store.specs.PagedTables.RowPages.StoredRows.{IsStored};

use crate::paged_tables::row_pages::indexes::KeyIndex;
use base_page_list::PagedList;
use base_values::Row;
use base_values::gho_schema::{Schema, clustered_place};
use slab::Slab;

/// Which of the indexes is that of the unique key of this number; none for the clustered key.
fn index_number(schema: &Schema, n: usize) -> Option<usize>
    requires { n < length schema.now.uniques }
    ensures { MatchOption result (places_at schema.now n ≡ key_places schema.now) (λ k. slice_get (other_keys schema.now) k ≡ Some (places_at schema.now n)) }
{
    let Some(clustered) = clustered_place(schema) else {
        return Some(n);
    };
    if n < clustered {
        return Some(n);
    }
    if n == clustered {
        return None;
    }
    Some(n - 1)
}

fn index_at(indexes: &[KeyIndex], n: usize) -> Option<&KeyIndex>
    ensures { option_copied result ≡ slice_get indexes.now n }
{
    indexes.get(n)
}

/// The entries in order of the unique key of this number.
pub fn order_by<'a>(
    schema: &Schema,
    rows: &Slab<Row>,
    order: &'a PagedList,
    indexes: &'a [KeyIndex],
    n: usize,
) -> &'a PagedList
    requires stored { IsStored schema.now rows.now (flat order.now.pages) indexes.now }
    requires within { n < length schema.now.uniques }
    ensures { IsOrderOf (places_at schema.now n) (key_places schema.now) rows.now (flat order.now.pages) result.now }
{
    let Some(number) = index_number(schema, n) else {
        return order;
    };
    // There is no index before there is room for a row.
    match index_at(indexes, number) {
        Some(index) => &index.entries,
        None => order,
    }
}
