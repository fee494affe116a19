//! The row that clashes with a new one.

ghost use Rattle.std.specs.Prelude.{◌≡◌, [], find, option_copied};
ghost use Rattle.std.specs.List.{AllByRecursion};
ghost use Rattle.base_page_list.specs.Pages.{flat};
ghost use Rattle.table_store.specs.PagedTables.RowPages.RowOrders.{rows_of, IsListed};
ghost use Rattle.table_store.specs.PagedTables.RowPages.Indexes.{IsOwnListed};
ghost use Rattle.table_store.specs.PagedTables.RowPages.Clashes.{clashes_at, by_key, earlier, earliest};

use crate::has_no_null;
use crate::paged_tables::row_pages::comparison::compare_rows;
use crate::paged_tables::row_pages::indexes::KeyIndex;
use crate::paged_tables::row_pages::places::{Wanted, row_besides, row_with_key};
use base_page_list::PagedList;
use base_values::{Key, Row, Value};
use slab::Slab;

/// The earlier of two rows by the clustered key.
pub fn earlier<'a>(
    clustered: &[usize],
    one: Option<&'a Row>,
    other: Option<&'a Row>,
) -> Option<&'a Row>
    ensures { option_copied result ≡ earlier (by_key clustered.now) (option_copied one.entry) (option_copied other.entry) }
{
    match (one, other) {
        (None, _) => other,
        (Some(_), None) => one,
        (Some(first), Some(second)) => {
            if compare_rows(clustered, first.as_slice(), second.as_slice()).is_gt() {
                other
            } else {
                one
            }
        }
    }
}

/// The row of least clustered key that has the new one's values at these places, none of them null, besides the row of
/// the key that is named.
pub fn clash_in<'a>(
    rows: &'a Slab<Row>,
    order: &PagedList,
    places: &[usize],
    clustered: &[usize],
    new: &[Value],
    besides: Option<&Key>,
) -> Option<&'a Row>
    requires { IsListed places.now clustered.now rows.now (flat order.now.pages) }
    ensures { option_copied result ≡ find (clashes_at clustered.now places.now new.now (option_copied besides.entry)) (rows_of rows.now (flat order.now.pages)) }
{
    if !has_no_null(places, new) {
        return None;
    }
    let sought = Wanted::Of(new);
    match besides {
        None => row_with_key(rows, order, places, sought),
        Some(key) => row_besides(rows, order, places, sought, clustered, key.as_slice()),
    }
}

/// The row of least clustered key that clashes with the new one by one of these indexes, besides the row of the key that
/// is named.
pub fn first_clash<'a>(
    rows: &'a Slab<Row>,
    clustered: &[usize],
    indexes: &[KeyIndex],
    new: &[Value],
    besides: Option<&Key>,
) -> Option<&'a Row>
    requires { AllByRecursion (IsOwnListed clustered.now rows.now) indexes.now }
    ensures { option_copied result ≡ earliest clustered.now new.now (option_copied besides.entry) rows.now indexes.now }
{
    let Some((index, others)) = indexes.split_first() else {
        return None;
    };
    let places = index.places.as_slice();
    let here = clash_in(rows, &index.entries, places, clustered, new, besides);
    let following = first_clash(rows, clustered, others, new, besides);
    earlier(clustered, here, following)
}
