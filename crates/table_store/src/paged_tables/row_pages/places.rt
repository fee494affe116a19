//! Places of rows among entries in order.

ghost use Rattle.std.specs.Prelude.{◌≡◌, ◌<◌, [], length, slice_get, option_copied, unwrap_or, find, None, List, ℕ, map, MatchOption};
ghost use Rattle.std.specs.List.{prefix_len};
ghost use Rattle.std.specs.Ordering.{is_gt};
ghost use Rattle.slab.specs.Slab.{get};
ghost use Rattle.base_values.specs.KeyOrder.{compare_keys};
ghost use Rattle.base_values.specs.GhoSchema.Rows.{key_of};
ghost use Rattle.base_page_list.specs.Pages.{flat, place_in, IsGap, FailsOn, last_page};
ghost use Rattle.table_store.specs.RowLists.{comes_before, is_at};
ghost use Rattle.base_page_list.specs.Orders.{Ascending};
ghost use Rattle.table_store.specs.PagedTables.RowPages.RowOrders.{row_of, rows_of, compare_by, is_before, place_by, IsListed};
ghost use Rattle.table_store.specs.PagedTables.RowPages.KeyLookup.{wanted_key, IsFound, IsFirst};
ghost use Rattle.table_store.specs.PagedTables.RowPages.Clashes.{besides_test};

use crate::paged_tables::row_pages::comparison::{compare_by, compare_key, compare_rows, is_at};
use base_page_list::{PagePlace, PagedList, Test};
use base_values::{Row, Value};
use slab::Slab;
use std::cmp::Ordering;

/// The row of an entry; one without values where it has none.
pub fn row_of(rows: &Slab<Row>, entry: usize) -> &[Value]
    ensures { result.now ≡ row_of rows.now entry }
{
    match rows.get(entry) {
        Some(row) => row.as_slice(),
        None => &[],
    }
}

/// The rows that come before one.
#[derive(Drop)]
struct BeforeRow<'a> {
    rows: &'a Slab<Row>,
    first: &'a [usize],
    second: &'a [usize],
    row: &'a [Value],
}

impl<'a> Test for BeforeRow<'a> {
    ghost on = { λ t entry. is_before t.first.now t.second.now t.row.now (row_of t.rows.now entry) };

    fn passes(&self, entry: usize) -> bool {
        compare_by(self.first, self.second, self.row, row_of(self.rows, entry)).is_gt()
    }
}

/// A key that is wanted: one that is given, or that of a row.
#[derive(Clone, Copy)]
pub enum Wanted<'a> {
    Key(&'a [Value]),
    Of(&'a [Value]),
}

/// Which comes first: the key that is wanted, or the row's.
fn compare_wanted(sought: Wanted<'_>, places: &[usize], row: &[Value]) -> Ordering
    ensures { result ≡ compare_keys (wanted_key places.now sought.entry) (key_of places.now row.now) }
{
    match sought {
        Wanted::Key(key) => compare_key(key, places, row),
        Wanted::Of(other) => compare_rows(places, other, row),
    }
}

/// The rows whose keys come before one.
#[derive(Drop)]
struct BeforeKey<'a> {
    rows: &'a Slab<Row>,
    places: &'a [usize],
    sought: Wanted<'a>,
}

impl<'a> Test for BeforeKey<'a> {
    ghost on = { λ t entry. comes_before t.places.now (wanted_key t.places.now t.sought) (row_of t.rows.now entry) };

    fn passes(&self, entry: usize) -> bool {
        compare_wanted(self.sought, self.places, row_of(self.rows, entry)).is_gt()
    }
}

/// The place of a row.
pub fn place_of_row(
    rows: &Slab<Row>,
    order: &PagedList,
    first: &[usize],
    second: &[usize],
    row: &[Value],
) -> PagePlace
    requires { FailsOn (is_before first.now second.now row.now) (rows_of rows.now (flat order.now.pages)) }
    ensures gap { IsGap order.now.pages result.page result.at }
    ensures page { result.page ≡ last_page (is_before first.now second.now row.now) (map (rows_of rows.now) order.now.pages) }
    ensures place { place_in order.now.pages result.page result.at ≡ place_by first.now second.now row.now (rows_of rows.now (flat order.now.pages)) }
{
    order.place(&BeforeRow {
        rows,
        first,
        second,
        row,
    })
}

/// The place of a key by the first places alone.
fn place_of_key(
    rows: &Slab<Row>,
    order: &PagedList,
    places: &[usize],
    sought: Wanted<'_>,
) -> PagePlace
    requires { FailsOn (comes_before places.now (wanted_key places.now sought)) (rows_of rows.now (flat order.now.pages)) }
    ensures gap { IsGap order.now.pages result.page result.at }
    ensures place { place_in order.now.pages result.page result.at ≡ prefix_len (comes_before places.now (wanted_key places.now sought.entry)) (rows_of rows.now (flat order.now.pages)) }
{
    order.place(&BeforeKey {
        rows,
        places,
        sought,
    })
}

/// The first entry whose row has this key, and where it is.
pub fn found(
    rows: &Slab<Row>,
    order: &PagedList,
    places: &[usize],
    sought: Wanted<'_>,
) -> Option<(PagePlace, usize)>
    requires { (second : List ℕ) × Ascending (compare_by places.now second) (rows_of rows.now (flat order.now.pages)) }
    ensures { MatchOption result (find (is_at places.now (wanted_key places.now sought.entry)) (rows_of rows.now (flat order.now.pages)) ≡ None)
        (λ found. IsFound places.now (wanted_key places.now sought.entry) rows.now order.now.pages found.0.page found.0.at found.1) }
{
    let place = place_of_key(rows, order, places, sought);
    let Some((place, entry)) = order.entry_at(place) else {
        return None;
    };
    if compare_wanted(sought, places, row_of(rows, entry)).is_eq() {
        Some((place, entry))
    } else {
        None
    }
}

/// The row of least second key that has this key.
pub fn row_with_key<'a>(
    rows: &'a Slab<Row>,
    order: &PagedList,
    places: &[usize],
    sought: Wanted<'_>,
) -> Option<&'a Row>
    requires { (second : List ℕ) × IsListed places.now second rows.now (flat order.now.pages) }
    ensures { option_copied result ≡ find (is_at places.now (wanted_key places.now sought.entry)) (rows_of rows.now (flat order.now.pages)) }
{
    match found(rows, order, places, sought) {
        Some((_, entry)) => rows.get(entry),
        None => None,
    }
}

/// The first entry whose row has this key and isn't the one that is named by the second places: one of the first two of
/// the key.
fn found_besides(
    rows: &Slab<Row>,
    order: &PagedList,
    places: &[usize],
    sought: Wanted<'_>,
    second: &[usize],
    named: &[Value],
) -> Option<usize>
    requires { Ascending (compare_by places.now second.now) (rows_of rows.now (flat order.now.pages)) }
    ensures { MatchOption result (find (besides_test places.now (wanted_key places.now sought.entry) second.now named.now) (rows_of rows.now (flat order.now.pages)) ≡ None)
        (λ entry. IsFirst (besides_test places.now (wanted_key places.now sought.entry) second.now named.now) rows.now (flat order.now.pages) entry) }
{
    let Some((place, entry)) = found(rows, order, places, sought) else {
        return None;
    };
    if !is_at(second, named, row_of(rows, entry)) {
        return Some(entry);
    }
    let Some((_, next)) = order.entry_after(place) else {
        return None;
    };
    if compare_wanted(sought, places, row_of(rows, next)).is_eq() {
        Some(next)
    } else {
        None
    }
}

/// The row of least second key that has this key and isn't the one that is named by the second places.
pub fn row_besides<'a>(
    rows: &'a Slab<Row>,
    order: &PagedList,
    places: &[usize],
    sought: Wanted<'_>,
    second: &[usize],
    named: &[Value],
) -> Option<&'a Row>
    requires { IsListed places.now second.now rows.now (flat order.now.pages) }
    ensures { option_copied result ≡ find (besides_test places.now (wanted_key places.now sought.entry) second.now named.now) (rows_of rows.now (flat order.now.pages)) }
{
    match found_besides(rows, order, places, sought, second, named) {
        Some(entry) => rows.get(entry),
        None => None,
    }
}
