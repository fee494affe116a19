//! The indexes of a table's unique keys, but for the clustered one.

ghost use Rattle.std.specs.Prelude.{◌≡◌, ◌<◌, ◌++◌, map, OnOk, OnErr, IfOk};
ghost use Rattle.std.specs.List.{AllByRecursion, AllZip};
ghost use Rattle.base_page_list.specs.Pages.{flat, place_in, IsGap};
ghost use Rattle.base_page_list.specs.Orders.{Ascending};
ghost use Rattle.table_store.specs.PagedTables.RowPages.RowOrders.{row_of, rows_of, compare_by, place_by};
ghost use Rattle.table_store.specs.PagedTables.RowPages.Indexes.{other_keys, keys_of, IsReady, IsAdded, IsHolding, IsTaken, IsSame, IsWide, IsEmptyIndex};

use crate::paged_tables::row_pages::places::{place_of_row, row_of};
use base_page_list::{PagePlace, PagedList};
use base_values::gho_schema::{Index, Places, Schema, clustered_place};
use base_values::{Duplicate, Row};
use slab::Slab;
use std::alloc::{AllocError, Global};

/// All entries in order of one unique key, and then of the clustered one.
#[derive(Drop)]
pub struct KeyIndex {
    /// The places of the key's columns.
    pub places: Places,
    /// The entries of the rows.
    pub entries: PagedList,
}

impl KeyIndex {
    /// The place of an entry by its row.
    fn place_of(&self, rows: &Slab<Row>, clustered: &[usize], entry: usize) -> PagePlace
        requires { Ascending (compare_by self.now.places clustered.now) (rows_of rows.now (flat self.now.entries.pages)) }
        ensures gap { IsGap self.now.entries.pages result.page result.at }
        ensures place { place_in self.now.entries.pages result.page result.at ≡ place_by self.now.places clustered.now (row_of rows.now entry) (rows_of rows.now (flat self.now.entries.pages)) }
    {
        let places = self.places.as_slice();
        let row = row_of(rows, entry);
        place_of_row(rows, &self.entries, places, clustered, row)
    }
}

/// Adds an index without entries for each of these keys.
fn push_indexes(
    alloc: Global,
    indexes: &mut Vec<KeyIndex>,
    uniques: &[Index],
) -> Result<(), AllocError>
    requires { AllByRecursion IsEmptyIndex indexes.old.items }
    ensures keys { OnOk result (keys_of indexes.new.items ≡ keys_of indexes.old.items ++ map (λ unique. unique.places) uniques.now) }
    ensures empty { AllByRecursion IsEmptyIndex indexes.new.items }
{
    for unique in uniques {
        indexes.push(KeyIndex {
            places: unique.places.copy()?,
            entries: PagedList::new(alloc),
        })?;
    }
    Ok(())
}

/// An index without entries for each unique key but the clustered one.
fn other_indexes(alloc: Global, schema: &Schema) -> Result<Vec<KeyIndex>, AllocError>
    ensures keys { IfOk result (λ indexes. keys_of indexes.items ≡ other_keys schema.now) }
    ensures empty { IfOk result (λ indexes. AllByRecursion IsEmptyIndex indexes.items) }
{
    let mut indexes = Vec::new(alloc);
    let uniques = schema.uniques.as_slice();
    match clustered_place(schema) {
        Some(place) => {
            push_indexes(alloc, &mut indexes, &uniques[..place])?;
            push_indexes(alloc, &mut indexes, &uniques[place + 1..])?;
        }
        None => push_indexes(alloc, &mut indexes, uniques)?,
    }
    Ok(indexes)
}

/// Makes the indexes of a table that hasn't had room for a row yet.
pub fn make_indexes(
    schema: &Schema,
    rows: &Slab<Row>,
    indexes: &mut Vec<KeyIndex>,
) -> Result<(), AllocError>
    ensures err { OnErr result (indexes.new.items ≡ indexes.old.items) }
    ensures kept { 0 < rows.now.capacity → indexes.new.items ≡ indexes.old.items }
    ensures keys { OnOk result (rows.now.capacity ≡ 0 → keys_of indexes.new.items ≡ other_keys schema.now) }
    ensures empty { OnOk result (rows.now.capacity ≡ 0 → AllByRecursion IsEmptyIndex indexes.new.items) }
{
    if rows.capacity() == 0 {
        *indexes = other_indexes(*indexes.allocator(), schema)?;
    }
    Ok(())
}

/// Makes room for `total` entries in all.
fn widen(index: &mut KeyIndex, total: usize) -> Result<(), AllocError>
    ensures same { IsSame index.old index.new }
    ensures ok { OnOk result (IsWide total index.old index.new) }
{
    index.entries.reserve(total)
}

/// Makes room for `total` entries in all in each index.
pub fn reserve_all(indexes: &mut Vec<KeyIndex>, total: usize) -> Result<(), AllocError>
    ensures same { AllZip IsSame indexes.old.items indexes.new.items }
    ensures ok { OnOk result (AllZip (IsWide total) indexes.old.items indexes.new.items) }
{
    for i in 0..indexes.len() {
        let index = &mut indexes[i];
        widen(index, total)?;
    }
    Ok(())
}

/// Puts an entry in its place.
fn add(rows: &Slab<Row>, clustered: &[usize], index: &mut KeyIndex, entry: usize)
    requires { IsReady rows.now clustered.now index.old }
    ensures { IsAdded rows.now clustered.now entry index.old index.new }
{
    let place = index.place_of(rows, clustered, entry);
    index.entries.insert(place, entry);
}

/// Puts an entry in its place in each index.
pub fn add_all(rows: &Slab<Row>, clustered: &[usize], indexes: &mut Vec<KeyIndex>, entry: usize)
    requires { AllByRecursion (IsReady rows.now clustered.now) indexes.old.items }
    ensures { AllZip (IsAdded rows.now clustered.now entry) indexes.old.items indexes.new.items }
{
    for i in 0..indexes.len() {
        let index = &mut indexes[i];
        add(rows, clustered, index, entry);
    }
}

/// Takes an entry out of its place.
fn take(rows: &Slab<Row>, clustered: &[usize], index: &mut KeyIndex, entry: usize)
    requires { IsHolding rows.now clustered.now entry index.old }
    ensures { IsTaken rows.now clustered.now entry index.old index.new }
{
    let place = index.place_of(rows, clustered, entry);
    let Some((place, _)) = index.entries.entry_at(place) else {
        unreachable!();
    };
    index.entries.remove(place);
}

/// Takes an entry out of its place in each index.
pub fn take_all(rows: &Slab<Row>, clustered: &[usize], indexes: &mut Vec<KeyIndex>, entry: usize)
    requires { AllByRecursion (IsHolding rows.now clustered.now entry) indexes.old.items }
    ensures { AllZip (IsTaken rows.now clustered.now entry) indexes.old.items indexes.new.items }
{
    for i in 0..indexes.len() {
        let index = &mut indexes[i];
        take(rows, clustered, index, entry);
    }
}
