//! A table: rows in a slab, and their entries in order of each unique key.

ghost use Rattle.std.specs.Prelude.{◌≡◌, ◌≤◌, ◌<◌, ◌+◌, ◌==◌, true, [], if◌then◌else◌, None, length, get_or, is_some, option_copied, IfOk, OnOk};
ghost use Rattle.std.specs.List.{flat_map};
ghost use Rattle.base_values.specs.GhoSchema.Rows.{key_of, key_places, places_at, with_row};
ghost use Rattle.base_values.specs.GhoSchema.Tables.{Ascends};
ghost use Rattle.base_page_list.specs.Pages.{pages_made, last_page};
ghost use Rattle.table_store.specs.RowLists.{comes_before, without_key};
ghost use Rattle.table_store.specs.Databases.{row_at_key, clashing, rows_in, name_table};
ghost use Rattle.table_store.specs.PagedTables.RowPages.ByKeys.{row_by, AreInSpan};
ghost use Rattle.table_store.specs.PagedTables.RowPages.StoredRows.{ArePagesOfRows};

use crate::paged_tables::row_pages::by_key::order_by;
use crate::paged_tables::row_pages::clashes::{clash_in, earlier, first_clash};
use crate::paged_tables::row_pages::copies::{copied_rows, copied_table, table_of};
use crate::paged_tables::row_pages::indexes::{
    KeyIndex, add_all, make_indexes, reserve_all, take_all,
};
use crate::paged_tables::row_pages::places::{Wanted, found, place_of_row, row_with_key};
use crate::paged_tables::row_pages::span_rows::SpanRows;
use crate::paged_tables::row_pages::spans::entries_in_span;
use base_page_list::PagedList;
use base_values::gho_schema::{Schema, clustered_key};
use base_values::{Key, Name, Row, Rows, Span};
use slab::Slab;
use std::alloc::{AllocError, Global};
use std::marker::Model;
use std::mem;

/// A table with its rows, in pages of 1 to 64.
pub struct Table {
    schema: Schema,
    rows: Slab<Row>,
    order: PagedList,
    indexes: Vec<KeyIndex>,
}

// By hand, so that crates above prove it as one call.
impl Drop for Table {
    fn drop(self) {
        let Table {
            schema,
            rows,
            order,
            indexes,
        } = self;
        drop(schema);
        drop(rows);
        drop(order);
        drop(indexes);
    }
}

impl Model for Table {
    ghost use Rattle.std.specs.Prelude.{map};
    ghost use Rattle.base_values.specs.GhoSchema.Rows.{key_places};
    ghost use Rattle.base_page_list.specs.Pages.{flat};
    ghost use Rattle.table_store.specs.PagedTables.RowPages.RowOrders.{rows_of};
    ghost use Rattle.table_store.specs.PagedTables.RowPages.StoredRows.{PagedTable, IsStored, spare_of};

    ghost Value = { PagedTable };

    ghost view = { λ t. record { table = record { schema = t.schema; rows = rows_of t.rows (flat t.order.pages) }; pages = map (rows_of t.rows) t.order.pages; spare = spare_of t.rows t.order t.indexes.items } };

    ghost invariant = { λ t. IsStored t.schema t.rows (flat t.order.pages) t.indexes.items };
}

impl Table {
    /// The table without rows.
    pub fn new(alloc: Global, schema: Schema) -> Table
        ensures schema { result.table.schema ≡ schema }
        ensures rows { result.table.rows ≡ [] }
    {
        Table {
            schema,
            rows: Slab::new(alloc),
            order: PagedList::new(alloc),
            indexes: Vec::new(alloc),
        }
    }

    /// The table of rows in order of the clustered key.
    pub fn from_rows(alloc: Global, schema: Schema, rows: &[Row]) -> Result<Table, AllocError>
        requires { Ascends (key_places schema) rows.now }
        ensures schema { IfOk result (λ table. table.table.schema ≡ schema) }
        ensures rows { IfOk result (λ table. table.table.rows ≡ rows.now) }
    {
        table_of(alloc, schema, rows)
    }

    /// A copy of the table, with what room it may have.
    pub fn copy_table(&self, alloc: Global) -> Result<Table, AllocError>
        ensures { IfOk result (λ copy. copy.table ≡ self.now.table) }
    {
        copied_table(alloc, self)
    }

    /// Copies of its rows, in order of the clustered key.
    pub fn copied_rows(&self, alloc: Global) -> Result<Rows, AllocError>
        ensures { IfOk result (λ copy. copy ≡ self.now.table.rows) }
    {
        copied_rows(alloc, self)
    }

    /// What its columns and keys are. The rows are in order of the clustered key.
    pub fn schema(&self) -> &Schema
        ensures schema { result.now ≡ self.now.table.schema }
        ensures ascends { Ascends (key_places self.now.table.schema) self.now.table.rows }
    {
        &self.schema
    }

    /// How many rows it has.
    pub fn len(&self) -> usize
        ensures { result ≡ length self.now.table.rows }
    {
        self.rows.len()
    }

    /// Whether it has no row.
    pub fn is_empty(&self) -> bool
        ensures { result ≡ (length self.now.table.rows == 0) }
    {
        self.rows.is_empty()
    }

    /// The rows in order of the clustered key.
    pub fn rows(&self) -> SpanRows<'_>
        ensures { result ≡ self.now.table.rows }
    {
        SpanRows::new(&self.rows, self.order.entries())
    }

    /// How many pages it has.
    pub fn pages(&self) -> usize
        ensures count { result ≡ length self.now.pages }
        ensures rows { flat_map (λ page. page) self.now.pages ≡ self.now.table.rows }
        ensures sizes { ArePagesOfRows self.now.pages }
    {
        self.order.pages()
    }

    /// The rows of a page.
    pub fn page(&self, n: usize) -> SpanRows<'_>
        requires { n < length self.now.pages }
        ensures { result ≡ get_or self.now.pages n [] }
    {
        SpanRows::new(&self.rows, self.order.page_entries(n))
    }

    /// The row with this key.
    pub fn get(&self, key: &Key) -> Option<&Row>
        ensures { option_copied result ≡ row_at_key self.now.table key.now }
    {
        let places = self.schema.key_places();
        let sought = Wanted::Key(key.as_slice());
        row_with_key(&self.rows, &self.order, places, sought)
    }

    /// The row of least key that clashes with this one, besides the row of the key that is named.
    pub fn clash(&self, row: &Row, besides: Option<&Key>) -> Option<&Row>
        ensures { option_copied result ≡ clashing self.now.table row.now (option_copied besides.entry) }
    {
        let places = self.schema.key_places();
        let indexes = self.indexes.as_slice();
        let others = first_clash(&self.rows, places, indexes, row.as_slice(), besides);
        if clustered_key(&self.schema).is_none() {
            others
        } else {
            let own = clash_in(
                &self.rows,
                &self.order,
                places,
                places,
                row.as_slice(),
                besides,
            );
            earlier(places, own, others)
        }
    }

    /// The rows whose keys lie in the span, in order.
    pub fn in_span(&self, span: &Span) -> SpanRows<'_>
        ensures { result ≡ rows_in self.now.table span.now }
    {
        let places = self.schema.key_places();
        let entries = entries_in_span(&self.rows, &self.order, places, span);
        SpanRows::new(&self.rows, entries)
    }

    /// Gives the table another name, and answers the one that it had.
    pub fn set_name(&mut self, name: Name) -> Name
        ensures table { self.new.table ≡ name_table name self.old.table }
        ensures pages { self.new.pages ≡ self.old.pages }
        ensures spare { self.new.spare ≡ self.old.spare }
        ensures name { result ≡ self.old.table.schema.name }
    {
        mem::replace(&mut self.schema.name, name)
    }

    /// The row with these values in the columns of a unique key, by the key's number among the schema's; that of least
    /// clustered key, where there are several, as with nulls.
    pub fn get_by(&self, n: usize, key: &Key) -> Option<&Row>
        requires { n < length self.now.table.schema.uniques }
        ensures { option_copied result ≡ row_by n self.now.table key.now }
    {
        let indexes = self.indexes.as_slice();
        let entries = order_by(&self.schema, &self.rows, &self.order, indexes, n);
        let sought = Wanted::Key(key.as_slice());
        row_with_key(&self.rows, entries, self.schema.places_at(n), sought)
    }

    /// The rows whose values in the columns of a unique key lie in the span, in order of these; rows that tie, as those
    /// with nulls may, in order of the clustered key.
    pub fn in_span_by(&self, n: usize, span: &Span) -> SpanRows<'_>
        requires { n < length self.now.table.schema.uniques }
        ensures { AreInSpan self.now.table (places_at self.now.table.schema n) span.now result }
    {
        let indexes = self.indexes.as_slice();
        let entries = order_by(&self.schema, &self.rows, &self.order, indexes, n);
        let found = entries_in_span(&self.rows, entries, self.schema.places_at(n), span);
        SpanRows::new(&self.rows, found)
    }

    /// Makes room for `n` more rows.
    pub fn reserve(&mut self, n: usize) -> Result<(), AllocError>
        ensures table { self.new.table ≡ self.old.table }
        ensures pages { self.new.pages ≡ self.old.pages }
        ensures ok { OnOk result (n ≤ self.new.spare) }
        ensures spare { self.old.spare ≤ self.new.spare }
    {
        let Some(total) = self.rows.len().checked_add(n) else {
            return Err(AllocError);
        };
        make_indexes(&self.schema, &self.rows, &mut self.indexes)?;
        reserve_all(&mut self.indexes, total)?;
        self.order.reserve(total)?;
        self.rows.reserve(n)
    }

    /// Puts a row in its place.
    pub fn put(&mut self, row: Row)
        requires room { 0 < self.old.spare }
        requires new_key { row_at_key self.old.table (key_of (key_places self.old.table.schema) row) ≡ None }
        ensures schema { self.new.table.schema ≡ self.old.table.schema }
        ensures rows { self.new.table.rows ≡ with_row (key_places self.old.table.schema) row self.old.table.rows }
        ensures pages { length self.new.pages ≡ length self.old.pages + pages_made self.old.pages (last_page (comes_before (key_places self.old.table.schema) (key_of (key_places self.old.table.schema) row)) self.old.pages) }
        ensures spare { self.new.spare + 1 ≡ self.old.spare }
    {
        let places = self.schema.key_places();
        let place = place_of_row(&self.rows, &self.order, places, &[], row.as_slice());
        let entry = self.rows.insert_reserved(row);
        add_all(&self.rows, places, &mut self.indexes, entry);
        self.order.insert(place, entry);
    }

    /// Takes the row with this key out.
    pub fn remove(&mut self, key: &Key) -> Option<Row>
        ensures row { result ≡ row_at_key self.old.table key.now }
        ensures schema { self.new.table.schema ≡ self.old.table.schema }
        ensures rows { self.new.table.rows ≡ without_key (key_places self.old.table.schema) key.now self.old.table.rows }
        ensures spare { self.new.spare ≡ self.old.spare + (if is_some result then 1 else 0) }
    {
        let places = self.schema.key_places();
        let sought = Wanted::Key(key.as_slice());
        let Some((place, entry)) = found(&self.rows, &self.order, places, sought) else {
            return None;
        };
        take_all(&self.rows, places, &mut self.indexes, entry);
        self.order.remove(place);
        self.rows.try_remove(entry)
    }
}
