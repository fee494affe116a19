//! How rows and keys compare.

ghost use Rattle.std.specs.Prelude.{◌≡◌};
ghost use Rattle.base_values.specs.KeyOrder.{compare_keys};
ghost use Rattle.base_values.specs.GhoSchema.Rows.{key_of};
ghost use Rattle.table_store.specs.RowLists.{is_at};
ghost use Rattle.table_store.specs.PagedTables.RowPages.RowOrders.{compare_by};

use crate::paged_tables::row_pages::row_key::RowKey;
use base_values::Value;
use std::cmp::Ordering;

/// Which comes first: this key, or the key of a row.
pub fn compare_key(key: &[Value], places: &[usize], row: &[Value]) -> Ordering
    ensures { result ≡ compare_keys key.now (key_of places.now row.now) }
{
    key.iter().cmp(RowKey::new(places, row))
}

/// Which of two rows comes first by the key at these places.
pub fn compare_rows(places: &[usize], row: &[Value], other: &[Value]) -> Ordering
    ensures { result ≡ compare_keys (key_of places.now row.now) (key_of places.now other.now) }
{
    RowKey::new(places, row).cmp(RowKey::new(places, other))
}

/// Which of two rows comes first by the values at these places, and where they tie, at the second.
pub fn compare_by(first: &[usize], second: &[usize], row: &[Value], other: &[Value]) -> Ordering
    ensures { result ≡ compare_by first.now second.now row.now other.now }
{
    let order = compare_rows(first, row, other);
    if order.is_ne() {
        order
    } else {
        compare_rows(second, row, other)
    }
}

/// Whether the row has this key.
pub fn is_at(places: &[usize], key: &[Value], row: &[Value]) -> bool
    ensures { result ≡ is_at places.now key.now row.now }
{
    compare_key(key, places, row).is_eq()
}
