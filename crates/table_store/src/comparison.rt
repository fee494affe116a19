//! How rows and keys compare.

ghost use Rattle.std.specs.Prelude.{◌≡◌};
ghost use Rattle.base_values.specs.KeyOrder.{compare_keys};
ghost use Rattle.base_values.specs.GhoSchema.Rows.{key_of};
ghost use Rattle.base_values.specs.GhoSchema.Tables.{no_null, clash};
ghost use Rattle.table_store.specs.RowLists.{is_at};

use crate::key_values::KeyValues;
use base_values::Value;
use base_values::gho_schema::Index;
use std::cmp::Ordering;

/// Which comes first: this key, or the key of a row.
pub fn compare_key(key: &[Value], places: &[usize], row: &[Value]) -> Ordering
    ensures { result ≡ compare_keys key.now (key_of places.now row.now) }
{
    let mut theirs = KeyValues::new(places, row);
    for value in key {
        let Some(against) = theirs.next() else {
            return Ordering::Greater;
        };
        let order = value.cmp(against);
        if order.is_ne() {
            return order;
        }
    }
    if theirs.next().is_some() {
        Ordering::Less
    } else {
        Ordering::Equal
    }
}

/// Which of two rows comes first by the key at these places.
pub fn compare_rows(places: &[usize], row: &[Value], other: &[Value]) -> Ordering
    ensures { result ≡ compare_keys (key_of places.now row.now) (key_of places.now other.now) }
{
    let mut ours = KeyValues::new(places, row);
    let mut theirs = KeyValues::new(places, other);
    while let Some(value) = ours.next() {
        let Some(against) = theirs.next() else {
            return Ordering::Greater;
        };
        let order = value.cmp(against);
        if order.is_ne() {
            return order;
        }
    }
    if theirs.next().is_some() {
        Ordering::Less
    } else {
        Ordering::Equal
    }
}

/// Whether the row has this key.
pub fn is_at(places: &[usize], key: &[Value], row: &[Value]) -> bool
    ensures { result ≡ is_at places.now key.now row.now }
{
    compare_key(key, places, row).is_eq()
}

/// Whether no value of the row's key is null.
pub fn has_no_null(places: &[usize], row: &[Value]) -> bool
    ensures { result ≡ no_null (key_of places.now row.now) }
{
    let mut values = KeyValues::new(places, row);
    while let Some(value) = values.next() {
        if let Value::Null = value {
            return false;
        }
    }
    true
}

/// Whether two rows clash.
pub fn clash(uniques: &[Index], row: &[Value], other: &[Value]) -> bool
    ensures { result ≡ clash uniques.now row.now other.now }
{
    uniques.iter().any(|index| {
        compare_rows(index.places.as_slice(), row, other).is_eq()
            && has_no_null(index.places.as_slice(), row)
    })
}
