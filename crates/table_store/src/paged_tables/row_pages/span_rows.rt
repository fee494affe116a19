//! A walk over rows.

ghost use Rattle.std.specs.Prelude.{◌≡◌, length, Some, IfSome, IsSome};
ghost use Rattle.std.specs.List.{AllByRecursion};
ghost use Rattle.std.specs.Iterator.{YieldsFirstRef, item_count, at_most, UpTo};
ghost use Rattle.std.specs.Iterator.SizeHint.{IsWithinCount};
ghost use Rattle.slab.specs.Slab.{get};
ghost use Rattle.table_store.specs.PagedTables.RowPages.RowOrders.{rows_of};

use base_page_list::Entries;
use base_values::Row;
use slab::Slab;
use std::iter::FusedIterator;
use std::marker::Model;

/// Rows in order. Contracts see those that are left.
#[derive(Drop)]
pub struct SpanRows<'a> {
    rows: &'a Slab<Row>,
    rest: Entries<'a>,
}

impl<'a> Model for SpanRows<'a> {
    ghost use Rattle.std.specs.Prelude.{List, IsSome};
    ghost use Rattle.std.specs.List.{AllByRecursion};
    ghost use Rattle.slab.specs.Slab.{get};
    ghost use Rattle.base_values.specs.declared.value.Value.{Value as Item};
    ghost use Rattle.table_store.specs.PagedTables.RowPages.RowOrders.{rows_of};

    ghost Value = { List (List Item) };

    ghost view = { λ s. rows_of s.rows.now s.rest };

    ghost invariant = { λ s. AllByRecursion (λ entry. IsSome (get s.rows.now entry)) s.rest };
}

impl<'a> SpanRows<'a> {
    pub(crate) fn new(rows: &'a Slab<Row>, rest: Entries<'a>) -> SpanRows<'a>
        requires { AllByRecursion (λ entry. IsSome (get rows.now entry)) rest }
        ensures { result ≡ rows_of rows.now rest.entry }
    {
        SpanRows { rows, rest }
    }
}

impl<'a> Iterator for SpanRows<'a> {
    type Item = &'a Row;

    ghost next_gives = { YieldsFirstRef (λ rows. rows) };

    ghost remaining = { item_count (λ rows. rows) };

    fn next(&mut self) -> Option<&'a Row> {
        match self.rest.next() {
            Some(entry) => self.rows.get(*entry),
            None => None,
        }
    }

    /// Exact; it looks at each page that is left.
    fn size_hint(&self) -> (usize, Option<usize>)
        ensures lower { IsWithinCount result.0 (at_most (length self.now)) }
        ensures upper { IfSome result.1 (UpTo (at_most (length self.now))) }
        ensures exact { (result.0 ≡ length self.now) × (result.1 ≡ Some (length self.now)) }
    {
        let left = self.rest.len();
        (left, Some(left))
    }
}

impl<'a> FusedIterator for SpanRows<'a> {}
