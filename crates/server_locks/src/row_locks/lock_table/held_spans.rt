//! The locks on one key, in order.

ghost use Rattle.std.specs.Prelude.{◌≡◌, ℕ, IsSome};
ghost use Rattle.std.specs.List.{AllByRecursion};
ghost use Rattle.std.specs.Iterator.{YieldsFirstRef, item_count};
ghost use Rattle.slab.specs.Slab.{get};
ghost use Rattle.server_locks.specs.RowLocks.HeldSpans.{AreOn};
ghost use Rattle.server_locks.specs.RowLocks.ListOrders.{is_on_key_or_earlier};
ghost use Rattle.server_locks.specs.RowLocks.LockLists.{AreConsistent, locks_in, locks_of};

use crate::row_locks::lock::HeldLock;
use crate::row_locks::lock_table::granted_lock::GrantedLock;
use crate::row_locks::lock_table::list_orders::{OnEarlierKey, compare_key};
use crate::row_locks::lock_table::lock_lists::LockLists;
use base_page_list::{Entries, Test};
use base_values::Name;
use slab::Slab;
use std::iter::FusedIterator;
use std::marker::Model;

/// A walk over the locks on one key. Contracts see those that are left.
#[derive(Drop)]
pub struct HeldSpans<'a> {
    slab: &'a Slab<GrantedLock>,
    rest: Entries<'a>,
}

impl<'a> Model for HeldSpans<'a> {
    ghost use Rattle.std.specs.Prelude.{List, IsSome};
    ghost use Rattle.std.specs.List.{AllByRecursion};
    ghost use Rattle.slab.specs.Slab.{get};
    ghost use Rattle.server_locks.specs.declared.row_locks.lock.HeldLock.{HeldLock as Item};
    ghost use Rattle.server_locks.specs.RowLocks.LockLists.{locks_of};

    ghost Value = { List Item };

    ghost view = { λ s. locks_of s.slab.now s.rest };

    ghost invariant = { λ s. AllByRecursion (λ entry. IsSome (get s.slab.now entry)) s.rest };
}

impl<'a> HeldSpans<'a> {
    fn new(slab: &'a Slab<GrantedLock>, rest: Entries<'a>) -> HeldSpans<'a>
        requires { AllByRecursion (λ entry. IsSome (get slab.now entry)) rest }
        ensures { result ≡ locks_of slab.now rest.entry }
    {
        HeldSpans { slab, rest }
    }
}

impl<'a> Iterator for HeldSpans<'a> {
    type Item = &'a HeldLock;

    ghost next_gives = { YieldsFirstRef (λ locks. locks) };

    ghost remaining = { item_count (λ locks. locks) };

    fn next(&mut self) -> Option<&'a HeldLock> {
        let Some(entry) = self.rest.next() else {
            return None;
        };
        match self.slab.get(*entry) {
            Some(one) => Some(&one.held),
            None => None,
        }
    }
}

impl<'a> FusedIterator for HeldSpans<'a> {}

/// The entries whose locks are on tables and keys before this one, or on this one.
#[derive(Drop)]
struct OnKeyOrEarlier<'a> {
    slab: &'a Slab<GrantedLock>,
    table: &'a Name,
    key: usize,
}

impl<'a> Test for OnKeyOrEarlier<'a> {
    ghost on = { λ t entry. is_on_key_or_earlier t.table.now t.key (get t.slab.now entry) };

    fn passes(&self, entry: usize) -> bool {
        match self.slab.get(entry) {
            Some(one) => compare_key(self.table, self.key, &one.held.lock).is_ge(),
            None => true,
        }
    }
}

/// The locks that are held on this key of this table.
pub fn held_on<'a>(lists: &'a LockLists, table: &Name, key: usize) -> HeldSpans<'a>
    requires { (next : ℕ) × AreConsistent next lists.now }
    ensures { AreOn table.now key (locks_in lists.now) result }
{
    let slab = &lists.slab;
    let start = lists.spans.place(&OnEarlierKey { slab, table, key });
    let end = lists.spans.place(&OnKeyOrEarlier { slab, table, key });
    HeldSpans::new(slab, lists.spans.entries_between(start, end))
}
