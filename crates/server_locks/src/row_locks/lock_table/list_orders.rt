//! How locks compare, and their places in lists.

ghost use Rattle.std.specs.Prelude.{◌≡◌, Some, option_copied};
ghost use Rattle.std.specs.Option.{option_cmp};
ghost use Rattle.slab.specs.Slab.{get};
ghost use Rattle.base_values.specs.KeyOrder.{compare_keys};
ghost use Rattle.base_page_list.specs.Pages.{flat, place_in, IsGap};
ghost use Rattle.base_page_list.specs.Orders.{Ascending};
ghost use Rattle.server_locks.specs.RowLocks.ListOrders.{low_key, is_open, compare_lows, compare_key, compare_places, compare_starts, compare_owners, compare_spans, compare, compare_slots, slots_of, is_before, is_on_earlier_key, place_by};

use crate::row_locks::lock::Lock;
use crate::row_locks::lock_table::granted_lock::{GrantedLock, ListOrder};
use base_page_list::{PagePlace, PagedList, Test};
use base_values::{Bound, Key, Name};
use slab::Slab;
use std::cmp::Ordering;

/// The key at a low end.
fn low_key(low: &Bound) -> Option<&Key>
    ensures { option_copied result ≡ low_key low.now }
{
    match low {
        Bound::Open(key) | Bound::Closed(key) => Some(key),
        Bound::Free => None,
    }
}

/// Whether an end leaves its key out.
fn is_open(low: &Bound) -> bool
    ensures { result ≡ is_open low.now }
{
    match low {
        Bound::Open(_) => true,
        _ => false,
    }
}

/// Which of two low ends comes first by its key.
fn compare_low_keys(a: &Bound, b: &Bound) -> Ordering
    ensures { result ≡ option_cmp compare_keys (low_key a.now) (low_key b.now) }
{
    match (low_key(a), low_key(b)) {
        (None, None) => Ordering::Equal,
        (None, Some(_)) => Ordering::Less,
        (Some(_), None) => Ordering::Greater,
        (Some(a), Some(b)) => a.cmp(b),
    }
}

/// Which of two low ends comes first.
fn compare_lows(a: &Bound, b: &Bound) -> Ordering
    ensures { result ≡ compare_lows a.now b.now }
{
    compare_low_keys(a, b).then(is_open(a).cmp(&is_open(b)))
}

/// Which comes first: the key of the table, or the lock's.
pub fn compare_key(table: &Name, key: usize, lock: &Lock) -> Ordering
    ensures { result ≡ compare_key table.now key lock.now }
{
    table.compare(&lock.table).then(key.cmp(&lock.key))
}

/// Which of two locks comes first by table and key.
pub fn compare_places(a: &Lock, b: &Lock) -> Ordering
    ensures { result ≡ compare_places a.now b.now }
{
    compare_key(&a.table, a.key, b)
}

/// Which of two locks comes first by table, key and low end.
pub fn compare_starts(a: &Lock, b: &Lock) -> Ordering
    ensures { result ≡ compare_starts a.now b.now }
{
    let places = compare_places(a, b);
    if places.is_ne() {
        return places;
    }
    compare_lows(&a.span.low, &b.span.low)
}

/// Which of two locks comes first by session, and of one session by the grant.
fn compare_owners(a: &GrantedLock, b: &GrantedLock) -> Ordering
    ensures { result ≡ compare_owners a.now b.now }
{
    a.held
        .session
        .cmp(&b.held.session)
        .then(a.grant.cmp(&b.grant))
}

/// Which of two locks comes first by the span, and where they tie, by session and grant.
fn compare_spans(a: &GrantedLock, b: &GrantedLock) -> Ordering
    ensures { result ≡ compare_spans a.now b.now }
{
    let starts = compare_starts(&a.held.lock, &b.held.lock);
    if starts.is_ne() {
        return starts;
    }
    compare_owners(a, b)
}

/// Which of two locks comes first.
fn compare(by: ListOrder, a: &GrantedLock, b: &GrantedLock) -> Ordering
    ensures { result ≡ compare by a.now b.now }
{
    match by {
        ListOrder::Grant => a.grant.cmp(&b.grant),
        ListOrder::Owner => compare_owners(a, b),
        ListOrder::Span => compare_spans(a, b),
    }
}

/// The entries whose locks come before one.
#[derive(Drop)]
struct Before<'a> {
    slab: &'a Slab<GrantedLock>,
    by: ListOrder,
    one: &'a GrantedLock,
}

impl<'a> Test for Before<'a> {
    ghost on = { λ t entry. is_before t.by (Some t.one.now) (get t.slab.now entry) };

    fn passes(&self, entry: usize) -> bool {
        match self.slab.get(entry) {
            Some(other) => compare(self.by, self.one, other).is_gt(),
            None => true,
        }
    }
}

/// The place of a lock in a list.
pub fn place_of(
    slab: &Slab<GrantedLock>,
    list: &PagedList,
    by: ListOrder,
    one: &GrantedLock,
) -> PagePlace
    requires { Ascending (compare_slots by) (slots_of slab.now (flat list.now.pages)) }
    ensures gap { IsGap list.now.pages result.page result.at }
    ensures place { place_in list.now.pages result.page result.at ≡ place_by by one.now (slots_of slab.now (flat list.now.pages)) }
{
    list.place(&Before { slab, by, one })
}

/// The entries whose locks are on tables and keys before this one.
#[derive(Drop)]
pub struct OnEarlierKey<'a> {
    /// The locks.
    pub slab: &'a Slab<GrantedLock>,
    /// The key's table.
    pub table: &'a Name,
    /// The key.
    pub key: usize,
}

impl<'a> Test for OnEarlierKey<'a> {
    ghost on = { λ t entry. is_on_earlier_key t.table.now t.key (get t.slab.now entry) };

    fn passes(&self, entry: usize) -> bool {
        match self.slab.get(entry) {
            Some(one) => compare_key(self.table, self.key, &one.held.lock).is_gt(),
            None => true,
        }
    }
}
