//! Who refuses a lock, by look-ups.

ghost use Rattle.std.specs.Prelude.{◌≡◌, ℕ};
ghost use Rattle.slab.specs.Slab.{get};
ghost use Rattle.server_locks.specs.RowLocks.Grants.{blocker_of_lock, blocker_of_set};
ghost use Rattle.server_locks.specs.RowLocks.LockLists.{AreConsistent, locks_in};
ghost use Rattle.server_locks.specs.RowLocks.Blockers.{least_of, refusal_at, starts_before, begins_within};

use crate::least_session::least;
use crate::row_locks::lock::Lock;
use crate::row_locks::lock_table::granted_lock::GrantedLock;
use crate::row_locks::lock_table::list_orders::{OnEarlierKey, compare_places, compare_starts};
use crate::row_locks::lock_table::lock_lists::LockLists;
use base_page_list::{Entries, Test};
use slab::Slab;
use std::cmp::Ordering;

/// The session that holds the entry's lock, where that refuses the session's.
fn refusal_at(slab: &Slab<GrantedLock>, session: u32, lock: &Lock, entry: usize) -> Option<u32>
    ensures { result ≡ refusal_at slab.now session lock.now entry }
{
    match slab.get(entry) {
        Some(one) => one.held.refusal(session, lock),
        None => None,
    }
}

/// The least session that holds one of the entries' locks and refuses the session's.
#[tactic(auto, using(crate::proofs::RowLocks::LockTable::Blockers::steps))]
fn least_refusal(
    slab: &Slab<GrantedLock>,
    session: u32,
    lock: &Lock,
    entries: Entries<'_>,
) -> Option<u32>
    ensures { result ≡ least_of (refusal_at slab.now session lock.now) entries.entry }
{
    let mut by = None;
    for entry in entries {
        by = least(by, refusal_at(slab, session, lock, *entry));
    }
    by
}

/// The entries whose locks come before one by table, key and low end.
#[derive(Drop)]
struct StartsBefore<'a> {
    slab: &'a Slab<GrantedLock>,
    lock: &'a Lock,
}

impl<'a> Test for StartsBefore<'a> {
    ghost on = { λ t entry. starts_before t.lock.now (get t.slab.now entry) };

    fn passes(&self, entry: usize) -> bool {
        match self.slab.get(entry) {
            Some(one) => compare_starts(self.lock, &one.held.lock).is_gt(),
            None => true,
        }
    }
}

/// The entries whose locks come before one by table and key, or begin before its high end.
#[derive(Drop)]
struct BeginsWithin<'a> {
    slab: &'a Slab<GrantedLock>,
    lock: &'a Lock,
}

impl<'a> Test for BeginsWithin<'a> {
    ghost on = { λ t entry. begins_within t.lock.now (get t.slab.now entry) };

    fn passes(&self, entry: usize) -> bool {
        match self.slab.get(entry) {
            Some(one) => match compare_places(self.lock, &one.held.lock) {
                Ordering::Less => false,
                Ordering::Equal => one.held.lock.span.low.leaves_room(&self.lock.span.high),
                Ordering::Greater => true,
            },
            None => true,
        }
    }
}

/// The least session that refuses the lock. A lock that begins before this one can only reach it where it is wide: so of the
/// locks that begin earlier the wide ones alone are looked at, and of all others those that begin before its high end.
fn blocker_of_lock(lists: &LockLists, session: u32, lock: &Lock) -> Option<u32>
    requires { (next : ℕ) × AreConsistent next lists.now }
    ensures { result ≡ blocker_of_lock (locks_in lists.now) session lock.now }
{
    let slab = &lists.slab;
    let start = lists.spans.place(&StartsBefore { slab, lock });
    let end = lists.spans.place(&BeginsWithin { slab, lock });
    let within = lists.spans.entries_between(start, end);
    let by = least_refusal(slab, session, lock, within);
    let start = lists.wide.place(&OnEarlierKey {
        slab,
        table: &lock.table,
        key: lock.key,
    });
    let end = lists.wide.place(&StartsBefore { slab, lock });
    let before = lists.wide.entries_between(start, end);
    least(by, least_refusal(slab, session, lock, before))
}

/// The least session that refuses one of the locks.
#[tactic(auto, using(crate::proofs::RowLocks::LockTable::Blockers::steps), unfolding(crate::specs::RowLocks::Grants::blocker_of_set))]
pub fn blocker_of_set(lists: &LockLists, session: u32, set: &[Lock]) -> Option<u32>
    requires { (next : ℕ) × AreConsistent next lists.now }
    ensures { result ≡ blocker_of_set (locks_in lists.now) session set.now }
{
    let mut by = None;
    for lock in set {
        by = least(by, blocker_of_lock(lists, session, lock));
    }
    by
}
