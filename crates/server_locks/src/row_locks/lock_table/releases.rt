//! Locks that are taken away: those of one session, or the last ones.

ghost use Rattle.std.specs.Prelude.{◌≡◌, ◌==◌, ◌≤◌, ℕ, false, not, filter, length, MatchOption, Some};
ghost use Rattle.std.specs.List.{list_any, prefix_len, slice_get};
ghost use Rattle.slab.specs.Slab.{get};
ghost use Rattle.base_page_list.specs.Pages.{flat};
ghost use Rattle.server_locks.specs.RowLocks.LockLists.{AreConsistent, locks_in};
ghost use Rattle.server_locks.specs.RowLocks.Releases.{is_of_lesser, is_of, IsOf, slots_in, is_granted_before, locks_before};

use crate::row_locks::lock_table::granted_lock::GrantedLock;
use crate::row_locks::lock_table::lock_lists::LockLists;
use base_page_list::Test;
use slab::Slab;

/// The entries of lesser sessions.
#[derive(Drop)]
struct OfLesser<'a> {
    slab: &'a Slab<GrantedLock>,
    session: u32,
}

impl<'a> Test for OfLesser<'a> {
    ghost on = { λ t entry. is_of_lesser t.session (get t.slab.now entry) };

    fn passes(&self, entry: usize) -> bool {
        match self.slab.get(entry) {
            Some(one) => self.session.cmp(&one.held.session).is_gt(),
            None => true,
        }
    }
}

/// Whether the entry's lock is of the session.
fn is_of(slab: &Slab<GrantedLock>, session: u32, entry: usize) -> bool
    ensures { result ≡ is_of session (get slab.now entry) }
{
    match slab.get(entry) {
        Some(one) => session.cmp(&one.held.session).is_eq(),
        None => false,
    }
}

/// The first entry of the session.
pub fn first_of(lists: &LockLists, session: u32) -> Option<usize>
    requires { (next : ℕ) × AreConsistent next lists.now }
    ensures { MatchOption result (list_any (λ held. held.session == session) (locks_in lists.now) ≡ false) (λ entry. IsOf session lists.now entry) }
{
    let place = lists.owned.place(&OfLesser {
        slab: &lists.slab,
        session,
    });
    let Some((_, entry)) = lists.owned.entry_at(place) else {
        return None;
    };
    if is_of(&lists.slab, session, entry) {
        Some(entry)
    } else {
        None
    }
}

/// Whether the session holds a lock.
pub fn holds_one(lists: &LockLists, session: u32) -> bool
    requires { (next : ℕ) × AreConsistent next lists.now }
    ensures { result ≡ list_any (λ held. held.session == session) (locks_in lists.now) }
{
    match first_of(lists, session) {
        Some(_) => true,
        None => false,
    }
}

/// Takes away all locks of the session, in time of their number.
pub fn take_away(lists: &mut LockLists, session: u32)
    requires { (next : ℕ) × AreConsistent next lists.old }
    ensures consistent { (next : ℕ) → AreConsistent next lists.old → AreConsistent next lists.new }
    ensures locks { locks_in lists.new ≡ filter (λ held. not (held.session == session)) (locks_in lists.old) }
{
    while let Some(entry) = first_of(lists, session) {
        lists.take(entry);
    }
}

/// The entries of locks that were granted before a number.
#[derive(Drop)]
struct GrantedBefore<'a> {
    slab: &'a Slab<GrantedLock>,
    first: usize,
}

impl<'a> Test for GrantedBefore<'a> {
    ghost on = { λ t entry. is_granted_before t.first (get t.slab.now entry) };

    fn passes(&self, entry: usize) -> bool {
        match self.slab.get(entry) {
            Some(one) => self.first.cmp(&one.grant).is_gt(),
            None => true,
        }
    }
}

/// The first entry that was granted with this number or later.
fn granted_from(lists: &LockLists, first: usize) -> Option<usize>
    requires { (next : ℕ) × AreConsistent next lists.now }
    ensures { MatchOption result (length (slots_in lists.now) ≤ prefix_len (is_granted_before first) (slots_in lists.now)) (λ entry. slice_get (flat lists.now.granted.pages) (prefix_len (is_granted_before first) (slots_in lists.now)) ≡ Some entry) }
{
    let place = lists.granted.place(&GrantedBefore {
        slab: &lists.slab,
        first,
    });
    match lists.granted.entry_at(place) {
        Some((_, entry)) => Some(entry),
        None => None,
    }
}

/// Takes back the locks that were granted with this number or later, in time of their number.
pub fn take_back(lists: &mut LockLists, first: usize)
    requires { (next : ℕ) × AreConsistent next lists.old }
    ensures consistent { (next : ℕ) → AreConsistent next lists.old → AreConsistent next lists.new }
    ensures locks { locks_in lists.new ≡ locks_before first (slots_in lists.old) }
{
    while let Some(entry) = granted_from(lists, first) {
        lists.take(entry);
    }
}
