//! The locks in a slab, with lists of their entries in several orders.

ghost use Rattle.std.specs.Prelude.{◌≡◌, ◌<◌, ◌≤◌, ◌+◌, ◌∷◌, [], ◌++◌, ℕ, Some, OnOk, if◌then◌else◌, insert, remove};
ghost use Rattle.slab.specs.Slab.{get, slab_len};
ghost use Rattle.base_page_list.specs.Pages.{flat, place_in, IsGap};
ghost use Rattle.base_page_list.specs.Orders.{Ascending, Has};
ghost use Rattle.server_locks.specs.RowLocks.ListOrders.{compare_slots, slots_of, place_by};
ghost use Rattle.server_locks.specs.RowLocks.LockLists.{AreConsistent, HasRoom, AreSame, IsTaken, IsTakenAt, locks_in};
ghost use Rattle.server_locks.specs.RowLocks.Releases.{slots_in};

use crate::row_locks::lock::is_point;
use crate::row_locks::lock_table::granted_lock::{GrantedLock, ListOrder};
use crate::row_locks::lock_table::list_orders::place_of;
use base_page_list::{PagePlace, PagedList};
use slab::Slab;
use std::alloc::{AllocError, Global};

/// Puts an entry at a place, where it is to be there.
fn insert_if(list: &mut PagedList, place: PagePlace, entry: usize, is_there: bool)
    requires room { 0 < list.old.spare }
    requires place { IsGap list.old.pages place.page place.at }
    ensures entries { flat list.new.pages ≡ (if is_there then insert (flat list.old.pages) (place_in list.old.pages place.page place.at) entry else flat list.old.pages) }
    ensures spare { list.old.spare ≤ list.new.spare + 1 }
{
    if is_there {
        list.insert(place, entry);
    }
}

/// Takes an entry out of a list, if it is there.
fn take_from(
    slab: &Slab<GrantedLock>,
    list: &mut PagedList,
    by: ListOrder,
    one: &GrantedLock,
    entry: usize,
)
    requires ascends { Ascending (compare_slots by) (slots_of slab.now (flat list.old.pages)) }
    requires is { get slab.now entry ≡ Some one.now }
    ensures { IsTaken (place_by by one.now (slots_of slab.now (flat list.old.pages))) entry (flat list.old.pages) (flat list.new.pages) }
{
    let place = place_of(slab, list, by, one);
    if let Some((place, found)) = list.entry_at(place) {
        if found == entry {
            list.remove(place);
        }
    }
}

/// Locks, and their entries in order.
#[derive(Drop)]
pub struct LockLists {
    /// The locks.
    pub slab: Slab<GrantedLock>,
    /// All as they were granted.
    pub granted: PagedList,
    /// All by session, and then as they were granted.
    pub owned: PagedList,
    /// All by table, key and low end.
    pub spans: PagedList,
    /// Those on more values than one, by table, key and low end.
    pub wide: PagedList,
}

impl LockLists {
    /// No locks.
    pub fn new(alloc: Global) -> LockLists
        ensures consistent { AreConsistent 0 result }
        ensures none { locks_in result ≡ [] }
    {
        LockLists {
            slab: Slab::new(alloc),
            granted: PagedList::new(alloc),
            owned: PagedList::new(alloc),
            spans: PagedList::new(alloc),
            wide: PagedList::new(alloc),
        }
    }

    /// Makes room for this many more locks.
    pub fn reserve(&mut self, more: usize) -> Result<(), AllocError>
        requires { (next : ℕ) × AreConsistent next self.old }
        ensures same { AreSame self.old self.new }
        ensures ok { OnOk result (HasRoom more self.new) }
    {
        let Some(total) = self.slab.len().checked_add(more) else {
            return Err(AllocError);
        };
        self.granted.reserve(total)?;
        self.owned.reserve(total)?;
        self.spans.reserve(total)?;
        self.wide.reserve(total)?;
        self.slab.reserve(more)
    }

    /// Puts in a lock that was granted after all others.
    pub fn put(&mut self, one: GrantedLock)
        requires consistent { AreConsistent one.grant self.old }
        requires room { HasRoom 1 self.old }
        ensures consistent { AreConsistent (one.grant + 1) self.new }
        ensures locks { locks_in self.new ≡ locks_in self.old ++ one.held ∷ [] }
        ensures slots { slots_in self.new ≡ slots_in self.old ++ Some one ∷ [] }
        ensures room { (more : ℕ) → HasRoom (more + 1) self.old → HasRoom more self.new }
    {
        let granted = place_of(&self.slab, &self.granted, ListOrder::Grant, &one);
        let owned = place_of(&self.slab, &self.owned, ListOrder::Owner, &one);
        let spans = place_of(&self.slab, &self.spans, ListOrder::Span, &one);
        let wide = place_of(&self.slab, &self.wide, ListOrder::Span, &one);
        let is_wide = !is_point(&one.held.lock.span);
        let entry = self.slab.insert_reserved(one);
        self.granted.insert(granted, entry);
        self.owned.insert(owned, entry);
        self.spans.insert(spans, entry);
        insert_if(&mut self.wide, wide, entry, is_wide);
    }

    /// Takes a lock out.
    pub fn take(&mut self, entry: usize)
        requires consistent { (next : ℕ) × AreConsistent next self.old }
        requires has { Has (flat self.old.granted.pages) entry }
        ensures consistent { (next : ℕ) → AreConsistent next self.old → AreConsistent next self.new }
        ensures entries { (place : ℕ) × IsTakenAt place entry (flat self.old.granted.pages) (flat self.new.granted.pages) × (locks_in self.new ≡ remove (locks_in self.old) place) }
        ensures slots { (place : ℕ) × IsTakenAt place entry (flat self.old.granted.pages) (flat self.new.granted.pages) × (slots_in self.new ≡ remove (slots_in self.old) place) }
        ensures fewer { slab_len self.new.slab + 1 ≡ slab_len self.old.slab }
    {
        let Some(one) = self.slab.get(entry) else {
            unreachable!();
        };
        take_from(&self.slab, &mut self.granted, ListOrder::Grant, one, entry);
        take_from(&self.slab, &mut self.owned, ListOrder::Owner, one, entry);
        take_from(&self.slab, &mut self.spans, ListOrder::Span, one, entry);
        take_from(&self.slab, &mut self.wide, ListOrder::Span, one, entry);
        self.slab.try_remove(entry);
    }
}
