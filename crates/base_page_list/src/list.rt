//! The list itself: look-ups, puts and removals.

ghost use Rattle.std.specs.Prelude.{◌≡◌, ◌<◌, ◌≤◌, ◌+◌, [], length, get_or, insert, remove, slice_index_or, slice_get, drop, OnOk, MatchOption, option_copied, Bool, ℕ};
ghost use Rattle.std.specs.List.{prefix_len};
ghost use Rattle.base_page_list.specs.Pages.{flat, place_in, between, IsGap, pages_made, FailsOn, first_passes, last_page, StandsAt, ArePages};

use crate::entries::Entries;
use crate::page::Page;
use crate::page_edits::{insert_in, remove_in};
use std::alloc::{AllocError, Global};
use std::marker::Model;

/// A page, and a place among its entries. A put or a removal may move what follows it to another place.
#[derive(Clone, Copy)]
pub struct PagePlace {
    /// The page's number, from 0.
    pub page: usize,
    /// How many of the page's entries come before the place.
    pub at: usize,
}

/// A test of entries, by which a place among them is found.
pub trait Test {
    ghost on: { Self → ℕ → Bool };

    /// Whether the entry passes.
    fn passes(&self, entry: usize) -> bool
        ensures { result ≡ on self.now entry };
}

/// Whether a page's first entry passes the test.
fn starts<T: Test>(test: &T, page: &Page) -> bool
    ensures { result ≡ first_passes (T.on test.now) page.now }
{
    match page.as_slice().first() {
        Some(entry) => test.passes(*entry),
        None => false,
    }
}

fn page_at(pages: &[Page], n: usize) -> Option<&Page>
    ensures { option_copied result ≡ slice_get pages.now n }
{
    pages.get(n)
}

/// How many pages begin with an entry that passes.
fn pages_before<T: Test>(pages: &[Page], test: &T) -> usize
    requires are { ArePages pages.now }
    requires fails { FailsOn (T.on test.now) (flat pages.now) }
    ensures { result ≡ prefix_len (first_passes (T.on test.now)) pages.now }
{
    // Entries are mostly put after all others: that is tried first.
    if let Some(last) = pages.last() {
        if starts(test, last) {
            return pages.len();
        }
    }
    pages.partition_point(|page| starts(test, page))
}

/// How many entries of a page pass.
fn entries_before<T: Test>(entries: &[usize], test: &T) -> usize
    requires { FailsOn (T.on test.now) entries.now }
    ensures count { result ≡ prefix_len (T.on test.now) entries.now }
    ensures bound { result ≤ length entries.now }
{
    if let Some(last) = entries.last() {
        if test.passes(*last) {
            return entries.len();
        }
    }
    entries.partition_point(|entry| test.passes(*entry))
}

/// The place after the entries that pass the test.
fn place_among<T: Test>(pages: &[Page], test: &T) -> PagePlace
    requires are { ArePages pages.now }
    requires fails { FailsOn (T.on test.now) (flat pages.now) }
    ensures gap { IsGap pages.now result.page result.at }
    ensures page { result.page ≡ last_page (T.on test.now) pages.now }
    ensures place { place_in pages.now result.page result.at ≡ prefix_len (T.on test.now) (flat pages.now) }
{
    let page = pages_before(pages, test).saturating_sub(1);
    match page_at(pages, page) {
        Some(entries) => PagePlace {
            page,
            at: entries_before(entries.as_slice(), test),
        },
        None => PagePlace { page, at: 0 },
    }
}

/// The entry after a place, and where it is.
fn entry_in(pages: &[Page], place: PagePlace) -> Option<(PagePlace, usize)>
    requires are { ArePages pages.now }
    requires gap { IsGap pages.now place.page place.at }
    ensures { MatchOption result (length (flat pages.now) ≤ place_in pages.now place.page place.at)
        (λ found. StandsAt pages.now (place_in pages.now place.page place.at) found.0.page found.0.at found.1) }
{
    let Some(here) = page_at(pages, place.page) else {
        return None;
    };
    if let Some(entry) = here.get(place.at) {
        return Some((place, entry));
    }
    let Some(next) = page_at(pages, place.page + 1) else {
        return None;
    };
    match next.get(0) {
        Some(entry) => Some((
            PagePlace {
                page: place.page + 1,
                at: 0,
            },
            entry,
        )),
        None => None,
    }
}

/// The entry after the one at a place, and where it is.
fn entry_behind(pages: &[Page], place: PagePlace) -> Option<(PagePlace, usize)>
    requires are { ArePages pages.now }
    requires page { place.page < length pages.now }
    requires at { place.at < length (get_or pages.now place.page []) }
    ensures { MatchOption result (length (flat pages.now) ≤ place_in pages.now place.page place.at + 1)
        (λ found. StandsAt pages.now (place_in pages.now place.page place.at + 1) found.0.page found.0.at found.1) }
{
    let at = place.at + 1;
    entry_in(
        pages,
        PagePlace {
            page: place.page,
            at,
        },
    )
}

/// A list of entries in pages of 1 to 64, two neighbours together more than 32. Contracts see the pages, and for how many
/// more entries there is room.
#[derive(Drop)]
pub struct PagedList {
    pages: Vec<Page>,
}

impl Model for PagedList {
    ghost use Rattle.std.specs.Prelude.{length, vec_capacity};
    ghost use Rattle.base_page_list.specs.Pages.{InPages, flat, room_of, IsPagedList};

    ghost Value = { InPages };

    ghost view = { λ s. record { pages = s.pages.items; spare = room_of (vec_capacity s.pages) (length (flat s.pages.items)) } };

    ghost invariant = { λ s. IsPagedList s.pages.items (vec_capacity s.pages) };
}

impl PagedList {
    /// No entries.
    pub fn new(alloc: Global) -> PagedList
        ensures { result.pages ≡ [] }
    {
        PagedList {
            pages: Vec::new(alloc),
        }
    }

    /// How many pages there are.
    pub fn pages(&self) -> usize
        ensures count { result ≡ length self.now.pages }
        ensures sizes { ArePages self.now.pages }
    {
        self.pages.len()
    }

    /// The entries of a page.
    pub fn page(&self, n: usize) -> &[usize]
        requires { n < length self.now.pages }
        ensures { result.now ≡ get_or self.now.pages n [] }
    {
        let page = &self.pages[n];
        page.as_slice()
    }

    /// The entries of a page, as a walk.
    pub fn page_entries(&self, n: usize) -> Entries<'_>
        requires { n < length self.now.pages }
        ensures { result ≡ get_or self.now.pages n [] }
    {
        let page = &self.pages[n];
        Entries::of(page.as_slice())
    }

    /// All entries in order.
    pub fn entries(&self) -> Entries<'_>
        ensures { result ≡ flat self.now.pages }
    {
        Entries::new(self.pages.as_slice())
    }

    /// The entries from one place to another: none, where the other doesn't come after the first.
    pub fn entries_between(&self, from: PagePlace, to: PagePlace) -> Entries<'_>
        requires from { IsGap self.now.pages from.page from.at }
        requires to { IsGap self.now.pages to.page to.at }
        ensures { result ≡ between (place_in self.now.pages from.page from.at) (place_in self.now.pages to.page to.at) (flat self.now.pages) }
    {
        Entries::between(self.pages.as_slice(), from, to)
    }

    /// The place after the entries that pass the test, in the page where they end. The entries must stand so that those that
    /// pass come first; few of them are tested, by halves.
    pub fn place<T: Test>(&self, test: &T) -> PagePlace
        requires { FailsOn (T.on test.now) (flat self.now.pages) }
        ensures gap { IsGap self.now.pages result.page result.at }
        ensures page { result.page ≡ last_page (T.on test.now) self.now.pages }
        ensures place { place_in self.now.pages result.page result.at ≡ prefix_len (T.on test.now) (flat self.now.pages) }
    {
        place_among(self.pages.as_slice(), test)
    }

    /// The entry after a place, and where it is.
    pub fn entry_at(&self, place: PagePlace) -> Option<(PagePlace, usize)>
        requires { IsGap self.now.pages place.page place.at }
        ensures { MatchOption result (length (flat self.now.pages) ≤ place_in self.now.pages place.page place.at)
            (λ found. StandsAt self.now.pages (place_in self.now.pages place.page place.at) found.0.page found.0.at found.1) }
    {
        entry_in(self.pages.as_slice(), place)
    }

    /// The entry after the one at a place, and where it is.
    pub fn entry_after(&self, place: PagePlace) -> Option<(PagePlace, usize)>
        requires page { place.page < length self.now.pages }
        requires at { place.at < length (get_or self.now.pages place.page []) }
        ensures { MatchOption result (length (flat self.now.pages) ≤ place_in self.now.pages place.page place.at + 1)
            (λ found. StandsAt self.now.pages (place_in self.now.pages place.page place.at + 1) found.0.page found.0.at found.1) }
    {
        entry_behind(self.pages.as_slice(), place)
    }

    /// Makes room for `total` entries in all, however they come to lie in pages.
    pub fn reserve(&mut self, total: usize) -> Result<(), AllocError>
        ensures pages { self.new.pages ≡ self.old.pages }
        ensures ok { OnOk result (total ≤ length (flat self.new.pages) + self.new.spare) }
        ensures spare { self.old.spare ≤ self.new.spare }
    {
        let pages = total / 16 + 1;
        self.pages.reserve(pages.saturating_sub(self.pages.len()))
    }

    /// Puts an entry at a place, in a page that becomes two where it has 64 entries.
    pub fn insert(&mut self, place: PagePlace, entry: usize)
        requires room { 0 < self.old.spare }
        requires place { IsGap self.old.pages place.page place.at }
        ensures entries { flat self.new.pages ≡ insert (flat self.old.pages) (place_in self.old.pages place.page place.at) entry }
        ensures pages { length self.new.pages ≡ length self.old.pages + pages_made self.old.pages place.page }
        ensures spare { self.new.spare + 1 ≡ self.old.spare }
    {
        if place.page < self.pages.len() {
            insert_in(&mut self.pages, place, entry);
        } else {
            self.pages.push_reserved(Page::of_one(entry));
        }
    }

    /// Takes the entry at a place out; a page that is left thin becomes one with its neighbour.
    pub fn remove(&mut self, place: PagePlace) -> usize
        requires page { place.page < length self.old.pages }
        requires at { place.at < length (get_or self.old.pages place.page []) }
        ensures entry { result ≡ slice_index_or (flat self.old.pages) (place_in self.old.pages place.page place.at) result }
        ensures entries { flat self.new.pages ≡ remove (flat self.old.pages) (place_in self.old.pages place.page place.at) }
        ensures spare { self.new.spare ≡ self.old.spare + 1 }
    {
        remove_in(&mut self.pages, place)
    }
}
