//! A walk over entries.

ghost use Rattle.std.specs.Prelude.{◌≡◌, ◌≤◌, ◌-◌, length, drop, take};
ghost use Rattle.std.specs.Iterator.{YieldsFirstRef, item_count};
ghost use Rattle.base_page_list.specs.Pages.{flat, place_in, between, IsGap};

use crate::list::PagePlace;
use crate::page::Page;
use std::iter::FusedIterator;
use std::marker::Model;

/// Entries in order. Contracts see those that are left.
#[derive(Drop)]
pub struct Entries<'a> {
    first: &'a [usize],
    pages: &'a [Page],
    last: &'a [usize],
}

impl<'a> Model for Entries<'a> {
    ghost use Rattle.std.specs.Prelude.{List, ℕ, ◌++◌};
    ghost use Rattle.base_page_list.specs.Pages.{flat};

    ghost Value = { List ℕ };

    ghost view = { λ e. e.first.now ++ (flat e.pages.now ++ e.last.now) };
}

/// The entries between two places of one page.
fn within<'a>(entries: &'a [usize], from: usize, to: usize) -> &'a [usize]
    requires start { from ≤ length entries.now }
    requires end { to ≤ length entries.now }
    ensures { result.now ≡ take (to - from) (drop from entries.now) }
{
    if from < to { &entries[from..to] } else { &[] }
}

impl<'a> Entries<'a> {
    /// All entries of these pages.
    pub(crate) fn new(pages: &'a [Page]) -> Entries<'a>
        ensures { result ≡ flat pages.now }
    {
        Entries {
            first: &[],
            pages,
            last: &[],
        }
    }

    /// The entries of a slice.
    pub(crate) fn of(entries: &'a [usize]) -> Entries<'a>
        ensures { result ≡ entries.now }
    {
        Entries {
            first: entries,
            pages: &[],
            last: &[],
        }
    }

    /// The entries between two places.
    pub(crate) fn between(pages: &'a [Page], from: PagePlace, to: PagePlace) -> Entries<'a>
        requires from { IsGap pages.now from.page from.at }
        requires to { IsGap pages.now to.page to.at }
        ensures { result ≡ between (place_in pages.now from.page from.at) (place_in pages.now to.page to.at) (flat pages.now) }
    {
        if pages.is_empty() || to.page < from.page {
            return Entries::of(&[]);
        }
        let first = pages[from.page].as_slice();
        if to.page == from.page {
            return Entries::of(within(first, from.at, to.at));
        }
        Entries {
            first: &first[from.at..],
            pages: &pages[from.page + 1..to.page],
            last: &pages[to.page].as_slice()[..to.at],
        }
    }

    /// How many entries are left. It looks at each page.
    pub fn len(&self) -> usize
        ensures { result ≡ length self.now }
    {
        let mut count = self.first.len() + self.last.len();
        for page in self.pages {
            count += page.len();
        }
        count
    }
}

impl<'a> Iterator for Entries<'a> {
    type Item = &'a usize;

    ghost next_gives = { YieldsFirstRef (λ entries. entries) };

    ghost remaining = { item_count (λ entries. entries) };

    fn next(&mut self) -> Option<&'a usize> {
        while self.first.is_empty() && !self.pages.is_empty() {
            let (page, pages) = self.pages.split_first()?;
            self.first = page.as_slice();
            self.pages = pages;
        }
        if self.first.is_empty() {
            self.first = self.last;
            self.last = &[];
        }
        let (entry, others) = self.first.split_first()?;
        self.first = others;
        Some(entry)
    }
}

impl<'a> FusedIterator for Entries<'a> {}
