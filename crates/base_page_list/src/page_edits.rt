//! Pages made two, and two made one.

ghost use Rattle.std.specs.Prelude.{◌≡◌, ◌<◌, ◌≤◌, ◌+◌, [], length, get_or, set, insert, remove, slice_index_or, vec_len, vec_capacity};
ghost use Rattle.base_page_list.specs.Pages.{flat, joined, parted, place_in, pages_made, ArePages};

use crate::list::PagePlace;
use crate::page::Page;

/// Makes a page two, if it has more than 64 entries.
fn part(pages: &mut Vec<Page>, n: usize)
    requires within { n < length pages.old.items }
    requires room { 64 < length (get_or pages.old.items n []) → vec_len pages.old < vec_capacity pages.old }
    ensures items { pages.new.items ≡ parted n pages.old.items }
    ensures capacity { vec_capacity pages.new ≡ vec_capacity pages.old }
{
    let page = &mut pages[n];
    if page.len() > 64 {
        let following = page.split();
        match pages.insert(n + 1, following) {
            Ok(()) => {}
            Err(_) => unreachable!(),
        }
    }
}

/// Makes a page and the next one, if they have together at most 32 entries.
fn join(pages: &mut Vec<Page>, n: usize)
    requires { n < length pages.old.items }
    ensures items { pages.new.items ≡ joined n pages.old.items }
    ensures capacity { vec_capacity pages.new ≡ vec_capacity pages.old }
{
    if n + 1 >= pages.len() {
        return;
    }
    let together = pages[n].len() + pages[n + 1].len();
    if together <= 32 {
        let next = pages.remove(n + 1);
        let page = &mut pages[n];
        page.append(&next);
    }
}

/// Puts an entry into a page.
fn put(pages: &mut Vec<Page>, place: PagePlace, entry: usize)
    requires within { place.page < length pages.old.items }
    requires at { place.at ≤ length (get_or pages.old.items place.page []) }
    requires room { length (get_or pages.old.items place.page []) ≤ 64 }
    ensures items { pages.new.items ≡ set pages.old.items place.page (insert (get_or pages.old.items place.page []) place.at entry) }
    ensures capacity { vec_capacity pages.new ≡ vec_capacity pages.old }
{
    let page = &mut pages[place.page];
    page.insert(place.at, entry);
}

/// Takes an entry out of a page.
fn take(pages: &mut Vec<Page>, place: PagePlace) -> usize
    requires within { place.page < length pages.old.items }
    requires at { place.at < length (get_or pages.old.items place.page []) }
    ensures entry { result ≡ slice_index_or (get_or pages.old.items place.page []) place.at result }
    ensures items { pages.new.items ≡ set pages.old.items place.page (remove (get_or pages.old.items place.page []) place.at) }
    ensures capacity { vec_capacity pages.new ≡ vec_capacity pages.old }
{
    let page = &mut pages[place.page];
    page.remove(place.at)
}

/// Puts an entry into a page, which becomes two if it is full.
pub fn insert_in(pages: &mut Vec<Page>, place: PagePlace, entry: usize)
    requires are { ArePages pages.old.items }
    requires within { place.page < length pages.old.items }
    requires at { place.at ≤ length (get_or pages.old.items place.page []) }
    requires room { 63 < length (get_or pages.old.items place.page []) → vec_len pages.old < vec_capacity pages.old }
    ensures are { ArePages pages.new.items }
    ensures entries { flat pages.new.items ≡ insert (flat pages.old.items) (place_in pages.old.items place.page place.at) entry }
    ensures pages { length pages.new.items ≡ length pages.old.items + pages_made pages.old.items place.page }
    ensures capacity { vec_capacity pages.new ≡ vec_capacity pages.old }
{
    put(pages, place, entry);
    part(pages, place.page);
}

/// Takes an entry out of a page, which joins a neighbour if they become small.
pub fn remove_in(pages: &mut Vec<Page>, place: PagePlace) -> usize
    requires are { ArePages pages.old.items }
    requires within { place.page < length pages.old.items }
    requires at { place.at < length (get_or pages.old.items place.page []) }
    ensures are { ArePages pages.new.items }
    ensures entry { result ≡ slice_index_or (flat pages.old.items) (place_in pages.old.items place.page place.at) result }
    ensures entries { flat pages.new.items ≡ remove (flat pages.old.items) (place_in pages.old.items place.page place.at) }
    ensures capacity { vec_capacity pages.new ≡ vec_capacity pages.old }
{
    let entry = take(pages, place);
    if pages[place.page].len() == 0 {
        pages.remove(place.page);
        return entry;
    }
    join(pages, place.page);
    if place.page > 0 {
        join(pages, place.page - 1);
    }
    entry
}
