//! A list of numbers in pages: a put or a removal moves few entries, and takes no memory once room is made.
#![tactic(auto)]

mod entries;
mod list;
mod page;
mod page_edits;

pub use entries::Entries;
pub use list::{PagePlace, PagedList, Test};
