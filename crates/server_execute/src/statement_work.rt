//! The row locks that a statement's work needs, of a table as a transaction sees it.

mod locks;
mod need_lists;

pub use need_lists::needs;
