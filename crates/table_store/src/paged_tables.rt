//! The database of the program: tables in pages, kept by name, by contracts over a plain list. One such table is
//! in the module `row_pages`.

mod additions;
mod copies;
mod lookup;
mod renames;
pub mod row_pages;
mod tables;

pub use tables::Tables;
