//! The tables of a plan, with their rows, as they are read from texts.

mod fault;
mod row_text;
mod rows;
mod tables;

pub use fault::{TableFault, TableRefusal};
pub use tables::read_tables;
