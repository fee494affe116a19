//! What a transaction wrote to a table, laid over the table's committed rows.
#![tactic(auto)]

mod gathered_parts;
mod keys;
pub mod laws;
mod merge;
mod met_rows;
mod seen;
mod span_rows;
mod written;

pub use seen::SeenTable;
pub use written::{KeyedRow, WrittenRows, keyed_row};
