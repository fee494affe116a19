//! What reports print of tables: their lines, and the names of those that exist.
#![tactic(auto)]

mod names;
mod tables;

pub use names::push_names_line;
pub use tables::{push_row_lines, push_schema_line, push_table_line};
