//! Tables of rows by their clustered keys, and the database that has them: as plain lists, by which contracts are read, and in
//! `paged_tables` with the rows in pages, as the program has them. In `name_map` values by name; in `laws` what holds of all
//! rows, tables and databases.
#![tactic(auto)]

mod add_fault;
mod comparison;
mod key_values;
pub mod laws;
pub mod name_map;
pub mod paged_tables;
mod renames;

pub use add_fault::AddFault;
pub use comparison::has_no_null;
pub use renames::{NotRenamed, Pair, Pairs, RenameFault};
