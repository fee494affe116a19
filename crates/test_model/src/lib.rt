//! What statements say, in plain slow code over lists: no server, no locks, no sessions, and no table but rows in a list. What
//! a statement is to do, by its table's schema alone, is asked of `server_prepare`; all that reads or changes a row is done
//! here once more.
#![tactic(auto)]

mod execution;
mod keys;
mod met_rows;
mod plain;
mod results;
mod rows;
mod selection;
mod updates;

pub use execution::statement_result;
pub use plain::{PlainTable, PlainTables, find_table, is_named, plain_tables};
pub use rows::change_rows;
