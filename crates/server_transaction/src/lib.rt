//! A session's transaction: what it wrote, the tables as it sees them, how a statement is prepared and executed on them, and its
//! commit. In `row_copies` the copy of a row from one table into another, in `laws` what holds of all that sessions say.
#![tactic(auto)]

mod application;
mod commits;
mod events;
mod execution;
pub mod laws;
mod prepared;
mod ready_changes;
mod room;
pub mod row_copies;
mod seen_tables;
mod tables;
mod txn;
mod writes;

pub use commits::commit;
pub use execution::{execute, find_work, prepare, table_of, with_locks};
pub use prepared::{Prepared, ReadyResult};
pub use txn::Txn;
pub use writes::Writes;
