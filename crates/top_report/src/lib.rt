//! The report of a run: how it ended and why, what each client got, the tables that are left, the history and the turns. In
//! `client_lines` what it says of clients. A trace has some of its parts too.
#![tactic(auto)]

pub mod client_lines;
mod tables;
mod turns;
mod verdict;
mod whole;

pub use tables::push_tables_left;
pub use turns::push_actor;
pub use verdict::push_verdict;
pub use whole::report;
