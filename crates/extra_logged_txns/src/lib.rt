//! A session's transaction with the events beside it that its commit gives: what they cost in the log, and how many rows they put.
#![tactic(auto)]

mod logged;
mod put_rows;

pub use logged::LoggedTxn;
pub use put_rows::puts;
