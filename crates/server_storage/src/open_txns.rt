//! The open transactions of sessions: which session's each is, and how many rows their commits may put.

mod growth;
mod txns;

pub use growth::{open_txn, reserve_in, write_in};
pub use txns::{OpenTxn, events_of, events_open, is_open, place_of, take_txn, txn_of};
