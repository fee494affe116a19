//! A server's storage: the committed tables, and the open transactions over them. In `open_txns` those of all sessions, in
//! `kept_txns` the laws of what stays so of them and of the tables.
#![tactic(auto)]

mod definitions;
mod ending;
pub mod kept_txns;
mod lookup;
mod making_room;
pub mod open_txns;
mod preparation;
mod storage;

pub use storage::Storage;
