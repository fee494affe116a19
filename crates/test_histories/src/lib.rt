//! What transactions do alone, and what a history does one after the other, in plain slow code over lists: no server, no locks
//! and no sessions. What a statement says is asked of `test_model`. In `journal_pasts` the transactions that a journal ended,
//! in their order.
#![tactic(auto)]

mod alters;
mod changes;
mod histories;
pub mod journal_pasts;
pub mod laws;
mod leftovers;
mod lines;
mod marks;
mod replies;
mod runs;

pub use histories::{HistoryStep, InOrder, run_in_order};
pub use leftovers::tables_left;
pub use runs::{ReferenceTxn, alone};
