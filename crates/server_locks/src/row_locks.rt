//! Locks on spans of a key's values: who holds which, and who refuses whom.

mod conflicts;
pub mod laws;
mod lock;
mod lock_table;
mod refusals;

pub use lock::{HeldLock, Lock, LockAnswer, LockSet};
pub use lock_table::RowLocks;
pub use lock_table::held_spans::HeldSpans;
