//! The cut-over: the attempts to exchange two tables by one RENAME, and what is cleared up after them.

mod answers;
mod calls;
mod cutover;
mod listing;
mod stages;

pub use calls::{CutOverCall, exchange};
pub use cutover::{Clearing, CutOver, Drain, Hold, Leftovers, Phase, Role, Stage};
pub use listing::{lists_log, lists_new_table, lists_old_table};
pub use stages::is_bad;
