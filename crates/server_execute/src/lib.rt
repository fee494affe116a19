//! What a statement says of its table, as a transaction sees it, and what it writes there. In `statement_work` the locks that
//! it needs.
#![tactic(auto)]

mod change_lists;
mod columns;
mod found_work;
pub mod laws;
mod results;
mod selection;
mod settings;
pub mod statement_work;
mod updates;

pub use change_lists::{Changes, ReadyResult};
pub use found_work::{FoundWork, find};
pub use results::tells;
