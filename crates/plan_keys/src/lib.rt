//! The keys of a plan's document: which there are, of which type, and in which ranges.
#![tactic(auto)]

mod documents;
mod fault;
mod keys;
mod known;
mod limits;
mod options;
mod texts;

pub use fault::{KeyFault, KeyRefusal};
pub use keys::{PlanKeys, keys_of};
pub use limits::{FAULT_LIMIT, ROW_LIMIT, TABLE_LIMIT};
pub use texts::{PlanTexts, TableKeys};
