//! The text of ALTER TABLE: its clauses, or why it is refused before any table is looked at.
#![tactic(auto)]

mod additions;
mod clauses;
mod column;
mod pieces;
mod reader;
mod removal;

pub use reader::read_alter;
pub use sql_change::{AlterCode, AlterFault};
