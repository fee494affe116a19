//! What comes before the copy, and the operator: the setup's steps, and what the operator's commands have done.

mod alters;
mod operator;
mod setup;

pub use alters::{has_counter, new_map, new_table};
pub use operator::Operator;
pub use setup::{Setup, SetupTook};
