//! The text of a schema.
#![tactic(auto)]

mod printer;

pub use printer::print_schema;
