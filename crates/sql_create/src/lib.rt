//! The text of CREATE TABLE: the schema that it declares, or why it is refused.
#![tactic(auto)]

mod auto_column;
mod columns;
mod declarations;
mod keys;
mod options;
mod parts;
mod reader;
mod table;
mod written;

pub use reader::read_schema;
pub use sql_grammar::{SchemaCode, SchemaFault};
