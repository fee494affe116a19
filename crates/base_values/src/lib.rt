//! The values of MySQL's columns, and the lists, names and texts that every layer above is made of. In its modules: schemas
//! (`gho_schema`), the clauses of ALTER TABLE and what they leave of a row (`row_conversion`), what is asked of names, keys,
//! defaults and whole schemas (`schema_rules`), the names of the tool's tables (`tool_names`), and MySQL's errors
//! (`mysql_errors`).
#![tactic(auto)]

mod compact_text;
mod comparison;
mod duplicate;
mod event;
mod fault;
pub mod gho_schema;
mod kind;
pub mod laws;
pub mod mysql_errors;
mod name;
mod printer;
pub mod row_conversion;
pub mod schema_rules;
mod sequence;
mod shared;
mod span;
mod storage;
mod text;
pub mod tool_names;
mod unfit;
mod value;

pub use compact_text::CompactText;
pub use comparison::compare;
pub use duplicate::Duplicate;
pub use event::{Change, Events, RowEvent};
pub use fault::{Fault, because};
pub use kind::Kind;
pub use name::{Name, Names};
pub use printer::{print_row, print_value};
pub use sequence::{Sequence, copy_of};
pub use shared::Shared;
pub use span::{Bound, Span};
pub use storage::{character_count, number_of, seek, store};
pub use text::{Chars, Text};
pub use unfit::{StoreFault, Unfit};
pub use value::{Bytes, Key, Keys, Row, Rows, Value, Values};
