//! A table whose rows are in pages: a look-up, a put and a removal look at few of them.

mod by_key;
mod clashes;
mod comparison;
mod copies;
mod indexes;
mod places;
mod row_key;
mod span_rows;
mod spans;
mod table;

pub use span_rows::SpanRows;
pub use table::Table;
