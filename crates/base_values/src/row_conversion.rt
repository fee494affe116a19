//! The clauses of ALTER TABLE, and what they make of a table's rows.

mod clause;
mod conversion;
mod conversion_fault;
mod map;

pub use clause::{Clause, Clauses, ColumnPosition, NewColumn};
pub use conversion::{converted_row, source};
pub use conversion_fault::{ConversionFault, UnfitAt};
pub use map::{ColumnMap, MapColumn, Origin};
