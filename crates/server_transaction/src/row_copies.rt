//! A session copies a row, converted, from one table into another.

mod columns;
mod row_copy;
mod work;

pub use row_copy::RowCopy;
pub use work::prepare_copy;
