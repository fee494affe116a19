//! One row to copy, as a request names it.

use base_values::row_conversion::ColumnMap;
use base_values::{Key, Name};

/// The copy of one row from one table into another, with what it borrows of the request that asks for it.
#[derive(Clone, Copy)]
pub struct RowCopy<'a> {
    /// The table with the row.
    pub from: &'a Name,
    /// The table that gets the converted row.
    pub into: &'a Name,
    /// Where the converted row's values come from.
    pub map: &'a ColumnMap,
    /// The row's clustered key in the table that has it.
    pub key: &'a Key,
}
