//! Rows as answers print them.

use crate::reader::say;
use base_values::{Row, Text, print_row};
use std::alloc::AllocError;

/// Says a row, or that there is none.
pub fn say_row(output: &mut Text, row: Option<&Row>) -> Result<(), AllocError> {
    match row {
        Some(row) => {
            say(output, "")?;
            print_row(row.as_slice(), output)
        }
        None => say(output, "none"),
    }
}
