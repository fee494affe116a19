//! The counter of a table with an AUTO_INCREMENT column.

ghost use Rattle.std.specs.Prelude.{◌≡◌, max, unwrap_or, option_copied};
ghost use Rattle.base_values.specs.GhoSchema.AutoIncrement.{auto_place};
ghost use Rattle.server_model.specs.States.{after_number, after_value};

use base_values::gho_schema::Schema;
use base_values::{Name, Value};
use std::cmp::max;

/// Which number a table's AUTO_INCREMENT column gets next.
#[derive(Drop)]
pub struct Counter {
    /// The table's name.
    pub table: Name,
    /// The number that is drawn next.
    pub next: u64,
}

/// The place of a schema's AUTO_INCREMENT column, where there is one.
pub fn auto_place(schema: &Schema) -> Option<usize>
    ensures { result ≡ auto_place schema.now }
{
    schema
        .columns
        .as_slice()
        .iter()
        .position(|column| column.auto)
}

/// The number at which the counter of a table without rows starts.
pub fn first_number(schema: &Schema) -> u64
    ensures { result ≡ max 1 (unwrap_or schema.now.start 1) }
{
    max(1, schema.start.unwrap_or(1))
}

/// One more than a number; the greatest number of 64 bits stands still.
pub fn after_number(number: u64) -> u64
    ensures { result ≡ after_number number }
{
    number.saturating_add(1)
}

/// One more than a value of the column; 0 where it is no number, or below 0.
pub fn after_value(value: Option<&Value>) -> u64
    ensures { result ≡ after_value (option_copied value.entry) }
{
    match value {
        Some(Value::Num(number)) if *number >= 0 => {
            if *number >= u64::MAX as i128 {
                u64::MAX
            } else {
                after_number(*number as u64)
            }
        }
        _ => 0,
    }
}
