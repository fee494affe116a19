//! A statement with the number that it draws for an AUTO_INCREMENT column.

ghost use Rattle.std.specs.Prelude.{◌≡◌, Some, IfOk};
ghost use Rattle.server_model.specs.Drawing.{numbered};

use base_script::Statement;
use base_values::Duplicate;
use std::alloc::AllocError;

/// The statement with the number that it draws.
pub fn numbered(statement: &Statement, number: u64) -> Result<Statement, AllocError>
    ensures { IfOk result (λ full. full ≡ numbered (Some number) statement.now) }
{
    match statement {
        Statement::Insert {
            table,
            columns,
            values,
            drawn: _,
        } => Ok(Statement::Insert {
            table: table.copy()?,
            columns: columns.copy()?,
            values: values.copy()?,
            drawn: Some(number),
        }),
        Statement::Replace {
            table,
            columns,
            values,
            drawn: _,
        } => Ok(Statement::Replace {
            table: table.copy()?,
            columns: columns.copy()?,
            values: values.copy()?,
            drawn: Some(number),
        }),
        other => other.copy(),
    }
}
