//! ADD COLUMN.

ghost use Rattle.std.specs.Prelude.{◌≡◌};
ghost use Rattle.base_values.specs.SchemaRules.Reasons.{first_reason};
ghost use Rattle.sql_change.specs.ClauseResults.{add_reasons, added};
ghost use Rattle.base_values.specs.Faults.{Answers};
ghost use Rattle.sql_change.specs.AlteredSoFar.{Stands};

use crate::code::{AlterCode, AlterFault};
use crate::columns::{column_of, column_position_place, fitting, has_column, is_column_position};
use crate::so_far::AlteredSoFar;
use base_values::gho_schema::Column;
use base_values::row_conversion::{ColumnPosition, NewColumn};
use base_values::schema_rules::is_column_name;
use std::alloc::Global;

const COLUMN_LIMIT: usize = 64;

fn add_reason(
    columns: &[Column],
    written: &NewColumn,
    column_position: &ColumnPosition,
) -> Option<AlterCode>
    ensures { result ≡ first_reason (add_reasons columns.now written.now column_position.now) }
{
    if !is_column_position(columns, column_position) {
        Some(AlterCode::UnknownName)
    } else if has_column(columns, &written.name) {
        Some(AlterCode::RepeatedName)
    } else if columns.len() >= COLUMN_LIMIT
        || !is_column_name(written.name.as_str())
        || written.auto
    {
        Some(AlterCode::Scope)
    } else {
        None
    }
}

/// The table with a column more.
#[tactic(auto, unfolding(crate::specs::ClauseResults::added))]
pub fn added(
    alloc: Global,
    standing: &AlteredSoFar,
    written: &NewColumn,
    column_position: &ColumnPosition,
) -> Result<AlteredSoFar, AlterFault>
    requires { Stands standing.now }
    ensures { Answers (λ standing. standing) result (added standing.now written.now column_position.now) }
{
    let columns = standing.schema.columns.as_slice();
    match add_reason(columns, written, column_position) {
        Some(code) => Err(AlterFault::Refused(code)),
        None => {
            let nullable = written.nullable.unwrap_or(true);
            let column = column_of(alloc, None, written, nullable)?;
            let place = column_position_place(columns, column_position, columns.len());
            fitting(standing.put_in(alloc, place, column)?)
        }
    }
}
