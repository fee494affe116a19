//! The value that a statement gives the AUTO_INCREMENT column of its table.

ghost use Rattle.std.specs.Prelude.{◌≡◌, option_copied, IfOk};
ghost use Rattle.base_values.specs.GhoSchema.AutoIncrement.{auto_place};
ghost use Rattle.server_model.specs.Checks.{work_of};
ghost use Rattle.server_model.specs.Counting.{gives, gives_in};
ghost use Rattle.server_model.specs.Drawing.{numbered};
ghost use Rattle.server_model.specs.States.{after_value};

use crate::drawn_rows::drawn_row;
use crate::work::{insert_work, replace_work, work_of};
use base_script::Statement;
use base_values::Value;
use base_values::gho_schema::Schema;
use server_model::{Work, after_value, auto_place};
use std::alloc::{AllocError, Global};

/// The value that the work gives the column of this place.
fn given(place: usize, work: &Work) -> Option<&Value>
    ensures { option_copied result ≡ gives place work.now }
{
    match work {
        Work::Insert(row) | Work::Replace(row) => row.as_slice().get(place),
        Work::Update { sets: Ok(sets), .. } => match sets.as_slice().get(place) {
            Some(Some(value)) => Some(value),
            _ => None,
        },
        _ => None,
    }
}

/// The work of a statement that drew this number.
#[tactic(auto, unfolding(server_model::specs::Checks::work_of))]
fn numbered_work(
    alloc: Global,
    schema: &Schema,
    statement: &Statement,
    drawn: Option<u64>,
) -> Result<Work, AllocError>
    ensures { IfOk result (λ work. work ≡ work_of schema.now (numbered drawn statement.now)) }
{
    match (statement, drawn) {
        (
            Statement::Insert {
                columns,
                values,
                ..
            },
            Some(_),
        ) => {
            let row = drawn_row(alloc, schema, columns, values.as_slice(), drawn)?;
            Ok(insert_work(row))
        }
        (
            Statement::Replace {
                columns,
                values,
                ..
            },
            Some(_),
        ) => {
            let row = drawn_row(alloc, schema, columns, values.as_slice(), drawn)?;
            Ok(replace_work(row))
        }
        _ => work_of(alloc, schema, statement),
    }
}

/// One more than the value that the statement, with the number which it drew, gives the AUTO_INCREMENT column of a table of this
/// schema; 0 where it gives none.
pub fn after_given(
    alloc: Global,
    schema: &Schema,
    statement: &Statement,
    drawn: Option<u64>,
) -> Result<u64, AllocError>
    ensures { IfOk result (λ next. next ≡ after_value (gives_in schema.now (auto_place schema.now) (numbered drawn statement.now))) }
{
    let Some(place) = auto_place(schema) else {
        return Ok(0);
    };
    let work = numbered_work(alloc, schema, statement, drawn)?;
    Ok(after_value(given(place, &work)))
}
