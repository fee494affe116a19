//! What is printed of a plan that is checked.

ghost use Rattle.std.specs.Prelude.{IfSome, IfOk};
ghost use Rattle.top_endings.specs.Checks.{Alters, IsSchemaText, IsSchema};

use crate::printed::Printed;
use crate::status::Status;
use base_values::Text;
use base_values::gho_schema::Schema;
use plan_data::Plan;
use sql_show::print_schema;
use std::alloc::{AllocError, Global};

/// The schema that a plan's ALTER leaves.
fn altered_schema(plan: &Plan) -> &Schema
    ensures { Alters plan.now result.now }
{
    &plan.altered().schema
}

/// The text of the schema that a plan's ALTER leaves.
fn schema_text(alloc: Global, plan: &Plan) -> Result<Text, AllocError>
    ensures { IfOk result (λ text. IsSchemaText plan.now text) }
{
    let mut text = Text::new(alloc);
    print_schema(altered_schema(plan), &mut text)?;
    Ok(text)
}

/// What comes of the check of a plan.
pub fn plan_checked(alloc: Global, plan: &Plan) -> Option<Printed>
    ensures { IfSome result (IsSchema plan.now) }
{
    match schema_text(alloc, plan) {
        Ok(text) => Some(Printed {
            status: Status::Done,
            text,
        }),
        Err(_) => None,
    }
}
