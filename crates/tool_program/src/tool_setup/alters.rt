//! What a plan's ALTER makes of its table, for the tool.

ghost use Rattle.std.specs.Prelude.{◌≡◌, IfOk};
ghost use Rattle.plan_data.specs.PlanData.{has_counter, new_schema, new_map};
ghost use Rattle.base_values.specs.ToolNames.{ghost_name};

use base_values::Duplicate;
use base_values::gho_schema::Schema;
use base_values::row_conversion::ColumnMap;
use plan_data::Plan;
use server_model::auto_place;
use std::alloc::{AllocError, Global};

/// Where the values of the new columns come from.
#[tactic(auto, using(crate::proofs::ToolSetup::Altered::map_is))]
pub fn new_map(plan: &Plan) -> &ColumnMap
    ensures { result.now ≡ new_map plan.now }
{
    &plan.altered().map
}

/// Whether the migrated table has an AUTO_INCREMENT column.
pub fn has_counter(plan: &Plan) -> bool
    ensures { result ≡ has_counter plan.now }
{
    match plan.tables().find(plan.table()) {
        Some(table) => auto_place(table.schema()).is_some(),
        None => false,
    }
}

/// The schema of the new table, under the name that it has until it takes the migrated table's.
#[tactic(auto, using(crate::proofs::ToolSetup::Altered::schema_is))]
pub fn new_table(alloc: Global, plan: &Plan) -> Result<Schema, AllocError>
    ensures { IfOk result (λ schema. schema ≡ record (new_schema plan.now) { name = ghost_name plan.now.table }) }
{
    let altered = &plan.altered().schema;
    Ok(Schema {
        name: plan.migrated().ghost_name().copy()?,
        columns: altered.columns.copy()?,
        uniques: altered.uniques.copy()?,
        indexes: altered.indexes.copy()?,
        comment: altered.comment.copy()?,
        start: altered.start,
    })
}
