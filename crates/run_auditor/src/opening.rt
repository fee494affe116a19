//! The tables on which a trace begins.

ghost use Rattle.std.specs.Prelude.{◌≡◌, ◌++◌, ◌∷◌, [], IfOk, OnOk};
ghost use Rattle.std.specs.List.{AllByRecursion};
ghost use Rattle.server_model.specs.LockedRows.Coverage.{IsWellFormedTable};
ghost use Rattle.server_model.specs.LockedRows.Databases.{IsWellFormedDatabase};
ghost use Rattle.table_store.specs.Databases.{database};
ghost use Rattle.run_auditor.specs.Judging.{IsPlanned};
ghost use Rattle.run_audit.specs.Audits.{opening_tables};

use base_values::tool_names::is_tool_name;
use plan_data::Plan;
use std::alloc::{AllocError, Global};
use table_store::AddFault;
use table_store::paged_tables::Tables;
use table_store::paged_tables::row_pages::Table;

/// Adds a table after the others, none of which has its name.
pub fn add_other(tables: &mut Tables, table: Table) -> Result<(), AllocError>
    ensures { OnOk result (database tables.new ≡ database tables.old ++ table.table ∷ []) }
{
    match tables.add(table) {
        Ok(()) => Ok(()),
        Err(AddFault::Exists | AddFault::Memory) => Err(AllocError),
    }
}

/// The plan's tables but the leftovers, as they are, in the plan's order.
pub fn opening_tables(alloc: Global, plan: &Plan) -> Result<Tables, AllocError>
    ensures tables { IfOk result (λ tables. database tables ≡ opening_tables plan.now) }
    ensures formed { AllByRecursion IsWellFormedTable plan.now.tables → IfOk result (λ tables. IsWellFormedDatabase (database tables)) }
    ensures planned { IfOk result (λ tables. IsPlanned plan.now (database tables)) }
{
    let opening = plan.tables();
    let mut tables = Tables::new(alloc);
    for place in 0..opening.len() {
        let table = opening.at(place);
        if !is_tool_name(plan.table().as_str(), table.schema().name.as_str()) {
            add_other(&mut tables, table.copy_table(alloc)?)?;
        }
    }
    Ok(tables)
}
