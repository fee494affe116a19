//! A plan's opening tables on a server.

ghost use Rattle.std.specs.Prelude.{◌≡◌, [], ◌∷◌, IfOk};
ghost use Rattle.std.specs.List.{AllByRecursion};
ghost use Rattle.std.specs.Str.{IsUtf8};
ghost use Rattle.table_store.specs.Databases.{database};
ghost use Rattle.tool_program.specs.JournalWords.Journals.{opening};
ghost use Rattle.base_values.specs.ToolNames.{log_name};
ghost use Rattle.proof_plans.specs.ReadPlans.Laws.{WasRead};

use base_values::{Duplicate, Names, Sequence};
use law_journals::plans::{read_options_allow, read_plans_are_serial};
use plan_data::Plan;
use server::{Server, open_server};
use server_model::Limits;
use std::alloc::{AllocError, Global};
use table_store::paged_tables::Tables;

/// How often a wait is polled before it times out, as the plan says.
fn limits_of(plan: &Plan) -> Limits
    ensures { result ≡ record { client_wait = plan.now.options.client_wait; tool_wait = plan.now.options.tool_wait } }
{
    let options = plan.options();
    Limits {
        client_wait: options.client_wait,
        tool_wait: options.tool_wait,
    }
}

/// The tables whose events the applier reads.
fn watched_in(alloc: Global, plan: &Plan) -> Result<Names, AllocError>
    ensures { IfOk result (λ watched. watched ≡ plan.now.table ∷ log_name plan.now.table ∷ []) }
{
    let table = plan.migrated();
    Ok(Sequence::from_vec(vec![in alloc; table.name().copy()?, table.log_name().copy()?]?))
}

/// Reads the tables' names: that each is a `str` says to the prover that it is UTF-8, and so has at most four bytes a character.
fn read_names(tables: &Tables)
    ensures { AllByRecursion (λ table. IsUtf8 table.schema.name) (database tables.now) }
{
    for n in 0..tables.len() {
        let _name = tables.at(n).schema().name.as_str();
    }
}

/// The final server at the plan's opening.
#[tactic(auto, using(crate::proofs::WholeReplays::AtOpening::well_formed, crate::proofs::WholeReplays::AtOpening::at_opening))]
pub fn open_plan(alloc: Global, plan: &Plan) -> Result<Server, AllocError>
    requires { WasRead plan.now }
    ensures { IfOk result (λ server. server.state ≡ opening plan.now) }
{
    read_plans_are_serial();
    read_options_allow();
    let watched = watched_in(alloc, plan)?;
    let tables = plan.tables().copy_tables(alloc)?;
    read_names(&tables);
    open_server(alloc, tables, limits_of(plan), watched)
}
