//! A plan that is read, with what the laws over journals ask of it.

ghost use Rattle.std.specs.Prelude.{◌≡◌, Some, IfOk};
ghost use Rattle.plan_reader.specs.Plans.{read};
ghost use Rattle.base_values.specs.Faults.{Answers};
ghost use Rattle.proof_plans.specs.ReadPlans.Laws.{WasRead};

use plan_data::Plan;
use plan_reader::{PlanFault, read_plan};
use std::alloc::Global;

/// The plan that these bytes are: so the laws over journals speak of it.
pub fn read_accepted_plan(alloc: Global, bytes: &[u8]) -> Result<Plan, PlanFault>
    ensures plan { Answers (λ plan. plan) result (read bytes.now) }
    ensures was_read { IfOk result WasRead }
{
    let plan = read_plan(alloc, bytes)?;
    // For the prover: that the name is read as a `str` says that it is UTF-8.
    let _name = plan.table().as_str();
    Ok(plan)
}
