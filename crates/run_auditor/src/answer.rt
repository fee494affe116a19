//! The answer of an audit.

ghost use Rattle.std.specs.Prelude.{◌≡◌, true, IfOk};
ghost use Rattle.std.specs.List.{AllByRecursion};
ghost use Rattle.server_model.specs.LockedRows.Coverage.{IsWellFormedTable};
ghost use Rattle.run_audit.specs.Audits.{audited};
ghost use Rattle.run_auditor.specs.Judging.{AltersTables};
ghost use Rattle.run_auditor.specs.AllClients.{is_of_plan};

use crate::auditing::Auditing;
use crate::printed_tables::first_other;
use crate::verdict::verdict_holds;
use plan_data::Plan;
use run_audit::{Audit, Trace};
use std::alloc::{AllocError, Global};

/// The first rule that the trace breaks, if it breaks one: the least turn, else the first table, else the verdict. The plan's tables
/// have clustered keys, its ALTER makes tables of them, and the trace has turns of its actors alone.
#[tactic(auto, unfolding(run_audit::specs::Audits::audited))]
pub fn audit(alloc: Global, plan: &Plan, trace: &Trace) -> Result<Audit, AllocError>
    requires known { AllByRecursion (λ line. is_of_plan plan.now line.actor ≡ true) trace.now.lines }
    requires tables { AllByRecursion IsWellFormedTable plan.now.tables }
    requires alters { AltersTables plan.now }
    ensures { IfOk result (λ answer. answer ≡ audited plan.now trace.now) }
{
    let mut auditing = Auditing::new(alloc, plan)?;
    if let Some(turn) = auditing.least_bad_turn(alloc, plan, trace)? {
        return Ok(Audit::Line(turn));
    }
    if let Some(name) = first_other(alloc, trace.tables.as_slice(), auditing.judge.tables())? {
        return Ok(Audit::Table(name));
    }
    let has_altered = auditing.seen.has_altered;
    if verdict_holds(plan, trace.lines.as_slice(), has_altered, &trace.verdict) {
        Ok(Audit::Yes)
    } else {
        Ok(Audit::Verdict)
    }
}
