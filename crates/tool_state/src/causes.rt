//! How the migration ended, and why. Nothing here takes memory.

ghost use Rattle.std.specs.Prelude.{◌≡◌, if◌then◌else◌};
ghost use Rattle.base_values.specs.GhoSchema.Rows.{key_places};
ghost use Rattle.server_model.specs.declared.outcome.Verdict.TheVariants as verdicts;
ghost use Rattle.plan_data.specs.PlanData.{old_schema};
ghost use Rattle.tool_program.specs.Verdicts.{new_column_name, copy_key, apply_key, cause_of, reverted_by};
ghost use Rattle.tool_state.specs.ToolState.Meanings.{reason_of, tool_phase_of, tool_of};
ghost use Rattle.tool_state.specs.Verdicts.{key_meant, cause_meant, verdict_meant};

use crate::tool_state::{Reason, Tool};
use crate::verdict_view::{CauseView, KeyView, VerdictView};
use plan_data::Plan;
use server_model::Entry;
use tool_program::event_applier::name_at;

/// The name of the new column at this place.
#[tactic(auto, using(tool_program::proofs::ToolSetup::Altered::schema_is))]
pub fn new_column_name(plan: &Plan, place: usize) -> &str
    ensures { result.now ≡ new_column_name plan.now place }
{
    name_at(plan.altered().schema.columns.as_slice(), place)
}

/// The places of the migrated table's clustered key.
pub fn old_places(plan: &Plan) -> &[usize]
    ensures { result.now ≡ key_places (old_schema plan.now) }
{
    match plan.tables().find(plan.table()) {
        Some(table) => table.schema().key_places(),
        None => &[],
    }
}

/// The key of the row that the copier had.
fn copy_key<'a>(journal: &'a [Entry], tool: &Tool) -> KeyView<'a>
    ensures { key_meant result ≡ copy_key journal.now (tool_phase_of tool.now) }
{
    match tool.setup {
        Some(_) => KeyView::Values(&[]),
        None => KeyView::Values(tool.work.copier.unfit_key(journal)),
    }
}

/// The key of the row that the applier had.
fn apply_key<'a>(plan: &'a Plan, journal: &'a [Entry], tool: &Tool) -> KeyView<'a>
    ensures { key_meant result ≡ apply_key plan.now journal.now (tool_phase_of tool.now) }
{
    match tool.setup {
        Some(_) => KeyView::Values(&[]),
        None => KeyView::Of {
            row: tool.work.applier.unfit_row(journal),
            places: old_places(plan),
        },
    }
}

fn cause_of<'a>(
    plan: &'a Plan,
    journal: &'a [Entry],
    tool: &'a Tool,
    reason: Reason,
) -> CauseView<'a>
    ensures { cause_meant result ≡ cause_of plan.now journal.now (tool_of tool.now) (reason_of reason tool.now.spent.turns) }
{
    match reason {
        Reason::CopyUnfit {
            turn,
            column,
            number,
        } => CauseView::Unfit {
            turn,
            key: copy_key(journal, tool),
            column: new_column_name(plan, column),
            number,
        },
        Reason::ApplyUnfit {
            turn,
            column,
            number,
        } => CauseView::Unfit {
            turn,
            key: apply_key(plan, journal, tool),
            column: new_column_name(plan, column),
            number,
        },
        Reason::Spent(task) => CauseView::Spent {
            task,
            turns: tool.spent.as_slice(),
        },
        Reason::Panicked(turn) => CauseView::Panic(turn),
    }
}

/// How a run that has ended did so, and why, where the ALTER was done or wasn't.
pub fn verdict<'a>(
    plan: &'a Plan,
    journal: &'a [Entry],
    tool: &'a Tool,
    is_altered: bool,
) -> VerdictView<'a>
    ensures { verdict_meant result ≡ (if is_altered then verdicts.Done else reverted_by plan.now journal.now (tool_of tool.now) (tool_of tool.now).reason) }
{
    if is_altered {
        return VerdictView::Done;
    }
    match tool.reason {
        Some(reason) => VerdictView::Reverted(cause_of(plan, journal, tool, reason)),
        None => VerdictView::Unfinished,
    }
}
