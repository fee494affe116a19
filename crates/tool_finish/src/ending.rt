//! How the new tool ends, and why. Nothing here takes memory.

ghost use Rattle.std.specs.Prelude.{◌≡◌};
ghost use Rattle.tool_state.specs.Verdicts.{cause_meant, verdict_meant};
ghost use Rattle.tool_finish.specs.Finishes.{cause_of, verdict_in, is_over};
ghost use Rattle.tool_finish.specs.Stages.{ends, verdict_behind};

use crate::stage::{Refusal, Stage, UnfitRow};
use plan_data::Plan;
use server_model::Entry;
use tool_state::{CauseView, KeyView, VerdictView, new_column_name, old_places};

impl UnfitRow {
    /// Why the row is rolled back.
    fn cause<'a>(&'a self, plan: &'a Plan, journal: &'a [Entry]) -> CauseView<'a>
        ensures { cause_meant result ≡ cause_of plan.now journal.now self.now }
    {
        let (key, refusal) = match self {
            UnfitRow::Copied(copier, refusal) => {
                (KeyView::Values(copier.unfit_key(journal)), refusal)
            }
            UnfitRow::Applied(applier, refusal) => (
                KeyView::Of {
                    row: applier.unfit_row(journal),
                    places: old_places(plan),
                },
                refusal,
            ),
        };
        CauseView::Unfit {
            turn: refusal.turn,
            key,
            column: new_column_name(plan, refusal.column),
            number: refusal.number,
        }
    }
}

impl Stage {
    /// Whether the new tool is over.
    pub fn is_over(&self) -> bool
        ensures { result ≡ is_over self.now }
    {
        matches!(self, Stage::Done | Stage::Reverted(_))
    }

    /// How the migration ended, and why, seen in the plan and the journal.
    pub fn verdict<'a>(&'a self, plan: &'a Plan, journal: &'a [Entry]) -> VerdictView<'a>
        ensures { verdict_meant result ≡ verdict_in plan.now journal.now self.now }
    {
        match self {
            Stage::Done => VerdictView::Done,
            Stage::Reverted(row) => VerdictView::Reverted(row.cause(plan, journal)),
            _ => VerdictView::Unfinished,
        }
    }

    /// Whether the new tool is over behind the answer to the call at this stage.
    pub fn ends(&self) -> bool
        ensures { result ≡ ends self.now }
    {
        matches!(
            self,
            Stage::DroppingLog(false)
                | Stage::DroppingOld
                | Stage::RollingBack(_)
                | Stage::Done
                | Stage::Reverted(_)
        )
    }

    /// How the migration ended, and why, behind that answer.
    pub fn verdict_behind<'a>(&'a self, plan: &'a Plan, journal: &'a [Entry]) -> VerdictView<'a>
        ensures { verdict_meant result ≡ verdict_behind plan.now journal.now self.now }
    {
        match self {
            Stage::DroppingLog(false) | Stage::DroppingOld | Stage::Done => VerdictView::Done,
            Stage::RollingBack(row) | Stage::Reverted(row) => {
                VerdictView::Reverted(row.cause(plan, journal))
            }
            _ => VerdictView::Unfinished,
        }
    }
}
