//! That the cause which a verdict names is in the journal, and that none is before it.

ghost use Rattle.proof_migration.specs.Attempt.Verdicts.{PanicsStand, SpentTasksStand, SpentAttemptsStand};
ghost use Rattle.proof_migration.specs.Attempt.Causes.{SpentCutOversStand};
ghost use Rattle.proof_migration.specs.Unfit.{UnfitRowsStand};
ghost use Rattle.proof_order.specs.Laws.{CausesAreLeast, PanicsAreLate, UnfitRowsAreLate};
ghost use Rattle.law_journals.specs.Causes.{AcceptedCausesAreLeast};

use crate::bounds::{batches_go_on, tries_are_few};
use crate::plans::{
    alterable_plans_are_runnable, read_options_allow, read_plans_are_runnable,
    read_plans_are_serial,
};
use base_values::laws::stored_values_store_again;

/// Where all was reverted because of panic, the operator commanded it in the turn that the verdict names.
pub fn panics_stand()
    ensures stands { PanicsStand }
{}

/// Where all was reverted because the setup, a chunk or a batch failed as often as the plan allows, the turns that the
/// verdict names rise, and each is such a failure.
pub fn spent_tasks_stand()
    ensures stands { SpentTasksStand }
{}

/// Where all was reverted because the cut-over failed as often as the plan allows, the turns that the verdict names rise,
/// and in each an attempt failed, or its sentry was refused.
pub fn spent_attempts_stand()
    ensures stands { SpentAttemptsStand }
{}

/// Where a verdict says that the cut-over was tried as often as the plan allows, each failed try is in the journal.
pub fn spent_cut_overs_stand()
    ensures { SpentCutOversStand }
{}

/// Where a verdict names a row that can't be converted, the copier read this row in that turn, or the applier wrote it for an
/// event of the migrated table, and its value was refused so.
pub fn unfit_rows_stand()
    ensures { UnfitRowsStand }
{
    stored_values_store_again();
    alterable_plans_are_runnable();
}

/// Where all was reverted, no panic was commanded before the turn in which the verdict's cause stands.
pub fn panics_are_late()
    ensures { PanicsAreLate }
{}

/// Nor was a value refused, of a row that can't be converted, before that turn.
pub fn unfit_rows_are_late()
    ensures { UnfitRowsAreLate }
{}

/// Whatever stands in the journal of a run, the verdict's cause stands by an earlier turn, or by the same turn. Then a row that
/// doesn't fit comes before a task that is spent, and the cut-over last.
pub fn causes_are_least()
    ensures { CausesAreLeast }
{
    batches_go_on();
    tries_are_few();
}

/// So it is in every run of every accepted plan.
pub fn accepted_causes_are_least()
    ensures { AcceptedCausesAreLeast }
{
    causes_are_least();
    read_options_allow();
    read_plans_are_runnable();
    read_plans_are_serial();
}
