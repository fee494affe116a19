//! A journal that is kept, and in which the RENAME is done once at most and finds the altered table, is a run of its plan.

ghost use Rattle.proof_migration.specs.ToolPhase.Marked.{MarkedJournalsAreRuns, MarkedJournalsAreSerial};

use crate::plans::alterable_plans_are_runnable;

/// A journal that is kept and marked is a run of its plan.
pub fn marked_journals_are_runs()
    ensures { MarkedJournalsAreRuns }
{
    alterable_plans_are_runnable();
}

/// So its history is serial, with one ALTER at most.
pub fn marked_journals_are_serial()
    ensures { MarkedJournalsAreSerial }
{
    alterable_plans_are_runnable();
}
