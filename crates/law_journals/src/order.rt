//! In which order the tool works, read from the journal alone: the steps of the cut-over, the locks of the copy, and how
//! logged rows are applied.

ghost use Rattle.law_journals.specs.Orders.{AcceptedRunsKeepOrder, AcceptedRunsCopyUnderLocks, AcceptedRunsApplyInserts};
ghost use Rattle.proof_order.specs.Laws.{KeptJournalsKeepOrder, JournalsCopyUnderLocks, JournalsApplyInserts};

use crate::bounds::inspectors_wait_to_set;
use crate::plans::{read_plans_are_runnable, read_plans_are_serial};

/// The locker drops the sentry only once the inspector was shown that the RENAME waits, and under LOCK TABLES; the renamer calls
/// the RENAME only once the hint row of its own attempt was applied, and under that lock; from then on no batch begins before the
/// attempt is over; an attempt that failed is cleared up only once nobody of it holds the tables or waits, and so are rows of notes
/// written; and the old table is dropped only where the plan lets the tool drop it.
pub fn kept_journals_keep_order()
    ensures { KeptJournalsKeepOrder }
{
    inspectors_wait_to_set();
}

/// The copier copies a row only by a key that was given with the share lock on the whole chunk, while that transaction is open.
pub fn journals_copy_under_locks()
    ensures { JournalsCopyUnderLocks }
{}

/// The applier puts each row that an INSERT logged of the migrated table by REPLACE, before it commits what it read; it calls no
/// INSERT.
pub fn journals_apply_inserts()
    ensures { JournalsApplyInserts }
{}

/// So it is in every run of every accepted plan.
pub fn accepted_runs_keep_order()
    ensures order { AcceptedRunsKeepOrder }
    ensures locks { AcceptedRunsCopyUnderLocks }
    ensures inserts { AcceptedRunsApplyInserts }
{
    kept_journals_keep_order();
    journals_copy_under_locks();
    journals_apply_inserts();
    read_plans_are_runnable();
    read_plans_are_serial();
}
