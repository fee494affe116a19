//! That the migrated table right after the RENAME is the rebuilt one: each function's contract is a law.

ghost use Rattle.law_rebuild.specs.Laws.{AcceptedMarksAreRebuilt};
ghost use Rattle.top_call.specs.Rebuilds.{FinishedMarksAreRebuilt};

use crate::finishes::read_plans_stand;
use law_journals::cut_over::journals_are_turned;
use law_journals::plans::{read_plans_are_runnable, read_plans_are_serial};
use law_journals::runs::accepted_runs_are_serial;
use law_journals::server_turns::{definitions_are_done, exclusive_is_alone};
use law_journals::sessions::waits_are_reported;

/// In each run of an accepted plan, right after the RENAME the table under the migrated one's name is what its opening rows and the
/// log make, altered.
pub fn accepted_marks_are_rebuilt()
    ensures { AcceptedMarksAreRebuilt }
{
    exclusive_is_alone();
    definitions_are_done();
    waits_are_reported();
    journals_are_turned();
    accepted_runs_are_serial();
    read_plans_are_runnable();
    read_plans_are_serial();
}

/// So it is where a new tool did the RENAME behind such a run, and nothing of the table is logged after that.
pub fn finished_marks_are_rebuilt()
    ensures { FinishedMarksAreRebuilt }
{
    read_plans_stand();
}
