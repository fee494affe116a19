//! The laws that gather what is promised of every new tool: each function's contract is one.

ghost use Rattle.top_call.specs.FinishLaws.{ReadPlanLaws, RunLaws};
ghost use Rattle.top_call.specs.ResumedRuns.{FinishesAreSound, FinishesMayCall, FinishesTellTheAlter};

use base_values::laws::stored_values_store_again;
use law_journals::cut_over::renames_come_once;
use law_journals::marked::marked_journals_are_runs;
use law_journals::plans::{
    read_options_allow, read_plans_are_runnable, read_plans_are_serial, read_plans_are_worded,
};
use law_journals::reverts::renames_find_the_altered;
use proof_resume::finish_laws::finishes_are_few;

/// What every plan that was read has.
pub(crate) fn read_plans_stand()
    ensures { ReadPlanLaws }
{
    read_plans_are_runnable();
    read_plans_are_serial();
    read_plans_are_worded();
    read_options_allow();
    stored_values_store_again();
}

/// Each kept journal of such a plan is a run of it.
fn runs_stand()
    ensures { RunLaws }
{
    marked_journals_are_runs();
    renames_find_the_altered();
    renames_come_once();
}

/// Each call of a new tool may be made of the server as it then is.
pub fn finishes_may_call()
    ensures { FinishesMayCall }
{
    read_plans_stand();
}

/// Every new tool's turns are sound.
pub fn finishes_are_sound()
    ensures { FinishesAreSound }
{
    read_plans_stand();
    runs_stand();
    finishes_are_few();
}

/// Where a new tool is over, its verdict tells whether the ALTER was done, and the row that didn't fit where it wasn't.
pub fn finishes_tell_the_alter()
    ensures { FinishesTellTheAlter }
{
    read_plans_stand();
}
