//! That a run in which nothing hinders the tool ends with the table altered.

ghost use Rattle.proof_plans.specs.Complete.Laws.{SmoothRunsAreDone};
ghost use Rattle.proof_plans.specs.Complete.Quiet.{AcceptedQuietRunsAreDone, QuietRunsAreDone};

use crate::machines::verdicts_tell_the_alter;
use crate::plans::{read_plans_are_runnable, read_plans_are_serial, read_scripts_end};
use crate::progress::someone_goes;
use base_values::laws::stored_values_store_again;

/// Where no turn hinders the tool, a run that has ended is done.
pub fn smooth_runs_are_done()
    ensures { SmoothRunsAreDone }
{
    verdicts_tell_the_alter();
}

/// So is a run of a plan without clients, commands and losses, each of whose rows can be converted, that meets no limit.
pub fn quiet_runs_are_done()
    ensures { QuietRunsAreDone }
{
    stored_values_store_again();
    verdicts_tell_the_alter();
}

/// So is every run of an accepted plan of that kind in which no actor is ready any more.
pub fn accepted_quiet_runs_are_done()
    ensures { AcceptedQuietRunsAreDone }
{
    quiet_runs_are_done();
    read_plans_are_runnable();
    read_plans_are_serial();
    read_scripts_end();
    someone_goes();
}
