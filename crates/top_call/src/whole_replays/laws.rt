//! The law that gathers what is promised of every run: the function's contract is it.

ghost use Rattle.top_call.specs.WholeReplays.SoundRuns.{KeptRunsAreSound};

use crate::draws::accepted_runs_draw;
use law_journals::bounds::runs_are_bounded;
use law_journals::causes::accepted_causes_are_least;
use law_journals::order::accepted_runs_keep_order;
use law_journals::runs::{
    accepted_runs_are_serial, accepted_runs_go_on, accepted_runs_keep_tables,
};

/// Every run of every accepted plan is sound, in whatever order its turns go.
pub fn kept_runs_are_sound()
    ensures { KeptRunsAreSound }
{
    accepted_runs_are_serial();
    accepted_runs_keep_tables();
    accepted_runs_keep_order();
    accepted_runs_draw();
    accepted_runs_go_on();
    accepted_causes_are_least();
    runs_are_bounded();
}
