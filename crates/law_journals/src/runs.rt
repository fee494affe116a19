//! What is promised of every run of every accepted plan. In `plans` what every accepted plan has.

ghost use Rattle.proof_plans.specs.Laws.{AcceptedRunsAreSerial, AcceptedRenamesFindTheAltered, AcceptedRunsAreOnline, AcceptedRunsFindTheTable, AcceptedRunsGoOn, AcceptedRunsKeepTheOldTable, AcceptedCausesStand};

use crate::causes::{panics_stand, spent_cut_overs_stand, spent_tasks_stand, unfit_rows_stand};
use crate::chunks::journals_are_online;
use crate::cut_over::{journals_are_turned, renames_come_once};
use crate::marked::marked_journals_are_runs;
use crate::plans::{
    read_plans_are_runnable, read_plans_are_serial, read_plans_are_worded, read_scripts_end,
};
use crate::progress::someone_goes;
use crate::reverts::{kept_journals_are_serial, renames_find_the_altered};
use crate::server_turns::{definitions_are_done, exclusive_is_alone};
use crate::sessions::waits_are_reported;

/// Every run of every accepted plan is serial: in any order of turns, whatever is answered, refused, lost or reverted,
/// clients' replies and the tables left are those of the ended transactions run one at a time in the order they ended, with
/// the ALTER applied to the whole table at one instant or not at all. Where its RENAME is done it finds the altered table.
pub fn accepted_runs_are_serial()
    ensures serial { AcceptedRunsAreSerial }
    ensures altered { AcceptedRenamesFindTheAltered }
{
    kept_journals_are_serial();
    renames_find_the_altered();
    read_plans_are_serial();
    read_plans_are_worded();
}

/// Its clients' statements find the migrated table, whenever they are asked: the RENAME takes its name and gives it in one
/// step. From then on the old table, while it exists, is what it was just before.
pub fn accepted_runs_keep_tables()
    ensures found { AcceptedRunsFindTheTable }
    ensures old { AcceptedRunsKeepTheOldTable }
{
    marked_journals_are_runs();
    renames_find_the_altered();
    renames_come_once();
    journals_are_turned();
    exclusive_is_alone();
    definitions_are_done();
    waits_are_reported();
    read_plans_are_runnable();
    read_plans_are_serial();
    read_plans_are_worded();
}

/// It is online, and goes on until it has ended; and where all was reverted, the cause that the verdict names is in the
/// journal: a row that didn't fit, tries that failed, or panic.
pub fn accepted_runs_go_on()
    ensures online { AcceptedRunsAreOnline }
    ensures going { AcceptedRunsGoOn }
    ensures causes { AcceptedCausesStand }
{
    journals_are_online();
    someone_goes();
    panics_stand();
    spent_tasks_stand();
    spent_cut_overs_stand();
    unfit_rows_stand();
    read_plans_are_runnable();
    read_plans_are_serial();
    read_plans_are_worded();
    read_scripts_end();
}
