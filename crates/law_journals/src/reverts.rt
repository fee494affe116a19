//! Whatever is reverted, the RENAME that is done finds the altered table, so kept journals are serial.

ghost use Rattle.proof_migration.specs.Laws.{KeptJournalsAreSerial, RenamesFindTheAltered};

use crate::cut_over::{journals_are_turned, renames_come_once};
use crate::marked::marked_journals_are_serial;
use crate::plans::alterable_plans_are_runnable;
use crate::program::followers_alter;
use crate::server_turns::{definitions_are_done, exclusive_is_alone};
use crate::sessions::waits_are_reported;
use base_values::laws::stored_values_store_again;

/// Where the RENAME is done the new table is the altered one, whether or not all is reverted.
pub fn renames_find_the_altered()
    ensures { RenamesFindTheAltered }
{
    stored_values_store_again();
    alterable_plans_are_runnable();
    followers_alter();
    journals_are_turned();
    exclusive_is_alone();
    definitions_are_done();
    waits_are_reported();
}

/// So the history of a whole journal is serial, with one ALTER at most.
pub fn kept_journals_are_serial()
    ensures { KeptJournalsAreSerial }
{
    alterable_plans_are_runnable();
    marked_journals_are_serial();
    renames_come_once();
    renames_find_the_altered();
}
