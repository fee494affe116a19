//! The numbers that are drawn for AUTO_INCREMENT columns, of every table and over the RENAME: the function's contract is the law.

ghost use Rattle.law_draws.specs.AllTables.{AcceptedRunsDraw};

use law_journals::cut_over::journals_are_turned;
use law_journals::plans::{read_plans_are_runnable, read_plans_are_serial};
use law_journals::runs::accepted_runs_are_serial;
use law_journals::server_turns::{definitions_are_done, exclusive_is_alone};
use law_journals::sessions::waits_are_reported;

/// In each run of an accepted plan a number that is drawn is drawn by a client's statement, is its table's counter, and is above each
/// number that was drawn before from a table of that name and above every value of the column, committed or written by a live session:
/// of the migrated table's name after the RENAME too.
pub fn accepted_runs_draw()
    ensures { AcceptedRunsDraw }
{
    exclusive_is_alone();
    definitions_are_done();
    waits_are_reported();
    journals_are_turned();
    accepted_runs_are_serial();
    read_plans_are_runnable();
    read_plans_are_serial();
}
