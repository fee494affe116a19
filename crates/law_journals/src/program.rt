//! In every journal that follows an alterable plan's program the new table becomes the altered one: each of its turns is
//! one of the migration's, so that the ghost relation goes on to the mark.

ghost use Rattle.proof_migration.specs.Program.Turns.Laws.{FollowersGoOn, MarksAreAltered};
ghost use Rattle.proof_migration.specs.Program.Laws.{FollowersAlter, FollowersGo};

use crate::plans::alterable_plans_are_runnable;
use base_values::laws::stored_values_store_again;

/// Over whatever turns follow the program the migration goes on.
pub fn followers_go_on()
    ensures { FollowersGoOn }
{}

/// At the mark the new table is the altered one.
pub fn marks_are_altered()
    ensures { MarksAreAltered }
{}

/// From the opening on, once the setup is over the migration goes.
pub fn followers_go()
    ensures { FollowersGo }
{}

/// At the mark the new table is the altered one.
pub fn followers_alter()
    ensures { FollowersAlter }
{
    stored_values_store_again();
    alterable_plans_are_runnable();
}
