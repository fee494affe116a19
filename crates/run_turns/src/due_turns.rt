//! The turn that is due in a run: a loss between calls, or what is given to an actor; and that a journal with it is kept.
//! In `migration_run` what one turn does on any server.

pub mod due_calls;
pub mod migration_run;

ghost use Rattle.run_turns.specs.DueTurns.Laws.{DueTurnsAreKept, DueTurnsAreNumbered};

/// A journal that a run keeps is kept with the turn that is due.
pub fn due_turns_are_kept()
    ensures kept { DueTurnsAreKept }
    ensures numbered { DueTurnsAreNumbered }
{}
