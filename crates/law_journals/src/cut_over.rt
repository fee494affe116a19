//! Each turn is a turn of the cut-over, so that by the sentry relation the RENAME comes at the mark; and in every journal
//! that is kept it is done once at most.

ghost use Rattle.proof_migration.specs.Program.LockerTurns.{LockersAreTurned, RenamersAreTurned};
ghost use Rattle.proof_migration.specs.Program.InspectorTurns.{InspectorsAreTurned};
ghost use Rattle.proof_migration.specs.Program.BatchTurns.{AppliersAreTurned, CopiersAreTurned};
ghost use Rattle.proof_migration.specs.CutOver.{ClientsAreTurned, JournalsAreTurned, OperatorsAreTurned, RenamesComeAtTheMark};
ghost use Rattle.proof_migration.specs.Once.{RenamesComeOnce};

use crate::hints::hints_are_known;
use crate::server_turns::{
    definitions_are_done, entries_are_turns, exclusive_is_alone, locks_are_taken,
};
use crate::sessions::waits_are_reported;

/// A turn of the locker's is such a turn as the sentry relation asks: what its session has on the server is what the
/// cut-over keeps of it, in its calls, its polls and its losses.
pub fn lockers_are_turned()
    ensures { LockersAreTurned }
{
    entries_are_turns();
    definitions_are_done();
    exclusive_is_alone();
    locks_are_taken();
}

/// So is one of the renamer's: while the locker holds the table its RENAME is refused with no error.
pub fn renamers_are_turned()
    ensures { RenamersAreTurned }
{
    entries_are_turns();
}

/// A turn of the inspector's is such a turn as the sentry relation asks: while an attempt may succeed it makes and drops no
/// table, and the hint row that it writes is what its turn logs.
pub fn inspectors_are_turned()
    ensures { InspectorsAreTurned }
{
    entries_are_turns();
    hints_are_known();
}

/// A turn of the copier's is such a turn as the sentry relation asks.
pub fn copiers_are_turned()
    ensures { CopiersAreTurned }
{
    entries_are_turns();
}

/// So is one of the applier's.
pub fn appliers_are_turned()
    ensures { AppliersAreTurned }
{
    entries_are_turns();
}

/// A client's turn is such a turn as the sentry relation asks.
pub fn clients_are_turned()
    ensures { ClientsAreTurned }
{
    entries_are_turns();
}

/// So is a turn of the operator's, a command.
pub fn operators_are_turned()
    ensures { OperatorsAreTurned }
{
    entries_are_turns();
}

/// So is every turn, until the RENAME is done.
pub fn journals_are_turned()
    ensures { JournalsAreTurned }
{
    clients_are_turned();
    operators_are_turned();
    lockers_are_turned();
    renamers_are_turned();
    inspectors_are_turned();
    copiers_are_turned();
    appliers_are_turned();
}

/// Where nothing is reverted the RENAME comes at the mark.
pub fn renames_come_at_the_mark()
    ensures { RenamesComeAtTheMark }
{
    journals_are_turned();
    exclusive_is_alone();
    definitions_are_done();
    waits_are_reported();
}

/// After the RENAME the new table's name is free for good, so no RENAME is done again.
pub fn renames_come_once()
    ensures { RenamesComeOnce }
{
    definitions_are_done();
}
