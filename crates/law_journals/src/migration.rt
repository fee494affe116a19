//! The copier, the applier and all other sessions together: over journals that follow the program each turn keeps the ghost
//! relation, and at the end the new table is the altered one.

ghost use Rattle.proof_migration.specs.Migration.Planning.{AltersArePlanned};
ghost use Rattle.proof_migration.specs.Migration.Copier.Laws.{CopiersKeep};
ghost use Rattle.proof_migration.specs.Migration.Applier.Laws.{AltersFindRows, AppliersKeep};
ghost use Rattle.proof_migration.specs.Migration.Laws.{JournalsAlter, MovesKeep, OthersKeep, TurnsKeep};

use base_values::laws::stored_values_store_again;

/// An ALTER that is taken keeps what the ghost relation rests on: the clustered key, and the unique keys.
pub fn alters_are_planned()
    ensures { AltersArePlanned }
{
    stored_values_store_again();
}

/// A turn of the copier, whatever is answered and wherever its session is lost, keeps the tool standing, and the copier knows of the
/// journal what it is to know.
pub fn copiers_keep()
    ensures { CopiersKeep }
{}

/// A turn of the applier, whatever is answered and wherever its session is lost, keeps the tool standing, and the applier knows of the
/// journal what it is to know.
pub fn appliers_keep()
    ensures { AppliersKeep }
{}

/// What the applier's statements rest on holds of each ALTER that is taken.
pub fn alters_find_rows()
    ensures { AltersFindRows }
{}

/// Another session's turn keeps the tool standing.
pub fn others_keep()
    ensures { OthersKeep }
{}

/// So does every turn of the migration, and every move between turns.
pub fn migrations_go_on()
    ensures turns { TurnsKeep }
    ensures moves { MovesKeep }
{}

/// From the range read to the mark, journals that follow the program make the new table the altered one.
pub fn journals_alter()
    ensures { JournalsAlter }
{}
