//! Until the RENAME is done every journal that follows the program is a run of its plan, of which the laws of histories
//! hold.

ghost use Rattle.proof_migration.specs.ToolPhase.Unaltered.{UnalteredJournalsAreRuns, UnalteredJournalsAreSerial};

/// Until the RENAME is done a journal that is kept is a run of its plan: the tool keeps away from clients' tables.
pub fn unaltered_journals_are_runs()
    ensures { UnalteredJournalsAreRuns }
{}

/// So its history is serial.
pub fn unaltered_journals_are_serial()
    ensures { UnalteredJournalsAreSerial }
{}
