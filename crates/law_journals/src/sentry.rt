//! The sentry relation: where the tool's RENAME may run, the sentry exists, or all of the table is in the new one and nobody
//! else holds it.

ghost use Rattle.proof_journals.specs.Sentry.TurnResults.{RenamesAreWhole, RenamesFollow};
ghost use Rattle.proof_journals.specs.Sentry.Laws.{JournalsAreGuarded, SessionsDiffer, LiveIsLast};

/// After every journal of such turns the sentry relation holds.
pub fn journals_are_guarded()
    ensures { JournalsAreGuarded }
{}

/// Where the RENAME is done, the range is copied, every event is applied, and nobody else holds the table: by the relation alone, and
/// in the renamer's turn that follows the program.
pub fn renames_are_whole()
    ensures whole { RenamesAreWhole }
    ensures follows { RenamesFollow }
{}

/// Sessions of different actors differ.
pub fn sessions_differ()
    ensures differ { SessionsDiffer }
    ensures last { LiveIsLast }
{}
