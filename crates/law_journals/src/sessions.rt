//! Whose the server's sessions are, what those of the tool wait for, and that the cut-over goes on in the live ones.

ghost use Rattle.proof_migration.specs.ToolPhase.Laws.{SessionsAreOwned};
ghost use Rattle.proof_migration.specs.ToolPhase.Waits.{WaitsAreReported};
ghost use Rattle.proof_migration.specs.Program.Holds.{HoldsAreLive, LockersGoOn, RenamersGoOn};

/// Each session that is live on the server is some actor's.
pub fn sessions_are_owned()
    ensures { SessionsAreOwned }
{}

/// What the law of a whole RENAME asks of the renamer's waits holds of every journal that follows the program.
pub fn waits_are_reported()
    ensures reported { WaitsAreReported }
{}

/// Who has no live session has nothing: the locker no lock and no wait, the renamer no RENAME that waits.
pub fn holds_are_live()
    ensures { HoldsAreLive }
{}

/// A turn of the locker's or of the renamer's is in its last session, or the sentry relation names none of its sessions.
pub fn sessions_go_on()
    ensures locker { LockersGoOn }
    ensures renamer { RenamersGoOn }
{}
