//! What an attempt's requests are answered, what they leave of the tables, and how far an attempt is once the RENAME is
//! done.

ghost use Rattle.proof_migration.specs.Attempt.Laws.{AttemptsWait};
ghost use Rattle.proof_migration.specs.Attempt.Renamed.{RenamesAreSeen};

/// An attempt whose sentry isn't made yet waits for that, and one whose table is unlocked waits for the RENAME: neither is
/// refused.
pub fn attempts_wait()
    ensures { AttemptsWait }
{}

/// Once the RENAME is done no attempt is under way, but one whose tables are looked at, and none of them has the new one's
/// name.
pub fn renames_are_seen()
    ensures { RenamesAreSeen }
{}
