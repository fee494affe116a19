//! What holds of every table of row locks: each function's contract is a law, and its body is empty.

ghost use Rattle.server_locks.specs.RowLocks.Laws.{HeldLocksBear, ConflictBothWays, GrantsWhole};

/// Locks that different sessions hold never conflict, whatever list of calls was made.
pub fn held_locks_bear()
    ensures { HeldLocksBear }
{}

/// Which of two locks is held first doesn't matter.
pub fn conflicts_go_both_ways()
    ensures { ConflictBothWays }
{}

/// What is asked for is granted whole or not at all.
pub fn sets_are_granted_whole()
    ensures { GrantsWhole }
{}
