//! What holds of every table of names: each function's contract is a law, and its body is empty.

ghost use Rattle.server_locks.specs.MetadataLocks.Laws.{HeldNamesBear, GrantsWhole, WaitersGoFirst};

/// Locks on names that different sessions hold never conflict, whatever list of calls was made.
pub fn held_names_bear()
    ensures { HeldNamesBear }
{}

/// What is asked for is granted whole or not at all.
pub fn names_are_granted_whole()
    ensures { GrantsWhole }
{}

/// Whoever asks for a shared lock later waits after a request for an exclusive one.
pub fn waiters_go_first()
    ensures { WaitersGoFirst }
{}
