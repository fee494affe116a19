//! Who refuses a lock.

ghost use Rattle.std.specs.Prelude.{◌≡◌};
ghost use Rattle.server_locks.specs.RowLocks.Grants.{refusal};

use crate::row_locks::lock::{HeldLock, Lock};

impl HeldLock {
    /// The session that holds this lock, where it refuses the session's.
    #[tactic(auto, unfolding(crate::specs::RowLocks::Grants::refusal))]
    pub(crate) fn refusal(&self, session: u32, lock: &Lock) -> Option<u32>
        ensures { result ≡ refusal session lock.now self.now }
    {
        if self.session != session && self.lock.conflicts(lock) {
            Some(self.session)
        } else {
            None
        }
    }
}
