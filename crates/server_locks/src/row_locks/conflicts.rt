//! Which locks different sessions can't hold both.

ghost use Rattle.std.specs.Prelude.{◌≡◌};
ghost use Rattle.server_locks.specs.RowLocks.Grants.{conflict};

use crate::row_locks::lock::Lock;

impl Lock {
    /// Whether different sessions can't hold both locks.
    #[tactic(auto, unfolding(crate::specs::RowLocks::Grants::conflict))]
    pub(crate) fn conflicts(&self, other: &Lock) -> bool
        ensures { result ≡ conflict self.now other.now }
    {
        self.table == other.table
            && self.key == other.key
            && (self.exclusive || other.exclusive)
            && self.span.meets(&other.span)
    }
}
