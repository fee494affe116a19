//! What a request needs of other sessions.

use base_values::Names;
use server_locks::row_locks::LockSet;

/// The locks that a request needs, all at once.
#[derive(Drop)]
pub struct Need {
    /// Whether its names are needed exclusively, or else shared.
    pub exclusive: bool,
    /// The names of tables.
    pub names: Names,
    /// The row locks.
    pub locks: LockSet,
}
