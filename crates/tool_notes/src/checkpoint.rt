//! What a checkpoint row tells.

use tool_changelog::Reach;

/// How far the migration has come.
#[derive(Drop)]
pub struct Checkpoint {
    /// How many events of the log are applied.
    pub position: u64,
    /// How far the rows are copied.
    pub reach: Reach,
}
