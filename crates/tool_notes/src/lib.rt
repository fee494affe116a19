//! The readers of notes in the changelog: of heartbeat rows and of checkpoint rows.
#![tactic(auto)]

mod checkpoint;
mod heartbeat;
pub mod laws;
mod reader;

pub use checkpoint::Checkpoint;
pub use heartbeat::heartbeat_of;
pub use reader::checkpoint_of;
