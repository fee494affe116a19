//! The replay of a plan that was read, on any server at its opening: its journal, with all that is promised of it, and how it
//! ended.

mod laws;
mod opening;
mod replays;

pub use laws::kept_runs_are_sound;
pub use opening::open_plan;
pub use replays::{Replay, migrated_in, replay_plan};
