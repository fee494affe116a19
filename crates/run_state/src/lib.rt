//! The journal of a run, with what is kept of it so that no turn reads it anew. In `run_state_turns` what one turn makes of it.
#![tactic(auto)]

mod losses;
mod next_asked;
mod opening;
mod program;
mod reader;
mod run_state;
pub mod run_state_turns;

pub use next_asked::NextAsked;
pub use reader::script_of;
pub use run_state::RunState;
