//! The actors in their fixed order, and what is kept of each: its live session, how many turns it took, and the RENAME that it
//! waits with; and where losses strike. In `client_turns` how far a client is in its script, what became of its line in a turn, and
//! what it asks next: a run, its report and the audit of a trace know it from there.
#![tactic(auto)]

mod actor_state;
mod actors;
mod alters;
pub mod client_turns;
mod losses;
mod renaming;

pub use actor_state::{ActorState, take_turn};
pub use actors::{actor_at, actor_count, is_client, same_actor};
pub use alters::is_alter_turn;
pub use losses::struck_among;
pub use renaming::Renaming;
