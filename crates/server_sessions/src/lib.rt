//! What the server keeps of its sessions and of the requests that wait. In `session_locks` who blocks the names
//! that a request mentions; in `live_sessions` the sessions and the waits, with the tables of their locks, and the log as one
//! value, and how each call changes it.
#![tactic(auto)]

mod counters;
mod events_size;
mod grant;
mod live_session;
pub mod live_sessions;
mod lookup;
pub mod session_locks;
mod sessions;
mod waits;

pub use counters::{counters_renamed, counters_with, counters_without, next_of, raise};
pub use events_size::EventsSize;
pub use live_session::LiveSession;
pub use lookup::{bytes_written, is_in_transaction, is_live, is_of_tool, polls_of};
pub use sessions::{connect, count_polls, disconnect, hold, lock_tables, rest, unlock_tables};
pub use waits::{begin_wait, end_wait, is_waiting, waiting_of};
