//! What a server keeps beside its tables and what is written to them: sessions, requests that wait, and the log; and how
//! each call changes them.

mod all_sessions;
mod counter_moves;
mod room;
mod session_list;

pub use all_sessions::Sessions;
pub use counter_moves::CounterMove;
pub use session_list::SessionList;
