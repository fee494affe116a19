//! The server: its sessions with their waits, the log, and the plain server's answers, over a storage of tables in pages.
#![tactic(auto)]

mod calls;
mod commits;
mod counter_requests;
mod counters;
mod definitions;
mod drawn_answers;
mod filled_requests;
mod known_blockers;
mod losses;
mod opening;
mod operation;
mod records;
mod results;
mod server;

pub use opening::open_server;
pub use server::Server;
