//! Workers that take turns at one shared state, through a queue. In `turn_queue_workers` such workers as threads.
//!
//! `TurnQueue::open` takes a shared state and gives a pass to each worker. A worker calls `TurnQueue::turn` with its pass, from
//! any thread: it draws a ticket, waits until the ticket is served, and lets the shared state take one turn. `TurnQueue::meet`
//! lets one worker see what another has seen. `TurnQueue::close` takes the passes back and gives the shared state: its list has
//! each worker's turns once and in their order, and no others.
//!
//! Nothing is claimed of progress: that a turn comes, that turns are dealt out fairly, or how long a worker waits. A worker
//! whose thread ends within its turn keeps the others waiting.
#![tactic(auto)]

mod close;
mod hand;
mod opening;
mod pass;
mod plays;
mod rule;
mod shared_state;
mod steps;
mod turn_queue;
pub mod turn_queue_workers;

pub use pass::{Pass, Passes};
pub use shared_state::{Entry, SharedState};
pub use turn_queue::TurnQueue;
