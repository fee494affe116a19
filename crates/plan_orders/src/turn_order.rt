//! The order of turns that a plan asks for, as a text.

mod fault;
mod turns;

pub use fault::{TurnFault, TurnRefusal};
pub use turns::{has_more_turns, read_turns};
