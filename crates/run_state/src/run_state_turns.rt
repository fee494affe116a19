//! What one turn makes of the run state.

mod additions;

pub use additions::{TurnFacts, take};
