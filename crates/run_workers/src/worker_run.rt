//! A run whose turns worker threads take in one turn queue: each turn is that of the actor that the rule gives its worker.

mod choice;
mod members;
mod worked;
mod worker_turns;

pub use worked::{Opening, Worked};
