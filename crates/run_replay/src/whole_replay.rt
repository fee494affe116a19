//! The replay of a plan: its turns are taken in their order, until its run is over.

mod choice;
mod passes;
mod place;
mod replays;
mod words;

pub use replays::{ReplayOutcome, replay};
