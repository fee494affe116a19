//! Runs of plans in many orders of turns, with each single loss of a session, and by worker threads, each held to what one
//! transaction at a time gives.
#![tactic(auto)]

mod as_reference;
mod losses;
mod orders;
mod runs;
mod workers;

pub use runs::{Runs, run_files};
