//! A run whose turns worker threads take in one turn queue. In `worker_run` the run as that queue's shared state: each turn is
//! that of the actor that the rule gives its worker.
#![tactic(auto)]

mod runs;
pub mod worker_run;

pub use runs::{Ran, run_by_workers};
