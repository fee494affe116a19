//! A run of a plan on any server: its turns are taken one by one, and each of them is written into the journal. In `due_turns`
//! which turn is due, in `run_turns` one turn taken. A run may have a lagging replica that hands its log on: the applier reads no
//! further than the replica has come, and while it lags neither chunks nor attempts to cut over begin (`FeedRun`).
#![tactic(auto)]

mod actors;
mod due;
pub mod due_turns;
mod feed_run;
mod renames;
mod replica;
mod run;
pub mod run_turns;
mod worker_turn;

pub use feed_run::FeedRun;
pub use run::{Run, RunParts, Stepped};
pub use worker_turn::{Turns, WorkerTurn};
