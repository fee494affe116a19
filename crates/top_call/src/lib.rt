//! The whole program from end to end: a plan's bytes in, a report's bytes out. In `whole_replays` the replay of a plan, in
//! `plan_works` its run by workers, in `resumed_runs` the new tool behind either; in `workers` that every plan that was read may be
//! run so, and in `printed_orders` that an order which a report printed is replayed.
#![tactic(auto)]

mod audits;
pub mod draws;
pub mod finishes;
pub mod marks;
mod outcome;
pub mod plan_rebuilds;
pub mod plan_works;
pub mod printed_orders;
pub mod read_traces;
pub mod resumed_runs;
mod status;
mod top;
mod turns;
pub mod whole_replays;
pub mod workers;

pub use outcome::Outcome;
pub use run_turns::{Turns, WorkerTurn};
pub use top::{Ended, ghost_, outcome_without_waits};
pub use top_endings::{PlanCommand, Printed, Status};
pub use top_words::{Command, Line};
