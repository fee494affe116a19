//! The commands that read a plan.

/// What is done with a plan.
#[derive(Clone, Copy)]
pub enum PlanCommand {
    /// `check`: its altered schema is printed.
    Check,
    /// `replay`: it is run on one thread.
    Replay,
    /// `run`: it is run by this many worker threads, 1 to 16.
    Run(u32),
    /// `trace`: it is run on one thread, and printed turn by turn.
    Trace,
    /// `rebuild`: it is run on one thread, and its table is made anew from the log by this many threads, 1 to 16.
    Rebuild(u32),
}
