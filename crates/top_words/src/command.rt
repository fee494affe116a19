//! The commands of the program.

/// What a command line asks for.
#[derive(Clone, Copy)]
pub enum Command {
    /// `check`: the altered schema of a plan.
    Check,
    /// `replay`: a plan's run, on one thread.
    Replay,
    /// `run`: a plan's run on this many threads, 1 to 16.
    Run(u32),
    /// `generate`: the plan of a number. Nothing is read.
    Generate(u64),
    /// `trace`: a plan's run, on one thread, turn by turn.
    Trace,
    /// `audit`: a trace, judged. No plan is run.
    Audit,
    /// `rebuild`: a plan's run, on one thread, and its table made anew from the log by this many threads, 1 to 16.
    Rebuild(u32),
}
