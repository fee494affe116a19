//! The text of a trace: the plan, each turn of its run on a line, how the run ended, and the tables that it left. So another
//! program can judge the run, or draw it.
#![tactic(auto)]

mod answers;
mod turns;
mod whole;

pub use whole::print_trace;
