//! Reads the text of a trace: the plan, and its run turn by turn; or says why the text is none. What a trace is printed as is all
//! that is read: each other line is refused.
#![tactic(auto)]

mod answers;
mod fault;
mod lines;
mod literals;
mod reading;
mod turns;
mod verdicts;
mod whole;

pub use answers::AnswerRead;
pub use fault::{TraceFault, TraceRefusal};
pub use reading::{LeftTables, OpenTurn, Reading};
pub use turns::TurnRead;
pub use verdicts::Ended;
pub use whole::{TRACE_LIMIT, read_trace};
