//! A run's journal as a text, and what an audit of such a text answers.
#![tactic(auto)]

mod line;
mod trace;

pub use line::{LineAnswer, LineAsked, TraceLine, TraceLines};
pub use trace::{Audit, PrintedTables, Trace};
