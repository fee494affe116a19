//! Accepted plans: the call that reads one, and the meanings and lemmas of what holds of every run of it.
#![tactic(auto)]

mod reader;

pub use reader::read_accepted_plan;
