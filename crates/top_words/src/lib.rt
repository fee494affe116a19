//! The words of a command line, and the command that they are.
#![tactic(auto)]

mod command;
mod forms;
mod line;
mod matches;
mod numbers;

pub use command::Command;
pub use line::Line;
pub use numbers::number_of;
