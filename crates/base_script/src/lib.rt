//! Statements and scripts: what clients ask of the server, line by line.
#![tactic(auto)]

mod actor;
mod loss;
mod operator;
mod script;
mod statement;

pub use actor::{Actor, Side};
pub use loss::Loss;
pub use operator::{Command, Commands, OperatorWord};
pub use script::{Script, ScriptLine, ScriptWord};
pub use statement::{Comparison, Comparisons, Condition, Set, Sets, Shown, Sign, Statement};
