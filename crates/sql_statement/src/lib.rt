//! The texts of clients' scripts: what each line asks for, or why the first that doesn't fit is refused.
#![tactic(auto)]

mod code;
mod conditions;
mod lines;
mod pieces;
mod rows;
mod scope;
mod scripts;
mod statements;

pub use code::{ScriptCode, ScriptFault, ScriptRefusal, StatementCode, StatementFault};
pub use scripts::read_script;
pub use statements::read_statement;
