//! What one at a time gives: whether the transactions that a journal ended, run alone one after the other with the ALTER at its
//! mark, give the replies that the journal has, and the clients, the tables and the history that a report says; and whether its
//! verdict says of the ALTER what the journal has.
//!
//! This is for programs that compare, and no part of the tool: none of the server's code is in it, and of the report's only how
//! it goes along a journal, which is proved. That each call is safe and ends is proved, and so is what it stands on, the model
//! and the walk; that it compares all that is said here isn't.
#![tactic(auto)]

mod clients;
mod comparison;
mod execution;
mod history;
mod replies;
mod tables;

pub use comparison::agrees_with_reference;
