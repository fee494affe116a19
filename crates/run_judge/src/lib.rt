//! What an audit of a trace is made of: the replies that clients got are compared with those that they have alone, and what the rules
//! of turns ask is kept of actors, of clients and of the turns so far.
#![tactic(auto)]

pub mod actor_marks;
pub mod least;
pub mod outcomes;
pub mod replies;
pub mod trace_client;
pub mod turn_rules;
pub mod turns_seen;
