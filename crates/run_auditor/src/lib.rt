//! The audit of a trace: each turn is held to the rules of turns, each transaction that ended is run alone over a server's storage and
//! judged, one at a time, and then the printed tables and the verdict are compared.
#![tactic(auto)]

mod alone;
mod altered_tables;
mod answer;
mod auditing;
mod drawn_numbers;
mod judge;
mod opening;
mod printed_tables;
mod trace_clients;
mod verdict;

pub use answer::audit;
