//! Workloads: plans that are made from a number, the same at each call.
#![tactic(auto)]

mod clients;
mod draws;
mod rows;
mod statements;
mod whole;

pub use whole::generate;
