//! Files of plans, what is asked of a program's call with each, and whether it is so.
#![tactic(auto)]

mod altered;
mod asked;
mod case_files;
mod edges;
mod lines;

pub use asked::Asked;
pub use case_files::run_case_files;
