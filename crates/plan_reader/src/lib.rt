//! A plan's whole document: what its bytes say, or why they are refused. In `plan_tables` its tables with their rows.
#![tactic(auto)]

mod clients;
mod fault;
mod limits;
mod openings;
mod orders;
pub mod plan_tables;
mod plans;

pub use fault::{Place, PlanFault, PlanRefusal};
pub use limits::{COMMAND_LIMIT, OPEN_SELECT_LIMIT, ORDER_LIMIT, PLAN_LIMIT, STATEMENT_LIMIT};
pub use plans::read_plan;
